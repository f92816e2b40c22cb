// Setting a cell.
ghost use Rattle.std.specs.Prelude.{◌≡◌, ◌<◌, ◌⊎◌, Bool, IfErr, IsErrOf, MatchResult, None, Some, false, true};
ghost use Rattle.clfs_manager.specs.Written.{WritesDisk};
ghost use Rattle.clfs_model.specs.declared.refusal.Refusal.TheVariants as log_refusals;
ghost use Rattle.clfs_cells.specs.declared.asked.TxnCall.TheVariants as asked;
ghost use Rattle.clfs_cells.specs.declared.told.TxnRefusal.TheVariants as refusals;
ghost use Rattle.clfs_cells.specs.declared.told.TxnReply.TheVariants as replies;
ghost use Rattle.clfs_cells.specs.Calls.{change_to, txn_plan};
ghost use Rattle.clfs_cells.specs.Kept.{transaction_of};
ghost use Rattle.clfs_cells.specs.Stored.{transaction};
ghost use Rattle.clfs_txn.specs.Calls.{IsFound, IsNotFound, TxnSteps, is_fault};
ghost use Rattle.clfs_txn.specs.UnderWay.{Meanwhile, UnderWay};

use crate::table::TableLog;
use clfs_cells::{Action, Change, Transaction, TxnRefusal};
use clfs_disk::Disk;
use clfs_model::Refusal;

impl<D: Disk> TableLog<D> {
    // The open transaction of a number, unless the log is broken.
    pub(crate) fn open_transaction(&self, txn: u32) -> Result<Transaction, TxnRefusal>
        ensures { MatchResult result (λ t. IsFound self.now.0 txn (transaction_of t)) (λ refusal. IsNotFound self.now.0 txn refusal) }
    {
        if self.broken {
            return Err(TxnRefusal::Log(Refusal::Broken));
        }
        match self.memory.transaction(txn) {
            Some(t) => Ok(t),
            None => Err(TxnRefusal::NoSuchTxn),
        }
    }

    // The change that gives a cell a value.
    fn change_to(&self, cell: u16, value: u64) -> Change
        requires { cell < 32 }
        ensures { result ≡ change_to self.now.0.memory cell value }
    {
        Change {
            cell,
            old: self.memory.cell(cell),
            new: value,
        }
    }

    // An open transaction sets a cell.
    fn set_open(
        &mut self,
        t: &Transaction,
        txn: u32,
        cell: u16,
        value: u64,
    ) -> Result<(), TxnRefusal>
        requires cell { cell < 32 }
        requires found { IsFound self.old.0 txn (transaction_of t.now) }
        ensures step { (told : Bool) → TxnSteps told self.old.0 (asked.Set txn cell value) (λ _. replies.Done) result self.new.0 }
        ensures moments { (under : UnderWay) → Meanwhile under (D.state self.old.1).nature.tells_contents self.old.0.memory.client self.old.0.log
            (txn_plan self.old.0.log self.old.0.memory (asked.Set txn cell value)) (D.state self.old.1) (D.state self.new.1) }
        ensures writes { WritesDisk (IsErrOf result (refusals.Log log_refusals.DiskFault)) (D.state self.old.1) (D.state self.new.1) }
        ensures kept { IfErr result (λ refusal. is_fault refusal ≡ false → self.new.0 ≡ self.old.0) }
    {
        if let Some(other) = self.memory.holder(txn, cell) {
            return Err(TxnRefusal::CellHeld { txn: other });
        }
        if t.is_spent() {
            return Err(TxnRefusal::ChangesSpent {
                changes: t.changes() as u32,
            });
        }
        let change = self.change_to(cell, value);
        match self.append(t, Action::Set(change), t.newest_standing(), false) {
            Ok(lsn) => {
                self.memory.set(t, change, lsn);
                Ok(())
            }
            Err(refusal) => Err(TxnRefusal::Log(refusal)),
        }
    }

    // A transaction sets a cell.
    pub(crate) fn set(&mut self, txn: u32, cell: u16, value: u64) -> Result<(), TxnRefusal>
        requires { cell < 32 }
        ensures step { (told : Bool) → TxnSteps told self.old.0 (asked.Set txn cell value) (λ _. replies.Done) result self.new.0 }
        ensures moments { (under : UnderWay) → Meanwhile under (D.state self.old.1).nature.tells_contents self.old.0.memory.client self.old.0.log
            (txn_plan self.old.0.log self.old.0.memory (asked.Set txn cell value)) (D.state self.old.1) (D.state self.new.1) }
        ensures writes { WritesDisk (IsErrOf result (refusals.Log log_refusals.DiskFault)) (D.state self.old.1) (D.state self.new.1) }
        ensures kept { IfErr result (λ refusal. is_fault refusal ≡ false → self.new.0 ≡ self.old.0) }
        ensures stopped { self.old.0.log.broken ≡ true → self.new.1 ≡ self.old.1 }
    {
        match self.open_transaction(txn) {
            Ok(t) => self.set_open(&t, txn, cell, value),
            Err(refusal) => Err(refusal),
        }
    }
}
