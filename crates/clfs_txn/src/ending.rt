// The end of a transaction: its last record, and the room that it holds besides.
ghost use Rattle.std.specs.Prelude.{◌≡◌, ℕ, Bool, IfErr, IsErrOf, false, true};
ghost use Rattle.clfs_cells.specs.declared.told.TxnRefusal.TheVariants as refusals;
ghost use Rattle.clfs_model.specs.declared.refusal.Refusal.TheVariants as log_refusals;
ghost use Rattle.clfs_manager.specs.Written.{WritesDisk};
ghost use Rattle.clfs_cells.specs.declared.asked.TxnCall.TheVariants as asked;
ghost use Rattle.clfs_cells.specs.declared.row.Action.TheVariants.{Commit};
ghost use Rattle.clfs_cells.specs.declared.told.TxnReply.TheVariants as replies;
ghost use Rattle.clfs_cells.specs.Calls.{end_plan, txn_plan};
ghost use Rattle.clfs_cells.specs.Kept.{transaction_of};
ghost use Rattle.clfs_txn.specs.Calls.{Carries, TxnSteps, is_of_log};
ghost use Rattle.clfs_txn.specs.UnderWay.{Meanwhile, UnderWay};

use crate::table::TableLog;
use clfs_cells::{Action, Transaction, TxnRefusal};
use clfs_disk::Disk;
use clfs_lsn::Lsn;

impl<D: Disk> TableLog<D> {
    // An open transaction ends so.
    pub(crate) fn end(
        &mut self,
        t: &Transaction,
        action: Action,
        flush: bool,
    ) -> Result<(), TxnRefusal>
        requires { self.old.0.log.broken ≡ false }
        ensures kept { IsErrOf result (refusals.Log log_refusals.NoMemory) → self.new.0 ≡ self.old.0 }
        ensures log { IfErr result (λ refusal. is_of_log refusal ≡ true) }
        ensures no_damage { (container offset at : ℕ) → IsErrOf result (refusals.Log (log_refusals.Damaged container offset at)) → ⊥ }
        ensures writes { WritesDisk (IsErrOf result (refusals.Log log_refusals.DiskFault)) (D.state self.old.1) (D.state self.new.1) }
        ensures step { (told : Bool) → Carries told self.old.0 (end_plan self.old.0.memory (transaction_of t.now) action flush) (λ _. replies.Done) result self.new.0 }
        ensures moments { (under : UnderWay) → Meanwhile under (D.state self.old.1).nature.tells_contents self.old.0.memory.client self.old.0.log
            (end_plan self.old.0.memory (transaction_of t.now) action flush) (D.state self.old.1) (D.state self.new.1) }
    {
        if let Err(refusal) = self.append(t, action, Lsn::null(), flush) {
            return Err(TxnRefusal::Log(refusal));
        }
        let left = 2 * t.changes() as usize - t.records_made();
        self.memory.end(t.number());
        match self.release(left as u32) {
            Ok(_) => Ok(()),
            Err(refusal) => Err(TxnRefusal::Log(refusal)),
        }
    }

    // What a transaction did stays.
    pub(crate) fn commit(&mut self, txn: u32) -> Result<(), TxnRefusal>
        ensures step { (told : Bool) → TxnSteps told self.old.0 (asked.Commit txn) (λ _. replies.Done) result self.new.0 }
        ensures moments { (under : UnderWay) → Meanwhile under (D.state self.old.1).nature.tells_contents self.old.0.memory.client self.old.0.log
            (txn_plan self.old.0.log self.old.0.memory (asked.Commit txn)) (D.state self.old.1) (D.state self.new.1) }
        ensures kept { IsErrOf result (refusals.Log log_refusals.NoMemory) → self.new.0 ≡ self.old.0 }
        ensures writes { WritesDisk (IsErrOf result (refusals.Log log_refusals.DiskFault)) (D.state self.old.1) (D.state self.new.1) }
        ensures stopped { self.old.0.log.broken ≡ true → self.new.1 ≡ self.old.1 }
    {
        match self.open_transaction(txn) {
            Ok(t) => self.end(&t, Action::Commit, true),
            Err(refusal) => Err(refusal),
        }
    }
}
