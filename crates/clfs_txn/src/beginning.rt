// The beginning of a transaction: the log holds room for all its records, and it has a number.
ghost use Rattle.std.specs.Prelude.{◌≡◌, ◌≤◌, Bool, IfErr, IsErrOf, false, true};
ghost use Rattle.clfs_cells.specs.declared.told.TxnRefusal.TheVariants as refusals;
ghost use Rattle.clfs_model.specs.declared.refusal.Refusal.TheVariants as log_refusals;
ghost use Rattle.clfs_manager.specs.Written.{WritesDisk};
ghost use Rattle.clfs_cells.specs.declared.asked.TxnCall.TheVariants as asked;
ghost use Rattle.clfs_cells.specs.declared.told.TxnReply.TheVariants as replies;
ghost use Rattle.clfs_cells.specs.Calls.{txn_plan};
ghost use Rattle.clfs_txn.specs.Calls.{TxnSteps, is_fault};
ghost use Rattle.clfs_txn.specs.UnderWay.{Meanwhile, UnderWay};

use crate::table::TableLog;
use clfs_cells::{MOST_TRANSACTIONS, TxnRefusal};
use clfs_disk::Disk;
use clfs_model::Refusal;

impl<D: Disk> TableLog<D> {
    // A transaction begins that makes so many sets at most.
    pub(crate) fn begin(&mut self, changes: u16) -> Result<u32, TxnRefusal>
        requires some { 1 ≤ changes }
        requires few { changes ≤ 7 }
        ensures step { (told : Bool) → TxnSteps told self.old.0 (asked.Begin changes) replies.Begun result self.new.0 }
        ensures moments { (under : UnderWay) → Meanwhile under (D.state self.old.1).nature.tells_contents self.old.0.memory.client self.old.0.log
            (txn_plan self.old.0.log self.old.0.memory (asked.Begin changes)) (D.state self.old.1) (D.state self.new.1) }
        ensures writes { WritesDisk (IsErrOf result (refusals.Log log_refusals.DiskFault)) (D.state self.old.1) (D.state self.new.1) }
        ensures kept { IfErr result (λ refusal. is_fault refusal ≡ false → self.new.0 ≡ self.old.0) }
        ensures stopped { self.old.0.log.broken ≡ true → self.new.1 ≡ self.old.1 }
    {
        if self.broken {
            return Err(TxnRefusal::Log(Refusal::Broken));
        }
        let open_now = self.memory.open_now();
        if open_now == MOST_TRANSACTIONS {
            return Err(TxnRefusal::TxnLimit {
                open_now: open_now as u32,
            });
        }
        if self.memory.last() == u32::MAX {
            return Err(TxnRefusal::IdsSpent);
        }
        match self.reserve(changes) {
            Ok(_) => Ok(self.memory.begin(changes)),
            Err(refusal) => Err(TxnRefusal::Log(refusal)),
        }
    }
}
