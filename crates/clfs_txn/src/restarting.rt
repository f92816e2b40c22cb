// A checkpoint: a restart area with all cells, above which alone the log is read when the table is loaded again.
ghost use Rattle.std.specs.Prelude.{◌≡◌, ◌+◌, ◌<◌, ◌^◌, Bool, IfErr, IfOk, IsErrOf, false, length, true};
ghost use Rattle.clfs_cells.specs.declared.told.TxnRefusal.TheVariants as refusals;
ghost use Rattle.clfs_model.specs.declared.refusal.Refusal.TheVariants as log_refusals;
ghost use Rattle.clfs_manager.specs.Written.{WritesDisk};
ghost use Rattle.clfs_model.specs.declared.call.Call.TheVariants as calls;
ghost use Rattle.clfs_model.specs.declared.reply.Reply.TheVariants as log_replies;
ghost use Rattle.clfs_manager.specs.Calls.{Steps};
ghost use Rattle.clfs_cells.specs.declared.asked.TxnCall.TheVariants as asked;
ghost use Rattle.clfs_cells.specs.declared.told.TxnReply.TheVariants as replies;
ghost use Rattle.clfs_cells.specs.Layout.{checkpoint_bytes};
ghost use Rattle.clfs_cells.specs.Calls.{txn_plan};
ghost use Rattle.clfs_txn.specs.Calls.{TxnSteps, checkpoint_of, is_break, is_fault};
ghost use Rattle.clfs_txn.specs.UnderWay.{CrashLeaves, LeavesCall, Meanwhile, UnderWay};

use crate::asking::breaks;
use crate::table::TableLog;
use clfs_cells::{Checkpoint, TxnRefusal};
use clfs_disk::Disk;
use clfs_laws::{
    faults_break, numbers_fit_their_types, refusals_change_nothing, steps_only_add_records,
    unbroken_stays,
};
use clfs_lsn::{Bytes, Lsn};
use clfs_model::{LogInfo, Refusal, ways_of_a_step};
use std::alloc::{AllocError, Global};

// The data of a checkpoint.
fn bytes_of(alloc: Global, checkpoint: &Checkpoint) -> Result<Bytes, AllocError>
    ensures held { IfOk result (λ bytes. bytes ≡ checkpoint_bytes checkpoint.now) }
    ensures short { IfOk result (λ bytes. length bytes ≡ 260) }
{
    let data = checkpoint.bytes();
    let bytes = Vec::from_slice(alloc, &data)?;
    Ok(Bytes::from_vec(bytes))
}

impl<D: Disk> TableLog<D> {
    // What the log and the stream are like.
    pub(crate) fn info(&self) -> Result<LogInfo, Refusal>
        requires { self.now.0.log.broken ≡ false }
        ensures step { (told : Bool) → Steps told self.now.0.log self.now.0.memory.client (calls.Info self.now.0.memory.stream) log_replies.Info result self.now.0.log }
        ensures calm { IsErrOf result log_refusals.DiskFault → ⊥ }
        ensures small { IfOk result (λ info. info.last + 1 < 2 ^ 64) }
    {
        numbers_fit_their_types();
        self.manager.stored();
        self.manager.info(self.memory.stream())
    }

    // Writes a restart area with all cells, and the base.
    pub(crate) fn write_restart(&mut self, base: Lsn) -> Result<Lsn, Refusal>
        requires { self.old.0.log.broken ≡ false }
        ensures step { (told : Bool) → Steps told self.old.0.log self.old.0.memory.client
            (calls.WriteRestart self.old.0.memory.area (checkpoint_bytes (checkpoint_of self.old.0.memory)) base false) log_replies.Placed result self.new.0.log }
        ensures moments { (under : UnderWay) → LeavesCall under self.old.0.memory.client
            (calls.WriteRestart self.old.0.memory.area (checkpoint_bytes (checkpoint_of self.old.0.memory)) base false) self.old.0.log
            → CrashLeaves under (D.state self.old.1) (D.state self.new.1) }
        ensures writes { WritesDisk (IsErrOf result log_refusals.DiskFault) (D.state self.old.1) (D.state self.new.1) }
        ensures kept { IfErr result (λ refusal. is_break refusal ≡ false → self.new.0.log ≡ self.old.0.log) }
        ensures memory { self.new.0.memory ≡ self.old.0.memory }
    {
        ways_of_a_step();
        faults_break();
        refusals_change_nothing();
        unbroken_stays();
        steps_only_add_records();
        self.manager.stored();
        let checkpoint = self.memory.checkpoint();
        let bytes = bytes_of(self.alloc, &checkpoint)?;
        let reply = self.manager.write_restart(
            self.memory.client(),
            self.memory.area(),
            &bytes,
            base,
            false,
        );
        self.broken = breaks(&reply);
        reply
    }

    // A checkpoint, where no transaction is open.
    fn write_checkpoint(&mut self) -> Result<(), TxnRefusal>
        requires whole { self.old.0.log.broken ≡ false }
        requires none { length self.old.0.memory.transactions ≡ 0 }
        ensures step { (told : Bool) → TxnSteps told self.old.0 asked.Checkpoint (λ _. replies.Done) result self.new.0 }
        ensures moments { (under : UnderWay) → Meanwhile under (D.state self.old.1).nature.tells_contents self.old.0.memory.client self.old.0.log
            (txn_plan self.old.0.log self.old.0.memory asked.Checkpoint) (D.state self.old.1) (D.state self.new.1) }
        ensures writes { WritesDisk (IsErrOf result (refusals.Log log_refusals.DiskFault)) (D.state self.old.1) (D.state self.new.1) }
        ensures kept { IfErr result (λ refusal. is_fault refusal ≡ false → self.new.0 ≡ self.old.0) }
    {
        let last = match self.info() {
            Ok(info) => info.last,
            Err(refusal) => return Err(TxnRefusal::Log(refusal)),
        };
        match self.write_restart(Lsn::of_number(last.number() + 1)) {
            Ok(_) => Ok(()),
            Err(refusal) => Err(TxnRefusal::Log(refusal)),
        }
    }

    // Writes a restart area with all cells.
    pub(crate) fn checkpoint(&mut self) -> Result<(), TxnRefusal>
        ensures step { (told : Bool) → TxnSteps told self.old.0 asked.Checkpoint (λ _. replies.Done) result self.new.0 }
        ensures moments { (under : UnderWay) → Meanwhile under (D.state self.old.1).nature.tells_contents self.old.0.memory.client self.old.0.log
            (txn_plan self.old.0.log self.old.0.memory asked.Checkpoint) (D.state self.old.1) (D.state self.new.1) }
        ensures writes { WritesDisk (IsErrOf result (refusals.Log log_refusals.DiskFault)) (D.state self.old.1) (D.state self.new.1) }
        ensures kept { IfErr result (λ refusal. is_fault refusal ≡ false → self.new.0 ≡ self.old.0) }
        ensures stopped { self.old.0.log.broken ≡ true → self.new.1 ≡ self.old.1 }
    {
        if self.broken {
            return Err(TxnRefusal::Log(Refusal::Broken));
        }
        let open_now = self.memory.open_now();
        if open_now > 0 {
            return Err(TxnRefusal::TxnsOpen {
                open_now: open_now as u32,
            });
        }
        self.write_checkpoint()
    }
}
