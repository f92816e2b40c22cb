// The calls of the log that a store makes. Each notes whether the log is broken then.
ghost use Rattle.std.specs.Prelude.{◌≡◌, ◌≤◌, ℕ, Bool, IfErr, IfOk, IsErrOf, OnOk, false, replicate};
ghost use Rattle.clfs_model.specs.declared.refusal.Refusal.TheVariants as log_refusals;
ghost use Rattle.clfs_manager.specs.Written.{WritesDisk};
ghost use Rattle.clfs_model.specs.declared.call.Call.TheVariants as calls;
ghost use Rattle.clfs_model.specs.declared.reply.Reply.TheVariants as replies;
ghost use Rattle.clfs_manager.specs.Calls.{Steps};
ghost use Rattle.clfs_cells.specs.Calls.{append_call};
ghost use Rattle.clfs_cells.specs.Kept.{transaction_of};
ghost use Rattle.clfs_cells.specs.Stored.{most_records};
ghost use Rattle.clfs_cells.specs.Calls.{Answered, with_read_ended};
ghost use Rattle.clfs_cells.specs.Plans.{Plan};
ghost use Rattle.clfs_lsn.specs.declared.cursor.Mode.{Mode as Way};
ghost use Rattle.clfs_lsn.specs.declared.cursor.Mode.TheVariants.{UndoNext};
ghost use Rattle.clfs_lsn.specs.declared.entry.LogEntry.{LogEntry as Record};
ghost use Rattle.clfs_txn.specs.Calls.{Leads, is_break, breaks, draft_of};
ghost use Rattle.clfs_disk.specs.Files.{Unchanged};
ghost use Rattle.clfs_disk.specs.State.{Passes, TellsContents};
ghost use Rattle.clfs_model.specs.Happened.{happened_of};
ghost use Rattle.clfs_model.specs.Step.{Step};
ghost use Rattle.clfs_model.specs.declared.reply.Reply.{Reply};
ghost use Rattle.clfs_txn.specs.UnderWay.{CrashLeaves, LeavesCall, UnderWay};
ghost use Rattle.clfs_txn.specs.Reading.{HasLink, IsAt, IsSet};

use crate::table::TableLog;
use clfs_cells::{Action, RECORD_BYTES, Transaction, TxnRecord, records_are_read_as_written};
use clfs_disk::Disk;
use clfs_laws::{
    broken_stays, faults_break, refusals_are_the_calls_own, refusals_change_nothing,
    steps_keep_a_state_valid, steps_only_add_records, unbroken_stays,
};
use clfs_lsn::{Bytes, LogEntry, Lsn, Sizes};
use clfs_model::{Draft, Mode, Refusal, ways_of_a_step};
use std::alloc::{AllocError, Global};

// Whether a log that refuses a call so answers nothing else from then on.
fn is_break(refusal: &Refusal) -> bool
    ensures { result ≡ is_break refusal.now }
{
    matches!(refusal, Refusal::DiskFault | Refusal::Damaged { .. })
}

// Whether a log that answers so answers nothing else from then on.
pub(crate) fn breaks<T>(reply: &Result<T, Refusal>) -> bool
    ensures { result ≡ breaks reply.now }
{
    match reply {
        Ok(_) => false,
        Err(refusal) => is_break(refusal),
    }
}

// The lengths of all records of a transaction.
fn sizes_of(alloc: Global, changes: u16) -> Result<Sizes, AllocError>
    requires { changes ≤ 7 }
    ensures { IfOk result (λ sizes. sizes ≡ replicate (most_records changes) 24) }
{
    let mut lengths = Vec::new(alloc);
    lengths.resize(2 * changes as usize + 1, RECORD_BYTES as u32)?;
    Ok(Sizes::from_vec(lengths))
}

// A transaction's record, as it is appended: it follows the transaction's newest record.
fn draft_of(
    alloc: Global,
    t: &Transaction,
    action: Action,
    undo_next: Lsn,
    flush: bool,
) -> Result<Draft, AllocError>
    ensures { IfOk result (λ draft. draft ≡ draft_of (transaction_of t.now) action undo_next flush) }
{
    let record = TxnRecord {
        txn: t.number(),
        action,
    };
    let data = record.bytes();
    let bytes = Vec::from_slice(alloc, &data)?;
    Ok(Draft {
        bytes: Bytes::from_vec(bytes),
        previous: t.last(),
        undo_next,
        seal: false,
        flush,
    })
}

impl<D: Disk> TableLog<D> {
    // Appends a transaction's record, of what the area holds.
    pub(crate) fn append(
        &mut self,
        t: &Transaction,
        action: Action,
        undo_next: Lsn,
        flush: bool,
    ) -> Result<Lsn, Refusal>
        requires { self.old.0.log.broken ≡ false }
        ensures step { (told : Bool) → Steps told self.old.0.log self.old.0.memory.client
            (append_call self.old.0.memory (transaction_of t.now) action undo_next flush) replies.Placed result self.new.0.log }
        ensures writes { WritesDisk (IsErrOf result log_refusals.DiskFault) (D.state self.old.1) (D.state self.new.1) }
        ensures kept { IfErr result (λ refusal. is_break refusal ≡ false → self.new.0.log ≡ self.old.0.log) }
        ensures no_damage { (container offset at : ℕ) → IsErrOf result (log_refusals.Damaged container offset at) → ⊥ }
        ensures memory { self.new.0.memory ≡ self.old.0.memory }
        ensures whole { OnOk result (self.new.0.log.broken ≡ false) }
        ensures moments { (under : UnderWay) → LeavesCall under self.old.0.memory.client (append_call self.old.0.memory (transaction_of t.now) action undo_next flush) self.old.0.log
            → CrashLeaves under (D.state self.old.1) (D.state self.new.1) }
        ensures linked { IfOk result (λ lsn. HasLink self.new.0.log lsn undo_next) }
        ensures cursors { OnOk result ((cursor last : ℕ) (mode : Way) → IsAt self.old.0.log self.old.0.memory.client self.old.0.memory.area cursor mode last
            → IsAt self.new.0.log self.old.0.memory.client self.old.0.memory.area cursor mode last) }
    {
        ways_of_a_step();
        faults_break();
        refusals_change_nothing();
        unbroken_stays();
        steps_only_add_records();
        records_are_read_as_written();
        self.manager.stored();
        let draft = draft_of(self.alloc, t, action, undo_next, flush)?;
        let sizes = Sizes::none(self.alloc);
        let reply = self.manager.append(
            self.memory.client(),
            self.memory.area(),
            &draft,
            true,
            &sizes,
        );
        self.broken = breaks(&reply);
        reply
    }

    // Gives up so many sectors that the area holds.
    pub(crate) fn release(&mut self, sectors: u32) -> Result<u32, Refusal>
        requires { self.old.0.log.broken ≡ false }
        ensures step { (told : Bool) → Steps told self.old.0.log self.old.0.memory.client
            (calls.Release self.old.0.memory.area sectors) replies.Held result self.new.0.log }
        ensures calm { IsErrOf result log_refusals.DiskFault → ⊥ }
        ensures fed { IsErrOf result log_refusals.NoMemory → ⊥ }
        ensures no_damage { (container offset at : ℕ) → IsErrOf result (log_refusals.Damaged container offset at) → ⊥ }
        ensures disk { self.new.1 ≡ self.old.1 }
        ensures memory { self.new.0.memory ≡ self.old.0.memory }
    {
        faults_break();
        refusals_are_the_calls_own();
        unbroken_stays();
        steps_only_add_records();
        self.manager.stored();
        let reply = self
            .manager
            .release(self.memory.client(), self.memory.area(), sectors);
        self.broken = breaks(&reply);
        reply
    }

    // Reserves the room of all records of a transaction.
    pub(crate) fn reserve(&mut self, changes: u16) -> Result<u32, Refusal>
        requires whole { self.old.0.log.broken ≡ false }
        requires changes { changes ≤ 7 }
        ensures step { (told : Bool) → Steps told self.old.0.log self.old.0.memory.client
            (calls.Reserve self.old.0.memory.area (replicate (most_records changes) 24)) replies.Held result self.new.0.log }
        ensures moments { (under : UnderWay) → LeavesCall under self.old.0.memory.client (calls.Reserve self.old.0.memory.area (replicate (most_records changes) 24)) self.old.0.log
            → CrashLeaves under (D.state self.old.1) (D.state self.new.1) }
        ensures writes { WritesDisk (IsErrOf result log_refusals.DiskFault) (D.state self.old.1) (D.state self.new.1) }
        ensures kept { IfErr result (λ refusal. is_break refusal ≡ false → self.new.0.log ≡ self.old.0.log) }
        ensures memory { self.new.0.memory ≡ self.old.0.memory }
    {
        ways_of_a_step();
        faults_break();
        refusals_change_nothing();
        unbroken_stays();
        steps_only_add_records();
        self.manager.stored();
        let sizes = sizes_of(self.alloc, changes)?;
        let reply = self
            .manager
            .reserve(self.memory.client(), self.memory.area(), &sizes);
        self.broken = breaks(&reply);
        reply
    }

    // Reads the record of an LSN, with a cursor that goes on from it in this mode.
    pub(crate) fn read(&mut self, lsn: Lsn, mode: Mode) -> Result<(u16, LogEntry), Refusal>
        requires { self.old.0.log.broken ≡ false }
        ensures step { Steps (D.state self.old.1).nature.tells_contents self.old.0.log self.old.0.memory.client
            (calls.Read self.old.0.memory.area lsn mode) (λ (found : ℕ × Record). replies.Found found.0 found.1) result self.new.0.log }
        ensures writes { WritesDisk (IsErrOf result log_refusals.DiskFault) (D.state self.old.1) (D.state self.new.1) }
        ensures time { Passes Unchanged (D.state self.old.1) (D.state self.new.1) }
        ensures moments { (under : UnderWay) → LeavesCall under self.old.0.memory.client (calls.Read self.old.0.memory.area lsn mode) self.old.0.log
            → CrashLeaves under (D.state self.old.1) (D.state self.new.1) }
        ensures memory { self.new.0.memory ≡ self.old.0.memory }
        ensures whole { OnOk result (self.new.0.log.broken ≡ false) }
        ensures at { IfOk result (λ found. IsAt self.new.0.log self.old.0.memory.client self.old.0.memory.area found.0 mode lsn) }
        ensures there { IfOk result (λ found. found.1.lsn ≡ lsn) }
        ensures damage { TellsContents (D.state self.old.1) → (container offset at : ℕ) → IsErrOf result (log_refusals.Damaged container offset at) → ⊥ }
    {
        faults_break();
        unbroken_stays();
        steps_only_add_records();
        steps_keep_a_state_valid();
        self.manager.stored();
        let reply = self
            .manager
            .read(self.memory.client(), self.memory.area(), lsn, mode);
        self.broken = breaks(&reply);
        reply
    }

    // Reads on with a cursor.
    pub(crate) fn read_next(&mut self, cursor: u16) -> Result<LogEntry, Refusal>
        requires { self.old.0.log.broken ≡ false }
        ensures step { Steps (D.state self.old.1).nature.tells_contents self.old.0.log self.old.0.memory.client
            (calls.ReadNext self.old.0.memory.area cursor) replies.Next result self.new.0.log }
        ensures writes { WritesDisk (IsErrOf result log_refusals.DiskFault) (D.state self.old.1) (D.state self.new.1) }
        ensures time { Passes Unchanged (D.state self.old.1) (D.state self.new.1) }
        ensures moments { (under : UnderWay) → LeavesCall under self.old.0.memory.client (calls.ReadNext self.old.0.memory.area cursor) self.old.0.log
            → CrashLeaves under (D.state self.old.1) (D.state self.new.1) }
        ensures memory { self.new.0.memory ≡ self.old.0.memory }
        ensures whole { OnOk result (self.new.0.log.broken ≡ false) }
        ensures at { IfOk result (λ entry. (mode : Way) (last : ℕ) → IsAt self.old.0.log self.old.0.memory.client self.old.0.memory.area cursor mode last
            → IsAt self.new.0.log self.old.0.memory.client self.old.0.memory.area cursor mode entry.lsn) }
        ensures set { IfOk result (λ entry. (number last : ℕ) → IsAt self.old.0.log self.old.0.memory.client self.old.0.memory.area cursor UndoNext last
            → IsSet self.old.0.memory number last → IsSet self.old.0.memory number entry.lsn) }
        ensures damage { TellsContents (D.state self.old.1) → (container offset at : ℕ) → IsErrOf result (log_refusals.Damaged container offset at) → ⊥ }
    {
        faults_break();
        unbroken_stays();
        steps_only_add_records();
        self.manager.stored();
        let reply = self
            .manager
            .read_next(self.memory.client(), self.memory.area(), cursor);
        self.broken = breaks(&reply);
        reply
    }

    // Ends a cursor, whatever became of the log.
    pub(crate) fn end_read(&mut self, cursor: u16)
        ensures step { (told : Bool) (rest : Plan Answered) → Leads told self.old.0.memory.client self.old.0.log
            (with_read_ended self.old.0.memory cursor rest) self.new.0.log rest }
        ensures ended { (told : Bool) → (reply : Reply) × Step told self.old.0.log self.old.0.memory.client (calls.EndRead self.old.0.memory.area cursor)
            (happened_of reply) reply self.new.0.log }
        ensures same { self.new.0.log.broken ≡ self.old.0.log.broken }
        ensures disk { self.new.1 ≡ self.old.1 }
        ensures memory { self.new.0.memory ≡ self.old.0.memory }
    {
        broken_stays();
        unbroken_stays();
        steps_only_add_records();
        self.manager.stored();
        let _ = self
            .manager
            .end_read(self.memory.client(), self.memory.area(), cursor);
    }
}
