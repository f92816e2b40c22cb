// Taking back sets, the newest first. Which set comes next is what the log's undo-next links say; its cell and values are those that the store
// remembers. A compensation is appended before the next set is looked for, so out of memory leaves some sets taken back and the others standing.
ghost use Rattle.std.specs.Prelude.{◌≡◌, ◌<◌, ◌≤◌, ℕ, Bool, IfErr, IsErrOf, IsSome, OnOk, Some, false, length, true};
ghost use Rattle.clfs_cells.specs.declared.told.TxnRefusal.TheVariants as refusals;
ghost use Rattle.clfs_model.specs.declared.refusal.Refusal.TheVariants as log_refusals;
ghost use Rattle.clfs_lsn.specs.declared.cursor.Mode.TheVariants.{UndoNext};
ghost use Rattle.clfs_disk.specs.State.{TellsContents};
ghost use Rattle.clfs_manager.specs.Written.{WritesDisk};
ghost use Rattle.clfs_cells.specs.declared.asked.TxnCall.TheVariants as asked;
ghost use Rattle.clfs_cells.specs.declared.told.TxnReply.TheVariants as replies;
ghost use Rattle.clfs_cells.specs.Calls.{Answered, compensation, txn_plan, undo_from, undo_set, undo_sets, with_read_ended};
ghost use Rattle.clfs_cells.specs.Kept.{transaction_of};
ghost use Rattle.clfs_cells.specs.Plans.{Plan};
ghost use Rattle.clfs_cells.specs.Stored.{Memory, standing, transaction};
ghost use Rattle.clfs_txn.specs.Calls.{HasSameArea, IsFound, Leads, TxnSteps, is_of_log, or_ended, or_stopped};
ghost use Rattle.clfs_txn.specs.UnderWay.{Meanwhile, UnderWay};
ghost use Rattle.clfs_txn.specs.Reading.{IsAt, IsSet, IsSetOf};

use crate::table::TableLog;
use clfs_cells::{Action, Change, Made, Transaction, TxnRefusal};
use clfs_disk::Disk;
use clfs_lsn::Lsn;
use clfs_model::{Mode, Refusal};

// A set's compensation: from the value that was set to the one before.
fn compensation(made: &Made) -> Action
    ensures { result ≡ compensation made.now }
{
    Action::Compensation(Change {
        cell: made.change.cell,
        old: made.change.new,
        new: made.change.old,
    })
}

impl<D: Disk> TableLog<D> {
    // The open transaction of a number, and its set of an LSN.
    fn set_at(&self, number: u32, lsn: Lsn) -> (Transaction, Made)
        requires { IsSet self.now.0.memory number lsn }
        ensures { IsSetOf self.now.0.memory number lsn (transaction_of result.0) result.1 }
    {
        let t = self.memory.transaction(number).unwrap();
        let made = t.made_at(lsn).unwrap();
        (t, made)
    }

    // The set of an LSN is taken back.
    fn undo_set(&mut self, number: u32, lsn: Lsn) -> Result<(), Refusal>
        requires whole { self.old.0.log.broken ≡ false }
        requires set { IsSet self.old.0.memory number lsn }
        ensures step { (told : Bool) (cursor : ℕ) (rest : Memory → Plan Answered) → Leads told self.old.0.memory.client self.old.0.log
            (undo_set self.old.0.memory number cursor lsn rest) self.new.0.log (or_ended cursor rest result self.new.0.memory) }
        ensures moments { (under : UnderWay) (cursor : ℕ) (rest : Memory → Plan Answered) → Meanwhile under (D.state self.old.1).nature.tells_contents
            self.old.0.memory.client self.old.0.log (undo_set self.old.0.memory number cursor lsn rest) (D.state self.old.1) (D.state self.new.1) }
        ensures writes { WritesDisk (IsErrOf result log_refusals.DiskFault) (D.state self.old.1) (D.state self.new.1) }
        ensures no_damage { (container offset at : ℕ) → IsErrOf result (log_refusals.Damaged container offset at) → ⊥ }
        ensures whole { OnOk result (self.new.0.log.broken ≡ false) }
        ensures area { HasSameArea self.old.0.memory self.new.0.memory }
        ensures set { OnOk result (IsSet self.new.0.memory number lsn) }
        ensures cursors { OnOk result ((cursor : ℕ) → IsAt self.old.0.log self.old.0.memory.client self.old.0.memory.area cursor UndoNext lsn
            → IsAt self.new.0.log self.old.0.memory.client self.old.0.memory.area cursor UndoNext lsn) }
    {
        let (t, made) = self.set_at(number, lsn);
        match self.append(&t, compensation(&made), made.undo_next, false) {
            Ok(at) => {
                self.memory.undo(&t, &made, at);
                Ok(())
            }
            Err(refusal) => Err(refusal),
        }
    }

    // The set at which a cursor is, and then so many more, as the cursor comes to them.
    fn undo_from(
        &mut self,
        number: u32,
        cursor: u16,
        first: Lsn,
        more: usize,
    ) -> Result<(), Refusal>
        requires whole { self.old.0.log.broken ≡ false }
        requires set { IsSet self.old.0.memory number first }
        requires at { IsAt self.old.0.log self.old.0.memory.client self.old.0.memory.area cursor UndoNext first }
        ensures step { (rest : Memory → Plan Answered) → Leads (D.state self.old.1).nature.tells_contents self.old.0.memory.client self.old.0.log
            (undo_from more self.old.0.memory number cursor first rest) self.new.0.log
            (with_read_ended self.new.0.memory cursor (or_stopped rest result self.new.0.memory)) }
        ensures moments { (under : UnderWay) (rest : Memory → Plan Answered) → Meanwhile under (D.state self.old.1).nature.tells_contents
            self.old.0.memory.client self.old.0.log (undo_from more self.old.0.memory number cursor first rest) (D.state self.old.1) (D.state self.new.1) }
        ensures writes { WritesDisk (IsErrOf result log_refusals.DiskFault) (D.state self.old.1) (D.state self.new.1) }
        ensures damage { TellsContents (D.state self.old.1) → (container offset at : ℕ) → IsErrOf result (log_refusals.Damaged container offset at) → ⊥ }
        ensures whole { OnOk result (self.new.0.log.broken ≡ false) }
        ensures area { HasSameArea self.old.0.memory self.new.0.memory }
        ensures still { OnOk result (IsSome (transaction self.new.0.memory number)) }
    {
        let mut lsn = first;
        for _ in 0..more {
            self.undo_set(number, lsn)?;
            lsn = self.read_next(cursor)?.lsn;
        }
        self.undo_set(number, lsn)
    }

    // So many sets of a transaction, the newest of those that stand first.
    fn undo_sets(&mut self, t: &Transaction, count: usize) -> Result<(), Refusal>
        requires whole { self.old.0.log.broken ≡ false }
        requires there { transaction self.old.0.memory (transaction_of t.now).number ≡ Some (transaction_of t.now) }
        requires few { count ≤ length (standing (transaction_of t.now)) }
        ensures step { (rest : Memory → Plan Answered) → Leads (D.state self.old.1).nature.tells_contents self.old.0.memory.client self.old.0.log
            (undo_sets count self.old.0.memory (transaction_of t.now) rest) self.new.0.log (or_stopped rest result self.new.0.memory) }
        ensures moments { (under : UnderWay) (rest : Memory → Plan Answered) → Meanwhile under (D.state self.old.1).nature.tells_contents
            self.old.0.memory.client self.old.0.log (undo_sets count self.old.0.memory (transaction_of t.now) rest) (D.state self.old.1) (D.state self.new.1) }
        ensures writes { WritesDisk (IsErrOf result log_refusals.DiskFault) (D.state self.old.1) (D.state self.new.1) }
        ensures damage { TellsContents (D.state self.old.1) → (container offset at : ℕ) → IsErrOf result (log_refusals.Damaged container offset at) → ⊥ }
        ensures whole { OnOk result (self.new.0.log.broken ≡ false) }
        ensures area { HasSameArea self.old.0.memory self.new.0.memory }
        ensures still { OnOk result (IsSome (transaction self.new.0.memory (transaction_of t.now).number)) }
    {
        if count == 0 {
            return Ok(());
        }
        let (cursor, entry) = self.read(t.newest_standing(), Mode::UndoNext)?;
        let undone = self.undo_from(t.number(), cursor, entry.lsn, count - 1);
        self.end_read(cursor);
        undone
    }

    // An open transaction takes sets back until so many stand.
    fn back_open(&mut self, t: &Transaction, txn: u32, kept: u16) -> Result<(), TxnRefusal>
        requires { IsFound self.old.0 txn (transaction_of t.now) }
        ensures step { TxnSteps (D.state self.old.1).nature.tells_contents self.old.0 (asked.Back txn kept) (λ _. replies.Done) result self.new.0 }
        ensures moments { (under : UnderWay) → Meanwhile under (D.state self.old.1).nature.tells_contents self.old.0.memory.client self.old.0.log
            (txn_plan self.old.0.log self.old.0.memory (asked.Back txn kept)) (D.state self.old.1) (D.state self.new.1) }
        ensures writes { WritesDisk (IsErrOf result (refusals.Log log_refusals.DiskFault)) (D.state self.old.1) (D.state self.new.1) }
        ensures damage { TellsContents (D.state self.old.1) → (container offset at : ℕ) → IsErrOf result (refusals.Log (log_refusals.Damaged container offset at)) → ⊥ }
        ensures kept { IfErr result (λ refusal. is_of_log refusal ≡ false → self.new.0 ≡ self.old.0) }
    {
        let have = t.standing();
        if have < kept as usize {
            return Err(TxnRefusal::KeptTooMany { have: have as u32 });
        }
        match self.undo_sets(t, have - kept as usize) {
            Ok(()) => Ok(()),
            Err(refusal) => Err(TxnRefusal::Log(refusal)),
        }
    }

    // A transaction's sets are taken back, the newest first, until so many stand.
    pub(crate) fn back(&mut self, txn: u32, kept: u16) -> Result<(), TxnRefusal>
        ensures step { TxnSteps (D.state self.old.1).nature.tells_contents self.old.0 (asked.Back txn kept) (λ _. replies.Done) result self.new.0 }
        ensures moments { (under : UnderWay) → Meanwhile under (D.state self.old.1).nature.tells_contents self.old.0.memory.client self.old.0.log
            (txn_plan self.old.0.log self.old.0.memory (asked.Back txn kept)) (D.state self.old.1) (D.state self.new.1) }
        ensures writes { WritesDisk (IsErrOf result (refusals.Log log_refusals.DiskFault)) (D.state self.old.1) (D.state self.new.1) }
        ensures damage { TellsContents (D.state self.old.1) → (container offset at : ℕ) → IsErrOf result (refusals.Log (log_refusals.Damaged container offset at)) → ⊥ }
        ensures kept { IfErr result (λ refusal. is_of_log refusal ≡ false → self.new.0 ≡ self.old.0) }
        ensures stopped { self.old.0.log.broken ≡ true → self.new.1 ≡ self.old.1 }
    {
        match self.open_transaction(txn) {
            Ok(t) => self.back_open(&t, txn, kept),
            Err(refusal) => Err(refusal),
        }
    }

    // An open transaction takes all its sets back, and ends.
    fn roll_back_open(&mut self, t: &Transaction, txn: u32) -> Result<(), TxnRefusal>
        requires { IsFound self.old.0 txn (transaction_of t.now) }
        ensures step { TxnSteps (D.state self.old.1).nature.tells_contents self.old.0 (asked.Rollback txn) (λ _. replies.Done) result self.new.0 }
        ensures moments { (under : UnderWay) → Meanwhile under (D.state self.old.1).nature.tells_contents self.old.0.memory.client self.old.0.log
            (txn_plan self.old.0.log self.old.0.memory (asked.Rollback txn)) (D.state self.old.1) (D.state self.new.1) }
        ensures writes { WritesDisk (IsErrOf result (refusals.Log log_refusals.DiskFault)) (D.state self.old.1) (D.state self.new.1) }
        ensures damage { TellsContents (D.state self.old.1) → (container offset at : ℕ) → IsErrOf result (refusals.Log (log_refusals.Damaged container offset at)) → ⊥ }
        ensures kept { IfErr result (λ refusal. is_of_log refusal ≡ true) }
    {
        if let Err(refusal) = self.undo_sets(t, t.standing()) {
            return Err(TxnRefusal::Log(refusal));
        }
        match self.open_transaction(txn) {
            Ok(now) => self.end(&now, Action::RolledBack, false),
            Err(refusal) => Err(refusal),
        }
    }

    // All that a transaction did is taken back, and it ends.
    pub(crate) fn rollback(&mut self, txn: u32) -> Result<(), TxnRefusal>
        ensures step { TxnSteps (D.state self.old.1).nature.tells_contents self.old.0 (asked.Rollback txn) (λ _. replies.Done) result self.new.0 }
        ensures moments { (under : UnderWay) → Meanwhile under (D.state self.old.1).nature.tells_contents self.old.0.memory.client self.old.0.log
            (txn_plan self.old.0.log self.old.0.memory (asked.Rollback txn)) (D.state self.old.1) (D.state self.new.1) }
        ensures writes { WritesDisk (IsErrOf result (refusals.Log log_refusals.DiskFault)) (D.state self.old.1) (D.state self.new.1) }
        ensures damage { TellsContents (D.state self.old.1) → (container offset at : ℕ) → IsErrOf result (refusals.Log (log_refusals.Damaged container offset at)) → ⊥ }
        ensures kept { IfErr result (λ refusal. is_of_log refusal ≡ false → self.new.0 ≡ self.old.0) }
        ensures stopped { self.old.0.log.broken ≡ true → self.new.1 ≡ self.old.1 }
    {
        match self.open_transaction(txn) {
            Ok(t) => self.roll_back_open(&t, txn),
            Err(refusal) => Err(refusal),
        }
    }
}
