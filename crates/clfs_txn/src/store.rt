// A store of a table: its calls, and what is true of it between them. A contract sees its log, what it keeps beside the log, and the disk.
ghost use Rattle.std.specs.Prelude.{◌≡◌, ◌<◌, ◌≤◌, Bool, ℕ, IfErr, IfOk, IsErr, IsErrOf, OnOk, [], false, slice_index, true};
ghost use Rattle.clfs_disk.specs.State.{TellsContents};
ghost use Rattle.clfs_model.specs.Conditions.{IsClient};
ghost use Rattle.clfs_model.specs.State.{areas_of};
ghost use Rattle.clfs_model.specs.declared.refusal.Refusal.{Refusal as LogRefusal};
ghost use Rattle.clfs_model.specs.declared.refusal.Refusal.TheVariants as log_refusals;
ghost use Rattle.clfs_manager.specs.Written.{WritesDisk};
ghost use Rattle.clfs_cells.specs.Calls.{TxnStep};
ghost use Rattle.clfs_cells.specs.Loading.{LoadStep};
ghost use Rattle.clfs_cells.specs.Stored.{with_begun};
ghost use Rattle.clfs_cells.specs.Table.{table, table_with};
ghost use Rattle.clfs_cells.specs.declared.asked.TxnCall.TheVariants as asked;
ghost use Rattle.clfs_cells.specs.declared.told.TxnLoadRefusal.TheVariants as load_refusals;
ghost use Rattle.clfs_cells.specs.declared.told.TxnRefusal.TheVariants as refusals;
ghost use Rattle.clfs_cells.specs.declared.told.TxnReply.TheVariants as replies;
ghost use Rattle.clfs_cells_laws.specs.Crashes.{IsSafe, IsSafeLog, table_joined};
ghost use Rattle.clfs_cells_laws.specs.Loads.{IsLoaded, IsNotLoaded};
ghost use Rattle.clfs_cells_laws.specs.Reasons.{IsForReason};
ghost use Rattle.clfs_cells_laws.specs.Steps.{IsCommitted, IsRolledBack, IsSetTo, IsTakenBack, for_room_or_outside, from_outside};
ghost use Rattle.clfs_cells_laws.specs.Tables.{numbers_of};
ghost use Rattle.clfs_txn.specs.Calls.{TxnSteps, is_fault, is_of_log, replied};
ghost use Rattle.clfs_txn.specs.Crashes.{CrashLeavesTable, KeepsTable, LeavesTableOf};
ghost use Rattle.clfs_txn.specs.Loading.{left_by, loaded_of};
ghost use Rattle.clfs_txn.specs.UnderWay.{asking, loading_of};

use crate::loading::TxnLoadRefused;
use crate::table::TableLog;
use clfs_cells::TxnRefusal;
use clfs_cells_laws::{
    a_stores_cells_are_its_table, a_transaction_has_its_room,
    calls_are_refused_for_the_first_reason, calls_keep_a_store, calls_leave_the_cells_so,
    crashes_leave_the_table, only_faults_break_a_store, the_same_log_has_the_same_table,
};
use clfs_disk::Disk;
use clfs_manager::Manager;
use std::alloc::Global;
use std::marker::Model;

/// A table of 32 cells in a log, with transactions. The log refuses a call within a transaction only if memory runs out or the disk fails, and if it is broken.
#[derive(Drop)]
pub struct TxnStore<D: Disk> {
    table: TableLog<D>,
}

impl<D: Disk> Model for TxnStore<D> {
    ghost use Rattle.clfs_cells.specs.Stored.{Store};
    ghost use Rattle.clfs_cells_laws.specs.Stores.{IsKeptStore};

    ghost Value = { Store × D };

    ghost view = { λ t. t.table };

    ghost invariant = { λ t. IsKeptStore (D.state t.table.1).nature.tells_contents t.table.0.log t.table.0.memory };
}

impl<D: Disk> TxnStore<D> {
    /// The table that a log's stream `txn` keeps, for a client, which gets an area on the stream. If the log has no such stream it gets one, and a stream that
    /// has no live record gets a restart area of zeros. No transaction is open: what wasn't committed when the log was closed is gone, and what was is there.
    ///
    /// Refused in this order: `Broken`; where the stream is to be made, `Dedicated` and `StreamLimit`; where it has no live record, `NotEnoughContainers` and
    /// `Full`; and `NotATable` where its records are none of a table. Out of memory, a fault of the disk, and damage may come at any call of the log. After a
    /// refusal the stream may be there.
    pub fn load(
        alloc: Global,
        manager: Manager<D>,
        client: u16,
    ) -> Result<TxnStore<D>, TxnLoadRefused<D>>
        requires client { IsClient client }
        requires area { areas_of manager.0 client ≡ [] }
        ensures step { LoadStep (D.state manager.1).nature.tells_contents manager.0 client
            (loaded_of (λ store. store.0.memory) (λ refused. refused.cause) result) (left_by (λ store. store.0.log) (λ refused. refused.manager.0) result) }
        ensures moments { manager.0.broken ≡ false → IsSafeLog manager.0
            → CrashLeavesTable (table manager.0) (table manager.0) (loading_of manager.0 client) (D.state manager.1) (D.state (left_by (λ store. store.1) (λ refused. refused.manager.1) result)) }
        ensures safe { IfOk result (λ store. TellsContents (D.state manager.1) → manager.0.broken ≡ false → IsSafeLog manager.0
            → IsSafe store.0.log store.0.memory.stream) }
        ensures loaded { IfOk result (λ store. IsLoaded (D.state manager.1).nature.tells_contents manager.0 client store.0.memory store.0.log) }
        ensures refused { IfErr result (λ refused. IsNotLoaded (D.state manager.1).nature.tells_contents manager.0 client refused.cause refused.manager.0) }
        ensures writes { WritesDisk (IfErr result (λ refused. refused.cause ≡ load_refusals.Log log_refusals.DiskFault) × IsErr result)
            (D.state manager.1) (D.state (left_by (λ store. store.1) (λ refused. refused.manager.1) result)) }
        ensures damage { TellsContents (D.state manager.1) → IfErr result (λ refused. (container offset at : ℕ)
            → refused.cause ≡ load_refusals.Log (log_refusals.Damaged container offset at) → ⊥) }
        ensures stopped { manager.0.broken ≡ true → left_by (λ store. store.1) (λ refused. refused.manager.1) result ≡ manager.1 }
    {
        calls_keep_a_store();
        crashes_leave_the_table();
        the_same_log_has_the_same_table();
        manager.stored();
        match TableLog::load(alloc, manager, client) {
            Ok(table) => {
                table.numbers();
                Ok(TxnStore { table })
            }
            Err(refused) => Err(refused),
        }
    }

    /// A transaction begins that makes so many sets at most, and this is its number, one above the last. The log holds room for all its records from then on.
    ///
    /// Refused in this order: `Log(Broken)`, `TxnLimit`, `IdsSpent`, and what the log refuses: `NotEnoughContainers`, `Full`, and out of memory and of
    /// the disk. After any refusal but a fault of the disk nothing has changed.
    pub fn begin(&mut self, changes: u16) -> Result<u32, TxnRefusal>
        requires some { 1 ≤ changes }
        requires few { changes ≤ 7 }
        ensures step { (told : Bool) → TxnSteps told self.old.0 (asked.Begin changes) replies.Begun result self.new.0 }
        ensures reason { IsForReason self.old.0 (asked.Begin changes) (replied replies.Begun result) }
        ensures moments { LeavesTableOf self.old.0 (asked.Begin changes) (D.state self.old.1) (D.state self.new.1) }
        ensures table { KeepsTable (D.state self.old.1) self.old.0 (asked.Begin changes) replies.Begun result self.new.0 }
        ensures writes { WritesDisk (IsErrOf result (refusals.Log log_refusals.DiskFault)) (D.state self.old.1) (D.state self.new.1) }
        ensures kept { IfErr result (λ refusal. is_fault refusal ≡ false → self.new.0 ≡ self.old.0) }
        ensures stopped { self.old.0.log.broken ≡ true → self.new.1 ≡ self.old.1 }
        ensures begun { OnOk result (self.new.0.memory ≡ with_begun changes self.old.0.memory) }
        ensures refused { (given : LogRefusal) → IsErrOf result (refusals.Log given) → for_room_or_outside given ≡ true }
    {
        calls_keep_a_store();
        calls_are_refused_for_the_first_reason();
        calls_leave_the_cells_so();
        a_transaction_has_its_room();
        crashes_leave_the_table();
        the_same_log_has_the_same_table();
        self.table.stored();
        self.table.begin(changes)
    }

    /// A transaction sets a cell, which has the value from then on.
    ///
    /// Refused in this order: `Log(Broken)`, `NoSuchTxn`, `CellHeld`, `ChangesSpent`, and out of memory and a fault of the disk. After any refusal but a fault of
    /// the disk nothing has changed.
    pub fn set(&mut self, txn: u32, cell: u16, value: u64) -> Result<(), TxnRefusal>
        requires { cell < 32 }
        ensures step { (told : Bool) → TxnSteps told self.old.0 (asked.Set txn cell value) (λ _. replies.Done) result self.new.0 }
        ensures reason { IsForReason self.old.0 (asked.Set txn cell value) (replied (λ _. replies.Done) result) }
        ensures moments { LeavesTableOf self.old.0 (asked.Set txn cell value) (D.state self.old.1) (D.state self.new.1) }
        ensures table { KeepsTable (D.state self.old.1) self.old.0 (asked.Set txn cell value) (λ _. replies.Done) result self.new.0 }
        ensures writes { WritesDisk (IsErrOf result (refusals.Log log_refusals.DiskFault)) (D.state self.old.1) (D.state self.new.1) }
        ensures kept { IfErr result (λ refusal. is_fault refusal ≡ false → self.new.0 ≡ self.old.0) }
        ensures stopped { self.old.0.log.broken ≡ true → self.new.1 ≡ self.old.1 }
        ensures set { OnOk result (IsSetTo cell value self.old.0.memory self.new.0.memory) }
        ensures room { (given : LogRefusal) → IsErrOf result (refusals.Log given) → from_outside given ≡ true }
    {
        calls_keep_a_store();
        calls_are_refused_for_the_first_reason();
        calls_leave_the_cells_so();
        a_transaction_has_its_room();
        crashes_leave_the_table();
        the_same_log_has_the_same_table();
        self.table.stored();
        self.table.set(txn, cell, value)
    }

    /// A transaction's sets are taken back, the newest first, until so many stand. Each cell of which it made a set has the value then of the last set of it that
    /// stands, or that from before the first of them.
    ///
    /// Refused in this order: `Log(Broken)`, `NoSuchTxn`, `KeptTooMany`, and out of memory, a fault of the disk and damage. After out of memory some sets may
    /// be taken back, and the call may be made again; after a fault or damage the store is broken, and after the others nothing has changed.
    pub fn back(&mut self, txn: u32, kept: u16) -> Result<(), TxnRefusal>
        ensures step { TxnSteps (D.state self.old.1).nature.tells_contents self.old.0 (asked.Back txn kept) (λ _. replies.Done) result self.new.0 }
        ensures reason { IsForReason self.old.0 (asked.Back txn kept) (replied (λ _. replies.Done) result) }
        ensures moments { LeavesTableOf self.old.0 (asked.Back txn kept) (D.state self.old.1) (D.state self.new.1) }
        ensures table { KeepsTable (D.state self.old.1) self.old.0 (asked.Back txn kept) (λ _. replies.Done) result self.new.0 }
        ensures writes { WritesDisk (IsErrOf result (refusals.Log log_refusals.DiskFault)) (D.state self.old.1) (D.state self.new.1) }
        ensures kept { IfErr result (λ refusal. is_of_log refusal ≡ false → self.new.0 ≡ self.old.0) }
        ensures stopped { self.old.0.log.broken ≡ true → self.new.1 ≡ self.old.1 }
        ensures damage { TellsContents (D.state self.old.1) → (container offset at : ℕ) → IsErrOf result (refusals.Log (log_refusals.Damaged container offset at)) → ⊥ }
        ensures values { OnOk result (IsTakenBack txn kept self.old.0.memory self.new.0.memory) }
        ensures room { (given : LogRefusal) → IsErrOf result (refusals.Log given) → from_outside given ≡ true }
    {
        calls_keep_a_store();
        calls_are_refused_for_the_first_reason();
        calls_leave_the_cells_so();
        a_transaction_has_its_room();
        crashes_leave_the_table();
        the_same_log_has_the_same_table();
        self.table.stored();
        self.table.back(txn, kept)
    }

    /// What a transaction did stays: the record of its commit is on the disk when the call answers. Then the transaction isn't open any more.
    ///
    /// Refused in this order: `Log(Broken)`, `NoSuchTxn`, and out of memory and a fault of the disk. After out of memory nothing has changed.
    pub fn commit(&mut self, txn: u32) -> Result<(), TxnRefusal>
        ensures step { (told : Bool) → TxnSteps told self.old.0 (asked.Commit txn) (λ _. replies.Done) result self.new.0 }
        ensures reason { IsForReason self.old.0 (asked.Commit txn) (replied (λ _. replies.Done) result) }
        ensures moments { LeavesTableOf self.old.0 (asked.Commit txn) (D.state self.old.1) (D.state self.new.1) }
        ensures table { KeepsTable (D.state self.old.1) self.old.0 (asked.Commit txn) (λ _. replies.Done) result self.new.0 }
        ensures lasts { OnOk result (self.old.0.log.broken ≡ false → IsSafe self.old.0.log self.old.0.memory.stream
            → CrashLeavesTable (table_joined self.old.0.log self.old.0.memory.stream txn) (table_joined self.old.0.log self.old.0.memory.stream txn)
            (asking self.old.0 (asked.Commit txn)) (D.state self.new.1) (D.state self.new.1)) }
        ensures kept { IsErrOf result (refusals.Log log_refusals.NoMemory) → self.new.0 ≡ self.old.0 }
        ensures writes { WritesDisk (IsErrOf result (refusals.Log log_refusals.DiskFault)) (D.state self.old.1) (D.state self.new.1) }
        ensures stopped { self.old.0.log.broken ≡ true → self.new.1 ≡ self.old.1 }
        ensures ended { OnOk result (IsCommitted txn self.old.0.memory self.new.0.memory) }
        ensures room { (given : LogRefusal) → IsErrOf result (refusals.Log given) → from_outside given ≡ true }
    {
        calls_keep_a_store();
        calls_are_refused_for_the_first_reason();
        calls_leave_the_cells_so();
        a_transaction_has_its_room();
        crashes_leave_the_table();
        only_faults_break_a_store();
        the_same_log_has_the_same_table();
        self.table.stored();
        let answer = self.table.commit(txn);
        self.table.stored();
        answer
    }

    /// All that a transaction did is taken back, and it isn't open any more. Each cell of which it made a set has the value then from before the first of them.
    ///
    /// Refused in this order: `Log(Broken)`, `NoSuchTxn`, and out of memory, a fault of the disk and damage. After out of memory some sets may be taken
    /// back, and the call may be made again.
    pub fn rollback(&mut self, txn: u32) -> Result<(), TxnRefusal>
        ensures step { TxnSteps (D.state self.old.1).nature.tells_contents self.old.0 (asked.Rollback txn) (λ _. replies.Done) result self.new.0 }
        ensures reason { IsForReason self.old.0 (asked.Rollback txn) (replied (λ _. replies.Done) result) }
        ensures moments { LeavesTableOf self.old.0 (asked.Rollback txn) (D.state self.old.1) (D.state self.new.1) }
        ensures table { KeepsTable (D.state self.old.1) self.old.0 (asked.Rollback txn) (λ _. replies.Done) result self.new.0 }
        ensures writes { WritesDisk (IsErrOf result (refusals.Log log_refusals.DiskFault)) (D.state self.old.1) (D.state self.new.1) }
        ensures kept { IfErr result (λ refusal. is_of_log refusal ≡ false → self.new.0 ≡ self.old.0) }
        ensures stopped { self.old.0.log.broken ≡ true → self.new.1 ≡ self.old.1 }
        ensures damage { TellsContents (D.state self.old.1) → (container offset at : ℕ) → IsErrOf result (refusals.Log (log_refusals.Damaged container offset at)) → ⊥ }
        ensures values { OnOk result (IsRolledBack txn self.old.0.memory self.new.0.memory) }
        ensures room { (given : LogRefusal) → IsErrOf result (refusals.Log given) → from_outside given ≡ true }
    {
        calls_keep_a_store();
        calls_are_refused_for_the_first_reason();
        calls_leave_the_cells_so();
        a_transaction_has_its_room();
        crashes_leave_the_table();
        the_same_log_has_the_same_table();
        self.table.stored();
        self.table.rollback(txn)
    }

    /// The value that the store keeps of a cell: the table's, changed by the open transactions. It asks nothing of the log, and a broken store answers the same.
    pub fn get(&self, cell: u16) -> u64
        requires { cell < 32 }
        ensures value { result ≡ slice_index self.now.0.memory.cells cell }
        ensures table { TellsContents (D.state self.now.1)
            → result ≡ slice_index (table_with self.now.0.log self.now.0.memory.stream (numbers_of self.now.0.memory.transactions)) cell }
        ensures step { (told : Bool) → TxnStep told self.now.0 (asked.Get cell) (replies.Value result) self.now.0 }
    {
        a_stores_cells_are_its_table();
        self.table.get(cell)
    }

    /// Writes a restart area with all cells, which is on the disk when the call answers. The stream's base is one above the last record before it then,
    /// so all records below the restart area are given up.
    ///
    /// Refused in this order: `Log(Broken)`, `TxnsOpen`, and what the log refuses: `NotEnoughContainers`, `Full`, and out of memory and a fault of the disk. After any
    /// refusal but a fault of the disk nothing has changed.
    pub fn checkpoint(&mut self) -> Result<(), TxnRefusal>
        ensures step { (told : Bool) → TxnSteps told self.old.0 asked.Checkpoint (λ _. replies.Done) result self.new.0 }
        ensures reason { IsForReason self.old.0 asked.Checkpoint (replied (λ _. replies.Done) result) }
        ensures moments { LeavesTableOf self.old.0 asked.Checkpoint (D.state self.old.1) (D.state self.new.1) }
        ensures table { KeepsTable (D.state self.old.1) self.old.0 asked.Checkpoint (λ _. replies.Done) result self.new.0 }
        ensures writes { WritesDisk (IsErrOf result (refusals.Log log_refusals.DiskFault)) (D.state self.old.1) (D.state self.new.1) }
        ensures kept { IfErr result (λ refusal. is_fault refusal ≡ false → self.new.0 ≡ self.old.0) }
        ensures stopped { self.old.0.log.broken ≡ true → self.new.1 ≡ self.old.1 }
        ensures cells { OnOk result (self.new.0.memory ≡ self.old.0.memory) }
        ensures refused { (given : LogRefusal) → IsErrOf result (refusals.Log given) → for_room_or_outside given ≡ true }
    {
        calls_keep_a_store();
        calls_are_refused_for_the_first_reason();
        calls_leave_the_cells_so();
        crashes_leave_the_table();
        the_same_log_has_the_same_table();
        self.table.stored();
        self.table.checkpoint()
    }

    /// The log given back. Nothing is written or ended: what isn't flushed is lost when the log is closed, and the area is still there.
    pub fn close(self) -> Manager<D>
        ensures log { result.0 ≡ self.0.log }
        ensures disk { result.1 ≡ self.1 }
    {
        let TxnStore { table } = self;
        table.close()
    }
}
