// What is always true of a store, and what its calls leave. The functions do nothing.
ghost use Rattle.std.specs.Prelude.{◌≡◌, ◌<◌, ◌^◌, ℕ, Bool, false, true, [], Ok, slice_index};
ghost use Rattle.clfs_model.specs.State.{areas_of};
ghost use Rattle.clfs_model.specs.Valid.{IsValid};
ghost use Rattle.clfs_model.specs.declared.refusal.Refusal.{Refusal};
ghost use Rattle.clfs_model.specs.declared.state.State.{State};
ghost use Rattle.clfs_cells.specs.Calls.{TxnStep};
ghost use Rattle.clfs_cells.specs.Loading.{LoadStep};
ghost use Rattle.clfs_cells.specs.Stored.{Memory, Store, with_begun};
ghost use Rattle.clfs_cells.specs.declared.asked.TxnCall.{TxnCall};
ghost use Rattle.clfs_cells.specs.declared.asked.TxnCall.TheVariants as calls;
ghost use Rattle.clfs_cells.specs.declared.told.TxnRefusal.TheVariants.{Log};
ghost use Rattle.clfs_cells.specs.declared.told.TxnReply.{TxnReply};
ghost use Rattle.clfs_cells.specs.declared.told.TxnReply.TheVariants as replies;
ghost use Rattle.clfs_cells_laws.specs.Reasons.{IsForReason};
ghost use Rattle.clfs_cells_laws.specs.Steps.{HasArguments, IsCommitted, IsRolledBack, IsSetTo, IsTakenBack, for_room_or_outside, from_outside, is_within};
ghost use Rattle.clfs_cells_laws.specs.Stores.{IsKeptStore, IsStore};
ghost use Rattle.clfs_cells_laws.specs.Tables.{HasNumbers};

use crate::only_faults_break_a_store;
use clfs_cells::{checkpoints_are_read_as_written, records_are_read_as_written};
use clfs_laws::{held_sectors_suffice, steps_keep_a_state_valid, steps_only_add_records};

/// A table that was loaded is a store, and each call of a store leaves a store, or its log is broken from then on.
pub fn calls_keep_a_store()
    ensures loaded { (told : Bool) (log : State) (client : ℕ) (memory : Memory) (t : State) → IsValid log → areas_of log client ≡ []
        → LoadStep told log client (Ok memory) t → IsStore false t memory }
    ensures loaded_table { (log : State) (client : ℕ) (memory : Memory) (t : State) → IsValid log → areas_of log client ≡ []
        → LoadStep true log client (Ok memory) t → HasNumbers memory → IsStore true t memory }
    ensures kept { (tabled told : Bool) (s t : Store) (call : TxnCall) (reply : TxnReply) → HasArguments call → IsKeptStore tabled s.log s.memory → TxnStep told s call reply t
        → IsKeptStore tabled t.log t.memory }
{
    checkpoints_are_read_as_written();
    records_are_read_as_written();
    held_sectors_suffice();
    steps_keep_a_state_valid();
    steps_only_add_records();
}

/// What a call that was answered leaves of the cells and of the open transactions.
pub fn calls_leave_the_cells_so()
    ensures set { (tabled told : Bool) (s t : Store) (number cell value : ℕ) → cell < 32 → value < 2 ^ 64 → IsKeptStore tabled s.log s.memory
        → TxnStep told s (calls.Set number cell value) replies.Done t → IsSetTo cell value s.memory t.memory }
    ensures back { (tabled told : Bool) (s t : Store) (number kept : ℕ) → IsKeptStore tabled s.log s.memory
        → TxnStep told s (calls.Back number kept) replies.Done t → IsTakenBack number kept s.memory t.memory }
    ensures rollback { (tabled told : Bool) (s t : Store) (number : ℕ) → IsKeptStore tabled s.log s.memory
        → TxnStep told s (calls.Rollback number) replies.Done t → IsRolledBack number s.memory t.memory }
    ensures commit { (tabled told : Bool) (s t : Store) (number : ℕ) → IsKeptStore tabled s.log s.memory
        → TxnStep told s (calls.Commit number) replies.Done t → IsCommitted number s.memory t.memory }
    ensures begin { (tabled told : Bool) (s t : Store) (changes number : ℕ) → IsKeptStore tabled s.log s.memory
        → TxnStep told s (calls.Begin changes) (replies.Begun number) t → t.memory ≡ with_begun changes s.memory }
    ensures checkpoint { (tabled told : Bool) (s t : Store) → IsKeptStore tabled s.log s.memory → TxnStep told s calls.Checkpoint replies.Done t → t.memory ≡ s.memory }
    ensures get { (told : Bool) (s t : Store) (cell : ℕ) (reply : TxnReply) → TxnStep told s (calls.Get cell) reply t
        → (reply ≡ replies.Value (slice_index s.memory.cells cell)) × (t ≡ s) }
{
    checkpoints_are_read_as_written();
    records_are_read_as_written();
    held_sectors_suffice();
    steps_keep_a_state_valid();
    steps_only_add_records();
}

/// Within a transaction no call is refused for room, nor for anything else that the log could tell: the log refuses only if memory
/// runs out, if the disk fails, and if it is broken. A transaction that begins may be refused for room besides.
pub fn a_transaction_has_its_room()
    ensures within { (tabled told : Bool) (s t : Store) (call : TxnCall) (given : Refusal) → HasArguments call → is_within call ≡ true → IsKeptStore tabled s.log s.memory
        → TxnStep told s call (replies.Refused (Log given)) t → from_outside given ≡ true }
    ensures begin { (tabled told : Bool) (s t : Store) (changes : ℕ) (given : Refusal) → IsKeptStore tabled s.log s.memory
        → TxnStep told s (calls.Begin changes) (replies.Refused (Log given)) t → for_room_or_outside given ≡ true }
{
    checkpoints_are_read_as_written();
    records_are_read_as_written();
    held_sectors_suffice();
    steps_keep_a_state_valid();
    steps_only_add_records();
}

/// A call of a store is refused for the first of its reasons, and answered if there is none: that the log is broken, then the table's own reasons in their order, then
/// the log's. A fault of the disk and damage are told only if there is none, and out of memory only if the log isn't broken and the table has no reason of its own.
/// So the log refuses a checkpoint for room or for what comes from outside, and for nothing else.
pub fn calls_are_refused_for_the_first_reason()
    ensures reason { (tabled told : Bool) (s t : Store) (call : TxnCall) (reply : TxnReply) → HasArguments call → IsKeptStore tabled s.log s.memory
        → TxnStep told s call reply t → IsForReason s call reply }
    ensures checkpoint { (tabled told : Bool) (s t : Store) (given : Refusal) → IsKeptStore tabled s.log s.memory
        → TxnStep told s calls.Checkpoint (replies.Refused (Log given)) t → for_room_or_outside given ≡ true }
{
    checkpoints_are_read_as_written();
    records_are_read_as_written();
    held_sectors_suffice();
    steps_keep_a_state_valid();
    steps_only_add_records();
    only_faults_break_a_store();
}
