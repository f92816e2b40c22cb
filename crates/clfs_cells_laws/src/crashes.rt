// What a crash leaves of a table while a call of its store is under way. The functions do nothing.
ghost use Rattle.std.specs.Prelude.{◌≡◌, ◌⊎◌, ℕ, false, true, [], Ok, length};
ghost use Rattle.clfs_model.specs.Flush.{cut};
ghost use Rattle.clfs_model.specs.Run.{bad_line};
ghost use Rattle.clfs_model.specs.State.{areas_of};
ghost use Rattle.clfs_model.specs.Survivors.{Survives};
ghost use Rattle.clfs_model.specs.Valid.{IsValid};
ghost use Rattle.clfs_model.specs.declared.state.State.{State};
ghost use Rattle.clfs_cells.specs.Calls.{TxnStep, txn_plan};
ghost use Rattle.clfs_cells.specs.Loading.{LoadStep, load_plan};
ghost use Rattle.clfs_cells.specs.Stored.{Memory, Store};
ghost use Rattle.clfs_cells.specs.Table.{table};
ghost use Rattle.clfs_cells.specs.declared.asked.TxnCall.{TxnCall};
ghost use Rattle.clfs_cells.specs.declared.told.TxnReply.{TxnReply};
ghost use Rattle.clfs_cells_laws.specs.Crashes.{EndsSafe, IsSafe, IsSafeLog, LeavesTables, table_once};
ghost use Rattle.clfs_cells_laws.specs.Steps.{HasArguments};
ghost use Rattle.clfs_cells_laws.specs.Stores.{IsStore};

use clfs_cells::{checkpoints_are_read_as_written, records_are_read_as_written};
use clfs_laws::{
    flushed_never_falls, held_sectors_suffice, steps_keep_a_state_valid, steps_only_add_records,
};

/// If the disk told what it held when the table was loaded, a crash in a call of a store leaves the table from before the call, or, in a commit, that with its
/// transaction; a call that was answered leaves the latter. What isn't on the disk after the call counts for nothing, unless the log is broken, and
/// between two calls a crash leaves the table as it is. So does a crash while a table is loaded, of a log that was just opened or one of which nothing counts
/// that isn't on the disk.
pub fn crashes_leave_the_table()
    ensures left { (s : Store) (call : TxnCall) → HasArguments call → IsStore true s.log s.memory → IsSafe s.log s.memory.stream
        → LeavesTables (table s.log) (table_once s call) true s.memory.client s.log (txn_plan s.log s.memory call) }
    ensures ends { (s t : Store) (call : TxnCall) (reply : TxnReply) → HasArguments call → IsStore true s.log s.memory → IsSafe s.log s.memory.stream
        → TxnStep true s call reply t → (t.log.broken ≡ true) ⊎ EndsSafe (table s.log) (table_once s call) t.memory.stream reply t.log }
    ensures at_rest { (s : Store) (at : ℕ) (x : State) → IsStore true s.log s.memory → IsSafe s.log s.memory.stream → Survives (bad_line at) s.log x
        → table x ≡ table s.log }
    ensures loading { (log : State) (client : ℕ) → IsValid log → log.broken ≡ false → areas_of log client ≡ [] → IsSafeLog log
        → LeavesTables (table log) (table log) true client log (load_plan (length log.records) client) }
    ensures loaded { (log : State) (client : ℕ) (memory : Memory) (t : State) → IsValid log → log.broken ≡ false → areas_of log client ≡ [] → IsSafeLog log
        → LoadStep true log client (Ok memory) t → (t.broken ≡ true) ⊎ IsSafe t memory.stream }
    ensures unloaded { (log : State) (at : ℕ) (x : State) → IsValid log → IsSafeLog log → Survives (bad_line at) log x → table x ≡ table log }
    ensures opened { (log : State) → cut log ≡ log → IsSafeLog log }
{
    checkpoints_are_read_as_written();
    flushed_never_falls();
    records_are_read_as_written();
    held_sectors_suffice();
    steps_keep_a_state_valid();
    steps_only_add_records();
}
