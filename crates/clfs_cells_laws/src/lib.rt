//! Laws on tables: what loading one comes to, and what is always true of one that was loaded.
//!
//! `clfs_cells` defines loading as calls of the log, one after the other, and defines a log's table by its live records alone. Here both meet: over a disk
//! that tells what it holds the cells of the store are the table, the last number is the greatest of all that stand in it, and a refusal is the one that
//! the log's records give. Over any disk loading changes no table, and leaves the client no area where it is refused, unless the log is broken.
//!
//! `specs/Stores.antt` says what is always true of a store. From that follows what its calls leave of the cells (`specs/Steps.antt`), that no call within a
//! transaction is refused for room, and, if the disk told what it held when the table was loaded, that the store's cells are the log's table changed by what its
//! open transactions did (`specs/Tables.antt`). And a crash leaves the table from before the call that is under way, or, in a commit, that with its transaction, since
//! what isn't on the disk counts for nothing in it (`specs/Crashes.antt`).
#![tactic(auto)]

ghost use Rattle.std.specs.Prelude.{◌≡◌, ◌<◌, ℕ, Bool, true, false, [], All, Some, Ok, Err};
ghost use Rattle.clfs_lsn.specs.declared.entry.LogEntry.{LogEntry};
ghost use Rattle.clfs_model.specs.Flush.{IsSame, cut, flushed};
ghost use Rattle.clfs_model.specs.Live.{live};
ghost use Rattle.clfs_model.specs.Refusals.{stream_number};
ghost use Rattle.clfs_cells.specs.Table.{table, table_name};
ghost use Rattle.clfs_cells.specs.Loading.{Loaded, LoadStep};
ghost use Rattle.clfs_cells.specs.Stored.{Memory};
ghost use Rattle.clfs_cells.specs.declared.told.TxnLoadRefusal.{TxnLoadRefusal};
ghost use Rattle.clfs_cells_laws.specs.Loads.{IsLoaded, IsNotLoaded};
ghost use Rattle.clfs_model.specs.State.{areas_of};
ghost use Rattle.clfs_model.specs.Valid.{IsValid};
ghost use Rattle.clfs_model.specs.declared.state.State.{State};
ghost use Rattle.clfs_cells.specs.Calls.{TxnStep};
ghost use Rattle.clfs_cells.specs.Stored.{Store};
ghost use Rattle.clfs_cells.specs.declared.asked.TxnCall.{TxnCall};
ghost use Rattle.clfs_cells.specs.declared.told.TxnReply.{TxnReply};
ghost use Rattle.clfs_cells_laws.specs.Breaking.{breaks_loading, reads_back, tells_break, tells_table_broken, tells_table_damage};

mod crashes;
mod stores;
mod tables;

use clfs_cells::{checkpoints_are_read_as_written, records_are_read_as_written};
use clfs_laws::{
    broken_stays, faults_break, held_sectors_suffice, replies_are_of_their_calls, sameness,
    steps_keep_a_state_valid, steps_only_add_records, unbroken_stays,
};
pub use crashes::crashes_leave_the_table;
pub use stores::{
    a_transaction_has_its_room, calls_are_refused_for_the_first_reason, calls_keep_a_store,
    calls_leave_the_cells_so,
};
pub use tables::{a_commit_joins_the_table, a_stores_cells_are_its_table};

/// What loading a table comes to, from a log that can be, for a client that has no area. The function does nothing.
pub fn loading_comes_to_the_table()
    ensures loaded { (told : Bool) (log : State) (client : ℕ) (memory : Memory) (t : State) → IsValid log → areas_of log client ≡ []
        → LoadStep told log client (Ok memory) t → IsLoaded told log client memory t }
    ensures refused { (told : Bool) (log : State) (client : ℕ) (cause : TxnLoadRefusal) (t : State) → IsValid log → areas_of log client ≡ []
        → LoadStep told log client (Err cause) t → IsNotLoaded told log client cause t }
{
    checkpoints_are_read_as_written();
    records_are_read_as_written();
    held_sectors_suffice();
    steps_keep_a_state_valid();
    steps_only_add_records();
}

/// Logs that are the same but for records that no reply can show have the same table. The function does nothing.
pub fn the_same_log_has_the_same_table()
    ensures { (s t : State) → IsSame s t → table s ≡ table t }
{
    sameness();
}

/// If all live records of a table's stream are on the disk, the flushed part of the log has the same table. The function does nothing.
pub fn the_flushed_part_has_the_table()
    ensures { (s : State) → ((stream : ℕ) → stream_number s table_name ≡ Some stream → All (λ (entry : LogEntry). entry.lsn < flushed s) (live s stream))
        → table (cut s) ≡ table s }
{}

/// A store's log is broken by a call that is answered by a fault of the disk or by damage, and by no other; and that it is broken is answered only after
/// that. Damage is told only by a call that takes sets back, since no other reads records of the log. Loading breaks the log by the two alone, too. The function does nothing.
pub fn only_faults_break_a_store()
    ensures whole { (told : Bool) (s : Store) (call : TxnCall) (reply : TxnReply) (t : Store) → s.log.broken ≡ false → TxnStep told s call reply t
        → tells_break reply ≡ false → (t.log.broken ≡ false) × (tells_table_broken reply ≡ false) }
    ensures broken { (told : Bool) (s : Store) (call : TxnCall) (reply : TxnReply) (t : Store) → s.log.broken ≡ false → TxnStep told s call reply t
        → tells_break reply ≡ true → t.log.broken ≡ true }
    ensures quiet { (told : Bool) (s : Store) (call : TxnCall) (reply : TxnReply) (t : Store) → reads_back call ≡ false → TxnStep told s call reply t
        → tells_table_damage reply ≡ false }
    ensures loading { (told : Bool) (log : State) (client : ℕ) (loaded : Loaded) (t : State) → log.broken ≡ false → LoadStep told log client loaded t
        → breaks_loading loaded ≡ false → t.broken ≡ false }
{
    broken_stays();
    faults_break();
    replies_are_of_their_calls();
    unbroken_stays();
}
