// Laws on the layout, and on the plans of calls. The functions do nothing but cite others.
ghost use Rattle.std.specs.Prelude.{◌≡◌, ◌<◌, ℕ, true, List, length, slice_index, Some};
ghost use Rattle.clfs_model.specs.declared.state.State.{State};
ghost use Rattle.clfs_cells.specs.Calls.{Answered};
ghost use Rattle.clfs_cells.specs.Loading.{Loaded};
ghost use Rattle.clfs_cells.specs.Plans.{Plan, Ended, CarriesOut, fine_end, end_without_memory};
ghost use Rattle.clfs_cells.specs.declared.checkpoint.Checkpoint.{Checkpoint};
ghost use Rattle.clfs_cells.specs.declared.row.TxnRecord.{TxnRecord};
ghost use Rattle.clfs_cells.specs.Layout.{IsTxnRecord, IsCheckpoint, txn_bytes, txn_record_of, checkpoint_bytes, checkpoint_of};

use clfs_model::{calm_replies_are_a_run, ways_of_a_step};

/// What a record's data spell is the record, and data that spell a record are that record's, and of no other.
pub fn records_are_read_as_written()
    ensures read { (r : TxnRecord) → IsTxnRecord r → txn_record_of (txn_bytes r) ≡ Some r }
    ensures written { (bytes : List ℕ) (r : TxnRecord) → ((at : ℕ) → slice_index bytes at < 256) → txn_record_of bytes ≡ Some r
        → (bytes ≡ txn_bytes r) × IsTxnRecord r }
    ensures length { (r : TxnRecord) → length (txn_bytes r) ≡ 24 }
{}

/// What a restart area's data spell is the restart area, and data that spell one are its, and of no other.
pub fn checkpoints_are_read_as_written()
    ensures read { (c : Checkpoint) → IsCheckpoint c → checkpoint_of (checkpoint_bytes c) ≡ Some c }
    ensures written { (bytes : List ℕ) (c : Checkpoint) → ((at : ℕ) → slice_index bytes at < 256) → checkpoint_of bytes ≡ Some c
        → (bytes ≡ checkpoint_bytes c) × IsCheckpoint c }
    ensures length { (c : Checkpoint) → IsCheckpoint c → length (checkpoint_bytes c) ≡ 260 }
{}

/// What is computed of a plan is a way to carry it out, so that worked rows are of the relation: where nothing happens and memory suffices, and where
/// memory runs out once.
pub fn computed_ends_are_carried_out()
    ensures calls { (client : ℕ) (log : State) (plan : Plan Answered) (ended : Ended Answered) → fine_end client log plan ≡ Some ended
        → CarriesOut true client log plan ended.value ended.log }
    ensures loading { (client : ℕ) (log : State) (plan : Plan Loaded) (ended : Ended Loaded) → fine_end client log plan ≡ Some ended
        → CarriesOut true client log plan ended.value ended.log }
    ensures without_memory { (before client : ℕ) (log : State) (plan : Plan Answered) (ended : Ended Answered)
        → end_without_memory before client log plan ≡ Some ended → CarriesOut true client log plan ended.value ended.log }
{
    calm_replies_are_a_run();
    ways_of_a_step();
}
