// What a crash can't take away while calls are made, as a law on the crash clause of a journal.
ghost use Rattle.std.specs.Prelude.{◌≡◌, ◌≤◌, ℕ, Bool, List, ◌++◌, false, true};
ghost use Rattle.clfs_disk.specs.Files.{Files};
ghost use Rattle.clfs_model.specs.declared.journal.Entry.{Entry};
ghost use Rattle.clfs_model.specs.declared.state.State.{State};
ghost use Rattle.clfs_model.specs.Valid.{IsValid};
ghost use Rattle.clfs_shared.specs.Crashes.{IsLeftByEntries, KeepFlushed, PartsAt, since};

use clfs_disk::Disk;
use clfs_laws::{
    broken_stays, flushed_never_falls, sameness, steps_keep_a_state_valid, steps_only_add_records,
};
use clfs_model::ways_of_a_step;

/// A crash at any moment after an entry of a journal leaves files that open to a log with all records that were on the disk after the entry, but for those
/// that are live no more. The moment after an entry is the one that parts the journal behind it. This does nothing; a caller cites its clauses.
pub fn flushed_records_outlive_crashes<D: Disk>()
    ensures parts { (disk : D) (start : ℕ) (told whole : Bool) (from to : ℕ) (s t : State) (front rest : List Entry)
        → IsLeftByEntries told whole (since start (D.state disk).image_at) from to s (front ++ rest) t
        → PartsAt told whole (since start (D.state disk).image_at) from to s front rest t }

    // All that was on the disk in the first state of a log that isn't broken.
    ensures kept { (disk : D) (start : ℕ) (told whole : Bool) (from to : ℕ) (s t : State) (entries : List Entry) → IsValid s → s.broken ≡ false
        → IsLeftByEntries told whole (since start (D.state disk).image_at) from to s entries t
        → (moment : ℕ) (image : Files) → from ≤ moment → moment ≤ to → since start (D.state disk).image_at moment image → KeepFlushed s image }

    // A broken log makes no call on the disk, so that no time passes.
    ensures still { (disk : D) (start : ℕ) (told whole : Bool) (from to : ℕ) (s t : State) (entries : List Entry) → s.broken ≡ true
        → IsLeftByEntries told whole (since start (D.state disk).image_at) from to s entries t → to ≡ from }
{
    broken_stays();
    flushed_never_falls();
    sameness();
    steps_keep_a_state_valid();
    steps_only_add_records();
    ways_of_a_step();
}
