// Laws on commands that open a log, for those that stand above: they do nothing.
ghost use Rattle.std.specs.Prelude.{ℕ, List, Option};
ghost use Rattle.clfs_disk.specs.State.{Later};
ghost use Rattle.clfs_model.specs.declared.journal.Entry.{Entry};
ghost use Rattle.clfs_model.specs.declared.state.State.{State};
ghost use Rattle.clfs_recover.specs.Telling.{TellsOpening};
ghost use Rattle.clfs_recover.specs.declared.refusal.LoadRefusal.{LoadRefusal};
ghost use Rattle.clfs_shared.specs.Reached.{opening_of, IsReached};
ghost use Rattle.clfs_operations.specs.Archiving.{EndsArchive};
ghost use Rattle.clfs_operations.specs.Complete.{RaceComesThrough};
ghost use Rattle.clfs_operations.specs.Loaded.{IsLoaded, IsKeptOn, IsTakenFrom};
ghost use Rattle.clfs_operations.specs.Opened.{RefusesLog, TellsRefusal};
ghost use Rattle.clfs_operations.specs.Race.{EndsRacing, LeavesFiles};
ghost use Rattle.clfs_operations.specs.Restoring.{EndsRestore};
ghost use Rattle.clfs_operations.specs.Txn.{TableComesThrough};
ghost use Rattle.clfs_operations.specs.Unopened.{EndsUnopened};

use clfs_disk::Disk;
use clfs_laws::unbroken_stays;
use clfs_recover::whole_files_pass_the_test;

/// A command that memory runs out for before it begins ends with status 5, and leaves the disk, the source and the sink as they were.
pub fn memory_runs_out_at_once<D: Disk>()
    ensures alone { (disk : D) → LeavesFiles (D.state disk) (D.state disk) }
    ensures races { (buffers : ℕ) (disk : D) (left written : Option (List ℕ)) (source sink : ℕ)
        → EndsRacing 5 buffers (D.state disk) (D.state disk) left left written written source source sink sink }
    ensures race_comes_through { (buffers : ℕ) (disk : D) (left written : Option (List ℕ))
        → RaceComesThrough 5 buffers (D.state disk) (D.state disk) left left written written }
    ensures table_comes_through { (disk : D) (left written : Option (List ℕ)) → TableComesThrough 5 (D.state disk) (D.state disk) left left written written }
    ensures archives { (disk : D) (written : Option (List ℕ)) (sink : ℕ) → EndsArchive 5 (D.state disk) (D.state disk) written written sink sink }
    ensures restores { (up_to : Option ℕ) (disk : D) (left written : Option (List ℕ)) (source sink : ℕ)
        → EndsRestore up_to 5 (D.state disk) (D.state disk) left left written written source source sink sink }
{}

/// What was told of a log that wasn't opened, by the status.
pub fn unopened_logs_are_told<D: Disk>()
    ensures { (status : ℕ) (refusal : LoadRefusal) (old new : D) (written written_after : Option (List ℕ)) (sink sink_after : ℕ)
        → RefusesLog refusal (D.state old) (D.state new) → TellsOpening refusal → TellsRefusal status refusal written written_after sink sink_after
        → EndsUnopened status (D.state old) (D.state new) written written_after sink sink_after }
{}

/// What a journal says that led a shared log on from the state in which it was loaded.
pub fn journals_are_taken_from_logs<D: Disk>()
    ensures { (buffers : ℕ) (old mid new : D) (s t : State) (journal : List Entry)
        → IsLoaded buffers (D.state old) (D.state mid) s → IsKeptOn t (D.state new) → Later (D.state mid) (D.state new)
        → IsReached (opening_of s (D.state mid)) (D.state new) t journal → IsTakenFrom buffers (D.state old) (D.state new) s t journal }
{
    unbroken_stays();
    whole_files_pass_the_test();
}
