// Laws of archiving and restoring. Their functions do nothing; a caller cites their clauses.
ghost use Rattle.std.specs.Prelude.{◌≡◌, ℕ, List, None};
ghost use Rattle.clfs_lsn.specs.Lsn.{container_of};
ghost use Rattle.clfs_disk.specs.Files.{Files};
ghost use Rattle.clfs_model.specs.declared.state.State.{State};
ghost use Rattle.clfs_recover.specs.Files.{StandsFor};
ghost use Rattle.clfs_archive_form.specs.Form.{IsArchiveOf};
ghost use Rattle.clfs_restore.specs.Outcomes.{ReadsComeFirst};
ghost use Rattle.clfs_restore.specs.Restoring.{StandForRestored};

use clfs_archive_form::{an_archive_is_read_back, an_archive_restored_alone_is_the_same_log};
use clfs_disk::Disk;

/// What restoring comes to is so from before reads of the disk on that came first, as those of `first_open_slot`.
pub fn reads_may_come_first<D: Disk>()
    ensures { ReadsComeFirst D.state }
{}

/// Files that stand for what is restored of a log's archive alone, as far as it reaches, stand for the log itself, if its tail lies in the first
/// container that is listed: so after `restore` of what `write_archive` appended the log is the same, its tail too.
pub fn a_log_restored_of_its_archive_is_the_same()
    ensures same { (files restored : Files) (bytes : List ℕ) (s : State) (is : IsArchiveOf files bytes) → StandsFor files s
        → container_of is.image.tail ≡ is.image.first → StandForRestored bytes None restored → StandsFor restored s }
{
    an_archive_is_read_back();
    an_archive_restored_alone_is_the_same_log();
}
