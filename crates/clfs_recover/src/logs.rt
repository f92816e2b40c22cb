// What holds of a log that was opened over any disk. The functions do nothing; a caller cites their clauses.
ghost use Rattle.std.specs.Prelude.{◌≡◌, ◌^◌, ◌<◌, ℕ, List, length, sum_by, Ok};
ghost use Rattle.clfs_disk.specs.Files.{Files};
ghost use Rattle.clfs_recover.specs.Files.{Finds, StandsFor, state_of};
ghost use Rattle.clfs_recover.specs.Counting.{blocks_begun};
ghost use Rattle.clfs_recover.specs.KnownLogs.{IsLogOf};
ghost use Rattle.clfs_recover.specs.Logs.{IsStoredIn};
ghost use Rattle.clfs_recover.specs.declared.parts.Parts.{Parts};

use clfs_base::copies_are_read_as_written;
use clfs_block::blocks_are_read_as_written;
use clfs_container::open_blocks_are_one_list;
use clfs_record::records_are_read_as_written;

/// The parts of a log are what opening finds in some files, which stand for its state. So what is known of every state for which files stand is
/// known of a log that was opened, also where the disk doesn't tell what its files hold.
pub fn logs_are_found_in_files()
    ensures found { (parts : Parts) → IsLogOf parts → (files : Files) × Finds files (Ok parts) }
    ensures state { (parts : Parts) (buffers : ℕ) → IsLogOf parts → (files : Files) × StandsFor files (state_of parts buffers) }
{
    copies_are_read_as_written();
    open_blocks_are_one_list();
}

/// A log has so few records that a count of them fits its type.
pub fn logs_have_few_records()
    ensures { (parts : Parts) → IsLogOf parts → length parts.entries < 2 ^ 31 }
{
    blocks_are_read_as_written();
}

/// The first record of each block has the sequence 0, and no other has: so the records tell in how many blocks they lie.
pub fn blocks_begin_with_sequence_0()
    ensures known { (parts : Parts) (log : IsLogOf parts)
        → blocks_begun parts.entries ≡ sum_by (λ (here : List (List ℕ)). length here) log.blocks }
    ensures found { (files : Files) (parts : Parts) (blocks : ℕ → List (List ℕ)) → Finds files (Ok parts) → IsStoredIn files parts blocks
        → blocks_begun parts.entries ≡ sum_by (λ (file : ℕ). length (blocks file)) parts.image.files }
{
    copies_are_read_as_written();
    blocks_are_read_as_written();
    records_are_read_as_written();
}
