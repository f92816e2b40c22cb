// Laws of restored logs, for whoever writes their files. Their functions do nothing; a caller cites their clauses.
ghost use Rattle.std.specs.Prelude.{◌≡◌, ◌≢◌, ◌⊎◌, ◌+◌, ◌*◌, ◌<◌, ◌≤◌, [], ◌∷◌, ◌++◌, ℕ, List, length, slice_index, Option, Some, None, Ok};
ghost use Rattle.clfs_lsn.specs.Format.{sector_bytes, open_gate};
ghost use Rattle.clfs_lsn.specs.Lsn.{container_of};
ghost use Rattle.clfs_lsn.specs.Size.{IsShape};
ghost use Rattle.clfs_lsn.specs.declared.entry.LogEntry.{LogEntry};
ghost use Rattle.clfs_lsn.specs.declared.shape.Shape.{Shape};
ghost use Rattle.clfs_disk.specs.Files.{Files};
ghost use Rattle.clfs_container.specs.OpenBlocks.{AreWhole, total};
ghost use Rattle.clfs_base.specs.Spelling.{IsImage};
ghost use Rattle.clfs_model.specs.declared.state.State.{State};
ghost use Rattle.clfs_recover.specs.Files.{StandsFor};
ghost use Rattle.clfs_archive_form.specs.declared.archive.Archive.{Archive};
ghost use Rattle.clfs_archive_form.specs.declared.archive.Stored.{Stored};
ghost use Rattle.clfs_archive_form.specs.Archives.{archives_in};
ghost use Rattle.clfs_archive_form.specs.Form.{archived_pieces, IsArchiveOf};
ghost use Rattle.clfs_archive_form.specs.Kept.{StandIn};
ghost use Rattle.clfs_archive_form.specs.ReadBack.{archive_alone};
ghost use Rattle.clfs_archive_form.specs.Reading.{IsReadableAs, CanBeRead};
ghost use Rattle.clfs_archive_form.specs.Restoring.{last_copy, chosen, restored};
ghost use Rattle.clfs_archive_form.specs.Written.{AreRestored, CanBeRestored};

use clfs_base::copies_are_read_as_written;
use clfs_block::{blocks_are_read_as_written, records_are_read_of_their_block};
use clfs_container::open_blocks_are_one_list;
use clfs_record::records_are_read_as_written;
use clfs_recover::{
    copies_without_fault_fit, logs_are_copies_and_blocks, opened_copies_fit,
    opened_records_lie_in_order,
};

/// Files that hold the base copy of a restored log, and in each listed container the blocks that are left, stand for what is restored.
pub fn restored_files_stand_for_the_log()
    ensures stands { (bytes : List ℕ) (archive : Archive) (up_to : ℕ) (files : Files) (buffers : ℕ) → CanBeRestored bytes archive up_to
        → AreRestored bytes archive up_to files → StandsFor files (restored bytes archive up_to buffers) }
{
    copies_are_read_as_written();
    blocks_are_read_as_written();
    records_are_read_of_their_block();
    records_are_read_as_written();
    copies_without_fault_fit();
    logs_are_copies_and_blocks();
}

/// Archives that were read can be restored up to the LSN that was chosen: no listed container is missing, and the blocks of each, as the input has them
/// last, can be read in the log of the last base copy.
pub fn archives_can_be_restored()
    ensures can { (bytes : List ℕ) (archive : Archive) (up_to : Option ℕ) (lsn : ℕ) → IsImage archive.image → CanBeRead bytes archive
        → chosen archive up_to ≡ Ok lsn → CanBeRestored bytes archive lsn }
    ensures there { (bytes : List ℕ) (archive : Archive) (up_to : Option ℕ) (lsn i : ℕ) → IsImage archive.image → CanBeRead bytes archive
        → chosen archive up_to ≡ Ok lsn → i < length archive.image.files
        → (stored : Stored) × (last_copy archive.containers (archive.image.first + i) ≡ Some stored) }
    ensures readable { (bytes : List ℕ) (archive : Archive) (id : ℕ) (stored : Stored) → IsImage archive.image → CanBeRead bytes archive
        → last_copy archive.containers id ≡ Some stored → IsReadableAs bytes archive.image stored × (stored.container ≡ id) }
{}

/// Blocks that stand in bytes one after the other are the open blocks of a file that begins with these, where no sector is left after them or a closed
/// gate stands there; and they are no more than their container has.
pub fn blocks_in_a_row_are_open()
    ensures short { (shape : Shape) (streams id : ℕ) (entries : List LogEntry) (bytes : List ℕ) (blocks : List (List ℕ)) → IsShape shape
        → StandIn shape streams id entries bytes blocks → (length bytes ≤ sector_bytes * shape.container_sectors) × (total blocks ≡ length bytes) }
    ensures whole { (shape : Shape) (streams id : ℕ) (entries : List LogEntry) (bytes more : List ℕ) (blocks : List (List ℕ)) → IsShape shape
        → StandIn shape streams id entries bytes blocks
        → (length bytes ≡ sector_bytes * shape.container_sectors) ⊎ ((0 < length more) × (slice_index more 0 ≢ open_gate))
        → AreWhole shape.container_sectors (bytes ++ more) blocks }
{
    blocks_are_read_as_written();
    records_are_read_as_written();
}

/// The archive of a log is read as it was written: it is one archive and nothing more, with the log's base copy and each container where it stands.
pub fn an_archive_is_read_back()
    ensures read { (files : Files) (bytes : List ℕ) (s : State) (is : IsArchiveOf files bytes) → StandsFor files s
        → archives_in bytes ≡ Ok (archive_alone is.image (archived_pieces is.image is.blocks) ∷ []) }
{
    open_blocks_are_one_list();
    copies_are_read_as_written();
    copies_without_fault_fit();
    opened_copies_fit();
    opened_records_lie_in_order();
    logs_are_copies_and_blocks();
}

/// The archive of a log whose tail lies in the first container that is listed, restored alone and as far as it reaches, is the same log, its tail too.
pub fn an_archive_restored_alone_is_the_same_log()
    ensures same { (files : Files) (bytes : List ℕ) (s : State) (is : IsArchiveOf files bytes) → StandsFor files s
        → container_of is.image.tail ≡ is.image.first
        → (lsn : ℕ) × (chosen (archive_alone is.image (archived_pieces is.image is.blocks)) None ≡ Ok lsn)
        × (restored bytes (archive_alone is.image (archived_pieces is.image is.blocks)) lsn s.buffers ≡ s) }
{
    open_blocks_are_one_list();
    copies_are_read_as_written();
    blocks_are_read_as_written();
    records_are_read_of_their_block();
    records_are_read_as_written();
    copies_without_fault_fit();
    opened_copies_fit();
    opened_records_lie_in_order();
    logs_are_copies_and_blocks();
}
