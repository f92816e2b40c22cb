// The law of where the records of a log are read. Its function does nothing; a caller cites its clauses.
ghost use Rattle.std.specs.Prelude.{◌+◌, ◌<◌, ◌≤◌, ℕ, List, length, map, slice_index, Contains};
ghost use Rattle.clfs_lsn.specs.Lsn.{container_of};
ghost use Rattle.clfs_lsn.specs.declared.entry.LogEntry.{LogEntry};
ghost use Rattle.clfs_disk.specs.Files.{Files};
ghost use Rattle.clfs_container.specs.OpenBlocks.{AreWhole};
ghost use Rattle.clfs_base.specs.declared.image.BaseImage.{BaseImage};
ghost use Rattle.clfs_base.specs.Spelling.{IsImage};
ghost use Rattle.clfs_recover.specs.Logs.{IsLogWith};
ghost use Rattle.clfs_recover.specs.Reading.{file_of, IsReadAt};
ghost use Rattle.clfs_recover.specs.Walk.{shape_of};

use clfs_block::{blocks_are_read_as_written, records_are_read_of_their_block};
use clfs_record::records_are_read_as_written;

/// Each record of a log lies in a listed container. Where files have the log's blocks, it is read at its LSN in the file of that container.
pub fn stored_records_are_read()
    ensures listed { (image : BaseImage) (blocks : ℕ → List (List ℕ)) (entries : List LogEntry) (entry : LogEntry) → IsImage image
        → IsLogWith image (map blocks image.files) entries → Contains entries entry
        → (image.first ≤ container_of entry.lsn) × (container_of entry.lsn + 1 ≤ image.first + length image.files) }
    ensures read { (image : BaseImage) (blocks : ℕ → List (List ℕ)) (entries : List LogEntry) (entry : LogEntry) → IsImage image
        → IsLogWith image (map blocks image.files) entries → Contains entries entry → (files : Files)
        → ((i : ℕ) → i < length image.files → AreWhole image.container_sectors (files (slice_index image.files i)) (blocks (slice_index image.files i)))
        → IsReadAt (shape_of image) (length image.streams) (files (file_of image entry.lsn)) entry }
{
    blocks_are_read_as_written();
    records_are_read_of_their_block();
    records_are_read_as_written();
}
