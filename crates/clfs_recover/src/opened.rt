// Laws of what files can stand for. Their functions do nothing; a caller cites their clauses.
ghost use Rattle.std.specs.Prelude.{◌≡◌, ◌⊎◌, ◌+◌, ◌-◌, ◌<◌, ◌≤◌, ℕ, [], length, map, slice_index, All, Any, Ok, None, false};
ghost use Rattle.std.specs.List.Sorted.{IsStrictlyIncreasing};
ghost use Rattle.clfs_lsn.specs.Limits.{most_write_buffers};
ghost use Rattle.clfs_lsn.specs.Lsn.{container_of, sequence_of};
ghost use Rattle.clfs_lsn.specs.Place.{IsClosed, IsWithin, frontier};
ghost use Rattle.clfs_lsn.specs.Spelling.{FitsAt};
ghost use Rattle.clfs_lsn.specs.declared.entry.Kind.TheVariants.{Restart};
ghost use Rattle.clfs_lsn.specs.declared.entry.LogEntry.{LogEntry};
ghost use Rattle.clfs_disk.specs.Files.{Files};
ghost use Rattle.clfs_base.specs.Spelling.{IsImage, row_in};
ghost use Rattle.clfs_base.specs.Slots.{newest_of};
ghost use Rattle.clfs_model.specs.declared.state.State.{State};
ghost use Rattle.clfs_model.specs.Flush.{flushed, cut};
ghost use Rattle.clfs_model.specs.Storable.{before_all, behind_all, LieInBlocks, GoesOnAt, IsStorable};
ghost use Rattle.clfs_model.specs.Valid.{IsValid};
ghost use Rattle.clfs_recover.specs.Files.{Finds, StandsFor};
ghost use Rattle.clfs_recover.specs.Walk.{shape_of, image_fault};
ghost use Rattle.clfs_recover.specs.declared.parts.Parts.{Parts};

use clfs_base::copies_are_read_as_written;
use clfs_block::blocks_are_read_as_written;
use clfs_record::records_are_read_as_written;

/// What files stand for is a state that files can hold and, with 1 to 64 write buffers, one that a log can be in. The files may hold any
/// numbers in place of bytes.
pub fn opened_states_are_valid()
    ensures valid { (files : Files) (s : State) → StandsFor files s → 1 ≤ s.buffers → s.buffers ≤ most_write_buffers → IsValid s }
    ensures storable { (files : Files) (s : State) → StandsFor files s → IsStorable s }
{
    copies_are_read_as_written();
    blocks_are_read_as_written();
    records_are_read_as_written();
}

/// It is its own flushed part: all of its records are stable, nothing is under way, and no earlier call failed.
pub fn opened_states_are_cut()
    ensures cut { (files : Files) (s : State) → StandsFor files s → cut s ≡ s }
    ensures flushed { (files : Files) (s : State) → StandsFor files s → flushed s ≡ frontier s.place }
    ensures no_areas { (files : Files) (s : State) → StandsFor files s → s.areas ≡ [] }
    ensures nothing_waits { (files : Files) (s : State) → StandsFor files s → s.waiting ≡ [] }
    ensures whole { (files : Files) (s : State) → StandsFor files s → s.broken ≡ false }
{
    copies_are_read_as_written();
    blocks_are_read_as_written();
    records_are_read_as_written();
}

/// The newest copy of a log that is opened is one that a log can have, and its bases and its tail fit the records. The log goes on in the
/// last listed container, where no block is open.
pub fn opened_copies_fit()
    ensures newest { (files : Files) (parts : Parts) → Finds files (Ok parts) → newest_of (files 0) ≡ Ok (parts.slot, parts.image) }
    ensures slot { (files : Files) (parts : Parts) → Finds files (Ok parts) → parts.slot ≤ 1 }
    ensures image { (files : Files) (parts : Parts) → Finds files (Ok parts) → IsImage parts.image }
    ensures right { (files : Files) (parts : Parts) → Finds files (Ok parts) → image_fault parts.image (frontier parts.place) ≡ None }
    ensures container { (files : Files) (parts : Parts) → Finds files (Ok parts)
        → parts.place.container + 1 ≡ parts.image.first + length parts.image.files }
    ensures within { (files : Files) (parts : Parts) → Finds files (Ok parts) → IsWithin (shape_of parts.image) parts.place × IsClosed parts.place }
{
    copies_are_read_as_written();
    blocks_are_read_as_written();
    records_are_read_as_written();
}

/// The LSNs of the records that opening finds rise, below the frontier and in the listed containers. Each record fits its LSN in a log of
/// the copy's streams: its stream is one of them, its links lie below it, and so does its new base unless that is its own LSN. They lie in
/// blocks one after the other up to the place; in a block their sequences are 0, 1 and so on.
pub fn opened_records_lie_in_order()
    ensures rising { (files : Files) (parts : Parts) → Finds files (Ok parts)
        → IsStrictlyIncreasing (map (λ (entry : LogEntry). entry.lsn) parts.entries) }
    ensures below { (files : Files) (parts : Parts) → Finds files (Ok parts)
        → All (λ (entry : LogEntry). entry.lsn < frontier parts.place) parts.entries }
    ensures containers { (files : Files) (parts : Parts) → Finds files (Ok parts)
        → All (λ (entry : LogEntry). (parts.image.first ≤ container_of entry.lsn) × (container_of entry.lsn ≤ parts.place.container)) parts.entries }
    ensures fit { (files : Files) (parts : Parts) → Finds files (Ok parts)
        → All (λ (entry : LogEntry). FitsAt entry.lsn (length parts.image.streams) entry) parts.entries }
    ensures blocks { (files : Files) (parts : Parts) → Finds files (Ok parts) → LieInBlocks (shape_of parts.image) before_all parts.entries }
    ensures place { (files : Files) (parts : Parts) → Finds files (Ok parts) → GoesOnAt (behind_all before_all parts.entries) parts.place }
    ensures sequences { (files : Files) (parts : Parts) (i : ℕ) → Finds files (Ok parts) → i < length parts.entries
        → (sequence_of (slice_index (map (λ (entry : LogEntry). entry.lsn) parts.entries) i) ≡ 0)
        ⊎ ((1 ≤ i) × (slice_index (map (λ (entry : LogEntry). entry.lsn) parts.entries) i
        ≡ slice_index (map (λ (entry : LogEntry). entry.lsn) parts.entries) (i - 1) + 1)) }
{
    copies_are_read_as_written();
    blocks_are_read_as_written();
    records_are_read_as_written();
}

/// There is a base for each row of the copy. It is at least the row's and at least the new base of each of the stream's records, at most the
/// frontier, and that of the row or of one of the stream's restart areas.
pub fn opened_bases_are_moved_by_records()
    ensures all { (files : Files) (parts : Parts) → Finds files (Ok parts) → length parts.bases ≡ length parts.image.streams }
    ensures rows { (files : Files) (parts : Parts) (i : ℕ) → Finds files (Ok parts) → i < length parts.image.streams
        → (row_in parts.image.streams i).base ≤ slice_index parts.bases i }
    ensures records { (files : Files) (parts : Parts) → Finds files (Ok parts)
        → All (λ (entry : LogEntry). entry.new_base ≤ slice_index parts.bases (entry.stream - 1)) parts.entries }
    ensures frontier { (files : Files) (parts : Parts) (i : ℕ) → Finds files (Ok parts) → i < length parts.image.streams
        → slice_index parts.bases i ≤ frontier parts.place }
    ensures moved { (files : Files) (parts : Parts) (i : ℕ) → Finds files (Ok parts) → i < length parts.image.streams
        → (slice_index parts.bases i ≡ (row_in parts.image.streams i).base)
        ⊎ Any (λ (entry : LogEntry). (entry.stream ≡ i + 1) × (entry.kind ≡ Restart) × (entry.new_base ≡ slice_index parts.bases i)) parts.entries }
{
    copies_are_read_as_written();
    blocks_are_read_as_written();
    records_are_read_as_written();
}
