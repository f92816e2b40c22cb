// What a change of the table leaves kept.
ghost use Rattle.std.specs.Prelude.{◌≡◌, ◌⊎◌, List, Some};
ghost use Rattle.clfs_lsn.specs.declared.entry.LogEntry.{LogEntry};
ghost use Rattle.clfs_buffers.specs.declared.place.BlockPlace.{BlockPlace};
ghost use Rattle.clfs_buffers.specs.Buffered.{Buffered, kept_at, with_used, with_block};

/// What is kept after a change was kept before, or is the block that the change adds. So what holds of each block that is kept, as that it is
/// what the disk has there, holds after the change too, if it holds of the block that is added.
pub fn changes_keep_blocks()
    ensures used { (blocks : Buffered) (place other : BlockPlace) → kept_at other (with_used place blocks) ≡ kept_at other blocks }
    ensures added { (blocks : Buffered) (place : BlockPlace) (records : List LogEntry) → kept_at place (with_block place records blocks) ≡ Some records }
    ensures joined { (blocks : Buffered) (place other : BlockPlace) (records found : List LogEntry) → kept_at other (with_block place records blocks) ≡ Some found
        → ((other ≡ place) × (found ≡ records)) ⊎ (kept_at other blocks ≡ Some found) }
{}
