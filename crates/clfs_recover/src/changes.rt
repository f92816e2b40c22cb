// Laws of what a step of writing makes of a log: a group of blocks, a further container, a changed copy. Their functions do nothing; a caller
// cites their clauses.
ghost use Rattle.std.specs.Prelude.{◌≡◌, ◌≢◌, ◌==◌, ◌+◌, ◌-◌, ◌*◌, ◌<◌, ◌≤◌, ℕ, Bool, true, if◌then◌else◌, List, [], ◌∷◌, ◌++◌, length, map, slice_index, All, Some, None, Ok};
ghost use Rattle.clfs_lsn.specs.Format.{sector_bytes};
ghost use Rattle.clfs_lsn.specs.Lsn.{container_of};
ghost use Rattle.clfs_lsn.specs.Place.{frontier};
ghost use Rattle.clfs_lsn.specs.declared.entry.LogEntry.{LogEntry};
ghost use Rattle.clfs_container.specs.OpenBlocks.{total};
ghost use Rattle.clfs_base.specs.declared.image.BaseImage.{BaseImage};
ghost use Rattle.clfs_base.specs.declared.image.Row.{Row};
ghost use Rattle.clfs_base.specs.Spelling.{IsImage};
ghost use Rattle.clfs_model.specs.State.{base_of};
ghost use Rattle.clfs_lsn.specs.Streams.{set_base};
ghost use Rattle.clfs_model.specs.Flush.{IsSame};
ghost use Rattle.clfs_model.specs.Live.{hold};
ghost use Rattle.clfs_recover.specs.Files.{policy_of};
ghost use Rattle.clfs_recover.specs.Logs.{IsLogWith, HaveMore, HaveEmpty, file_at_end, stored_state, with_row_base, from_container, records_from_container};
ghost use Rattle.clfs_recover.specs.Stored.{stored_in, stored_place};
ghost use Rattle.clfs_recover.specs.Walk.{shape_of};

use clfs_block::blocks_are_read_as_written;
use clfs_record::records_are_read_as_written;

/// A group of blocks that was written after the last one: its records come after those of before, and the log goes on after it. Where the
/// last of them is a restart area whose new base isn't below its stream's, this has moved there.
pub fn groups_come_behind_the_last_block()
    ensures by_file { (image : BaseImage) (more : List (List ℕ)) (old : ℕ → List (List ℕ))
        → HaveMore image more old (λ (file : ℕ). if file == file_at_end image then old (file_at_end image) ++ more else old file) }
    ensures at { (image : BaseImage) (blocks : ℕ → List (List ℕ)) → IsImage image
        → (stored_place image (map blocks image.files)).offset ≡ total (blocks (file_at_end image)) }
    ensures log { (image : BaseImage) (old new : ℕ → List (List ℕ)) (more : List (List ℕ)) (entries others : List LogEntry) → IsImage image
        → HaveMore image more old new → total (new (file_at_end image)) ≤ sector_bytes * image.container_sectors
        → stored_in (shape_of image) (length image.streams) (image.first + length image.files - 1) (total (old (file_at_end image))) more ≡ Ok others
        → IsLogWith image (map old image.files) entries → IsLogWith image (map new image.files) (entries ++ others) }
    ensures place { (image : BaseImage) (old new : ℕ → List (List ℕ)) (more : List (List ℕ)) → IsImage image → HaveMore image more old new
        → stored_place image (map new image.files)
        ≡ record (stored_place image (map old image.files)) { offset = total (old (file_at_end image)) + total more } }
    ensures state { (image : BaseImage) (old new : ℕ → List (List ℕ)) (more : List (List ℕ)) (entries others : List LogEntry) (buffers : ℕ)
        → IsImage image → HaveMore image more old new → All (λ (entry : LogEntry). entry.new_base ≡ 0) others
        → stored_state image (map new image.files) (entries ++ others) buffers
        ≡ record (stored_state image (map old image.files) entries buffers) {
          records = entries ++ others;
          place = record (stored_place image (map old image.files)) { offset = total (old (file_at_end image)) + total more };
        } }
    ensures moved { (image : BaseImage) (old new : ℕ → List (List ℕ)) (more : List (List ℕ)) (entries others : List LogEntry) (entry : LogEntry)
        (buffers : ℕ) → IsImage image → HaveMore image more old new → All (λ (other : LogEntry). other.new_base ≡ 0) others
        → 1 ≤ entry.stream → entry.stream ≤ length image.streams
        → base_of (stored_state image (map old image.files) entries buffers) entry.stream ≤ entry.new_base
        → stored_state image (map new image.files) (entries ++ (others ++ entry ∷ [])) buffers
        ≡ record (stored_state image (map old image.files) entries buffers) {
          records = entries ++ (others ++ entry ∷ []);
          place = record (stored_place image (map old image.files)) { offset = total (old (file_at_end image)) + total more };
          streams = set_base entry.stream entry.new_base (stored_state image (map old image.files) entries buffers).streams;
        } }
{}

/// A further container that is listed after the others, and has no blocks: the records are those of before, and the log goes on at its first
/// byte.
pub fn further_containers_begin_empty()
    ensures by_file { (image : BaseImage) (file : ℕ) (old : ℕ → List (List ℕ))
        → ((i : ℕ) → i < length image.files → slice_index image.files i ≢ file)
        → HaveEmpty image file old (λ (other : ℕ). if other == file then [] else old other) }
    ensures log { (image : BaseImage) (file : ℕ) (old new : ℕ → List (List ℕ)) (entries : List LogEntry) → IsImage image
        → HaveEmpty image file old new → IsLogWith image (map old image.files) entries
        → IsLogWith (record image { files = image.files ++ file ∷ [] }) (map new (image.files ++ file ∷ [])) entries }
    ensures place { (image : BaseImage) (file : ℕ) (old new : ℕ → List (List ℕ)) → HaveEmpty image file old new
        → stored_place (record image { files = image.files ++ file ∷ [] }) (map new (image.files ++ file ∷ []))
        ≡ record { container = image.first + length image.files; offset = 0; used = 0; records = 0 } }
    ensures state { (image : BaseImage) (file : ℕ) (old new : ℕ → List (List ℕ)) (entries : List LogEntry) (buffers : ℕ)
        → HaveEmpty image file old new
        → stored_state (record image { files = image.files ++ file ∷ [] }) (map new (image.files ++ file ∷ [])) entries buffers
        ≡ record (stored_state image (map old image.files) entries buffers) {
          place = record { container = image.first + length image.files; offset = 0; used = 0; records = 0 };
        } }
{}

/// The base of a row that moves to where the records don't reach past it: the records are those of before, and it is the stream's base.
pub fn bases_of_rows_move()
    ensures log { (image : BaseImage) (blocks : List (List (List ℕ))) (entries : List LogEntry) (stream base : ℕ)
        → 1 ≤ stream → stream ≤ length image.streams → base ≤ frontier (stored_place image blocks)
        → IsLogWith image blocks entries → IsLogWith (with_row_base stream base image) blocks entries }
    ensures state { (image : BaseImage) (blocks : List (List (List ℕ))) (entries : List LogEntry) (buffers stream base : ℕ)
        → 1 ≤ stream → stream ≤ length image.streams → base_of (stored_state image blocks entries buffers) stream ≤ base
        → stored_state (with_row_base stream base image) blocks entries buffers
        ≡ record (stored_state image blocks entries buffers) { streams = set_base stream base (stored_state image blocks entries buffers).streams } }
{}

/// A row that is added after the others: the records are those of before, and the log has one stream more, with the row's base.
pub fn streams_come_last()
    ensures log { (image : BaseImage) (blocks : List (List (List ℕ))) (entries : List LogEntry) (row : Row) → row.base ≤ frontier (stored_place image blocks)
        → IsLogWith image blocks entries → IsLogWith (record image { streams = image.streams ++ row ∷ [] }) blocks entries }
    ensures state { (image : BaseImage) (blocks : List (List (List ℕ))) (entries : List LogEntry) (buffers : ℕ) (row : Row) → IsImage image
        → IsLogWith image blocks entries
        → stored_state (record image { streams = image.streams ++ row ∷ [] }) blocks entries buffers
        ≡ record (stored_state image blocks entries buffers) {
          streams = (stored_state image blocks entries buffers).streams ++ record { name = row.name; base = row.base } ∷ [];
        } }
{
    blocks_are_read_as_written();
    records_are_read_as_written();
}

/// The version, the turn, the numbers of containers and files, the policies and archiving of a copy say nothing of the records.
pub fn settings_leave_the_records()
    ensures log { (image : BaseImage) (blocks : List (List (List ℕ))) (entries : List LogEntry) (version turn containers files_made maximum minimum growth : ℕ)
        (automatic : Bool) → IsLogWith image blocks entries
        → IsLogWith (record image {
          version = version;
          turn = turn;
          containers = containers;
          files_made = files_made;
          automatic = automatic;
          maximum = maximum;
          minimum = minimum;
          growth = growth;
        }) blocks entries }
    ensures state { (image : BaseImage) (blocks : List (List (List ℕ))) (entries : List LogEntry)
        (buffers version turn containers files_made maximum minimum growth : ℕ) (automatic : Bool)
        → stored_state (record image {
          version = version;
          turn = turn;
          containers = containers;
          files_made = files_made;
          automatic = automatic;
          maximum = maximum;
          minimum = minimum;
          growth = growth;
        }) blocks entries buffers
        ≡ record (stored_state image blocks entries buffers) {
          containers = containers;
          automatic = automatic;
          maximum = policy_of maximum;
          minimum = policy_of minimum;
          growth = policy_of growth;
        } }
    ensures archived { (image : BaseImage) (blocks : List (List (List ℕ))) (entries : List LogEntry) (archiving : Bool) (tail : ℕ)
        → (archiving ≡ true → (tail ≤ frontier (stored_place image blocks)) × (image.first ≤ container_of tail))
        → IsLogWith image blocks entries → IsLogWith (record image { archiving = archiving; tail = tail }) blocks entries }
    ensures archive { (image : BaseImage) (blocks : List (List (List ℕ))) (entries : List LogEntry) (buffers : ℕ) (archiving : Bool) (tail : ℕ)
        → stored_state (record image { archiving = archiving; tail = tail }) blocks entries buffers
        ≡ record (stored_state image blocks entries buffers) { archive = if archiving then Some tail else None } }
{}

/// Containers below the hold's that are listed no more: the records of the others are left, the log goes on where it did, and it is the same
/// to every reply. Where only records are asked for, any container from the first listed one up to the last, and up to the tail's with
/// archiving on, may be the first one that is left.
pub fn low_containers_are_left_out()
    ensures log { (image : BaseImage) (blocks : ℕ → List (List ℕ)) (entries : List LogEntry) (first : ℕ) → IsImage image
        → image.first ≤ first → first + 1 ≤ image.first + length image.files → (image.archiving ≡ true → first ≤ container_of image.tail)
        → IsLogWith image (map blocks image.files) entries
        → IsLogWith (from_container first image) (map blocks (from_container first image).files) (records_from_container first entries) }
    ensures place { (image : BaseImage) (blocks : ℕ → List (List ℕ)) (first : ℕ) → image.first ≤ first → first + 1 ≤ image.first + length image.files
        → stored_place (from_container first image) (map blocks (from_container first image).files) ≡ stored_place image (map blocks image.files) }
    ensures held { (image : BaseImage) (blocks : ℕ → List (List ℕ)) (entries : List LogEntry) (buffers first : ℕ) → IsImage image
        → IsLogWith image (map blocks image.files) entries → first ≤ container_of (hold (stored_state image (map blocks image.files) entries buffers))
        → (first + 1 ≤ image.first + length image.files) × (image.archiving ≡ true → first ≤ container_of image.tail) }
    ensures same { (image : BaseImage) (blocks : ℕ → List (List ℕ)) (entries : List LogEntry) (buffers first : ℕ) → IsImage image
        → IsLogWith image (map blocks image.files) entries → image.first ≤ first
        → first ≤ container_of (hold (stored_state image (map blocks image.files) entries buffers))
        → IsSame (stored_state image (map blocks image.files) entries buffers)
        (stored_state (from_container first image) (map blocks (from_container first image).files) (records_from_container first entries) buffers) }
{
    blocks_are_read_as_written();
    records_are_read_as_written();
}
