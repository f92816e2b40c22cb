// What the bytes of a block say of it.
ghost use Rattle.std.specs.Prelude.{◌≡◌, ◌+◌, ◌*◌, ◌^◌, ◌<◌, ◌≤◌, ℕ, List, length, take, slice_index, slice_get, Some, Ok};
ghost use Rattle.clfs_lsn.specs.Format.{sector_bytes};
ghost use Rattle.clfs_lsn.specs.Limits.{most_block_records};
ghost use Rattle.clfs_lsn.specs.Size.{sectors, longest};
ghost use Rattle.clfs_lsn.specs.declared.entry.LogEntry.{LogEntry};
ghost use Rattle.clfs_lsn.specs.declared.shape.Shape.{Shape};
ghost use Rattle.clfs_block.specs.Frame.{AreBytes, used_bytes, SpellsBlock};
ghost use Rattle.clfs_block.specs.Checks.{head_of, IsEnough};
ghost use Rattle.clfs_block.specs.Records.{block_records};
ghost use Rattle.clfs_block.specs.Judging.{AreJudgedAlone, AreReadAsWritten};

/// A block says in its bytes which gate it has and how many sectors, so a reader of the bytes alone knows where it ends.
pub fn blocks_say_their_sectors()
    ensures gate { (start gate records : ℕ) (content block : List ℕ)
        → SpellsBlock start gate records content block → slice_index block 0 ≡ gate }
    ensures sectors { (start gate records : ℕ) (content block : List ℕ)
        → SpellsBlock start gate records content block → sectors (used_bytes content) < 2 ^ 16
        → slice_index block 2 + 256 * slice_index block 3 ≡ sectors (used_bytes content) }
{}

/// A block has one spelling: two lists of bytes that spell it at one place with one gate are equal.
pub fn blocks_have_one_spelling()
    ensures { (start gate records : ℕ) (content block other : List ℕ) → AreBytes block → AreBytes other
        → SpellsBlock start gate records content block → SpellsBlock start gate records content other → block ≡ other }
{}

/// By which bytes a block is judged: one fact for each part of its checks.
pub fn blocks_are_judged_alone()
    ensures { AreJudgedAlone }
{}

/// What was written is read, and what is read was written so: one fact for each part of the checks.
pub fn blocks_are_read_as_written()
    ensures { AreReadAsWritten }
{}

/// What is known of the records that are read of a block. They are read of the block's own bytes: what follows these, or that nothing does,
/// changes nothing, so they are read of any bytes that begin with the block. A log of more streams has the same. There are 1 to 511 of
/// them, and each has the LSN of its position and no more data than the longest record.
pub fn records_are_read_of_their_block()
    ensures alone { (shape : Shape) (streams start : ℕ) (bytes : List ℕ) (count : ℕ) → IsEnough shape bytes count
        → block_records shape streams start (take count bytes) ≡ block_records shape streams start bytes }
    ensures agree { (shape : Shape) (streams start : ℕ) (bytes other : List ℕ) (count : ℕ) (records : List LogEntry)
        → block_records shape streams start bytes ≡ Ok records → sector_bytes * (head_of bytes).sectors ≤ count → take count other ≡ take count bytes
        → block_records shape streams start other ≡ Ok records }
    ensures more { (shape : Shape) (streams more start : ℕ) (bytes : List ℕ) (records : List LogEntry) → streams ≤ more
        → block_records shape streams start bytes ≡ Ok records → block_records shape more start bytes ≡ Ok records }
    ensures count { (shape : Shape) (streams start : ℕ) (bytes : List ℕ) (records : List LogEntry) → block_records shape streams start bytes ≡ Ok records
        → (1 ≤ length records) × (length records ≤ most_block_records) }
    ensures each { (shape : Shape) (streams start : ℕ) (bytes : List ℕ) (records : List LogEntry) → block_records shape streams start bytes ≡ Ok records
        → (i : ℕ) (entry : LogEntry) → slice_get records i ≡ Some entry → (entry.lsn ≡ start + i) × (length entry.bytes ≤ longest shape) }
{}
