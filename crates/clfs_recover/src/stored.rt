// Laws of logs as base copies and open blocks, for whoever writes these: what is found again in what was written, and what each step of
// writing makes of the log. Their functions do nothing; a caller cites their clauses.
ghost use Rattle.std.specs.Prelude.{◌≡◌, ◌+◌, ◌*◌, ◌^◌, ◌<◌, ◌≤◌, ℕ, List, [], ◌∷◌, ◌++◌, length, map, slice_index, take, Ok, None};
ghost use Rattle.std.specs.List.{flat_map};
ghost use Rattle.clfs_lsn.specs.Format.{sector_bytes, open_gate};
ghost use Rattle.clfs_lsn.specs.Size.{IsShape};
ghost use Rattle.clfs_lsn.specs.Spelling.{record_bytes};
ghost use Rattle.clfs_lsn.specs.declared.entry.LogEntry.{LogEntry};
ghost use Rattle.clfs_lsn.specs.declared.shape.Shape.{Shape};
ghost use Rattle.clfs_disk.specs.Files.{Files};
ghost use Rattle.clfs_container.specs.OpenBlocks.{AreWhole, total};
ghost use Rattle.clfs_block.specs.Frame.{SpellsBlock};
ghost use Rattle.clfs_base.specs.declared.image.BaseImage.{BaseImage};
ghost use Rattle.clfs_base.specs.Slots.{newest_of};
ghost use Rattle.clfs_recover.specs.Files.{Finds, StandsFor};
ghost use Rattle.clfs_recover.specs.Logs.{IsLogWith, IsStoredIn, FitsUpTo, HaveRecords, all_records, stored_state};
ghost use Rattle.clfs_recover.specs.Stored.{HasLog, HasRecords, stored_in, stored_records};
ghost use Rattle.clfs_recover.specs.Walk.{image_fault};
ghost use Rattle.clfs_recover.specs.declared.parts.Parts.{Parts};

use clfs_base::copies_are_read_as_written;
use clfs_block::blocks_are_read_as_written;
use clfs_container::open_blocks_are_one_list;
use clfs_record::records_are_read_as_written;

/// What opening finds comes of the newest copy and of the open blocks in the listed files, whose lists end cleanly; and a log that has a copy
/// and such blocks stands for the state that they make.
pub fn logs_are_copies_and_blocks()
    ensures found { (files : Files) (parts : Parts) → Finds files (Ok parts) → (blocks : ℕ → List (List ℕ)) × IsStoredIn files parts blocks }
    ensures stands { (slot : ℕ) (image : BaseImage) (blocks : List (List (List ℕ))) (entries : List LogEntry) (files : Files) (buffers : ℕ)
        → HasLog slot image blocks files → IsLogWith image blocks entries → StandsFor files (stored_state image blocks entries buffers) }
    ensures by_file { (slot : ℕ) (image : BaseImage) (blocks : ℕ → List (List ℕ)) (files : Files) → newest_of (files 0) ≡ Ok (slot, image)
        → ((i : ℕ) → i < length image.files → AreWhole image.container_sectors (files (slice_index image.files i)) (blocks (slice_index image.files i)))
        → HasLog slot image (map blocks image.files) files }
{
    open_blocks_are_one_list();
    copies_are_read_as_written();
    blocks_are_read_as_written();
    records_are_read_as_written();
}

/// A copy has no fault exactly where it fits what the log's records end at.
pub fn copies_without_fault_fit()
    ensures fits { (image : BaseImage) (lsn : ℕ) → image_fault image lsn ≡ None → FitsUpTo image lsn }
    ensures right { (image : BaseImage) (lsn : ℕ) → FitsUpTo image lsn → image_fault image lsn ≡ None }
{}

/// What is read of blocks is what they were written with, one after the other; what is read of more blocks, or of more containers, comes
/// after what was read before; and what fits a log of some streams fits one of more, and is read in it as before. The records at the front of
/// a block's make a block too.
pub fn blocks_are_read_in_order()
    ensures written { (shape : Shape) (streams id offset : ℕ) (groups : List (List LogEntry)) (blocks : List (List ℕ))
        → IsShape shape → streams < 2 ^ 16 → id < 2 ^ 32 → offset + total blocks ≤ sector_bytes * shape.container_sectors
        → HaveRecords shape streams id offset groups blocks → stored_in shape streams id offset blocks ≡ Ok (all_records groups) }
    ensures joined { (shape : Shape) (streams id offset : ℕ) (groups others : List (List LogEntry)) (blocks more : List (List ℕ))
        → HaveRecords shape streams id offset groups blocks → HaveRecords shape streams id (offset + total blocks) others more
        → HaveRecords shape streams id offset (groups ++ others) (blocks ++ more) }
    ensures further { (shape : Shape) (streams more id offset : ℕ) (groups : List (List LogEntry)) (blocks : List (List ℕ)) → streams ≤ more
        → HaveRecords shape streams id offset groups blocks → HaveRecords shape more id offset groups blocks }
    ensures front { (shape : Shape) (streams start n : ℕ) (entries : List LogEntry) (block cut : List ℕ)
        → HasRecords shape streams start entries block → 1 ≤ n → n ≤ length entries
        → SpellsBlock start open_gate n (flat_map record_bytes (take n entries)) cut → HasRecords shape streams start (take n entries) cut }
    ensures behind { (shape : Shape) (streams id offset : ℕ) (blocks more : List (List ℕ)) (entries others : List LogEntry)
        → stored_in shape streams id offset blocks ≡ Ok entries → stored_in shape streams id (offset + total blocks) more ≡ Ok others
        → stored_in shape streams id offset (blocks ++ more) ≡ Ok (entries ++ others) }
    ensures containers { (shape : Shape) (streams id : ℕ) (containers more : List (List (List ℕ))) (entries others : List LogEntry)
        → stored_records shape streams id containers ≡ Ok entries → stored_records shape streams (id + length containers) more ≡ Ok others
        → stored_records shape streams id (containers ++ more) ≡ Ok (entries ++ others) }
    ensures last { (shape : Shape) (streams id : ℕ) (containers : List (List (List ℕ))) (here more : List (List ℕ)) (entries others : List LogEntry)
        → stored_records shape streams id (containers ++ here ∷ []) ≡ Ok entries
        → stored_in shape streams (id + length containers) (total here) more ≡ Ok others
        → stored_records shape streams id (containers ++ (here ++ more) ∷ []) ≡ Ok (entries ++ others) }
    ensures empty { (shape : Shape) (streams id : ℕ) (containers : List (List (List ℕ))) (entries : List LogEntry)
        → stored_records shape streams id containers ≡ Ok entries → stored_records shape streams id (containers ++ [] ∷ []) ≡ Ok entries }
    ensures streams { (shape : Shape) (streams more id : ℕ) (containers : List (List (List ℕ))) (entries : List LogEntry) → streams ≤ more
        → stored_records shape streams id containers ≡ Ok entries → stored_records shape more id containers ≡ Ok entries }
{
    blocks_are_read_as_written();
    records_are_read_as_written();
}
