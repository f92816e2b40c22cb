// What is told of files against what opening finds in them. The function does nothing; a caller cites its clauses.
ghost use Rattle.std.specs.Prelude.{◌≡◌, Ok, Err};
ghost use Rattle.clfs_lsn.specs.Place.{frontier};
ghost use Rattle.clfs_disk.specs.Files.{Files};
ghost use Rattle.clfs_recover.specs.Files.{Finds};
ghost use Rattle.clfs_recover.specs.declared.parts.Parts.{Parts};
ghost use Rattle.clfs_recover.specs.declared.refusal.LoadRefusal.{LoadRefusal};
ghost use Rattle.clfs_dump.specs.Telling.{files_told};
ghost use Rattle.clfs_dump.specs.declared.selection.Selection.{Selection};

use clfs_base::copies_are_read_as_written;
use clfs_block::{blocks_are_judged_alone, blocks_are_read_as_written};

/// A dump comes to the end of a log exactly where opening finds one, and has met all of its records then, dead ones too, in their order; and the
/// place that it names is the one that opening tells, whatever is selected.
pub fn dumps_tell_what_opening_finds()
    ensures end { (selection : Selection) (files : Files) (parts : Parts) → Finds files (Ok parts)
        → (files_told selection files).found ≡ Ok (frontier parts.place) }
    ensures records { (selection : Selection) (files : Files) (parts : Parts) → Finds files (Ok parts)
        → (files_told selection files).records ≡ parts.entries }
    ensures refused { (selection : Selection) (files : Files) (refusal : LoadRefusal) → Finds files (Err refusal)
        → (files_told selection files).found ≡ Err refusal }
{
    copies_are_read_as_written();
    blocks_are_judged_alone();
    blocks_are_read_as_written();
}
