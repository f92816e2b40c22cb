// Laws of what files stand for. Their functions do nothing; a caller cites their clauses.
ghost use Rattle.std.specs.Prelude.{◌≡◌, ℕ, List, length, Result, Ok, None};
ghost use Rattle.clfs_lsn.specs.Place.{frontier};
ghost use Rattle.clfs_lsn.specs.declared.entry.LogEntry.{LogEntry};
ghost use Rattle.clfs_disk.specs.Files.{Files};
ghost use Rattle.clfs_base.specs.declared.image.BaseImage.{BaseImage};
ghost use Rattle.clfs_model.specs.declared.state.State.{State};
ghost use Rattle.clfs_recover.specs.Walk.{shape_of, image_fault};
ghost use Rattle.clfs_recover.specs.Files.{Finds, StandsFor, IsDamaged, HasNoBase};
ghost use Rattle.clfs_recover.specs.Stored.{HasLog, stored_records, stored_place, stored_parts};
ghost use Rattle.clfs_recover.specs.declared.parts.Parts.{Parts};
ghost use Rattle.clfs_recover.specs.declared.refusal.LoadRefusal.{LoadRefusal};

use clfs_container::open_blocks_are_one_list;

/// Opening finds one thing in any files: a state, up to the number of write buffers, or damage at one place, or no base copy.
pub fn files_have_one_meaning()
    ensures some { (files : Files) → (found : Result Parts LoadRefusal) × Finds files found }
    ensures one { (files : Files) (found other : Result Parts LoadRefusal) → Finds files found → Finds files other → found ≡ other }
    ensures state { (files : Files) (s t : State) → StandsFor files s → StandsFor files t → s.buffers ≡ t.buffers → s ≡ t }
    ensures no_damage { (files : Files) (s : State) (container offset at : ℕ) → StandsFor files s → IsDamaged files container offset at → ⊥ }
    ensures no_base { (files : Files) (s : State) → HasNoBase files → StandsFor files s → ⊥ }
    ensures no_base_no_damage { (files : Files) (container offset at : ℕ) → HasNoBase files → IsDamaged files container offset at → ⊥ }
{
    open_blocks_are_one_list();
}

/// What files stand for hangs on the newest base copy and on the open blocks of the containers that it lists, and on nothing else in them.
pub fn copies_and_blocks_decide()
    ensures found { (slot : ℕ) (image : BaseImage) (blocks : List (List (List ℕ))) (entries : List LogEntry) (files : Files)
        → HasLog slot image blocks files → stored_records (shape_of image) (length image.streams) image.first blocks ≡ Ok entries
        → image_fault image (frontier (stored_place image blocks)) ≡ None → Finds files (Ok (stored_parts slot image blocks entries)) }
    ensures same { (slot : ℕ) (image : BaseImage) (blocks : List (List (List ℕ))) (files others : Files) (s : State)
        → HasLog slot image blocks files → HasLog slot image blocks others → StandsFor files s → StandsFor others s }
{
    open_blocks_are_one_list();
}
