// A base copy, written over the older slot.
ghost use Rattle.std.specs.Prelude.{◌≡◌, ◌⊎◌, ◌+◌, ◌-◌, ◌*◌, ◌%◌, ◌≤◌, Bool, ℕ, true, false, length, IfOk, OnOk, OnErr, IsOk};
ghost use Rattle.clfs_disk.specs.State.{TellsContents, IsHonest, IsSettled, IsSteady, Later, Leaves, Rises, raised};
ghost use Rattle.clfs_base.specs.declared.image.BaseImage.{BaseImage};
ghost use Rattle.clfs_base.specs.Layout.{slot_bytes};
ghost use Rattle.clfs_base.specs.Spelling.{IsImage};
ghost use Rattle.clfs_base.specs.Slots.{is_open_slot};
ghost use Rattle.clfs_base.specs.Writing.{older_of, HasNewest, EitherNewest};
ghost use Rattle.clfs_physical.specs.Joined.{SameLengths, Follows};
ghost use Rattle.clfs_physical.specs.Stored.{Blocks, Holds, IsLog};

use clfs_base::{BaseImage, VERSION, encode};
use clfs_disk::{Disk, Failed};

/// Closes the gate of the older slot where it is open, writes a copy after it, and opens it, each part synced: by seven calls of
/// the disk, or by five where the gate was closed.
pub fn write_copy<D: Disk>(disk: &mut D, slot: u32, body: &[u8]) -> Result<(), Failed>
    requires slot { slot ≤ 1 }
    requires length { length body.now ≡ slot_bytes - 1 }
    ensures written { OnOk result (TellsContents (D.state disk.old) → (used : ℕ) (image next : BaseImage)
        → Follows slot used image next body.now (D.state disk.old).files
        → HasNewest slot next (D.state disk.old).files (D.state disk.new).files) }
    ensures settled { OnOk result (IsHonest (D.state disk.old) → IsSettled (D.state disk.new)) }

    // Whatever the answer, a crash at any moment leaves the newest copy of before or this one.
    ensures moments { IsSettled (D.state disk.old) → (used : ℕ) (image next : BaseImage)
        → Follows slot used image next body.now (D.state disk.old).files
        → Leaves (EitherNewest slot used image next (D.state disk.old).files) (D.state disk.old) (D.state disk.new) }

    ensures lengths { SameLengths (D.state disk.old).files (D.state disk.new).files }
    ensures time { Later (D.state disk.old) (D.state disk.new) }
    ensures calls { OnOk result (TellsContents (D.state disk.old) → is_open_slot ((D.state disk.old).files 0) slot ≡ true
        → (D.state disk.new).calls ≡ raised 7 (D.state disk.old).calls) }
    ensures fewer_calls { OnOk result (TellsContents (D.state disk.old) → is_open_slot ((D.state disk.old).files 0) slot ≡ false
        → (D.state disk.new).calls ≡ raised 5 (D.state disk.old).calls) }
    ensures calls_at_most { (D.state disk.new).calls ≤ raised 7 (D.state disk.old).calls }
    ensures cause { OnErr result (Rises (D.state disk.old).faults (D.state disk.new).faults) }
    ensures steady { IsSteady (D.state disk.old) → 2 * slot_bytes ≤ length ((D.state disk.old).files 0)
        → IsOk result × ((D.state disk.new).faults ≡ (D.state disk.old).faults) }
{
    clfs_base::close_older(disk, slot)?;
    clfs_base::write_body(disk, slot, body)?;
    clfs_base::open_slot(disk, slot)
}

/// Spells a copy that follows the one in the used slot, and writes it over the other one. It answers that slot.
pub fn store_copy<D: Disk>(
    disk: &mut D,
    used: u32,
    next: &BaseImage,
    bytes: &mut [u8],
) -> Result<u32, Failed>
    requires slot { used ≤ 1 }
    requires image { IsImage next.now }
    requires version { next.now.version ≡ VERSION }
    requires room { length bytes.old ≡ slot_bytes - 1 }
    ensures slot { IfOk result (λ slot. slot ≡ older_of used) }
    ensures room { length bytes.new ≡ length bytes.old }
    ensures written { OnOk result (TellsContents (D.state disk.old) → (whole : Bool) (image : BaseImage) (blocks : Blocks)
        → IsImage image → next.now.turn ≡ (image.turn + 1) % 3
        → IsLog whole used image blocks (D.state disk.old).files → Holds whole next.now blocks (D.state disk.old).files
        → IsLog whole (older_of used) next.now blocks (D.state disk.new).files) }
    ensures settled { OnOk result (IsHonest (D.state disk.old) → IsSettled (D.state disk.new)) }
    ensures moments { IsSettled (D.state disk.old) → (whole : Bool) (image : BaseImage) (blocks : Blocks)
        → IsImage image → next.now.turn ≡ (image.turn + 1) % 3
        → IsLog whole used image blocks (D.state disk.old).files → Holds whole next.now blocks (D.state disk.old).files
        → Leaves (λ files. IsLog whole used image blocks files ⊎ IsLog whole (older_of used) next.now blocks files)
        (D.state disk.old) (D.state disk.new) }
    ensures lengths { SameLengths (D.state disk.old).files (D.state disk.new).files }
    ensures time { Later (D.state disk.old) (D.state disk.new) }
    ensures calls { OnOk result (TellsContents (D.state disk.old) → is_open_slot ((D.state disk.old).files 0) (older_of used) ≡ true
        → (D.state disk.new).calls ≡ raised 7 (D.state disk.old).calls) }
    ensures fewer_calls { OnOk result (TellsContents (D.state disk.old) → is_open_slot ((D.state disk.old).files 0) (older_of used) ≡ false
        → (D.state disk.new).calls ≡ raised 5 (D.state disk.old).calls) }
    ensures calls_at_most { (D.state disk.new).calls ≤ raised 7 (D.state disk.old).calls }
    ensures cause { OnErr result (Rises (D.state disk.old).faults (D.state disk.new).faults) }
    ensures steady { IsSteady (D.state disk.old) → 2 * slot_bytes ≤ length ((D.state disk.old).files 0)
        → IsOk result × ((D.state disk.new).faults ≡ (D.state disk.old).faults) }
{
    encode(next, bytes);
    let older = 1 - used;
    write_copy(disk, older, bytes)?;
    Ok(older)
}
