// The three parts of writing a newer base copy into the slot beside the newest one.
ghost use Rattle.std.specs.Prelude.{◌≡◌, ◌+◌, ◌-◌, ◌*◌, ◌≤◌, ◌<◌, ℕ, [], ◌∷◌, true, false, length, OnOk, OnErr, IfOk, IsOk};
ghost use Rattle.clfs_lsn.specs.Format.{open_gate};
ghost use Rattle.clfs_disk.specs.Files.{TornIn, WrittenIn, Unchanged};
ghost use Rattle.clfs_disk.specs.State.{TellsContents, IsSteady, IsHonest, IsSettled, Passes, Leaves, Rises, raised};
ghost use Rattle.clfs_base.specs.declared.image.BaseImage.{BaseImage};
ghost use Rattle.clfs_base.specs.Layout.{slot_bytes};
ghost use Rattle.clfs_base.specs.Slots.{slot_place, is_open_slot};
ghost use Rattle.clfs_base.specs.Writing.{body_of, HasNewest, IsOlder, IsFilled, IsFirst, KeepsNewest, StaysNewest, EitherNewest, NoneOrFirst};

use crate::layout::SLOT;
use clfs_disk::{Disk, Failed, calls_join, overwritten_bytes_stand_in_place, write_synced};
use clfs_lsn::OPEN_GATE;

// One of the values of a closed gate.
const CLOSED: u8 = 0;

/// A slot's first byte in the base file.
pub fn slot_place(slot: u32) -> u64
    ensures { result ≡ slot_place slot }
{
    SLOT as u64 * slot as u64
}

/// Whether a slot's gate is there and open, by one call of the disk.
pub fn has_open_gate<D: Disk>(disk: &mut D, slot: u32) -> Result<bool, Failed>
    ensures open { IfOk result (λ is. TellsContents (D.state disk.old) → is ≡ is_open_slot ((D.state disk.old).files 0) slot) }
    ensures same { Unchanged (D.state disk.old).files (D.state disk.new).files }
    ensures time { Passes Unchanged (D.state disk.old) (D.state disk.new) }
    ensures calls { (D.state disk.new).calls ≡ raised 1 (D.state disk.old).calls }
    ensures cause { OnErr result (Rises (D.state disk.old).faults (D.state disk.new).faults) }
    ensures steady { IsSteady (D.state disk.old) → IsOk result × ((D.state disk.new).faults ≡ (D.state disk.old).faults) }
{
    let mut gate = [CLOSED];
    let count = disk.read(0, slot_place(slot), &mut gate)?;
    Ok(count == 1 && gate[0] == OPEN_GATE)
}

/// Closes a slot's gate and syncs it, unless it is closed already: then one read is all.
pub fn close_older<D: Disk>(disk: &mut D, slot: u32) -> Result<(), Failed>
    requires { slot ≤ 1 }

    ensures closed { OnOk result (TellsContents (D.state disk.old) → is_open_slot ((D.state disk.new).files 0) slot ≡ false) }
    ensures settled { OnOk result (IsSettled (D.state disk.old) → IsSettled (D.state disk.new)) }

    // Whatever the answer, the newest copy is that of before, as the files read and in each crash at any moment of the call.
    ensures moments { IsSettled (D.state disk.old) → KeepsNewest slot (D.state disk.old) (D.state disk.new) }
    ensures newest { TellsContents (D.state disk.old) → StaysNewest slot (D.state disk.old).files (D.state disk.new).files }

    // Whatever the answer, the files differ from those of before, and each image from one of before, in the gate alone.
    ensures torn { TornIn 0 (slot_place slot) 1 (D.state disk.old).files (D.state disk.new).files }
    ensures time { Passes (TornIn 0 (slot_place slot) 1) (D.state disk.old) (D.state disk.new) }

    // A closed gate is only read.
    ensures calls { OnOk result (TellsContents (D.state disk.old) → is_open_slot ((D.state disk.old).files 0) slot ≡ true
        → (D.state disk.new).calls ≡ raised 3 (D.state disk.old).calls) }
    ensures one_call { OnOk result (TellsContents (D.state disk.old) → is_open_slot ((D.state disk.old).files 0) slot ≡ false
        → (D.state disk.new).calls ≡ raised 1 (D.state disk.old).calls) }
    ensures calls_at_most { (D.state disk.new).calls ≤ raised 3 (D.state disk.old).calls }
    ensures cause { OnErr result (Rises (D.state disk.old).faults (D.state disk.new).faults) }
    ensures steady { IsSteady (D.state disk.old) → slot_place slot + 1 ≤ length ((D.state disk.old).files 0)
        → IsOk result × ((D.state disk.new).faults ≡ (D.state disk.old).faults) }
{
    calls_join::<D>();
    if has_open_gate(disk, slot)? {
        return write_synced(disk, 0, slot_place(slot), &[CLOSED]);
    }
    Ok(())
}

/// Writes the bytes of a slot after its gate and syncs them, by two calls of the disk. The gate stays as it is.
pub fn write_body<D: Disk>(disk: &mut D, slot: u32, body: &[u8]) -> Result<(), Failed>
    requires slot { slot ≤ 1 }
    requires length { length body.now ≡ slot_bytes - 1 }

    ensures written { OnOk result (TellsContents (D.state disk.old) →
        (slot_place slot + slot_bytes ≤ length ((D.state disk.old).files 0))
        × WrittenIn 0 (slot_place slot + 1) body.now (D.state disk.old).files (D.state disk.new).files) }
    ensures body { OnOk result (TellsContents (D.state disk.old) → body_of ((D.state disk.new).files 0) slot ≡ body.now) }
    ensures gate { is_open_slot ((D.state disk.new).files 0) slot ≡ is_open_slot ((D.state disk.old).files 0) slot }
    ensures settled { OnOk result (IsHonest (D.state disk.old) → IsSettled (D.state disk.new)) }

    // After a closed gate, whatever the answer, the newest copy is that of before, as the files read and in each crash at any
    // moment of the call.
    ensures moments { IsSettled (D.state disk.old) → is_open_slot ((D.state disk.old).files 0) slot ≡ false
        → KeepsNewest slot (D.state disk.old) (D.state disk.new) }
    ensures newest { is_open_slot ((D.state disk.old).files 0) slot ≡ false
        → StaysNewest slot (D.state disk.old).files (D.state disk.new).files }

    // Whatever the answer, the files differ from those of before, and each image from one of before, in these bytes alone.
    ensures torn { TornIn 0 (slot_place slot + 1) (slot_bytes - 1) (D.state disk.old).files (D.state disk.new).files }
    ensures time { Passes (TornIn 0 (slot_place slot + 1) (slot_bytes - 1)) (D.state disk.old) (D.state disk.new) }
    ensures calls { OnOk result ((D.state disk.new).calls ≡ raised 2 (D.state disk.old).calls) }
    ensures calls_at_most { (D.state disk.new).calls ≤ raised 2 (D.state disk.old).calls }
    ensures cause { OnErr result (Rises (D.state disk.old).faults (D.state disk.new).faults) }
    ensures steady { IsSteady (D.state disk.old) → slot_place slot + slot_bytes ≤ length ((D.state disk.old).files 0)
        → IsOk result × ((D.state disk.new).faults ≡ (D.state disk.old).faults) }
{
    overwritten_bytes_stand_in_place();
    write_synced(disk, 0, slot_place(slot) + 1, body)
}

/// Opens a slot's gate and syncs it, by two calls of the disk.
pub fn open_slot<D: Disk>(disk: &mut D, slot: u32) -> Result<(), Failed>
    requires { slot ≤ 1 }

    ensures written { OnOk result (TellsContents (D.state disk.old) →
        (slot_place slot + 1 ≤ length ((D.state disk.old).files 0))
        × WrittenIn 0 (slot_place slot) (open_gate ∷ []) (D.state disk.old).files (D.state disk.new).files) }
    ensures settled { OnOk result (IsHonest (D.state disk.old) → IsSettled (D.state disk.new)) }

    // Over a copy whose turn is the newest one's plus 1 modulo 3 the newest copy is then that one, where all went well. Whatever
    // the answer, it is that one or the one of before, as the files read and in each crash at any moment of the call.
    ensures opened { OnOk result (TellsContents (D.state disk.old) → (used : ℕ) (image next : BaseImage)
        → IsOlder slot used image (D.state disk.old).files → IsFilled slot image next (D.state disk.old).files
        → HasNewest slot next (D.state disk.old).files (D.state disk.new).files) }
    ensures moments { IsSettled (D.state disk.old) → (used : ℕ) (image next : BaseImage)
        → IsOlder slot used image (D.state disk.old).files → IsFilled slot image next (D.state disk.old).files
        → Leaves (EitherNewest slot used image next (D.state disk.old).files) (D.state disk.old) (D.state disk.new) }
    ensures newest { (used : ℕ) (image next : BaseImage)
        → IsOlder slot used image (D.state disk.old).files → IsFilled slot image next (D.state disk.old).files
        → EitherNewest slot used image next (D.state disk.old).files (D.state disk.new).files }

    // Where no slot is open, as in a new log, the copy is then the newest.
    ensures first { OnOk result (TellsContents (D.state disk.old) → (next : BaseImage)
        → IsFirst slot next (D.state disk.old).files → HasNewest slot next (D.state disk.old).files (D.state disk.new).files) }

    // Whatever the answer, a crash at any moment then leaves no open slot or that copy.
    ensures first_moments { IsSettled (D.state disk.old) → (next : BaseImage) → IsFirst slot next (D.state disk.old).files
        → Leaves (NoneOrFirst slot next (D.state disk.old).files) (D.state disk.old) (D.state disk.new) }

    // Whatever the answer, the files differ from those of before, and each image from one of before, in the gate alone.
    ensures torn { TornIn 0 (slot_place slot) 1 (D.state disk.old).files (D.state disk.new).files }
    ensures time { Passes (TornIn 0 (slot_place slot) 1) (D.state disk.old) (D.state disk.new) }
    ensures calls { OnOk result ((D.state disk.new).calls ≡ raised 2 (D.state disk.old).calls) }
    ensures calls_at_most { (D.state disk.new).calls ≤ raised 2 (D.state disk.old).calls }
    ensures cause { OnErr result (Rises (D.state disk.old).faults (D.state disk.new).faults) }
    ensures steady { IsSteady (D.state disk.old) → slot_place slot + 1 ≤ length ((D.state disk.old).files 0)
        → IsOk result × ((D.state disk.new).faults ≡ (D.state disk.old).faults) }
{
    overwritten_bytes_stand_in_place();
    write_synced(disk, 0, slot_place(slot), &[OPEN_GATE])
}
