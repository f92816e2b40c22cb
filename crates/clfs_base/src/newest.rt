// Reading the newest copy of the base file: three bytes of each slot say which one counts, and that one alone is read whole.
ghost use Rattle.std.specs.Prelude.{◌≡◌, ◌⊎◌, ◌+◌, ◌-◌, ◌≤◌, ◌<◌, ◌==◌, ℕ, List, length, take, drop, Ok, OnErr, IfOk, IfErr, IsOk, IsErrOf};
ghost use Rattle.clfs_disk.specs.Files.{Unchanged};
ghost use Rattle.clfs_disk.specs.State.{TellsContents, IsSteady, Passes, Rises, raised};
ghost use Rattle.clfs_base.specs.Spelling.{IsImage};
ghost use Rattle.clfs_base.specs.Checks.{image_at};
ghost use Rattle.clfs_base.specs.Slots.{slot_place, slot_of, front_of, newer_slot, slot_by, used_slot, copy_in, newest_of};
ghost use Rattle.clfs_base.specs.Decoding.{GivesNewest, IsOutside};
ghost use Rattle.clfs_base.specs.Layout.{slot_bytes};
ghost use Rattle.clfs_base.specs.Reading.{IsReadCopy, IsUsedSlot};

use crate::decoder::decode;
use crate::image::BaseImage;
use crate::layout::SLOT;
use crate::reading::{byte_at, is_short};
use crate::refusal::{BaseRefusal, NewestRefusal};
use crate::slots::slot_place;
use clfs_disk::{Disk, Failed, calls_join};
use clfs_lsn::OPEN_GATE;
use std::alloc::Global;

/// What decides on a slot.
#[derive(Clone, Copy, Debug)]
pub struct Front {
    /// Its gate is there and open.
    pub is_open: bool,
    /// Its turn isn't there, or is none.
    pub is_wrong_turn: bool,
    /// Its turn.
    pub turn: u8,
}

/// The slot of the base file that counts, and its image, by at most three calls of the disk.
pub fn read_newest<D: Disk>(alloc: Global, disk: &mut D) -> Result<(u32, BaseImage), NewestRefusal>
    ensures newest { TellsContents (D.state disk.old) → GivesNewest result (newest_of ((D.state disk.old).files 0)) }
    ensures slot { IfOk result (λ x. x.0 ≤ 1) }
    ensures image { IfOk result (λ x. IsImage x.1) }

    // Whatever the disk, the answer is that of some bytes of a base file's two slots.
    ensures told { IsReadCopy result }
    ensures same { Unchanged (D.state disk.old).files (D.state disk.new).files }
    ensures time { Passes Unchanged (D.state disk.old) (D.state disk.new) }
    ensures calls_at_most { (D.state disk.new).calls ≤ raised 3 (D.state disk.old).calls }
    ensures cause { IsErrOf result NewestRefusal.DiskFault → Rises (D.state disk.old).faults (D.state disk.new).faults }
    ensures steady { IsSteady (D.state disk.old) → (IsErrOf result NewestRefusal.DiskFault → ⊥)
        × ((D.state disk.new).faults ≡ (D.state disk.old).faults) }
{
    calls_join::<D>();
    let slot = read_used(disk)?;
    let bytes = read_slot(alloc, disk, slot)?;
    decode_slot(alloc, slot, &bytes)
}

// The slot that counts.
fn read_used<D: Disk>(disk: &mut D) -> Result<u32, NewestRefusal>
    ensures used { TellsContents (D.state disk.old) → GivesNewest result (used_slot ((D.state disk.old).files 0)) }
    ensures slot { IfOk result (λ slot. slot ≤ 1) }
    ensures told { IsUsedSlot result }
    ensures same { Unchanged (D.state disk.old).files (D.state disk.new).files }
    ensures time { Passes Unchanged (D.state disk.old) (D.state disk.new) }
    ensures calls_at_most { (D.state disk.new).calls ≤ raised 2 (D.state disk.old).calls }
    ensures cause { IsErrOf result NewestRefusal.DiskFault → Rises (D.state disk.old).faults (D.state disk.new).faults }
    ensures steady { IsSteady (D.state disk.old) → (IsErrOf result NewestRefusal.DiskFault → ⊥)
        × ((D.state disk.new).faults ≡ (D.state disk.old).faults) }
{
    let first = read_front(disk, 0)?;
    let second = read_front(disk, 1)?;
    slot_by(&first, &second)
}

// What decides on a slot, by one call of the disk.
fn read_front<D: Disk>(disk: &mut D, slot: u32) -> Result<Front, Failed>
    ensures front { IfOk result (λ front. TellsContents (D.state disk.old) → front ≡ front_of ((D.state disk.old).files 0) slot) }
    ensures told { IfOk result (λ front. (bytes : List ℕ) × (length bytes ≤ 3) × (front ≡ front_of bytes 0)) }
    ensures same { Unchanged (D.state disk.old).files (D.state disk.new).files }
    ensures time { Passes Unchanged (D.state disk.old) (D.state disk.new) }
    ensures calls { (D.state disk.new).calls ≡ raised 1 (D.state disk.old).calls }
    ensures cause { OnErr result (Rises (D.state disk.old).faults (D.state disk.new).faults) }
    ensures steady { IsSteady (D.state disk.old) → IsOk result × ((D.state disk.new).faults ≡ (D.state disk.old).faults) }
{
    let mut bytes = [0; 3];
    let count = disk.read(0, slot_place(slot), &mut bytes)?;
    Ok(front_of_bytes(&bytes[..count]))
}

/// What decides on a slot that begins with these bytes, as many of its first three as are there. More bytes of the slot say nothing
/// more.
pub fn front_of_bytes(bytes: &[u8]) -> Front
    ensures exact { result ≡ front_of bytes.now 0 }
    ensures in_file { (base : List ℕ) (slot n : ℕ) → 3 ≤ n → bytes.now ≡ take n (drop (slot_place slot) base) → result ≡ front_of base slot }
{
    front_in(bytes)
}

fn front_in(bytes: &[u8]) -> Front
    ensures { result ≡ front_of bytes.now 0 }
{
    Front {
        is_open: byte_at(bytes, 0) == OPEN_GATE,
        is_wrong_turn: is_short(bytes, 0, 3) || byte_at(bytes, 2) > 2,
        turn: byte_at(bytes, 2),
    }
}

/// The slot that counts, by what decides on each.
pub fn slot_by(first: &Front, second: &Front) -> Result<u32, NewestRefusal>
    ensures exact { result ≡ slot_by first.now second.now }
    ensures slot { IfOk result (λ slot. slot ≤ 1) }
    ensures fine { IsErrOf result NewestRefusal.DiskFault → ⊥ }
{
    if first.is_open && second.is_open {
        if first.is_wrong_turn {
            Err(NewestRefusal::BadByte { slot: 0, at: 2 })
        } else if second.is_wrong_turn {
            Err(NewestRefusal::BadByte { slot: 1, at: 2 })
        } else {
            newer_slot(first.turn, second.turn)
        }
    } else if first.is_open {
        Ok(0)
    } else if second.is_open {
        Ok(1)
    } else {
        Err(NewestRefusal::NoBase)
    }
}

// The slot with the newer of two turns.
fn newer_slot(first: u8, second: u8) -> Result<u32, NewestRefusal>
    ensures exact { result ≡ newer_slot first second }
    ensures slot { IfOk result (λ slot. slot ≤ 1) }
    ensures fine { IsErrOf result NewestRefusal.DiskFault → ⊥ }
{
    if first == second {
        Err(NewestRefusal::BadByte { slot: 1, at: 2 })
    } else if second as u32 == (first as u32 + 1) % 3 {
        Ok(1)
    } else {
        Ok(0)
    }
}

// The bytes of a slot that are there, by one call of the disk, or none where memory is wanted.
fn read_slot<D: Disk>(alloc: Global, disk: &mut D, slot: u32) -> Result<Vec<u8>, NewestRefusal>
    ensures bytes { IfOk result (λ bytes. TellsContents (D.state disk.old) → bytes.items ≡ slot_of ((D.state disk.old).files 0) slot) }
    ensures few { IfOk result (λ bytes. length bytes.items ≤ slot_bytes) }
    ensures same { Unchanged (D.state disk.old).files (D.state disk.new).files }
    ensures time { Passes Unchanged (D.state disk.old) (D.state disk.new) }
    ensures calls { ((D.state disk.new).calls ≡ (D.state disk.old).calls) ⊎ ((D.state disk.new).calls ≡ raised 1 (D.state disk.old).calls) }
    ensures cause { IsErrOf result NewestRefusal.DiskFault → Rises (D.state disk.old).faults (D.state disk.new).faults }
    ensures steady { IsSteady (D.state disk.old) → (IsErrOf result NewestRefusal.DiskFault → ⊥)
        × ((D.state disk.new).faults ≡ (D.state disk.old).faults) }
    ensures refusal { IfErr result (λ refusal. IsOutside refusal) }
{
    let mut bytes = Vec::new(alloc);
    bytes.resize(SLOT as usize, 0)?;
    let count = disk.read(0, slot_place(slot), &mut bytes)?;
    bytes.truncate(count);
    Ok(bytes)
}

// The image of a slot's bytes.
fn decode_slot(alloc: Global, slot: u32, bytes: &[u8]) -> Result<(u32, BaseImage), NewestRefusal>
    ensures newest { GivesNewest result (copy_in slot (image_at bytes.now)) }
    ensures slot { IfOk result (λ x. x.0 ≡ slot) }
    ensures image { IfOk result (λ x. IsImage x.1) }
    ensures fine { IsErrOf result NewestRefusal.DiskFault → ⊥ }
{
    match decode(alloc, bytes) {
        Ok(image) => Ok((slot, image)),
        Err(BaseRefusal::BadByte { at }) => Err(NewestRefusal::BadByte { slot, at }),
        Err(BaseRefusal::NoMemory) => Err(NewestRefusal::NoMemory),
    }
}
