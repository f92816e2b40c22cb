// The newest base copy of a log that is open, as its base file has it: which slot counts, and that slot.
ghost use Rattle.std.specs.Prelude.{◌≡◌, ◌≤◌, false, ℕ, List, take, vec_len, Ok, IsErrOf, IfOk, IfErr};
ghost use Rattle.std.specs.Result.{result_err};
ghost use Rattle.clfs_disk.specs.State.{TellsContents};
ghost use Rattle.clfs_base.specs.Spelling.{IsImage};
ghost use Rattle.clfs_base.specs.Reading.{IsReadCopy};
ghost use Rattle.clfs_base.specs.Slots.{slot_of, used_slot, newest_of};
ghost use Rattle.clfs_restore.specs.Archiving.{IsOfReading, Reads, GivesSlot, GivesCopy, TellsDamage, TellsSlot, refused_as};
ghost use Rattle.clfs_recover.specs.Files.{without_copy};
ghost use Rattle.clfs_base.specs.declared.refusal.NewestRefusal.TheVariants as newest;
ghost use Rattle.clfs_model.specs.declared.refusal.Refusal.TheVariants as refusals;
ghost use Rattle.clfs_restore.specs.declared.refusal.ArchiveRefusal.TheVariants.{Log};

use crate::refusal::ArchiveRefusal;
use clfs_base::{
    BaseImage, BaseRefusal, NewestRefusal, SLOT_BYTES, decode, front_of_bytes, slot_by, slot_of,
};
use clfs_disk::Disk;
use clfs_manager::Manager;
use clfs_recover::LoadRefusal;
use std::alloc::{AllocError, Global};

// How many zeros are put at once.
const ZEROS: usize = 4096;

// So many zeros. They are put in pieces, since that takes less time than one after the other.
pub(crate) fn zeros(alloc: Global, count: usize) -> Result<Vec<u8>, AllocError>
    ensures { IfOk result (λ bytes. vec_len bytes ≡ count) }
{
    let some = [0; ZEROS];
    let mut bytes = Vec::with_capacity(alloc, count)?;
    while bytes.len() < count {
        let more = (count - bytes.len()).min(ZEROS);
        bytes.extend_from_slice(&some[..more])?;
    }
    Ok(bytes)
}

// Reads what a file begins with, as much as there is room for, and answers how many bytes that is.
pub(crate) fn read_front<D: Disk>(
    manager: &mut Manager<D>,
    file: u16,
    piece: &mut Vec<u8>,
) -> Result<usize, ArchiveRefusal>
    requires unbroken { manager.old.0.broken ≡ false }
    requires file { file ≤ 256 }
    ensures count { IfOk result (λ n. n ≤ vec_len piece.new) }
    ensures front { IfOk result (λ n. TellsContents (D.state manager.old.1)
        → take n piece.new.items ≡ take (vec_len piece.old) ((D.state manager.old.1).files file)) }
    ensures room { vec_len piece.new ≡ vec_len piece.old }
    ensures only { IfErr result (λ refusal. refusal ≡ Log refusals.DiskFault) }
    ensures reads { Reads (result_err result) manager.old.0 manager.new.0 (D.state manager.old.1) (D.state manager.new.1) }
{
    let count = manager.read_raw(file, 0, piece)?;
    Ok(count)
}

// A byte of a slot is wrong.
fn wrong_slot(slot: u32, at: u32) -> ArchiveRefusal
    ensures { result ≡ refused_as (without_copy (newest.BadByte slot at)) }
{
    LoadRefusal::from(NewestRefusal::BadByte { slot, at }).into()
}

// The slot that counts, by what both begin with.
fn used_slot(first: &[u8], second: &[u8]) -> Result<u32, ArchiveRefusal>
    ensures used { (file : List ℕ) → first.now ≡ slot_of file 0 → second.now ≡ slot_of file 1 → GivesSlot result (used_slot file) }
    ensures slot { IfOk result (λ slot. slot ≤ 1) }
    ensures told { TellsSlot result }
    ensures only { IfErr result IsOfReading }
    ensures fine { IsErrOf result (Log refusals.DiskFault) → ⊥ }
{
    match slot_by(&front_of_bytes(first), &front_of_bytes(second)) {
        Ok(slot) => Ok(slot),
        Err(refusal) => Err(LoadRefusal::from(refusal).into()),
    }
}

// The newest copy in the bytes of a base file, or what opening tells in place of one.
fn newest_in(alloc: Global, base: &[u8]) -> Result<BaseImage, ArchiveRefusal>
    ensures copy { (file : List ℕ) → base.now ≡ take 32768 file → GivesCopy result (newest_of file) }
    ensures image { IfOk result (λ image. IsImage image) }
    ensures told { IfOk result (λ image. (slot : ℕ) × IsReadCopy (Ok (slot, image))) }
    ensures damage { IfErr result TellsDamage }
    ensures only { IfErr result IsOfReading }
    ensures fine { IsErrOf result (Log refusals.DiskFault) → ⊥ }
{
    let slot = used_slot(slot_of(base, 0), slot_of(base, 1))?;
    let bytes = slot_of(base, slot);
    match decode(alloc, bytes) {
        Ok(image) => Ok(image),
        Err(BaseRefusal::BadByte { at }) => Err(wrong_slot(slot, at)),
        Err(BaseRefusal::NoMemory) => Err(ArchiveRefusal::NoMemory),
    }
}

// The newest base copy.
pub(crate) fn read_copy<D: Disk>(
    alloc: Global,
    manager: &mut Manager<D>,
) -> Result<BaseImage, ArchiveRefusal>
    requires unbroken { manager.old.0.broken ≡ false }
    ensures copy { TellsContents (D.state manager.old.1) → GivesCopy result (newest_of ((D.state manager.old.1).files 0)) }
    ensures image { IfOk result (λ image. IsImage image) }
    ensures told { IfOk result (λ image. (slot : ℕ) × IsReadCopy (Ok (slot, image))) }
    ensures damage { IfErr result TellsDamage }
    ensures only { IfErr result IsOfReading }
    ensures reads { Reads (result_err result) manager.old.0 manager.new.0 (D.state manager.old.1) (D.state manager.new.1) }
{
    let mut base = zeros(alloc, 2 * SLOT_BYTES as usize)?;
    let count = read_front(manager, 0, &mut base)?;
    let image = newest_in(alloc, &base[..count])?;
    Ok(image)
}
