// Restoring a log of archives on a disk on which none is: the base file at full length, with no gate open; then all other files; and then the base copy,
// whose gate is opened last. No gate of the base file is ever written but that one: both are closed already, and a byte that is being written may hold
// anything after a crash.
ghost use Rattle.std.specs.Prelude.{◌≡◌, ◌≢◌, ◌⊎◌, ◌+◌, ◌-◌, ◌*◌, ◌≤◌, ◌<◌, ℕ, None, Some, Ok, length, OnOk, IfOk, IfErr, IsErrOf};
ghost use Rattle.clfs_lsn.specs.Format.{sector_bytes};
ghost use Rattle.clfs_lsn.specs.Lsn.{lsn_number, container_of};
ghost use Rattle.clfs_disk.specs.Files.{Files, Unchanged, GrownIn};
ghost use Rattle.clfs_disk.specs.State.{TellsContents, IsSteady, IsHonest, IsSettled, Later, Leaves, Passes, Rises, raised};
ghost use Rattle.clfs_base.specs.Layout.{slot_bytes};
ghost use Rattle.clfs_base.specs.Slots.{newest_of};
ghost use Rattle.clfs_base.specs.Spelling.{IsImage, spelled};
ghost use Rattle.clfs_base.specs.Writing.{HasNoCopy};
ghost use Rattle.clfs_recover.specs.Files.{StandsFor, AreWholeFiles};
ghost use Rattle.clfs_format.specs.Making.{open_slot_of, KnowsLengths, KeepsLog};
ghost use Rattle.clfs_archive_form.specs.declared.archive.Archive.{Archive};
ghost use Rattle.clfs_archive_form.specs.Reading.{CanBeRead};
ghost use Rattle.clfs_archive_form.specs.Restoring.{restored};
ghost use Rattle.clfs_archive_form.specs.Written.{restored_copy, CanBeRestored};
ghost use Rattle.clfs_restore.specs.Restoring.{IsChosen, AreChosen, StandForRestored, base_bytes, GrowsBase, ComesAtOnce, RestoresAtOnce, AreFilled, IsInputCause, IsFreeCause, IsRestoreCause, IsOfMaking, LooksFirst, TakesCalls, filling_calls, restoring_calls};

use crate::filling::fill_files;
use crate::refusal::RestoreRefusal;
use clfs_archive_form::{
    Archive, archives_can_be_restored, choose_up_to, read_archives, restored_copy,
    restored_files_stand_for_the_log,
};
use clfs_base::{BaseImage, SLOT_BYTES, copies_are_read_as_written, encode};
use clfs_disk::Disk;
use clfs_format::{first_open_slot, write_first_copy};
use clfs_lsn::Lsn;
use std::alloc::{AllocError, Global};

/// A log wasn't restored. The disk is given back.
#[derive(Drop)]
pub struct RestoreRefused<D> {
    /// The disk.
    pub disk: D,
    /// Why.
    pub cause: RestoreRefusal,
}

// The archives taken together, and up to where the log is restored of them.
fn choose(
    alloc: Global,
    archives: &[u8],
    up_to: Option<Lsn>,
) -> Result<(Archive, Lsn), RestoreRefusal>
    ensures chosen { IfOk result (λ x. IsChosen archives.now up_to x.0 x.1) }
    ensures can { IfOk result (λ x. CanBeRestored archives.now x.0 x.1) }
    ensures read { IfOk result (λ x. CanBeRead archives.now x.0) }
    ensures cause { IfErr result (λ refusal. IsInputCause archives.now up_to refusal) }
{
    archives_can_be_restored();
    let archive = read_archives(alloc, archives)?;
    let lsn = choose_up_to(&archive, up_to)?;
    Ok((archive, lsn))
}

// Makes the base file, and syncs it.
fn make_base<D: Disk>(disk: &mut D) -> Result<(), RestoreRefusal>
    ensures long { OnOk result (KnowsLengths (D.state disk.old) → base_bytes ≤ length ((D.state disk.new).files 0)) }
    ensures none { OnOk result (TellsContents (D.state disk.old) → HasNoCopy (D.state disk.old).files → HasNoCopy (D.state disk.new).files) }
    ensures settled { OnOk result (IsHonest (D.state disk.old) → IsSettled (D.state disk.new)) }
    ensures grown { GrownIn 0 base_bytes (D.state disk.old).files (D.state disk.new).files }
    ensures time { GrowsBase (D.state disk.old) (D.state disk.new) }
    ensures calls { OnOk result ((D.state disk.new).calls ≡ raised 2 (D.state disk.old).calls) }
    ensures cause { IsErrOf result RestoreRefusal.DiskFault → Rises (D.state disk.old).faults (D.state disk.new).faults }
    ensures steady { IsSteady (D.state disk.old) → (IsErrOf result RestoreRefusal.DiskFault → ⊥)
        × ((D.state disk.new).faults ≡ (D.state disk.old).faults) }
    ensures only { IfErr result IsOfMaking }
{
    disk.grow(0, 2 * SLOT_BYTES as u64)?;
    disk.sync()?;
    Ok(())
}

// Makes all files, and in them all but the base copy.
fn prepare<D: Disk>(
    alloc: Global,
    disk: &mut D,
    archives: &[u8],
    archive: &Archive,
    up_to: Lsn,
) -> Result<u32, RestoreRefusal>
    requires can { CanBeRestored archives.now archive.now up_to }
    requires read { CanBeRead archives.now archive.now }
    ensures filled { IfOk result (λ end. TellsContents (D.state disk.old) → AreFilled archives.now archive.now up_to (D.state disk.new).files end) }
    ensures none { OnOk result (TellsContents (D.state disk.old) → HasNoCopy (D.state disk.old).files → HasNoCopy (D.state disk.new).files) }
    ensures base { OnOk result (KnowsLengths (D.state disk.old) → base_bytes ≤ length ((D.state disk.new).files 0)) }
    ensures long { OnOk result (KnowsLengths (D.state disk.old) → (file : ℕ) → 1 ≤ file → file ≤ archive.now.image.containers
        → sector_bytes * archive.now.image.container_sectors ≤ length ((D.state disk.new).files file)) }
    ensures settled { OnOk result (IsHonest (D.state disk.old) → IsSettled (D.state disk.new)) }

    // No slot is open from the end of the first sync on; before it nothing is done but growing the base file.
    ensures at_once { OnOk result (IsHonest (D.state disk.old) → HasNoCopy (D.state disk.old).files
        → ComesAtOnce (λ files. ⊥) (D.state disk.old) (D.state disk.new)) }
    ensures moments { IsHonest (D.state disk.old) → HasNoCopy (D.state disk.old).files
        → GrowsBase (D.state disk.old) (D.state disk.new) ⊎ ComesAtOnce (λ files. ⊥) (D.state disk.old) (D.state disk.new) }
    ensures all_moments { IsSettled (D.state disk.old) → HasNoCopy (D.state disk.old).files → base_bytes ≤ length ((D.state disk.old).files 0)
        → Leaves HasNoCopy (D.state disk.old) (D.state disk.new) }

    ensures time { Later (D.state disk.old) (D.state disk.new) }
    ensures calls { OnOk result ((D.state disk.new).calls ≡ raised (filling_calls archive.now up_to + 3) (D.state disk.old).calls) }
    ensures cause { IsErrOf result RestoreRefusal.DiskFault → Rises (D.state disk.old).faults (D.state disk.new).faults }
    ensures steady { IsSteady (D.state disk.old) → (IsErrOf result RestoreRefusal.DiskFault → ⊥)
        × ((D.state disk.new).faults ≡ (D.state disk.old).faults) }
    ensures only { IfErr result IsOfMaking }
{
    make_base(disk)?;
    fill_files(alloc, disk, archives, archive, up_to)
}

// The bytes of the base copy after its gate.
fn copy_bytes(alloc: Global, image: BaseImage, up_to: Lsn, end: u32) -> Result<Vec<u8>, AllocError>
    requires image { IsImage image }
    requires listed { (image.first ≤ container_of up_to) × (container_of up_to < image.first + length image.files) }
    ensures spelled { IfOk result (λ body. body.items ≡ spelled (restored_copy image up_to (lsn_number (container_of up_to) end 0))) }
    ensures image { IfOk result (λ body. IsImage (restored_copy image up_to (lsn_number (container_of up_to) end 0))) }
    ensures length { IfOk result (λ body. length body.items ≡ slot_bytes - 1) }
{
    let copy = restored_copy(alloc, image, up_to, end)?;
    let mut body = Vec::new(alloc);
    body.resize(SLOT_BYTES as usize - 1, 0)?;
    encode(&copy, &mut body);
    Ok(body)
}

// Makes the log.
fn make_log<D: Disk>(
    alloc: Global,
    disk: &mut D,
    archives: &[u8],
    archive: Archive,
    up_to: Lsn,
) -> Result<(), RestoreRefusal>
    requires can { CanBeRestored archives.now archive up_to }
    requires read { CanBeRead archives.now archive }
    ensures restored { OnOk result (TellsContents (D.state disk.old) → HasNoCopy (D.state disk.old).files
        → (buffers : ℕ) → StandsFor (D.state disk.new).files (restored archives.now archive up_to buffers)) }
    ensures whole { OnOk result (TellsContents (D.state disk.old) → HasNoCopy (D.state disk.old).files → AreWholeFiles (D.state disk.new).files) }
    ensures settled { OnOk result (IsHonest (D.state disk.old) → IsSettled (D.state disk.new)) }
    ensures at_once { OnOk result (IsHonest (D.state disk.old) → HasNoCopy (D.state disk.old).files
        → ComesAtOnce (λ files. (buffers : ℕ) → StandsFor files (restored archives.now archive up_to buffers)) (D.state disk.old) (D.state disk.new)) }
    ensures moments { IsHonest (D.state disk.old) → HasNoCopy (D.state disk.old).files → GrowsBase (D.state disk.old) (D.state disk.new)
        ⊎ ComesAtOnce (λ files. (buffers : ℕ) → StandsFor files (restored archives.now archive up_to buffers)) (D.state disk.old) (D.state disk.new) }
    ensures all_moments { IsSettled (D.state disk.old) → HasNoCopy (D.state disk.old).files → base_bytes ≤ length ((D.state disk.old).files 0)
        → Leaves (λ files. HasNoCopy files ⊎ ((buffers : ℕ) → StandsFor files (restored archives.now archive up_to buffers))) (D.state disk.old) (D.state disk.new) }
    ensures time { Later (D.state disk.old) (D.state disk.new) }
    ensures calls { OnOk result ((D.state disk.new).calls ≡ raised (filling_calls archive up_to + 7) (D.state disk.old).calls) }
    ensures cause { IsErrOf result RestoreRefusal.DiskFault → Rises (D.state disk.old).faults (D.state disk.new).faults }
    ensures steady { IsSteady (D.state disk.old) → (IsErrOf result RestoreRefusal.DiskFault → ⊥)
        × ((D.state disk.new).faults ≡ (D.state disk.old).faults) }
    ensures only { IfErr result IsOfMaking }
{
    restored_files_stand_for_the_log();
    copies_are_read_as_written();
    let end = prepare(alloc, disk, archives, &archive, up_to)?;
    let Archive { image, .. } = archive;
    let body = copy_bytes(alloc, image, up_to, end)?;
    write_first_copy(disk, &body)?;
    Ok(())
}

// Restores a log of archives on a disk on which no slot is open.
fn restore_free<D: Disk>(
    alloc: Global,
    disk: &mut D,
    archives: &[u8],
    up_to: Option<Lsn>,
) -> Result<(), RestoreRefusal>
    ensures restored { OnOk result (TellsContents (D.state disk.old) → HasNoCopy (D.state disk.old).files
        → StandForRestored archives.now up_to (D.state disk.new).files) }
    ensures whole { OnOk result (TellsContents (D.state disk.old) → HasNoCopy (D.state disk.old).files → AreWholeFiles (D.state disk.new).files) }
    ensures settled { OnOk result (IsHonest (D.state disk.old) → IsSettled (D.state disk.new)) }
    ensures chosen { OnOk result (AreChosen archives.now up_to) }
    ensures at_once { OnOk result (IsHonest (D.state disk.old) → HasNoCopy (D.state disk.old).files
        → RestoresAtOnce archives.now up_to (D.state disk.old) (D.state disk.new)) }
    ensures moments { IsHonest (D.state disk.old) → HasNoCopy (D.state disk.old).files
        → GrowsBase (D.state disk.old) (D.state disk.new) ⊎ RestoresAtOnce archives.now up_to (D.state disk.old) (D.state disk.new) }
    ensures all_moments { IsSettled (D.state disk.old) → HasNoCopy (D.state disk.old).files → base_bytes ≤ length ((D.state disk.old).files 0)
        → Leaves (λ files. HasNoCopy files ⊎ StandForRestored archives.now up_to files) (D.state disk.old) (D.state disk.new) }
    ensures why { IfErr result (λ refusal. IsFreeCause archives.now up_to refusal) }
    ensures same { IfErr result (λ refusal. (IsOfMaking refusal → ⊥) → disk.new ≡ disk.old) }
    ensures time { Later (D.state disk.old) (D.state disk.new) }
    ensures calls { OnOk result (TakesCalls archives.now up_to (λ archive lsn. filling_calls archive lsn + 7) (D.state disk.old) (D.state disk.new)) }
    ensures cause { IsErrOf result RestoreRefusal.DiskFault → Rises (D.state disk.old).faults (D.state disk.new).faults }
    ensures steady { IsSteady (D.state disk.old) → IsErrOf result RestoreRefusal.DiskFault → ⊥ }
{
    let chosen = choose(alloc, archives, up_to)?;
    let (archive, lsn) = chosen;
    make_log(alloc, disk, archives, archive, lsn)
}

// Whether a log can be restored of the archives.
fn judge(alloc: Global, archives: &[u8], up_to: Option<Lsn>) -> Result<(), RestoreRefusal>
    ensures right { OnOk result (AreChosen archives.now up_to) }
    ensures cause { IfErr result (λ refusal. IsInputCause archives.now up_to refusal) }
{
    let chosen = choose(alloc, archives, up_to)?;
    let (_archive, _lsn) = chosen;
    Ok(())
}

/// Why nothing is restored if the disk failed before the archives were read: what they are comes before that.
pub fn cause_after_fault(alloc: Global, archives: &[u8], up_to: Option<Lsn>) -> RestoreRefusal
    ensures { IsFreeCause archives.now up_to result }
{
    match judge(alloc, archives, up_to) {
        Ok(()) => RestoreRefusal::DiskFault,
        Err(cause) => cause,
    }
}

// Restores a log of archives on a disk.
fn restore_disk<D: Disk>(
    alloc: Global,
    disk: &mut D,
    archives: &[u8],
    up_to: Option<Lsn>,
) -> Result<(), RestoreRefusal>
    ensures restored { OnOk result (TellsContents (D.state disk.old) → StandForRestored archives.now up_to (D.state disk.new).files) }
    ensures whole { OnOk result (TellsContents (D.state disk.old) → AreWholeFiles (D.state disk.new).files) }
    ensures settled { OnOk result (IsHonest (D.state disk.old) → IsSettled (D.state disk.new)) }
    ensures free { OnOk result (TellsContents (D.state disk.old) → open_slot_of ((D.state disk.old).files 0) ≡ None) }
    ensures chosen { OnOk result (AreChosen archives.now up_to) }
    ensures at_once { OnOk result (IsHonest (D.state disk.old) → RestoresAtOnce archives.now up_to (D.state disk.old) (D.state disk.new)) }
    ensures moments { IsHonest (D.state disk.old) → open_slot_of ((D.state disk.old).files 0) ≡ None
        → GrowsBase (D.state disk.old) (D.state disk.new) ⊎ RestoresAtOnce archives.now up_to (D.state disk.old) (D.state disk.new) }
    ensures all_moments { IsSettled (D.state disk.old) → open_slot_of ((D.state disk.old).files 0) ≡ None → base_bytes ≤ length ((D.state disk.old).files 0)
        → Leaves (λ files. HasNoCopy files ⊎ StandForRestored archives.now up_to files) (D.state disk.old) (D.state disk.new) }
    ensures why { IfErr result (λ refusal. IsRestoreCause (D.state disk.old) archives.now up_to refusal) }
    ensures same { IfErr result (λ refusal. (IsOfMaking refusal → ⊥)
        → Unchanged (D.state disk.old).files (D.state disk.new).files × Passes Unchanged (D.state disk.old) (D.state disk.new)) }
    ensures kept { KeepsLog (D.state disk.old) (D.state disk.new) }
    ensures first { IfErr result (λ refusal. LooksFirst refusal (D.state disk.old) (D.state disk.new)) }
    ensures calls { OnOk result (TakesCalls archives.now up_to restoring_calls (D.state disk.old) (D.state disk.new)) }
    ensures time { Later (D.state disk.old) (D.state disk.new) }
    ensures cause { IsErrOf result RestoreRefusal.DiskFault → Rises (D.state disk.old).faults (D.state disk.new).faults }
    ensures steady { IsSteady (D.state disk.old) → IsErrOf result RestoreRefusal.DiskFault → ⊥ }
{
    match first_open_slot(disk) {
        Ok(Some(slot)) => Err(RestoreRefusal::Exists { slot }),
        Ok(None) => restore_free(alloc, disk, archives, up_to),
        Err(_) => Err(cause_after_fault(alloc, archives, up_to)),
    }
}

/// Restores a log of one or more archives on a disk on which no log is, up to an LSN or as far as they reach. The disk is given back with it.
///
/// Where no slot was open, a crash or a fault in it leaves no open slot or the whole restored log, once the base file has its length: while that grows,
/// a crash may leave any bytes in what is added. Where no slot is open it may be called again on the files as they are.
pub fn restore<D: Disk>(
    alloc: Global,
    disk: D,
    archives: &[u8],
    up_to: Option<Lsn>,
) -> Result<D, RestoreRefused<D>>
    // The archives are right, no slot was open, the files stand for what is restored, are at full length, and nothing is pending.
    ensures restored { IfOk result (λ new. TellsContents (D.state disk) → StandForRestored archives.now up_to (D.state new).files) }
    ensures whole { IfOk result (λ new. TellsContents (D.state disk) → AreWholeFiles (D.state new).files) }
    ensures settled { IfOk result (λ new. IsHonest (D.state disk) → IsSettled (D.state new)) }
    ensures free { IfOk result (λ new. TellsContents (D.state disk) → open_slot_of ((D.state disk).files 0) ≡ None) }
    ensures chosen { IfOk result (λ new. AreChosen archives.now up_to) }

    // The log comes to be there at once: up to a moment nothing is done but growing the base file, and from it on a crash leaves none or all of the log. After
    // a refusal that is so if the moment was reached, and else nothing was done but growing the base file.
    ensures moments { IfOk result (λ new. IsHonest (D.state disk) → RestoresAtOnce archives.now up_to (D.state disk) (D.state new)) }
    ensures moments_refused { IfErr result (λ refused. IsHonest (D.state disk) → open_slot_of ((D.state disk).files 0) ≡ None
        → GrowsBase (D.state disk) (D.state refused.disk) ⊎ RestoresAtOnce archives.now up_to (D.state disk) (D.state refused.disk)) }

    // Where the base file was at full length and nothing was pending, that is so of all moments.
    ensures all_moments { IfOk result (λ new. IsSettled (D.state disk) → open_slot_of ((D.state disk).files 0) ≡ None
        → base_bytes ≤ length ((D.state disk).files 0)
        → Leaves (λ files. HasNoCopy files ⊎ StandForRestored archives.now up_to files) (D.state disk) (D.state new)) }
    ensures all_moments_refused { IfErr result (λ refused. IsSettled (D.state disk) → open_slot_of ((D.state disk).files 0) ≡ None
        → base_bytes ≤ length ((D.state disk).files 0)
        → Leaves (λ files. HasNoCopy files ⊎ StandForRestored archives.now up_to files) (D.state disk) (D.state refused.disk)) }

    // Why it is refused. Where that is a slot that is open, or what the archives are, nothing has changed.
    ensures why { IfErr result (λ refused. IsRestoreCause (D.state disk) archives.now up_to refused.cause) }
    ensures same { IfErr result (λ refused. (IsOfMaking refused.cause → ⊥)
        → Unchanged (D.state disk).files (D.state refused.disk).files × Passes Unchanged (D.state disk) (D.state refused.disk)) }

    // Where a slot was open that is told, unless the disk failed in the call, and nothing has changed, whatever is told.
    ensures first { IfErr result (λ refused. LooksFirst refused.cause (D.state disk) (D.state refused.disk)) }
    ensures kept { IfErr result (λ refused. KeepsLog (D.state disk) (D.state refused.disk)) }

    // Restoring a log takes just so many calls of the disk: no file is made beyond those that the log has.
    ensures calls { IfOk result (λ new. TakesCalls archives.now up_to restoring_calls (D.state disk) (D.state new)) }

    ensures time { IfOk result (λ new. Later (D.state disk) (D.state new)) }
    ensures time_refused { IfErr result (λ refused. Later (D.state disk) (D.state refused.disk)) }

    // A fault is told only where the disk failed in the call, and never over a steady disk.
    ensures fault { IfErr result (λ refused. refused.cause ≡ RestoreRefusal.DiskFault → Rises (D.state disk).faults (D.state refused.disk).faults) }
    ensures steady { IsSteady (D.state disk) → IfErr result (λ refused. refused.cause ≢ RestoreRefusal.DiskFault) }
{
    let mut disk = disk;
    match restore_disk(alloc, &mut disk, archives, up_to) {
        Ok(()) => Ok(disk),
        Err(cause) => Err(RestoreRefused { disk, cause }),
    }
}
