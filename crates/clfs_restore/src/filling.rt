// The files of a restored log besides its base file: all of them at full length, and in those of the listed containers the blocks that are left.
ghost use Rattle.std.specs.Prelude.{◌≡◌, ◌≢◌, ◌+◌, ◌-◌, ◌*◌, ◌≤◌, ◌<◌, ℕ, length, OnOk, IfOk, IfErr, IsErrOf};
ghost use Rattle.clfs_lsn.specs.Format.{sector_bytes};
ghost use Rattle.clfs_lsn.specs.Lsn.{container_of};
ghost use Rattle.clfs_disk.specs.State.{TellsContents, IsSteady, IsHonest, IsSettled, Passes, Rises, raised};
ghost use Rattle.clfs_base.specs.Spelling.{IsImage};
ghost use Rattle.clfs_format.specs.Making.{BaseStays, KnowsLengths, SameLengths};
ghost use Rattle.clfs_archive_form.specs.Reading.{CanBeRead};
ghost use Rattle.clfs_archive_form.specs.Written.{IsReadable, HoldsKept, CanBeRestored};
ghost use Rattle.clfs_restore.specs.Restoring.{AreFilled, IsOfMaking, filling_calls};

use crate::piece::fill_piece;
use crate::refusal::RestoreRefusal;
use clfs_archive_form::Archive;
use clfs_disk::{Disk, overwritten_bytes_stand_in_place};
use clfs_format::make_containers;
use clfs_lsn::{Lsn, SECTOR};
use std::alloc::Global;

// Writes the blocks that are left of the listed container so many after the first, and answers where they end.
fn write_container<D: Disk>(
    alloc: Global,
    disk: &mut D,
    archives: &[u8],
    archive: &Archive,
    up_to: Lsn,
    i: u16,
    piece: &mut Vec<u8>,
) -> Result<u32, RestoreRefusal>
    requires image { IsImage archive.now.image }
    requires read { CanBeRead archives.now archive.now }
    requires listed { i < length archive.now.image.files }
    requires readable { IsReadable archives.now archive.now (archive.now.image.first + i) }
    ensures holds { IfOk result (λ end. TellsContents (D.state disk.old) → HoldsKept archives.now archive.now up_to (D.state disk.new).files i end) }
    ensures others { (file : ℕ) → file ≢ i + 1 → (D.state disk.new).files file ≡ (D.state disk.old).files file }
    ensures lengths { SameLengths (D.state disk.old).files (D.state disk.new).files }
    ensures time { Passes BaseStays (D.state disk.old) (D.state disk.new) }
    ensures calls { OnOk result ((D.state disk.new).calls ≡ raised 1 (D.state disk.old).calls) }
    ensures cause { IsErrOf result RestoreRefusal.DiskFault → Rises (D.state disk.old).faults (D.state disk.new).faults }
    ensures steady { IsSteady (D.state disk.old)
        → sector_bytes * archive.now.image.container_sectors ≤ length ((D.state disk.old).files (i + 1))
        → (IsErrOf result RestoreRefusal.DiskFault → ⊥) × ((D.state disk.new).faults ≡ (D.state disk.old).faults) }
    ensures only { IfErr result IsOfMaking }
{
    let id = archive.image.first + i as u32;
    let end = fill_piece(alloc, archives, archive, up_to, id, piece)?;
    disk.write(i + 1, 0, piece.as_slice())?;
    Ok(end)
}

// Writes the blocks that are left of each listed container up to that of an LSN, and answers where those of the last one end.
fn write_containers<D: Disk>(
    alloc: Global,
    disk: &mut D,
    archives: &[u8],
    archive: &Archive,
    up_to: Lsn,
) -> Result<u32, RestoreRefusal>
    requires can { CanBeRestored archives.now archive.now up_to }
    requires read { CanBeRead archives.now archive.now }
    ensures filled { IfOk result (λ end. TellsContents (D.state disk.old) → AreFilled archives.now archive.now up_to (D.state disk.new).files end) }
    ensures base { BaseStays (D.state disk.old).files (D.state disk.new).files }
    ensures lengths { SameLengths (D.state disk.old).files (D.state disk.new).files }
    ensures time { Passes BaseStays (D.state disk.old) (D.state disk.new) }
    ensures calls { OnOk result (raised 0 (D.state disk.new).calls
        ≡ raised (container_of up_to - archive.now.image.first + 1) (D.state disk.old).calls) }
    ensures cause { IsErrOf result RestoreRefusal.DiskFault → Rises (D.state disk.old).faults (D.state disk.new).faults }
    ensures steady { IsSteady (D.state disk.old)
        → ((file : ℕ) → 1 ≤ file → file ≤ archive.now.image.containers
        → sector_bytes * archive.now.image.container_sectors ≤ length ((D.state disk.old).files file))
        → (IsErrOf result RestoreRefusal.DiskFault → ⊥) × ((D.state disk.new).faults ≡ (D.state disk.old).faults) }
    ensures only { IfErr result IsOfMaking }
{
    let count = (up_to.container() - archive.image.first + 1) as u16;
    let mut piece = Vec::new(alloc);
    let mut end = 0;
    for i in 0..count {
        end = write_container(alloc, disk, archives, archive, up_to, i, &mut piece)?;
    }
    Ok(end)
}

/// Makes the files of a restored log besides its base file and syncs them, and answers where the blocks of the last listed container end. The base file
/// stays as it is.
pub(crate) fn fill_files<D: Disk>(
    alloc: Global,
    disk: &mut D,
    archives: &[u8],
    archive: &Archive,
    up_to: Lsn,
) -> Result<u32, RestoreRefusal>
    requires can { CanBeRestored archives.now archive.now up_to }
    requires read { CanBeRead archives.now archive.now }
    ensures filled { IfOk result (λ end. TellsContents (D.state disk.old) → AreFilled archives.now archive.now up_to (D.state disk.new).files end) }
    ensures long { OnOk result (KnowsLengths (D.state disk.old) → (file : ℕ) → 1 ≤ file → file ≤ archive.now.image.containers
        → sector_bytes * archive.now.image.container_sectors ≤ length ((D.state disk.new).files file)) }
    ensures settled { OnOk result (IsHonest (D.state disk.old) → IsSettled (D.state disk.new)) }
    ensures base { BaseStays (D.state disk.old).files (D.state disk.new).files }
    ensures time { Passes BaseStays (D.state disk.old) (D.state disk.new) }
    ensures calls { OnOk result ((D.state disk.new).calls ≡ raised (filling_calls archive.now up_to + 1) (D.state disk.old).calls) }
    ensures cause { IsErrOf result RestoreRefusal.DiskFault → Rises (D.state disk.old).faults (D.state disk.new).faults }
    ensures steady { IsSteady (D.state disk.old) → (IsErrOf result RestoreRefusal.DiskFault → ⊥)
        × ((D.state disk.new).faults ≡ (D.state disk.old).faults) }
    ensures only { IfErr result IsOfMaking }
{
    let len = SECTOR as u64 * archive.image.container_sectors as u64;
    make_containers(disk, archive.image.containers, len)?;
    let end = write_containers(alloc, disk, archives, archive, up_to)?;
    disk.sync()?;
    Ok(end)
}
