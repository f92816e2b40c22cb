// Small logs, their archives, and what is read of a log. A log has blocks of up to 2 sectors and containers of 8, and each record is in a block of its own.
ghost use Rattle.std.specs.Prelude.{◌≡◌, length, IfSome};
ghost use Rattle.clfs_disk.specs.Memory.{shown};
ghost use Rattle.clfs_restore.specs.Archiving.{IsJustLoaded};

use clfs_disk::Memory;
use clfs_lsn::{Bytes, Lsn, Mode, Name, Shape, Sizes};
use clfs_manager::Manager;
use clfs_model::{Draft, Refusal};
use clfs_restore::{ArchiveRefusal, restore, write_archive};
use std::alloc::Global;

const SHAPE: Shape = Shape {
    block_sectors: 2,
    container_sectors: 8,
};

// The record so many sectors after the first byte of container 1.
pub(crate) fn at_sector(sector: u32) -> Lsn {
    Lsn::from_parts(1 + sector / 8, sector % 8 * 512, 0)
}

pub(crate) fn empty(alloc: Global) -> Option<Memory> {
    Memory::new(alloc, 512, 1048576, &[]).ok()
}

// A record of so many bytes, which is flushed.
fn draft(alloc: Global, byte: u8, len: u16, link: Lsn) -> Option<Draft>
    ensures { IfSome result (λ draft. length draft.bytes ≡ len) }
{
    let mut bytes = Vec::new(alloc);
    bytes.resize(len as usize, byte).ok()?;
    Some(Draft {
        bytes: Bytes::from_vec(bytes),
        previous: link,
        undo_next: link,
        seal: false,
        flush: true,
    })
}

// Appends it.
pub(crate) fn append(
    alloc: Global,
    manager: &mut Manager<Memory>,
    byte: u8,
    len: u16,
    link: Lsn,
) -> Option<Lsn> {
    let draft = draft(alloc, byte, len, link)?;
    let sizes = Sizes::from_vec(Vec::new(alloc));
    manager.append(1, 1, &draft, false, &sizes).ok()
}

fn name(alloc: Global) -> Option<Name>
    ensures { IfSome result (λ name. length name ≡ 1) }
{
    let mut bytes = Vec::new(alloc);
    bytes.resize(1, b'a').ok()?;
    Some(Name::from_vec(bytes))
}

// A log with one stream, archiving on, and no record.
pub(crate) fn begin(alloc: Global) -> Option<Memory> {
    let disk = Manager::format(alloc, empty(alloc)?, SHAPE, 2, false).ok()?;
    let mut manager = Manager::load(alloc, disk, 4).ok()?;
    let name = name(alloc)?;
    let opened = manager.open_stream(1, &name).is_ok() && manager.set_archive(true).is_ok();
    let disk = manager.close();
    if opened { Some(disk) } else { None }
}

// Appends records of one byte to a manager that was just loaded, one a sector from one sector on up to another.
fn fill(alloc: Global, manager: &mut Manager<Memory>, from: u8, to: u8) -> Option<()> {
    manager.create_area(1, 1, 960, 4).ok()?;
    for sector in from..to {
        let lsn = append(alloc, manager, sector, 1, Lsn::null())?;
        if lsn != at_sector(sector as u32) {
            return None;
        }
    }
    Some(())
}

// The log with these records more.
pub(crate) fn filled(alloc: Global, disk: Memory, from: u8, to: u8) -> Option<Memory> {
    let mut manager = Manager::load(alloc, disk, 4).ok()?;
    let done = fill(alloc, &mut manager, from, to);
    let disk = manager.close();
    done?;
    Some(disk)
}

// The log with two records, 0xAA and 0xBB, of which the second names the first.
fn fill_small(alloc: Global, manager: &mut Manager<Memory>) -> Option<()> {
    manager.create_area(1, 1, 960, 4).ok()?;
    let first = append(alloc, manager, 0xAA, 1, Lsn::null())?;
    let _second = append(alloc, manager, 0xBB, 1, first)?;
    Some(())
}

pub(crate) fn small(alloc: Global) -> Option<Memory> {
    let mut manager = Manager::load(alloc, begin(alloc)?, 4).ok()?;
    let done = fill_small(alloc, &mut manager);
    let disk = manager.close();
    done?;
    Some(disk)
}

// Opens the log on a disk.
fn opened(alloc: Global, disk: Memory) -> Option<Manager<Memory>>
    ensures { IfSome result (λ manager. IsJustLoaded (shown manager.1) manager.0) }
{
    match Manager::load(alloc, disk, 4) {
        Ok(manager) => Some(manager),
        Err(_refused) => None,
    }
}

// What archiving the log on a disk answers.
pub(crate) fn archiving(
    alloc: Global,
    disk: Memory,
) -> Option<(Result<Vec<u8>, ArchiveRefusal>, Memory)> {
    let mut manager = opened(alloc, disk)?;
    let mut out = Bytes::new(alloc);
    let written = write_archive(alloc, &mut manager, &mut out);
    let disk = manager.close();
    match written {
        Ok(()) => Some((Ok(out.into_vec()), disk)),
        Err(cause) => Some((Err(cause), disk)),
    }
}

// The archive of the log on a disk.
pub(crate) fn archived(alloc: Global, disk: Memory) -> Option<(Vec<u8>, Memory)> {
    let (answer, disk) = archiving(alloc, disk)?;
    Some((answer.ok()?, disk))
}

pub(crate) fn small_archive(alloc: Global) -> Option<Vec<u8>> {
    let (bytes, _disk) = archived(alloc, small(alloc)?)?;
    Some(bytes)
}

// The log that is restored of archives on an empty disk.
pub(crate) fn restored(alloc: Global, archives: &[u8], up_to: Option<Lsn>) -> Option<Memory> {
    restore(alloc, empty(alloc)?, archives, up_to).ok()
}

// The first byte of a record.
pub(crate) fn first_byte(manager: &mut Manager<Memory>, lsn: Lsn) -> Result<Option<u8>, Refusal> {
    match manager.read(1, 1, lsn, Mode::Forward) {
        Ok((_cursor, entry)) => Ok(entry.bytes.as_slice().first().copied()),
        Err(refusal) => Err(refusal),
    }
}

// How many records in a row, one a sector from the first sector on, a log has.
fn count(manager: &mut Manager<Memory>) -> Option<u8> {
    manager.create_area(1, 1, 960, 16).ok()?;
    for sector in 0..16 {
        if first_byte(manager, at_sector(sector as u32)) != Ok(Some(sector)) {
            return Some(sector);
        }
    }
    Some(16)
}

pub(crate) fn records(alloc: Global, disk: Memory) -> Option<u8> {
    let mut manager = Manager::load(alloc, disk, 4).ok()?;
    let found = count(&mut manager);
    let _disk = manager.close();
    found
}
