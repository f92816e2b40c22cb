// A log with two records is archived and restored.
ghost use Rattle.std.specs.Prelude.{◌≤◌, IfSome};

use crate::log::{
    archived, archiving, at_sector, begin, empty, first_byte, restored, small, small_archive,
};
use clfs_disk::{Disk, Memory};
use clfs_lsn::Lsn;
use clfs_manager::Manager;
use clfs_model::Refusal;
use clfs_restore::{ArchiveRefusal, RestoreRefusal, restore};
use std::alloc::Global;

// How many bytes its archive has: letters, copy, count, and a container with two blocks of one sector.
const LENGTH: usize = 17427;

// Adds bytes of a file.
fn put_part(
    alloc: Global,
    disk: &mut Memory,
    file: u16,
    at: u64,
    count: usize,
    out: &mut Vec<u8>,
) -> Option<()>
    requires { file ≤ 256 }
{
    let mut part = Vec::new(alloc);
    part.resize(count, 0).ok()?;
    let _count = disk.read(file, at, &mut part).ok()?;
    out.extend_from_slice(&part).ok()
}

// Which slot of the base file counts, of two that are open: the one with the turn after the other's.
fn newest(disk: &mut Memory) -> Option<u64>
    ensures { IfSome result (λ slot. slot ≤ 1) }
{
    let mut first = [0; 3];
    let mut second = [0; 3];
    let _count = disk.read(0, 0, &mut first).ok()?;
    let _count = disk.read(0, 16384, &mut second).ok()?;
    let is_second = second[0] == 0xA5 && second[2] as u32 == (first[2] as u32 + 1) % 3;
    Some(if is_second { 1 } else { 0 })
}

// The archive put together by hand of the log's files.
fn by_hand(alloc: Global, disk: &mut Memory) -> Option<Vec<u8>> {
    let slot = newest(disk)?;
    let mut out = Vec::from_slice(alloc, b"CLFSARC1").ok()?;
    put_part(alloc, disk, 0, 16384 * slot + 1, 16383, &mut out)?;
    out.extend_from_slice(&[1, 0, 0, 0, 1, 0, 0, 0, 0, 4, 0, 0])
        .ok()?;
    put_part(alloc, disk, 1, 0, 1024, &mut out)?;
    *out.get_mut(9)? = 0;
    Some(out)
}

// The archive of the log, and that by hand.
fn is_as_by_hand(alloc: Global) -> Option<bool> {
    let (bytes, disk) = archived(alloc, small(alloc)?)?;
    let mut disk = disk;
    let other = by_hand(alloc, &mut disk)?;
    Some(bytes.len() == LENGTH && bytes.as_slice() == other.as_slice())
}

// The restored log has the same archive.
fn is_archived_again(alloc: Global) -> Option<bool> {
    let bytes = small_archive(alloc)?;
    let (again, _disk) = archived(alloc, restored(alloc, &bytes, None)?)?;
    Some(bytes.as_slice() == again.as_slice())
}

#[test]
fn an_archive_is_what_the_files_have(rt: HostRuntime) {
    assert!(rt; is_as_by_hand(rt.alloc()) == Some(true));
    assert!(rt; is_archived_again(rt.alloc()) == Some(true));
}

// A log with archiving turned off.
fn without_archiving(alloc: Global) -> Option<Memory> {
    let mut manager = Manager::load(alloc, begin(alloc)?, 4).ok()?;
    let off = manager.set_archive(false);
    let disk = manager.close();
    if off.is_ok() { Some(disk) } else { None }
}

// Why it has no archive.
fn refused_archive(alloc: Global) -> Option<ArchiveRefusal> {
    let (answer, _disk) = archiving(alloc, without_archiving(alloc)?)?;
    answer.err()
}

#[test]
fn a_log_without_archiving_has_none(rt: HostRuntime) {
    assert!(rt; refused_archive(rt.alloc()) == Some(ArchiveRefusal::Log(Refusal::Ephemeral)));
}

// What is read of both records.
fn read_both(
    manager: &mut Manager<Memory>,
) -> Option<(Result<Option<u8>, Refusal>, Result<Option<u8>, Refusal>)> {
    manager.create_area(1, 1, 960, 4).ok()?;
    Some((
        first_byte(manager, at_sector(0)),
        first_byte(manager, at_sector(1)),
    ))
}

// The first record is there, and the second is or isn't.
pub(crate) fn has(alloc: Global, disk: Memory, second: bool) -> Option<bool> {
    let mut manager = Manager::load(alloc, disk, 4).ok()?;
    let both = read_both(&mut manager);
    let _disk = manager.close();
    let (a, b) = both?;
    let lsn = at_sector(1);
    let wanted = if second {
        Ok(Some(0xBB))
    } else {
        Err(Refusal::RecordNonexistent { lsn })
    };
    Some(a == Ok(Some(0xAA)) && b == wanted)
}

// Restoring up to an LSN leaves the second record or doesn't.
fn comes_back(alloc: Global, up_to: Option<Lsn>, second: bool) -> Option<bool> {
    has(
        alloc,
        restored(alloc, &small_archive(alloc)?, up_to)?,
        second,
    )
}

#[test]
fn what_comes_back(rt: HostRuntime) {
    assert!(rt; comes_back(rt.alloc(), Some(at_sector(1)), false) == Some(true));
    assert!(rt; comes_back(rt.alloc(), Some(at_sector(2)), true) == Some(true));
    assert!(rt; comes_back(rt.alloc(), None, true) == Some(true));
}

// Why so many bytes of the archive aren't restored on a disk.
fn refused(alloc: Global, disk: Memory, len: usize, up_to: Option<Lsn>) -> Option<RestoreRefusal> {
    let mut bytes = small_archive(alloc)?;
    bytes.truncate(len);
    match restore(alloc, disk, &bytes, up_to) {
        Ok(_disk) => None,
        Err(refused) => Some(refused.cause),
    }
}

fn refused_on_none(alloc: Global, len: usize, up_to: Option<Lsn>) -> Option<RestoreRefusal> {
    refused(alloc, empty(alloc)?, len, up_to)
}

fn refused_on_a_log(alloc: Global, len: usize) -> Option<RestoreRefusal> {
    refused(alloc, small(alloc)?, len, None)
}

#[test]
fn what_is_refused(rt: HostRuntime) {
    let low = at_sector(0);
    let high = at_sector(2);
    assert!(rt;
        refused_on_none(rt.alloc(), LENGTH - 1, None)
            == Some(RestoreRefusal::NotAnArchive { at: 17426 })
    );
    assert!(rt;
        refused_on_none(rt.alloc(), 0, None) == Some(RestoreRefusal::NotAnArchive { at: 0 })
    );
    assert!(rt;
        refused_on_none(rt.alloc(), LENGTH, Some(at_sector(3)))
            == Some(RestoreRefusal::UpToInvalid { low, high })
    );
    assert!(rt;
        refused_on_none(rt.alloc(), LENGTH, Some(Lsn::null()))
            == Some(RestoreRefusal::UpToInvalid { low, high })
    );
    // A log that is there comes before what the archive is.
    assert!(rt; refused_on_a_log(rt.alloc(), LENGTH) == Some(RestoreRefusal::Exists { slot: 0 }));
    assert!(rt; refused_on_a_log(rt.alloc(), 5) == Some(RestoreRefusal::Exists { slot: 0 }));
}
