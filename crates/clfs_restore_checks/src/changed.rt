// Archives that are changed in one field, and the byte that is told.
use crate::log::{append, archived, begin, small_archive};
use clfs_archive_form::{InputRefusal, read_archives};
use clfs_disk::Memory;
use clfs_lsn::Lsn;
use clfs_manager::Manager;
use std::alloc::Global;

// A length that the archive twice is cut to, and the byte that is told.
const CUTS: [(usize, u64); 10] = [
    (0, 0),
    (5, 5),
    (8, 8),
    (14, 14),
    (16391, 16391),
    (16394, 16394),
    (16402, 16402),
    (16403, 16403),
    (17426, 17426),
    (17428, 17428),
];

// A byte of the archive twice, what it is changed to, and the byte that is told. The slot of the base copy begins at byte 7, and that of the second
// archive at 17,434; the first block at 16,403, and the second at 16,915.
const CHANGES: [(usize, u8, u64); 38] = [
    (3, 0, 3),
    (8, 1, 8),
    (8, 3, 8),
    (9, 1, 9),
    (10, 1, 10),
    (11, 0, 11),
    (15, 3, 15),
    (23, 2, 39),
    (31, 0, 31),
    (48, 1, 48),
    (583, 65, 583),
    (16391, 2, 16391),
    (16391, 0, 16391),
    (16395, 2, 16395),
    (16399, 1, 16399),
    (16400, 32, 16399),
    (16400, 2, 16915),
    (16400, 6, 17427),
    (16403, 0, 16403),
    (16404, 2, 16404),
    (16405, 0, 16405),
    (16405, 3, 16405),
    (16407, 0, 16407),
    (16409, 1, 16409),
    (16411, 0, 16411),
    (16415, 1, 16415),
    (16423, 2, 16423),
    (16425, 3, 16425),
    (16426, 1, 16426),
    (16452, 1, 16452),
    (16800, 1, 16800),
    (16907, 1, 16907),
    (16915, 0, 16915),
    (16917, 2, 16923),
    (17427, 68, 17427),
    (17438, 1, 17438),
    (17442, 9, 17442),
    (17456, 0, 17456),
];

// The archive twice.
fn twice(alloc: Global, archive: &[u8]) -> Option<Vec<u8>> {
    let mut bytes = Vec::from_slice(alloc, archive).ok()?;
    bytes.extend_from_slice(archive).ok()?;
    Some(bytes)
}

// The first byte of an input that is told to be wrong.
fn told(alloc: Global, bytes: &[u8]) -> Option<u64> {
    match read_archives(alloc, bytes) {
        Err(InputRefusal::NotAnArchive { at }) => Some(at),
        _ => None,
    }
}

fn told_of_cut(alloc: Global, archive: &[u8], len: usize) -> Option<u64> {
    let mut bytes = twice(alloc, archive)?;
    bytes.truncate(len);
    told(alloc, &bytes)
}

fn told_of_change(alloc: Global, archive: &[u8], at: usize, byte: u8) -> Option<u64> {
    let mut bytes = twice(alloc, archive)?;
    *bytes.get_mut(at)? = byte;
    told(alloc, &bytes)
}

// Each row of a cut is told so.
fn cuts_are_told(alloc: Global) -> Option<bool> {
    let archive = small_archive(alloc)?;
    for (len, wanted) in CUTS {
        if told_of_cut(alloc, &archive, len) != Some(wanted) {
            return Some(false);
        }
    }
    Some(true)
}

// The number of the first row of a change that is told otherwise.
fn first_other(alloc: Global) -> Option<Option<usize>> {
    let archive = small_archive(alloc)?;
    for (i, (at, byte, wanted)) in CHANGES.iter().copied().enumerate() {
        if told_of_change(alloc, &archive, at, byte) != Some(wanted) {
            return Some(Some(i));
        }
    }
    Some(None)
}

#[test]
fn the_first_wrong_byte_is_told(rt: HostRuntime) {
    assert!(rt; cuts_are_told(rt.alloc()) == Some(true));
    assert!(rt; first_other(rt.alloc()) == Some(None));
}

// The archive is read, alone and twice, if nothing is changed.
fn is_read(alloc: Global) -> Option<bool> {
    let archive = small_archive(alloc)?;
    let bytes = twice(alloc, &archive)?;
    Some(read_archives(alloc, &bytes).is_ok() && read_archives(alloc, &archive).is_ok())
}

#[test]
fn what_is_not_changed_is_read(rt: HostRuntime) {
    assert!(rt; is_read(rt.alloc()) == Some(true));
}

// A log with a record in a block of two sectors, and none besides.
fn long_record(alloc: Global, manager: &mut Manager<Memory>) -> Option<Lsn> {
    manager.create_area(1, 1, 960, 4).ok()?;
    append(alloc, manager, 7, 600, Lsn::null())
}

fn long_archive(alloc: Global) -> Option<Vec<u8>> {
    let mut manager = Manager::load(alloc, begin(alloc)?, 4).ok()?;
    let appended = long_record(alloc, &mut manager);
    let disk = manager.close();
    appended?;
    let (bytes, _disk) = archived(alloc, disk)?;
    Some(bytes)
}

// What is told if the length of its container ends inside the block.
fn told_within_a_block(alloc: Global) -> Option<u64> {
    let mut bytes = long_archive(alloc)?;
    *bytes.get_mut(16400)? = 2;
    told(alloc, &bytes)
}

#[test]
fn a_length_that_ends_inside_a_block(rt: HostRuntime) {
    assert!(rt; told_within_a_block(rt.alloc()) == Some(16915));
}
