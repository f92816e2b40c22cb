ghost use Rattle.std.specs.Prelude.{◌<◌, ◌≤◌};

use clfs_buffers::{Buffers, ReadRefusal};
use clfs_disk::{Disk, Fuse, Steady};
use clfs_lsn::{Lsn, Shape};
use std::alloc::{AllocError, Global};

const SHAPE: Shape = Shape {
    block_sectors: 2,
    container_sectors: 64,
};

// The header of a block of one sector with three records of 40 bytes.
const FRONT: [u8; 16] = [0xA5, 1, 1, 0, 3, 0, 0, 0, 136, 0, 0, 0, 0, 0, 0, 0];

// The header of a record of stream 1 with one byte of data and null links.
const HEADER: [u8; 8] = [1, 0, 0, 0, 1, 0, 1, 0];

// The block so many sectors after its container's first byte. The data of its records are one byte each, all different in a container.
fn block(container: u16, sector: u8) -> [u8; 512]
    requires container { container < 3 }
    requires sector { sector < 60 }
{
    let mut bytes = [0; 512];
    bytes[..16].copy_from_slice(&FRONT);
    for sequence in 0..3 {
        let at = 16 + 40 * sequence;
        bytes[at..at + 8].copy_from_slice(&HEADER);
        bytes[at + 32] = 4 * sector + sequence as u8;
    }
    bytes[505] = 2 * sector;
    bytes[508] = container as u8;
    bytes
}

// Writes so many blocks into a file, one after the other.
fn write_blocks(disk: &mut Steady, file: u16, blocks: u8) -> bool
    requires file { file < 3 }
    requires blocks { blocks < 60 }
{
    let mut are_written = disk.grow(file, 512 * blocks as u64).is_ok();
    for sector in 0..blocks {
        let bytes = block(file, sector);
        are_written = are_written && disk.write(file, 512 * sector as u64, &bytes).is_ok();
    }
    are_written
}

// A disk that has so many blocks in each of containers 1 and 2, in files of these numbers.
fn disk(alloc: Global, blocks: u8) -> Option<Steady>
    requires { blocks < 60 }
{
    let mut disk = Steady::new(alloc).ok()?;
    if write_blocks(&mut disk, 1, blocks) && write_blocks(&mut disk, 2, blocks) {
        Some(disk)
    } else {
        None
    }
}

// Such a disk that passes so many calls, and buffers.
fn start(alloc: Global, blocks: u8, passes: u64) -> Option<(Buffers, Fuse<Steady>)>
    requires { blocks < 60 }
{
    let buffers = Buffers::new(alloc, 32).ok()?;
    Some((buffers, Fuse::new(disk(alloc, blocks)?, passes)))
}

// The data byte of the record at a position of a block, in a log of two streams. The block is thought to have a sector.
fn read<D: Disk>(
    buffers: &mut Buffers,
    disk: &mut D,
    container: u16,
    sector: u8,
    sequence: u32,
) -> Result<u8, ReadRefusal>
    requires { container ≤ 256 }
{
    read_expecting(buffers, disk, container, sector, sequence, 512)
}

// The same of a block that is thought to have so many bytes.
fn read_expecting<D: Disk>(
    buffers: &mut Buffers,
    disk: &mut D,
    container: u16,
    sector: u8,
    sequence: u32,
    expected: u32,
) -> Result<u8, ReadRefusal>
    requires { container ≤ 256 }
{
    let offset = 512 * sector as u32;
    let lsn = Lsn::create(container as u32, offset, sequence).unwrap_or(Lsn::null());
    let entry = buffers.read(disk, &SHAPE, 2, container, lsn, expected)?;
    match entry.bytes.as_slice() {
        [byte] => Ok(*byte),
        _ => Ok(0xFF),
    }
}

const ORDERS: [[u32; 3]; 6] = [
    [0, 1, 2],
    [0, 2, 1],
    [1, 0, 2],
    [1, 2, 0],
    [2, 0, 1],
    [2, 1, 0],
];

// The record at a position of a block of container 1 has this data byte.
fn has_byte<D: Disk>(
    buffers: &mut Buffers,
    disk: &mut D,
    sector: u8,
    sequence: u32,
    byte: u8,
) -> bool {
    read(buffers, disk, 1, sector, sequence) == Ok(byte)
}

// One call of the disk gives the records of a block in any order, and none after them. A block that is read later needs another call.
fn are_read_by_one_call(alloc: Global, order: [u32; 3]) -> Option<bool> {
    let (mut buffers, mut disk) = start(alloc, 2, 1)?;
    for sequence in order {
        if !has_byte(
            &mut buffers,
            &mut disk,
            1,
            sequence,
            4 + (sequence % 3) as u8,
        ) {
            return Some(false);
        }
    }
    let behind = read(&mut buffers, &mut disk, 1, 1, 3);
    let other = read(&mut buffers, &mut disk, 1, 0, 0);
    Some(behind == Err(ReadRefusal::Damaged { at: 4 }) && other == Err(ReadRefusal::DiskFault))
}

#[test]
fn records_of_a_block_are_read_by_one_call(rt: HostRuntime) {
    for order in ORDERS {
        assert!(rt;
            are_read_by_one_call(rt.alloc(), order) == Some(true),
            "in {order:?}"
        );
    }
}

// The data byte of the record at a position of a block of container 1, if the block is kept and has the record.
fn kept(buffers: &mut Buffers, sector: u8, sequence: u32) -> Option<u8> {
    let lsn = Lsn::create(1, 512 * sector as u32, sequence).unwrap_or(Lsn::null());
    match buffers.kept_data(lsn).ok()??.as_slice() {
        [byte] => Some(*byte),
        _ => None,
    }
}

// A block that was read gives the data of its records by no call of the disk, and no other block gives any.
fn gives_kept_data(alloc: Global) -> Option<bool> {
    let (mut buffers, mut disk) = start(alloc, 3, 1)?;
    let none_yet = kept(&mut buffers, 1, 0).is_none();
    read(&mut buffers, &mut disk, 1, 1, 0).ok()?;
    let first = kept(&mut buffers, 1, 0) == Some(4);
    let last = kept(&mut buffers, 1, 2) == Some(6);
    let too_many = kept(&mut buffers, 1, 3).is_none();
    let other = kept(&mut buffers, 2, 0).is_none();
    Some(none_yet && first && last && too_many && other)
}

#[test]
fn a_kept_block_gives_the_data_of_its_records(rt: HostRuntime) {
    assert!(rt; gives_kept_data(rt.alloc()) == Some(true));
}

// A block of two sectors after its container's first byte, with one record of 500 bytes.
fn long_block() -> [u8; 1024] {
    let mut bytes = [0; 1024];
    bytes[..16].copy_from_slice(&[0xA5, 1, 2, 0, 1, 0, 0, 0, 40, 2, 0, 0, 0, 0, 0, 0]);
    bytes[16..24].copy_from_slice(&[244, 1, 0, 0, 1, 0, 1, 0]);
    bytes[508] = 1;
    bytes[1017] = 2;
    bytes[1020] = 1;
    bytes
}

// A block of two sectors that is thought to have so many bytes is read by a disk that passes so many calls.
fn long_is_read(alloc: Global, expected: u32, passes: u64) -> Option<bool> {
    let mut inner = disk(alloc, 2)?;
    inner.write(1, 0, &long_block()).ok()?;
    let mut disk = Fuse::new(inner, passes);
    let mut buffers = Buffers::new(alloc, 1).ok()?;
    Some(read_expecting(&mut buffers, &mut disk, 1, 0, 0, expected).is_ok())
}

// The bytes that are expected of a block of two sectors, and the calls that are enough.
const EXPECTED: [(u32, u64); 5] = [(0, 2), (512, 2), (513, 2), (1024, 1), (u32::MAX, 1)];

#[test]
fn a_block_longer_than_expected_is_read_by_two_calls(rt: HostRuntime) {
    for (expected, calls) in EXPECTED {
        for passes in 0..3 {
            assert!(rt;
                long_is_read(rt.alloc(), expected, passes) == Some(passes >= calls),
                "{expected} bytes expected, {passes} calls"
            );
        }
    }
}

// Of forty blocks that are read one after the other just the last ones are kept, as many as are to be.
fn keeps_the_last(alloc: Global, most: u32) -> Option<bool>
    requires { 1 ≤ most }
{
    let mut buffers = Buffers::new(alloc, most).ok()?;
    let mut disk = Fuse::new(disk(alloc, 40)?, 40);
    for sector in 0..40 {
        read(&mut buffers, &mut disk, 1, sector, 0).ok()?;
    }
    let mut are_right = true;
    for back in 0..40 {
        let found = read(&mut buffers, &mut disk, 1, 39 - back, 0);
        are_right = are_right && found.is_ok() == (back as u32 + 1 <= most);
    }
    Some(are_right)
}

#[test]
fn as_many_blocks_are_kept_as_asked_for(rt: HostRuntime) {
    for most in [1, 2, 33] {
        assert!(rt;
            keeps_the_last(rt.alloc(), most) == Some(true),
            "{most} blocks"
        );
    }
}

// Reads the first 32 blocks of container 2, one of them again, and the 33rd, so that one of them goes.
fn fill(buffers: &mut Buffers, disk: &mut Fuse<Steady>, again: u8) -> bool {
    let mut are_read = true;
    for sector in 0..32 {
        are_read = are_read && read(buffers, disk, 2, sector, 0).is_ok();
    }
    are_read && read(buffers, disk, 2, again, 1).is_ok() && read(buffers, disk, 2, 32, 0).is_ok()
}

// Of 33 blocks all but one are kept, and have their data byte.
fn is_gone_alone(buffers: &mut Buffers, disk: &mut Fuse<Steady>, gone: u8) -> bool {
    for sector in 0..33 {
        let found = read(buffers, disk, 2, sector, 2);
        let is_right = if sector == gone {
            found.is_err()
        } else {
            found == Ok(4 * sector + 2)
        };
        if !is_right {
            return false;
        }
    }
    true
}

fn goes(alloc: Global, again: u8, gone: u8) -> Option<bool> {
    let (mut buffers, mut disk) = start(alloc, 33, 33)?;
    Some(fill(&mut buffers, &mut disk, again) && is_gone_alone(&mut buffers, &mut disk, gone))
}

#[test]
fn the_block_that_was_used_longest_ago_goes(rt: HostRuntime) {
    // the block that is read once more before the last one, and the one that is then gone
    for (again, gone) in [(31, 0), (0, 1), (1, 0)] {
        assert!(rt; goes(rt.alloc(), again, gone) == Some(true), "block {gone}");
    }
}

// The first records of three blocks are read where the disk passes a call for each, and else fail.
fn are_as_passed(buffers: &mut Buffers, disk: &mut Fuse<Steady>, passes: u64) -> bool {
    for sector in 0..3 {
        let want = if (sector as u64) < passes {
            Ok(4 * sector)
        } else {
            Err(ReadRefusal::DiskFault)
        };
        if read(buffers, disk, 1, sector, 0) != want {
            return false;
        }
    }
    true
}

// It's so twice.
fn are_kept(alloc: Global, passes: u64) -> Option<bool> {
    let (mut buffers, mut disk) = start(alloc, 3, passes)?;
    let at_first = are_as_passed(&mut buffers, &mut disk, passes);
    Some(at_first && are_as_passed(&mut buffers, &mut disk, passes))
}

#[test]
fn a_fault_leaves_what_is_kept(rt: HostRuntime) {
    for passes in 0..4 {
        assert!(rt;
            are_kept(rt.alloc(), passes) == Some(true),
            "{passes} calls"
        );
    }
}

// A byte of the block, what stands there, and the byte at which damage is told.
const TABLE: [(u64, u8, u32); 25] = [
    (0, 0xA4, 0),
    (1, 2, 1),
    (2, 0, 2),
    (2, 3, 2),
    (4, 0, 4),
    (5, 2, 4),
    (7, 1, 6),
    (9, 2, 8),
    (15, 1, 12),
    (504, 1, 504),
    (17, 1, 16),
    (20, 0, 20),
    (20, 3, 20),
    (62, 3, 62),
    (63, 1, 63),
    (28, 1, 24),
    (36, 1, 32),
    (40, 1, 40),
    (49, 1, 49),
    (135, 1, 135),
    (4, 2, 8),
    (4, 4, 136),
    (8, 144, 8),
    (136, 1, 136),
    (503, 1, 503),
];

// What the first record of a block is answered, of which one byte is this.
fn answer(buffers: &mut Buffers, disk: &mut Steady, byte: u64, value: u8) -> Option<ReadRefusal> {
    disk.write(1, 0, &block(1, 0)).ok()?;
    disk.write(1, byte, &[value]).ok()?;
    read(buffers, disk, 1, 0, 0).err()
}

// The third record is read once the block is whole again.
fn is_whole_again(buffers: &mut Buffers, disk: &mut Steady) -> bool {
    disk.write(1, 0, &block(1, 0)).is_ok() && read(buffers, disk, 1, 0, 2) == Ok(2)
}

#[test]
fn damage_is_told_where_the_first_check_fails(rt: HostRuntime) -> Result<(), AllocError> {
    let mut buffers = Buffers::new(rt.alloc(), 32)?;
    let Some(mut disk) = disk(rt.alloc(), 1) else {
        panic!(rt; "no disk was made");
    };
    for (byte, value, at) in TABLE {
        assert!(rt;
            answer(&mut buffers, &mut disk, byte, value) == Some(ReadRefusal::Damaged { at }),
            "byte {byte} is {value}"
        );
    }
    assert!(rt; is_whole_again(&mut buffers, &mut disk));
    Ok(())
}

// What is told of a block in a file that ends after so many bytes, of which the first opens its gate.
fn answer_of_short(alloc: Global, len: u64) -> Option<ReadRefusal> {
    let mut buffers = Buffers::new(alloc, 32).ok()?;
    let mut disk = Steady::new(alloc).ok()?;
    disk.grow(1, len).ok()?;
    if len > 0 {
        disk.write(1, 0, &[0xA5]).ok()?;
    }
    read(&mut buffers, &mut disk, 1, 0, 0).err()
}

#[test]
fn bytes_that_are_not_there_are_damage(rt: HostRuntime) {
    for len in [0, 1, 511] {
        let want = ReadRefusal::Damaged { at: len as u32 };
        assert!(rt; answer_of_short(rt.alloc(), len) == Some(want));
    }
}

// The blocks may be handed to another thread.
fn is_sent<T: Send>(value: T) -> T {
    value
}

#[test]
fn buffers_are_sent(rt: HostRuntime) -> Result<(), AllocError> {
    let mut buffers = is_sent(Buffers::new(rt.alloc(), 32)?);
    let Some(mut disk) = disk(rt.alloc(), 1) else {
        panic!(rt; "no disk was made");
    };
    assert!(rt; has_byte(&mut buffers, &mut disk, 0, 1, 1));
    Ok(())
}
