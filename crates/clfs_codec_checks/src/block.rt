ghost use Rattle.std.specs.Prelude.{◌≤◌, length};

use clfs_block::{BlockBuilder, BlockHead, BlockRefusal, decode_block};
use clfs_lsn::{Bytes, Lsn, Shape, own};
use std::alloc::{AllocError, Global};

const SHAPE: Shape = Shape {
    block_sectors: 2,
    container_sectors: 8,
};

// The header of a block of one sector with one record of ten bytes, 0 to 9, and the record.
const FRONT: [u8; 64] = [
    0xA5, 1, 1, 0, 1, 0, 0, 0, 64, 0, 0, 0, 0, 0, 0, 0, 10, 0, 0, 0, 1, 0, 1, 0, 0, 0, 0, 0, 0, 0,
    0, 0, 0, 0, 0, 0, 0, 0, 0, 0, 0, 0, 0, 0, 0, 0, 0, 0, 0, 1, 2, 3, 4, 5, 6, 7, 8, 9, 0, 0, 0, 0,
    0, 0,
];

// The whole block at container 1, offset 0: zeros up to the address, 2^32.
fn block() -> [u8; 512] {
    let mut bytes = [0; 512];
    bytes[..64].copy_from_slice(&FRONT);
    bytes[508] = 1;
    bytes
}

fn decode(alloc: Global, bytes: &[u8]) -> (Result<BlockHead, BlockRefusal>, Bytes) {
    let mut payload = Bytes::new(alloc);
    let head = decode_block(alloc, &SHAPE, Lsn::of_number(1 << 32), bytes, &mut payload);
    (head, payload)
}

// The bytes of a sealed block at container 1, offset 0, with one record that is spelled so.
fn sealed(alloc: Global, spelling: &[u8]) -> Option<Vec<u8>>
    requires { length spelling.now ≤ 992 }
{
    let mut builder = BlockBuilder::new(alloc, &SHAPE).ok()?;
    builder.push(spelling);
    builder.seal(Lsn::of_number(1 << 32));
    Vec::from_slice(alloc, builder.bytes()).ok()
}

// One record is written as the block is, but for the gate.
fn is_written(alloc: Global) -> Option<bool> {
    let bytes = sealed(alloc, &FRONT[16..])?;
    Some(
        bytes.len() == 513
            && bytes[0] == 0
            && bytes[512] == 0
            && bytes[1..].starts_with(&block()[1..]),
    )
}

#[test]
fn a_block_is_written_and_read(rt: HostRuntime) {
    let alloc = rt.alloc();
    assert!(rt; is_written(alloc) == Some(true));
    let (head, payload) = decode(alloc, &block());
    let whole = BlockHead {
        sectors: 1,
        records: 1,
        used: 64,
    };
    assert!(rt; head == Ok(whole) && payload.as_slice() == FRONT.as_slice());
}

// What raising the byte at a place by one does: a closed gate, nothing that this call judges, or damage told at a byte.
fn answer(raised: u32) -> Option<BlockRefusal> {
    let at = match raised {
        0 => return Some(BlockRefusal::Closed),
        4 | 5 | 8 | 9 | 16..=63 => return None,
        2 | 10 | 11 => 8,
        3 => 2,
        6 | 7 => 6,
        12..=15 => 12,
        504..=511 => 504,
        _ => raised,
    };
    Some(BlockRefusal::BadByte { at })
}

// A length, the sectors that are left, and whether a first record fits.
const FITS: [(u32, u32, bool); 6] = [
    (960, 2, true),
    (961, 2, false),
    (960, 1, false),
    (456, 1, true),
    (457, 1, false),
    (0, 0, false),
];

// A builder takes the largest record, is emptied, and takes the small one. What it then seals is the block of that record alone.
fn is_filled_and_emptied(alloc: Global, want: &[u8]) -> Result<bool, AllocError> {
    let mut builder = BlockBuilder::new(alloc, &SHAPE)?;
    builder.push(&[7; 992]);
    let is_full = !builder.fits(0, 2);
    builder.clear();
    let is_empty = builder.fits(960, 2);
    builder.push(&FRONT[16..]);
    let has_room = builder.fits(408, 1) && !builder.fits(409, 1);
    builder.seal(Lsn::of_number(1 << 32));
    Ok(is_full && is_empty && has_room && builder.bytes() == want)
}

#[test]
fn a_builder_is_filled_and_emptied(rt: HostRuntime) -> Result<(), AllocError> {
    let builder = BlockBuilder::new(rt.alloc(), &SHAPE)?;
    for (len, left, fits) in FITS {
        assert!(rt; builder.fits(len, left) == fits, "{len} {left}");
    }
    let Some(want) = sealed(rt.alloc(), &FRONT[16..]) else {
        panic!(rt; "no block was made");
    };
    assert!(rt; is_filled_and_emptied(rt.alloc(), &want)?);
    Ok(())
}

#[test]
fn each_byte_is_checked(rt: HostRuntime) {
    for raised in 0..512 {
        let mut bytes = block();
        bytes[raised as usize] = bytes[raised as usize].wrapping_add(1);
        let (head, _) = decode(rt.alloc(), &bytes);
        assert!(rt; head.err() == answer(raised), "byte {raised} raised");
    }
}

// The bytes of a block of two sectors whose gate is this.
fn two_sectors(alloc: Global, gate: u8) -> Option<Vec<u8>> {
    let mut bytes = sealed(alloc, &[7; 992])?;
    *bytes.first_mut()? = gate;
    Some(bytes)
}

fn is_whole(alloc: Global, bytes: &[u8]) -> bool {
    let (head, payload) = decode(alloc, bytes);
    head.is_ok() && payload.len() == 1008 && payload.as_slice().ends_with(&[7; 992])
}

// The block is refused at this byte.
fn is_refused(alloc: Global, bytes: &[u8], at: u32) -> bool {
    let (head, _) = decode(alloc, bytes);
    head == Err(BlockRefusal::BadByte { at })
}

fn is_closed(alloc: Global, bytes: &[u8]) -> bool {
    let (head, _) = decode(alloc, bytes);
    head == Err(BlockRefusal::Closed)
}

// It's refused where it ends after so many bytes.
fn is_refused_short(alloc: Global, bytes: &[u8], short: u32) -> bool {
    match bytes.get(..short as usize) {
        Some(front) => is_refused(alloc, front, short),
        None => false,
    }
}

// The address of the second sector.
fn has_address(bytes: &[u8]) -> bool {
    bytes.get(1016..1024) == Some([0, 2, 0, 0, 1, 0, 0, 0].as_slice())
}

fn is_refused_with_another_address(alloc: Global) -> Option<bool> {
    let mut bytes = two_sectors(alloc, 0xA5)?;
    *bytes.get_mut(1016)? = 9;
    Some(is_refused(alloc, &bytes, 1016))
}

#[test]
fn two_sectors_are_filled_and_checked(rt: HostRuntime) {
    let alloc = rt.alloc();
    assert!(rt; own(456) + own(457) == 3);
    let (Some(closed), Some(open)) = (two_sectors(alloc, 0), two_sectors(alloc, 0xA5)) else {
        panic!(rt; "no block was made");
    };
    assert!(rt; closed.len() == 1025 && is_closed(alloc, &closed));
    assert!(rt; is_whole(alloc, &open) && has_address(&open));
    for short in [0, 1, 511, 512, 1023] {
        assert!(rt; is_refused_short(alloc, &open, short), "{short} bytes");
    }
    assert!(rt; is_refused_with_another_address(alloc) == Some(true));
}
