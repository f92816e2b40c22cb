// Judging a block, and gathering its payload.
ghost use Rattle.std.specs.Prelude.{◌≡◌, ◌++◌, ◌&&◌, nat_le, true, false, if◌then◌else◌, length, drop};
ghost use Rattle.clfs_block.specs.Frame.{place_of, payload_of};
ghost use Rattle.clfs_block.specs.Checks.{frame_at, rest_at};
ghost use Rattle.clfs_block.specs.declared.head.BlockHead.{BlockHead};
ghost use Rattle.clfs_read.specs.Answers.{unfit, shape_of, head_from, no_block, block_told, fits_in, rest_told};

use crate::answers::{RIGHT, SHUT, UNFIT, WRONG};
use clfs_block::{BlockHead, BlockRefusal, check_frame, check_rest, gather_payload};
use clfs_lsn::{Lsn, SECTOR, SECTOR_PAYLOAD, Shape, sectors_of};

/// How large the blocks and the containers of a log are, as its base file says.
#[repr(C)]
#[derive(Drop)]
pub struct Measures {
    /// The sectors of the largest block.
    pub block_sectors: u32,
    /// The sectors of a container.
    pub container_sectors: u32,
}

/// What a block's header says of it.
#[repr(C)]
#[derive(Drop)]
pub struct Block {
    /// Its sectors of 512 bytes.
    pub sectors: u32,
    /// Its records.
    pub records: u32,
    /// Its used bytes of payload, the 16 of the header among them.
    pub used: u32,
    /// The first wrong byte of the block; 0 where none is.
    pub bad_at: u32,
}

/// Judges the block that is to begin at an LSN in a log of this shape, at the front of bytes: its gate, its header and its sectors'
/// addresses, in the order of the log. `clfs_record_next` judges its records, and `clfs_block_rest` what is after them.
#[unsafe(no_mangle)]
pub extern "C" fn clfs_block_check(
    measures: &Measures,
    start: u64,
    bytes: &[u8],
    out: &mut Block,
) -> u32
    ensures exact { (result, out.new) ≡ block_told (frame_at (shape_of measures.now) start bytes.now) }
{
    let shape = Shape {
        block_sectors: measures.block_sectors,
        container_sectors: measures.container_sectors,
    };
    match check_frame(&shape, Lsn::of_number(start), bytes) {
        Ok(head) => tell(head, out),
        Err(BlockRefusal::BadByte { at }) => refuse(WRONG, at, out),
        Err(BlockRefusal::Closed) => refuse(SHUT, 0, out),
        Err(BlockRefusal::NoMemory) => refuse(UNFIT, 0, out),
    }
}

fn tell(head: BlockHead, out: &mut Block) -> u32
    ensures code { result ≡ 0 }
    ensures block { out.new ≡ record { sectors = head.sectors; records = head.records; used = head.used; bad_at = 0 } }
{
    *out = Block {
        sectors: head.sectors,
        records: head.records,
        used: head.used,
        bad_at: 0,
    };
    RIGHT
}

fn refuse(code: u32, at: u32, out: &mut Block) -> u32
    ensures code { result ≡ code }
    ensures none { out.new ≡ no_block at }
{
    *out = Block {
        sectors: 0,
        records: 0,
        used: 0,
        bad_at: at,
    };
    code
}

/// Judges what is after the used payload of a block that `clfs_block_check` found right in these bytes: zeros. The log judges it after
/// the records. Numbers of a block that can't stand in the bytes are no block's.
#[unsafe(no_mangle)]
pub extern "C" fn clfs_block_rest(block: &Block, bytes: &[u8], bad_at: &mut u32) -> u32
    ensures exact { (result, bad_at.new) ≡ (if fits_in block.now (length bytes.now)
        then rest_told (rest_at bytes.now (head_from block.now)) else (unfit, 0)) }
{
    *bad_at = 0;
    if !fits_in(block, bytes.len()) {
        return UNFIT;
    }
    match check_rest(bytes, head_from(block)) {
        Ok(_) => RIGHT,
        Err(BlockRefusal::BadByte { at }) => {
            *bad_at = at;
            WRONG
        }
        Err(BlockRefusal::Closed) => UNFIT,
        Err(BlockRefusal::NoMemory) => UNFIT,
    }
}

fn head_from(block: &Block) -> BlockHead
    ensures { result ≡ head_from block.now }
{
    BlockHead {
        sectors: block.sectors,
        records: block.records,
        used: block.used,
    }
}

// Whether a block with these numbers can stand in so many bytes.
fn fits_in(block: &Block, len: usize) -> bool
    ensures { result ≡ fits_in block.now len }
{
    1 <= block.sectors
        && (block.sectors < 1 << 16
            && (SECTOR as usize * block.sectors as usize <= len
                && sectors_of(block.used as u64) == block.sectors as u64))
}

/// Gathers so many bytes of a block's payload, without the sectors' addresses, over the first bytes of `payload`. False, and nothing is
/// written, where the block's bytes or the room are too few.
#[unsafe(no_mangle)]
pub extern "C" fn clfs_block_gather(bytes: &[u8], used: u32, payload: &mut [u8]) -> bool
    ensures exact { result ≡ (nat_le (place_of used) (length bytes.now) && nat_le used (length payload.old)) }
    ensures gathered { result ≡ true → payload.new ≡ payload_of used bytes.now ++ drop used payload.old }
    ensures kept { result ≡ false → payload.new ≡ payload.old }
{
    if !has_room(bytes, used, payload) {
        return false;
    }
    gather_payload(bytes, used as usize, payload);
    true
}

// Whether so many bytes of payload stand in a block's bytes, and have room.
fn has_room(bytes: &[u8], used: u32, payload: &[u8]) -> bool
    ensures { result ≡ (nat_le (place_of used) (length bytes.now) && nat_le used (length payload.now)) }
{
    let place = SECTOR as usize * (used / SECTOR_PAYLOAD) as usize
        + (used % SECTOR_PAYLOAD) as usize;
    place <= bytes.len() && used as usize <= payload.len()
}
