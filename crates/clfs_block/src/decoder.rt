// Reading a block. The checks go from the first byte on, and the payload is filled before its
// unused end is checked, so that a caller can judge the records first.
ghost use Rattle.std.specs.Prelude.{◌≡◌, ◌⊎◌, ◌+◌, ◌-◌, ◌*◌, ◌/◌, ◌%◌, ◌^◌, ◌<◌, ◌≤◌, ◌++◌, ◌==◌, ◌||◌, ℕ, List, length, take, drop, slice_index, Some, None, IfOk, IfSome, OnOk, OnErr, Ok, Err};
ghost use Rattle.std.specs.List.{list_all};
ghost use Rattle.clfs_lsn.specs.Format.{sector_bytes, block_header, open_gate};
ghost use Rattle.clfs_lsn.specs.Limits.{most_block_records};
ghost use Rattle.clfs_lsn.specs.Size.{sectors};
ghost use Rattle.clfs_block.specs.Frame.{place_of, payload_of, address, address_in, used_bytes, used_payload, SpellsBlock};
ghost use Rattle.clfs_block.specs.Checks.{head_of, is_wrong_count, is_wrong_records, head_fault, head_for, IsCount, wrong_sector, first_failing, sectors_at, frame_at, rest_at, block_at, IsFramed, IsWrongBehind};
ghost use Rattle.clfs_block.specs.declared.head.BlockRefusal.TheVariants.{NoMemory, BadByte, Closed};

use crate::framing::copy_payload;
use crate::head::{BlockHead, BlockRefusal};
use crate::{PAYLOAD, SECTOR};
use byteorder::{ByteOrder, LittleEndian};
use clfs_lsn::{Bytes, Lsn, MOST_BLOCK_RECORDS, OPEN_GATE, Shape, sectors_of};
use std::alloc::{AllocError, Global};
use std::mem;

/// The block at the front of bytes that are to hold one at this place, all checked but its records. Its used payload, of
/// which the first 16 bytes are the header, takes the place of what `payload` held, before the bytes after it are checked. The log makes
/// its parts one by one and doesn't call it: it is for other programs that read blocks.
pub fn decode_block(
    alloc: Global,
    shape: &Shape,
    start: Lsn,
    bytes: &[u8],
    payload: &mut Bytes,
) -> Result<BlockHead, BlockRefusal>
    // Where no memory is left nothing has changed; else the answer is the first check that fails, or the block.
    ensures exact { (result ≡ Err NoMemory) ⊎ (result ≡ block_at shape.now start bytes.now) }

    // What is read is spelled so, where the used bytes have a whole header.
    ensures found { IfOk result (λ head. block_header ≤ head.used → (used_bytes (drop block_header payload.new) ≡ head.used)
        × SpellsBlock start open_gate head.records (drop block_header payload.new) (take (sector_bytes * head.sectors) bytes.now)) }

    // What is spelled so is read, whatever follows it, where the block is none too large for the log and its container.
    ensures only { (records : ℕ) (content block more : List ℕ) → SpellsBlock start open_gate records content block
        → (1 ≤ records) × (records ≤ most_block_records) → IsCount shape.now start (sectors (used_bytes content)) → bytes.now ≡ block ++ more
        → (result ≡ Err NoMemory)
        ⊎ ((result ≡ Ok (head_for records content)) × (payload.new ≡ used_payload open_gate records content)) }

    // The head of a block is right, its sectors are there, and its used payload begins with the header.
    ensures framed { IfOk result (λ head. IsFramed shape.now start bytes.now head payload.new) }

    // The payload is filled where all up to the addresses is right, and else as it was. So where it isn't as it was, what is
    // wrong is a byte after the used ones, and its records can be judged.
    ensures filled { (head : BlockHead) → frame_at shape.now start bytes.now ≡ Ok head → (result ≡ Err NoMemory → ⊥)
        → IsFramed shape.now start bytes.now head payload.new }
    ensures wrong { (at : ℕ) → result ≡ Err (BadByte at) → (payload.new ≡ payload.old)
        ⊎ IsWrongBehind shape.now start bytes.now payload.new at }
    ensures closed { result ≡ Err Closed → payload.new ≡ payload.old }
    ensures kept { (refusal : BlockRefusal) → frame_at shape.now start bytes.now ≡ Err refusal → payload.new ≡ payload.old }
    ensures no_memory { result ≡ Err NoMemory → payload.new ≡ payload.old }
{
    let head = frame(shape, start, bytes)?;
    fill_payload(alloc, bytes, head, payload)?;
    check_rest(bytes, head)
}

/// The checks of a block up to its sectors' addresses, for who judges the records before the bytes after them. What is known of a head
/// that passes is what `fill_payload` and `check_rest` ask of it.
pub fn check_frame(shape: &Shape, start: Lsn, bytes: &[u8]) -> Result<BlockHead, BlockRefusal>
    ensures exact { result ≡ frame_at shape.now start bytes.now }
    ensures framed { IfOk result (λ head. IsFramed shape.now start bytes.now head (payload_of head.used bytes.now)) }
{
    frame(shape, start, bytes)
}

// The checks up to the sectors' addresses.
#[tactic(auto, unfolding(crate::specs::Checks::frame_at))]
fn frame(shape: &Shape, start: Lsn, bytes: &[u8]) -> Result<BlockHead, BlockRefusal>
    ensures exact { result ≡ frame_at shape.now start bytes.now }
    ensures whole { IfOk result (λ head. sector_bytes * head.sectors ≤ length bytes.now) }
    ensures used { IfOk result (λ head. sectors head.used ≡ head.sectors) }
    ensures some { IfOk result (λ head. (1 ≤ head.sectors) × (head.sectors < 2 ^ 16)) }
{
    if bytes.is_empty() {
        return Err(BlockRefusal::BadByte { at: 0 });
    }
    if bytes[0] != OPEN_GATE {
        return Err(BlockRefusal::Closed);
    }
    if bytes.len() < SECTOR {
        let at = bytes.len() as u32;
        return Err(BlockRefusal::BadByte { at });
    }
    if let Some(at) = wrong_header(shape, start, bytes) {
        return Err(BlockRefusal::BadByte { at });
    }
    checked_sectors(start, bytes, read_head(bytes))
}

// The numbers of the header.
fn read_head(bytes: &[u8]) -> BlockHead
    requires { sector_bytes ≤ length bytes.now }
    ensures value { result ≡ head_of bytes.now }
    ensures small { result.sectors < 2 ^ 16 }
{
    BlockHead {
        sectors: LittleEndian::read_u16(&bytes[2..]) as u32,
        records: LittleEndian::read_u16(&bytes[4..]) as u32,
        used: LittleEndian::read_u32(&bytes[8..]),
    }
}

// The byte at which the header is wrong first.
fn wrong_header(shape: &Shape, start: Lsn, bytes: &[u8]) -> Option<u32>
    requires { sector_bytes ≤ length bytes.now }
    ensures { result ≡ head_fault shape.now start bytes.now }
{
    let head = read_head(bytes);
    if bytes[1] != 1 {
        Some(1)
    } else if is_wrong_count(shape, start, head.sectors) {
        Some(2)
    } else if is_wrong_records(head.records) {
        Some(4)
    } else if LittleEndian::read_u16(&bytes[6..]) != 0 {
        Some(6)
    } else if sectors_of(head.used as u64) != head.sectors as u64 {
        Some(8)
    } else if LittleEndian::read_u32(&bytes[12..]) != 0 {
        Some(12)
    } else {
        None
    }
}

// Whether no block at this place can have so many sectors.
fn is_wrong_count(shape: &Shape, start: Lsn, count: u32) -> bool
    ensures { result ≡ is_wrong_count shape.now start count }
{
    let left = shape
        .container_sectors
        .saturating_sub(start.offset() / SECTOR as u32);
    count == 0 || (shape.block_sectors < count || left < count)
}

// Whether no block can have so many records.
fn is_wrong_records(records: u32) -> bool
    ensures { result ≡ is_wrong_records records }
{
    records == 0 || MOST_BLOCK_RECORDS < records
}

// The sectors are there and have their addresses.
#[tactic(auto, unfolding(crate::specs::Checks::sectors_at))]
fn checked_sectors(start: Lsn, bytes: &[u8], head: BlockHead) -> Result<BlockHead, BlockRefusal>
    requires { head.sectors < 2 ^ 16 }
    ensures exact { result ≡ sectors_at start bytes.now head }
    ensures head { IfOk result (λ h. h ≡ head) }
    ensures whole { OnOk result (sector_bytes * head.sectors ≤ length bytes.now) }
{
    if bytes.len() < SECTOR * head.sectors as usize {
        let at = bytes.len() as u32;
        return Err(BlockRefusal::BadByte { at });
    }
    if let Some(sector) = first_wrong_sector(start, bytes, head.sectors) {
        let at = SECTOR as u32 * sector + PAYLOAD as u32;
        return Err(BlockRefusal::BadByte { at });
    }
    Ok(head)
}

// The first sector whose address is wrong.
fn first_wrong_sector(start: Lsn, bytes: &[u8], count: u32) -> Option<u32>
    requires count { count < 2 ^ 16 }
    requires whole { sector_bytes * count ≤ length bytes.now }
    ensures exact { result ≡ wrong_sector start bytes.now count }
    ensures few { IfSome result (λ sector. sector < count) }
{
    let first = Lsn::from_parts(start.container(), start.offset(), 0).number();
    for sector in 0..count {
        if !has_address(bytes, sector, first) {
            return Some(sector);
        }
    }
    None
}

// Whether a sector has its address, that of the first sector given.
fn has_address(bytes: &[u8], sector: u32, first: u64) -> bool
    requires { sector_bytes * sector + sector_bytes ≤ length bytes.now }
    ensures { result ≡ (address_in bytes.now sector == first + sector_bytes * sector) }
{
    let found = LittleEndian::read_u64(&bytes[SECTOR * sector as usize + PAYLOAD..]);
    match first.checked_add(SECTOR as u64 * sector as u64) {
        Some(address) => found == address,
        None => false,
    }
}

/// Puts the used payload of a block, of which the first 16 bytes are the header, in the place of what was there. Memory is taken only where
/// there isn't enough.
pub fn fill_payload(
    alloc: Global,
    bytes: &[u8],
    head: BlockHead,
    payload: &mut Bytes,
) -> Result<(), AllocError>
    requires whole { sector_bytes * head.sectors ≤ length bytes.now }
    requires used { sectors head.used ≡ head.sectors }
    ensures ok { OnOk result (payload.new ≡ payload_of head.used bytes.now) }
    ensures err { OnErr result (payload.new ≡ payload.old) }
{
    let mut out = mem::replace(payload, Bytes::new(alloc)).into_vec();
    let filled = fill_vec(&mut out, bytes, head.used as usize);
    *payload = Bytes::from_vec(out);
    filled
}

fn fill_vec(out: &mut Vec<u8>, bytes: &[u8], used: usize) -> Result<(), AllocError>
    requires { place_of used ≤ length bytes.now }
    ensures ok { OnOk result (out.new.items ≡ payload_of used bytes.now) }
    ensures err { OnErr result (out.new.items ≡ out.old.items) }
{
    out.reserve(used.saturating_sub(out.len()))?;
    out.clear();
    copy_payload(out, bytes, 0, used);
    Ok(())
}

/// The byte of a block that holds a byte of its payload.
pub fn byte_of(p: u32) -> u32
    requires { p < 2 ^ 31 }
    ensures { result ≡ place_of p }
{
    SECTOR as u32 * (p / PAYLOAD as u32) + p % PAYLOAD as u32
}

/// The last check of a block: the payload after its used bytes is zero.
pub fn check_rest(bytes: &[u8], head: BlockHead) -> Result<BlockHead, BlockRefusal>
    requires whole { sector_bytes * head.sectors ≤ length bytes.now }
    requires used { sectors head.used ≡ head.sectors }
    requires some { (1 ≤ head.sectors) × (head.sectors < 2 ^ 16) }
    ensures { result ≡ rest_at bytes.now head }
{
    // The used bytes end in the last sector.
    let last = head.sectors - 1;
    let from = SECTOR as u32 * last + (head.used - PAYLOAD as u32 * last);
    let end = SECTOR as u32 * last + PAYLOAD as u32;
    match first_other_byte(bytes, from, end) {
        Some(at) => Err(BlockRefusal::BadByte { at }),
        None => Ok(head),
    }
}

// Whether all bytes are 0. No test stands between them, so that many are taken in one step.
fn are_zeros(bytes: &[u8]) -> bool
    ensures { result ≡ list_all (λ byte. byte == 0) bytes.now }
{
    let mut joined = 0;
    for byte in bytes {
        joined |= *byte;
    }
    joined == 0
}

// The first byte in a range that isn't 0.
fn first_other_byte(bytes: &[u8], from: u32, end: u32) -> Option<u32>
    requires range { from ≤ end }
    requires whole { end ≤ length bytes.now }
    ensures { result ≡ first_failing (λ at. slice_index bytes.now at == 0) from (end - from) }
{
    if are_zeros(&bytes[from as usize..end as usize]) {
        return None;
    }
    for at in from..end {
        if bytes[at as usize] != 0 {
            return Some(at);
        }
    }
    None
}
