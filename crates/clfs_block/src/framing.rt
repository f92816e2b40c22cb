// A block in a buffer whose memory was taken before. It begins at a byte of the buffer, after blocks that may stand there already, and
// takes its payload piece by piece: each byte is put at its place in the sectors, so that ending the block only writes the header, the
// zeros after the records and the addresses. What stands before the block stays as it is.
ghost use Rattle.std.specs.Prelude.{◌≡◌, ◌+◌, ◌-◌, ◌*◌, ◌/◌, ◌%◌, ◌^◌, ◌<◌, ◌≤◌, ◌++◌, ℕ, List, length, take, drop, slice_index, vec_len, vec_capacity};
ghost use Rattle.byteorder.specs.Endian.{little_bytes};
ghost use Rattle.clfs_lsn.specs.Format.{sector_bytes, sector_payload, block_header};
ghost use Rattle.clfs_lsn.specs.Limits.{most_block_sectors, most_container_sectors, most_block_records};
ghost use Rattle.clfs_lsn.specs.Lsn.{offset_of};
ghost use Rattle.clfs_lsn.specs.Size.{sectors};
ghost use Rattle.clfs_block.specs.Frame.{place_of, payload_of, payload_from, address, address_in, head_bytes, SpellsBlock};

use crate::{HEADER, PAYLOAD, SECTOR};
use byteorder::{ByteOrder, LittleEndian};
use clfs_lsn::{Lsn, push_reserved, push_zeros, sectors_of};

// The bytes of a sector's address.
const ADDRESS: usize = SECTOR - PAYLOAD;

/// Puts bytes at their places after so many bytes of payload of the block that begins at byte `from` of the buffer. After a full sector
/// comes the room of its address.
pub fn push_payload(buffer: &mut Vec<u8>, from: usize, used: usize, more: &[u8])
    requires place { length buffer.old.items ≡ from + place_of used }
    requires room { from + place_of (used + length more.now) ≤ vec_capacity buffer.old }
    ensures place { length buffer.new.items ≡ from + place_of (used + length more.now) }
    ensures before { take from buffer.new.items ≡ take from buffer.old.items }
    ensures payload { payload_of (used + length more.now) (drop from buffer.new.items) ≡ payload_of used (drop from buffer.old.items) ++ more.now }
    ensures capacity { vec_capacity buffer.old ≤ vec_capacity buffer.new }
{
    let mut rest = more;
    let mut at = used;
    while !rest.is_empty() {
        let count = rest.len().min(PAYLOAD - at % PAYLOAD);
        let (now, later) = rest.split_at(count);
        push_part(buffer, from, at, now);
        at += count;
        rest = later;
    }
}

// Puts bytes after so many bytes of payload in their sector. After a full sector comes the room of its address.
fn push_part(buffer: &mut Vec<u8>, from: usize, used: usize, part: &[u8])
    requires place { length buffer.old.items ≡ from + place_of used }
    requires sector { used % sector_payload + length part.now ≤ sector_payload }
    requires room { from + place_of (used + length part.now) ≤ vec_capacity buffer.old }
    ensures place { length buffer.new.items ≡ from + place_of (used + length part.now) }
    ensures before { take from buffer.new.items ≡ take from buffer.old.items }
    ensures payload { payload_of (used + length part.now) (drop from buffer.new.items) ≡ payload_of used (drop from buffer.old.items) ++ part.now }
    ensures capacity { vec_capacity buffer.old ≤ vec_capacity buffer.new }
{
    push_reserved(buffer, part);
    if used % PAYLOAD + part.len() == PAYLOAD {
        push_zeros(buffer, ADDRESS);
    }
}

/// Ends the block that begins at byte `from` of the buffer, at its place in the log: writes the header with this gate, the zeros after
/// so many bytes of payload, and the addresses.
pub fn seal_block(
    buffer: &mut Vec<u8>,
    from: usize,
    start: Lsn,
    gate: u8,
    records: u32,
    used: usize,
)
    requires place { length buffer.old.items ≡ from + place_of used }
    requires header { block_header ≤ used }
    requires few { sectors used ≤ most_block_sectors }
    requires records { records ≤ most_block_records }
    requires room { from + sector_bytes * sectors used ≤ vec_capacity buffer.old }
    requires container { offset_of start / sector_bytes + sectors used ≤ most_container_sectors }
    ensures length { length buffer.new.items ≡ from + sector_bytes * sectors used }
    ensures sealed { (block : List ℕ) × (buffer.new.items ≡ take from buffer.old.items ++ block)
        × SpellsBlock start gate records (drop block_header (payload_of used (drop from buffer.old.items))) block }
    ensures capacity { vec_capacity buffer.old ≤ vec_capacity buffer.new }
{
    let count = sectors_of(used as u64) as u32;
    let zeros = from + SECTOR * count as usize - buffer.len();
    push_zeros(buffer, zeros);
    write_header(buffer, from, &header_of(gate, count, records, used));
    write_addresses(buffer, from, start, count);
}

// The header.
fn header_of(gate: u8, count: u32, records: u32, used: usize) -> [u8; HEADER]
    requires count { count < 2 ^ 16 }
    requires records { records < 2 ^ 16 }
    requires used { used < 2 ^ 32 }
    ensures { result ≡ head_bytes gate count records used }
{
    let mut header = [0; HEADER];
    header[0] = gate;
    header[1] = 1;
    LittleEndian::write_u16(&mut header[2..], count as u16);
    LittleEndian::write_u16(&mut header[4..], records as u16);
    LittleEndian::write_u32(&mut header[8..], used as u32);
    header
}

// Writes a header over the first bytes of a block.
fn write_header(buffer: &mut Vec<u8>, from: usize, header: &[u8; HEADER])
    requires { from + block_header ≤ vec_len buffer.old }
    ensures length { length buffer.new.items ≡ length buffer.old.items }
    ensures before { take from buffer.new.items ≡ take from buffer.old.items }
    ensures block { drop from buffer.new.items ≡ header.now ++ drop block_header (drop from buffer.old.items) }
    ensures capacity { vec_capacity buffer.new ≡ vec_capacity buffer.old }
{
    buffer[from..from + HEADER].copy_from_slice(header);
}

// Writes in each sector of a block its address.
fn write_addresses(buffer: &mut Vec<u8>, from: usize, start: Lsn, count: u32)
    requires length { length buffer.old.items ≡ from + sector_bytes * count }
    requires count { count ≤ most_block_sectors }
    requires container { offset_of start / sector_bytes + count ≤ most_container_sectors }
    ensures length { length buffer.new.items ≡ from + sector_bytes * count }
    ensures before { take from buffer.new.items ≡ take from buffer.old.items }
    ensures payload { (k : ℕ) → k % sector_bytes < sector_payload
        → slice_index (drop from buffer.new.items) k ≡ slice_index (drop from buffer.old.items) k }
    ensures addresses { (i : ℕ) → i < count → address_in (drop from buffer.new.items) i ≡ address start i }
    ensures capacity { vec_capacity buffer.new ≡ vec_capacity buffer.old }
{
    let first = Lsn::from_parts(start.container(), start.offset(), 0).number();
    for sector in 0..count {
        put_number(
            buffer,
            from + SECTOR * sector as usize + PAYLOAD,
            first + SECTOR as u64 * sector as u64,
        );
    }
}

// Puts a number of eight bytes in its place.
fn put_number(out: &mut Vec<u8>, at: usize, number: u64)
    requires { at + 8 ≤ length out.old.items }
    ensures items { out.new.items ≡ take at out.old.items ++ little_bytes 8 number ++ drop (at + 8) out.old.items }
    ensures capacity { vec_capacity out.new ≡ vec_capacity out.old }
{
    LittleEndian::write_u64(&mut out[at..at + ADDRESS], number);
}

/// Appends so many bytes of a block's payload, from one of its bytes on, to bytes for which there is memory.
pub fn copy_payload(out: &mut Vec<u8>, block: &[u8], from: usize, count: usize)
    requires place { place_of (from + count) ≤ length block.now }
    requires room { vec_len out.old + count ≤ vec_capacity out.old }
    ensures { out.new.items ≡ out.old.items ++ payload_from from count block.now }
{
    let mut rest = count;
    let mut part = PAYLOAD - from % PAYLOAD;
    let mut place = SECTOR * (from / PAYLOAD) + from % PAYLOAD;
    while part < rest {
        push_reserved(out, &block[place..place + part]);
        rest -= part;
        place += part + ADDRESS;
        part = PAYLOAD;
    }
    push_reserved(out, &block[place..place + rest]);
}
