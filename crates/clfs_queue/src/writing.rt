// Putting a record into the open block, in place: its header, its data and the zeros after them are each copied once, to where they are
// to lie in the block's sectors.
ghost use Rattle.std.specs.Prelude.{◌≡◌, ◌+◌, ◌-◌, ◌<◌, ◌≤◌, ◌++◌, ◌^◌, ℕ, length, take, drop, replicate, vec_capacity};
ghost use Rattle.clfs_lsn.specs.Format.{block_header};
ghost use Rattle.clfs_lsn.specs.Size.{size};
ghost use Rattle.clfs_lsn.specs.Spelling.{filling, record_bytes};
ghost use Rattle.clfs_block.specs.Frame.{place_of, payload_of};
ghost use Rattle.clfs_record.specs.Fields.{placed_record};

use clfs_block::push_payload;
use clfs_lsn::{BLOCK_HEADER, Place, RECORD_HEADER, push_zeros, size_of_record};
use clfs_record::{Fields, spell_header};

/// Begins a block after the bytes where none is open: makes room for its header, of which the closed gate that stands there is the first
/// byte. Answers the used bytes of the open block's payload.
pub(crate) fn open_block(bytes: &mut Vec<u8>, place: &Place) -> usize
    requires { place.now.records ≡ 0 → length bytes.old.items + (block_header - 1) ≤ vec_capacity bytes.old }
    ensures begun { place.now.records ≡ 0 → (result ≡ block_header) × (bytes.new.items ≡ bytes.old.items ++ replicate (block_header - 1) 0) }
    ensures open { 1 ≤ place.now.records → (result ≡ place.now.used) × (bytes.new.items ≡ bytes.old.items) }
    ensures capacity { vec_capacity bytes.old ≤ vec_capacity bytes.new }
{
    if place.records > 0 {
        return place.used as usize;
    }
    push_zeros(bytes, BLOCK_HEADER as usize - 1);
    BLOCK_HEADER as usize
}

/// Puts a record after so many bytes of payload of the block that begins at byte `from` of the buffer.
pub(crate) fn push_record(
    buffer: &mut Vec<u8>,
    from: usize,
    used: usize,
    fields: &Fields,
    bytes: &[u8],
)
    requires len { length bytes.now < 2 ^ 32 }
    requires place { length buffer.old.items ≡ from + place_of used }
    requires room { from + place_of (used + size (length bytes.now)) ≤ vec_capacity buffer.old }
    ensures place { length buffer.new.items ≡ from + place_of (used + size (length bytes.now)) }
    ensures before { take from buffer.new.items ≡ take from buffer.old.items }
    ensures payload { (lsn : ℕ) → payload_of (used + size (length bytes.now)) (drop from buffer.new.items)
        ≡ payload_of used (drop from buffer.old.items) ++ record_bytes (placed_record lsn fields.now bytes.now) }
    ensures capacity { vec_capacity buffer.old ≤ vec_capacity buffer.new }
{
    let len = bytes.len() as u32;
    let header = spell_header(fields, len);
    let data = used + RECORD_HEADER as usize;
    push_payload(buffer, from, used, &header);
    push_payload(buffer, from, data, bytes);
    push_filling(buffer, from, data + bytes.len(), len);
}

// Puts the zeros after the data of a record, up to a multiple of 8 bytes.
fn push_filling(buffer: &mut Vec<u8>, from: usize, used: usize, len: u32)
    requires place { length buffer.old.items ≡ from + place_of used }
    requires room { from + place_of (used + filling len) ≤ vec_capacity buffer.old }
    ensures place { length buffer.new.items ≡ from + place_of (used + filling len) }
    ensures before { take from buffer.new.items ≡ take from buffer.old.items }
    ensures payload { payload_of (used + filling len) (drop from buffer.new.items)
        ≡ payload_of used (drop from buffer.old.items) ++ replicate (filling len) 0 }
    ensures capacity { vec_capacity buffer.old ≤ vec_capacity buffer.new }
{
    let zeros = [0; 8];
    let count = size_of_record(len) as usize - (RECORD_HEADER as usize + len as usize);
    push_payload(buffer, from, used, &zeros[..count]);
}
