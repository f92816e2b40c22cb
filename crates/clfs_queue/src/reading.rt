// Reading a record's data back out of the block that it waits in, sealed or still open. A block has no table of its records: each
// header says how long its record is, so a record is found by going over those before it.
ghost use Rattle.std.specs.Prelude.{◌≡◌, ◌+◌, ◌%◌, ◌<◌, ◌≤◌, ◌^◌, length, take, IfOk};
ghost use Rattle.clfs_lsn.specs.Spelling.{record_bytes};
ghost use Rattle.clfs_lsn.specs.declared.entry.LogEntry.{LogEntry};
ghost use Rattle.clfs_block.specs.Frame.{place_of, payload_from};
ghost use Rattle.clfs_queue.specs.Held.{IsHeld, payload_before};

use clfs_block::copy_payload;
use clfs_lsn::{BLOCK_HEADER, Bytes, RECORD_HEADER, SECTOR, SECTOR_PAYLOAD, size_of_record};
use clfs_record::{len_of, records_are_read_as_written};
use std::alloc::{AllocError, Global};

/// The data of the record at a position of the block that the bytes begin with.
pub(crate) fn read_record(alloc: Global, block: &[u8], position: u32) -> Result<Bytes, AllocError>
    requires { (entry : LogEntry) × IsHeld block.now position entry }
    ensures { (entry : LogEntry) → IsHeld block.now position entry → IfOk result (λ bytes. bytes ≡ entry.bytes) }
{
    records_are_read_as_written();
    let at = place_of_record(block, position);
    let len = len_at(block, at) as usize;
    let mut out = Vec::with_capacity(alloc, len)?;
    copy_payload(&mut out, block, at + RECORD_HEADER as usize, len);
    Ok(Bytes::from_vec(out))
}

// The byte of the payload at which the record at a position begins.
fn place_of_record(block: &[u8], position: u32) -> usize
    requires { (entry : LogEntry) × IsHeld block.now position entry }
    ensures { (entry : LogEntry) (held : IsHeld block.now position entry) → result ≡ payload_before held }
{
    records_are_read_as_written();
    let mut at = BLOCK_HEADER as usize;
    for skipped in 0..position {
        at += size_of_record(len_at(block, at)) as usize;
    }
    at
}

// The length of the data of the record that begins at a byte of the payload. No length lies across a sector's end, since each record
// begins at a multiple of 8.
fn len_at(block: &[u8], at: usize) -> u32
    requires place { at % 8 ≡ 0 }
    requires there { place_of (at + 4) ≤ length block.now }
    ensures { (entry : LogEntry) → length entry.bytes < 2 ^ 32 → payload_from at 4 block.now ≡ take 4 (record_bytes entry)
        → result ≡ length entry.bytes }
{
    let place = SECTOR as usize * (at / SECTOR_PAYLOAD as usize) + at % SECTOR_PAYLOAD as usize;
    len_of(&block[place..])
}
