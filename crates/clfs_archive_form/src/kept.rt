// The blocks of a container that are left of an archive below an LSN. They stay as they are but for the last one, which is written again where some of
// its records are cut off.
ghost use Rattle.std.specs.Prelude.{◌≡◌, ◌+◌, ◌-◌, ◌*◌, ◌/◌, ◌^◌, ◌<◌, ◌≤◌, ◌++◌, min, ℕ, List, length, take, drop, Ok, All, IfOk, OnOk, vec_len};
ghost use Rattle.std.specs.List.{flat_map};
ghost use Rattle.clfs_lsn.specs.Format.{sector_bytes, block_header, open_gate};
ghost use Rattle.clfs_lsn.specs.Limits.{most_block_sectors, most_container_sectors, most_block_records};
ghost use Rattle.clfs_lsn.specs.Lsn.{lsn_number, offset_of};
ghost use Rattle.clfs_lsn.specs.Size.{IsShape, sectors};
ghost use Rattle.clfs_lsn.specs.Spelling.{FitsAt, record_bytes};
ghost use Rattle.clfs_lsn.specs.declared.entry.LogEntry.{LogEntry};
ghost use Rattle.clfs_block.specs.Frame.{SpellsBlock};
ghost use Rattle.clfs_block.specs.Records.{block_records};
ghost use Rattle.clfs_recover.specs.Stored.{HasRecords, stored_in};
ghost use Rattle.clfs_archive_form.specs.Containers.{blocks_in};
ghost use Rattle.clfs_archive_form.specs.Kept.{below, AreBlocksWith, IsKeptEnd};

use clfs_block::{
    blocks_are_read_as_written, blocks_say_their_sectors, check_frame, push_payload,
    records_are_read_of_their_block, seal_block,
};
use clfs_lsn::{
    BLOCK_HEADER, Bytes, LogEntry, Lsn, OPEN_GATE, SECTOR, Shape, push_zeros, sectors_of,
};
use clfs_record::{encode, records_are_read_as_written};
use clfs_recover::{BlockPlace, Entries, blocks_are_read_in_order, gather_block};
use std::alloc::{AllocError, Global};

// How far the blocks of a container lie below an LSN, in bytes, and how many records of the block after these do.
#[derive(Clone, Copy, Debug)]
struct KeptEnd {
    whole: u32,
    records: u32,
}

// How many of so many records lie below an LSN, the first of which is at another one.
fn records_below(records: u32, start: Lsn, up_to: Lsn) -> u32
    ensures { result ≡ min (up_to - start) records }
{
    up_to
        .number()
        .saturating_sub(start.number())
        .min(records as u64) as u32
}

// How far the blocks of a container lie below an LSN.
fn kept_end(shape: &Shape, id: u32, blocks: &[u8], up_to: Lsn) -> KeptEnd
    requires shape { IsShape shape.now }
    requires length { length blocks.now < 2 ^ 31 }
    ensures kept { (streams : ℕ) (entries : List LogEntry) → stored_in shape.now streams id 0 (blocks_in blocks.now) ≡ Ok entries
        → IsKeptEnd shape.now streams id up_to blocks.now entries result.whole result.records }
    ensures within { result.whole ≤ length blocks.now }
{
    blocks_are_read_as_written();
    records_are_read_of_their_block();
    records_are_read_as_written();
    blocks_are_read_in_order();
    let mut offset = 0;
    while (offset as usize) < blocks.len() {
        let start = Lsn::from_parts(id, offset, 0);
        let rest = blocks.split_at(offset as usize).1;
        let Ok(head) = check_frame(shape, start, rest) else {
            return KeptEnd {
                whole: offset,
                records: 0,
            };
        };
        let records = records_below(head.records, start, up_to);
        if records < head.records {
            return KeptEnd {
                whole: offset,
                records,
            };
        }
        offset += SECTOR * head.sectors;
    }
    KeptEnd {
        whole: offset,
        records: 0,
    }
}

// The records of the block at the front of bytes. The bytes were judged before, so only memory can be wanting.
fn block_entries(
    alloc: Global,
    shape: &Shape,
    streams: u16,
    place: &BlockPlace,
    bytes: &[u8],
) -> Result<Entries, AllocError>
    requires shape { IsShape shape.now }
    requires offset { place.now.offset < 2 ^ 31 }
    ensures { IfOk result (λ entries. block_records shape.now streams (lsn_number place.now.container place.now.offset 0) bytes.now ≡ Ok entries) }
{
    let mut entries = Entries::new(alloc);
    let mut bases = Vec::new(alloc);
    bases.resize(streams as usize, Lsn::null())?;
    let mut payload = Bytes::new(alloc);
    match gather_block(
        alloc,
        shape,
        place,
        bytes,
        &mut payload,
        &mut entries,
        &mut bases,
    ) {
        Ok(Some(_)) => Ok(entries),
        _ => Err(AllocError),
    }
}

// Records as bytes, one after the other.
fn spell(alloc: Global, entries: &[LogEntry]) -> Result<Bytes, AllocError>
    requires { All (λ (entry : LogEntry). FitsAt entry.lsn entry.stream entry) entries.now }
    ensures { IfOk result (λ content. content ≡ flat_map record_bytes entries.now) }
{
    let mut content = Bytes::new(alloc);
    for entry in entries {
        encode(alloc, entry, &mut content)?;
    }
    Ok(content)
}

// Appends the block at a place that has so many records, whose bytes these are. Its gate is open.
fn put_block(start: Lsn, records: u32, content: &[u8], out: &mut Vec<u8>) -> Result<(), AllocError>
    requires few { sectors (block_header + length content.now) ≤ most_block_sectors }
    requires records { records ≤ most_block_records }
    requires container { offset_of start / sector_bytes + sectors (block_header + length content.now) ≤ most_container_sectors }
    ensures { OnOk result ((block : List ℕ) × (out.new.items ≡ out.old.items ++ block) × SpellsBlock start open_gate records content.now block) }
{
    let from = out.len();
    let header = BLOCK_HEADER as usize;
    let used = header + content.len();
    out.reserve(SECTOR as usize * sectors_of(used as u64) as usize)?;
    push_zeros(out, header);
    push_payload(out, from, header, content);
    seal_block(out, from, start, OPEN_GATE, records, used);
    Ok(())
}

// Appends the block at the front of bytes made short: so many of its records are left, from the first one on.
fn cut_block(
    alloc: Global,
    shape: &Shape,
    streams: u16,
    place: &BlockPlace,
    bytes: &[u8],
    count: u32,
    out: &mut Vec<u8>,
) -> Result<(), AllocError>
    requires shape { IsShape shape.now }
    requires offset { place.now.offset < 2 ^ 31 }
    ensures { OnOk result ((entries : List LogEntry) → block_records shape.now streams (lsn_number place.now.container place.now.offset 0) bytes.now ≡ Ok entries
        → 1 ≤ count → count ≤ length entries → (cut : List ℕ) × (out.new.items ≡ out.old.items ++ cut)
        × HasRecords shape.now streams (lsn_number place.now.container place.now.offset 0) (take count entries) cut) }
{
    blocks_are_read_as_written();
    records_are_read_as_written();
    let entries = block_entries(alloc, shape, streams, place, bytes)?;
    let count = (count as usize).min(entries.as_slice().len());
    let left = &entries.as_slice()[..count];
    let content = spell(alloc, left)?;
    put_block(place.lsn(0), count as u32, content.as_slice(), out)
}

/// Appends the blocks that are left of a container's below an LSN: those with records below it, of which the last is made short where it has others
/// too. Only memory can be wanting for blocks that are right.
pub fn put_blocks_below(
    alloc: Global,
    shape: &Shape,
    streams: u16,
    id: u32,
    blocks: &[u8],
    up_to: Lsn,
    out: &mut Vec<u8>,
) -> Result<(), AllocError>
    requires shape { IsShape shape.now }
    requires length { length blocks.now ≤ sector_bytes * shape.now.container_sectors }
    ensures kept { OnOk result ((entries : List LogEntry) → stored_in shape.now streams id 0 (blocks_in blocks.now) ≡ Ok entries
        → (kept : List ℕ) × (out.new.items ≡ out.old.items ++ kept) × AreBlocksWith shape.now streams id (below up_to entries) kept) }
{
    blocks_are_read_in_order();
    blocks_say_their_sectors();
    let kept = kept_end(shape, id, blocks, up_to);
    let (whole, rest) = blocks.split_at(kept.whole as usize);
    out.extend_from_slice(whole)?;
    if kept.records == 0 {
        return Ok(());
    }
    let place = BlockPlace {
        container: id,
        offset: kept.whole,
    };
    cut_block(alloc, shape, streams, &place, rest, kept.records, out)
}
