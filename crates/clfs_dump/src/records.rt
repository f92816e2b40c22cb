// The records of one block's payload, one after the other, up to the first that is wrong.
ghost use Rattle.std.specs.Prelude.{◌≡◌, ◌+◌, ◌^◌, ◌<◌, ◌≤◌, ◌++◌, List, length, drop, IfOk};
ghost use Rattle.std.specs.List.{flat_map};
ghost use Rattle.clfs_lsn.specs.Format.{block_header};
ghost use Rattle.clfs_lsn.specs.Limits.{most_block_records};
ghost use Rattle.clfs_lsn.specs.Lsn.{lsn_number};
ghost use Rattle.clfs_lsn.specs.Spelling.{record_at};
ghost use Rattle.clfs_block.specs.Records.{records_from};
ghost use Rattle.clfs_dump.specs.Telling.{record_text, records_met};
ghost use Rattle.clfs_dump.specs.Reading.{TellsRecord, IsNear, first_wrong};

use crate::lines::push_record;
use crate::selection::{Selection, is_chosen};
use clfs_base::Row;
use clfs_block::byte_of;
use clfs_lsn::{BLOCK_HEADER, Bytes, Lsn, RECORD_HEADER};
use clfs_record::{HeadRefusal, decode_head, stream_in};
use clfs_recover::BlockPlace;
use std::alloc::AllocError;

// The bytes of a record's header.
const HEADER: usize = RECORD_HEADER as usize;

// The byte of a block at which the field of its used bytes begins.
const USED_FIELD: u32 = 8;

// Adds the line of the record at the front of bytes, if it is asked for, and answers how many bytes spell it, or its first wrong byte.
fn push_next(
    selection: &Selection,
    rows: &[Row],
    bytes: &[u8],
    lsn: Lsn,
    out: &mut Bytes,
) -> Result<Result<usize, u32>, AllocError>
    requires length { length bytes.now < 2 ^ 32 }
    requires streams { length rows.now < 2 ^ 16 }
    ensures told { IfOk result (λ found. TellsRecord selection.now rows.now out.old out.new found (record_at lsn (length rows.now) bytes.now)) }
    ensures near { IfOk result (λ found. IsNear bytes.now found) }
{
    match decode_head(bytes, lsn, stream_in(bytes), rows.len() as u16) {
        Ok((head, size)) => {
            if is_chosen(selection, rows, &head) {
                let data = &bytes[HEADER..HEADER + head.len as usize];
                push_record(selection.form, &head, data, out)?;
            }
            Ok(Ok(size))
        }
        Err(HeadRefusal::BadByte { at }) => Ok(Err(at)),
    }
}

/// Adds the lines of so many records of a block's used payload, as far as they are right, and answers the first wrong byte of the block, if one is
/// wrong.
pub(crate) fn push_records(
    selection: &Selection,
    rows: &[Row],
    payload: &[u8],
    count: u32,
    place: &BlockPlace,
    out: &mut Bytes,
) -> Result<Option<u32>, AllocError>
    requires length { length payload.now < 2 ^ 30 }
    requires count { (1 ≤ count) × (count ≤ most_block_records) }
    requires offset { place.now.offset < 2 ^ 31 }
    requires streams { length rows.now < 2 ^ 16 }
    ensures text { IfOk result (λ wrong. out.new ≡ out.old ++ flat_map (record_text selection.now rows.now)
        (records_met (length rows.now) payload.now count (lsn_number place.now.container place.now.offset 0) block_header)) }
    ensures wrong { IfOk result (λ wrong. wrong
        ≡ first_wrong (records_from (length rows.now) payload.now count (lsn_number place.now.container place.now.offset 0) block_header)) }
{
    let mut at = BLOCK_HEADER as usize;
    if payload.len() < at {
        return Ok(Some(BLOCK_HEADER));
    }
    for sequence in 0..count {
        let rest = payload.split_at(at).1;
        match push_next(selection, rows, rest, place.lsn(sequence), out)? {
            Ok(size) => at += size,
            Err(wrong) => return Ok(Some(byte_of(at as u32 + wrong))),
        }
    }
    if at != payload.len() {
        return Ok(Some(USED_FIELD));
    }
    Ok(None)
}
