// The bytes of a block's used payload at which its records begin, each judged where it stands.
ghost use Rattle.std.specs.Prelude.{◌≡◌, ◌+◌, ◌^◌, ◌<◌, ◌≤◌, length, OnOk};
ghost use Rattle.clfs_lsn.specs.Format.{block_header};
ghost use Rattle.clfs_lsn.specs.Limits.{most_block_records};
ghost use Rattle.clfs_block.specs.Records.{told_as, records_from};
ghost use Rattle.clfs_block.specs.declared.head.BlockRefusal.TheVariants.{BadByte};
ghost use Rattle.clfs_buffers.specs.Reading.{first_lsn};
ghost use Rattle.clfs_buffers.specs.Kept.{wrong_in, FindsStarts};

use crate::place::BlockPlace;
use clfs_block::{BlockRefusal, byte_of};
use clfs_lsn::BLOCK_HEADER;
use clfs_record::{HeadRefusal, decode_head, stream_in};
use std::alloc::AllocError;

// The byte of a block at which the field of its used bytes begins.
const USED_FIELD: u32 = 8;

// The byte of a record that is wrong.
fn wrong_byte(refusal: HeadRefusal) -> u32
    ensures { result ≡ wrong_in refusal }
{
    match refusal {
        HeadRefusal::BadByte { at } => at,
    }
}

// Finds so many records, which stand one after the other and end where the payload ends. Memory is taken only where there isn't enough.
pub(crate) fn find_starts(
    payload: &[u8],
    count: u32,
    place: BlockPlace,
    streams: u16,
    starts: &mut Vec<u32>,
) -> Result<(), BlockRefusal>
    requires length { length payload.now < 2 ^ 30 }
    requires count { (1 ≤ count) × (count ≤ most_block_records) }
    requires low { place.offset + most_block_records < 2 ^ 32 }
    ensures found { FindsStarts streams payload.now (first_lsn place) starts.new.items result
        (told_as BadByte (records_from streams payload.now count (first_lsn place) block_header)) }
    ensures few { OnOk result (length starts.new.items ≡ count) }
{
    starts.clear();
    starts.reserve(count as usize)?;
    let mut at = BLOCK_HEADER as usize;
    if payload.len() < at {
        return Err(BlockRefusal::BadByte { at: BLOCK_HEADER });
    }
    for sequence in 0..count {
        let rest = payload.split_at(at).1;
        match decode_head(rest, place.lsn(sequence), stream_in(rest), streams) {
            Ok((_, size)) => {
                starts.push_reserved(at as u32);
                at += size;
            }
            Err(refusal) => {
                let byte = byte_of(at as u32 + wrong_byte(refusal));
                return Err(BlockRefusal::BadByte { at: byte });
            }
        }
    }
    if at != payload.len() {
        return Err(BlockRefusal::BadByte { at: USED_FIELD });
    }
    Ok(())
}
