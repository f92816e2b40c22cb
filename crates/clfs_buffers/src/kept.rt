// One block that is kept: its used payload, in which each record stands in one piece, and the bytes at which the records begin. So a
// record is found at once, wherever in the block it stands, and its data is copied once.
ghost use Rattle.std.specs.Prelude.{◌≡◌, ◌+◌, ◌^◌, ◌<◌, ◌≤◌, [], length, slice_get, IfOk, IfSome, IsErrOf};
ghost use Rattle.std.specs.Option.{ok_or, option_map};
ghost use Rattle.clfs_lsn.specs.Limits.{most_block_records};
ghost use Rattle.clfs_lsn.specs.Size.{IsShape, most_data};
ghost use Rattle.clfs_block.specs.Records.{block_records};
ghost use Rattle.clfs_buffers.specs.Reading.{first_lsn, Gives};
ghost use Rattle.clfs_buffers.specs.Kept.{HaveLsns, GivesRecords};

use crate::place::BlockPlace;
use crate::refusal::ReadRefusal;
use crate::starts::find_starts;
use clfs_block::{BlockRefusal, check_frame, check_rest, fill_payload};
use clfs_lsn::{Bytes, LogEntry, RECORD_HEADER, Shape};
use clfs_record::{RecordRefusal, decode, len_of, stream_of};
use std::alloc::{AllocError, Global};
use std::marker::Model;

// The byte of a block at which the field of its number of records begins.
const RECORDS_FIELD: u32 = 4;

// The bytes of a record's header.
const HEADER: usize = RECORD_HEADER as usize;

// A block that was read. A contract sees its records.
#[derive(Drop)]
pub(crate) struct KeptBlock {
    place: BlockPlace,
    streams: u16,
    payload: Bytes,
    starts: Vec<u32>,
}

impl Model for KeptBlock {
    ghost use Rattle.std.specs.Prelude.{List};
    ghost use Rattle.clfs_lsn.specs.declared.entry.LogEntry.{LogEntry};

    ghost Value = { List LogEntry };

    ghost use Rattle.clfs_buffers.specs.Reading.{first_lsn};
    ghost use Rattle.clfs_buffers.specs.Kept.{records_at, IsKept};

    ghost view = { λ b. records_at b.payload (first_lsn b.place) b.starts.items };

    ghost invariant = { λ b. IsKept b.place b.streams b.payload b.starts.items };
}

impl KeptBlock {
    // A block without records, which has taken no memory.
    pub fn new(alloc: Global) -> KeptBlock
        ensures { result ≡ [] }
    {
        KeptBlock {
            place: BlockPlace {
                container: 0,
                offset: 0,
            },
            streams: 0,
            payload: Bytes::new(alloc),
            starts: Vec::new(alloc),
        }
    }

    // The block at the front of bytes that are to hold one at this place, in a log of so many streams. It is kept in the memory of another.
    pub fn refill(
        self,
        alloc: Global,
        shape: &Shape,
        place: BlockPlace,
        streams: u16,
        bytes: &[u8],
    ) -> Result<KeptBlock, BlockRefusal>
        requires shape { IsShape shape.now }
        requires low { place.offset + most_block_records < 2 ^ 32 }
        ensures exact { GivesRecords result (block_records shape.now streams (first_lsn place) bytes.now) }
        ensures lsns { IfOk result (λ records. HaveLsns (first_lsn place) records) }
    {
        let KeptBlock {
            place: _,
            streams: _,
            mut payload,
            mut starts,
        } = self;
        let head = check_frame(shape, place.lsn(0), bytes)?;
        fill_payload(alloc, bytes, head, &mut payload)?;
        find_starts(
            payload.as_slice(),
            head.records,
            place,
            streams,
            &mut starts,
        )?;
        check_rest(bytes, head)?;
        Ok(KeptBlock {
            place,
            streams,
            payload,
            starts,
        })
    }

    // The data of the record at a position of the block, or none where there are too few. It was judged when the block was read.
    pub fn data_at(&self, alloc: Global, sequence: u32) -> Result<Option<Bytes>, AllocError>
        ensures exact { IfOk result (λ found. found ≡ option_map (λ entry. entry.bytes) (slice_get self.now sequence)) }
        ensures small { IfOk result (λ found. IfSome found (λ bytes. length bytes ≤ most_data)) }
    {
        if self.starts.len() <= sequence as usize {
            return Ok(None);
        }
        let at = self.starts[sequence as usize] as usize;
        let bytes = self.payload.as_slice().split_at(at).1;
        let len = len_of(bytes) as usize;
        let copied = Vec::from_slice(alloc, &bytes[HEADER..HEADER + len])?;
        Ok(Some(Bytes::from_vec(copied)))
    }

    // The record at a position of the block, or damage at the number of the records where there are too few.
    pub fn entry(&self, alloc: Global, sequence: u32) -> Result<LogEntry, ReadRefusal>
        ensures exact { Gives result (ok_or (slice_get self.now sequence) 4) }
        ensures no_fault { IsErrOf result ReadRefusal.DiskFault → ⊥ }
        ensures small { IfOk result (λ entry. length entry.bytes ≤ most_data) }
    {
        let place = self.place;
        if self.starts.len() <= sequence as usize {
            return Err(ReadRefusal::Damaged { at: RECORDS_FIELD });
        }
        let at = self.starts[sequence as usize] as usize;
        let bytes = self.payload.as_slice().split_at(at).1;
        match decode(
            alloc,
            bytes,
            place.lsn(sequence),
            stream_of(bytes),
            self.streams,
        ) {
            Ok((entry, _)) => Ok(entry),
            Err(RecordRefusal::NoMemory) => Err(ReadRefusal::NoMemory),
            // Not reached: the record was judged when the block was read.
            Err(RecordRefusal::BadByte { at }) => Err(ReadRefusal::Damaged { at }),
        }
    }
}
