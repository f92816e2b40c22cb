// The records of one block's payload, each handed on once all of it but its data was judged, and the bases of the streams, which restart
// areas raise.
ghost use Rattle.std.specs.Prelude.{◌≡◌, ◌+◌, ◌-◌, ◌^◌, ◌<◌, ◌≤◌, max, ℕ, List, [], ◌∷◌, ◌++◌, length, vec_len, IfOk, IfErr, IsErrOf, Ok, Err};
ghost use Rattle.clfs_lsn.specs.Format.{block_header};
ghost use Rattle.clfs_lsn.specs.Limits.{most_block_records};
ghost use Rattle.clfs_lsn.specs.Lsn.{lsn_number};
ghost use Rattle.clfs_lsn.specs.Spelling.{record_at};
ghost use Rattle.clfs_lsn.specs.declared.entry.LogEntry.{LogEntry};
ghost use Rattle.clfs_base.specs.declared.image.Row.{Row};
ghost use Rattle.clfs_block.specs.Records.{told_as, records_from};
ghost use Rattle.clfs_recover.specs.Gathering.{HasTaken, Gathers, GathersOne, IsNear};
ghost use Rattle.clfs_recover.specs.Bases.{raised};
ghost use Rattle.clfs_recover.specs.declared.refusal.LoadRefusal.TheVariants.{Damaged};

use crate::gatherer::Gatherer;
use crate::refusal::LoadRefusal;
use clfs_block::byte_of;
use clfs_lsn::{BLOCK_HEADER, Head, Lsn, RECORD_HEADER};
use clfs_record::{HeadRefusal, RecordRefusal, decode_head, stream_in};
use std::alloc::{AllocError, Global};

// The bytes of a record's header.
const HEADER: usize = RECORD_HEADER as usize;

// The byte of a block at which the field of its used bytes begins.
const USED_FIELD: u32 = 8;

/// Where a block lies, and so where damage in it is told.
#[derive(Clone, Copy, Debug, PartialEq, Eq)]
pub struct BlockPlace {
    /// The id of its container.
    pub container: u32,
    /// Its first byte in the container.
    pub offset: u32,
}

impl BlockPlace {
    /// The LSN of the record at a position of the block.
    pub fn lsn(&self, sequence: u32) -> Lsn
        requires { self.now.offset + sequence < 2 ^ 32 }
        ensures { result ≡ lsn_number self.now.container self.now.offset 0 + sequence }
    {
        Lsn::from_parts(self.container, self.offset, sequence)
    }

    /// A byte of the block is wrong.
    pub fn damaged(&self, at: u32) -> LoadRefusal
        ensures { result ≡ Damaged self.now.container self.now.offset at }
    {
        LoadRefusal::Damaged {
            container: self.container,
            offset: self.offset,
            at,
        }
    }
}

// Raises the base of a record's stream to the record's new one, where that is higher. Only restart areas have one; that of others is null.
fn raise_base(bases: &mut Vec<Lsn>, head: &Head)
    requires stream { (1 ≤ head.now.stream) × (head.now.stream ≤ vec_len bases.old) }
    ensures { bases.new.items ≡ raised bases.old.items head.now.stream head.now.new_base }
{
    // Nearly all records have none.
    if head.new_base == Lsn::null() {
        return;
    }
    let at = head.stream as usize - 1;
    bases[at] = bases[at].max(head.new_base);
}

// Hands on the record at the front of bytes, and answers how many bytes spell it.
fn gather_record<G: Gatherer>(
    alloc: Global,
    bytes: &[u8],
    lsn: Lsn,
    gatherer: &mut G,
    bases: &mut Vec<Lsn>,
) -> Result<usize, RecordRefusal>
    requires length { length bytes.now < 2 ^ 32 }
    requires streams { vec_len bases.old < 2 ^ 16 }
    ensures exact { (rows : List Row) (before : List LogEntry) → HasTaken (G.has gatherer.old) rows bases.old.items before
        → GathersOne (G.has gatherer.new) rows bases.new.items before result (record_at lsn (vec_len bases.old) bytes.now) }
    ensures end { IfOk result (λ size. size ≤ length bytes.now) }
    ensures near { IfErr result (λ refusal. IsNear bytes.now refusal) }
    ensures streams { vec_len bases.new ≡ vec_len bases.old }
{
    let streams = bases.len() as u16;
    let (head, size) = decode_head(bytes, lsn, stream_in(bytes), streams)?;
    let data = &bytes[HEADER..HEADER + head.len as usize];
    gatherer.gather(alloc, &head, data)?;
    raise_base(bases, &head);
    Ok(size)
}

// Hands on so many records of a block's used payload, which stand one after the other and end where it ends.
pub(crate) fn gather_records<G: Gatherer>(
    alloc: Global,
    payload: &[u8],
    count: u32,
    place: &BlockPlace,
    gatherer: &mut G,
    bases: &mut Vec<Lsn>,
) -> Result<(), LoadRefusal>
    requires length { length payload.now < 2 ^ 30 }
    requires count { (1 ≤ count) × (count ≤ most_block_records) }
    requires offset { place.now.offset < 2 ^ 31 }
    requires streams { vec_len bases.old < 2 ^ 16 }
    ensures exact { (rows : List Row) (before : List LogEntry) → HasTaken (G.has gatherer.old) rows bases.old.items before
        → Gathers (G.has gatherer.new) rows bases.new.items before result
        (told_as (λ at. Damaged place.now.container place.now.offset at)
        (records_from (vec_len bases.old) payload.now count (lsn_number place.now.container place.now.offset 0) block_header)) }
    ensures streams { vec_len bases.new ≡ vec_len bases.old }
    ensures no_fault { IsErrOf result LoadRefusal.DiskFault → ⊥ }
{
    // A copy, since the place would be read again for each record.
    let place = *place;
    let mut at = BLOCK_HEADER as usize;
    if payload.len() < at {
        return Err(place.damaged(BLOCK_HEADER));
    }
    for sequence in 0..count {
        let rest = payload.split_at(at).1;
        match gather_record(alloc, rest, place.lsn(sequence), gatherer, bases) {
            Ok(size) => at += size,
            Err(RecordRefusal::BadByte { at: wrong }) => {
                return Err(place.damaged(byte_of(at as u32 + wrong)));
            }
            Err(RecordRefusal::NoMemory) => return Err(LoadRefusal::NoMemory),
        }
    }
    if at != payload.len() {
        return Err(place.damaged(USED_FIELD));
    }
    Ok(())
}
