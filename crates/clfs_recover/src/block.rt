// One block: the checks of its frame, its records, and the zeros after them, in this order, so that the first byte that is told is the first
// that is wrong. The payload stands in sectors with addresses between, so it is put together in memory that serves all blocks.
ghost use Rattle.std.specs.Prelude.{◌≡◌, ◌^◌, ◌<◌, ℕ, List, Ok, Some, IfOk, IfSome, IsErrOf, vec_len};
ghost use Rattle.clfs_lsn.specs.Lsn.{lsn_number};
ghost use Rattle.clfs_lsn.specs.Size.{IsShape};
ghost use Rattle.clfs_lsn.specs.declared.entry.LogEntry.{LogEntry};
ghost use Rattle.clfs_base.specs.declared.image.Row.{Row};
ghost use Rattle.clfs_block.specs.Frame.{payload_of};
ghost use Rattle.clfs_block.specs.Checks.{frame_at, IsFramed};
ghost use Rattle.clfs_block.specs.declared.head.BlockHead.{BlockHead};
ghost use Rattle.clfs_block.specs.Records.{block_records};
ghost use Rattle.clfs_recover.specs.Walk.{damage_at};
ghost use Rattle.clfs_recover.specs.Gathering.{HasTaken, GivesFrame, GathersBlock};

use crate::gatherer::Gatherer;
use crate::records::{BlockPlace, gather_records};
use crate::refusal::LoadRefusal;
use clfs_block::{BlockHead, BlockRefusal, check_frame, check_rest, fill_payload};
use clfs_lsn::{Bytes, Lsn, Shape};
use std::alloc::Global;

// The refusal of a block at its place.
fn refused(place: &BlockPlace, refusal: BlockRefusal) -> LoadRefusal
    ensures exact { result ≡ damage_at place.now.container place.now.offset refusal }
    ensures no_fault { result ≡ LoadRefusal.DiskFault → ⊥ }
{
    match refusal {
        BlockRefusal::Closed => place.damaged(0),
        BlockRefusal::BadByte { at } => place.damaged(at),
        BlockRefusal::NoMemory => LoadRefusal::NoMemory,
    }
}

// The head of the block at the front of bytes, or None where its gate is closed.
fn open_frame(
    shape: &Shape,
    place: &BlockPlace,
    bytes: &[u8],
) -> Result<Option<BlockHead>, LoadRefusal>
    requires { place.now.offset < 2 ^ 31 }
    ensures exact { GivesFrame place.now.container place.now.offset result
        (frame_at shape.now (lsn_number place.now.container place.now.offset 0) bytes.now) }
    ensures framed { IfOk result (λ found. IfSome found
        (λ head. IsFramed shape.now (lsn_number place.now.container place.now.offset 0) bytes.now head (payload_of head.used bytes.now))) }
    ensures no_fault { IsErrOf result LoadRefusal.DiskFault → ⊥ }
{
    match check_frame(shape, place.lsn(0), bytes) {
        Ok(head) => Ok(Some(head)),
        Err(BlockRefusal::Closed) => Ok(None),
        Err(BlockRefusal::BadByte { at }) => Err(place.damaged(at)),
        Err(BlockRefusal::NoMemory) => Err(LoadRefusal::NoMemory),
    }
}

/// Judges the block at the front of bytes, as the walk does, and hands its records on; it answers the block's sectors, or None where its
/// gate is closed. `payload` is memory that serves all blocks, and what was in it is gone; `bases` has a base for each stream.
pub fn gather_block<G: Gatherer>(
    alloc: Global,
    shape: &Shape,
    place: &BlockPlace,
    bytes: &[u8],
    payload: &mut Bytes,
    gatherer: &mut G,
    bases: &mut Vec<Lsn>,
) -> Result<Option<u32>, LoadRefusal>
    requires shape { IsShape shape.now }
    requires offset { place.now.offset < 2 ^ 31 }
    requires streams { vec_len bases.old < 2 ^ 16 }
    ensures exact { (rows : List Row) (before : List LogEntry) → HasTaken (G.has gatherer.old) rows bases.old.items before
        → GathersBlock (G.has gatherer.new) rows bases.new.items before place.now.container place.now.offset result
        (block_records shape.now (vec_len bases.old) (lsn_number place.now.container place.now.offset 0) bytes.now) }
    ensures framed { (sectors : ℕ) → result ≡ Ok (Some sectors) → (head : BlockHead)
        × (frame_at shape.now (lsn_number place.now.container place.now.offset 0) bytes.now ≡ Ok head) × (head.sectors ≡ sectors) }
    ensures streams { vec_len bases.new ≡ vec_len bases.old }
    ensures no_fault { IsErrOf result LoadRefusal.DiskFault → ⊥ }
{
    let Some(head) = open_frame(shape, place, bytes)? else {
        return Ok(None);
    };
    fill_payload(alloc, bytes, head, payload)?;
    gather_records(
        alloc,
        payload.as_slice(),
        head.records,
        place,
        gatherer,
        bases,
    )?;
    if let Err(refusal) = check_rest(bytes, head) {
        return Err(refused(place, refusal));
    }
    Ok(Some(head.sectors))
}
