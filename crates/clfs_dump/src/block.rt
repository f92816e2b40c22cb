// One block: the checks of its frame, its records, and the zeros after them, in the order of opening, with its text.
ghost use Rattle.std.specs.Prelude.{◌≡◌, ◌^◌, ◌+◌, ◌<◌, ◌++◌, ℕ, length, Err, OnOk, IfOk, IfSome, IsErrOf};
ghost use Rattle.clfs_dump.specs.Telling.{block_text, block_told, block_end};
ghost use Rattle.clfs_dump.specs.Printing.{Prints, HasSinkCause};
ghost use Rattle.clfs_dump.specs.Reading.{HasSectors};

use crate::lines::push_block_line;
use crate::printing::print_text;
use crate::records::push_records;
use crate::refusal::DumpRefusal;
use crate::selection::{Selection, meets_range};
use clfs_base::Row;
use clfs_block::{BlockHead, BlockRefusal, check_frame, check_rest, fill_payload};
use clfs_lsn::{Bytes, Lsn, Shape};
use clfs_ports::Sink;
use clfs_recover::{BlockPlace, LoadRefusal};
use std::alloc::{AllocError, Global};

// How a block ends that is refused.
fn end_of(place: &BlockPlace, refusal: BlockRefusal) -> Result<Option<u32>, LoadRefusal>
    ensures { (sectors : ℕ) → result ≡ block_end place.now.container place.now.offset sectors (Err refusal) }
{
    match refusal {
        BlockRefusal::Closed => Ok(None),
        BlockRefusal::BadByte { at } => Err(place.damaged(at)),
        BlockRefusal::NoMemory => Err(LoadRefusal::NoMemory),
    }
}

// Adds the line of a block, if it is asked for.
fn push_front(
    selection: &Selection,
    start: Lsn,
    head: BlockHead,
    out: &mut Bytes,
) -> Result<(), AllocError>
    requires { start + head.records < 2 ^ 64 }
    ensures { OnOk result (out.new ≡ out.old ++ block_text selection.now start head) }
{
    if meets_range(selection, start, head.records) {
        return push_block_line(start, head, out);
    }
    Ok(())
}

// Adds the text of the block at the front of bytes, up to its first wrong byte, and answers its sectors, or None where its gate is closed.
// `payload` is memory that serves all blocks. Only where no memory is left nothing is said of `out`.
fn push_block(
    alloc: Global,
    selection: &Selection,
    rows: &[Row],
    shape: &Shape,
    place: &BlockPlace,
    bytes: &[u8],
    payload: &mut Bytes,
    out: &mut Bytes,
) -> Result<Result<Option<u32>, LoadRefusal>, AllocError>
    requires offset { place.now.offset < 2 ^ 31 }
    requires streams { length rows.now < 2 ^ 16 }
    ensures found { IfOk result (λ found. found
        ≡ (block_told selection.now rows.now shape.now place.now.container place.now.offset bytes.now).found) }
    ensures text { OnOk result (out.new
        ≡ out.old ++ (block_told selection.now rows.now shape.now place.now.container place.now.offset bytes.now).text) }
{
    let head = match check_frame(shape, place.lsn(0), bytes) {
        Ok(head) => head,
        Err(refusal) => return Ok(end_of(place, refusal)),
    };
    push_front(selection, place.lsn(0), head, out)?;
    fill_payload(alloc, bytes, head, payload)?;
    let wrong = push_records(
        selection,
        rows,
        payload.as_slice(),
        head.records,
        place,
        out,
    )?;
    if let Some(at) = wrong {
        return Ok(Err(place.damaged(at)));
    }
    match check_rest(bytes, head) {
        Ok(_) => Ok(Ok(Some(head.sectors))),
        Err(refusal) => Ok(end_of(place, refusal)),
    }
}

/// Prints the block at the front of bytes as far as it is right, and answers its sectors, or None where its gate is closed.
pub(crate) fn print_block<K: Sink>(
    alloc: Global,
    selection: &Selection,
    rows: &[Row],
    shape: &Shape,
    place: &BlockPlace,
    bytes: &[u8],
    payload: &mut Bytes,
    sink: &mut K,
) -> Result<Option<u32>, DumpRefusal>
    requires offset { place.now.offset < 2 ^ 31 }
    requires streams { length rows.now < 2 ^ 16 }
    ensures told { Prints (K.written sink.old) (K.written sink.new)
        (block_told selection.now rows.now shape.now place.now.container place.now.offset bytes.now).text
        (block_told selection.now rows.now shape.now place.now.container place.now.offset bytes.now).found result }
    ensures framed { IfOk result (λ found. IfSome found (λ sectors. HasSectors shape.now place.now.container place.now.offset bytes.now sectors)) }
    ensures no_fault { IsErrOf result DumpRefusal.DiskFault → ⊥ }
    ensures sink { HasSinkCause result (K.faults sink.old) (K.faults sink.new) }
{
    let mut text = Bytes::new(alloc);
    let found = push_block(
        alloc, selection, rows, shape, place, bytes, payload, &mut text,
    )?;
    print_text(Ok(text), sink)?;
    Ok(found?)
}
