// The blocks of one container, one after the other, from its first byte up to a closed gate or its end.
ghost use Rattle.std.specs.Prelude.{◌≡◌, ◌*◌, ◌^◌, ◌<◌, ◌≤◌, length, IfOk};
ghost use Rattle.clfs_lsn.specs.Format.{sector_bytes};
ghost use Rattle.clfs_lsn.specs.Size.{IsShape};
ghost use Rattle.clfs_disk.specs.State.{TellsContents};
ghost use Rattle.clfs_recover.specs.Gathering.{IsEnd};
ghost use Rattle.clfs_dump.specs.Lines.{container_line};
ghost use Rattle.clfs_dump.specs.Telling.{blocks_told, container_told};
ghost use Rattle.clfs_dump.specs.Printing.{Prints, OnlyReads, HasSinkCause};

use crate::block::print_block;
use crate::lines::push_container;
use crate::piece::Ahead;
use crate::printing::print_text;
use crate::refusal::DumpRefusal;
use crate::selection::Selection;
use clfs_base::Row;
use clfs_block::{blocks_are_judged_alone, blocks_are_read_as_written};
use clfs_disk::{Disk, calls_join};
use clfs_lsn::{Bytes, SECTOR, Shape};
use clfs_ports::Sink;
use clfs_recover::BlockPlace;
use std::alloc::{AllocError, Global};

// A container that the base copy lists: its id, and the number of the file that it lies in.
#[derive(Clone, Copy)]
pub(crate) struct Listed {
    pub id: u32,
    pub file: u16,
}

// The line of a container.
fn container_text(alloc: Global, listed: &Listed) -> Result<Bytes, AllocError>
    ensures { IfOk result (λ text. text ≡ container_line listed.now.id listed.now.file) }
{
    let mut text = Bytes::new(alloc);
    push_container(listed.id, listed.file, &mut text)?;
    Ok(text)
}

// Prints the blocks of a container from its first byte on, and answers the byte after the last. `payload` is memory that serves all blocks.
fn print_blocks<D: Disk, K: Sink>(
    alloc: Global,
    selection: &Selection,
    rows: &[Row],
    shape: &Shape,
    listed: &Listed,
    piece: &mut Ahead,
    payload: &mut Bytes,
    sink: &mut K,
    disk: &mut D,
) -> Result<u32, DumpRefusal>
    requires file { listed.now.file ≤ 256 }
    requires shape { IsShape shape.now }
    requires room { sector_bytes * shape.now.block_sectors ≤ piece.old.room }
    requires streams { length rows.now < 2 ^ 16 }
    ensures told { TellsContents (D.state disk.old) → Prints (K.written sink.old) (K.written sink.new)
        (blocks_told selection.now rows.now shape.now listed.now.id ((D.state disk.old).files listed.now.file) shape.now.container_sectors 0).text
        (blocks_told selection.now rows.now shape.now listed.now.id ((D.state disk.old).files listed.now.file) shape.now.container_sectors 0).found
        result }
    ensures end { IfOk result (λ end. IsEnd shape.now end) }
    ensures room { piece.new.room ≡ piece.old.room }
    ensures reads { OnlyReads result (D.state disk.old) (D.state disk.new) }
    ensures sink { HasSinkCause result (K.faults sink.old) (K.faults sink.new) }
{
    calls_join::<D>();
    blocks_are_judged_alone();
    blocks_are_read_as_written();
    let end = SECTOR * shape.container_sectors;
    let largest = SECTOR as usize * shape.block_sectors as usize;
    let mut offset = 0;
    piece.read(disk, listed.file, offset)?;
    while offset < end {
        piece.cover(disk, listed.file, offset, largest)?;
        let place = BlockPlace {
            container: listed.id,
            offset,
        };
        let bytes = piece.bytes_from(offset);
        match print_block(alloc, selection, rows, shape, &place, bytes, payload, sink)? {
            Some(sectors) => offset += SECTOR * sectors,
            None => break,
        }
    }
    Ok(offset)
}

/// Prints a container, and answers the byte after its last block.
pub(crate) fn print_container<D: Disk, K: Sink>(
    alloc: Global,
    selection: &Selection,
    rows: &[Row],
    shape: &Shape,
    listed: &Listed,
    piece: &mut Ahead,
    payload: &mut Bytes,
    sink: &mut K,
    disk: &mut D,
) -> Result<u32, DumpRefusal>
    requires file { listed.now.file ≤ 256 }
    requires shape { IsShape shape.now }
    requires room { sector_bytes * shape.now.block_sectors ≤ piece.old.room }
    requires streams { length rows.now < 2 ^ 16 }
    ensures told { TellsContents (D.state disk.old) → Prints (K.written sink.old) (K.written sink.new)
        (container_told selection.now rows.now shape.now (D.state disk.old).files listed.now.id listed.now.file).text
        (container_told selection.now rows.now shape.now (D.state disk.old).files listed.now.id listed.now.file).found result }
    ensures end { IfOk result (λ end. IsEnd shape.now end) }
    ensures room { piece.new.room ≡ piece.old.room }
    ensures reads { OnlyReads result (D.state disk.old) (D.state disk.new) }
    ensures sink { HasSinkCause result (K.faults sink.old) (K.faults sink.new) }
{
    calls_join::<D>();
    print_text(container_text(alloc, listed), sink)?;
    print_blocks(
        alloc, selection, rows, shape, listed, piece, payload, sink, disk,
    )
}
