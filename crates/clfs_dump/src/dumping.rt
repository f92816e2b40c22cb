// Dumping a log: the lines of its newest base copy, its containers, and where it ends or is wrong.
ghost use Rattle.std.specs.Prelude.{◌≡◌, ◌*◌, ◌≤◌, ◌++◌, IfOk, IsErrOf};
ghost use Rattle.clfs_lsn.specs.Format.{sector_bytes};
ghost use Rattle.clfs_lsn.specs.Size.{IsShape};
ghost use Rattle.clfs_ports.specs.Cause as ports;
ghost use Rattle.clfs_disk.specs.Files.{Unchanged};
ghost use Rattle.clfs_disk.specs.State.{TellsContents, IsSteady, Passes, Rises};
ghost use Rattle.clfs_base.specs.Spelling.{IsImage};
ghost use Rattle.clfs_dump.specs.Lines.{log_line, stream_lines, end_line, damage_line};
ghost use Rattle.clfs_dump.specs.Telling.{files_told, image_told, dump_text};
ghost use Rattle.clfs_dump.specs.Printing.{Prints, OnlyReads, HasSinkCause};

use crate::ending::log_end;
use crate::lines::{push_damage, push_end, push_log, push_streams};
use crate::listed::print_listed;
use crate::piece::Ahead;
use crate::printing::print_text;
use crate::refusal::DumpRefusal;
use crate::selection::Selection;
use clfs_base::{BaseImage, read_newest};
use clfs_disk::{Disk, calls_join};
use clfs_lsn::{Bytes, Lsn, SECTOR, Shape};
use clfs_ports::Sink;
use clfs_recover::LoadRefusal;
use std::alloc::{AllocError, Global};

// The most bytes of a file that are read at a time.
const PIECE: u32 = 1 << 18;

// How many bytes are read at a time: a container, where that is short.
fn piece_bytes(shape: &Shape) -> usize
    requires { IsShape shape.now }
    ensures { sector_bytes * shape.now.block_sectors ≤ result }
{
    (SECTOR * shape.container_sectors).min(PIECE) as usize
}

// The lines of a base copy.
fn image_text(alloc: Global, slot: u32, image: &BaseImage) -> Result<Bytes, AllocError>
    requires { IsImage image.now }
    ensures { IfOk result (λ text. text ≡ log_line slot image.now ++ stream_lines 1 image.now.streams) }
{
    let mut text = Bytes::new(alloc);
    push_log(slot, image, &mut text)?;
    push_streams(image.streams.as_slice(), &mut text)?;
    Ok(text)
}

// The line of the place at which a log goes on.
fn end_text(alloc: Global, lsn: Lsn) -> Result<Bytes, AllocError>
    ensures { IfOk result (λ text. text ≡ end_line lsn) }
{
    let mut text = Bytes::new(alloc);
    push_end(lsn, &mut text)?;
    Ok(text)
}

// The line of a first wrong byte.
fn damage_text(alloc: Global, container: u32, offset: u32, at: u32) -> Result<Bytes, AllocError>
    ensures { IfOk result (λ text. text ≡ damage_line container offset at) }
{
    let mut text = Bytes::new(alloc);
    push_damage(container, offset, at, &mut text)?;
    Ok(text)
}

// Prints what a base copy and the containers that it lists have, and answers where the log goes on.
fn print_log<D: Disk, K: Sink>(
    alloc: Global,
    selection: &Selection,
    slot: u32,
    image: &BaseImage,
    sink: &mut K,
    disk: &mut D,
) -> Result<Lsn, DumpRefusal>
    requires { IsImage image.now }
    ensures told { TellsContents (D.state disk.old) → Prints (K.written sink.old) (K.written sink.new)
        (image_told selection.now (D.state disk.old).files slot image.now).text
        (image_told selection.now (D.state disk.old).files slot image.now).found result }
    ensures reads { OnlyReads result (D.state disk.old) (D.state disk.new) }
    ensures sink { HasSinkCause result (K.faults sink.old) (K.faults sink.new) }
{
    calls_join::<D>();
    let shape = Shape {
        block_sectors: image.block_sectors,
        container_sectors: image.container_sectors,
    };
    print_text(image_text(alloc, slot, image), sink)?;
    let mut piece = Ahead::new(alloc, piece_bytes(&shape))?;
    let rows = image.streams.as_slice();
    let files = image.files.as_slice();
    let end = print_listed(
        alloc,
        selection,
        rows,
        &shape,
        image.first,
        files,
        &mut piece,
        sink,
        disk,
    )?;
    Ok(log_end(slot, image, end)?)
}

// Prints all of a log but the last line.
fn print_files<D: Disk, K: Sink>(
    alloc: Global,
    selection: &Selection,
    sink: &mut K,
    disk: &mut D,
) -> Result<Lsn, DumpRefusal>
    ensures told { TellsContents (D.state disk.old) → Prints (K.written sink.old) (K.written sink.new)
        (files_told selection.now (D.state disk.old).files).text (files_told selection.now (D.state disk.old).files).found result }
    ensures reads { OnlyReads result (D.state disk.old) (D.state disk.new) }
    ensures sink { HasSinkCause result (K.faults sink.old) (K.faults sink.new) }
{
    calls_join::<D>();
    match read_newest(alloc, disk) {
        Ok((slot, image)) => print_log(alloc, selection, slot, &image, sink, disk),
        Err(refusal) => Err(DumpRefusal::from(LoadRefusal::from(refusal))),
    }
}

/// Prints the log on a disk up to its end, and answers the LSN at which it goes on; or up to the first wrong byte, which is the one that opening
/// tells, and then that place. It calls no write and no sync of the disk.
pub fn dump<D: Disk, K: Sink>(
    alloc: Global,
    selection: &Selection,
    sink: &mut K,
    disk: &mut D,
) -> Result<Lsn, DumpRefusal>
    ensures told { TellsContents (D.state disk.old) → Prints (K.written sink.old) (K.written sink.new)
        (dump_text selection.now (D.state disk.old).files) (files_told selection.now (D.state disk.old).files).found result }
    ensures same { Unchanged (D.state disk.old).files (D.state disk.new).files }
    ensures time { Passes Unchanged (D.state disk.old) (D.state disk.new) }
    ensures cause { IsErrOf result DumpRefusal.DiskFault → Rises (D.state disk.old).faults (D.state disk.new).faults }
    ensures steady { IsSteady (D.state disk.old) → (IsErrOf result DumpRefusal.DiskFault → ⊥)
        × ((D.state disk.new).faults ≡ (D.state disk.old).faults) }
    ensures sink_cause { IsErrOf result DumpRefusal.SinkFault → ports.Rises (K.faults sink.old) (K.faults sink.new) }
    ensures sink_later { K.faults sink.old ≤ K.faults sink.new }
{
    match print_files(alloc, selection, sink, disk) {
        Ok(lsn) => {
            print_text(end_text(alloc, lsn), sink)?;
            Ok(lsn)
        }
        Err(
            DumpRefusal::Damaged {
                container,
                offset,
                at,
            },
        ) => {
            print_text(damage_text(alloc, container, offset, at), sink)?;
            Err(DumpRefusal::Damaged {
                container,
                offset,
                at,
            })
        }
        Err(DumpRefusal::NoBase) => Err(DumpRefusal::NoBase),
        Err(DumpRefusal::DiskFault) => Err(DumpRefusal::DiskFault),
        Err(DumpRefusal::NoMemory) => Err(DumpRefusal::NoMemory),
        Err(DumpRefusal::SinkFault) => Err(DumpRefusal::SinkFault),
    }
}
