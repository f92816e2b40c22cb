// The listed containers in their order.
ghost use Rattle.std.specs.Prelude.{◌≡◌, ◌+◌, ◌*◌, ◌^◌, ◌<◌, ◌≤◌, ℕ, length, slice_index, IfOk};
ghost use Rattle.clfs_lsn.specs.Format.{sector_bytes};
ghost use Rattle.clfs_lsn.specs.Size.{IsShape};
ghost use Rattle.clfs_disk.specs.State.{TellsContents};
ghost use Rattle.clfs_recover.specs.Gathering.{IsEnd};
ghost use Rattle.clfs_dump.specs.Telling.{listed_told};
ghost use Rattle.clfs_dump.specs.Printing.{Prints, OnlyReads, HasSinkCause};

use crate::container::{Listed, print_container};
use crate::piece::Ahead;
use crate::refusal::DumpRefusal;
use crate::selection::Selection;
use clfs_base::Row;
use clfs_disk::{Disk, calls_join};
use clfs_lsn::{Bytes, Shape};
use clfs_ports::Sink;
use std::alloc::Global;

/// Prints the containers in the files with these numbers, whose ids go on from the first one, and answers the byte after the last block of the last.
pub(crate) fn print_listed<D: Disk, K: Sink>(
    alloc: Global,
    selection: &Selection,
    rows: &[Row],
    shape: &Shape,
    first: u32,
    files: &[u16],
    piece: &mut Ahead,
    sink: &mut K,
    disk: &mut D,
) -> Result<u32, DumpRefusal>
    requires files { (i : ℕ) → i < length files.now → slice_index files.now i ≤ 256 }
    requires ids { first + length files.now ≤ 2 ^ 32 }
    requires shape { IsShape shape.now }
    requires room { sector_bytes * shape.now.block_sectors ≤ piece.old.room }
    requires streams { length rows.now < 2 ^ 16 }
    ensures told { TellsContents (D.state disk.old) → Prints (K.written sink.old) (K.written sink.new)
        (listed_told selection.now rows.now shape.now (D.state disk.old).files first 0 files.now).text
        (listed_told selection.now rows.now shape.now (D.state disk.old).files first 0 files.now).found result }
    ensures end { IfOk result (λ end. IsEnd shape.now end) }
    ensures reads { OnlyReads result (D.state disk.old) (D.state disk.new) }
    ensures sink { HasSinkCause result (K.faults sink.old) (K.faults sink.new) }
{
    calls_join::<D>();
    let mut payload = Bytes::new(alloc);
    let mut end = 0;
    for (i, file) in files.iter().enumerate() {
        let listed = Listed {
            id: first + i as u32,
            file: *file,
        };
        end = print_container(
            alloc,
            selection,
            rows,
            shape,
            &listed,
            piece,
            &mut payload,
            sink,
            disk,
        )?;
    }
    Ok(end)
}
