// The walk over the listed containers, in their order: one way through the files of a log for whoever wants its records, their heads, or
// only their number.
ghost use Rattle.std.specs.Prelude.{◌≡◌, ◌+◌, ◌-◌, ◌*◌, ◌^◌, ◌<◌, ◌≤◌, ℕ, List, length, slice_index, vec_len, IfOk, IfErr, IsErrOf};
ghost use Rattle.clfs_lsn.specs.Format.{sector_bytes};
ghost use Rattle.clfs_lsn.specs.Size.{IsShape};
ghost use Rattle.clfs_lsn.specs.declared.entry.LogEntry.{LogEntry};
ghost use Rattle.clfs_disk.specs.Files.{Unchanged};
ghost use Rattle.clfs_disk.specs.State.{TellsContents, IsSteady, Passes, Rises};
ghost use Rattle.clfs_base.specs.declared.image.Row.{Row};
ghost use Rattle.clfs_recover.specs.Walk.{Container, listed_records};
ghost use Rattle.clfs_recover.specs.Files.{AreListed};
ghost use Rattle.clfs_recover.specs.Gathering.{HasTaken, RefusesAs, TakesListed, IsEnd};
ghost use Rattle.clfs_recover.specs.Telling.{TellsBlock};

use crate::container::{Listed, gather_container};
use crate::gatherer::Gatherer;
use crate::piece::Ahead;
use crate::refusal::LoadRefusal;
use clfs_container::open_blocks_are_one_list;
use clfs_disk::{Disk, calls_join};
use clfs_lsn::{Bytes, Lsn, Shape};
use std::alloc::Global;

// Hands on the records of all listed containers, which lie in the files with these numbers and have the ids from the first one on, and
// answers the byte after the last block of the last.
pub(crate) fn gather_listed<D: Disk, G: Gatherer>(
    alloc: Global,
    disk: &mut D,
    first: u32,
    files: &[u16],
    shape: &Shape,
    piece: &mut Ahead,
    gatherer: &mut G,
    bases: &mut Vec<Lsn>,
) -> Result<u32, LoadRefusal>
    requires files { (i : ℕ) → i < length files.now → slice_index files.now i ≤ 256 }
    requires ids { first + length files.now ≤ 2 ^ 32 }
    requires shape { IsShape shape.now }
    requires room { sector_bytes * shape.now.block_sectors ≤ piece.old.room }
    requires streams { vec_len bases.old < 2 ^ 16 }
    ensures taken { (rows : List Row) (before : List LogEntry) → HasTaken (G.has gatherer.old) rows bases.old.items before
        → IfOk result (λ end. TakesListed shape.now (vec_len bases.old) first (TellsContents (D.state disk.old)) (D.state disk.old).files files.now
        (G.has gatherer.new) rows bases.new.items before end) }
    ensures refused { TellsContents (D.state disk.old) → (rows : List Row) (before : List LogEntry) (listed : List Container)
        → HasTaken (G.has gatherer.old) rows bases.old.items before
        → AreListed shape.now.container_sectors (D.state disk.old).files files.now listed
        → IfErr result (λ refusal. RefusesAs refusal (listed_records shape.now (vec_len bases.old) first listed)) }
    ensures told { (rows : List Row) (before : List LogEntry) → HasTaken (G.has gatherer.old) rows bases.old.items before
        → IfErr result (TellsBlock shape.now (vec_len bases.old) first (length files.now)) }
    ensures end { IfOk result (λ end. IsEnd shape.now end) }
    ensures streams { vec_len bases.new ≡ vec_len bases.old }
    ensures same { Unchanged (D.state disk.old).files (D.state disk.new).files }
    ensures time { Passes Unchanged (D.state disk.old) (D.state disk.new) }
    ensures cause { IsErrOf result LoadRefusal.DiskFault → Rises (D.state disk.old).faults (D.state disk.new).faults }
    ensures steady { IsSteady (D.state disk.old) → (IsErrOf result LoadRefusal.DiskFault → ⊥)
        × ((D.state disk.new).faults ≡ (D.state disk.old).faults) }
{
    calls_join::<D>();
    open_blocks_are_one_list();
    let mut payload = Bytes::new(alloc);
    let mut end = 0;
    for (i, file) in files.iter().enumerate() {
        let listed = Listed {
            id: first + i as u32,
            file: *file,
        };
        end = gather_container(
            alloc,
            disk,
            &listed,
            shape,
            piece,
            &mut payload,
            gatherer,
            bases,
        )?;
    }
    Ok(end)
}
