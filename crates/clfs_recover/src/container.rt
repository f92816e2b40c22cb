// The blocks of one container, one after the other, from its first byte up to a closed gate or its end.
ghost use Rattle.std.specs.Prelude.{◌≡◌, ◌*◌, ◌^◌, ◌<◌, ◌≤◌, ℕ, List, IsOk, IfOk, IfErr, OnOk, OnErr, IsErrOf, vec_len};
ghost use Rattle.clfs_lsn.specs.Format.{sector_bytes};
ghost use Rattle.clfs_lsn.specs.Size.{IsShape};
ghost use Rattle.clfs_lsn.specs.declared.entry.LogEntry.{LogEntry};
ghost use Rattle.clfs_disk.specs.Files.{Unchanged};
ghost use Rattle.clfs_disk.specs.State.{TellsContents, IsSteady, Passes, Rises};
ghost use Rattle.clfs_container.specs.OpenBlocks.{AreOpen};
ghost use Rattle.clfs_base.specs.declared.image.Row.{Row};
ghost use Rattle.clfs_recover.specs.Walk.{container_records};
ghost use Rattle.clfs_recover.specs.Fronts.{Shows, Reaches};
ghost use Rattle.clfs_recover.specs.Gathering.{HasTaken, RefusesAs, TakesContainer, IsEnd};
ghost use Rattle.clfs_recover.specs.Telling.{TellsBlock};

use crate::block::gather_block;
use crate::gatherer::Gatherer;
use crate::piece::Ahead;
use crate::records::BlockPlace;
use crate::refusal::LoadRefusal;
use clfs_block::{blocks_are_judged_alone, blocks_are_read_as_written};
use clfs_disk::{Disk, Failed, calls_join};
use clfs_lsn::{Bytes, Lsn, SECTOR, Shape};
use std::alloc::Global;

// A container that the base copy lists: its id, and the number of the file that it lies in.
#[derive(Clone, Copy)]
pub(crate) struct Listed {
    pub id: u32,
    pub file: u16,
}

// Sees that the piece has all of a largest block at a place, or all that its file has there.
fn cover<D: Disk>(
    disk: &mut D,
    file: u16,
    at: u32,
    least: usize,
    piece: &mut Ahead,
) -> Result<(), Failed>
    requires file { file ≤ 256 }
    requires room { (least ≤ piece.old.room) × (least < 2 ^ 32) }
    ensures shows { OnOk result (TellsContents (D.state disk.old) → Shows ((D.state disk.old).files file) piece.old
        → Shows ((D.state disk.old).files file) piece.new) }
    ensures reach { OnOk result (Reaches at least piece.new) }
    ensures room { piece.new.room ≡ piece.old.room }
    ensures same { Unchanged (D.state disk.old).files (D.state disk.new).files }
    ensures time { Passes Unchanged (D.state disk.old) (D.state disk.new) }
    ensures cause { OnErr result (Rises (D.state disk.old).faults (D.state disk.new).faults) }
    ensures steady { IsSteady (D.state disk.old) → IsOk result × ((D.state disk.new).faults ≡ (D.state disk.old).faults) }
{
    if piece.reaches(at, least) {
        return Ok(());
    }
    piece.slide(disk, file, at)
}

// Hands on the records of a container's open blocks, and answers the byte after the last.
pub(crate) fn gather_container<D: Disk, G: Gatherer>(
    alloc: Global,
    disk: &mut D,
    listed: &Listed,
    shape: &Shape,
    piece: &mut Ahead,
    payload: &mut Bytes,
    gatherer: &mut G,
    bases: &mut Vec<Lsn>,
) -> Result<u32, LoadRefusal>
    requires file { listed.now.file ≤ 256 }
    requires shape { IsShape shape.now }
    requires room { sector_bytes * shape.now.block_sectors ≤ piece.old.room }
    requires streams { vec_len bases.old < 2 ^ 16 }
    ensures taken { (rows : List Row) (before : List LogEntry) → HasTaken (G.has gatherer.old) rows bases.old.items before
        → IfOk result (λ end. TakesContainer shape.now (vec_len bases.old) listed.now.id (TellsContents (D.state disk.old))
        ((D.state disk.old).files listed.now.file) (G.has gatherer.new) rows bases.new.items before end) }
    ensures refused { TellsContents (D.state disk.old) → (rows : List Row) (before : List LogEntry) (blocks : List (List ℕ))
        → HasTaken (G.has gatherer.old) rows bases.old.items before
        → AreOpen shape.now.container_sectors ((D.state disk.old).files listed.now.file) blocks
        → IfErr result (λ refusal. RefusesAs refusal (container_records shape.now (vec_len bases.old) listed.now.id
        (record { bytes = (D.state disk.old).files listed.now.file; blocks = blocks }))) }
    ensures told { (rows : List Row) (before : List LogEntry) → HasTaken (G.has gatherer.old) rows bases.old.items before
        → IfErr result (TellsBlock shape.now (vec_len bases.old) listed.now.id 1) }
    ensures end { IfOk result (λ end. IsEnd shape.now end) }
    ensures room { piece.new.room ≡ piece.old.room }
    ensures streams { vec_len bases.new ≡ vec_len bases.old }
    ensures same { Unchanged (D.state disk.old).files (D.state disk.new).files }
    ensures time { Passes Unchanged (D.state disk.old) (D.state disk.new) }
    ensures cause { IsErrOf result LoadRefusal.DiskFault → Rises (D.state disk.old).faults (D.state disk.new).faults }
    ensures steady { IsSteady (D.state disk.old) → (IsErrOf result LoadRefusal.DiskFault → ⊥)
        × ((D.state disk.new).faults ≡ (D.state disk.old).faults) }
{
    calls_join::<D>();
    blocks_are_judged_alone();
    blocks_are_read_as_written();
    let end = SECTOR * shape.container_sectors;
    let largest = SECTOR as usize * shape.block_sectors as usize;
    let mut offset = 0;
    piece.read(disk, listed.file, offset)?;
    while offset < end {
        cover(disk, listed.file, offset, largest, piece)?;
        let place = BlockPlace {
            container: listed.id,
            offset,
        };
        let bytes = piece.bytes_from(offset);
        match gather_block(alloc, shape, &place, bytes, payload, gatherer, bases)? {
            Some(sectors) => offset += SECTOR * sectors,
            None => break,
        }
    }
    Ok(offset)
}
