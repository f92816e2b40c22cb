// The containers of an archive. A container's file is read whole, into memory that serves all of them, and its blocks are judged there; those that are
// open go on into the archive.
ghost use Rattle.std.specs.Prelude.{◌≡◌, ◌+◌, ◌*◌, ◌^◌, ◌<◌, ◌≤◌, false, ℕ, List, length, map, slice_index, vec_len, IfOk, OnOk, Ok, IfErr};
ghost use Rattle.std.specs.Result.{result_err};
ghost use Rattle.std.specs.List.{flat_map};
ghost use Rattle.clfs_lsn.specs.Size.{IsShape};
ghost use Rattle.clfs_lsn.specs.declared.entry.LogEntry.{LogEntry};
ghost use Rattle.clfs_disk.specs.State.{TellsContents};
ghost use Rattle.clfs_container.specs.OpenBlocks.{AreWhole};
ghost use Rattle.clfs_base.specs.Spelling.{IsImage};
ghost use Rattle.clfs_recover.specs.Stored.{stored_in};
ghost use Rattle.clfs_recover.specs.Walk.{shape_of};
ghost use Rattle.clfs_archive_form.specs.Form.{piece_bytes};
ghost use Rattle.clfs_restore.specs.Archiving.{IsOfReading, Reads, GivesBlocks, GoesOn, AreReadable, TellsContainer, pieces_from};

use crate::copy::{read_front, zeros};
use crate::refusal::ArchiveRefusal;
use clfs_archive_form::{Draft, Judge};
use clfs_base::BaseImage;
use clfs_disk::{Disk, calls_join};
use clfs_lsn::{SECTOR, Shape};
use clfs_manager::Manager;
use std::alloc::Global;

// Reads the container that lies in a file, and answers where its open blocks end. The piece has its bytes then.
fn read_container<D: Disk>(
    alloc: Global,
    manager: &mut Manager<D>,
    judge: &mut Judge,
    id: u32,
    file: u16,
    piece: &mut Vec<u8>,
) -> Result<u32, ArchiveRefusal>
    requires unbroken { manager.old.0.broken ≡ false }
    requires file { file ≤ 256 }
    requires room { vec_len piece.old ≡ 512 * judge.old.shape.container_sectors }
    requires few { judge.old.shape.container_sectors < 2 ^ 20 }
    ensures blocks { TellsContents (D.state manager.old.1) → (blocks : List (List ℕ)) (entries : List LogEntry)
        → AreWhole judge.old.shape.container_sectors ((D.state manager.old.1).files file) blocks
        → stored_in judge.old.shape judge.old.streams id 0 blocks ≡ Ok entries → GivesBlocks result piece.new.items blocks }
    ensures end { IfOk result (λ end. end ≤ vec_len piece.new) }
    ensures damage { IfErr result (TellsContainer judge.old.shape judge.old.streams id 1) }
    ensures room { vec_len piece.new ≡ vec_len piece.old }
    ensures same { judge.new ≡ judge.old }
    ensures only { IfErr result IsOfReading }
    ensures reads { Reads (result_err result) manager.old.0 manager.new.0 (D.state manager.old.1) (D.state manager.new.1) }
{
    let count = read_front(manager, file, piece)?;
    let end = judge.open_end(alloc, id, &piece[..count])?;
    Ok(end)
}

// Adds the container that lies in a file to an archive.
fn put_container<D: Disk>(
    alloc: Global,
    manager: &mut Manager<D>,
    judge: &mut Judge,
    id: u32,
    file: u16,
    piece: &mut Vec<u8>,
    draft: &mut Draft,
) -> Result<(), ArchiveRefusal>
    requires unbroken { manager.old.0.broken ≡ false }
    requires file { file ≤ 256 }
    requires room { vec_len piece.old ≡ 512 * judge.old.shape.container_sectors }
    requires few { judge.old.shape.container_sectors < 2 ^ 20 }
    requires short { length draft.old.archive < 2 ^ 63 }
    ensures blocks { TellsContents (D.state manager.old.1) → (blocks : List (List ℕ)) (entries : List LogEntry)
        → AreWhole judge.old.shape.container_sectors ((D.state manager.old.1).files file) blocks
        → stored_in judge.old.shape judge.old.streams id 0 blocks ≡ Ok entries
        → GoesOn result draft.old.archive draft.new.archive (piece_bytes (id, blocks)) }
    ensures length { OnOk result (length draft.new.archive ≤ length draft.old.archive + 2 ^ 30) }
    ensures damage { IfErr result (TellsContainer judge.old.shape judge.old.streams id 1) }
    ensures before { draft.new.before ≡ draft.old.before }
    ensures room { vec_len piece.new ≡ vec_len piece.old }
    ensures same { judge.new ≡ judge.old }
    ensures only { IfErr result IsOfReading }
    ensures reads { Reads (result_err result) manager.old.0 manager.new.0 (D.state manager.old.1) (D.state manager.new.1) }
{
    let end = read_container(alloc, manager, judge, id, file, piece)?;
    draft.put_container(id, &piece[..end as usize])?;
    Ok(())
}

// How large blocks and containers are, as a base copy says it.
fn shape_of(image: &BaseImage) -> Shape
    ensures { result ≡ shape_of image.now }
{
    Shape {
        block_sectors: image.block_sectors,
        container_sectors: image.container_sectors,
    }
}

// Adds the containers in the files with these numbers to an archive. Their ids go on from one.
pub(crate) fn put_containers<D: Disk>(
    alloc: Global,
    manager: &mut Manager<D>,
    image: &BaseImage,
    from: u32,
    numbers: &[u16],
    draft: &mut Draft,
) -> Result<(), ArchiveRefusal>
    requires unbroken { manager.old.0.broken ≡ false }
    requires image { IsImage image.now }
    requires files { (i : ℕ) → i < length numbers.now → slice_index numbers.now i ≤ 256 }
    requires ids { from + length numbers.now ≤ 2 ^ 32 }
    requires few { length numbers.now ≤ 2 ^ 16 }
    requires short { length draft.old.archive < 2 ^ 32 }
    ensures blocks { TellsContents (D.state manager.old.1) → (blocks : ℕ → List (List ℕ))
        → AreReadable (shape_of image.now) (length image.now.streams) from (D.state manager.old.1).files numbers.now blocks
        → GoesOn result draft.old.archive draft.new.archive (flat_map piece_bytes (pieces_from from (map blocks numbers.now))) }
    ensures damage { IfErr result (TellsContainer (shape_of image.now) (length image.now.streams) from (length numbers.now)) }
    ensures before { draft.new.before ≡ draft.old.before }
    ensures only { IfErr result IsOfReading }
    ensures reads { Reads (result_err result) manager.old.0 manager.new.0 (D.state manager.old.1) (D.state manager.new.1) }
{
    calls_join::<D>();
    let shape = shape_of(image);
    let mut judge = Judge::new(alloc, &shape, image.streams.as_slice().len() as u16)?;
    let mut piece = zeros(alloc, SECTOR as usize * shape.container_sectors as usize)?;
    for (i, file) in numbers.iter().enumerate() {
        let id = from + i as u32;
        put_container(alloc, manager, &mut judge, id, *file, &mut piece, draft)?;
    }
    Ok(())
}
