// What the file of a restored container begins with, in memory: its blocks that are left, and a closed gate after them.
ghost use Rattle.std.specs.Prelude.{◌≡◌, ◌+◌, ◌*◌, ◌≤◌, [], List, Some, IfOk, IfErr, length};
ghost use Rattle.std.specs.Option.{option_map_or};
ghost use Rattle.clfs_lsn.specs.Format.{sector_bytes};
ghost use Rattle.clfs_base.specs.Spelling.{IsImage};
ghost use Rattle.clfs_recover.specs.Walk.{shape_of};
ghost use Rattle.clfs_archive_form.specs.declared.archive.Stored.{Stored};
ghost use Rattle.clfs_archive_form.specs.Containers.{part_of};
ghost use Rattle.clfs_archive_form.specs.Reading.{CanBeRead};
ghost use Rattle.clfs_archive_form.specs.Restoring.{last_copy};
ghost use Rattle.clfs_archive_form.specs.Written.{IsReadable};
ghost use Rattle.clfs_restore.specs.Restoring.{IsPiece};

use clfs_archive_form::{
    Archive, archives_can_be_restored, blocks_in_a_row_are_open, put_blocks_below,
};
use clfs_base::BaseImage;
use clfs_lsn::{Lsn, SECTOR, Shape};
use std::alloc::{AllocError, Global};

// One of the values of a closed gate.
const CLOSED: u8 = 0;

// How large blocks and containers are, as a base copy says it.
pub(crate) fn shape_of(image: &BaseImage) -> Shape
    ensures { result ≡ shape_of image.now }
{
    Shape {
        block_sectors: image.block_sectors,
        container_sectors: image.container_sectors,
    }
}

// The blocks of a container as the input has them last, or none.
fn container_bytes<'a>(archives: &'a [u8], archive: &Archive, id: u32) -> &'a [u8]
    requires image { IsImage archive.now.image }
    requires read { CanBeRead archives.now archive.now }
    ensures exact { result.now ≡ option_map_or (λ (stored : Stored). part_of archives.now stored.at stored.len) (last_copy archive.now.containers id) [] }
    ensures short { length result.now ≤ sector_bytes * archive.now.image.container_sectors }
{
    archives_can_be_restored();
    match archive.containers.last_copy(id) {
        Some(stored) => {
            let rest = archives.split_at(stored.at).1;
            rest.split_at(stored.len as usize).0
        }
        None => &[],
    }
}

/// Fills a piece with what the file of a listed container begins with, and answers where its blocks end.
pub(crate) fn fill_piece(
    alloc: Global,
    archives: &[u8],
    archive: &Archive,
    up_to: Lsn,
    id: u32,
    piece: &mut Vec<u8>,
) -> Result<u32, AllocError>
    requires image { IsImage archive.now.image }
    requires read { CanBeRead archives.now archive.now }
    requires readable { IsReadable archives.now archive.now id }
    ensures { IfOk result (λ end. IsPiece archives.now archive.now up_to id piece.new.items end) }
{
    blocks_in_a_row_are_open();
    let shape = shape_of(&archive.image);
    let streams = archive.image.streams.as_slice().len() as u16;
    let blocks = container_bytes(archives, archive, id);
    piece.clear();
    put_blocks_below(alloc, &shape, streams, id, blocks, up_to, piece)?;
    let end = piece.len() as u32;
    if end < SECTOR * shape.container_sectors {
        piece.push(CLOSED)?;
    }
    Ok(end)
}
