// Where the next record goes. A record joins the open block while that has room; else it begins a block after it, or at the
// start of the next container. So a block's records have the sequences 0, 1, 2 .. at one offset, and no block spans containers.
ghost use Rattle.std.specs.Prelude.{◌≡◌, ◌+◌, ◌-◌, ◌*◌, ◌^◌, ◌<◌, ◌≤◌, false};
ghost use Rattle.clfs_lsn.specs.Format.{sector_bytes, sector_payload};
ghost use Rattle.clfs_lsn.specs.Limits.{most_block_sectors, most_container_sectors};
ghost use Rattle.clfs_lsn.specs.Lsn.{lsn_number};
ghost use Rattle.clfs_lsn.specs.Size.{IsShape, size, sectors, longest};
ghost use Rattle.clfs_lsn.specs.Place.{IsWithin, IsSmall, joins, begins_here, begun, block_end, place_after, sealed, frontier};

use crate::format::{BLOCK_HEADER, MOST_BLOCK_RECORDS, SECTOR, sectors_of, size_of_record};
use crate::lsn::Lsn;
use crate::shape::{Shape, own};

/// Where the next record goes.
#[derive(Clone, Copy, Debug, PartialEq, Eq)]
pub struct Place {
    /// The container's id, from 1.
    pub container: u32,
    /// The offset of the open block, or of the next one where none is open, in bytes.
    pub offset: u32,
    /// The bytes of payload of the open block, its header among them; 0 where none is open.
    pub used: u32,
    /// The records of the open block; 0 where none is open.
    pub records: u32,
}

/// The LSN of a record with so many bytes of data, and the place after it.
pub fn place_after(shape: &Shape, place: &Place, len: u32) -> (Lsn, Place)
    requires shape { IsShape shape.now }
    requires place { IsWithin shape.now place.now }
    requires len { len ≤ longest shape.now }
    requires next_container { (joins shape.now place.now len ≡ false) → (begins_here shape.now place.now len ≡ false) → place.now.container < 2 ^ 32 - 1 }
    ensures value { result ≡ place_after shape.now place.now len }
    ensures within { IsWithin shape.now result.1 }
{
    let used = place.used + size_of_record(len) as u32;
    let sector = place.offset / SECTOR;
    if place.records >= 1
        && place.records < MOST_BLOCK_RECORDS
        && sectors_of(used as u64) as u32 <= shape.block_sectors
        && sectors_of(used as u64) as u32 <= shape.container_sectors - sector
    {
        let after = Place {
            container: place.container,
            offset: place.offset,
            used,
            records: place.records + 1,
        };
        return (
            Lsn::from_parts(place.container, place.offset, place.records),
            after,
        );
    }
    let end = sector + sectors_of(place.used as u64) as u32;
    if own(len) <= shape.container_sectors - end {
        begun_at(place.container, end, len)
    } else {
        begun_at(place.container + 1, 0, len)
    }
}

// The LSN of the first record of a block, and the place after it.
fn begun_at(container: u32, sector: u32, len: u32) -> (Lsn, Place)
    requires sector { sector ≤ most_container_sectors }
    requires len { len ≤ sector_payload * most_block_sectors }
    ensures { result ≡ (lsn_number container (sector_bytes * sector) 0, begun container sector len) }
{
    let place = Place {
        container,
        offset: SECTOR * sector,
        used: BLOCK_HEADER + size_of_record(len) as u32,
        records: 1,
    };
    (Lsn::from_parts(container, SECTOR * sector, 0), place)
}

/// The place once its block takes no more records.
pub fn sealed(place: &Place) -> Place
    requires { IsSmall place.now }
    ensures { result ≡ sealed place.now }
{
    let end = place.offset / SECTOR + sectors_of(place.used as u64) as u32;
    Place {
        container: place.container,
        offset: SECTOR * end,
        used: 0,
        records: 0,
    }
}

/// The LSN that every record lies below, and every later one at or above.
pub fn frontier(place: &Place) -> Lsn
    requires { IsSmall place.now }
    ensures { result ≡ frontier place.now }
{
    Lsn::from_parts(place.container, place.offset, place.records)
}
