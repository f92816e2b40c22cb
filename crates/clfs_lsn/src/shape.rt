// How large blocks and containers are, and what a record takes of them.
ghost use Rattle.std.specs.Prelude.{◌≡◌, ◌+◌, ◌-◌, ◌*◌, ◌/◌, ◌^◌, ◌<◌, ◌≤◌};
ghost use Rattle.clfs_lsn.specs.Size.{IsShape, size, sectors, own, longest};

use crate::format::{BLOCK_HEADER, RECORD_HEADER, SECTOR_PAYLOAD, sectors_of, size_of_record};

/// How large the blocks and the containers of a log are.
#[derive(Clone, Copy, Debug, PartialEq, Eq)]
pub struct Shape {
    /// The sectors of the largest block, 1 to 128.
    pub block_sectors: u32,
    /// The sectors of a container, at least twice as many, at most 16,384.
    pub container_sectors: u32,
}

/// The sectors of a block that has one record, with so many bytes of data.
pub fn own(len: u32) -> u32
    ensures { result ≡ own len }
{
    sectors_of(BLOCK_HEADER as u64 + size_of_record(len)) as u32
}

/// The most bytes of data that a record can have.
pub fn longest(shape: &Shape) -> u32
    requires { IsShape shape.now }
    ensures { result ≡ longest shape.now }
{
    SECTOR_PAYLOAD * shape.block_sectors - (BLOCK_HEADER + RECORD_HEADER)
}
