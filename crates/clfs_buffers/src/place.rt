// Where a block lies.
ghost use Rattle.std.specs.Prelude.{◌≡◌, ◌+◌, ◌^◌, ◌<◌};
ghost use Rattle.clfs_lsn.specs.Limits.{most_block_records};
ghost use Rattle.clfs_buffers.specs.Reading.{block_place, first_lsn};

use clfs_lsn::Lsn;

/// Where a block lies: the container's id, and the block's offset in it in bytes.
#[derive(Clone, Copy, Debug, PartialEq, Eq, Hash)]
pub struct BlockPlace {
    /// The container's id.
    pub container: u32,
    /// The block's offset in its container, in bytes.
    pub offset: u32,
}

impl BlockPlace {
    /// The place of an LSN's block. The low bits of an LSN are the record's position alone, so that of any record of the block has its own
    /// number.
    pub fn of(lsn: Lsn) -> BlockPlace
        ensures place { result ≡ block_place lsn }
        ensures low { result.offset + most_block_records < 2 ^ 32 }
    {
        BlockPlace {
            container: lsn.container(),
            offset: lsn.offset(),
        }
    }

    // The LSN of the record at a position of the block.
    pub(crate) fn lsn(&self, sequence: u32) -> Lsn
        requires { self.now.offset + sequence < 2 ^ 32 }
        ensures { result ≡ first_lsn self.now + sequence }
    {
        Lsn::from_parts(self.container, self.offset, sequence)
    }
}
