// What a block's header says, and why bytes are no block.
ghost use Rattle.std.specs.Prelude.{◌≡◌};
ghost use Rattle.clfs_block.specs.declared.head.BlockRefusal.TheVariants.{NoMemory};

use std::alloc::AllocError;
use thiserror::Error;

/// What a block's header says of it.
#[derive(Clone, Copy, Debug, PartialEq, Eq)]
pub struct BlockHead {
    /// Its sectors of 512 bytes.
    pub sectors: u32,
    /// Its records.
    pub records: u32,
    /// Its used bytes of payload, the header's among them.
    pub used: u32,
}

/// Why no block was read.
#[derive(Clone, Copy, Debug, PartialEq, Eq, Error)]
pub enum BlockRefusal {
    /// The gate is closed: no block begins here, and nothing is wrong.
    #[error("the gate is closed")]
    Closed,
    /// The byte at this place of the block is wrong or isn't there, and none before it in the order of the checks.
    #[error("byte {at} of a block is wrong")]
    BadByte { at: u32 },
    /// No memory was left for the payload.
    #[error("out of memory")]
    NoMemory,
}

impl From<AllocError> for BlockRefusal {
    ghost from_gives = { λ _ e. e ≡ NoMemory };

    fn from(_e: AllocError) -> BlockRefusal {
        BlockRefusal::NoMemory
    }
}
