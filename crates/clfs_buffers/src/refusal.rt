// Why no record was read.
ghost use Rattle.std.specs.Prelude.{◌≡◌};

use clfs_disk::Failed;
use std::alloc::AllocError;
use thiserror::Error;

/// Why no record was read. The blocks that are kept are as before.
#[derive(Clone, Copy, Debug, PartialEq, Eq, Error)]
pub enum ReadRefusal {
    /// The disk failed.
    #[error("the disk failed")]
    DiskFault,
    /// This byte of the block is wrong, and none before it in the order of the checks. A closed gate is told at byte 0, and a block that has
    /// too few records for the LSN at byte 4.
    #[error("byte {at} of a block is wrong")]
    Damaged { at: u32 },
    /// No memory was left.
    #[error("out of memory")]
    NoMemory,
}

impl From<AllocError> for ReadRefusal {
    ghost use Rattle.clfs_buffers.specs.declared.refusal.ReadRefusal.TheVariants.{NoMemory};

    ghost from_gives = { λ _ e. e ≡ NoMemory };

    fn from(_e: AllocError) -> ReadRefusal {
        ReadRefusal::NoMemory
    }
}

impl From<Failed> for ReadRefusal {
    ghost use Rattle.clfs_buffers.specs.declared.refusal.ReadRefusal.TheVariants.{DiskFault};

    ghost from_gives = { λ _ e. e ≡ DiskFault };

    fn from(_e: Failed) -> ReadRefusal {
        ReadRefusal::DiskFault
    }
}
