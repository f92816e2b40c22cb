// Why there is no base copy to read.
ghost use Rattle.std.specs.Prelude.{◌≡◌};

use clfs_disk::Failed;
use std::alloc::AllocError;
use thiserror::Error;

/// Why bytes are no base copy.
#[derive(Clone, Copy, Debug, PartialEq, Eq, Error)]
pub enum BaseRefusal {
    /// The byte at this place of the slot is wrong, and none before it in the order of the checks.
    #[error("byte {at} of a base copy is wrong")]
    BadByte { at: u32 },
    /// No memory was left for the image.
    #[error("out of memory")]
    NoMemory,
}

impl From<AllocError> for BaseRefusal {
    ghost use Rattle.clfs_base.specs.declared.refusal.BaseRefusal.TheVariants.{NoMemory};

    ghost from_gives = { λ _ e. e ≡ NoMemory };

    fn from(_e: AllocError) -> BaseRefusal {
        BaseRefusal::NoMemory
    }
}

/// Why the base file has no newest copy to read.
#[derive(Clone, Copy, Debug, PartialEq, Eq, Error)]
pub enum NewestRefusal {
    /// No slot is open.
    #[error("no open slot")]
    NoBase,
    /// The byte at this place of this slot is wrong, and none before it in the order of the checks.
    #[error("byte {at} of slot {slot} is wrong")]
    BadByte { slot: u32, at: u32 },
    /// The disk failed.
    #[error("the disk failed")]
    DiskFault,
    /// No memory was left.
    #[error("out of memory")]
    NoMemory,
}

impl From<AllocError> for NewestRefusal {
    ghost use Rattle.clfs_base.specs.declared.refusal.NewestRefusal.TheVariants.{NoMemory};

    ghost from_gives = { λ _ e. e ≡ NoMemory };

    fn from(_e: AllocError) -> NewestRefusal {
        NewestRefusal::NoMemory
    }
}

impl From<Failed> for NewestRefusal {
    ghost use Rattle.clfs_base.specs.declared.refusal.NewestRefusal.TheVariants.{DiskFault};

    ghost from_gives = { λ _ e. e ≡ DiskFault };

    fn from(_e: Failed) -> NewestRefusal {
        NewestRefusal::DiskFault
    }
}
