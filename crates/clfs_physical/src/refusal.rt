// Why the log wasn't changed on its disk.
ghost use Rattle.std.specs.Prelude.{◌≡◌};

use clfs_disk::Failed;
use std::alloc::AllocError;
use thiserror::Error;

/// Why a call that takes memory didn't do what it was to do.
#[derive(Clone, Copy, Debug, PartialEq, Eq, Error)]
pub enum PhysicalRefusal {
    /// The disk failed. What the call was to change may be changed in part: the log is to be read again.
    #[error("the disk failed")]
    DiskFault,
    /// No memory was left. The log is as before.
    #[error("out of memory")]
    NoMemory,
}

impl From<AllocError> for PhysicalRefusal {
    ghost use Rattle.clfs_physical.specs.declared.refusal.PhysicalRefusal.TheVariants.{NoMemory};

    ghost from_gives = { λ _ e. e ≡ NoMemory };

    fn from(_e: AllocError) -> PhysicalRefusal {
        PhysicalRefusal::NoMemory
    }
}

impl From<Failed> for PhysicalRefusal {
    ghost use Rattle.clfs_physical.specs.declared.refusal.PhysicalRefusal.TheVariants.{DiskFault};

    ghost from_gives = { λ _ e. e ≡ DiskFault };

    fn from(_e: Failed) -> PhysicalRefusal {
        PhysicalRefusal::DiskFault
    }
}
