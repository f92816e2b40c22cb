// Why a log isn't made.
ghost use Rattle.std.specs.Prelude.{◌≡◌};

use clfs_disk::{Failed, GrowRefusal};
use std::alloc::AllocError;
use thiserror::Error;

/// Why a log wasn't made. After `DiskFault` and `NoMemory` the files may be changed in any part, and are to be thrown away.
#[derive(Clone, Copy, Debug, PartialEq, Eq, Error)]
pub enum FormatRefusal {
    /// A log is there: the gate of this slot of the base file is open. Nothing has changed.
    #[error("a log is there")]
    Exists {
        /// The slot, 0 or 1; of two open ones the lower.
        slot: u32,
    },
    /// The disk failed.
    #[error("the disk failed")]
    DiskFault,
    /// No memory was left.
    #[error("out of memory")]
    NoMemory,
}

impl From<AllocError> for FormatRefusal {
    ghost use Rattle.clfs_format.specs.declared.refusal.FormatRefusal.TheVariants.{NoMemory};

    ghost from_gives = { λ _ e. e ≡ NoMemory };

    fn from(_e: AllocError) -> FormatRefusal {
        FormatRefusal::NoMemory
    }
}

impl From<Failed> for FormatRefusal {
    ghost use Rattle.clfs_format.specs.declared.refusal.FormatRefusal.TheVariants.{DiskFault};

    ghost from_gives = { λ _ e. e ≡ DiskFault };

    fn from(_e: Failed) -> FormatRefusal {
        FormatRefusal::DiskFault
    }
}

impl From<GrowRefusal> for FormatRefusal {
    ghost use Rattle.clfs_format.specs.Making.{growth_refused};

    ghost from_gives = { λ refusal e. e ≡ growth_refused refusal };

    fn from(refusal: GrowRefusal) -> FormatRefusal {
        match refusal {
            GrowRefusal::Failed => FormatRefusal::DiskFault,
            GrowRefusal::NoMemory => FormatRefusal::NoMemory,
        }
    }
}
