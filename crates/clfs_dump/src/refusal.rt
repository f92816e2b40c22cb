// Why a log isn't dumped to its end.
ghost use Rattle.std.specs.Prelude.{◌≡◌};

use clfs_base::NewestRefusal;
use clfs_recover::LoadRefusal;
use std::alloc::AllocError;
use thiserror::Error;

/// Why a dump didn't come to the end of a log.
#[derive(Clone, Copy, Debug, PartialEq, Eq, Error)]
pub enum DumpRefusal {
    /// No slot of the base file is open: there is no log.
    #[error("no open slot")]
    NoBase,
    /// Bytes aren't those of a log, and this is the first place, the one that opening tells.
    #[error("container {container} offset {offset} byte {at} is wrong")]
    Damaged {
        /// The container's id, or 0 in the base file.
        container: u32,
        /// The offset of the block in its container, or of the slot in the base file, in bytes.
        offset: u32,
        /// The byte of the block or of the slot.
        at: u32,
    },
    /// The disk failed.
    #[error("the disk failed")]
    DiskFault,
    /// No memory was left.
    #[error("out of memory")]
    NoMemory,
    /// The sink failed.
    #[error("the sink failed")]
    SinkFault,
}

impl From<AllocError> for DumpRefusal {
    ghost use Rattle.clfs_dump.specs.declared.refusal.DumpRefusal.TheVariants.{NoMemory};

    ghost from_gives = { λ _ e. e ≡ NoMemory };

    fn from(_e: AllocError) -> DumpRefusal {
        DumpRefusal::NoMemory
    }
}

impl From<clfs_disk::Failed> for DumpRefusal {
    ghost use Rattle.clfs_dump.specs.declared.refusal.DumpRefusal.TheVariants.{DiskFault};

    ghost from_gives = { λ _ e. e ≡ DiskFault };

    fn from(_e: clfs_disk::Failed) -> DumpRefusal {
        DumpRefusal::DiskFault
    }
}

impl From<clfs_ports::Failed> for DumpRefusal {
    ghost use Rattle.clfs_dump.specs.declared.refusal.DumpRefusal.TheVariants.{SinkFault};

    ghost from_gives = { λ _ e. e ≡ SinkFault };

    fn from(_e: clfs_ports::Failed) -> DumpRefusal {
        DumpRefusal::SinkFault
    }
}

impl From<LoadRefusal> for DumpRefusal {
    ghost use Rattle.clfs_dump.specs.Printing.{as_dump};

    ghost from_gives = { λ r e. e ≡ as_dump r };

    fn from(refusal: LoadRefusal) -> DumpRefusal {
        match refusal {
            LoadRefusal::NoBase => DumpRefusal::NoBase,
            LoadRefusal::Damaged {
                container,
                offset,
                at,
            } => DumpRefusal::Damaged {
                container,
                offset,
                at,
            },
            LoadRefusal::DiskFault => DumpRefusal::DiskFault,
            LoadRefusal::NoMemory => DumpRefusal::NoMemory,
        }
    }
}
