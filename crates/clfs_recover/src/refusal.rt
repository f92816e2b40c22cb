// Why a log isn't opened.
ghost use Rattle.std.specs.Prelude.{◌≡◌};
ghost use Rattle.clfs_recover.specs.Walk.{slot_offset};

use clfs_base::{NewestRefusal, SLOT_BYTES};
use clfs_disk::Failed;
use std::alloc::AllocError;
use thiserror::Error;

/// Why a log wasn't opened.
#[derive(Clone, Copy, Debug, PartialEq, Eq, Error)]
pub enum LoadRefusal {
    /// No slot of the base file is open: there is no log.
    #[error("no open slot")]
    NoBase,
    /// Bytes aren't those of a log, and this is the first place, in the order in which opening reads them.
    #[error("container {container} offset {offset} byte {at} is wrong")]
    Damaged {
        /// The container's id, or 0 in the base file.
        container: u32,
        /// The offset of the block in its container, or of the slot in the base file, in bytes.
        offset: u32,
        /// The byte of the block or of the slot.
        at: u32,
    },
    /// The disk failed.
    #[error("the disk failed")]
    DiskFault,
    /// No memory was left.
    #[error("out of memory")]
    NoMemory,
}

impl From<AllocError> for LoadRefusal {
    ghost use Rattle.clfs_recover.specs.declared.refusal.LoadRefusal.TheVariants.{NoMemory};

    ghost from_gives = { λ _ e. e ≡ NoMemory };

    fn from(_e: AllocError) -> LoadRefusal {
        LoadRefusal::NoMemory
    }
}

impl From<Failed> for LoadRefusal {
    ghost use Rattle.clfs_recover.specs.declared.refusal.LoadRefusal.TheVariants.{DiskFault};

    ghost from_gives = { λ _ e. e ≡ DiskFault };

    fn from(_e: Failed) -> LoadRefusal {
        LoadRefusal::DiskFault
    }
}

impl From<NewestRefusal> for LoadRefusal {
    ghost use Rattle.clfs_recover.specs.Files.{without_copy};

    ghost from_gives = { λ r e. e ≡ without_copy r };

    fn from(refusal: NewestRefusal) -> LoadRefusal {
        match refusal {
            NewestRefusal::NoBase => LoadRefusal::NoBase,
            NewestRefusal::BadByte { slot, at } => damaged_slot(slot, at),
            NewestRefusal::DiskFault => LoadRefusal::DiskFault,
            NewestRefusal::NoMemory => LoadRefusal::NoMemory,
        }
    }
}

// A byte of a slot of the base file is wrong.
pub(crate) fn damaged_slot(slot: u32, at: u32) -> LoadRefusal
    ensures { result ≡ LoadRefusal.Damaged 0 (slot_offset slot) at }
{
    LoadRefusal::Damaged {
        container: 0,
        offset: if slot == 0 { 0 } else { SLOT_BYTES },
        at,
    }
}
