// Why bytes are no record.
ghost use Rattle.std.specs.Prelude.{◌≡◌};
ghost use Rattle.clfs_record.specs.declared.refusal.RecordRefusal.TheVariants.{NoMemory};

use std::alloc::AllocError;
use thiserror::Error;

/// Why no record was read.
#[derive(Clone, Copy, Debug, PartialEq, Eq, Error)]
pub enum RecordRefusal {
    /// The byte at this place of the record is wrong, and none before it.
    #[error("byte {at} of a record is wrong")]
    BadByte { at: u32 },
    /// No memory was left for the data.
    #[error("out of memory")]
    NoMemory,
}

impl From<AllocError> for RecordRefusal {
    ghost from_gives = { λ _ e. e ≡ NoMemory };

    fn from(_e: AllocError) -> RecordRefusal {
        RecordRefusal::NoMemory
    }
}

/// Why no head was read.
#[derive(Clone, Copy, Debug, PartialEq, Eq, Error)]
pub enum HeadRefusal {
    /// The byte at this place of the record is wrong, and none before it.
    #[error("byte {at} of a record is wrong")]
    BadByte { at: u32 },
}

impl From<HeadRefusal> for RecordRefusal {
    ghost use Rattle.clfs_record.specs.Decoding.{as_record};

    ghost from_gives = { λ h e. e ≡ as_record h };

    fn from(refusal: HeadRefusal) -> RecordRefusal {
        match refusal {
            HeadRefusal::BadByte { at } => RecordRefusal::BadByte { at },
        }
    }
}
