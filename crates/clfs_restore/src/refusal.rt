// Why a log isn't archived, and why none is restored.
ghost use Rattle.std.specs.Prelude.{◌≡◌};

use clfs_archive_form::InputRefusal;
use clfs_disk::{Failed, GrowRefusal};
use clfs_lsn::Lsn;
use clfs_model::Refusal;
use clfs_recover::LoadRefusal;
use std::alloc::AllocError;
use thiserror::Error;

/// Why no archive of a log was written.
#[derive(Clone, Copy, Debug, PartialEq, Eq, Error)]
pub enum ArchiveRefusal {
    /// The log doesn't give it: `Ephemeral` where archiving is off, `DiskFault` where a file isn't read, and `Damaged` where what is read isn't a log's.
    #[error("{0}")]
    Log(Refusal),
    /// The archive has more bytes than one may have.
    #[error("archive too long")]
    TooLong {
        /// How many it has.
        bytes: u64,
    },
    /// Memory ran out.
    #[error("out of memory")]
    NoMemory,
}

impl From<AllocError> for ArchiveRefusal {
    ghost use Rattle.clfs_restore.specs.declared.refusal.ArchiveRefusal.TheVariants.{NoMemory};

    ghost from_gives = { λ _ e. e ≡ NoMemory };

    fn from(_e: AllocError) -> ArchiveRefusal {
        ArchiveRefusal::NoMemory
    }
}

impl From<Refusal> for ArchiveRefusal {
    ghost use Rattle.clfs_restore.specs.Archiving.{of_log};

    ghost from_gives = { λ r e. e ≡ of_log r };

    fn from(refusal: Refusal) -> ArchiveRefusal {
        match refusal {
            Refusal::NoMemory => ArchiveRefusal::NoMemory,
            other => ArchiveRefusal::Log(other),
        }
    }
}

impl From<LoadRefusal> for ArchiveRefusal {
    ghost use Rattle.clfs_restore.specs.Archiving.{refused_as};

    ghost from_gives = { λ r e. e ≡ refused_as r };

    fn from(refusal: LoadRefusal) -> ArchiveRefusal {
        match refusal {
            LoadRefusal::NoBase => ArchiveRefusal::Log(Refusal::Damaged {
                container: 0,
                offset: 0,
                at: 0,
            }),
            LoadRefusal::Damaged {
                container,
                offset,
                at,
            } => ArchiveRefusal::Log(Refusal::Damaged {
                container,
                offset,
                at,
            }),
            LoadRefusal::DiskFault => ArchiveRefusal::Log(Refusal::DiskFault),
            LoadRefusal::NoMemory => ArchiveRefusal::NoMemory,
        }
    }
}

/// Why no log was restored. After `DiskFault` and `NoMemory` the files may be changed in any part; as long as no slot is open they may be used for
/// restoring again, as they are.
#[derive(Clone, Copy, Debug, PartialEq, Eq, Error)]
pub enum RestoreRefusal {
    /// A log is there: the gate of this slot of the base file is open. Nothing has changed.
    #[error("a log is there")]
    Exists {
        /// The slot, 0 or 1; of two open ones the lower.
        slot: u32,
    },
    /// The input isn't one or more archives. Nothing has changed.
    #[error("not an archive: byte {at}")]
    NotAnArchive {
        /// The first byte that is wrong, or the input's end where bytes are missing.
        at: u64,
    },
    /// No archive has a container that the last base copy lists. Nothing has changed.
    #[error("archive gap: container {container}")]
    Gap {
        /// The least such container.
        container: u32,
    },
    /// The log can't be restored up to this LSN. Nothing has changed.
    #[error("up-to outside {low} to {high}")]
    UpToInvalid {
        /// The lowest LSN that may be asked for.
        low: Lsn,
        /// The highest one.
        high: Lsn,
    },
    /// The disk failed.
    #[error("the disk failed")]
    DiskFault,
    /// Memory ran out.
    #[error("out of memory")]
    NoMemory,
}

impl From<AllocError> for RestoreRefusal {
    ghost use Rattle.clfs_restore.specs.declared.refusal.RestoreRefusal.TheVariants.{NoMemory};

    ghost from_gives = { λ _ e. e ≡ NoMemory };

    fn from(_e: AllocError) -> RestoreRefusal {
        RestoreRefusal::NoMemory
    }
}

impl From<Failed> for RestoreRefusal {
    ghost use Rattle.clfs_restore.specs.declared.refusal.RestoreRefusal.TheVariants.{DiskFault};

    ghost from_gives = { λ _ e. e ≡ DiskFault };

    fn from(_e: Failed) -> RestoreRefusal {
        RestoreRefusal::DiskFault
    }
}

impl From<GrowRefusal> for RestoreRefusal {
    ghost use Rattle.clfs_restore.specs.Restoring.{of_growth};

    ghost from_gives = { λ refusal e. e ≡ of_growth refusal };

    fn from(refusal: GrowRefusal) -> RestoreRefusal {
        match refusal {
            GrowRefusal::Failed => RestoreRefusal::DiskFault,
            GrowRefusal::NoMemory => RestoreRefusal::NoMemory,
        }
    }
}

impl From<InputRefusal> for RestoreRefusal {
    ghost use Rattle.clfs_restore.specs.Restoring.{of_input};

    ghost from_gives = { λ refusal e. e ≡ of_input refusal };

    fn from(refusal: InputRefusal) -> RestoreRefusal {
        match refusal {
            InputRefusal::NotAnArchive { at } => RestoreRefusal::NotAnArchive { at },
            InputRefusal::Gap { container } => RestoreRefusal::Gap { container },
            InputRefusal::UpToInvalid { low, high } => RestoreRefusal::UpToInvalid { low, high },
            InputRefusal::NoMemory => RestoreRefusal::NoMemory,
        }
    }
}
