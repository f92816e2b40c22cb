// Why archives aren't taken.
ghost use Rattle.std.specs.Prelude.{◌≡◌};

use clfs_lsn::Lsn;
use std::alloc::AllocError;
use thiserror::Error;

/// Why no log is restored of an input.
#[derive(Clone, Copy, Debug, PartialEq, Eq, Error)]
pub enum InputRefusal {
    /// The input isn't one or more archives, and this byte of it is the first wrong one. It is the input's length where bytes are missing.
    #[error("not an archive: byte {at}")]
    NotAnArchive { at: u64 },
    /// The last base copy lists this container, and no archive has it.
    #[error("archive gap: container {container}")]
    Gap { container: u32 },
    /// The log can't be restored up to the LSN that is asked for: it isn't between these two.
    #[error("up-to outside {low} to {high}")]
    UpToInvalid { low: Lsn, high: Lsn },
    /// No memory was left.
    #[error("out of memory")]
    NoMemory,
}

impl From<AllocError> for InputRefusal {
    ghost use Rattle.clfs_archive_form.specs.declared.refusal.InputRefusal.TheVariants.{NoMemory};

    ghost from_gives = { λ _ e. e ≡ NoMemory };

    fn from(_e: AllocError) -> InputRefusal {
        InputRefusal::NoMemory
    }
}

// The byte at a place is the first wrong one.
pub(crate) fn wrong_at(at: usize) -> InputRefusal
    ensures { result ≡ InputRefusal.NotAnArchive at }
{
    InputRefusal::NotAnArchive { at: at as u64 }
}
