// What a line of a script can ask for.
ghost use Rattle.std.specs.Prelude.{◌≡◌};
ghost use Rattle.clfs_script.specs.declared.line.LineRefusal.TheVariants.{NoMemory, BadLine};

use clfs_model::Call;
use clfs_text::BadWord;
use std::alloc::{AllocError, AllocFailed};
use thiserror::Error;

/// Which lines a script may have.
#[derive(Clone, Copy, Debug, PartialEq, Eq)]
pub enum Language {
    /// Those of clients' calls, and those that ask to open the log again.
    CallsAndReopening,
    /// Those of clients' calls alone.
    CallsAlone,
}

/// What a client asks for.
#[derive(Drop)]
pub enum Request {
    /// A call.
    Step(Call),
    /// To open the log again.
    Reopen,
}

/// A line of a script.
#[derive(Drop)]
pub struct ScriptLine {
    /// The client, 1 to 64.
    pub client: u16,
    /// What it asks for.
    pub request: Request,
}

/// Why a line was not read.
#[derive(Clone, Copy, Debug, PartialEq, Eq, Error)]
pub enum LineRefusal {
    /// Memory ran out.
    #[error("out of memory")]
    NoMemory,
    /// The line asks for nothing.
    #[error("byte {at} of the line is wrong")]
    BadLine {
        /// The first byte of the first word that no form allows, or the line's length where words lack.
        at: u32,
    },
}

impl From<AllocError> for LineRefusal {
    ghost from_gives = { λ _ e. e ≡ NoMemory };

    fn from(_: AllocError) -> LineRefusal {
        LineRefusal::NoMemory
    }
}

impl<T: Drop> From<AllocFailed<T>> for LineRefusal {
    ghost from_gives = { λ _ e. e ≡ NoMemory };

    fn from(_: AllocFailed<T>) -> LineRefusal {
        LineRefusal::NoMemory
    }
}

impl From<BadWord> for LineRefusal {
    ghost from_gives = { λ bad e. e ≡ BadLine bad.at };

    fn from(bad: BadWord) -> LineRefusal {
        LineRefusal::BadLine { at: bad.at }
    }
}
