// What the log answers.
ghost use Rattle.std.specs.Prelude.{◌≡◌};
ghost use Rattle.clfs_model.specs.Happened.{happened_of};

use crate::info::{Extents, LogInfo};
use crate::refusal::Refusal;
use clfs_lsn::{LogEntry, Lsn};

/// The reply to a call.
#[derive(Clone, Drop)]
pub enum Reply {
    /// The number of the stream, from 1.
    Stream(u16),
    /// The number of the new area among the client's, from 1.
    Area(u16),
    /// It was done.
    Done,
    /// The sectors that the area now holds.
    Held(u32),
    /// The sectors that the records would need.
    Sectors(u32),
    /// The LSN of the new record.
    Placed(Lsn),
    /// The LSN below which all records are on the disk.
    Flushed(Lsn),
    /// A new cursor and its record.
    Found {
        /// The cursor's number in the area, from 1.
        cursor: u16,
        /// The record.
        entry: LogEntry,
    },
    /// The record that a cursor came to.
    Next(LogEntry),
    /// The stream's base.
    Base(Lsn),
    /// The archive tail.
    Tail(Lsn),
    /// The extents to be archived.
    Extents(Extents),
    /// The containers that the log now has.
    Containers(u32),
    /// What the log and the stream are like.
    Info(LogInfo),
    /// Why the call was refused.
    Refused(Refusal),
}

/// What a call met outside.
#[derive(Clone, Copy, Debug, PartialEq, Eq)]
pub enum Happened {
    /// Nothing that it answers for.
    Fine,
    /// A fault of the disk.
    Fault,
    /// Bytes that aren't those of a log.
    Damage,
}

impl Reply {
    /// What the call met, which its reply tells.
    pub fn happened(&self) -> Happened
        ensures { result ≡ happened_of self.now }
    {
        match self {
            Reply::Refused(Refusal::DiskFault) => Happened::Fault,
            Reply::Refused(Refusal::Damaged { .. }) => Happened::Damage,
            _ => Happened::Fine,
        }
    }
}
