// What a check tells of a log.
ghost use Rattle.std.specs.Prelude.{◌≡◌, List, length};
ghost use Rattle.clfs_lsn.specs.Place.{IsSmall};
ghost use Rattle.clfs_lsn.specs.declared.entry.LogEntry.{LogEntry};
ghost use Rattle.clfs_base.specs.Spelling.{IsImage};
ghost use Rattle.clfs_recover.specs.Opening.{parts_of};
ghost use Rattle.clfs_check.specs.Reporting.{report_of};

use clfs_lsn::{Lsn, frontier};
use clfs_recover::{Counts, Walked};

/// What was found in the files of a log.
#[derive(Clone, Copy, Debug, PartialEq, Eq)]
pub struct Report {
    /// The containers that the log has.
    pub containers: u32,
    /// Of these, the ones that hold its records now.
    pub listed: u32,
    /// The open blocks in them.
    pub blocks: u64,
    /// The records in these.
    pub records: u64,
    /// The streams.
    pub streams: u32,
    /// The LSN that every record lies below, and every later one at or above.
    pub place: Lsn,
    /// Whether all files that were made are there at full length.
    pub whole: bool,
}

// The report of what a walk found, with what it counted.
pub(crate) fn report_of(walked: &Walked, counts: &Counts, whole: bool) -> Report
    requires image { IsImage walked.now.image }
    requires place { IsSmall walked.now.place }
    ensures { (entries : List LogEntry) → counts.now.records ≡ length entries
        → result ≡ report_of (parts_of walked.now entries) counts.now.blocks whole }
{
    Report {
        containers: walked.image.containers as u32,
        listed: walked.image.files.as_slice().len() as u32,
        blocks: counts.blocks,
        records: counts.records,
        streams: walked.image.streams.as_slice().len() as u32,
        place: frontier(&walked.place),
        whole,
    }
}
