// Which records of a log are printed.
ghost use Rattle.std.specs.Prelude.{◌≡◌, ◌+◌, ◌^◌, ◌<◌, ◌≤◌, List, length};
ghost use Rattle.clfs_dump.specs.Selecting.{is_high_enough, is_low_enough, is_of_stream, is_chosen, meets_range};

use clfs_base::Row;
use clfs_lsn::{Head, Lsn, Name};

/// How the data of a record are printed.
#[derive(Clone, Copy, Debug, PartialEq, Eq)]
pub enum DataForm {
    /// In hexadecimal digits, as in a script's reply.
    Hex,
    /// In quotation marks, with a backslash before what can't stand there.
    Text,
    /// Not at all.
    Nothing,
}

/// Which records are printed, and how. The lines of blocks are printed if a record of the block can lie between the two LSNs; those of the log, its
/// streams and its containers always are.
#[derive(Debug, Drop)]
pub struct Selection {
    /// No record below this LSN.
    pub from: Option<Lsn>,
    /// No record at or above this LSN.
    pub to: Option<Lsn>,
    /// No record of a stream with another name.
    pub stream: Option<Name>,
    /// How data are printed.
    pub form: DataForm,
}

// Whether an LSN isn't below the least that is asked for.
fn is_high_enough(selection: &Selection, lsn: Lsn) -> bool
    ensures { result ≡ is_high_enough selection.now lsn }
{
    match selection.from {
        Some(from) => from <= lsn,
        None => true,
    }
}

// Whether an LSN is below the end of those that are asked for.
fn is_low_enough(selection: &Selection, lsn: Lsn) -> bool
    ensures { result ≡ is_low_enough selection.now lsn }
{
    match selection.to {
        Some(to) => lsn < to,
        None => true,
    }
}

// Whether a stream of these rows has the name that is asked for.
fn is_of_stream(selection: &Selection, rows: &[Row], stream: u16) -> bool
    requires { (1 ≤ stream) × (stream ≤ length rows.now) }
    ensures { result ≡ is_of_stream selection.now rows.now stream }
{
    match &selection.stream {
        Some(name) => rows[stream as usize - 1].name.as_slice() == name.as_slice(),
        None => true,
    }
}

/// Whether a record is printed.
pub(crate) fn is_chosen(selection: &Selection, rows: &[Row], head: &Head) -> bool
    requires { (1 ≤ head.now.stream) × (head.now.stream ≤ length rows.now) }
    ensures { result ≡ is_chosen selection.now rows.now head.now.lsn head.now.stream }
{
    is_high_enough(selection, head.lsn)
        && (is_low_enough(selection, head.lsn) && is_of_stream(selection, rows, head.stream))
}

/// Whether one of so many LSNs, from a block's first on, can be asked for.
pub(crate) fn meets_range(selection: &Selection, start: Lsn, records: u32) -> bool
    requires { start + records < 2 ^ 64 }
    ensures { result ≡ meets_range selection.now start records }
{
    let end = Lsn::of_number(start.number() + records as u64);
    let begins = match selection.from {
        Some(from) => from < end,
        None => true,
    };
    begins && is_low_enough(selection, start)
}
