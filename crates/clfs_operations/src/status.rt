// The statuses that a command ends with beside those of answering a script (`clfs_lines`), and what a command gives back.

/// The words are no command.
pub const USAGE: u8 = 1;

/// The disk failed.
pub const DISK_FAULT: u8 = 4;

/// The files of the folder aren't a log's.
pub const NOT_A_LOG: u8 = 6;

/// A log is there.
pub const EXISTS: u8 = 8;

/// The stream of a table is none.
pub const NOT_A_TABLE: u8 = 9;

/// The log refused to load a table.
pub const REFUSED: u8 = 10;

/// Archiving is off.
pub const NOT_ARCHIVED: u8 = 11;

/// The input isn't one or more archives.
pub const NOT_AN_ARCHIVE: u8 = 12;

/// No archive has a container that is needed.
pub const ARCHIVE_GAP: u8 = 13;

/// The log can't be restored up to what is asked for.
pub const UP_TO_OUTSIDE: u8 = 14;

/// The archive has more bytes than it may have.
pub const ARCHIVE_TOO_LONG: u8 = 15;

/// How a command ended.
#[derive(Debug, Drop)]
pub struct Outcome<D: Drop> {
    /// The status.
    pub status: u8,
    /// The disk that was handed in.
    pub disk: D,
}
