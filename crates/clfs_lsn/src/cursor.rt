// Where a read context stands, and where it goes.

use crate::lsn::Lsn;

/// Where a read context goes from a record.
#[derive(Clone, Copy, Debug, PartialEq, Eq)]
pub enum Mode {
    /// To the record that its previous link names.
    Previous,
    /// To the record that its undo-next link names.
    UndoNext,
    /// To the next record of the stream.
    Forward,
}

/// What a cursor goes over.
#[derive(Clone, Copy, Debug, PartialEq, Eq)]
pub enum CursorKind {
    /// Records, in this mode.
    Records(Mode),
    /// Restart areas, from the newest to older ones.
    RestartAreas,
}

/// Where a read context stands.
#[derive(Clone, Copy, Debug)]
pub struct Cursor {
    /// Its number in its area, from 1 to 16.
    pub number: u16,
    /// What it goes over.
    pub kind: CursorKind,
    /// The record that it gave last.
    pub last: Lsn,
}
