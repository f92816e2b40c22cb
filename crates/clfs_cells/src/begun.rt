// An open transaction, and the sets that it made. It has room for as many as any transaction can make, so none is refused because memory ran out.
ghost use Rattle.std.specs.Prelude.{◌≤◌};

use crate::row::Change;
use clfs_lsn::Lsn;

/// The most sets of a transaction.
pub const MOST_CHANGES: usize = 7;

/// A set that an open transaction made.
#[derive(Clone, Copy, Debug)]
pub struct Made {
    /// Its record.
    pub lsn: Lsn,
    /// The set that undoing goes on with after it, or null.
    pub undo_next: Lsn,
    /// What it changed.
    pub change: Change,
    /// Whether it was taken back.
    pub undone: bool,
}

/// An open transaction.
#[derive(Clone, Copy, Debug)]
pub struct Transaction {
    pub(crate) number: u32,
    pub(crate) changes: u16,
    pub(crate) sets: [Made; MOST_CHANGES],
    pub(crate) count: usize,
    pub(crate) last: Lsn,
    ghost few: { count ≤ changes },
    ghost most: { changes ≤ 7 },
}
