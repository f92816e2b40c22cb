// What a record says of itself beside its data and its place.
use clfs_lsn::{Kind, Lsn};

/// All of a record but its LSN and its data: what a record's header spells beside the length.
#[derive(Clone, Copy, Debug, PartialEq, Eq)]
pub struct Fields {
    /// The number of its stream, from 1.
    pub stream: u16,
    /// What it is.
    pub kind: Kind,
    /// The record before it, as the client that appends it has it, or null.
    pub previous: Lsn,
    /// The record that undoing goes on with, as that client has it, or null.
    pub undo_next: Lsn,
    /// The base of its stream from it on, in a restart area; else null.
    pub new_base: Lsn,
}
