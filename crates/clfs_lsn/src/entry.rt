// A record with all that the log keeps of it, and its head, which is all of it but its data.
ghost use Rattle.std.specs.Prelude.{◌≡◌, ◌^◌, ◌<◌, length};
ghost use Rattle.clfs_lsn.specs.Head.{head_of};

use crate::bytes::Bytes;
use crate::lsn::Lsn;

/// What a record is.
#[derive(Clone, Copy, Debug, PartialEq, Eq)]
pub enum Kind {
    /// A record with a client's data.
    Plain,
    /// A restart area, which may carry a new base of its stream.
    Restart,
}

/// A record as the log keeps it.
#[derive(Clone, Debug, Drop)]
pub struct LogEntry {
    /// Where it lies: its container, its block's offset and its position in the block.
    pub lsn: Lsn,
    /// The number of its stream, from 1.
    pub stream: u16,
    /// What it is.
    pub kind: Kind,
    /// The record before it, as the client that appended it has it, or null.
    pub previous: Lsn,
    /// The record that undoing goes on with, as that client has it, or null.
    pub undo_next: Lsn,
    /// The base of its stream from it on, in a restart area; else null.
    pub new_base: Lsn,
    /// The client's data.
    pub bytes: Bytes,
}

/// All of a record but its data, of which it has the length. It is what the tables of the log keep, so that they stay small
/// whatever clients append. The small fields come last: a head takes 40 bytes then, and 48 in the order of a record's fields.
#[derive(Clone, Copy, Debug, PartialEq, Eq)]
pub struct Head {
    /// Where it lies: its container, its block's offset and its position in the block.
    pub lsn: Lsn,
    /// The record before it, as the client that appended it has it, or null.
    pub previous: Lsn,
    /// The record that undoing goes on with, as that client has it, or null.
    pub undo_next: Lsn,
    /// The base of its stream from it on, in a restart area; else null.
    pub new_base: Lsn,
    /// The bytes of its data.
    pub len: u32,
    /// The number of its stream, from 1.
    pub stream: u16,
    /// What it is.
    pub kind: Kind,
}

/// The head of a record.
pub fn head_of(entry: &LogEntry) -> Head
    requires { length entry.now.bytes < 2 ^ 32 }
    ensures { result ≡ head_of entry.now }
{
    Head {
        lsn: entry.lsn,
        stream: entry.stream,
        kind: entry.kind,
        previous: entry.previous,
        undo_next: entry.undo_next,
        new_base: entry.new_base,
        len: entry.bytes.len() as u32,
    }
}
