// What a client can ask of the log.

use clfs_lsn::{Bytes, Lsn, Mode, Name, Policy, PolicyKind, Sizes};

/// A record that a client appends.
#[derive(Clone, Drop)]
pub struct Draft {
    /// Its data, of less than 2^32 bytes.
    pub bytes: Bytes,
    /// The record before it, or null.
    pub previous: Lsn,
    /// The record that undoing goes on with, or null.
    pub undo_next: Lsn,
    /// Its block takes no more records.
    pub seal: bool,
    /// The log is flushed after it.
    pub flush: bool,
}

/// A client's call. An area is named by its number among the client's, from 1 to 16.
#[derive(Clone, Drop)]
pub enum Call {
    /// The number of the stream of this name, which is made where there is none.
    OpenStream {
        /// The name, of less than 2^32 bytes; a legal one has 1 to 64.
        name: Name,
    },
    /// A new area on a stream.
    CreateArea {
        /// The stream's number, from 1.
        stream: u16,
        /// The most bytes of data of its records.
        largest: u32,
        /// The most cursors that it has at a time, 1 to 16.
        reads: u16,
    },
    /// The area ends, with what it holds and its cursors.
    DeleteArea {
        /// The area.
        area: u16,
    },
    /// The area holds the sectors for records of these lengths.
    Reserve {
        /// The area.
        area: u16,
        /// The lengths of the records to come.
        sizes: Sizes,
    },
    /// The area gives up sectors that it holds.
    Release {
        /// The area.
        area: u16,
        /// How many sectors.
        sectors: u32,
    },
    /// The sectors that records of these lengths would need.
    Align {
        /// The area.
        area: u16,
        /// The lengths of the records.
        sizes: Sizes,
    },
    /// A new record.
    Append {
        /// The area.
        area: u16,
        /// The record.
        draft: Draft,
        /// Whether it takes sectors that the area holds.
        reserved: bool,
        /// The lengths of later records that the area is to hold sectors for.
        sizes: Sizes,
    },
    /// The whole log goes to the disk.
    Flush {
        /// The area.
        area: u16,
    },
    /// The log goes to the disk, unless the record is there already.
    FlushTo {
        /// The area.
        area: u16,
        /// The record's LSN.
        lsn: Lsn,
    },
    /// A record, and a new cursor at it.
    Read {
        /// The area.
        area: u16,
        /// The record's LSN.
        lsn: Lsn,
        /// Where the cursor goes from there.
        mode: Mode,
    },
    /// The record that a cursor comes to next.
    ReadNext {
        /// The area.
        area: u16,
        /// The cursor's number in the area, from 1 to 16.
        cursor: u16,
    },
    /// The cursor ends.
    EndRead {
        /// The area.
        area: u16,
        /// The cursor's number in the area, from 1 to 16.
        cursor: u16,
    },
    /// A new restart area of the stream, on the disk.
    WriteRestart {
        /// The area.
        area: u16,
        /// Its data, of less than 2^32 bytes.
        bytes: Bytes,
        /// The stream's new base, or null where it stays.
        base: Lsn,
        /// Whether it takes sectors that the area holds.
        reserved: bool,
    },
    /// The stream's newest restart area, and a new cursor at it.
    ReadRestart {
        /// The area.
        area: u16,
    },
    /// The restart area before the cursor's.
    PreviousRestart {
        /// The area.
        area: u16,
        /// The cursor's number in the area, from 1 to 16.
        cursor: u16,
    },
    /// The stream's base moves, on the disk.
    Advance {
        /// The area.
        area: u16,
        /// The new base.
        lsn: Lsn,
    },
    /// Archiving is turned on or off.
    SetArchive {
        /// Whether it is to be on.
        on: bool,
    },
    /// The archive has what lies below the new tail.
    SetArchiveTail {
        /// The new tail.
        lsn: Lsn,
    },
    /// The parts of containers that are to be archived.
    ListExtents,
    /// A policy, in place of one of its kind.
    InstallPolicy {
        /// The policy.
        policy: Policy,
    },
    /// A policy is taken away.
    RemovePolicy {
        /// Its kind.
        kind: PolicyKind,
    },
    /// The log is to have this number of containers.
    SetSize {
        /// The number.
        containers: u32,
    },
    /// What the log and a stream are like.
    Info {
        /// The stream's number, from 1.
        stream: u16,
    },
}
