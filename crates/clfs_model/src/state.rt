// The state of the log machine, as contracts see it. A program that keeps a log needn't make a value of it: it may keep indexes and
// totals, and say which state they stand for.

use clfs_lsn::{Cursor, LogEntry, Lsn, Place, Shape, Stream};
use std::collections::LinkedList;

/// A client's area on a stream.
#[derive(Drop)]
pub struct Area {
    /// The client, 1 to 64.
    pub client: u16,
    /// Its number among the client's areas, from 1 to 16.
    pub number: u16,
    /// The number of its stream.
    pub stream: u16,
    /// The most bytes of data of its records.
    pub largest: u32,
    /// The most cursors that it has at a time.
    pub reads: u16,
    /// The sectors that it holds for records to come.
    pub held: u32,
    /// Its cursors, in the order of their making.
    pub cursors: LinkedList<Cursor>,
}

/// The state of a log.
#[derive(Drop)]
pub struct State {
    /// How large its blocks and containers are.
    pub shape: Shape,
    /// Whether it is dedicated: it has at most one stream. It stays as it was made.
    pub dedicated: bool,
    /// The containers that it has, 1 to 256.
    pub containers: u32,
    /// The number of write buffers, 1 to 64, which bounds the blocks that wait.
    pub buffers: u32,
    /// The streams, in the order of their first opening.
    pub streams: LinkedList<Stream>,
    /// The records of all streams, their LSNs rising.
    pub records: LinkedList<LogEntry>,
    /// Where the next record goes.
    pub place: Place,
    /// The starts of the sealed blocks that aren't written, rising.
    pub waiting: LinkedList<Lsn>,
    /// The areas of all clients.
    pub areas: LinkedList<Area>,
    /// The archive tail, where archiving is on.
    pub archive: Option<Lsn>,
    /// The policy of the most containers, where it is installed.
    pub maximum: Option<u16>,
    /// The policy of the fewest containers, where it is installed.
    pub minimum: Option<u16>,
    /// The policy of the growth rate, where it is installed.
    pub growth: Option<u16>,
    /// Whether the policy of automatic growth is installed.
    pub automatic: bool,
    /// Whether an earlier call met a disk fault or damage.
    pub broken: bool,
}
