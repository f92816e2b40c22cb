//! Log sequence numbers, sizes and places of records, and the plain types of the log.
//!
//! Most other crates stand on this one. It keeps no log and calls no disk: it has numbers, and bytes that it is given. `Lsn`
//! names a record by its container, its block's offset and its position in the block. `Shape` says how large blocks and
//! containers are, `Place` where the next record goes, and `place_after` is the one rule for it: the log appends by it, and
//! whoever reads a log again finds each record at the LSN that the rule gave. What tables keep by LSN are rows that
//! `place_of` and `forget_below` work on. The specs hold besides the calls' own definitions those that several crates above
//! cite: the free sectors of a log, what is read of the heads of records, streams and cursors in their lists, the spelling
//! of a record, the words of a script.
#![tactic(auto)]

mod bytes;
mod cursor;
mod entry;
mod format;
mod limits;
mod lsn;
mod name;
mod place;
mod policy;
mod room;
mod shape;
mod sizes;
mod sorted;
mod stream;

pub use bytes::Bytes;
pub use cursor::{Cursor, CursorKind, Mode};
pub use entry::{Head, Kind, LogEntry, head_of};
pub use format::{
    BLOCK_HEADER, MOST_BLOCK_RECORDS, OPEN_GATE, RECORD_HEADER, SECTOR, SECTOR_PAYLOAD, sectors_of,
    size_of_record,
};
pub use limits::{FEWEST_CONTAINERS, GREATEST_GROWTH, LONGEST_NAME, MOST_CONTAINERS, MOST_STREAMS};
pub use lsn::{Lsn, every_number_is_an_lsn};
pub use name::Name;
pub use place::{Place, frontier, place_after, sealed};
pub use policy::{Policy, PolicyKind};
pub use room::{push_reserved, push_zeros};
pub use shape::{Shape, longest, own};
pub use sizes::Sizes;
pub use sorted::{HasLsn, forget_below, place_of};
pub use stream::Stream;
