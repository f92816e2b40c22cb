//! The index of a stream: the heads of its records, sorted by LSN, and its base.
//!
//! Reading goes from record to record: to one that a link names, to the next one, to the last. Each of them is a search by halves
//! here, where the definitions filter one list of all records. New records come at the end, since LSNs only rise, so an append
//! costs a push. A link mostly leads to what was written last, so the last few heads are looked at before a search. A reader that goes
//! forward asks with the place after the record that it had last, and then nothing is searched.
//!
//! A base that moves changes a number alone. What it leaves after may still be needed: the record that a cursor stands at has the
//! links that reading goes on with, though it is dead. So dead heads go only when the caller says below which LSN nothing is read
//! any more, and then in whole pieces, as `forget_below` of `clfs_lsn` says. Neither call takes memory.
#![tactic(auto)]

mod place;
mod row;

pub use row::{Found, StreamIndex};
