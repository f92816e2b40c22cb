//! Judging a log without opening it: whether a folder holds one, how much is in it, and else where it is broken.
//!
//! `check` makes the one walk that opening makes, over any bytes, and counts what it finds. It answers a report exactly where opening would
//! find a log, and else the very place that opening tells. It calls no write of the disk and keeps no record: a count of records and one of
//! blocks are all that it gathers, beside the newest base copy, one piece of a file that is read ahead, and one block. A folder that is marked
//! since a sync of it failed renews its files by itself, before the first read.
//!
//! Files that are shorter than they were made can still hold a whole log, if only their end is gone. So the report says apart from that
//! whether the files are at full length; a disk has no call for the length of a file, and `check` reads the one byte that would be the last.
#![tactic(auto)]

mod checking;
mod length;
mod report;
mod rows;

pub use checking::check;
pub use report::Report;
pub use rows::reports_of_a_small_log;
