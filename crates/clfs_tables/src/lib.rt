//! The tables of the records of all streams, joined into one.
//!
//! Each table answers what it is made for: the streams by name and number, a stream's records by LSN, its restart areas, the first live record
//! of every stream. Together they answer what the log is asked: which record is live at an LSN, where reading goes next, what the log still
//! needs. The answers are those of the definitions over the heads of all records, though the heads below an LSN below which nothing is live
//! are forgotten: no link that leads there leads to a record, and reading forward from there begins at the first live one.
//!
//! What streams and records alone decide of a call is answered here too, in the words of the machine: whether a link or a new base is one, why a
//! stream isn't opened, and where a cursor comes next. These answers are those of every state whose streams and records the tables have.
//!
//! No call takes memory but those that reserve it and `open_tables`, which makes the tables of a log that was opened. Nothing here is written
//! to a disk, so a crash leaves nothing of it; opening makes it again.
#![tactic(auto)]

mod names;
mod opening;
mod reaching;
mod records;
mod refusals;
mod tables;

pub use opening::open_tables;
pub use tables::Tables;
