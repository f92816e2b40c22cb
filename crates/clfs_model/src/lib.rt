//! The log machine: its calls, its replies, its state, and the definition of what each call does.
//!
//! A reader who wants to know what the log promises reads `specs/` in the order of `specs/Lib.antt`, without a proof. The
//! definitions keep one list of all records and filter it; the crates above keep blocks, files, indexes and totals, and
//! prove that what they answer is what the machine answers. `State` is the type that contracts speak of: no function here
//! makes a value of it.
#![tactic(auto)]

mod call;
mod info;
mod journal;
mod laws;
mod refusal;
mod reply;
mod state;

pub use call::{Call, Draft};
pub use clfs_lsn::{Cursor, CursorKind, Mode, Stream};
pub use info::{Extent, Extents, LogInfo};
pub use journal::{Entry, Journal};
pub use laws::{calm_replies_are_a_run, records_are_as_their_heads, ways_of_a_step};
pub use refusal::Refusal;
pub use reply::{Happened, Reply};
pub use state::{Area, State};
