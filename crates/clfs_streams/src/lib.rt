//! The table of streams: their names in the order of their first opening, and their bases.
//!
//! A stream is found in two ways: by its name, when a client opens it, and by its number, in every other call. The number is the
//! place of its name in the order of opening, counted from 1, and stays for ever, so no name is ever taken out. Opening takes its
//! memory first: once there is room for a row, adding it can't fail, and the other tables of the log can take theirs before any of
//! them has changed. Nothing is refused here: whether a name is legal, and how many streams there may be, is for the caller.
#![tactic(auto)]

mod streams;

pub use streams::Streams;
