//! The lines of a trial: a script that is made of one number.
//!
//! Eight lines open a stream and make an area for each of four clients. Each line after them is made of two draws from a sequence of
//! pseudo-random numbers, and of the LSNs that the replies before it told. Which line comes when is a definition (`specs/Generated.antt`). The
//! generator keeps what the next line needs, a number and four LSNs, and none of the lines.
#![tactic(auto)]

mod drawn;
mod generator;
mod kind;
mod rows;

pub use generator::{Generator, OPENING_LINES};
pub use rows::{advances, appends, calls_without_an_lsn, trial_of_one};
