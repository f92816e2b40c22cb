//! A log as text: what `dump` prints, a line for each container, block and record that opening meets.
//!
//! The files are gone through as opening goes through them, from the newest base copy to the closed gate after the last block, and each part is
//! printed as soon as it was judged. Where a byte is wrong the text goes on as far as the bytes are right, up to the last record before it in its
//! block, and then names the place: the one that opening tells. Of the disk no write and no sync is called. What is kept is the newest base
//! copy, one piece of a file that is read ahead, one block and its text.
//!
//! `Selection` says which records are printed and how their data are. All that is found is judged, whatever is printed of it.
#![tactic(auto)]

mod block;
mod container;
mod data;
mod dumping;
mod ending;
mod laws;
mod lines;
mod listed;
mod piece;
mod printing;
mod records;
mod refusal;
mod rows;
mod selection;

pub use dumping::dump;
pub use laws::dumps_tell_what_opening_finds;
pub use refusal::DumpRefusal;
pub use rows::{dumps_of_a_small_log, lines_of_a_small_log};
pub use selection::{DataForm, Selection};
