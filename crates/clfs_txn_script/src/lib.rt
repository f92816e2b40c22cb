//! The lines of a table of cells: what a line asks for, and the text of a reply.
//!
//! `parse_txn_line` reads a line word by word from the left, and says of a line that asks for nothing where it goes wrong; it takes no memory.
//! `write_txn_reply` writes a reply's line after the text that is there. What both say is defined in `clfs_cells`.
#![tactic(auto)]

mod parsing;
mod reading;
mod verbs;
mod writing;

pub use parsing::parse_txn_line;
pub use writing::write_txn_reply;
