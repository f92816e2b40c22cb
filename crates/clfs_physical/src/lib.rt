//! The log on its disk: what is written there, in which order, and what a crash at any moment leaves.
//!
//! On its disk a log is the newest copy in the base file, and the open blocks of the files that this copy lists (`Stored` in
//! specs/). `Physical` keeps that copy in memory with its slot, and has a call for each thing that is written: `flush` writes
//! the blocks that wait as one group after the open blocks of the last container; `write_copy`, `add_stream` and `drop_low`
//! write the copy that follows; `turn`, once nothing waits, drops the containers that are no longer needed and takes a file for the next
//! container; `set_containers` makes files and then counts them. Whatever a call answers, a crash at any moment of it leaves
//! the log of before, or with all of what a part of it writes: for a group the gate of its first block decides, for a copy
//! the gate of its slot.
//!
//! A log that was opened may lie in files that are shorter than their full lengths. What a call leaves is said of such a log as well
//! as of one whose files all have their full lengths, which they then keep (`whole` of `Stores`). Only that a call over a steady disk
//! never answers a fault is said of full lengths alone.
//!
//! A file that is used again still has the blocks of an earlier container in it. They don't come back: its first gate is closed before
//! a copy lists it, so its open blocks are none (`take_file`), and each group closes the gate after its last block, so
//! the open blocks are then those of the group and no more (`flush`).
//!
//! A call that answers that the disk failed leaves the value in memory without meaning: the log is to be read again.
#![tactic(auto)]

mod change;
mod containers;
mod copy;
mod free;
mod group;
mod growth;
mod physical;
mod refusal;
mod turn;

pub use change::Change;
pub use physical::Physical;
pub use refusal::PhysicalRefusal;
