//! Transactions on a stream: a table of cells in a log, through the public calls of its manager alone.
//!
//! A store keeps the cells as they are now, and of each open transaction the sets that it made; the log has the rest. A transaction's beginning reserves
//! the room of all its records, so what it does later takes of what is held. A commit is answered after its flush. What each call does is defined in
//! `clfs_cells`: which calls of the log it makes, one after the other, and what it answers by their replies.
//!
//! Loading a store from a log, beginning, setting, taking sets back, committing, rolling back, reading a cell, writing a checkpoint and closing are here.
//! Loading comes to the log's table, as `clfs_cells_laws` says it of the log's records alone. A crash in a call leaves the files of a log with the table from
//! before it, or, in a commit, with that and its transaction (`specs/Crashes.antt`).
#![tactic(auto)]

mod asking;
mod beginning;
mod ending;
mod loading;
mod restarting;
mod setting;
mod store;
mod table;
mod undoing;

pub use loading::TxnLoadRefused;
pub use store::TxnStore;
