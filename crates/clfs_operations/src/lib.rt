//! The commands of the program that stand on one log, over any source and sink.
//!
//! `serve` opens the log on a disk, takes a script from the source, answers each of its lines by the log as soon as it is whole, and writes the
//! reply before it looks at the next. What it promises is a clause of its contract: the bytes that it wrote are the replies of a run of the log
//! machine over the lines of the bytes that it took, over a disk that tells what its files hold from the state for which they stood; and where
//! no line is answered a fault, such files stand after it for the flushed part of the state that the run leaves, up to records that no reply can
//! show. `serve_within` is the same for a script of another length, also one that is endless for whoever sends it, of which an incomplete last line is
//! dropped where its caller says so. `txn` serves a table of cells so: a store of a table (`TableLines`) answers each line, read by `clfs_txn_script`.
//!
//! `race` reads the whole script, opens the log, and lets each client make its calls in a thread of its own over a log that all share
//! (`clfs_shared`). It writes the replies when all calls are made: those of one journal that is legal for the log machine, and in which each client's
//! calls are its lines in order.
//!
//! `format` makes a log. `trial` answers lines that `clfs_trial` makes, by a log in memory, and prints their sums. `check` judges a log by `clfs_check`, and
//! prints what is in it; `dump` prints a log as text by `clfs_dump`. `archive` and `restore` are those of `clfs_restore`.
//!
//! If nothing outside fails, a command is done, unless memory runs out; each says so in a clause of its own, `complete` (specs/Complete.antt).
//! `laws` says of commands what those above need that share a log among threads (`clfs_engine`).
#![tactic(auto)]

mod answering;
mod archiving;
mod asking;
mod checking;
mod dumping;
mod formatting;
mod laws;
mod making;
mod racing;
mod refusing;
mod restoring;
mod rows;
mod serving;
mod status;
mod table_lines;
mod tabling;
mod tally;
mod trying;
mod workers;

pub use archiving::archive;
pub use checking::check;
pub use clfs_lines::{DONE, INPUT_TOO_LONG, IncompleteLine, NO_MEMORY, SINK_FAULT, SOURCE_FAULT};
pub use clfs_race::{Gate, Pass};
pub use dumping::dump;
pub use formatting::format;
pub use laws::{journals_are_taken_from_logs, memory_runs_out_at_once, unopened_logs_are_told};
pub use making::made_log;
pub use racing::race;
pub use refusing::{push_number, refused};
pub use restoring::restore;
pub use rows::{
    appends_and_reads, areas, ends_of_lines, incomplete_lines, lengths_of_records, words_of_lines,
};
pub use serving::{LONGEST_SCRIPT, serve, serve_within};
pub use status::{
    ARCHIVE_GAP, ARCHIVE_TOO_LONG, DISK_FAULT, EXISTS, NOT_A_LOG, NOT_A_TABLE, NOT_AN_ARCHIVE,
    NOT_ARCHIVED, Outcome, REFUSED, UP_TO_OUTSIDE, USAGE,
};
pub use table_lines::TableLines;
pub use tabling::txn;
pub use trying::trial;
