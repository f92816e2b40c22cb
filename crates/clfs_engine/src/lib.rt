//! The program: `run` reads the words after FOLDER, and runs the command that they name.
//!
//! Most commands stand on one log, and are those of `clfs_operations`. Here are those whose threads share one: `crew` lets threads append by permits of one
//! shared area (`clfs_area`), over a log in memory, and prints how many records there are and how many sectors are still held. `crowd` lets threads append
//! that share their flushes (`clfs_group`), over a log in memory, and prints how many records there are and of how many of them the threads were told that
//! they are on the disk.
//!
//! `share_log` opens the log, and lets clients share it (`clfs_share`) until all have ended, each over a source and a sink of its own;
//! `run_share` is the same for words after FOLDER. `share_door` opens the log, and lets programs come and go by a door, and `run_door` is that for words.
#![tactic(auto)]

mod crewing;
mod crowding;
mod desk;
mod door;
mod members;
mod program;
mod sharing;
mod working;

pub use clfs_operations::{
    ARCHIVE_GAP, ARCHIVE_TOO_LONG, DISK_FAULT, DONE, EXISTS, Gate, INPUT_TOO_LONG, IncompleteLine,
    NO_MEMORY, NOT_A_LOG, NOT_A_TABLE, NOT_AN_ARCHIVE, NOT_ARCHIVED, Outcome, Pass, REFUSED,
    SINK_FAULT, SOURCE_FAULT, UP_TO_OUTSIDE, USAGE, appends_and_reads, archive, areas, check, dump,
    ends_of_lines, format, incomplete_lines, lengths_of_records, race, restore, serve,
    serve_within, trial, txn, words_of_lines,
};
pub use crewing::crew;
pub use crowding::crowd;
pub use door::{DoorOutcome, DoorRefusal, Doors, run_door, share_door};
pub use program::{NeedsThreads, ThreadedCommand, run, run_alone};
pub use sharing::{NONE_SERVED, PathOpeners, ShareOutcome, run_share, share_log};
