//! Making a log on a disk: its files at full length, and its first base copy.
//!
//! `make_log` looks whether a slot of the base file is open, and if none is makes all files, closes the gates that are read first, and then writes
//! the first base copy, whose gate is opened last. From the moment at which the closed gates are on the disk, a crash leaves no open slot or the
//! whole log (`IsMadeAtOnce` in specs/Making.antt). What files stand for isn't said here.
//!
//! Whoever makes a log of something else, as restoring does, has the parts: `first_open_slot` looks for a log, `make_containers` makes the files
//! of its containers, and `write_first_copy` writes a base copy where no slot is open.
#![tactic(auto)]

mod files;
mod first_copy;
mod free;
mod making;
mod refusal;

pub use files::make_containers;
pub use first_copy::write_first_copy;
pub use free::first_open_slot;
pub use making::make_log;
pub use refusal::FormatRefusal;
