//! The log manager over a disk.
//!
//! It makes a log, opens one and closes it: `Manager::format`, `load`, `close`; `reopen` opens it again. What files stand for is said by
//! `clfs_recover`, how a log is made by `clfs_format`, and how a base copy and a closed gate come to be there by `clfs_base` and `clfs_disk`. A
//! manager stands for a state of the log machine, which opening finds: it keeps the heads of the records, and their data stay on the disk.
//! Neither opening nor closing writes anything, so a crash in them leaves what it would have left before. `step` makes any call, by its value;
//! `stored` says of a log between two calls what its files stand for, and what a crash leaves of it.
//!
//! `create_area`, `delete_area`, `release`, `align` and `end_read` are calls on areas, which no disk has. `flush` and `flush_to` write what
//! waits as one group of blocks, so that a crash leaves all of it or none. `open_stream`, `advance`, which moves the base of a stream, and the
//! calls that set policies and archiving write the base copy that follows the newest one, so that a crash leaves the old setting or the new
//! one.
//!
//! Records are read by `read` and `read_next`, restart areas by `read_restart` and `previous_restart`, each at a cursor of an area. A record
//! that isn't on the disk yet is given from memory, each other one from its block, which is read as a whole and kept for those beside it.
//! `info` and `extents` tell what the log is like and what is to be archived, from memory alone. `read_raw` gives the bytes of the log's files as they
//! are on the disk, for who copies them.
//!
//! `records_kept`, `restarts_kept` and `ends_kept` tell how much memory keeps of the log's records: no more than twice what lies in the container of the
//! least LSN that is needed and after it.
//!
//! `set_size` gives the log more containers or fewer, and `reserve` sectors to an area, for which the log may grow. A change of the size is on
//! the disk when it is answered; what areas hold never is.
//!
//! `append` puts a record after the others, in memory; it is on the disk once it was flushed. `write_restart` writes a restart area and
//! flushes the log; with it, in one step, the base of its stream moves.
#![tactic(auto)]

mod appending;
mod archiving;
mod areas;
mod base;
mod carried;
mod fetching;
mod flushing;
mod followed;
mod info;
mod kept;
mod log;
mod manager;
mod measures;
mod opening;
mod preparing;
mod putting;
mod raw;
mod reaching;
mod reading;
mod refusals;
mod reopening;
mod replies;
mod reserving;
mod restarting;
mod settings;
mod sizes;
mod step;
mod stored;
mod survivors;

pub use clfs_format::FormatRefusal;
pub use clfs_recover::LoadRefusal;
pub use followed::{DiskName, Followed};
pub use manager::{FormatRefused, LoadRefused, Manager};
