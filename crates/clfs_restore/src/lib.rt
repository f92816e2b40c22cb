//! Archives of a log that is open, and logs that are restored of archives.
//!
//! `write_archive` takes the bytes of a log out, as `clfs_archive_form` defines an archive: the newest base copy, and the open blocks of the containers
//! from the archive tail's to the last that is listed. It reads the files through the log's manager, each of them once and in its order, and judges what
//! it reads as opening the log does. Nothing is written and no tail is moved: who has the archive in safety moves the tail by `move_tail`.
//!
//! So a crash in it leaves the files as they were. What it reads of a file is kept only as long as its blocks are judged and added to the archive, so
//! its memory is the archive's and that for one container.
//!
//! `restore` makes a log of one or more archives on a disk on which none is. It judges the archives whole before it writes anything. Then it makes the
//! files, writes into each what is left of a container with a closed gate after it, and at last the base copy, whose gate is opened once all else is on
//! the disk: so a crash leaves no log or the whole one.
#![tactic(auto)]

mod archiving;
mod containers;
mod copy;
mod filling;
mod laws;
mod moving;
mod piece;
mod refusal;
mod restoring;

pub use archiving::write_archive;
pub use clfs_format::first_open_slot;
pub use laws::{a_log_restored_of_its_archive_is_the_same, reads_may_come_first};
pub use moving::move_tail;
pub use refusal::{ArchiveRefusal, RestoreRefusal};
pub use restoring::{RestoreRefused, cause_after_fault, restore};
