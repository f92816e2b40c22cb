//! The system outside: a folder as a disk, standard input as a source and standard output as a sink.
//!
//! What lies here is trusted, not proved: that the system reads and writes what it is asked to, and that what it says it has synced
//! outlasts a crash. What is proved of it is the little that needs no knowledge of the system: nothing undefined happens, each call
//! of the disk counts as one, and a call fails only if the count of faults rose. So what is done for the safety of the files has to be
//! read: `access.rt` says when a folder is opened, locked and given up, `held.rt` how names in it are looked at and changed, `location.rt` what is taken for
//! a file of a log, `directory.rt` how files are made and synced, `file.rt` what is done with one of them, `unsynced.rt` what follows a sync that failed.
//!
//! A client of a shared log has paths of its own, `ClientPaths`, which are opened as a source and a sink, after `SeenFiles` looked at those of all clients.
//!
//! Programs that come and go do so by a `Door`, a named pipe in a folder, and each client's number is given to them by an `Entrance`.
//!
//! Who waits for a large log sees on a terminal how far the work has come: `Watched` passes each call of a folder on as it is and counts what is read or
//! written, `WatchedPort` those of a source or a sink, and `Progress` is the line that tells it.
#![tactic(auto)]

mod access;
mod directory;
mod door;
mod fault;
mod file;
mod folder;
mod held;
mod location;
mod paths;
mod ports;
mod progress;
mod seen;
mod synced;
mod unsynced;
mod watched;

pub use door::{Door, DoorFailed, Entrance};
pub use folder::Folder;
pub use location::FileUse;
pub use paths::{ClientPaths, ClientPort};
pub use ports::{ClientFile, SystemPort};
pub use progress::{PortUse, Progress, WatchedPort};
pub use seen::SeenFiles;
pub use synced::{SyncedOutput, is_regular_output};
pub use watched::Watched;
