//! Numbered files as a log sees them: what a read gives, and what a crash leaves.
//!
//! A disk holds files 0 to 256. Between two syncs a crash may leave any bytes in a range that was written and in a part
//! that was grown; bytes outside stay, and after a sync that succeeded a crash leaves what is read. The trait `Disk` says
//! this once, of one ghost value that has the files, a clock and the images of each moment, and code over a disk is proved
//! against it. `Memory` keeps a record of its calls, so that its images can be spelled out and a crash be taken. `Fuse`
//! stops another disk after so many calls. `Steady` fails only in a write past a file's end, and tells nothing of crashes. The program
//! calls none of these three: its disk is a folder of the system, and they are for tests.
#![tactic(auto)]

mod bytes;
mod copies;
mod disk;
mod fuse;
mod laws;
mod memory;
mod record;
mod steady;
mod synced;

pub use disk::{Disk, Failed, GrowRefusal};
pub use fuse::Fuse;
pub use laws::{calls_join, overwritten_bytes_stand_in_place};
pub use memory::Memory;
pub use steady::Steady;
pub use synced::write_synced;
