//! A diary under the turn lock: a small use of `clfs_turn`, written as a layer above the lock would write it.
//!
//! Two writers with a seat each add notes to one diary. Nothing here names more of the lock than its public calls and the
//! words of their contracts, and that is enough to say what a writer leaves: whatever the other threads do meanwhile, the
//! diary has of each client just the notes that the client's own writer wrote, in the order in which it wrote them. The
//! test joins two real threads and looks.
#![tactic(auto)]

mod diary;
mod joining;
mod writing;

pub use diary::{Diary, Note, Write};
pub use joining::two_writers;
pub use writing::{Lock, Writer, write_all};
