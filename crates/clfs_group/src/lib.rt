//! Threads that want their records on the disk, and share the flushes that bring them there.
//!
//! A commit waits until its record is on the disk, which takes two syncs. Eight threads that each flush the log wait for sixteen of them; if one flushes
//! and the others' records lie below what it flushed, all of them can answer.
//!
//! What is shared lies after one lock: a session of the group's own, an area of it, and the mark. The mark is an LSN below which all records are on the
//! disk, in each state to which the entries lead that the group's session has seen. `stable` answers it at once if it is above the caller's LSN. Else it
//! makes one flush up to that LSN, and the log's answer is the new mark.
//!
//! Why an answer is right though another thread flushed: the log's calls have one order, its journal, and a session knows a beginning of it. The caller's
//! session meets the group's, so it knows all entries that the group's session knew, the flush among them. Whatever was called in between, the LSN up to
//! which the log is on the disk never falls along a journal. So in each state to which the caller's entries lead, all records below the answer are on the
//! disk. A record that was on the disk before a call survives each crash in that call.
//!
//! Not claimed: that two threads ever share a flush, that a call returns, or an order between sessions that never met.
#![tactic(auto)]

mod flushing;
mod group;
mod lasting;
mod naming;
mod state;

pub use group::Group;
pub use lasting::what_is_stable_stays;
pub use naming::GroupName;
pub use state::{GroupRefused, GroupState};
