//! A disk whose calls another carries out: it holds what its files read, and plans each call that changes them.
//!
//! A log over it needs no file of the system and no thread. It answers at once, and its host carries out the plan, call by call, in order: an answer
//! is on the host's disk once the calls up to its number are. Two laws tie the two disks together. What the disk here counts as its moments are the
//! numbers of calls that were carried out; and whatever a crash leaves of the host's disk at such a number, `plans_carry_over` says, is an image of
//! that moment. So whatever is proved of a log over this disk, of any crash in any call, holds of the log that the host keeps.
//!
//! A file is kept as its first bytes and its length, so zeros behind them take no memory.
#![tactic(auto)]

mod call;
mod contents;
mod files;
mod laws;
mod plan;
mod planned;

pub use call::{Call, History, PlannedCall};
pub use contents::Contents;
pub use files::empty_files;
pub use laws::plans_carry_over;
pub use planned::Planned;
