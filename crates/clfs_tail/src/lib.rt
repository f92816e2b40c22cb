//! How far back the log is still needed: the hold.
//!
//! The hold is the least of the LSNs of all live records and, with archiving on, the archive tail; where there is none of them it is
//! the frontier. The definitions filter one list of all records. Here each stream's first live LSN is kept, since the least of a
//! stream's live LSNs is its first one, and a stream without live records holds nothing back.
//!
//! They stand in a tree in one vector, as in a binary heap: the children of the node at place k are those at 2k + 1 and 2k + 2, and
//! each node has, beside its own stream's LSN, the least of its subtree. So the least of all stands at the root, and the hold is two
//! comparisons. A stream whose first live LSN moves changes its node and those above it, one for each doubling of the streams. The
//! archive tail and the place of the log are the caller's, who hands them in, so a tail that moves costs nothing here.
//!
//! No call but `reserve` takes memory, so a base that moves never fails for want of it.
#![tactic(auto)]

mod laws;
mod tail;
mod tree;

pub use laws::first_live_lsns_give_the_hold;
pub use tail::LogTail;
