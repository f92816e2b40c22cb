//! The log's policies: how many containers it has at most and at least, by how many it grows, and whether it grows by itself.
//!
//! A policy is a number that later calls go by; installing one or taking one away changes no container. So the only mistake that
//! could be made here is to let two of them contradict each other, or to let one in that no log can follow: a maximum below the
//! minimum, more containers than a log can have, a step of growth that adds nothing. Each value is therefore tested against those
//! that are installed already. No call takes memory.
#![tactic(auto)]

mod policies;

pub use policies::{Conflict, NotInstalled, Policies};
