//! A value that only clauses read.
//!
//! What a crate's calls leave can be more than what its memory holds: a log manager forgets records that no answer shows any more, and
//! keeps no data of those that are on the disk, but the state of which its contracts speak has them all. A `Told` carries such a state
//! from call to call. It has no bytes; what it carries is chosen where it is made, and an invariant of the type that holds it says what
//! it has to do with the memory beside it. So nothing follows from a `Told` alone, and nothing is lost where one is dropped.
#![tactic(auto)]

mod told;

pub use told::Told;
