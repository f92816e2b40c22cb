//! Where a script comes from and where its replies go.
//!
//! A program reads through a [`Source`] and writes through a [`Sink`]. A call of either may fail, and
//! then tells no cause. What tells a failure that happened from one that was made up is a count of
//! faults: it never falls, and it rises in each call that fails. So a caller that answers "the input
//! failed" has to show that the count rose, and a port whose count stands at 0 never fails.
//!
//! What a source has left and what a sink was given is told where it is known. Ports in memory tell
//! it, as far as they keep it; standard input and output do not. The program has those of the system
//! alone; the ports in memory are for tests.
#![tactic(auto)]

mod copying;
mod memory_sink;
mod memory_source;
mod ports;
mod steady;

pub use memory_sink::MemorySink;
pub use memory_source::MemorySource;
pub use ports::{Failed, Sink, Source};
pub use steady::{SteadySink, SteadySource};
