//! The lines of a script, answered as its bytes come: each line when its line feed is there, and its reply is written before the next one is looked at.
//!
//! What answers a line is whatever implements `Answering`, so limits, line ends, faults of the source and of the sink and out of memory are
//! treated in one place, by one proof. A line that is too long, and bytes past the most that a script may have, end the script; the lines that came whole
//! before are answered. After a fault of the sink no further line is answered. Bytes after the last line feed count as a line or are dropped, as the
//! caller says; a fault or a limit ends the script before them.
//!
//! Memory is one piece of 65,536 bytes, a line of at most 131,072 bytes, and one reply.
#![tactic(auto)]

mod answering;
mod ending;
mod incomplete;
mod input;
mod output;
mod status;
mod stop;
mod streaming;

pub use answering::Answering;
pub use ending::answered;
pub use incomplete::IncompleteLine;
pub use output::{printed, write_all};
pub use status::{DONE, INPUT_TOO_LONG, NO_MEMORY, SINK_FAULT, SOURCE_FAULT};
pub use stop::Stop;
pub use streaming::{answer_script, cleared};
