//! What a race needs besides a log: a script that is read whole, divided among its clients, and a gate round each of their calls.
//!
//! A race answers the lines of several clients at the same time. So the whole script is there before the first call: `read_script` takes it from a
//! source, up to a limit, and `divide` finds in its lines which calls each client asks for, in order, and which lines ask for nothing. `write_bad_lines`
//! and `write_journal` put the replies together. A [`Gate`] is what each call passes: a test holds a call there until another one is answered.
#![tactic(auto)]

mod counts;
mod dividing;
mod gate;
mod input;
mod laws;
mod lines;
mod writing;

pub use dividing::{ClientCalls, Division, divide};
pub use gate::{Gate, Pass};
pub use input::{Script, ScriptEnd, Stop, read_script, take_bytes};
pub use laws::lines_meet_their_conditions;
pub use lines::{ended_line, without_return};
pub use writing::{write_bad_lines, write_journal};
