//! The script language: what a line asks for, and the text of a reply.
//!
//! `parse_line` reads a line word by word from the left, and says of a line that asks for nothing where it goes wrong. `write_reply`
//! writes a reply's line after the text that is there, and `push_refusal` a refusal without its line.
#![tactic(auto)]

mod calls;
mod line;
mod parsing;
mod reading;
mod refusals;
mod sizes;
mod verbs;
mod writing;

pub use line::{Language, LineRefusal, Request, ScriptLine};
pub use parsing::parse_line;
pub use refusals::push_refusal;
pub use writing::write_reply;
