//! The words of the program: which command they name.
//!
//! clap reads the words after FOLDER as one command with one level of subcommands. What it finds in them, and when it finds a
//! fault, is what its own definitions say of a command line of this form (`specs/Line.antt`); which numbers the options may have
//! is said here (`specs/Command.antt`). The texts of the help stand beside the options that they explain.
//!
//! `share` has paths of any number, and so a command line and a call of its own (`specs/Share.antt`); by a door it has none, and another command line
//! (`specs/Door.antt`). No words ask for both, since neither line has the other's.
#![tactic(auto)]

mod commands;
mod door;
mod forms;
mod help;
mod line;
mod share;
mod usage;
mod words;

pub use door::{DoorWords, read_door};
pub use forms::form_of;
pub use help::help_text;
pub use share::{PathPair, ShareWords, asks_to_share, read_share};
pub use usage::answer_to;
pub use words::{
    AskedName, Command, DataWord, DumpOptions, ScriptLength, WordsRefusal, read_command,
};
