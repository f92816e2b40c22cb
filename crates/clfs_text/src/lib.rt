//! The words of the script's text: numbers, LSNs and data, read from a word and written after other text.
//!
//! A line is read from its front, word by word, by `Words`, which keeps the line and the place in it, and never a list of words.
//! What a word spells is read where the word stands. What is written goes straight after the bytes that are there already; the
//! digits are made on the stack.
#![tactic(auto)]

mod bytes;
mod lead;
mod lsns;
mod numbers;
mod printing;
mod words;

pub use bytes::{data_of_word, push_data};
pub use lead::Lead;
pub use lsns::lsn_of_word;
pub use numbers::{decimal_number, hex_number, long_decimal_number};
pub use printing::{push_decimal, push_hex, push_lsn};
pub use words::{BadWord, Word, Words};
