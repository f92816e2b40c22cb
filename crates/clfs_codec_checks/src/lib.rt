//! Tests of the codecs: LSNs and places, records, blocks, base copies, scripts and the words of the program.
//!
//! The crate has no function of its own. Its tests make public calls alone, so no codec is proved a second time for them.
#![tactic(auto)]

#[cfg(test)]
mod base;
#[cfg(test)]
mod block;
#[cfg(test)]
mod command;
#[cfg(test)]
mod help;
#[cfg(test)]
mod lsn;
#[cfg(test)]
mod record;
#[cfg(test)]
mod script;
