//! Tests of what a log has in memory: its calls as values, the tables, the sizes and policies, the records that wait, and the turn
//! lock.
//!
//! The crate has no function of its own. Its tests make public calls alone, so no crate below is proved a second time for them.
#![tactic(auto)]

#[cfg(test)]
mod archive;
#[cfg(test)]
mod areas;
#[cfg(test)]
mod cursor;
#[cfg(test)]
mod index;
#[cfg(test)]
mod ledger;
#[cfg(test)]
mod model;
#[cfg(test)]
mod policy;
#[cfg(test)]
mod queue;
#[cfg(test)]
mod restart;
#[cfg(test)]
mod sorted;
#[cfg(test)]
mod space;
#[cfg(test)]
mod streams;
#[cfg(test)]
mod tables;
#[cfg(test)]
mod tail;
#[cfg(test)]
mod turn_uses;
