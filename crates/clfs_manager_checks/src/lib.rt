//! Tests of the log manager's calls: making, opening and closing a log, areas, the size, what is kept in memory, and what the base file's second
//! version brings. A log of the first version becomes one of the second, and a dedicated log has one stream.
//!
//! The crate has no function of its own. Its tests make public calls alone, so the manager isn't proved a second time for them.
#![tactic(auto)]

#[cfg(test)]
mod dedicated;
#[cfg(test)]
mod kept;
#[cfg(test)]
mod logs;
#[cfg(test)]
mod manager;
#[cfg(test)]
mod migration;
