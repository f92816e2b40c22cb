//! Tests of a table with transactions, by public calls alone. The crate has no function of its own, so the store isn't proved a second time for them.
#![tactic(auto)]

#[cfg(test)]
mod days;
