//! Tests of clients that share a log, by public calls alone. The crate has no function of its own, so the shared log isn't proved a second time for them.
#![tactic(auto)]

#[cfg(test)]
mod clients;
#[cfg(test)]
mod counts;
#[cfg(test)]
mod turns;
#[cfg(test)]
mod visits;
