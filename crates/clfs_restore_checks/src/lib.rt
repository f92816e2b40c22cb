//! Tests of archiving a log and of restoring it, by public calls alone. The crate has no function of its own, so nothing is proved a second time for
//! them.
#![tactic(auto)]

#[cfg(test)]
mod bounds;
#[cfg(test)]
mod changed;
#[cfg(test)]
mod crashes;
#[cfg(test)]
mod log;
#[cfg(test)]
mod rows;
#[cfg(test)]
mod several;
