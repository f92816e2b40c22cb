//! Tests of shared areas, by public calls alone. The crate has no function of its own, so shared areas aren't proved a second time for them.
//! `threads` has two real threads with a permit each, `permits` what becomes of permits, and `refusals` each refusal of each call.
#![tactic(auto)]

#[cfg(test)]
mod permits;
#[cfg(test)]
mod refusals;
#[cfg(test)]
mod setting;
#[cfg(test)]
mod threads;
