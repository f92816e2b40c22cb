//! Tests of groups that share flushes, by public calls alone. The crate has no function of its own, so groups aren't proved a second time for them.
//! `answers` has what one session is answered and each refusal, `threads` two real threads that share one group.
#![tactic(auto)]

#[cfg(test)]
mod answers;
#[cfg(test)]
mod calls;
#[cfg(test)]
mod setting;
#[cfg(test)]
mod threads;
