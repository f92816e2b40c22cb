//! What a log has of space, what a call needs of it, and which refusals come where that isn't there.
//!
//! All of it is computed from a few numbers: how large blocks and containers are, where the next record goes, the least LSN that the log
//! still needs, how many containers it has, how many sectors its areas hold, and its policies. A `Space` has these as they are at one
//! moment. It stands for the state that they are of, so each of its calls answers what a definition of the machine says of that state.
//!
//! Nothing is kept and nothing changes: whoever has a log makes a `Space` for a call, asks it whether there is room, what the log would
//! grow to, and what it could shrink to, and drops it. No call takes memory, and none goes through records, sectors or containers one by one.
#![tactic(auto)]

mod lengths;
mod refusals;
mod space;

pub use lengths::{first_longer, longer, need_of, own_sum, spent_of};
pub use space::{Room, Space};
