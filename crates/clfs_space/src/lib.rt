//! How many sectors a log can still take, and how many containers it needs for more.
//!
//! A log promises the sectors that it reserves: whoever holds them appends later without being refused.
//! So it has to know what it can still take whatever comes next: records of any length, in any order,
//! by whoever appends. A container may end in sectors that no record fits, at most one sector less than
//! the largest block, so these are left out, in the container of the next record and in each later one.
//! What then remains are the free sectors. The law that makes their number a promise stands in
//! `laws.rt`: an append lowers it by at most the sectors of the record's own block, and it never needs
//! a container that isn't there.
//!
//! Everything here is a formula over the place, the hold and the number of containers. Nothing is kept,
//! nothing takes memory, and nothing goes through sectors or containers one by one.
#![tactic(auto)]

mod free;
mod growing;
mod laws;

pub use free::free_sectors;
pub use growing::{growth, least_containers};
pub use laws::{
    an_append_lowers_the_free_sectors_by_at_most_its_own, growth_is_the_least_step_that_is_enough,
    least_containers_are_the_fewest_that_are_enough, more_containers_or_a_later_hold_free_no_less,
    sealing_keeps_the_free_sectors, space_laws,
};
