//! The sectors that areas hold for records to come.
//!
//! A client that must be able to append later, as when it undoes its work, reserves the space first.
//! The log then refuses to everyone else what is held, so two numbers have to be exact at any moment:
//! what one area holds, and the sum over all areas. The sum is kept beside the rows and never added up
//! again. Nothing of this is stored on the disk: reservations end with a crash.
#![tactic(auto)]

mod reservations;
mod row;

pub use reservations::{Reservations, Short};
pub use row::Reservation;
