//! The turn lock: one value, used by one thread at a time, with a history that every seat knows a beginning of.
//!
//! # What lies where
//!
//! A lock stands on a table of `atomic_table` with two words and one slot. The word HELD is 1 while a seat has
//! the turn, else 0. The word COUNT is the length of the history, which is the list of all entries that were ever
//! added to the value, in their order. The slot has the value. While nobody has the turn the slot is at home in
//! the table and has the value, whose list is the whole history. While a seat has the turn the slot is in that
//! seat's hand, and is empty from the moment that the value is taken out until it is put back.
//!
//! # A call
//!
//! `Turn::call` claims HELD from 0 to 1, takes the value out of the slot, does the job, puts the value back, posts
//! the entry that the job added by one addition to COUNT, and releases HELD. The addition is the moment from which
//! on the entry stands in the history: another seat can see it after that alone, by a call of its own or by meeting
//! a seat that has seen it. A job that added no entry posts nothing. A thread that finds HELD at 1 parks on the word
//! until a release wakes it, and then tries again. Where no thread is counted as asleep a release makes no system
//! call. Whether a thread's turn ever comes depends on the others, so nothing is said of that.
//!
//! # Why one seat at most has the turn
//!
//! HELD is raised by one step alone, an exchange that succeeds only where it finds 0, and the seat that made it is
//! the holder. It is lowered by the release alone, which only the holder makes. The rule of the table keeps both
//! directions at every moment: where HELD is 1 there is one seat with the turn, and a seat with the turn finds HELD
//! at 1. So nobody else can post, take the slot or release.
//!
//! # What a seat knows
//!
//! Each client has one seat, a token that can't be copied. A seat has seen a beginning of the history, and since
//! nobody else adds entries of its client, it has seen all of these. When it is given the turn, the value's list
//! begins with what it has seen. A look is a load of COUNT after two seats were joined: since all that any seat has
//! seen are beginnings of one history, the shorter of two begins the longer, and the look says so. `Turn::meet`
//! joins a copy of each seat into the other in this way. `Turn::close` joins all seats into one; that one knows that
//! no seat is left to have the turn, so the value is at home and comes out with all that the seats have seen.
//!
//! COUNT can't pass the end of its type: it becomes the length of the value's list, which `Logged::count` answered as
//! a `u64` before the addition. `Turn::call` passes this on in its clause `fits`.
#![tactic(auto)]

mod closing;
mod dealing;
mod holding;
mod logged;
mod seat;
mod sharing;
mod steps;
mod turn;
mod view;

pub use logged::{Job, Logged};
pub use seat::TurnSeat;
pub use turn::{Turn, TurnRefused};
