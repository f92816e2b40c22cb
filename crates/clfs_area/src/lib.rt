//! An area of a shared log that threads append to without ever being refused for space.
//!
//! A transaction manager has to be able to write its undo records whatever other clients do. So it reserves sectors first, and each of its threads
//! gets a permit: a right to some of these sectors, which nobody else can take. An append by a permit that has enough sectors is refused for memory,
//! for the disk, for what it asks (a length, a link), and never for space.
//!
//! An `AreaState` has a session of a shared log, an area of that session's client, and two books: how many sectors the area holds, and how many of
//! its appends were answered with an LSN. A `Permit` has shares in both. Books and shares are those of std's ledgers: a share can be split, joined and
//! dropped, and at each moment the shares of all permits, dropped ones included, add up to the books. So no permit has more than the area holds, and
//! one that has all parts of the area has just what it holds.
//!
//! Why the area's book is what the log has: all calls on the area are made by the one session, whose own entries in the log's journal nobody else
//! adds to. What these entries leave of the area is a function of them and of the state in which the log was shared, and in each legal journal the
//! log has just that. `IsKept` says so of the books, each call keeps it, and the law that covered appends find room does the rest.
//!
//! Threads share an `AreaState` in a lock of their own, as std's `Mutex`, and make the calls below on what the lock lends. The calls wait for the
//! log's turn as any call of a session does.
#![tactic(auto)]

mod area;
mod asking;
mod calls;
mod naming;
mod permit;

pub use area::{AreaRefused, AreaState, Ended};
pub use naming::LogName;
pub use permit::Permit;
