//! The cursors of all areas, and what a cursor searches for next.
//!
//! A cursor is a number, what it goes over, and the LSN of the record that it gave last. All of them stand in one slab; an area has
//! a row of numbers, each with the slab's key of its cursor, in the order in which the cursors were started, as the machine has them.
//! A new one gets the least number that none of the area has. A key stands in one row, once, and only while the slab has its cursor:
//! so what one area's client does changes no other area's cursors, and when an area goes none of its cursors stays.
//!
//! The memory of a row is taken when its area is added, and that of a cursor's place in the slab by a call of its own, so that no
//! read can fail for want of it once it has found its record. Ending a cursor or an area never can. Nothing of this is
//! stored on the disk: cursors end with a crash.
//!
//! Where reading goes from a record hangs on the cursor's mode and the record's links. What is to be searched for is told here; the
//! search itself is another table's, and what it found is handed back.
#![tactic(auto)]

mod cursors;
mod keys;
mod search;
mod standing;

pub use cursors::Cursors;
pub use search::{Search, search_from};
