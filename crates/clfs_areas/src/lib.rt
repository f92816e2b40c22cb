//! The areas of all clients of a log, as one table.
//!
//! What the log machine keeps of an area in one record lies here in four parts, each made for its own question: a row with the client, the
//! number, the stream and the limits; the client and number alone, by which the area is found; the cursors, which share one slab; and the
//! sectors held, whose sum over all areas is known at any moment. An area stands at the same place in each part, in the order in which the
//! areas were made, so that together they are the machine's list of areas, and the contracts say so. No two areas have the same client and
//! number.
//!
//! A log has at most 1,024 areas, of 64 clients with 16 each. An area is found by the hash of its client and number, without going through
//! the others. The hash has a fixed seed: clients are numbered 1 to 64 and the log numbers the areas, so nobody can choose names that collide.
//! The place found serves for every further call, as long as no area goes. Making an area and ending one go through all of them.
//!
//! Memory is taken when an area is made and when room for a cursor is reserved; where it fails the table shows the areas that it showed.
//! Nothing of this is on a disk, so a crash leaves nothing of it: areas, cursors and held sectors end with it.
#![tactic(auto)]

mod areas;
mod row;

pub use areas::Areas;
pub use row::AreaInfo;
