//! Whether archives can be of one log in their order, as far as their base copies and the ends of their containers tell it.
//!
//! Archives of two logs, or of one in another order, are joined to a log as any others if their containers fit, and nothing tells later that records are
//! mixed or lost. But streams keep their names and numbers, the first container that is listed never falls, and neither does the end of what is on the disk.
//! So an archive whose names don't go on from those of the one before, or whose first container or end lies below that one's, is no later one of the same
//! log (`Origin::may_come_after`). That the others are is not known: two logs may have had the same streams.
//!
//! `Followed` is a source whose bytes are archives: it passes each call on as it is, and looks at what passes (`follower.rt`), of which it keeps the base copies
//! of two archives. Nothing is decided by it. What isn't an archive's is left to whoever reads the bytes, and is followed no more.
#![tactic(auto)]

mod followed;
mod follower;
mod origin;

pub use followed::Followed;
pub use origin::Origin;
