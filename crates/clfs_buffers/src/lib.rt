//! Blocks that were read, as many as the caller says at most, for records that are read again or one after the other.
//!
//! A log that is open keeps the heads of its records and no data of those that are on the disk. A record is read by its whole block: a
//! read by one call of the disk, the checks of a block in their order, and then the record at its position. The caller says how long it takes
//! the block to be, so that no more is read than that; if it is wrong, the bytes of a largest block are read by a second call. The block is kept, so the
//! other records of it cost no call. If as many are kept as may be, the one that wasn't used for longest goes.
//!
//! What is on the disk below the end of what was flushed doesn't change while a log is open, but for files that are taken for another
//! container. So a block that is kept stays what the disk has there, as long as no container gets the id of an earlier one. Nothing here
//! is written, so there is nothing of it that a crash could leave.
#![tactic(auto)]

mod buffers;
mod kept;
mod laws;
mod place;
mod reading;
mod refusal;
mod starts;

pub use buffers::Buffers;
pub use laws::changes_keep_blocks;
pub use place::BlockPlace;
pub use refusal::ReadRefusal;
