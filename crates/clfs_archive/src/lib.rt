//! Archiving: whether it is on, its tail, and the extents that are to be archived.
//!
//! An archive tail holds the log back until what lies below it has been copied elsewhere. What is still to be copied are the blocks
//! on the disk that have a record at or above the tail, in each container from the first one's offset to the end of the last one. The
//! definitions go through all records for that. Here the end of each sealed block is kept: the LSN of its last record, and the
//! offset after it. Both rise with the blocks, so the ends of a container's blocks stand together in one sorted row, and its
//! extent is two searches by halves. A tail inside a block counts it from its start, since the block's last record lies at or above
//! the tail.
//!
//! Blocks that are sealed wait until they are written, and are told here before that: the caller says up to where the log is on the
//! disk when it asks for extents. What lies below the hold is never asked for again, whatever archiving is set to, so block ends go
//! when the caller says so, in whole pieces, as `forget_below` of `clfs_lsn` says.
//!
//! No call but `reserve` and `extents` takes memory, and `open_archive`, which finds the ends of the blocks of a log that was
//! opened. So an append can take all of its memory before it changes anything, and neither setting the tail nor a flush fails
//! for want of it.
#![tactic(auto)]

mod archive;
mod block;
mod laws;
mod opening;

pub use archive::Archive;
pub use block::BlockEnd;
pub use laws::ends_of_blocks_go_on;
pub use opening::open_archive;
