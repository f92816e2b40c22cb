//! The records that aren't on the disk yet: the open block, and the sealed blocks that wait to be written.
//!
//! All of them lie in one container, one block after the other, and so they do in the one buffer that the queue keeps: as the bytes of
//! a group, which are written at once. A record's bytes are put where they are to lie in its block's sectors, and are copied nowhere else;
//! sealing a block writes its header, its zeros and its addresses in place. The memory of the largest blocks, one more than there are
//! write buffers, is taken when the queue is made, so neither an append nor a flush can want any.
//!
//! The queue calls no disk and decides nothing: who calls it seals before a block begins, writes before memory runs out and before a
//! container begins. A crash loses what the queue holds; whatever is written of it is a whole group or none of it.
#![tactic(auto)]

mod laws;
mod placing;
mod queue;
mod reading;
mod writing;

pub use laws::{a_record_goes_where_it_went, the_next_lsn_is_above_all};
pub use placing::Placing;
pub use queue::Queue;
