//! Blocks: the records of a log framed in sectors, so that a reader knows where each block ends and that each of its
//! sectors has its place's address.
//!
//! A block is a row of sectors of 512 bytes. Each has 504 bytes of payload and then its address, so a sector that the file
//! held for an earlier container, or that belongs elsewhere, is told from one that belongs here. The payload is a header of
//! 16 bytes, the records and zeros. `push_payload` and `seal_block` make a block in place, in a buffer that may hold blocks
//! before it; `BlockBuilder` makes one alone, with a closed gate, in memory that it takes once. `decode_block` checks all
//! of a block but its records and gives their bytes in a row. Who reads many blocks makes its parts one by one,
//! `check_frame`, `fill_payload` and `check_rest`, and judges the records before the last. `gather_payload` is `fill_payload` into bytes
//! that the caller has.
#![tactic(auto)]

mod builder;
mod decoder;
mod framing;
mod gathering;
mod head;
mod laws;

pub use builder::BlockBuilder;
pub use decoder::{byte_of, check_frame, check_rest, decode_block, fill_payload};
pub use framing::{copy_payload, push_payload, seal_block};
pub use gathering::gather_payload;
pub use head::{BlockHead, BlockRefusal};
pub use laws::{
    blocks_are_judged_alone, blocks_are_read_as_written, blocks_have_one_spelling,
    blocks_say_their_sectors, records_are_read_of_their_block,
};

// The sizes of the format, as numbers of bytes in memory.
const SECTOR: usize = clfs_lsn::SECTOR as usize;

const PAYLOAD: usize = clfs_lsn::SECTOR_PAYLOAD as usize;

const HEADER: usize = clfs_lsn::BLOCK_HEADER as usize;
