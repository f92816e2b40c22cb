//! The codec of records: a header of 32 bytes, the data, and zeros up to a multiple of 8.
//!
//! A record is read back from the bytes of a block, whatever follows it, since its first field says how long it is. Its LSN
//! isn't among the bytes: the reader gives it, and every field is judged against it. A reader that meets a wrong byte is
//! told the first one. The spelling itself, and which byte of other bytes is the first wrong one, is defined in clfs_lsn.
#![tactic(auto)]

mod decoder;
mod encoder;
mod fields;
mod refusal;

pub use decoder::{
    decode, decode_head, len_of, no_spelling_begins_another, records_are_read_as_written,
    stream_in, stream_of,
};
pub use encoder::{encode, spell_header};
pub use fields::Fields;
pub use refusal::{HeadRefusal, RecordRefusal};
