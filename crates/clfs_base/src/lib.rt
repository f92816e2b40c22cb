//! The base file of a log: two slots, each with room for a copy of what the log is made of, of which the newer open one counts.
//!
//! A copy says how large blocks and containers are, which containers are listed and in which files, what the streams are called
//! and where each begins, and what the policies are. `encode` and `decode` follow one table of the fields (`layout.rt`, and
//! specs/Layout.antt for contracts): where each stands and which numbers it may have. What is encoded is decoded, what is decoded was
//! spelled so, and any other bytes are refused at the first one that is wrong. Copies of two versions are read, and a copy is always
//! written in the second one, which has room for all that the first one has: so a log of the first version becomes one of the second by
//! the next copy that is written. Each slot has a version of its own, and their turns alone tell which of two copies is newer. A newer copy is written into the slot that doesn't
//! count, in three parts: `close_older` closes its gate, `write_body` writes the bytes after it, `open_slot` opens it. A crash at
//! any moment leaves the newest copy of before, or once the gate is being opened the new one whole. `read_newest` reads which slot
//! counts, and that slot alone. `check_newest` judges the bytes of a base file where they lie, without memory, and `row_at` and `file_at`
//! tell what a slot says of a stream and of a listed container.
#![tactic(auto)]

mod checking;
mod decoder;
mod demands;
mod encoder;
mod entries;
mod image;
mod laws;
mod layout;
mod newest;
mod reading;
mod refusal;
mod rows;
mod slots;

pub use checking::{check_copy, check_newest};
pub use decoder::{decode, decode_within};
pub use demands::{Asked, Demands};
pub use encoder::encode;
pub use entries::{RowPlace, file_at, row_at, slot_of};
pub use image::{BaseImage, Files, Row, Rows};
pub use laws::copies_are_read_as_written;
pub use layout::{Numbers, SLOT as SLOT_BYTES, TAIL_AT, VERSION, base_place};
pub use newest::{Front, front_of_bytes, read_newest, slot_by};
pub use refusal::{BaseRefusal, NewestRefusal};
pub use rows::{first_copy_of_a_small_log, slots_of_a_base_file};
pub use slots::{close_older, has_open_gate, open_slot, slot_place, write_body};
