//! Archives of a log, as bytes: what an archive is, reading one or more of them, and what is restored of them.
//!
//! An archive is a base copy and the open blocks of containers, in a row of bytes that can be written and read without going back
//! (specs/Form.antt). `read_archives` judges bytes that are to be one or more archives one after the other, from the first byte on, and the first byte
//! that is wrong is told (specs/Archives.antt). The base copy is judged by the table of every base copy with narrower ranges, and a block as opening a
//! log judges it, so nothing of the two is said twice. What is read are base copies and places of the input: no block is copied.
//!
//! The last base copy says what the log is, and of a container that comes more than once the last copy counts. `missing_container` tells a container
//! that is listed and not there, `bounds` between which LSNs the log can be cut off, and `choose_up_to` where it is. The state that is restored then is
//! defined in specs/Restoring.antt; who makes files of it writes them so that they stand for it.
//!
//! Who writes an archive puts it together as a `Draft`, which counts an archive to its end that has more bytes than it may have and keeps no more of
//! it; `Judge::open_end` tells where the open blocks of a container's file end, and judges them as opening the log does.
#![tactic(auto)]

mod archive;
mod archives;
mod choosing;
mod containers;
mod copies;
mod copy;
mod draft;
mod judge;
mod kept;
mod laws;
mod refusal;
mod rows;

pub use archive::{Archive, Containers, Stored};
pub use archives::read_archives;
pub use choosing::{bounds, choose_up_to, missing_container};
pub use copy::restored_copy;
pub use draft::{Draft, MOST_BYTES, TooLong, archived};
pub use judge::Judge;
pub use kept::put_blocks_below;
pub use laws::{
    an_archive_is_read_back, an_archive_restored_alone_is_the_same_log, archives_can_be_restored,
    blocks_in_a_row_are_open, restored_files_stand_for_the_log,
};
pub use refusal::InputRefusal;
pub use rows::{
    archive_of_a_small_log, bounds_of_small_archives, containers_of_an_archive,
    letters_and_copies_of_archives, restored_small_logs,
};
