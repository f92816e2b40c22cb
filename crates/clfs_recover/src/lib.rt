//! Opening a log: what files stand for, and the one walk that finds it.
//!
//! Opening takes any bytes. It syncs, so that what it reads outlasts a crash; it reads the newest base copy; and it walks the blocks of the
//! containers that this one lists, each from its first byte up to a closed gate or its end. What is found is defined over whole files, in
//! specs/Files.antt: a state, or the first place at which a check fails, or that no slot is open. It hangs on the newest base copy and on the
//! open blocks alone, so whoever writes blocks after closed gates, and copies into the slot that doesn't count, changes nothing of it before
//! a gate is opened.
//!
//! What is found is always a state that a log can be in, with all of it stable (`opened.rt`). For whoever writes, laws say what each step
//! makes of the log in these terms, copies and open blocks (specs/Logs.antt, `stored.rt`, `changes.rt`): a group of blocks after the last
//! one, a further container, and each change of a copy. For whoever reads, a law says that each record is read at its LSN, in the file of its
//! container (specs/Reading.antt, `reading.rt`).
//!
//! There is one walk. It judges a block's frame, its records in turn, and what stands after them, and hands each record on to a
//! `Gatherer` by its head and where its data stand: `load` keeps records, `load_heads` their heads, which is what a log that is open keeps,
//! and `Counts` only counts them. Each block is judged in memory before it counts, so what is opened is a log over any disk, also one that
//! doesn't tell what its files hold (specs/KnownLogs.antt); where it tells, this log is the one that its files have.
//! Files are read ahead in pieces of 128 KiB, or of a container where that is shorter; the memory for a piece and for a block's payload is
//! taken once.
#![tactic(auto)]

mod block;
mod changes;
mod container;
mod counts;
mod gatherer;
mod laws;
mod listed;
mod logs;
mod opened;
mod opening;
mod parts;
mod piece;
mod reading;
mod records;
mod refusal;
mod rows;
mod stored;
mod whole;

pub use block::gather_block;
pub use changes::{
    bases_of_rows_move, further_containers_begin_empty, groups_come_behind_the_last_block,
    low_containers_are_left_out, settings_leave_the_records, streams_come_last,
};
pub use counts::Counts;
pub use gatherer::Gatherer;
pub use laws::{copies_and_blocks_decide, files_have_one_meaning};
pub use logs::{blocks_begin_with_sequence_0, logs_are_found_in_files, logs_have_few_records};
pub use opened::{
    opened_bases_are_moved_by_records, opened_copies_fit, opened_records_lie_in_order,
    opened_states_are_cut, opened_states_are_valid,
};
pub use opening::{Walked, load, load_heads, walk};
pub use parts::{Bases, Entries, HeadParts, Heads, Parts};
pub use reading::stored_records_are_read;
pub use records::BlockPlace;
pub use refusal::LoadRefusal;
pub use rows::{changes_of_a_small_log, walks_of_a_small_log};
pub use stored::{blocks_are_read_in_order, copies_without_fault_fit, logs_are_copies_and_blocks};
pub use whole::whole_files_pass_the_test;
