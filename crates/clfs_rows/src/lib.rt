//! Worked rows of the log machine: scripts and the replies to them, computed from the definitions alone.
//!
//! Each function does nothing and promises rows, one for each clause: a log that has just been made answers these lines with
//! these replies, text for text; or of a relation which states have it, and which don't. What is expected was worked out by hand
//! from the rules of the log, so that a mistake in a definition makes some row fail. `specs/Worked.antt` says what a row of lines means.
#![tactic(auto)]

mod archive;
mod bases_and_recycling;
mod crashes;
mod dedicated_logs;
mod disk_and_memory;
mod faults;
mod heads;
mod journals;
mod legal_journals;
mod lines;
mod manual;
mod names_and_limits;
mod opening_anew;
mod order_of_refusals;
mod places;
mod policies_and_sizes;
mod reopening;
mod reservations;
mod restart_areas;
mod sameness;
mod shuffles;
mod storable_states;
mod streams_and_cursors;
mod untold_replies;
mod valid_states;

pub use archive::{blocks_to_archive, what_the_tail_holds, where_archiving_begins};
pub use bases_and_recycling::{containers_are_used_again, new_bases};
pub use crashes::{
    bases_that_a_crash_leaves, blocks_that_a_crash_leaves, lines_that_flush_nothing,
    places_that_a_crash_leaves, records_that_a_crash_leaves, settings_that_a_crash_leaves,
    what_else_a_crash_leaves,
};
pub use dedicated_logs::{refusals_of_opening, the_stream_of_a_dedicated_log};
pub use disk_and_memory::{calls_that_leave_the_disk_alone, calls_that_reach_the_disk};
pub use faults::{texts_of_faults, what_a_broken_log_answers, what_a_fault_leaves};
pub use heads::{hold_and_extents_by_heads, live_heads_of_streams, reading_by_heads};
pub use journals::{entries_of_a_client, sectors_that_an_area_holds};
pub use legal_journals::{journals_that_are_legal, journals_that_are_not_legal};
pub use lines::{
    clients_and_verbs, ends_of_lines, first_scripts, lines_within_limits, options_of_appends,
    words_of_lines,
};
pub use manual::example_of_the_manual;
pub use names_and_limits::{
    arguments_of_calls, limit_of_areas, limit_of_cursors, limit_of_streams, names_of_streams,
};
pub use opening_anew::{
    what_a_disk_gives_back, what_another_disk_gives_back, what_stops_opening_anew,
};
pub use order_of_refusals::{
    one_container, refusals_of_appends, refusals_of_reads, refusals_of_restart_areas,
};
pub use places::{
    days_use, largest_blocks, moves_to_the_next_container, records_in_a_block, records_of_a_block,
    room_of_places, sealing_and_writing,
};
pub use policies_and_sizes::{automatic_growth, sizes_that_are_asked_for, values_of_policies};
pub use reopening::{what_is_lost, what_stays};
pub use reservations::{reserved_records, room_that_is_wanted, sectors_of_records};
pub use restart_areas::{kinds_of_cursors, newest_first, with_a_new_base};
pub use sameness::{records_that_are_compared, what_else_is_compared};
pub use shuffles::{journals_that_do_not_shuffle, journals_that_shuffle};
pub use storable_states::{
    bases_that_files_hold, blocks_that_files_hold, cursors_within_limits, places_that_files_hold,
    streams_and_areas_within_limits,
};
pub use streams_and_cursors::{
    chains_of_records, cursors_that_go_on, links_between_records, two_streams,
};
pub use untold_replies::{
    records_that_are_read_from_it, what_a_disk_that_tells_gives, what_is_given_as_it_is,
};
pub use valid_states::{
    blocks_that_wait, numbers_in_their_ranges, policies_in_their_ranges, records_of_a_log,
    space_of_a_log, states_that_a_log_can_be_in, tables_of_a_log, what_is_stable,
};
