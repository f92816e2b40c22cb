//! Laws over the definitions of the log machine: what every step keeps and what follows from a run. Each law is the contract of
//! a function that does nothing; a caller cites it for one step.
#![tactic(auto)]

mod areas;
mod between;
mod journals;
mod reading;
mod refusals;
mod runs;
mod same;
mod space;
mod stages;
mod steps;
mod storable;
mod survivors;
mod validity;

pub use areas::{held_is_by_own_entries, own_entries_cover_an_append, rows_are_by_own_entries};
pub use between::{
    areas_hold_sectors, calls_that_pass_find_room, growth_keeps_a_log_whole, logs_are_made_ready,
    quiet_appends_want_no_disk, records_are_put, seals_and_flushes_keep_a_log,
    small_changes_make_the_calls,
};
pub use journals::{flushed_never_falls, fronts_are_legal, journals_join, numbers_count_up};
pub use reading::{reading_gives_the_chain, reading_on_gives_all, restart_areas_come_newest_first};
pub use refusals::{
    broken_stays, faults_break, opening_anew_ends_areas, refusals_change_nothing, unbroken_stays,
};
pub use runs::{opening_anew_comes_to_the_cut, runs_join};
pub use same::{sameness, the_holds_container_never_falls, the_same_answer_alike};
pub use space::{
    full_where_no_room, held_sectors_suffice, plain_work_takes_its_own_sectors, reserved_is_free,
    short_where_less_is_held,
};
pub use stages::states_between_survive;
pub use steps::{
    a_flush_goes_past_its_lsn, quiet_calls_leave_the_cut, reads_find_records,
    refusals_are_the_calls_own, replies_are_of_their_calls, steps_only_add_records,
};
pub use storable::{
    first_states_are_storable, laid_blocks_end_at_the_place, numbers_fit_their_types,
    open_blocks_end_at_the_place, steps_keep_a_state_storable,
};
pub use survivors::{
    opening_anew_survives_as_the_cut, quiet_calls_survive_as_the_cut,
    survivors_keep_what_was_flushed, the_cut_survives,
};
pub use validity::{extents_are_few, first_states_are_valid, steps_keep_a_state_valid};
