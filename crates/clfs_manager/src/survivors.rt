// The laws of lower crates by which a manager's calls are answered, for who cites them together. `append` and `write_restart` of a log that isn't
// broken cite each that they want by itself.
ghost use Rattle.clfs_manager.specs.CallLaws.{CallLaws};
ghost use Rattle.clfs_manager.specs.ManagerLaws.{ManagerLaws};

use clfs_laws::{
    refusals_are_the_calls_own, states_between_survive, steps_keep_a_state_storable,
    steps_keep_a_state_valid,
};
use clfs_model::ways_of_a_step;
use clfs_recover::logs_are_copies_and_blocks;

// What files stand for, that the flushed parts of the states before and after a call survive it, and that a call's refusals are its own.
fn crashes_leave_survivors()
    ensures { CallLaws }
{
    refusals_are_the_calls_own();
    states_between_survive();
    logs_are_copies_and_blocks();
}

// All laws by which a manager's call is answered.
pub(crate) fn calls_follow_laws()
    ensures { ManagerLaws }
{
    ways_of_a_step();
    steps_keep_a_state_valid();
    steps_keep_a_state_storable();
    crashes_leave_survivors();
}
