// What a crash while a line is under way may leave, and what it may not: of each rule one state that keeps it, and one that breaks it
// and no other.
ghost use Rattle.std.specs.Prelude.{◌≡◌, ℕ, [], ◌∷◌, ◌++◌, codes, map, take, drop, Some, true};
ghost use Rattle.clfs_lsn.specs.Lsn.{lsn_number};
ghost use Rattle.clfs_model.specs.declared.state.State.{State};
ghost use Rattle.clfs_model.specs.Flush.{flushed, cut};
ghost use Rattle.clfs_model.specs.Step.{with_broken};
ghost use Rattle.clfs_model.specs.Run.{Request};
ghost use Rattle.clfs_model.specs.Script.{line_request};
ghost use Rattle.clfs_model.specs.Survivors.{SplitsNoBlock, EndsBlockOf, IsSurvivor};
ghost use Rattle.clfs_rows.specs.Filled.{empty_record};
ghost use Rattle.clfs_rows.specs.Worked.{opened_log, flushed_log};
ghost use Rattle.clfs_rows.specs.Crashes.{closed_at, left_of, with_streams_of, with_base, with_other_data, state_behind, SurvivesLine, waiting_log, long_append, long_log, turning_log, turned_log, skipping_log, growing_log, growing_append, rebasing_log, two_streams_log, restart, restarted_log, advance, advanced_log};

/// The log goes on where it was flushed, or at the end of one of the blocks that are flushed then, or in the container after one. An
/// append that flushes begins at 1:400:0, which is flushed, and leaves 1:a00:0. Another one, after a container's end, leaves 2:400:0.
pub fn places_that_a_crash_leaves()
    ensures flushed_before { flushed waiting_log ≡ lsn_number 1 1024 0 }
    ensures flushed_behind { flushed long_log ≡ lsn_number 1 2560 0 }
    ensures where_it_was_flushed { SurvivesLine waiting_log long_append (left_of long_log 2 1 1024) }
    ensures behind_the_block_that_waited { SurvivesLine waiting_log long_append (left_of long_log 4 1 1536) }
    ensures behind_all { SurvivesLine waiting_log long_append (left_of long_log 5 1 2560) }
    ensures not_below_what_was_flushed { ¬ SurvivesLine waiting_log long_append (left_of long_log 1 1 512) }
    ensures not_within_a_block { ¬ SurvivesLine waiting_log long_append (left_of long_log 5 1 2048) }
    ensures not_above_what_is_flushed { ¬ SurvivesLine waiting_log (codes "1 append 1 a4 0:0:0 0:0:0") (left_of waiting_log 4 1 1536) }
    ensures not_in_a_container_above_it { ¬ SurvivesLine waiting_log long_append (left_of long_log 5 2 0) }
    ensures no_bytes_in_a_block { ¬ SurvivesLine waiting_log long_append
        (record (left_of long_log 4 1 1536) { place = record (closed_at 1 1536) { used = 16 } }) }
    ensures no_records_in_a_block { ¬ SurvivesLine waiting_log long_append
        (record (left_of long_log 5 1 1536) { place = record (closed_at 1 1536) { records = 1 } }) }
    ensures where_no_block_ends { SurvivesLine opened_log (codes "1 append 1 aa 0:0:0 0:0:0 flush") (left_of opened_log 0 1 0) }
    ensures flushed_behind_a_turn { flushed turned_log ≡ lsn_number 2 1024 0 }
    ensures before_the_open_block { SurvivesLine turning_log long_append (left_of turned_log 3 1 2560) }
    ensures behind_the_open_block { SurvivesLine turning_log long_append (left_of turned_log 4 1 3584) }
    ensures in_the_next_container { SurvivesLine turning_log long_append (left_of turned_log 4 2 0) }
    ensures behind_the_record_in_it { SurvivesLine turning_log long_append (left_of turned_log 5 2 1024) }
    ensures not_at_the_containers_end { ¬ SurvivesLine turning_log long_append (left_of turned_log 4 1 4096) }
    ensures not_at_another_containers_end_of_a_block { ¬ SurvivesLine turning_log long_append (left_of turned_log 5 2 512) }
    ensures not_in_the_container_after_the_next { ¬ IsSurvivor (line_request (codes "1 flush 1")) turning_log skipping_log (left_of turning_log 4 3 0) }
    ensures in_the_next_of_a_log_that_skips_one { IsSurvivor (line_request (codes "1 flush 1")) turning_log skipping_log (left_of turning_log 4 2 0) }
{}

/// Blocks survive whole. The block at 1:400:0 has two records.
pub fn blocks_that_a_crash_leaves()
    ensures before_it { SplitsNoBlock waiting_log.records (closed_at 1 1024) }
    ensures behind_it { SplitsNoBlock waiting_log.records (closed_at 1 1536) }
    ensures between_its_records { ¬ SplitsNoBlock waiting_log.records (record (closed_at 1 1024) { records = 1 }) }
    ensures never_a_part { (asked : Request) (s s2 x : State) → IsSurvivor asked s s2 x → SplitsNoBlock s2.records x.place }
    ensures its_end { EndsBlockOf (map empty_record (0 ∷ 1 ∷ [])) (closed_at 1 512) (empty_record 0) }
    ensures the_next_container { EndsBlockOf (map empty_record (0 ∷ 1 ∷ [])) (closed_at 2 0) (empty_record 0) }
    ensures not_its_begin { ¬ EndsBlockOf (map empty_record (0 ∷ 1 ∷ [])) (closed_at 1 0) (empty_record 0) }
    ensures not_further_on { ¬ EndsBlockOf (map empty_record (0 ∷ 1 ∷ [])) (closed_at 1 1024) (empty_record 0) }
    ensures not_within_the_next_container { ¬ EndsBlockOf (map empty_record (0 ∷ 1 ∷ [])) (closed_at 2 512) (empty_record 0) }
    ensures not_the_container_after_the_next { ¬ EndsBlockOf (map empty_record (0 ∷ 1 ∷ [])) (closed_at 3 0) (empty_record 0) }
{}

/// The records below the place survive, each as it was, and no others.
pub fn records_that_a_crash_leaves()
    ensures not_one_fewer { ¬ SurvivesLine waiting_log long_append (left_of long_log 3 1 1536) }
    ensures not_one_more { ¬ SurvivesLine waiting_log long_append (left_of long_log 5 1 1536) }
    ensures not_without_the_first { ¬ SurvivesLine waiting_log long_append (record (left_of long_log 4 1 1536) { records = drop 1 waiting_log.records }) }
    ensures not_with_other_data { ¬ SurvivesLine waiting_log long_append
        (record (left_of long_log 4 1 1536) { records = map with_other_data waiting_log.records }) }
{}

/// Streams, the number of containers, archiving and the policies are all those from before or all those from after, and the latter
/// where a record survives that wasn't there before.
pub fn settings_that_a_crash_leaves()
    ensures without_the_new_stream { SurvivesLine flushed_log (codes "1 open b") (cut flushed_log) }
    ensures with_the_new_stream { SurvivesLine flushed_log (codes "1 open b") (cut (state_behind flushed_log (codes "1 open b"))) }
    ensures not_with_another_stream { ¬ SurvivesLine flushed_log (codes "1 open b") (cut (state_behind flushed_log (codes "1 open c"))) }
    ensures not_with_other_containers { ¬ SurvivesLine flushed_log (codes "1 open b") (record (cut flushed_log) { containers = 3 }) }
    ensures not_with_another_archive { ¬ SurvivesLine flushed_log (codes "1 open b") (record (cut flushed_log) { archive = Some 0 }) }
    ensures not_with_another_maximum { ¬ SurvivesLine flushed_log (codes "1 open b") (record (cut flushed_log) { maximum = Some 2 }) }
    ensures not_with_another_minimum { ¬ SurvivesLine flushed_log (codes "1 open b") (record (cut flushed_log) { minimum = Some 2 }) }
    ensures not_with_another_growth { ¬ SurvivesLine flushed_log (codes "1 open b") (record (cut flushed_log) { growth = Some 1 }) }
    ensures not_with_growth_by_itself { ¬ SurvivesLine flushed_log (codes "1 open b") (record (cut flushed_log) { automatic = true }) }
    ensures not_as_a_dedicated_log { ¬ SurvivesLine flushed_log (codes "1 open b") (record (cut flushed_log) { dedicated = true }) }
    ensures not_some_of_each { ¬ IsSurvivor (line_request (codes "1 open b")) flushed_log
        (record (state_behind flushed_log (codes "1 open b")) { containers = 3 })
        (record (cut flushed_log) { containers = 3 }) }
    ensures three_containers { (state_behind growing_log growing_append).containers ≡ 3 }
    ensures neither_grown_nor_appended { SurvivesLine growing_log growing_append (cut growing_log) }
    ensures grown_without_the_record { SurvivesLine growing_log growing_append (record (cut growing_log) { containers = 3 }) }
    ensures grown_with_the_record { SurvivesLine growing_log growing_append (cut (state_behind growing_log growing_append)) }
    ensures not_the_record_without_growth { ¬ SurvivesLine growing_log growing_append
        (record (cut (state_behind growing_log growing_append)) { containers = 2 }) }
{}

/// A base is the old one or the new one. A restart area's is the new one exactly where the restart area survives. One that is advanced
/// is the old one where a record is lost that was flushed for it.
pub fn bases_that_a_crash_leaves()
    ensures with_the_restart_area { SurvivesLine rebasing_log restart (cut restarted_log) }
    ensures not_the_old_base_with_it { ¬ SurvivesLine rebasing_log restart (with_streams_of rebasing_log (cut restarted_log)) }
    ensures without_the_restart_area { SurvivesLine rebasing_log restart (with_streams_of rebasing_log (left_of restarted_log 2 1 1024)) }
    ensures not_the_new_base_without_it { ¬ SurvivesLine rebasing_log restart (left_of restarted_log 2 1 1024) }
    ensures without_any_record_of_it { SurvivesLine rebasing_log restart (cut rebasing_log) }
    ensures not_the_new_base_without_any { ¬ SurvivesLine rebasing_log restart (with_streams_of restarted_log (cut rebasing_log)) }
    ensures advanced_with_all { SurvivesLine rebasing_log advance (cut advanced_log) }
    ensures not_yet_advanced_with_all { SurvivesLine rebasing_log advance (with_streams_of rebasing_log (cut advanced_log)) }
    ensures not_advanced_without_all { SurvivesLine rebasing_log advance (cut rebasing_log) }
    ensures never_advanced_without_all { ¬ SurvivesLine rebasing_log advance (with_streams_of advanced_log (cut rebasing_log)) }
    ensures no_third_base_of_an_advance { ¬ SurvivesLine rebasing_log advance (with_base (lsn_number 1 0 0) (cut advanced_log)) }
    ensures no_other_base_of_another_stream { ¬ SurvivesLine two_streams_log (codes "1 flush 1") (with_base (lsn_number 1 0 0) (cut two_streams_log)) }
    ensures no_third_base_of_a_flush { ¬ SurvivesLine rebasing_log (codes "1 flush 1") (with_base (lsn_number 1 0 0) (cut advanced_log)) }
{}

/// Blocks and containers stay as large as they are, no area survives, nothing waits and the log isn't broken. The number of write
/// buffers is free.
pub fn what_else_a_crash_leaves()
    ensures other_buffers { SurvivesLine waiting_log long_append (record (left_of long_log 5 1 2560) { buffers = 1 }) }
    ensures no_other_blocks { ¬ SurvivesLine waiting_log long_append
        (record (left_of long_log 5 1 2560) { shape = record { block_sectors = 3; container_sectors = 8 } }) }
    ensures no_other_container_sizes { ¬ SurvivesLine waiting_log long_append
        (record (left_of long_log 5 1 2560) { shape = record { block_sectors = 2; container_sectors = 9 } }) }
    ensures no_areas { ¬ SurvivesLine waiting_log long_append (record (left_of long_log 5 1 2560) { areas = waiting_log.areas }) }
    ensures nothing_that_waits { ¬ SurvivesLine waiting_log long_append (record (left_of long_log 5 1 2560) { waiting = waiting_log.waiting }) }
    ensures not_broken { ¬ SurvivesLine waiting_log long_append (with_broken (left_of long_log 5 1 2560)) }
{}

/// Where a line flushes nothing, the flushed part of the log survives and nothing else: in opening again, in a bad line, in a line that is
/// refused, and in any line of a broken log.
pub fn lines_that_flush_nothing()
    ensures a_flush_may_leave_more { SurvivesLine waiting_log (codes "1 flush 1") (left_of waiting_log 4 1 1536) }
    ensures opening_anew { SurvivesLine waiting_log (codes "1 reopen") (cut waiting_log) }
    ensures opening_anew_leaves_no_more { ¬ SurvivesLine waiting_log (codes "1 reopen") (left_of waiting_log 4 1 1536) }
    ensures opening_anew_leaves_no_less { ¬ SurvivesLine waiting_log (codes "1 reopen") (left_of waiting_log 1 1 512) }
    ensures a_bad_line { SurvivesLine waiting_log (codes "1 flush") (cut waiting_log) }
    ensures a_bad_line_leaves_no_more { ¬ SurvivesLine waiting_log (codes "1 flush") (left_of waiting_log 4 1 1536) }
    ensures a_bad_line_leaves_no_less { ¬ SurvivesLine waiting_log (codes "1 flush") (left_of waiting_log 1 1 512) }
    ensures a_refused_line { SurvivesLine waiting_log (codes "1 flush 5") (cut waiting_log) }
    ensures a_refused_line_leaves_no_more { ¬ SurvivesLine waiting_log (codes "1 flush 5") (left_of waiting_log 4 1 1536) }
    ensures a_broken_log { SurvivesLine (with_broken waiting_log) (codes "1 flush 1") (cut waiting_log) }
    ensures a_broken_log_leaves_no_more { ¬ SurvivesLine (with_broken waiting_log) (codes "1 flush 1") (left_of waiting_log 4 1 1536) }
{}
