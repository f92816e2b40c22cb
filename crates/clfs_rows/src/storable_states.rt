// The states whose flushed part the files of a log can hold, and the limits of what is held in memory.
ghost use Rattle.std.specs.Prelude.{[], ◌∷◌, codes, replicate};
ghost use Rattle.clfs_lsn.specs.Lsn.{lsn_number};
ghost use Rattle.clfs_lsn.specs.declared.cursor.Mode.TheVariants.{Forward};
ghost use Rattle.clfs_lsn.specs.declared.cursor.CursorKind.TheVariants.{Records, RestartAreas};
ghost use Rattle.clfs_lsn.specs.Place.{sealed};
ghost use Rattle.clfs_model.specs.Storable.{IsStorable};
ghost use Rattle.clfs_rows.specs.Worked.{worked, opened_log};
ghost use Rattle.clfs_rows.specs.Filled.{streams_of, last_of_all};
ghost use Rattle.clfs_rows.specs.Crashes.{closed_at, with_base};
ghost use Rattle.clfs_rows.specs.Compared.{without_first, without_one, with_one_changed};
ghost use Rattle.clfs_rows.specs.Arranged.{arranged_log, with_new_base, with_bytes, with_place, open_at, block_of, stream_named, an_area, with_areas, with_cursors, cursor_at};

/// A plain record has no new base. A restart area's is at most its own LSN, and its stream's base has moved there or further.
pub fn bases_that_files_hold()
    ensures a_restart_area { IsStorable arranged_log }
    ensures a_base_further_on { IsStorable (with_base (lsn_number 2 0 2) arranged_log) }
    ensures a_restart_area_at_its_own_base { IsStorable (with_base (lsn_number 2 512 0)
        (with_one_changed (with_new_base (lsn_number 2 512 0)) 11 arranged_log)) }
    ensures no_base_of_a_plain_record { ¬ IsStorable (with_one_changed (with_new_base (lsn_number 2 0 1)) 12 arranged_log) }
    ensures no_base_above_its_own_lsn { ¬ IsStorable (with_base (lsn_number 2 1024 0)
        (with_one_changed (with_new_base (lsn_number 2 512 1)) 11 arranged_log)) }
    ensures no_stream_below_the_new_base { ¬ IsStorable (with_base (lsn_number 2 0 0) arranged_log) }
{}

/// The blocks of each container lie one after the other from its first byte on. Each is as long as its records make it, no longer than a
/// block may be, and within its container.
pub fn blocks_that_files_hold()
    ensures no_blocks { IsStorable opened_log }
    ensures without_the_first_container { IsStorable (without_first 8 arranged_log) }
    ensures the_most_records_of_a_block { IsStorable (block_of 511) }
    ensures no_gap_between_blocks { ¬ IsStorable (without_one 3 arranged_log) }
    ensures no_gap_at_a_containers_begin { ¬ IsStorable (without_one 0 arranged_log) }
    ensures no_block_without_its_first_record { ¬ IsStorable (without_one 8 arranged_log) }
    ensures no_gap_between_records { ¬ IsStorable (without_one 9 arranged_log) }
    ensures no_block_over_the_next_one { ¬ IsStorable (with_one_changed (with_bytes 600) 3 arranged_log) }
    ensures a_block_of_two_sectors { IsStorable (with_place (open_at 1024 1008 1) (with_one_changed (with_bytes 960) 12 arranged_log)) }
    ensures no_block_of_three_sectors { ¬ IsStorable (with_place (open_at 1024 1016 1) (with_one_changed (with_bytes 968) 12 arranged_log)) }
    ensures no_block_over_its_containers_end { ¬ IsStorable (with_one_changed (with_bytes 600) 7 arranged_log) }
    ensures no_more_records_of_a_block { ¬ IsStorable (block_of 512) }
{}

/// The log goes on after the last record: in its block, after it, or in a further container.
pub fn places_that_files_hold()
    ensures behind_the_last_block { IsStorable (with_place (sealed arranged_log.place) arranged_log) }
    ensures in_the_next_container { IsStorable (with_place (closed_at 3 0) arranged_log) }
    ensures in_the_last_container_of_all { IsStorable (with_place last_of_all arranged_log) }
    ensures not_further_on { ¬ IsStorable (with_place (closed_at 2 2048) arranged_log) }
    ensures not_before_the_last_block { ¬ IsStorable (with_place (closed_at 2 1024) arranged_log) }
    ensures not_with_other_bytes_in_the_block { ¬ IsStorable (with_place (open_at 1024 64 1) arranged_log) }
    ensures not_with_other_records_in_the_block { ¬ IsStorable (with_place (open_at 1024 56 2) arranged_log) }
    ensures not_within_the_next_container { ¬ IsStorable (with_place (closed_at 3 512) arranged_log) }
    ensures not_in_an_earlier_container { ¬ IsStorable (with_place (closed_at 1 0) arranged_log) }
    ensures not_above_the_last_container_of_all { ¬ IsStorable (with_place (closed_at 4294967296 0) arranged_log) }
{}

/// Names are legal, and streams and areas are no more than there can be.
pub fn streams_and_areas_within_limits()
    ensures a_longest_name { IsStorable (stream_named (replicate 64 97)) }
    ensures no_longer_name { ¬ IsStorable (stream_named (replicate 65 97)) }
    ensures no_empty_name { ¬ IsStorable (stream_named []) }
    ensures no_name_with_another_byte { ¬ IsStorable (stream_named (codes "a:b")) }
    ensures the_most_streams { IsStorable (streams_of 192) }
    ensures no_more_streams { ¬ IsStorable (streams_of 193) }
    ensures the_most_areas { IsStorable (with_areas (record an_area { client = 2 } ∷ replicate 16 an_area) worked) }
    ensures no_more_areas_of_a_client { ¬ IsStorable (with_areas (record an_area { client = 2 } ∷ replicate 17 an_area) worked) }
    ensures the_last_client { IsStorable (with_areas (record an_area { client = 64 } ∷ []) worked) }
    ensures no_client_0 { ¬ IsStorable (with_areas (record an_area { client = 0 } ∷ []) worked) }
    ensures no_client_65 { ¬ IsStorable (with_areas (record an_area { client = 65 } ∷ []) worked) }
    ensures the_last_area { IsStorable (with_areas (record an_area { number = 16 } ∷ []) worked) }
    ensures no_area_0 { ¬ IsStorable (with_areas (record an_area { number = 0 } ∷ []) worked) }
    ensures no_area_17 { ¬ IsStorable (with_areas (record an_area { number = 17 } ∷ []) worked) }
{}

/// An area has cursors with numbers that it can give, and no more than it was made for. A cursor's last record is there, in the area's stream.
pub fn cursors_within_limits()
    ensures the_most_reads { IsStorable (with_areas (record an_area { reads = 16 } ∷ []) worked) }
    ensures no_area_for_0_cursors { ¬ IsStorable (with_areas (record an_area { reads = 0 } ∷ []) worked) }
    ensures no_area_for_17_cursors { ¬ IsStorable (with_areas (record an_area { reads = 17 } ∷ []) worked) }
    ensures two_cursors { IsStorable (with_cursors (cursor_at 2 (Records Forward) (lsn_number 1 0 0) ∷ cursor_at 1 RestartAreas (lsn_number 2 512 0)
        ∷ []) arranged_log) }
    ensures no_three_cursors_of_two { ¬ IsStorable (with_cursors (replicate 3 (cursor_at 1 (Records Forward) (lsn_number 1 0 0))) arranged_log) }
    ensures no_cursor_0 { ¬ IsStorable (with_cursors (cursor_at 0 (Records Forward) (lsn_number 1 0 0) ∷ []) arranged_log) }
    ensures no_cursor_3_of_two { ¬ IsStorable (with_cursors (cursor_at 3 (Records Forward) (lsn_number 1 0 0) ∷ []) arranged_log) }
    ensures no_cursor_without_a_record { ¬ IsStorable (with_cursors (cursor_at 1 (Records Forward) (lsn_number 1 0 1) ∷ []) arranged_log) }
    ensures no_cursor_at_another_streams_record { ¬ IsStorable (with_areas
        (record an_area { stream = 2; cursors = cursor_at 1 (Records Forward) (lsn_number 1 0 0) ∷ [] } ∷ []) arranged_log) }
    ensures a_cursor_over_records_at_a_restart_area { IsStorable (with_cursors (cursor_at 1 (Records Forward) (lsn_number 2 512 0) ∷ []) arranged_log) }
    ensures no_cursor_over_restart_areas_at_a_plain_record { ¬ IsStorable (with_cursors (cursor_at 1 RestartAreas (lsn_number 1 0 0) ∷ []) arranged_log) }
{}
