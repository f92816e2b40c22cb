// The states that a log can be in.
ghost use Rattle.std.specs.Prelude.{[], ◌∷◌, Some, codes, take, true};
ghost use Rattle.clfs_lsn.specs.Lsn.{null_lsn, lsn_number};
ghost use Rattle.clfs_lsn.specs.declared.cursor.Mode.TheVariants.{Forward};
ghost use Rattle.clfs_lsn.specs.declared.cursor.CursorKind.TheVariants.{Records};
ghost use Rattle.clfs_model.specs.State.{log_of};
ghost use Rattle.clfs_model.specs.Valid.{IsValid};
ghost use Rattle.clfs_rows.specs.Worked.{worked, opened_log};
ghost use Rattle.clfs_rows.specs.Filled.{empty_record, streams_of};
ghost use Rattle.clfs_rows.specs.Crashes.{closed_at, with_base, waiting_log, long_log};
ghost use Rattle.clfs_rows.specs.Compared.{two_containers, with_one_changed, with_link_to_itself};
ghost use Rattle.clfs_rows.specs.Arranged.{arranged_log, an_area, with_areas, with_cursors, cursor_at, with_place, with_records, empty_restart, open_log, block_of};

/// A log is in one after all these lines.
pub fn states_that_a_log_can_be_in()
    ensures just_made { IsValid worked }
    ensures with_blocks_that_wait { IsValid waiting_log }
    ensures with_an_open_block { IsValid open_log }
    ensures of_two_containers { IsValid arranged_log }
    ensures with_the_largest_numbers { IsValid (log_of 128 16384 256 64) }
{}

/// The shape, the number of containers and that of write buffers are in their ranges, and the place is within its container.
pub fn numbers_in_their_ranges()
    ensures some_sectors_of_a_block { ¬ IsValid (log_of 0 8 2 4) }
    ensures few_sectors_of_a_block { ¬ IsValid (log_of 129 16384 2 4) }
    ensures two_blocks_of_a_container { ¬ IsValid (log_of 5 9 2 4) }
    ensures few_sectors_of_a_container { ¬ IsValid (log_of 2 16385 2 4) }
    ensures some_containers { ¬ IsValid (log_of 2 8 0 4) }
    ensures few_containers { ¬ IsValid (log_of 2 8 257 4) }
    ensures some_write_buffers { ¬ IsValid (log_of 2 8 2 0) }
    ensures few_write_buffers { ¬ IsValid (log_of 2 8 2 65) }
    ensures a_container_of_the_place { ¬ IsValid (with_place (closed_at 0 0) worked) }
    ensures whole_sectors { ¬ IsValid (with_place (closed_at 1 100) worked) }
    ensures within_the_container { ¬ IsValid (with_place (closed_at 1 4608) worked) }
    ensures no_bytes_without_records { ¬ IsValid (with_place (record (closed_at 1 0) { used = 16 }) worked) }
    ensures no_records_without_bytes { ¬ IsValid (with_place (record (closed_at 1 0) { records = 1 }) open_log) }
    ensures the_most_records_of_a_block { IsValid (block_of 511) }
    ensures no_more_records_of_a_block { ¬ IsValid (block_of 512) }
    ensures a_block_that_is_no_longer_than_it_may_be { ¬ IsValid (with_place (record (closed_at 1 0) { used = 1016; records = 1 }) open_log) }
{}

/// Policies are such as may be installed.
pub fn policies_in_their_ranges()
    ensures maximum_from_2 { ¬ IsValid (record worked { maximum = Some 1 }) }
    ensures maximum_up_to_256 { ¬ IsValid (record worked { maximum = Some 257 }) }
    ensures minimum_from_2 { ¬ IsValid (record worked { minimum = Some 1 }) }
    ensures minimum_up_to_256 { ¬ IsValid (record worked { minimum = Some 257 }) }
    ensures in_order { ¬ IsValid (record worked { maximum = Some 3; minimum = Some 4 }) }
    ensures one_at_both { IsValid (record worked { maximum = Some 3; minimum = Some 3 }) }
    ensures growth_from_1 { ¬ IsValid (record worked { growth = Some 0 }) }
    ensures growth_up_to_254 { ¬ IsValid (record worked { growth = Some 255 }) }
{}

/// Streams have different names, areas of one client different numbers, and cursors of one area too. An area is on a stream that is
/// there, with records that fit a block. A dedicated log has at most one stream.
pub fn tables_of_a_log()
    ensures different_names { ¬ IsValid (record worked {
      streams = record { name = codes "a"; base = null_lsn } ∷ record
          { name = codes "a"; base = null_lsn } ∷ [];
    }) }
    ensures different_numbers_of_areas { ¬ IsValid (with_areas (an_area ∷ an_area ∷ []) opened_log) }
    ensures areas_of_different_clients { IsValid (with_areas (an_area ∷ record an_area { client = 2 } ∷ []) opened_log) }
    ensures areas_of_one_client { IsValid (with_areas (an_area ∷ record an_area { number = 2 } ∷ []) opened_log) }
    ensures an_areas_stream { ¬ IsValid (with_areas (record an_area { stream = 2 } ∷ []) opened_log) }
    ensures an_areas_largest_record { ¬ IsValid (with_areas (record an_area { largest = 961 } ∷ []) opened_log) }
    ensures different_numbers_of_cursors { ¬ IsValid (with_cursors (cursor_at 1 (Records Forward) (lsn_number 1 0 0) ∷ cursor_at 1 (Records Forward)
        (lsn_number 1 0 0) ∷ []) arranged_log) }
    ensures one_stream_of_a_dedicated_log { IsValid (record (streams_of 1) { dedicated = true }) }
    ensures two_streams_of_another { IsValid (streams_of 2) }
    ensures no_two_streams_of_a_dedicated_log { ¬ IsValid (record (streams_of 2) { dedicated = true }) }
{}

/// LSNs rise from above null to below the place, links point down, and the open block has the records that the place says.
pub fn records_of_a_log()
    ensures rising { ¬ IsValid (with_records (empty_record 1 ∷ empty_record 0 ∷ []) (closed_at 1 512)) }
    ensures not_twice { ¬ IsValid (with_records (empty_record 0 ∷ empty_record 0 ∷ []) (closed_at 1 512)) }
    ensures a_records_stream { ¬ IsValid (with_records (record (empty_record 0) { stream = 2 } ∷ []) (closed_at 1 512)) }
    ensures no_record_without_a_stream { ¬ IsValid (with_records (record (empty_record 0) { stream = 0 } ∷ []) (closed_at 1 512)) }
    ensures above_null { ¬ IsValid (with_records (record (empty_record 0) { lsn = null_lsn } ∷ []) (closed_at 1 512)) }
    ensures below_the_place { ¬ IsValid (with_records (record (empty_record 0) { lsn = lsn_number 1 1024 0 } ∷ []) (closed_at 1 512)) }
    ensures previous_below_it { ¬ IsValid (with_records (with_link_to_itself (empty_record 0) ∷ []) (closed_at 1 512)) }
    ensures undo_next_below_it { ¬ IsValid (with_records (record (empty_record 0) { undo_next = lsn_number 1 0 0 } ∷ []) (closed_at 1 512)) }
    ensures as_many_as_the_place_says { ¬ IsValid (with_place (record (closed_at 1 0) { used = 80; records = 2 }) open_log) }
    ensures one_behind_the_other { ¬ IsValid (with_records (empty_record 1 ∷ []) (record (closed_at 1 0) { used = 48; records = 1 })) }
{}

/// Bases, the archive tail and restart areas are on the disk.
pub fn what_is_stable()
    ensures bases { ¬ IsValid (with_base (lsn_number 1 1024 1) waiting_log) }
    ensures a_base_at_flushed { IsValid (with_base (lsn_number 1 1024 0) waiting_log) }
    ensures restart_areas { ¬ IsValid (with_records (empty_restart 0 ∷ []) (record (closed_at 1 0) { used = 48; records = 1 })) }
    ensures a_restart_area_below_flushed { IsValid (with_records (empty_restart 0 ∷ []) (closed_at 1 512)) }
    ensures the_tail { ¬ IsValid (record waiting_log { archive = Some (lsn_number 1 1024 1) }) }
    ensures a_tail_at_flushed { IsValid (record waiting_log { archive = Some (lsn_number 1 1024 0) }) }
{}

/// Fewer blocks wait than there are write buffers, rising. They are blocks of the place's container, below the open one.
pub fn blocks_that_wait()
    ensures fewer_than_buffers { ¬ IsValid (record waiting_log { buffers = 1 }) }
    ensures one_fewer { IsValid (record waiting_log { buffers = 2 }) }
    ensures rising { ¬ IsValid (record waiting_log { waiting = lsn_number 1 1024 0 ∷ lsn_number 1 512 0 ∷ [] }) }
    ensures in_the_places_container { ¬ IsValid (record (with_base null_lsn two_containers) { waiting = lsn_number 1 0 0 ∷ [] }) }
    ensures by_their_first_record { ¬ IsValid (record waiting_log { waiting = lsn_number 1 1024 1 ∷ [] }) }
    ensures which_is_there { ¬ IsValid (record long_log { waiting = lsn_number 1 2048 0 ∷ [] }) }
    ensures below_the_open_block { ¬ IsValid (record open_log { waiting = lsn_number 1 0 0 ∷ [] }) }
{}

/// The containers in use are there, what is reserved is free, and only a log of two containers has reservations.
pub fn space_of_a_log()
    ensures containers_in_use { ¬ IsValid (record (with_base null_lsn two_containers) { containers = 1 }) }
    ensures all_that_is_free { IsValid (with_areas (record an_area { held = 14 } ∷ []) opened_log) }
    ensures no_more_than_is_free { ¬ IsValid (with_areas (record an_area { held = 15 } ∷ []) opened_log) }
    ensures two_containers { ¬ IsValid (record (with_areas (record an_area { held = 1 } ∷ []) opened_log) { containers = 1 }) }
    ensures nothing_of_one_container { IsValid (record opened_log { containers = 1 }) }
{}
