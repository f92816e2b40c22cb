// Which calls reach the disk, so that a fault may come of them.
ghost use Rattle.std.specs.Prelude.{◌≡◌, [], ◌∷◌, ◌++◌, codes, false, true};
ghost use Rattle.clfs_rows.specs.Reach.{reaches_disk};
ghost use Rattle.clfs_rows.specs.Worked.{◌⟹◌, opening, append_of_zeros};

/// The calls that make a call on the disk, each after some lines: those that flush, seal the block that fills the write buffers, move
/// to a further container, grow the log, write a base copy, or read.
pub fn calls_that_reach_the_disk()
    ensures an_append_that_flushes { reaches_disk opening (codes "1 append 1 aa 0:0:0 0:0:0 flush") ≡ true }
    ensures the_fourth_sealed_block { reaches_disk (opening
        ++ codes "1 append 1 aa 0:0:0 0:0:0 seal" ⟹ codes "1 lsn 1:0:0"
        ∷ codes "1 append 1 aa 0:0:0 0:0:0 seal" ⟹ codes "1 lsn 1:200:0"
        ∷ codes "1 append 1 aa 0:0:0 0:0:0 seal" ⟹ codes "1 lsn 1:400:0"
        ∷ [])
        (codes "1 append 1 aa 0:0:0 0:0:0 seal") ≡ true }
    ensures the_fourth_block_begun { reaches_disk (opening
        ++ codes "1 append 1 aa 0:0:0 0:0:0 seal" ⟹ codes "1 lsn 1:0:0"
        ∷ codes "1 append 1 aa 0:0:0 0:0:0 seal" ⟹ codes "1 lsn 1:200:0"
        ∷ codes "1 append 1 aa 0:0:0 0:0:0 seal" ⟹ codes "1 lsn 1:400:0"
        ∷ codes "1 append 1 aa 0:0:0 0:0:0" ⟹ codes "1 lsn 1:600:0"
        ∷ [])
        (append_of_zeros 960 []) ≡ true }
    ensures a_block_begun_and_sealed_as_the_fourth { reaches_disk (opening
        ++ codes "1 append 1 aa 0:0:0 0:0:0 seal" ⟹ codes "1 lsn 1:0:0"
        ∷ codes "1 append 1 aa 0:0:0 0:0:0 seal" ⟹ codes "1 lsn 1:200:0"
        ∷ codes "1 append 1 aa 0:0:0 0:0:0" ⟹ codes "1 lsn 1:400:0"
        ∷ [])
        (append_of_zeros 960 (codes " seal")) ≡ true }
    ensures a_move_to_the_next_container { reaches_disk (opening
        ++ append_of_zeros 960 [] ⟹ codes "1 lsn 1:0:0"
        ∷ append_of_zeros 960 [] ⟹ codes "1 lsn 1:400:0"
        ∷ append_of_zeros 960 [] ⟹ codes "1 lsn 1:800:0"
        ∷ append_of_zeros 960 (codes " flush") ⟹ codes "1 lsn 1:c00:0"
        ∷ [])
        (codes "1 append 1 aa 0:0:0 0:0:0") ≡ true }
    ensures an_append_that_grows_the_log { reaches_disk (opening
        ++ codes "1 policy auto" ⟹ codes "1 ok"
        ∷ codes "1 reserve 1 960 960 960 960 960 960 960" ⟹ codes "1 held 14"
        ∷ [])
        (codes "1 append 1 aa 0:0:0 0:0:0") ≡ true }
    ensures a_reservation_that_grows_the_log { reaches_disk (opening
        ++ codes "1 policy auto" ⟹ codes "1 ok"
        ∷ codes "1 reserve 1 960 960 960 960 960 960 960" ⟹ codes "1 held 14"
        ∷ [])
        (codes "1 reserve 1 8") ≡ true }
    ensures a_flush_of_an_open_block { reaches_disk (opening
        ++ codes "1 append 1 aa 0:0:0 0:0:0" ⟹ codes "1 lsn 1:0:0"
        ∷ [])
        (codes "1 flush 1") ≡ true }
    ensures a_flush_of_a_block_that_waits { reaches_disk (opening
        ++ codes "1 append 1 aa 0:0:0 0:0:0 seal" ⟹ codes "1 lsn 1:0:0"
        ∷ [])
        (codes "1 flush 1") ≡ true }
    ensures a_flush_up_to_an_open_block { reaches_disk (opening
        ++ codes "1 append 1 aa 0:0:0 0:0:0 flush" ⟹ codes "1 lsn 1:0:0"
        ∷ codes "1 append 1 aa 0:0:0 0:0:0" ⟹ codes "1 lsn 1:200:0"
        ∷ [])
        (codes "1 flushto 1 1:200:0") ≡ true }
    ensures a_new_stream { reaches_disk opening (codes "1 open b") ≡ true }
    ensures a_restart_area { reaches_disk opening (codes "1 restart 1 aa -") ≡ true }
    ensures a_new_base { reaches_disk (opening
        ++ codes "1 append 1 aa 0:0:0 0:0:0 flush" ⟹ codes "1 lsn 1:0:0"
        ∷ [])
        (codes "1 advance 1 1:0:0") ≡ true }
    ensures archiving { reaches_disk opening (codes "1 archive on") ≡ true }
    ensures an_archive_tail { reaches_disk (opening
        ++ codes "1 archive on" ⟹ codes "1 ok"
        ∷ [])
        (codes "1 tail 1:0:0") ≡ true }
    ensures the_end_of_archiving { reaches_disk (opening
        ++ codes "1 archive on" ⟹ codes "1 ok"
        ∷ [])
        (codes "1 archive off") ≡ true }
    ensures a_policy { reaches_disk opening (codes "1 policy auto") ≡ true }
    ensures the_end_of_a_policy { reaches_disk (opening
        ++ codes "1 policy auto" ⟹ codes "1 ok"
        ∷ [])
        (codes "1 unpolicy auto") ≡ true }
    ensures a_new_size { reaches_disk opening (codes "1 size 3") ≡ true }
    ensures a_read { reaches_disk (opening
        ++ codes "1 append 1 aa 0:0:0 0:0:0" ⟹ codes "1 lsn 1:0:0"
        ∷ [])
        (codes "1 read 1 1:0:0 forward") ≡ true }
    ensures reading_on { reaches_disk (opening
        ++ codes "1 append 1 aa 0:0:0 0:0:0" ⟹ codes "1 lsn 1:0:0"
        ∷ codes "1 append 1 bb 0:0:0 0:0:0" ⟹ codes "1 lsn 1:0:1"
        ∷ codes "1 read 1 1:0:0 forward" ⟹ codes "1 cursor 1 record 1:0:0 data 0:0:0 0:0:0 0:0:0 aa"
        ∷ [])
        (codes "1 next 1 1") ≡ true }
    ensures a_read_of_a_restart_area { reaches_disk (opening
        ++ codes "1 restart 1 aa -" ⟹ codes "1 lsn 1:0:0"
        ∷ [])
        (codes "1 readrestart 1") ≡ true }
    ensures an_older_restart_area { reaches_disk (opening
        ++ codes "1 restart 1 aa -" ⟹ codes "1 lsn 1:0:0"
        ∷ codes "1 restart 1 bb -" ⟹ codes "1 lsn 1:200:0"
        ∷ codes "1 readrestart 1" ⟹ codes "1 cursor 1 record 1:200:0 restart 1:0:0 0:0:0 0:0:0 bb"
        ∷ [])
        (codes "1 prevrestart 1 1") ≡ true }
{}

/// The calls that make no call on the disk, so that no fault can come of them.
pub fn calls_that_leave_the_disk_alone()
    ensures a_first_append { reaches_disk opening (codes "1 append 1 aa 0:0:0 0:0:0") ≡ false }
    ensures a_block_begun_with_two_waiting { reaches_disk (opening
        ++ codes "1 append 1 aa 0:0:0 0:0:0 seal" ⟹ codes "1 lsn 1:0:0"
        ∷ codes "1 append 1 aa 0:0:0 0:0:0 seal" ⟹ codes "1 lsn 1:200:0"
        ∷ codes "1 append 1 aa 0:0:0 0:0:0" ⟹ codes "1 lsn 1:400:0"
        ∷ [])
        (append_of_zeros 960 []) ≡ false }
    ensures a_block_begun_behind_none_with_three_waiting { reaches_disk (opening
        ++ codes "1 append 1 aa 0:0:0 0:0:0 seal" ⟹ codes "1 lsn 1:0:0"
        ∷ codes "1 append 1 aa 0:0:0 0:0:0 seal" ⟹ codes "1 lsn 1:200:0"
        ∷ codes "1 append 1 aa 0:0:0 0:0:0 seal" ⟹ codes "1 lsn 1:400:0"
        ∷ [])
        (append_of_zeros 960 []) ≡ false }
    ensures the_third_sealed_block { reaches_disk (opening
        ++ codes "1 append 1 aa 0:0:0 0:0:0 seal" ⟹ codes "1 lsn 1:0:0"
        ∷ codes "1 append 1 aa 0:0:0 0:0:0 seal" ⟹ codes "1 lsn 1:200:0"
        ∷ [])
        (codes "1 append 1 aa 0:0:0 0:0:0 seal") ≡ false }
    ensures an_append_that_needs_no_growth { reaches_disk (opening
        ++ codes "1 policy auto" ⟹ codes "1 ok"
        ∷ codes "1 reserve 1 960 960 960 960 960 960 8" ⟹ codes "1 held 13"
        ∷ [])
        (codes "1 append 1 aa 0:0:0 0:0:0 seal") ≡ false }
    ensures a_reservation_that_needs_no_growth { reaches_disk (opening
        ++ codes "1 policy auto" ⟹ codes "1 ok"
        ∷ [])
        (codes "1 reserve 1 960 960 960 960 960 960 960") ≡ false }
    ensures a_release { reaches_disk (opening
        ++ codes "1 reserve 1 960" ⟹ codes "1 held 2"
        ∷ [])
        (codes "1 release 1 1") ≡ false }
    ensures sizes_that_are_added_up { reaches_disk opening (codes "1 align 1 8") ≡ false }
    ensures a_flush_of_nothing { reaches_disk (opening
        ++ codes "1 append 1 aa 0:0:0 0:0:0 flush" ⟹ codes "1 lsn 1:0:0"
        ∷ [])
        (codes "1 flush 1") ≡ false }
    ensures a_flush_up_to_what_is_flushed { reaches_disk (opening
        ++ codes "1 append 1 aa 0:0:0 0:0:0 flush" ⟹ codes "1 lsn 1:0:0"
        ∷ codes "1 append 1 aa 0:0:0 0:0:0" ⟹ codes "1 lsn 1:200:0"
        ∷ [])
        (codes "1 flushto 1 1:0:0") ≡ false }
    ensures a_stream_that_is_there { reaches_disk opening (codes "1 open a") ≡ false }
    ensures an_area { reaches_disk opening (codes "1 area 1 960 4") ≡ false }
    ensures an_area_dropped { reaches_disk opening (codes "1 drop 1") ≡ false }
    ensures a_cursor_ended { reaches_disk (opening
        ++ codes "1 append 1 aa 0:0:0 0:0:0" ⟹ codes "1 lsn 1:0:0"
        ∷ codes "1 read 1 1:0:0 forward" ⟹ codes "1 cursor 1 record 1:0:0 data 0:0:0 0:0:0 0:0:0 aa"
        ∷ [])
        (codes "1 end 1 1") ≡ false }
    ensures archiving_that_is_on { reaches_disk (opening
        ++ codes "1 archive on" ⟹ codes "1 ok"
        ∷ [])
        (codes "1 archive on") ≡ false }
    ensures archiving_that_is_off { reaches_disk opening (codes "1 archive off") ≡ false }
    ensures extents { reaches_disk (opening
        ++ codes "1 archive on" ⟹ codes "1 ok"
        ∷ [])
        (codes "1 extents") ≡ false }
    ensures the_size_that_it_has { reaches_disk opening (codes "1 size 2") ≡ false }
    ensures what_the_log_is_like { reaches_disk opening (codes "1 info 1") ≡ false }
{}
