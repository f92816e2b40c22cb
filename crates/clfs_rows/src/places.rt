// Where records lie: blocks, sectors and containers, and the room that a log has.
ghost use Rattle.std.specs.Prelude.{◌≡◌, [], ◌∷◌, ◌++◌, codes, Some, None};
ghost use Rattle.clfs_lsn.specs.Lsn.{lsn_number};
ghost use Rattle.clfs_lsn.specs.Space.{free_sectors, growth, least_containers};
ghost use Rattle.clfs_model.specs.State.{log_of};
ghost use Rattle.clfs_rows.specs.Filled.{many_records, nearly_full, last_of_all};
ghost use Rattle.clfs_rows.specs.Worked.{worked, ◌⟹◌, IsDialogue, opening, zeros, line_of_append, append_of_zeros};

/// The first records of a log: they share a block, and the log tells its room.
pub fn records_of_a_block()
    ensures fresh_log { IsDialogue worked (opening
        ++ codes "1 info 1" ⟹ codes "1 info containers 2 free 1 size 8 sectors 14 reserved 0 base 0:0:0 last 0:0:0 flushed 1:0:0 restart 0:0:0 archive off"
        ∷ []) }
    ensures first_record { IsDialogue worked (opening
        ++ codes "1 append 1 00010203040506070809 0:0:0 0:0:0" ⟹ codes "1 lsn 1:0:0"
        ∷ codes "1 info 1" ⟹ codes "1 info containers 2 free 1 size 8 sectors 13 reserved 0 base 0:0:0 last 1:0:0 flushed 1:0:0 restart 0:0:0 archive off"
        ∷ []) }
    ensures second_record_joins { IsDialogue worked (opening
        ++ codes "1 append 1 00010203040506070809 0:0:0 0:0:0" ⟹ codes "1 lsn 1:0:0"
        ∷ codes "1 append 1 aa 1:0:0 1:0:0" ⟹ codes "1 lsn 1:0:1"
        ∷ codes "1 info 1" ⟹ codes "1 info containers 2 free 1 size 8 sectors 13 reserved 0 base 0:0:0 last 1:0:1 flushed 1:0:0 restart 0:0:0 archive off"
        ∷ []) }
    ensures empty_record { IsDialogue worked (opening
        ++ codes "1 append 1 - 0:0:0 0:0:0" ⟹ codes "1 lsn 1:0:0"
        ∷ codes "1 read 1 1:0:0 forward" ⟹ codes "1 cursor 1 record 1:0:0 data 0:0:0 0:0:0 0:0:0 -"
        ∷ codes "1 end 1 1" ⟹ codes "1 ok"
        ∷ codes "1 drop 1" ⟹ codes "1 ok"
        ∷ []) }
    ensures no_record_is_longer_than_a_block { IsDialogue worked (opening
        ++ append_of_zeros 961 [] ⟹ codes "1 refused 7 RecordTooLong 961 960"
        ∷ append_of_zeros 960 [] ⟹ codes "1 lsn 1:0:0"
        ∷ []) }
{}

/// A record joins the open block up to the largest block's last byte of payload, and up to the container's end.
pub fn largest_blocks()
    ensures joins_up_to_the_last_byte_of_payload { IsDialogue worked (opening
        ++ append_of_zeros 448 [] ⟹ codes "1 lsn 1:0:0"
        ∷ append_of_zeros 480 [] ⟹ codes "1 lsn 1:0:1"
        ∷ codes "1 append 1 - 0:0:0 0:0:0" ⟹ codes "1 lsn 1:400:0"
        ∷ []) }
    ensures begins_a_block_one_byte_later { IsDialogue worked (opening
        ++ append_of_zeros 448 [] ⟹ codes "1 lsn 1:0:0"
        ∷ append_of_zeros 481 [] ⟹ codes "1 lsn 1:200:0"
        ∷ []) }
    ensures joins_no_further_than_the_container { IsDialogue worked (opening
        ++ append_of_zeros 960 [] ⟹ codes "1 lsn 1:0:0"
        ∷ append_of_zeros 960 [] ⟹ codes "1 lsn 1:400:0"
        ∷ append_of_zeros 960 [] ⟹ codes "1 lsn 1:800:0"
        ∷ codes "1 append 1 aa 0:0:0 0:0:0 seal" ⟹ codes "1 lsn 1:c00:0"
        ∷ codes "1 append 1 aa 0:0:0 0:0:0" ⟹ codes "1 lsn 1:e00:0"
        ∷ codes "1 append 1 bb 0:0:0 0:0:0" ⟹ codes "1 lsn 1:e00:1"
        ∷ append_of_zeros 480 [] ⟹ codes "1 lsn 2:0:0"
        ∷ []) }
    ensures large_blocks { IsDialogue (log_of 3 8 2 4) (opening
        ++ codes "1 info 1" ⟹ codes "1 info containers 2 free 1 size 8 sectors 12 reserved 0 base 0:0:0 last 0:0:0 flushed 1:0:0 restart 0:0:0 archive off"
        ∷ codes "1 area 1 1464 1" ⟹ codes "1 area 2"
        ∷ codes "1 area 1 1465 1" ⟹ codes "1 refused 7 RecordTooLong 1465 1464"
        ∷ append_of_zeros 448 [] ⟹ codes "1 lsn 1:0:0"
        ∷ append_of_zeros 481 [] ⟹ codes "1 lsn 1:0:1"
        ∷ append_of_zeros 481 [] ⟹ codes "1 lsn 1:600:0"
        ∷ codes "1 info 1" ⟹ codes "1 info containers 2 free 1 size 8 sectors 7 reserved 0 base 0:0:0 last 1:600:0 flushed 1:0:0 restart 0:0:0 archive off"
        ∷ []) }
    ensures smallest_blocks { IsDialogue (log_of 1 8 2 1) (
        codes "1 open a" ⟹ codes "1 stream 1"
        ∷ codes "1 area 1 457 1" ⟹ codes "1 refused 7 RecordTooLong 457 456"
        ∷ codes "1 area 1 456 1" ⟹ codes "1 area 1"
        ∷ append_of_zeros 456 [] ⟹ codes "1 lsn 1:0:0"
        ∷ codes "1 append 1 - 0:0:0 0:0:0" ⟹ codes "1 lsn 1:200:0"
        ∷ codes "1 info 1" ⟹ codes "1 info containers 2 free 1 size 8 sectors 14 reserved 0 base 0:0:0 last 1:200:0 flushed 1:200:0 restart 0:0:0 archive off"
        ∷ []) }
{}

/// A record that doesn't fit into the rest of its container begins the next one. The container that is full isn't left before.
pub fn moves_to_the_next_container()
    ensures a_sector_is_skipped { IsDialogue worked (opening
        ++ codes "1 append 1 aa 0:0:0 0:0:0 flush" ⟹ codes "1 lsn 1:0:0"
        ∷ append_of_zeros 960 [] ⟹ codes "1 lsn 1:200:0"
        ∷ append_of_zeros 960 [] ⟹ codes "1 lsn 1:600:0"
        ∷ append_of_zeros 960 [] ⟹ codes "1 lsn 1:a00:0"
        ∷ append_of_zeros 960 [] ⟹ codes "1 lsn 2:0:0"
        ∷ codes "1 info 1" ⟹ codes "1 info containers 2 free 0 size 8 sectors 5 reserved 0 base 0:0:0 last 2:0:0 flushed 2:0:0 restart 0:0:0 archive off"
        ∷ []) }
    ensures a_small_record_takes_the_last_sector { IsDialogue worked (opening
        ++ codes "1 append 1 aa 0:0:0 0:0:0 flush" ⟹ codes "1 lsn 1:0:0"
        ∷ append_of_zeros 960 [] ⟹ codes "1 lsn 1:200:0"
        ∷ append_of_zeros 960 [] ⟹ codes "1 lsn 1:600:0"
        ∷ append_of_zeros 960 [] ⟹ codes "1 lsn 1:a00:0"
        ∷ codes "1 append 1 bb 0:0:0 0:0:0" ⟹ codes "1 lsn 1:e00:0"
        ∷ append_of_zeros 960 [] ⟹ codes "1 lsn 2:0:0"
        ∷ []) }
    ensures a_full_container_is_left_by_the_next_record { IsDialogue worked (opening
        ++ append_of_zeros 960 [] ⟹ codes "1 lsn 1:0:0"
        ∷ append_of_zeros 960 [] ⟹ codes "1 lsn 1:400:0"
        ∷ append_of_zeros 960 [] ⟹ codes "1 lsn 1:800:0"
        ∷ append_of_zeros 960 (codes " flush") ⟹ codes "1 lsn 1:c00:0"
        ∷ codes "1 flush 1" ⟹ codes "1 flushed 1:1000:0"
        ∷ codes "1 flushto 1 1:1000:0" ⟹ codes "1 refused 17 RecordNonexistent 1:1000:0"
        ∷ codes "1 info 1" ⟹ codes "1 info containers 2 free 1 size 8 sectors 7 reserved 0 base 0:0:0 last 1:c00:0 flushed 1:1000:0 restart 0:0:0 archive off"
        ∷ codes "1 append 1 aa 0:0:0 0:0:0" ⟹ codes "1 lsn 2:0:0"
        ∷ codes "1 info 1" ⟹ codes "1 info containers 2 free 0 size 8 sectors 6 reserved 0 base 0:0:0 last 2:0:0 flushed 2:0:0 restart 0:0:0 archive off"
        ∷ []) }
{}

/// A block of very small records takes 511 of them, also where it has room for more.
pub fn records_in_a_block()
    ensures the_511th_joins_and_the_512th_does_not { IsDialogue many_records (
        codes "1 append 1 - 0:0:0 0:0:0" ⟹ codes "1 lsn 1:0:1fe"
        ∷ codes "1 append 1 - 0:0:0 0:0:0" ⟹ codes "1 lsn 1:4200:0"
        ∷ codes "1 append 1 - 0:0:0 0:0:0" ⟹ codes "1 lsn 1:4200:1"
        ∷ codes "1 read 1 1:0:1fe forward" ⟹ codes "1 cursor 1 record 1:0:1fe data 0:0:0 0:0:0 0:0:0 -"
        ∷ codes "1 next 1 1" ⟹ codes "1 record 1:4200:0 data 0:0:0 0:0:0 0:0:0 -"
        ∷ codes "1 flushto 1 1:0:1fe" ⟹ codes "1 flushed 1:4400:0"
        ∷ []) }
{}

/// A block is sealed after the record that asks for it. Sealed blocks wait until as many wait as there are write buffers; what
/// is on the disk ends at the first of them.
pub fn sealing_and_writing()
    ensures the_fourth_sealed_block_writes_all { IsDialogue worked (opening
        ++ codes "1 append 1 aa 0:0:0 0:0:0 seal" ⟹ codes "1 lsn 1:0:0"
        ∷ codes "1 append 1 aa 0:0:0 0:0:0 seal" ⟹ codes "1 lsn 1:200:0"
        ∷ codes "1 append 1 aa 0:0:0 0:0:0 seal" ⟹ codes "1 lsn 1:400:0"
        ∷ codes "1 info 1" ⟹ codes "1 info containers 2 free 1 size 8 sectors 11 reserved 0 base 0:0:0 last 1:400:0 flushed 1:0:0 restart 0:0:0 archive off"
        ∷ codes "1 append 1 aa 0:0:0 0:0:0 seal" ⟹ codes "1 lsn 1:600:0"
        ∷ codes "1 info 1" ⟹ codes "1 info containers 2 free 1 size 8 sectors 10 reserved 0 base 0:0:0 last 1:600:0 flushed 1:800:0 restart 0:0:0 archive off"
        ∷ codes "1 append 1 aa 0:0:0 0:0:0 seal" ⟹ codes "1 lsn 1:800:0"
        ∷ codes "1 info 1" ⟹ codes "1 info containers 2 free 1 size 8 sectors 9 reserved 0 base 0:0:0 last 1:800:0 flushed 1:800:0 restart 0:0:0 archive off"
        ∷ []) }
    ensures one_write_buffer { IsDialogue (log_of 2 8 2 1) (opening
        ++ codes "1 append 1 aa 0:0:0 0:0:0 seal" ⟹ codes "1 lsn 1:0:0"
        ∷ codes "1 info 1" ⟹ codes "1 info containers 2 free 1 size 8 sectors 13 reserved 0 base 0:0:0 last 1:0:0 flushed 1:200:0 restart 0:0:0 archive off"
        ∷ codes "1 append 1 bb 0:0:0 0:0:0" ⟹ codes "1 lsn 1:200:0"
        ∷ codes "1 info 1" ⟹ codes "1 info containers 2 free 1 size 8 sectors 12 reserved 0 base 0:0:0 last 1:200:0 flushed 1:200:0 restart 0:0:0 archive off"
        ∷ append_of_zeros 960 [] ⟹ codes "1 lsn 1:400:0"
        ∷ codes "1 info 1" ⟹ codes "1 info containers 2 free 1 size 8 sectors 10 reserved 0 base 0:0:0 last 1:400:0 flushed 1:400:0 restart 0:0:0 archive off"
        ∷ []) }
    ensures sealed_behind_the_record { IsDialogue worked (opening
        ++ codes "1 append 1 aa 0:0:0 0:0:0" ⟹ codes "1 lsn 1:0:0"
        ∷ codes "1 append 1 bb 0:0:0 0:0:0 seal" ⟹ codes "1 lsn 1:0:1"
        ∷ codes "1 append 1 cc 0:0:0 0:0:0" ⟹ codes "1 lsn 1:200:0"
        ∷ []) }
    ensures nothing_to_flush { IsDialogue worked (opening
        ++ codes "1 flush 1" ⟹ codes "1 flushed 1:0:0"
        ∷ codes "1 append 1 aa 0:0:0 0:0:0 flush" ⟹ codes "1 lsn 1:0:0"
        ∷ codes "1 flush 1" ⟹ codes "1 flushed 1:200:0"
        ∷ codes "1 flush 1" ⟹ codes "1 flushed 1:200:0"
        ∷ codes "1 append 1 bb 0:0:0 0:0:0" ⟹ codes "1 lsn 1:200:0"
        ∷ []) }
    ensures a_flush_up_to_a_record { IsDialogue worked (opening
        ++ codes "1 append 1 aa 0:0:0 0:0:0 flush" ⟹ codes "1 lsn 1:0:0"
        ∷ codes "1 append 1 bb 0:0:0 0:0:0" ⟹ codes "1 lsn 1:200:0"
        ∷ codes "1 flushto 1 0:0:0" ⟹ codes "1 flushed 1:200:0"
        ∷ codes "1 flushto 1 1:0:0" ⟹ codes "1 flushed 1:200:0"
        ∷ codes "1 flushto 1 1:0:5" ⟹ codes "1 flushed 1:200:0"
        ∷ codes "1 append 1 cc 0:0:0 0:0:0" ⟹ codes "1 lsn 1:200:1"
        ∷ codes "1 flushto 1 1:200:2" ⟹ codes "1 refused 17 RecordNonexistent 1:200:2"
        ∷ codes "1 flushto 1 1:200:0" ⟹ codes "1 flushed 1:400:0"
        ∷ codes "1 flushto 1 1:400:0" ⟹ codes "1 refused 17 RecordNonexistent 1:400:0"
        ∷ codes "1 flushto 1 1:200:1" ⟹ codes "1 flushed 1:400:0"
        ∷ []) }
    ensures a_flush_up_to_no_record { IsDialogue worked (opening
        ++ codes "1 append 1 aa 0:0:0 0:0:0 seal" ⟹ codes "1 lsn 1:0:0"
        ∷ codes "1 flushto 1 1:0:7" ⟹ codes "1 flushed 1:200:0"
        ∷ []) }
{}

/// A day's use: two clients append twenty records each in turn, every fifth one flushed.
pub fn days_use()
    ensures two_clients_of_four_containers { IsDialogue (log_of 8 1024 4 4) (
        codes "1 open a" ⟹ codes "1 stream 1"
        ∷ codes "2 open b" ⟹ codes "2 stream 2"
        ∷ codes "1 area 1 1000 4" ⟹ codes "1 area 1"
        ∷ codes "2 area 2 1000 4" ⟹ codes "2 area 1"
        ∷ line_of_append (codes "1") 100 (codes "0:0:0 0:0:0") [] ⟹ codes "1 lsn 1:0:0"
        ∷ line_of_append (codes "2") 100 (codes "0:0:0 0:0:0") [] ⟹ codes "2 lsn 1:0:1"
        ∷ line_of_append (codes "1") 100 (codes "1:0:0 1:0:0") [] ⟹ codes "1 lsn 1:0:2"
        ∷ line_of_append (codes "2") 100 (codes "1:0:1 1:0:1") [] ⟹ codes "2 lsn 1:0:3"
        ∷ line_of_append (codes "1") 100 (codes "1:0:2 1:0:2") [] ⟹ codes "1 lsn 1:0:4"
        ∷ line_of_append (codes "2") 100 (codes "1:0:3 1:0:3") [] ⟹ codes "2 lsn 1:0:5"
        ∷ line_of_append (codes "1") 100 (codes "1:0:4 1:0:4") [] ⟹ codes "1 lsn 1:0:6"
        ∷ line_of_append (codes "2") 100 (codes "1:0:5 1:0:5") [] ⟹ codes "2 lsn 1:0:7"
        ∷ line_of_append (codes "1") 100 (codes "1:0:6 1:0:6") (codes " flush") ⟹ codes "1 lsn 1:0:8"
        ∷ line_of_append (codes "2") 100 (codes "1:0:7 1:0:7") (codes " flush") ⟹ codes "2 lsn 1:600:0"
        ∷ line_of_append (codes "1") 100 (codes "1:0:8 1:0:8") [] ⟹ codes "1 lsn 1:800:0"
        ∷ line_of_append (codes "2") 100 (codes "1:600:0 1:600:0") [] ⟹ codes "2 lsn 1:800:1"
        ∷ line_of_append (codes "1") 100 (codes "1:800:0 1:800:0") [] ⟹ codes "1 lsn 1:800:2"
        ∷ line_of_append (codes "2") 100 (codes "1:800:1 1:800:1") [] ⟹ codes "2 lsn 1:800:3"
        ∷ line_of_append (codes "1") 100 (codes "1:800:2 1:800:2") [] ⟹ codes "1 lsn 1:800:4"
        ∷ line_of_append (codes "2") 100 (codes "1:800:3 1:800:3") [] ⟹ codes "2 lsn 1:800:5"
        ∷ line_of_append (codes "1") 100 (codes "1:800:4 1:800:4") [] ⟹ codes "1 lsn 1:800:6"
        ∷ line_of_append (codes "2") 100 (codes "1:800:5 1:800:5") [] ⟹ codes "2 lsn 1:800:7"
        ∷ line_of_append (codes "1") 100 (codes "1:800:6 1:800:6") (codes " flush") ⟹ codes "1 lsn 1:800:8"
        ∷ line_of_append (codes "2") 100 (codes "1:800:7 1:800:7") (codes " flush") ⟹ codes "2 lsn 1:e00:0"
        ∷ line_of_append (codes "1") 100 (codes "1:800:8 1:800:8") [] ⟹ codes "1 lsn 1:1000:0"
        ∷ line_of_append (codes "2") 100 (codes "1:e00:0 1:e00:0") [] ⟹ codes "2 lsn 1:1000:1"
        ∷ line_of_append (codes "1") 100 (codes "1:1000:0 1:1000:0") [] ⟹ codes "1 lsn 1:1000:2"
        ∷ line_of_append (codes "2") 100 (codes "1:1000:1 1:1000:1") [] ⟹ codes "2 lsn 1:1000:3"
        ∷ line_of_append (codes "1") 100 (codes "1:1000:2 1:1000:2") [] ⟹ codes "1 lsn 1:1000:4"
        ∷ line_of_append (codes "2") 100 (codes "1:1000:3 1:1000:3") [] ⟹ codes "2 lsn 1:1000:5"
        ∷ line_of_append (codes "1") 100 (codes "1:1000:4 1:1000:4") [] ⟹ codes "1 lsn 1:1000:6"
        ∷ line_of_append (codes "2") 100 (codes "1:1000:5 1:1000:5") [] ⟹ codes "2 lsn 1:1000:7"
        ∷ line_of_append (codes "1") 100 (codes "1:1000:6 1:1000:6") (codes " flush") ⟹ codes "1 lsn 1:1000:8"
        ∷ line_of_append (codes "2") 100 (codes "1:1000:7 1:1000:7") (codes " flush") ⟹ codes "2 lsn 1:1600:0"
        ∷ line_of_append (codes "1") 100 (codes "1:1000:8 1:1000:8") [] ⟹ codes "1 lsn 1:1800:0"
        ∷ line_of_append (codes "2") 100 (codes "1:1600:0 1:1600:0") [] ⟹ codes "2 lsn 1:1800:1"
        ∷ line_of_append (codes "1") 100 (codes "1:1800:0 1:1800:0") [] ⟹ codes "1 lsn 1:1800:2"
        ∷ line_of_append (codes "2") 100 (codes "1:1800:1 1:1800:1") [] ⟹ codes "2 lsn 1:1800:3"
        ∷ line_of_append (codes "1") 100 (codes "1:1800:2 1:1800:2") [] ⟹ codes "1 lsn 1:1800:4"
        ∷ line_of_append (codes "2") 100 (codes "1:1800:3 1:1800:3") [] ⟹ codes "2 lsn 1:1800:5"
        ∷ line_of_append (codes "1") 100 (codes "1:1800:4 1:1800:4") [] ⟹ codes "1 lsn 1:1800:6"
        ∷ line_of_append (codes "2") 100 (codes "1:1800:5 1:1800:5") [] ⟹ codes "2 lsn 1:1800:7"
        ∷ line_of_append (codes "1") 100 (codes "1:1800:6 1:1800:6") (codes " flush") ⟹ codes "1 lsn 1:1800:8"
        ∷ line_of_append (codes "2") 100 (codes "1:1800:7 1:1800:7") (codes " flush") ⟹ codes "2 lsn 1:1e00:0"
        ∷ codes "2 read 1 1:1e00:0 undo" ⟹ (codes "2 cursor 1 record 1:1e00:0 data 1:1800:7 1:1800:7 0:0:0 " ++ zeros 100)
        ∷ codes "2 next 1 1" ⟹ (codes "2 record 1:1800:7 data 1:1800:5 1:1800:5 0:0:0 " ++ zeros 100)
        ∷ codes "2 next 1 1" ⟹ (codes "2 record 1:1800:5 data 1:1800:3 1:1800:3 0:0:0 " ++ zeros 100)
        ∷ codes "2 next 1 1" ⟹ (codes "2 record 1:1800:3 data 1:1800:1 1:1800:1 0:0:0 " ++ zeros 100)
        ∷ codes "1 restart 1 aa 1:1800:8" ⟹ codes "1 lsn 1:2000:0"
        ∷ codes "2 advance 1 1:1e00:0" ⟹ codes "2 base 1:1e00:0"
        ∷ codes "1 info 1" ⟹ codes "1 info containers 4 free 3 size 1024 sectors 4051 reserved 0 base 1:1800:8 last 1:2000:0 flushed 1:2200:0 restart 1:2000:0 archive off"
        ∷ []) }
{}

/// The free sectors of some places, and how many containers give more.
pub fn room_of_places()
    ensures fresh { free_sectors worked.shape worked.place (lsn_number 1 0 0) 2 ≡ 14 }
    ensures nearly_full { free_sectors worked.shape nearly_full (lsn_number 1 0 0) 2 ≡ 1 }
    ensures last_container_of_all { free_sectors worked.shape last_of_all (lsn_number 4294967295 0 0) 256 ≡ 7 }
    ensures grows_by_the_rate { growth worked.shape nearly_full (lsn_number 1 0 0) 2 2 6 2 ≡ Some 4 }
    ensures grows_up_to_the_maximum { growth worked.shape nearly_full (lsn_number 1 0 0) 2 2 3 2 ≡ None }
    ensures three_containers_for_eight_sectors { least_containers worked.shape nearly_full (lsn_number 1 0 0) 4 8 ≡ 3 }
    ensures four_containers_for_nine_sectors { least_containers worked.shape nearly_full (lsn_number 1 0 0) 4 9 ≡ 4 }
{}
