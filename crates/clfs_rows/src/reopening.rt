// Opening the log again: what isn't on the disk is lost.
ghost use Rattle.std.specs.Prelude.{[], ◌∷◌, ◌++◌, codes};
ghost use Rattle.clfs_rows.specs.Worked.{worked, ◌⟹◌, IsDialogue, opening, zeros, append_of_zeros};

/// What isn't flushed is lost, and all areas with what they hold and with their cursors. The LSNs of lost records are given again.
pub fn what_is_lost()
    ensures records_areas_and_reservations { IsDialogue worked (opening
        ++ codes "1 append 1 aa 0:0:0 0:0:0" ⟹ codes "1 lsn 1:0:0"
        ∷ codes "1 reserve 1 960" ⟹ codes "1 held 2"
        ∷ codes "1 reopen" ⟹ codes "1 flushed 1:0:0"
        ∷ codes "1 area 1 960 4" ⟹ codes "1 area 1"
        ∷ codes "1 read 1 1:0:0 forward" ⟹ codes "1 refused 17 RecordNonexistent 1:0:0"
        ∷ codes "1 append 1 bb 0:0:0 0:0:0 flush" ⟹ codes "1 lsn 1:0:0"
        ∷ codes "1 flushto 1 1:0:0" ⟹ codes "1 flushed 1:200:0"
        ∷ codes "1 reopen" ⟹ codes "1 flushed 1:200:0"
        ∷ codes "1 area 1 960 4" ⟹ codes "1 area 1"
        ∷ codes "1 read 1 1:0:0 forward" ⟹ codes "1 cursor 1 record 1:0:0 data 0:0:0 0:0:0 0:0:0 bb"
        ∷ codes "1 info 1" ⟹ codes "1 info containers 2 free 1 size 8 sectors 13 reserved 0 base 0:0:0 last 1:0:0 flushed 1:200:0 restart 0:0:0 archive off"
        ∷ []) }
    ensures blocks_that_wait { IsDialogue worked (opening
        ++ codes "1 append 1 a0 0:0:0 0:0:0 flush" ⟹ codes "1 lsn 1:0:0"
        ∷ codes "1 append 1 a1 0:0:0 0:0:0 seal" ⟹ codes "1 lsn 1:200:0"
        ∷ codes "1 append 1 a2 0:0:0 0:0:0" ⟹ codes "1 lsn 1:400:0"
        ∷ codes "1 reopen" ⟹ codes "1 flushed 1:200:0"
        ∷ codes "1 area 1 960 4" ⟹ codes "1 area 1"
        ∷ codes "1 read 1 1:0:0 forward" ⟹ codes "1 cursor 1 record 1:0:0 data 0:0:0 0:0:0 0:0:0 a0"
        ∷ codes "1 next 1 1" ⟹ codes "1 refused 18 EndOfLog"
        ∷ codes "1 append 1 a3 0:0:0 0:0:0" ⟹ codes "1 lsn 1:200:0"
        ∷ codes "1 info 1" ⟹ codes "1 info containers 2 free 1 size 8 sectors 12 reserved 0 base 0:0:0 last 1:200:0 flushed 1:200:0 restart 0:0:0 archive off"
        ∷ []) }
    ensures blocks_that_waited_count_no_more { IsDialogue worked (opening
        ++ codes "1 append 1 a0 0:0:0 0:0:0 seal" ⟹ codes "1 lsn 1:0:0"
        ∷ codes "1 reopen" ⟹ codes "1 flushed 1:0:0"
        ∷ codes "1 area 1 960 4" ⟹ codes "1 area 1"
        ∷ codes "1 append 1 a1 0:0:0 0:0:0 seal" ⟹ codes "1 lsn 1:0:0"
        ∷ codes "1 append 1 a2 0:0:0 0:0:0 seal" ⟹ codes "1 lsn 1:200:0"
        ∷ codes "1 append 1 a3 0:0:0 0:0:0 seal" ⟹ codes "1 lsn 1:400:0"
        ∷ codes "1 info 1" ⟹ codes "1 info containers 2 free 1 size 8 sectors 11 reserved 0 base 0:0:0 last 1:400:0 flushed 1:0:0 restart 0:0:0 archive off"
        ∷ []) }
    ensures of_all_clients { IsDialogue worked (opening
        ++ codes "2 area 1 960 4" ⟹ codes "2 area 1"
        ∷ codes "2 reserve 1 960" ⟹ codes "2 held 2"
        ∷ codes "1 append 1 aa 0:0:0 0:0:0 flush" ⟹ codes "1 lsn 1:0:0"
        ∷ codes "1 read 1 1:0:0 forward" ⟹ codes "1 cursor 1 record 1:0:0 data 0:0:0 0:0:0 0:0:0 aa"
        ∷ codes "1 reopen" ⟹ codes "1 flushed 1:200:0"
        ∷ codes "2 flush 1" ⟹ codes "2 refused 10 NoSuchArea"
        ∷ codes "1 next 1 1" ⟹ codes "1 refused 10 NoSuchArea"
        ∷ codes "1 info 1" ⟹ codes "1 info containers 2 free 1 size 8 sectors 13 reserved 0 base 0:0:0 last 1:0:0 flushed 1:200:0 restart 0:0:0 archive off"
        ∷ []) }
    ensures in_the_second_container { IsDialogue worked (opening
        ++ append_of_zeros 960 [] ⟹ codes "1 lsn 1:0:0"
        ∷ append_of_zeros 960 [] ⟹ codes "1 lsn 1:400:0"
        ∷ append_of_zeros 960 [] ⟹ codes "1 lsn 1:800:0"
        ∷ append_of_zeros 960 [] ⟹ codes "1 lsn 1:c00:0"
        ∷ append_of_zeros 960 (codes " flush") ⟹ codes "1 lsn 2:0:0"
        ∷ append_of_zeros 960 [] ⟹ codes "1 lsn 2:400:0"
        ∷ codes "2 reopen" ⟹ codes "2 flushed 2:400:0"
        ∷ codes "1 area 1 960 4" ⟹ codes "1 area 1"
        ∷ codes "1 read 1 2:0:0 forward" ⟹ (codes "1 cursor 1 record 2:0:0 data 0:0:0 0:0:0 0:0:0 " ++ zeros 960)
        ∷ codes "1 next 1 1" ⟹ codes "1 refused 18 EndOfLog"
        ∷ codes "1 append 1 aa 0:0:0 0:0:0" ⟹ codes "1 lsn 2:400:0"
        ∷ []) }
{}

/// The streams with their bases, the number of containers, archiving and the policies stay.
pub fn what_stays()
    ensures streams_sizes_archive_and_policies { IsDialogue worked (opening
        ++ codes "2 open b" ⟹ codes "2 stream 2"
        ∷ codes "1 append 1 a0 0:0:0 0:0:0" ⟹ codes "1 lsn 1:0:0"
        ∷ codes "1 append 1 a1 0:0:0 0:0:0" ⟹ codes "1 lsn 1:0:1"
        ∷ codes "1 advance 1 1:0:1" ⟹ codes "1 base 1:0:1"
        ∷ codes "1 size 3" ⟹ codes "1 containers 3"
        ∷ codes "1 archive on" ⟹ codes "1 ok"
        ∷ codes "1 policy max 6" ⟹ codes "1 ok"
        ∷ codes "1 policy min 3" ⟹ codes "1 ok"
        ∷ codes "1 policy growth 2" ⟹ codes "1 ok"
        ∷ codes "1 policy auto" ⟹ codes "1 ok"
        ∷ codes "1 reopen" ⟹ codes "1 flushed 1:200:0"
        ∷ codes "1 open b" ⟹ codes "1 stream 2"
        ∷ codes "1 open c" ⟹ codes "1 stream 3"
        ∷ codes "1 info 1" ⟹ codes "1 info containers 3 free 2 size 8 sectors 20 reserved 0 base 1:0:1 last 1:0:1 flushed 1:200:0 restart 0:0:0 archive 1:0:1"
        ∷ codes "1 size 2" ⟹ codes "1 refused 24 CantShrink 1 3"
        ∷ codes "1 size 7" ⟹ codes "1 refused 25 ContainerLimit 6"
        ∷ codes "1 unpolicy growth" ⟹ codes "1 ok"
        ∷ codes "1 unpolicy auto" ⟹ codes "1 ok"
        ∷ []) }
{}
