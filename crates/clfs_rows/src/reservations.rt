// Sectors that areas hold for records to come.
ghost use Rattle.std.specs.Prelude.{[], ◌∷◌, ◌++◌, codes};
ghost use Rattle.clfs_rows.specs.Worked.{worked, ◌⟹◌, IsDialogue, opening, append_of_zeros};

/// The sectors of records, each in a block of its own.
pub fn sectors_of_records()
    ensures whole_sectors { IsDialogue worked (opening
        ++ codes "1 align 1 456" ⟹ codes "1 sectors 1"
        ∷ codes "1 align 1 457" ⟹ codes "1 sectors 2"
        ∷ codes "1 align 1 456 457" ⟹ codes "1 sectors 3"
        ∷ codes "1 align 1 0" ⟹ codes "1 sectors 1"
        ∷ codes "1 align 1 8 8 8 8 8 8 8 8 8 8 8 8 8 8 8 8" ⟹ codes "1 sectors 16"
        ∷ []) }
{}

/// A log of which all is reserved takes the reserved records, and no other.
pub fn reserved_records()
    ensures all_is_reserved { IsDialogue worked (opening
        ++ codes "1 reserve 1 960" ⟹ codes "1 held 2"
        ∷ codes "1 reserve 1 960" ⟹ codes "1 held 4"
        ∷ codes "1 reserve 1 960" ⟹ codes "1 held 6"
        ∷ codes "1 reserve 1 960" ⟹ codes "1 held 8"
        ∷ codes "1 reserve 1 960" ⟹ codes "1 held 10"
        ∷ codes "1 reserve 1 960" ⟹ codes "1 held 12"
        ∷ codes "1 reserve 1 960" ⟹ codes "1 held 14"
        ∷ codes "1 append 1 aa 0:0:0 0:0:0" ⟹ codes "1 refused 5 Full 14 14 1"
        ∷ append_of_zeros 960 (codes " reserved") ⟹ codes "1 lsn 1:0:0"
        ∷ append_of_zeros 960 (codes " reserved") ⟹ codes "1 lsn 1:400:0"
        ∷ append_of_zeros 960 (codes " reserved") ⟹ codes "1 lsn 1:800:0"
        ∷ append_of_zeros 960 (codes " reserved") ⟹ codes "1 lsn 1:c00:0"
        ∷ append_of_zeros 960 (codes " reserved") ⟹ codes "1 lsn 2:0:0"
        ∷ append_of_zeros 960 (codes " reserved") ⟹ codes "1 lsn 2:400:0"
        ∷ append_of_zeros 960 (codes " reserved") ⟹ codes "1 lsn 2:800:0"
        ∷ codes "1 info 1" ⟹ codes "1 info containers 2 free 0 size 8 sectors 1 reserved 0 base 0:0:0 last 2:800:0 flushed 2:0:0 restart 0:0:0 archive off"
        ∷ []) }
    ensures nothing_is_held { IsDialogue worked (opening
        ++ codes "1 append 1 aa 0:0:0 0:0:0 reserved" ⟹ codes "1 refused 6 ReservationShort 0 1"
        ∷ codes "1 release 1 1" ⟹ codes "1 refused 6 ReservationShort 0 1"
        ∷ codes "1 restart 1 aa - reserved" ⟹ codes "1 refused 6 ReservationShort 0 1"
        ∷ codes "1 release 1 0" ⟹ codes "1 held 0"
        ∷ []) }
    ensures a_record_spends_its_own_sectors { IsDialogue worked (opening
        ++ codes "1 reserve 1 960 960" ⟹ codes "1 held 4"
        ∷ codes "1 append 1 aa 0:0:0 0:0:0 reserved" ⟹ codes "1 lsn 1:0:0"
        ∷ codes "1 release 1 4" ⟹ codes "1 refused 6 ReservationShort 3 4"
        ∷ codes "1 append 1 bb 0:0:0 0:0:0 reserved" ⟹ codes "1 lsn 1:0:1"
        ∷ codes "1 restart 1 cc - reserved" ⟹ codes "1 lsn 1:0:2"
        ∷ codes "1 release 1 1" ⟹ codes "1 held 0"
        ∷ []) }
    ensures sizes_held_by_an_append { IsDialogue worked (opening
        ++ codes "1 append 1 aa 0:0:0 0:0:0 hold 960 8" ⟹ codes "1 lsn 1:0:0"
        ∷ codes "1 release 1 4" ⟹ codes "1 refused 6 ReservationShort 3 4"
        ∷ codes "1 append 1 bb 0:0:0 0:0:0 reserved hold 960" ⟹ codes "1 lsn 1:0:1"
        ∷ codes "1 release 1 4" ⟹ codes "1 held 0"
        ∷ []) }
{}

/// What a call needs beside what is reserved. The numbers of a refusal are those of the log as it is.
pub fn room_that_is_wanted()
    ensures sizes_need_room_before_the_record_spends { IsDialogue worked (opening
        ++ codes "1 reserve 1 960 960 960 960 960 960 960" ⟹ codes "1 held 14"
        ∷ append_of_zeros 960 (codes " reserved hold 8") ⟹ codes "1 refused 5 Full 14 14 1"
        ∷ append_of_zeros 960 (codes " reserved") ⟹ codes "1 lsn 1:0:0"
        ∷ codes "1 release 1 1" ⟹ codes "1 held 11"
        ∷ codes "1 append 1 aa 0:0:0 0:0:0 reserved hold 8" ⟹ codes "1 lsn 1:400:0"
        ∷ []) }
    ensures a_record_that_would_join_needs_its_sectors { IsDialogue worked (opening
        ++ append_of_zeros 960 [] ⟹ codes "1 lsn 1:0:0"
        ∷ append_of_zeros 960 [] ⟹ codes "1 lsn 1:400:0"
        ∷ append_of_zeros 960 [] ⟹ codes "1 lsn 1:800:0"
        ∷ append_of_zeros 960 [] ⟹ codes "1 lsn 1:c00:0"
        ∷ append_of_zeros 960 [] ⟹ codes "1 lsn 2:0:0"
        ∷ append_of_zeros 960 [] ⟹ codes "1 lsn 2:400:0"
        ∷ append_of_zeros 960 [] ⟹ codes "1 lsn 2:800:0"
        ∷ codes "1 append 1 aa 0:0:0 0:0:0" ⟹ codes "1 lsn 2:c00:0"
        ∷ codes "1 append 1 bb 0:0:0 0:0:0" ⟹ codes "1 refused 5 Full 0 0 1"
        ∷ codes "1 restart 1 bb -" ⟹ codes "1 refused 5 Full 0 0 1"
        ∷ codes "1 policy auto" ⟹ codes "1 ok"
        ∷ codes "1 append 1 bb 0:0:0 0:0:0" ⟹ codes "1 lsn 2:c00:1"
        ∷ codes "1 info 1" ⟹ codes "1 info containers 3 free 1 size 8 sectors 7 reserved 0 base 0:0:0 last 2:c00:1 flushed 2:0:0 restart 0:0:0 archive off"
        ∷ []) }
    ensures a_record_and_its_sizes { IsDialogue worked (opening
        ++ codes "1 append 1 aa 0:0:0 0:0:0 hold 960 960 960 960 960 960 960" ⟹ codes "1 refused 5 Full 14 0 15"
        ∷ codes "1 append 1 aa 0:0:0 0:0:0 hold 960 960 960 960 960 960" ⟹ codes "1 lsn 1:0:0"
        ∷ codes "1 info 1" ⟹ codes "1 info containers 2 free 1 size 8 sectors 13 reserved 12 base 0:0:0 last 1:0:0 flushed 1:0:0 restart 0:0:0 archive off"
        ∷ []) }
    ensures up_to_the_last_free_sector { IsDialogue worked (opening
        ++ codes "1 reserve 1 960 960 960 960 960 960 960 8" ⟹ codes "1 refused 5 Full 14 0 15"
        ∷ codes "1 reserve 1 960 960 960 960 960 960 960" ⟹ codes "1 held 14"
        ∷ codes "1 reserve 1 0" ⟹ codes "1 refused 5 Full 14 14 1"
        ∷ []) }
    ensures a_dropped_area_frees_its_sectors { IsDialogue worked (opening
        ++ codes "1 reserve 1 960 960 960 960 960 960 960" ⟹ codes "1 held 14"
        ∷ codes "2 area 1 960 4" ⟹ codes "2 area 1"
        ∷ codes "2 append 1 aa 0:0:0 0:0:0" ⟹ codes "2 refused 5 Full 14 14 1"
        ∷ codes "2 reserve 1 8" ⟹ codes "2 refused 5 Full 14 14 1"
        ∷ codes "1 drop 1" ⟹ codes "1 ok"
        ∷ codes "1 release 1 1" ⟹ codes "1 refused 10 NoSuchArea"
        ∷ codes "2 append 1 aa 0:0:0 0:0:0" ⟹ codes "2 lsn 1:0:0"
        ∷ codes "2 info 1" ⟹ codes "2 info containers 2 free 1 size 8 sectors 13 reserved 0 base 0:0:0 last 1:0:0 flushed 1:0:0 restart 0:0:0 archive off"
        ∷ []) }
    ensures reserved_by_all_areas { IsDialogue worked (opening
        ++ codes "2 open b" ⟹ codes "2 stream 2"
        ∷ codes "2 area 2 960 4" ⟹ codes "2 area 1"
        ∷ codes "1 area 2 960 4" ⟹ codes "1 area 2"
        ∷ codes "1 reserve 1 960" ⟹ codes "1 held 2"
        ∷ codes "2 reserve 1 960 8" ⟹ codes "2 held 3"
        ∷ codes "1 reserve 2 8" ⟹ codes "1 held 1"
        ∷ codes "1 info 1" ⟹ codes "1 info containers 2 free 1 size 8 sectors 14 reserved 6 base 0:0:0 last 0:0:0 flushed 1:0:0 restart 0:0:0 archive off"
        ∷ codes "1 release 2 1" ⟹ codes "1 held 0"
        ∷ codes "2 release 1 3" ⟹ codes "2 held 0"
        ∷ codes "2 info 2" ⟹ codes "2 info containers 2 free 1 size 8 sectors 14 reserved 2 base 0:0:0 last 0:0:0 flushed 1:0:0 restart 0:0:0 archive off"
        ∷ []) }
{}
