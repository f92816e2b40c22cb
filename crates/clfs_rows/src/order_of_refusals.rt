// Which refusal comes first where a call meets several.
ghost use Rattle.std.specs.Prelude.{[], ◌∷◌, ◌++◌, codes};
ghost use Rattle.clfs_model.specs.State.{log_of};
ghost use Rattle.clfs_rows.specs.Worked.{worked, ◌⟹◌, IsDialogue, opening, zeros, line_of_append};

/// A log of one container takes no record and no reservation, whatever its policies; nothing else is refused for that.
pub fn one_container()
    ensures until_it_has_two { IsDialogue (log_of 2 8 1 4) (opening
        ++ codes "1 append 1 aa 0:0:0 0:0:0" ⟹ codes "1 refused 4 NotEnoughContainers 1"
        ∷ codes "1 reserve 1 8" ⟹ codes "1 refused 4 NotEnoughContainers 1"
        ∷ codes "1 restart 1 aa -" ⟹ codes "1 refused 4 NotEnoughContainers 1"
        ∷ codes "1 size 2" ⟹ codes "1 containers 2"
        ∷ codes "1 append 1 aa 0:0:0 0:0:0" ⟹ codes "1 lsn 1:0:0"
        ∷ []) }
    ensures told_before_the_area { IsDialogue (log_of 2 8 1 4) (opening
        ++ (codes "1 append 5 " ++ (zeros 961 ++ codes " 1:0:0 1:0:0")) ⟹ codes "1 refused 4 NotEnoughContainers 1"
        ∷ codes "1 reserve 5 961" ⟹ codes "1 refused 4 NotEnoughContainers 1"
        ∷ (codes "1 restart 5 " ++ (zeros 961 ++ codes " 1:0:0")) ⟹ codes "1 refused 4 NotEnoughContainers 1"
        ∷ codes "1 align 5 8" ⟹ codes "1 refused 10 NoSuchArea"
        ∷ codes "1 release 5 1" ⟹ codes "1 refused 10 NoSuchArea"
        ∷ codes "1 flush 5" ⟹ codes "1 refused 10 NoSuchArea"
        ∷ codes "1 read 5 1:0:0 forward" ⟹ codes "1 refused 10 NoSuchArea"
        ∷ codes "1 align 1 8" ⟹ codes "1 sectors 1"
        ∷ []) }
    ensures growth_does_not_help { IsDialogue (log_of 2 8 1 4) (opening
        ++ codes "1 policy auto" ⟹ codes "1 ok"
        ∷ codes "1 append 1 aa 0:0:0 0:0:0" ⟹ codes "1 refused 4 NotEnoughContainers 1"
        ∷ codes "1 reserve 1 8" ⟹ codes "1 refused 4 NotEnoughContainers 1"
        ∷ codes "1 info 1" ⟹ codes "1 info containers 1 free 0 size 8 sectors 7 reserved 0 base 0:0:0 last 0:0:0 flushed 1:0:0 restart 0:0:0 archive off"
        ∷ []) }
{}

/// The area, the data, the sizes, the previous link, the undo-next link, what the area holds, and the room.
pub fn refusals_of_appends()
    ensures area_before_data { IsDialogue worked (opening
        ++ (codes "1 append 5 " ++ (zeros 961 ++ codes " 1:0:0 1:0:1 reserved hold 961")) ⟹ codes "1 refused 10 NoSuchArea"
        ∷ []) }
    ensures data_before_sizes { IsDialogue worked (opening
        ++ line_of_append (codes "1") 961 (codes "1:0:0 1:0:1") (codes " reserved hold 962") ⟹ codes "1 refused 7 RecordTooLong 961 960"
        ∷ []) }
    ensures first_size_that_is_too_long { IsDialogue worked (opening
        ++ codes "1 append 1 aa 1:0:0 1:0:1 reserved hold 8 962 963" ⟹ codes "1 refused 7 RecordTooLong 962 960"
        ∷ codes "1 reserve 1 8 962 963" ⟹ codes "1 refused 7 RecordTooLong 962 960"
        ∷ codes "1 align 1 8 962 963" ⟹ codes "1 refused 7 RecordTooLong 962 960"
        ∷ []) }
    ensures sizes_before_links { IsDialogue worked (opening
        ++ codes "1 append 1 aa 1:0:0 0:0:0 hold 961" ⟹ codes "1 refused 7 RecordTooLong 961 960"
        ∷ []) }
    ensures previous_before_undo_next { IsDialogue worked (opening
        ++ codes "1 append 1 aa 1:0:0 1:0:1 reserved" ⟹ codes "1 refused 8 LinkInvalid 1:0:0"
        ∷ codes "1 append 1 aa 0:0:0 1:0:1" ⟹ codes "1 refused 8 LinkInvalid 1:0:1"
        ∷ []) }
    ensures links_before_what_is_held { IsDialogue worked (opening
        ++ codes "1 append 1 aa 0:0:0 1:0:1 reserved" ⟹ codes "1 refused 8 LinkInvalid 1:0:1"
        ∷ []) }
    ensures what_is_held_before_room { IsDialogue worked (opening
        ++ codes "1 append 1 aa 0:0:0 0:0:0 reserved hold 960 960 960 960 960 960 960 960" ⟹ codes "1 refused 6 ReservationShort 0 1"
        ∷ codes "1 append 1 aa 0:0:0 0:0:0 hold 960 960 960 960 960 960 960 960" ⟹ codes "1 refused 5 Full 14 0 17"
        ∷ []) }
    ensures length_before_room { IsDialogue worked (opening
        ++ codes "1 reserve 1 961 960 960 960 960 960 960 960 960" ⟹ codes "1 refused 7 RecordTooLong 961 960"
        ∷ codes "1 reserve 1 960 960 960 960 960 960 960 960" ⟹ codes "1 refused 5 Full 14 0 16"
        ∷ []) }
{}

/// The area, the data, the new base, what the area holds, and the room.
pub fn refusals_of_restart_areas()
    ensures area_before_data { IsDialogue worked (opening
        ++ (codes "1 restart 5 " ++ (zeros 961 ++ codes " 1:0:0 reserved")) ⟹ codes "1 refused 10 NoSuchArea"
        ∷ []) }
    ensures data_before_base { IsDialogue worked (opening
        ++ (codes "1 restart 1 " ++ (zeros 961 ++ codes " 1:0:0 reserved")) ⟹ codes "1 refused 7 RecordTooLong 961 960"
        ∷ []) }
    ensures base_before_what_is_held { IsDialogue worked (opening
        ++ codes "1 restart 1 aa 1:0:0 reserved" ⟹ codes "1 refused 21 TailInvalid 1:0:0 0:0:0 0:0:0"
        ∷ []) }
    ensures what_is_held { IsDialogue worked (opening
        ++ codes "1 restart 1 aa - reserved" ⟹ codes "1 refused 6 ReservationShort 0 1"
        ∷ []) }
    ensures base_before_room { IsDialogue worked (opening
        ++ codes "1 reserve 1 960 960 960 960 960 960 960" ⟹ codes "1 held 14"
        ∷ codes "1 restart 1 aa 1:0:0" ⟹ codes "1 refused 21 TailInvalid 1:0:0 0:0:0 0:0:0"
        ∷ codes "1 restart 1 aa -" ⟹ codes "1 refused 5 Full 14 14 1"
        ∷ codes "1 restart 1 aa - reserved" ⟹ codes "1 lsn 1:0:0"
        ∷ []) }
{}

/// The area, the record, the number of cursors; then the area, the cursor, the record.
pub fn refusals_of_reads()
    ensures record_before_cursors { IsDialogue worked (opening
        ++ codes "1 area 1 960 1" ⟹ codes "1 area 2"
        ∷ codes "1 append 2 aa 0:0:0 0:0:0" ⟹ codes "1 lsn 1:0:0"
        ∷ codes "1 read 2 1:0:0 forward" ⟹ codes "1 cursor 1 record 1:0:0 data 0:0:0 0:0:0 0:0:0 aa"
        ∷ codes "1 read 2 1:0:1 forward" ⟹ codes "1 refused 17 RecordNonexistent 1:0:1"
        ∷ codes "1 read 2 1:0:0 forward" ⟹ codes "1 refused 15 CursorLimit 1"
        ∷ codes "1 readrestart 2" ⟹ codes "1 refused 20 NoRestart"
        ∷ codes "1 restart 2 bb -" ⟹ codes "1 lsn 1:0:1"
        ∷ codes "1 readrestart 2" ⟹ codes "1 refused 15 CursorLimit 1"
        ∷ []) }
    ensures area_before_cursor { IsDialogue worked (opening
        ++ codes "1 next 5 1" ⟹ codes "1 refused 10 NoSuchArea"
        ∷ codes "1 prevrestart 5 1" ⟹ codes "1 refused 10 NoSuchArea"
        ∷ codes "1 end 5 1" ⟹ codes "1 refused 10 NoSuchArea"
        ∷ codes "1 readrestart 5" ⟹ codes "1 refused 10 NoSuchArea"
        ∷ codes "1 drop 5" ⟹ codes "1 refused 10 NoSuchArea"
        ∷ codes "1 flushto 5 1:0:0" ⟹ codes "1 refused 10 NoSuchArea"
        ∷ codes "1 advance 5 1:0:0" ⟹ codes "1 refused 10 NoSuchArea"
        ∷ codes "1 next 1 1" ⟹ codes "1 refused 12 NoSuchCursor"
        ∷ codes "1 prevrestart 1 1" ⟹ codes "1 refused 12 NoSuchCursor"
        ∷ codes "1 end 1 1" ⟹ codes "1 refused 12 NoSuchCursor"
        ∷ codes "1 flushto 1 1:0:0" ⟹ codes "1 refused 17 RecordNonexistent 1:0:0"
        ∷ []) }
{}
