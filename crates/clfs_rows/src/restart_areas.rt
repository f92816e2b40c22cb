// Restart areas: records of their own kind, which are flushed and may move the base.
ghost use Rattle.std.specs.Prelude.{[], ◌∷◌, ◌++◌, codes};
ghost use Rattle.clfs_rows.specs.Worked.{worked, ◌⟹◌, IsDialogue, opening};

/// The restart areas of a stream are read from the newest to older ones. They are still there after opening the log again.
pub fn newest_first()
    ensures before_and_after_opening_anew { IsDialogue worked (opening
        ++ codes "1 readrestart 1" ⟹ codes "1 refused 20 NoRestart"
        ∷ codes "1 append 1 aa 0:0:0 0:0:0" ⟹ codes "1 lsn 1:0:0"
        ∷ codes "1 restart 1 01 -" ⟹ codes "1 lsn 1:0:1"
        ∷ codes "1 append 1 bb 1:0:0 1:0:0" ⟹ codes "1 lsn 1:200:0"
        ∷ codes "1 restart 1 02 -" ⟹ codes "1 lsn 1:200:1"
        ∷ codes "1 reopen" ⟹ codes "1 flushed 1:400:0"
        ∷ codes "1 area 1 960 4" ⟹ codes "1 area 1"
        ∷ codes "1 readrestart 1" ⟹ codes "1 cursor 1 record 1:200:1 restart 1:0:1 0:0:0 0:0:0 02"
        ∷ codes "1 prevrestart 1 1" ⟹ codes "1 record 1:0:1 restart 0:0:0 0:0:0 0:0:0 01"
        ∷ codes "1 prevrestart 1 1" ⟹ codes "1 refused 20 NoRestart"
        ∷ codes "1 restart 1 03 1:200:0" ⟹ codes "1 lsn 1:400:0"
        ∷ codes "1 reopen" ⟹ codes "1 flushed 1:600:0"
        ∷ codes "1 info 1" ⟹ codes "1 info containers 2 free 1 size 8 sectors 11 reserved 0 base 1:200:0 last 1:400:0 flushed 1:600:0 restart 1:400:0 archive off"
        ∷ []) }
    ensures older_than_the_one_given_last { IsDialogue worked (opening
        ++ codes "1 restart 1 01 -" ⟹ codes "1 lsn 1:0:0"
        ∷ codes "1 readrestart 1" ⟹ codes "1 cursor 1 record 1:0:0 restart 0:0:0 0:0:0 0:0:0 01"
        ∷ codes "1 restart 1 02 -" ⟹ codes "1 lsn 1:200:0"
        ∷ codes "1 prevrestart 1 1" ⟹ codes "1 refused 20 NoRestart"
        ∷ codes "1 readrestart 1" ⟹ codes "1 cursor 2 record 1:200:0 restart 1:0:0 0:0:0 0:0:0 02"
        ∷ codes "1 prevrestart 1 2" ⟹ codes "1 record 1:0:0 restart 0:0:0 0:0:0 0:0:0 01"
        ∷ []) }
    ensures of_its_own_stream { IsDialogue worked (opening
        ++ codes "2 open b" ⟹ codes "2 stream 2"
        ∷ codes "2 area 2 960 4" ⟹ codes "2 area 1"
        ∷ codes "1 restart 1 01 -" ⟹ codes "1 lsn 1:0:0"
        ∷ codes "2 readrestart 1" ⟹ codes "2 refused 20 NoRestart"
        ∷ codes "2 restart 1 02 -" ⟹ codes "2 lsn 1:200:0"
        ∷ codes "2 readrestart 1" ⟹ codes "2 cursor 1 record 1:200:0 restart 0:0:0 0:0:0 0:0:0 02"
        ∷ codes "2 prevrestart 1 1" ⟹ codes "2 refused 20 NoRestart"
        ∷ codes "1 readrestart 1" ⟹ codes "1 cursor 1 record 1:0:0 restart 0:0:0 0:0:0 0:0:0 01"
        ∷ []) }
{}

/// A restart area takes its link and judges its new base before it is appended; its base moves last, so that the area stays live.
pub fn with_a_new_base()
    ensures behind_the_last_live_record { IsDialogue worked (opening
        ++ codes "1 restart 1 01 -" ⟹ codes "1 lsn 1:0:0"
        ∷ codes "1 restart 1 02 1:0:1" ⟹ codes "1 lsn 1:200:0"
        ∷ codes "1 readrestart 1" ⟹ codes "1 cursor 1 record 1:200:0 restart 1:0:0 0:0:0 1:0:1 02"
        ∷ codes "1 prevrestart 1 1" ⟹ codes "1 refused 20 NoRestart"
        ∷ codes "1 read 1 1:0:0 forward" ⟹ codes "1 refused 17 RecordNonexistent 1:0:0"
        ∷ codes "1 info 1" ⟹ codes "1 info containers 2 free 1 size 8 sectors 12 reserved 0 base 1:0:1 last 1:200:0 flushed 1:400:0 restart 1:200:0 archive off"
        ∷ []) }
    ensures judged_before_it_is_appended { IsDialogue worked (opening
        ++ codes "1 append 1 aa 0:0:0 0:0:0" ⟹ codes "1 lsn 1:0:0"
        ∷ codes "1 restart 1 01 1:0:2" ⟹ codes "1 refused 21 TailInvalid 1:0:2 0:0:0 1:0:0"
        ∷ codes "1 restart 1 01 1:200:0" ⟹ codes "1 refused 21 TailInvalid 1:200:0 0:0:0 1:0:0"
        ∷ codes "1 restart 1 01 1:0:1" ⟹ codes "1 lsn 1:0:1"
        ∷ codes "1 readrestart 1" ⟹ codes "1 cursor 1 record 1:0:1 restart 0:0:0 0:0:0 1:0:1 01"
        ∷ []) }
    ensures null_is_no_new_base { IsDialogue worked (opening
        ++ codes "1 append 1 aa 0:0:0 0:0:0" ⟹ codes "1 lsn 1:0:0"
        ∷ codes "1 advance 1 1:0:0" ⟹ codes "1 base 1:0:0"
        ∷ codes "1 restart 1 bb 0:0:0" ⟹ codes "1 lsn 1:200:0"
        ∷ codes "1 restart 1 cc -" ⟹ codes "1 lsn 1:400:0"
        ∷ codes "1 readrestart 1" ⟹ codes "1 cursor 1 record 1:400:0 restart 1:200:0 0:0:0 0:0:0 cc"
        ∷ codes "1 prevrestart 1 1" ⟹ codes "1 record 1:200:0 restart 0:0:0 0:0:0 0:0:0 bb"
        ∷ codes "1 info 1" ⟹ codes "1 info containers 2 free 1 size 8 sectors 11 reserved 0 base 1:0:0 last 1:400:0 flushed 1:600:0 restart 1:400:0 archive off"
        ∷ []) }
{}

/// Cursors over records and over restart areas share their numbers and their limit, and neither is taken for the other.
pub fn kinds_of_cursors()
    ensures the_wrong_kind { IsDialogue worked (opening
        ++ codes "1 area 1 960 2" ⟹ codes "1 area 2"
        ∷ codes "1 restart 2 01 -" ⟹ codes "1 lsn 1:0:0"
        ∷ codes "1 readrestart 2" ⟹ codes "1 cursor 1 record 1:0:0 restart 0:0:0 0:0:0 0:0:0 01"
        ∷ codes "1 read 2 1:0:0 forward" ⟹ codes "1 cursor 2 record 1:0:0 restart 0:0:0 0:0:0 0:0:0 01"
        ∷ codes "1 next 2 1" ⟹ codes "1 refused 12 NoSuchCursor"
        ∷ codes "1 prevrestart 2 2" ⟹ codes "1 refused 12 NoSuchCursor"
        ∷ codes "1 next 2 2" ⟹ codes "1 refused 18 EndOfLog"
        ∷ codes "1 prevrestart 2 1" ⟹ codes "1 refused 20 NoRestart"
        ∷ codes "1 read 2 1:0:0 forward" ⟹ codes "1 refused 15 CursorLimit 2"
        ∷ codes "1 readrestart 2" ⟹ codes "1 refused 15 CursorLimit 2"
        ∷ codes "1 end 2 1" ⟹ codes "1 ok"
        ∷ codes "1 readrestart 2" ⟹ codes "1 cursor 1 record 1:0:0 restart 0:0:0 0:0:0 0:0:0 01"
        ∷ codes "1 end 2 2" ⟹ codes "1 ok"
        ∷ codes "1 end 2 2" ⟹ codes "1 refused 12 NoSuchCursor"
        ∷ []) }
{}
