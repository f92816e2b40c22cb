// Records of several streams in one log, links, and cursors over them.
ghost use Rattle.std.specs.Prelude.{◌≡◌, [], ◌∷◌, ◌++◌, codes, map};
ghost use Rattle.clfs_lsn.specs.Lsn.{lsn_number};
ghost use Rattle.clfs_model.specs.Reading.{chain};
ghost use Rattle.clfs_lsn.specs.declared.cursor.Mode.TheVariants.{Previous, UndoNext, Forward};
ghost use Rattle.clfs_rows.specs.Filled.{linked_records, number_of};
ghost use Rattle.clfs_rows.specs.Worked.{worked, ◌⟹◌, IsDialogue, opening};

/// Records of two streams share a block; each stream shows its own alone.
pub fn two_streams()
    ensures each_stream_its_own { IsDialogue worked (opening
        ++ codes "2 open b" ⟹ codes "2 stream 2"
        ∷ codes "2 area 2 960 4" ⟹ codes "2 area 1"
        ∷ codes "1 append 1 a1 0:0:0 0:0:0" ⟹ codes "1 lsn 1:0:0"
        ∷ codes "2 append 1 b1 0:0:0 0:0:0" ⟹ codes "2 lsn 1:0:1"
        ∷ codes "1 append 1 a2 1:0:0 1:0:0" ⟹ codes "1 lsn 1:0:2"
        ∷ codes "2 append 1 b2 1:0:1 1:0:1" ⟹ codes "2 lsn 1:0:3"
        ∷ codes "1 read 1 1:0:0 forward" ⟹ codes "1 cursor 1 record 1:0:0 data 0:0:0 0:0:0 0:0:0 a1"
        ∷ codes "1 next 1 1" ⟹ codes "1 record 1:0:2 data 1:0:0 1:0:0 0:0:0 a2"
        ∷ codes "1 next 1 1" ⟹ codes "1 refused 18 EndOfLog"
        ∷ codes "2 read 1 1:0:0 forward" ⟹ codes "2 refused 17 RecordNonexistent 1:0:0"
        ∷ []) }
    ensures what_info_tells_of_each { IsDialogue worked (opening
        ++ codes "2 open b" ⟹ codes "2 stream 2"
        ∷ codes "2 area 2 960 4" ⟹ codes "2 area 1"
        ∷ codes "1 append 1 a1 0:0:0 0:0:0" ⟹ codes "1 lsn 1:0:0"
        ∷ codes "2 append 1 b1 0:0:0 0:0:0" ⟹ codes "2 lsn 1:0:1"
        ∷ codes "2 restart 1 b2 1:0:1" ⟹ codes "2 lsn 1:0:2"
        ∷ codes "1 append 1 a2 0:0:0 0:0:0" ⟹ codes "1 lsn 1:200:0"
        ∷ codes "1 info 2" ⟹ codes "1 info containers 2 free 1 size 8 sectors 12 reserved 0 base 1:0:1 last 1:0:2 flushed 1:200:0 restart 1:0:2 archive off"
        ∷ codes "2 info 1" ⟹ codes "2 info containers 2 free 1 size 8 sectors 12 reserved 0 base 0:0:0 last 1:200:0 flushed 1:200:0 restart 0:0:0 archive off"
        ∷ []) }
    ensures one_stream_of_two_clients { IsDialogue worked (opening
        ++ codes "2 open a" ⟹ codes "2 stream 1"
        ∷ codes "2 area 1 960 4" ⟹ codes "2 area 1"
        ∷ codes "1 append 1 a1 0:0:0 0:0:0" ⟹ codes "1 lsn 1:0:0"
        ∷ codes "2 append 1 a2 1:0:0 0:0:0" ⟹ codes "2 lsn 1:0:1"
        ∷ codes "1 read 1 1:0:1 previous" ⟹ codes "1 cursor 1 record 1:0:1 data 1:0:0 0:0:0 0:0:0 a2"
        ∷ codes "2 next 1 1" ⟹ codes "2 refused 12 NoSuchCursor"
        ∷ codes "1 next 1 1" ⟹ codes "1 record 1:0:0 data 0:0:0 0:0:0 0:0:0 a1"
        ∷ []) }
{}

/// A link is null, or below the stream's base, or a live record of the stream.
pub fn links_between_records()
    ensures previous_and_undo_next { IsDialogue worked (opening
        ++ codes "1 append 1 a0 0:0:0 0:0:0" ⟹ codes "1 lsn 1:0:0"
        ∷ codes "1 append 1 a1 1:0:0 1:0:0" ⟹ codes "1 lsn 1:0:1"
        ∷ codes "1 append 1 a2 1:0:1 1:0:1" ⟹ codes "1 lsn 1:0:2"
        ∷ codes "1 append 1 a3 1:0:2 1:0:0" ⟹ codes "1 lsn 1:0:3"
        ∷ codes "1 read 1 1:0:3 undo" ⟹ codes "1 cursor 1 record 1:0:3 data 1:0:2 1:0:0 0:0:0 a3"
        ∷ codes "1 next 1 1" ⟹ codes "1 record 1:0:0 data 0:0:0 0:0:0 0:0:0 a0"
        ∷ codes "1 next 1 1" ⟹ codes "1 refused 19 StartOfLog"
        ∷ codes "1 read 1 1:0:3 previous" ⟹ codes "1 cursor 2 record 1:0:3 data 1:0:2 1:0:0 0:0:0 a3"
        ∷ codes "1 next 1 2" ⟹ codes "1 record 1:0:2 data 1:0:1 1:0:1 0:0:0 a2"
        ∷ codes "1 next 1 2" ⟹ codes "1 record 1:0:1 data 1:0:0 1:0:0 0:0:0 a1"
        ∷ codes "1 next 1 2" ⟹ codes "1 record 1:0:0 data 0:0:0 0:0:0 0:0:0 a0"
        ∷ codes "1 next 1 2" ⟹ codes "1 refused 19 StartOfLog"
        ∷ []) }
    ensures below_the_base { IsDialogue worked (opening
        ++ codes "1 append 1 a0 0:0:0 0:0:0" ⟹ codes "1 lsn 1:0:0"
        ∷ codes "1 append 1 a1 1:0:0 1:0:0" ⟹ codes "1 lsn 1:0:1"
        ∷ codes "1 append 1 a2 1:0:1 1:0:1" ⟹ codes "1 lsn 1:0:2"
        ∷ codes "1 read 1 1:0:2 undo" ⟹ codes "1 cursor 1 record 1:0:2 data 1:0:1 1:0:1 0:0:0 a2"
        ∷ codes "1 read 1 1:0:0 forward" ⟹ codes "1 cursor 2 record 1:0:0 data 0:0:0 0:0:0 0:0:0 a0"
        ∷ codes "1 advance 1 1:0:2" ⟹ codes "1 base 1:0:2"
        ∷ codes "1 next 1 1" ⟹ codes "1 refused 19 StartOfLog"
        ∷ codes "1 next 1 2" ⟹ codes "1 record 1:0:2 data 1:0:1 1:0:1 0:0:0 a2"
        ∷ codes "1 append 1 cc 1:0:0 1:0:2" ⟹ codes "1 lsn 1:200:0"
        ∷ codes "2 open b" ⟹ codes "2 stream 2"
        ∷ codes "2 area 2 960 4" ⟹ codes "2 area 1"
        ∷ codes "2 append 1 bb 1:0:2 0:0:0" ⟹ codes "2 refused 8 LinkInvalid 1:0:2"
        ∷ []) }
    ensures to_no_record { IsDialogue worked (opening
        ++ codes "1 append 1 a0 0:0:0 0:0:0" ⟹ codes "1 lsn 1:0:0"
        ∷ codes "1 append 1 a1 1:0:1 0:0:0" ⟹ codes "1 refused 8 LinkInvalid 1:0:1"
        ∷ codes "1 append 1 a1 0:0:0 1:200:0" ⟹ codes "1 refused 8 LinkInvalid 1:200:0"
        ∷ codes "1 append 1 a1 0:0:1 0:0:0" ⟹ codes "1 refused 8 LinkInvalid 0:0:1"
        ∷ codes "1 append 1 a1 1:0:0 1:0:0" ⟹ codes "1 lsn 1:0:1"
        ∷ []) }
{}

/// A read opens a cursor, which goes on from the record that it gave last; what is live is judged at each read.
pub fn cursors_that_go_on()
    ensures base_of_the_moment { IsDialogue worked (opening
        ++ codes "1 append 1 a0 0:0:0 0:0:0" ⟹ codes "1 lsn 1:0:0"
        ∷ codes "1 append 1 a1 1:0:0 1:0:0" ⟹ codes "1 lsn 1:0:1"
        ∷ codes "1 append 1 a2 1:0:1 1:0:1" ⟹ codes "1 lsn 1:0:2"
        ∷ codes "1 read 1 1:0:2 undo" ⟹ codes "1 cursor 1 record 1:0:2 data 1:0:1 1:0:1 0:0:0 a2"
        ∷ codes "1 read 1 1:0:0 forward" ⟹ codes "1 cursor 2 record 1:0:0 data 0:0:0 0:0:0 0:0:0 a0"
        ∷ codes "1 advance 1 1:0:2" ⟹ codes "1 base 1:0:2"
        ∷ codes "1 next 1 1" ⟹ codes "1 refused 19 StartOfLog"
        ∷ codes "1 next 1 2" ⟹ codes "1 record 1:0:2 data 1:0:1 1:0:1 0:0:0 a2"
        ∷ []) }
    ensures end_of_the_log_is_no_end { IsDialogue worked (opening
        ++ codes "1 append 1 aa 0:0:0 0:0:0" ⟹ codes "1 lsn 1:0:0"
        ∷ codes "1 read 1 1:0:0 forward" ⟹ codes "1 cursor 1 record 1:0:0 data 0:0:0 0:0:0 0:0:0 aa"
        ∷ codes "1 next 1 1" ⟹ codes "1 refused 18 EndOfLog"
        ∷ codes "1 append 1 bb 0:0:0 0:0:0" ⟹ codes "1 lsn 1:0:1"
        ∷ codes "1 next 1 1" ⟹ codes "1 record 1:0:1 data 0:0:0 0:0:0 0:0:0 bb"
        ∷ codes "1 next 1 1" ⟹ codes "1 refused 18 EndOfLog"
        ∷ []) }
    ensures a_link_at_the_base_is_followed { IsDialogue worked (opening
        ++ codes "1 append 1 a0 0:0:0 0:0:0" ⟹ codes "1 lsn 1:0:0"
        ∷ codes "1 append 1 a1 1:0:0 1:0:0" ⟹ codes "1 lsn 1:0:1"
        ∷ codes "1 append 1 a2 1:0:1 1:0:1" ⟹ codes "1 lsn 1:0:2"
        ∷ codes "1 read 1 1:0:2 previous" ⟹ codes "1 cursor 1 record 1:0:2 data 1:0:1 1:0:1 0:0:0 a2"
        ∷ codes "1 advance 1 1:0:1" ⟹ codes "1 base 1:0:1"
        ∷ codes "1 next 1 1" ⟹ codes "1 record 1:0:1 data 1:0:0 1:0:0 0:0:0 a1"
        ∷ codes "1 next 1 1" ⟹ codes "1 refused 19 StartOfLog"
        ∷ codes "1 read 1 1:0:0 forward" ⟹ codes "1 refused 17 RecordNonexistent 1:0:0"
        ∷ []) }
    ensures each_moves_alone { IsDialogue worked (opening
        ++ codes "1 append 1 a0 0:0:0 0:0:0" ⟹ codes "1 lsn 1:0:0"
        ∷ codes "1 append 1 a1 0:0:0 0:0:0" ⟹ codes "1 lsn 1:0:1"
        ∷ codes "1 append 1 a2 0:0:0 0:0:0" ⟹ codes "1 lsn 1:0:2"
        ∷ codes "1 read 1 1:0:0 forward" ⟹ codes "1 cursor 1 record 1:0:0 data 0:0:0 0:0:0 0:0:0 a0"
        ∷ codes "1 read 1 1:0:0 forward" ⟹ codes "1 cursor 2 record 1:0:0 data 0:0:0 0:0:0 0:0:0 a0"
        ∷ codes "1 next 1 1" ⟹ codes "1 record 1:0:1 data 0:0:0 0:0:0 0:0:0 a1"
        ∷ codes "1 next 1 1" ⟹ codes "1 record 1:0:2 data 0:0:0 0:0:0 0:0:0 a2"
        ∷ codes "1 next 1 2" ⟹ codes "1 record 1:0:1 data 0:0:0 0:0:0 0:0:0 a1"
        ∷ []) }
    ensures restart_areas_are_records { IsDialogue worked (opening
        ++ codes "1 append 1 aa 0:0:0 0:0:0" ⟹ codes "1 lsn 1:0:0"
        ∷ codes "1 restart 1 bb -" ⟹ codes "1 lsn 1:0:1"
        ∷ codes "1 read 1 1:0:0 forward" ⟹ codes "1 cursor 1 record 1:0:0 data 0:0:0 0:0:0 0:0:0 aa"
        ∷ codes "1 next 1 1" ⟹ codes "1 record 1:0:1 restart 0:0:0 0:0:0 0:0:0 bb"
        ∷ codes "1 read 1 1:0:1 previous" ⟹ codes "1 cursor 2 record 1:0:1 restart 0:0:0 0:0:0 0:0:0 bb"
        ∷ codes "1 next 1 2" ⟹ codes "1 refused 19 StartOfLog"
        ∷ codes "1 append 1 cc 1:0:1 1:0:1" ⟹ codes "1 lsn 1:200:0"
        ∷ codes "1 next 1 1" ⟹ codes "1 record 1:200:0 data 1:0:1 1:0:1 0:0:0 cc"
        ∷ []) }
    ensures least_unused_number { IsDialogue worked (opening
        ++ codes "1 append 1 aa 0:0:0 0:0:0" ⟹ codes "1 lsn 1:0:0"
        ∷ codes "1 read 1 1:0:0 forward" ⟹ codes "1 cursor 1 record 1:0:0 data 0:0:0 0:0:0 0:0:0 aa"
        ∷ codes "1 read 1 1:0:0 previous" ⟹ codes "1 cursor 2 record 1:0:0 data 0:0:0 0:0:0 0:0:0 aa"
        ∷ codes "1 read 1 1:0:0 undo" ⟹ codes "1 cursor 3 record 1:0:0 data 0:0:0 0:0:0 0:0:0 aa"
        ∷ codes "1 end 1 2" ⟹ codes "1 ok"
        ∷ codes "1 next 1 2" ⟹ codes "1 refused 12 NoSuchCursor"
        ∷ codes "1 read 1 1:0:0 forward" ⟹ codes "1 cursor 2 record 1:0:0 data 0:0:0 0:0:0 0:0:0 aa"
        ∷ codes "1 end 1 1" ⟹ codes "1 ok"
        ∷ codes "1 end 1 1" ⟹ codes "1 refused 12 NoSuchCursor"
        ∷ codes "1 read 1 1:0:0 forward" ⟹ codes "1 cursor 1 record 1:0:0 data 0:0:0 0:0:0 0:0:0 aa"
        ∷ codes "1 read 1 1:0:0 forward" ⟹ codes "1 cursor 4 record 1:0:0 data 0:0:0 0:0:0 0:0:0 aa"
        ∷ codes "1 read 1 1:0:0 forward" ⟹ codes "1 refused 15 CursorLimit 4"
        ∷ codes "1 drop 1" ⟹ codes "1 ok"
        ∷ codes "1 area 1 960 4" ⟹ codes "1 area 1"
        ∷ codes "1 read 1 1:0:0 forward" ⟹ codes "1 cursor 1 record 1:0:0 data 0:0:0 0:0:0 0:0:0 aa"
        ∷ []) }
{}

/// The LSNs of the records that reading gives from an LSN on.
pub fn chains_of_records()
    ensures previous { map number_of (chain linked_records 1 (lsn_number 1 0 3) Previous) ≡ lsn_number 1 0 3 ∷ lsn_number 1 0 2 ∷ lsn_number 1 0 1 ∷ lsn_number 1 0 0 ∷ [] }
    ensures undo_next { map number_of (chain linked_records 1 (lsn_number 1 0 3) UndoNext) ≡ lsn_number 1 0 3 ∷ lsn_number 1 0 0 ∷ [] }
    ensures forward { map number_of (chain linked_records 1 (lsn_number 1 0 1) Forward) ≡ lsn_number 1 0 1 ∷ lsn_number 1 0 2 ∷ lsn_number 1 0 3 ∷ [] }
    ensures from_no_record { map number_of (chain linked_records 1 (lsn_number 1 0 4) Forward) ≡ [] }
{}
