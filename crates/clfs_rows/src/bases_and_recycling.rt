// The base of a stream, and how containers are freed and used again.
ghost use Rattle.std.specs.Prelude.{[], ◌∷◌, ◌++◌, codes};
ghost use Rattle.clfs_rows.specs.Worked.{worked, ◌⟹◌, IsDialogue, opening, line_of_append, append_of_zeros};

/// A full log takes records again once all streams have left the first container.
pub fn containers_are_used_again()
    ensures when_both_streams_have_left { IsDialogue worked (opening
        ++ codes "2 open b" ⟹ codes "2 stream 2"
        ∷ codes "2 area 2 960 4" ⟹ codes "2 area 1"
        ∷ append_of_zeros 960 [] ⟹ codes "1 lsn 1:0:0"
        ∷ line_of_append (codes "2") 960 (codes "0:0:0 0:0:0") [] ⟹ codes "2 lsn 1:400:0"
        ∷ append_of_zeros 960 [] ⟹ codes "1 lsn 1:800:0"
        ∷ append_of_zeros 960 [] ⟹ codes "1 lsn 1:c00:0"
        ∷ append_of_zeros 960 [] ⟹ codes "1 lsn 2:0:0"
        ∷ append_of_zeros 960 [] ⟹ codes "1 lsn 2:400:0"
        ∷ append_of_zeros 960 [] ⟹ codes "1 lsn 2:800:0"
        ∷ append_of_zeros 960 [] ⟹ codes "1 refused 5 Full 1 0 2"
        ∷ codes "1 advance 1 2:800:0" ⟹ codes "1 base 2:800:0"
        ∷ append_of_zeros 960 [] ⟹ codes "1 refused 5 Full 1 0 2"
        ∷ codes "2 advance 1 1:400:1" ⟹ codes "2 base 1:400:1"
        ∷ codes "2 advance 1 1:400:1" ⟹ codes "2 refused 21 TailInvalid 1:400:1 1:400:1 0:0:0"
        ∷ append_of_zeros 960 [] ⟹ codes "1 lsn 2:c00:0"
        ∷ append_of_zeros 960 [] ⟹ codes "1 lsn 3:0:0"
        ∷ []) }
    ensures by_a_restart_area { IsDialogue worked (opening
        ++ append_of_zeros 960 [] ⟹ codes "1 lsn 1:0:0"
        ∷ append_of_zeros 960 [] ⟹ codes "1 lsn 1:400:0"
        ∷ append_of_zeros 960 [] ⟹ codes "1 lsn 1:800:0"
        ∷ append_of_zeros 960 [] ⟹ codes "1 lsn 1:c00:0"
        ∷ append_of_zeros 960 [] ⟹ codes "1 lsn 2:0:0"
        ∷ codes "1 restart 1 - 2:0:0" ⟹ codes "1 lsn 2:400:0"
        ∷ codes "1 info 1" ⟹ codes "1 info containers 2 free 1 size 8 sectors 11 reserved 0 base 2:0:0 last 2:400:0 flushed 2:600:0 restart 2:400:0 archive off"
        ∷ append_of_zeros 960 [] ⟹ codes "1 lsn 2:600:0"
        ∷ append_of_zeros 960 [] ⟹ codes "1 lsn 2:a00:0"
        ∷ append_of_zeros 960 [] ⟹ codes "1 lsn 3:0:0"
        ∷ []) }
    ensures where_nothing_is_live { IsDialogue worked (opening
        ++ append_of_zeros 960 [] ⟹ codes "1 lsn 1:0:0"
        ∷ append_of_zeros 960 [] ⟹ codes "1 lsn 1:400:0"
        ∷ append_of_zeros 960 [] ⟹ codes "1 lsn 1:800:0"
        ∷ append_of_zeros 960 [] ⟹ codes "1 lsn 1:c00:0"
        ∷ codes "1 advance 1 1:c00:1" ⟹ codes "1 base 1:c00:1"
        ∷ codes "1 info 1" ⟹ codes "1 info containers 2 free 1 size 8 sectors 7 reserved 0 base 1:c00:1 last 0:0:0 flushed 1:1000:0 restart 0:0:0 archive off"
        ∷ append_of_zeros 960 [] ⟹ codes "1 lsn 2:0:0"
        ∷ codes "1 info 1" ⟹ codes "1 info containers 2 free 1 size 8 sectors 12 reserved 0 base 1:c00:1 last 2:0:0 flushed 2:0:0 restart 0:0:0 archive off"
        ∷ []) }
    ensures a_stream_without_records_holds_nothing { IsDialogue worked (opening
        ++ codes "2 open b" ⟹ codes "2 stream 2"
        ∷ append_of_zeros 960 [] ⟹ codes "1 lsn 1:0:0"
        ∷ append_of_zeros 960 [] ⟹ codes "1 lsn 1:400:0"
        ∷ append_of_zeros 960 [] ⟹ codes "1 lsn 1:800:0"
        ∷ append_of_zeros 960 [] ⟹ codes "1 lsn 1:c00:0"
        ∷ append_of_zeros 960 [] ⟹ codes "1 lsn 2:0:0"
        ∷ codes "1 advance 1 2:0:0" ⟹ codes "1 base 2:0:0"
        ∷ codes "1 info 2" ⟹ codes "1 info containers 2 free 1 size 8 sectors 12 reserved 0 base 0:0:0 last 0:0:0 flushed 2:400:0 restart 0:0:0 archive off"
        ∷ []) }
{}

/// A base moves to a live record of its stream, or just after the last one; all is flushed first.
pub fn new_bases()
    ensures forward_up_to_the_last_record { IsDialogue worked (opening
        ++ codes "1 append 1 a0 0:0:0 0:0:0" ⟹ codes "1 lsn 1:0:0"
        ∷ codes "1 append 1 a1 0:0:0 0:0:0" ⟹ codes "1 lsn 1:0:1"
        ∷ codes "1 append 1 a2 0:0:0 0:0:0" ⟹ codes "1 lsn 1:0:2"
        ∷ codes "1 advance 1 1:0:1" ⟹ codes "1 base 1:0:1"
        ∷ codes "1 info 1" ⟹ codes "1 info containers 2 free 1 size 8 sectors 13 reserved 0 base 1:0:1 last 1:0:2 flushed 1:200:0 restart 0:0:0 archive off"
        ∷ codes "1 advance 1 1:0:0" ⟹ codes "1 refused 21 TailInvalid 1:0:0 1:0:1 1:0:2"
        ∷ codes "1 advance 1 1:0:1" ⟹ codes "1 base 1:0:1"
        ∷ codes "1 advance 1 1:0:4" ⟹ codes "1 refused 21 TailInvalid 1:0:4 1:0:1 1:0:2"
        ∷ codes "1 advance 1 1:0:3" ⟹ codes "1 base 1:0:3"
        ∷ codes "1 advance 1 1:0:3" ⟹ codes "1 refused 21 TailInvalid 1:0:3 1:0:3 0:0:0"
        ∷ codes "1 append 1 a3 1:0:2 1:0:0" ⟹ codes "1 lsn 1:200:0"
        ∷ codes "1 advance 1 1:0:3" ⟹ codes "1 refused 21 TailInvalid 1:0:3 1:0:3 1:200:0"
        ∷ codes "1 advance 1 1:200:0" ⟹ codes "1 base 1:200:0"
        ∷ []) }
    ensures never_null { IsDialogue worked (opening
        ++ codes "1 advance 1 0:0:0" ⟹ codes "1 refused 21 TailInvalid 0:0:0 0:0:0 0:0:0"
        ∷ codes "1 advance 1 0:0:1" ⟹ codes "1 refused 21 TailInvalid 0:0:1 0:0:0 0:0:0"
        ∷ codes "1 append 1 aa 0:0:0 0:0:0" ⟹ codes "1 lsn 1:0:0"
        ∷ codes "1 advance 1 0:0:0" ⟹ codes "1 refused 21 TailInvalid 0:0:0 0:0:0 1:0:0"
        ∷ []) }
    ensures of_its_own_stream { IsDialogue worked (opening
        ++ codes "2 open b" ⟹ codes "2 stream 2"
        ∷ codes "2 area 2 960 4" ⟹ codes "2 area 1"
        ∷ codes "1 append 1 aa 0:0:0 0:0:0" ⟹ codes "1 lsn 1:0:0"
        ∷ codes "2 append 1 bb 0:0:0 0:0:0" ⟹ codes "2 lsn 1:0:1"
        ∷ codes "1 append 1 cc 0:0:0 0:0:0" ⟹ codes "1 lsn 1:0:2"
        ∷ codes "2 advance 1 1:0:2" ⟹ codes "2 base 1:0:2"
        ∷ codes "1 advance 1 1:0:1" ⟹ codes "1 refused 21 TailInvalid 1:0:1 0:0:0 1:0:2"
        ∷ codes "1 advance 1 1:0:2" ⟹ codes "1 base 1:0:2"
        ∷ codes "1 info 1" ⟹ codes "1 info containers 2 free 1 size 8 sectors 13 reserved 0 base 1:0:2 last 1:0:2 flushed 1:200:0 restart 0:0:0 archive off"
        ∷ []) }
{}
