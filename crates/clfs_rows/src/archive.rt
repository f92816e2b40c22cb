// Archiving: the tail, which holds containers, and what is to be archived.
ghost use Rattle.std.specs.Prelude.{[], ◌∷◌, ◌++◌, codes};
ghost use Rattle.clfs_model.specs.State.{log_of};
ghost use Rattle.clfs_rows.specs.Worked.{worked, ◌⟹◌, IsDialogue, opening, append_of_zeros};

/// With archiving on a container is used again only below the archive tail too.
pub fn what_the_tail_holds()
    ensures until_the_tail_moves { IsDialogue worked (opening
        ++ codes "1 tail 1:0:0" ⟹ codes "1 refused 23 Ephemeral"
        ∷ codes "1 extents" ⟹ codes "1 refused 23 Ephemeral"
        ∷ codes "1 archive on" ⟹ codes "1 ok"
        ∷ append_of_zeros 960 [] ⟹ codes "1 lsn 1:0:0"
        ∷ append_of_zeros 960 [] ⟹ codes "1 lsn 1:400:0"
        ∷ append_of_zeros 960 [] ⟹ codes "1 lsn 1:800:0"
        ∷ append_of_zeros 960 [] ⟹ codes "1 lsn 1:c00:0"
        ∷ append_of_zeros 960 [] ⟹ codes "1 lsn 2:0:0"
        ∷ append_of_zeros 960 [] ⟹ codes "1 lsn 2:400:0"
        ∷ append_of_zeros 960 [] ⟹ codes "1 lsn 2:800:0"
        ∷ append_of_zeros 960 [] ⟹ codes "1 refused 5 Full 1 0 2"
        ∷ codes "1 advance 1 2:800:1" ⟹ codes "1 base 2:800:1"
        ∷ append_of_zeros 960 [] ⟹ codes "1 refused 5 Full 1 0 2"
        ∷ codes "1 extents" ⟹ codes "1 extents 2 1:0-1000 2:0-c00"
        ∷ codes "1 tail 2:0:0" ⟹ codes "1 tail 2:0:0"
        ∷ append_of_zeros 960 [] ⟹ codes "1 lsn 2:c00:0"
        ∷ codes "1 tail 3:0:0" ⟹ codes "1 refused 22 ArchiveTailInvalid 3:0:0 2:0:0 2:c00:0"
        ∷ codes "1 tail 2:c00:1" ⟹ codes "1 refused 22 ArchiveTailInvalid 2:c00:1 2:0:0 2:c00:0"
        ∷ codes "1 tail 1:1000:0" ⟹ codes "1 refused 22 ArchiveTailInvalid 1:1000:0 2:0:0 2:c00:0"
        ∷ codes "1 tail 2:0:0" ⟹ codes "1 tail 2:0:0"
        ∷ codes "1 tail 2:c00:0" ⟹ codes "1 tail 2:c00:0"
        ∷ codes "1 info 1" ⟹ codes "1 info containers 2 free 1 size 8 sectors 7 reserved 0 base 2:800:1 last 2:c00:0 flushed 2:c00:0 restart 0:0:0 archive 2:c00:0"
        ∷ []) }
    ensures until_archiving_ends { IsDialogue worked (opening
        ++ codes "1 archive on" ⟹ codes "1 ok"
        ∷ append_of_zeros 960 [] ⟹ codes "1 lsn 1:0:0"
        ∷ append_of_zeros 960 [] ⟹ codes "1 lsn 1:400:0"
        ∷ append_of_zeros 960 [] ⟹ codes "1 lsn 1:800:0"
        ∷ append_of_zeros 960 [] ⟹ codes "1 lsn 1:c00:0"
        ∷ append_of_zeros 960 [] ⟹ codes "1 lsn 2:0:0"
        ∷ append_of_zeros 960 [] ⟹ codes "1 lsn 2:400:0"
        ∷ append_of_zeros 960 [] ⟹ codes "1 lsn 2:800:0"
        ∷ codes "1 advance 1 2:800:1" ⟹ codes "1 base 2:800:1"
        ∷ append_of_zeros 960 [] ⟹ codes "1 refused 5 Full 1 0 2"
        ∷ codes "1 archive off" ⟹ codes "1 ok"
        ∷ append_of_zeros 960 [] ⟹ codes "1 lsn 2:c00:0"
        ∷ codes "1 archive off" ⟹ codes "1 ok"
        ∷ codes "1 extents" ⟹ codes "1 refused 23 Ephemeral"
        ∷ []) }
{}

/// Archiving begins at the least record that is live in any stream, or where the next one comes.
pub fn where_archiving_begins()
    ensures at_a_live_record { IsDialogue worked (opening
        ++ codes "1 append 1 aa 0:0:0 0:0:0 flush" ⟹ codes "1 lsn 1:0:0"
        ∷ codes "1 archive on" ⟹ codes "1 ok"
        ∷ codes "1 info 1" ⟹ codes "1 info containers 2 free 1 size 8 sectors 13 reserved 0 base 0:0:0 last 1:0:0 flushed 1:200:0 restart 0:0:0 archive 1:0:0"
        ∷ []) }
    ensures at_the_least_of_all_streams { IsDialogue worked (opening
        ++ codes "2 open b" ⟹ codes "2 stream 2"
        ∷ codes "2 area 2 960 4" ⟹ codes "2 area 1"
        ∷ codes "1 append 1 aa 0:0:0 0:0:0" ⟹ codes "1 lsn 1:0:0"
        ∷ codes "2 append 1 bb 0:0:0 0:0:0" ⟹ codes "2 lsn 1:0:1"
        ∷ codes "1 append 1 cc 0:0:0 0:0:0" ⟹ codes "1 lsn 1:0:2"
        ∷ codes "1 advance 1 1:0:2" ⟹ codes "1 base 1:0:2"
        ∷ codes "1 archive on" ⟹ codes "1 ok"
        ∷ codes "1 info 1" ⟹ codes "1 info containers 2 free 1 size 8 sectors 13 reserved 0 base 1:0:2 last 1:0:2 flushed 1:200:0 restart 0:0:0 archive 1:0:1"
        ∷ []) }
    ensures where_the_next_record_comes { IsDialogue worked (opening
        ++ codes "1 append 1 aa 0:0:0 0:0:0" ⟹ codes "1 lsn 1:0:0"
        ∷ codes "1 advance 1 1:0:1" ⟹ codes "1 base 1:0:1"
        ∷ codes "1 archive on" ⟹ codes "1 ok"
        ∷ codes "1 info 1" ⟹ codes "1 info containers 2 free 1 size 8 sectors 13 reserved 0 base 1:0:1 last 0:0:0 flushed 1:200:0 restart 0:0:0 archive 1:200:0"
        ∷ []) }
    ensures once_only { IsDialogue worked (opening
        ++ codes "1 append 1 aa 0:0:0 0:0:0 flush" ⟹ codes "1 lsn 1:0:0"
        ∷ codes "1 archive on" ⟹ codes "1 ok"
        ∷ codes "1 tail 1:200:0" ⟹ codes "1 tail 1:200:0"
        ∷ codes "1 archive on" ⟹ codes "1 ok"
        ∷ codes "1 info 1" ⟹ codes "1 info containers 2 free 1 size 8 sectors 13 reserved 0 base 0:0:0 last 1:0:0 flushed 1:200:0 restart 0:0:0 archive 1:200:0"
        ∷ codes "1 archive off" ⟹ codes "1 ok"
        ∷ codes "1 archive on" ⟹ codes "1 ok"
        ∷ codes "1 info 1" ⟹ codes "1 info containers 2 free 1 size 8 sectors 13 reserved 0 base 0:0:0 last 1:0:0 flushed 1:200:0 restart 0:0:0 archive 1:0:0"
        ∷ []) }
{}

/// The flushed blocks that have a record at or above the tail, as one extent for each container.
pub fn blocks_to_archive()
    ensures whole_blocks { IsDialogue worked (opening
        ++ codes "1 archive on" ⟹ codes "1 ok"
        ∷ codes "1 extents" ⟹ codes "1 extents 0"
        ∷ codes "1 append 1 a0 0:0:0 0:0:0" ⟹ codes "1 lsn 1:0:0"
        ∷ codes "1 append 1 a1 0:0:0 0:0:0" ⟹ codes "1 lsn 1:0:1"
        ∷ codes "1 extents" ⟹ codes "1 extents 0"
        ∷ codes "1 flush 1" ⟹ codes "1 flushed 1:200:0"
        ∷ codes "1 extents" ⟹ codes "1 extents 1 1:0-200"
        ∷ codes "1 tail 1:0:1" ⟹ codes "1 tail 1:0:1"
        ∷ codes "1 extents" ⟹ codes "1 extents 1 1:0-200"
        ∷ codes "1 tail 1:0:2" ⟹ codes "1 tail 1:0:2"
        ∷ codes "1 extents" ⟹ codes "1 extents 0"
        ∷ codes "1 tail 1:200:0" ⟹ codes "1 tail 1:200:0"
        ∷ codes "1 extents" ⟹ codes "1 extents 0"
        ∷ []) }
    ensures below_every_base_too { IsDialogue worked (opening
        ++ codes "1 archive on" ⟹ codes "1 ok"
        ∷ codes "1 append 1 a0 0:0:0 0:0:0" ⟹ codes "1 lsn 1:0:0"
        ∷ codes "1 append 1 a1 0:0:0 0:0:0" ⟹ codes "1 lsn 1:0:1"
        ∷ codes "1 advance 1 1:0:2" ⟹ codes "1 base 1:0:2"
        ∷ codes "1 extents" ⟹ codes "1 extents 1 1:0-200"
        ∷ []) }
    ensures a_block_of_two_records { IsDialogue worked (opening
        ++ codes "1 archive on" ⟹ codes "1 ok"
        ∷ append_of_zeros 448 [] ⟹ codes "1 lsn 1:0:0"
        ∷ append_of_zeros 448 (codes " flush") ⟹ codes "1 lsn 1:0:1"
        ∷ codes "1 extents" ⟹ codes "1 extents 1 1:0-400"
        ∷ []) }
    ensures a_blocks_header_counts { IsDialogue worked (opening
        ++ codes "1 archive on" ⟹ codes "1 ok"
        ∷ append_of_zeros 457 (codes " flush") ⟹ codes "1 lsn 1:0:0"
        ∷ codes "1 extents" ⟹ codes "1 extents 1 1:0-400"
        ∷ []) }
    ensures not_what_is_open_or_waits { IsDialogue worked (opening
        ++ codes "1 archive on" ⟹ codes "1 ok"
        ∷ codes "1 append 1 a0 0:0:0 0:0:0 flush" ⟹ codes "1 lsn 1:0:0"
        ∷ append_of_zeros 960 [] ⟹ codes "1 lsn 1:200:0"
        ∷ append_of_zeros 960 [] ⟹ codes "1 lsn 1:600:0"
        ∷ codes "1 extents" ⟹ codes "1 extents 1 1:0-200"
        ∷ codes "1 flush 1" ⟹ codes "1 flushed 1:a00:0"
        ∷ codes "1 extents" ⟹ codes "1 extents 1 1:0-a00"
        ∷ codes "1 tail 1:200:0" ⟹ codes "1 tail 1:200:0"
        ∷ codes "1 extents" ⟹ codes "1 extents 1 1:200-a00"
        ∷ []) }
    ensures of_all_streams { IsDialogue worked (opening
        ++ codes "2 open b" ⟹ codes "2 stream 2"
        ∷ codes "2 area 2 960 4" ⟹ codes "2 area 1"
        ∷ codes "1 archive on" ⟹ codes "1 ok"
        ∷ codes "1 append 1 a0 0:0:0 0:0:0 flush" ⟹ codes "1 lsn 1:0:0"
        ∷ codes "2 append 1 b0 0:0:0 0:0:0 flush" ⟹ codes "2 lsn 1:200:0"
        ∷ codes "2 extents" ⟹ codes "2 extents 1 1:0-400"
        ∷ []) }
    ensures ten_containers { IsDialogue (log_of 1 2 11 4) (
        codes "1 open a" ⟹ codes "1 stream 1"
        ∷ codes "1 area 1 456 1" ⟹ codes "1 area 1"
        ∷ codes "1 archive on" ⟹ codes "1 ok"
        ∷ codes "1 append 1 - 0:0:0 0:0:0 seal" ⟹ codes "1 lsn 1:0:0"
        ∷ codes "1 append 1 - 0:0:0 0:0:0 seal" ⟹ codes "1 lsn 1:200:0"
        ∷ codes "1 append 1 - 0:0:0 0:0:0 seal" ⟹ codes "1 lsn 2:0:0"
        ∷ codes "1 append 1 - 0:0:0 0:0:0 seal" ⟹ codes "1 lsn 2:200:0"
        ∷ codes "1 append 1 - 0:0:0 0:0:0 seal" ⟹ codes "1 lsn 3:0:0"
        ∷ codes "1 append 1 - 0:0:0 0:0:0 seal" ⟹ codes "1 lsn 3:200:0"
        ∷ codes "1 append 1 - 0:0:0 0:0:0 seal" ⟹ codes "1 lsn 4:0:0"
        ∷ codes "1 append 1 - 0:0:0 0:0:0 seal" ⟹ codes "1 lsn 4:200:0"
        ∷ codes "1 append 1 - 0:0:0 0:0:0 seal" ⟹ codes "1 lsn 5:0:0"
        ∷ codes "1 append 1 - 0:0:0 0:0:0 seal" ⟹ codes "1 lsn 5:200:0"
        ∷ codes "1 append 1 - 0:0:0 0:0:0 seal" ⟹ codes "1 lsn 6:0:0"
        ∷ codes "1 append 1 - 0:0:0 0:0:0 seal" ⟹ codes "1 lsn 6:200:0"
        ∷ codes "1 append 1 - 0:0:0 0:0:0 seal" ⟹ codes "1 lsn 7:0:0"
        ∷ codes "1 append 1 - 0:0:0 0:0:0 seal" ⟹ codes "1 lsn 7:200:0"
        ∷ codes "1 append 1 - 0:0:0 0:0:0 seal" ⟹ codes "1 lsn 8:0:0"
        ∷ codes "1 append 1 - 0:0:0 0:0:0 seal" ⟹ codes "1 lsn 8:200:0"
        ∷ codes "1 append 1 - 0:0:0 0:0:0 seal" ⟹ codes "1 lsn 9:0:0"
        ∷ codes "1 append 1 - 0:0:0 0:0:0 seal" ⟹ codes "1 lsn 9:200:0"
        ∷ codes "1 append 1 - 0:0:0 0:0:0 flush" ⟹ codes "1 lsn a:0:0"
        ∷ codes "1 extents" ⟹ codes "1 extents 10 1:0-400 2:0-400 3:0-400 4:0-400 5:0-400 6:0-400 7:0-400 8:0-400 9:0-400 a:0-200"
        ∷ codes "1 info 1" ⟹ codes "1 info containers 11 free 1 size 2 sectors 3 reserved 0 base 0:0:0 last a:0:0 flushed a:200:0 restart 0:0:0 archive 1:0:0"
        ∷ []) }
{}
