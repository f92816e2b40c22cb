// The example of the manual of the script: a dialogue with a log that was just formatted.
ghost use Rattle.std.specs.Prelude.{[], ◌∷◌, codes};
ghost use Rattle.clfs_rows.specs.Worked.{worked, ◌⟹◌, IsDialogue};

/// Each kind of line, one after the other, and lines that go wrong.
pub fn example_of_the_manual()
    ensures lines { IsDialogue worked (
        codes "1 open orders" ⟹ codes "1 stream 1"
        ∷ codes "1 area 1 960 4" ⟹ codes "1 area 1"
        ∷ codes "1 append 1 68656c6c6f 0:0:0 0:0:0" ⟹ codes "1 lsn 1:0:0"
        ∷ codes "1 append 1 776f726c64 1:0:0 1:0:0 flush" ⟹ codes "1 lsn 1:0:1"
        ∷ codes "1 read 1 1:0:1 previous" ⟹ codes "1 cursor 1 record 1:0:1 data 1:0:0 1:0:0 0:0:0 776f726c64"
        ∷ codes "1 next 1 1" ⟹ codes "1 record 1:0:0 data 0:0:0 0:0:0 0:0:0 68656c6c6f"
        ∷ codes "1 next 1 1" ⟹ codes "1 refused 19 StartOfLog"
        ∷ codes "1 end 1 1" ⟹ codes "1 ok"
        ∷ codes "1 reserve 1 100 200" ⟹ codes "1 held 2"
        ∷ codes "1 append 1 aa 0:0:0 0:0:0 reserved" ⟹ codes "1 lsn 1:200:0"
        ∷ codes "1 append 1 bb 0:0:0 0:0:0 seal hold 300" ⟹ codes "1 lsn 1:200:1"
        ∷ codes "1 release 1 1" ⟹ codes "1 held 1"
        ∷ codes "1 align 1 456 457" ⟹ codes "1 sectors 3"
        ∷ codes "1 flush 1" ⟹ codes "1 flushed 1:400:0"
        ∷ codes "1 flushto 1 1:0:1" ⟹ codes "1 flushed 1:400:0"
        ∷ codes "1 restart 1 0102 -" ⟹ codes "1 lsn 1:400:0"
        ∷ codes "1 restart 1 0304 1:0:1 reserved" ⟹ codes "1 lsn 1:600:0"
        ∷ codes "1 readrestart 1" ⟹ codes "1 cursor 1 record 1:600:0 restart 1:400:0 0:0:0 1:0:1 0304"
        ∷ codes "1 prevrestart 1 1" ⟹ codes "1 record 1:400:0 restart 0:0:0 0:0:0 0:0:0 0102"
        ∷ codes "1 prevrestart 1 1" ⟹ codes "1 refused 20 NoRestart"
        ∷ codes "1 advance 1 1:200:0" ⟹ codes "1 base 1:200:0"
        ∷ codes "1 archive on" ⟹ codes "1 ok"
        ∷ codes "1 tail 1:200:0" ⟹ codes "1 tail 1:200:0"
        ∷ codes "1 extents" ⟹ codes "1 extents 1 1:200-800"
        ∷ codes "1 policy max 4" ⟹ codes "1 ok"
        ∷ codes "1 policy growth 1" ⟹ codes "1 ok"
        ∷ codes "1 policy auto" ⟹ codes "1 ok"
        ∷ codes "1 size 3" ⟹ codes "1 containers 3"
        ∷ codes "1 unpolicy max" ⟹ codes "1 ok"
        ∷ codes "1 archive off" ⟹ codes "1 ok"
        ∷ codes "1 info 1" ⟹ codes "1 info containers 3 free 2 size 8 sectors 17 reserved 0 base 1:200:0 last 1:600:0 flushed 1:800:0 restart 1:600:0 archive off"
        ∷ codes "1 drop 1" ⟹ codes "1 ok"
        ∷ codes "1 reopen" ⟹ codes "1 flushed 1:800:0"
        ∷ codes "1 flush 5" ⟹ codes "1 refused 10 NoSuchArea"
        ∷ codes "1 apend 1 aa" ⟹ codes "0 refused 28 BadLine 2"
        ∷ codes "1 append 1 abc 0:0:0 0:0:0" ⟹ codes "0 refused 28 BadLine 11"
        ∷ codes "1 append 1 aa 0:0:0" ⟹ codes "0 refused 28 BadLine 19"
        ∷ codes "12 read 1 1:0:00 forward" ⟹ codes "0 refused 28 BadLine 10"
        ∷ codes "65 open a" ⟹ codes "0 refused 28 BadLine 0"
        ∷ []) }
{}
