// Lines of a script: which words they may have, and where a line goes wrong.
ghost use Rattle.std.specs.Prelude.{◌≡◌, [], ◌∷◌, ◌++◌, codes, false, true, map, length, take, replicate};
ghost use Rattle.clfs_model.specs.State.{first};
ghost use Rattle.clfs_model.specs.Accepted.{serve_limits, race_limits, is_within, accepted};
ghost use Rattle.clfs_rows.specs.Worked.{worked, answers_to, ◌⟹◌, IsDialogue, opening};

/// Where lines end: a line feed, or the script's end; one carriage return is dropped.
pub fn ends_of_lines()
    ensures empty_script { answers_to worked [] ≡ [] }
    ensures last_line_without_a_line_feed { answers_to worked (codes "1 open a\n1 open b") ≡ codes "1 stream 1\n1 stream 2\n" }
    ensures empty_lines { answers_to worked (codes "\n1 open a\n\n") ≡ codes "0 refused 28 BadLine 0\n1 stream 1\n0 refused 28 BadLine 0\n" }
    ensures one_carriage_return { answers_to worked (codes "1 open a\r\n1 open b\r\n\r\n1 open b\r") ≡ codes "1 stream 1\n1 stream 2\n0 refused 28 BadLine 0\n1 stream 2\n" }
    ensures a_second_carriage_return { answers_to worked (codes "1 flush 5\r\r\n1 flush\r\n") ≡ codes "0 refused 28 BadLine 8\n0 refused 28 BadLine 7\n" }
{}

/// A line begins with a client from 1 to 64 and a verb, with one space between words. A bad line is answered with client 0.
pub fn clients_and_verbs()
    ensures places_of_bad_words { IsDialogue worked (opening
        ++ codes "1 apend 1 aa" ⟹ codes "0 refused 28 BadLine 2"
        ∷ [] ⟹ codes "0 refused 28 BadLine 0"
        ∷ codes "1 flush" ⟹ codes "0 refused 28 BadLine 7"
        ∷ codes "1" ⟹ codes "0 refused 28 BadLine 1"
        ∷ codes "1 " ⟹ codes "0 refused 28 BadLine 2"
        ∷ codes "0 flush 1" ⟹ codes "0 refused 28 BadLine 0"
        ∷ codes "65 flush 1" ⟹ codes "0 refused 28 BadLine 0"
        ∷ codes "01 flush 1" ⟹ codes "0 refused 28 BadLine 0"
        ∷ codes "+1 flush 1" ⟹ codes "0 refused 28 BadLine 0"
        ∷ codes "64 flush 1" ⟹ codes "64 refused 10 NoSuchArea"
        ∷ codes "12 flash 1" ⟹ codes "0 refused 28 BadLine 3"
        ∷ codes "1 Flush 1" ⟹ codes "0 refused 28 BadLine 2"
        ∷ codes " 1 flush 1" ⟹ codes "0 refused 28 BadLine 0"
        ∷ codes "1  flush 1" ⟹ codes "0 refused 28 BadLine 2"
        ∷ codes "1 flush  1" ⟹ codes "0 refused 28 BadLine 8"
        ∷ codes "1 flush 1 " ⟹ codes "0 refused 28 BadLine 10"
        ∷ codes "1 flush 1 1" ⟹ codes "0 refused 28 BadLine 10"
        ∷ codes "1 flush 0" ⟹ codes "0 refused 28 BadLine 8"
        ∷ codes "1 flush 17" ⟹ codes "0 refused 28 BadLine 8"
        ∷ codes "1 flush 16" ⟹ codes "1 refused 10 NoSuchArea"
        ∷ codes "1 reopen 1" ⟹ codes "0 refused 28 BadLine 9"
        ∷ codes "1 extents 1" ⟹ codes "0 refused 28 BadLine 10"
        ∷ codes "1 extents" ⟹ codes "1 refused 23 Ephemeral"
        ∷ []) }
    ensures words_of_opening { IsDialogue worked (opening
        ++ codes "1 open" ⟹ codes "0 refused 28 BadLine 6"
        ∷ codes "1 open " ⟹ codes "0 refused 28 BadLine 7"
        ∷ codes "1 open a b" ⟹ codes "0 refused 28 BadLine 9"
        ∷ codes "1 area 0 960 4" ⟹ codes "0 refused 28 BadLine 7"
        ∷ codes "1 area 65536 960 4" ⟹ codes "0 refused 28 BadLine 7"
        ∷ codes "1 area 65535 960 4" ⟹ codes "1 refused 9 NoSuchStream"
        ∷ codes "1 area 1 4294967296 4" ⟹ codes "0 refused 28 BadLine 9"
        ∷ codes "1 area 1 960 0" ⟹ codes "0 refused 28 BadLine 13"
        ∷ codes "1 area 1 960 17" ⟹ codes "0 refused 28 BadLine 13"
        ∷ codes "1 area 1 960" ⟹ codes "0 refused 28 BadLine 12"
        ∷ codes "1 info 0" ⟹ codes "0 refused 28 BadLine 7"
        ∷ codes "1 info 65535" ⟹ codes "1 refused 9 NoSuchStream"
        ∷ codes "1 info 65536" ⟹ codes "0 refused 28 BadLine 7"
        ∷ []) }
{}

/// Words that are an LSN, data or a number, and words that are none.
pub fn words_of_lines()
    ensures lsns { IsDialogue worked (opening
        ++ codes "1 flushto 1 0:0:0" ⟹ codes "1 flushed 1:0:0"
        ∷ codes "1 flushto 1 ffffffff:fffffe00:1ff" ⟹ codes "1 refused 17 RecordNonexistent ffffffff:fffffe00:1ff"
        ∷ codes "1 flushto 1 100000000:0:0" ⟹ codes "0 refused 28 BadLine 12"
        ∷ codes "1 flushto 1 1:100000000:0" ⟹ codes "0 refused 28 BadLine 12"
        ∷ codes "1 flushto 1 1:100:0" ⟹ codes "0 refused 28 BadLine 12"
        ∷ codes "1 flushto 1 1:201:0" ⟹ codes "0 refused 28 BadLine 12"
        ∷ codes "1 flushto 1 1:0:200" ⟹ codes "0 refused 28 BadLine 12"
        ∷ codes "1 flushto 1 01:0:0" ⟹ codes "0 refused 28 BadLine 12"
        ∷ codes "1 flushto 1 1:00:0" ⟹ codes "0 refused 28 BadLine 12"
        ∷ codes "1 flushto 1 1:0:00" ⟹ codes "0 refused 28 BadLine 12"
        ∷ codes "1 flushto 1 1:A00:0" ⟹ codes "0 refused 28 BadLine 12"
        ∷ codes "1 flushto 1 1:a00:0" ⟹ codes "1 refused 17 RecordNonexistent 1:a00:0"
        ∷ codes "1 flushto 1 1:0" ⟹ codes "0 refused 28 BadLine 12"
        ∷ codes "1 flushto 1 1:0:0:0" ⟹ codes "0 refused 28 BadLine 12"
        ∷ codes "1 flushto 1 1::0" ⟹ codes "0 refused 28 BadLine 12"
        ∷ codes "1 flushto 1 -" ⟹ codes "0 refused 28 BadLine 12"
        ∷ codes "1 flushto 1 " ⟹ codes "0 refused 28 BadLine 12"
        ∷ codes "1 flushto 1" ⟹ codes "0 refused 28 BadLine 11"
        ∷ []) }
    ensures data_of_records { IsDialogue worked (opening
        ++ codes "1 append 1 Ab0F 0:0:0 0:0:0" ⟹ codes "1 lsn 1:0:0"
        ∷ codes "1 read 1 1:0:0 forward" ⟹ codes "1 cursor 1 record 1:0:0 data 0:0:0 0:0:0 0:0:0 ab0f"
        ∷ codes "1 append 1 abc 0:0:0 0:0:0" ⟹ codes "0 refused 28 BadLine 11"
        ∷ codes "1 append 1 a 0:0:0 0:0:0" ⟹ codes "0 refused 28 BadLine 11"
        ∷ codes "1 append 1 0g 0:0:0 0:0:0" ⟹ codes "0 refused 28 BadLine 11"
        ∷ codes "1 append 1 -- 0:0:0 0:0:0" ⟹ codes "0 refused 28 BadLine 11"
        ∷ codes "1 append 1  0:0:0 0:0:0" ⟹ codes "0 refused 28 BadLine 11"
        ∷ codes "1 restart 1 - -" ⟹ codes "1 lsn 1:0:1"
        ∷ []) }
    ensures numbers { IsDialogue worked (opening
        ++ codes "1 release 1 4294967295" ⟹ codes "1 refused 6 ReservationShort 0 4294967295"
        ∷ codes "1 release 1 4294967296" ⟹ codes "0 refused 28 BadLine 12"
        ∷ codes "1 release 1 00" ⟹ codes "0 refused 28 BadLine 12"
        ∷ codes "1 release 1 01" ⟹ codes "0 refused 28 BadLine 12"
        ∷ codes "1 release 1 -1" ⟹ codes "0 refused 28 BadLine 12"
        ∷ codes "1 release 1 a" ⟹ codes "0 refused 28 BadLine 12"
        ∷ codes "1 release 1 0" ⟹ codes "1 held 0"
        ∷ codes "1 reserve 1" ⟹ codes "0 refused 28 BadLine 11"
        ∷ codes "1 align 1 8 8 8 8 8 8 8 8 8 8 8 8 8 8 8 8 8" ⟹ codes "0 refused 28 BadLine 42"
        ∷ codes "1 align 1 8 8 8 8 8 8 8 8 8 8 8 8 8 8 8 8" ⟹ codes "1 sectors 16"
        ∷ codes "1 align 1 8 x" ⟹ codes "0 refused 28 BadLine 12"
        ∷ codes "1 align 1 4294967295" ⟹ codes "1 refused 7 RecordTooLong 4294967295 960"
        ∷ []) }
    ensures modes_and_cursors { IsDialogue worked (opening
        ++ codes "1 read 1 1:0:0" ⟹ codes "0 refused 28 BadLine 14"
        ∷ codes "1 read 1 1:0:0 forwards" ⟹ codes "0 refused 28 BadLine 15"
        ∷ codes "1 read 1 1:0:0 undo undo" ⟹ codes "0 refused 28 BadLine 20"
        ∷ codes "1 next 1 0" ⟹ codes "0 refused 28 BadLine 9"
        ∷ codes "1 next 1 17" ⟹ codes "0 refused 28 BadLine 9"
        ∷ codes "1 prevrestart 1 17" ⟹ codes "0 refused 28 BadLine 16"
        ∷ codes "1 end 1 16" ⟹ codes "1 refused 12 NoSuchCursor"
        ∷ []) }
    ensures settings { IsDialogue worked (opening
        ++ codes "1 policy max x" ⟹ codes "0 refused 28 BadLine 13"
        ∷ codes "1 policy mx 3" ⟹ codes "0 refused 28 BadLine 9"
        ∷ codes "1 policy max" ⟹ codes "0 refused 28 BadLine 12"
        ∷ codes "1 policy auto 3" ⟹ codes "0 refused 28 BadLine 14"
        ∷ codes "1 policy max 65535" ⟹ codes "1 refused 26 PolicyConflict 2 256"
        ∷ codes "1 policy max 65536" ⟹ codes "0 refused 28 BadLine 13"
        ∷ codes "1 policy min 0" ⟹ codes "1 refused 26 PolicyConflict 2 256"
        ∷ codes "1 unpolicy auto 3" ⟹ codes "0 refused 28 BadLine 16"
        ∷ codes "1 unpolicy rate" ⟹ codes "0 refused 28 BadLine 11"
        ∷ codes "1 archive maybe" ⟹ codes "0 refused 28 BadLine 10"
        ∷ codes "1 archive on off" ⟹ codes "0 refused 28 BadLine 13"
        ∷ codes "1 tail -" ⟹ codes "0 refused 28 BadLine 7"
        ∷ codes "1 size 65536" ⟹ codes "0 refused 28 BadLine 7"
        ∷ codes "1 size 65535" ⟹ codes "1 refused 25 ContainerLimit 256"
        ∷ codes "1 advance 1 -" ⟹ codes "0 refused 28 BadLine 12"
        ∷ []) }
{}

/// The options of an append come in one order, each at most once; after `hold` all words are sizes.
pub fn options_of_appends()
    ensures all_in_order { IsDialogue worked (opening
        ++ codes "1 reserve 1 8" ⟹ codes "1 held 1"
        ∷ codes "1 append 1 aa 0:0:0 0:0:0 reserved seal flush hold 8 960" ⟹ codes "1 lsn 1:0:0"
        ∷ codes "1 release 1 3" ⟹ codes "1 held 0"
        ∷ codes "1 flush 1" ⟹ codes "1 flushed 1:200:0"
        ∷ codes "1 append 1 aa 0:0:0 0:0:0 seal flush" ⟹ codes "1 lsn 1:200:0"
        ∷ []) }
    ensures out_of_order { IsDialogue worked (opening
        ++ codes "1 append 1 aa 0:0:0 0:0:0 flush seal" ⟹ codes "0 refused 28 BadLine 32"
        ∷ codes "1 append 1 aa 0:0:0 0:0:0 seal reserved" ⟹ codes "0 refused 28 BadLine 31"
        ∷ codes "1 append 1 aa 0:0:0 0:0:0 flush reserved" ⟹ codes "0 refused 28 BadLine 32"
        ∷ codes "1 append 1 aa 0:0:0 0:0:0 reserved reserved" ⟹ codes "0 refused 28 BadLine 35"
        ∷ codes "1 append 1 aa 0:0:0 0:0:0 flush flush" ⟹ codes "0 refused 28 BadLine 32"
        ∷ codes "1 append 1 aa 0:0:0 0:0:0 sealed" ⟹ codes "0 refused 28 BadLine 26"
        ∷ []) }
    ensures sizes_to_the_end { IsDialogue worked (opening
        ++ codes "1 append 1 aa 0:0:0 0:0:0 hold" ⟹ codes "0 refused 28 BadLine 30"
        ∷ codes "1 append 1 aa 0:0:0 0:0:0 hold 8 flush" ⟹ codes "0 refused 28 BadLine 33"
        ∷ codes "1 append 1 aa 0:0:0 0:0:0 hold 8 8 8 8 8 8 8 8 8 8 8 8 8 8 8 8 8" ⟹ codes "0 refused 28 BadLine 63"
        ∷ codes "1 append 1 aa 0:0:0 0:0:0 hold 8 8 8 8 8 8 8 8 8 8 8 8 8 8 8 8" ⟹ codes "1 refused 5 Full 14 0 17"
        ∷ codes "1 append 1 aa 0:0:0" ⟹ codes "0 refused 28 BadLine 19"
        ∷ []) }
    ensures of_restart_areas { IsDialogue worked (opening
        ++ codes "1 reserve 1 8" ⟹ codes "1 held 1"
        ∷ codes "1 restart 1 aa" ⟹ codes "0 refused 28 BadLine 14"
        ∷ codes "1 restart 1 aa - seal" ⟹ codes "0 refused 28 BadLine 17"
        ∷ codes "1 restart 1 aa - reserved x" ⟹ codes "0 refused 28 BadLine 26"
        ∷ codes "1 restart 1 aa 1:0" ⟹ codes "0 refused 28 BadLine 15"
        ∷ codes "1 restart 1 aa - reserved" ⟹ codes "1 lsn 1:0:0"
        ∷ []) }
{}

/// The lines that are answered where a script passes a limit: those that have their line feed within the most bytes and come before
/// the first line that is too long. A carriage return counts for its line.
pub fn lines_within_limits()
    ensures up_to_a_line_that_is_too_long { accepted (record { bytes = 100; line = 3; lines = 100 }) (codes "abc\nabcd\nab\n") ≡ codes "abc" ∷ [] }
    ensures a_carriage_return_counts { accepted (record { bytes = 100; line = 3; lines = 100 }) (codes "ab\r\nabc\r\nab\n") ≡ codes "ab\r" ∷ [] }
    ensures within_the_most_bytes { accepted (record { bytes = 6; line = 3; lines = 100 }) (codes "ab\ncd\nef\n") ≡ codes "ab" ∷ codes "cd" ∷ [] }
    ensures one_byte_before_a_line_feed { accepted (record { bytes = 5; line = 3; lines = 100 }) (codes "ab\ncd\nef\n") ≡ codes "ab" ∷ [] }
    ensures the_most_lines { accepted (record { bytes = 100; line = 3; lines = 2 }) (codes "ab\ncd\nef\n") ≡ codes "ab" ∷ codes "cd" ∷ [] }
    ensures not_a_last_line_without_its_line_feed { accepted serve_limits (take 40 (codes "1 append 1 - 0:0:0 0:0:0\n1 append 1 - 0:0:0 0:0:0\n"))
        ≡ codes "1 append 1 - 0:0:0 0:0:0" ∷ [] }
    ensures one_byte_more_than_a_line_may_have { accepted serve_limits (codes "1 open a\n" ++ (replicate 131073 97 ++ codes "\n1 open b\n")) ≡ codes "1 open a" ∷ [] }
    ensures a_longest_line_and_a_carriage_return { accepted serve_limits (codes "1 open a\n" ++ (replicate 131072 97 ++ codes "\r\n1 open b\n")) ≡ codes "1 open a" ∷ [] }
    ensures a_longest_line { map length (accepted serve_limits (replicate 131072 97 ++ codes "\nab\n")) ≡ 131072 ∷ 2 ∷ [] }
    ensures ten_thousand_lines { is_within race_limits (replicate 10000 10) ≡ true }
    ensures ten_thousand_lines_and_one { is_within race_limits (replicate 10001 10) ≡ false }
    ensures answered_of_them { length (accepted race_limits (replicate 10001 10)) ≡ 10000 }
    ensures limits_of_serve { serve_limits ≡ record { bytes = 67108864; line = 131072; lines = 67108864 } }
    ensures limits_of_race { race_limits ≡ record { bytes = 1048576; line = 131072; lines = 10000 } }
    ensures within { is_within (record { bytes = 9; line = 3; lines = 3 }) (codes "abc\nab\r\nc") ≡ true }
    ensures too_many_bytes { is_within (record { bytes = 8; line = 3; lines = 3 }) (codes "abc\nab\r\nc") ≡ false }
    ensures too_many_lines { is_within (record { bytes = 9; line = 3; lines = 2 }) (codes "abc\nab\r\nc") ≡ false }
    ensures a_last_line_that_is_too_long { is_within (record { bytes = 9; line = 3; lines = 3 }) (codes "ab\nabcd") ≡ false }
    ensures a_carriage_return_too_many { is_within (record { bytes = 9; line = 3; lines = 3 }) (codes "abc\r\n") ≡ false }
{}

/// Scripts over a log with one stream and one area of client 1, and over one without.
pub fn first_scripts()
    ensures no_area_of_another_client { IsDialogue first (
        codes "2 read 1 1:0:0 forward" ⟹ codes "2 refused 10 NoSuchArea"
        ∷ codes "1 append 1 - 0:0:0 0:0:0" ⟹ codes "1 lsn 1:0:0"
        ∷ []) }
    ensures one_open_block { IsDialogue worked (
        codes "1 open a" ⟹ codes "1 stream 1"
        ∷ codes "1 area 1 960 4" ⟹ codes "1 area 1"
        ∷ codes "1 append 1 aa 0:0:0 0:0:0" ⟹ codes "1 lsn 1:0:0"
        ∷ codes "1 append 1 bb 1:0:0 1:0:0" ⟹ codes "1 lsn 1:0:1"
        ∷ codes "1 info 1" ⟹ codes "1 info containers 2 free 1 size 8 sectors 13 reserved 0 base 0:0:0 last 1:0:1 flushed 1:0:0 restart 0:0:0 archive off"
        ∷ []) }
{}
