// Worked scripts, from the text of their lines to the text of their replies. The checker computes them from the definitions
// alone; the functions do nothing.
ghost use Rattle.std.specs.Prelude.{◌≡◌, [], ◌∷◌, codes};
ghost use Rattle.clfs_lines.specs.Taken.{lines_in};
ghost use Rattle.clfs_lines.specs.declared.incomplete.IncompleteLine.TheVariants.{Counts, Dropped};
ghost use Rattle.clfs_operations.specs.Worked.{replies_to, zeros_line};

/// Two appends, reads of a record and of none, and another stream; then cursors up to one too many.
pub fn appends_and_reads()
    ensures lines { replies_to (codes "1 append 1 000102 0:0:0 0:0:0\n1 append 1 - 0:0:0 0:0:0\n1 read 1 1:0:1 forward\n1 read 1 1:0:2 forward\n1 open b\n")
        ≡ codes "1 lsn 1:0:0\n1 lsn 1:0:1\n1 cursor 1 record 1:0:1 data 0:0:0 0:0:0 0:0:0 -\n1 refused 17 RecordNonexistent 1:0:2\n1 stream 2\n" }
    ensures cursors { replies_to (codes "1 append 1 000102 0:0:0 0:0:0\n1 append 1 - 0:0:0 0:0:0\n1 read 1 1:0:1 forward\n1 read 1 1:0:0 forward\n1 read 1 1:0:0 forward\n1 read 1 1:0:0 forward\n1 read 1 1:0:0 forward\n")
        ≡ codes "1 lsn 1:0:0\n1 lsn 1:0:1\n1 cursor 1 record 1:0:1 data 0:0:0 0:0:0 0:0:0 -\n1 cursor 2 record 1:0:0 data 0:0:0 0:0:0 0:0:0 000102\n1 cursor 3 record 1:0:0 data 0:0:0 0:0:0 0:0:0 000102\n1 cursor 4 record 1:0:0 data 0:0:0 0:0:0 0:0:0 000102\n1 refused 15 CursorLimit 4\n" }
{}

/// A record that is one byte too long, and one of the greatest length.
pub fn lengths_of_records()
    ensures too_long { replies_to (zeros_line 961) ≡ codes "1 refused 7 RecordTooLong 961 960\n" }
    ensures longest { replies_to (zeros_line 960) ≡ codes "1 lsn 1:0:0\n" }
{}

/// Where lines end, and where a bad line goes wrong.
pub fn ends_of_lines()
    ensures no_line { replies_to [] ≡ [] }
    ensures no_last_line_feed { replies_to (codes "1 append 1 - 0:0:0 0:0:0") ≡ codes "1 lsn 1:0:0\n" }
    ensures one_carriage_return { replies_to (codes "1 append 1 - 0:0:0 0:0:0\r\n1\r\n") ≡ codes "1 lsn 1:0:0\n0 refused 28 BadLine 1\n" }
    ensures empty_line { replies_to (codes "\n") ≡ codes "0 refused 28 BadLine 0\n" }
    ensures space_at_the_end { replies_to (codes "1 ") ≡ codes "0 refused 28 BadLine 2\n" }
{}

/// Which lines a script has, where bytes after its last line feed count as a line and where they are dropped.
pub fn incomplete_lines()
    ensures counts { lines_in Counts (codes "1 size 25\n1 size 2") ≡ codes "1 size 25" ∷ codes "1 size 2" ∷ [] }
    ensures dropped { lines_in Dropped (codes "1 size 25\n1 size 2") ≡ codes "1 size 25" ∷ [] }
    ensures alone { lines_in Dropped (codes "1 size 2") ≡ [] }
    ensures whole { lines_in Dropped (codes "1 size 25\n1 size 2\n") ≡ codes "1 size 25" ∷ codes "1 size 2" ∷ [] }
    ensures empty_line { lines_in Dropped (codes "\n\r") ≡ [] ∷ [] }
{}

/// Clients and areas that the log hasn't.
pub fn areas()
    ensures client { replies_to (codes "2 read 1 1:0:0 forward\n2 append 1 - 0:0:0 0:0:0\n") ≡ codes "2 refused 10 NoSuchArea\n2 refused 10 NoSuchArea\n" }
    ensures area { replies_to (codes "1 read 2 1:0:0 forward\n1 append 16 - 0:0:0 0:0:0\n") ≡ codes "1 refused 10 NoSuchArea\n1 refused 10 NoSuchArea\n" }
{}

/// Words that are an LSN or data, and words that are none; options, links and modes, another stream, and opening the log again.
pub fn words_of_lines()
    ensures no_record { replies_to (codes "1 read 1 ffffffff:fffffe00:1ff forward\n") ≡ codes "1 refused 17 RecordNonexistent ffffffff:fffffe00:1ff\n" }
    ensures offset { replies_to (codes "1 read 1 1:100:0 forward\n") ≡ codes "0 refused 28 BadLine 9\n" }
    ensures sequence { replies_to (codes "1 read 1 1:0:200 forward\n") ≡ codes "0 refused 28 BadLine 9\n" }
    ensures leading_zero { replies_to (codes "1 read 1 01:0:0 forward\n") ≡ codes "0 refused 28 BadLine 9\n" }
    ensures no_verb { replies_to (codes "12 apend 1 aa\n") ≡ codes "0 refused 28 BadLine 3\n" }
    ensures opening { replies_to (codes "12 open b\n12 reopen\n") ≡ codes "12 stream 2\n12 flushed 1:0:0\n" }
    ensures options { replies_to (codes "1 append 1 - 0:0:0 0:0:0 flush\n1 append 1 - 0:0:0 0:0:0 hold 8\n")
        ≡ codes "1 lsn 1:0:0\n1 lsn 1:200:0\n" }
    ensures links { replies_to (codes "1 append 1 - 0:0:1 0:0:0\n1 append 1 - 0:0:0 0:0:1\n") ≡ codes "1 refused 8 LinkInvalid 0:0:1\n1 refused 8 LinkInvalid 0:0:1\n" }
    ensures modes { replies_to (codes "1 read 1 1:0:0 undo\n1 read 1 1:0:0 previous\n")
        ≡ codes "1 refused 17 RecordNonexistent 1:0:0\n1 refused 17 RecordNonexistent 1:0:0\n" }
    ensures upper_case { replies_to (codes "1 append 1 Ab 0:0:0 0:0:0\n1 read 1 1:0:0 forward\n")
        ≡ codes "1 lsn 1:0:0\n1 cursor 1 record 1:0:0 data 0:0:0 0:0:0 0:0:0 ab\n" }
    ensures odd_digits { replies_to (codes "1 append 1 abc 0:0:0 0:0:0\n") ≡ codes "0 refused 28 BadLine 11\n" }
{}
