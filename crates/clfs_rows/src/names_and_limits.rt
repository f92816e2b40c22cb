// Names of streams, and the limits of streams, areas and cursors.
ghost use Rattle.std.specs.Prelude.{◌≡◌, [], ◌∷◌, ◌++◌, codes, Some};
ghost use Rattle.clfs_model.specs.Refusals.{name_fault};
ghost use Rattle.clfs_model.specs.declared.call.Call.TheVariants as calls;
ghost use Rattle.clfs_model.specs.Conditions.{IsClient, HasArguments};
ghost use Rattle.clfs_rows.specs.Filled.{streams_of};
ghost use Rattle.clfs_rows.specs.Worked.{worked, answers_to, ◌⟹◌, IsDialogue, opening, zeros, append_of_zeros};

/// A name has 1 to 64 bytes, each a letter, a digit, `_`, `-` or `.`; the first wrong byte is told, or the place after the longest
/// name.
pub fn names_of_streams()
    ensures bytes_of_a_name { IsDialogue worked (
        codes "1 open AZ-az_09." ⟹ codes "1 stream 1"
        ∷ codes "1 open a:b" ⟹ codes "1 refused 16 NameInvalid 1"
        ∷ codes "1 open /" ⟹ codes "1 refused 16 NameInvalid 0"
        ∷ codes "1 open a@" ⟹ codes "1 refused 16 NameInvalid 1"
        ∷ codes "1 open ab[" ⟹ codes "1 refused 16 NameInvalid 2"
        ∷ codes "1 open a`b" ⟹ codes "1 refused 16 NameInvalid 1"
        ∷ codes "1 open a{b" ⟹ codes "1 refused 16 NameInvalid 1"
        ∷ codes "1 open a\tb" ⟹ codes "1 refused 16 NameInvalid 1"
        ∷ codes "1 open ab\r\r" ⟹ codes "1 refused 16 NameInvalid 2"
        ∷ codes "1 open ab\r" ⟹ codes "1 stream 2"
        ∷ codes "1 open ab" ⟹ codes "1 stream 2"
        ∷ codes "1 open AB" ⟹ codes "1 stream 3"
        ∷ []) }
    ensures longest_name { IsDialogue worked (
        codes "1 open abcdefghijklmnopqrstuvwxyzABCDEFGHIJKLMNOPQRSTUVWXYZ0123456789_-" ⟹ codes "1 stream 1"
        ∷ codes "1 open abcdefghijklmnopqrstuvwxyzABCDEFGHIJKLMNOPQRSTUVWXYZ0123456789_-." ⟹ codes "1 refused 16 NameInvalid 64"
        ∷ codes "1 open abcdefghijklmnopqrstuvwxyzABCDEFGHIJKLMNOPQRSTUVWXYZ0123456789_-:" ⟹ codes "1 refused 16 NameInvalid 64"
        ∷ codes "1 open abcdefghijklmnopqrstuvwxyzABCDEFGHIJKLMNOPQRSTUVWXYZ0123456789_-....::" ⟹ codes "1 refused 16 NameInvalid 64"
        ∷ codes "1 open abcde:ghijklmnopqrstuvwxyzABCDEFGHIJKLMNOPQRSTUVWXYZ0123456789_-." ⟹ codes "1 refused 16 NameInvalid 5"
        ∷ codes "1 open abcdefghijklmnopqrstuvwxyzABCDEFGHIJKLMNOPQRSTUVWXYZ0123456789_:" ⟹ codes "1 refused 16 NameInvalid 63"
        ∷ codes "1 open abcdefghijklmnopqrstuvwxyz0123456789" ⟹ codes "1 stream 2"
        ∷ []) }
    ensures empty_name { name_fault [] ≡ Some 0 }
    ensures bytes_above_127 { answers_to worked (codes "1 open a" ++ 233 ∷ codes "\n") ≡ codes "1 refused 16 NameInvalid 1\n" }
    ensures opened_before { IsDialogue worked (
        codes "1 open a" ⟹ codes "1 stream 1"
        ∷ codes "2 open b" ⟹ codes "2 stream 2"
        ∷ codes "2 open a" ⟹ codes "2 stream 1"
        ∷ codes "1 open b" ⟹ codes "1 stream 2"
        ∷ codes "1 open c" ⟹ codes "1 stream 3"
        ∷ []) }
{}

/// A log has 192 streams; those that are there can still be opened.
pub fn limit_of_streams()
    ensures the_193rd { IsDialogue (streams_of 192) (
        codes "1 open s192" ⟹ codes "1 stream 192"
        ∷ codes "1 open s1" ⟹ codes "1 stream 1"
        ∷ codes "1 open t" ⟹ codes "1 refused 13 StreamLimit 192"
        ∷ codes "1 open a:b" ⟹ codes "1 refused 16 NameInvalid 1"
        ∷ codes "1 area 192 960 1" ⟹ codes "1 area 1"
        ∷ codes "1 area 193 960 1" ⟹ codes "1 refused 9 NoSuchStream"
        ∷ []) }
    ensures the_192nd { IsDialogue (streams_of 191) (
        codes "1 open t" ⟹ codes "1 stream 192"
        ∷ codes "1 open u" ⟹ codes "1 refused 13 StreamLimit 192"
        ∷ []) }
{}

/// A client has 16 areas, with the least numbers that aren't used. Its refusals come in order: the stream, the largest record, the
/// number of areas.
pub fn limit_of_areas()
    ensures the_seventeenth { IsDialogue worked (opening
        ++ codes "1 area 9 960 4" ⟹ codes "1 refused 9 NoSuchStream"
        ∷ codes "1 flush 5" ⟹ codes "1 refused 10 NoSuchArea"
        ∷ codes "1 area 1 0 1" ⟹ codes "1 area 2"
        ∷ codes "1 area 1 960 1" ⟹ codes "1 area 3"
        ∷ codes "1 area 1 960 1" ⟹ codes "1 area 4"
        ∷ codes "1 area 1 960 1" ⟹ codes "1 area 5"
        ∷ codes "1 area 1 960 1" ⟹ codes "1 area 6"
        ∷ codes "1 area 1 960 1" ⟹ codes "1 area 7"
        ∷ codes "1 area 1 960 1" ⟹ codes "1 area 8"
        ∷ codes "1 area 1 960 1" ⟹ codes "1 area 9"
        ∷ codes "1 area 1 960 1" ⟹ codes "1 area 10"
        ∷ codes "1 area 1 960 1" ⟹ codes "1 area 11"
        ∷ codes "1 area 1 960 1" ⟹ codes "1 area 12"
        ∷ codes "1 area 1 960 1" ⟹ codes "1 area 13"
        ∷ codes "1 area 1 960 1" ⟹ codes "1 area 14"
        ∷ codes "1 area 1 960 1" ⟹ codes "1 area 15"
        ∷ codes "1 area 1 960 16" ⟹ codes "1 area 16"
        ∷ codes "1 area 1 960 1" ⟹ codes "1 refused 14 AreaLimit 16"
        ∷ codes "1 area 1 961 1" ⟹ codes "1 refused 7 RecordTooLong 961 960"
        ∷ codes "1 area 9 961 1" ⟹ codes "1 refused 9 NoSuchStream"
        ∷ codes "2 area 1 960 1" ⟹ codes "2 area 1"
        ∷ codes "1 drop 3" ⟹ codes "1 ok"
        ∷ codes "1 flush 3" ⟹ codes "1 refused 10 NoSuchArea"
        ∷ codes "1 drop 9" ⟹ codes "1 ok"
        ∷ codes "1 area 1 960 1" ⟹ codes "1 area 3"
        ∷ codes "1 area 1 960 1" ⟹ codes "1 area 9"
        ∷ codes "1 area 1 960 1" ⟹ codes "1 refused 14 AreaLimit 16"
        ∷ []) }
    ensures stream_before_largest { IsDialogue worked (opening
        ++ codes "1 area 9 961 4" ⟹ codes "1 refused 9 NoSuchStream"
        ∷ codes "1 area 1 961 4" ⟹ codes "1 refused 7 RecordTooLong 961 960"
        ∷ codes "1 area 1 4294967295 4" ⟹ codes "1 refused 7 RecordTooLong 4294967295 960"
        ∷ codes "1 info 2" ⟹ codes "1 refused 9 NoSuchStream"
        ∷ []) }
    ensures largest_of_the_area { IsDialogue worked (opening
        ++ codes "1 area 1 100 4" ⟹ codes "1 area 2"
        ∷ (codes "1 append 2 " ++ (zeros 101 ++ codes " 0:0:0 0:0:0")) ⟹ codes "1 refused 7 RecordTooLong 101 100"
        ∷ (codes "1 append 2 " ++ (zeros 100 ++ codes " 0:0:0 0:0:0 hold 101")) ⟹ codes "1 refused 7 RecordTooLong 101 100"
        ∷ codes "1 reserve 2 8 101" ⟹ codes "1 refused 7 RecordTooLong 101 100"
        ∷ codes "1 align 2 101" ⟹ codes "1 refused 7 RecordTooLong 101 100"
        ∷ (codes "1 restart 2 " ++ (zeros 101 ++ codes " -")) ⟹ codes "1 refused 7 RecordTooLong 101 100"
        ∷ (codes "1 restart 2 " ++ (zeros 100 ++ codes " -")) ⟹ codes "1 lsn 1:0:0"
        ∷ append_of_zeros 101 [] ⟹ codes "1 lsn 1:200:0"
        ∷ []) }
    ensures of_each_client { IsDialogue worked (opening
        ++ codes "2 flush 1" ⟹ codes "2 refused 10 NoSuchArea"
        ∷ codes "2 area 1 960 1" ⟹ codes "2 area 1"
        ∷ codes "2 flush 1" ⟹ codes "2 flushed 1:0:0"
        ∷ codes "2 drop 1" ⟹ codes "2 ok"
        ∷ codes "2 drop 1" ⟹ codes "2 refused 10 NoSuchArea"
        ∷ codes "1 flush 1" ⟹ codes "1 flushed 1:0:0"
        ∷ []) }
{}

/// An area has as many cursors as it was made for.
pub fn limit_of_cursors()
    ensures one_cursor { IsDialogue worked (opening
        ++ codes "1 area 1 960 1" ⟹ codes "1 area 2"
        ∷ codes "1 append 2 aa 0:0:0 0:0:0" ⟹ codes "1 lsn 1:0:0"
        ∷ codes "1 read 2 1:0:0 forward" ⟹ codes "1 cursor 1 record 1:0:0 data 0:0:0 0:0:0 0:0:0 aa"
        ∷ codes "1 read 2 1:0:0 forward" ⟹ codes "1 refused 15 CursorLimit 1"
        ∷ codes "1 next 2 2" ⟹ codes "1 refused 12 NoSuchCursor"
        ∷ codes "1 read 1 1:0:0 forward" ⟹ codes "1 cursor 1 record 1:0:0 data 0:0:0 0:0:0 0:0:0 aa"
        ∷ []) }
    ensures sixteen_cursors { IsDialogue worked (opening
        ++ codes "1 area 1 960 16" ⟹ codes "1 area 2"
        ∷ codes "1 append 2 aa 0:0:0 0:0:0" ⟹ codes "1 lsn 1:0:0"
        ∷ codes "1 read 2 1:0:0 forward" ⟹ codes "1 cursor 1 record 1:0:0 data 0:0:0 0:0:0 0:0:0 aa"
        ∷ codes "1 read 2 1:0:0 forward" ⟹ codes "1 cursor 2 record 1:0:0 data 0:0:0 0:0:0 0:0:0 aa"
        ∷ codes "1 read 2 1:0:0 forward" ⟹ codes "1 cursor 3 record 1:0:0 data 0:0:0 0:0:0 0:0:0 aa"
        ∷ codes "1 read 2 1:0:0 forward" ⟹ codes "1 cursor 4 record 1:0:0 data 0:0:0 0:0:0 0:0:0 aa"
        ∷ codes "1 read 2 1:0:0 forward" ⟹ codes "1 cursor 5 record 1:0:0 data 0:0:0 0:0:0 0:0:0 aa"
        ∷ codes "1 read 2 1:0:0 forward" ⟹ codes "1 cursor 6 record 1:0:0 data 0:0:0 0:0:0 0:0:0 aa"
        ∷ codes "1 read 2 1:0:0 forward" ⟹ codes "1 cursor 7 record 1:0:0 data 0:0:0 0:0:0 0:0:0 aa"
        ∷ codes "1 read 2 1:0:0 forward" ⟹ codes "1 cursor 8 record 1:0:0 data 0:0:0 0:0:0 0:0:0 aa"
        ∷ codes "1 read 2 1:0:0 forward" ⟹ codes "1 cursor 9 record 1:0:0 data 0:0:0 0:0:0 0:0:0 aa"
        ∷ codes "1 read 2 1:0:0 forward" ⟹ codes "1 cursor 10 record 1:0:0 data 0:0:0 0:0:0 0:0:0 aa"
        ∷ codes "1 read 2 1:0:0 forward" ⟹ codes "1 cursor 11 record 1:0:0 data 0:0:0 0:0:0 0:0:0 aa"
        ∷ codes "1 read 2 1:0:0 forward" ⟹ codes "1 cursor 12 record 1:0:0 data 0:0:0 0:0:0 0:0:0 aa"
        ∷ codes "1 read 2 1:0:0 forward" ⟹ codes "1 cursor 13 record 1:0:0 data 0:0:0 0:0:0 0:0:0 aa"
        ∷ codes "1 read 2 1:0:0 forward" ⟹ codes "1 cursor 14 record 1:0:0 data 0:0:0 0:0:0 0:0:0 aa"
        ∷ codes "1 read 2 1:0:0 forward" ⟹ codes "1 cursor 15 record 1:0:0 data 0:0:0 0:0:0 0:0:0 aa"
        ∷ codes "1 read 2 1:0:0 forward" ⟹ codes "1 cursor 16 record 1:0:0 data 0:0:0 0:0:0 0:0:0 aa"
        ∷ codes "1 read 2 1:0:0 forward" ⟹ codes "1 refused 15 CursorLimit 16"
        ∷ codes "1 end 2 16" ⟹ codes "1 ok"
        ∷ codes "1 read 2 1:0:0 forward" ⟹ codes "1 cursor 16 record 1:0:0 data 0:0:0 0:0:0 0:0:0 aa"
        ∷ []) }
{}

/// What a caller of the library has to give: a client from 1 to 64, and 1 to 16 cursors.
pub fn arguments_of_calls()
    ensures least_client { IsClient 1 }
    ensures greatest_client { IsClient 64 }
    ensures no_client { ¬ IsClient 0 }
    ensures client_65 { ¬ IsClient 65 }
    ensures sixteen_cursors { HasArguments (calls.CreateArea 1 960 16) }
    ensures no_cursor { ¬ HasArguments (calls.CreateArea 1 960 0) }
    ensures seventeen_cursors { ¬ HasArguments (calls.CreateArea 1 960 17) }
{}
