// Worked rows, computed from the definitions.
ghost use Rattle.std.specs.Prelude.{◌≡◌, ◌∷◌, [], codes, set, Ok, Err};
ghost use Rattle.clfs_recover.specs.Vector.{one_block, one_record, with_stream};
ghost use Rattle.clfs_recover.specs.declared.refusal.LoadRefusal.TheVariants.{Damaged};
ghost use Rattle.clfs_dump.specs.Lines.{record_line, quoted};
ghost use Rattle.clfs_dump.specs.Telling.{image_told};
ghost use Rattle.clfs_dump.specs.Vector.{all, from, up_to, named, without_data, one_file};
ghost use Rattle.clfs_dump.specs.declared.selection.DataForm.TheVariants.{Hex, Text, Nothing};

/// The line of a record of ten bytes in each form, and data with quotation marks, a backslash and a line feed.
pub fn lines_of_a_small_log()
    ensures hex { record_line Hex one_record ≡ codes "record 1:0:0 1 data 0:0:0 0:0:0 0:0:0 00010203040506070809\n" }
    ensures nothing { record_line Nothing one_record ≡ codes "record 1:0:0 1 data 0:0:0 0:0:0 0:0:0\n" }
    ensures text { quoted (97 ∷ 34 ∷ 92 ∷ 10 ∷ []) ≡ codes "\"a\\\"\\\\\\x0a\"" }
{}

/// What is told of a log with blocks of 2 sectors and containers of 8, of which container 1 is listed and has one block with that record: all of it;
/// by where the records begin, end and are from; and where a byte is wrong, in the block's header, in the record and after it.
pub fn dumps_of_a_small_log()
    ensures all { (image_told all (one_file one_block) 0 (with_stream 0)).text
        ≡ codes "log block 2 container 8 containers 2 files 2 listed 1 streams 1 archive off version 2 slot 0 turn 0\nstream 1 base 0:0:0 a\ncontainer 1 file 1\nblock 1:0:0 sectors 1 records 1 used 64\nrecord 1:0:0 1 data 0:0:0 0:0:0 0:0:0 00010203040506070809\n" }
    ensures end { (image_told all (one_file one_block) 0 (with_stream 0)).found ≡ Ok 4294967808 }
    ensures records { (image_told all (one_file one_block) 0 (with_stream 0)).records ≡ one_record ∷ [] }
    ensures dead { (image_told without_data (one_file one_block) 0 (with_stream 4294967808)).text
        ≡ codes "log block 2 container 8 containers 2 files 2 listed 1 streams 1 archive off version 2 slot 0 turn 0\nstream 1 base 1:200:0 a\ncontainer 1 file 1\nblock 1:0:0 sectors 1 records 1 used 64\nrecord 1:0:0 1 data 0:0:0 0:0:0 0:0:0\n" }
    ensures from { (image_told (from 4294967296) (one_file one_block) 0 (with_stream 0)).text ≡ (image_told all (one_file one_block) 0 (with_stream 0)).text }
    ensures to { (image_told (up_to 4294967296) (one_file one_block) 0 (with_stream 0)).text
        ≡ codes "log block 2 container 8 containers 2 files 2 listed 1 streams 1 archive off version 2 slot 0 turn 0\nstream 1 base 0:0:0 a\ncontainer 1 file 1\n" }
    ensures named { (image_told (named (97 ∷ [])) (one_file one_block) 0 (with_stream 0)).text ≡ (image_told all (one_file one_block) 0 (with_stream 0)).text }
    ensures other { (image_told (named (98 ∷ [])) (one_file one_block) 0 (with_stream 0)).text
        ≡ codes "log block 2 container 8 containers 2 files 2 listed 1 streams 1 archive off version 2 slot 0 turn 0\nstream 1 base 0:0:0 a\ncontainer 1 file 1\nblock 1:0:0 sectors 1 records 1 used 64\n" }
    ensures version { (image_told all (one_file (set one_block 1 2)) 0 (with_stream 0)).text
        ≡ codes "log block 2 container 8 containers 2 files 2 listed 1 streams 1 archive off version 2 slot 0 turn 0\nstream 1 base 0:0:0 a\ncontainer 1 file 1\n" }
    ensures version_place { (image_told all (one_file (set one_block 1 2)) 0 (with_stream 0)).found ≡ Err (Damaged 1 0 1) }
    ensures second { (image_told without_data (one_file (set one_block 4 2)) 0 (with_stream 0)).text
        ≡ codes "log block 2 container 8 containers 2 files 2 listed 1 streams 1 archive off version 2 slot 0 turn 0\nstream 1 base 0:0:0 a\ncontainer 1 file 1\nblock 1:0:0 sectors 1 records 2 used 64\nrecord 1:0:0 1 data 0:0:0 0:0:0 0:0:0\n" }
    ensures second_place { (image_told without_data (one_file (set one_block 4 2)) 0 (with_stream 0)).found ≡ Err (Damaged 1 0 64) }
    ensures behind { (image_told all (one_file (set one_block 64 1)) 0 (with_stream 0)).found ≡ Err (Damaged 1 0 64) }
{}
