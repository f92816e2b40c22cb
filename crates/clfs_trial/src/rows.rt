// Worked lines, computed from the definition of them. The functions do nothing.
ghost use Rattle.std.specs.Prelude.{◌≡◌, [], ◌∷◌, codes, Some, None};
ghost use Rattle.clfs_trial.specs.Generated.{draw, line_at, generated};
ghost use Rattle.clfs_trial.specs.Worked.{first_drawn_line};

/// The trial of the number 1: its first two draws, its opening lines and the first line after them.
pub fn trial_of_one()
    ensures first_draw { draw 1 1 ≡ 908834774 }
    ensures second_draw { draw 1 2 ≡ 1093944153 }
    ensures opening { generated 1 8 [] ≡ codes "1 open s1" ∷ codes "1 area 1 400 2" ∷ codes "2 open s2" ∷ codes "2 area 2 400 2"
        ∷ codes "3 open s3" ∷ codes "3 area 3 400 2" ∷ codes "4 open s4" ∷ codes "4 area 4 400 2" ∷ [] }
    ensures first_line { first_drawn_line 1
        ≡ codes "3 append 1 59595959595959595959595959595959595959595959595959595959595959595959595959595959595959595959595959595959595959595959595959595959595959595959595959595959595959595959595959595959 0:0:0 0:0:0" }
{}

/// Appends: of no bytes, of one byte, and of several, with digits and with letters, for each of the ten draws that append.
pub fn appends()
    ensures no_bytes { first_drawn_line 3326 ≡ codes "4 append 1 - 0:0:0 0:0:0" }
    ensures one_byte { first_drawn_line 7345 ≡ codes "1 append 1 20 0:0:0 0:0:0" }
    ensures two_letters_and_digits { first_drawn_line 2177 ≡ codes "4 append 1 e0e0 0:0:0 0:0:0" }
    ensures draw_one { first_drawn_line 2370 ≡ codes "3 append 1 f1f1 0:0:0 0:0:0" }
    ensures draw_two { first_drawn_line 2004 ≡ codes "2 append 1 222222 0:0:0 0:0:0" }
    ensures draw_three { first_drawn_line 1638 ≡ codes "4 append 1 535353 0:0:0 0:0:0" }
    ensures draw_four { first_drawn_line 5850 ≡ codes "4 append 1 141414 0:0:0 0:0:0" }
    ensures draw_five { first_drawn_line 1831 ≡ codes "3 append 1 656565 0:0:0 0:0:0" }
    ensures draw_six { first_drawn_line 2055 ≡ codes "1 append 1 464646 0:0:0 0:0:0" }
    ensures draw_seven { first_drawn_line 2838 ≡ codes "3 append 1 07 0:0:0 0:0:0" }
    ensures draw_eight { first_drawn_line 1882 ≡ codes "2 append 1 888888 0:0:0 0:0:0" }
    ensures draw_nine { first_drawn_line 2665 ≡ codes "1 append 1 4949 0:0:0 0:0:0" }
{}

/// The other lines that name no LSN.
pub fn calls_without_an_lsn()
    ensures one_reserve { first_drawn_line 2 ≡ codes "1 reserve 1 133" }
    ensures another_reserve { first_drawn_line 18 ≡ codes "4 reserve 1 355" }
    ensures a_third_reserve { first_drawn_line 34 ≡ codes "2 reserve 1 259" }
    ensures one_release { first_drawn_line 3 ≡ codes "4 release 1 1" }
    ensures another_release { first_drawn_line 19 ≡ codes "2 release 1 1" }
    ensures a_third_release { first_drawn_line 35 ≡ codes "1 release 1 1" }
    ensures one_flush { first_drawn_line 4 ≡ codes "3 flush 1" }
    ensures another_flush { first_drawn_line 20 ≡ codes "1 flush 1" }
    ensures a_third_flush { first_drawn_line 36 ≡ codes "3 flush 1" }
    ensures one_restart { first_drawn_line 5 ≡ codes "1 restart 1 - -" }
    ensures another_restart { first_drawn_line 21 ≡ codes "4 restart 1 - -" }
    ensures a_third_restart { first_drawn_line 37 ≡ codes "2 restart 1 - -" }
    ensures one_info { first_drawn_line 6 ≡ codes "4 info 4" }
    ensures another_info { first_drawn_line 22 ≡ codes "2 info 2" }
    ensures a_third_info { first_drawn_line 38 ≡ codes "1 info 1" }
    ensures greatest_number { first_drawn_line 4294967295 ≡ codes "4 flush 1" }
{}

/// An advance goes to the LSN that its client was told last, or to null. The first drawn line of the trial of 7 is client 3's, and of those
/// that follow the fourth, the seventh and the tenth are client 1's.
pub fn advances()
    ensures one_advance { first_drawn_line 7 ≡ codes "3 advance 1 0:0:0" }
    ensures another_advance { first_drawn_line 23 ≡ codes "1 advance 1 0:0:0" }
    ensures a_third_advance { first_drawn_line 39 ≡ codes "3 advance 1 0:0:0" }
    ensures told_at_first { line_at 7 8 (None ∷ None ∷ None ∷ None ∷ Some 4294967808 ∷ None ∷ Some 4294968320 ∷ None ∷ []) ≡ codes "3 advance 1 1:200:0" }
    ensures told_twice { line_at 7 8 (None ∷ None ∷ None ∷ None ∷ Some 4294967808 ∷ Some 4294967297 ∷ None ∷ None ∷ []) ≡ codes "3 advance 1 1:0:1" }
    ensures told_last { line_at 7 17 (None ∷ None ∷ None ∷ None ∷ None ∷ None ∷ None ∷ None ∷ None ∷ Some 4294967296 ∷ Some 4294967297 ∷ Some 4294967298
        ∷ Some 4294967299 ∷ Some 4294967300 ∷ Some 4294967301 ∷ Some 4294967302 ∷ Some 4294968832 ∷ []) ≡ codes "1 advance 1 1:0:5" }
    ensures told_none_since { line_at 7 17 (None ∷ None ∷ None ∷ None ∷ None ∷ None ∷ None ∷ None ∷ None ∷ Some 4294967296 ∷ Some 4294967297 ∷ Some 4294967298
        ∷ Some 4294967299 ∷ Some 4294967300 ∷ None ∷ Some 4294967302 ∷ Some 4294968832 ∷ []) ≡ codes "1 advance 1 1:0:2" }
{}
