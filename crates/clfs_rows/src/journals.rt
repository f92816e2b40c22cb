// What a client can tell of its own area from its own entries of a journal alone.
ghost use Rattle.std.specs.Prelude.{◌≡◌, [], ◌∷◌, codes, map, take};
ghost use Rattle.std.specs.List.{range_with_len};
ghost use Rattle.clfs_model.specs.Run.{state_after};
ghost use Rattle.clfs_model.specs.Script.{script_requests};
ghost use Rattle.clfs_model.specs.Journals.{mine, held_by};
ghost use Rattle.clfs_model.specs.declared.reply.Reply.TheVariants as replies;
ghost use Rattle.clfs_rows.specs.OwnEntries.{entry_for_line, entries_of_an_area};
ghost use Rattle.clfs_rows.specs.Worked.{opened_log};

/// The entries of one client, in their order, and none of another.
pub fn entries_of_a_client()
    ensures all_of_them { mine entries_of_an_area 1 ≡ entries_of_an_area }
    ensures none_of_them { mine entries_of_an_area 2 ≡ [] }
    ensures one_of_two { mine (record (entry_for_line 1 (codes "2 flush 1") replies.Done) { client = 2 } ∷ entry_for_line 1 (codes "1 flush 1") replies.Done ∷ []) 1
        ≡ entry_for_line 1 (codes "1 flush 1") replies.Done ∷ [] }
{}

/// What the area holds after each of the client's own entries, beginning with what it holds in the opening state.
pub fn sectors_that_an_area_holds()
    ensures through_entries { map (λ n. held_by opened_log 1 (take n entries_of_an_area) 1) (range_with_len 0 14)
        ≡ 0 ∷ 4 ∷ 6 ∷ 4 ∷ 4 ∷ 4 ∷ 3 ∷ 3 ∷ 3 ∷ 2 ∷ 2 ∷ 0 ∷ 1 ∷ 0 ∷ [] }
    ensures from_the_opening_state { held_by (state_after opened_log (script_requests (codes "1 reserve 1 960\n"))) 1 [] 1 ≡ 2 }
    ensures of_no_area { held_by opened_log 2 [] 1 ≡ 0 }
{}
