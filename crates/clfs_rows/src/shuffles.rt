// Which journals shuffle the scripts of several clients.
ghost use Rattle.std.specs.Prelude.{[], ◌∷◌, ◌++◌};
ghost use Rattle.clfs_model.specs.declared.call.Call.TheVariants as calls;
ghost use Rattle.clfs_model.specs.Journals.{IsShuffle};
ghost use Rattle.clfs_rows.specs.Interleaved.{script, two_scripts, entry_for};

/// Each client's calls are there in the order of its script, whatever the order between clients.
pub fn journals_that_shuffle()
    ensures interleaved { IsShuffle (entry_for 1 (calls.Flush 1) ∷ entry_for 2 (calls.Info 1) ∷ entry_for 2 calls.ListExtents ∷ entry_for 1
        (calls.DeleteArea 1)
        ∷ entry_for 2 (calls.Info 1) ∷ []) two_scripts }
    ensures interleaved_otherwise { IsShuffle (entry_for 2 (calls.Info 1) ∷ entry_for 1 (calls.Flush 1) ∷ entry_for 1 (calls.DeleteArea 1)
        ∷ entry_for 2 calls.ListExtents
        ∷ entry_for 2 (calls.Info 1) ∷ []) two_scripts }
    ensures one_client_after_the_other { IsShuffle (entry_for 1 (calls.Flush 1) ∷ entry_for 1 (calls.DeleteArea 1) ∷ entry_for 2 (calls.Info 1)
        ∷ entry_for 2 calls.ListExtents
        ∷ entry_for 2 (calls.Info 1) ∷ []) two_scripts }
    ensures a_script_of_no_lines { IsShuffle (entry_for 1 (calls.Flush 1) ∷ []) (script 1 (calls.Flush 1 ∷ []) ∷ script 3 [] ∷ []) }
    ensures no_entries_of_no_lines { IsShuffle [] (script 1 [] ∷ []) }
    ensures no_scripts { IsShuffle [] [] }
{}

/// No call is left out, comes twice or goes before an earlier one, and none is of another client.
pub fn journals_that_do_not_shuffle()
    ensures a_call_left_out { ¬ IsShuffle (entry_for 1 (calls.Flush 1) ∷ entry_for 2 (calls.Info 1) ∷ entry_for 2 calls.ListExtents
        ∷ entry_for 2 (calls.Info 1) ∷ []) two_scripts }
    ensures a_call_of_the_second_client_left_out { ¬ IsShuffle (entry_for 1 (calls.Flush 1) ∷ entry_for 2 (calls.Info 1) ∷ entry_for 2 calls.ListExtents
        ∷ entry_for 1 (calls.DeleteArea 1) ∷ []) two_scripts }
    ensures a_call_twice { ¬ IsShuffle (entry_for 1 (calls.Flush 1) ∷ entry_for 1 (calls.Flush 1) ∷ entry_for 2 (calls.Info 1)
        ∷ entry_for 2 calls.ListExtents
        ∷ entry_for 1 (calls.DeleteArea 1) ∷ entry_for 2 (calls.Info 1) ∷ []) two_scripts }
    ensures calls_out_of_order { ¬ IsShuffle (entry_for 1 (calls.DeleteArea 1) ∷ entry_for 2 (calls.Info 1) ∷ entry_for 2 calls.ListExtents
        ∷ entry_for 1 (calls.Flush 1)
        ∷ entry_for 2 (calls.Info 1) ∷ []) two_scripts }
    ensures a_call_by_the_other_client { ¬ IsShuffle (entry_for 2 (calls.Flush 1) ∷ entry_for 2 (calls.Info 1) ∷ entry_for 2 calls.ListExtents
        ∷ entry_for 1 (calls.DeleteArea 1)
        ∷ entry_for 2 (calls.Info 1) ∷ []) two_scripts }
    ensures a_client_without_a_script { ¬ IsShuffle (entry_for 1 (calls.Flush 1) ∷ entry_for 2 (calls.Info 1) ∷ []) (script 1 (calls.Flush 1 ∷ []) ∷ []) }
    ensures entries_of_scripts_without_lines { ¬ IsShuffle (entry_for 1 (calls.Flush 1) ∷ entry_for 2 (calls.Info 1) ∷ [])
        (script 1 [] ∷ script 2 [] ∷ []) }
    ensures lines_without_entries { ¬ IsShuffle [] two_scripts }
{}
