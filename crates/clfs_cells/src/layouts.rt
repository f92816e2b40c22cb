// Worked bytes of records, and lines that ask for calls or for nothing. The functions do nothing.
ghost use Rattle.std.specs.Prelude.{◌≡◌, [], ◌∷◌, ◌++◌, codes, replicate, Some, None, Ok, Err};
ghost use Rattle.clfs_cells.specs.declared.asked.TxnCall.TheVariants as asked;
ghost use Rattle.clfs_cells.specs.declared.row.Action.TheVariants.{Set, Compensation, Commit, RolledBack};
ghost use Rattle.clfs_cells.specs.Layout.{txn_bytes, txn_record, txn_record_of, checkpoint_bytes, checkpoint_of};
ghost use Rattle.clfs_cells.specs.Lines.{txn_call_in};

/// The bytes of each kind of record, and bytes that are none.
pub fn bytes_of_records()
    ensures set { txn_bytes (txn_record 1 (Set (record { cell = 31; old = 258; new = 18446744073709551615 })))
        ≡ 1 ∷ 0 ∷ 31 ∷ 0 ∷ 1 ∷ 0 ∷ 0 ∷ 0 ∷ 2 ∷ 1 ∷ 0 ∷ 0 ∷ 0 ∷ 0 ∷ 0 ∷ 0 ∷ replicate 8 255 }
    ensures compensation { txn_bytes (txn_record 4294967295 (Compensation (record { cell = 0; old = 5; new = 0 })))
        ≡ 2 ∷ 0 ∷ 0 ∷ 0 ∷ 255 ∷ 255 ∷ 255 ∷ 255 ∷ 5 ∷ replicate 15 0 }
    ensures commit { txn_bytes (txn_record 7 Commit) ≡ 3 ∷ 0 ∷ 0 ∷ 0 ∷ 7 ∷ replicate 19 0 }
    ensures rolled_back { txn_bytes (txn_record 7 RolledBack) ≡ 4 ∷ 0 ∷ 0 ∷ 0 ∷ 7 ∷ replicate 19 0 }
    ensures short { txn_record_of (3 ∷ 0 ∷ 0 ∷ 0 ∷ 7 ∷ replicate 18 0) ≡ None }
    ensures long { txn_record_of (3 ∷ 0 ∷ 0 ∷ 0 ∷ 7 ∷ replicate 20 0) ≡ None }
    ensures no_tag { txn_record_of (0 ∷ 0 ∷ 0 ∷ 0 ∷ 7 ∷ replicate 19 0) ≡ None }
    ensures fifth_tag { txn_record_of (5 ∷ 0 ∷ 0 ∷ 0 ∷ 7 ∷ replicate 19 0) ≡ None }
    ensures no_zero { txn_record_of (3 ∷ 1 ∷ 0 ∷ 0 ∷ 7 ∷ replicate 19 0) ≡ None }
    ensures no_transaction { txn_record_of (3 ∷ 0 ∷ 0 ∷ 0 ∷ 0 ∷ replicate 19 0) ≡ None }
    ensures no_cell { txn_record_of (1 ∷ 0 ∷ 32 ∷ 0 ∷ 7 ∷ replicate 19 0) ≡ None }
    ensures no_cell_of_two_bytes { txn_record_of (2 ∷ 0 ∷ 0 ∷ 1 ∷ 7 ∷ replicate 19 0) ≡ None }
    ensures end_with_a_cell { txn_record_of (3 ∷ 0 ∷ 1 ∷ 0 ∷ 7 ∷ replicate 19 0) ≡ None }
    ensures end_with_an_old_value { txn_record_of (4 ∷ 0 ∷ 0 ∷ 0 ∷ 7 ∷ 0 ∷ 0 ∷ 0 ∷ 1 ∷ replicate 15 0) ≡ None }
    ensures end_with_a_new_value { txn_record_of (4 ∷ 0 ∷ 0 ∷ 0 ∷ 7 ∷ (replicate 18 0 ++ 1 ∷ [])) ≡ None }
{}

/// The bytes of a restart area, and bytes that are none.
pub fn bytes_of_restart_areas()
    ensures cells { checkpoint_bytes (record { cells = 5 ∷ 256 ∷ replicate 30 0; last = 65537 })
        ≡ 5 ∷ (replicate 8 0 ++ 1 ∷ (replicate 246 0 ++ 1 ∷ 0 ∷ 1 ∷ 0 ∷ [])) }
    ensures read { checkpoint_of (5 ∷ (replicate 8 0 ++ 1 ∷ (replicate 246 0 ++ 1 ∷ 0 ∷ 1 ∷ 0 ∷ [])))
        ≡ Some (record { cells = 5 ∷ 256 ∷ replicate 30 0; last = 65537 }) }
    ensures short { checkpoint_of (replicate 259 0) ≡ None }
    ensures long { checkpoint_of (replicate 261 0) ≡ None }
{}

/// Lines, and where they go wrong.
pub fn lines_of_tables()
    ensures begin { txn_call_in (codes "begin 7") ≡ Ok (asked.Begin 7) }
    ensures set { txn_call_in (codes "set 4294967295 31 18446744073709551615") ≡ Ok (asked.Set 4294967295 31 18446744073709551615) }
    ensures back { txn_call_in (codes "back 1 0") ≡ Ok (asked.Back 1 0) }
    ensures commit { txn_call_in (codes "commit 2") ≡ Ok (asked.Commit 2) }
    ensures rollback { txn_call_in (codes "rollback 3") ≡ Ok (asked.Rollback 3) }
    ensures get { txn_call_in (codes "get 0") ≡ Ok (asked.Get 0) }
    ensures checkpoint { txn_call_in (codes "checkpoint") ≡ Ok asked.Checkpoint }
    ensures empty { txn_call_in [] ≡ Err 0 }
    ensures other_verb { txn_call_in (codes "Begin 1") ≡ Err 0 }
    ensures a_client { txn_call_in (codes "1 begin 1") ≡ Err 0 }
    ensures no_changes { txn_call_in (codes "begin 0") ≡ Err 6 }
    ensures too_many_changes { txn_call_in (codes "begin 8") ≡ Err 6 }
    ensures no_transaction { txn_call_in (codes "commit 0") ≡ Err 7 }
    ensures too_great_a_transaction { txn_call_in (codes "commit 4294967296") ≡ Err 7 }
    ensures no_cell { txn_call_in (codes "set 1 32 0") ≡ Err 6 }
    ensures too_great_a_value { txn_call_in (codes "set 1 0 18446744073709551616") ≡ Err 8 }
    ensures too_many_kept { txn_call_in (codes "back 1 8") ≡ Err 7 }
    ensures a_leading_zero { txn_call_in (codes "get 01") ≡ Err 4 }
    ensures no_word { txn_call_in (codes "get") ≡ Err 3 }
    ensures an_empty_word { txn_call_in (codes "get ") ≡ Err 4 }
    ensures a_word_more { txn_call_in (codes "checkpoint 1") ≡ Err 11 }
    ensures a_word_more_behind_values { txn_call_in (codes "set 1 0 5 6") ≡ Err 10 }
{}
