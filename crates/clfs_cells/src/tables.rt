// Worked tables of logs, and what is loaded from logs that somebody else wrote. The functions do nothing.
ghost use Rattle.std.specs.Prelude.{◌≡◌, [], ◌∷◌, ◌++◌, codes, Some};
ghost use Rattle.clfs_model.specs.declared.refusal.Refusal.TheVariants as log_refusals;
ghost use Rattle.clfs_cells.specs.declared.row.Action.TheVariants.{Set, Compensation, Commit, RolledBack};
ghost use Rattle.clfs_cells.specs.declared.told.TxnLoadRefusal.TheVariants.{Log, NotATable};
ghost use Rattle.clfs_cells.specs.Table.{table};
ghost use Rattle.clfs_cells.specs.Worked.{worked_log, small_log, log_of_one, dedicated_log, made_by, ◌⟹◌, IsDialogue, IsNotLoaded, LastIs, store_after, next_day, cells_in, table_and_open, cells_of, append_line, record_line, restart_line, checkpoint_line, foreign_log, first_day, one_of_two, three_sets};

/// A log's table has what was committed, and nothing else, whatever reached the disk. A store's cells have what its open transactions did besides.
pub fn committed_cells()
    ensures none { table worked_log ≡ cells_of [] }
    ensures one { table (next_day worked_log first_day) ≡ cells_of (5 ∷ []) }
    ensures one_of_two { table (next_day worked_log one_of_two) ≡ cells_of (5 ∷ []) }
    ensures open_ones { cells_in (store_after worked_log one_of_two) ≡ Some (cells_of (5 ∷ 3 ∷ [])) }
    ensures with_open_ones { table_and_open (store_after worked_log one_of_two) ≡ Some (cells_of (5 ∷ 3 ∷ [])) }
    ensures taken_back { table_and_open (store_after worked_log (three_sets ++ codes "back 1 2" ⟹ codes "ok" ∷ [])) ≡ Some (cells_of (6 ∷ [])) }
    ensures rolled_back_and_flushed { table (next_day worked_log (
        codes "begin 1" ⟹ codes "txn 1"
        ∷ codes "set 1 0 9" ⟹ codes "ok"
        ∷ codes "rollback 1" ⟹ codes "ok"
        ∷ codes "begin 1" ⟹ codes "txn 2"
        ∷ codes "set 2 1 4" ⟹ codes "ok"
        ∷ codes "commit 2" ⟹ codes "ok"
        ∷ [])) ≡ cells_of (0 ∷ 4 ∷ []) }
    ensures above_a_checkpoint { table (next_day worked_log (first_day
        ++ codes "checkpoint" ⟹ codes "ok"
        ∷ codes "begin 1" ⟹ codes "txn 3"
        ∷ codes "set 3 2 8" ⟹ codes "ok"
        ∷ codes "commit 3" ⟹ codes "ok"
        ∷ [])) ≡ cells_of (5 ∷ 0 ∷ 8 ∷ []) }
{}

/// Records of the layout are a table's whoever wrote them: those below the newest restart area count for nothing, and of those above it the ones whose
/// transaction has a commit there, in their order.
pub fn tables_of_others()
    ensures { IsDialogue (foreign_log (append_line (170 ∷ []) (codes " flush") ++ (record_line 40 Commit ++ (checkpoint_line 0 0 ++ (record_line 1 Commit
        ++ (record_line 1 (Set (record { cell = 0; old = 0; new = 5 })) ++ (record_line 1 (Compensation (record { cell = 1; old = 7; new = 6 }))
        ++ (record_line 9 (Set (record { cell = 2; old = 7; new = 6 })) ++ record_line 9 RolledBack)))))))) (
        codes "get 0" ⟹ codes "value 5"
        ∷ codes "get 1" ⟹ codes "value 6"
        ∷ codes "get 2" ⟹ codes "value 0"
        ∷ codes "begin 1" ⟹ codes "txn 10"
        ∷ []) }
{}

/// What is loaded is said of the log alone: the table, and the greatest number of a transaction in the newest restart area and above it, whatever the
/// record says.
pub fn what_is_loaded()
    ensures new { LastIs worked_log 0 }
    ensures committed { LastIs (next_day worked_log first_day) 1 }
    ensures open_ones { LastIs (next_day worked_log one_of_two) 2 }
    ensures by_a_compensation { LastIs (foreign_log (checkpoint_line 7 3 ++ (record_line 1 Commit
        ++ record_line 9 (Compensation (record { cell = 1; old = 7; new = 6 }))))) 9 }
    ensures below_a_restart_area { LastIs (foreign_log (record_line 40 Commit ++ checkpoint_line 7 3)) 3 }
{}

/// Streams that are no table: without a restart area the last record is told; else the restart area, or the first record above it of another layout.
pub fn streams_of_others()
    ensures no_restart_area { IsNotLoaded (foreign_log (record_line 1 (Set (record { cell = 0; old = 0; new = 5 })) ++ record_line 1 Commit))
        (NotATable 4294967808) }
    ensures another_restart_area { IsNotLoaded (foreign_log (restart_line (170 ∷ []) ++ append_line (170 ∷ []) (codes " flush"))) (NotATable 4294967296) }
    ensures no_such_cell { IsNotLoaded (foreign_log (checkpoint_line 0 0 ++ (record_line 1 Commit
        ++ (record_line 1 (Set (record { cell = 32; old = 0; new = 5 })) ++ append_line (170 ∷ []) (codes " flush"))))) (NotATable 4294968320) }
{}

/// What the log refuses while a table is loaded.
pub fn refusals_of_the_log()
    ensures another_stream { IsNotLoaded (made_by dedicated_log (codes "2 open other\n")) (Log log_refusals.Dedicated) }
    ensures one_container { IsNotLoaded log_of_one (Log (log_refusals.NotEnoughContainers 1)) }
    ensures no_room { IsNotLoaded (made_by small_log (codes "2 open other\n2 area 1 300 4\n2 append 1 00 0:0:0 0:0:0 seal\n2 append 1 00 0:0:0 0:0:0 seal\n2 append 1 00 0:0:0 0:0:0 seal\n2 append 1 00 0:0:0 0:0:0 seal\n2 append 1 00 0:0:0 0:0:0 seal\n2 append 1 00 0:0:0 0:0:0 seal\n2 append 1 00 0:0:0 0:0:0 seal\n2 append 1 00 0:0:0 0:0:0 flush\n2 drop 1\n"))
        (Log (log_refusals.Full 0 0 1)) }
{}
