// Worked dialogues with a table, computed from the definitions alone. The functions do nothing. What is expected was worked out by hand from the
// rules of a table.
ghost use Rattle.std.specs.Prelude.{◌≡◌, [], ◌∷◌, ◌++◌, codes, Some};
ghost use Rattle.clfs_model.specs.declared.refusal.Refusal.TheVariants.{NoMemory};
ghost use Rattle.clfs_cells.specs.declared.asked.TxnCall.TheVariants as asked;
ghost use Rattle.clfs_cells.specs.declared.told.TxnRefusal.TheVariants.{Log};
ghost use Rattle.clfs_cells.specs.declared.told.TxnReply.TheVariants.{Refused};
ghost use Rattle.clfs_cells.specs.Worked.{worked_log, small_log, ◌⟹◌, IsDialogue, Answers, IsSeen, loaded, store_after, next_day, broken_store, store_without_memory, reply_without_memory, foreign_log, checkpoint_line, first_day, one_of_two, three_sets};

/// A first talk, and the next one after the log was closed: a transaction of which nothing was flushed has left no number.
pub fn two_days()
    ensures first { IsDialogue worked_log first_day }
    ensures second { IsDialogue (next_day worked_log first_day) (
        codes "get 0" ⟹ codes "value 5"
        ∷ codes "begin 1" ⟹ codes "txn 2"
        ∷ codes "begin 1" ⟹ codes "txn 3"
        ∷ codes "set 2 3 1" ⟹ codes "ok"
        ∷ codes "set 3 3 1" ⟹ codes "refused 32 CellHeld 2"
        ∷ codes "set 2 4 1" ⟹ codes "refused 33 ChangesSpent 1"
        ∷ codes "back 2 2" ⟹ codes "refused 34 KeptTooMany 1"
        ∷ codes "checkpoint" ⟹ codes "refused 35 TxnsOpen 2"
        ∷ codes "commit 9" ⟹ codes "refused 30 NoSuchTxn"
        ∷ []) }

    // Each record has the transaction's record before it as its previous link. A set's undo-next link is the newest set that stands, and a
    // compensation's that of the set that it takes back.
    ensures records { IsSeen (next_day worked_log first_day) (
        codes "1 open txn" ⟹ codes "1 stream 1"
        ∷ codes "1 area 1 260 4" ⟹ codes "1 area 1"
        ∷ codes "1 read 1 1:200:3 previous" ⟹ codes "1 cursor 1 record 1:200:3 data 1:200:2 0:0:0 0:0:0 030000000100000000000000000000000000000000000000"
        ∷ codes "1 next 1 1" ⟹ codes "1 record 1:200:2 data 1:200:1 1:200:0 0:0:0 020000000100000007000000000000000500000000000000"
        ∷ codes "1 next 1 1" ⟹ codes "1 record 1:200:1 data 1:200:0 1:200:0 0:0:0 010000000100000005000000000000000700000000000000"
        ∷ codes "1 next 1 1" ⟹ codes "1 record 1:200:0 data 0:0:0 0:0:0 0:0:0 010000000100000000000000000000000500000000000000"
        ∷ codes "1 next 1 1" ⟹ codes "1 refused 19 StartOfLog"
        ∷ codes "1 info 1" ⟹ codes "1 info containers 4 free 3 size 16 sectors 62 reserved 0 base 0:0:0 last 1:200:3 flushed 1:400:0 restart 1:0:0 archive off"
        ∷ []) }
{}

/// Sets that were taken back count among those for which a transaction was begun, and hold their cells; taking back goes on with those below it.
pub fn sets_that_were_taken_back()
    ensures they_count { IsDialogue worked_log (
        codes "begin 3" ⟹ codes "txn 1"
        ∷ codes "set 1 0 5" ⟹ codes "ok"
        ∷ codes "set 1 1 6" ⟹ codes "ok"
        ∷ codes "set 1 0 7" ⟹ codes "ok"
        ∷ codes "back 1 1" ⟹ codes "ok"
        ∷ codes "set 1 1 8" ⟹ codes "refused 33 ChangesSpent 3"
        ∷ codes "get 0" ⟹ codes "value 5"
        ∷ codes "get 1" ⟹ codes "value 0"
        ∷ codes "back 1 2" ⟹ codes "refused 34 KeptTooMany 1"
        ∷ codes "commit 1" ⟹ codes "ok"
        ∷ []) }
    ensures they_hold { IsDialogue worked_log (
        codes "begin 3" ⟹ codes "txn 1"
        ∷ codes "set 1 0 9" ⟹ codes "ok"
        ∷ codes "back 1 0" ⟹ codes "ok"
        ∷ codes "begin 1" ⟹ codes "txn 2"
        ∷ codes "set 2 0 1" ⟹ codes "refused 32 CellHeld 1"
        ∷ codes "set 2 2 4" ⟹ codes "ok"
        ∷ codes "commit 2" ⟹ codes "ok"
        ∷ codes "rollback 1" ⟹ codes "ok"
        ∷ codes "get 0" ⟹ codes "value 0"
        ∷ codes "get 2" ⟹ codes "value 4"
        ∷ []) }
    ensures in_parts { IsDialogue worked_log (three_sets
        ++ codes "back 1 2" ⟹ codes "ok"
        ∷ codes "get 0" ⟹ codes "value 6"
        ∷ codes "back 1 2" ⟹ codes "ok"
        ∷ codes "get 0" ⟹ codes "value 6"
        ∷ codes "back 1 0" ⟹ codes "ok"
        ∷ codes "get 0" ⟹ codes "value 0"
        ∷ codes "rollback 1" ⟹ codes "ok"
        ∷ []) }
    ensures a_set_behind_them { IsDialogue worked_log (
        codes "begin 3" ⟹ codes "txn 1"
        ∷ codes "set 1 0 5" ⟹ codes "ok"
        ∷ codes "set 1 0 7" ⟹ codes "ok"
        ∷ codes "back 1 1" ⟹ codes "ok"
        ∷ codes "set 1 0 8" ⟹ codes "ok"
        ∷ codes "back 1 1" ⟹ codes "ok"
        ∷ codes "get 0" ⟹ codes "value 5"
        ∷ codes "back 1 0" ⟹ codes "ok"
        ∷ codes "get 0" ⟹ codes "value 0"
        ∷ codes "commit 1" ⟹ codes "ok"
        ∷ []) }
{}

/// Out of memory while sets are taken back leaves those taken back that were so far, and the call may be made again.
pub fn want_of_memory()
    ensures refused { reply_without_memory 3 (store_after worked_log three_sets) (asked.Back 1 0) ≡ Some (Refused (Log NoMemory)) }
    ensures half_way { Answers (store_without_memory 3 (store_after worked_log three_sets) (asked.Back 1 0)) (
        codes "get 0" ⟹ codes "value 6"
        ∷ codes "back 1 3" ⟹ codes "refused 34 KeptTooMany 2"
        ∷ codes "back 1 0" ⟹ codes "ok"
        ∷ codes "get 0" ⟹ codes "value 0"
        ∷ codes "commit 1" ⟹ codes "ok"
        ∷ []) }
    ensures in_a_rollback { Answers (store_without_memory 7 (store_after worked_log three_sets) (asked.Rollback 1)) (
        codes "get 0" ⟹ codes "value 0"
        ∷ codes "rollback 1" ⟹ codes "ok"
        ∷ codes "rollback 1" ⟹ codes "refused 30 NoSuchTxn"
        ∷ []) }
    ensures in_a_commit { Answers (store_without_memory 0 (store_after worked_log three_sets) (asked.Commit 1)) (
        codes "get 0" ⟹ codes "value 7"
        ∷ codes "commit 1" ⟹ codes "ok"
        ∷ []) }
{}

/// A number that reached the disk isn't given again, and the last one is the greatest of all.
pub fn numbers_of_transactions()
    ensures flushed { IsDialogue (next_day worked_log one_of_two) (
        codes "get 0" ⟹ codes "value 5"
        ∷ codes "get 1" ⟹ codes "value 0"
        ∷ codes "begin 1" ⟹ codes "txn 3"
        ∷ []) }
    ensures at_a_time { IsDialogue worked_log (
        codes "begin 1" ⟹ codes "txn 1"
        ∷ codes "begin 1" ⟹ codes "txn 2"
        ∷ codes "begin 1" ⟹ codes "txn 3"
        ∷ codes "begin 1" ⟹ codes "txn 4"
        ∷ codes "begin 1" ⟹ codes "txn 5"
        ∷ codes "begin 1" ⟹ codes "txn 6"
        ∷ codes "begin 1" ⟹ codes "txn 7"
        ∷ codes "begin 1" ⟹ codes "txn 8"
        ∷ codes "begin 1" ⟹ codes "refused 31 TxnLimit 8"
        ∷ codes "rollback 3" ⟹ codes "ok"
        ∷ codes "begin 1" ⟹ codes "txn 9"
        ∷ codes "set 3 0 0" ⟹ codes "refused 30 NoSuchTxn"
        ∷ codes "back 3 0" ⟹ codes "refused 30 NoSuchTxn"
        ∷ codes "rollback 3" ⟹ codes "refused 30 NoSuchTxn"
        ∷ []) }
    ensures spent { IsDialogue (foreign_log (checkpoint_line 7 4294967293)) (
        codes "begin 1" ⟹ codes "txn 4294967294"
        ∷ codes "begin 1" ⟹ codes "txn 4294967295"
        ∷ codes "begin 1" ⟹ codes "refused 36 IdsSpent"
        ∷ codes "get 31" ⟹ codes "value 7"
        ∷ []) }
{}

/// A transaction's beginning reserves all its records, so nothing that it does is refused for want of room, and the rest is free after its end.
pub fn room_for_transactions()
    ensures all_is_used { IsDialogue small_log (
        codes "begin 2" ⟹ codes "txn 1"
        ∷ codes "begin 1" ⟹ codes "refused 5 Full 7 5 3"
        ∷ codes "set 1 0 1" ⟹ codes "ok"
        ∷ codes "set 1 1 2" ⟹ codes "ok"
        ∷ codes "back 1 0" ⟹ codes "ok"
        ∷ codes "commit 1" ⟹ codes "ok"
        ∷ codes "begin 1" ⟹ codes "txn 2"
        ∷ codes "set 2 0 3" ⟹ codes "ok"
        ∷ codes "commit 2" ⟹ codes "ok"
        ∷ []) }
    ensures none_is_held { IsSeen (next_day small_log one_of_two) (
        codes "1 open txn" ⟹ codes "1 stream 1"
        ∷ codes "1 info 1" ⟹ codes "1 info containers 2 free 1 size 4 sectors 6 reserved 0 base 0:0:0 last 1:200:2 flushed 1:400:0 restart 1:0:0 archive off"
        ∷ []) }
{}

/// A checkpoint moves the base to its own restart area. It is refused while a transaction is open, and where it has no room; the table loses nothing.
pub fn checkpoints()
    ensures base { IsSeen (next_day worked_log (first_day ++ codes "checkpoint" ⟹ codes "ok" ∷ [])) (
        codes "1 open txn" ⟹ codes "1 stream 1"
        ∷ codes "1 info 1" ⟹ codes "1 info containers 4 free 3 size 16 sectors 61 reserved 0 base 1:400:3 last 1:400:3 flushed 1:600:0 restart 1:400:3 archive off"
        ∷ []) }
    ensures kept { IsDialogue (next_day worked_log (first_day ++ codes "checkpoint" ⟹ codes "ok" ∷ [])) (
        codes "get 0" ⟹ codes "value 5"
        ∷ codes "begin 1" ⟹ codes "txn 3"
        ∷ []) }
{}

/// What is refused first: a broken log before all else, a transaction that isn't there before the rest, a limit before the last number, and a cell
/// that is held before the number of changes. A broken log's cells are told.
pub fn order_of_refusals()
    ensures broken { Answers (broken_store (store_after worked_log one_of_two)) (
        codes "begin 1" ⟹ codes "refused 3 Broken"
        ∷ codes "set 9 0 0" ⟹ codes "refused 3 Broken"
        ∷ codes "back 2 7" ⟹ codes "refused 3 Broken"
        ∷ codes "commit 2" ⟹ codes "refused 3 Broken"
        ∷ codes "rollback 2" ⟹ codes "refused 3 Broken"
        ∷ codes "checkpoint" ⟹ codes "refused 3 Broken"
        ∷ codes "get 1" ⟹ codes "value 3"
        ∷ []) }
    ensures limit_before_number { IsDialogue (foreign_log (checkpoint_line 0 4294967287)) (
        codes "begin 1" ⟹ codes "txn 4294967288"
        ∷ codes "begin 1" ⟹ codes "txn 4294967289"
        ∷ codes "begin 1" ⟹ codes "txn 4294967290"
        ∷ codes "begin 1" ⟹ codes "txn 4294967291"
        ∷ codes "begin 1" ⟹ codes "txn 4294967292"
        ∷ codes "begin 1" ⟹ codes "txn 4294967293"
        ∷ codes "begin 1" ⟹ codes "txn 4294967294"
        ∷ codes "begin 1" ⟹ codes "txn 4294967295"
        ∷ codes "begin 1" ⟹ codes "refused 31 TxnLimit 8"
        ∷ codes "commit 4294967290" ⟹ codes "ok"
        ∷ codes "begin 1" ⟹ codes "refused 36 IdsSpent"
        ∷ []) }
    ensures cell_before_changes { Answers (store_after worked_log three_sets) (
        codes "begin 1" ⟹ codes "txn 2"
        ∷ codes "set 2 1 1" ⟹ codes "ok"
        ∷ codes "set 2 0 1" ⟹ codes "refused 32 CellHeld 1"
        ∷ codes "set 2 1 1" ⟹ codes "refused 33 ChangesSpent 1"
        ∷ []) }
{}
