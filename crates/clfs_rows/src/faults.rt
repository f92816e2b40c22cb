// What a fault of the disk leaves: a log that answers nothing else until it is opened again, and then has what was flushed.
ghost use Rattle.std.specs.Prelude.{◌≡◌, ℕ, [], ◌∷◌, Bool, true, false, Some, codes};
ghost use Rattle.std.specs.List.{list_all, list_any};
ghost use Rattle.clfs_model.specs.declared.call.Call.{Call};
ghost use Rattle.clfs_model.specs.declared.refusal.Refusal.{Refusal};
ghost use Rattle.clfs_model.specs.declared.refusal.Refusal.TheVariants as refusals;
ghost use Rattle.clfs_model.specs.declared.reply.Happened.{Happened};
ghost use Rattle.clfs_model.specs.declared.reply.Happened.TheVariants.{Fine, Fault, Damage};
ghost use Rattle.clfs_model.specs.declared.reply.Reply.{Reply};
ghost use Rattle.clfs_model.specs.declared.reply.Reply.TheVariants as replies;
ghost use Rattle.clfs_model.specs.declared.state.State.{State};
ghost use Rattle.clfs_model.specs.Flush.{cut};
ghost use Rattle.clfs_model.specs.Refusals.{refusal};
ghost use Rattle.clfs_model.specs.Step.{Step, calls_disk, with_broken};
ghost use Rattle.clfs_model.specs.Run.{Run};
ghost use Rattle.clfs_model.specs.Script.{script_requests};
ghost use Rattle.clfs_model.specs.Text.{output_of, reply_line};
ghost use Rattle.clfs_rows.specs.Worked.{◌⟹◌, IsDialogue, opened_log, flushed_log};
ghost use Rattle.clfs_rows.specs.Reach.{line_takes_memory};

/// A fault in an append that flushes leaves the log broken, and so does damage in a read. Opened again, it has what was flushed
/// before. No fault comes of a call that is refused or that makes no call on the disk.
pub fn what_a_fault_leaves()
    ensures fault_then_broken { Run true opened_log (script_requests (codes "1 append 1 aa 0:0:0 0:0:0 flush\n1 flush 1\n1 reopen\n"))
        (Fault ∷ Fine ∷ Fine ∷ [])
        (replies.Refused refusals.DiskFault ∷ replies.Refused refusals.Broken ∷ replies.Refused refusals.Broken ∷ [])
        (with_broken opened_log) }
    ensures damage_then_broken { Run true flushed_log (script_requests (codes "1 read 1 1:0:0 forward\n1 flush 1\n"))
        (Damage ∷ Fine ∷ [])
        (replies.Refused (refusals.Damaged 1 0 1016) ∷ replies.Refused refusals.Broken ∷ [])
        (with_broken flushed_log) }
    ensures opened_again { IsDialogue (cut (with_broken opened_log)) (
        codes "1 info 1" ⟹ codes "1 info containers 2 free 1 size 8 sectors 14 reserved 0 base 0:0:0 last 0:0:0 flushed 1:0:0 restart 0:0:0 archive off"
        ∷ codes "1 area 1 960 4" ⟹ codes "1 area 1"
        ∷ codes "1 append 1 aa 0:0:0 0:0:0" ⟹ codes "1 lsn 1:0:0"
        ∷ []) }
    ensures every_fault { (told : Bool) (s : State) (client : ℕ) (call : Call) (t : State) → s.broken ≡ false
        → Step told s client call Fault (replies.Refused refusals.DiskFault) t → t ≡ with_broken s }
    ensures no_fault_of_other_calls { (told : Bool) (s : State) (client : ℕ) (call : Call) (t : State) → s.broken ≡ false → calls_disk s call ≡ false
        → ¬ Step told s client call Fault (replies.Refused refusals.DiskFault) t }
    ensures no_fault_of_refused_calls { (told : Bool) (s : State) (client : ℕ) (call : Call) (first : Refusal) (t : State) → s.broken ≡ false
        → refusal s client call ≡ Some first → ¬ Step told s client call Fault (replies.Refused refusals.DiskFault) t }
{}

/// A broken log answers every line so, whatever else would be told first.
pub fn what_a_broken_log_answers()
    ensures lines { IsDialogue (with_broken opened_log) (
        codes "1 flush 1" ⟹ codes "1 refused 3 Broken"
        ∷ codes "1 flush 5" ⟹ codes "1 refused 3 Broken"
        ∷ codes "1 open a:b" ⟹ codes "1 refused 3 Broken"
        ∷ codes "1 info 1" ⟹ codes "1 refused 3 Broken"
        ∷ codes "1 reopen" ⟹ codes "1 refused 3 Broken"
        ∷ codes "1 flush" ⟹ codes "0 refused 28 BadLine 7"
        ∷ []) }
    ensures every_call { (told : Bool) (s : State) (client : ℕ) (call : Call) (happened : Happened) (reply : Reply) (t : State)
        → s.broken ≡ true → Step told s client call happened reply t → (reply ≡ replies.Refused refusals.Broken) × (t ≡ s) }
{}

/// The texts of what comes of the disk and of memory, and the lines that out of memory may refuse.
pub fn texts_of_faults()
    ensures fault_of_the_disk { reply_line 1 (replies.Refused refusals.DiskFault) ≡ codes "1 refused 2 DiskFault\n" }
    ensures damage { reply_line 12 (replies.Refused (refusals.Damaged 1 512 1016)) ≡ codes "12 refused 11 Damaged 1 512 1016\n" }
    ensures want_of_memory { reply_line 64 (replies.Refused refusals.NoMemory) ≡ codes "64 refused 1 NoMemory\n" }
    ensures lines_that_take_memory { list_all line_takes_memory (codes "1 open a" ∷ codes "1 area 1 960 4" ∷ codes "1 reserve 1 8"
        ∷ codes "1 append 1 - 0:0:0 0:0:0" ∷ codes "1 read 1 1:0:0 forward" ∷ codes "1 next 1 1" ∷ codes "1 restart 1 - -"
        ∷ codes "1 readrestart 1" ∷ codes "1 prevrestart 1 1" ∷ codes "1 extents" ∷ codes "1 size 3" ∷ codes "1 reopen" ∷ []) ≡ true }
    ensures lines_that_take_none { list_any line_takes_memory (codes "1 drop 1" ∷ codes "1 release 1 1" ∷ codes "1 align 1 8" ∷ codes "1 flush 1"
        ∷ codes "1 flushto 1 1:0:0" ∷ codes "1 end 1 1" ∷ codes "1 advance 1 1:0:0" ∷ codes "1 archive on" ∷ codes "1 tail 1:0:0"
        ∷ codes "1 policy auto" ∷ codes "1 unpolicy auto" ∷ codes "1 info 1" ∷ []) ≡ false }
{}
