// What a caller can take from one step: which refusals it may answer, which records it adds, and what it leaves on the disk.
ghost use Rattle.std.specs.Prelude.{◌≡◌, ◌≢◌, ◌<◌, ◌≤◌, ℕ, Bool, true, false, List, ◌∷◌, ◌++◌, length, All, Some, None};
ghost use Rattle.clfs_lsn.specs.Place.{frontier};
ghost use Rattle.clfs_lsn.specs.declared.entry.LogEntry.{LogEntry};
ghost use Rattle.clfs_model.specs.declared.call.Call.{Call};
ghost use Rattle.clfs_model.specs.declared.call.Call.TheVariants as calls;
ghost use Rattle.clfs_lsn.specs.declared.cursor.Mode.{Mode};
ghost use Rattle.clfs_model.specs.declared.refusal.Refusal.{Refusal};
ghost use Rattle.clfs_model.specs.declared.refusal.Refusal.TheVariants as refusals;
ghost use Rattle.clfs_model.specs.declared.reply.Happened.{Happened};
ghost use Rattle.clfs_model.specs.declared.reply.Happened.TheVariants.{Fine};
ghost use Rattle.clfs_model.specs.declared.reply.Reply.{Reply};
ghost use Rattle.clfs_model.specs.declared.reply.Reply.TheVariants as replies;
ghost use Rattle.clfs_model.specs.declared.state.State.{State};
ghost use Rattle.clfs_model.specs.declared.state.Area.{Area};
ghost use Rattle.clfs_model.specs.State.{area_of};
ghost use Rattle.clfs_model.specs.Flush.{flushed, cut};
ghost use Rattle.clfs_model.specs.Reading.{chain, restart_areas};
ghost use Rattle.clfs_model.specs.Refusals.{refusal};
ghost use Rattle.clfs_model.specs.Step.{Step, calls_disk};
ghost use Rattle.clfs_model.specs.Valid.{IsValid};
ghost use Rattle.clfs_laws.specs.Needs.{area_number};
ghost use Rattle.clfs_laws.specs.Refused.{is_of_call};
ghost use Rattle.clfs_laws.specs.ReplyKinds.{is_reply_of};

use clfs_space::space_laws;

/// A refusal that stands in a call's list is the first that the call meets, and the call that meets one answers it where nothing
/// happens; one that meets none isn't refused. No step answers that a line is bad.
pub fn refusals_are_the_calls_own()
    ensures first { (told : Bool) (s : State) (client : ℕ) (call : Call) (happened : Happened) (given : Refusal) (t : State)
        → is_of_call given ≡ true → Step told s client call happened (replies.Refused given) t → refusal s client call ≡ Some given }
    ensures comes { (told : Bool) (s t : State) (client : ℕ) (call : Call) (reply : Reply) (first : Refusal) → s.broken ≡ false
        → refusal s client call ≡ Some first → Step told s client call Fine reply t → reply ≢ replies.Refused refusals.NoMemory
        → (reply ≡ replies.Refused first) × (t ≡ s) }
    ensures own { (s : State) (client : ℕ) (call : Call) (given : Refusal) → refusal s client call ≡ Some given → is_of_call given ≡ true }
    ensures none { (told : Bool) (s : State) (client : ℕ) (call : Call) (happened : Happened) (given : Refusal) (t : State)
        → refusal s client call ≡ None → Step told s client call happened (replies.Refused given) t → is_of_call given ≡ false }
    ensures no_bad_line { (told : Bool) (s : State) (client : ℕ) (call : Call) (happened : Happened) (at : ℕ) (t : State)
        → Step told s client call happened (replies.Refused (refusals.BadLine at)) t → ⊥ }
{}

/// A call is answered by a reply of its own kind, or refused by a refusal that it may meet: one of its own list, that the log is
/// broken, or, where it takes memory, may call the disk, or reads, for that. That there is no such area is told only where it isn't there.
pub fn replies_are_of_their_calls()
    ensures kind { (told : Bool) (s : State) (client : ℕ) (call : Call) (happened : Happened) (reply : Reply) (t : State)
        → Step told s client call happened reply t → is_reply_of call reply ≡ true }
    ensures missing { (told : Bool) (s : State) (client : ℕ) (call : Call) (happened : Happened) (t : State)
        → Step told s client call happened (replies.Refused refusals.NoSuchArea) t → area_of s client (area_number call) ≡ None }
{}

/// A step keeps all records and adds only such as lie at or above the frontier that it began with.
pub fn steps_only_add_records()
    ensures { (told : Bool) (s : State) (client : ℕ) (call : Call) (happened : Happened) (reply : Reply) (t : State)
        → IsValid s → Step told s client call happened reply t
        → (more : List LogEntry) × (t.records ≡ s.records ++ more) × All (λ (entry : LogEntry). frontier s.place ≤ entry.lsn) more }
{}

/// A call that makes no call on the disk leaves the flushed part of the log as it was, whatever it answers.
pub fn quiet_calls_leave_the_cut()
    ensures { (told : Bool) (s : State) (client : ℕ) (call : Call) (happened : Happened) (reply : Reply) (t : State)
        → IsValid s → calls_disk s call ≡ false → Step told s client call happened reply t → cut t ≡ cut s }
{
    space_laws();
}

/// A flush up to an LSN answers an LSN above it, below which all is on the disk.
pub fn a_flush_goes_past_its_lsn()
    ensures { (told : Bool) (s : State) (client number lsn : ℕ) (happened : Happened) (answered : ℕ) (t : State)
        → IsValid s → Step told s client (calls.FlushTo number lsn) happened (replies.Flushed answered) t → (lsn < answered) × (answered ≡ flushed t) }
{}

/// A read finds a record where its chain has one and its area has a free cursor; so does a read of restart areas.
pub fn reads_find_records()
    ensures records { (told : Bool) (s t : State) (client number lsn : ℕ) (mode : Mode) (area : Area) (entry : LogEntry) (rest : List LogEntry) (reply : Reply)
        → s.broken ≡ false → area_of s client number ≡ Some area → chain s area.stream lsn mode ≡ entry ∷ rest → length area.cursors < area.reads
        → Step told s client (calls.Read number lsn mode) Fine reply t → reply ≢ replies.Refused refusals.NoMemory
        → (cursor : ℕ) × (read : LogEntry) × (reply ≡ replies.Found cursor read) }
    ensures restart_areas { (told : Bool) (s t : State) (client number : ℕ) (area : Area) (entry : LogEntry) (rest : List LogEntry) (reply : Reply)
        → s.broken ≡ false → area_of s client number ≡ Some area → restart_areas s area.stream ≡ entry ∷ rest → length area.cursors < area.reads
        → Step told s client (calls.ReadRestart number) Fine reply t → reply ≢ replies.Refused refusals.NoMemory
        → (cursor : ℕ) × (read : LogEntry) × (reply ≡ replies.Found cursor read) }
{}
