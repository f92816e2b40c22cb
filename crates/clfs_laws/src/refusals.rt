// What refusals leave.
ghost use Rattle.std.specs.Prelude.{◌≡◌, ◌≢◌, ℕ, Bool, true, false, List, [], All};
ghost use Rattle.clfs_model.specs.declared.call.Call.{Call};
ghost use Rattle.clfs_model.specs.declared.reply.Happened.{Happened};
ghost use Rattle.clfs_model.specs.declared.reply.Reply.{Reply};
ghost use Rattle.clfs_model.specs.declared.reply.Reply.TheVariants as replies;
ghost use Rattle.clfs_model.specs.declared.refusal.Refusal.{Refusal};
ghost use Rattle.clfs_model.specs.declared.refusal.Refusal.TheVariants as refusals;
ghost use Rattle.clfs_model.specs.declared.journal.Entry.{Entry};
ghost use Rattle.clfs_model.specs.Journals.{GoesOn};
ghost use Rattle.clfs_model.specs.declared.state.State.{State};
ghost use Rattle.clfs_model.specs.Happened.{happened_of, happened_of_refusal};
ghost use Rattle.clfs_model.specs.Step.{Step, ReopenStep, IsBroken};

/// After a refusal other than for a disk fault or damage, the log is as it was.
pub fn refusals_change_nothing()
    ensures calls { (told : Bool) (s : State) (client : ℕ) (call : Call) (happened : Happened) (refusal : Refusal) (t : State)
        → Step told s client call happened (replies.Refused refusal) t → happened_of_refusal refusal ≡ Happened.Fine → t ≡ s }
    ensures reopening { (told : Bool) (s : State) (happened : Happened) (refusal : Refusal) (t : State)
        → ReopenStep told s happened (replies.Refused refusal) t → happened_of_refusal refusal ≡ Happened.Fine → t ≡ s }
{}

/// A call that met a disk fault or damage leaves the log broken, and so does opening again.
pub fn faults_break()
    ensures fault { (told : Bool) (s : State) (client : ℕ) (call : Call) (happened : Happened) (reply : Reply) (t : State)
        → Step told s client call happened reply t → happened_of reply ≡ Happened.Fault → t.broken ≡ true }
    ensures damage { (told : Bool) (s : State) (client : ℕ) (call : Call) (happened : Happened) (reply : Reply) (t : State)
        → Step told s client call happened reply t → happened_of reply ≡ Happened.Damage → t.broken ≡ true }
    ensures reopening { (told : Bool) (s : State) (happened : Happened) (reply : Reply) (t : State)
        → ReopenStep told s happened reply t → (happened_of reply ≡ Happened.Fine → ⊥) → t.broken ≡ true }
{}

/// A broken log answers each call that it is broken, and opening again too, and stays as it is.
pub fn broken_stays()
    ensures calls { (told : Bool) (s : State) (client : ℕ) (call : Call) (happened : Happened) (reply : Reply) (t : State)
        → s.broken ≡ true → Step told s client call happened reply t → IsBroken s reply t }
    ensures reopening { (told : Bool) (s : State) (happened : Happened) (reply : Reply) (t : State)
        → s.broken ≡ true → ReopenStep told s happened reply t → IsBroken s reply t }
{}

/// A log that was opened again has no areas, so it holds no sectors and no cursors.
pub fn opening_anew_ends_areas()
    ensures { (told : Bool) (s : State) (happened : Happened) (lsn : ℕ) (t : State)
        → ReopenStep told s happened (replies.Flushed lsn) t → t.areas ≡ [] }
{}

/// A log that isn't broken stays so in every step that tells neither a fault nor damage, and where it is opened again without them, and
/// the reply doesn't say that it is broken. A step in which nothing happened tells neither. So along any part of a legal journal in
/// which nothing happened the log stays so, and no entry says that it is broken.
pub fn unbroken_stays()
    ensures calls { (told : Bool) (s : State) (client : ℕ) (call : Call) (happened : Happened) (reply : Reply) (t : State)
        → s.broken ≡ false → happened_of reply ≡ Happened.Fine → Step told s client call happened reply t
        → (t.broken ≡ false) × (reply ≢ replies.Refused refusals.Broken) }
    ensures reopening { (told : Bool) (s : State) (happened : Happened) (reply : Reply) (t : State)
        → s.broken ≡ false → happened_of reply ≡ Happened.Fine → ReopenStep told s happened reply t
        → (t.broken ≡ false) × (reply ≢ replies.Refused refusals.Broken) }
    ensures fine { (told : Bool) (s : State) (client : ℕ) (call : Call) (reply : Reply) (t : State)
        → Step told s client call Happened.Fine reply t → happened_of reply ≡ Happened.Fine }
    ensures part { (told : Bool) (before : List Entry) (s t : State) (entries : List Entry)
        → s.broken ≡ false → GoesOn told before s entries t → All (λ (entry : Entry). entry.happened ≡ Happened.Fine) entries
        → (t.broken ≡ false) × All (λ (entry : Entry). entry.reply ≢ replies.Refused refusals.Broken) entries }
{}
