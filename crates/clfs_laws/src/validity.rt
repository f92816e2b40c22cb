// Which states a log can be in: those that every step leaves.
ghost use Rattle.std.specs.Prelude.{◌≡◌, ◌≤◌, ℕ, Bool, List, length};
ghost use Rattle.clfs_lsn.specs.Limits.{most_containers, most_write_buffers};
ghost use Rattle.clfs_lsn.specs.Size.{IsShape};
ghost use Rattle.clfs_lsn.specs.declared.shape.Shape.{Shape};
ghost use Rattle.clfs_model.specs.declared.call.Call.{Call};
ghost use Rattle.clfs_model.specs.declared.info.Extent.{Extent};
ghost use Rattle.clfs_model.specs.declared.journal.Entry.{Entry};
ghost use Rattle.clfs_model.specs.declared.reply.Happened.{Happened};
ghost use Rattle.clfs_model.specs.declared.reply.Reply.{Reply};
ghost use Rattle.clfs_model.specs.declared.reply.Reply.TheVariants as replies;
ghost use Rattle.clfs_model.specs.declared.state.State.{State};
ghost use Rattle.clfs_model.specs.State.{fresh};
ghost use Rattle.clfs_model.specs.Archive.{extents};
ghost use Rattle.clfs_model.specs.Flush.{cut};
ghost use Rattle.clfs_model.specs.Journals.{GoesOn, IsLegal};
ghost use Rattle.clfs_model.specs.Step.{Step, ReopenStep};
ghost use Rattle.clfs_model.specs.Valid.{IsValid};

use clfs_space::space_laws;

/// A log that has just been made is valid, and so is the flushed part of a valid log.
pub fn first_states_are_valid()
    ensures fresh { (shape : Shape) (dedicated : Bool) (containers buffers : ℕ) → IsShape shape → 1 ≤ containers → containers ≤ most_containers → 1 ≤ buffers → buffers ≤ most_write_buffers
        → IsValid (fresh shape dedicated containers buffers) }
    ensures cut { (s : State) → IsValid s → IsValid (cut s) }
{}

/// A valid log has no more extents than there can be containers, and so no reply tells more.
pub fn extents_are_few()
    ensures state { (s : State) → IsValid s → length (extents s) ≤ most_containers }
    ensures step { (told : Bool) (s : State) (client : ℕ) (call : Call) (happened : Happened) (found : List Extent) (t : State)
        → IsValid s → Step told s client call happened (replies.Extents found) t → length found ≤ most_containers }
{}

/// Every step from a valid state leaves a valid state, whatever is called and whatever happens; so do opening the log again, a legal
/// journal and any part of one.
pub fn steps_keep_a_state_valid()
    ensures step { (told : Bool) (s : State) (client : ℕ) (call : Call) (happened : Happened) (reply : Reply) (t : State)
        → IsValid s → Step told s client call happened reply t → IsValid t }
    ensures reopening { (told : Bool) (s : State) (happened : Happened) (reply : Reply) (t : State)
        → IsValid s → ReopenStep told s happened reply t → IsValid t }
    ensures journal { (told : Bool) (s t : State) (journal : List Entry) → IsValid s → IsLegal told journal s t → IsValid t }
    ensures part { (told : Bool) (before : List Entry) (s t : State) (entries : List Entry) → IsValid s → GoesOn told before s entries t → IsValid t }
{
    space_laws();
}
