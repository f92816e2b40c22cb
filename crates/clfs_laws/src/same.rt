// What no reply can show: states that are the same but for records in containers below the hold's answer alike and stay the same.
ghost use Rattle.std.specs.Prelude.{◌≡◌, ◌≤◌, ℕ, Bool, true, List};
ghost use Rattle.clfs_lsn.specs.Lsn.{container_of};
ghost use Rattle.clfs_model.specs.declared.call.Call.{Call};
ghost use Rattle.clfs_model.specs.declared.journal.Entry.{Entry};
ghost use Rattle.clfs_model.specs.declared.reply.Happened.{Happened};
ghost use Rattle.clfs_model.specs.declared.reply.Reply.{Reply};
ghost use Rattle.clfs_model.specs.declared.state.State.{State};
ghost use Rattle.clfs_model.specs.Live.{hold, live};
ghost use Rattle.clfs_model.specs.Flush.{cut, IsSame};
ghost use Rattle.clfs_model.specs.Journals.{IsLegal};
ghost use Rattle.clfs_model.specs.Reading.{restart_areas};
ghost use Rattle.clfs_model.specs.Refusals.{refusal};
ghost use Rattle.clfs_model.specs.State.{base_of};
ghost use Rattle.clfs_model.specs.Step.{Step, ReopenStep, calls_disk};
ghost use Rattle.clfs_model.specs.Run.{Request, Run};
ghost use Rattle.clfs_model.specs.Valid.{IsValid};

use clfs_space::space_laws;

/// Two valid states that are the same meet the same first refusal in each call, and call the disk in the same calls. Each step of one
/// is a step of the other, with the same reply, whatever happens and whether or not the disk tells what it holds, and the states that
/// the two come to are the same again. So it is where both are opened again, and over lists of requests.
pub fn the_same_answer_alike()
    ensures refusal { (s u : State) (client : ℕ) (call : Call) → IsValid s → IsValid u → IsSame s u → refusal s client call ≡ refusal u client call }
    ensures disk { (s u : State) (call : Call) → IsValid s → IsValid u → IsSame s u → calls_disk s call ≡ calls_disk u call }
    ensures step { (told : Bool) (s u : State) (client : ℕ) (call : Call) (happened : Happened) (reply : Reply) (t : State)
        → IsValid s → IsValid u → IsSame s u → Step told s client call happened reply t
        → (v : State) × (Step told u client call happened reply v × IsSame t v) }
    ensures reopening { (told : Bool) (s u : State) (happened : Happened) (reply : Reply) (t : State)
        → IsValid s → IsValid u → IsSame s u → ReopenStep told s happened reply t
        → (v : State) × (ReopenStep told u happened reply v × IsSame t v) }
    ensures run { (told : Bool) (s u : State) (requests : List Request) (happened : List Happened) (replies : List Reply) (t : State)
        → IsValid s → IsValid u → IsSame s u → Run told s requests happened replies t
        → (v : State) × (Run told u requests happened replies v × IsSame t v) }
{
    space_laws();
}

/// Every state is the same as itself; where one is the same as another, so is the other as the one; and what is the same as a third is
/// so through it. The flushed parts of valid states that are the same are the same. States that are the same have the same live records
/// of each stream, the same bases and the same restart areas.
pub fn sameness()
    ensures itself { (s : State) → IsSame s s }
    ensures turned { (s t : State) → IsSame s t → IsSame t s }
    ensures through { (s t u : State) → IsSame s t → IsSame t u → IsSame s u }
    ensures cut { (s u : State) → IsValid s → IsValid u → IsSame s u → IsSame (cut s) (cut u) }
    ensures live { (s u : State) (stream : ℕ) → IsSame s u → live s stream ≡ live u stream }
    ensures bases { (s u : State) (stream : ℕ) → IsSame s u → base_of s stream ≡ base_of u stream }
    ensures restarts { (s u : State) (stream : ℕ) → IsSame s u → restart_areas s stream ≡ restart_areas u stream }
{}

/// The container of the hold never falls: in a step from a valid state, where a valid log is opened again over a disk that tells what
/// it holds, and along a legal journal. So a record in a container below the hold's stays below it.
pub fn the_holds_container_never_falls()
    ensures step { (told : Bool) (s : State) (client : ℕ) (call : Call) (happened : Happened) (reply : Reply) (t : State)
        → IsValid s → Step told s client call happened reply t → container_of (hold s) ≤ container_of (hold t) }
    ensures reopening { (s : State) (happened : Happened) (reply : Reply) (t : State)
        → IsValid s → ReopenStep true s happened reply t → container_of (hold s) ≤ container_of (hold t) }
    ensures journal { (told : Bool) (s t : State) (journal : List Entry)
        → IsValid s → IsLegal told journal s t → container_of (hold s) ≤ container_of (hold t) }
{
    space_laws();
}
