// What follows from a legal journal alone.
ghost use Rattle.std.specs.Prelude.{◌≡◌, ◌≤◌, ℕ, Bool, List, [], ◌∷◌, ◌++◌, length, map};
ghost use Rattle.std.specs.List.{range_with_len};
ghost use Rattle.clfs_model.specs.declared.journal.Entry.{Entry};
ghost use Rattle.clfs_model.specs.declared.state.State.{State};
ghost use Rattle.clfs_model.specs.Journals.{GoesOn, IsLegal, mine};
ghost use Rattle.clfs_model.specs.declared.call.Call.{Call};
ghost use Rattle.clfs_model.specs.declared.reply.Happened.{Happened};
ghost use Rattle.clfs_model.specs.declared.reply.Reply.{Reply};
ghost use Rattle.clfs_model.specs.Flush.{flushed};
ghost use Rattle.clfs_model.specs.Step.{Step};
ghost use Rattle.clfs_model.specs.Valid.{IsValid};
ghost use Rattle.clfs_laws.specs.Chains.{AreSteps};

use clfs_space::space_laws;

/// The front of a legal journal is legal, up to a state from which the rest goes on.
pub fn fronts_are_legal()
    ensures { (told : Bool) (s t : State) (front rest : List Entry) → IsLegal told (front ++ rest) s t
        → (mid : State) × (IsLegal told front s mid × GoesOn told front mid rest t) }
{}

/// Two journals join: the steps of both are one chain of steps where the second begins at the state that the first reached, and
/// the whole is legal where the second's numbers go on from the first's.
pub fn journals_join()
    ensures steps { (told : Bool) (s mid t : State) (front rest : List Entry) → AreSteps told s front mid → AreSteps told mid rest t → AreSteps told s (front ++ rest) t }
    ensures legal { (told : Bool) (s mid t : State) (front rest : List Entry) → IsLegal told front s mid → GoesOn told front mid rest t → IsLegal told (front ++ rest) s t }
    ensures of_steps { (told : Bool) (s t : State) (journal : List Entry) → IsLegal told journal s t → AreSteps told s journal t }
{}

/// In a legal journal each client's entries have the numbers 1, 2, 3 and so on.
pub fn numbers_count_up()
    ensures { (told : Bool) (s t : State) (journal : List Entry) (client : ℕ) → IsLegal told journal s t
        → map (λ (entry : Entry). entry.number) (mine journal client) ≡ range_with_len 1 (length (mine journal client)) }
{}

/// The LSN up to which the log is on the disk never falls, neither in a step from a valid state nor along a legal journal nor along any
/// part of one.
pub fn flushed_never_falls()
    ensures step { (told : Bool) (s : State) (client : ℕ) (call : Call) (happened : Happened) (reply : Reply) (t : State)
        → IsValid s → Step told s client call happened reply t → flushed s ≤ flushed t }
    ensures journal { (told : Bool) (s t : State) (journal : List Entry) → IsValid s → IsLegal told journal s t → flushed s ≤ flushed t }
    ensures part { (told : Bool) (before : List Entry) (s t : State) (entries : List Entry) → IsValid s → GoesOn told before s entries t → flushed s ≤ flushed t }
{
    space_laws();
}
