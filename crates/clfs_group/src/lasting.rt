// What an answer of a group is worth later.
ghost use Rattle.std.specs.Prelude.{◌≤◌, ℕ, List};
ghost use mathlib.Core.List.{IsPrefix};
ghost use Rattle.clfs_model.specs.declared.journal.Entry.{Entry};
ghost use Rattle.clfs_model.specs.declared.state.State.{State};
ghost use Rattle.clfs_model.specs.Flush.{flushed};
ghost use Rattle.clfs_model.specs.Journals.{IsLegal};
ghost use Rattle.clfs_model.specs.Valid.{IsValid};
ghost use Rattle.clfs_shared.specs.Sessions.{SessionState};
ghost use Rattle.clfs_turn.specs.Seats.{IsSameSeat};
ghost use Rattle.clfs_group.specs.Groups.{HasFlushed};

use clfs_laws::{flushed_never_falls, fronts_are_legal, steps_keep_a_state_valid};

/// What is on the disk by all that a session has seen stays there: when it has seen more, and in each state to which a journal leads that begins with
/// what it has seen, as that which closing the log hands out. This does nothing; a caller cites its clauses.
pub fn what_is_stable_stays()
    ensures seen { (s t : SessionState) (lsn : ℕ) → IsValid s.opening.state → IsSameSeat s t → IsPrefix s.seen t.seen → HasFlushed s lsn → HasFlushed t lsn }
    ensures journal { (s : SessionState) (lsn : ℕ) (journal : List Entry) (last : State) → IsValid s.opening.state → IsPrefix s.seen journal
        → IsLegal s.opening.tells_contents journal s.opening.state last → HasFlushed s lsn → lsn ≤ flushed last }
{
    flushed_never_falls();
    fronts_are_legal();
    steps_keep_a_state_valid();
}
