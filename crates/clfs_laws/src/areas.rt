// What a client's areas hold, and what they were made for, by the client's own entries in a legal journal, whatever others do.
ghost use Rattle.std.specs.Prelude.{◌≡◌, ◌≤◌, ℕ, Bool, true, false, List, [], ◌∷◌, ◌++◌, length, Some, IsSome};
ghost use Rattle.clfs_lsn.specs.Size.{own};
ghost use Rattle.clfs_model.specs.declared.call.Call.TheVariants as calls;
ghost use Rattle.clfs_model.specs.declared.call.Draft.{Draft};
ghost use Rattle.clfs_model.specs.declared.journal.Entry.{Entry};
ghost use Rattle.clfs_model.specs.declared.refusal.Refusal.{Refusal};
ghost use Rattle.clfs_model.specs.declared.refusal.Refusal.TheVariants as refusals;
ghost use Rattle.clfs_model.specs.declared.reply.Happened.{Happened};
ghost use Rattle.clfs_model.specs.declared.reply.Reply.TheVariants as replies;
ghost use Rattle.clfs_model.specs.declared.state.State.{State};
ghost use Rattle.clfs_model.specs.declared.state.Area.{Area};
ghost use Rattle.clfs_model.specs.State.{area_of};
ghost use Rattle.clfs_model.specs.Refusals.{refusal};
ghost use Rattle.clfs_model.specs.Journals.{IsLegal, mine, held_in, held_by};
ghost use Rattle.clfs_model.specs.Step.{Step};
ghost use Rattle.clfs_model.specs.Valid.{IsValid};
ghost use Rattle.clfs_laws.specs.Needs.{is_for_room};
ghost use Rattle.clfs_laws.specs.Rows.{row_in, row_through, NoneMakesOrEnds};

use clfs_space::space_laws;

/// The sectors that a client's area holds are those that the opening state and the client's own entries give.
pub fn held_is_by_own_entries()
    ensures { (told : Bool) (s t : State) (journal : List Entry) (client number : ℕ) → IsLegal told journal s t
        → held_in t client number ≡ held_by s client (mine journal client) number }
{}

/// So are its stream, its largest record and the number of cursors that it was made for, and whether it is there at all: where the
/// last own entry that made or deleted the area made it, it is there as that call asked.
pub fn rows_are_by_own_entries()
    ensures rows { (told : Bool) (s t : State) (journal : List Entry) (client number : ℕ) → IsLegal told journal s t
        → row_in t client number ≡ row_through number (row_in s client number) (mine journal client) }
    ensures made { (stream largest reads : ℕ) (told : Bool) (s t : State) (journal before after : List Entry) (client number : ℕ) (entry : Entry)
        → IsLegal told journal s t → mine journal client ≡ before ++ entry ∷ after
        → entry.call ≡ calls.CreateArea stream largest reads → entry.reply ≡ replies.Area number → NoneMakesOrEnds number after
        → (area : Area) × (area_of t client number ≡ Some area)
        × (area.stream ≡ stream) × (area.largest ≡ largest) × (area.reads ≡ reads) }
{}

/// So a client whose own entries leave its area enough sectors for a reserved record without sizes finds the area there, whatever
/// others did in between, and the append is refused neither for space nor for what the area holds nor for the number of containers.
pub fn own_entries_cover_an_append()
    ensures there { (told : Bool) (s t : State) (journal : List Entry) (client number : ℕ) (draft : Draft)
        → IsLegal told journal s t → own (length draft.bytes) ≤ held_by s client (mine journal client) number → IsSome (area_of t client number) }
    ensures space { (told : Bool) (s t : State) (journal : List Entry) (client number : ℕ) (draft : Draft) (of_free of_reserved need : ℕ)
        → IsValid s → IsLegal told journal s t → own (length draft.bytes) ≤ held_by s client (mine journal client) number
        → refusal t client (calls.Append number draft true []) ≡ Some (refusals.Full of_free of_reserved need) → ⊥ }
    ensures held { (told : Bool) (s t : State) (journal : List Entry) (client number : ℕ) (draft : Draft) (of_held need : ℕ)
        → IsValid s → IsLegal told journal s t → own (length draft.bytes) ≤ held_by s client (mine journal client) number
        → refusal t client (calls.Append number draft true []) ≡ Some (refusals.ReservationShort of_held need) → ⊥ }
    ensures containers { (told : Bool) (s t : State) (journal : List Entry) (client number : ℕ) (draft : Draft) (have : ℕ)
        → IsValid s → IsLegal told journal s t → own (length draft.bytes) ≤ held_by s client (mine journal client) number
        → refusal t client (calls.Append number draft true []) ≡ Some (refusals.NotEnoughContainers have) → ⊥ }
    ensures step { (told : Bool) (s t u : State) (journal : List Entry) (client number : ℕ) (draft : Draft) (happened : Happened) (given : Refusal)
        → IsValid s → IsLegal told journal s t → own (length draft.bytes) ≤ held_by s client (mine journal client) number
        → Step told t client (calls.Append number draft true []) happened (replies.Refused given) u → is_for_room given ≡ false }
{
    space_laws();
}
