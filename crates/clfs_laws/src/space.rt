// When a call is refused for space, and when it can't be.
ghost use Rattle.std.specs.Prelude.{◌≡◌, ◌≤◌, ◌<◌, ◌+◌, ◌==◌, ◌||◌, nat_lt, ℕ, Bool, true, false, List, [], ◌∷◌, length, All, Some, None};
ghost use Rattle.clfs_lsn.specs.Lsn.{null_lsn};
ghost use Rattle.clfs_lsn.specs.Size.{own};
ghost use Rattle.clfs_model.specs.declared.call.Call.{Call};
ghost use Rattle.clfs_model.specs.declared.call.Call.TheVariants as calls;
ghost use Rattle.clfs_model.specs.declared.call.Draft.{Draft};
ghost use Rattle.clfs_model.specs.declared.journal.Entry.{Entry};
ghost use Rattle.clfs_model.specs.declared.refusal.Refusal.{Refusal};
ghost use Rattle.clfs_model.specs.declared.refusal.Refusal.TheVariants as refusals;
ghost use Rattle.clfs_model.specs.declared.reply.Happened.{Happened};
ghost use Rattle.clfs_model.specs.declared.reply.Reply.TheVariants as replies;
ghost use Rattle.clfs_model.specs.declared.state.State.{State};
ghost use Rattle.clfs_model.specs.declared.state.Area.{Area};
ghost use Rattle.clfs_model.specs.State.{area_of};
ghost use Rattle.clfs_model.specs.Space.{own_sum, free, reserved, grown, has_room};
ghost use Rattle.clfs_model.specs.Journals.{GoesOn};
ghost use Rattle.clfs_model.specs.Put.{need_of, spent_of};
ghost use Rattle.clfs_model.specs.Refusals.{is_link, is_base, refusal};
ghost use Rattle.clfs_model.specs.Step.{Step};
ghost use Rattle.clfs_model.specs.Valid.{IsValid};
ghost use Rattle.clfs_laws.specs.PlainWork.{is_plain_work, sectors_of_records};
ghost use Rattle.clfs_laws.specs.Needs.{needed_sectors, taken_sectors, area_number, held_if_there, first_too_long, is_for_room};

use clfs_space::space_laws;

/// In a state that a log can be in, the free sectors are at least the reserved ones.
pub fn reserved_is_free()
    ensures { (s : State) → IsValid s → reserved s ≤ free s }
{}

/// A call is refused for space exactly where there is no room for what it needs, not even after growth, and none of the tests before
/// that refuses it. The refusal tells the free, the reserved and the needed sectors: those of the log as it is, since growth that
/// isn't enough doesn't come.
pub fn full_where_no_room()
    ensures no_room { (s : State) (client : ℕ) (call : Call) (of_free of_reserved need : ℕ)
        → refusal s client call ≡ Some (refusals.Full of_free of_reserved need)
        → (needed_sectors call ≡ Some need) × ((has_room s need ≡ false) × ((of_free ≡ free (grown s need)) × (of_reserved ≡ reserved (grown s need)))) }
    ensures numbers { (s : State) (client : ℕ) (call : Call) (of_free of_reserved need : ℕ)
        → refusal s client call ≡ Some (refusals.Full of_free of_reserved need) → (of_free ≡ free s) × (of_reserved ≡ reserved s) }
    ensures step { (told : Bool) (s : State) (client : ℕ) (call : Call) (happened : Happened) (of_free of_reserved need : ℕ) (t : State)
        → Step told s client call happened (replies.Refused (refusals.Full of_free of_reserved need)) t
        → (needed_sectors call ≡ Some need) × ((has_room s need ≡ false) × ((of_free ≡ free s) × (of_reserved ≡ reserved s))) }
    ensures room { (s : State) (client : ℕ) (call : Call) (need : ℕ)
        → refusal s client call ≡ None → needed_sectors call ≡ Some need → has_room s need ≡ true }
    ensures reserve { (s : State) (client number : ℕ) (area : Area) (sizes : List ℕ)
        → nat_lt s.containers 2 ≡ false → area_of s client number ≡ Some area → first_too_long area sizes ≡ None
        → has_room s (own_sum sizes) ≡ false
        → refusal s client (calls.Reserve number sizes) ≡ Some (refusals.Full (free s) (reserved s) (own_sum sizes)) }
    ensures append { (s : State) (client number : ℕ) (area : Area) (draft : Draft) (spends : Bool) (sizes : List ℕ)
        → nat_lt s.containers 2 ≡ false → area_of s client number ≡ Some area → first_too_long area (length draft.bytes ∷ sizes) ≡ None
        → is_link s area.stream draft.previous ≡ true → is_link s area.stream draft.undo_next ≡ true
        → nat_lt area.held (spent_of spends (length draft.bytes)) ≡ false
        → has_room s (need_of spends (length draft.bytes) sizes) ≡ false
        → refusal s client (calls.Append number draft spends sizes)
        ≡ Some (refusals.Full (free s) (reserved s) (need_of spends (length draft.bytes) sizes)) }
    ensures restart { (s : State) (client number : ℕ) (area : Area) (bytes : List ℕ) (base : ℕ) (spends : Bool)
        → nat_lt s.containers 2 ≡ false → area_of s client number ≡ Some area → first_too_long area (length bytes ∷ []) ≡ None
        → ((base == null_lsn) || is_base s area.stream base) ≡ true
        → nat_lt area.held (spent_of spends (length bytes)) ≡ false
        → has_room s (need_of spends (length bytes) []) ≡ false
        → refusal s client (calls.WriteRestart number bytes base spends)
        ≡ Some (refusals.Full (free s) (reserved s) (need_of spends (length bytes) [])) }
{
    space_laws();
}

/// A call is refused for what its area holds exactly where that is less than the call takes and none of the tests before that refuses
/// it, and the refusal tells both.
pub fn short_where_less_is_held()
    ensures tells { (s : State) (client : ℕ) (call : Call) (held need : ℕ)
        → refusal s client call ≡ Some (refusals.ReservationShort held need)
        → (held ≡ held_if_there (area_of s client (area_number call))) × ((need ≡ taken_sectors call) × (held < need)) }
    ensures step { (told : Bool) (s : State) (client : ℕ) (call : Call) (happened : Happened) (held need : ℕ) (t : State)
        → Step told s client call happened (replies.Refused (refusals.ReservationShort held need)) t
        → (held ≡ held_if_there (area_of s client (area_number call))) × ((need ≡ taken_sectors call) × (held < need)) }
    ensures release { (s : State) (client number : ℕ) (area : Area) (sectors : ℕ)
        → area_of s client number ≡ Some area → nat_lt area.held sectors ≡ true
        → refusal s client (calls.Release number sectors) ≡ Some (refusals.ReservationShort area.held sectors) }
    ensures append { (s : State) (client number : ℕ) (area : Area) (draft : Draft) (spends : Bool) (sizes : List ℕ)
        → nat_lt s.containers 2 ≡ false → area_of s client number ≡ Some area → first_too_long area (length draft.bytes ∷ sizes) ≡ None
        → is_link s area.stream draft.previous ≡ true → is_link s area.stream draft.undo_next ≡ true
        → nat_lt area.held (spent_of spends (length draft.bytes)) ≡ true
        → refusal s client (calls.Append number draft spends sizes)
        ≡ Some (refusals.ReservationShort area.held (spent_of spends (length draft.bytes))) }
    ensures restart { (s : State) (client number : ℕ) (area : Area) (bytes : List ℕ) (base : ℕ) (spends : Bool)
        → nat_lt s.containers 2 ≡ false → area_of s client number ≡ Some area → first_too_long area (length bytes ∷ []) ≡ None
        → ((base == null_lsn) || is_base s area.stream base) ≡ true
        → nat_lt area.held (spent_of spends (length bytes)) ≡ true
        → refusal s client (calls.WriteRestart number bytes base spends)
        ≡ Some (refusals.ReservationShort area.held (spent_of spends (length bytes))) }
{}

/// A reserved append without sizes, whose sectors its area holds, is refused neither for space nor for what the area holds nor for
/// the number of containers.
pub fn held_sectors_suffice()
    ensures space { (s : State) (client number : ℕ) (area : Area) (draft : Draft) (of_free of_reserved need : ℕ)
        → IsValid s → area_of s client number ≡ Some area → own (length draft.bytes) ≤ area.held
        → refusal s client (calls.Append number draft true []) ≡ Some (refusals.Full of_free of_reserved need) → ⊥ }
    ensures held { (s : State) (client number : ℕ) (area : Area) (draft : Draft) (of_held need : ℕ)
        → IsValid s → area_of s client number ≡ Some area → own (length draft.bytes) ≤ area.held
        → refusal s client (calls.Append number draft true []) ≡ Some (refusals.ReservationShort of_held need) → ⊥ }
    ensures containers { (s : State) (client number : ℕ) (area : Area) (draft : Draft) (have : ℕ)
        → IsValid s → area_of s client number ≡ Some area → own (length draft.bytes) ≤ area.held
        → refusal s client (calls.Append number draft true []) ≡ Some (refusals.NotEnoughContainers have) → ⊥ }
    ensures step { (told : Bool) (s : State) (client number : ℕ) (area : Area) (draft : Draft) (happened : Happened) (given : Refusal) (t : State)
        → IsValid s → area_of s client number ≡ Some area → own (length draft.bytes) ≤ area.held
        → Step told s client (calls.Append number draft true []) happened (replies.Refused given) t → is_for_room given ≡ false }
{}

/// Plain work takes no more of the free sectors than the records that it appends, each in a block of its own, and leaves the number of
/// containers, in a log without automatic growth: along any part of a legal journal whose calls are openings of streams, makings of
/// areas, flushes up to an LSN, and appends that neither take held sectors nor ask for more.
pub fn plain_work_takes_its_own_sectors()
    ensures { (told : Bool) (before : List Entry) (s t : State) (entries : List Entry)
        → IsValid s → s.automatic ≡ false → GoesOn told before s entries t → All (λ (entry : Entry). is_plain_work entry.call ≡ true) entries
        → (t.containers ≡ s.containers) × ((t.automatic ≡ s.automatic) × (free s ≤ free t + sectors_of_records entries)) }
{
    space_laws();
}
