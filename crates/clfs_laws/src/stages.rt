// The states between the small changes of a call: a crash may leave the flushed part of each of them.
ghost use Rattle.std.specs.Prelude.{◌≡◌, ℕ, Bool, false, List, All, None, Some};
ghost use Rattle.clfs_model.specs.declared.call.Call.{Call};
ghost use Rattle.clfs_model.specs.declared.call.Call.TheVariants as calls;
ghost use Rattle.clfs_model.specs.declared.call.Draft.{Draft};
ghost use Rattle.clfs_model.specs.declared.state.Area.{Area};
ghost use Rattle.clfs_model.specs.declared.state.State.{State};
ghost use Rattle.clfs_model.specs.Flush.{cut};
ghost use Rattle.clfs_model.specs.Refusals.{refusal};
ghost use Rattle.clfs_model.specs.Run.{asks, reopens, bad_line, fine_outcome};
ghost use Rattle.clfs_model.specs.State.{area_of};
ghost use Rattle.clfs_model.specs.Storable.{IsStorable};
ghost use Rattle.clfs_model.specs.Survivors.{Survives};
ghost use Rattle.clfs_model.specs.Valid.{IsValid};
ghost use Rattle.clfs_laws.specs.Stages.{append_stages, restart_stages, reserve_stages, advance_stages};

use clfs_space::space_laws;

/// The flushed part of each state that a call goes through is a survivor of the call. An append, a restart area, a reservation and an
/// advance go through the states between their small changes; of each call, also one that is refused, the state before it and the one that
/// it leaves are such states. Opening again and a bad line have the log's flushed part as a survivor.
pub fn states_between_survive()
    ensures append { (s : State) (client number : ℕ) (area : Area) (draft : Draft) (reserved : Bool) (sizes : List ℕ)
        → IsValid s → IsStorable s → s.broken ≡ false → refusal s client (calls.Append number draft reserved sizes) ≡ None
        → area_of s client number ≡ Some area
        → All (λ (u : State). Survives (asks client (calls.Append number draft reserved sizes)) s (cut u)) (append_stages s area draft reserved sizes) }
    ensures restart { (s : State) (client number : ℕ) (area : Area) (bytes : List ℕ) (base : ℕ) (reserved : Bool)
        → IsValid s → IsStorable s → s.broken ≡ false → refusal s client (calls.WriteRestart number bytes base reserved) ≡ None
        → area_of s client number ≡ Some area
        → All (λ (u : State). Survives (asks client (calls.WriteRestart number bytes base reserved)) s (cut u)) (restart_stages s area bytes base reserved) }
    ensures reserve { (s : State) (client number : ℕ) (area : Area) (sizes : List ℕ)
        → IsValid s → IsStorable s → s.broken ≡ false → refusal s client (calls.Reserve number sizes) ≡ None
        → area_of s client number ≡ Some area
        → All (λ (u : State). Survives (asks client (calls.Reserve number sizes)) s (cut u)) (reserve_stages s sizes) }
    ensures advance { (s : State) (client number : ℕ) (area : Area) (lsn : ℕ)
        → IsValid s → IsStorable s → s.broken ≡ false → refusal s client (calls.Advance number lsn) ≡ None
        → area_of s client number ≡ Some area
        → All (λ (u : State). Survives (asks client (calls.Advance number lsn)) s (cut u)) (advance_stages s area.stream lsn) }
    ensures before { (s : State) (client : ℕ) (call : Call) → IsValid s → Survives (asks client call) s (cut s) }
    ensures after { (s : State) (client : ℕ) (call : Call) → IsValid s → IsStorable s
        → Survives (asks client call) s (cut (fine_outcome s (asks client call)).state) }
    ensures reopens { (s : State) (client : ℕ) → IsValid s → s.broken ≡ false → Survives (reopens client) s (cut s) }
    ensures bad_line { (s : State) (at : ℕ) → IsValid s → Survives (bad_line at) s (cut s) }
{
    space_laws();
}
