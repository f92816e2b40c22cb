// What a crash while a request is under way can't take away, and what it can leave.
ghost use Rattle.std.specs.Prelude.{◌≡◌, ◌≤◌, ℕ, Bool, List, ◌++◌, All, Contains};
ghost use Rattle.clfs_lsn.specs.declared.entry.Kind.TheVariants.{Restart};
ghost use Rattle.clfs_lsn.specs.declared.entry.LogEntry.{LogEntry};
ghost use Rattle.clfs_model.specs.declared.call.Call.{Call};
ghost use Rattle.clfs_model.specs.declared.reply.Happened.TheVariants.{Fine};
ghost use Rattle.clfs_model.specs.declared.reply.Reply.{Reply};
ghost use Rattle.clfs_model.specs.declared.state.State.{State};
ghost use Rattle.clfs_model.specs.Flush.{flushed, cut, IsSame};
ghost use Rattle.clfs_model.specs.Run.{asks, reopens, bad_line};
ghost use Rattle.clfs_model.specs.Step.{Step};
ghost use Rattle.clfs_model.specs.Storable.{IsStorable};
ghost use Rattle.clfs_model.specs.Survivors.{IsSurvivor};
ghost use Rattle.clfs_model.specs.Valid.{IsValid};
ghost use Rattle.clfs_laws.specs.Stable.{LeavesStable};

use clfs_space::space_laws;

/// A survivor of a call begins with all records that were on the disk before it, in their order, and what it has after them lies at
/// or above the LSN up to which the log was flushed. So it has every restart area.
pub fn survivors_keep_what_was_flushed()
    ensures records { (told : Bool) (s t x : State) (client : ℕ) (call : Call) (reply : Reply)
        → IsValid s → Step told s client call Fine reply t → IsSurvivor (asks client call) s t x
        → (more : List LogEntry) × (x.records ≡ (cut s).records ++ more) × All (λ (entry : LogEntry). flushed s ≤ entry.lsn) more }
    ensures restart_areas { (told : Bool) (s t x : State) (client : ℕ) (call : Call) (reply : Reply)
        → IsValid s → Step told s client call Fine reply t → IsSurvivor (asks client call) s t x
        → All (λ (entry : LogEntry). entry.kind ≡ Restart → Contains x.records entry) s.records }
{}

/// A call that leaves the flushed LSN, the streams and their bases, the containers, archiving and the policies as they were has no
/// survivor but the flushed part of the log, and no reply can show a difference. The number of write buffers isn't kept on the disk:
/// it is chosen when the log is opened.
pub fn quiet_calls_survive_as_the_cut()
    ensures equal { (told : Bool) (s t x : State) (client : ℕ) (call : Call) (reply : Reply)
        → IsValid s → IsStorable s → Step told s client call Fine reply t → LeavesStable s t → IsSurvivor (asks client call) s t x
        → record x { buffers = s.buffers } ≡ cut s }
    ensures same { (told : Bool) (s t x : State) (client : ℕ) (call : Call) (reply : Reply)
        → IsValid s → IsStorable s → Step told s client call Fine reply t → LeavesStable s t → IsSurvivor (asks client call) s t x
        → IsSame (cut s) (record x { buffers = s.buffers }) }
{
    space_laws();
}

/// Nothing survives opening the log again but the flushed part of the log, up to the number of write buffers, and that does.
pub fn opening_anew_survives_as_the_cut()
    ensures only { (s x : State) (client : ℕ) → IsValid s → IsStorable s → IsSurvivor (reopens client) s (cut s) x
        → record x { buffers = s.buffers } ≡ cut s }
    ensures itself { (s : State) (client : ℕ) → IsValid s → IsSurvivor (reopens client) s (cut s) (cut s) }
{}

/// The flushed part of a log survives each call, and so does the flushed part of the state that the call leaves; it survives a bad
/// line too.
pub fn the_cut_survives()
    ensures before { (told : Bool) (s t : State) (client : ℕ) (call : Call) (reply : Reply)
        → IsValid s → Step told s client call Fine reply t → IsSurvivor (asks client call) s t (cut s) }
    ensures after { (told : Bool) (s t : State) (client : ℕ) (call : Call) (reply : Reply)
        → IsValid s → IsStorable s → Step told s client call Fine reply t → IsSurvivor (asks client call) s t (cut t) }
    ensures bad_line { (s : State) (at : ℕ) → IsValid s → IsSurvivor (bad_line at) s s (cut s) }
{
    space_laws();
}
