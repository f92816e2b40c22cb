// Which states files can hold: those that every step leaves whose call meets its condition. What their numbers are then.
ghost use Rattle.std.specs.Prelude.{◌≡◌, ◌+◌, ◌≤◌, ◌<◌, ◌*◌, ◌^◌, ℕ, Bool, List, length, All, IfSome};
ghost use Rattle.std.specs.List.{Any};
ghost use Rattle.clfs_lsn.specs.Format.{sector_bytes};
ghost use Rattle.clfs_lsn.specs.Lsn.{container_of, offset_of};
ghost use Rattle.clfs_lsn.specs.Place.{frontier, block_end};
ghost use Rattle.clfs_lsn.specs.Limits.{most_containers, most_write_buffers};
ghost use Rattle.clfs_lsn.specs.Size.{IsShape, longest};
ghost use Rattle.clfs_lsn.specs.declared.entry.LogEntry.{LogEntry};
ghost use Rattle.clfs_lsn.specs.declared.shape.Shape.{Shape};
ghost use Rattle.clfs_model.specs.declared.call.Call.{Call};
ghost use Rattle.clfs_model.specs.declared.journal.Entry.{Entry};
ghost use Rattle.clfs_model.specs.declared.reply.Happened.{Happened};
ghost use Rattle.clfs_model.specs.declared.reply.Reply.{Reply};
ghost use Rattle.clfs_model.specs.declared.state.Area.{Area};
ghost use Rattle.clfs_lsn.specs.declared.cursor.Cursor.{Cursor};
ghost use Rattle.clfs_model.specs.declared.state.State.{State};
ghost use Rattle.clfs_lsn.specs.declared.stream.Stream.{Stream};
ghost use Rattle.clfs_model.specs.Archive.{end_of_block};
ghost use Rattle.clfs_model.specs.Conditions.{MeetsCondition};
ghost use Rattle.clfs_model.specs.Flush.{flushed, cut};
ghost use Rattle.clfs_model.specs.Journals.{GoesOn, IsLegal};
ghost use Rattle.clfs_model.specs.Run.{Request, Run};
ghost use Rattle.clfs_model.specs.State.{fresh};
ghost use Rattle.clfs_model.specs.Step.{Step, ReopenStep};
ghost use Rattle.clfs_model.specs.Storable.{IsStorable};
ghost use Rattle.clfs_model.specs.Valid.{IsValid};
ghost use Rattle.clfs_laws.specs.Between.{IsLaid};
ghost use Rattle.clfs_laws.specs.Meets.{RequestMeets};

use clfs_space::space_laws;

/// Files can hold a log that has just been made, and the flushed part of a log that they can hold.
pub fn first_states_are_storable()
    ensures fresh { (shape : Shape) (dedicated : Bool) (containers buffers : ℕ) → IsShape shape → 1 ≤ containers → containers ≤ most_containers → 1 ≤ buffers → buffers ≤ most_write_buffers
        → IsStorable (fresh shape dedicated containers buffers) }
    ensures cut { (s : State) → IsValid s → IsStorable s → IsStorable (cut s) }
{}

/// Every step of a call that meets its condition leaves a state that files can hold, whatever happens, where it began in one; so do
/// opening the log again, a legal journal of such calls, any part of one, and a run of such requests.
pub fn steps_keep_a_state_storable()
    ensures step { (told : Bool) (s : State) (client : ℕ) (call : Call) (happened : Happened) (reply : Reply) (t : State)
        → IsValid s → IsStorable s → MeetsCondition client call → Step told s client call happened reply t → IsStorable t }
    ensures reopening { (told : Bool) (s : State) (happened : Happened) (reply : Reply) (t : State)
        → IsValid s → IsStorable s → ReopenStep told s happened reply t → IsStorable t }
    ensures journal { (told : Bool) (s t : State) (journal : List Entry) → IsValid s → IsStorable s
        → All (λ (entry : Entry). MeetsCondition entry.client entry.call) journal → IsLegal told journal s t → IsStorable t }
    ensures part { (told : Bool) (before : List Entry) (s t : State) (entries : List Entry) → IsValid s → IsStorable s
        → All (λ (entry : Entry). MeetsCondition entry.client entry.call) entries → GoesOn told before s entries t → IsStorable t }
    ensures run { (told : Bool) (s : State) (requests : List Request) (happened : List Happened) (replies : List Reply) (t : State)
        → IsValid s → IsStorable s → All RequestMeets requests → Run told s requests happened replies t → IsStorable t }
{
    space_laws();
}

/// So each number of such a state fits its type: LSNs, links, bases, starts and tails have 64 bits, offsets and lengths 32. A record
/// fits a block of the log's shape, and every block ends within its container.
pub fn numbers_fit_their_types()
    ensures lsns { (s : State) → IsValid s → IsStorable s → All (λ (entry : LogEntry). entry.lsn < 2 ^ 64) s.records }
    ensures previous { (s : State) → IsValid s → IsStorable s → All (λ (entry : LogEntry). entry.previous < 2 ^ 64) s.records }
    ensures undo_next { (s : State) → IsValid s → IsStorable s → All (λ (entry : LogEntry). entry.undo_next < 2 ^ 64) s.records }
    ensures new_bases { (s : State) → IsValid s → IsStorable s → All (λ (entry : LogEntry). entry.new_base < 2 ^ 64) s.records }
    ensures lengths { (s : State) → IsValid s → IsStorable s → All (λ (entry : LogEntry). length entry.bytes ≤ longest s.shape) s.records }
    ensures block_ends { (s : State) → IsValid s → IsStorable s
        → All (λ (entry : LogEntry). end_of_block s.records entry.lsn ≤ sector_bytes * s.shape.container_sectors) s.records }
    ensures frontier { (s : State) → IsValid s → IsStorable s → frontier s.place < 2 ^ 64 }
    ensures flushed { (s : State) → IsValid s → IsStorable s → flushed s < 2 ^ 64 }
    ensures offset { (s : State) → IsValid s → IsStorable s → s.place.offset < 2 ^ 32 }
    ensures bases { (s : State) → IsValid s → IsStorable s → All (λ (stream : Stream). stream.base < 2 ^ 64) s.streams }
    ensures tail { (s : State) → IsValid s → IsStorable s → IfSome s.archive (λ tail. tail < 2 ^ 64) }
    ensures waiting { (s : State) → IsValid s → IsStorable s → All (λ (start : ℕ). start < 2 ^ 64) s.waiting }
    ensures cursors { (s : State) → IsValid s → IsStorable s
        → All (λ (area : Area). All (λ (cursor : Cursor). cursor.last < 2 ^ 64) area.cursors) s.areas }
{}

/// Where a block of such a state is open, it ends at the log's place, by its records, and the record that was put last lies right below the
/// next one.
pub fn open_blocks_end_at_the_place()
    ensures newest { (s : State) → IsValid s → IsStorable s → 1 ≤ s.place.records
        → Any (λ (entry : LogEntry). entry.lsn + 1 ≡ frontier s.place) s.records }
    ensures end { (s : State) → IsValid s → IsStorable s → 1 ≤ s.place.records → (lsn : ℕ) → container_of lsn ≡ s.place.container
        → offset_of lsn ≡ s.place.offset → end_of_block s.records lsn ≡ sector_bytes * block_end s.place }
{}

/// The same where only the restart area that was put last keeps the state from being one that a log can be in.
pub fn laid_blocks_end_at_the_place()
    ensures newest { (s : State) → IsLaid s → 1 ≤ s.place.records → Any (λ (entry : LogEntry). entry.lsn + 1 ≡ frontier s.place) s.records }
    ensures end { (s : State) → IsLaid s → 1 ≤ s.place.records → (lsn : ℕ) → container_of lsn ≡ s.place.container
        → offset_of lsn ≡ s.place.offset → end_of_block s.records lsn ≡ sector_bytes * block_end s.place }
{}
