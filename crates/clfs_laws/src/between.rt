// The states between the small changes that make up an append, a restart area or a reservation: the log grows, its area spends, the log is
// made ready, the record is put, the area holds more, the block is sealed and the log flushed. Each of these states is one that a log can
// be in and that files can hold; so is the one after a restart area but for that record, until it is on the disk.
ghost use Rattle.std.specs.Prelude.{◌≡◌, ◌+◌, ◌≤◌, ℕ, Bool, true, false, List, [], length, All, IsSome, None, Some};
ghost use Rattle.clfs_lsn.specs.Limits.{most_containers};
ghost use Rattle.clfs_lsn.specs.Lsn.{container_of};
ghost use Rattle.clfs_lsn.specs.Size.{own};
ghost use Rattle.clfs_lsn.specs.Place.{joins, begins_here};
ghost use Rattle.clfs_lsn.specs.declared.entry.LogEntry.{LogEntry};
ghost use Rattle.clfs_lsn.specs.declared.entry.Kind.TheVariants.{Plain};
ghost use Rattle.clfs_model.specs.declared.call.Draft.{Draft};
ghost use Rattle.clfs_model.specs.declared.state.Area.{Area};
ghost use Rattle.clfs_model.specs.declared.state.State.{State};
ghost use Rattle.clfs_model.specs.Answers.{restart_record, restarted, rebased};
ghost use Rattle.clfs_model.specs.Flush.{flushed, seal, flush};
ghost use Rattle.clfs_model.specs.Live.{hold};
ghost use Rattle.clfs_model.specs.Put.{next_lsn, put, need_of, spend_if, hold_sizes, seal_if, flush_if, plain_record, appended};
ghost use Rattle.clfs_model.specs.Refusals.{append_refusal, restart_refusal, too_long, full};
ghost use Rattle.clfs_model.specs.Space.{free, reserved, own_sum, with_containers, grown, has_room};
ghost use Rattle.clfs_model.specs.State.{area_of};
ghost use Rattle.clfs_model.specs.Step.{append_writes, fills_buffers, making_ready_writes};
ghost use Rattle.clfs_model.specs.Storable.{IsStorable};
ghost use Rattle.clfs_model.specs.Valid.{IsValid};
ghost use Rattle.clfs_laws.specs.Between.{IsWhole, IsLaid, MayPut, MayMove, readied, KeepsTables, IsReadiedFor, MayTurn, TakesThrough};

use clfs_space::space_laws;

/// A log that grows for a call is still whole, and only its number of containers is another one, which is no less and not above the most
/// that a log can have. Where there is room for what the call needs, it is free then.
pub fn growth_keeps_a_log_whole()
    ensures whole { (s : State) (need : ℕ) → IsValid s → IsStorable s → IsWhole (grown s need) }
    ensures only_containers { (s : State) (need : ℕ) → grown s need ≡ with_containers (grown s need).containers s }
    ensures no_fewer { (s : State) (need : ℕ) → IsValid s → s.containers ≤ (grown s need).containers }
    ensures at_most { (s : State) (need : ℕ) → IsValid s → (grown s need).containers ≤ most_containers }
    ensures hold { (s : State) (need : ℕ) → hold (grown s need) ≡ hold s }
    ensures room { (s : State) (need : ℕ) → has_room s need ≡ true → reserved (grown s need) + need ≤ free (grown s need) }
{
    space_laws();
}

/// An append that isn't refused finds a log, once that has grown and its area has spent, that takes its record and has the room for the
/// records to come. So does a restart area, whose new base the log may move to. A reservation that isn't refused has its room.
pub fn calls_that_pass_find_room()
    ensures append { (s : State) (client number : ℕ) (area : Area) (draft : Draft) (reserved : Bool) (sizes : List ℕ)
        → IsValid s → IsStorable s → 2 ≤ s.containers → area_of s client number ≡ Some area
        → append_refusal s area draft reserved sizes ≡ None
        → TakesThrough (spend_if reserved area (length draft.bytes) (grown s (need_of reserved (length draft.bytes) sizes))) area
        (plain_record area draft) (own_sum sizes) }
    ensures restart { (s : State) (client number : ℕ) (area : Area) (bytes : List ℕ) (base : ℕ) (reserved : Bool)
        → IsValid s → IsStorable s → 2 ≤ s.containers → area_of s client number ≡ Some area
        → restart_refusal s area bytes base reserved ≡ None
        → TakesThrough (spend_if reserved area (length bytes) (grown s (need_of reserved (length bytes) []))) area
        (restart_record s area bytes base) 0 }
    ensures base { (s : State) (client number : ℕ) (area : Area) (bytes : List ℕ) (base : ℕ) (reserved : Bool)
        → IsValid s → area_of s client number ≡ Some area → restart_refusal s area bytes base reserved ≡ None
        → MayMove (spend_if reserved area (length bytes) (grown s (need_of reserved (length bytes) []))) area.stream base }
    ensures reserve { (s : State) (area : Area) (sizes : List ℕ)
        → too_long area.largest sizes (full s (own_sum sizes)) ≡ None
        → reserved (grown s (own_sum sizes)) + own_sum sizes ≤ free (grown s (own_sum sizes)) }
{
    space_laws();
}

/// Sealing and flushing keep a log whole, and one that is laid laid; they keep its tables and what is on the disk, and the hold stays in its
/// container.
pub fn seals_and_flushes_keep_a_log()
    ensures seal { (s : State) → IsValid s → IsStorable s → IsWhole (seal s) }
    ensures flush { (s : State) → IsValid s → IsStorable s → IsWhole (flush s) }
    ensures laid { (s : State) → IsValid s → IsStorable s → IsLaid s }
    ensures seal_laid { (s : State) → IsLaid s → IsLaid (seal s) }
    ensures flush_laid { (s : State) → IsLaid s → IsLaid (flush s) }
    ensures seal_hold { (s : State) → IsLaid s → container_of (hold (seal s)) ≡ container_of (hold s) }
    ensures flush_hold { (s : State) → IsLaid s → container_of (hold (flush s)) ≡ container_of (hold s) }
    ensures seal_tables { (s : State) → IsLaid s → KeepsTables s (seal s) }
    ensures flush_tables { (s : State) → IsLaid s → KeepsTables s (flush s) }
    ensures seal_flushed { (s : State) → IsLaid s → flushed s ≤ flushed (seal s) }
    ensures flush_flushed { (s : State) → IsLaid s → flushed s ≤ flushed (flush s) }
    ensures seal_container { (s : State) → (seal s).place.container ≡ s.place.container }
    ensures flush_container { (s : State) → (flush s).place.container ≡ s.place.container }
{}

/// A log with room for a record is whole once it is made ready for it, and the record goes where it would have gone. Where it fits neither
/// into the open block nor after it, there is a further container to go on to.
pub fn logs_are_made_ready()
    ensures ready { (s : State) (entry : LogEntry) → IsValid s → IsStorable s → MayPut s entry
        → IsReadiedFor s (readied s (length entry.bytes)) entry }
    ensures turn { (s : State) (entry : LogEntry) → IsValid s → IsStorable s → MayPut s entry → joins s.shape s.place (length entry.bytes) ≡ false
        → begins_here s.shape s.place (length entry.bytes) ≡ false → MayTurn s }
{
    space_laws();
}

/// A record that a log has room for leaves it laid, and whole where it is a plain one. A restart area leaves it whole once it is on the disk and
/// the base has moved: no older record that isn't on the disk moves one. The sectors that were free above its own stay free, the hold doesn't go back,
/// and what is on the disk stays there.
pub fn records_are_put()
    ensures plain { (s : State) (entry : LogEntry) → IsValid s → IsStorable s → MayPut s entry → entry.kind ≡ Plain → IsWhole (put s entry) }
    ensures laid { (s : State) (entry : LogEntry) → IsValid s → IsStorable s → MayPut s entry → IsLaid (put s entry) }
    ensures restart { (s : State) (entry : LogEntry) → IsValid s → IsStorable s → MayPut s entry
        → MayMove s entry.stream entry.new_base → IsWhole (rebased entry.stream entry.new_base (flush (put s entry))) }
    ensures restart_hold { (s : State) (entry : LogEntry) → IsValid s → IsStorable s → MayPut s entry → MayMove s entry.stream entry.new_base
        → container_of (hold s) ≤ container_of (hold (rebased entry.stream entry.new_base (flush (put s entry)))) }
    ensures tables { (s : State) (entry : LogEntry) → IsValid s → IsStorable s → MayPut s entry → KeepsTables s (put s entry) }
    ensures room { (s : State) (entry : LogEntry) (more : ℕ) → IsValid s → IsStorable s → MayPut s entry
        → reserved s + own (length entry.bytes) + more ≤ free s → reserved (put s entry) + more ≤ free (put s entry) }
    ensures flushed { (s : State) (entry : LogEntry) → IsValid s → IsStorable s → MayPut s entry → flushed s ≤ flushed (put s entry) }
    ensures older { (s : State) (entry : LogEntry) → IsValid s → IsStorable s → MayPut s entry
        → All (λ (other : LogEntry). flushed (put s entry) ≤ other.lsn → other.new_base ≡ 0) s.records }
{
    space_laws();
}

/// An area that is there may hold the sectors for records to come, where they are free and the log has two containers; so it may after a
/// record that was put through it.
pub fn areas_hold_sectors()
    ensures held { (s : State) (area : Area) (sizes : List ℕ) → IsValid s → IsStorable s → IsSome (area_of s area.client area.number)
        → 2 ≤ s.containers → reserved s + own_sum sizes ≤ free s → IsWhole (hold_sizes area sizes s) }
    ensures behind { (s : State) (area : Area) (entry : LogEntry) (sizes : List ℕ) → TakesThrough s area entry (own_sum sizes) → entry.kind ≡ Plain
        → IsWhole (hold_sizes area sizes (put s entry)) }
{
    space_laws();
}

/// The small changes, one after the other, leave what an append and a restart area leave, and put the record where these put it.
pub fn small_changes_make_the_calls()
    ensures lsn { (s : State) (area : Area) (reserved : Bool) (n need : ℕ)
        → next_lsn (spend_if reserved area n (grown s need)) n ≡ next_lsn s n }
    ensures append { (s : State) (area : Area) (draft : Draft) (reserved : Bool) (sizes : List ℕ)
        → flush_if draft.flush (seal_if draft.seal (hold_sizes area sizes
        (put (spend_if reserved area (length draft.bytes) (grown s (need_of reserved (length draft.bytes) sizes))) (plain_record area draft))))
        ≡ appended s area draft reserved sizes }
    ensures restart { (s : State) (area : Area) (bytes : List ℕ) (base : ℕ) (reserved : Bool)
        → rebased area.stream base (flush
        (put (spend_if reserved area (length bytes) (grown s (need_of reserved (length bytes) []))) (restart_record s area bytes base)))
        ≡ restarted s area bytes base reserved }
{}

/// Where an append makes no call on the disk, none of its small changes wants one: the log doesn't grow, no block that is sealed fills the
/// buffers, the log doesn't go on in a further container, and isn't flushed.
pub fn quiet_appends_want_no_disk()
    ensures grown { (s : State) (draft : Draft) (reserved : Bool) (sizes : List ℕ) → append_writes s draft reserved sizes ≡ false
        → grown s (need_of reserved (length draft.bytes) sizes) ≡ s }
    ensures ready { (s : State) (area : Area) (draft : Draft) (reserved : Bool) (sizes : List ℕ) → append_writes s draft reserved sizes ≡ false
        → making_ready_writes (spend_if reserved area (length draft.bytes) (grown s (need_of reserved (length draft.bytes) sizes)))
        (length draft.bytes) ≡ false }
    ensures seal { (s : State) (area : Area) (draft : Draft) (reserved : Bool) (sizes : List ℕ) → append_writes s draft reserved sizes ≡ false
        → draft.seal ≡ true → fills_buffers (hold_sizes area sizes
        (put (spend_if reserved area (length draft.bytes) (grown s (need_of reserved (length draft.bytes) sizes))) (plain_record area draft)))
        ≡ false }
    ensures flush { (s : State) (draft : Draft) (reserved : Bool) (sizes : List ℕ) → append_writes s draft reserved sizes ≡ false
        → draft.flush ≡ false }
{
    space_laws();
}
