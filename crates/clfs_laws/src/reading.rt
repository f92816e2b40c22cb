// What reading gives where it goes on and no other call comes between.
ghost use Rattle.std.specs.Prelude.{◌≡◌, ◌≢◌, ℕ, Bool, false, List, [], ◌∷◌, ◌++◌, length, Some};
ghost use Rattle.std.specs.List.{AllZip};
ghost use Rattle.clfs_lsn.specs.declared.entry.LogEntry.{LogEntry};
ghost use Rattle.clfs_model.specs.declared.call.Call.TheVariants as calls;
ghost use Rattle.clfs_lsn.specs.declared.cursor.Mode.{Mode};
ghost use Rattle.clfs_lsn.specs.declared.cursor.Mode.TheVariants.{Forward};
ghost use Rattle.clfs_model.specs.declared.refusal.Refusal.TheVariants as refusals;
ghost use Rattle.clfs_model.specs.declared.reply.Reply.{Reply};
ghost use Rattle.clfs_model.specs.declared.reply.Reply.TheVariants as replies;
ghost use Rattle.clfs_model.specs.declared.reply.Happened.TheVariants.{Fine};
ghost use Rattle.clfs_model.specs.declared.state.State.{State};
ghost use Rattle.clfs_model.specs.declared.state.Area.{Area};
ghost use Rattle.clfs_lsn.specs.declared.cursor.CursorKind.{CursorKind};
ghost use Rattle.clfs_lsn.specs.declared.cursor.CursorKind.TheVariants.{Records, RestartAreas};
ghost use Rattle.clfs_model.specs.Flush.{flushed};
ghost use Rattle.clfs_model.specs.State.{area_of};
ghost use Rattle.clfs_model.specs.Reading.{chain, restart_areas};
ghost use Rattle.clfs_model.specs.Refusals.{end_of_kind};
ghost use Rattle.clfs_model.specs.Step.{Step, IsReply};
ghost use Rattle.clfs_model.specs.Valid.{IsValid};
ghost use Rattle.clfs_laws.specs.Cursors.{StillGives, read_on, Repeats};

/// Reading after reading gives the members of the chain one by one, and exactly at its end answers that the end of the log is
/// reached, or its start where links are followed. The first call gives the chain's first record, and a cursor before the others; it
/// is refused where there is no record at the LSN. This is so where nothing happens and memory suffices.
pub fn reading_gives_the_chain()
    ensures first { (told : Bool) (s t : State) (client number lsn : ℕ) (mode : Mode) (area : Area) (cursor : ℕ) (read : LogEntry)
        → IsValid s → area_of s client number ≡ Some area → Step told s client (calls.Read number lsn mode) Fine (replies.Found cursor read) t
        → (entry : LogEntry) × (rest : List LogEntry) × (chain s area.stream lsn mode ≡ entry ∷ rest)
        × IsReply told (flushed s) (replies.Found cursor entry) (replies.Found cursor read) × StillGives t client number cursor (Records mode) rest }
    ensures none { (told : Bool) (s t : State) (client number lsn : ℕ) (mode : Mode) (area : Area) (reply : Reply)
        → IsValid s → s.broken ≡ false → area_of s client number ≡ Some area → chain s area.stream lsn mode ≡ []
        → Step told s client (calls.Read number lsn mode) Fine reply t → reply ≢ replies.Refused refusals.NoMemory
        → (reply ≡ replies.Refused (refusals.RecordNonexistent lsn)) × (t ≡ s) }
    ensures next { (told : Bool) (s t : State) (client number cursor : ℕ) (mode : Mode) (entry : LogEntry) (rest : List LogEntry) (reply : Reply)
        → IsValid s → s.broken ≡ false → StillGives s client number cursor (Records mode) (entry ∷ rest)
        → Step told s client (calls.ReadNext number cursor) Fine reply t → reply ≢ replies.Refused refusals.NoMemory
        → IsReply told (flushed s) (replies.Next entry) reply × StillGives t client number cursor (Records mode) rest }
    ensures end_of_log { (told : Bool) (s t : State) (client number cursor : ℕ) (reply : Reply)
        → IsValid s → s.broken ≡ false → StillGives s client number cursor (Records Forward) []
        → Step told s client (calls.ReadNext number cursor) Fine reply t → reply ≢ replies.Refused refusals.NoMemory
        → (reply ≡ replies.Refused refusals.EndOfLog) × (t ≡ s) }
    ensures start_of_log { (told : Bool) (s t : State) (client number cursor : ℕ) (mode : Mode) (reply : Reply)
        → IsValid s → s.broken ≡ false → mode ≢ Forward → StillGives s client number cursor (Records mode) []
        → Step told s client (calls.ReadNext number cursor) Fine reply t → reply ≢ replies.Refused refusals.NoMemory
        → (reply ≡ replies.Refused refusals.StartOfLog) × (t ≡ s) }
{}

/// So with restart areas: the newest comes first, then the older ones one by one, and exactly after the last the answer that there
/// is none.
pub fn restart_areas_come_newest_first()
    ensures first { (told : Bool) (s t : State) (client number : ℕ) (area : Area) (cursor : ℕ) (read : LogEntry)
        → IsValid s → area_of s client number ≡ Some area → Step told s client (calls.ReadRestart number) Fine (replies.Found cursor read) t
        → (entry : LogEntry) × (rest : List LogEntry) × (restart_areas s area.stream ≡ entry ∷ rest)
        × IsReply told (flushed s) (replies.Found cursor entry) (replies.Found cursor read) × StillGives t client number cursor RestartAreas rest }
    ensures none { (told : Bool) (s t : State) (client number : ℕ) (area : Area) (reply : Reply)
        → IsValid s → s.broken ≡ false → area_of s client number ≡ Some area → restart_areas s area.stream ≡ []
        → Step told s client (calls.ReadRestart number) Fine reply t → reply ≢ replies.Refused refusals.NoMemory
        → (reply ≡ replies.Refused refusals.NoRestart) × (t ≡ s) }
    ensures next { (told : Bool) (s t : State) (client number cursor : ℕ) (entry : LogEntry) (rest : List LogEntry) (reply : Reply)
        → IsValid s → s.broken ≡ false → StillGives s client number cursor RestartAreas (entry ∷ rest)
        → Step told s client (calls.PreviousRestart number cursor) Fine reply t → reply ≢ replies.Refused refusals.NoMemory
        → IsReply told (flushed s) (replies.Next entry) reply × StillGives t client number cursor RestartAreas rest }
    ensures end { (told : Bool) (s t : State) (client number cursor : ℕ) (reply : Reply)
        → IsValid s → s.broken ≡ false → StillGives s client number cursor RestartAreas []
        → Step told s client (calls.PreviousRestart number cursor) Fine reply t → reply ≢ replies.Refused refusals.NoMemory
        → (reply ≡ replies.Refused refusals.NoRestart) × (t ≡ s) }
{}

/// Reading on and on with a cursor gives all that it still gives, in order, and then the answer that the end is reached.
pub fn reading_on_gives_all()
    ensures { (told : Bool) (s t : State) (client number cursor : ℕ) (kind : CursorKind) (entries : List LogEntry) (answers : List Reply) (last : Reply)
        → IsValid s → s.broken ≡ false → StillGives s client number cursor kind entries
        → Repeats told s client (read_on kind number cursor) (answers ++ last ∷ []) t → length answers ≡ length entries
        → AllZip (λ (entry : LogEntry) (reply : Reply). IsReply told (flushed s) (replies.Next entry) reply) entries answers × (last ≡ replies.Refused (end_of_kind kind)) }
{}
