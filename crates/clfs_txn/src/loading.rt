// Loading: how a store comes to be over a log. The stream is opened and gets an area. A stream without live records gets a restart area of zeros; else
// the newest restart area is read and all records above it, once and in order. What was committed counts whatever follows it, so the records are kept
// until the last one is read. All that loading changes in the log is that stream, that area and that first restart area: it changes no table.
ghost use Rattle.std.specs.Prelude.{◌≡◌, ◌<◌, ◌-◌, ℕ, Bool, IfErr, IfOk, IsErr, IsErrOf, List, OnOk, Ok, Err, [], false, length, true};
ghost use Rattle.clfs_disk.specs.Files.{Unchanged};
ghost use Rattle.clfs_disk.specs.State.{Passes, TellsContents};
ghost use Rattle.clfs_lsn.specs.declared.cursor.Mode.TheVariants.{Forward};
ghost use Rattle.clfs_lsn.specs.declared.entry.LogEntry.{LogEntry as Record};
ghost use Rattle.clfs_model.specs.Conditions.{IsClient};
ghost use Rattle.clfs_model.specs.State.{areas_of};
ghost use Rattle.clfs_model.specs.declared.call.Call.TheVariants as calls;
ghost use Rattle.clfs_model.specs.declared.refusal.Refusal.TheVariants as log_refusals;
ghost use Rattle.clfs_model.specs.declared.reply.Reply.TheVariants as replies;
ghost use Rattle.clfs_manager.specs.Calls.{Steps};
ghost use Rattle.clfs_manager.specs.Written.{WritesDisk};
ghost use Rattle.clfs_cells.specs.Layout.{blank_checkpoint, txn_record_of};
ghost use Rattle.clfs_cells.specs.Loading.{Loaded, LoadStep, gives_up, in_table_area, load_above, load_area, load_new, load_plan, load_stream, load_table, memory_of, read_records};
ghost use Rattle.clfs_cells.specs.Plans.{Plan, ends};
ghost use Rattle.clfs_cells.specs.Stored.{Memory as Kept};
ghost use Rattle.clfs_cells.specs.Table.{table_name};
ghost use Rattle.clfs_cells.specs.declared.row.TxnRecord.{TxnRecord as Row};
ghost use Rattle.clfs_cells.specs.declared.told.TxnLoadRefusal.TheVariants as refusals;
ghost use Rattle.clfs_cells.specs.declared.told.TxnLoadRefusal.{TxnLoadRefusal as Cause};
ghost use Rattle.clfs_cells_laws.specs.Loads.{IsLoaded, IsNotLoaded};
ghost use Rattle.clfs_txn.specs.Calls.{HasSameArea, LeadsTo};
ghost use Rattle.clfs_txn.specs.UnderWay.{CrashLeaves, LeavesCall, LeavesCalls, Meanwhile, UnderWay};
ghost use Rattle.clfs_txn.specs.Loading.{GoesForward, IsJoined, IsNotTaken, Taken, left_by, loaded_of, or_all_read, or_ended_read, or_given_up, or_refused, says_broken, to_come, unread};
ghost use Rattle.clfs_txn.specs.Reading.{IsAt};

use crate::asking::breaks;
use crate::table::TableLog;
use clfs_cells::{CHECKPOINT_BYTES, Checkpoint, Memory, Replay, TxnLoadRefusal, TxnRecord};
use clfs_cells_laws::loading_comes_to_the_table;
use clfs_disk::Disk;
use clfs_laws::{
    broken_stays, faults_break, reading_gives_the_chain, steps_only_add_records, unbroken_stays,
};
use clfs_lsn::{LogEntry, Lsn, Name};
use clfs_manager::Manager;
use clfs_model::{LogInfo, Mode, Refusal, ways_of_a_step};
use std::alloc::{AllocError, Global};

// The cursors that the table's area has at a time.
const AREA_READS: u16 = 2;

/// A table wasn't loaded. The log is given back.
#[derive(Drop)]
pub struct TxnLoadRefused<D: Disk> {
    /// The log.
    pub manager: Manager<D>,
    /// Why.
    pub cause: TxnLoadRefusal,
}

// The name of the stream that keeps a table.
fn stream_name(alloc: Global) -> Result<Name, AllocError>
    ensures name { IfOk result (λ name. name ≡ table_name) }
{
    let bytes = Vec::from_slice(alloc, b"txn")?;
    Ok(Name::from_vec(bytes))
}

// Whether a log answered that it is broken.
fn says_broken<T>(reply: &Result<T, Refusal>) -> bool
    ensures { result ≡ says_broken reply.now }
{
    matches!(reply, Err(Refusal::Broken))
}

// Whether a log is broken, which it tells before all else.
fn is_broken<D: Disk>(manager: &Manager<D>) -> bool
    ensures { result ≡ manager.now.0.broken }
{
    broken_stays();
    unbroken_stays();
    let reply = manager.info(1);
    says_broken(&reply)
}

// The stream of a table, which is made where the log has none.
fn open_stream<D: Disk>(
    alloc: Global,
    manager: &mut Manager<D>,
    client: u16,
) -> Result<u16, Refusal>
    requires client { IsClient client }
    ensures step { (told : Bool) → Steps told manager.old.0 client (calls.OpenStream table_name) replies.Stream result manager.new.0 }
    ensures moments { (under : UnderWay) → manager.old.0.broken ≡ false → LeavesCall under client (calls.OpenStream table_name) manager.old.0
        → CrashLeaves under (D.state manager.old.1) (D.state manager.new.1) }
    ensures writes { WritesDisk (IsErrOf result log_refusals.DiskFault) (D.state manager.old.1) (D.state manager.new.1) }
    ensures stopped { manager.old.0.broken ≡ true → manager.new.1 ≡ manager.old.1 }
{
    ways_of_a_step();
    manager.stored();
    if is_broken(manager) {
        return Err(Refusal::Broken);
    }
    let name = stream_name(alloc)?;
    manager.open_stream(client, &name)
}

// An area of the client on the stream, with all other memory that a store keeps.
fn create_area<D: Disk>(
    alloc: Global,
    manager: &mut Manager<D>,
    client: u16,
    stream: u16,
) -> Result<Memory, Refusal>
    requires client { IsClient client }
    requires whole { manager.old.0.broken ≡ false }
    ensures step { (told : Bool) → Steps told manager.old.0 client (calls.CreateArea stream 260 2) (λ (m : Kept). replies.Area m.area) result manager.new.0 }
    ensures memory { IfOk result (λ m. m ≡ unread client m.area stream) }
    ensures disk { manager.new.1 ≡ manager.old.1 }
{
    ways_of_a_step();
    let mut memory = Memory::new(alloc, client, 0, stream, Checkpoint::new())?;
    match manager.create_area(client, stream, CHECKPOINT_BYTES as u32, AREA_READS) {
        Ok(area) => {
            memory.set_area(area);
            Ok(memory)
        }
        Err(refusal) => Err(refusal),
    }
}

// The stream is opened, and the client gets its area on it.
fn make_area<D: Disk>(
    alloc: Global,
    manager: &mut Manager<D>,
    client: u16,
) -> Result<Memory, Refusal>
    requires client { IsClient client }
    ensures step { (told : Bool) (rest : ℕ → ℕ → Plan Loaded)
        → LeadsTo Loaded told client manager.old.0 (in_table_area rest) manager.new.0 (or_refused rest result) }
    ensures moments { (under : UnderWay) → manager.old.0.broken ≡ false → LeavesCall under client (calls.OpenStream table_name) manager.old.0
        → CrashLeaves under (D.state manager.old.1) (D.state manager.new.1) }
    ensures memory { IfOk result (λ m. m ≡ unread client m.area m.stream) }
    ensures writes { WritesDisk (IsErrOf result log_refusals.DiskFault) (D.state manager.old.1) (D.state manager.new.1) }
    ensures was_whole { OnOk result (manager.old.0.broken ≡ false) }
    ensures whole { OnOk result (manager.new.0.broken ≡ false) }
    ensures records { OnOk result (manager.new.0.records ≡ manager.old.0.records) }
    ensures stopped { manager.old.0.broken ≡ true → manager.new.1 ≡ manager.old.1 }
    ensures no_damage { (container offset at : ℕ) → IsErrOf result (log_refusals.Damaged container offset at) → ⊥ }
{
    broken_stays();
    unbroken_stays();
    manager.stored();
    match open_stream(alloc, manager, client) {
        Ok(stream) => create_area(alloc, manager, client, stream),
        Err(refusal) => Err(refusal),
    }
}

// A record that was read joins those before it.
fn take(entry: &LogEntry, replay: &mut Replay) -> Result<(), TxnLoadRefusal>
    ensures taken { OnOk result (Taken entry.now replay.old replay.new) }
    ensures refused { IfErr result (λ cause. IsNotTaken entry.now cause) }
{
    let Some(row) = TxnRecord::from_bytes(entry.bytes.as_slice()) else {
        return Err(TxnLoadRefusal::NotATable { lsn: entry.lsn });
    };
    match replay.add(row) {
        Ok(()) => Ok(()),
        Err(_) => Err(TxnLoadRefusal::Log(Refusal::NoMemory)),
    }
}

// What comes of a reply to reading on: a record joins those before it, or there is none more.
fn join(reply: Result<LogEntry, Refusal>, replay: &mut Replay) -> Result<bool, TxnLoadRefusal>
    ensures joined { IsJoined reply replay.old replay.new result }
{
    match reply {
        Ok(entry) => match take(&entry, replay) {
            Ok(()) => Ok(true),
            Err(cause) => Err(cause),
        },
        Err(Refusal::EndOfLog) => Ok(false),
        Err(refusal) => Err(TxnLoadRefusal::Log(refusal)),
    }
}

impl<D: Disk> TableLog<D> {
    // The newest restart area of the stream, with a cursor at it.
    fn read_restart(&mut self) -> Result<(u16, LogEntry), Refusal>
        requires { self.old.0.log.broken ≡ false }
        ensures step { Steps (D.state self.old.1).nature.tells_contents self.old.0.log self.old.0.memory.client
            (calls.ReadRestart self.old.0.memory.area) (λ (found : ℕ × Record). replies.Found found.0 found.1) result self.new.0.log }
        ensures time { Passes Unchanged (D.state self.old.1) (D.state self.new.1) }
        ensures writes { WritesDisk (IsErrOf result log_refusals.DiskFault) (D.state self.old.1) (D.state self.new.1) }
        ensures memory { self.new.0.memory ≡ self.old.0.memory }
        ensures whole { OnOk result (self.new.0.log.broken ≡ false) }
        ensures damage { TellsContents (D.state self.old.1) → (container offset at : ℕ) → IsErrOf result (log_refusals.Damaged container offset at) → ⊥ }
    {
        faults_break();
        unbroken_stays();
        steps_only_add_records();
        self.manager.stored();
        let reply = self
            .manager
            .read_restart(self.memory.client(), self.memory.area());
        self.broken = breaks(&reply);
        reply
    }

    // The client's area goes, whatever became of the log.
    fn delete_area(&mut self)
        ensures step { (told : Bool) (cause : Cause)
            → LeadsTo Loaded told self.old.0.memory.client self.old.0.log (gives_up self.old.0.memory.area cause) self.new.0.log (ends (Err cause)) }
        ensures disk { self.new.1 ≡ self.old.1 }
    {
        broken_stays();
        unbroken_stays();
        steps_only_add_records();
        self.manager.stored();
        let _ = self
            .manager
            .delete_area(self.memory.client(), self.memory.area());
    }

    // Reads on, and whether there was a further record.
    fn read_record(&mut self, cursor: u16, replay: &mut Replay) -> Result<bool, TxnLoadRefusal>
        requires whole { self.old.0.log.broken ≡ false }
        requires forward { GoesForward self.old.0.log self.old.0.memory.client self.old.0.memory.area cursor }
        ensures step { (more : ℕ) (all : List Row → Kept)
            → length (to_come self.old.0.log self.old.0.memory.client self.old.0.memory.area cursor) < more
            → LeadsTo Loaded (D.state self.old.1).nature.tells_contents self.old.0.memory.client self.old.0.log
            (read_records more self.old.0.memory.area cursor replay.old all) self.new.0.log
            (or_ended_read (more - 1) self.old.0.memory.area cursor replay.new all result) }
        ensures time { Passes Unchanged (D.state self.old.1) (D.state self.new.1) }
        ensures writes { WritesDisk (IsErrOf result (refusals.Log log_refusals.DiskFault)) (D.state self.old.1) (D.state self.new.1) }
        ensures memory { self.new.0.memory ≡ self.old.0.memory }
        ensures whole { OnOk result (self.new.0.log.broken ≡ false) }
        ensures forward { result ≡ Ok true → GoesForward self.new.0.log self.old.0.memory.client self.old.0.memory.area cursor }
        ensures fewer { result ≡ Ok true → length (to_come self.new.0.log self.old.0.memory.client self.old.0.memory.area cursor)
            < length (to_come self.old.0.log self.old.0.memory.client self.old.0.memory.area cursor) }
        ensures damage { TellsContents (D.state self.old.1) → (container offset at : ℕ) → IsErrOf result (refusals.Log (log_refusals.Damaged container offset at)) → ⊥ }
    {
        reading_gives_the_chain();
        ways_of_a_step();
        broken_stays();
        unbroken_stays();
        self.manager.stored();
        let reply = self.read_next(cursor);
        join(reply, replay)
    }

    // Reads all records that are to come.
    fn read_all(&mut self, cursor: u16, replay: &mut Replay) -> Result<(), TxnLoadRefusal>
        requires whole { self.old.0.log.broken ≡ false }
        requires forward { GoesForward self.old.0.log self.old.0.memory.client self.old.0.memory.area cursor }
        ensures step { (more : ℕ) (all : List Row → Kept)
            → length (to_come self.old.0.log self.old.0.memory.client self.old.0.memory.area cursor) < more
            → LeadsTo Loaded (D.state self.old.1).nature.tells_contents self.old.0.memory.client self.old.0.log
            (read_records more self.old.0.memory.area cursor replay.old all) self.new.0.log
            (or_all_read self.old.0.memory.area cursor replay.new all result) }
        ensures time { Passes Unchanged (D.state self.old.1) (D.state self.new.1) }
        ensures writes { WritesDisk (IsErrOf result (refusals.Log log_refusals.DiskFault)) (D.state self.old.1) (D.state self.new.1) }
        ensures memory { self.new.0.memory ≡ self.old.0.memory }
        ensures damage { TellsContents (D.state self.old.1) → (container offset at : ℕ) → IsErrOf result (refusals.Log (log_refusals.Damaged container offset at)) → ⊥ }
    {
        while self.read_record(cursor, replay)? {}
        Ok(())
    }

    // Reads all records that are to come, and brings the restart area up to date by them.
    fn read_records(&mut self, cursor: u16, restart: &Checkpoint) -> Result<(), TxnLoadRefusal>
        requires whole { self.old.0.log.broken ≡ false }
        requires forward { GoesForward self.old.0.log self.old.0.memory.client self.old.0.memory.area cursor }
        requires none { self.old.0.memory.transactions ≡ [] }
        ensures step { (more : ℕ) → length (to_come self.old.0.log self.old.0.memory.client self.old.0.memory.area cursor) < more
            → LeadsTo Loaded (D.state self.old.1).nature.tells_contents self.old.0.memory.client self.old.0.log
            (read_records more self.old.0.memory.area cursor [] (memory_of self.old.0.memory.client self.old.0.memory.area self.old.0.memory.stream restart.now))
            self.new.0.log (or_given_up self.new.0.memory result) }
        ensures time { Passes Unchanged (D.state self.old.1) (D.state self.new.1) }
        ensures writes { WritesDisk (IsErrOf result (refusals.Log log_refusals.DiskFault)) (D.state self.old.1) (D.state self.new.1) }
        ensures area { HasSameArea self.old.0.memory self.new.0.memory }
        ensures damage { TellsContents (D.state self.old.1) → (container offset at : ℕ) → IsErrOf result (refusals.Log (log_refusals.Damaged container offset at)) → ⊥ }
    {
        let mut replay = Replay::new(self.alloc);
        self.read_all(cursor, &mut replay)?;
        self.end_read(cursor);
        self.memory.set_table(&replay.replayed(restart));
        Ok(())
    }

    // Reads the records above a restart area, by its LSN.
    fn load_above(&mut self, restart: &Checkpoint, lsn: Lsn) -> Result<(), TxnLoadRefusal>
        requires whole { self.old.0.log.broken ≡ false }
        requires none { self.old.0.memory.transactions ≡ [] }
        ensures step { LeadsTo Loaded (D.state self.old.1).nature.tells_contents self.old.0.memory.client self.old.0.log
            (load_above (length self.old.0.log.records) self.old.0.memory.client self.old.0.memory.area self.old.0.memory.stream restart.now lsn)
            self.new.0.log (or_given_up self.new.0.memory result) }
        ensures time { Passes Unchanged (D.state self.old.1) (D.state self.new.1) }
        ensures writes { WritesDisk (IsErrOf result (refusals.Log log_refusals.DiskFault)) (D.state self.old.1) (D.state self.new.1) }
        ensures area { HasSameArea self.old.0.memory self.new.0.memory }
        ensures damage { TellsContents (D.state self.old.1) → (container offset at : ℕ) → IsErrOf result (refusals.Log (log_refusals.Damaged container offset at)) → ⊥ }
    {
        reading_gives_the_chain();
        self.manager.stored();
        let (cursor, _) = self.read(lsn, Mode::Forward)?;
        self.read_records(cursor, restart)
    }

    // Reads the table of a stream that has a restart area.
    fn load_table(&mut self) -> Result<(), TxnLoadRefusal>
        requires whole { self.old.0.log.broken ≡ false }
        requires none { self.old.0.memory.transactions ≡ [] }
        ensures step { LeadsTo Loaded (D.state self.old.1).nature.tells_contents self.old.0.memory.client self.old.0.log
            (load_table (length self.old.0.log.records) self.old.0.memory.client self.old.0.memory.area self.old.0.memory.stream)
            self.new.0.log (or_given_up self.new.0.memory result) }
        ensures time { Passes Unchanged (D.state self.old.1) (D.state self.new.1) }
        ensures writes { WritesDisk (IsErrOf result (refusals.Log log_refusals.DiskFault)) (D.state self.old.1) (D.state self.new.1) }
        ensures area { HasSameArea self.old.0.memory self.new.0.memory }
        ensures damage { TellsContents (D.state self.old.1) → (container offset at : ℕ) → IsErrOf result (refusals.Log (log_refusals.Damaged container offset at)) → ⊥ }
    {
        let (cursor, restart) = self.read_restart()?;
        self.end_read(cursor);
        match Checkpoint::from_bytes(restart.bytes.as_slice()) {
            Some(checkpoint) => self.load_above(&checkpoint, restart.lsn),
            None => Err(TxnLoadRefusal::NotATable { lsn: restart.lsn }),
        }
    }

    // Writes the first restart area of a stream that has no live record.
    fn write_first(&mut self) -> Result<(), TxnLoadRefusal>
        requires whole { self.old.0.log.broken ≡ false }
        requires unread { self.old.0.memory ≡ unread self.old.0.memory.client self.old.0.memory.area self.old.0.memory.stream }
        ensures step { (told : Bool) → LeadsTo Loaded told self.old.0.memory.client self.old.0.log
            (load_new self.old.0.memory.client self.old.0.memory.area self.old.0.memory.stream) self.new.0.log (or_given_up self.new.0.memory result) }
        ensures moments { (under : UnderWay) → Meanwhile under (D.state self.old.1).nature.tells_contents self.old.0.memory.client self.old.0.log
            (load_new self.old.0.memory.client self.old.0.memory.area self.old.0.memory.stream) (D.state self.old.1) (D.state self.new.1) }
        ensures writes { WritesDisk (IsErrOf result (refusals.Log log_refusals.DiskFault)) (D.state self.old.1) (D.state self.new.1) }
        ensures area { HasSameArea self.old.0.memory self.new.0.memory }
        ensures damage { TellsContents (D.state self.old.1) → (container offset at : ℕ) → IsErrOf result (refusals.Log (log_refusals.Damaged container offset at)) → ⊥ }
    {
        match self.write_restart(Lsn::null()) {
            Ok(_) => Ok(()),
            Err(refusal) => Err(TxnLoadRefusal::Log(refusal)),
        }
    }

    // Reads the table of a stream that is like this, or makes it.
    fn load_of(&mut self, info: &LogInfo) -> Result<(), TxnLoadRefusal>
        requires whole { self.old.0.log.broken ≡ false }
        requires unread { self.old.0.memory ≡ unread self.old.0.memory.client self.old.0.memory.area self.old.0.memory.stream }
        ensures step { LeadsTo Loaded (D.state self.old.1).nature.tells_contents self.old.0.memory.client self.old.0.log
            (load_stream (length self.old.0.log.records) self.old.0.memory.client self.old.0.memory.area self.old.0.memory.stream info.now)
            self.new.0.log (or_given_up self.new.0.memory result) }
        ensures moments { (under : UnderWay) → Meanwhile under (D.state self.old.1).nature.tells_contents self.old.0.memory.client self.old.0.log
            (load_stream (length self.old.0.log.records) self.old.0.memory.client self.old.0.memory.area self.old.0.memory.stream info.now) (D.state self.old.1) (D.state self.new.1) }
        ensures writes { WritesDisk (IsErrOf result (refusals.Log log_refusals.DiskFault)) (D.state self.old.1) (D.state self.new.1) }
        ensures area { HasSameArea self.old.0.memory self.new.0.memory }
        ensures damage { TellsContents (D.state self.old.1) → (container offset at : ℕ) → IsErrOf result (refusals.Log (log_refusals.Damaged container offset at)) → ⊥ }
    {
        if info.last == Lsn::null() {
            return self.write_first();
        }
        if info.restart == Lsn::null() {
            return Err(TxnLoadRefusal::NotATable { lsn: info.last });
        }
        self.load_table()
    }

    // What a stream's records begin with.
    fn load_stream(&mut self) -> Result<(), TxnLoadRefusal>
        requires whole { self.old.0.log.broken ≡ false }
        requires unread { self.old.0.memory ≡ unread self.old.0.memory.client self.old.0.memory.area self.old.0.memory.stream }
        ensures step { LeadsTo Loaded (D.state self.old.1).nature.tells_contents self.old.0.memory.client self.old.0.log
            (load_area (length self.old.0.log.records) self.old.0.memory.client self.old.0.memory.area self.old.0.memory.stream)
            self.new.0.log (or_given_up self.new.0.memory result) }
        ensures moments { (under : UnderWay) → Meanwhile under (D.state self.old.1).nature.tells_contents self.old.0.memory.client self.old.0.log
            (load_area (length self.old.0.log.records) self.old.0.memory.client self.old.0.memory.area self.old.0.memory.stream) (D.state self.old.1) (D.state self.new.1) }
        ensures writes { WritesDisk (IsErrOf result (refusals.Log log_refusals.DiskFault)) (D.state self.old.1) (D.state self.new.1) }
        ensures area { HasSameArea self.old.0.memory self.new.0.memory }
        ensures damage { TellsContents (D.state self.old.1) → (container offset at : ℕ) → IsErrOf result (refusals.Log (log_refusals.Damaged container offset at)) → ⊥ }
    {
        match self.info() {
            Ok(info) => self.load_of(&info),
            Err(refusal) => Err(TxnLoadRefusal::Log(refusal)),
        }
    }

    // A store whose table isn't read yet.
    fn over(alloc: Global, manager: Manager<D>, memory: Memory) -> TableLog<D>
        requires whole { manager.0.broken ≡ false }
        requires client { IsClient memory.client }
        requires none { memory.transactions ≡ [] }
        ensures log { result.0.log ≡ manager.0 }
        ensures memory { result.0.memory ≡ memory }
        ensures disk { result.1 ≡ manager.1 }
    {
        TableLog {
            alloc,
            manager,
            memory,
            broken: false,
        }
    }

    // The store with its table, or its log if that can't be read.
    fn loaded(self) -> Result<TableLog<D>, TxnLoadRefused<D>>
        requires whole { self.0.log.broken ≡ false }
        requires unread { self.0.memory ≡ unread self.0.memory.client self.0.memory.area self.0.memory.stream }
        ensures step { LeadsTo Loaded (D.state self.1).nature.tells_contents self.0.memory.client self.0.log
            (load_area (length self.0.log.records) self.0.memory.client self.0.memory.area self.0.memory.stream)
            (left_by (λ store. store.0.log) (λ refused. refused.manager.0) result) (ends (loaded_of (λ store. store.0.memory) (λ refused. refused.cause) result)) }
        ensures moments { (under : UnderWay) → Meanwhile under (D.state self.1).nature.tells_contents self.0.memory.client self.0.log
            (load_area (length self.0.log.records) self.0.memory.client self.0.memory.area self.0.memory.stream)
            (D.state self.1) (D.state (left_by (λ store. store.1) (λ refused. refused.manager.1) result)) }
        ensures writes { WritesDisk (IfErr result (λ refused. refused.cause ≡ refusals.Log log_refusals.DiskFault) × IsErr result)
            (D.state self.1) (D.state (left_by (λ store. store.1) (λ refused. refused.manager.1) result)) }
        ensures damage { TellsContents (D.state self.1) → IfErr result (λ refused. (container offset at : ℕ)
            → refused.cause ≡ refusals.Log (log_refusals.Damaged container offset at) → ⊥) }
    {
        let mut store = self;
        match store.load_stream() {
            Ok(()) => Ok(store),
            Err(cause) => {
                store.delete_area();
                let manager = store.close();
                Err(TxnLoadRefused { manager, cause })
            }
        }
    }

    // The table that a log's stream `txn` keeps, for a client.
    pub(crate) fn load(
        alloc: Global,
        manager: Manager<D>,
        client: u16,
    ) -> Result<TableLog<D>, TxnLoadRefused<D>>
        requires client { IsClient client }
        requires area { areas_of manager.0 client ≡ [] }
        ensures step { LoadStep (D.state manager.1).nature.tells_contents manager.0 client
            (loaded_of (λ store. store.0.memory) (λ refused. refused.cause) result) (left_by (λ store. store.0.log) (λ refused. refused.manager.0) result) }
        ensures moments { (under : UnderWay) → manager.0.broken ≡ false → CrashLeaves under (D.state manager.1) (D.state manager.1)
            → LeavesCalls under (D.state manager.1).nature.tells_contents client manager.0 (load_plan (length manager.0.records) client)
            → CrashLeaves under (D.state manager.1) (D.state (left_by (λ store. store.1) (λ refused. refused.manager.1) result)) }
        ensures loaded { IfOk result (λ store. IsLoaded (D.state manager.1).nature.tells_contents manager.0 client store.0.memory store.0.log) }
        ensures refused { IfErr result (λ refused. IsNotLoaded (D.state manager.1).nature.tells_contents manager.0 client refused.cause refused.manager.0) }
        ensures writes { WritesDisk (IfErr result (λ refused. refused.cause ≡ refusals.Log log_refusals.DiskFault) × IsErr result)
            (D.state manager.1) (D.state (left_by (λ store. store.1) (λ refused. refused.manager.1) result)) }
        ensures damage { TellsContents (D.state manager.1) → IfErr result (λ refused. (container offset at : ℕ)
            → refused.cause ≡ refusals.Log (log_refusals.Damaged container offset at) → ⊥) }
        ensures stopped { manager.0.broken ≡ true → left_by (λ store. store.1) (λ refused. refused.manager.1) result ≡ manager.1 }
    {
        loading_comes_to_the_table();
        manager.stored();
        let mut manager = manager;
        match make_area(alloc, &mut manager, client) {
            Ok(memory) => TableLog::over(alloc, manager, memory).loaded(),
            Err(refusal) => {
                let cause = TxnLoadRefusal::Log(refusal);
                Err(TxnLoadRefused { manager, cause })
            }
        }
    }
}
