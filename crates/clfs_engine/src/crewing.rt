// A crew: threads that append by permits of one shared area, over a log in memory.
//
// The log is made for the crew, and one client has all of it. Its area holds the sectors for all records before the first thread starts, so no append is
// refused: it is answered with an LSN, or there is no memory for it, and then its sector is still held at the end.
ghost use Rattle.std.specs.Prelude.{◌≡◌, ◌+◌, ◌*◌, ◌≤◌, ◌<◌, [], IfOk, OnOk};
ghost use Rattle.clfs_area.specs.Areas.{permit_of};
ghost use Rattle.clfs_command.specs.Command.{most_crew_threads, most_crew_records};
ghost use Rattle.clfs_disk.specs.State.{TellsContents, IsSteady};
ghost use Rattle.clfs_operations.specs.Complete.{IsDone};
ghost use Rattle.clfs_engine.specs.Crew.{crew_log, crew_text, IsCrewText, EndsCrew};
ghost use Rattle.clfs_engine.specs.Work.{NeverFails, HasPlaced, IsAtWork, IsCrewRecord, IsCrewed};
ghost use Rattle.clfs_lsn.specs.Limits.{most_sizes};
ghost use Rattle.clfs_model.specs.Space.{own_sum};
ghost use Rattle.clfs_ports.specs.Cause.{Rises};
ghost use Rattle.clfs_recover.specs.Files.{AreWholeFiles};
ghost use Rattle.clfs_shared.specs.Sessions.{IsOf, own_entries};
ghost use Rattle.clfs_turn.specs.Seats.{IsSameSeat};

use crate::desk::Desk;
use crate::working::{divided, joined, run_workers};
use clfs_area::{AreaState, Ended, LogName, Permit};
use clfs_disk::{Disk, Steady};
use clfs_laws::held_is_by_own_entries;
use clfs_lines::{DONE, NO_MEMORY, printed};
use clfs_lsn::{Bytes, Lsn, Name, Shape, Sizes};
use clfs_manager::Manager;
use clfs_model::{Call, Draft, Reply};
use clfs_operations::{made_log, push_number};
use clfs_ports::Sink;
use clfs_recover::whole_files_pass_the_test;
use clfs_shared::{Closed, Session, SharedLog, ToldJournal};
use clfs_text::push_decimal;
use std::alloc::{AllocError, Global};
use std::marker::{Brand, PhantomData};
use std::sync::ledger::{Blank, Ledger};
use std::sync::{Mutex, Wait};
use std::thread::Threads;

const SHAPE: Shape = Shape {
    block_sectors: 1,
    container_sectors: 1024,
};

const CLIENT: u16 = 1;

/// The bytes of a record.
const RECORD_BYTES: u32 = 8;

// Opens the stream of the crew, and answers its number.
fn opened_stream<D: Disk, W: Wait>(
    rt: &W,
    alloc: Global,
    log: &SharedLog<D, ToldJournal>,
    session: &mut Session,
) -> Result<u16, AllocError>
    requires of { IsOf log.now session.old }
    requires none { own_entries session.old ≡ [] }
    ensures same { IsSameSeat session.old session.new }
    ensures entries { OnOk result (HasPlaced (own_entries session.new) 0) }
{
    let call = Call::OpenStream {
        name: Name::from_vec(b"crew".to_vec(alloc)?),
    };
    match log.step(rt, session, &call) {
        Reply::Stream(number) => Ok(number),
        _ => Err(AllocError),
    }
}

// Makes the area, with a permit that has all parts of it.
fn made_area<S: Ledger, R: Ledger, D: Disk, W: Wait>(
    rt: &W,
    alloc: Global,
    log: &SharedLog<D, ToldJournal>,
    session: Session,
    stream: u16,
    parts: u32,
    sectors: Blank,
    records: Blank,
) -> Result<(AreaState<S, R>, Permit<S, R>), AllocError>
    requires of { IsOf log.now session }
    requires entries { HasPlaced (own_entries session) 0 }
    requires parts { 0 < parts }
    requires sectors { (sectors.name ≡ S.name) × ((sectors.parts ≡ S.parts) × (S.parts ≡ parts)) }
    requires records { (records.name ≡ R.name) × ((records.parts ≡ R.parts) × (R.parts ≡ parts)) }
    ensures area { IfOk result (λ made. IsAtWork log.now made.0) }
    ensures permit { IfOk result (λ made. made.1 ≡ permit_of 0 0 parts) }
{
    let reads = 1;
    match AreaState::new(
        rt,
        alloc,
        log,
        session,
        stream,
        RECORD_BYTES,
        reads,
        parts,
        sectors,
        records,
    ) {
        Ok(made) => Ok(made),
        Err(_) => Err(AllocError),
    }
}

// So many lengths of records.
fn sizes_of(alloc: Global, count: u32) -> Result<Sizes, AllocError>
    requires { count ≤ most_sizes }
    ensures { IfOk result (λ sizes. own_sum sizes ≡ count) }
{
    let mut lengths = Vec::new(alloc);
    for _ in 0..count {
        lengths.push(RECORD_BYTES)?;
    }
    Ok(Sizes::from_vec(lengths))
}

// Reserves the sectors for so many records. A refusal otherwise than for memory is taken as one: a log of so many sectors has room for all records of a
// crew, which isn't proved.
fn reserve_records<S: Ledger, R: Ledger, D: Disk, W: Wait>(
    rt: &W,
    alloc: Global,
    log: &SharedLog<D, ToldJournal>,
    area: &mut AreaState<S, R>,
    permit: &mut Permit<S, R>,
    count: u32,
) -> Result<(), AllocError>
    requires area { IsAtWork log.now area.old }
    requires count { count ≤ most_sizes }
    ensures area { OnOk result (IsAtWork log.now area.new) }
    ensures permit { OnOk result (permit.new ≡ permit_of (permit.old.sectors + count) permit.old.records permit.old.parts) }
{
    let sizes = sizes_of(alloc, count)?;
    match area.reserve(rt, log, permit, &sizes) {
        Ok(_) => Ok(()),
        Err(_) => Err(AllocError),
    }
}

// Reserves the sectors for all records, in calls of as many lengths as one takes.
fn reserve_all<S: Ledger, R: Ledger, D: Disk, W: Wait>(
    rt: &W,
    alloc: Global,
    log: &SharedLog<D, ToldJournal>,
    area: &mut AreaState<S, R>,
    permit: &mut Permit<S, R>,
    count: u32,
) -> Result<(), AllocError>
    requires area { IsAtWork log.now area.old }
    requires none { permit.old.sectors ≡ 0 }
    ensures area { OnOk result (IsAtWork log.now area.new) }
    ensures permit { OnOk result (permit.new ≡ permit_of count permit.old.records permit.old.parts) }
{
    let mut done = 0;
    while done < count {
        let more = (count - done).min(Sizes::MOST as u32);
        reserve_records(rt, alloc, log, area, permit, more)?;
        done += more;
    }
    Ok(())
}

// A record: eight zeros, and no links.
fn record(alloc: Global) -> Result<Draft, AllocError>
    ensures { IfOk result (λ draft. IsCrewRecord draft) }
{
    let mut bytes = Vec::new(alloc);
    bytes.resize(RECORD_BYTES as usize, 0)?;
    Ok(Draft {
        bytes: Bytes::from_vec(bytes),
        previous: Lsn::null(),
        undo_next: Lsn::null(),
        seal: false,
        flush: false,
    })
}

// Lets so many threads append so many records each, by permits of an area that holds the sectors for all.
fn appended<N, S, R, D, W>(
    rt: &W,
    alloc: Global,
    log: &SharedLog<D, ToldJournal>,
    area: AreaState<S, R>,
    permit: Permit<S, R>,
    threads: u32,
    count: u32,
) -> Result<Ended, AllocError>
where
    N: LogName + Send + Sync,
    S: Ledger + Send + Sync,
    R: Ledger + Send + Sync,
    D: Disk + Send + Drop,
    W: Threads + Wait + Sync,
    requires log { log.now ≡ N.log }
    requires calm { NeverFails N.log }
    requires area { IsAtWork log.now area }
    requires permit { permit ≡ permit_of (threads * count) 0 threads }
    requires parts { (S.parts ≡ threads) × (R.parts ≡ threads) }
    requires some { 1 ≤ threads }
    requires few { (threads ≤ most_crew_threads) × (count ≤ most_crew_records) }
    ensures { IfOk result (λ ended. IsCrewed log.now threads count ended.session ended.area ended.held ended.records) }
{
    let mut workers = divided(alloc, permit, threads, count)?;
    let draft = record(alloc)?;
    let desk = Mutex::new(Desk::<N, S, R> {
        area,
        of: PhantomData,
    });
    run_workers(rt, log, &desk, &mut workers, &draft, count);
    let Desk { area, of: _ } = desk.into_inner();
    match joined(workers, count) {
        Some(all) => Ok(area.end(all.into_permit())),
        None => Err(AllocError),
    }
}

// Makes the area of a session, reserves the sectors for all records, and lets the threads append.
fn worked<N, S, R, D, W>(
    rt: &W,
    alloc: Global,
    log: &SharedLog<D, ToldJournal>,
    session: Session,
    threads: u32,
    count: u32,
    sectors: Blank,
    records: Blank,
) -> Result<Ended, AllocError>
where
    N: LogName + Send + Sync,
    S: Ledger + Send + Sync,
    R: Ledger + Send + Sync,
    D: Disk + Send + Drop,
    W: Threads + Wait + Sync,
    requires log { (log.now ≡ N.log) × IsOf log.now session }
    requires calm { NeverFails N.log }
    requires none { own_entries session ≡ [] }
    requires sectors { (sectors.name ≡ S.name) × ((sectors.parts ≡ S.parts) × (S.parts ≡ threads)) }
    requires records { (records.name ≡ R.name) × ((records.parts ≡ R.parts) × (R.parts ≡ threads)) }
    requires some { 1 ≤ threads }
    requires few { (threads ≤ most_crew_threads) × (count ≤ most_crew_records) }
    ensures { IfOk result (λ ended. IsCrewed log.now threads count ended.session ended.area ended.held ended.records) }
{
    let mut session = session;
    let stream = opened_stream(rt, alloc, log, &mut session)?;
    let (mut area, mut permit) = made_area::<S, R, D, W>(
        rt, alloc, log, session, stream, threads, sectors, records,
    )?;
    reserve_all(rt, alloc, log, &mut area, &mut permit, threads * count)?;
    appended::<N, S, R, D, W>(rt, alloc, log, area, permit, threads, count)
}

// The line that is printed.
fn crew_text(
    alloc: Global,
    threads: u32,
    count: u32,
    records: u64,
    held: u32,
) -> Result<Bytes, AllocError>
    ensures { IfOk result (λ text. text ≡ crew_text threads count records held) }
{
    let mut text = Bytes::new(alloc);
    push_number(b"crew ", threads, &mut text)?;
    push_number(b" ", count, &mut text)?;
    text.extend_from_slice(b" records ")?;
    push_decimal(records, &mut text)?;
    push_number(b" held ", held, &mut text)?;
    text.extend_from_slice(b"\n")?;
    Ok(text)
}

// Lets a crew append over a log that was just made, and gives the line that is printed.
fn crewed<D: Disk + Send + Drop, W: Threads + Wait + Sync>(
    rt: &W,
    alloc: Global,
    manager: Manager<D>,
    threads: u32,
    count: u32,
) -> Result<Bytes, AllocError>
    requires state { manager.0 ≡ crew_log }
    requires told { TellsContents (D.state manager.1) }
    requires steady { IsSteady (D.state manager.1) }
    requires whole { AreWholeFiles (D.state manager.1).files }
    requires some { 1 ≤ threads }
    requires few { (threads ≤ most_crew_threads) × (count ≤ most_crew_records) }
    ensures { IfOk result (λ text. IsCrewText threads count text) }
{
    held_is_by_own_entries();
    whole_files_pass_the_test();
    let Ok((log, mut sessions)) = SharedLog::start_told(alloc, manager, &[CLIENT]) else {
        return Err(AllocError);
    };
    let Some(session) = sessions.pop() else {
        return Err(AllocError);
    };
    let parts = threads as u64;
    let ended = worked::<Brand, Brand, Brand, D, W>(
        rt,
        alloc,
        &log,
        session,
        threads,
        count,
        Blank::new(parts),
        Blank::new(parts),
    )?;
    let Ended {
        session,
        area: _,
        held,
        records,
    } = ended;
    sessions.push(session)?;
    let Closed {
        manager,
        journal: _,
    } = log.close(sessions);
    let _disk = manager.close();
    crew_text(alloc, threads, count, records, held)
}

// Lets a crew append over a log on a disk without one, and gives the line that is printed.
fn crewed_on<D: Disk + Send + Drop, W: Threads + Wait + Sync>(
    rt: &W,
    alloc: Global,
    disk: D,
    threads: u32,
    count: u32,
) -> Result<Bytes, AllocError>
    requires told { TellsContents (D.state disk) }
    requires steady { IsSteady (D.state disk) }
    requires some { 1 ≤ threads }
    requires few { (threads ≤ most_crew_threads) × (count ≤ most_crew_records) }
    ensures { IfOk result (λ text. IsCrewText threads count text) }
{
    let manager = made_log(alloc, disk, SHAPE)?;
    crewed(rt, alloc, manager, threads, count)
}

// Lets a crew append over a log in memory, and gives the line that is printed.
fn crew_line<W: Threads + Wait + Sync>(
    rt: &W,
    alloc: Global,
    threads: u32,
    count: u32,
) -> Result<Bytes, AllocError>
    requires some { 1 ≤ threads }
    requires few { (threads ≤ most_crew_threads) × (count ≤ most_crew_records) }
    ensures { IfOk result (λ text. IsCrewText threads count text) }
{
    let disk = Steady::new(alloc)?;
    crewed_on(rt, alloc, disk, threads, count)
}

/// Lets so many threads append so many records of eight bytes each, by permits of one shared area of a log in memory. It prints how many records there
/// are then, and how many sectors the area still holds.
pub fn crew<K: Sink, W: Threads + Wait + Sync>(
    rt: &W,
    alloc: Global,
    threads: u32,
    count: u32,
    sink: &mut K,
) -> u8
    requires some { 1 ≤ threads }
    requires few { (threads ≤ most_crew_threads) × (count ≤ most_crew_records) }
    ensures ends { EndsCrew result threads count (K.written sink.old) (K.written sink.new) (K.faults sink.old) (K.faults sink.new) }
    ensures complete { (Rises (K.faults sink.old) (K.faults sink.new) → ⊥) → IsDone result }
{
    match crew_line(rt, alloc, threads, count) {
        Ok(text) => printed(sink, text.as_slice(), DONE),
        Err(_) => NO_MEMORY,
    }
}
