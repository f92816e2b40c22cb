// A crowd: threads that append and share their flushes, over a log in memory.
//
// The log is made for the crowd. Each thread has a client of its own, and client 64 makes the flushes of all. When the threads are done the log is closed,
// and what they counted is then read off its journal: the records are its appends that were answered with an LSN, and those that the group answered for
// lie below what is on the disk at its end. No append was refused: the log has a sector for each of them. The group answered for each: a flush takes no
// memory. A full journal alone could have had no room for it, so closing the log looks whether this one may have been.
ghost use Rattle.std.specs.Prelude.{◌≡◌, ℕ, ◌+◌, ◌≤◌, ◌<◌, true, [], length, map, slice_index_or, All, IfOk, OnOk};
ghost use Rattle.clfs_command.specs.Command.{most_crew_threads, most_crew_records};
ghost use Rattle.clfs_disk.specs.State.{TellsContents, IsSteady};
ghost use Rattle.clfs_engine.specs.Commits.{MemberState, IsMember, IsQuiet, IsGathered, client_of_member, has_made};
ghost use Rattle.clfs_operations.specs.Complete.{IsDone};
ghost use Rattle.clfs_engine.specs.Crowd.{crowd_log, crowd_text, IsCrowdText, EndsCrowd};
ghost use Rattle.clfs_engine.specs.Work.{IsCrewRecord, NeverFails, record_bytes};
ghost use Rattle.clfs_ports.specs.Cause.{Rises};
ghost use Rattle.clfs_recover.specs.Files.{AreWholeFiles};
ghost use Rattle.clfs_shared.specs.Sessions.{IsOf, own_entries};
ghost use Rattle.clfs_turn.specs.Lists.{are_distinct};
ghost use Rattle.clfs_turn.specs.Seats.{IsNewSeat, IsSameSeat};

use crate::members::{Member, Totals, members_of, run_members, totals_of};
use clfs_disk::{Disk, Steady};
use clfs_group::{Group, GroupName, what_is_stable_stays};
use clfs_laws::{
    fronts_are_legal, held_is_by_own_entries, plain_work_takes_its_own_sectors,
    refusals_are_the_calls_own, rows_are_by_own_entries, steps_keep_a_state_valid, unbroken_stays,
};
use clfs_lines::{DONE, NO_MEMORY, printed};
use clfs_lsn::{Bytes, Lsn, Name, Shape};
use clfs_manager::Manager;
use clfs_model::{Call, Draft, Reply};
use clfs_operations::{made_log, push_number};
use clfs_ports::Sink;
use clfs_recover::whole_files_pass_the_test;
use clfs_shared::{Closed, Recorder, Session, SharedLog, ToldJournal};
use std::alloc::{AllocError, Global};
use std::marker::Brand;
use std::sync::Wait;
use std::thread::Threads;

const SHAPE: Shape = Shape {
    block_sectors: 1,
    container_sectors: 1024,
};

// The clients of the largest crowd. The last of them makes the flushes.
const CLIENTS: [u16; 9] = [8, 7, 6, 5, 4, 3, 2, 1, 64];

/// The bytes of a record.
const RECORD_BYTES: u32 = 8;

// A journal of fewer calls has room for a further one of each client.
const MOST_CALLS: u64 = 1 << 57;

// Opens the stream of the crowd, and answers its number.
fn opened_stream<D: Disk, W: Wait>(
    rt: &W,
    alloc: Global,
    log: &SharedLog<D, ToldJournal>,
    session: &mut Session,
) -> Result<u16, AllocError>
    requires of { IsOf log.now session.old }
    requires none { own_entries session.old ≡ [] }
    ensures same { IsSameSeat session.old session.new }
    ensures quiet { OnOk result (IsQuiet log.now session.new) }
{
    let call = Call::OpenStream {
        name: Name::from_vec(b"crowd".to_vec(alloc)?),
    };
    match log.step(rt, session, &call) {
        Reply::Stream(number) => Ok(number),
        _ => Err(AllocError),
    }
}

// A record: eight zeros, and no links.
fn record(alloc: Global) -> Result<Draft, AllocError>
    ensures { IfOk result (λ draft. IsCrewRecord draft) }
{
    let mut bytes = Vec::new(alloc);
    bytes.resize(RECORD_BYTES as usize, 0)?;
    Ok(Draft {
        bytes: Bytes::from_vec(bytes),
        previous: Lsn::null(),
        undo_next: Lsn::null(),
        seal: false,
        flush: false,
    })
}

// Lets all members commit by one group, of this session, which comes back.
fn committed<N, D, W>(
    rt: &W,
    alloc: Global,
    log: &SharedLog<D, ToldJournal>,
    session: Session,
    stream: u16,
    members: &mut [Member],
    count: u32,
) -> Result<Session, AllocError>
where
    N: GroupName + Send + Sync,
    D: Disk + Send + Drop,
    W: Threads + Wait + Sync,
    requires name { (session ≡ N.session) × (stream ≡ N.stream) }
    requires quiet { IsQuiet log.now session }
    requires count { count ≤ most_crew_records }
    requires ready { All (λ m. IsMember log.now m × (has_made m ≡ 0)) members.old }
    ensures members { OnOk result (All (λ m. IsMember log.now m × (has_made m ≤ count)) members.new) }
    ensures clients { OnOk result ((k : ℕ) (d : MemberState) → k < length members.old
        → client_of_member (slice_index_or members.new k d) ≡ client_of_member (slice_index_or members.old k d)) }
    ensures quiet { IfOk result (IsQuiet log.now) }
    ensures client { IfOk result (λ ended. ended.client ≡ session.client) }
{
    let draft = record(alloc)?;
    let Ok(group) = Group::<N>::new(rt, log, session, stream) else {
        return Err(AllocError);
    };
    run_members(rt, alloc, log, &group, members, &draft, count);
    Ok(group.end())
}

// The line that is printed.
fn crowd_text(
    alloc: Global,
    threads: u32,
    count: u32,
    records: u32,
    stable: u32,
) -> Result<Bytes, AllocError>
    ensures { IfOk result (λ text. text ≡ crowd_text threads count records stable) }
{
    let mut text = Bytes::new(alloc);
    push_number(b"crowd ", threads, &mut text)?;
    push_number(b" ", count, &mut text)?;
    push_number(b" records ", records, &mut text)?;
    push_number(b" stable ", stable, &mut text)?;
    text.extend_from_slice(b"\n")?;
    Ok(text)
}

// Lets a member for each session but the last one commit, by a group of the last. All sessions come back, in their order.
fn gathered<D: Disk + Send + Drop, W: Threads + Wait + Sync>(
    rt: &W,
    alloc: Global,
    log: &SharedLog<D, ToldJournal>,
    sessions: Vec<Session>,
    count: u32,
) -> Result<Totals, AllocError>
    requires new { All (λ s. IsNewSeat log.now s) sessions.items }
    requires of { All (λ s. IsOf log.now s) sessions.items }
    requires few { length sessions.items ≤ most_crew_threads + 1 }
    requires count { count ≤ most_crew_records }
    ensures gathered { IfOk result (λ totals. IsGathered log.now count totals.sessions.items totals.records totals.stable) }
    ensures clients { IfOk result (λ totals. map (λ s. s.client) totals.sessions.items ≡ map (λ s. s.client) sessions.items) }
{
    let mut sessions = sessions;
    let Some(mut session) = sessions.pop() else {
        return Err(AllocError);
    };
    let stream = opened_stream(rt, alloc, log, &mut session)?;
    let mut members = members_of(rt, alloc, log, sessions, stream, RECORD_BYTES)?;
    let session = committed::<Brand, D, W>(
        rt,
        alloc,
        log,
        session,
        stream,
        members.as_mut_slice(),
        count,
    )?;
    let Totals {
        mut sessions,
        records,
        stable,
    } = totals_of(alloc, members)?;
    sessions.push(session)?;
    Ok(Totals {
        sessions,
        records,
        stable,
    })
}

// Closes the log of a crowd that is done, and gives the line that is printed. A journal that may have been full is taken as out of memory.
fn closed<D: Disk + Send + Drop>(
    alloc: Global,
    log: SharedLog<D, ToldJournal>,
    totals: Totals,
    threads: u32,
    count: u32,
) -> Result<Bytes, AllocError>
    requires begins { log.opening.state ≡ crowd_log }
    requires calm { NeverFails log }
    requires apart { are_distinct log.clients ≡ true }
    requires many { length log.clients ≡ threads + 1 }
    requires few { (threads ≤ most_crew_threads) × (count ≤ most_crew_records) }
    requires gathered { IsGathered log count totals.sessions.items totals.records totals.stable }
    requires clients { map (λ s. s.client) totals.sessions.items ≡ log.clients }
    ensures { IfOk result (λ text. IsCrowdText threads count text) }
{
    fronts_are_legal();
    held_is_by_own_entries();
    plain_work_takes_its_own_sectors();
    refusals_are_the_calls_own();
    rows_are_by_own_entries();
    steps_keep_a_state_valid();
    unbroken_stays();
    what_is_stable_stays();
    log.opened();
    let Totals {
        sessions,
        records,
        stable,
    } = totals;
    let Closed { manager, journal } = log.close(sessions);
    let _disk = manager.close();
    if journal.count() >= MOST_CALLS {
        return Err(AllocError);
    }
    crowd_text(alloc, threads, count, records, stable)
}

// Lets a crowd append over a log that was just made, and gives the line that is printed.
fn crowded<D: Disk + Send + Drop, W: Threads + Wait + Sync>(
    rt: &W,
    alloc: Global,
    manager: Manager<D>,
    threads: u32,
    count: u32,
) -> Result<Bytes, AllocError>
    requires state { manager.0 ≡ crowd_log }
    requires told { TellsContents (D.state manager.1) }
    requires steady { IsSteady (D.state manager.1) }
    requires whole { AreWholeFiles (D.state manager.1).files }
    requires some { 1 ≤ threads }
    requires few { (threads ≤ most_crew_threads) × (count ≤ most_crew_records) }
    ensures { IfOk result (λ text. IsCrowdText threads count text) }
{
    whole_files_pass_the_test();
    let (_, clients) = CLIENTS.split_at(8 - threads as usize);
    let Ok((log, sessions)) = SharedLog::start_told(alloc, manager, clients) else {
        return Err(AllocError);
    };
    let totals = gathered(rt, alloc, &log, sessions, count)?;
    closed(alloc, log, totals, threads, count)
}

// Lets a crowd append over a log in memory, and gives the line that is printed.
fn crowd_line<W: Threads + Wait + Sync>(
    rt: &W,
    alloc: Global,
    threads: u32,
    count: u32,
) -> Result<Bytes, AllocError>
    requires some { 1 ≤ threads }
    requires few { (threads ≤ most_crew_threads) × (count ≤ most_crew_records) }
    ensures { IfOk result (λ text. IsCrowdText threads count text) }
{
    let disk = Steady::new(alloc)?;
    let manager = made_log(alloc, disk, SHAPE)?;
    crowded(rt, alloc, manager, threads, count)
}

/// Lets so many threads append so many records of eight bytes each, over a log in memory, and share the flushes that bring them to the disk. It prints how
/// many records there are then, and of how many of them the threads were answered that they are on the disk.
pub fn crowd<K: Sink, W: Threads + Wait + Sync>(
    rt: &W,
    alloc: Global,
    threads: u32,
    count: u32,
    sink: &mut K,
) -> u8
    requires some { 1 ≤ threads }
    requires few { (threads ≤ most_crew_threads) × (count ≤ most_crew_records) }
    ensures ends { EndsCrowd result threads count (K.written sink.old) (K.written sink.new) (K.faults sink.old) (K.faults sink.new) }
    ensures complete { (Rises (K.faults sink.old) (K.faults sink.new) → ⊥) → IsDone result }
{
    match crowd_line(rt, alloc, threads, count) {
        Ok(text) => printed(sink, text.as_slice(), DONE),
        Err(_) => NO_MEMORY,
    }
}
