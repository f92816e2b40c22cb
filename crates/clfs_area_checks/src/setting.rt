// What the tests begin with: a log with one stream, shared among clients, and areas of it. Where memory or a call fails that shouldn't, there is None.
// The calls of an area say here what a test needs to make the next one, and no more.
ghost use Rattle.std.specs.Prelude.{◌≡◌, ◌<◌, ◌≤◌, ◌^◌, [], ◌∷◌, length, vec_len, All, IfOk, IfSome};
ghost use Rattle.clfs_model.specs.Conditions.{HasArguments};
ghost use Rattle.clfs_shared.specs.Sessions.{IsOf};

use clfs_area::{AreaState, Permit};
use clfs_disk::{Disk, Memory};
use clfs_lsn::{Bytes, Lsn, Name, Shape, Sizes};
use clfs_manager::Manager;
use clfs_model::{Call, Draft, Refusal, Reply};
use clfs_shared::{Session, SharedLog};
use std::alloc::{AllocError, Global};
use std::sync::Wait;
use std::sync::ledger::{Blank, Ledger};

/// Blocks of two sectors, in containers of eight.
pub(crate) const SHAPE: Shape = Shape {
    block_sectors: 2,
    container_sectors: 8,
};

/// The data of a record of two sectors.
pub(crate) const LENGTH: usize = 960;

/// A new log of so many containers, opened over a disk in memory.
pub(crate) fn new_log(alloc: Global, containers: u32) -> Option<Manager<Memory>>
    requires { (1 ≤ containers) × (containers ≤ 256) }
{
    let disk = Memory::new(alloc, 64, 65536, &[]).ok()?;
    let disk = Manager::format(alloc, disk, SHAPE, containers, false).ok()?;
    Manager::load(alloc, disk, 4).ok()
}

// The session of a list that has one.
fn only_of(mut sessions: Vec<Session>) -> Session
    requires { vec_len sessions ≡ 1 }
    ensures { sessions.items ≡ result ∷ [] }
{
    sessions.pop().unwrap()
}

// The two sessions of a list.
fn pair_of(mut sessions: Vec<Session>) -> (Session, Session)
    requires { vec_len sessions ≡ 2 }
    ensures { sessions.items ≡ result.0 ∷ result.1 ∷ [] }
{
    let b = sessions.pop().unwrap();
    let a = sessions.pop().unwrap();
    (a, b)
}

/// The session of a log that has one.
pub(crate) fn session_of<D: Disk>(log: &SharedLog<D>, sessions: Vec<Session>) -> Session
    requires one { vec_len sessions ≡ 1 }
    requires log { All (λ s. IsOf log.now s) sessions.items }
    ensures { IsOf log.now result }
{
    let _shared = log;
    only_of(sessions)
}

/// The sessions of a log that has two.
pub(crate) fn sessions_of<D: Disk>(log: &SharedLog<D>, sessions: Vec<Session>) -> (Session, Session)
    requires two { vec_len sessions ≡ 2 }
    requires log { All (λ s. IsOf log.now s) sessions.items }
    ensures first { IsOf log.now result.0 }
    ensures second { IsOf log.now result.1 }
{
    let _shared = log;
    pair_of(sessions)
}

// The call that opens the stream `a`.
fn opening(alloc: Global) -> Result<Call, AllocError>
    ensures { IfOk result (λ call. HasArguments call) }
{
    let mut name = Vec::new(alloc);
    name.push(b'a')?;
    Ok(Call::OpenStream {
        name: Name::from_vec(name),
    })
}

/// Opens the stream `a`, and answers whether it has the number 1.
pub(crate) fn has_opened<D: Disk, W: Wait>(
    rt: &W,
    alloc: Global,
    log: &SharedLog<D>,
    session: &mut Session,
) -> bool
    requires { IsOf log.now session.old }
    ensures { IsOf log.now session.new }
{
    let Ok(call) = opening(alloc) else {
        return false;
    };
    matches!(log.step(rt, session, &call), Reply::Stream(1))
}

/// A log that is shared by one client, and whether that one has opened the stream `a`.
pub(crate) fn started<D: Disk + Drop, W: Wait>(
    rt: &W,
    alloc: Global,
    manager: Manager<D>,
) -> Option<(SharedLog<D>, Session, bool)>
    ensures { IfSome result (λ made. IsOf made.0 made.1) }
{
    let Ok((log, sessions)) = SharedLog::start(alloc, manager, &[3]) else {
        return None;
    };
    let mut session = session_of(&log, sessions);
    let is_opened = has_opened(rt, alloc, &log, &mut session);
    Some((log, session, is_opened))
}

/// A new log of four containers that is shared so.
pub(crate) fn new_shared<W: Wait>(
    rt: &W,
    alloc: Global,
) -> Option<(SharedLog<Memory>, Session, bool)>
    ensures { IfSome result (λ made. IsOf made.0 made.1) }
{
    started(rt, alloc, new_log(alloc, 4)?)
}

/// So many lengths, all the same.
pub(crate) fn sizes_of(alloc: Global, length: u32, count: usize) -> Result<Sizes, AllocError>
    requires { count ≤ 16 }
{
    let mut lengths = Vec::new(alloc);
    lengths.resize(count, length)?;
    Ok(Sizes::from_vec(lengths))
}

/// A record of so many zeros, with no links.
pub(crate) fn zeros(alloc: Global, count: usize) -> Result<Draft, AllocError>
    requires { count < 2 ^ 32 }
    ensures { IfOk result (λ draft. length draft.bytes < 2 ^ 32) }
{
    let mut bytes = Vec::new(alloc);
    bytes.resize(count, 0)?;
    Ok(Draft {
        bytes: Bytes::from_vec(bytes),
        previous: Lsn::null(),
        undo_next: Lsn::null(),
        seal: false,
        flush: false,
    })
}

/// An area with a permit of so many parts, which has no sectors yet.
pub(crate) fn make<S: Ledger, R: Ledger, D: Disk, W: Wait>(
    rt: &W,
    alloc: Global,
    log: &SharedLog<D>,
    session: Session,
    largest: u32,
    parts: u32,
    sectors: Blank,
    records: Blank,
) -> Option<(AreaState<S, R>, Permit<S, R>)>
    requires log { IsOf log.now session }
    requires parts { 0 < parts }
    requires sectors { (sectors.name ≡ S.name) × ((sectors.parts ≡ S.parts) × (S.parts ≡ parts)) }
    requires records { (records.name ≡ R.name) × ((records.parts ≡ R.parts) × (R.parts ≡ parts)) }
    ensures { IfSome result (λ made. IsOf log.now made.0.session) }
{
    match AreaState::<S, R>::new(
        rt, alloc, log, session, 1, largest, 4, parts, sectors, records,
    ) {
        Ok((area, permit)) => Some((area, permit)),
        Err(_) => None,
    }
}

/// Why a permit gets no sectors for so many records of these lengths.
pub(crate) fn refusal_of_sizes<S: Ledger, R: Ledger, D: Disk, W: Wait>(
    rt: &W,
    alloc: Global,
    log: &SharedLog<D>,
    area: &mut AreaState<S, R>,
    permit: &mut Permit<S, R>,
    length: u32,
    count: usize,
) -> Option<Refusal>
    requires log { IsOf log.now area.old.session }
    requires count { count ≤ 16 }
    ensures { IsOf log.now area.new.session }
{
    let Ok(sizes) = sizes_of(alloc, length, count) else {
        return Some(Refusal::NoMemory);
    };
    area.reserve(rt, log, permit, &sizes).err()
}

/// What an append by a permit is answered.
pub(crate) fn append<S: Ledger, R: Ledger, D: Disk, W: Wait>(
    rt: &W,
    log: &SharedLog<D>,
    area: &mut AreaState<S, R>,
    permit: &mut Permit<S, R>,
    draft: &Draft,
) -> Result<Lsn, Refusal>
    requires log { IsOf log.now area.old.session }
    requires bytes { length draft.now.bytes < 2 ^ 32 }
    ensures { IsOf log.now area.new.session }
{
    area.append(rt, log, permit, draft)
}

/// Why the sectors of a permit aren't given back.
pub(crate) fn refusal_of_give_back<S: Ledger, R: Ledger, D: Disk, W: Wait>(
    rt: &W,
    log: &SharedLog<D>,
    area: &mut AreaState<S, R>,
    permit: &mut Permit<S, R>,
) -> Option<Refusal>
    requires { IsOf log.now area.old.session }
    ensures { IsOf log.now area.new.session }
{
    area.give_back(rt, log, permit).err()
}
