// Sessions of one log, whose journal is kept in memory or told to contracts alone.
ghost use Rattle.std.specs.Prelude.{◌≡◌, [], ◌∷◌, vec_len, All, IfOk};
ghost use Rattle.clfs_model.specs.Conditions.{HasArguments};
ghost use Rattle.clfs_shared.specs.Sessions.{IsOf};

use clfs_disk::Memory;
use clfs_lsn::{Name, Shape, Sizes};
use clfs_manager::Manager;
use clfs_model::{Call, Reply};
use clfs_shared::{Recorder, Session, SharedLog};
use std::alloc::{AllocError, Global};
use std::sync::Wait;

const SHAPE: Shape = Shape {
    block_sectors: 2,
    container_sectors: 8,
};

// A new log of two containers.
fn new_log(alloc: Global) -> Option<Manager<Memory>> {
    let disk = Memory::new(alloc, 64, 65536, &[]).ok()?;
    let disk = Manager::format(alloc, disk, SHAPE, 2, false).ok()?;
    Manager::load(alloc, disk, 4).ok()
}

// The two sessions of a list.
fn pair_of(mut sessions: Vec<Session>) -> (Session, Session)
    requires { vec_len sessions ≡ 2 }
    ensures { sessions.items ≡ result.0 ∷ result.1 ∷ [] }
{
    let b = sessions.pop().unwrap();
    let a = sessions.pop().unwrap();
    (a, b)
}

// The sessions of a log that has two.
fn sessions_of<J: Recorder>(
    log: &SharedLog<Memory, J>,
    sessions: Vec<Session>,
) -> (Session, Session)
    requires two { vec_len sessions ≡ 2 }
    requires log { All (λ s. IsOf log.now s) sessions.items }
    ensures first { IsOf log.now result.0 }
    ensures second { IsOf log.now result.1 }
{
    let _shared = log;
    pair_of(sessions)
}

// The call that opens the stream `a`.
fn opening(alloc: Global) -> Result<Call, AllocError>
    ensures { IfOk result (λ call. HasArguments call) }
{
    let mut name = Vec::new(alloc);
    name.push(b'a')?;
    Ok(Call::OpenStream {
        name: Name::from_vec(name),
    })
}

// The number in a reply, or the sectors that all areas hold, as `info` tells them.
fn number_of(reply: &Reply) -> Option<u32> {
    match reply {
        Reply::Stream(number) | Reply::Area(number) => Some(*number as u32),
        Reply::Held(sectors) => Some(*sectors),
        Reply::Info(info) => Some(info.reserved),
        _ => None,
    }
}

// The answer to one call.
fn ask<J: Recorder, W: Wait>(
    rt: &W,
    log: &SharedLog<Memory, J>,
    session: &mut Session,
    call: &Call,
) -> Option<u32>
    requires log { IsOf log.now session.old }
    requires arguments { HasArguments call.now }
    ensures log { IsOf log.now session.new }
{
    number_of(&log.step(rt, session, call))
}

// The call that reserves the sectors for a record of eight bytes.
fn reserving(alloc: Global) -> Result<Call, AllocError>
    ensures { IfOk result (λ call. HasArguments call) }
{
    Ok(Call::Reserve {
        area: 1,
        sizes: Sizes::from_vec(vec![in alloc; 8; 1]?),
    })
}

// The number of a new area of the stream.
fn ask_for_area<J: Recorder, W: Wait>(
    rt: &W,
    log: &SharedLog<Memory, J>,
    session: &mut Session,
) -> Option<u32>
    requires { IsOf log.now session.old }
    ensures { IsOf log.now session.new }
{
    let call = Call::CreateArea {
        stream: 1,
        largest: 8,
        reads: 1,
    };
    ask(rt, log, session, &call)
}

// What is held once a sector is released.
fn ask_for_release<J: Recorder, W: Wait>(
    rt: &W,
    log: &SharedLog<Memory, J>,
    session: &mut Session,
) -> Option<u32>
    requires { IsOf log.now session.old }
    ensures { IsOf log.now session.new }
{
    let call = Call::Release {
        area: 1,
        sectors: 1,
    };
    ask(rt, log, session, &call)
}

// The sectors that all areas hold.
fn ask_for_reserved<J: Recorder, W: Wait>(
    rt: &W,
    log: &SharedLog<Memory, J>,
    session: &mut Session,
) -> Option<u32>
    requires { IsOf log.now session.old }
    ensures { IsOf log.now session.new }
{
    ask(rt, log, session, &Call::Info { stream: 1 })
}

// The stream and the area have the number 1, and a sector is reserved only between the two calls.
const WANT: [Option<u32>; 7] = [
    Some(1),
    Some(1),
    Some(0),
    Some(1),
    Some(1),
    Some(0),
    Some(0),
];

// The first client reserves a sector and releases it, and before each of these the second one asks what is reserved. Then both meet, and it asks again.
// Whether each answer is the one that is wanted.
fn are_answered<J: Recorder, W: Wait>(
    rt: &W,
    log: &SharedLog<Memory, J>,
    first: &mut Session,
    second: &mut Session,
    opening: &Call,
    reserving: &Call,
) -> bool
    requires logs { IsOf log.now first.old × IsOf log.now second.old }
    requires opening { HasArguments opening.now }
    requires reserving { HasArguments reserving.now }
{
    let opened = ask(rt, log, first, opening);
    let created = ask_for_area(rt, log, first);
    let none = ask_for_reserved(rt, log, second);
    let reserved = ask(rt, log, first, reserving);
    let one = ask_for_reserved(rt, log, second);
    let released = ask_for_release(rt, log, first);
    let _met = log.meet(first, second);
    let free = ask_for_reserved(rt, log, second);
    [opened, created, none, reserved, one, released, free] == WANT
}

// The same with the two sessions of a list. None where memory runs out.
fn reserve_and_release<J: Recorder, W: Wait>(
    rt: &W,
    alloc: Global,
    log: &SharedLog<Memory, J>,
    sessions: Vec<Session>,
) -> Option<bool>
    requires two { vec_len sessions ≡ 2 }
    requires log { All (λ s. IsOf log.now s) sessions.items }
{
    let (mut first, mut second) = sessions_of(log, sessions);
    let opening = opening(alloc).ok()?;
    let reserving = reserving(alloc).ok()?;
    Some(are_answered(rt, log, &mut first, &mut second, &opening, &reserving))
}

#[test]
fn what_is_released_is_free_for_others(rt: HostRuntime) {
    let alloc = rt.alloc();
    let Some(manager) = new_log(alloc) else {
        panic!(rt; "no log was made");
    };
    let Ok((log, sessions)) = SharedLog::start(alloc, manager, &[1, 2]) else {
        panic!(rt; "no log was shared");
    };
    assert!(rt; reserve_and_release(&rt, alloc, &log, sessions) == Some(true));
}

#[test]
fn a_told_journal_changes_no_answer(rt: HostRuntime) {
    let alloc = rt.alloc();
    let Some(manager) = new_log(alloc) else {
        panic!(rt; "no log was made");
    };
    let Ok((log, sessions)) = SharedLog::start_told(alloc, manager, &[1, 2]) else {
        panic!(rt; "no log was shared");
    };
    assert!(rt; reserve_and_release(&rt, alloc, &log, sessions) == Some(true));
}
