// Two real threads append by sessions of their own, and share the flushes of one group. If the system makes no thread, `thread::join` calls the
// closure itself.
ghost use Rattle.std.specs.Prelude.{◌≡◌};
ghost use Rattle.clfs_shared.specs.Sessions.{IsOf};
ghost use Rattle.clfs_turn.specs.Seats.{IsSameSeat};

use crate::calls::{append, end, group_of, has_area, stable};
use crate::setting::{ALL, flushes_of, room_for_three, shared, three_sessions_of};
use clfs_disk::Disk;
use clfs_group::{Group, GroupName, GroupRefused};
use clfs_lsn::Lsn;
use clfs_shared::{Session, SharedLog};
use std::alloc::Global;
use std::marker::Brand;
use std::sync::Wait;
use std::thread;
use std::thread::Threads;

// What one thread did: its session, and the LSNs of its record and of the group's answer.
#[derive(Drop)]
struct Committed {
    session: Session,
    lsns: Option<(Lsn, Lsn)>,
}

// Appends a record, and waits until it is on the disk.
fn commit<N: GroupName, D: Disk, W: Wait>(
    rt: &W,
    alloc: Global,
    log: &SharedLog<D>,
    group: &Group<N>,
    mut session: Session,
) -> Committed
    requires { IsOf log.now N.session × IsOf log.now session }
    ensures { IsSameSeat session result.session }
{
    let lsns = match append(rt, alloc, log, &mut session, 1) {
        Some(lsn) => stable(rt, log, group, &mut session, lsn)
            .ok()
            .map(|answer| (lsn, answer)),
        None => None,
    };
    Committed { session, lsns }
}

// Two threads commit a record each, by one group.
fn in_two_threads<N, D, W>(
    rt: &W,
    alloc: Global,
    log: &SharedLog<D>,
    group: &Group<N>,
    first: Session,
    second: Session,
) -> (Committed, Committed)
where
    N: GroupName + Send + Sync,
    D: Disk + Send + Drop,
    W: Threads + Wait + Sync,
    requires log { IsOf log.now N.session × (IsOf log.now first × IsOf log.now second) }
    ensures first { IsSameSeat first result.0.session }
    ensures second { IsSameSeat second result.1.session }
{
    thread::join(
        rt,
        || -> Committed
            requires { IsOf log.now N.session × IsOf log.now first }
            ensures { IsSameSeat first result.session }
        { commit(rt, alloc, log, group, first) },
        || -> Committed
            requires { IsOf log.now N.session × IsOf log.now second }
            ensures { IsSameSeat second result.session }
        { commit(rt, alloc, log, group, second) },
    )
}

// Does so by a group of this session. It answers what they did, and the group's session.
fn two_commits<N, D, W>(
    rt: &W,
    alloc: Global,
    log: &SharedLog<D>,
    first: Session,
    second: Session,
    session: Session,
    stream: u16,
) -> (Committed, Committed, Session)
where
    N: GroupName + Send + Sync,
    D: Disk + Send + Drop,
    W: Threads + Wait + Sync,
    requires log { IsOf log.now first × (IsOf log.now second × IsOf log.now session) }
    requires name { (session ≡ N.session) × (stream ≡ N.stream) }
    ensures first { IsSameSeat first result.0.session }
    ensures second { IsSameSeat second result.1.session }
    ensures group { IsSameSeat session result.2 }
{
    match group_of::<N, _, _>(rt, log, session, stream) {
        Ok(group) => {
            let (by_first, by_second) = in_two_threads(rt, alloc, log, &group, first, second);
            (by_first, by_second, end(group))
        }
        Err(GroupRefused { session, cause: _ }) => (none(first), none(second), session),
    }
}

// A session that committed nothing.
fn none(session: Session) -> Committed
    ensures { result.session ≡ session }
{
    Committed {
        session,
        lsns: None,
    }
}

// Whether each thread was answered an LSN above that of its record, and the records aren't the same.
fn are_above(of_first: Option<(Lsn, Lsn)>, of_second: Option<(Lsn, Lsn)>) -> bool {
    match (of_first, of_second) {
        (Some((one, over_one)), Some((other, over_other))) => {
            one < over_one && other < over_other && one != other
        }
        _ => false,
    }
}

// Whether two threads that share a group are each answered an LSN above that of their record, by one flush or by two.
fn is_shared<W: Threads + Wait + Sync>(rt: &W, alloc: Global) -> Option<bool> {
    let room = room_for_three(alloc)?;
    let (log, sessions) = shared(alloc, ALL)?;
    let (mut first, mut second, session) = three_sessions_of(&log, sessions);
    let made_first = has_area(rt, alloc, &log, &mut first);
    let made_second = has_area(rt, alloc, &log, &mut second);
    let (by_first, by_second, session) = two_commits::<Brand, _, _>(
        rt, alloc, &log, first, second, session, 1,
    );
    let above = are_above(by_first.lsns, by_second.lsns);
    let (answered, all) = flushes_of(log, room, by_first.session, by_second.session, session);
    Some(made_first && made_second && above && 1 <= answered && answered <= 2 && answered == all)
}

#[test]
fn two_threads_share_a_group(rt: HostRuntime) {
    assert!(rt; is_shared(&rt, rt.alloc()) == Some(true));
}
