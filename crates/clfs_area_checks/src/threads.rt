// Two real threads append by permits of one shared area, which lies under a mutex. If the system makes no thread, `thread::join` calls the
// closure itself.
ghost use Rattle.std.specs.Prelude.{◌≡◌, ◌<◌, ◌^◌, length, IfSome};
ghost use Rattle.clfs_shared.specs.Sessions.{IsOf};

use crate::setting::{LENGTH, make, new_shared, refusal_of_sizes, zeros};
use clfs_area::{AreaState, Ended, LogName, Permit};
use clfs_disk::Disk;
use clfs_lsn::Lsn;
use clfs_model::{Call, Draft, Mode, Refusal, Reply};
use clfs_shared::{Session, SharedLog};
use std::alloc::Global;
use std::marker::{Brand, PhantomData};
use std::sync::ledger::{Blank, Ledger};
use std::sync::{Mutex, Wait};
use std::thread;
use std::thread::Threads;

// An area of the log that `N` names.
#[derive(Drop)]
struct Desk<N: LogName, S: Ledger, R: Ledger> {
    area: AreaState<S, R>,
    of: PhantomData<N>,
    ghost is_of: { IsOf N.log area.session },
}

impl<N: LogName, S: Ledger, R: Ledger> Desk<N, S, R> {
    fn append<D: Disk, W: Wait>(
        &mut self,
        rt: &W,
        log: &SharedLog<D>,
        permit: &mut Permit<S, R>,
        draft: &Draft,
    ) -> Result<Lsn, Refusal>
        requires log { log.now ≡ N.log }
        requires bytes { length draft.now.bytes < 2 ^ 32 }
    {
        self.area.append(rt, log, permit, draft)
    }
}

// One append by a permit, which comes back.
fn append_by<N: LogName, S: Ledger, R: Ledger, D: Disk, W: Wait>(
    rt: &W,
    log: &SharedLog<D>,
    desk: &Mutex<Desk<N, S, R>>,
    mut permit: Permit<S, R>,
    draft: &Draft,
) -> (Permit<S, R>, Result<Lsn, Refusal>)
    requires log { log.now ≡ N.log }
    requires bytes { length draft.now.bytes < 2 ^ 32 }
{
    let answer = desk.lock(rt).append(rt, log, &mut permit, draft);
    (permit, answer)
}

// An area, and a permit of four sectors that is cut in two.
fn cut<S: Ledger, R: Ledger, D: Disk, W: Wait>(
    rt: &W,
    alloc: Global,
    log: &SharedLog<D>,
    session: Session,
    sectors: Blank,
    records: Blank,
) -> Option<(AreaState<S, R>, Permit<S, R>, Permit<S, R>)>
    requires log { IsOf log.now session }
    requires sectors { (sectors.name ≡ S.name) × ((sectors.parts ≡ S.parts) × (S.parts ≡ 2)) }
    requires records { (records.name ≡ R.name) × ((records.parts ≡ R.parts) × (R.parts ≡ 2)) }
    ensures { IfSome result (λ made. IsOf log.now made.0.session) }
{
    let (mut area, mut permit) = make::<S, R, D, W>(
        rt, alloc, log, session, 960, 2, sectors, records,
    )?;
    let none = refusal_of_sizes(rt, alloc, log, &mut area, &mut permit, 960, 2);
    if none.is_some() || permit.sectors() != 4 || permit.parts() != 2 {
        return None;
    }
    let other = permit.split(2, 1);
    Some((area, permit, other))
}

// Joins two permits of few sectors, and answers whether they were.
fn joined<S: Ledger, R: Ledger>(permit: &mut Permit<S, R>, other: Permit<S, R>) -> bool {
    let are_few = permit.sectors() < 9 && other.sectors() < 9;
    let have_few = permit.records() < 9 && other.records() < 9;
    if !are_few || !have_few || permit.parts() > 9 || other.parts() > 9 {
        return false;
    }
    permit.join(other);
    true
}

// Two threads append a record of two sectors each by two permits. Both come back, with whether each was appended.
fn append_both<N, S, R, D, W>(
    rt: &W,
    log: &SharedLog<D>,
    desk: &Mutex<Desk<N, S, R>>,
    first: Permit<S, R>,
    second: Permit<S, R>,
    draft: &Draft,
) -> (Permit<S, R>, Permit<S, R>, bool)
where
    N: LogName + Send + Sync,
    S: Ledger + Send + Sync,
    R: Ledger + Send + Sync,
    D: Disk + Send + Drop,
    W: Threads + Wait + Sync,
    requires log { log.now ≡ N.log }
    requires bytes { length draft.now.bytes < 2 ^ 32 }
{
    let ((first, by_first), (second, by_second)) = thread::join(
        rt,
        || -> (Permit<S, R>, Result<Lsn, Refusal>)
            requires { (log.now ≡ N.log) × (length draft.now.bytes < 2 ^ 32) }
        { append_by(rt, log, desk, first, draft) },
        || -> (Permit<S, R>, Result<Lsn, Refusal>)
            requires { (log.now ≡ N.log) × (length draft.now.bytes < 2 ^ 32) }
        { append_by(rt, log, desk, second, draft) },
    );
    (first, second, by_first.is_ok() && by_second.is_ok())
}

// The end of an area by whose permits two threads have appended.
fn two_appends<N, S, R, D, W>(
    rt: &W,
    alloc: Global,
    log: &SharedLog<D>,
    session: Session,
    sectors: Blank,
    records: Blank,
) -> Option<Ended>
where
    N: LogName + Send + Sync,
    S: Ledger + Send + Sync,
    R: Ledger + Send + Sync,
    D: Disk + Send + Drop,
    W: Threads + Wait + Sync,
    requires log { (log.now ≡ N.log) × IsOf log.now session }
    requires sectors { (sectors.name ≡ S.name) × ((sectors.parts ≡ S.parts) × (S.parts ≡ 2)) }
    requires records { (records.name ≡ R.name) × ((records.parts ≡ R.parts) × (R.parts ≡ 2)) }
    ensures { IfSome result (λ ended. IsOf log.now ended.session) }
{
    let draft = zeros(alloc, LENGTH).ok()?;
    let (area, first, second) = cut(rt, alloc, log, session, sectors, records)?;
    let desk = Mutex::new(Desk::<N, S, R> {
        area,
        of: PhantomData,
    });
    let (mut first, second, are_placed) = append_both(rt, log, &desk, first, second, &draft);
    let are_joined = joined(&mut first, second);
    let Desk { area, of: _ } = desk.into_inner();
    let ended = area.end(first);
    if are_placed && are_joined {
        Some(ended)
    } else {
        None
    }
}

// The records that a session reads from the first one on; none if one has other bytes, or there are too many.
fn count_records<D: Disk, W: Wait>(
    rt: &W,
    log: &SharedLog<D>,
    session: &mut Session,
) -> Option<usize>
    requires { IsOf log.now session.old }
{
    let read = Call::Read {
        area: 1,
        lsn: Lsn::from_parts(1, 0, 0),
        mode: Mode::Forward,
    };
    let mut reply = log.step(rt, session, &read);
    for count in 0..8 {
        if !is_record(&reply) {
            return if is_end(&reply) { Some(count) } else { None };
        }
        reply = log.step(rt, session, &Call::ReadNext { area: 1, cursor: 1 });
    }
    None
}

// The reply has a record of zeros.
fn is_record(reply: &Reply) -> bool {
    match reply {
        Reply::Found { cursor: _, entry } | Reply::Next(entry) => {
            entry.bytes.as_slice() == [0; LENGTH].as_slice()
        }
        _ => false,
    }
}

fn is_end(reply: &Reply) -> bool {
    matches!(reply, Reply::Refused(Refusal::EndOfLog))
}

#[test]
fn two_threads_append_by_permits_of_one_area(rt: HostRuntime) {
    let alloc = rt.alloc();
    let Some((log, session, is_opened)) = new_shared(&rt, alloc) else {
        panic!(rt; "no log was shared");
    };
    assert!(rt; is_opened);
    let Some(mut ended) = two_appends::<Brand, Brand, Brand, _, _>(
        &rt,
        alloc,
        &log,
        session,
        Blank::new(2),
        Blank::new(2),
    ) else {
        panic!(rt; "an append was refused");
    };
    assert!(rt; (ended.area, ended.held, ended.records) == (1, 0, 2));
    assert!(rt; count_records(&rt, &log, &mut ended.session) == Some(2));
}
