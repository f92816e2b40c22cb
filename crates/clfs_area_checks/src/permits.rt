// What becomes of the sectors of permits: too few of them, sectors that are given back, and a permit that is dropped.
ghost use Rattle.std.specs.Prelude.{◌≡◌, ◌≤◌, ◌<◌, IfSome};
ghost use Rattle.clfs_shared.specs.Sessions.{IsOf};

use crate::setting::{
    LENGTH, append, has_opened, make, new_log, new_shared, refusal_of_give_back, refusal_of_sizes,
    sessions_of, zeros,
};
use clfs_area::{AreaState, Ended, Permit};
use clfs_disk::{Disk, Memory};
use clfs_lsn::Lsn;
use clfs_model::{Call, Refusal, Reply};
use clfs_shared::{Session, SharedLog};
use std::alloc::Global;
use std::marker::Brand;
use std::process::Abort;
use std::sync::Wait;
use std::sync::ledger::{Blank, Ledger};

// An area with a permit of two parts that has the sectors for so many records of these lengths.
fn reserved<S: Ledger, R: Ledger, W: Wait>(
    rt: &W,
    alloc: Global,
    log: &SharedLog<Memory>,
    session: Session,
    length: u32,
    count: usize,
    sectors: Blank,
    records: Blank,
) -> Option<(AreaState<S, R>, Permit<S, R>)>
    requires log { IsOf log.now session }
    requires count { count ≤ 16 }
    requires sectors { (sectors.name ≡ S.name) × ((sectors.parts ≡ S.parts) × (S.parts ≡ 2)) }
    requires records { (records.name ≡ R.name) × ((records.parts ≡ R.parts) × (R.parts ≡ 2)) }
    ensures { IfSome result (λ made. IsOf log.now made.0.session) }
{
    let (mut area, mut permit) = make::<S, R, Memory, W>(
        rt, alloc, log, session, 960, 2, sectors, records,
    )?;
    if refusal_of_sizes(rt, alloc, log, &mut area, &mut permit, length, count).is_some() {
        return None;
    }
    Some((area, permit))
}

// A permit of one sector appends a record of two, and then one of one. Whether both are answered so.
fn append_with_too_few<S: Ledger, R: Ledger, W: Wait>(
    rt: &W,
    alloc: Global,
    log: &SharedLog<Memory>,
    session: Session,
    sectors: Blank,
    records: Blank,
) -> Option<(bool, Ended)>
    requires log { IsOf log.now session }
    requires sectors { (sectors.name ≡ S.name) × ((sectors.parts ≡ S.parts) × (S.parts ≡ 2)) }
    requires records { (records.name ≡ R.name) × ((records.parts ≡ R.parts) × (R.parts ≡ 2)) }
{
    let long = zeros(alloc, LENGTH).ok()?;
    let short = zeros(alloc, 8).ok()?;
    let (mut area, mut permit) = reserved::<S, R, W>(
        rt, alloc, log, session, 8, 1, sectors, records,
    )?;
    let long = append(rt, log, &mut area, &mut permit, &long);
    let short = append(rt, log, &mut area, &mut permit, &short);
    let are_right = long == Err(Refusal::ReservationShort { held: 1, need: 2 })
        && short == Ok(Lsn::from_parts(1, 0, 0));
    Some((are_right, area.end(permit)))
}

#[test]
fn a_permit_with_too_few_sectors_is_told_both_numbers(rt: HostRuntime) {
    let alloc = rt.alloc();
    let Some((log, session, is_opened)) = new_shared(&rt, alloc) else {
        panic!(rt; "no log was shared");
    };
    assert!(rt; is_opened);
    let Some((are_right, ended)) = append_with_too_few::<Brand, Brand, _>(
        &rt,
        alloc,
        &log,
        session,
        Blank::new(2),
        Blank::new(2),
    ) else {
        panic!(rt; "no sectors were reserved");
    };
    assert!(rt; are_right && ended.held == 0 && ended.records == 1);
}

// A permit of four sectors is given back, and appends nothing after that.
fn give_all_back<S: Ledger, R: Ledger, W: Wait>(
    rt: &W,
    alloc: Global,
    log: &SharedLog<Memory>,
    session: Session,
    sectors: Blank,
    records: Blank,
) -> Option<Ended>
    requires log { IsOf log.now session }
    requires sectors { (sectors.name ≡ S.name) × ((sectors.parts ≡ S.parts) × (S.parts ≡ 2)) }
    requires records { (records.name ≡ R.name) × ((records.parts ≡ R.parts) × (R.parts ≡ 2)) }
    ensures log { IfSome result (λ ended. IsOf log.now ended.session) }
{
    let (mut area, mut permit) = reserved::<S, R, W>(
        rt, alloc, log, session, 960, 2, sectors, records,
    )?;
    let had = permit.sectors();
    let refusal = refusal_of_give_back(rt, log, &mut area, &mut permit);
    if had != 4 || refusal.is_some() || permit.sectors() != 0 || permit.parts() != 2 {
        return None;
    }
    Some(area.end(permit))
}

// The sectors that all areas of the log hold, as a session is told.
fn reserved_of<D: Disk, W: Wait>(rt: &W, log: &SharedLog<D>, session: &mut Session) -> Option<u32>
    requires { IsOf log.now session.old }
    ensures { IsOf log.now session.new }
{
    let reply = log.step(rt, session, &Call::Info { stream: 1 });
    match &reply {
        Reply::Info(info) => Some(info.reserved),
        _ => None,
    }
}

// A new log of two clients, and whether the first one has opened the stream `a`, and the second one is told that nothing is reserved.
fn two_clients<W: Wait>(
    rt: &W,
    alloc: Global,
) -> Option<(SharedLog<Memory>, Session, Session, bool)>
    ensures { IfSome result (λ made. IsOf made.0 made.1 × IsOf made.0 made.2) }
{
    let Ok((log, sessions)) = SharedLog::start(alloc, new_log(alloc, 4)?, &[3, 5]) else {
        return None;
    };
    let (mut first, mut second) = sessions_of(&log, sessions);
    let is_opened = has_opened(rt, alloc, &log, &mut first);
    let is_free = reserved_of(rt, &log, &mut second) == Some(0);
    Some((log, first, second, is_opened && is_free))
}

// Two sessions of a log meet.
fn meet<D: Disk>(rt: &impl Abort, log: &SharedLog<D>, a: &mut Session, b: &mut Session)
    requires { IsOf log.now a.old × IsOf log.now b.old }
    ensures { IsOf log.now a.new × IsOf log.now b.new }
{
    let met = log.meet(a, b);
    assert!(rt; met.is_ok());
}

#[test]
fn sectors_that_are_given_back_are_free_for_another_session(rt: HostRuntime) {
    let alloc = rt.alloc();
    let Some((log, mut first, mut second, is_free)) = two_clients(&rt, alloc) else {
        panic!(rt; "no log was shared");
    };
    assert!(rt; is_free);
    meet(&rt, &log, &mut first, &mut second);
    let Some(mut ended) = give_all_back::<Brand, Brand, _>(
        &rt,
        alloc,
        &log,
        first,
        Blank::new(2),
        Blank::new(2),
    ) else {
        panic!(rt; "the sectors weren't given back");
    };
    assert!(rt; (ended.held, ended.records) == (0, 0));
    meet(&rt, &log, &mut ended.session, &mut second);
    assert!(rt; reserved_of(&rt, &log, &mut second) == Some(0));
}

// Half of a permit of four sectors is dropped, and the other half ends the area.
fn drop_half<S: Ledger, R: Ledger, W: Wait>(
    rt: &W,
    alloc: Global,
    log: &SharedLog<Memory>,
    session: Session,
    sectors: Blank,
    records: Blank,
) -> Option<(u32, Ended)>
    requires log { IsOf log.now session }
    requires sectors { (sectors.name ≡ S.name) × ((sectors.parts ≡ S.parts) × (S.parts ≡ 2)) }
    requires records { (records.name ≡ R.name) × ((records.parts ≡ R.parts) × (R.parts ≡ 2)) }
{
    let (area, mut permit) = reserved::<S, R, W>(
        rt, alloc, log, session, 960, 2, sectors, records,
    )?;
    if permit.parts() != 2 {
        return None;
    }
    let half = permit.sectors() / 2;
    drop(permit.split(half, 1));
    let left = permit.sectors();
    Some((left, area.end(permit)))
}

#[test]
fn a_dropped_permit_leaves_its_sectors_in_the_book(rt: HostRuntime) {
    let alloc = rt.alloc();
    let Some((log, session, is_opened)) = new_shared(&rt, alloc) else {
        panic!(rt; "no log was shared");
    };
    assert!(rt; is_opened);
    let Some((left, ended)) = drop_half::<Brand, Brand, _>(
        &rt,
        alloc,
        &log,
        session,
        Blank::new(2),
        Blank::new(2),
    ) else {
        panic!(rt; "the permit wasn't cut");
    };
    assert!(rt; (left, ended.held, ended.records) == (2, 4, 0));
}
