// Each refusal of each call of an area, but those for memory.
ghost use Rattle.std.specs.Prelude.{◌≡◌, ◌<◌, ◌≤◌, ◌^◌, length, IfSome};
ghost use Rattle.clfs_shared.specs.Sessions.{IsOf};

use crate::setting::{
    LENGTH, SHAPE, append, make, new_log, new_shared, refusal_of_give_back, refusal_of_sizes,
    started, zeros,
};
use clfs_area::{AreaState, Permit};
use clfs_disk::{Disk, Fuse, Memory};
use clfs_lsn::Lsn;
use clfs_manager::Manager;
use clfs_model::{Call, Refusal};
use clfs_shared::{Session, SharedLog};
use std::alloc::Global;
use std::marker::Brand;
use std::sync::Wait;
use std::sync::ledger::{Blank, Ledger};

// Why an area of this stream and this largest record isn't made, and the session.
fn cause_of_new<S: Ledger, R: Ledger, D: Disk, W: Wait>(
    rt: &W,
    alloc: Global,
    log: &SharedLog<D>,
    session: Session,
    stream: u16,
    largest: u32,
    sectors: Blank,
    records: Blank,
) -> (Session, Option<Refusal>)
    requires log { IsOf log.now session }
    requires sectors { (sectors.name ≡ S.name) × ((sectors.parts ≡ S.parts) × (S.parts ≡ 1)) }
    requires records { (records.name ≡ R.name) × ((records.parts ≡ R.parts) × (R.parts ≡ 1)) }
    ensures log { IsOf log.now result.0 }
{
    match AreaState::<S, R>::new(
        rt, alloc, log, session, stream, largest, 4, 1, sectors, records,
    ) {
        Ok((area, permit)) => (area.end(permit).session, None),
        Err(refused) => (refused.session, Some(refused.cause)),
    }
}

// The same with ledgers of its own.
fn refusal_of_new<D: Disk, W: Wait>(
    rt: &W,
    alloc: Global,
    log: &SharedLog<D>,
    session: Session,
    stream: u16,
    largest: u32,
) -> (Session, Option<Refusal>)
    requires { IsOf log.now session }
    ensures { IsOf log.now result.0 }
{
    cause_of_new::<Brand, Brand, D, W>(
        rt,
        alloc,
        log,
        session,
        stream,
        largest,
        Blank::new(1),
        Blank::new(1),
    )
}

// Makes as many areas as a client can have.
fn make_sixteen<D: Disk, W: Wait>(rt: &W, log: &SharedLog<D>, session: &mut Session)
    requires { IsOf log.now session.old }
    ensures { IsOf log.now session.new }
{
    for reads in 1..17 {
        let call = Call::CreateArea {
            stream: 1,
            largest: 8,
            reads,
        };
        let _ = log.step(rt, session, &call);
    }
}

// The refusals of an area of no stream, of one for records that are too long, and of the seventeenth.
fn refusals_of_new<D: Disk, W: Wait>(
    rt: &W,
    alloc: Global,
    log: &SharedLog<D>,
    session: Session,
) -> [Option<Refusal>; 3]
    requires { IsOf log.now session }
{
    let (session, stream) = refusal_of_new(rt, alloc, log, session, 9, 960);
    let (mut session, long) = refusal_of_new(rt, alloc, log, session, 1, 961);
    make_sixteen(rt, log, &mut session);
    let (_, limit) = refusal_of_new(rt, alloc, log, session, 1, 960);
    [stream, long, limit]
}

#[test]
fn an_area_is_refused(rt: HostRuntime) {
    let Some((log, session, is_opened)) = new_shared(&rt, rt.alloc()) else {
        panic!(rt; "no log was shared");
    };
    assert!(rt; is_opened);
    let stream = Some(Refusal::NoSuchStream);
    let long = Some(Refusal::RecordTooLong { len: 961, max: 960 });
    let limit = Some(Refusal::AreaLimit { count: 16 });
    assert!(rt; refusals_of_new(&rt, rt.alloc(), &log, session) == [stream, long, limit]);
}

// Why a record of so many bytes isn't appended, whose undo-next link is this one.
fn refusal_of_record<S: Ledger, R: Ledger, D: Disk, W: Wait>(
    rt: &W,
    alloc: Global,
    log: &SharedLog<D>,
    area: &mut AreaState<S, R>,
    permit: &mut Permit<S, R>,
    count: usize,
    undo_next: Lsn,
) -> Option<Refusal>
    requires log { IsOf log.now area.old.session }
    requires count { count ≤ 960 }
    ensures { IsOf log.now area.new.session }
{
    let Ok(mut draft) = zeros(alloc, count) else {
        return Some(Refusal::NoMemory);
    };
    draft.undo_next = undo_next;
    append(rt, log, area, permit, &draft).err()
}

// The refusals that an area's calls meet in a log of four containers are these, in the order in which they are asked for.
fn are_refused<S: Ledger, R: Ledger, D: Disk, W: Wait>(
    rt: &W,
    alloc: Global,
    log: &SharedLog<D>,
    session: Session,
    sectors: Blank,
    records: Blank,
) -> Option<bool>
    requires log { IsOf log.now session }
    requires sectors { (sectors.name ≡ S.name) × ((sectors.parts ≡ S.parts) × (S.parts ≡ 1)) }
    requires records { (records.name ≡ R.name) × ((records.parts ≡ R.parts) × (R.parts ≡ 1)) }
{
    let (mut area, mut permit) = make::<S, R, D, W>(
        rt, alloc, log, session, 512, 1, sectors, records,
    )?;
    let long_size = refusal_of_sizes(rt, alloc, log, &mut area, &mut permit, 513, 1);
    let full = refusal_of_sizes(rt, alloc, log, &mut area, &mut permit, 512, 16);
    let none = refusal_of_sizes(rt, alloc, log, &mut area, &mut permit, 512, 4);
    if none.is_some() || permit.sectors() != 8 {
        return None;
    }
    let first = Lsn::from_parts(1, 0, 0);
    let long = refusal_of_record(rt, alloc, log, &mut area, &mut permit, 513, Lsn::null());
    let link = refusal_of_record(rt, alloc, log, &mut area, &mut permit, 8, first);
    let too_long = Some(Refusal::RecordTooLong { len: 513, max: 512 });
    let no_room = Some(Refusal::Full {
        free: 28,
        reserved: 0,
        need: 32,
    });
    let no_link = Some(Refusal::LinkInvalid { lsn: first });
    Some(long_size == too_long && full == no_room && long == too_long && link == no_link)
}

#[test]
fn lengths_links_and_a_full_log_are_refused(rt: HostRuntime) {
    let alloc = rt.alloc();
    let Some((log, session, is_opened)) = new_shared(&rt, alloc) else {
        panic!(rt; "no log was shared");
    };
    assert!(rt; is_opened);
    let are_refused = are_refused::<Brand, Brand, _, _>(
        &rt,
        alloc,
        &log,
        session,
        Blank::new(1),
        Blank::new(1),
    );
    assert!(rt; are_refused == Some(true));
}

// Why an area of a log of one container gets no sectors.
fn cause_of_reserve<S: Ledger, R: Ledger, D: Disk, W: Wait>(
    rt: &W,
    alloc: Global,
    log: &SharedLog<D>,
    session: Session,
    sectors: Blank,
    records: Blank,
) -> Option<Refusal>
    requires log { IsOf log.now session }
    requires sectors { (sectors.name ≡ S.name) × ((sectors.parts ≡ S.parts) × (S.parts ≡ 1)) }
    requires records { (records.name ≡ R.name) × ((records.parts ≡ R.parts) × (R.parts ≡ 1)) }
{
    let (mut area, mut permit) = make::<S, R, D, W>(
        rt, alloc, log, session, 512, 1, sectors, records,
    )?;
    refusal_of_sizes(rt, alloc, log, &mut area, &mut permit, 8, 1)
}

#[test]
fn a_log_of_one_container_gives_no_sectors(rt: HostRuntime) {
    let alloc = rt.alloc();
    let Some(manager) = new_log(alloc, 1) else {
        panic!(rt; "no log was made");
    };
    let Some((log, session, is_opened)) = started(&rt, alloc, manager) else {
        panic!(rt; "no log was shared");
    };
    assert!(rt; is_opened);
    let cause = cause_of_reserve::<Brand, Brand, _, _>(
        &rt,
        alloc,
        &log,
        session,
        Blank::new(1),
        Blank::new(1),
    );
    assert!(rt; cause == Some(Refusal::NotEnoughContainers { have: 1 }));
}

// Why a record of the largest size isn't appended, which is to be flushed.
fn refusal_of_flush<S: Ledger, R: Ledger, D: Disk, W: Wait>(
    rt: &W,
    alloc: Global,
    log: &SharedLog<D>,
    area: &mut AreaState<S, R>,
    permit: &mut Permit<S, R>,
) -> Option<Refusal>
    requires { IsOf log.now area.old.session }
    ensures { IsOf log.now area.new.session }
{
    let Ok(mut draft) = zeros(alloc, LENGTH) else {
        return Some(Refusal::NoMemory);
    };
    draft.flush = true;
    append(rt, log, area, permit, &draft).err()
}

// An append that flushes meets a fault of the disk, and every later call that the log is broken: an append, a reservation and giving back. Whether it is
// so, and the session.
fn over_a_disk_that_fails<S: Ledger, R: Ledger, D: Disk, W: Wait>(
    rt: &W,
    alloc: Global,
    log: &SharedLog<D>,
    session: Session,
    sectors: Blank,
    records: Blank,
) -> Option<(Session, bool)>
    requires log { IsOf log.now session }
    requires sectors { (sectors.name ≡ S.name) × ((sectors.parts ≡ S.parts) × (S.parts ≡ 1)) }
    requires records { (records.name ≡ R.name) × ((records.parts ≡ R.parts) × (R.parts ≡ 1)) }
    ensures { IfSome result (λ r. IsOf log.now r.0) }
{
    let (mut area, mut permit) = make::<S, R, D, W>(
        rt, alloc, log, session, 960, 1, sectors, records,
    )?;
    let none = refusal_of_sizes(rt, alloc, log, &mut area, &mut permit, 960, 2);
    if none.is_some() || permit.sectors() != 4 {
        return None;
    }
    let fault = refusal_of_flush(rt, alloc, log, &mut area, &mut permit);
    let append = refusal_of_flush(rt, alloc, log, &mut area, &mut permit);
    let reserve = refusal_of_sizes(rt, alloc, log, &mut area, &mut permit, 960, 2);
    let give_back = refusal_of_give_back(rt, log, &mut area, &mut permit);
    let broken = Some(Refusal::Broken);
    let are_broken = append == broken && reserve == broken && give_back == broken;
    let is_right = fault == Some(Refusal::DiskFault) && are_broken;
    Some((area.end(permit).session, is_right))
}

// A log over a disk that passes so many calls, from the opening of the log on; none, if the log isn't opened then.
fn failing_log(alloc: Global, passes: u64) -> Option<Manager<Fuse<Memory>>> {
    let disk = Memory::new(alloc, 64, 65536, &[]).ok()?;
    let disk = Manager::format(alloc, disk, SHAPE, 4, false).ok()?;
    Manager::load(alloc, Fuse::new(disk, passes), 4).ok()
}

// It is so over a disk that passes so many calls, and no other area is made then. None where the log isn't opened, or its stream isn't.
fn is_broken<W: Wait>(rt: &W, alloc: Global, passes: u64) -> Option<bool> {
    let (log, session, is_opened) = started(rt, alloc, failing_log(alloc, passes)?)?;
    if !is_opened {
        return None;
    }
    let (session, is_right) = over_a_disk_that_fails::<Brand, Brand, Fuse<Memory>, W>(
        rt,
        alloc,
        &log,
        session,
        Blank::new(1),
        Blank::new(1),
    )?;
    let (_, cause) = refusal_of_new(rt, alloc, &log, session, 1, 960);
    Some(is_right && cause == Some(Refusal::Broken))
}

#[test]
fn a_disk_that_fails_breaks_the_log(rt: HostRuntime) {
    for passes in 1..64 {
        if let Some(is_right) = is_broken(&rt, rt.alloc(), passes) {
            assert!(rt; is_right);
            return;
        }
    }
    panic!(rt; "the disk never failed in an append");
}
