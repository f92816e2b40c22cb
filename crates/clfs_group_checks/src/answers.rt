// What a group answers a session, and why it refuses.
ghost use Rattle.std.specs.Prelude.{◌≡◌};
ghost use Rattle.clfs_shared.specs.Sessions.{IsOf};
ghost use Rattle.clfs_turn.specs.Seats.{IsSameSeat};

use crate::calls::{append, area_of, end, group_of, has_area, stable};
use crate::setting::{ALL, flushes_of, room_for_three, shared, three_sessions_of};
use clfs_disk::Disk;
use clfs_group::{Group, GroupName, GroupRefused};
use clfs_lsn::Lsn;
use clfs_model::Refusal;
use clfs_shared::{Session, SharedLog};
use std::alloc::Global;
use std::marker::Brand;
use std::sync::Wait;

// The LSNs of three records. What a group answers of the second, of the first, and of an LSN that no record has; and, after the third one was appended, of the
// third, twice, and of the first again.
type Answers = ([Lsn; 3], [Result<Lsn, Refusal>; 6]);

// Those of a group, or why none was made. None of them, if a record wasn't appended.
type Grouped = Result<Option<Answers>, Refusal>;

// Two records, and what a group answers of the second, of the first, and of an LSN that no record has.
fn answers_of_two<N: GroupName, D: Disk, W: Wait>(
    rt: &W,
    alloc: Global,
    log: &SharedLog<D>,
    group: &Group<N>,
    caller: &mut Session,
) -> Option<([Lsn; 2], [Result<Lsn, Refusal>; 3])>
    requires { IsOf log.now N.session × IsOf log.now caller.old }
    ensures { IsSameSeat caller.old caller.new }
{
    let first = append(rt, alloc, log, caller, 1)?;
    let second = append(rt, alloc, log, caller, 1)?;
    let of_second = stable(rt, log, group, caller, second);
    let of_first = stable(rt, log, group, caller, first);
    let of_none = stable(rt, log, group, caller, Lsn::from_parts(1, 1024, 0));
    Some(([first, second], [of_second, of_first, of_none]))
}

// A further record, and what a group answers of it, twice, and of another one.
fn answers_of_one<N: GroupName, D: Disk, W: Wait>(
    rt: &W,
    alloc: Global,
    log: &SharedLog<D>,
    group: &Group<N>,
    caller: &mut Session,
    other: Lsn,
) -> Option<(Lsn, [Result<Lsn, Refusal>; 3])>
    requires { IsOf log.now N.session × IsOf log.now caller.old }
    ensures { IsSameSeat caller.old caller.new }
{
    let lsn = append(rt, alloc, log, caller, 1)?;
    let once = stable(rt, log, group, caller, lsn);
    let again = stable(rt, log, group, caller, lsn);
    let of_other = stable(rt, log, group, caller, other);
    Some((lsn, [once, again, of_other]))
}

// Appends two records and then a third one, and asks the group of them.
fn answers_of<N: GroupName, D: Disk, W: Wait>(
    rt: &W,
    alloc: Global,
    log: &SharedLog<D>,
    group: &Group<N>,
    caller: &mut Session,
) -> Option<Answers>
    requires { IsOf log.now N.session × IsOf log.now caller.old }
    ensures { IsSameSeat caller.old caller.new }
{
    let ([first, second], [a, b, c]) = answers_of_two(rt, alloc, log, group, caller)?;
    let (third, [d, e, f]) = answers_of_one(rt, alloc, log, group, caller, first)?;
    Some(([first, second, third], [a, b, c, d, e, f]))
}

// Asks a group of this session, which comes back.
fn grouped<N: GroupName, D: Disk, W: Wait>(
    rt: &W,
    alloc: Global,
    log: &SharedLog<D>,
    caller: &mut Session,
    session: Session,
    stream: u16,
) -> (Session, Grouped)
    requires log { IsOf log.now caller.old × IsOf log.now session }
    requires name { (session ≡ N.session) × (stream ≡ N.stream) }
    ensures caller { IsSameSeat caller.old caller.new }
    ensures session { IsSameSeat session result.0 }
{
    match group_of::<N, _, _>(rt, log, session, stream) {
        Ok(group) => {
            let answers = answers_of(rt, alloc, log, &group, caller);
            (end(group), Ok(answers))
        }
        Err(GroupRefused { session, cause }) => (session, Err(cause)),
    }
}

// The same on stream 1.
fn asked<D: Disk, W: Wait>(
    rt: &W,
    alloc: Global,
    log: &SharedLog<D>,
    caller: &mut Session,
    session: Session,
) -> (Session, Grouped)
    requires { IsOf log.now caller.old × IsOf log.now session }
    ensures caller { IsSameSeat caller.old caller.new }
    ensures session { IsSameSeat session result.0 }
{
    grouped::<Brand, _, _>(rt, alloc, log, caller, session, 1)
}

// Makes an area of a session that has one, and appends a record by it. It answers the record's LSN; none, if the area hasn't the number 2.
fn appended_again<D: Disk, W: Wait>(
    rt: &W,
    alloc: Global,
    log: &SharedLog<D>,
    session: &mut Session,
) -> Option<Lsn>
    requires { IsOf log.now session.old }
    ensures { IsSameSeat session.old session.new }
{
    if area_of(rt, log, session) == Some(2) {
        append(rt, alloc, log, session, 2)
    } else {
        None
    }
}

// What a log was seen to do.
#[derive(Clone, Copy)]
struct Seen {
    // What a group answers before there is a stream, whether a stream and an area of it were made then, and what a group answers after that.
    before: Grouped,
    made: bool,
    after: Grouped,
    // The record that the group's session appended once the group had ended.
    appended: Option<Lsn>,
}

// Asks groups of this session, which comes back, before there is a stream and after that.
fn asked_twice<D: Disk, W: Wait>(
    rt: &W,
    alloc: Global,
    log: &SharedLog<D>,
    caller: &mut Session,
    session: Session,
) -> (Session, Seen)
    requires { IsOf log.now caller.old × IsOf log.now session }
    ensures caller { IsSameSeat caller.old caller.new }
    ensures session { IsSameSeat session result.0 }
{
    let (session, before) = asked(rt, alloc, log, caller, session);
    let made = has_area(rt, alloc, log, caller);
    let (mut session, after) = asked(rt, alloc, log, caller, session);
    let appended = appended_again(rt, alloc, log, &mut session);
    let seen = Seen {
        before,
        made,
        after,
        appended,
    };
    (session, seen)
}

// What a log was seen to do, and how many of its flushes were answered, and how many were made.
type Run = (Seen, (usize, usize));

// Asks groups over a disk that passes so many calls from the log's opening on; none, if it isn't opened by them.
fn run_over<W: Wait>(rt: &W, alloc: Global, passes: u64) -> Option<Run> {
    let room = room_for_three(alloc)?;
    let (log, sessions) = shared(alloc, passes)?;
    let (mut caller, other, session) = three_sessions_of(&log, sessions);
    let (session, seen) = asked_twice(rt, alloc, &log, &mut caller, session);
    Some((seen, flushes_of(log, room, caller, other, session)))
}

// An LSN of the log's first container, at the begin of a block.
fn block(offset: u32) -> Lsn {
    Lsn::from_parts(1, offset, 0)
}

// The records that are appended: two in the first block, and one in the next one.
fn records() -> [Lsn; 3] {
    [block(0), Lsn::from_parts(1, 0, 1), block(512)]
}

// Whether one flush served the first two records and another one the third, an LSN of no record was refused, and the session appended on.
fn is_served(run: &Run) -> bool {
    let (seen, flushes) = run;
    let refused = Err(Refusal::RecordNonexistent { lsn: block(1024) });
    let answers = [
        Ok(block(512)),
        Ok(block(512)),
        refused,
        Ok(block(1024)),
        Ok(block(1024)),
        Ok(block(1024)),
    ];
    seen.after == Ok(Some((records(), answers)))
        && seen.appended == Some(block(1024))
        && *flushes == (2, 3)
}

// Whether no group was made on a stream that wasn't there, and one was once it was.
fn needed_a_stream(run: &Run) -> bool {
    let (seen, _) = run;
    seen.before == Err(Refusal::NoSuchStream) && seen.made && seen.after.is_ok()
}

// What those find of a log over a disk that doesn't fail.
fn found<W: Wait>(rt: &W, alloc: Global) -> Option<(bool, bool)> {
    let run = run_over(rt, alloc, ALL)?;
    Some((is_served(&run), needed_a_stream(&run)))
}

#[test]
fn one_flush_serves_two_records_of_a_stream_that_is_there(rt: HostRuntime) {
    assert!(rt; found(&rt, rt.alloc()) == Some((true, true)));
}

// What a group answers over a disk that passes so many calls; none, if it doesn't come to all answers.
fn answers_over<W: Wait>(rt: &W, alloc: Global, passes: u64) -> Option<Answers> {
    let (seen, _) = run_over(rt, alloc, passes)?;
    seen.after.ok()?
}

// What a group answers of a log that breaks at its second flush.
fn broken_answers() -> Answers {
    let refused = Err(Refusal::RecordNonexistent { lsn: block(1024) });
    let answers = [
        Ok(block(512)),
        Ok(block(512)),
        refused,
        Err(Refusal::DiskFault),
        Err(Refusal::Broken),
        Ok(block(512)),
    ];
    (records(), answers)
}

#[test]
fn a_mark_is_answered_though_the_log_is_broken(rt: HostRuntime) {
    let alloc = rt.alloc();
    let first = (1..64).find_map(|passes| answers_over(&rt, alloc, passes));
    assert!(rt; first == Some(broken_answers()));
}
