// Calls of a shared log and of a group, each by a function of its own that says no more than that the session is the same one, so that a test
// which makes several of them costs little to prove.
ghost use Rattle.std.specs.Prelude.{◌≡◌, IfErr, IfSome};
ghost use Rattle.clfs_model.specs.Conditions.{HasArguments};
ghost use Rattle.clfs_shared.specs.Sessions.{IsOf};
ghost use Rattle.clfs_turn.specs.Seats.{IsSameSeat};

use clfs_disk::Disk;
use clfs_group::{Group, GroupName, GroupRefused};
use clfs_lsn::{Bytes, Lsn, Name, Sizes};
use clfs_model::{Call, Draft, Refusal, Reply};
use clfs_shared::{Session, SharedLog};
use std::alloc::Global;
use std::sync::Wait;

// Makes one call of the log.
fn reply_to<D: Disk, W: Wait>(
    rt: &W,
    log: &SharedLog<D>,
    session: &mut Session,
    call: &Call,
) -> Reply
    requires log { IsOf log.now session.old }
    requires arguments { HasArguments call.now }
    ensures { IsSameSeat session.old session.new }
{
    log.step(rt, session, call)
}

// The number in a reply that tells one.
fn number_in(reply: Reply) -> Option<u16> {
    match reply {
        Reply::Stream(number) => Some(number),
        Reply::Area(number) => Some(number),
        _ => None,
    }
}

/// The number of an area that the session makes on stream 1, for one cursor.
pub(crate) fn area_of<D: Disk, W: Wait>(
    rt: &W,
    log: &SharedLog<D>,
    session: &mut Session,
) -> Option<u16>
    requires { IsOf log.now session.old }
    ensures { IsSameSeat session.old session.new }
{
    let call = Call::CreateArea {
        stream: 1,
        largest: 8,
        reads: 1,
    };
    number_in(reply_to(rt, log, session, &call))
}

// The call that opens the stream `a`.
fn opening(alloc: Global) -> Option<Call>
    ensures { IfSome result HasArguments }
{
    let name = Name::from_vec(vec![in alloc; b'a'; 1].ok()?);
    Some(Call::OpenStream { name })
}

// The number of the stream `a`, which the session opens.
fn stream_of<D: Disk, W: Wait>(
    rt: &W,
    alloc: Global,
    log: &SharedLog<D>,
    session: &mut Session,
) -> Option<u16>
    requires { IsOf log.now session.old }
    ensures { IsSameSeat session.old session.new }
{
    let call = opening(alloc)?;
    number_in(reply_to(rt, log, session, &call))
}

/// Opens the stream `a`, and makes an area of it. It answers whether these have the number 1.
pub(crate) fn has_area<D: Disk, W: Wait>(
    rt: &W,
    alloc: Global,
    log: &SharedLog<D>,
    session: &mut Session,
) -> bool
    requires { IsOf log.now session.old }
    ensures { IsSameSeat session.old session.new }
{
    let stream = stream_of(rt, alloc, log, session);
    let area = area_of(rt, log, session);
    stream == Some(1) && area == Some(1)
}

// The call that appends a record of eight zeros by the area of this number.
fn appending(alloc: Global, area: u16) -> Option<Call>
    ensures { IfSome result HasArguments }
{
    let bytes = Bytes::from_vec(vec![in alloc; 0; 8].ok()?);
    Some(Call::Append {
        area,
        draft: Draft {
            bytes,
            previous: Lsn::null(),
            undo_next: Lsn::null(),
            seal: false,
            flush: false,
        },
        reserved: false,
        sizes: Sizes::none(alloc),
    })
}

// The LSN of a record that was appended.
fn placed(reply: Reply) -> Option<Lsn> {
    match reply {
        Reply::Placed(lsn) => Some(lsn),
        _ => None,
    }
}

/// Appends a record of eight zeros by the session's area of this number, and answers its LSN; none, if it is refused or there is no memory.
pub(crate) fn append<D: Disk, W: Wait>(
    rt: &W,
    alloc: Global,
    log: &SharedLog<D>,
    session: &mut Session,
    area: u16,
) -> Option<Lsn>
    requires { IsOf log.now session.old }
    ensures { IsSameSeat session.old session.new }
{
    let call = appending(alloc, area)?;
    placed(reply_to(rt, log, session, &call))
}

/// Makes a group of a session and a stream.
pub(crate) fn group_of<N: GroupName, D: Disk, W: Wait>(
    rt: &W,
    log: &SharedLog<D>,
    session: Session,
    stream: u16,
) -> Result<Group<N>, GroupRefused>
    requires log { IsOf log.now session }
    requires name { (session ≡ N.session) × (stream ≡ N.stream) }
    ensures { IfErr result (λ refused. IsSameSeat session refused.session) }
{
    Group::<N>::new(rt, log, session, stream)
}

/// What a group answers of an LSN.
pub(crate) fn stable<N: GroupName, D: Disk, W: Wait>(
    rt: &W,
    log: &SharedLog<D>,
    group: &Group<N>,
    session: &mut Session,
    lsn: Lsn,
) -> Result<Lsn, Refusal>
    requires { IsOf log.now N.session × IsOf log.now session.old }
    ensures { IsSameSeat session.old session.new }
{
    group.stable(rt, log, session, lsn)
}

/// Ends a group.
pub(crate) fn end<N: GroupName>(group: Group<N>) -> Session
    ensures { IsSameSeat N.session result }
{
    group.end()
}
