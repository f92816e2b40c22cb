// One client is served: its lines are answered as they come, and then it leaves.
ghost use Rattle.clfs_shared.specs.Sessions.{IsOf};
ghost use Rattle.clfs_share.specs.Served.{IsServed};

use crate::leaving::leave;
use crate::seat::Seat;
use clfs_disk::Disk;
use clfs_lines::{IncompleteLine, answered};
use clfs_ports::{Sink, Source};
use clfs_shared::{Session, SharedLog, ToldJournal};
use std::alloc::Global;
use std::sync::Wait;

/// A session whose client was served, and how its lines ended: 0 all are answered, 2 the source failed, 3 the sink failed, 5 memory ran out, 7 a line
/// is too long.
#[derive(Drop)]
pub struct Served {
    /// The session.
    pub session: Session,
    /// The status.
    pub status: u8,
}

/// Answers a client's lines until its source ends, each when its line feed is there, and then deletes its areas. A line begins with the client's
/// number, and has at most 131,072 bytes without its line feed. Bytes after the last line feed are dropped: the program may have ended while it wrote. It
/// waits for the log's turn at each call.
pub fn serve_client<R: Wait, D: Disk, S: Source, K: Sink>(
    rt: &R,
    alloc: Global,
    log: &SharedLog<D, ToldJournal>,
    session: Session,
    source: &mut S,
    sink: &mut K,
) -> Served
    requires { IsOf log.now session }
    ensures { IsServed session result.session result.status (S.left source.old) (S.left source.new) (K.written sink.old) (K.written sink.new)
        (S.faults source.old) (S.faults source.new) (K.faults sink.old) (K.faults sink.new) }
{
    let mut seat = Seat::new(rt, log, session);
    let incomplete = IncompleteLine::Dropped;
    let status = answered(alloc, &mut seat, u64::MAX, incomplete, source, sink);
    let mut session = seat.into_session();
    leave(rt, log, &mut session);
    Served { session, status }
}
