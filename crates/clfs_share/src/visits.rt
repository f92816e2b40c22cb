// A client's number has one visit after the other. All are made by one session, so the number is never given to two programs at once, and each begins where
// the one before it ended: without areas, as those were deleted. Nothing is kept of a visit that has ended.
ghost use Rattle.std.specs.Prelude.{◌≡◌, ◌≤◌};
ghost use Rattle.clfs_shared.specs.Sessions.{IsOf};
ghost use Rattle.clfs_turn.specs.Seats.{IsSameSeat};
ghost use Rattle.clfs_share.specs.Visits.{EndsComing, IsVisit, greeting};
ghost use Rattle.clfs_share.specs.Visited.{comings_of, could_any_come};

use crate::service::{Begins, Service};
use crate::serving::{Served, serve_client};
use crate::visitors::{ComingEnd, Visitors};
use clfs_disk::Disk;
use clfs_lines::{DONE, printed};
use clfs_ports::{Sink, Source};
use clfs_shared::{Session, SharedLog, ToldJournal};
use clfs_text::Lead;
use std::alloc::Global;
use std::marker::PhantomData;
use std::sync::Wait;

/// A client whose visits have ended.
#[derive(Drop)]
pub struct VisitedClient<P: Visitors<S, K>, S: Source, K: Sink> {
    /// Those who came, as they were left.
    pub visitors: P,
    /// How their visits ended.
    pub end: ComingEnd,
    ports: PhantomData<(S, K)>,
}

/// Whether programs could come to one of the clients: some came, or it ended because no more come.
pub fn could_any_come<P: Visitors<S, K>, S: Source, K: Sink>(
    clients: &[VisitedClient<P, S, K>],
) -> bool
    ensures { result ≡ could_any_come (comings_of clients.now) }
{
    let Some((client, others)) = clients.split_first() else {
        return false;
    };
    match client.end {
        ComingEnd::Over { .. } => true,
        ComingEnd::Failed { visits } => visits >= 1 || could_any_come(others),
        ComingEnd::NoThread => could_any_come(others),
    }
}

// The line that greets a program.
fn greeting(client: u16) -> Lead
    ensures { result ≡ greeting client }
{
    let mut line = Lead::new();
    line.put(b" client\n");
    line.put_decimal(client as u32);
    line
}

/// Greets a program by its number, and serves it until its source ends. Its areas are deleted then.
pub fn serve_visit<R: Wait, D: Disk, S: Source, K: Sink>(
    rt: &R,
    alloc: Global,
    log: &SharedLog<D, ToldJournal>,
    session: Session,
    source: &mut S,
    sink: &mut K,
) -> Served
    requires { IsOf log.now session }
    ensures same { IsSameSeat session result.session }
    ensures visit { IsVisit session result.session result.status (S.left source.old) (S.left source.new) (K.written sink.old) (K.written sink.new)
        (S.faults source.old) (S.faults source.new) (K.faults sink.old) (K.faults sink.new) }
{
    let line = greeting(session.client());
    let status = printed(sink, line.as_slice(), DONE);
    if status != DONE {
        return Served { session, status };
    }
    serve_client(rt, alloc, log, session, source, sink)
}

// A session whose client's visits have ended, and how.
struct Stay {
    session: Session,
    end: ComingEnd,
}

// Serves one program after the other until no more come.
fn serve_visits<R: Wait, D: Disk, P: Visitors<S, K>, S: Source + Drop, K: Sink + Drop>(
    rt: &R,
    alloc: Global,
    log: &SharedLog<D, ToldJournal>,
    session: Session,
    visitors: &mut P,
) -> Stay
    requires { IsOf log.now session }
    ensures same { IsSameSeat session result.session }
    ensures ends { EndsComing P.Visitors S.left S.faults K.written K.faults result.end visitors.old visitors.new session result.session }
{
    let mut session = session;
    let mut visits = 0u64;
    for _ in 0..u64::MAX {
        let (mut source, mut sink) = match visitors.next(rt) {
            Ok(Some(ports)) => ports,
            Ok(None) => {
                let end = ComingEnd::Over { visits };
                return Stay { session, end };
            }
            Err(_) => {
                let end = ComingEnd::Failed { visits };
                return Stay { session, end };
            }
        };
        let served = serve_visit(rt, alloc, log, session, &mut source, &mut sink);
        session = served.session;
        visitors.leave(served.status, source, sink);
        visits += 1;
    }
    let end = ComingEnd::Over { visits };
    Stay { session, end }
}

impl<P: Visitors<S, K> + Drop, S: Source + Drop, K: Sink + Drop> Service
    for VisitedClient<P, S, K> {
    ghost use Rattle.clfs_share.specs.Visits.{EndsComing};

    ghost serves = { λ old s new t. EndsComing P.Visitors S.left S.faults K.written K.faults new.end old.visitors new.visitors s t };

    fn serve<R: Wait, D: Disk>(
        &mut self,
        rt: &R,
        alloc: Global,
        log: &SharedLog<D, ToldJournal>,
        session: Session,
    ) -> Session {
        let Stay { session, end } = serve_visits::<R, D, P, S, K>(
            rt,
            alloc,
            log,
            session,
            &mut self.visitors,
        );
        self.end = end;
        session
    }

    fn refuse(&mut self, _session: &Session) {
        self.visitors.refuse();
        self.end = ComingEnd::NoThread;
    }
}

impl<P: Visitors<S, K> + Drop, S: Source + Drop, K: Sink + Drop> Begins<P>
    for VisitedClient<P, S, K> {
    ghost begun_by = { λ client. client.visitors };

    fn begin(with: P) -> VisitedClient<P, S, K> {
        VisitedClient {
            visitors: with,
            end: ComingEnd::NoThread,
            ports: PhantomData,
        }
    }
}
