// A client that has one source and one sink: they are opened once, it is served by them, and they are closed.
ghost use Rattle.std.specs.Prelude.{◌≡◌};
ghost use Rattle.clfs_share.specs.Ended.{ends_of, is_any_served};

use crate::openers::Openers;
use crate::service::{Begins, Service};
use crate::serving::{Served, serve_client};
use clfs_disk::Disk;
use clfs_ports::{Sink, Source};
use clfs_shared::{Session, SharedLog, ToldJournal};
use std::alloc::Global;
use std::sync::Wait;

/// How a client ended.
#[derive(Clone, Copy, Debug, PartialEq, Eq)]
pub enum ClientEnd {
    /// Its lines were answered: 0 all of them, 2 until its source failed, 3 until its sink failed, 5 until memory ran out, 7 until a line was too long.
    Served {
        /// Which of these.
        status: u8,
    },
    /// Its source or its sink can't be opened, and nothing was read.
    NotOpened,
    /// No thread could be made for it, and nothing was opened.
    NoThread,
}

/// A client that has ended.
#[derive(Drop)]
pub struct EndedClient<P: Openers<S, K>, S: Source, K: Sink> {
    /// Its openers, as they were left.
    pub openers: P,
    /// Where its lines came from and where its replies went, if they were opened.
    pub ports: Option<(S, K)>,
    /// How it ended.
    pub end: ClientEnd,
}

/// Whether one of the clients was served.
pub fn is_any_served<P: Openers<S, K>, S: Source, K: Sink>(clients: &[EndedClient<P, S, K>]) -> bool
    ensures { result ≡ is_any_served (ends_of clients.now) }
{
    let Some((client, others)) = clients.split_first() else {
        return false;
    };
    match client.end {
        ClientEnd::Served { .. } => true,
        ClientEnd::NotOpened | ClientEnd::NoThread => is_any_served(others),
    }
}

impl<P: Openers<S, K> + Drop, S: Source + Drop, K: Sink + Drop> Service for EndedClient<P, S, K> {
    ghost use Rattle.clfs_share.specs.Ended.{EndsAs};

    ghost serves = { λ old s new t. EndsAs P.Openers S.left S.faults K.written K.faults new.end old.openers new.openers new.ports s t };

    fn serve<R: Wait, D: Disk>(
        &mut self,
        rt: &R,
        alloc: Global,
        log: &SharedLog<D, ToldJournal>,
        session: Session,
    ) -> Session {
        self.ports = None;
        let Some((mut source, mut sink)) = self.openers.open() else {
            self.end = ClientEnd::NotOpened;
            return session;
        };
        let Served { session, status } = serve_client(
            rt,
            alloc,
            log,
            session,
            &mut source,
            &mut sink,
        );
        self.openers.close(status, &mut source, &mut sink);
        self.ports = Some((source, sink));
        self.end = ClientEnd::Served { status };
        session
    }

    fn refuse(&mut self, _session: &Session) {
        self.openers.refuse();
        self.ports = None;
        self.end = ClientEnd::NoThread;
    }
}

impl<P: Openers<S, K> + Drop, S: Source + Drop, K: Sink + Drop> Begins<P> for EndedClient<P, S, K> {
    ghost begun_by = { λ client. client.openers };

    fn begin(with: P) -> EndedClient<P, S, K> {
        EndedClient {
            openers: with,
            ports: None,
            end: ClientEnd::NoThread,
        }
    }
}
