// What is done for a client by a thread of its own. Threads, and the way of sessions to them and back, are the same whatever that is.
ghost use Rattle.std.specs.Prelude.{◌≡◌};
ghost use Rattle.clfs_shared.specs.Sessions.{IsOf};
ghost use Rattle.clfs_turn.specs.Seats.{IsSameSeat};

use clfs_disk::Disk;
use clfs_shared::{Session, SharedLog, ToldJournal};
use std::alloc::Global;
use std::sync::Wait;

/// What is done for a client, and how it ended.
pub(crate) trait Service {
    ghost use Rattle.clfs_shared.specs.Sessions.{SessionState};

    /// From what is to be done and the session, to what was done and the session then.
    ghost serves: { Self → SessionState → Self → SessionState → Type 0 };

    /// Serves the client until it has ended.
    fn serve<R: Wait, D: Disk>(
        &mut self,
        rt: &R,
        alloc: Global,
        log: &SharedLog<D, ToldJournal>,
        session: Session,
    ) -> Session
        requires { IsOf log.now session }
        ensures same { IsSameSeat session result }
        ensures serves { serves self.old session self.new result };

    /// There is no thread for the client, and nothing is done.
    fn refuse(&mut self, session: &Session)
        ensures { serves self.old session.now self.new session.now };
}

/// What is done for a client with what it is made of.
pub(crate) trait Begins<P>: Service {
    /// what this is made of
    ghost begun_by: { Self → P };

    /// What is to be done with this.
    fn begin(with: P) -> Self
        ensures { begun_by result ≡ with };
}
