// A client's seat at a shared log, which answers the client's lines.
ghost use Rattle.std.specs.Prelude.{◌≡◌};
ghost use Rattle.clfs_shared.specs.Sessions.{IsOf};
ghost use Rattle.clfs_share.specs.Answered.{AnswersRequest};
ghost use Rattle.clfs_model.specs.Text.{client_of};
ghost use Rattle.clfs_share.specs.Asked.{MeetsArguments, request};

use crate::reading::{Asked, read_line};
use clfs_disk::Disk;
use clfs_lines::Answering;
use clfs_lsn::Bytes;
use clfs_model::{Refusal, Reply};
use clfs_race::without_return;
use clfs_script::write_reply;
use clfs_shared::{Session, SharedLog, ToldJournal};
use std::alloc::{AllocError, Global};
use std::marker::Model;
use std::sync::Wait;

/// A client's session, and the log that it is of. Contracts see the session.
#[derive(Drop)]
pub(crate) struct Seat<'a, R, D: Disk> {
    rt: &'a R,
    log: &'a SharedLog<D, ToldJournal>,
    session: Session,
}

impl<'a, R, D: Disk> Model for Seat<'a, R, D> {
    ghost use Rattle.clfs_shared.specs.Sessions.{SessionState, IsOf};

    ghost Value = { SessionState };

    ghost view = { λ s. s.session };

    ghost invariant = { λ s. IsOf s.log.now s.session };
}

impl<'a, R: Wait, D: Disk> Seat<'a, R, D> {
    /// The seat of a session of the log.
    pub fn new(rt: &'a R, log: &'a SharedLog<D, ToldJournal>, session: Session) -> Seat<'a, R, D>
        requires { IsOf log.now session }
        ensures { result ≡ session }
    {
        Seat { rt, log, session }
    }

    /// The session.
    pub fn into_session(self) -> Session
        ensures { result ≡ self.entry }
    {
        self.session
    }

    // The client.
    fn client(&self) -> u16
        ensures { result ≡ self.now.client }
    {
        self.session.client()
    }

    // The reply to what a line asks for.
    fn reply_to(&mut self, asked: &Asked) -> Reply
        requires { MeetsArguments asked.now }
        ensures { AnswersRequest self.old (request self.old.client asked.now) result self.new }
    {
        match asked {
            Asked::Step(call) => self.log.step(self.rt, &mut self.session, call),
            Asked::Nothing { at } => Reply::Refused(Refusal::BadLine { at: *at }),
        }
    }
}

// The client that the reply to a line names: a bad line has none.
fn client_of(client: u16, asked: &Asked) -> u16
    ensures { result ≡ client_of (request client asked.now) }
{
    match asked {
        Asked::Step(_) => client,
        Asked::Nothing { .. } => 0,
    }
}

impl<'a, R: Wait, D: Disk> Answering for Seat<'a, R, D> {
    ghost use Rattle.clfs_share.specs.Answered.{AnswersLine};

    ghost answers = { AnswersLine };

    fn answer(&mut self, alloc: Global, line: &[u8], out: &mut Bytes) -> Result<(), AllocError> {
        let client = self.client();
        let asked = read_line(alloc, client, without_return(line))?;
        let reply = self.reply_to(&asked);
        write_reply(client_of(client, &asked), &reply, out)
    }
}
