// A log with its journal, which lies under the lock, and the one job that is done there: a call of a client. They lie on the heap: who takes the turn
// moves the lock's value out of it and back again, and that is then no more than where they lie.
ghost use Rattle.std.specs.Prelude.{◌≡◌, [], IfOk, IfErr};
ghost use Rattle.clfs_turn.specs.Calls.{AddsAtMostOne};
ghost use Rattle.clfs_model.specs.Conditions.{MeetsCondition};
ghost use Rattle.clfs_shared.specs.Journal.{client_of, is_out_of_memory};
ghost use Rattle.clfs_shared.specs.Reached.{opening_of, IsReached};
ghost use Rattle.clfs_shared.specs.Sessions.{HasRun};
ghost use Rattle.clfs_shared.specs.declared.opening.Opening.{Opening};

use crate::opening::Opening;
use crate::recorder::Recorder;
use clfs_disk::Disk;
use clfs_laws::{
    broken_stays, extents_are_few, faults_break, journals_join, refusals_change_nothing,
    replies_are_of_their_calls,
};
use clfs_manager::Manager;
use clfs_model::{Call, Entry, Refusal, Reply};
use clfs_recover::whole_files_pass_the_test;
use clfs_turn::{Job, Logged};
use std::alloc::{AllocFailed, Global};
use std::boxed::Box;

/// A log and its journal.
#[derive(Drop)]
pub(crate) struct LogWithJournal<D: Disk, J: Recorder> {
    pub manager: Manager<D>,
    pub journal: J,
}

/// The lock's value.
#[derive(Drop)]
pub(crate) struct LockedLog<D: Disk, J: Recorder> {
    log: Box<LogWithJournal<D, J>>,
}

impl<D: Disk, J: Recorder> LockedLog<D, J> {
    /// A log whose journal has no entries, and if it is kept, room for those of so many calls. If there is no memory the log comes back.
    pub fn new(
        alloc: Global,
        manager: Manager<D>,
        calls: usize,
    ) -> Result<LockedLog<D, J>, Manager<D>>
        ensures log { IfOk result (λ locked. locked.log.value.manager ≡ manager) }
        ensures opening { IfOk result (λ locked. opening_of locked.log.value.manager.0 (D.state locked.log.value.manager.1)
            ≡ opening_of manager.0 (D.state manager.1)) }
        ensures journal { IfOk result (λ locked. J.entries locked.log.value.journal ≡ []) }
        ensures refused { IfErr result (λ back. back ≡ manager) }
    {
        let Ok(journal) = J::new(alloc, calls) else {
            return Err(manager);
        };
        match Box::new(alloc, LogWithJournal { manager, journal }) {
            Ok(log) => Ok(LockedLog { log }),
            Err(AllocFailed { value }) => {
                let LogWithJournal {
                    manager,
                    journal: _,
                } = value;
                Err(manager)
            }
        }
    }

    /// The log and its journal.
    pub fn into_parts(self) -> LogWithJournal<D, J>
        ensures parts { result ≡ self.log.value }
        ensures entries { J.entries result.journal ≡ J.entries self.log.value.journal }
    {
        let LockedLog { log } = self;
        Box::into_inner(log)
    }
}

impl<D: Disk, J: Recorder> Logged<Entry, Opening> for LockedLog<D, J> {
    ghost use Rattle.clfs_shared.specs.Journal.{client_of};
    ghost use Rattle.clfs_shared.specs.Reached.{opening_of, IsReached, reached_at_once};

    ghost entries = { λ v. J.entries v.log.value.journal };

    ghost client_of = { client_of };

    ghost opening = { λ v. opening_of v.log.value.manager.0 (D.state v.log.value.manager.1) };

    ghost reached = { λ o v. IsReached o (D.state v.log.value.manager.1) v.log.value.manager.0 (J.entries v.log.value.journal) };

    fn count(&self) -> u64 {
        self.log.journal.count()
    }

    ghost at_opening = { λ v none. reached_at_once v.log.value.manager.0 (D.state v.log.value.manager.1) (J.entries v.log.value.journal) none };
}

// Whether memory ran out.
fn is_out_of_memory(reply: &Reply) -> bool
    ensures { result ≡ is_out_of_memory reply.now }
{
    matches!(reply, Reply::Refused(Refusal::NoMemory))
}

/// One call of one client.
pub(crate) struct ClientCall<'a> {
    pub client: u16,
    pub call: &'a Call,
}

// Makes a call, and adds its entry.
fn make_call<D: Disk, J: Recorder>(
    value: &mut LogWithJournal<D, J>,
    client: u16,
    call: &Call,
) -> Reply
    requires { MeetsCondition client call.now }
    ensures list { AddsAtMostOne (λ v. J.entries v.journal) client_of client value.old value.new }
    ensures lawful { (o : Opening) → IsReached o (D.state value.old.manager.1) value.old.manager.0 (J.entries value.old.journal)
        → IsReached o (D.state value.new.manager.1) value.new.manager.0 (J.entries value.new.journal) }
    ensures ran { HasRun J.may_lack (D.state value.old.manager.1).nature.tells_contents value.old.manager.0 (J.entries value.old.journal) client call.now result
        value.new.manager.0 (J.entries value.new.journal) }
{
    broken_stays();
    extents_are_few();
    faults_break();
    journals_join();
    refusals_change_nothing();
    replies_are_of_their_calls();
    whole_files_pass_the_test();
    let Ok(prepared) = value.journal.prepare(client, call) else {
        return Reply::Refused(Refusal::NoMemory);
    };
    value.manager.stored();
    let reply = value.manager.step(client, call);
    value.manager.stored();
    if is_out_of_memory(&reply) {
        return reply;
    }
    value.journal.record(prepared, client, call, &reply);
    reply
}

impl<'a, D: Disk, J: Recorder> Job<LockedLog<D, J>, Entry, Opening> for ClientCall<'a> {
    type Answer = Reply;

    ghost use Rattle.clfs_model.specs.Conditions.{MeetsCondition};
    ghost use Rattle.clfs_shared.specs.Sessions.{HasRun};

    ghost client = { λ job. job.client };

    ghost is_ready = { λ job. MeetsCondition job.client job.call.now };

    ghost ran = { λ job x y reply. HasRun J.may_lack (D.state x.log.value.manager.1).nature.tells_contents x.log.value.manager.0 (J.entries x.log.value.journal) job.client
        job.call.now reply y.log.value.manager.0 (J.entries y.log.value.journal) };

    fn run(self, value: &mut LockedLog<D, J>) -> Reply {
        let ClientCall { client, call } = self;
        make_call(&mut value.log, client, call)
    }
}
