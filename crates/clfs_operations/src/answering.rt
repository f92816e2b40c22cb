// The answer to one line, by the manager of a log.
ghost use Rattle.std.specs.Prelude.{◌≡◌, ◌≤◌, ◌⊎◌, length, OnOk, OnErr, IfOk};
ghost use Rattle.clfs_model.specs.Lines.{without_return};
ghost use Rattle.clfs_model.specs.Run.{reopens};
ghost use Rattle.clfs_model.specs.Script.{line_request};
ghost use Rattle.clfs_model.specs.declared.reply.Reply.TheVariants as replies;
ghost use Rattle.clfs_manager.specs.Calls.{replied};
ghost use Rattle.clfs_operations.specs.Answered.{AnswersOne, AnswersLine, AnswersUnwritten};
ghost use Rattle.clfs_operations.specs.Asked.{request};
ghost use Rattle.clfs_race.specs.Meets.{Meets};

use crate::asking::{Asked, asked_of};
use clfs_disk::Disk;
use clfs_laws::{broken_stays, faults_break};
use clfs_lines::Answering;
use clfs_lsn::{Bytes, Lsn};
use clfs_manager::Manager;
use clfs_model::{Refusal, Reply};
use clfs_race::{lines_meet_their_conditions, without_return};
use clfs_script::{Language, parse_line, write_reply};
use std::alloc::{AllocError, Global};

// What opening the log again answered, as a reply.
fn flushed(answer: Result<Lsn, Refusal>) -> Reply
    ensures { result ≡ replied replies.Flushed answer }
{
    match answer {
        Ok(lsn) => Reply::Flushed(lsn),
        Err(refusal) => Reply::Refused(refusal),
    }
}

// The reply to a client that asks to open the log again.
fn reopened<D: Disk>(manager: &mut Manager<D>, client: u16) -> Reply
    ensures { AnswersOne manager.old.0 (D.state manager.old.1) (reopens client) result manager.new.0 (D.state manager.new.1) }
{
    faults_break();
    broken_stays();
    flushed(manager.reopen())
}

// The reply to what a line asks for.
fn reply_to<D: Disk>(manager: &mut Manager<D>, asked: Asked) -> Reply
    requires { Meets (request asked) }
    ensures { AnswersOne manager.old.0 (D.state manager.old.1) (request asked.entry) result manager.new.0 (D.state manager.new.1) }
{
    faults_break();
    broken_stays();
    manager.stored();
    match asked {
        Asked::Step { client, call } => manager.step(client, call),
        Asked::Reopen { client } => reopened(manager, client),
        Asked::Nothing { at } => Reply::Refused(Refusal::BadLine { at }),
    }
}

/// The reply to one line.
pub fn reply_to_line<D: Disk>(
    alloc: Global,
    manager: &mut Manager<D>,
    line: &[u8],
) -> Result<Reply, AllocError>
    requires { length line.now ≤ 4294967295 }
    ensures { IfOk result (λ reply. AnswersOne manager.old.0 (D.state manager.old.1) (line_request (without_return line.now)) reply
        manager.new.0 (D.state manager.new.1)) }
{
    lines_meet_their_conditions();
    let read = parse_line(alloc, Language::CallsAndReopening, without_return(line));
    let asked = asked_of(&read)?;
    Ok(reply_to(manager, asked))
}

/// Answers one line.
pub fn answer_line<D: Disk>(
    alloc: Global,
    manager: &mut Manager<D>,
    line: &[u8],
    out: &mut Bytes,
) -> Result<(), AllocError>
    requires { length line.now ≤ 4294967295 }
    ensures ok { OnOk result (AnswersLine manager.old.0 (D.state manager.old.1) line.now out.old out.new manager.new.0 (D.state manager.new.1)) }
    ensures err { OnErr result ((manager.new ≡ manager.old) ⊎ AnswersUnwritten manager.old.0 (D.state manager.old.1) line.now manager.new.0 (D.state manager.new.1)) }
{
    lines_meet_their_conditions();
    let read = parse_line(alloc, Language::CallsAndReopening, without_return(line));
    let asked = asked_of(&read)?;
    let reply = reply_to(manager, asked);
    write_reply(asked.client(), &reply, out)
}

/// A log that answers the lines of a script.
#[derive(Drop)]
pub struct ScriptLog<D: Disk + Drop> {
    /// The log's manager.
    pub manager: Manager<D>,
}

impl<D: Disk + Drop> Answering for ScriptLog<D> {
    ghost use Rattle.clfs_operations.specs.Answered.{AnswersText};

    ghost answers = { λ a line reply b. AnswersText a.manager.0 (D.state a.manager.1) line reply b.manager.0 (D.state b.manager.1) };

    fn answer(&mut self, alloc: Global, line: &[u8], out: &mut Bytes) -> Result<(), AllocError> {
        answer_line(alloc, &mut self.manager, line, out)
    }
}
