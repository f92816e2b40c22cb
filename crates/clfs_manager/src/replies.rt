// What a call answers, as a reply: its value in the reply that has it, or why it was refused.
ghost use Rattle.std.specs.Prelude.{◌≡◌, MatchResult};
ghost use Rattle.clfs_model.specs.declared.reply.Reply.TheVariants as replies;

use clfs_lsn::LogEntry;
use clfs_model::{Refusal, Reply};

// An answer as a reply, by the reply that has its value.
pub(crate) fn reply_of<A, F: FnOnce(A) -> Reply>(answer: Result<A, Refusal>, reply: F) -> Reply
    requires callable { F.IsAlwaysCallable reply }
    ensures exact { MatchResult answer (λ value. F.post reply value result) (λ refusal. result ≡ replies.Refused refusal) }
{
    match answer {
        Ok(value) => reply(value),
        Err(refusal) => Reply::Refused(refusal),
    }
}

// That it was done.
pub(crate) fn done(_done: ()) -> Reply
    ensures { result ≡ replies.Done }
{
    Reply::Done
}

// A new cursor and its record.
pub(crate) fn found(found: (u16, LogEntry)) -> Reply
    ensures { result ≡ replies.Found found.0 found.1 }
{
    let (cursor, entry) = found;
    Reply::Found { cursor, entry }
}
