// What answers lines, and a line of which a part may have come before.
ghost use Rattle.std.specs.Prelude.{◌≡◌, ◌≤◌, ◌⊎◌, ◌++◌, [], length, OnOk, OnErr, IfErr};
ghost use Rattle.clfs_model.specs.Accepted.{serve_limits};
ghost use Rattle.clfs_lines.specs.Stopped.{StopsLine};
ghost use Rattle.clfs_lines.specs.Through.{AnswersLine, AnswersUnwritten};

use crate::stop::Stop;
use clfs_lsn::Bytes;
use std::alloc::{AllocError, Global};

/// The most bytes of a line without its line feed.
const LONGEST_LINE: usize = 131072;

/// Something that answers lines one after the other.
pub trait Answering {
    ghost use Rattle.std.specs.Prelude.{ℕ, List};

    /// It answered this line by this reply, and came from one state to another.
    ghost answers: { Self → List ℕ → List ℕ → Self → Type 0 };

    /// Answers a line that comes without its line feed, and puts the reply after the output. If memory runs out nothing has changed, or the
    /// line was answered and its reply is lost.
    fn answer(&mut self, alloc: Global, line: &[u8], out: &mut Bytes) -> Result<(), AllocError>
        requires { length line.now ≤ 4294967295 }
        ensures ok { OnOk result (AnswersLine answers self.old line.now out.old out.new self.new) }
        ensures err { OnErr result ((self.new ≡ self.old) ⊎ AnswersUnwritten answers self.old line.now self.new) };
}

/// Adds bytes to the part of a line that came before, where the line doesn't get too long by them.
pub(crate) fn carry(carried: &mut Vec<u8>, more: &[u8]) -> Result<(), Stop>
    requires { length carried.old.items ≤ serve_limits.line }
    ensures bytes { OnOk result (carried.new.items ≡ carried.old.items ++ more.now) }
    ensures short { OnOk result (length carried.new.items ≤ serve_limits.line) }
    ensures stopped { IfErr result (λ stop. StopsLine stop (carried.old.items ++ more.now) Unit Unit) }
{
    if more.len() > LONGEST_LINE - carried.len() {
        return Err(Stop::TooLong);
    }
    match carried.extend_from_slice(more) {
        Ok(()) => Ok(()),
        Err(_) => Err(Stop::NoMemory),
    }
}

// Answers one line, where it isn't too long.
fn answer_short<A: Answering>(
    alloc: Global,
    answering: &mut A,
    line: &[u8],
    out: &mut Bytes,
) -> Result<(), Stop>
    ensures ok { OnOk result (AnswersLine A.answers answering.old line.now out.old out.new answering.new) }
    ensures short { OnOk result (length line.now ≤ serve_limits.line) }
    ensures stopped { IfErr result (λ stop. StopsLine stop line.now (answering.new ≡ answering.old)
        (AnswersUnwritten A.answers answering.old line.now answering.new)) }
{
    if line.len() > LONGEST_LINE {
        return Err(Stop::TooLong);
    }
    match answering.answer(alloc, line, out) {
        Ok(()) => Ok(()),
        Err(_) => Err(Stop::NoMemory),
    }
}

/// Answers a line of which a part may have come before. Its bytes are brought together only where one has.
pub(crate) fn answer_joined<A: Answering>(
    alloc: Global,
    answering: &mut A,
    carried: &mut Vec<u8>,
    line: &[u8],
    out: &mut Bytes,
) -> Result<(), Stop>
    requires { length carried.old.items ≤ serve_limits.line }
    ensures ok { OnOk result (AnswersLine A.answers answering.old (carried.old.items ++ line.now) out.old out.new answering.new) }
    ensures short { OnOk result (length (carried.old.items ++ line.now) ≤ serve_limits.line) }
    ensures carried { OnOk result (carried.new.items ≡ []) }
    ensures stopped { IfErr result (λ stop. StopsLine stop (carried.old.items ++ line.now) (answering.new ≡ answering.old)
        (AnswersUnwritten A.answers answering.old (carried.old.items ++ line.now) answering.new)) }
{
    if carried.is_empty() {
        return answer_short(alloc, answering, line, out);
    }
    carry(carried, line)?;
    let answered = answer_short(alloc, answering, carried, out);
    carried.clear();
    answered
}
