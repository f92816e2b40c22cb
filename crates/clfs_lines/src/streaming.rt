// The answers to a script as its bytes come: each line is answered when its line feed is there, and its reply is written before the next one
// is looked at. Each turn of the loop answers a line, takes at least one byte, ends the script or ends with a fault; so it ends over every source.
ghost use Rattle.std.specs.Prelude.{◌≡◌, ◌≤◌, [], OnOk, IfErr};
ghost use Rattle.clfs_lines.specs.Reached.{HasAnsweredEnded};
ghost use Rattle.clfs_lines.specs.Answering.{IsWholeAnswer, Writes};
ghost use Rattle.clfs_lines.specs.Stopped.{HasStopped};
ghost use Rattle.clfs_lines.specs.Taken.{script_limits};
ghost use Rattle.clfs_lines.specs.declared.incomplete.IncompleteLine.{IncompleteLine};
ghost use Rattle.clfs_lines.specs.Through.{AnswersThrough, AnswersInPart};

use crate::answering::{Answering, answer_joined, carry};
use crate::incomplete::IncompleteLine;
use crate::input::Piece;
use crate::output::write_all;
use crate::stop::Stop;
use clfs_lsn::Bytes;
use clfs_ports::{Sink, Source};
use clfs_race::ended_line;
use std::alloc::Global;

/// The same memory without the bytes.
pub fn cleared(bytes: Bytes) -> Bytes
    ensures { result ≡ [] }
{
    let mut bytes = bytes.into_vec();
    bytes.clear();
    Bytes::from_vec(bytes)
}

// Answers the lines of a script that have their line feed, and keeps what stands after the last one.
fn answer_ended_lines<A: Answering, S: Source, K: Sink>(
    alloc: Global,
    answering: &mut A,
    most: u64,
    source: &mut S,
    sink: &mut K,
    carried: &mut Vec<u8>,
) -> Result<(), Stop>
    requires { carried.old.items ≡ [] }
    ensures ended { OnOk result (HasAnsweredEnded A.answers most answering.old (S.left source.old) (S.left source.new) (K.written sink.old)
        carried.new.items answering.new (K.written sink.new)) }
    ensures stopped { IfErr result (λ stop. (incomplete : IncompleteLine) → HasStopped (script_limits most) incomplete (AnswersThrough A.answers answering.old answering.new)
        (AnswersInPart A.answers answering.old answering.new) stop
        (S.left source.old) (S.left source.new) (K.written sink.old) (K.written sink.new)
        (S.faults source.old) (S.faults source.new) (K.faults sink.old) (K.faults sink.new)) }
    ensures source_count { S.faults source.old ≤ S.faults source.new }
    ensures sink_count { K.faults sink.old ≤ K.faults sink.new }
{
    let Ok(piece) = Piece::new(alloc) else {
        return Err(Stop::NoMemory);
    };
    let mut piece = piece;
    let mut reply = Bytes::new(alloc);
    // The bytes so far. They may be one piece more than the most, which may be the most of its type.
    let limit = most as u128;
    let mut given = 0u128;
    'lines: loop {
        if let Some(line) = ended_line(piece.rest()) {
            let count = line.len() + 1;
            reply = cleared(reply);
            answer_joined(alloc, answering, carried, line, &mut reply)?;
            let Ok(()) = write_all(sink, reply.as_slice()) else {
                return Err(Stop::SinkFault);
            };
            piece.skip(count);
            continue 'lines;
        }
        carry(carried, piece.rest())?;
        if given > limit {
            return Err(Stop::TooLong);
        }
        let Ok(count) = piece.fill(source, (limit - given) as usize) else {
            return Err(Stop::SourceFault);
        };
        if count == 0 {
            return Ok(());
        }
        given += count as u128;
    }
}

/// Answers a script with at most so many bytes, line by line.
pub fn answer_script<A: Answering, S: Source, K: Sink>(
    alloc: Global,
    answering: &mut A,
    most: u64,
    incomplete: IncompleteLine,
    source: &mut S,
    sink: &mut K,
) -> Result<(), Stop>
    ensures done { OnOk result (Writes (IsWholeAnswer (script_limits most) incomplete (AnswersThrough A.answers answering.old answering.new)
        (S.left source.old) (S.left source.new)) (K.written sink.old) (K.written sink.new)) }
    ensures stopped { IfErr result (λ stop. HasStopped (script_limits most) incomplete (AnswersThrough A.answers answering.old answering.new)
        (AnswersInPart A.answers answering.old answering.new) stop
        (S.left source.old) (S.left source.new) (K.written sink.old) (K.written sink.new)
        (S.faults source.old) (S.faults source.new) (K.faults sink.old) (K.faults sink.new)) }
    ensures source_count { S.faults source.old ≤ S.faults source.new }
    ensures sink_count { K.faults sink.old ≤ K.faults sink.new }
{
    let mut line = Vec::new(alloc);
    answer_ended_lines(alloc, answering, most, source, sink, &mut line)?;
    if let IncompleteLine::Dropped = incomplete {
        return Ok(());
    }
    if line.is_empty() {
        return Ok(());
    }
    let mut reply = Bytes::new(alloc);
    let Ok(()) = answering.answer(alloc, &line, &mut reply) else {
        return Err(Stop::NoMemory);
    };
    match write_all(sink, reply.as_slice()) {
        Ok(()) => Ok(()),
        Err(_) => Err(Stop::SinkFault),
    }
}
