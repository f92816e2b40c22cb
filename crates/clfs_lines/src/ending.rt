// With which status the answering of a script ends.
ghost use Rattle.clfs_lines.specs.Answering.{EndsAnswering};
ghost use Rattle.clfs_lines.specs.Taken.{script_limits};
ghost use Rattle.clfs_lines.specs.Through.{AnswersThrough, AnswersInPart};

use crate::answering::Answering;
use crate::incomplete::IncompleteLine;
use crate::output::printed;
use crate::status::{DONE, INPUT_TOO_LONG, NO_MEMORY, SINK_FAULT, SOURCE_FAULT};
use crate::stop::Stop;
use crate::streaming::answer_script;
use clfs_ports::{Sink, Source};
use std::alloc::Global;

/// Answers a script with at most so many bytes, line by line, and gives the status. If a limit is passed the line that says so is written.
pub fn answered<A: Answering, S: Source, K: Sink>(
    alloc: Global,
    answering: &mut A,
    most: u64,
    incomplete: IncompleteLine,
    source: &mut S,
    sink: &mut K,
) -> u8
    ensures { EndsAnswering (script_limits most) incomplete (AnswersThrough A.answers answering.old answering.new) (AnswersInPart A.answers answering.old answering.new)
        result (S.left source.old) (S.left source.new) (K.written sink.old) (K.written sink.new)
        (S.faults source.old) (S.faults source.new) (K.faults sink.old) (K.faults sink.new) }
{
    match answer_script(alloc, answering, most, incomplete, source, sink) {
        Ok(()) => DONE,
        Err(Stop::SourceFault) => SOURCE_FAULT,
        Err(Stop::SinkFault) => SINK_FAULT,
        Err(Stop::NoMemory) => NO_MEMORY,
        Err(Stop::TooLong) => printed(sink, b"input too long\n", INPUT_TOO_LONG),
    }
}
