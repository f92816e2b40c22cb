// A script that is read whole, up to a limit.
ghost use Rattle.std.specs.Prelude.{◌≡◌, ◌+◌, ◌≤◌, ◌<◌, ◌^◌, [], length, IfOk, OnOk, OnErr};
ghost use Rattle.std.specs.Io.KnownBytes.{Consumes};
ghost use Rattle.clfs_race.specs.Taken.{HasEnded, TakesBytes};
ghost use Rattle.clfs_race.specs.Stopped.{HasStopped, end_of};

use crate::counts::LineCounts;
use crate::lines::is_within_limits;
use clfs_ports::Source;
use std::alloc::{AllocError, Global};

/// The most bytes of a script.
pub(crate) const MOST_BYTES: usize = 1048576;

// The bytes that are asked for at a time.
const PIECE: usize = 65536;

/// How the reading of a script ended.
#[derive(Clone, Copy, Debug, PartialEq, Eq)]
pub enum ScriptEnd {
    /// It was read to its end, and is within its limits.
    Whole,
    /// The source failed, and what came before is within the limits.
    Fault,
    /// A limit is passed.
    TooLong,
}

/// What was read of a script, and why no more.
#[derive(Drop)]
pub struct Script {
    /// The bytes.
    pub bytes: Vec<u8>,
    /// How the reading ended.
    pub end: ScriptEnd,
    // How many lines each client seems to have.
    pub(crate) counts: LineCounts,
}

/// How the taking of bytes ended.
#[derive(Clone, Copy, Debug, PartialEq, Eq)]
pub enum Stop {
    /// No more are left, or there are more than were asked for.
    Done,
    /// The source failed.
    Fault,
}

// Room for a piece.
fn room(alloc: Global) -> Result<Vec<u8>, AllocError>
    ensures { IfOk result (λ room. length room.items ≡ 65536) }
{
    vec![in alloc; 0u8; PIECE]
}

/// Takes bytes up to the source's end, but no more than a piece of 65,536 beyond `most`.
pub fn take_bytes<S: Source>(
    alloc: Global,
    source: &mut S,
    most: usize,
    bytes: &mut Vec<u8>,
) -> Result<Stop, AllocError>
    requires { bytes.old.items ≡ [] }
    ensures taken { OnOk result (Consumes (S.left source.old) (S.left source.new) bytes.new.items) }
    ensures stopped { IfOk result (λ stop. HasStopped most stop bytes.new.items (S.left source.new) (S.faults source.old) (S.faults source.new)) }
    ensures few { OnOk result (length bytes.new.items ≤ most + 65536) }
    ensures out_of_memory { OnErr result (TakesBytes (S.left source.old) (S.left source.new)) }
    ensures count { S.faults source.old ≤ S.faults source.new }
{
    let mut piece = room(alloc)?;
    while bytes.len() <= most {
        let Ok(count) = source.read(&mut piece) else {
            return Ok(Stop::Fault);
        };
        if count == 0 {
            return Ok(Stop::Done);
        }
        bytes.extend_from_slice(piece.split_at(count).0)?;
    }
    Ok(Stop::Done)
}

// How the reading of a script ended, of which the bytes that were taken are within its limits or not.
fn end_of(stop: Stop, within: bool) -> ScriptEnd
    ensures { result ≡ end_of stop within }
{
    if !within {
        return ScriptEnd::TooLong;
    }
    match stop {
        Stop::Done => ScriptEnd::Whole,
        Stop::Fault => ScriptEnd::Fault,
    }
}

/// Reads a script to its end, or until the source fails or a limit is passed: at most 1,048,576 bytes, in at most 10,000 lines, of which none has
/// more than 131,072 bytes without its line feed.
pub fn read_script<S: Source>(alloc: Global, source: &mut S) -> Result<Script, AllocError>
    ensures taken { IfOk result (λ script. Consumes (S.left source.old) (S.left source.new) script.bytes.items) }
    ensures ended { IfOk result (λ script. HasEnded script.end script.bytes.items (S.left source.new) (S.faults source.old) (S.faults source.new)) }
    ensures few { IfOk result (λ script. length script.bytes.items < 2 ^ 32) }
    ensures out_of_memory { OnErr result (TakesBytes (S.left source.old) (S.left source.new)) }
    ensures count { S.faults source.old ≤ S.faults source.new }
{
    let mut bytes = Vec::new(alloc);
    let stop = take_bytes(alloc, source, MOST_BYTES, &mut bytes)?;
    let mut counts = LineCounts::new();
    let end = end_of(stop, is_within_limits(&bytes, &mut counts));
    Ok(Script { bytes, end, counts })
}
