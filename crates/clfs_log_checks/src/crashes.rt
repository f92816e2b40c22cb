// What a log has that is opened after a crash, on a disk that stopped at each call of one line of a script in turn.
ghost use Rattle.std.specs.Prelude.{◌≤◌};

use crate::runs::{Ran, SMALL, formatted, joined, lines_of, served, written_out};
use crate::watched::{calls_of, calls_of_row};
use clfs_disk::{Fuse, Memory};
use clfs_engine::DONE;
use std::alloc::{AllocError, Global};
use std::process::Abort;
use std::sync::Wait;
use std::thread::Threads;

// Two clients fill a log of two containers, and move their bases, so that its first container is free again. The record after begins container 3 in
// the file of container 1.
const REUSE: &str =
    "1 open a\n1 area 1 960 4\n2 open b\n2 area 2 960 4\n1 append 1 Z960 _\n2 append 1 Z960 _\n1 append 1 Z960 _\n1 append 1 Z960 _\n1 append 1 Z960 _\n1 append 1 Z960 _\n1 append 1 Z960 _\n1 advance 1 2:800:0\n2 advance 1 1:400:1\n1 append 1 Z960 _\n";

const APPEND: &str = "1 append 1 Z960 _\n";

// Three records in one block that is flushed.
const THREE: &str =
    "1 open a\n1 area 1 960 4\n1 append 1 aa _\n1 append 1 bb 1:0:0 1:0:0\n1 append 1 cc 1:0:1 1:0:1\n1 read 1 1:0:2 undo\n1 read 1 1:0:0 forward\n1 flush 1\n";

const ADVANCE: &str = "1 advance 1 1:0:2\n";

// A script, and one line more.
fn with_line(alloc: Global, script: &str, line: &str) -> Result<Vec<u8>, AllocError> {
    let lines = written_out(alloc, script)?;
    joined(alloc, &lines, &written_out(alloc, line)?)
}

// The disk that a crash leaves of a script over one that passes so many calls.
fn left_by(
    rt: &(impl Abort + Threads + Wait + Sync),
    alloc: Global,
    script: &[u8],
    passes: u64,
    pick: u8,
) -> Result<Memory, AllocError>
    requires { pick ≤ 2 }
{
    let disk = Fuse::new(formatted(rt, alloc, SMALL)?, passes);
    let ran = served(rt, alloc, disk, script)?;
    assert!(rt; ran.status == DONE);
    Ok(ran.disk.into_inner().crash(pick))
}

// What is read of a log that is opened after a crash.
fn answers_behind(
    rt: &(impl Abort + Threads + Wait + Sync),
    alloc: Global,
    script: &[u8],
    passes: u64,
    pick: u8,
    probe: &[u8],
) -> Result<Ran<Memory>, AllocError>
    requires { pick ≤ 2 }
{
    let crashed = left_by(rt, alloc, script, passes, pick)?;
    let ran = served(rt, alloc, crashed, probe)?;
    assert!(rt; ran.status == DONE);
    Ok(ran)
}

// The word after a name in a line.
fn word_behind<'a>(line: &'a [u8], name: &[u8]) -> Option<&'a [u8]> {
    let mut is_next = false;
    for word in line.split(|byte| *byte == b' ') {
        if is_next {
            return Some(word);
        }
        is_next = word == name;
    }
    None
}

// A line of a text tells this base of its stream.
fn has_base(alloc: Global, text: &[u8], line: usize, base: &[u8]) -> Result<bool, AllocError> {
    let lines = lines_of(alloc, text)?;
    Ok(match lines.get(line) {
        Some(line) => word_behind(line, b"base") == Some(base),
        None => false,
    })
}

const REFUSALS: [&[u8]; 4] = [
    b"1 refused 17 RecordNonexistent 1:0:0",
    b"1 refused 17 RecordNonexistent 1:800:0",
    b"1 refused 17 RecordNonexistent 1:c00:0",
    b"2 refused 17 RecordNonexistent 1:400:0",
];

// Each record of container 1 is refused.
fn are_refused(lines: &[&[u8]]) -> bool {
    for (i, refusal) in REFUSALS.iter().enumerate() {
        if lines.get(i.saturating_add(3)) != Some(refusal) {
            return false;
        }
    }
    true
}

// The log goes on in container 2 or 3, has the base of client 1, and shows no record of container 1.
fn is_reused(alloc: Global, written: &[u8]) -> Result<bool, AllocError> {
    let lines = lines_of(alloc, written)?;
    let Some(last) = lines.get(7) else {
        return Ok(false);
    };
    let goes_on = last.starts_with(b"1 lsn 2:") || last.starts_with(b"1 lsn 3:");
    Ok(goes_on && are_refused(&lines) && has_base(alloc, written, 2, b"2:800:0")?)
}

const PROBE: &str =
    "1 area 1 960 4\n2 area 2 960 4\n1 info 1\n1 read 1 1:0:0 forward\n1 read 1 1:800:0 forward\n1 read 1 1:c00:0 forward\n2 read 1 1:400:0 forward\n1 append 1 bb _\n";

// What is left of the script where the disk passes so many calls.
fn check_reused(
    rt: &(impl Abort + Threads + Wait + Sync),
    alloc: Global,
    script: &[u8],
    passes: u64,
    pick: u8,
) -> Result<(), AllocError>
    requires { pick ≤ 2 }
{
    let probe = written_out(alloc, PROBE)?;
    let ran = answers_behind(rt, alloc, script, passes, pick, &probe)?;
    assert!(rt; is_reused(alloc, ran.written())?);
    Ok(())
}

// The disk stops at each call of an append that turns to a file which was used before.
#[test]
fn a_turn_to_a_file_that_was_used(rt: HostRuntime) -> Result<(), AllocError> {
    let alloc = rt.alloc();
    let script = with_line(alloc, REUSE, APPEND)?;
    let before = calls_of_row(&rt, alloc, REUSE)?;
    let after = calls_of(&rt, alloc, &script)?;
    assert!(rt; before < after);
    for passes in before..after.saturating_add(1) {
        for pick in 0..3u8 {
            check_reused(&rt, alloc, &script, passes, pick)?;
        }
    }
    Ok(())
}

// What is left of an advance after so many calls, of which the disk passes so many: the old base, the new one, or either.
fn check_advance(
    rt: &(impl Abort + Threads + Wait + Sync),
    alloc: Global,
    script: &[u8],
    before: u64,
    passes: u64,
    pick: u8,
) -> Result<(), AllocError>
    requires { pick ≤ 2 }
{
    let at = before.saturating_add(passes);
    let ran = answers_behind(rt, alloc, script, at, pick, b"1 info 1\n")?;
    let is_old = has_base(alloc, ran.written(), 0, b"0:0:0")?;
    let is_new = has_base(alloc, ran.written(), 0, b"1:0:2")?;
    assert!(rt; is_old && passes <= 6 || is_new && passes >= 6);
    Ok(())
}

// The disk stops at each call of an advance after a flush. The first one reads the gate of the older slot; the sixth writes the gate of the new copy.
#[test]
fn an_advance_that_stops(rt: HostRuntime) -> Result<(), AllocError> {
    let alloc = rt.alloc();
    let script = with_line(alloc, THREE, ADVANCE)?;
    let before = calls_of_row(&rt, alloc, THREE)?;
    for passes in 0..9u64 {
        for pick in 0..3u8 {
            check_advance(&rt, alloc, &script, before, passes, pick)?;
        }
    }
    Ok(())
}
