// Each call of the disk, of the source and of the sink fails in turn.
use crate::damage::checked;
use crate::runs::{NEVER, Ran, SMALL, format_on, given, lines_of, run_on, written_out};
use clfs_disk::Memory;
use clfs_engine::{DISK_FAULT, DONE, SINK_FAULT, SOURCE_FAULT};
use std::alloc::{AllocError, Global};
use std::process::Abort;
use std::sync::Wait;
use std::thread::Threads;

// Two clients fill a log of two containers. It is full until both have moved their bases; then container 3 begins in the file of container 1.
const REUSE: &str =
    "1 open a\n1 area 1 960 4\n2 open b\n2 area 2 960 4\n1 append 1 Z960 _\n2 append 1 Z960 _\n1 append 1 Z960 _\n1 append 1 Z960 _\n1 append 1 Z960 _\n1 append 1 Z960 _\n1 append 1 Z960 _\n1 append 1 Z960 _\n1 advance 1 2:800:0\n1 append 1 Z960 _\n2 advance 1 1:400:1\n2 advance 1 1:400:1\n1 append 1 Z960 _\n1 append 1 Z960 _\n";

const REUSE_REPLIES: &[u8] =
    b"1 stream 1\n1 area 1\n2 stream 2\n2 area 1\n1 lsn 1:0:0\n2 lsn 1:400:0\n1 lsn 1:800:0\n1 lsn 1:c00:0\n1 lsn 2:0:0\n1 lsn 2:400:0\n1 lsn 2:800:0\n1 refused 5 Full 1 0 2\n1 base 2:800:0\n1 refused 5 Full 1 0 2\n2 base 1:400:1\n2 refused 21 TailInvalid 1:400:1 1:400:1 0:0:0\n1 lsn 2:c00:0\n1 lsn 3:0:0\n";

// The call that fails, of each kind.
#[derive(Clone, Copy)]
struct Fails {
    disk: u64,
    source: u64,
    sink: u64,
}

const NONE: Fails = Fails {
    disk: NEVER,
    source: NEVER,
    sink: NEVER,
};

// Makes a log on a disk whose call of a number fails. None where making it meets that call.
pub(crate) fn made(
    rt: &(impl Abort + Threads + Wait + Sync),
    alloc: Global,
    fails: u64,
) -> Result<Option<Memory>, AllocError> {
    let ran = format_on(
        rt,
        alloc,
        SMALL,
        Memory::new(alloc, 2048, 8388608, &[fails])?,
    )?;
    if ran.is(DISK_FAULT, b"disk fault\n") {
        return Ok(None);
    }
    assert!(rt; ran.status == DONE);
    Ok(Some(ran.disk))
}

// Serves the script where these calls fail. None where the log isn't made.
fn ran(
    rt: &(impl Abort + Threads + Wait + Sync),
    alloc: Global,
    fails: Fails,
) -> Result<Option<Ran<Memory>>, AllocError> {
    let script = written_out(alloc, REUSE)?;
    let given = given(
        alloc,
        &["serve"],
        &script,
        (700, fails.source),
        (6, fails.sink),
    )?;
    match made(rt, alloc, fails.disk)? {
        Some(disk) => Ok(Some(run_on(rt, alloc, given, disk))),
        None => Ok(None),
    }
}

// When a call that fails was reached.
#[derive(Clone, Copy, PartialEq, Eq)]
enum Moment {
    Making,
    Opening,
    Line,
    Never,
}

// The replies are those of a run without a fault up to one that tells it, and every later one tells that the log is broken. Whether there is one.
fn has_one_fault(rt: &impl Abort, alloc: Global, written: &[u8]) -> Result<bool, AllocError> {
    let lines = lines_of(alloc, written)?;
    let wanted = lines_of(alloc, REUSE_REPLIES)?;
    assert!(rt; lines.len() == wanted.len());
    let mut found = false;
    for (line, want) in lines.into_iter().zip(wanted) {
        if found {
            assert!(rt; line.is_empty() || line.ends_with(b" refused 3 Broken"));
        } else if line != want {
            assert!(rt; line.ends_with(b" refused 2 DiskFault"));
            found = true;
        }
    }
    Ok(found)
}

// The disk's call of a number.
fn meets_disk(
    rt: &(impl Abort + Threads + Wait + Sync),
    alloc: Global,
    call: u64,
) -> Result<Moment, AllocError> {
    let Some(ran) = ran(rt, alloc, Fails { disk: call, ..NONE })? else {
        return Ok(Moment::Making);
    };
    if ran.is(DISK_FAULT, b"disk fault\n") {
        return Ok(Moment::Opening);
    }
    assert!(rt; ran.status == DONE);
    Ok(if has_one_fault(rt, alloc, ran.written())? {
        Moment::Line
    } else {
        Moment::Never
    })
}

// The disk's calls, from making the log on.
#[test]
fn each_call_of_the_disk(rt: HostRuntime) -> Result<(), AllocError> {
    let mut told = 0u64;
    for call in 1..512u64 {
        match meets_disk(&rt, rt.alloc(), call)? {
            Moment::Making | Moment::Opening => {}
            Moment::Line => told = told.saturating_add(1),
            Moment::Never => {
                assert!(rt; told > 0);
                return Ok(());
            }
        }
    }
    panic!(rt; "a call failed always");
}

// The source's or the sink's call of a number is met, and ends the program with this status. What was written is a front of the replies.
fn meets(
    rt: &(impl Abort + Threads + Wait + Sync),
    alloc: Global,
    fails: Fails,
    status: u8,
    ending: &[u8],
) -> Result<bool, AllocError> {
    let Some(ran) = ran(rt, alloc, fails)? else {
        panic!(rt; "no log was made");
    };
    if ran.is(DONE, REUSE_REPLIES) {
        return Ok(false);
    }
    let written = ran.written();
    assert!(rt; ran.status == status && REUSE_REPLIES.starts_with(written));
    assert!(rt; written.is_empty() || written.ends_with(ending));
    Ok(true)
}

// The calls of the source. What was written are the replies to the lines that came whole.
#[test]
fn each_call_of_the_source(rt: HostRuntime) -> Result<(), AllocError> {
    for call in 1..512u64 {
        let fails = Fails {
            source: call,
            ..NONE
        };
        if !meets(&rt, rt.alloc(), fails, SOURCE_FAULT, b"\n")? {
            assert!(rt; call > 1);
            return Ok(());
        }
    }
    panic!(rt; "a call failed always");
}

// The calls of the sink.
#[test]
fn each_call_of_the_sink(rt: HostRuntime) -> Result<(), AllocError> {
    for call in 1..512u64 {
        let fails = Fails { sink: call, ..NONE };
        if !meets(&rt, rt.alloc(), fails, SINK_FAULT, b"")? {
            assert!(rt; call > 1);
            return Ok(());
        }
    }
    panic!(rt; "a call failed always");
}

const LINE: &[u8] = b"log containers 2 listed 1 blocks 0 records 0 streams 0 end 1:0:0 whole yes\n";

// The call of a number that `check` makes after making the log.
fn meets_check(
    rt: &(impl Abort + Threads + Wait + Sync),
    alloc: Global,
    call: u64,
) -> Result<Moment, AllocError> {
    let Some(disk) = made(rt, alloc, call)? else {
        return Ok(Moment::Making);
    };
    let ran = checked(rt, alloc, disk)?;
    if ran.is(DONE, LINE) {
        return Ok(Moment::Never);
    }
    assert!(rt; ran.is(DISK_FAULT, b"disk fault\n"));
    Ok(Moment::Line)
}

// The calls of the disk that `check` makes.
#[test]
fn each_call_of_a_check(rt: HostRuntime) -> Result<(), AllocError> {
    let mut told = 0u64;
    for call in 1..128u64 {
        let met = meets_check(&rt, rt.alloc(), call)?;
        if met == Moment::Never {
            // the sync, both slots, the slot's copy, the container, and the ends of three files
            assert!(rt; told >= 8);
            return Ok(());
        }
        told = told.saturating_add((met == Moment::Line) as u64);
    }
    panic!(rt; "a call failed always");
}
