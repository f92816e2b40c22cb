// Scripts through `serve` and their replies, and what the program ends with.
use crate::runs::{
    NEVER, Pieces, Ran, SMALL, came, check_new, check_script, format_on, formatted, given, joined,
    run_on, served, sink_of, source_of, written_behind,
};
use clfs_disk::{Memory, Steady};
use clfs_engine::{
    DONE, EXISTS, INPUT_TOO_LONG, IncompleteLine, NOT_A_LOG, Outcome, SINK_FAULT, SOURCE_FAULT,
    USAGE, serve, serve_within,
};
use clfs_ports::{Failed, Sink, Source};
use std::alloc::{AllocError, Global};
use std::cell::Cell;
use std::process::Abort;
use std::sync::Wait;
use std::thread::Threads;

const USAGE_LINE: &[u8] =
    b"usage: clfs FOLDER format, serve, race, trial, crew, check, txn, archive, restore or crowd\n";

// Each row stands after a stream and an area of client 1, in a log that has just been made.
const ROWS: [(&str, &str); 16] = [
    // a record, what the log is like, and a second record in the block
    (
        "1 append 1 00010203040506070809 _\n1 info 1\n1 append 1 aa 1:0:0 1:0:0\n",
        "1 lsn 1:0:0\n1 info containers 2 free 1 size 8 sectors 13 reserved 0 base 0:0:0 last 1:0:0 flushed 1:0:0 restart 0:0:0 archive off\n1 lsn 1:0:1\n",
    ),
    // sectors of records to come
    (
        "1 align 1 456\n1 align 1 457\n1 align 1 456 457\n",
        "1 sectors 1\n1 sectors 2\n1 sectors 3\n",
    ),
    // lengths of records
    (
        "1 append 1 Z961 _\n1 append 1 Z960 _\n",
        "1 refused 7 RecordTooLong 961 960\n1 lsn 1:0:0\n",
    ),
    // no data, and the ends of a cursor and an area
    (
        "1 append 1 - _\n1 read 1 1:0:0 forward\n1 end 1 1\n1 drop 1\n",
        "1 lsn 1:0:0\n1 cursor 1 record 1:0:0 data 0:0:0 0:0:0 0:0:0 -\n1 ok\n1 ok\n",
    ),
    // reservations
    (
        "1 reserve 1 960\n1 reserve 1 960\n1 reserve 1 960\n1 reserve 1 960\n1 reserve 1 960\n1 reserve 1 960\n1 reserve 1 960\n1 append 1 aa _\n1 append 1 Z960 _ reserved\n1 append 1 Z960 _ reserved\n1 append 1 Z960 _ reserved\n1 append 1 Z960 _ reserved\n1 append 1 Z960 _ reserved\n1 append 1 Z960 _ reserved\n1 append 1 Z960 _ reserved\n1 info 1\n",
        "1 held 2\n1 held 4\n1 held 6\n1 held 8\n1 held 10\n1 held 12\n1 held 14\n1 refused 5 Full 14 14 1\n1 lsn 1:0:0\n1 lsn 1:400:0\n1 lsn 1:800:0\n1 lsn 1:c00:0\n1 lsn 2:0:0\n1 lsn 2:400:0\n1 lsn 2:800:0\n1 info containers 2 free 0 size 8 sectors 1 reserved 0 base 0:0:0 last 2:800:0 flushed 2:0:0 restart 0:0:0 archive off\n",
    ),
    // a flush, and a sector that is skipped
    (
        "1 append 1 aa _ flush\n1 append 1 Z960 _\n1 append 1 Z960 _\n1 append 1 Z960 _\n1 append 1 Z960 _\n",
        "1 lsn 1:0:0\n1 lsn 1:200:0\n1 lsn 1:600:0\n1 lsn 1:a00:0\n1 lsn 2:0:0\n",
    ),
    // less is held than is spent
    (
        "1 append 1 aa _ reserved\n1 release 1 1\n",
        "1 refused 6 ReservationShort 0 1\n1 refused 6 ReservationShort 0 1\n",
    ),
    // two streams
    (
        "2 open b\n2 area 2 960 4\n1 append 1 a1 _\n2 append 1 b1 _\n1 append 1 a2 1:0:0 1:0:0\n2 append 1 b2 1:0:1 1:0:1\n1 read 1 1:0:0 forward\n1 next 1 1\n1 next 1 1\n2 read 1 1:0:0 forward\n",
        "2 stream 2\n2 area 1\n1 lsn 1:0:0\n2 lsn 1:0:1\n1 lsn 1:0:2\n2 lsn 1:0:3\n1 cursor 1 record 1:0:0 data 0:0:0 0:0:0 0:0:0 a1\n1 record 1:0:2 data 1:0:0 1:0:0 0:0:0 a2\n1 refused 18 EndOfLog\n2 refused 17 RecordNonexistent 1:0:0\n",
    ),
    // reading along links
    (
        "1 append 1 a0 _\n1 append 1 a1 1:0:0 1:0:0\n1 append 1 a2 1:0:1 1:0:1\n1 append 1 a3 1:0:2 1:0:0\n1 read 1 1:0:3 undo\n1 next 1 1\n1 next 1 1\n1 read 1 1:0:3 previous\n1 next 1 2\n1 next 1 2\n1 next 1 2\n",
        "1 lsn 1:0:0\n1 lsn 1:0:1\n1 lsn 1:0:2\n1 lsn 1:0:3\n1 cursor 1 record 1:0:3 data 1:0:2 1:0:0 0:0:0 a3\n1 record 1:0:0 data 0:0:0 0:0:0 0:0:0 a0\n1 refused 19 StartOfLog\n1 cursor 2 record 1:0:3 data 1:0:2 1:0:0 0:0:0 a3\n1 record 1:0:2 data 1:0:1 1:0:1 0:0:0 a2\n1 record 1:0:1 data 1:0:0 1:0:0 0:0:0 a1\n1 record 1:0:0 data 0:0:0 0:0:0 0:0:0 a0\n",
    ),
    // a base that moves under cursors
    (
        "1 append 1 a0 _\n1 append 1 a1 1:0:0 1:0:0\n1 append 1 a2 1:0:1 1:0:1\n1 read 1 1:0:2 undo\n1 read 1 1:0:0 forward\n1 advance 1 1:0:2\n1 next 1 1\n1 next 1 2\n1 append 1 cc 1:0:0 1:0:2\n2 open b\n2 area 2 960 4\n2 append 1 bb 1:0:2 0:0:0\n",
        "1 lsn 1:0:0\n1 lsn 1:0:1\n1 lsn 1:0:2\n1 cursor 1 record 1:0:2 data 1:0:1 1:0:1 0:0:0 a2\n1 cursor 2 record 1:0:0 data 0:0:0 0:0:0 0:0:0 a0\n1 base 1:0:2\n1 refused 19 StartOfLog\n1 record 1:0:2 data 1:0:1 1:0:1 0:0:0 a2\n1 lsn 1:200:0\n2 stream 2\n2 area 1\n2 refused 8 LinkInvalid 1:0:2\n",
    ),
    // opening again
    (
        "1 append 1 aa _\n1 reserve 1 960\n1 reopen\n1 area 1 960 4\n1 read 1 1:0:0 forward\n1 append 1 bb _ flush\n1 flushto 1 1:0:0\n1 reopen\n1 area 1 960 4\n1 read 1 1:0:0 forward\n",
        "1 lsn 1:0:0\n1 held 2\n1 flushed 1:0:0\n1 area 1\n1 refused 17 RecordNonexistent 1:0:0\n1 lsn 1:0:0\n1 flushed 1:200:0\n1 flushed 1:200:0\n1 area 1\n1 cursor 1 record 1:0:0 data 0:0:0 0:0:0 0:0:0 bb\n",
    ),
    // restart areas
    (
        "1 readrestart 1\n1 append 1 aa _\n1 restart 1 01 -\n1 append 1 bb 1:0:0 1:0:0\n1 restart 1 02 -\n1 reopen\n1 area 1 960 4\n1 readrestart 1\n1 prevrestart 1 1\n1 prevrestart 1 1\n1 restart 1 03 1:200:0\n1 reopen\n1 info 1\n",
        "1 refused 20 NoRestart\n1 lsn 1:0:0\n1 lsn 1:0:1\n1 lsn 1:200:0\n1 lsn 1:200:1\n1 flushed 1:400:0\n1 area 1\n1 cursor 1 record 1:200:1 restart 1:0:1 0:0:0 0:0:0 02\n1 record 1:0:1 restart 0:0:0 0:0:0 0:0:0 01\n1 refused 20 NoRestart\n1 lsn 1:400:0\n1 flushed 1:600:0\n1 info containers 2 free 1 size 8 sectors 11 reserved 0 base 1:200:0 last 1:400:0 flushed 1:600:0 restart 1:400:0 archive off\n",
    ),
    // a full log, and a container that is used again
    (
        "2 open b\n2 area 2 960 4\n1 append 1 Z960 _\n2 append 1 Z960 _\n1 append 1 Z960 _\n1 append 1 Z960 _\n1 append 1 Z960 _\n1 append 1 Z960 _\n1 append 1 Z960 _\n1 append 1 Z960 _\n1 advance 1 2:800:0\n1 append 1 Z960 _\n2 advance 1 1:400:1\n2 advance 1 1:400:1\n1 append 1 Z960 _\n1 append 1 Z960 _\n",
        "2 stream 2\n2 area 1\n1 lsn 1:0:0\n2 lsn 1:400:0\n1 lsn 1:800:0\n1 lsn 1:c00:0\n1 lsn 2:0:0\n1 lsn 2:400:0\n1 lsn 2:800:0\n1 refused 5 Full 1 0 2\n1 base 2:800:0\n1 refused 5 Full 1 0 2\n2 base 1:400:1\n2 refused 21 TailInvalid 1:400:1 1:400:1 0:0:0\n1 lsn 2:c00:0\n1 lsn 3:0:0\n",
    ),
    // archiving
    (
        "1 tail 1:0:0\n1 archive on\n1 append 1 Z960 _\n1 append 1 Z960 _\n1 append 1 Z960 _\n1 append 1 Z960 _\n1 append 1 Z960 _\n1 append 1 Z960 _\n1 append 1 Z960 _\n1 append 1 Z960 _\n1 advance 1 2:800:1\n1 append 1 Z960 _\n1 extents\n1 tail 2:0:0\n1 append 1 Z960 _\n1 tail 3:0:0\n",
        "1 refused 23 Ephemeral\n1 ok\n1 lsn 1:0:0\n1 lsn 1:400:0\n1 lsn 1:800:0\n1 lsn 1:c00:0\n1 lsn 2:0:0\n1 lsn 2:400:0\n1 lsn 2:800:0\n1 refused 5 Full 1 0 2\n1 base 2:800:1\n1 refused 5 Full 1 0 2\n1 extents 2 1:0-1000 2:0-c00\n1 tail 2:0:0\n1 lsn 2:c00:0\n1 refused 22 ArchiveTailInvalid 3:0:0 2:0:0 2:c00:0\n",
    ),
    // growth and the policies
    (
        "1 policy growth 2\n1 policy max 6\n1 policy auto\n1 append 1 Z960 _\n1 append 1 Z960 _\n1 append 1 Z960 _\n1 append 1 Z960 _\n1 append 1 Z960 _\n1 append 1 Z960 _\n1 append 1 Z960 _\n1 append 1 Z960 _\n1 append 1 Z960 _\n1 append 1 Z960 _\n1 append 1 Z960 _\n1 append 1 Z960 _\n1 append 1 Z960 _\n1 append 1 Z960 _\n1 append 1 Z960 _\n1 append 1 Z960 _\n1 append 1 Z960 _\n1 append 1 Z960 _\n1 append 1 Z960 _\n1 append 1 Z960 _\n1 append 1 Z960 _\n1 append 1 Z960 _\n1 append 1 Z960 _\n1 append 1 Z960 _\n1 size 2\n1 size 7\n1 size 6\n1 policy min 7\n1 unpolicy min\n1 unpolicy auto\n",
        "1 ok\n1 ok\n1 ok\n1 lsn 1:0:0\n1 lsn 1:400:0\n1 lsn 1:800:0\n1 lsn 1:c00:0\n1 lsn 2:0:0\n1 lsn 2:400:0\n1 lsn 2:800:0\n1 lsn 2:c00:0\n1 lsn 3:0:0\n1 lsn 3:400:0\n1 lsn 3:800:0\n1 lsn 3:c00:0\n1 lsn 4:0:0\n1 lsn 4:400:0\n1 lsn 4:800:0\n1 lsn 4:c00:0\n1 lsn 5:0:0\n1 lsn 5:400:0\n1 lsn 5:800:0\n1 lsn 5:c00:0\n1 lsn 6:0:0\n1 lsn 6:400:0\n1 lsn 6:800:0\n1 refused 5 Full 1 0 2\n1 refused 24 CantShrink 6 6\n1 refused 25 ContainerLimit 6\n1 containers 6\n1 refused 26 PolicyConflict 2 6\n1 refused 27 PolicyNotInstalled\n1 ok\n",
    ),
    // names, and lines that are wrong
    (
        "1 open a:b\n1 area 9 960 4\n1 flush 5\n1 apend 1 aa\n\n1 flush\n",
        "1 refused 16 NameInvalid 1\n1 refused 9 NoSuchStream\n1 refused 10 NoSuchArea\n0 refused 28 BadLine 2\n0 refused 28 BadLine 0\n0 refused 28 BadLine 7\n",
    ),
];

fn check_row(
    rt: &(impl Abort + Threads + Wait + Sync),
    alloc: Global,
    row: &str,
    replies: &str,
) -> Result<(), AllocError> {
    let script = written_behind(alloc, b"1 open a\n1 area 1 960 4\n", row)?;
    let want = joined(alloc, b"1 stream 1\n1 area 1\n", replies.as_bytes())?;
    check_new(rt, alloc, SMALL, &script, &want)
}

#[test]
fn scripts_and_their_replies(rt: HostRuntime) -> Result<(), AllocError> {
    for (row, replies) in ROWS {
        check_row(&rt, rt.alloc(), row, replies)?;
    }
    Ok(())
}

// What one run flushed the next one finds, and nothing else.
#[test]
fn a_log_is_served_again(rt: HostRuntime) -> Result<(), AllocError> {
    let alloc = rt.alloc();
    let disk = formatted(&rt, alloc, SMALL)?;
    let disk = check_script(
        &rt,
        alloc,
        disk,
        b"1 open a\n1 area 1 960 4\n1 append 1 aa 0:0:0 0:0:0 flush\n1 append 1 bb 0:0:0 0:0:0\n",
        b"1 stream 1\n1 area 1\n1 lsn 1:0:0\n1 lsn 1:200:0\n",
    )?;
    check_script(
        &rt,
        alloc,
        disk,
        b"1 area 1 960 4\n1 read 1 1:0:0 forward\n1 next 1 1\n1 append 1 cc 0:0:0 0:0:0\n",
        b"1 area 1\n1 cursor 1 record 1:0:0 data 0:0:0 0:0:0 0:0:0 aa\n1 refused 18 EndOfLog\n1 lsn 1:200:0\n",
    )?;
    Ok(())
}

// A log of one container takes nothing until it has two.
#[test]
fn a_small_log(rt: HostRuntime) -> Result<(), AllocError> {
    check_new(
        &rt,
        rt.alloc(),
        ["2", "8", "1"],
        b"1 open a\n1 area 1 960 4\n1 append 1 aa 0:0:0 0:0:0\n1 reserve 1 8\n1 size 2\n1 append 1 aa 0:0:0 0:0:0\n",
        b"1 stream 1\n1 area 1\n1 refused 4 NotEnoughContainers 1\n1 refused 4 NotEnoughContainers 1\n1 containers 2\n1 lsn 1:0:0\n",
    )
}

// On an empty disk there is no log.
#[test]
fn no_log(rt: HostRuntime) -> Result<(), AllocError> {
    let alloc = rt.alloc();
    let ran = served(
        &rt,
        alloc,
        Memory::new(alloc, 64, 65536, &[])?,
        b"1 open a\n",
    )?;
    assert!(rt; ran.is(NOT_A_LOG, b"not a log: no open slot\n"));
    Ok(())
}

// Words, the call of the source and that of the sink which fail, the status, and what is written. The lines that came whole are answered also where the
// source fails after them.
const STATUSES: [(&[&str], u64, u64, u8, &[u8]); 10] = [
    (&["serve"], 9, 99, DONE, b"1 stream 1\n1 stream 2\n"),
    (&["serve"], 1, 99, SOURCE_FAULT, b""),
    (&["serve"], 2, 99, SOURCE_FAULT, b""),
    (&["serve"], 3, 99, SOURCE_FAULT, b"1 stream 1\n"),
    (&["serve"], 9, 2, SINK_FAULT, b"1 stream 1"),
    (
        &["serve", "--write-buffers", "64"],
        9,
        99,
        DONE,
        b"1 stream 1\n1 stream 2\n",
    ),
    (
        &["serve", "--write-buffers", "65"],
        9,
        99,
        USAGE,
        USAGE_LINE,
    ),
    (&["serves"], 9, 99, USAGE, USAGE_LINE),
    (&["serve", "x"], 9, 99, USAGE, USAGE_LINE),
    (&[], 9, 3, SINK_FAULT, b"usage: clfs FOLDER f"),
];

// Runs words over two lines where these calls fail.
fn run_two_lines(
    rt: &(impl Abort + Threads + Wait + Sync),
    alloc: Global,
    texts: &[&str],
    source: Pieces,
    sink: Pieces,
) -> Result<Ran<Memory>, AllocError> {
    let script = b"1 open aaaaaaaaaaaaaaaaa\n1 open bbbbbbbbbbbbbbbbb\n";
    let given = given(alloc, texts, script, source, sink)?;
    Ok(run_on(rt, alloc, given, formatted(rt, alloc, SMALL)?))
}

#[test]
fn statuses_and_their_causes(rt: HostRuntime) -> Result<(), AllocError> {
    for (texts, source, sink, want, written) in STATUSES {
        let ran = run_two_lines(&rt, rt.alloc(), texts, (20, source), (10, sink))?;
        assert!(rt; ran.is(want, written));
    }
    Ok(())
}

// Sizes, the status, and what is written. A log is made once: a second time it is there. Sizes that no log has are no command.
const MADE: [([&str; 3], u8, &[u8]); 8] = [
    (["2", "8", "2"], DONE, b"formatted\n"),
    (["2", "8", "2"], EXISTS, b"a log is there\n"),
    (["2", "3", "2"], USAGE, USAGE_LINE),
    (["0", "8", "2"], USAGE, USAGE_LINE),
    (["129", "16384", "2"], USAGE, USAGE_LINE),
    (["2", "16385", "2"], USAGE, USAGE_LINE),
    (["2", "8", "257"], USAGE, USAGE_LINE),
    (["2", "8", "02"], USAGE, USAGE_LINE),
];

// Makes a log on a disk, with this status and these bytes.
fn check_format(
    rt: &(impl Abort + Threads + Wait + Sync),
    alloc: Global,
    disk: Steady,
    sizes: [&str; 3],
    want: u8,
    written: &[u8],
) -> Result<Steady, AllocError> {
    let ran = format_on(rt, alloc, sizes, disk)?;
    assert!(rt; ran.is(want, written));
    Ok(ran.disk)
}

#[test]
fn logs_are_made(rt: HostRuntime) -> Result<(), AllocError> {
    let mut disk = Steady::new(rt.alloc())?;
    for (sizes, want, written) in MADE {
        disk = check_format(&rt, rt.alloc(), disk, sizes, want, written)?;
    }
    Ok(())
}

// So many bytes `x`.
fn push_run(script: &mut Vec<u8>, count: usize) -> Result<(), AllocError> {
    for _ in 0..count {
        script.push(b'x')?;
    }
    Ok(())
}

// A good line, and a run of bytes with an ending after it.
fn long_line(alloc: Global, count: usize, ending: &[u8]) -> Result<Vec<u8>, AllocError> {
    let mut script = b"1 open a\n".to_vec(alloc)?;
    push_run(&mut script, count)?;
    script.extend_from_slice(ending)?;
    Ok(script)
}

// Runs `serve` by its own call over a script within a limit.
fn serve_on(
    rt: &(impl Abort + Threads + Wait + Sync),
    alloc: Global,
    script: &[u8],
    piece: usize,
    most: Option<u64>,
) -> Result<Ran<Memory>, AllocError> {
    let mut source = source_of(alloc, script, (piece, NEVER))?;
    let mut sink = sink_of(alloc, (99, NEVER))?;
    let disk = formatted(rt, alloc, SMALL)?;
    let Outcome { status, disk } = match most {
        Some(most) => serve_within(
            alloc,
            4,
            1,
            most,
            IncompleteLine::Counts,
            &mut source,
            &mut sink,
            disk,
        ),
        None => serve(alloc, 4, &mut source, &mut sink, disk),
    };
    Ok(came(status, sink, disk))
}

// The length of a line, its ending, the status, and what is written after the first reply: at the limit of a line and above it. A carriage return counts.
const LONG_LINES: [(usize, &[u8], u8, &[u8]); 5] = [
    (131072, b"\n", DONE, b"0 refused 28 BadLine 0\n"),
    (131073, b"\n", INPUT_TOO_LONG, b"input too long\n"),
    (131072, b"\r\n", INPUT_TOO_LONG, b"input too long\n"),
    (131072, b"", DONE, b"0 refused 28 BadLine 0\n"),
    (131073, b"", INPUT_TOO_LONG, b"input too long\n"),
];

fn serve_long_line(
    rt: &(impl Abort + Threads + Wait + Sync),
    alloc: Global,
    count: usize,
    ending: &[u8],
) -> Result<Ran<Memory>, AllocError> {
    let script = long_line(alloc, count, ending)?;
    serve_on(rt, alloc, &script, 65536, None)
}

#[test]
fn a_line_at_its_limit_and_above(rt: HostRuntime) -> Result<(), AllocError> {
    for (count, ending, want, written) in LONG_LINES {
        let ran = serve_long_line(&rt, rt.alloc(), count, ending)?;
        let behind = ran.written().strip_prefix(b"1 stream 1\n");
        assert!(rt; ran.status == want && behind == Some(written));
    }
    Ok(())
}

// 512 lines of 131,072 bytes each, and these bytes after them.
fn long_script(alloc: Global, more: &[u8]) -> Result<Vec<u8>, AllocError> {
    let mut script = Vec::with_capacity(alloc, 67108864 + more.len())?;
    for _ in 0..512 {
        push_run(&mut script, 131071)?;
        script.push(b'\n')?;
    }
    script.extend_from_slice(more)?;
    Ok(script)
}

fn serve_long_script(
    rt: &(impl Abort + Threads + Wait + Sync),
    alloc: Global,
    texts: &[&str],
    more: &[u8],
) -> Result<Ran<Memory>, AllocError> {
    let script = long_script(alloc, more)?;
    let given = given(alloc, texts, &script, (65536, NEVER), (4096, NEVER))?;
    Ok(run_on(rt, alloc, given, formatted(rt, alloc, SMALL)?))
}

// The words, the bytes after the lines, the status, and how many bytes are written. Such a script is at its limit, unless it is endless.
const LONG_SCRIPTS: [(&[&str], &[u8], u8, usize); 3] = [
    (&["serve"], b"", DONE, 512 * 23),
    (&["serve"], b"x", INPUT_TOO_LONG, 512 * 23 + 15),
    (&["serve", "--endless"], b"x\n", DONE, 513 * 23),
];

#[test]
fn a_script_at_its_limit_and_above(rt: HostRuntime) -> Result<(), AllocError> {
    for (texts, more, want, written) in LONG_SCRIPTS {
        let ran = serve_long_script(&rt, rt.alloc(), texts, more)?;
        assert!(rt; ran.status == want && ran.written().len() == written);
    }
    Ok(())
}

// The words, the bytes after a first line that have no line feed, the status, and what is written after its reply.
const INCOMPLETE_LINES: [(&[&str], &[u8], u8, &[u8]); 6] = [
    (&["serve"], b"1 size 2", DONE, b"1 containers 2\n"),
    (&["serve", "--endless"], b"1 size 2", DONE, b""),
    (
        &["serve", "--endless"],
        b"1 size 25\n1 size 2",
        DONE,
        b"1 containers 25\n",
    ),
    (&["serve", "--endless"], b"no line", DONE, b""),
    (&["serve", "--endless"], b"\r", DONE, b""),
    (&["serve", "--endless"], b"", DONE, b""),
];

// Bytes after the last line feed count as a line, but they are dropped of an endless script.
#[test]
fn an_incomplete_line(rt: HostRuntime) -> Result<(), AllocError> {
    for (texts, rest, want, written) in INCOMPLETE_LINES {
        let script = joined(rt.alloc(), b"1 open a\n", rest)?;
        let given = given(rt.alloc(), texts, &script, (5, NEVER), (99, NEVER))?;
        let ran = run_on(&rt, rt.alloc(), given, formatted(&rt, rt.alloc(), SMALL)?);
        let behind = ran.written().strip_prefix(b"1 stream 1\n");
        assert!(rt; ran.status == want && behind == Some(written));
    }
    Ok(())
}

// How many bytes may come of two lines of nine bytes each, the status, and what is written.
const OTHER_LIMITS: [(u64, u8, &[u8]); 6] = [
    (18, DONE, b"1 stream 1\n1 stream 2\n"),
    (u64::MAX, DONE, b"1 stream 1\n1 stream 2\n"),
    (17, INPUT_TOO_LONG, b"1 stream 1\ninput too long\n"),
    (9, INPUT_TOO_LONG, b"1 stream 1\ninput too long\n"),
    (8, INPUT_TOO_LONG, b"input too long\n"),
    (0, INPUT_TOO_LONG, b"input too long\n"),
];

#[test]
fn a_script_within_other_limits(rt: HostRuntime) -> Result<(), AllocError> {
    for (most, want, written) in OTHER_LIMITS {
        let script = b"1 open a\n1 open b\n";
        let ran = serve_on(&rt, rt.alloc(), script, 5, Some(most))?;
        assert!(rt; ran.is(want, written));
    }
    Ok(())
}

// A source with two lines, which has the second one only where a sink has taken the first reply, and else fails. It tells no bytes.
#[derive(Drop)]
struct Asking<'a> {
    replied: &'a Cell<usize>,
    lines: u8,
    faults: u64,
}

impl Source for Asking<'_> {
    ghost use Rattle.std.specs.Prelude.{None};

    ghost left = { λ s. None };

    ghost faults = { λ s. s.faults };

    fn read(&mut self, out: &mut [u8]) -> Result<usize, Failed> {
        let line: &[u8] = match self.lines {
            0 => b"1 open a\n",
            1 => b"1 open b\n",
            _ => return Ok(0),
        };
        if self.lines == 1 && self.replied.get() < b"1 stream 1\n".len() {
            self.faults = self.faults.saturating_add(1);
            return Err(Failed);
        }
        self.lines += 1;
        let count = line.len().min(out.len());
        out[..count].copy_from_slice(&line[..count]);
        Ok(count)
    }
}

// The sink to it. It tells no bytes either.
#[derive(Drop)]
struct Replied<'a> {
    replied: &'a Cell<usize>,
    bytes: Vec<u8>,
    faults: u64,
}

impl Sink for Replied<'_> {
    ghost use Rattle.std.specs.Prelude.{None};

    ghost written = { λ s. None };

    ghost faults = { λ s. s.faults };

    fn write(&mut self, piece: &[u8]) -> Result<usize, Failed> {
        let count = piece.len().min(4);
        if self.bytes.extend_from_slice(&piece[..count]).is_err() {
            self.faults = self.faults.saturating_add(1);
            return Err(Failed);
        }
        self.replied.set(self.bytes.len());
        Ok(count)
    }
}

// A client that waits for the reply to a line before it sends the next one is answered.
#[test]
fn each_line_is_answered_before_the_next_is_asked_for(rt: HostRuntime) -> Result<(), AllocError> {
    let alloc = rt.alloc();
    let disk = formatted(&rt, alloc, SMALL)?;
    let replied = Cell::new(0);
    let mut source = Asking {
        replied: &replied,
        lines: 0,
        faults: 0,
    };
    let mut sink = Replied {
        replied: &replied,
        bytes: Vec::new(alloc),
        faults: 0,
    };
    let outcome = serve(alloc, 4, &mut source, &mut sink, disk);
    assert!(rt; outcome.status == DONE);
    assert!(rt; sink.bytes.as_slice() == b"1 stream 1\n1 stream 2\n".as_slice());
    Ok(())
}
