// A race over a disk that stops at each of its calls in turn, and what a log has that is opened after a crash then: each record of whose flush a client was
// told, and a record only where those before it are.
use crate::runs::{NEVER, SMALL, formatted, given, lines_of, run_on, served};
use clfs_disk::Fuse;
use clfs_engine::DONE;
use std::alloc::{AllocError, Global};
use std::process::Abort;
use std::sync::Wait;
use std::thread::Threads;

// Two clients of one stream, each with a record that is flushed. Whichever comes first has LSN 1:0:0, and the other one 1:200:0.
const TWO_RECORDS: &[u8] =
    b"1 open a\n2 open a\n1 area 1 960 4\n2 area 1 960 4\n1 append 1 aa 0:0:0 0:0:0 flush\n2 append 1 bb 0:0:0 0:0:0 flush\n";

const PROBE: &[u8] =
    b"1 open a\n1 area 1 960 4\n1 read 1 1:0:0 forward\n1 read 1 1:200:0 forward\n";

// What a client may be told, in which line of the replies to the probe its record is, and that line.
const TOLD: [(&[u8], usize, &[u8]); 4] = [
    (
        b"1 lsn 1:0:0",
        2,
        b"1 cursor 1 record 1:0:0 data 0:0:0 0:0:0 0:0:0 aa",
    ),
    (
        b"2 lsn 1:0:0",
        2,
        b"1 cursor 1 record 1:0:0 data 0:0:0 0:0:0 0:0:0 bb",
    ),
    (
        b"1 lsn 1:200:0",
        3,
        b"1 cursor 2 record 1:200:0 data 0:0:0 0:0:0 0:0:0 aa",
    ),
    (
        b"2 lsn 1:200:0",
        3,
        b"1 cursor 2 record 1:200:0 data 0:0:0 0:0:0 0:0:0 bb",
    ),
];

fn has_line(lines: &[&[u8]], line: &[u8]) -> bool {
    lines.iter().any(|other| *other == line)
}

// Each record of which a client was told is read. The second one isn't where the first one isn't: it would be read by the first cursor.
fn are_kept(told: &[&[u8]], read: &[&[u8]]) -> bool {
    for (reply, line, record) in TOLD {
        if has_line(told, reply) && read.get(line) != Some(&record) {
            return false;
        }
    }
    match read.get(3) {
        Some(second) => !second.starts_with(b"1 cursor 1 "),
        None => false,
    }
}

// How many records were told.
fn told_records(told: &[&[u8]]) -> usize {
    let mut count = 0usize;
    for (reply, _, _) in TOLD {
        if has_line(told, reply) {
            count = count.saturating_add(1);
        }
    }
    count
}

// Races over a disk that passes so many calls, and opens the log after each of three crashes. Answers how many records were told, at least.
fn least_told(
    rt: &(impl Abort + Threads + Wait + Sync),
    alloc: Global,
    passes: u64,
) -> Result<usize, AllocError> {
    let mut least = 2usize;
    for pick in 0..3u8 {
        let disk = Fuse::new(formatted(rt, alloc, SMALL)?, passes);
        let given = given(alloc, &["race"], TWO_RECORDS, (4096, NEVER), (4096, NEVER))?;
        let ran = run_on(rt, alloc, given, disk);
        let written = ran.written().to_vec(alloc)?;
        let told = lines_of(alloc, &written)?;
        let left = served(rt, alloc, ran.disk.into_inner().crash(pick), PROBE)?;
        assert!(rt; left.status == DONE && are_kept(&told, &lines_of(alloc, left.written())?));
        least = least.min(told_records(&told));
    }
    Ok(least)
}

// The disk stops at each call in turn, until it is called no more often.
#[test]
fn a_race_that_stops_keeps_what_it_told(rt: HostRuntime) -> Result<(), AllocError> {
    assert!(rt; least_told(&rt, rt.alloc(), 0)? == 0);
    for passes in 1..256u64 {
        if least_told(&rt, rt.alloc(), passes)? == 2 {
            return Ok(());
        }
    }
    assert!(rt; false);
    Ok(())
}
