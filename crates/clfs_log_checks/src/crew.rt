// The program's `crew`: what it prints, which words are none, and when it ends otherwise.
use crate::runs::{NEVER, Ran, given, run_on};
use clfs_disk::Steady;
use clfs_engine::{DONE, SINK_FAULT, USAGE};
use std::alloc::{AllocError, Global};
use std::sync::Wait;
use std::thread::Threads;

// What these words come to, with a sink that fails in a call. The source would fail if it were read.
fn crewed(
    rt: &(impl Threads + Wait + Sync),
    alloc: Global,
    texts: &[&str],
    fails: u64,
) -> Result<Ran<Steady>, AllocError> {
    let given = given(alloc, texts, b"1 open a\n", (5, 1), (20, fails))?;
    Ok(run_on(rt, alloc, given, Steady::new(alloc)?))
}

// Threads, records, and the line.
const CREWS: [(&str, &str, &str); 6] = [
    ("1", "1", "crew 1 1 records 1 held 0\n"),
    ("1", "1000", "crew 1 1000 records 1000 held 0\n"),
    ("3", "7", "crew 3 7 records 21 held 0\n"),
    ("4", "100", "crew 4 100 records 400 held 0\n"),
    ("8", "1", "crew 8 1 records 8 held 0\n"),
    ("8", "1000", "crew 8 1000 records 8000 held 0\n"),
];

#[test]
fn lines_of_crews(rt: HostRuntime) -> Result<(), AllocError> {
    for (threads, count, want) in CREWS {
        let ran = crewed(&rt, rt.alloc(), &["crew", threads, count], NEVER)?;
        assert!(rt; ran.is(DONE, want.as_bytes()));
    }
    Ok(())
}

const NO_CREWS: [&[&str]; 13] = [
    &["crew", "9", "1"],
    &["crew", "0", "1"],
    &["crew", "4", "0"],
    &["crew", "4", "1001"],
    &["crew", "04", "1"],
    &["crew", "4", "01"],
    &["crew", "+4", "1"],
    &["crew", "4", "-1"],
    &["crew", "", "1"],
    &["crew", "4", " 1"],
    &["crew", "4", "1", "1"],
    &["crew", "4"],
    &["crew"],
];

#[test]
fn words_that_are_no_crew(rt: HostRuntime) -> Result<(), AllocError> {
    let usage =
        b"usage: clfs FOLDER format, serve, race, trial, crew, check, txn, archive, restore or crowd\n";
    for texts in NO_CREWS {
        let ran = crewed(&rt, rt.alloc(), texts, NEVER)?;
        assert!(rt; ran.is(USAGE, usage));
    }
    Ok(())
}

#[test]
fn a_crew_whose_sink_fails(rt: HostRuntime) -> Result<(), AllocError> {
    let ran = crewed(&rt, rt.alloc(), &["crew", "4", "100"], 2)?;
    assert!(rt; ran.is(SINK_FAULT, b"crew 4 100 records 4"));
    Ok(())
}
