// The program's `crowd`: what it prints, which words are none, and when it ends otherwise.
use crate::runs::{NEVER, Ran, given, run_on};
use clfs_disk::Steady;
use clfs_engine::{DONE, SINK_FAULT, USAGE};
use std::alloc::{AllocError, Global};
use std::sync::Wait;
use std::thread::Threads;

// What these words come to, with a sink that fails in a call. The source would fail if it were read.
fn crowded(
    rt: &(impl Threads + Wait + Sync),
    alloc: Global,
    texts: &[&str],
    fails: u64,
) -> Result<Ran<Steady>, AllocError> {
    let given = given(alloc, texts, b"1 open a\n", (5, 1), (20, fails))?;
    Ok(run_on(rt, alloc, given, Steady::new(alloc)?))
}

// Threads, records, and the line.
const CROWDS: [(&str, &str, &str); 5] = [
    ("1", "1", "crowd 1 1 records 1 stable 1\n"),
    ("1", "1000", "crowd 1 1000 records 1000 stable 1000\n"),
    ("3", "7", "crowd 3 7 records 21 stable 21\n"),
    ("8", "1", "crowd 8 1 records 8 stable 8\n"),
    ("8", "100", "crowd 8 100 records 800 stable 800\n"),
];

// How often each crowd runs: its threads take turns as they come, and the line is the same.
const TIMES: usize = 5;

#[test]
fn lines_of_crowds(rt: HostRuntime) -> Result<(), AllocError> {
    for (threads, count, want) in CROWDS {
        for _ in 0..TIMES {
            let ran = crowded(&rt, rt.alloc(), &["crowd", threads, count], NEVER)?;
            assert!(rt; ran.is(DONE, want.as_bytes()));
        }
    }
    Ok(())
}

const NO_CROWDS: [&[&str]; 9] = [
    &["crowd", "0", "1"],
    &["crowd", "9", "1"],
    &["crowd", "1", "0"],
    &["crowd", "1", "1001"],
    &["crowd", "01", "1"],
    &["crowd", "1", ""],
    &["crowd", "1", "1", "1"],
    &["crowd", "1"],
    &["crowd"],
];

#[test]
fn words_that_are_no_crowd(rt: HostRuntime) -> Result<(), AllocError> {
    let usage =
        b"usage: clfs FOLDER format, serve, race, trial, crew, check, txn, archive, restore or crowd\n";
    for texts in NO_CROWDS {
        let ran = crowded(&rt, rt.alloc(), texts, NEVER)?;
        assert!(rt; ran.is(USAGE, usage));
    }
    Ok(())
}

#[test]
fn a_crowd_whose_sink_fails(rt: HostRuntime) -> Result<(), AllocError> {
    let ran = crowded(&rt, rt.alloc(), &["crowd", "4", "100"], 2)?;
    assert!(rt; ran.is(SINK_FAULT, b"crowd 4 100 records "));
    Ok(())
}
