// The program's `trial`: what it prints, worked out apart from it, and when it ends otherwise.
use crate::runs::{NEVER, Ran, given, run_on};
use clfs_disk::Steady;
use clfs_engine::{DONE, SINK_FAULT, USAGE};
use std::alloc::{AllocError, Global};
use std::sync::Wait;
use std::thread::Threads;

// What `trial` with these words comes to, with a sink that fails in a call. The source would fail if it were read.
fn tried(
    rt: &(impl Threads + Wait + Sync),
    alloc: Global,
    number: &str,
    count: &str,
    fails: u64,
) -> Result<Ran<Steady>, AllocError> {
    let given = given(
        alloc,
        &["trial", number, count],
        b"1 open a\n",
        (5, 1),
        (20, fails),
    )?;
    Ok(run_on(rt, alloc, given, Steady::new(alloc)?))
}

// A number, a count, and the line.
const SUMS: [(&str, &str, &str); 6] = [
    ("1", "1", "trial 1 1 ok 9 refused 0 flushed 1:0:0\n"),
    (
        "4294967295",
        "1",
        "trial 4294967295 1 ok 9 refused 0 flushed 1:0:0\n",
    ),
    ("7", "20", "trial 7 20 ok 25 refused 3 flushed 1:1200:0\n"),
    (
        "2",
        "500",
        "trial 2 500 ok 492 refused 16 flushed 1:15a00:0\n",
    ),
    (
        "12",
        "2000",
        "trial 12 2000 ok 1990 refused 18 flushed 1:5ee00:0\n",
    ),
    (
        "99",
        "5000",
        "trial 99 5000 ok 4981 refused 27 flushed 2:6e000:0\n",
    ),
];

#[test]
fn sums_of_trials(rt: HostRuntime) -> Result<(), AllocError> {
    for (number, count, want) in SUMS {
        let ran = tried(&rt, rt.alloc(), number, count, NEVER)?;
        assert!(rt; ran.is(DONE, want.as_bytes()));
    }
    Ok(())
}

const MOST: &[u8] = b"trial 7 100000 ok 99754 refused 254 flushed 26:5fe00:0\n";

#[test]
fn the_most_lines_twice(rt: HostRuntime) -> Result<(), AllocError> {
    for _ in 0..2 {
        let ran = tried(&rt, rt.alloc(), "7", "100000", NEVER)?;
        assert!(rt; ran.is(DONE, MOST));
    }
    Ok(())
}

const NO_TRIALS: [(&str, &str); 7] = [
    ("4294967296", "1"),
    ("1", "0"),
    ("1", "100001"),
    ("01", "1"),
    ("1", "+1"),
    ("-1", "1"),
    ("", "1"),
];

#[test]
fn words_that_are_no_trial(rt: HostRuntime) -> Result<(), AllocError> {
    let usage =
        b"usage: clfs FOLDER format, serve, race, trial, crew, check, txn, archive, restore or crowd\n";
    for (number, count) in NO_TRIALS {
        let ran = tried(&rt, rt.alloc(), number, count, NEVER)?;
        assert!(rt; ran.is(USAGE, usage));
    }
    Ok(())
}

#[test]
fn a_sink_that_fails(rt: HostRuntime) -> Result<(), AllocError> {
    let ran = tried(&rt, rt.alloc(), "1", "1", 2)?;
    assert!(rt; ran.is(SINK_FAULT, b"trial 1 1 ok 9 refus"));
    Ok(())
}
