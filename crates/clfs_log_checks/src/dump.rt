// The program's `dump`: its text by what is asked for, that of files that were changed, and what is written if a call of the disk or of the sink fails.
use crate::faults::made;
use crate::runs::{NEVER, Ran, SMALL, check_script, formatted, given, run_on};
use crate::worked::put;
use clfs_disk::{Disk, Memory};
use clfs_engine::{DISK_FAULT, DONE, NOT_A_LOG, SINK_FAULT, USAGE};
use std::alloc::{AllocError, Global};
use std::process::Abort;
use std::sync::Wait;
use std::thread::Threads;

// What these words come to, with a sink that fails in a call. The source would fail if it were read.
fn dumped<D: Disk + Send + Drop>(
    rt: &(impl Threads + Wait + Sync),
    alloc: Global,
    texts: &[&str],
    disk: D,
    fails: u64,
) -> Result<Ran<D>, AllocError> {
    let given = given(alloc, texts, b"1 open a\n", (1, 1), (7, fails))?;
    Ok(run_on(rt, alloc, given, disk))
}

fn joined(alloc: Global, lines: &[&str]) -> Result<Vec<u8>, AllocError> {
    let mut text = Vec::new(alloc);
    for line in lines {
        text.extend_from_slice(line.as_bytes())?;
    }
    Ok(text)
}

// A log with four records in three blocks, of two streams. The first record is dead.
const SCRIPT: &[u8] =
    b"1 open a\n1 area 1 960 4\n2 open b\n2 area 2 960 4\n1 append 1 225c62 0:0:0 0:0:0\n2 append 1 - 0:0:0 0:0:0 flush\n1 restart 1 01 -\n2 append 1 ff 1:0:1 1:0:1 flush\n1 advance 1 1:200:0\n";

const REPLIES: &[u8] =
    b"1 stream 1\n1 area 1\n2 stream 2\n2 area 1\n1 lsn 1:0:0\n2 lsn 1:0:1\n1 lsn 1:200:0\n2 lsn 1:400:0\n1 base 1:200:0\n";

fn four_records(
    rt: &(impl Abort + Threads + Wait + Sync),
    alloc: Global,
) -> Result<Memory, AllocError> {
    check_script(rt, alloc, formatted(rt, alloc, SMALL)?, SCRIPT, REPLIES)
}

// Its lines.
const LOG: &str =
    "log block 2 container 8 containers 2 files 2 listed 1 streams 2 archive off version 2 slot 1 turn 0\nstream 1 base 1:200:0 a\nstream 2 base 0:0:0 b\ncontainer 1 file 1\n";

const BLOCK_1: &str = "block 1:0:0 sectors 1 records 2 used 88\n";

const RECORD_1: &str = "record 1:0:0 1 data 0:0:0 0:0:0 0:0:0 225c62\n";

const RECORD_2: &str = "record 1:0:1 2 data 0:0:0 0:0:0 0:0:0 -\n";

const BLOCK_2: &str = "block 1:200:0 sectors 1 records 1 used 56\n";

const RECORD_3: &str = "record 1:200:0 1 restart 0:0:0 0:0:0 0:0:0 01\n";

const BLOCK_3: &str = "block 1:400:0 sectors 1 records 1 used 56\n";

const RECORD_4: &str = "record 1:400:0 2 data 1:0:1 1:0:1 0:0:0 ff\n";

const END: &str = "end 1:600:0\n";

const WHOLE: [&str; 9] = [
    LOG, BLOCK_1, RECORD_1, RECORD_2, BLOCK_2, RECORD_3, BLOCK_3, RECORD_4, END,
];

// Words, and the lines that are printed. An LSN from which on records are printed is printed itself, and the one that ends them isn't. The blocks of a
// stream that isn't there are printed, and no record.
const DUMPS: [(&[&str], &[&str]); 10] = [
    (&["dump"], &WHOLE),
    (&["dump", "--data", "hex"], &WHOLE),
    (
        &["dump", "--from", "1:0:1"],
        &[
            LOG, BLOCK_1, RECORD_2, BLOCK_2, RECORD_3, BLOCK_3, RECORD_4, END,
        ],
    ),
    (&["dump", "--to", "1:0:1"], &[LOG, BLOCK_1, RECORD_1, END]),
    (
        &["dump", "--to", "1:400:0", "--from", "1:200:0"],
        &[LOG, BLOCK_2, RECORD_3, END],
    ),
    (&["dump", "--from", "2:0:0"], &[LOG, END]),
    (
        &["dump", "--stream", "b"],
        &[LOG, BLOCK_1, RECORD_2, BLOCK_2, BLOCK_3, RECORD_4, END],
    ),
    (
        &["dump", "--stream", "c"],
        &[LOG, BLOCK_1, BLOCK_2, BLOCK_3, END],
    ),
    (
        &["dump", "--data=text", "--to", "1:200:0"],
        &[
            LOG,
            BLOCK_1,
            "record 1:0:0 1 data 0:0:0 0:0:0 0:0:0 \"\\\"\\\\b\"\n",
            "record 1:0:1 2 data 0:0:0 0:0:0 0:0:0 \"\"\n",
            END,
        ],
    ),
    (
        &["dump", "--data", "none", "--stream", "a"],
        &[
            LOG,
            BLOCK_1,
            "record 1:0:0 1 data 0:0:0 0:0:0 0:0:0\n",
            BLOCK_2,
            "record 1:200:0 1 restart 0:0:0 0:0:0 0:0:0\n",
            BLOCK_3,
            END,
        ],
    ),
];

fn check_dump(
    rt: &(impl Abort + Threads + Wait + Sync),
    alloc: Global,
    texts: &[&str],
    lines: &[&str],
) -> Result<(), AllocError> {
    let ran = dumped(rt, alloc, texts, four_records(rt, alloc)?, NEVER)?;
    let want = joined(alloc, lines)?;
    assert!(rt; ran.is(DONE, &want));
    Ok(())
}

#[test]
fn texts_of_dumps(rt: HostRuntime) -> Result<(), AllocError> {
    for (texts, lines) in DUMPS {
        check_dump(&rt, rt.alloc(), texts, lines)?;
    }
    Ok(())
}

// A byte of a file that is changed, and the lines that are printed then.
const DAMAGE: [(u16, u64, u8, &[&str]); 5] = [
    (1, 1, 2, &[LOG, "damage container 1 offset 0 byte 1\n"]),
    (
        1,
        4,
        3,
        &[
            LOG,
            "block 1:0:0 sectors 1 records 3 used 88\n",
            RECORD_1,
            RECORD_2,
            "damage container 1 offset 0 byte 88\n",
        ],
    ),
    (
        1,
        532,
        3,
        &[
            LOG,
            BLOCK_1,
            RECORD_1,
            RECORD_2,
            BLOCK_2,
            "damage container 1 offset 512 byte 20\n",
        ],
    ),
    (
        1,
        1046,
        0,
        &[
            LOG,
            BLOCK_1,
            RECORD_1,
            RECORD_2,
            BLOCK_2,
            RECORD_3,
            BLOCK_3,
            "damage container 1 offset 1024 byte 22\n",
        ],
    ),
    (0, 16387, 1, &["damage container 0 offset 16384 byte 3\n"]),
];

fn check_damage(
    rt: &(impl Abort + Threads + Wait + Sync),
    alloc: Global,
    change: (u16, u64, u8),
    lines: &[&str],
) -> Result<(), AllocError> {
    let (file, at, byte) = change;
    let mut disk = four_records(rt, alloc)?;
    put(rt, &mut disk, file.min(256), at, &[byte]);
    let ran = dumped(rt, alloc, &["dump"], disk, NEVER)?;
    let want = joined(alloc, lines)?;
    assert!(rt; ran.is(NOT_A_LOG, &want));
    Ok(())
}

#[test]
fn dumps_of_damaged_files(rt: HostRuntime) -> Result<(), AllocError> {
    for (file, at, byte, lines) in DAMAGE {
        check_damage(&rt, rt.alloc(), (file, at, byte), lines)?;
    }
    Ok(())
}

#[test]
fn a_dump_without_a_log(rt: HostRuntime) -> Result<(), AllocError> {
    let disk = Memory::new(rt.alloc(), 2048, 8388608, &[])?;
    let ran = dumped(&rt, rt.alloc(), &["dump"], disk, NEVER)?;
    assert!(rt; ran.is(NOT_A_LOG, b"not a log: no open slot\n"));
    Ok(())
}

const NO_DUMPS: [&[&str]; 4] = [
    &["dump", "x"],
    &["dump", "--from", "1"],
    &["dump", "--data", "bytes"],
    &["dump", "--stream", ""],
];

#[test]
fn words_that_are_no_dump(rt: HostRuntime) -> Result<(), AllocError> {
    let usage =
        b"usage: clfs FOLDER format, serve, race, trial, crew, check, txn, archive, restore or crowd\n";
    for texts in NO_DUMPS {
        let disk = Memory::new(rt.alloc(), 2048, 8388608, &[])?;
        let ran = dumped(&rt, rt.alloc(), texts, disk, NEVER)?;
        assert!(rt; ran.is(USAGE, usage));
    }
    Ok(())
}

const FRESH: &[u8] =
    b"log block 2 container 8 containers 2 files 2 listed 1 streams 0 archive off version 2 slot 0 turn 0\ncontainer 1 file 1\nend 1:0:0\n";

// The call of a number that `dump` makes after making the log: whether the disk failed in it. None if there is no such call.
fn meets_dump(
    rt: &(impl Abort + Threads + Wait + Sync),
    alloc: Global,
    call: u64,
) -> Result<Option<bool>, AllocError> {
    let Some(disk) = made(rt, alloc, call)? else {
        return Ok(Some(false));
    };
    let ran = dumped(rt, alloc, &["dump"], disk, NEVER)?;
    if ran.is(DONE, FRESH) {
        return Ok(None);
    }
    assert!(rt; ran.status == DISK_FAULT && ran.written().ends_with(b"disk fault\n"));
    let count = ran.written().len().saturating_sub(11);
    assert!(rt; FRESH.starts_with(ran.written().get(..count).unwrap_or(&[])));
    Ok(Some(true))
}

// The calls of the disk: both slots, the slot's copy and the container.
#[test]
fn each_call_of_a_dump(rt: HostRuntime) -> Result<(), AllocError> {
    let mut told = 0u64;
    for call in 1..128u64 {
        let Some(met) = meets_dump(&rt, rt.alloc(), call)? else {
            assert!(rt; told >= 4);
            return Ok(());
        };
        told = told.saturating_add(met as u64);
    }
    panic!(rt; "a call failed always");
}

// Whether the sink's call of a number is met. What was written is a front of the text then.
fn meets_sink(
    rt: &(impl Abort + Threads + Wait + Sync),
    alloc: Global,
    call: u64,
) -> Result<bool, AllocError> {
    let ran = dumped(rt, alloc, &["dump"], formatted(rt, alloc, SMALL)?, call)?;
    if ran.is(DONE, FRESH) {
        return Ok(false);
    }
    assert!(rt; ran.status == SINK_FAULT && FRESH.starts_with(ran.written()));
    Ok(true)
}

#[test]
fn each_write_of_a_dump(rt: HostRuntime) -> Result<(), AllocError> {
    for call in 1..128u64 {
        if !meets_sink(&rt, rt.alloc(), call)? {
            assert!(rt; call > 1);
            return Ok(());
        }
    }
    panic!(rt; "a call failed always");
}
