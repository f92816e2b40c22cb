// The program's `txn`: two days of a table, lines that ask for nothing, a log that is full, a stream that is no table, logs that refuse one, what is
// written if the source or the sink fails, and what a crash leaves of the first day.
ghost use Rattle.std.specs.Prelude.{◌≤◌};

use crate::runs::{
    NEVER, Pieces, Ran, check_script, format_words, formatted, given, push_zeros, run_on, served,
};
use crate::watched::{Late, Watched};
use clfs_disk::{Disk, Fuse, Memory};
use clfs_engine::{DONE, NOT_A_TABLE, REFUSED, SINK_FAULT, SOURCE_FAULT, USAGE};
use std::alloc::{AllocError, Global};
use std::process::Abort;
use std::sync::Wait;
use std::thread::Threads;

// Blocks of a sector, and four containers of sixteen.
const SIZES: [&str; 3] = ["1", "16", "4"];

// Why a log of 32 sectors that are all taken refuses a table.
const FULL: &[u8] = b"refused 5 Full 0 0 1\n";

// Runs `txn` over a script whose bytes come and go in such pieces.
fn table<D: Disk + Send + Drop>(
    rt: &(impl Threads + Wait + Sync),
    alloc: Global,
    disk: D,
    script: &[u8],
    source: Pieces,
    sink: Pieces,
) -> Result<Ran<D>, AllocError> {
    let given = given(alloc, &["txn"], script, source, sink)?;
    Ok(run_on(rt, alloc, given, disk))
}

// Whether a script has these replies, and the disk.
fn check_table(
    rt: &(impl Abort + Threads + Wait + Sync),
    alloc: Global,
    disk: Memory,
    script: &[u8],
    want: &[u8],
) -> Result<Memory, AllocError> {
    let ran = table(rt, alloc, disk, script, (7, NEVER), (5, NEVER))?;
    assert!(rt; ran.is(DONE, want));
    Ok(ran.disk)
}

// A set that was taken back, and a transaction that was rolled back and never flushed: its number is given again.
const FIRST_DAY: (&[u8], &[u8]) = (
    b"begin 2\nset 1 0 5\nset 1 0 7\nback 1 1\nget 0\ncommit 1\nbegin 1\nset 2 0 9\nget 0\nrollback 2\nget 0\n",
    b"txn 1\nok\nok\nok\nvalue 5\nok\ntxn 2\nok\nvalue 9\nok\nvalue 5\n",
);

// What refuses a call, and a line that asks for nothing.
const SECOND_DAY: (&[u8], &[u8]) = (
    b"get 0\nbegin 1\nbegin 1\nset 2 3 1\nset 3 3 1\nset 2 4 1\nback 2 2\ncheckpoint\ncommit 9\nset 1 32 0\n",
    b"value 5\ntxn 2\ntxn 3\nok\nrefused 32 CellHeld 2\nrefused 33 ChangesSpent 1\nrefused 34 KeptTooMany 1\nrefused 35 TxnsOpen 2\nrefused 30 NoSuchTxn\nrefused 28 BadLine 6\n",
);

#[test]
fn two_days_of_a_table(rt: HostRuntime) -> Result<(), AllocError> {
    let alloc = rt.alloc();
    let disk = formatted(&rt, alloc, SIZES)?;
    let disk = check_table(&rt, alloc, disk, FIRST_DAY.0, FIRST_DAY.1)?;
    check_table(&rt, alloc, disk, SECOND_DAY.0, SECOND_DAY.1)?;
    Ok(())
}

// Lines that ask for nothing, each with its place, and two that end in their own way.
const BAD_LINES: (&[u8], &[u8]) = (
    b"begin 0\nbegin 8\nbegin 01\nbegin\nbegin 1 2\nset 1 0\nset 0 0 5\nset 1 0 18446744073709551616\nback 1 8\nget 32\ncheckpoint 1\nGET 0\n\n get 0\nget  0\nget 0 \n1 open a\ncommit 4294967296\nrollback 0\nget 0\r\nget 31",
    b"refused 28 BadLine 6\nrefused 28 BadLine 6\nrefused 28 BadLine 6\nrefused 28 BadLine 5\nrefused 28 BadLine 8\nrefused 28 BadLine 7\nrefused 28 BadLine 4\nrefused 28 BadLine 8\nrefused 28 BadLine 7\nrefused 28 BadLine 4\nrefused 28 BadLine 11\nrefused 28 BadLine 0\nrefused 28 BadLine 0\nrefused 28 BadLine 0\nrefused 28 BadLine 4\nrefused 28 BadLine 6\nrefused 28 BadLine 0\nrefused 28 BadLine 7\nrefused 28 BadLine 9\nvalue 0\nvalue 0\n",
);

#[test]
fn lines_that_ask_for_nothing(rt: HostRuntime) -> Result<(), AllocError> {
    let alloc = rt.alloc();
    let disk = formatted(&rt, alloc, SIZES)?;
    check_table(&rt, alloc, disk, BAD_LINES.0, BAD_LINES.1)?;
    Ok(())
}

// Seventeen transactions, each of which sets cell 1 to its number; and their replies.
fn seventeen(alloc: Global) -> Result<(Vec<u8>, Vec<u8>), AllocError> {
    let mut script = Vec::new(alloc);
    let mut want = Vec::new(alloc);
    for txn in 1..18u32 {
        let lines = format!(in alloc; "begin 1\nset {txn} 1 {txn}\ncommit {txn}\n")?;
        script.extend_from_slice(lines.as_bytes())?;
        let replies = format!(in alloc; "txn {txn}\nok\nok\n")?;
        want.extend_from_slice(replies.as_bytes())?;
    }
    Ok((script, want))
}

// They take so much of a log of 32 sectors that no room is left for fifteen records. A checkpoint gives it back, and nothing is lost.
#[test]
fn a_full_log_goes_on_after_a_checkpoint(rt: HostRuntime) -> Result<(), AllocError> {
    let alloc = rt.alloc();
    let (mut script, mut want) = seventeen(alloc)?;
    script.extend_from_slice(b"begin 7\nget 1\ncheckpoint\nbegin 7\nget 1\n")?;
    want.extend_from_slice(b"refused 5 Full 14 0 15\nvalue 17\nok\ntxn 18\nvalue 17\n")?;
    let disk = formatted(&rt, alloc, ["1", "16", "2"])?;
    let disk = check_table(&rt, alloc, disk, &script, &want)?;
    check_table(&rt, alloc, disk, b"get 1\nbegin 1\n", b"value 17\ntxn 18\n")?;
    Ok(())
}

// The same log goes on if it gets a container more, too.
#[test]
fn a_full_log_goes_on_with_more_containers(rt: HostRuntime) -> Result<(), AllocError> {
    let alloc = rt.alloc();
    let (mut script, mut want) = seventeen(alloc)?;
    script.extend_from_slice(b"begin 7\n")?;
    want.extend_from_slice(b"refused 5 Full 14 0 15\n")?;
    let disk = formatted(&rt, alloc, ["1", "16", "2"])?;
    let disk = check_table(&rt, alloc, disk, &script, &want)?;
    let disk = check_script(&rt, alloc, disk, b"1 size 3\n", b"1 containers 3\n")?;
    check_table(&rt, alloc, disk, b"get 1\nbegin 7\n", b"value 17\ntxn 18\n")?;
    Ok(())
}

// Lines of another client that make the stream, and why its records are no table then: there is no restart area, or one of another length.
const STRANGERS: [(&[u8], &[u8], &[u8]); 2] = [
    (
        b"1 open txn\n1 area 1 100 1\n1 append 1 aa 0:0:0 0:0:0\n1 append 1 bb 0:0:0 0:0:0 flush\n",
        b"1 stream 1\n1 area 1\n1 lsn 1:0:0\n1 lsn 1:0:1\n",
        b"not a table: 1:0:1\n",
    ),
    (
        b"1 open txn\n1 area 1 100 1\n1 restart 1 aa -\n",
        b"1 stream 1\n1 area 1\n1 lsn 1:0:0\n",
        b"not a table: 1:0:0\n",
    ),
];

#[test]
fn streams_of_others_are_no_tables(rt: HostRuntime) -> Result<(), AllocError> {
    let alloc = rt.alloc();
    for (script, replies, want) in STRANGERS {
        let disk = formatted(&rt, alloc, SIZES)?;
        let disk = check_script(&rt, alloc, disk, script, replies)?;
        let ran = table(&rt, alloc, disk, b"get 0\n", (7, NEVER), (5, NEVER))?;
        assert!(rt; ran.is(NOT_A_TABLE, want));
    }
    Ok(())
}

#[test]
fn a_log_of_one_container_has_no_table(rt: HostRuntime) -> Result<(), AllocError> {
    let alloc = rt.alloc();
    let disk = formatted(&rt, alloc, ["1", "16", "1"])?;
    let ran = table(&rt, alloc, disk, b"get 0\n", (7, NEVER), (5, NEVER))?;
    assert!(rt; ran.is(REFUSED, b"refused 4 NotEnoughContainers 1\n"));
    Ok(())
}

// A log that has one stream alone, which is another one.
#[test]
fn a_dedicated_log_of_another_stream_has_no_table(rt: HostRuntime) -> Result<(), AllocError> {
    let alloc = rt.alloc();
    let [format, block, sectors, container, more, containers, number] = format_words(SIZES);
    let words = [
        format,
        block,
        sectors,
        container,
        more,
        containers,
        number,
        "--dedicated",
    ];
    let given = given(alloc, &words, b"", (1, NEVER), (99, NEVER))?;
    let disk = run_on(&rt, alloc, given, Memory::new(alloc, 2048, 8388608, &[])?).disk;
    let disk = check_script(&rt, alloc, disk, b"1 open other\n", b"1 stream 1\n")?;
    let ran = table(&rt, alloc, disk, b"get 0\n", (7, NEVER), (5, NEVER))?;
    assert!(rt; ran.is(REFUSED, b"refused 29 Dedicated\n"));
    Ok(())
}

// Lines of another stream whose records take all of a log of 32 sectors.
fn filling(alloc: Global) -> Result<Vec<u8>, AllocError> {
    let mut script = b"1 open a\n1 area 1 400 1\n".to_vec(alloc)?;
    for _ in 0..32u32 {
        script.extend_from_slice(b"1 append 1 ")?;
        push_zeros(&mut script, 400)?;
        script.extend_from_slice(b" 0:0:0 0:0:0 flush\n")?;
    }
    Ok(script)
}

#[test]
fn a_log_without_room_has_no_table(rt: HostRuntime) -> Result<(), AllocError> {
    let alloc = rt.alloc();
    let disk = formatted(&rt, alloc, ["1", "16", "2"])?;
    let ran = served(&rt, alloc, disk, &filling(alloc)?)?;
    assert!(rt; ran.status == DONE);
    let ran = table(&rt, alloc, ran.disk, b"get 0\n", (7, NEVER), (5, NEVER))?;
    assert!(rt; ran.is(REFUSED, FULL));
    Ok(())
}

// A script whose second piece doesn't come, a sink that fails at its second call, and a word too many.
#[test]
fn tables_and_faults_outside(rt: HostRuntime) -> Result<(), AllocError> {
    let alloc = rt.alloc();
    let disk = formatted(&rt, alloc, SIZES)?;
    let ran = table(&rt, alloc, disk, b"get 0\nget 1\n", (8, 2), (99, NEVER))?;
    assert!(rt; ran.is(SOURCE_FAULT, b"value 0\n"));
    let ran = table(&rt, alloc, ran.disk, b"get 0\nget 1\n", (99, NEVER), (3, 2))?;
    assert!(rt; ran.is(SINK_FAULT, b"val"));
    let given = given(alloc, &["txn", "1"], b"", (1, NEVER), (99, NEVER))?;
    let ran = run_on(&rt, alloc, given, ran.disk);
    assert!(rt;
        ran.is(
            USAGE,
            b"usage: clfs FOLDER format, serve, race, trial, crew, check, txn, archive, restore or crowd\n"
        )
    );
    Ok(())
}

// Lines that ask for every cell, and the replies if the first has this value and all others are 0.
fn all_cells(alloc: Global, first: u64) -> Result<(Vec<u8>, Vec<u8>), AllocError> {
    let mut script = Vec::new(alloc);
    let mut want = Vec::new(alloc);
    for cell in 0..32u16 {
        let line = format!(in alloc; "get {cell}\n")?;
        script.extend_from_slice(line.as_bytes())?;
        let value = if cell == 0 { first } else { 0 };
        let reply = format!(in alloc; "value {value}\n")?;
        want.extend_from_slice(reply.as_bytes())?;
    }
    Ok((script, want))
}

// So many calls of the disk the first day takes, from opening the log on.
fn calls_of_a_day(
    rt: &(impl Abort + Threads + Wait + Sync),
    alloc: Global,
) -> Result<u64, AllocError> {
    let disk = Watched::new(formatted(rt, alloc, SIZES)?, u64::MAX, Late::Nothing);
    let ran = table(rt, alloc, disk, FIRST_DAY.0, (4096, NEVER), (4096, NEVER))?;
    assert!(rt; ran.is(DONE, FIRST_DAY.1));
    Ok(ran.disk.calls)
}

// The replies of the first day up to that of its commit.
const COMMITTED: &[u8] = b"txn 1\nok\nok\nok\nvalue 5\nok\n";

// What a crash leaves of the first day on a disk that passes so many calls: all cells are 0, unless the commit was under way; once it was answered cell 0
// is 5.
fn check_crashed(
    rt: &(impl Abort + Threads + Wait + Sync),
    alloc: Global,
    passes: u64,
    pick: u8,
) -> Result<(), AllocError>
    requires { pick ≤ 2 }
{
    let disk = Fuse::new(formatted(rt, alloc, SIZES)?, passes);
    let day = table(rt, alloc, disk, FIRST_DAY.0, (4096, NEVER), (4096, NEVER))?;
    let committed = day.written().starts_with(COMMITTED);
    let (script, zeros) = all_cells(alloc, 0)?;
    let (_, five) = all_cells(alloc, 5)?;
    let left = day.disk.into_inner().crash(pick);
    let ran = table(rt, alloc, left, &script, (4096, NEVER), (4096, NEVER))?;
    assert!(rt; ran.is(DONE, &five) || !committed && ran.is(DONE, &zeros));
    Ok(())
}

// The disk stops at each call of the first day.
#[test]
fn a_day_that_stops(rt: HostRuntime) -> Result<(), AllocError> {
    let alloc = rt.alloc();
    let calls = calls_of_a_day(&rt, alloc)?;
    assert!(rt; calls > 8);
    for passes in 0..calls.saturating_add(1) {
        for pick in 0..3u8 {
            check_crashed(&rt, alloc, passes, pick)?;
        }
    }
    Ok(())
}
