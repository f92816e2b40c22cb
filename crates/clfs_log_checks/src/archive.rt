// The program's `archive` and `restore`: a log that is archived and restored up to LSNs, each status and its line, when the archive tail moves, and what a
// crash leaves of restoring.
ghost use Rattle.std.specs.Prelude.{◌≤◌, None};

use crate::runs::{
    NEVER, Pieces, Ran, SMALL, check_script, formatted, given, joined, run_on, served, sink_of,
    words,
};
use crate::watched::{Late, Watched};
use clfs_disk::{Disk, Fuse, Memory};
use clfs_engine::{
    ARCHIVE_GAP, DISK_FAULT, DONE, EXISTS, INPUT_TOO_LONG, NOT_A_LOG, NOT_AN_ARCHIVE, NOT_ARCHIVED,
    Outcome, SINK_FAULT, SOURCE_FAULT, UP_TO_OUTSIDE, USAGE, run,
};
use clfs_ports::{Failed, Source};
use std::alloc::{AllocError, Global};
use std::process::Abort;
use std::sync::Wait;
use std::thread::Threads;

// Two records in blocks of their own, in a log in which archiving is on.
const TWO_BLOCKS: (&[u8], &[u8]) = (
    b"1 open app\n1 area 1 960 4\n1 archive on\n1 append 1 aa 0:0:0 0:0:0 flush\n1 append 1 bb 1:0:0 1:0:0 flush\n",
    b"1 stream 1\n1 area 1\n1 ok\n1 lsn 1:0:0\n1 lsn 1:200:0\n",
);

// What a log is asked before it is archived, and after it.
const BEFORE: &[u8] =
    b"1 info containers 2 free 1 size 8 sectors 12 reserved 0 base 0:0:0 last 1:200:0 flushed 1:400:0 restart 0:0:0 archive 1:0:0\n";

const AFTER: &[u8] =
    b"1 info containers 2 free 1 size 8 sectors 12 reserved 0 base 0:0:0 last 1:200:0 flushed 1:400:0 restart 0:0:0 archive 1:400:0\n";

// A disk without a log.
fn empty(alloc: Global) -> Result<Memory, AllocError> {
    Memory::new(alloc, 2048, 8388608, &[])
}

// A disk with the log of two blocks.
fn two_blocks(
    rt: &(impl Abort + Threads + Wait + Sync),
    alloc: Global,
) -> Result<Memory, AllocError> {
    let disk = formatted(rt, alloc, SMALL)?;
    check_script(rt, alloc, disk, TWO_BLOCKS.0, TWO_BLOCKS.1)
}

// Runs `archive`. Its bytes go in such pieces.
fn archive<D: Disk + Send + Drop>(
    rt: &(impl Threads + Wait + Sync),
    alloc: Global,
    disk: D,
    sink: Pieces,
) -> Result<Ran<D>, AllocError> {
    let given = given(alloc, &["archive"], b"never read", (1, NEVER), sink)?;
    Ok(run_on(rt, alloc, given, disk))
}

// Runs `restore` with these words after it over archives that come in such pieces.
fn restore<D: Disk + Send + Drop>(
    rt: &(impl Threads + Wait + Sync),
    alloc: Global,
    disk: D,
    up_to: Option<&str>,
    archives: &[u8],
    source: Pieces,
) -> Result<Ran<D>, AllocError> {
    let given = match up_to {
        Some(lsn) => {
            let asked = ["restore", "--up-to", lsn];
            given(alloc, &asked, archives, source, (4, NEVER))?
        }
        None => given(alloc, &["restore"], archives, source, (4, NEVER))?,
    };
    Ok(run_on(rt, alloc, given, disk))
}

// The archive of the log of two blocks.
fn archived(
    rt: &(impl Abort + Threads + Wait + Sync),
    alloc: Global,
) -> Result<Vec<u8>, AllocError> {
    let ran = archive(rt, alloc, two_blocks(rt, alloc)?, (4096, NEVER))?;
    assert!(rt; ran.status == DONE);
    ran.written().to_vec(alloc)
}

#[test]
fn an_archive_is_written_and_the_tail_moves(rt: HostRuntime) -> Result<(), AllocError> {
    let alloc = rt.alloc();
    let ran = archive(&rt, alloc, two_blocks(&rt, alloc)?, (1000, NEVER))?;
    assert!(rt; ran.status == DONE);
    assert!(rt; ran.written().len() == 17427);
    assert!(rt; ran.written().starts_with(b"CLFSARC1"));
    check_script(&rt, alloc, ran.disk, b"1 info 1\n", AFTER)?;
    Ok(())
}

// Up to where the log is restored, and what it is asked then.
const RESTORED: [(Option<&str>, &[u8]); 3] = [
    (
        Some("1:200:0"),
        b"1 area 1\n1 cursor 1 record 1:0:0 data 0:0:0 0:0:0 0:0:0 aa\n1 refused 17 RecordNonexistent 1:200:0\n1 info containers 2 free 1 size 8 sectors 13 reserved 0 base 0:0:0 last 1:0:0 flushed 1:200:0 restart 0:0:0 archive 1:0:0\n",
    ),
    (
        Some("1:0:0"),
        b"1 area 1\n1 refused 17 RecordNonexistent 1:0:0\n1 refused 17 RecordNonexistent 1:200:0\n1 info containers 2 free 1 size 8 sectors 14 reserved 0 base 0:0:0 last 0:0:0 flushed 1:0:0 restart 0:0:0 archive 1:0:0\n",
    ),
    (
        None,
        b"1 area 1\n1 cursor 1 record 1:0:0 data 0:0:0 0:0:0 0:0:0 aa\n1 cursor 2 record 1:200:0 data 1:0:0 1:0:0 0:0:0 bb\n1 info containers 2 free 1 size 8 sectors 12 reserved 0 base 0:0:0 last 1:200:0 flushed 1:400:0 restart 0:0:0 archive 1:0:0\n",
    ),
];

#[test]
fn a_log_is_restored_up_to_an_lsn(rt: HostRuntime) -> Result<(), AllocError> {
    let alloc = rt.alloc();
    let archives = archived(&rt, alloc)?;
    for (up_to, replies) in RESTORED {
        let ran = restore(&rt, alloc, empty(alloc)?, up_to, &archives, (999, NEVER))?;
        assert!(rt; ran.is(DONE, b"restored\n"));
        let asked = b"1 area 1 960 4\n1 read 1 1:0:0 forward\n1 read 1 1:200:0 forward\n1 info 1\n";
        check_script(&rt, alloc, ran.disk, asked, replies)?;
    }
    Ok(())
}

// An archive that follows another one takes its place; the first one alone lacks nothing either.
#[test]
fn archives_one_after_the_other(rt: HostRuntime) -> Result<(), AllocError> {
    let alloc = rt.alloc();
    let first = archive(&rt, alloc, two_blocks(&rt, alloc)?, (4096, NEVER))?;
    let archives = first.written().to_vec(alloc)?;
    let more = b"1 area 1 960 4\n1 append 1 cc 1:200:0 1:200:0 flush\n";
    let disk = check_script(&rt, alloc, first.disk, more, b"1 area 1\n1 lsn 1:400:0\n")?;
    let second = archive(&rt, alloc, disk, (4096, NEVER))?;
    assert!(rt; second.status == DONE);
    let both = joined(alloc, &archives, second.written())?;
    let ran = restore(&rt, alloc, empty(alloc)?, None, &both, (4096, NEVER))?;
    assert!(rt; ran.is(DONE, b"restored\n"));
    let asked = b"1 area 1 960 4\n1 read 1 1:400:0 previous\n1 next 1 1\n1 next 1 1\n";
    let replies =
        b"1 area 1\n1 cursor 1 record 1:400:0 data 1:200:0 1:200:0 0:0:0 cc\n1 record 1:200:0 data 1:0:0 1:0:0 0:0:0 bb\n1 record 1:0:0 data 0:0:0 0:0:0 0:0:0 aa\n";
    check_script(&rt, alloc, ran.disk, asked, replies)?;
    Ok(())
}

// Why nothing is restored, and that nothing is there then either.
fn check_refused(
    rt: &(impl Abort + Threads + Wait + Sync),
    alloc: Global,
    up_to: Option<&str>,
    archives: &[u8],
    status: u8,
    line: &[u8],
) -> Result<(), AllocError> {
    let ran = restore(rt, alloc, empty(alloc)?, up_to, archives, (4096, NEVER))?;
    assert!(rt; ran.is(status, line));
    let ran = served(rt, alloc, ran.disk, b"")?;
    assert!(rt; ran.is(NOT_A_LOG, b"not a log: no open slot\n"));
    Ok(())
}

// So many bytes from the front, or all if there are fewer.
fn front_of(bytes: &[u8], count: usize) -> &[u8] {
    bytes.split_at(bytes.len().min(count)).0
}

#[test]
fn archives_that_are_none(rt: HostRuntime) -> Result<(), AllocError> {
    let alloc = rt.alloc();
    let archives = archived(&rt, alloc)?;
    let outside = b"up-to outside 1:0:0 to 1:400:0\n";
    check_refused(
        &rt,
        alloc,
        Some("1:600:0"),
        &archives,
        UP_TO_OUTSIDE,
        outside,
    )?;
    check_refused(
        &rt,
        alloc,
        Some("0:fffffe00:1ff"),
        &archives,
        UP_TO_OUTSIDE,
        outside,
    )?;
    let cut = front_of(&archives, 17426);
    check_refused(
        &rt,
        alloc,
        None,
        cut,
        NOT_AN_ARCHIVE,
        b"not an archive: byte 17426\n",
    )?;
    check_refused(
        &rt,
        alloc,
        None,
        b"",
        NOT_AN_ARCHIVE,
        b"not an archive: byte 0\n",
    )?;
    let more = joined(alloc, &archives, b"D")?;
    check_refused(
        &rt,
        alloc,
        None,
        &more,
        NOT_AN_ARCHIVE,
        b"not an archive: byte 17427\n",
    )?;
    Ok(())
}

// Lines that fill a container and go on in the next one; the tail lies there then. The base copy lists both, and the archive has the second alone.
fn two_containers(alloc: Global) -> Result<Vec<u8>, AllocError> {
    let mut script = b"1 open app\n1 area 1 960 4\n1 archive on\n".to_vec(alloc)?;
    for _ in 0..9u32 {
        script.extend_from_slice(b"1 append 1 aa 0:0:0 0:0:0 flush\n")?;
    }
    script.extend_from_slice(b"1 tail 2:0:0\n")?;
    Ok(script)
}

#[test]
fn an_archive_that_lacks_a_container(rt: HostRuntime) -> Result<(), AllocError> {
    let alloc = rt.alloc();
    let disk = formatted(&rt, alloc, SMALL)?;
    let ran = served(&rt, alloc, disk, &two_containers(alloc)?)?;
    assert!(rt; ran.written().ends_with(b"1 lsn 2:0:0\n1 tail 2:0:0\n"));
    let ran = archive(&rt, alloc, ran.disk, (4096, NEVER))?;
    assert!(rt; ran.status == DONE);
    check_refused(
        &rt,
        alloc,
        None,
        ran.written(),
        ARCHIVE_GAP,
        b"archive gap: container 1\n",
    )
}

#[test]
fn logs_that_have_no_archive(rt: HostRuntime) -> Result<(), AllocError> {
    let alloc = rt.alloc();
    let ran = archive(&rt, alloc, empty(alloc)?, (4096, NEVER))?;
    assert!(rt; ran.is(NOT_A_LOG, b"not a log: no open slot\n"));
    let ran = archive(&rt, alloc, formatted(&rt, alloc, SMALL)?, (4096, NEVER))?;
    assert!(rt; ran.is(NOT_ARCHIVED, b"archiving is off\n"));
    let asked = given(
        alloc,
        &["restore", "--up-to", "1:1:0"],
        b"",
        (1, NEVER),
        (99, NEVER),
    )?;
    assert!(rt; run_on(&rt, alloc, asked, ran.disk).status == USAGE);
    Ok(())
}

// A sink that fails anywhere in the archive leaves the tail where it was.
#[test]
fn the_tail_stays_if_the_sink_fails(rt: HostRuntime) -> Result<(), AllocError> {
    let alloc = rt.alloc();
    for call in 1..6u64 {
        let ran = archive(&rt, alloc, two_blocks(&rt, alloc)?, (4096, call))?;
        assert!(rt; ran.status == SINK_FAULT);
        let written = ran.written().len();
        assert!(rt;
            written < 17427 && written as u64 == call.saturating_sub(1).saturating_mul(4096)
        );
        check_script(&rt, alloc, ran.disk, b"1 info 1\n", BEFORE)?;
    }
    Ok(())
}

// The input isn't read if a log is there: a source that fails at once isn't noticed.
#[test]
fn a_log_that_is_there_stays(rt: HostRuntime) -> Result<(), AllocError> {
    let alloc = rt.alloc();
    let ran = restore(&rt, alloc, two_blocks(&rt, alloc)?, None, b"abc", (1, 1))?;
    assert!(rt; ran.is(EXISTS, b"a log is there\n"));
    check_script(&rt, alloc, ran.disk, b"1 info 1\n", BEFORE)?;
    Ok(())
}

// A source that always has bytes.
#[derive(Drop)]
struct Endless;

impl Source for Endless {
    ghost left = { λ endless. None };

    ghost faults = { λ endless. 0 };

    fn read(&mut self, out: &mut [u8]) -> Result<usize, Failed> {
        Ok(out.len())
    }
}

#[test]
fn inputs_that_are_not_read_whole(rt: HostRuntime) -> Result<(), AllocError> {
    let alloc = rt.alloc();
    let archives = archived(&rt, alloc)?;
    let ran = restore(&rt, alloc, empty(alloc)?, None, &archives, (999, 3))?;
    assert!(rt; ran.is(SOURCE_FAULT, b""));
    let mut sink = sink_of(alloc, (99, NEVER))?;
    let words = words(alloc, &["restore"])?;
    let mut source = Endless;
    let Outcome { status, disk } = run(&rt, alloc, &words, &mut source, &mut sink, ran.disk);
    assert!(rt; status == INPUT_TOO_LONG);
    assert!(rt; sink.bytes() == b"input too long\n".as_slice());
    let ran = served(&rt, alloc, disk, b"")?;
    assert!(rt; ran.is(NOT_A_LOG, b"not a log: no open slot\n"));
    Ok(())
}

// A disk that fails in its first read: what the archives are is told before that.
#[test]
fn archives_are_judged_though_the_disk_fails(rt: HostRuntime) -> Result<(), AllocError> {
    let alloc = rt.alloc();
    let archives = archived(&rt, alloc)?;
    let disk = Memory::new(alloc, 2048, 8388608, &[1])?;
    let ran = restore(&rt, alloc, disk, None, b"abc", (1, NEVER))?;
    assert!(rt; ran.is(NOT_AN_ARCHIVE, b"not an archive: byte 0\n"));
    let disk = Memory::new(alloc, 2048, 8388608, &[1])?;
    let ran = restore(&rt, alloc, disk, None, &archives, (4096, NEVER))?;
    assert!(rt; ran.is(DISK_FAULT, b"disk fault\n"));
    Ok(())
}

// So many calls of the disk restoring takes.
fn calls_of_restoring(
    rt: &(impl Abort + Threads + Wait + Sync),
    alloc: Global,
    archives: &[u8],
) -> Result<u64, AllocError> {
    let disk = Watched::new(empty(alloc)?, u64::MAX, Late::Nothing);
    let ran = restore(rt, alloc, disk, None, archives, (4096, NEVER))?;
    assert!(rt; ran.is(DONE, b"restored\n"));
    Ok(ran.disk.calls)
}

// What a crash leaves of restoring on a disk that passes so many calls: no open slot, or the whole log; in the first case it is restored on the files as
// they are.
fn check_crashed(
    rt: &(impl Abort + Threads + Wait + Sync),
    alloc: Global,
    archives: &[u8],
    passes: u64,
    pick: u8,
) -> Result<bool, AllocError>
    requires { pick ≤ 2 }
{
    let disk = Fuse::new(empty(alloc)?, passes);
    let ran = restore(rt, alloc, disk, None, archives, (4096, NEVER))?;
    let done = ran.is(DONE, b"restored\n");
    assert!(rt; done || ran.is(DISK_FAULT, b"disk fault\n"));
    let left = served(rt, alloc, ran.disk.into_inner().crash(pick), b"1 info 1\n")?;
    let whole = left.is(DONE, BEFORE);
    assert!(rt; whole || !done && left.is(NOT_A_LOG, b"not a log: no open slot\n"));
    if !whole {
        let again = restore(rt, alloc, left.disk, None, archives, (4096, NEVER))?;
        assert!(rt; again.is(DONE, b"restored\n"));
        check_script(rt, alloc, again.disk, b"1 info 1\n", BEFORE)?;
    }
    Ok(whole)
}

// The disk stops at each call of restoring.
#[test]
fn a_restore_that_stops(rt: HostRuntime) -> Result<(), AllocError> {
    let alloc = rt.alloc();
    let archives = archived(&rt, alloc)?;
    let calls = calls_of_restoring(&rt, alloc, &archives)?;
    assert!(rt; calls > 8);
    for passes in 0..calls.saturating_add(1) {
        for pick in 0..3u8 {
            let whole = check_crashed(&rt, alloc, &archives, passes, pick)?;
            assert!(rt; whole || passes < calls);
            assert!(rt; !whole || passes.saturating_add(2) > calls);
        }
    }
    Ok(())
}
