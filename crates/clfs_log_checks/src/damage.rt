// Logs that are judged by `check`, and what `check` and `serve` say of files that were changed: the same, at the same place.
ghost use Rattle.std.specs.Prelude.{◌≤◌};

use crate::runs::{NEVER, Ran, SMALL, check_script, formatted, given, run_on, served, written_out};
use crate::worked::put;
use clfs_disk::{Disk, Fuse, Memory};
use clfs_engine::{DONE, NOT_A_LOG};
use std::alloc::{AllocError, Global};
use std::process::Abort;
use std::sync::Wait;
use std::thread::Threads;

// One change of the files of a log.
#[derive(Clone, Copy)]
enum Change {
    // These bytes stand at a place of a file.
    Put {
        file: u16,
        at: u64,
        bytes: &'static [u8],
    },
    // Only so many bytes of a file are left.
    Cut {
        file: u16,
        len: usize,
    },
}

// What `check` answers of a disk. The source would fail if it were read.
pub(crate) fn checked<D: Disk + Send + Drop>(
    rt: &(impl Threads + Wait + Sync),
    alloc: Global,
    disk: D,
) -> Result<Ran<D>, AllocError> {
    let given = given(alloc, &["check"], b"", (1, 1), (3, NEVER))?;
    Ok(run_on(rt, alloc, given, disk))
}

// `check` ends with a status and writes a line.
fn check_judged<D: Disk + Send + Drop>(
    rt: &(impl Abort + Threads + Wait + Sync),
    alloc: Global,
    disk: D,
    status: u8,
    line: &str,
) -> Result<D, AllocError> {
    let ran = checked(rt, alloc, disk)?;
    assert!(rt; ran.is(status, line.as_bytes()));
    Ok(ran.disk)
}

// `check` and `serve` find no log, and write the same line.
fn check_no_log(
    rt: &(impl Abort + Threads + Wait + Sync),
    alloc: Global,
    disk: Memory,
    line: &str,
) -> Result<(), AllocError> {
    let disk = check_judged(rt, alloc, disk, NOT_A_LOG, line)?;
    let ran = served(rt, alloc, disk, b"")?;
    assert!(rt; ran.is(NOT_A_LOG, line.as_bytes()));
    Ok(())
}

// A log with one record of ten bytes in its first block, which is flushed.
fn one_record(
    rt: &(impl Abort + Threads + Wait + Sync),
    alloc: Global,
) -> Result<Memory, AllocError> {
    check_script(
        rt,
        alloc,
        formatted(rt, alloc, SMALL)?,
        b"1 open a\n1 area 1 960 4\n1 append 1 00010203040506070809 0:0:0 0:0:0 flush\n",
        b"1 stream 1\n1 area 1\n1 lsn 1:0:0\n",
    )
}

// Copies so many bytes of a file at most.
fn copy_file(
    rt: &impl Abort,
    from: &mut Memory,
    to: &mut Memory,
    file: u16,
    most: usize,
    room: &mut [u8],
)
    requires { file ≤ 256 }
{
    let count = from.read(file, 0, room).unwrap_or(0);
    let bytes = room.get(..count.min(most)).unwrap_or(&[]);
    assert!(rt; to.grow(file, bytes.len() as u64).is_ok());
    put(rt, to, file, 0, bytes);
}

// A disk with the files of another one, of which one is cut to a length.
fn cut_to(
    rt: &impl Abort,
    alloc: Global,
    disk: &mut Memory,
    file: u16,
    len: usize,
) -> Result<Memory, AllocError> {
    let mut room = Vec::new(alloc);
    room.resize(65536, 0)?;
    let mut copy = Memory::new(alloc, 2048, 8388608, &[])?;
    for number in 0..3u16 {
        let most = if number == file { len } else { usize::MAX };
        copy_file(rt, disk, &mut copy, number, most, &mut room);
    }
    Ok(copy)
}

// The log with one record, after a change.
fn changed(
    rt: &(impl Abort + Threads + Wait + Sync),
    alloc: Global,
    change: Change,
) -> Result<Memory, AllocError> {
    let mut disk = one_record(rt, alloc)?;
    match change {
        Change::Put { file, at, bytes } => {
            put(rt, &mut disk, file.min(256), at, bytes);
            Ok(disk)
        }
        Change::Cut { file, len } => cut_to(rt, alloc, &mut disk, file, len),
    }
}

// A log that has just been made, also with its base copy in the first version.
#[test]
fn a_fresh_log_is_whole(rt: HostRuntime) -> Result<(), AllocError> {
    let alloc = rt.alloc();
    let line = "log containers 2 listed 1 blocks 0 records 0 streams 0 end 1:0:0 whole yes\n";
    let fresh = formatted(&rt, alloc, SMALL)?;
    let mut old = check_judged(&rt, alloc, fresh, DONE, line)?;
    put(&rt, &mut old, 0, 1, &[1]);
    check_judged(&rt, alloc, old, DONE, line)?;
    Ok(())
}

// A log with three blocks of four records.
fn four_records(
    rt: &(impl Abort + Threads + Wait + Sync),
    alloc: Global,
    one: Memory,
) -> Result<Memory, AllocError> {
    check_script(
        rt,
        alloc,
        one,
        b"1 area 1 960 4\n1 restart 1 01 -\n1 append 1 aa 0:0:0 0:0:0\n1 append 1 bb 0:0:0 0:0:0 flush\n",
        b"1 area 1\n1 lsn 1:200:0\n1 lsn 1:400:0\n1 lsn 1:400:1\n",
    )
}

// A log with a record, and one with four.
#[test]
fn logs_that_are_whole(rt: HostRuntime) -> Result<(), AllocError> {
    let alloc = rt.alloc();
    let line = "log containers 2 listed 1 blocks 1 records 1 streams 1 end 1:200:0 whole yes\n";
    let one = one_record(&rt, alloc)?;
    let one = check_judged(&rt, alloc, one, DONE, line)?;
    let line = "log containers 2 listed 1 blocks 3 records 4 streams 1 end 1:600:0 whole yes\n";
    let four = four_records(&rt, alloc, one)?;
    check_judged(&rt, alloc, four, DONE, line)?;
    Ok(())
}

// Files whose ends are gone after all that the log has in them.
#[test]
fn logs_whose_files_are_short(rt: HostRuntime) -> Result<(), AllocError> {
    let alloc = rt.alloc();
    let line = "log containers 2 listed 1 blocks 1 records 1 streams 1 end 1:200:0 whole no\n";
    for (file, len) in [(1, 513), (1, 4095), (2, 100), (2, 4095), (2, 0)] {
        let disk = changed(&rt, alloc, Change::Cut { file, len })?;
        check_judged(&rt, alloc, disk, DONE, line)?;
    }
    Ok(())
}

// A change, and the place at which it is told.
const DAMAGE: [(Change, &str); 17] = [
    (
        Change::Put {
            file: 1,
            at: 1,
            bytes: &[2],
        },
        "container 1 offset 0 byte 1",
    ),
    (
        Change::Put {
            file: 1,
            at: 2,
            bytes: &[3],
        },
        "container 1 offset 0 byte 2",
    ),
    (
        Change::Put {
            file: 1,
            at: 4,
            bytes: &[0],
        },
        "container 1 offset 0 byte 4",
    ),
    (
        Change::Put {
            file: 1,
            at: 8,
            bytes: &[249, 1],
        },
        "container 1 offset 0 byte 8",
    ),
    (
        Change::Put {
            file: 1,
            at: 20,
            bytes: &[2],
        },
        "container 1 offset 0 byte 20",
    ),
    (
        Change::Put {
            file: 1,
            at: 22,
            bytes: &[3],
        },
        "container 1 offset 0 byte 22",
    ),
    (
        Change::Put {
            file: 1,
            at: 23,
            bytes: &[1],
        },
        "container 1 offset 0 byte 23",
    ),
    // links to the record itself
    (
        Change::Put {
            file: 1,
            at: 28,
            bytes: &[1],
        },
        "container 1 offset 0 byte 24",
    ),
    (
        Change::Put {
            file: 1,
            at: 36,
            bytes: &[1],
        },
        "container 1 offset 0 byte 32",
    ),
    (
        Change::Put {
            file: 1,
            at: 40,
            bytes: &[1],
        },
        "container 1 offset 0 byte 40",
    ),
    (
        Change::Put {
            file: 1,
            at: 58,
            bytes: &[1],
        },
        "container 1 offset 0 byte 58",
    ),
    (
        Change::Put {
            file: 1,
            at: 64,
            bytes: &[1],
        },
        "container 1 offset 0 byte 64",
    ),
    (
        Change::Put {
            file: 1,
            at: 504,
            bytes: &[1],
        },
        "container 1 offset 0 byte 504",
    ),
    (
        Change::Cut { file: 1, len: 100 },
        "container 1 offset 0 byte 100",
    ),
    (
        Change::Cut { file: 1, len: 0 },
        "container 1 offset 0 byte 0",
    ),
    (
        Change::Put {
            file: 0,
            at: 16387,
            bytes: &[1],
        },
        "container 0 offset 16384 byte 3",
    ),
    (
        Change::Put {
            file: 0,
            at: 16960,
            bytes: &[65],
        },
        "container 0 offset 16384 byte 576",
    ),
];

// A change is told at its place, by both commands.
fn check_damage(
    rt: &(impl Abort + Threads + Wait + Sync),
    alloc: Global,
    change: Change,
    place: &str,
) -> Result<(), AllocError> {
    let line = format!(in alloc; "not a log: {place}\n")?;
    check_no_log(rt, alloc, changed(rt, alloc, change)?, line.as_str())
}

#[test]
fn damage_is_told_by_both(rt: HostRuntime) -> Result<(), AllocError> {
    for (change, place) in DAMAGE {
        check_damage(&rt, rt.alloc(), change, place)?;
    }
    Ok(())
}

// Both gates closed, and no files at all.
#[test]
fn no_log_is_there(rt: HostRuntime) -> Result<(), AllocError> {
    let alloc = rt.alloc();
    let line = "not a log: no open slot\n";
    let mut closed = one_record(&rt, alloc)?;
    put(&rt, &mut closed, 0, 0, &[164]);
    put(&rt, &mut closed, 0, 16384, &[164]);
    check_no_log(&rt, alloc, closed, line)?;
    check_no_log(&rt, alloc, Memory::new(alloc, 2048, 8388608, &[])?, line)
}

const SCRIPT: &str =
    "1 open a\n1 area 1 960 4\n1 append 1 aa _ flush\n1 append 1 Z960 _\n1 append 1 Z960 _\n1 append 1 Z960 _\n1 append 1 Z960 _ flush\n1 advance 1 2:0:0\n";

// A run was stopped by its disk.
fn is_stopped(ran: &Ran<Fuse<Memory>>) -> bool {
    ran.status != DONE
        || ran.written().ends_with(b"refused 3 Broken\n")
        || ran.written().ends_with(b"refused 2 DiskFault\n")
}

fn is_whole(ran: &Ran<Memory>) -> bool {
    ran.status == DONE
        && ran.written().starts_with(b"log containers 2 listed ")
        && ran.written().ends_with(b" whole yes\n")
}

// What a crash leaves of a script over a disk that passes so many calls is a whole log. Whether the disk stopped.
fn check_crash(
    rt: &(impl Abort + Threads + Wait + Sync),
    alloc: Global,
    passes: u64,
    pick: u8,
) -> Result<bool, AllocError>
    requires { pick ≤ 2 }
{
    let script = written_out(alloc, SCRIPT)?;
    let ran = served(
        rt,
        alloc,
        Fuse::new(formatted(rt, alloc, SMALL)?, passes),
        &script,
    )?;
    let has_stopped = is_stopped(&ran);
    let left = checked(rt, alloc, ran.disk.into_inner().crash(pick))?;
    assert!(rt; is_whole(&left));
    Ok(has_stopped)
}

// Whatever call of a script the disk stops at, and whatever the crash leaves of it, a log is there.
#[test]
fn logs_behind_a_crash(rt: HostRuntime) -> Result<(), AllocError> {
    for passes in 0..256u64 {
        check_crash(&rt, rt.alloc(), passes, 0)?;
        check_crash(&rt, rt.alloc(), passes, 1)?;
        if !check_crash(&rt, rt.alloc(), passes, 2)? {
            return Ok(());
        }
    }
    panic!(rt; "the disk stopped always");
}
