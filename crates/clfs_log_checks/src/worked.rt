// Worked scripts through `run`: at the limits of a log, over disks that fail, stop, or give other bytes than were written, and over files
// that were changed.
ghost use Rattle.std.specs.Prelude.{◌≤◌};

use crate::runs::{
    Ran, SMALL, check_new, check_script, format_on, formatted, lines_of, push_zeros, served,
    written_out,
};
use crate::watched::{Late, Watched, calls_of, calls_of_row};
use clfs_disk::{Disk, Fuse, Memory};
use clfs_engine::{DISK_FAULT, DONE, EXISTS, NOT_A_LOG};
use std::alloc::{AllocError, Global};
use std::process::Abort;
use std::sync::Wait;
use std::thread::Threads;

// The first line that isn't the wanted one, and which it is. Each line after it has to say that the log is broken.
fn first_other<'a>(
    rt: &(impl Abort + Threads + Wait + Sync),
    alloc: Global,
    written: &'a [u8],
    want: &[u8],
) -> Result<Option<(usize, &'a [u8])>, AllocError> {
    let lines = lines_of(alloc, written)?;
    let wanted_lines = lines_of(alloc, want)?;
    assert!(rt; lines.len() == wanted_lines.len());
    let mut first = None;
    for (i, (line, wanted)) in lines.into_iter().zip(wanted_lines).enumerate() {
        if first.is_some() {
            assert!(rt; line.is_empty() || line == b"1 refused 3 Broken".as_slice());
        } else if line != wanted {
            first = Some((i, line));
        }
    }
    Ok(first)
}

// The line that opens a stream, and its reply.
fn push_stream(
    alloc: Global,
    script: &mut Vec<u8>,
    want: &mut Vec<u8>,
    number: u16,
) -> Result<(), AllocError> {
    script.extend_from_slice(format!(in alloc; "1 open s{number}\n")?.as_bytes())?;
    want.extend_from_slice(format!(in alloc; "1 stream {number}\n")?.as_bytes())
}

// A script at the limit of streams, and its replies.
fn many_streams(alloc: Global) -> Result<(Vec<u8>, Vec<u8>), AllocError> {
    let mut script = Vec::new(alloc);
    let mut want = Vec::new(alloc);
    for number in 1..193u16 {
        push_stream(alloc, &mut script, &mut want, number)?;
    }
    script.extend_from_slice(b"1 open one_more\n")?;
    want.extend_from_slice(b"1 refused 13 StreamLimit 192\n")?;
    Ok((script, want))
}

// The sizes of a log that has just been made, without a stream, a script, and its replies.
const LIMITS: [([&str; 3], &str, &str); 6] = [
    (SMALL, "", ""),
    (SMALL, "1 open a", "1 stream 1\n"),
    // a log of one container
    (
        ["2", "8", "1"],
        "1 open a\n1 area 1 960 4\n1 append 1 aa 0:0:0 0:0:0\n1 reserve 1 8\n1 size 2\n1 append 1 aa 0:0:0 0:0:0\n",
        "1 stream 1\n1 area 1\n1 refused 4 NotEnoughContainers 1\n1 refused 4 NotEnoughContainers 1\n1 containers 2\n1 lsn 1:0:0\n",
    ),
    // names and areas
    (
        SMALL,
        "1 open a:b\n1 open abcdefghijklmnopqrstuvwxyzabcdefghijklmnopqrstuvwxyzabcdefghijklm\n1 open a\n1 area 9 960 4\n1 area 1 960 4\n1 flush 5\n1 area 1 960 4\n1 area 1 960 4\n1 area 1 960 4\n1 area 1 960 4\n1 area 1 960 4\n1 area 1 960 4\n1 area 1 960 4\n1 area 1 960 4\n1 area 1 960 4\n1 area 1 960 4\n1 area 1 960 4\n1 area 1 960 4\n1 area 1 960 4\n1 area 1 960 4\n1 area 1 960 4\n1 area 1 960 4\n",
        "1 refused 16 NameInvalid 1\n1 refused 16 NameInvalid 64\n1 stream 1\n1 refused 9 NoSuchStream\n1 area 1\n1 refused 10 NoSuchArea\n1 area 2\n1 area 3\n1 area 4\n1 area 5\n1 area 6\n1 area 7\n1 area 8\n1 area 9\n1 area 10\n1 area 11\n1 area 12\n1 area 13\n1 area 14\n1 area 15\n1 area 16\n1 refused 14 AreaLimit 16\n",
    ),
    // one read buffer
    (
        SMALL,
        "1 open a\n1 area 1 960 1\n1 append 1 aa 0:0:0 0:0:0\n1 read 1 1:0:0 forward\n1 read 1 1:0:0 forward\n1 next 1 2\n",
        "1 stream 1\n1 area 1\n1 lsn 1:0:0\n1 cursor 1 record 1:0:0 data 0:0:0 0:0:0 0:0:0 aa\n1 refused 15 CursorLimit 1\n1 refused 12 NoSuchCursor\n",
    ),
    // reservations that make the log grow
    (
        SMALL,
        "1 open a\n1 area 1 960 4\n1 policy auto\n1 reserve 1 960\n1 reserve 1 960\n1 reserve 1 960\n1 reserve 1 960\n1 reserve 1 960\n1 reserve 1 960\n1 reserve 1 960\n1 reserve 1 960\n1 info 1\n",
        "1 stream 1\n1 area 1\n1 ok\n1 held 2\n1 held 4\n1 held 6\n1 held 8\n1 held 10\n1 held 12\n1 held 14\n1 held 16\n1 info containers 3 free 2 size 8 sectors 21 reserved 16 base 0:0:0 last 0:0:0 flushed 1:0:0 restart 0:0:0 archive off\n",
    ),
];

#[test]
fn scripts_at_the_limits(rt: HostRuntime) -> Result<(), AllocError> {
    for (sizes, script, replies) in LIMITS {
        check_new(
            &rt,
            rt.alloc(),
            sizes,
            script.as_bytes(),
            replies.as_bytes(),
        )?;
    }
    Ok(())
}

#[test]
fn the_most_streams(rt: HostRuntime) -> Result<(), AllocError> {
    let (script, want) = many_streams(rt.alloc())?;
    check_new(&rt, rt.alloc(), SMALL, &script, &want)
}

// The LSN of a record of the day's use, counted from 0. Of ten records nine share a block of three sectors, and the tenth has one of its own.
fn lsn_of_day(alloc: Global, number: u8) -> Result<String, AllocError> {
    let at = number as u64 / 10 * 2048;
    let sequence = number % 10;
    if sequence < 9 {
        return format!(in alloc; "1:{at:x}:{sequence:x}");
    }
    let at = at + 1536;
    format!(in alloc; "1:{at:x}:0")
}

// The LSN of the record that the same client appended before, or null.
fn link_of_day(alloc: Global, number: u8) -> Result<String, AllocError> {
    match number.checked_sub(2) {
        Some(before) => lsn_of_day(alloc, before),
        None => String::from_str(alloc, "0:0:0"),
    }
}

// A line by which a client appends a record of 100 bytes, linked to the one that it appended before, and every fifth time with a flush; and the reply.
fn push_append(
    alloc: Global,
    script: &mut Vec<u8>,
    replies: &mut Vec<u8>,
    record: u8,
) -> Result<(), AllocError> {
    let client = record % 2 + 1;
    let flush = if record % 10 < 8 { "" } else { " flush" };
    let link = link_of_day(alloc, record)?;
    script.extend_from_slice(format!(in alloc; "{client} append 1 ")?.as_bytes())?;
    push_zeros(script, 100)?;
    script.extend_from_slice(format!(in alloc; " {link} {link}{flush}\n")?.as_bytes())?;
    let lsn = lsn_of_day(alloc, record)?;
    replies.extend_from_slice(format!(in alloc; "{client} lsn {lsn}\n")?.as_bytes())
}

// The lines by which two clients append 20 records each, in turn; and the replies.
fn appends_of_day(
    alloc: Global,
    script: &mut Vec<u8>,
    replies: &mut Vec<u8>,
) -> Result<(), AllocError> {
    script.extend_from_slice(b"1 open a\n2 open b\n1 area 1 1000 4\n2 area 2 1000 4\n")?;
    replies.extend_from_slice(b"1 stream 1\n2 stream 2\n1 area 1\n2 area 1\n")?;
    for record in 0..40u8 {
        push_append(alloc, script, replies, record)?;
    }
    Ok(())
}

// The replies to a read of the last record and three undo steps.
fn undo_of_day(replies: &mut Vec<u8>) -> Result<(), AllocError> {
    let lines = [
        "2 cursor 1 record 1:1e00:0 data 1:1800:7 1:1800:7 0:0:0 ",
        "2 record 1:1800:7 data 1:1800:5 1:1800:5 0:0:0 ",
        "2 record 1:1800:5 data 1:1800:3 1:1800:3 0:0:0 ",
        "2 record 1:1800:3 data 1:1800:1 1:1800:1 0:0:0 ",
    ];
    for line in lines {
        replies.extend_from_slice(line.as_bytes())?;
        push_zeros(replies, 100)?;
        replies.push(b'\n')?;
    }
    Ok(())
}

// The lines of a day and the replies.
fn lines_of_day(
    alloc: Global,
    script: &mut Vec<u8>,
    replies: &mut Vec<u8>,
) -> Result<(), AllocError> {
    appends_of_day(alloc, script, replies)?;
    script.extend_from_slice(b"2 read 1 1:1e00:0 undo\n2 next 1 1\n2 next 1 1\n2 next 1 1\n")?;
    undo_of_day(replies)?;
    script.extend_from_slice(b"1 restart 1 aa 1:1800:8\n2 advance 1 1:1e00:0\n1 info 1\n")?;
    replies.extend_from_slice(
        b"1 lsn 1:2000:0\n2 base 1:1e00:0\n1 info containers 4 free 3 size 1024 sectors 4051 reserved 0 base 1:1800:8 last 1:2000:0 flushed 1:2200:0 restart 1:2000:0 archive off\n",
    )
}

// Two clients use a log for a day.
#[test]
fn a_days_use(rt: HostRuntime) -> Result<(), AllocError> {
    let alloc = rt.alloc();
    let mut script = Vec::new(alloc);
    let mut replies = Vec::new(alloc);
    lines_of_day(alloc, &mut script, &mut replies)?;
    check_new(&rt, alloc, ["8", "1024", "4"], &script, &replies)
}

// Three blocks that wait and are flushed take as many calls as one.
#[test]
fn a_flush_of_three_blocks_makes_four_calls(rt: HostRuntime) -> Result<(), AllocError> {
    let before =
        "1 open a\n1 area 1 960 4\n1 append 1 Z960 _\n1 append 1 Z960 _\n1 append 1 Z960 _\n";
    let flushed =
        "1 open a\n1 area 1 960 4\n1 append 1 Z960 _\n1 append 1 Z960 _\n1 append 1 Z960 _\n1 flush 1\n";
    let calls = calls_of_row(&rt, rt.alloc(), before)?;
    assert!(rt; calls_of_row(&rt, rt.alloc(), flushed)? == calls.saturating_add(4));
    Ok(())
}

// Five records, of which the first is flushed alone, and the last, which moves to the second container, with the others.
const FIVE: &str =
    "1 open a\n1 area 1 960 4\n1 append 1 aa _ flush\n1 append 1 Z960 _\n1 append 1 Z960 _\n1 append 1 Z960 _\n1 append 1 Z960 _ flush\n";

const FIVE_REPLIES: &[u8] =
    b"1 stream 1\n1 area 1\n1 lsn 1:0:0\n1 lsn 1:200:0\n1 lsn 1:600:0\n1 lsn 1:a00:0\n1 lsn 2:0:0\n";

// What reading each of the five records is answered, where it is there and where it isn't.
const READS: [(&str, &str); 5] = [
    (
        "1 cursor 1 record 1:0:0 data 0:0:0 0:0:0 0:0:0 aa\n",
        "1 refused 17 RecordNonexistent 1:0:0\n",
    ),
    (
        "1 cursor 2 record 1:200:0 data 0:0:0 0:0:0 0:0:0 Z960\n",
        "1 refused 17 RecordNonexistent 1:200:0\n",
    ),
    (
        "1 cursor 3 record 1:600:0 data 0:0:0 0:0:0 0:0:0 Z960\n",
        "1 refused 17 RecordNonexistent 1:600:0\n",
    ),
    (
        "1 cursor 4 record 1:a00:0 data 0:0:0 0:0:0 0:0:0 Z960\n",
        "1 refused 17 RecordNonexistent 1:a00:0\n",
    ),
    (
        "1 cursor 5 record 2:0:0 data 0:0:0 0:0:0 0:0:0 Z960\n",
        "1 refused 17 RecordNonexistent 2:0:0\n",
    ),
];

fn push_row(alloc: Global, replies: &mut Vec<u8>, row: &str) -> Result<(), AllocError> {
    replies.extend_from_slice(&written_out(alloc, row)?)
}

// The replies to a script that reads the five records, where the log has the first `count` of them.
fn first_records(alloc: Global, count: usize) -> Result<Vec<u8>, AllocError> {
    let mut replies = b"1 area 1\n".to_vec(alloc)?;
    for (i, (record, refusal)) in READS.iter().enumerate() {
        push_row(
            alloc,
            &mut replies,
            if i < count { record } else { refusal },
        )?;
    }
    Ok(replies)
}

// The replies are those where the log has the first `count` records, and it goes on in one of its two containers.
fn has_first(alloc: Global, written: &[u8], count: usize) -> Result<bool, AllocError> {
    let front = first_records(alloc, count)?;
    Ok(match written.strip_prefix(front.as_slice()) {
        Some(rest) => rest.starts_with(b"1 lsn 1:") || rest.starts_with(b"1 lsn 2:"),
        None => false,
    })
}

// They are so for one to five records.
fn has_some(alloc: Global, written: &[u8]) -> Result<bool, AllocError> {
    for count in 1..6 {
        if has_first(alloc, written, count)? {
            return Ok(true);
        }
    }
    Ok(false)
}

const PROBE: &str =
    "1 area 1 960 8\n1 read 1 1:0:0 forward\n1 read 1 1:200:0 forward\n1 read 1 1:600:0 forward\n1 read 1 1:a00:0 forward\n1 read 1 2:0:0 forward\n1 append 1 bb _\n";

// The log on a disk has the first one to five records and no other, and goes on in one of its two containers.
fn check_prefix(
    rt: &(impl Abort + Threads + Wait + Sync),
    alloc: Global,
    disk: Memory,
) -> Result<(), AllocError> {
    let ran = served(rt, alloc, disk, &written_out(alloc, PROBE)?)?;
    assert!(rt; ran.status == DONE && has_some(alloc, ran.written())?);
    Ok(())
}

// Serves the script of five records on a disk that stops after so many calls.
fn stopped(
    rt: &(impl Abort + Threads + Wait + Sync),
    alloc: Global,
    passes: u64,
) -> Result<Ran<Fuse<Memory>>, AllocError> {
    let disk = Fuse::new(formatted(rt, alloc, SMALL)?, passes);
    served(rt, alloc, disk, &written_out(alloc, FIVE)?)
}

// What each crash leaves of the disk that stops there.
fn check_crashes(
    rt: &(impl Abort + Threads + Wait + Sync),
    alloc: Global,
    passes: u64,
) -> Result<(), AllocError> {
    for pick in 0..3u8 {
        let ran = stopped(rt, alloc, passes)?;
        check_prefix(rt, alloc, ran.disk.into_inner().crash(pick))?;
    }
    Ok(())
}

// Which line told the fault. None where no log was found, or no call failed.
#[derive(Clone, Copy, PartialEq, Eq)]
enum Stop {
    AtOpening,
    AtLine(usize),
    Never,
}

fn line_of_stop(
    rt: &(impl Abort + Threads + Wait + Sync),
    alloc: Global,
    passes: u64,
) -> Result<Stop, AllocError> {
    let ran = stopped(rt, alloc, passes)?;
    if ran.is(DISK_FAULT, b"disk fault\n") {
        return Ok(Stop::AtOpening);
    }
    assert!(rt; ran.status == DONE);
    match first_other(rt, alloc, ran.written(), FIVE_REPLIES)? {
        Some((line, reply)) => {
            assert!(rt; reply == b"1 refused 2 DiskFault".as_slice());
            Ok(Stop::AtLine(line))
        }
        None => Ok(Stop::Never),
    }
}

// The disk stops at each call in turn. What is answered then, and what a log that is opened after the last line's stop has.
#[test]
fn a_disk_that_stops(rt: HostRuntime) -> Result<(), AllocError> {
    let mut stops_of_last = 0u64;
    for passes in 0..256u64 {
        let stopped = line_of_stop(&rt, rt.alloc(), passes)?;
        if stopped == Stop::Never {
            break;
        }
        if stopped == Stop::AtLine(6) {
            stops_of_last = stops_of_last.saturating_add(1);
            check_crashes(&rt, rt.alloc(), passes)?;
        }
    }
    // a group, the next file and its base copy, and a second group
    assert!(rt; stops_of_last == 17);
    Ok(())
}

// A log whose disk stops in the first sync of a flush, and what a crash leaves of it.
fn check_first_sync(
    rt: &(impl Abort + Threads + Wait + Sync),
    alloc: Global,
    passes: u64,
    pick: u8,
) -> Result<(), AllocError>
    requires { pick ≤ 2 }
{
    let disk = Fuse::new(formatted(rt, alloc, SMALL)?, passes);
    let script = b"1 open a\n1 area 1 960 4\n1 append 1 aa 0:0:0 0:0:0 flush\n1 flush 1\n";
    let replies = b"1 stream 1\n1 area 1\n1 refused 2 DiskFault\n1 refused 3 Broken\n";
    let disk = check_script(rt, alloc, disk, script, replies)?;
    check_script(
        rt,
        alloc,
        disk.into_inner().crash(pick),
        b"1 area 1 960 4\n1 read 1 1:0:0 forward\n1 append 1 aa 0:0:0 0:0:0\n",
        b"1 area 1\n1 refused 17 RecordNonexistent 1:0:0\n1 lsn 1:0:0\n",
    )?;
    Ok(())
}

// A flush whose first sync fails has written nothing that counts.
#[test]
fn a_first_sync_that_fails(rt: HostRuntime) -> Result<(), AllocError> {
    let before = calls_of(&rt, rt.alloc(), b"1 open a\n1 area 1 960 4\n")?;
    for pick in 0..3u8 {
        check_first_sync(&rt, rt.alloc(), before.saturating_add(1), pick)?;
    }
    Ok(())
}

fn push_block(
    alloc: Global,
    script: &mut Vec<u8>,
    want: &mut Vec<u8>,
    block: u8,
) -> Result<(), AllocError> {
    let at = block as u64 * 1024;
    push_row(alloc, script, "1 append 1 Z960 _ flush\n")?;
    want.extend_from_slice(format!(in alloc; "1 lsn 1:{at:x}:0\n")?.as_bytes())
}

// The lines that put 40 blocks of two sectors into the first container, each of one record of zeros, and the replies.
fn lines_of_forty(
    alloc: Global,
    script: &mut Vec<u8>,
    want: &mut Vec<u8>,
) -> Result<(), AllocError> {
    script.extend_from_slice(b"1 open a\n1 area 1 960 4\n")?;
    want.extend_from_slice(b"1 stream 1\n1 area 1\n")?;
    for block in 0..40u8 {
        push_block(alloc, script, want, block)?;
    }
    Ok(())
}

// A log with these blocks.
fn forty_blocks(
    rt: &(impl Abort + Threads + Wait + Sync),
    alloc: Global,
) -> Result<Memory, AllocError> {
    let mut script = Vec::new(alloc);
    let mut want = Vec::new(alloc);
    lines_of_forty(alloc, &mut script, &mut want)?;
    let disk = formatted(rt, alloc, ["2", "1024", "2"])?;
    check_script(rt, alloc, disk, &script, &want)
}

// A script that reads the 40 records.
fn forty_reads(alloc: Global) -> Result<Vec<u8>, AllocError> {
    let mut script = b"1 area 1 960 4\n".to_vec(alloc)?;
    for block in 0..40u64 {
        let at = block * 1024;
        let lines = format!(in alloc; "1 read 1 1:{at:x}:0 forward\n1 end 1 1\n")?;
        script.extend_from_slice(lines.as_bytes())?;
    }
    Ok(script)
}

// Its replies, where the first byte of each record's data is given by these digits.
fn forty_replies(alloc: Global, first: &str) -> Result<Vec<u8>, AllocError> {
    let mut replies = b"1 area 1\n".to_vec(alloc)?;
    for block in 0..40u64 {
        push_reply(alloc, &mut replies, block, first)?;
    }
    Ok(replies)
}

fn push_reply(
    alloc: Global,
    replies: &mut Vec<u8>,
    block: u64,
    first: &str,
) -> Result<(), AllocError>
    requires { block ≤ 40 }
{
    let at = block * 1024;
    let front = format!(in alloc; "1 cursor 1 record 1:{at:x}:0 data 0:0:0 0:0:0 0:0:0 {first}")?;
    replies.extend_from_slice(front.as_bytes())?;
    push_zeros(replies, 959)?;
    replies.extend_from_slice(b"\n1 ok\n")
}

// So many reads of the disk opening the log with 40 blocks takes.
fn reads_of_opening(
    rt: &(impl Abort + Threads + Wait + Sync),
    alloc: Global,
) -> Result<u64, AllocError> {
    let disk = Watched::new(forty_blocks(rt, alloc)?, u64::MAX, Late::Nothing);
    Ok(served(rt, alloc, disk, b"")?.disk.reads)
}

// Serves the 40 reads over a disk whose reads come late as soon as the log is opened.
fn read_late(
    rt: &(impl Abort + Threads + Wait + Sync),
    alloc: Global,
    late: Late,
) -> Result<Ran<Watched>, AllocError> {
    let early = reads_of_opening(rt, alloc)?;
    let disk = Watched::new(forty_blocks(rt, alloc)?, early, late);
    let ran = served(rt, alloc, disk, &forty_reads(alloc)?)?;
    assert!(rt; ran.status == DONE);
    Ok(ran)
}

// How many lines of a text are another one's and not the first one's. Each other line is the first one's.
fn changed_lines(
    rt: &(impl Abort + Threads + Wait + Sync),
    alloc: Global,
    written: &[u8],
    before: &[u8],
    now: &[u8],
) -> Result<u64, AllocError> {
    let lines = lines_of(alloc, written)?;
    let old_lines = lines_of(alloc, before)?;
    let new_lines = lines_of(alloc, now)?;
    assert!(rt; lines.len() == old_lines.len());
    assert!(rt; lines.len() == new_lines.len());
    let mut changes = 0u64;
    for ((line, old), new) in lines.into_iter().zip(old_lines).zip(new_lines) {
        if line != old {
            assert!(rt; line == new);
            changes = changes.saturating_add(1);
        }
    }
    Ok(changes)
}

// The first reply is another one, and which it is.
fn first_late<'a>(
    rt: &(impl Abort + Threads + Wait + Sync),
    alloc: Global,
    written: &'a [u8],
) -> Result<(usize, &'a [u8]), AllocError> {
    let want = forty_replies(alloc, "00")?;
    match first_other(rt, alloc, written, &want)? {
        Some(first) => Ok(first),
        None => panic!(rt; "no reply is another one"),
    }
}

// Records are read from the disk when they are asked for: what it gives then is what is answered. Here its reads fail.
#[test]
fn records_come_from_the_disk(rt: HostRuntime) -> Result<(), AllocError> {
    let ran = read_late(&rt, rt.alloc(), Late::Nothing)?;
    let (_, reply) = first_late(&rt, rt.alloc(), ran.written())?;
    assert!(rt; reply == b"1 refused 2 DiskFault".as_slice());
    Ok(())
}

// It gives another first byte of each record's data.
#[test]
fn data_come_from_the_disk(rt: HostRuntime) -> Result<(), AllocError> {
    let alloc = rt.alloc();
    let ran = read_late(&rt, alloc, Late::Byte { place: 48, byte: 1 })?;
    let before = forty_replies(alloc, "00")?;
    let now = forty_replies(alloc, "01")?;
    assert!(rt; changed_lines(&rt, alloc, ran.written(), &before, &now)? >= 8);
    Ok(())
}

// The refusal of the record of a line.
fn damage_of(alloc: Global, line: usize) -> Result<String, AllocError> {
    let at = (line as u64 / 2).saturating_mul(1024);
    format!(in alloc; "1 refused 11 Damaged 1 {at} 1")
}

// It gives another version of each block.
#[test]
fn blocks_are_checked_when_they_are_read(rt: HostRuntime) -> Result<(), AllocError> {
    let ran = read_late(&rt, rt.alloc(), Late::Byte { place: 1, byte: 2 })?;
    let (line, reply) = first_late(&rt, rt.alloc(), ran.written())?;
    let want = damage_of(rt.alloc(), line)?;
    assert!(rt; line % 2 == 1 && reply == want.as_bytes());
    Ok(())
}

// One byte of a file.
fn byte_of(disk: &mut Memory, file: u16, at: u64) -> Option<u8>
    requires { file ≤ 256 }
{
    let mut byte = [0u8];
    disk.read(file, at, &mut byte).ok()?;
    Some(byte[0])
}

// Writes bytes into a file.
pub(crate) fn put(rt: &impl Abort, disk: &mut Memory, file: u16, at: u64, bytes: &[u8])
    requires { file ≤ 256 }
{
    assert!(rt; disk.write(file, at, bytes).is_ok());
}

// No log is found on a disk, for this cause.
fn check_no_log(
    rt: &(impl Abort + Threads + Wait + Sync),
    alloc: Global,
    disk: Memory,
    cause: &[u8],
) -> Result<(), AllocError> {
    let ran = served(rt, alloc, disk, b"1 open a\n")?;
    assert!(rt; ran.is(NOT_A_LOG, cause));
    Ok(())
}

// A log with three streams.
fn three_streams(
    rt: &(impl Abort + Threads + Wait + Sync),
    alloc: Global,
) -> Result<Memory, AllocError> {
    check_script(
        rt,
        alloc,
        formatted(rt, alloc, SMALL)?,
        b"1 open a\n1 open b\n1 open c\n",
        b"1 stream 1\n1 stream 2\n1 stream 3\n",
    )
}

// The gates of both copies are open, and their turns are 2 and 0, so that the second one is the newer.
fn has_turns(disk: &mut Memory) -> bool {
    byte_of(disk, 0, 0) == Some(165)
        && byte_of(disk, 0, 2) == Some(2)
        && byte_of(disk, 0, 16384) == Some(165)
        && byte_of(disk, 0, 16386) == Some(0)
}

// Which of two base copies counts.
#[test]
fn base_copies_that_were_changed(rt: HostRuntime) -> Result<(), AllocError> {
    let alloc = rt.alloc();
    let mut disk = three_streams(&rt, alloc)?;
    assert!(rt; has_turns(&mut disk));
    let mut disk = check_script(
        &rt,
        alloc,
        disk,
        b"1 info 3\n",
        b"1 info containers 2 free 1 size 8 sectors 14 reserved 0 base 0:0:0 last 0:0:0 flushed 1:0:0 restart 0:0:0 archive off\n",
    )?;
    put(&rt, &mut disk, 0, 16384, &[164]);
    let mut disk = check_script(
        &rt,
        alloc,
        disk,
        b"1 info 3\n1 info 2\n",
        b"1 refused 9 NoSuchStream\n1 info containers 2 free 1 size 8 sectors 14 reserved 0 base 0:0:0 last 0:0:0 flushed 1:0:0 restart 0:0:0 archive off\n",
    )?;
    put(&rt, &mut disk, 0, 0, &[164]);
    check_no_log(&rt, alloc, disk, b"not a log: no open slot\n")
}

// A log with one block of two sectors.
fn one_block(
    rt: &(impl Abort + Threads + Wait + Sync),
    alloc: Global,
) -> Result<Memory, AllocError> {
    let script = written_out(alloc, "1 open a\n1 area 1 960 4\n1 append 1 Z960 _ flush\n")?;
    let replies = b"1 stream 1\n1 area 1\n1 lsn 1:0:0\n";
    check_script(rt, alloc, formatted(rt, alloc, SMALL)?, &script, replies)
}

// The address of a block's second sector.
#[test]
fn a_block_that_was_changed(rt: HostRuntime) -> Result<(), AllocError> {
    let mut disk = one_block(&rt, rt.alloc())?;
    put(&rt, &mut disk, 1, 1016, &[1]);
    let cause = b"not a log: container 1 offset 0 byte 1016\n";
    check_no_log(&rt, rt.alloc(), disk, cause)
}

// All bytes of a file after others.
fn push_file(
    disk: &mut Memory,
    bytes: &mut Vec<u8>,
    room: &mut [u8],
    file: u16,
) -> Result<(), AllocError>
    requires { file ≤ 256 }
{
    let count = disk.read(file, 0, room).unwrap_or(0);
    bytes.extend_from_slice(room.get(..count).unwrap_or(&[]))
}

// All bytes of the first three files.
fn bytes_of(alloc: Global, disk: &mut Memory) -> Result<Vec<u8>, AllocError> {
    let mut room = vec![in alloc; 0u8; 65536]?;
    let mut bytes = Vec::new(alloc);
    for file in 0..3u16 {
        push_file(disk, &mut bytes, &mut room, file)?;
    }
    Ok(bytes)
}

// A log that is there isn't made again, and no byte of its files changes.
#[test]
fn a_log_is_made_once(rt: HostRuntime) -> Result<(), AllocError> {
    let alloc = rt.alloc();
    let mut disk = formatted(&rt, alloc, SMALL)?;
    let before = bytes_of(alloc, &mut disk)?;
    assert!(rt; before.len() == 40960);
    let mut ran = format_on(&rt, alloc, SMALL, disk)?;
    assert!(rt; ran.is(EXISTS, b"a log is there\n"));
    assert!(rt; bytes_of(alloc, &mut ran.disk)? == before);
    Ok(())
}
