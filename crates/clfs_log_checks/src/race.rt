// The program's `race`: clients that run at the same time, what it prints, its limits, and how it ends otherwise.
use crate::runs::{
    NEVER, Pieces, Ran, SMALL, came, check_script, format_on, formatted, given, run_on, sink_of,
    source_of,
};
use clfs_disk::{Disk, Memory, Steady};
use clfs_engine::{DONE, Gate, INPUT_TOO_LONG, NOT_A_LOG, Outcome, SINK_FAULT, SOURCE_FAULT, race};
use std::alloc::{AllocError, Global};
use std::process::Abort;
use std::sync::Wait;
use std::sync::atomic::{AtomicBool, AtomicU64, Ordering};
use std::thread;
use std::thread::Threads;

// How often a gate looks before it gives up.
const TURNS: u32 = 1_000_000;

const OPEN_TWO: &[u8] = b"1 open a\n2 open b\n";

// A call of a client that waits until a call of the other one is answered.
#[derive(Clone, Copy)]
struct Held {
    client: u16,
    number: u64,
    until: u64,
}

// A gate of two clients that holds some of their calls. It notes where it gave up.
#[derive(Drop)]
struct Holding {
    held: [Held; 2],
    answered: [AtomicU64; 2],
    gave_up: AtomicBool,
}

impl Holding {
    fn new(held: [Held; 2]) -> Holding {
        Holding {
            held,
            answered: [AtomicU64::new(0), AtomicU64::new(0)],
            gave_up: AtomicBool::new(false),
        }
    }

    // How many calls of a client are answered.
    fn answered(&self, client: u16) -> u64 {
        let place = if client == 1 { 0 } else { 1 };
        self.answered[place].load(Ordering::SeqCst)
    }

    // Waits until so many calls of the other client are answered.
    fn wait(&self, client: u16, until: u64) {
        for _ in 0..TURNS {
            if self.answered(3u16.saturating_sub(client)) >= until {
                return;
            }
            thread::yield_now();
        }
        self.gave_up.store(true, Ordering::SeqCst);
    }
}

impl Gate for Holding {
    fn before(&self, client: u16, number: u64) {
        for held in &self.held {
            if held.client == client && held.number == number {
                self.wait(client, held.until);
            }
        }
    }

    fn after(&self, client: u16, number: u64) {
        let place = if client == 1 { 0 } else { 1 };
        self.answered[place].store(number, Ordering::SeqCst);
    }
}

// Runs `race` over a script.
fn raced<D: Disk + Send + Drop>(
    rt: &(impl Threads + Wait + Sync),
    alloc: Global,
    disk: D,
    script: &[u8],
) -> Result<Ran<D>, AllocError> {
    let given = given(alloc, &["race"], script, (4096, NEVER), (4096, NEVER))?;
    Ok(run_on(rt, alloc, given, disk))
}

// The same on a log that has just been made.
fn raced_new(
    rt: &(impl Abort + Threads + Wait + Sync),
    alloc: Global,
    script: &[u8],
) -> Result<Ran<Memory>, AllocError> {
    raced(rt, alloc, formatted(rt, alloc, SMALL)?, script)
}

// Runs two clients through a gate.
fn gated(
    rt: &(impl Abort + Threads + Wait + Sync),
    alloc: Global,
    gate: &Holding,
    script: &[u8],
) -> Result<Ran<Memory>, AllocError> {
    let mut source = source_of(alloc, script, (7, NEVER))?;
    let mut sink = sink_of(alloc, (5, NEVER))?;
    let disk = formatted(rt, alloc, SMALL)?;
    let Outcome { status, disk } = race(rt, alloc, 4, gate, &mut source, &mut sink, disk);
    assert!(rt; status == DONE && !gate.gave_up.load(Ordering::SeqCst));
    Ok(came(status, sink, disk))
}

const FIRST_WAITS: Held = Held {
    client: 1,
    number: 1,
    until: 1,
};

// The first client's call waits for the second's. If they ran one after the other, the gate would give up.
#[test]
fn a_call_waits_for_another(rt: HostRuntime) -> Result<(), AllocError> {
    let gate = Holding::new([FIRST_WAITS; 2]);
    let ran = gated(&rt, rt.alloc(), &gate, OPEN_TWO)?;
    assert!(rt; ran.written() == b"2 stream 1\n1 stream 2\n".as_slice());
    Ok(())
}

// The second call of each client waits for the other's first.
const BOTH_WAIT: [Held; 2] = [
    Held {
        client: 1,
        number: 2,
        until: 1,
    },
    Held {
        client: 2,
        number: 2,
        until: 1,
    },
];

// The orders in which they may come.
const ORDERS: [&[u8]; 4] = [
    b"1 stream 1\n2 stream 2\n1 stream 1\n2 stream 2\n",
    b"1 stream 1\n2 stream 2\n2 stream 2\n1 stream 1\n",
    b"2 stream 1\n1 stream 2\n1 stream 2\n2 stream 1\n",
    b"2 stream 1\n1 stream 2\n2 stream 1\n1 stream 2\n",
];

fn is_in_order(written: &[u8]) -> bool {
    ORDERS.iter().any(|order| *order == written)
}

#[test]
fn calls_wait_for_each_other(rt: HostRuntime) -> Result<(), AllocError> {
    let gate = Holding::new(BOTH_WAIT);
    let script = b"1 open a\n1 open a\n2 open b\n2 open b\n";
    let ran = gated(&rt, rt.alloc(), &gate, script)?;
    assert!(rt; is_in_order(ran.written()));
    Ok(())
}

const ONE_CLIENT: &[u8] =
    b"1 open a\n1 area 1 960 4\n1 append 1 aa 0:0:0 0:0:0\n1 append 1 bb 1:0:0 1:0:0\n1 info 1\n1 reopen\n";

const ONE_CLIENT_REPLIES: &[u8] =
    b"0 refused 28 BadLine 2\n1 stream 1\n1 area 1\n1 lsn 1:0:0\n1 lsn 1:0:1\n1 info containers 2 free 1 size 8 sectors 13 reserved 0 base 0:0:0 last 1:0:1 flushed 1:0:0 restart 0:0:0 archive off\n";

// Bad lines come first, `reopen` among them. The records stay in an open block, and nothing is flushed.
#[test]
fn one_client_is_answered_in_order(rt: HostRuntime) -> Result<(), AllocError> {
    let ran = raced_new(&rt, rt.alloc(), ONE_CLIENT)?;
    assert!(rt; ran.is(DONE, ONE_CLIENT_REPLIES));
    check_script(
        &rt,
        rt.alloc(),
        ran.disk,
        b"1 open a\n1 area 1 960 4\n1 read 1 1:0:0 forward\n1 info 1\n",
        b"1 stream 1\n1 area 1\n1 refused 17 RecordNonexistent 1:0:0\n1 info containers 2 free 1 size 8 sectors 14 reserved 0 base 0:0:0 last 0:0:0 flushed 1:0:0 restart 0:0:0 archive off\n",
    )?;
    Ok(())
}

// Scripts without lines, without good lines, without a last line feed, and with carriage returns; and the replies.
const FEW_LINES: [(&[u8], &[u8]); 6] = [
    (b"", b""),
    (b"\n\n", b"0 refused 28 BadLine 0\n0 refused 28 BadLine 0\n"),
    (
        b"1 reopen\n1 opn a\n",
        b"0 refused 28 BadLine 2\n0 refused 28 BadLine 2\n",
    ),
    (b"1 open a\n1 open a", b"1 stream 1\n1 stream 1\n"),
    (
        b"1 open a\r\n1 \r\n",
        b"0 refused 28 BadLine 2\n1 stream 1\n",
    ),
    (
        b"64 open a\n65 open a\n",
        b"0 refused 28 BadLine 0\n64 stream 1\n",
    ),
];

#[test]
fn scripts_of_few_lines(rt: HostRuntime) -> Result<(), AllocError> {
    for (script, want) in FEW_LINES {
        let ran = raced_new(&rt, rt.alloc(), script)?;
        assert!(rt; ran.is(DONE, want));
    }
    Ok(())
}

// Two clients may come in either order.
#[test]
fn two_clients_come_in_some_order(rt: HostRuntime) -> Result<(), AllocError> {
    let ran = raced_new(&rt, rt.alloc(), OPEN_TWO)?;
    let first = ran.is(DONE, b"1 stream 1\n2 stream 2\n");
    assert!(rt; first || ran.is(DONE, b"2 stream 1\n1 stream 2\n"));
    Ok(())
}

// The call of the source and that of the sink which fail, the status, and what is written: in the replies to bad lines or to calls.
const OTHER_ENDS: [(u64, u64, u8, &[u8]); 7] = [
    (
        9,
        99,
        DONE,
        b"0 refused 28 BadLine 2\n1 stream 1\n1 stream 2\n",
    ),
    (1, 99, SOURCE_FAULT, b""),
    (2, 99, SOURCE_FAULT, b"1 stream 1\n"),
    (3, 99, SOURCE_FAULT, b"1 stream 1\n1 stream 2\n"),
    (9, 1, SINK_FAULT, b""),
    (9, 3, SINK_FAULT, b"0 refused 28 BadLine"),
    (9, 4, SINK_FAULT, b"0 refused 28 BadLine 2\n1 strea"),
];

fn raced_between(
    rt: &(impl Abort + Threads + Wait + Sync),
    alloc: Global,
    source: Pieces,
    sink: Pieces,
) -> Result<Ran<Memory>, AllocError> {
    let script = b"1 open aaaaaaaaaaaa\n1 open bbbbbbbbbbbb\n1 opn c\n";
    let given = given(
        alloc,
        &["race", "--write-buffers", "64"],
        script,
        source,
        sink,
    )?;
    Ok(run_on(rt, alloc, given, formatted(rt, alloc, SMALL)?))
}

#[test]
fn races_that_end_otherwise(rt: HostRuntime) -> Result<(), AllocError> {
    for (source, sink, want, written) in OTHER_ENDS {
        let ran = raced_between(&rt, rt.alloc(), (20, source), (10, sink))?;
        assert!(rt; ran.is(want, written));
    }
    Ok(())
}

// A script of so many bytes: lines of one byte, and a last one that fills it up.
fn long_script(alloc: Global, lines: usize, last: usize) -> Result<Vec<u8>, AllocError> {
    let mut script = Vec::new(alloc);
    for _ in 0..lines {
        script.extend_from_slice(b"\n")?;
    }
    for _ in 0..last {
        script.push(b'x')?;
    }
    Ok(script)
}

// Lines of one byte, a last line, the status, and how many replies there are. A script may have 10,000 lines, and 131,072 bytes in a line. What passes a
// limit isn't answered, nor is a line without its end.
const LIMITS: [(usize, usize, u8, usize); 6] = [
    (10_000, 0, DONE, 10_000),
    (10_001, 0, INPUT_TOO_LONG, 10_000),
    (10_000, 1, INPUT_TOO_LONG, 10_000),
    (9_999, 1, DONE, 10_000),
    (3, 131_072, DONE, 4),
    (3, 131_073, INPUT_TOO_LONG, 3),
];

// So many replies of 23 bytes were written, and what is told of a passed limit.
fn has_replies(ran: &Ran<Memory>, status: u8, answered: usize) -> bool {
    let end: &[u8] = if status == DONE {
        b""
    } else {
        b"input too long\n"
    };
    let length = answered.saturating_mul(23).saturating_add(end.len());
    ran.status == status && ran.written().len() == length && ran.written().ends_with(end)
}

fn raced_long(
    rt: &(impl Abort + Threads + Wait + Sync),
    alloc: Global,
    lines: usize,
    last: usize,
) -> Result<Ran<Memory>, AllocError> {
    let script = long_script(alloc, lines, last)?;
    raced_new(rt, alloc, &script)
}

#[test]
fn limits_of_a_race(rt: HostRuntime) -> Result<(), AllocError> {
    for (lines, last, want, answered) in LIMITS {
        let ran = raced_long(&rt, rt.alloc(), lines, last)?;
        assert!(rt; has_replies(&ran, want, answered));
    }
    Ok(())
}

// Eight lines of 131,071 bytes and their line feeds, and so many bytes more.
fn most_bytes(alloc: Global, more: usize) -> Result<Vec<u8>, AllocError> {
    let line = long_script(alloc, 0, 131_071)?;
    let mut script = Vec::new(alloc);
    for _ in 0..8u8 {
        script.extend_from_slice(&line)?;
        script.push(b'\n')?;
    }
    script.resize(1_048_576usize.saturating_add(more), b'x')?;
    Ok(script)
}

// They are the most bytes. One more passes the limit, and comes before a fault of the source.
#[test]
fn bytes_of_a_race(rt: HostRuntime) -> Result<(), AllocError> {
    let ran = raced_new(&rt, rt.alloc(), &most_bytes(rt.alloc(), 0)?)?;
    assert!(rt; has_replies(&ran, DONE, 8));
    let ran = raced(&rt, rt.alloc(), ran.disk, &most_bytes(rt.alloc(), 1)?)?;
    assert!(rt; has_replies(&ran, INPUT_TOO_LONG, 8));
    Ok(())
}

// The files aren't a log's, and that is told first.
#[test]
fn no_log_for_a_race(rt: HostRuntime) -> Result<(), AllocError> {
    let alloc = rt.alloc();
    let script = most_bytes(alloc, 1)?;
    let ran = raced(&rt, alloc, Memory::new(alloc, 64, 65536, &[])?, &script)?;
    assert!(rt; ran.is(NOT_A_LOG, b"not a log: no open slot\n"));
    Ok(())
}

// The lines of eight clients, who append and flush in turn.
fn many_calls(alloc: Global, rounds: u32) -> Result<Vec<u8>, AllocError> {
    let mut script = Vec::new(alloc);
    for client in 1..9u8 {
        let head = format!(in alloc; "{client} open s{client}\n{client} area 1 100 4\n")?;
        script.extend_from_slice(head.as_bytes())?;
    }
    for _ in 0..rounds {
        for client in 1..9u8 {
            let pair = format!(in alloc; "{client} append 1 aa 0:0:0 0:0:0\n{client} flush 1\n")?;
            script.extend_from_slice(pair.as_bytes())?;
        }
    }
    Ok(script)
}

// Counts a reply by its client's number: whether it tells a record's LSN. None if it is a refusal.
fn count_reply(replies: &mut [u32], line: &[u8]) -> Option<bool> {
    let [client, b' ', text @ ..] = line else {
        return Some(false);
    };
    if text.starts_with(b"refused") {
        return None;
    }
    let client = client.saturating_sub(b'0') as usize;
    if let Some(count) = replies.get_mut(client) {
        *count = count.saturating_add(1);
    }
    Some(text.starts_with(b"lsn"))
}

// Eight clients have a thousand replies each, and 499 records.
fn have_come_through(written: &[u8]) -> bool {
    let mut replies = [0u32; 9];
    let mut placed = 0u32;
    for line in written.split(|byte| *byte == b'\n') {
        match count_reply(&mut replies, line) {
            Some(is_placed) => placed = placed.saturating_add(is_placed as u32),
            None => return false,
        }
    }
    replies == [0, 1000, 1000, 1000, 1000, 1000, 1000, 1000, 1000] && placed == 8 * 499
}

// Eight clients with a thousand calls each come through: every call has its reply, and no reply is a refusal.
#[test]
fn eight_clients_come_through(rt: HostRuntime) -> Result<(), AllocError> {
    let alloc = rt.alloc();
    let made = format_on(&rt, alloc, ["8", "1024", "8"], Steady::new(alloc)?)?;
    assert!(rt; made.status == DONE);
    let ran = raced(&rt, alloc, made.disk, &many_calls(alloc, 499)?)?;
    assert!(rt; ran.status == DONE && have_come_through(ran.written()));
    Ok(())
}
