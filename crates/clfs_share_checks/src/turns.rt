// Two clients of one log, each of which gives its next line only when the other has got the reply to its last one. So they end only if both are served at
// the same time, and each line is answered before the next one comes. If that isn't so they give up after a while, and say so.
ghost use Rattle.std.specs.Prelude.{◌≡◌, Some, vec_len, IfOk};

use crate::clients::{new_log, ports_of, steady};
use clfs_disk::Memory;
use clfs_ports::{Failed, MemorySink, MemorySource, Sink, Source};
use clfs_share::{ClientEnd, EndedClient, OpenedPorts, Shared, share};
use std::alloc::{AllocError, Global};
use std::sync::atomic::{AtomicU64, Ordering};
use std::sync::{Arc, Wait};
use std::thread;
use std::thread::Threads;
use std::time::Duration;

// How often a source looks for a reply of the other client, with a pause of a millisecond each time.
const MOST_LOOKS: u64 = 20000;

// A number that threads share.
type Count = Arc<AtomicU64, Global>;

// A source whose pieces are lines.
#[derive(Drop)]
struct TurnSource {
    rt: HostRuntime,
    lines: MemorySource,
    given: u64,
    // The replies that the other client has got, and the sources that gave up.
    replies: Count,
    late: Count,
}

impl TurnSource {
    // Waits for the reply to the other client's last line. If one source gave up, none waits.
    fn wait(&self) {
        for _ in 0..MOST_LOOKS {
            let replies = self.replies.load(Ordering::SeqCst);
            if replies >= self.given || self.late.load(Ordering::SeqCst) > 0 {
                return;
            }
            thread::sleep(&self.rt, Duration::from_millis(1));
        }
        self.late.fetch_add(1, Ordering::SeqCst);
    }
}

impl Source for TurnSource {
    ghost left = { λ s. Some s.lines.left };

    ghost faults = { λ s. s.lines.faults };

    fn read(&mut self, out: &mut [u8]) -> Result<usize, Failed> {
        self.wait();
        self.given = self.given.saturating_add(1);
        self.lines.read(out)
    }
}

// A sink that counts the replies that it takes.
#[derive(Drop)]
struct TurnSink {
    taken: MemorySink,
    replies: Count,
}

// How many lines end in these bytes.
fn ends(bytes: &[u8]) -> u64 {
    let mut count: u64 = 0;
    for byte in bytes {
        if *byte == b'\n' {
            count = count.saturating_add(1);
        }
    }
    count
}

impl Sink for TurnSink {
    ghost written = { λ s. Some s.taken.written };

    ghost faults = { λ s. s.taken.faults };

    fn write(&mut self, piece: &[u8]) -> Result<usize, Failed> {
        let count = self.taken.write(piece)?;
        self.replies
            .fetch_add(ends(&piece[..count]), Ordering::SeqCst);
        Ok(count)
    }
}

// What the two clients have in common.
#[derive(Drop)]
struct Talk {
    first: Count,
    second: Count,
    late: Count,
}

fn new_count(alloc: Global) -> Result<Count, AllocError> {
    Ok(Arc::new(alloc, AtomicU64::new(0))?)
}

fn new_talk(alloc: Global) -> Result<Talk, AllocError> {
    Ok(Talk {
        first: new_count(alloc)?,
        second: new_count(alloc)?,
        late: new_count(alloc)?,
    })
}

// The source and the sink of a client: how many replies it has got, and how many the other one has.
fn turn_ports(
    rt: HostRuntime,
    text: &[u8],
    own: &Count,
    other: &Count,
    late: &Count,
) -> Result<OpenedPorts<TurnSource, TurnSink>, AllocError> {
    let mut client = steady(text);
    client.piece = LINE;
    let (lines, _) = ports_of(rt.alloc(), &client)?;
    let (_, taken) = ports_of(rt.alloc(), &steady(b""))?;
    let source = TurnSource {
        rt,
        lines,
        given: 0,
        replies: Arc::try_clone(other)?,
        late: Arc::try_clone(late)?,
    };
    let replies = Arc::try_clone(own)?;
    Ok(OpenedPorts {
        ports: Some((source, TurnSink { taken, replies })),
    })
}

// The length of each line.
const LINE: usize = 9;

const FIRST: &[u8] = b"1 open a\n1 info 9\n1 open b\n";

const FIRST_REPLIES: &[u8] = b"1 stream 1\n1 refused 9 NoSuchStream\n1 stream 2\n";

const SECOND: &[u8] = b"2 info 9\n2 info 8\n2 info 7\n";

const SECOND_REPLIES: &[u8] =
    b"2 refused 9 NoSuchStream\n2 refused 9 NoSuchStream\n2 refused 9 NoSuchStream\n";

// The two clients.
fn both_openers(
    rt: HostRuntime,
    talk: &Talk,
) -> Result<Vec<OpenedPorts<TurnSource, TurnSink>>, AllocError>
    ensures { IfOk result (λ openers. vec_len openers ≡ 2) }
{
    let mut openers = Vec::new(rt.alloc());
    openers.push(turn_ports(rt, FIRST, &talk.first, &talk.second, &talk.late)?)?;
    openers.push(turn_ports(rt, SECOND, &talk.second, &talk.first, &talk.late)?)?;
    Ok(openers)
}

type TurnPorts = OpenedPorts<TurnSource, TurnSink>;

type Ended = EndedClient<TurnPorts, TurnSource, TurnSink>;

// Shares a new log among the two clients.
fn shared<R: Threads + Wait + Sync>(
    rt: &R,
    alloc: Global,
    openers: Vec<TurnPorts>,
) -> Option<Shared<Memory, Ended>>
    requires { vec_len openers ≡ 2 }
{
    let manager = new_log(alloc)?;
    share(rt, alloc, manager, openers).ok()
}

// Whether all lines of a client were answered so.
fn is_as(client: &Ended, replies: &[u8]) -> bool {
    match &client.ports {
        Some((_, sink)) => {
            sink.taken.bytes() == replies && client.end == ClientEnd::Served { status: 0 }
        }
        None => false,
    }
}

// Whether both were answered.
fn are_as(clients: &[Ended]) -> bool {
    match clients {
        [a, b] => is_as(a, FIRST_REPLIES) && is_as(b, SECOND_REPLIES),
        _ => false,
    }
}

#[test]
fn each_waits_for_the_other(rt: HostRuntime) -> Result<(), AllocError> {
    let talk = new_talk(rt.alloc())?;
    let openers = both_openers(rt, &talk)?;
    let Some(shared) = shared(&rt, rt.alloc(), openers) else {
        panic!(rt; "memory ran out");
    };
    assert!(rt; are_as(shared.clients.as_slice()));
    assert!(rt; talk.late.load(Ordering::SeqCst) == 0);
    Ok(())
}
