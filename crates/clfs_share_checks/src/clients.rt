// Two clients of one log, each over a source and a sink of its own.
ghost use Rattle.std.specs.Prelude.{◌≡◌, vec_len, IfOk};

use clfs_disk::Memory;
use clfs_lsn::Shape;
use clfs_manager::Manager;
use clfs_model::{Call, Reply};
use clfs_ports::{MemorySink, MemorySource};
use clfs_share::{ClientEnd, EndedClient, OpenedPorts, Shared, share};
use std::alloc::{AllocError, Global};
use std::sync::Wait;
use std::thread::Threads;

const SHAPE: Shape = Shape {
    block_sectors: 2,
    container_sectors: 8,
};

// A client's lines, the pieces in which they come and replies go, and which calls fail.
#[derive(Clone, Copy)]
pub(crate) struct Lines<'a> {
    pub(crate) text: &'a [u8],
    pub(crate) piece: usize,
    pub(crate) read_fails: &'a [u64],
    pub(crate) write_fails: &'a [u64],
}

// A client whose calls of its source and of its sink don't fail.
pub(crate) fn steady(text: &[u8]) -> Lines<'_> {
    Lines {
        text,
        piece: 1000,
        read_fails: &[],
        write_fails: &[],
    }
}

// A new log of two containers.
pub(crate) fn new_log(alloc: Global) -> Option<Manager<Memory>> {
    let disk = Memory::new(alloc, 64, 65536, &[]).ok()?;
    let disk = Manager::format(alloc, disk, SHAPE, 2, false).ok()?;
    Manager::load(alloc, disk, 4).ok()
}

// The source and the sink of a client.
pub(crate) fn ports_of(
    alloc: Global,
    client: &Lines<'_>,
) -> Result<(MemorySource, MemorySink), AllocError> {
    let piece = client.piece.max(1);
    let bytes = Vec::from_slice(alloc, client.text)?;
    let source = MemorySource::new(bytes, piece, Vec::from_slice(alloc, client.read_fails)?);
    let fails = Vec::from_slice(alloc, client.write_fails)?;
    let sink = MemorySink::new(Vec::new(alloc), piece, fails);
    Ok((source, sink))
}

type Ports = OpenedPorts<MemorySource, MemorySink>;

type Ended = EndedClient<Ports, MemorySource, MemorySink>;

// The same, open.
fn openers_of(alloc: Global, client: &Lines<'_>) -> Result<Ports, AllocError> {
    let ports = ports_of(alloc, client)?;
    Ok(OpenedPorts { ports: Some(ports) })
}

// Those of two clients.
fn both_openers(
    alloc: Global,
    first: &Lines<'_>,
    second: &Lines<'_>,
) -> Result<Vec<Ports>, AllocError>
    ensures { IfOk result (λ openers. vec_len openers ≡ 2) }
{
    let mut openers = Vec::new(alloc);
    openers.push(openers_of(alloc, first)?)?;
    openers.push(openers_of(alloc, second)?)?;
    Ok(openers)
}

// Shares a new log among two clients, until both have ended. None where memory runs out.
fn shared<R: Threads + Wait + Sync>(
    rt: &R,
    alloc: Global,
    first: &Lines<'_>,
    second: &Lines<'_>,
) -> Option<Shared<Memory, Ended>> {
    let openers = both_openers(alloc, first, second).ok()?;
    let manager = new_log(alloc)?;
    share(rt, alloc, manager, openers).ok()
}

// Whether a client saw these replies, and ended so.
fn is_as(client: &Ended, replies: &[u8], end: ClientEnd) -> bool {
    match &client.ports {
        Some((_, sink)) => sink.bytes() == replies && client.end == end,
        None => replies.is_empty() && client.end == end,
    }
}

// Whether there are two clients, which saw these replies and ended so.
fn are_as(
    shared: &Shared<Memory, Ended>,
    first: &[u8],
    first_end: ClientEnd,
    second: &[u8],
) -> bool {
    match shared.clients.as_slice() {
        [a, b] => is_as(a, first, first_end) && is_as(b, second, ClientEnd::Served { status: 0 }),
        _ => false,
    }
}

const WRITER: &[u8] = b"1 open a\n1 area 1 8 1\n1 append 1 aa 0:0:0 0:0:0\n1 flush 1\n";

const WRITER_REPLIES: &[u8] = b"1 stream 1\n1 area 1\n1 lsn 1:0:0\n1 flushed 1:200:0\n";

const OTHER_LINES: &[u8] = b"2 open a\n2 area 1 8 1\n1 info 1\nx\n2 reopen\n2 drop 1\n2 drop 1\n";

const OTHER_LINES_REPLIES: &[u8] =
    b"2 stream 1\n2 area 1\n0 refused 28 BadLine 0\n0 refused 28 BadLine 0\n0 refused 28 BadLine 2\n2 ok\n2 refused 10 NoSuchArea\n";

#[test]
fn two_clients(rt: HostRuntime) {
    let writer = steady(WRITER);
    let other = steady(OTHER_LINES);
    let Some(shared) = shared(&rt, rt.alloc(), &writer, &other) else {
        panic!(rt; "memory ran out");
    };
    let end = ClientEnd::Served { status: 0 };
    assert!(rt; are_as(&shared, WRITER_REPLIES, end, OTHER_LINES_REPLIES));
}

const OTHER: &[u8] = b"2 open a\n2 area 1 8 1\n";

const OTHER_REPLIES: &[u8] = b"2 stream 1\n2 area 1\n";

// Whether one client ends with this status and these replies, while the other one is served to its end.
fn ends_alone<R: Threads + Wait + Sync>(
    rt: &R,
    alloc: Global,
    client: &Lines<'_>,
    replies: &[u8],
    status: u8,
) -> Option<bool> {
    let other = steady(OTHER);
    let shared = shared(rt, alloc, client, &other)?;
    Some(are_as(
        &shared,
        replies,
        ClientEnd::Served { status },
        OTHER_REPLIES,
    ))
}

// Shares a new log with one client whose openers open nothing, and with another one.
fn shared_with_shut<R: Threads + Wait + Sync>(
    rt: &R,
    alloc: Global,
) -> Option<Shared<Memory, Ended>> {
    let mut openers = Vec::new(alloc);
    openers.push(OpenedPorts { ports: None }).ok()?;
    let other = steady(OTHER);
    openers.push(openers_of(alloc, &other).ok()?).ok()?;
    let manager = new_log(alloc)?;
    share(rt, alloc, manager, openers).ok()
}

#[test]
fn openers_that_dont_open(rt: HostRuntime) {
    let Some(shared) = shared_with_shut(&rt, rt.alloc()) else {
        panic!(rt; "memory ran out");
    };
    assert!(rt; are_as(&shared, b"", ClientEnd::NotOpened, OTHER_REPLIES));
}

// The source gives twenty bytes, and then fails.
#[test]
fn a_source_that_fails(rt: HostRuntime) {
    let client = Lines {
        text: WRITER,
        piece: 20,
        read_fails: &[2],
        write_fails: &[],
    };
    assert!(rt; ends_alone(&rt, rt.alloc(), &client, b"1 stream 1\n", 2) == Some(true));
}

// The sink takes four bytes, and then fails.
#[test]
fn a_torn_reply(rt: HostRuntime) {
    let client = Lines {
        text: WRITER,
        piece: 4,
        read_fails: &[],
        write_fails: &[2],
    };
    assert!(rt; ends_alone(&rt, rt.alloc(), &client, b"1 st", 3) == Some(true));
}

// A line, and then one of so many bytes.
fn with_long_line(alloc: Global, count: usize) -> Result<Vec<u8>, AllocError> {
    let mut text = Vec::from_slice(alloc, b"1 open a\n")?;
    let whole = text.len().saturating_add(count);
    text.resize(whole, b'x')?;
    Ok(text)
}

#[test]
fn a_line_that_is_too_long(rt: HostRuntime) {
    let Ok(text) = with_long_line(rt.alloc(), 131073) else {
        panic!(rt; "memory ran out");
    };
    let client = Lines {
        text: text.as_slice(),
        piece: 65536,
        read_fails: &[],
        write_fails: &[],
    };
    assert!(rt;
        ends_alone(&rt, rt.alloc(), &client, b"1 stream 1\ninput too long\n", 7) == Some(true)
    );
}

// The sectors that all areas hold.
fn reserved(manager: &mut Manager<Memory>) -> Option<u32> {
    let call = Call::Info { stream: 1 };
    let reply = manager.step(1, &call);
    match &reply {
        Reply::Info(info) => Some(info.reserved),
        _ => None,
    }
}

// The clients leave nothing that is held.
#[test]
fn what_a_client_held_is_free(rt: HostRuntime) {
    let holder = steady(b"1 open a\n1 area 1 8 1\n1 reserve 1 8\n");
    let other = steady(OTHER);
    let Some(shared) = shared(&rt, rt.alloc(), &holder, &other) else {
        panic!(rt; "memory ran out");
    };
    let mut manager = shared.manager;
    assert!(rt; reserved(&mut manager) == Some(0));
}

// Whether the log has a stream of this number.
fn has_stream(manager: &mut Manager<Memory>, stream: u16) -> bool {
    let reply = manager.step(1, &Call::Info { stream });
    matches!(reply, Reply::Info(_))
}

// What a program wrote of a line before it ended is dropped: it isn't answered, and no stream is made.
#[test]
fn an_incomplete_line(rt: HostRuntime) {
    let ended = steady(b"1 open a\n1 open b");
    let other = steady(OTHER);
    let Some(shared) = shared(&rt, rt.alloc(), &ended, &other) else {
        panic!(rt; "memory ran out");
    };
    let end = ClientEnd::Served { status: 0 };
    assert!(rt; are_as(&shared, b"1 stream 1\n", end, OTHER_REPLIES));
    let mut manager = shared.manager;
    assert!(rt; has_stream(&mut manager, 1) && !has_stream(&mut manager, 2));
}
