// Openers count what is asked of them: each client's are opened once, closed once if that gave anything, and refused only if there is no thread.
ghost use Rattle.std.specs.Prelude.{◌≡◌, vec_len, IfOk};

use crate::clients::{Lines, new_log, ports_of, steady};
use clfs_disk::Memory;
use clfs_ports::{MemorySink, MemorySource};
use clfs_share::{ClientEnd, EndedClient, Openers, Shared, is_any_served, share};
use std::alloc::{AllocError, Global};
use std::sync::Wait;
use std::thread::Threads;

// How often openers were opened, closed and refused, and the status with which they were closed last.
#[derive(Clone, Copy, PartialEq, Eq)]
struct Counts {
    opened: u64,
    closed: u64,
    refused: u64,
    status: Option<u8>,
}

const NONE: Counts = Counts {
    opened: 0,
    closed: 0,
    refused: 0,
    status: None,
};

// Openers that count. They open what is there.
#[derive(Drop)]
struct Counted {
    ports: Option<(MemorySource, MemorySink)>,
    counts: Counts,
}

impl Openers<MemorySource, MemorySink> for Counted {
    ghost opens = { λ _ _ _ _. Unit {0} };

    ghost stays_shut = { λ _ _. Unit {0} };

    ghost closes = { λ _ _ _. Unit {0} };

    ghost refuses = { λ _ _. Unit {0} };

    fn open(&mut self) -> Option<(MemorySource, MemorySink)> {
        self.counts.opened = self.counts.opened.saturating_add(1);
        self.ports.take()
    }

    fn close(&mut self, status: u8, _source: &mut MemorySource, _sink: &mut MemorySink) {
        self.counts.closed = self.counts.closed.saturating_add(1);
        self.counts.status = Some(status);
    }

    fn refuse(&mut self) {
        self.counts.refused = self.counts.refused.saturating_add(1);
    }
}

type Ended = EndedClient<Counted, MemorySource, MemorySink>;

// Openers of three clients: one whose lines are answered, one whose source fails at once, and one that can't be opened.
fn three_openers(alloc: Global) -> Result<Vec<Counted>, AllocError>
    ensures { IfOk result (λ openers. vec_len openers ≡ 3) }
{
    let failing = Lines {
        text: b"2 open a\n",
        piece: 1000,
        read_fails: &[1],
        write_fails: &[],
    };
    let mut openers = Vec::new(alloc);
    openers.push(Counted {
        ports: Some(ports_of(alloc, &steady(b"1 open a\n"))?),
        counts: NONE,
    })?;
    openers.push(Counted {
        ports: Some(ports_of(alloc, &failing)?),
        counts: NONE,
    })?;
    openers.push(Counted {
        ports: None,
        counts: NONE,
    })?;
    Ok(openers)
}

// Shares a new log among these three.
fn shared<R: Threads + Wait + Sync>(rt: &R, alloc: Global) -> Option<Shared<Memory, Ended>> {
    let openers = three_openers(alloc).ok()?;
    let manager = new_log(alloc)?;
    share(rt, alloc, manager, openers).ok()
}

// Whether a client ended so, with these counts, and has a source and a sink only if it was opened.
fn is_as(client: &Ended, end: ClientEnd, counts: Counts) -> bool {
    let served = counts.closed == 1;
    client.end == end
        && client.openers.counts == counts
        && client.openers.ports.is_none()
        && client.ports.is_some() == served
}

// The counts of openers that were opened and closed with this status.
fn closed(status: u8) -> Counts {
    Counts {
        opened: 1,
        closed: 1,
        refused: 0,
        status: Some(status),
    }
}

#[test]
fn each_is_opened_once(rt: HostRuntime) {
    let Some(shared) = shared(&rt, rt.alloc()) else {
        panic!(rt; "memory ran out");
    };
    let shut = Counts {
        opened: 1,
        closed: 0,
        refused: 0,
        status: None,
    };
    let clients = shared.clients.as_slice();
    let are = match clients {
        [a, b, c] => {
            is_as(a, ClientEnd::Served { status: 0 }, closed(0))
                && is_as(b, ClientEnd::Served { status: 2 }, closed(2))
                && is_as(c, ClientEnd::NotOpened, shut)
        }
        _ => false,
    };
    assert!(rt; are);
    assert!(rt; is_any_served(clients));
}
