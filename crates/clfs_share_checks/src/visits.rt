// Programs that come to the numbers of a log one after the other, each over a source and a sink of its own.
ghost use Rattle.std.specs.Prelude.{◌≡◌, vec_len, IfOk};

use crate::clients::{Lines, new_log, ports_of, steady};
use clfs_disk::Memory;
use clfs_ports::{MemorySink, MemorySource};
use clfs_share::{
    ComingEnd, NoneCanCome, Shared, VisitedClient, Visitors, could_any_come, share_visits,
};
use std::alloc::{AllocError, Global};
use std::sync::Wait;
use std::thread::Threads;

// A program that has left: its status, and its sink.
#[derive(Drop)]
struct Left {
    status: u8,
    sink: MemorySink,
}

// Programs that are to come, the last one first, and those that have left.
#[derive(Drop)]
struct Programs {
    coming: Vec<(MemorySource, MemorySink)>,
    left: Vec<Left>,
    // Once none is to come, none can come any more.
    fails: bool,
    // How often one came and left, and how often all were refused.
    came: u64,
    went: u64,
    refused: u64,
}

impl Visitors<MemorySource, MemorySink> for Programs {
    ghost comes = { λ _ _ _ _. Unit {0} };

    ghost over = { λ _ _. Unit {0} };

    ghost fails = { λ _ _. Unit {0} };

    ghost leaves = { λ _ _ _ _ _. Unit {0} };

    ghost refuses = { λ _ _. Unit {0} };

    fn next<R: Wait>(
        &mut self,
        _rt: &R,
    ) -> Result<Option<(MemorySource, MemorySink)>, NoneCanCome> {
        let next = self.coming.pop();
        if next.is_some() {
            self.came = self.came.saturating_add(1);
        } else if self.fails {
            return Err(NoneCanCome);
        }
        Ok(next)
    }

    fn leave(&mut self, status: u8, _source: MemorySource, sink: MemorySink) {
        self.went = self.went.saturating_add(1);
        let _kept = self.left.push(Left { status, sink });
    }

    fn refuse(&mut self) {
        self.refused = self.refused.saturating_add(1);
    }
}

type Visited = VisitedClient<Programs, MemorySource, MemorySink>;

// The programs of one number, in the order in which they come.
fn programs_of(alloc: Global, programs: &[Lines<'_>], fails: bool) -> Result<Programs, AllocError> {
    let mut coming = Vec::new(alloc);
    for program in programs {
        coming.push(ports_of(alloc, program)?)?;
    }
    coming.as_mut_slice().reverse();
    Ok(Programs {
        coming,
        left: Vec::new(alloc),
        fails,
        came: 0,
        went: 0,
        refused: 0,
    })
}

// Those of two numbers.
fn both(
    alloc: Global,
    first: &[Lines<'_>],
    second: &[Lines<'_>],
    fails: bool,
) -> Result<Vec<Programs>, AllocError>
    ensures { IfOk result (λ programs. vec_len programs ≡ 2) }
{
    let mut programs = Vec::new(alloc);
    programs.push(programs_of(alloc, first, fails)?)?;
    programs.push(programs_of(alloc, second, fails)?)?;
    Ok(programs)
}

// Shares a new log among them. None where memory runs out.
fn visited<R: Threads + Wait + Sync>(
    rt: &R,
    alloc: Global,
    first: &[Lines<'_>],
    second: &[Lines<'_>],
    fails: bool,
) -> Option<Shared<Memory, Visited>> {
    let programs = both(alloc, first, second, fails).ok()?;
    let manager = new_log(alloc)?;
    share_visits(rt, alloc, manager, programs).ok()
}

// Whether these programs came to a number and left so, each once.
fn is_as(client: &Visited, end: ComingEnd, replies: &[(u8, &[u8])]) -> bool {
    let Programs {
        left,
        came,
        went,
        refused,
        ..
    } = &client.visitors;
    let mut are = left.len() == replies.len();
    for (program, (status, text)) in left.iter().zip(replies) {
        are = are && program.status == *status && program.sink.bytes() == *text;
    }
    let count = replies.len() as u64;
    are && client.end == end && *came == count && *went == count && *refused == 0
}

// Whether two numbers were visited so.
fn are_as(
    shared: &Shared<Memory, Visited>,
    first: (ComingEnd, &[(u8, &[u8])]),
    second: (ComingEnd, &[(u8, &[u8])]),
) -> bool {
    match shared.clients.as_slice() {
        [a, b] => is_as(a, first.0, first.1) && is_as(b, second.0, second.1),
        _ => false,
    }
}

// What a program of another number does meanwhile.
const OTHER: &[u8] = b"2 open a\n2 area 1 8 1\n";

const OTHER_REPLIES: &[(u8, &[u8])] = &[(0, b"2 client\n2 stream 1\n2 area 1\n")];

// How one program of another number ends.
const ONE: ComingEnd = ComingEnd::Over { visits: 1 };

// The areas of one program are gone when the next one comes, whose first is number 1 again.
#[test]
fn an_area_of_the_visit_before(rt: HostRuntime) {
    let programs = [
        steady(b"1 open a\n1 area 1 8 1\n1 append 1 aa 0:0:0 0:0:0\n1 reserve 1 8\n"),
        steady(b"1 drop 1\n1 open a\n1 area 1 8 1\n1 drop 2\n"),
    ];
    let Some(shared) = visited(&rt, rt.alloc(), &programs, &[steady(OTHER)], false) else {
        panic!(rt; "memory ran out");
    };
    let replies: &[(u8, &[u8])] = &[
        (
            0,
            b"1 client\n1 stream 1\n1 area 1\n1 lsn 1:0:0\n1 held 1\n",
        ),
        (
            0,
            b"1 client\n1 refused 10 NoSuchArea\n1 stream 1\n1 area 1\n1 refused 10 NoSuchArea\n",
        ),
    ];
    let over = ComingEnd::Over { visits: 2 };
    assert!(rt; are_as(&shared, (over, replies), (ONE, OTHER_REPLIES)));
    assert!(rt; could_any_come(shared.clients.as_slice()));
}

// What a program wrote of a line before it ended isn't put before the next one's first line.
#[test]
fn a_visit_that_ends_within_a_line(rt: HostRuntime) {
    let programs = [steady(b"1 open a\n1 area 1 "), steady(b"8 1\n1 open a\n")];
    let Some(shared) = visited(&rt, rt.alloc(), &programs, &[steady(OTHER)], false) else {
        panic!(rt; "memory ran out");
    };
    let replies: &[(u8, &[u8])] = &[
        (0, b"1 client\n1 stream 1\n"),
        (0, b"1 client\n0 refused 28 BadLine 0\n1 stream 1\n"),
    ];
    let over = ComingEnd::Over { visits: 2 };
    assert!(rt; are_as(&shared, (over, replies), (ONE, OTHER_REPLIES)));
}

// One program is gone before it was greeted, one while it is answered, and one's source fails. The next one is served as ever.
#[test]
fn programs_that_are_gone(rt: HostRuntime) {
    let ungreeted = Lines {
        text: b"1 open a\n",
        piece: 4,
        read_fails: &[],
        write_fails: &[2],
    };
    let unanswered = Lines {
        text: b"1 open a\n",
        piece: 9,
        read_fails: &[],
        write_fails: &[2],
    };
    let unread = Lines {
        text: b"1 open a\n",
        piece: 1000,
        read_fails: &[1],
        write_fails: &[],
    };
    let programs = [ungreeted, unanswered, unread, steady(b"1 open a\n")];
    let Some(shared) = visited(&rt, rt.alloc(), &programs, &[steady(OTHER)], false) else {
        panic!(rt; "memory ran out");
    };
    let replies: &[(u8, &[u8])] = &[
        (3, b"1 cl"),
        (3, b"1 client\n"),
        (2, b"1 client\n"),
        (0, b"1 client\n1 stream 1\n"),
    ];
    let over = ComingEnd::Over { visits: 4 };
    assert!(rt; are_as(&shared, (over, replies), (ONE, OTHER_REPLIES)));
}

// Once none can come any more the number's visits are over, and those that were made stand.
#[test]
fn when_none_can_come(rt: HostRuntime) {
    let Some(shared) = visited(&rt, rt.alloc(), &[], &[steady(OTHER)], true) else {
        panic!(rt; "memory ran out");
    };
    let first = ComingEnd::Failed { visits: 0 };
    let second = ComingEnd::Failed { visits: 1 };
    assert!(rt; are_as(&shared, (first, &[]), (second, OTHER_REPLIES)));
    assert!(rt; could_any_come(shared.clients.as_slice()));
}

#[test]
fn when_none_could_come(rt: HostRuntime) {
    let Some(shared) = visited(&rt, rt.alloc(), &[], &[], true) else {
        panic!(rt; "memory ran out");
    };
    let end = ComingEnd::Failed { visits: 0 };
    assert!(rt; are_as(&shared, (end, &[]), (end, &[])));
    assert!(rt; !could_any_come(shared.clients.as_slice()));
}

// Nobody came, but they could have.
#[test]
fn when_none_come(rt: HostRuntime) {
    let Some(shared) = visited(&rt, rt.alloc(), &[], &[], false) else {
        panic!(rt; "memory ran out");
    };
    let end = ComingEnd::Over { visits: 0 };
    assert!(rt; are_as(&shared, (end, &[]), (end, &[])));
    assert!(rt; could_any_come(shared.clients.as_slice()));
}

const AGAIN: &[u8] = b"1 open a\n1 area 1 8 1\n";

// Each of many programs finds the number as the first one did.
#[test]
fn many_visits(rt: HostRuntime) {
    let programs = [steady(AGAIN); 40];
    let Some(shared) = visited(&rt, rt.alloc(), &programs, &[steady(OTHER)], false) else {
        panic!(rt; "memory ran out");
    };
    let replies: [(u8, &[u8]); 40] = [(0, b"1 client\n1 stream 1\n1 area 1\n"); 40];
    let over = ComingEnd::Over { visits: 40 };
    assert!(rt; are_as(&shared, (over, &replies), (ONE, OTHER_REPLIES)));
}
