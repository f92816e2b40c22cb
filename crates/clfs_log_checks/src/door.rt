// The program's `share` by a door, by its words: programs over sources and sinks in memory. The place names what comes by its door: `two` two programs to
// each client, `none` none, and `shut` can't be opened.
ghost use Rattle.std.specs.Prelude.{◌≡◌, length, IfOk};

use crate::runs::{NEVER, SMALL, formatted, sink_of, source_of, words};
use clfs_disk::Memory;
use clfs_engine::{
    DONE, DoorOutcome, DoorRefusal, Doors, NONE_SERVED, NOT_A_LOG, SINK_FAULT, USAGE, run_door,
};
use clfs_ports::{MemorySink, MemorySource};
use clfs_share::{NoneCanCome, Visitors};
use std::alloc::{AllocError, Global};
use std::process::Abort;
use std::sync::Wait;
use std::thread::Threads;

// Programs that are to come to a client, each with these lines, and what those who left were told.
#[derive(Drop)]
struct Programs {
    alloc: Global,
    number: u32,
    coming: u32,
    fails: bool,
    told: Vec<MemorySink>,
}

impl Programs {
    fn ports(&self) -> Result<(MemorySource, MemorySink), AllocError> {
        let number = self.number;
        let lines = format!(in self.alloc; "{number} open a\n{number} area 1 8 1\n")?;
        let source = source_of(self.alloc, lines.as_bytes(), (1000, NEVER))?;
        Ok((source, sink_of(self.alloc, (1000, NEVER))?))
    }
}

impl Visitors<MemorySource, MemorySink> for Programs {
    ghost comes = { λ _ _ _ _. Unit {0} };

    ghost over = { λ _ _. Unit {0} };

    ghost fails = { λ _ _. Unit {0} };

    ghost leaves = { λ _ _ _ _ _. Unit {0} };

    ghost refuses = { λ _ _. Unit {0} };

    fn next<R: Wait>(
        &mut self,
        _rt: &R,
    ) -> Result<Option<(MemorySource, MemorySink)>, NoneCanCome> {
        if self.coming == 0 {
            return if self.fails {
                Err(NoneCanCome)
            } else {
                Ok(None)
            };
        }
        self.coming = self.coming.saturating_sub(1);
        match self.ports() {
            Ok(ports) => Ok(Some(ports)),
            Err(_) => Err(NoneCanCome),
        }
    }

    fn leave(&mut self, _status: u8, _source: MemorySource, sink: MemorySink) {
        let _kept = self.told.push(sink);
    }

    fn refuse(&mut self) {}
}

// Doors in memory.
#[derive(Drop)]
struct InMemory {
    alloc: Global,
}

// Those who come to so many clients.
fn programs_of(alloc: Global, place: &str, clients: u32) -> Result<Vec<Programs>, AllocError>
    ensures { IfOk result (λ programs. length programs.items ≡ clients) }
{
    let mut programs = Vec::new(alloc);
    for client in 0..clients {
        programs.push(Programs {
            alloc,
            number: client.saturating_add(1),
            coming: if place == "two" { 2 } else { 0 },
            fails: place == "broken",
            told: Vec::new(alloc),
        })?;
    }
    Ok(programs)
}

impl Doors<Programs> for InMemory {
    ghost opens = { λ _ _ _. Unit {0} };

    ghost stays_shut = { λ _ _. Unit {0} };

    fn open(&self, place: &str, clients: u32) -> Result<Vec<Programs>, DoorRefusal> {
        if place == "shut" {
            return Err(DoorRefusal::NotOpened);
        }
        match programs_of(self.alloc, place, clients) {
            Ok(programs) => Ok(programs),
            Err(_) => Err(DoorRefusal::NoMemory),
        }
    }
}

// How a run ended, and what it wrote.
#[derive(Drop)]
struct DoorRun {
    outcome: DoorOutcome<Memory, Programs, MemorySource, MemorySink>,
    sink: MemorySink,
}

impl DoorRun {
    // Whether it ended with this status and wrote this.
    fn is(&self, status: u8, written: &[u8]) -> bool {
        self.outcome.status == status && self.sink.bytes() == written
    }
}

// Runs `share` with these words on a disk, over a sink whose calls take four bytes and of which one fails.
fn opened(
    rt: &(impl Threads + Wait + Sync),
    alloc: Global,
    texts: &[&str],
    fails: u64,
    disk: Memory,
) -> Result<DoorRun, AllocError> {
    let words = words(alloc, texts)?;
    let mut sink = sink_of(alloc, (4, fails))?;
    let outcome = run_door(rt, alloc, &words, &InMemory { alloc }, &mut sink, disk);
    Ok(DoorRun { outcome, sink })
}

// The same on a new log.
fn opened_to(
    rt: &(impl Threads + Wait + Sync + Abort),
    alloc: Global,
    place: &str,
    fails: u64,
) -> Result<DoorRun, AllocError> {
    let disk = formatted(rt, alloc, SMALL)?;
    let texts = ["share", "--door", place, "--clients", "2"];
    opened(rt, alloc, &texts, fails, disk)
}

// Whether each of the programs was told this.
fn were_told(programs: &Programs, replies: &[u8]) -> bool {
    let mut are = programs.told.len() == 2;
    for sink in &programs.told {
        are = are && sink.bytes() == replies;
    }
    are
}

#[test]
fn programs_come_and_go(rt: HostRuntime) -> Result<(), AllocError> {
    let run = opened_to(&rt, rt.alloc(), "two", NEVER)?;
    assert!(rt; run.is(DONE, b"ready\n"));
    let are = match run.outcome.clients.as_slice() {
        [a, b] => {
            were_told(&a.visitors, b"1 client\n1 stream 1\n1 area 1\n")
                && were_told(&b.visitors, b"2 client\n2 stream 1\n2 area 1\n")
        }
        _ => false,
    };
    assert!(rt; are);
    Ok(())
}

#[test]
fn nobody_comes(rt: HostRuntime) -> Result<(), AllocError> {
    let run = opened_to(&rt, rt.alloc(), "none", NEVER)?;
    assert!(rt; run.is(DONE, b"ready\n") && run.outcome.clients.len() == 2);
    Ok(())
}

#[test]
fn a_door_that_cant_be_opened(rt: HostRuntime) -> Result<(), AllocError> {
    let run = opened_to(&rt, rt.alloc(), "shut", NEVER)?;
    assert!(rt; run.is(NONE_SERVED, b"") && run.outcome.clients.is_empty());
    Ok(())
}

#[test]
fn a_door_that_fails_at_once(rt: HostRuntime) -> Result<(), AllocError> {
    let run = opened_to(&rt, rt.alloc(), "broken", NEVER)?;
    assert!(rt; run.is(NONE_SERVED, b"ready\n") && run.outcome.clients.len() == 2);
    Ok(())
}

// If it can't be said that programs may come, none is let in.
#[test]
fn a_torn_ready(rt: HostRuntime) -> Result<(), AllocError> {
    let run = opened_to(&rt, rt.alloc(), "two", 2)?;
    assert!(rt; run.is(SINK_FAULT, b"read") && run.outcome.clients.is_empty());
    Ok(())
}

#[test]
fn a_disk_without_a_log(rt: HostRuntime) -> Result<(), AllocError> {
    let disk = Memory::new(rt.alloc(), 2048, 8388608, &[])?;
    let texts = ["share", "--door", "two", "--clients", "2"];
    let run = opened(&rt, rt.alloc(), &texts, NEVER, disk)?;
    assert!(rt; run.is(NOT_A_LOG, b"not a log: no open slot\n"));
    Ok(())
}

const USAGE_LINE: &[u8] =
    b"usage: clfs FOLDER format, serve, race, trial, crew, check, txn, archive, restore or crowd\n";

// Words that have no number of clients, too many, or none, an option twice, or a path beside the door.
const NO_WORDS: &[&[&str]] = &[
    &["share", "--door", "two"],
    &["share", "--door", "two", "--clients", "0"],
    &["share", "--door", "two", "--clients", "65"],
    &["share", "--door", "two", "--clients", "2", "--door", "two"],
    &["share", "--door", "two", "--clients", "2", "a", "b"],
    &[
        "share",
        "--door",
        "two",
        "--clients",
        "2",
        "--write-buffers",
        "65",
    ],
    &["serve", "--door", "two", "--clients", "2"],
];

#[test]
fn words_that_ask_for_no_door(rt: HostRuntime) -> Result<(), AllocError> {
    for texts in NO_WORDS {
        let disk = formatted(&rt, rt.alloc(), SMALL)?;
        let run = opened(&rt, rt.alloc(), texts, NEVER, disk)?;
        assert!(rt; run.is(USAGE, USAGE_LINE) && run.outcome.clients.is_empty());
    }
    Ok(())
}
