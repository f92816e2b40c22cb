// The program's `share`, by its words: clients over sources and sinks in memory. A path of lines has the lines themselves as its text, and a path of replies
// says when the sink fails. A path of lines that begins with `shut` can't be opened.
ghost use Rattle.std.specs.Prelude.{◌≡◌};

use crate::runs::{NEVER, SMALL, formatted, sink_of, source_of, words};
use clfs_command::PathPair;
use clfs_disk::Memory;
use clfs_engine::{DONE, NONE_SERVED, NOT_A_LOG, PathOpeners, ShareOutcome, USAGE, run_share};
use clfs_ports::{MemorySink, MemorySource};
use clfs_share::{ClientEnd, EndedClient, OpenedPorts};
use std::alloc::{AllocError, Global};
use std::sync::Wait;
use std::thread::Threads;

// What makes sources and sinks in memory of paths.
#[derive(Drop)]
struct InMemory {
    alloc: Global,
}

type Ports = OpenedPorts<MemorySource, MemorySink>;

impl PathOpeners<Ports> for InMemory {
    ghost makes = { λ _ _ _ _. Unit {0} };

    fn openers(&self, _client: u16, paths: &PathPair) -> Result<Ports, AllocError> {
        if paths.input.as_str().starts_with("shut") {
            return Ok(OpenedPorts { ports: None });
        }
        let second = if paths.output.as_str() == "torn" {
            2
        } else {
            NEVER
        };
        let source = source_of(self.alloc, paths.input.as_bytes(), (1000, NEVER))?;
        let sink = sink_of(self.alloc, (4, second))?;
        Ok(OpenedPorts {
            ports: Some((source, sink)),
        })
    }
}

// How a run ended, and what it wrote.
#[derive(Drop)]
struct SharedRun {
    outcome: ShareOutcome<Memory, Ports, MemorySource, MemorySink>,
    sink: MemorySink,
}

// Runs `share` with these words on a disk.
fn shared(
    rt: &(impl Threads + Wait + Sync),
    alloc: Global,
    texts: &[&str],
    disk: Memory,
) -> Result<SharedRun, AllocError> {
    let words = words(alloc, texts)?;
    let mut sink = sink_of(alloc, (1000, NEVER))?;
    let outcome = run_share(rt, alloc, &words, &InMemory { alloc }, &mut sink, disk);
    Ok(SharedRun { outcome, sink })
}

// Whether a client saw these replies, and ended with this status.
fn is_as(
    client: &EndedClient<Ports, MemorySource, MemorySink>,
    replies: &[u8],
    status: u8,
) -> bool {
    match &client.ports {
        Some((_, sink)) => sink.bytes() == replies && client.end == ClientEnd::Served { status },
        None => false,
    }
}

// Whether a run ended so without a word, and its two clients so.
fn are_as(run: &SharedRun, first: (&[u8], u8), second: (&[u8], u8)) -> bool {
    let SharedRun { outcome, sink } = run;
    match outcome.clients.as_slice() {
        [a, b] => {
            outcome.status == DONE
                && sink.bytes().is_empty()
                && is_as(a, first.0, first.1)
                && is_as(b, second.0, second.1)
        }
        _ => false,
    }
}

// Whether a run served no client, ended with this status and wrote this.
fn is_none(run: &SharedRun, status: u8, written: &[u8]) -> bool {
    let SharedRun { outcome, sink } = run;
    outcome.clients.is_empty() && outcome.status == status && sink.bytes() == written
}

// What stands after the last line feed isn't answered.
#[test]
fn two_clients_by_their_paths(rt: HostRuntime) -> Result<(), AllocError> {
    let disk = formatted(&rt, rt.alloc(), SMALL)?;
    let texts = [
        "share",
        "1 open a\n1 info 1\n1 x\n1 info 1",
        "whole",
        "2 open a\n1 open a\n2",
        "other",
    ];
    let run = shared(&rt, rt.alloc(), &texts, disk)?;
    let first: &[u8] =
        b"1 stream 1\n1 info containers 2 free 1 size 8 sectors 14 reserved 0 base 0:0:0 last 0:0:0 flushed 1:0:0 restart 0:0:0 archive off\n0 refused 28 BadLine 2\n";
    let second: &[u8] = b"2 stream 1\n0 refused 28 BadLine 0\n";
    assert!(rt; are_as(&run, (first, 0), (second, 0)));
    Ok(())
}

#[test]
fn a_client_whose_sink_fails(rt: HostRuntime) -> Result<(), AllocError> {
    let disk = formatted(&rt, rt.alloc(), SMALL)?;
    let texts = [
        "share",
        "--write-buffers=1",
        "1 open a\n",
        "torn",
        "2 open a\n",
        "whole",
    ];
    let run = shared(&rt, rt.alloc(), &texts, disk)?;
    assert!(rt; are_as(&run, (b"1 st", 3), (b"2 stream 1\n", 0)));
    Ok(())
}

// Whether a client couldn't be opened.
fn is_shut(client: &EndedClient<Ports, MemorySource, MemorySink>) -> bool {
    client.end == ClientEnd::NotOpened && client.ports.is_none()
}

#[test]
fn clients_that_cant_be_opened(rt: HostRuntime) -> Result<(), AllocError> {
    let disk = formatted(&rt, rt.alloc(), SMALL)?;
    let run = shared(
        &rt,
        rt.alloc(),
        &["share", "shut", "a", "shut too", "b"],
        disk,
    )?;
    assert!(rt; run.outcome.status == NONE_SERVED && run.sink.bytes().is_empty());
    let are = match run.outcome.clients.as_slice() {
        [a, b] => is_shut(a) && is_shut(b),
        _ => false,
    };
    assert!(rt; are);
    Ok(())
}

#[test]
fn one_of_two_that_can_be_opened(rt: HostRuntime) -> Result<(), AllocError> {
    let disk = formatted(&rt, rt.alloc(), SMALL)?;
    let run = shared(&rt, rt.alloc(), &["share", "shut", "a", "", "b"], disk)?;
    assert!(rt; run.outcome.status == DONE && run.sink.bytes().is_empty());
    let are = match run.outcome.clients.as_slice() {
        [a, b] => is_shut(a) && is_as(b, b"", 0),
        _ => false,
    };
    assert!(rt; are);
    Ok(())
}

#[test]
fn a_disk_without_a_log(rt: HostRuntime) -> Result<(), AllocError> {
    let disk = Memory::new(rt.alloc(), 2048, 8388608, &[])?;
    let run = shared(&rt, rt.alloc(), &["share", "1 open a\n", "whole"], disk)?;
    assert!(rt; is_none(&run, NOT_A_LOG, b"not a log: no open slot\n"));
    Ok(())
}

#[test]
fn words_that_ask_for_no_client(rt: HostRuntime) -> Result<(), AllocError> {
    let disk = formatted(&rt, rt.alloc(), SMALL)?;
    let run = shared(&rt, rt.alloc(), &["share", "1 open a\n"], disk)?;
    let usage =
        b"usage: clfs FOLDER format, serve, race, trial, crew, check, txn, archive, restore or crowd\n";
    assert!(rt; is_none(&run, USAGE, usage));
    Ok(())
}
