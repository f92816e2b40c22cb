// A race: the lines of a script, each client's in a thread of its own, over one log that they share.
//
// The script is read first, then the log is opened, and all calls are made before the first reply is written. So the output is that of one journal,
// whatever comes of writing it, and a sink that fails can't leave a script done in part.
ghost use Rattle.std.specs.Prelude.{◌≡◌, ◌≤◌, ◌++◌, [], true, ℕ, length, All, Some, IfOk};
ghost use Rattle.std.specs.List.{flat_map};
ghost use Rattle.clfs_disk.specs.State.{Later};
ghost use Rattle.clfs_lsn.specs.Limits.{most_write_buffers};
ghost use Rattle.clfs_turn.specs.Lists.{is_in, are_distinct};
ghost use Rattle.clfs_model.specs.Conditions.{IsClient};
ghost use Rattle.clfs_model.specs.Journals.{mine};
ghost use Rattle.clfs_race.specs.Divided.{HasAllArguments, clients_of};
ghost use Rattle.clfs_race.specs.Scripts.{bad_line_text, journal_text};
ghost use Rattle.clfs_shared.specs.Reached.{opening_of};
ghost use Rattle.clfs_operations.specs.Complete.{NothingFailsRacing, RaceComesThrough};
ghost use Rattle.clfs_operations.specs.Race.{EndsRacing};
ghost use Rattle.clfs_operations.specs.Ran.{HasRun, has_all, end_text, end_status, TellsRace};

use crate::refusing::refused;
use crate::status::Outcome;
use crate::workers::run_clients;
use clfs_disk::Disk;
use clfs_laws::unbroken_stays;
use clfs_lines::{DONE, INPUT_TOO_LONG, NO_MEMORY, SOURCE_FAULT, printed};
use clfs_lsn::Bytes;
use clfs_manager::{DiskName, LoadRefused, Manager};
use clfs_model::{Entry, Journal};
use clfs_ports::{Sink, Source};
use clfs_race::{
    ClientCalls, Gate, ScriptEnd, divide, read_script, write_bad_lines, write_journal,
};
use clfs_recover::{files_have_one_meaning, whole_files_pass_the_test};
use clfs_shared::{Closed, SharedLog, StartRefused};
use std::alloc::{AllocError, Global};
use std::marker::Brand;
use std::sync::Wait;
use std::thread::Threads;

// A log after a race, the calls that it took, and whether these are all that were asked for.
#[derive(Drop)]
struct Raced<D: Disk> {
    manager: Manager<D>,
    journal: Journal,
    whole: bool,
}

// How many entries a client has.
fn count_of(entries: &[Entry], client: u16) -> usize
    ensures { result ≡ length (mine entries.now client) }
{
    entries
        .iter()
        .filter(|entry| entry.client == client)
        .count()
}

// Whether each client has as many entries as it has calls.
fn has_all(journal: &Journal, scripts: &[ClientCalls]) -> bool
    ensures { result ≡ has_all journal.now scripts.now }
{
    let entries = journal.as_slice();
    scripts.iter().all(|script| count_of(entries, script.client()) == script.calls().len())
}

// The clients of scripts.
fn clients_of(alloc: Global, scripts: &[ClientCalls]) -> Result<Vec<u16>, AllocError>
    ensures { IfOk result (λ clients. clients.items ≡ clients_of scripts.now) }
{
    scripts.iter().map(|script| script.client()).collect(alloc)
}

// How many calls scripts have.
fn count_calls(scripts: &[ClientCalls]) -> usize {
    scripts.iter().fold(
        0,
        |sum: usize, script| sum.saturating_add(script.calls().len()),
    )
}

// A log that took no call.
fn untouched<D: Disk>(alloc: Global, manager: Manager<D>, whole: bool) -> Raced<D>
    ensures manager { result.manager ≡ manager }
    ensures journal { result.journal ≡ [] }
    ensures whole { result.whole ≡ whole }
{
    Raced {
        manager,
        journal: Journal::from_vec(Vec::new(alloc)),
        whole,
    }
}

// Shares a log among the clients of scripts, and lets them make their calls. Under the lock the disk is one that came of the named one.
fn race_followed<
    R: Threads + Wait + Sync,
    D: Disk + Send + Drop,
    G: Gate + Sync,
    N: DiskName<D> + Send,
>(rt: &R, alloc: Global, gate: &G, manager: Manager<D>, scripts: &[ClientCalls]) -> Raced<D>
    requires begun { N.begun ≡ Some manager.1 }
    requires apart { are_distinct (clients_of scripts.now) ≡ true }
    requires clients { (client : ℕ) → is_in client (clients_of scripts.now) ≡ true → IsClient client }
    requires arguments { All HasAllArguments scripts.now }
    ensures ran { HasRun (opening_of manager.0 (D.state manager.1)) scripts.now (D.state result.manager.1) result.manager.0 result.journal result.whole }
    ensures later { Later (D.state manager.1) (D.state result.manager.1) }
{
    manager.stored();
    if scripts.is_empty() {
        return untouched(alloc, manager, true);
    }
    let Ok(clients) = clients_of(alloc, scripts) else {
        return untouched(alloc, manager, false);
    };
    match SharedLog::start_for(
        alloc,
        manager.followed::<N>(),
        &clients,
        count_calls(scripts),
    ) {
        Ok((log, sessions)) => {
            let mut sessions = sessions;
            run_clients(rt, &log, gate, &mut sessions, scripts);
            let Closed { manager, journal } = log.close(sessions);
            let whole = has_all(&journal, scripts);
            Raced {
                manager: manager.unfollowed(),
                journal,
                whole,
            }
        }
        Err(StartRefused { manager }) => untouched(alloc, manager.unfollowed(), false),
    }
}

// The same, where the disk that is named is the log's.
fn race_over<R: Threads + Wait + Sync, D: Disk + Send + Drop, G: Gate + Sync>(
    rt: &R,
    alloc: Global,
    gate: &G,
    manager: Manager<D>,
    scripts: &[ClientCalls],
) -> Raced<D>
    requires apart { are_distinct (clients_of scripts.now) ≡ true }
    requires clients { (client : ℕ) → is_in client (clients_of scripts.now) ≡ true → IsClient client }
    requires arguments { All HasAllArguments scripts.now }
    ensures ran { HasRun (opening_of manager.0 (D.state manager.1)) scripts.now (D.state result.manager.1) result.manager.0 result.journal result.whole }
    ensures later { Later (D.state manager.1) (D.state result.manager.1) }
{
    race_followed::<R, D, G, Brand>(rt, alloc, gate, manager, scripts)
}

// The output: the replies to lines that ask for nothing, those of a journal, and that the input is too long, where it is.
fn output(
    alloc: Global,
    bad: &[u32],
    journal: &Journal,
    end: ScriptEnd,
) -> Result<Bytes, AllocError>
    ensures { IfOk result (λ out. out ≡ (flat_map bad_line_text bad.now ++ journal_text journal.now) ++ end_text end) }
{
    let mut out = Bytes::new(alloc);
    write_bad_lines(bad, &mut out)?;
    write_journal(journal.as_slice(), &mut out)?;
    if end == ScriptEnd::TooLong {
        out.extend_from_slice(b"input too long\n")?;
    }
    Ok(out)
}

// The status of a race that was done, by how its script ended.
fn end_status(end: ScriptEnd) -> u8
    ensures { result ≡ end_status end }
{
    match end {
        ScriptEnd::Whole => DONE,
        ScriptEnd::Fault => SOURCE_FAULT,
        ScriptEnd::TooLong => INPUT_TOO_LONG,
    }
}

// Writes the replies, if all calls were made, and gives the status.
fn told<K: Sink>(
    alloc: Global,
    bad: &[u32],
    journal: &Journal,
    whole: bool,
    end: ScriptEnd,
    sink: &mut K,
) -> u8
    ensures { TellsRace result whole end (flat_map bad_line_text bad.now ++ journal_text journal.now)
        (K.written sink.old) (K.written sink.new) (K.faults sink.old) (K.faults sink.new) }
{
    if !whole {
        return NO_MEMORY;
    }
    match output(alloc, bad, journal, end) {
        Ok(out) => printed(sink, out.as_slice(), end_status(end)),
        Err(_) => NO_MEMORY,
    }
}

/// Reads the script that the source gives, opens the log on a disk, lets each client make its calls in a thread of its own, writes the replies, and
/// says how it ended. First come the replies to lines that ask for nothing, then those to the calls, in the order in which the log took them. A
/// script has at most 1,048,576 bytes and 10,000 lines, and a line at most 131,072 bytes without its line feed. Each call passes the gate.
pub fn race<R: Threads + Wait + Sync, S: Source, K: Sink, D: Disk + Send + Drop, G: Gate + Sync>(
    rt: &R,
    alloc: Global,
    write_buffers: u32,
    gate: &G,
    source: &mut S,
    sink: &mut K,
    disk: D,
) -> Outcome<D>
    requires some { 1 ≤ write_buffers }
    requires at_most { write_buffers ≤ most_write_buffers }
    ensures ends { EndsRacing result.status write_buffers (D.state disk) (D.state result.disk) (S.left source.old) (S.left source.new)
        (K.written sink.old) (K.written sink.new) (S.faults source.old) (S.faults source.new) (K.faults sink.old) (K.faults sink.new) }
    ensures complete { NothingFailsRacing (D.state disk) (D.state result.disk) (S.left source.old) (S.faults source.old) (S.faults source.new)
        (K.faults sink.old) (K.faults sink.new) → RaceComesThrough result.status write_buffers (D.state disk) (D.state result.disk)
        (S.left source.old) (S.left source.new) (K.written sink.old) (K.written sink.new) }
{
    files_have_one_meaning();
    unbroken_stays();
    whole_files_pass_the_test();
    let Ok(script) = read_script(alloc, source) else {
        return Outcome {
            status: NO_MEMORY,
            disk,
        };
    };
    let Ok(division) = divide(alloc, &script) else {
        return Outcome {
            status: NO_MEMORY,
            disk,
        };
    };
    match Manager::load(alloc, disk, write_buffers) {
        Ok(manager) => {
            manager.stored();
            let raced = race_over(rt, alloc, gate, manager, &division.scripts);
            raced.manager.stored();
            let status = told(
                alloc,
                &division.bad,
                &raced.journal,
                raced.whole,
                script.end,
                sink,
            );
            let Raced { manager, .. } = raced;
            Outcome {
                status,
                disk: manager.close(),
            }
        }
        Err(LoadRefused { disk, cause }) => Outcome {
            status: refused(alloc, sink, cause),
            disk,
        },
    }
}
