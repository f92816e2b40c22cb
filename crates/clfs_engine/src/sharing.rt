// A log that several programs use at once: it is opened, shared among its clients until all have ended, and closed.
//
// Each client's lines and replies are matters of `clfs_share`. Here the log is opened before any client's source is, and the status says whether the log is
// broken at the end, and else whether any client was served: a fault of the disk, or damage, is told to every client in its replies, and it ends none of them.
ghost use Rattle.std.specs.Prelude.{ℕ, ◌≡◌, ◌+◌, ◌<◌, ◌≤◌, [], length, map, if◌then◌else◌, None, Some, IfOk, OnOk};
ghost use Rattle.std.specs.String.{string_bytes};
ghost use Rattle.clfs_lsn.specs.Limits.{most_clients, most_write_buffers};
ghost use Rattle.clfs_command.specs.Share.{Asked, IsInRange, Paths, asked_of, paths_of, share_of};
ghost use Rattle.clfs_operations.specs.Serve.{EndsByUsage};
ghost use Rattle.clfs_share.specs.Ended.{ends_of};
ghost use Rattle.clfs_engine.specs.Share.{AddsOpeners, AreOpeners, AreServed, AreServedAt, EndsSharing, served_status};

use clfs_command::{PathPair, ShareWords, WordsRefusal, read_share};
use clfs_disk::Disk;
use clfs_lines::{DONE, NO_MEMORY, printed};
use clfs_manager::{LoadRefused, Manager};
use clfs_operations::{
    DISK_FAULT, USAGE, journals_are_taken_from_logs, memory_runs_out_at_once, refused,
    unopened_logs_are_told,
};
use clfs_ports::{Sink, Source};
use clfs_share::{EndedClient, Openers, ShareRefused, Shared, is_any_served, share};
use std::alloc::{AllocError, Global};
use std::sync::Wait;
use std::thread::Threads;

/// All clients have ended, and none of them could be served: it couldn't be opened, or no thread could be made for it.
pub const NONE_SERVED: u8 = 18;

/// How sharing a log ended.
#[derive(Drop)]
pub struct ShareOutcome<D: Disk, P: Openers<S, K>, S: Source, K: Sink> {
    /// The status.
    pub status: u8,
    /// The disk that was handed in.
    pub disk: D,
    /// The clients, in order; none if the log wasn't shared.
    pub clients: Vec<EndedClient<P, S, K>>,
}

// The status after all clients have ended: a broken log keeps nothing in memory.
fn end_status<D: Disk, P: Openers<S, K>, S: Source, K: Sink>(
    manager: &Manager<D>,
    clients: &[EndedClient<P, S, K>],
) -> u8
    ensures { result ≡ (if manager.now.0.broken then 4 else served_status (ends_of clients.now)) }
{
    match manager.ends_kept() {
        Some(_) if is_any_served(clients) => DONE,
        Some(_) => NONE_SERVED,
        None => DISK_FAULT,
    }
}

// A run that shared no log.
fn unserved<D: Disk + Drop, P: Openers<S, K> + Drop, S: Source + Drop, K: Sink + Drop>(
    alloc: Global,
    status: u8,
    disk: D,
) -> ShareOutcome<D, P, S, K>
    ensures status { result.status ≡ status }
    ensures disk { result.disk ≡ disk }
    ensures clients { result.clients.items ≡ [] }
{
    ShareOutcome {
        status,
        disk,
        clients: Vec::new(alloc),
    }
}

/// Opens the log on a disk with so many write buffers, serves so many clients, numbered from 1, each in a thread of its own, and says how it ended when all
/// of them have. Nothing of a client is opened before the log is. The sink is told why the log wasn't opened, and nothing else.
pub fn share_log<R, D, P, S, K, T>(
    rt: &R,
    alloc: Global,
    write_buffers: u32,
    openers: Vec<P>,
    sink: &mut T,
    disk: D,
) -> ShareOutcome<D, P, S, K>
where
    R: Threads + Wait + Sync,
    D: Disk + Send + Drop,
    P: Openers<S, K> + Send + Drop,
    S: Source + Send + Drop,
    K: Sink + Send + Drop,
    T: Sink,
    requires some { 1 ≤ write_buffers }
    requires at_most { write_buffers ≤ most_write_buffers }
    requires clients { 0 < length openers.items }
    requires few { length openers.items ≤ most_clients }
    ensures { EndsSharing (AreServed P.Openers S.left S.faults K.written K.faults openers.items result.clients.items) result.status write_buffers
        (D.state disk) (D.state result.disk) (ends_of result.clients.items) (T.written sink.old) (T.written sink.new) (T.faults sink.old) (T.faults sink.new) }
{
    journals_are_taken_from_logs::<D>();
    unopened_logs_are_told::<D>();
    let manager = match Manager::load(alloc, disk, write_buffers) {
        Ok(manager) => manager,
        Err(LoadRefused { disk, cause }) => {
            return unserved(alloc, refused(alloc, sink, cause), disk);
        }
    };
    manager.stored();
    match share(rt, alloc, manager, openers) {
        Ok(
            Shared {
                manager,
                clients,
                ..
            },
        ) => {
            manager.stored();
            ShareOutcome {
                status: end_status(&manager, &clients),
                disk: manager.close(),
                clients,
            }
        }
        Err(ShareRefused { manager, .. }) => unserved(alloc, NO_MEMORY, manager.close()),
    }
}

/// What makes of a client's paths what opens them.
pub trait PathOpeners<P> {
    /// This was made of a client's number and its paths.
    ghost makes: { Self → ℕ → Paths → P → Type 0 };

    /// What opens the paths of the client of this number. Nothing is opened yet.
    fn openers(&self, client: u16, paths: &PathPair) -> Result<P, AllocError>
        ensures { IfOk result (λ openers. makes self.now client (paths_of paths.now) openers) };
}

// Adds what opens the paths of clients, of which the first has this number.
fn push_openers<M: PathOpeners<P>, P: Drop>(
    maker: &M,
    client: u16,
    clients: &[PathPair],
    openers: &mut Vec<P>,
) -> Result<(), AllocError>
    requires { client + length clients.now ≤ 65 }
    ensures { OnOk result (AddsOpeners (M.makes maker.now) client (map paths_of clients.now) openers.old.items openers.new.items) }
{
    let Some((paths, others)) = clients.split_first() else {
        return Ok(());
    };
    openers.push(maker.openers(client, paths)?)?;
    push_openers(maker, client + 1, others, openers)
}

// What opens the paths of clients, numbered from 1.
fn openers_of<M: PathOpeners<P>, P: Drop>(
    alloc: Global,
    maker: &M,
    clients: &[PathPair],
) -> Result<Vec<P>, AllocError>
    requires { length clients.now ≤ most_clients }
    ensures { IfOk result (λ openers. AreOpeners (M.makes maker.now) 1 (map paths_of clients.now) openers.items) }
{
    let mut openers = Vec::new(alloc);
    push_openers(maker, 1, clients, &mut openers)?;
    Ok(openers)
}

// Opens the log, and serves the clients that were asked for.
fn share_asked<R, D, M, P, S, K, T>(
    rt: &R,
    alloc: Global,
    share: &ShareWords,
    maker: &M,
    sink: &mut T,
    disk: D,
) -> ShareOutcome<D, P, S, K>
where
    R: Threads + Wait + Sync,
    D: Disk + Send + Drop,
    M: PathOpeners<P>,
    P: Openers<S, K> + Send + Drop,
    S: Source + Send + Drop,
    K: Sink + Send + Drop,
    T: Sink,
    requires { IsInRange share.now }
    ensures { EndsSharing (AreServedAt (M.makes maker.now) P.Openers S.left S.faults K.written K.faults (asked_of share.now).clients result.clients.items) result.status
        (asked_of share.now).buffers (D.state disk) (D.state result.disk) (ends_of result.clients.items) (T.written sink.old) (T.written sink.new)
        (T.faults sink.old) (T.faults sink.new) }
{
    memory_runs_out_at_once::<D>();
    match openers_of(alloc, maker, &share.clients) {
        Ok(openers) => share_log(rt, alloc, share.write_buffers, openers, sink, disk),
        Err(_) => unserved(alloc, NO_MEMORY, disk),
    }
}

/// Runs `share` with the words after FOLDER: it opens the log with the write buffers that they ask for, and serves a client for each two of the paths, by what
/// the maker makes of them. Words that don't ask for it are answered as by `run`, and nothing is opened.
pub fn run_share<R, D, M, P, S, K, T>(
    rt: &R,
    alloc: Global,
    words: &[String],
    maker: &M,
    sink: &mut T,
    disk: D,
) -> ShareOutcome<D, P, S, K>
where
    R: Threads + Wait + Sync,
    D: Disk + Send + Drop,
    M: PathOpeners<P>,
    P: Openers<S, K> + Send + Drop,
    S: Source + Send + Drop,
    K: Sink + Send + Drop,
    T: Sink,
    ensures shares { (asked : Asked) → share_of (map string_bytes words.now) ≡ Some asked
        → EndsSharing (AreServedAt (M.makes maker.now) P.Openers S.left S.faults K.written K.faults asked.clients result.clients.items) result.status asked.buffers
        (D.state disk) (D.state result.disk) (ends_of result.clients.items) (T.written sink.old) (T.written sink.new) (T.faults sink.old) (T.faults sink.new) }
    ensures usage { share_of (map string_bytes words.now) ≡ None
        → EndsByUsage result.status (T.written sink.old) (T.written sink.new) (T.faults sink.old) (T.faults sink.new) }
    ensures untouched { share_of (map string_bytes words.now) ≡ None → (result.disk ≡ disk) × (result.clients.items ≡ []) }
{
    match read_share(alloc, words) {
        Ok(share) => share_asked(rt, alloc, &share, maker, sink, disk),
        Err(WordsRefusal::Usage) => {
            let line =
                b"usage: clfs FOLDER format, serve, race, trial, crew, check, txn, archive, restore or crowd\n";
            unserved(alloc, printed(sink, line, USAGE), disk)
        }
        Err(WordsRefusal::NoMemory) => unserved(alloc, NO_MEMORY, disk),
    }
}
