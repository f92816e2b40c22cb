// What the tests begin with, a log with one stream that is shared among clients, and what they end with, its journal.
ghost use Rattle.std.specs.Prelude.{◌≡◌, ◌<◌, ◌≤◌, ℕ, [], ◌∷◌, true, length, vec_len, vec_capacity, map, All, IfSome};
ghost use Rattle.clfs_shared.specs.Sessions.{IsOf};
ghost use Rattle.clfs_turn.specs.Lists.{are_distinct, is_in};

use clfs_disk::{Disk, Fuse, Memory};
use clfs_lsn::Shape;
use clfs_manager::Manager;
use clfs_model::{Call, Journal, Reply};
use clfs_shared::{Closed, Session, SharedLog, StartRefused};
use std::alloc::Global;

/// Blocks of two sectors, in containers of eight.
const SHAPE: Shape = Shape {
    block_sectors: 2,
    container_sectors: 8,
};

// A disk with a new log of four containers.
fn formatted(alloc: Global) -> Option<Memory> {
    let disk = Memory::new(alloc, 128, 65536, &[]).ok()?;
    Manager::format(alloc, disk, SHAPE, 4, false).ok()
}

// A new log, opened over a disk that passes so many calls from then on; none, if the log isn't opened by them.
fn log_over(alloc: Global, passes: u64) -> Option<Manager<Fuse<Memory>>> {
    let disk = Fuse::new(formatted(alloc)?, passes);
    Manager::load(alloc, disk, 4).ok()
}

/// How many calls a disk passes that doesn't fail in these tests.
pub(crate) const ALL: u64 = 1024;

/// A log that is shared, and a session for each of its clients.
pub(crate) type Shared = (SharedLog<Fuse<Memory>>, Vec<Session>);

// The clients that share it. The last one's session is the group's.
const CLIENTS: [u16; 3] = [3, 5, 64];

// Shares a log among three clients. None, if there is no memory: the log is closed then.
fn share<D: Disk + Drop>(alloc: Global, manager: Manager<D>) -> Option<(SharedLog<D>, Vec<Session>)>
    ensures clients { IfSome result (λ t. map (λ s. s.client) t.1.items ≡ t.0.clients) }
    ensures sessions { IfSome result (λ t. vec_len t.1 ≡ 3) }
    ensures belong { IfSome result (λ t. All (λ s. IsOf t.0 s) t.1.items) }
{
    match SharedLog::start(alloc, manager, &CLIENTS) {
        Ok(shared) => Some(shared),
        Err(StartRefused { manager }) => {
            let _disk = manager.close();
            None
        }
    }
}

/// Shares a new log among three clients, over a disk that passes so many calls from its opening on.
pub(crate) fn shared(alloc: Global, passes: u64) -> Option<Shared>
    ensures clients { IfSome result (λ t. map (λ s. s.client) t.1.items ≡ t.0.clients) }
    ensures sessions { IfSome result (λ t. vec_len t.1 ≡ 3) }
    ensures belong { IfSome result (λ t. All (λ s. IsOf t.0 s) t.1.items) }
{
    share(alloc, log_over(alloc, passes)?)
}

// The three sessions of a list.
fn triple_of(mut sessions: Vec<Session>) -> (Session, Session, Session)
    requires { vec_len sessions ≡ 3 }
    ensures { sessions.items ≡ result.0 ∷ result.1 ∷ result.2 ∷ [] }
{
    let third = sessions.pop().unwrap();
    let second = sessions.pop().unwrap();
    let first = sessions.pop().unwrap();
    (first, second, third)
}

/// The sessions of a log that has three.
pub(crate) fn three_sessions_of<D: Disk>(
    log: &SharedLog<D>,
    sessions: Vec<Session>,
) -> (Session, Session, Session)
    requires three { vec_len sessions ≡ 3 }
    requires log { All (λ s. IsOf log.now s) sessions.items }
    requires clients { map (λ s. s.client) sessions.items ≡ log.now.clients }
    ensures first { IsOf log.now result.0 }
    ensures second { IsOf log.now result.1 }
    ensures third { IsOf log.now result.2 }
    ensures clients { result.0.client ∷ result.1.client ∷ result.2.client ∷ [] ≡ log.now.clients }
{
    let _shared = log;
    triple_of(sessions)
}

/// Memory for the list of the sessions with which a log is closed.
pub(crate) fn room_for_three(alloc: Global) -> Option<Vec<Session>>
    ensures empty { IfSome result (λ room. room.items ≡ []) }
    ensures capacity { IfSome result (λ room. 3 ≤ vec_capacity room) }
{
    Vec::with_capacity(alloc, 3).ok()
}

// A list of the three sessions of a log.
fn all_three<D: Disk>(
    log: &SharedLog<D>,
    room: Vec<Session>,
    first: Session,
    second: Session,
    third: Session,
) -> Vec<Session>
    requires empty { room.items ≡ [] }
    requires capacity { 3 ≤ vec_capacity room }
    requires first { IsOf log.now first }
    requires second { IsOf log.now second }
    requires third { IsOf log.now third }
    ensures log { All (λ s. IsOf log.now s) result.items }
    ensures sessions { result.items ≡ first ∷ second ∷ third ∷ [] }
{
    let _shared = log;
    let mut sessions = room;
    sessions.push_reserved(first);
    sessions.push_reserved(second);
    sessions.push_reserved(third);
    sessions
}

// How many flushes up to an LSN the journal has that were answered, and how many in all.
fn flushes_in(journal: &Journal) -> (usize, usize) {
    let entries = journal.as_slice();
    let answered = entries
        .iter()
        .filter(|entry| matches!(entry.reply, Reply::Flushed(_)))
        .count();
    let all = entries
        .iter()
        .filter(|entry| matches!(entry.call, Call::FlushTo { .. }))
        .count();
    (answered, all)
}

// The journal of a log, which takes all its sessions.
fn journal_of<D: Disk + Drop>(log: SharedLog<D>, sessions: Vec<Session>) -> Journal
    requires log { All (λ s. IsOf log s) sessions.items }
    requires clients { map (λ s. s.client) sessions.items ≡ log.clients }
{
    let Closed { manager, journal } = log.close(sessions);
    let _disk = manager.close();
    journal
}

/// Closes a log, which takes its sessions, and answers how many flushes up to an LSN its journal has that were answered, and how many in all.
pub(crate) fn flushes_of<D: Disk + Drop>(
    log: SharedLog<D>,
    room: Vec<Session>,
    first: Session,
    second: Session,
    third: Session,
) -> (usize, usize)
    requires empty { room.items ≡ [] }
    requires capacity { 3 ≤ vec_capacity room }
    requires first { IsOf log first }
    requires second { IsOf log second }
    requires third { IsOf log third }
    requires clients { first.client ∷ second.client ∷ third.client ∷ [] ≡ log.clients }
{
    let sessions = all_three(&log, room, first, second, third);
    flushes_in(&journal_of(log, sessions))
}
