// A log that several clients share, from its opening to its closing.
//
// The memory for all that is handed round is taken before the log is shared: a session that got lost on the way would keep the log from being closed.
ghost use Rattle.std.specs.Prelude.{◌≡◌, ◌<◌, ◌≤◌, ◌++◌, [], All, length, map, reverse, vec_len, vec_capacity, Some, IfOk, IfErr};
ghost use Rattle.std.specs.List.{range_with_len};
ghost use Rattle.clfs_disk.specs.State.{Later};
ghost use Rattle.clfs_lsn.specs.Limits.{most_clients};
ghost use Rattle.clfs_shared.specs.Reached.{opening_of, IsReached};
ghost use Rattle.clfs_shared.specs.Sessions.{IsOf};
ghost use Rattle.clfs_turn.specs.Seats.{IsNewSeat};
ghost use Rattle.clfs_share.specs.Heard.{AreHeard, service_of};
ghost use Rattle.clfs_share.specs.Taken.{AreTaken, IsOfClients};
ghost use Rattle.clfs_share.specs.Visited.{AreVisited};

use crate::clients::Client;
use crate::openers::Openers;
use crate::pairs::EndedClient;
use crate::service::Begins;
use crate::threads::run_clients;
use crate::visitors::Visitors;
use crate::visits::VisitedClient;
use clfs_disk::Disk;
use clfs_laws::rows_are_by_own_entries;
use clfs_manager::{DiskName, Manager};
use clfs_ports::{Sink, Source};
use clfs_shared::{Closed, Session, SharedLog, StartRefused, ToldJournal};
use std::alloc::{AllocError, Global};
use std::marker::Brand;
use std::sync::Wait;
use std::thread::Threads;

/// A log that was shared until its clients ended.
#[derive(Drop)]
pub struct Shared<D: Disk, C> {
    /// The log.
    pub manager: Manager<D>,
    /// The calls that it took, in order. They are told to contracts alone.
    pub journal: ToldJournal,
    /// The clients, in order, as they ended.
    pub clients: Vec<C>,
}

/// There was no memory to share a log. It comes back, and nothing was opened.
#[derive(Drop)]
pub struct ShareRefused<D: Disk, P> {
    /// The log.
    pub manager: Manager<D>,
    /// The clients' sources and sinks.
    pub openers: Vec<P>,
}

// The numbers of so many clients, from 1.
fn numbers(alloc: Global, count: usize) -> Result<Vec<u16>, AllocError>
    requires { count ≤ most_clients }
    ensures { IfOk result (λ numbers. numbers.items ≡ range_with_len 1 count) }
{
    let mut numbers = Vec::new(alloc);
    for number in 0..count {
        numbers.push(number as u16 + 1)?;
    }
    Ok(numbers)
}

// Memory for so many clients.
#[derive(Drop)]
struct Room<C> {
    clients: Vec<Client<C>>,
    sessions: Vec<Session>,
    ended: Vec<C>,
}

impl<C: Drop> Room<C> {
    fn new(alloc: Global, count: usize) -> Result<Room<C>, AllocError>
        ensures clients { IfOk result (λ room. (room.clients.items ≡ []) × (count ≤ vec_capacity room.clients)) }
        ensures sessions { IfOk result (λ room. (room.sessions.items ≡ []) × (count ≤ vec_capacity room.sessions)) }
        ensures ended { IfOk result (λ room. (room.ended.items ≡ []) × (count ≤ vec_capacity room.ended)) }
    {
        Ok(Room {
            clients: Vec::with_capacity(alloc, count)?,
            sessions: Vec::with_capacity(alloc, count)?,
            ended: Vec::with_capacity(alloc, count)?,
        })
    }
}

// The clients of sessions and their openers, the last one first.
fn joined<P: Drop, C: Begins<P> + Drop>(
    sessions: Vec<Session>,
    openers: Vec<P>,
    clients: Vec<Client<C>>,
) -> Vec<Client<C>>
    requires many { length sessions.items ≡ length openers.items }
    requires none { clients.items ≡ [] }
    requires room { length openers.items ≤ vec_capacity clients }
    ensures sessions { map (λ c. c.session) (reverse result.items) ≡ sessions.items }
    ensures openers { map (λ c. C.begun_by c.service) (reverse result.items) ≡ openers.items }
{
    let mut sessions = sessions;
    let mut all_openers = openers;
    let mut clients = clients;
    while let Some(session) = sessions.pop() {
        let Some(openers) = all_openers.pop() else {
            return clients;
        };
        clients.push_reserved(Client {
            session,
            service: C::begin(openers),
        });
    }
    clients
}

// Clients that have ended, apart from their sessions: the last one first.
fn parted<C: Drop>(clients: Vec<Client<C>>, sessions: &mut Vec<Session>, ended: &mut Vec<C>)
    requires none { (sessions.old.items ≡ []) × (ended.old.items ≡ []) }
    requires room { (length clients.items ≤ vec_capacity sessions.old) × (length clients.items ≤ vec_capacity ended.old) }
    ensures sessions { sessions.new.items ≡ map (λ c. c.session) (reverse clients.items) }
    ensures ended { ended.new.items ≡ map service_of (reverse clients.items) }
{
    let mut clients = clients;
    while let Some(client) = clients.pop() {
        let Client { session, service } = client;
        sessions.push_reserved(session);
        ended.push_reserved(service);
    }
}

// Serves the clients of a log that is shared among them, and closes it.
fn share_over<R, D, P, C>(
    rt: &R,
    alloc: Global,
    log: SharedLog<D, ToldJournal>,
    sessions: Vec<Session>,
    openers: Vec<P>,
    room: Room<C>,
) -> Shared<D, C>
where
    R: Threads + Wait + Sync,
    D: Disk + Send + Drop,
    P: Drop,
    C: Begins<P> + Send + Drop,
    requires new { All (λ s. IsNewSeat log s) sessions.items }
    requires log { All (λ s. IsOf log s) sessions.items }
    requires clients { (map (λ s. s.client) sessions.items ≡ log.clients) × (log.clients ≡ range_with_len 1 (length openers.items)) }
    requires room { (room.clients.items ≡ []) × (length openers.items ≤ vec_capacity room.clients) }
    requires sessions { (room.sessions.items ≡ []) × (length openers.items ≤ vec_capacity room.sessions) }
    requires ended { (room.ended.items ≡ []) × (length openers.items ≤ vec_capacity room.ended) }
    ensures reached { IsReached log.opening (D.state result.manager.1) result.manager.0 result.journal }
    ensures clients { AreHeard C.begun_by C.serves log.opening result.journal 1 openers.items result.clients.items }
    ensures others { IsOfClients (length openers.items) result.journal }
{
    let Room {
        clients,
        sessions: mut back,
        mut ended,
    } = room;
    let clients = joined(sessions, openers, clients);
    let clients = run_clients(rt, alloc, &log, clients);
    parted(clients, &mut back, &mut ended);
    let Closed { manager, journal } = log.close(back);
    Shared {
        manager,
        journal,
        clients: ended,
    }
}

// Shares a log among clients, and serves each. Under the lock the disk is one that came of the named one.
fn share_followed<R, D, P, C, N>(
    rt: &R,
    alloc: Global,
    manager: Manager<D>,
    openers: Vec<P>,
) -> Result<Shared<D, C>, ShareRefused<D, P>>
where
    R: Threads + Wait + Sync,
    D: Disk + Send + Drop,
    P: Drop,
    C: Begins<P> + Send + Drop,
    N: DiskName<D> + Send,
    requires begun { N.begun ≡ Some manager.1 }
    requires some { 0 < length openers.items }
    requires few { length openers.items ≤ most_clients }
    ensures reached { IfOk result (λ shared. IsReached (opening_of manager.0 (D.state manager.1)) (D.state shared.manager.1) shared.manager.0 shared.journal) }
    ensures later { IfOk result (λ shared. Later (D.state manager.1) (D.state shared.manager.1)) }
    ensures clients { IfOk result (λ shared. AreHeard C.begun_by C.serves (opening_of manager.0 (D.state manager.1)) shared.journal 1 openers.items shared.clients.items) }
    ensures others { IfOk result (λ shared. IsOfClients (length openers.items) shared.journal) }
    ensures refused { IfErr result (λ refused. (refused.manager ≡ manager) × (refused.openers ≡ openers)) }
{
    let count = openers.len();
    let Ok(numbers) = numbers(alloc, count) else {
        return Err(ShareRefused { manager, openers });
    };
    let Ok(room) = Room::new(alloc, count) else {
        return Err(ShareRefused { manager, openers });
    };
    match SharedLog::start_told(alloc, manager.followed::<N>(), &numbers) {
        Ok((log, sessions)) => {
            let Shared {
                manager,
                journal,
                clients,
            } = share_over(rt, alloc, log, sessions, openers, room);
            Ok(Shared {
                manager: manager.unfollowed(),
                journal,
                clients,
            })
        }
        Err(StartRefused { manager }) => Err(ShareRefused {
            manager: manager.unfollowed(),
            openers,
        }),
    }
}

/// Shares a log among so many clients, numbered from 1, and serves each in a thread of its own: its source and its sink are opened, its lines are answered
/// as they come, until its source ends, and then its areas are deleted. It returns when all clients have ended. An error means that there was no memory to
/// begin.
pub fn share<R, D, P, S, K>(
    rt: &R,
    alloc: Global,
    manager: Manager<D>,
    openers: Vec<P>,
) -> Result<Shared<D, EndedClient<P, S, K>>, ShareRefused<D, P>>
where
    R: Threads + Wait + Sync,
    D: Disk + Send + Drop,
    P: Openers<S, K> + Send + Drop,
    S: Source + Send + Drop,
    K: Sink + Send + Drop,
    requires some { 0 < length openers.items }
    requires few { length openers.items ≤ most_clients }

    // The calls that the log took are a legal journal from its state to that of the log that comes back. Its fields say what it tells of the disk, and what
    // a crash left at each moment.
    ensures reached { IfOk result (λ shared. IsReached (opening_of manager.0 (D.state manager.1)) (D.state shared.manager.1) shared.manager.0 shared.journal) }

    // What a crash left at the moments up to the one at which it was shared stayed as it was.
    ensures later { IfOk result (λ shared. Later (D.state manager.1) (D.state shared.manager.1)) }

    // Of each client it has the calls of its lines, in order, each with its reply, and then the deletions of its areas; its source gave these lines, and its
    // sink took these replies. The openers come back as the calls left them that this client's end has. Nobody else has made a call.
    ensures clients { IfOk result (λ shared. AreTaken P.Openers S.left S.faults K.written K.faults shared.journal shared.manager.0 1 openers.items shared.clients.items) }
    ensures others { IfOk result (λ shared. IsOfClients (length openers.items) shared.journal) }
    ensures refused { IfErr result (λ refused. (refused.manager ≡ manager) × (refused.openers ≡ openers)) }
{
    rows_are_by_own_entries();
    share_followed::<R, D, P, EndedClient<P, S, K>, Brand>(rt, alloc, manager, openers)
}

/// Shares a log among so many clients' numbers, from 1, and serves each in a thread of its own: programs come to it one after the other, each is greeted by
/// the line of its number, its lines are answered as they come, until its source ends, and then its areas are deleted, and the next one may come. It returns
/// when no more come to any number. An error means that there was no memory to begin.
pub fn share_visits<R, D, P, S, K>(
    rt: &R,
    alloc: Global,
    manager: Manager<D>,
    visitors: Vec<P>,
) -> Result<Shared<D, VisitedClient<P, S, K>>, ShareRefused<D, P>>
where
    R: Threads + Wait + Sync,
    D: Disk + Send + Drop,
    P: Visitors<S, K> + Send + Drop,
    S: Source + Send + Drop,
    K: Sink + Send + Drop,
    requires some { 0 < length visitors.items }
    requires few { length visitors.items ≤ most_clients }

    // The calls that the log took are a legal journal from its state to that of the log that comes back. Its fields say what it tells of the disk, and what
    // a crash left at each moment.
    ensures reached { IfOk result (λ shared. IsReached (opening_of manager.0 (D.state manager.1)) (D.state shared.manager.1) shared.manager.0 shared.journal) }

    // What a crash left at the moments up to the one at which it was shared stayed as it was.
    ensures later { IfOk result (λ shared. Later (D.state manager.1) (D.state shared.manager.1)) }

    // Of each number it has the calls of its visits, one visit after the other, and of each visit those of its lines, in order, each with its reply, and then
    // the deletions of its areas; the visit's source gave these lines, and its sink took the greeting and these replies. Nobody else has made a call.
    ensures clients { IfOk result (λ shared. AreVisited P.Visitors S.left S.faults K.written K.faults (D.state manager.1).nature.tells_contents manager.0 shared.journal 1 visitors.items shared.clients.items) }
    ensures others { IfOk result (λ shared. IsOfClients (length visitors.items) shared.journal) }
    ensures refused { IfErr result (λ refused. (refused.manager ≡ manager) × (refused.openers ≡ visitors)) }
{
    rows_are_by_own_entries();
    share_followed::<R, D, P, VisitedClient<P, S, K>, Brand>(rt, alloc, manager, visitors)
}
