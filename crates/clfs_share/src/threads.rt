// A thread for each client. A client for which none can be made isn't served by another one's: a thread that reads for two clients would keep one of them
// waiting for the other.
ghost use Rattle.std.specs.Prelude.{◌≡◌, All, vec_capacity};
ghost use Rattle.clfs_shared.specs.Sessions.{IsOf};
ghost use Rattle.clfs_share.specs.Heard.{AreClientsOf, HasEnded, HaveEnded};

use crate::clients::Client;
use crate::service::Service;
use clfs_disk::Disk;
use clfs_shared::{SharedLog, ToldJournal};
use std::alloc::Global;
use std::snapshot::Snapshot;
use std::sync::Wait;
use std::sync::atomic::{AtomicU64, Ordering};
use std::thread;
use std::thread::{Promise, Scope, Threads};

// What a client's thread promises of the client that it gives back: this one ended.
#[derive(Drop)]
struct EndOf<C: Service>(Snapshot<Client<C>>);

impl<C: Service> Promise<Client<C>> for EndOf<C> {
    ghost use Rattle.clfs_share.specs.Heard.{HasEnded};

    ghost kept_by = { λ p client. HasEnded C.serves p.0.value client };
}

// Serves a client, unless it is the one for which no thread could be made.
fn run_client<R: Wait, D: Disk, C: Service + Drop>(
    rt: &R,
    alloc: Global,
    log: &SharedLog<D, ToldJournal>,
    without_thread: &AtomicU64,
    client: Client<C>,
) -> Client<C>
    requires { IsOf log.now client.session }
    ensures { HasEnded C.serves client result }
{
    let Client {
        session,
        mut service,
    } = client;
    if without_thread.load(Ordering::SeqCst) == session.client() as u64 {
        service.refuse(&session);
        return Client { session, service };
    }
    let session = service.serve(rt, alloc, log, session);
    Client { session, service }
}

// Starts a thread for the last client, then for those before it, and waits for all of them.
fn run_from_last<'s, E, R, D, C>(
    scope: &'s Scope<'s, E>,
    rt: &'s R,
    alloc: Global,
    log: &'s SharedLog<D, ToldJournal>,
    without_thread: &'s AtomicU64,
    clients: &mut Vec<Client<C>>,
)
where
    R: Threads + Wait + Sync,
    D: Disk + Send + Drop,
    C: Service + Send + Drop + 's,
    requires { All (λ c. IsOf log.now c.session) clients.old.items }
    ensures ended { HaveEnded C.serves clients.old.items clients.new.items }
    ensures room { vec_capacity clients.new ≡ vec_capacity clients.old }
{
    let Some(client) = clients.pop() else {
        return;
    };
    let number = client.session.client() as u64;
    let promise = EndOf(Snapshot::of(&client));
    let run = move || -> Client<C>
        requires { IsOf log.now client.session }
        ensures { HasEnded C.serves client result }
    { run_client(rt, alloc, log, without_thread, client) };
    match scope.spawn_with(promise, run) {
        Ok(thread) => {
            run_from_last(scope, rt, alloc, log, without_thread, clients);
            clients.push_reserved(thread.join(rt));
        }
        Err(error) => {
            without_thread.store(number, Ordering::SeqCst);
            let client = (error.value)();
            run_from_last(scope, rt, alloc, log, without_thread, clients);
            clients.push_reserved(client);
        }
    }
}

/// Serves all clients at the same time, each in a thread of its own, the last one's first. It returns when all of them have ended.
pub(crate) fn run_clients<R, D, C>(
    rt: &R,
    alloc: Global,
    log: &SharedLog<D, ToldJournal>,
    clients: Vec<Client<C>>,
) -> Vec<Client<C>>
where
    R: Threads + Wait + Sync,
    D: Disk + Send + Drop,
    C: Service + Send + Drop,
    requires { AreClientsOf log.now clients.items }
    ensures { HaveEnded C.serves clients.items result.items }
{
    let without_thread = AtomicU64::new(0);
    let none = &without_thread;
    thread::scope(
        thread::scope_env(),
        rt,
        move |scope| -> Vec<Client<C>>
            requires { AreClientsOf log.now clients.items }
            ensures { HaveEnded C.serves clients.items result.items }
        {
            let mut clients = clients;
            run_from_last(scope, rt, alloc, log, none, &mut clients);
            clients
        },
    )
}
