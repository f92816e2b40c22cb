// The clients of a race, each in a thread of its own: every one makes its calls in order, and stops at the first that memory was lacking for.
ghost use Rattle.std.specs.Prelude.{◌≡◌, ◌<◌, ℕ, [], ◌∷◌, ◌++◌, true, false, length, All, slice_index_or};
ghost use Rattle.clfs_model.specs.Conditions.{HasArguments};
ghost use Rattle.clfs_model.specs.declared.call.Call.{Call};
ghost use Rattle.clfs_model.specs.Journals.{ClientScript};
ghost use Rattle.clfs_race.specs.Divided.{HasAllArguments};
ghost use Rattle.clfs_shared.specs.Journal.{is_out_of_memory};
ghost use Rattle.clfs_shared.specs.Sessions.{SessionState, own_entries, IsOf};
ghost use Rattle.clfs_turn.specs.Seats.{IsSameSeat};
ghost use Rattle.clfs_operations.specs.Made.{calls_of, HasMadeSome};

use clfs_disk::Disk;
use clfs_model::{Call, Refusal, Reply};
use clfs_race::{ClientCalls, Gate};
use clfs_shared::{Session, SharedLog};
use std::sync::Wait;
use std::thread;
use std::thread::Threads;

/// The most threads of a race: one for each client that there can be.
const MOST_THREADS: usize = 64;

// Whether memory ran out.
fn is_out_of_memory(reply: &Reply) -> bool
    ensures { result ≡ is_out_of_memory reply.now }
{
    matches!(reply, Reply::Refused(Refusal::NoMemory))
}

// One call, within the gate. The answer is whether it was made.
fn pass<D: Disk, G: Gate, R: Wait>(
    rt: &R,
    log: &SharedLog<D>,
    gate: &G,
    session: &mut Session,
    call: &Call,
    number: u64,
) -> bool
    requires log { IsOf log.now session.old }
    requires arguments { HasArguments call.now }
    ensures same { IsSameSeat session.old session.new }
    ensures made { result ≡ true → calls_of (own_entries session.new) ≡ calls_of (own_entries session.old) ++ call.now ∷ [] }
    ensures none { result ≡ false → own_entries session.new ≡ own_entries session.old }
{
    let client = session.client();
    gate.before(client, number);
    let reply = log.step(rt, session, call);
    gate.after(client, number);
    !is_out_of_memory(&reply)
}

// Makes a client's calls in order, up to the first that memory was lacking for.
fn make_calls<D: Disk, G: Gate, R: Wait>(
    rt: &R,
    log: &SharedLog<D>,
    gate: &G,
    session: &mut Session,
    calls: &[Call],
)
    requires log { IsOf log.now session.old }
    requires arguments { All HasArguments calls.now }
    ensures { HasMadeSome session.old session.new calls.now }
{
    for i in 0..calls.len() {
        if !pass(rt, log, gate, session, &calls[i], i as u64 + 1) {
            return;
        }
    }
}

// Makes the calls of the session's script.
fn run_client<D: Disk, G: Gate, R: Wait>(
    rt: &R,
    log: &SharedLog<D>,
    gate: &G,
    session: &mut Session,
    scripts: &[ClientCalls],
    place: usize,
)
    requires log { IsOf log.now session.old }
    requires arguments { All HasAllArguments scripts.now }
    requires place { place < length scripts.now }
    ensures { (script : ClientScript) → HasMadeSome session.old session.new (slice_index_or scripts.now place script).calls }
{
    make_calls(rt, log, gate, session, scripts[place].calls())
}

/// Makes all clients' calls at the same time: those of each client in order. Where a thread can't be started another one does its work.
pub fn run_clients<D: Disk + Send + Drop, G: Gate + Sync, R: Threads + Wait + Sync>(
    rt: &R,
    log: &SharedLog<D>,
    gate: &G,
    sessions: &mut Vec<Session>,
    scripts: &[ClientCalls],
)
    requires log { All (λ s. IsOf log.now s) sessions.old.items }
    requires arguments { All HasAllArguments scripts.now }
    requires many { length sessions.old.items ≡ length scripts.now }
    ensures many { length sessions.new.items ≡ length sessions.old.items }
    ensures made { (i : ℕ) (s : SessionState) (script : ClientScript) → i < length scripts.now
        → HasMadeSome (slice_index_or sessions.old.items i s) (slice_index_or sessions.new.items i s) (slice_index_or scripts.now i script).calls }
{
    thread::for_each_mut(
        rt,
        sessions,
        MOST_THREADS,
        &|place, session| { run_client(rt, log, gate, session, scripts, place) },
    );
}
