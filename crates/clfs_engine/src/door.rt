// A log that programs use which come and go: it is opened, then their door, and shared until no more come.
//
// That they may come is written when both are open, and before any of them is let in. Each program's lines and replies are matters of `clfs_share`. A fault of
// the disk, or damage, is told to every program in its replies, and it ends none of them.
ghost use Rattle.std.specs.Prelude.{◌≡◌, ◌⊎◌, [], length, map, if◌then◌else◌, None, Some, Err, IfOk};
ghost use Rattle.std.specs.String.{string_bytes};
ghost use Rattle.clfs_command.specs.Door.{AskedDoor, IsDoorInRange, asked_door_of, door_of};
ghost use Rattle.clfs_operations.specs.Serve.{EndsByUsage};
ghost use Rattle.clfs_share.specs.Visited.{comings_of, could_any_come};
ghost use Rattle.clfs_engine.specs.Door.{AreVisitsBy, EndsDoor};

use crate::sharing::NONE_SERVED;
use clfs_command::{DoorWords, WordsRefusal, read_door};
use clfs_disk::Disk;
use clfs_lines::{DONE, NO_MEMORY, SINK_FAULT, printed};
use clfs_manager::{LoadRefused, Manager};
use clfs_operations::{
    DISK_FAULT, USAGE, journals_are_taken_from_logs, memory_runs_out_at_once, refused,
    unopened_logs_are_told,
};
use clfs_ports::{Sink, Source};
use clfs_share::{ShareRefused, Shared, VisitedClient, Visitors, could_any_come, share_visits};
use std::alloc::Global;
use std::sync::Wait;
use std::thread::Threads;

/// How sharing a log by a door ended.
#[derive(Drop)]
pub struct DoorOutcome<D: Disk, P: Visitors<S, K>, S: Source, K: Sink> {
    /// The status.
    pub status: u8,
    /// The disk that was handed in.
    pub disk: D,
    /// The clients, in order; none if the log wasn't shared.
    pub clients: Vec<VisitedClient<P, S, K>>,
}

/// Why a door isn't open.
#[derive(Clone, Copy, Debug, PartialEq, Eq)]
pub enum DoorRefusal {
    /// It can't be opened.
    NotOpened,
    /// There is no memory.
    NoMemory,
}

/// What opens the door of a place.
pub trait Doors<P> {
    ghost use Rattle.std.specs.Prelude.{ℕ, List};
    ghost use Rattle.clfs_engine.specs.declared.door.DoorRefusal.TheVariants.{NotOpened};

    /// The door in a place of this path was opened, and those come by it.
    ghost opens: { Self → List ℕ → List P → Type 0 };

    /// The door in a place of this path can't be opened.
    ghost stays_shut: { Self → List ℕ → Type 0 };

    /// Opens the door in a place, for so many clients, and gives those who come to each.
    fn open(&self, place: &str, clients: u32) -> Result<Vec<P>, DoorRefusal>
        ensures shut { result ≡ Err NotOpened → stays_shut self.now place.now }
        ensures opens { IfOk result (λ visitors. opens self.now place.now visitors.items) }
        ensures count { IfOk result (λ visitors. length visitors.items ≡ clients) };
}

// The status when no more come: a broken log keeps nothing in memory.
fn end_status<D: Disk, P: Visitors<S, K>, S: Source, K: Sink>(
    manager: &Manager<D>,
    clients: &[VisitedClient<P, S, K>],
) -> u8
    ensures { result ≡ (if manager.now.0.broken then 4 else (if could_any_come (comings_of clients.now) then 0 else 18)) }
{
    match manager.ends_kept() {
        Some(_) if could_any_come(clients) => DONE,
        Some(_) => NONE_SERVED,
        None => DISK_FAULT,
    }
}

// The status where a door isn't open.
fn refusal_status(refusal: DoorRefusal) -> u8
    ensures { ((result ≡ 18) × (refusal ≡ DoorRefusal.NotOpened)) ⊎ (result ≡ 5) }
{
    match refusal {
        DoorRefusal::NotOpened => NONE_SERVED,
        DoorRefusal::NoMemory => NO_MEMORY,
    }
}

// A run that shared no log.
fn unshared<D: Disk + Drop, P: Visitors<S, K> + Drop, S: Source + Drop, K: Sink + Drop>(
    alloc: Global,
    status: u8,
    disk: D,
) -> DoorOutcome<D, P, S, K>
    ensures status { result.status ≡ status }
    ensures disk { result.disk ≡ disk }
    ensures clients { result.clients.items ≡ [] }
{
    DoorOutcome {
        status,
        disk,
        clients: Vec::new(alloc),
    }
}

/// Opens the log on a disk with so many write buffers, and the door in a place, says that programs may come, and serves them until no more come: so many at
/// a time, each in a thread of its client's own. It says how it ended then. No program is let in before all of this is open. The sink is told why the log
/// wasn't opened, or that programs may come, and nothing else.
pub fn share_door<R, D, M, P, S, K, T>(
    rt: &R,
    alloc: Global,
    door: &DoorWords,
    doors: &M,
    sink: &mut T,
    disk: D,
) -> DoorOutcome<D, P, S, K>
where
    R: Threads + Wait + Sync,
    D: Disk + Send + Drop,
    M: Doors<P>,
    P: Visitors<S, K> + Send + Drop,
    S: Source + Send + Drop,
    K: Sink + Send + Drop,
    T: Sink,
    requires { IsDoorInRange door.now }
    ensures { EndsDoor (M.stays_shut doors.now (asked_door_of door.now).place) (AreVisitsBy (M.opens doors.now (asked_door_of door.now).place) P.Visitors S.left S.faults K.written K.faults result.clients.items) result.status
        (asked_door_of door.now).buffers (D.state disk) (D.state result.disk) (comings_of result.clients.items) (T.written sink.old) (T.written sink.new)
        (T.faults sink.old) (T.faults sink.new) }
{
    journals_are_taken_from_logs::<D>();
    unopened_logs_are_told::<D>();
    let manager = match Manager::load(alloc, disk, door.write_buffers) {
        Ok(manager) => manager,
        Err(LoadRefused { disk, cause }) => {
            return unshared(alloc, refused(alloc, sink, cause), disk);
        }
    };
    manager.stored();
    let visitors = match doors.open(door.place.as_str(), door.clients) {
        Ok(visitors) => visitors,
        Err(refusal) => return unshared(alloc, refusal_status(refusal), manager.close()),
    };
    if printed(sink, b"ready\n", DONE) != DONE {
        return unshared(alloc, SINK_FAULT, manager.close());
    }
    match share_visits(rt, alloc, manager, visitors) {
        Ok(
            Shared {
                manager,
                clients,
                ..
            },
        ) => {
            manager.stored();
            DoorOutcome {
                status: end_status(&manager, &clients),
                disk: manager.close(),
                clients,
            }
        }
        Err(ShareRefused { manager, .. }) => unshared(alloc, NO_MEMORY, manager.close()),
    }
}

/// Runs `share` by a door with the words after FOLDER: it opens the log with the write buffers that they ask for, and the door in their place. Words that
/// don't ask for it are answered as by `run`, and nothing is opened.
pub fn run_door<R, D, M, P, S, K, T>(
    rt: &R,
    alloc: Global,
    words: &[String],
    doors: &M,
    sink: &mut T,
    disk: D,
) -> DoorOutcome<D, P, S, K>
where
    R: Threads + Wait + Sync,
    D: Disk + Send + Drop,
    M: Doors<P>,
    P: Visitors<S, K> + Send + Drop,
    S: Source + Send + Drop,
    K: Sink + Send + Drop,
    T: Sink,
    ensures shares { (asked : AskedDoor) → door_of (map string_bytes words.now) ≡ Some asked
        → EndsDoor (M.stays_shut doors.now asked.place) (AreVisitsBy (M.opens doors.now asked.place) P.Visitors S.left S.faults K.written K.faults result.clients.items) result.status asked.buffers
        (D.state disk) (D.state result.disk) (comings_of result.clients.items) (T.written sink.old) (T.written sink.new) (T.faults sink.old) (T.faults sink.new) }
    ensures usage { door_of (map string_bytes words.now) ≡ None
        → EndsByUsage result.status (T.written sink.old) (T.written sink.new) (T.faults sink.old) (T.faults sink.new) }
    ensures untouched { door_of (map string_bytes words.now) ≡ None → (result.disk ≡ disk) × (result.clients.items ≡ []) }
{
    memory_runs_out_at_once::<D>();
    match read_door(alloc, words) {
        Ok(door) => share_door(rt, alloc, &door, doors, sink, disk),
        Err(WordsRefusal::Usage) => {
            let line =
                b"usage: clfs FOLDER format, serve, race, trial, crew, check, txn, archive, restore or crowd\n";
            unshared(alloc, printed(sink, line, USAGE), disk)
        }
        Err(WordsRefusal::NoMemory) => unshared(alloc, NO_MEMORY, disk),
    }
}
