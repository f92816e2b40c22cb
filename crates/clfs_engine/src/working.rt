// The workers of a crew: each has a permit, and they append at the same time, each in a thread of its own.
//
// A permit is cut into one for each worker before they begin, and theirs are joined when all are done. What the joined permit has is then what the
// area's books say.
ghost use Rattle.std.specs.Prelude.{◌≡◌, ◌+◌, ◌*◌, ◌≤◌, length, All, IfOk, IfSome};
ghost use Rattle.clfs_area.specs.Areas.{permit_of};
ghost use Rattle.clfs_command.specs.Command.{most_crew_threads, most_crew_records};
ghost use Rattle.clfs_engine.specs.Work.{NeverFails, IsCrewRecord, HasWorked, ready};

use crate::desk::{Desk, append_records};
use clfs_area::{LogName, Permit};
use clfs_disk::Disk;
use clfs_model::Draft;
use clfs_shared::{SharedLog, ToldJournal};
use std::alloc::{AllocError, Global};
use std::marker::Model;
use std::sync::ledger::Ledger;
use std::sync::{Mutex, Wait};
use std::thread;
use std::thread::Threads;

/// The most threads of a crew.
const MOST_THREADS: usize = 8;

/// A worker. Contracts see its permit, and how many appends there was no memory for.
#[derive(Drop)]
pub struct Worker<S: Ledger, R: Ledger> {
    permit: Permit<S, R>,
    lacked: u32,
}

impl<S: Ledger, R: Ledger> Model for Worker<S, R> {
    ghost use Rattle.clfs_engine.specs.Work.{WorkerState, worker_of};

    ghost Value = { WorkerState };

    ghost view = { λ w. worker_of w.permit w.lacked };
}

impl<S: Ledger, R: Ledger> Worker<S, R> {
    // A worker that has done nothing yet.
    fn new(permit: Permit<S, R>) -> Worker<S, R>
        ensures permit { result.permit ≡ permit }
        ensures lacked { result.lacked ≡ 0 }
    {
        Worker { permit, lacked: 0 }
    }

    /// Its permit.
    pub fn into_permit(self) -> Permit<S, R>
        ensures { result ≡ self.permit }
    {
        let Worker { permit, lacked: _ } = self;
        permit
    }

    // Appends so many records.
    fn work<N: LogName, D: Disk, W: Wait>(
        &mut self,
        rt: &W,
        log: &SharedLog<D, ToldJournal>,
        desk: &Mutex<Desk<N, S, R>>,
        draft: &Draft,
        count: u32,
    )
        requires log { log.now ≡ N.log }
        requires calm { NeverFails N.log }
        requires record { IsCrewRecord draft.now }
        requires ready { self.old ≡ ready count }
        ensures worked { HasWorked count self.new }
        ensures part { self.new.permit.parts ≡ 1 }
    {
        self.lacked = append_records(rt, log, desk, &mut self.permit, draft, count);
    }

    // Takes in another worker of the same area.
    fn join(&mut self, other: Worker<S, R>, count: u32)
        requires worked { HasWorked count self.old }
        requires other { HasWorked count other }
        requires few { self.old.permit.parts + other.permit.parts ≤ most_crew_threads }
        requires count { count ≤ most_crew_records }
        ensures worked { HasWorked count self.new }
        ensures parts { self.new.permit.parts ≡ self.old.permit.parts + other.permit.parts }
    {
        let Worker { permit, lacked } = other;
        self.permit.join(permit);
        self.lacked += lacked;
    }
}

/// Cuts a permit with the sectors for all records of a crew into one for each thread.
pub fn divided<S: Ledger, R: Ledger>(
    alloc: Global,
    mut permit: Permit<S, R>,
    threads: u32,
    count: u32,
) -> Result<Vec<Worker<S, R>>, AllocError>
    requires some { 1 ≤ threads }
    requires permit { permit ≡ permit_of (threads * count) 0 threads }
    ensures many { IfOk result (λ workers. length workers.items ≡ threads) }
    ensures ready { IfOk result (λ workers. All (λ worker. worker ≡ ready count) workers.items) }
{
    let mut workers = Vec::new(alloc);
    for _ in 1..threads {
        workers.push(Worker::new(permit.split(count, 1)))?;
    }
    workers.push(Worker::new(permit))?;
    Ok(workers)
}

/// Lets all workers append at the same time, so many records each. Where a thread can't be started another one does its work.
pub fn run_workers<N, S, R, D, W>(
    rt: &W,
    log: &SharedLog<D, ToldJournal>,
    desk: &Mutex<Desk<N, S, R>>,
    workers: &mut Vec<Worker<S, R>>,
    draft: &Draft,
    count: u32,
)
where
    N: LogName + Send + Sync,
    S: Ledger + Send + Sync,
    R: Ledger + Send + Sync,
    D: Disk + Send + Drop,
    W: Threads + Wait + Sync,
    requires log { log.now ≡ N.log }
    requires calm { NeverFails N.log }
    requires record { IsCrewRecord draft.now }
    requires ready { All (λ worker. worker ≡ ready count) workers.old.items }
    ensures many { length workers.new.items ≡ length workers.old.items }
    ensures worked { All (λ worker. HasWorked count worker × (worker.permit.parts ≡ 1)) workers.new.items }
{
    thread::for_each_mut(
        rt,
        workers,
        MOST_THREADS,
        &|_place, worker| { worker.work(rt, log, desk, draft, count) },
    );
}

/// Joins workers that are done into one.
pub fn joined<S: Ledger, R: Ledger>(
    mut workers: Vec<Worker<S, R>>,
    count: u32,
) -> Option<Worker<S, R>>
    requires few { length workers.items ≤ most_crew_threads }
    requires count { count ≤ most_crew_records }
    requires worked { All (λ worker. HasWorked count worker × (worker.permit.parts ≡ 1)) workers.items }
    ensures worked { IfSome result (HasWorked count) }
    ensures parts { IfSome result (λ worker. worker.permit.parts ≡ length workers.items) }
{
    let mut all = workers.pop()?;
    while let Some(worker) = workers.pop() {
        all.join(worker, count);
    }
    Some(all)
}
