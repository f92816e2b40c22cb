// The area that the threads of a crew share, under a lock.
//
// Of a value under a lock nothing is known but what its type says. So the type says of which log the area is, by a parameter, and that of the entries
// of its session none was refused: each append that a permit covers is answered with an LSN, or there is no memory for it, which leaves no entry.
ghost use Rattle.std.specs.Prelude.{◌≡◌, ◌≤◌, OnOk, OnErr};
ghost use Rattle.clfs_engine.specs.Work.{NeverFails, IsAtWork, IsCrewRecord, HasAppended};

use clfs_area::{AreaState, LogName, Permit};
use clfs_disk::Disk;
use clfs_model::Draft;
use clfs_shared::{SharedLog, ToldJournal};
use std::alloc::AllocError;
use std::marker::PhantomData;
use std::sync::ledger::Ledger;
use std::sync::{Mutex, Wait};

/// An area of the log that `N` names.
#[derive(Drop)]
pub struct Desk<N: LogName, S: Ledger, R: Ledger> {
    /// The area.
    pub area: AreaState<S, R>,
    /// Its log's name.
    pub of: PhantomData<N>,
    ghost works: { IsAtWork N.log area },
}

impl<N: LogName, S: Ledger, R: Ledger> Desk<N, S, R> {
    // Appends a record by a permit that has a sector. An error means that there was no memory for it.
    fn append<D: Disk, W: Wait>(
        &mut self,
        rt: &W,
        log: &SharedLog<D, ToldJournal>,
        permit: &mut Permit<S, R>,
        draft: &Draft,
    ) -> Result<(), AllocError>
        requires log { log.now ≡ N.log }
        requires calm { NeverFails N.log }
        requires record { IsCrewRecord draft.now }
        requires sector { 1 ≤ permit.old.sectors }
        ensures ok { OnOk result (HasAppended permit.old permit.new 1 0) }
        ensures err { OnErr result (permit.new ≡ permit.old) }
    {
        match self.area.append(rt, log, permit, draft) {
            Ok(_) => Ok(()),
            Err(_) => Err(AllocError),
        }
    }
}

/// Appends so many records by a permit that has the sectors for them, and counts those for which there was no memory. Contracts see the two numbers
/// alone: what isn't a record of the permit is in the count.
pub fn append_records<N: LogName, S: Ledger, R: Ledger, D: Disk, W: Wait>(
    rt: &W,
    log: &SharedLog<D, ToldJournal>,
    desk: &Mutex<Desk<N, S, R>>,
    permit: &mut Permit<S, R>,
    draft: &Draft,
    count: u32,
) -> u32
    requires log { log.now ≡ N.log }
    requires calm { NeverFails N.log }
    requires record { IsCrewRecord draft.now }
    requires sectors { count ≤ permit.old.sectors }
    ensures { HasAppended permit.old permit.new count result }
{
    let mut lacked = 0;
    for _ in 0..count {
        if desk.lock(rt).append(rt, log, permit, draft).is_err() {
            lacked += 1;
        }
    }
    lacked
}
