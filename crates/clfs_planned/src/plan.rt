// The plan: the calls that are still to be carried out, and for clauses all that were planned before them.
//
// A call joins both at once, or neither, and only those that were carried out leave the first: so what waits is always the end of what was planned, and its
// numbers go on from the number of those that were done.
ghost use Rattle.std.specs.Prelude.{◌≡◌, ◌+◌, ◌<◌, ◌^◌, ◌++◌, ◌∷◌, [], length, map, drop, slice_get, Some, None, IfSome, OnOk, OnErr};
ghost use Rattle.clfs_planned.specs.Calls.{call_of, calls_of};
ghost use Rattle.clfs_planned.specs.Contents.{bytes_of};
ghost use Rattle.clfs_planned.specs.Moments.{noted};

use crate::call::{History, PlannedCall};
use crate::contents::Contents;
use clfs_told::Told;
use std::alloc::{AllocError, Global};
use std::collections::VecDeque;

// A call wasn't planned: memory for it was wanting, or no number is left.
#[derive(Drop)]
pub(crate) struct Unplanned;

impl From<AllocError> for Unplanned {
    fn from(_: AllocError) -> Unplanned {
        Unplanned
    }
}

#[derive(Drop)]
pub(crate) struct Plan {
    waiting: VecDeque<PlannedCall>,
    done: u64,
    past: Told<History>,
    ghost rest: { calls_of waiting.items ≡ drop done past.value.calls },
    ghost number: { done + length waiting.items ≡ length past.value.calls },
    ghost few: { length past.value.calls < 2 ^ 64 },
}

impl Plan {
    // No call, after files that hold this.
    pub(crate) fn new(alloc: Global, files: &[Contents]) -> Plan
        ensures start { result.past.value.start ≡ map bytes_of files.now }
        ensures calls { result.past.value.calls ≡ [] }
    {
        Plan {
            waiting: VecDeque::new(alloc),
            done: 0,
            past: begun(files),
        }
    }

    // The number of calls that were planned since the beginning.
    pub(crate) fn number(&self) -> u64
        ensures { result ≡ length self.now.past.value.calls }
    {
        self.done + self.waiting.len() as u64
    }

    // How many calls were carried out.
    pub(crate) fn carried_out(&self) -> u64
        ensures { result ≡ self.now.done }
    {
        self.done
    }

    // The call that is to be carried out next.
    pub(crate) fn first(&self) -> Option<&PlannedCall>
        ensures first { IfSome result (λ call. slice_get (calls_of self.now.waiting.items) 0 ≡ Some (call_of call.now)) }
        ensures none { result ≡ None → calls_of self.now.waiting.items ≡ [] }
    {
        self.waiting.front()
    }

    // Forgets that call, which was carried out.
    pub(crate) fn forget_first(&mut self)
        ensures past { self.new.past ≡ self.old.past }
        ensures rest { calls_of self.new.waiting.items ≡ drop 1 (calls_of self.old.waiting.items) }
    {
        if self.waiting.pop_front().is_some() {
            self.done += 1;
        }
    }

    // Puts a call behind those that wait.
    pub(crate) fn add(&mut self, call: PlannedCall) -> Result<(), Unplanned>
        ensures noted { OnOk result (self.new.past.value ≡ noted (call_of call) self.old.past.value) }
        ensures planned { OnOk result (calls_of self.new.waiting.items ≡ calls_of self.old.waiting.items ++ call_of call ∷ []) }
        ensures past { OnErr result (self.new.past ≡ self.old.past) }
        ensures waiting { OnErr result (self.new.waiting.items ≡ self.old.waiting.items) }
    {
        if self.number() == u64::MAX {
            return Err(Unplanned);
        }
        let past = with_call(&self.past, &call);
        if self.waiting.push_back(call).is_err() {
            return Err(Unplanned);
        }
        self.past = past;
        Ok(())
    }
}

fn begun(files: &[Contents]) -> Told<History>
    ensures start { result.value.start ≡ map bytes_of files.now }
    ensures calls { result.value.calls ≡ [] }
{
    Told::pick(&files)
}

fn with_call(past: &Told<History>, call: &PlannedCall) -> Told<History>
    ensures { result.value ≡ noted (call_of call.now) past.now.value }
{
    past.next(call)
}
