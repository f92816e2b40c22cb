// The disk: what the files read, and the plan of the calls that were made of them.
ghost use Rattle.std.specs.Prelude.{◌≡◌, ◌+◌, ◌≤◌, ◌∷◌, ◌++◌, ℕ, [], length, map, drop, slice_get, Some, None, IfSome, IfOk, IfErr, OnOk, OnErr};
ghost use Rattle.clfs_disk.specs.Calls.{Reads, Writes, Grows, Syncs};
ghost use Rattle.clfs_disk.specs.Files.{Unchanged};
ghost use Rattle.clfs_disk.specs.State.{IsSettled};
ghost use Rattle.clfs_planned.specs.Calls.{call_of, calls_of};
ghost use Rattle.clfs_planned.specs.Contents.{bytes_of, contents_of};
ghost use Rattle.clfs_planned.specs.Moments.{HoldsFiles, noted};
ghost use Rattle.clfs_planned.specs.declared.call.Call.TheVariants as calls;

use crate::call::{PlannedCall, planned_write};
use crate::contents::Contents;
use crate::plan::{Plan, Unplanned};
use clfs_carried::Carried;
use clfs_disk::{Disk, Failed, GrowRefusal};
use std::alloc::Global;

/// A disk that makes no call itself. It tells what its files hold, and what a crash leaves of a disk on which so many of its calls were carried out.
///
/// It fails by itself only in a write past its file's end, and where memory for a planned call is wanting: a growth tells that, a write and a sync can
/// only tell a fault.
#[derive(Drop)]
pub struct Planned {
    alloc: Global,
    files: Vec<Contents>,
    plan: Plan,
    calls: u64,
    faults: u64,
    ghost count: { length files.items ≡ 257 },
    ghost holds: { HoldsFiles plan.past.value (contents_of files.items) },
}

impl Planned {
    ghost use Rattle.clfs_planned.specs.Shown.{shown, past_of, plan_of};

    /// A disk whose files hold this, on which nothing is pending. No call is planned.
    pub fn new(alloc: Global, files: Vec<Contents>) -> Planned
        requires { length files.items ≡ 257 }
        ensures files { Unchanged (contents_of files.items) (shown result).files }
        ensures start { (past_of result).start ≡ map bytes_of files.items }
        ensures none { (past_of result).calls ≡ [] }
        ensures settled { IsSettled (shown result) }
        ensures calls { (shown result).calls ≡ 0 }
        ensures faults { (shown result).faults ≡ 0 }
    {
        let plan = Plan::new(alloc, &files);
        Planned {
            alloc,
            files,
            plan,
            calls: 0,
            faults: 0,
        }
    }

    /// The number of calls that were planned since the beginning: once so many were carried out, all that was answered so far is on the disk where they
    /// were.
    pub fn number(&self) -> u64
        ensures { result ≡ (shown self.now).clock }
    {
        self.plan.number()
    }

    /// How many of them were carried out.
    pub fn carried_out(&self) -> u64
        ensures number { result + length (plan_of self.now) ≡ (shown self.now).clock }
        ensures plan { plan_of self.now ≡ drop result (past_of self.now).calls }
    {
        self.plan.carried_out()
    }

    /// The call that is to be carried out next, if one waits.
    pub fn first(&self) -> Option<&PlannedCall>
        ensures first { IfSome result (λ call. slice_get (plan_of self.now) 0 ≡ Some (call_of call.now)) }
        ensures none { result ≡ None → plan_of self.now ≡ [] }
    {
        self.plan.first()
    }
}

// Takes the memory for a write and plans it. The file holds what it held.
fn plan_write(
    contents: &mut Contents,
    plan: &mut Plan,
    alloc: Global,
    file: u16,
    at: u64,
    bytes: &[u8],
) -> Result<(), Unplanned>
    ensures same { bytes_of contents.new ≡ bytes_of contents.old }
    ensures range { OnOk result (at + length bytes.now ≤ length (bytes_of contents.old)) }
    ensures room { OnOk result (at + length bytes.now ≤ length contents.new.front.items) }
    ensures noted { OnOk result (plan.new.past.value ≡ noted (calls.Write file at bytes.now) plan.old.past.value) }
    ensures planned { OnOk result (calls_of plan.new.waiting.items ≡ calls_of plan.old.waiting.items ++ calls.Write file at bytes.now ∷ []) }
    ensures past { OnErr result (plan.new.past ≡ plan.old.past) }
    ensures waiting { OnErr result (plan.new.waiting.items ≡ plan.old.waiting.items) }
{
    if !contents.has_range(at, bytes.len()) {
        return Err(Unplanned);
    }
    contents.make_room(at, bytes.len())?;
    let call = planned_write(alloc, file, at, bytes)?;
    plan.add(call)
}

impl Disk for Planned {
    ghost use Rattle.clfs_planned.specs.Images.{reads_as_image_of};
    ghost use Rattle.clfs_planned.specs.Shown.{shown, Plans, KeepsPlan};

    ghost state = { shown };

    ghost reads_as_image = { λ disk honest. reads_as_image_of disk.plan.past.value (contents_of disk.files.items) disk.holds };

    /// Reads at once, and plans nothing. It never fails.
    fn read(&mut self, file: u16, at: u64, out: &mut [u8]) -> Result<usize, Failed>
        requires { file ≤ 256 }
        ensures call { Reads file at out.old out.new result (shown self.old) (shown self.new) }
        ensures plan { KeepsPlan self.old self.new }
    {
        self.calls = self.calls.saturating_add(1);
        Ok(self.files[file as usize].read_at(at, out))
    }

    /// Plans the write. Where it fails no file changes, and nothing is planned.
    fn write(&mut self, file: u16, at: u64, bytes: &[u8]) -> Result<(), Failed>
        requires { file ≤ 256 }
        ensures call { Writes file at bytes.now result (shown self.old) (shown self.new) }
        ensures planned { OnOk result (Plans (calls.Write file at bytes.now) self.old self.new) }
        ensures same { OnErr result (Unchanged (shown self.old).files (shown self.new).files) }
        ensures plan { OnErr result (KeepsPlan self.old self.new) }
    {
        self.calls = self.calls.saturating_add(1);
        let contents = &mut self.files[file as usize];
        if plan_write(contents, &mut self.plan, self.alloc, file, at, bytes).is_err() {
            self.faults = self.faults.saturating_add(1);
            return Err(Failed);
        }
        contents.overwrite(at, bytes);
        Ok(())
    }

    /// Plans the growth. It never tells a fault.
    fn grow(&mut self, file: u16, len: u64) -> Result<(), GrowRefusal>
        requires { file ≤ 256 }
        ensures call { Grows file len result (shown self.old) (shown self.new) }
        ensures planned { OnOk result (Plans (calls.Grow file len) self.old self.new) }
        ensures memory { IfErr result (λ refusal. refusal ≡ GrowRefusal.NoMemory) }
        ensures plan { OnErr result (KeepsPlan self.old self.new) }
    {
        self.calls = self.calls.saturating_add(1);
        let call = PlannedCall::Grow { file, len };
        if self.plan.add(call).is_err() {
            return Err(GrowRefusal::NoMemory);
        }
        self.files[file as usize].grow_to(len);
        Ok(())
    }

    /// Plans the sync.
    fn sync(&mut self) -> Result<(), Failed>
        ensures call { Syncs result (shown self.old) (shown self.new) }
        ensures planned { OnOk result (Plans calls.Sync self.old self.new) }
        ensures plan { OnErr result (KeepsPlan self.old self.new) }
    {
        self.calls = self.calls.saturating_add(1);
        if self.plan.add(PlannedCall::Sync).is_err() {
            self.faults = self.faults.saturating_add(1);
            return Err(Failed);
        }
        Ok(())
    }
}

impl Carried for Planned {
    ghost use Rattle.clfs_planned.specs.Shown.{ForgetsFirst};

    ghost forgets = { ForgetsFirst };

    fn done(&mut self) {
        self.plan.forget_first();
    }
}
