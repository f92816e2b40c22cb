// The size of the log, in containers: what a client asks for, and growth for a call that needs sectors. Files that aren't there are made and synced, and
// then the base copy that follows the newest one counts them, with the containers from the hold's on: so a crash leaves the old size or the new one.
// Making files takes memory; where it fails, and where the size stays, the log is as before.
ghost use Rattle.std.specs.Prelude.{◌≡◌, ◌<◌, ◌^◌, ℕ, true, false, IsOk, OnOk};
ghost use Rattle.clfs_model.specs.declared.call.Call.TheVariants as calls;
ghost use Rattle.clfs_model.specs.declared.reply.Reply.TheVariants as replies;
ghost use Rattle.clfs_manager.specs.Machine.{calls_disk, grown, grows, IsValid, with_containers};
ghost use Rattle.clfs_manager.specs.Calls.{WritesAs};
ghost use Rattle.clfs_manager.specs.Sizes.{ResizesLog};
ghost use Rattle.clfs_manager.specs.Written.{IsIntact, CopyIsCurrent, IsCurrent};

use crate::log::Log;
use crate::manager::Manager;
use crate::survivors::calls_follow_laws;
use clfs_disk::Disk;
use clfs_laws::steps_keep_a_state_valid;
use clfs_model::{Refusal, State, ways_of_a_step};
use clfs_physical::PhysicalRefusal;
use clfs_recover::{
    logs_are_copies_and_blocks, low_containers_are_left_out, settings_leave_the_records,
};
use clfs_told::Told;

// The state with so many containers.
fn with_containers(state: &Told<State>, containers: u32) -> Told<State>
    ensures { result.value ≡ with_containers containers state.now.value }
{
    state.next(&containers)
}

impl Log {
    // The log has so many containers from now on, more or fewer, on the disk too. After a fault it is broken.
    pub fn resize<D: Disk>(&mut self, disk: &mut D, containers: u32) -> Result<(), PhysicalRefusal>
        requires intact { IsIntact (D.state disk.old) self.old }
        requires valid { IsValid (with_containers containers self.old.state.value) }
        ensures change { ResizesLog result (with_containers containers self.old.state.value) (D.state disk.old) (D.state disk.new) self.old self.new }
        ensures current { OnOk result (IsCurrent self.new.physical.image) }
    {
        settings_leave_the_records();
        low_containers_are_left_out();
        logs_are_copies_and_blocks();
        let _newest = self.physical.image();
        let first = self.hold().container();
        match self.physical.set_containers(disk, first, containers as u16) {
            Ok(()) => {
                self.state = with_containers(&self.state, containers);
                Ok(())
            }
            Err(PhysicalRefusal::DiskFault) => {
                self.break_log();
                Err(PhysicalRefusal::DiskFault)
            }
            Err(PhysicalRefusal::NoMemory) => Err(PhysicalRefusal::NoMemory),
        }
    }

    // The log grows for a call that needs so many sectors, where it is to. After a fault it is broken.
    pub fn grow<D: Disk>(&mut self, disk: &mut D, need: u32) -> Result<(), PhysicalRefusal>
        requires intact { IsIntact (D.state disk.old) self.old }
        requires need { need < 2 ^ 31 }
        ensures change { ResizesLog result (grown self.old.state.value need) (D.state disk.old) (D.state disk.new) self.old self.new }
        ensures quiet { grows self.old.state.value need ≡ false → IsOk result × ((self.new ≡ self.old) × (disk.new ≡ disk.old)) }
    {
        steps_keep_a_state_valid();
        ways_of_a_step();
        logs_are_copies_and_blocks();
        if !self.policies.automatic {
            return Ok(());
        }
        let room = self.space().room_for(need);
        if room.containers == self.containers() {
            return Ok(());
        }
        self.resize(disk, room.containers)
    }
}

impl<D: Disk> Manager<D> {
    /// Gives the log so many containers, more or fewer than it has, on the disk too, and answers the number. Where it has so many nothing changes, and
    /// the disk isn't called.
    ///
    /// It is refused where it is to grow past its limit, and where it is to shrink to fewer containers than it needs.
    pub fn set_size(&mut self, containers: u32) -> Result<u32, Refusal>
        ensures call { (client : ℕ) → WritesAs D.state client (calls.SetSize containers) replies.Containers result self.old self.new }
        ensures quiet { calls_disk self.old.0 (calls.SetSize containers) ≡ false → self.new.1 ≡ self.old.1 }
        ensures current { calls_disk self.old.0 (calls.SetSize containers) ≡ true → CopyIsCurrent result (D.state self.new.1) }
    {
        calls_follow_laws();
        if self.log.broken {
            return Err(Refusal::Broken);
        }
        if let Some(refusal) = self.log.space().size_refusal(containers) {
            return Err(refusal);
        }
        if containers == self.log.containers() {
            return Ok(containers);
        }
        match self.log.resize(&mut self.disk, containers) {
            Ok(()) => Ok(containers),
            Err(PhysicalRefusal::DiskFault) => Err(Refusal::DiskFault),
            Err(PhysicalRefusal::NoMemory) => Err(Refusal::NoMemory),
        }
    }
}
