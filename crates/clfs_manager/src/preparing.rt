// What comes before a record is put into the log: all memory that this wants is taken, and then the log grows for the call, where it is to. So want of
// memory leaves the log as it was.
ghost use Rattle.std.specs.Prelude.{◌≡◌, ◌<◌, ◌^◌, IfErr, IsErrOf, IsSome, OnOk, false};
ghost use Rattle.clfs_manager.specs.Machine.{cut, grown, grows, Request, State, stream_at, Survives};
ghost use Rattle.clfs_manager.specs.Copying.{CountsFiles};
ghost use Rattle.clfs_manager.specs.Crashes.{CrashLeavesSurvivor};
ghost use Rattle.clfs_manager.specs.Fetching.{IsLeft};
ghost use Rattle.clfs_manager.specs.Preparing.{LeavesOf};
ghost use Rattle.clfs_manager.specs.Putting.{HasMemory};
ghost use Rattle.clfs_manager.specs.Written.{IsIntact, WritesDisk};

use crate::log::Log;
use clfs_disk::Disk;
use clfs_model::Refusal;
use clfs_physical::PhysicalRefusal;
use clfs_recover::logs_are_copies_and_blocks;

impl Log {
    // Takes all memory for a record of the stream of this number, and then grows the log for a call that needs so many sectors.
    // Out of memory changes nothing; after a fault the log is broken.
    pub fn prepare<D: Disk>(&mut self, disk: &mut D, stream: u16, need: u32) -> Result<(), Refusal>
        requires intact { IsIntact (D.state disk.old) self.old }
        requires there { IsSome (stream_at self.old.state.value stream) }
        requires need { need < 2 ^ 31 }
        ensures state { OnOk result (self.new.state.value ≡ grown self.old.state.value need) }
        ensures intact { OnOk result (IsIntact (D.state disk.new) self.new) }
        ensures areas { OnOk result (self.new.areas ≡ self.old.areas) }
        ensures memory { OnOk result (HasMemory stream self.new) }
        ensures refused { IfErr result (λ refusal. LeavesOf refusal self.old.state.value self.new.state.value) }
        ensures left { IsLeft (D.state disk.new) self.new }
        ensures quiet { grows self.old.state.value need ≡ false → (IsErrOf result Refusal.DiskFault → ⊥) × (disk.new ≡ disk.old) }
        ensures writes { WritesDisk (IsErrOf result Refusal.DiskFault) (D.state disk.old) (D.state disk.new) }
        ensures moments { (asked : Request) (s : State) → Survives asked s (cut self.old.state.value)
            → Survives asked s (cut (grown self.old.state.value need)) → CrashLeavesSurvivor asked s (D.state disk.old) (D.state disk.new) }
        ensures no_memory { IsErrOf result Refusal.NoMemory → (asked : Request) (s : State) → Survives asked s (cut self.old.state.value)
            → CrashLeavesSurvivor asked s (D.state disk.old) (D.state disk.new) }
        ensures files { (IsErrOf result Refusal.DiskFault → ⊥) → CountsFiles (D.state disk.old) (D.state disk.new) self.old self.new }
    {
        logs_are_copies_and_blocks();
        self.take_memory(stream)?;
        match self.grow(disk, need) {
            Ok(()) => Ok(()),
            Err(PhysicalRefusal::NoMemory) => Err(Refusal::NoMemory),
            Err(PhysicalRefusal::DiskFault) => Err(Refusal::DiskFault),
        }
    }
}
