// Bytes of a log's files as the disk has them, for who copies the files while the log is open. Nothing is judged, and nothing is kept.
//
// A fault breaks the log, as in each other call; so what a broken log's files hold is asked of the disk alone, after `close`.
ghost use Rattle.std.specs.Prelude.{◌≡◌, ◌≤◌, ℕ, true, false, length, take, drop, Err, IfOk, IfErr, IsErrOf};
ghost use Rattle.clfs_disk.specs.Files.{Unchanged, found_count};
ghost use Rattle.clfs_disk.specs.State.{TellsContents, IsSteady, Passes, Rises};
ghost use Rattle.clfs_manager.specs.Machine.{reopens, with_broken};
ghost use Rattle.clfs_model.specs.declared.refusal.Refusal.TheVariants as refusals;
ghost use Rattle.clfs_manager.specs.Crashes.{CrashSurvives};

use crate::manager::Manager;
use clfs_disk::Disk;
use clfs_laws::{steps_keep_a_state_storable, steps_keep_a_state_valid};
use clfs_model::Refusal;

impl<D: Disk> Manager<D> {
    /// Gives the bytes that a file of the log has from byte `at` on, all that `out` has room for, and answers how many. File 0 is the base file, and
    /// file n that of the container that the base file lists so. It is no call of a client, and takes no memory.
    ///
    /// Refused in this order: `Broken`, `DiskFault`.
    pub fn read_raw(&mut self, file: u16, at: u64, out: &mut [u8]) -> Result<usize, Refusal>
        requires file { file ≤ 256 }

        // No more than there is room for, and where the disk tells what its files hold, as many as the file has there, and these.
        ensures count { IfOk result (λ n. n ≤ length out.old) }
        ensures found { IfOk result (λ n. TellsContents (D.state self.old.1)
            → (n ≡ found_count ((D.state self.old.1).files file) at (length out.old))
            × (take n out.new ≡ take n (drop at ((D.state self.old.1).files file)))) }

        // A broken log reads nothing. Else a refusal is a fault, which breaks the log.
        ensures stopped { self.old.0.broken ≡ true → (result ≡ Err refusals.Broken) × (self.new ≡ self.old) }
        ensures state { IfOk result (λ _. self.new.0 ≡ self.old.0) }
        ensures refused { self.old.0.broken ≡ false → IfErr result (λ refusal. (refusal ≡ refusals.DiskFault) × (self.new.0 ≡ with_broken self.old.0)) }

        // The disk is read at most, and no file changes.
        ensures same { Unchanged (D.state self.old.1).files (D.state self.new.1).files }
        ensures time { Passes Unchanged (D.state self.old.1) (D.state self.new.1) }

        // A fault is told only where the disk failed in the call, and never over a steady disk.
        ensures cause { IsErrOf result refusals.DiskFault → Rises (D.state self.old.1).faults (D.state self.new.1).faults }
        ensures steady { IsSteady (D.state self.old.1) → (IsErrOf result refusals.DiskFault → ⊥)
            × ((D.state self.new.1).faults ≡ (D.state self.old.1).faults) }

        // A crash in it leaves what one leaves while the log is opened again: the flushed part of its state.
        ensures moments { (client : ℕ) → CrashSurvives (reopens client) self.old.0 (D.state self.old.1) (D.state self.new.1) }
    {
        self.stored();
        if self.log.broken {
            return Err(Refusal::Broken);
        }
        steps_keep_a_state_valid();
        steps_keep_a_state_storable();
        match self.disk.read(file, at, out) {
            Ok(count) => Ok(count),
            Err(_) => {
                self.log.break_log();
                Err(Refusal::DiskFault)
            }
        }
    }
}
