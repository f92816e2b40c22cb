// Reading the files of a log: what opening makes of them, for a log that is loaded and for one that is opened again. What isn't flushed is thrown away
// then, and so are all areas and their cursors; nothing is written.
ghost use Rattle.std.specs.Prelude.{◌≡◌, ◌≤◌, ℕ, false, true, Err, IfOk, IfErr, IsErrOf};
ghost use Rattle.clfs_disk.specs.Files.{Unchanged};
ghost use Rattle.clfs_disk.specs.State.{TellsContents, IsSteady, Passes, Rises};
ghost use Rattle.clfs_manager.specs.Machine.{cut, happened_of, most_write_buffers, reopens, ReopenStep};
ghost use Rattle.clfs_model.specs.declared.reply.Reply.TheVariants as replies;
ghost use Rattle.clfs_recover.specs.Files.{StandsFor};
ghost use Rattle.clfs_recover.specs.Opening.{IsRefused};
ghost use Rattle.clfs_recover.specs.Telling.{TellsOpening};
ghost use Rattle.clfs_manager.specs.Calls.{replied};
ghost use Rattle.clfs_manager.specs.Crashes.{CrashSurvives};
ghost use Rattle.clfs_manager.specs.Fetching.{LeavesState, OnlyReads};
ghost use Rattle.clfs_manager.specs.OnDisk.{IsManaged};
ghost use Rattle.clfs_manager.specs.Reopening.{TellsPlace, refused_as};

use crate::log::{Log, open_log};
use crate::manager::Manager;
use clfs_disk::Disk;
use clfs_laws::{
    opening_anew_comes_to_the_cut, steps_keep_a_state_storable, steps_keep_a_state_valid,
    the_holds_container_never_falls,
};
use clfs_lsn::Lsn;
use clfs_model::Refusal;
use clfs_recover::{
    LoadRefusal, copies_without_fault_fit, files_have_one_meaning, load_heads,
    logs_are_copies_and_blocks, logs_are_found_in_files, opened_copies_fit,
    opened_records_lie_in_order, opened_states_are_cut, opened_states_are_valid,
};
use std::alloc::Global;

// The log that the files of a disk are, in memory, with so many write buffers, which keeps so many blocks that are read.
pub(crate) fn read_log<D: Disk>(
    alloc: Global,
    disk: &mut D,
    write_buffers: u32,
    read_buffers: u32,
) -> Result<Log, LoadRefusal>
    requires some { 1 ≤ write_buffers }
    requires few { write_buffers ≤ most_write_buffers }
    requires reads { 1 ≤ read_buffers }
    ensures managed { IfOk result (λ log. IsManaged (D.state disk.new) log) }
    ensures loaded { IfOk result (λ log. TellsContents (D.state disk.old) → StandsFor (D.state disk.old).files log.state.value) }
    ensures buffers { IfOk result (λ log. log.state.value.buffers ≡ write_buffers) }
    ensures stable { IfOk result (λ log. cut log.state.value ≡ log.state.value) }
    ensures unbroken { IfOk result (λ log. log.broken ≡ false) }
    ensures refused { IfErr result (λ refusal. TellsContents (D.state disk.old) → IsRefused (D.state disk.old).files refusal) }
    ensures place { IfErr result TellsOpening }
    ensures same { Unchanged (D.state disk.old).files (D.state disk.new).files }
    ensures time { Passes Unchanged (D.state disk.old) (D.state disk.new) }
    ensures cause { IsErrOf result LoadRefusal.DiskFault → Rises (D.state disk.old).faults (D.state disk.new).faults }
    ensures steady { IsSteady (D.state disk.old) → (IsErrOf result LoadRefusal.DiskFault → ⊥)
        × ((D.state disk.new).faults ≡ (D.state disk.old).faults) }
{
    logs_are_found_in_files();
    logs_are_copies_and_blocks();
    copies_without_fault_fit();
    opened_states_are_valid();
    opened_states_are_cut();
    opened_copies_fit();
    opened_records_lie_in_order();
    let opened = load_heads(alloc, disk)?;
    let log = open_log(alloc, opened, write_buffers, read_buffers)?;
    Ok(log)
}

// Tells why the log wasn't opened again. Unless memory ran out, the log is broken.
fn refuse(log: &mut Log, refusal: LoadRefusal) -> Refusal
    ensures refusal { result ≡ refused_as refusal }
    ensures state { LeavesState result log.old.state.value log.new.state.value }
    ensures memory { result ≡ Refusal.NoMemory → log.new ≡ log.old }
    ensures broken { (result ≡ Refusal.NoMemory → ⊥) → log.new.broken ≡ true }
{
    match refusal {
        LoadRefusal::NoMemory => Refusal::NoMemory,
        LoadRefusal::DiskFault => {
            log.break_log();
            Refusal::DiskFault
        }
        LoadRefusal::NoBase => {
            log.break_log();
            Refusal::Damaged {
                container: 0,
                offset: 0,
                at: 0,
            }
        }
        LoadRefusal::Damaged {
            container,
            offset,
            at,
        } => {
            log.break_log();
            Refusal::Damaged {
                container,
                offset,
                at,
            }
        }
    }
}

impl<D: Disk> Manager<D> {
    /// Opens the log again, as a program that begins does: what isn't flushed is thrown away, and so are all areas and their cursors. Answers the LSN
    /// below which all records are on the disk.
    ///
    /// Refused by `Broken` first of all, and by `NoMemory`, which changes nothing. A fault of the disk, and files that aren't a log's, break the
    /// log; that no slot of the base file is open is told as damage at byte 0 of container 0.
    pub fn reopen(&mut self) -> Result<Lsn, Refusal>
        // The answer is the log machine's: over a disk that tells what its files hold the log is its flushed part then, and over another one some
        // log that has just been opened.
        ensures step { ReopenStep (D.state self.old.1).nature.tells_contents self.old.0 (happened_of (replied replies.Flushed result))
            (replied replies.Flushed result) self.new.0 }

        // No file changes. Damage is told only over a disk that doesn't tell what its files hold; a fault only where the disk failed in the call, and
        // never over a steady disk.
        ensures reads { OnlyReads result (D.state self.old.1) (D.state self.new.1) }

        // Damage is told of some bytes that fail at just that place: of a base copy, or of a block of a container that it lists.
        ensures place { IfErr result TellsPlace }
        ensures moments { (client : ℕ) → CrashSurvives (reopens client) self.old.0 (D.state self.old.1) (D.state self.new.1) }
        ensures stopped { self.old.0.broken ≡ true → self.new.1 ≡ self.old.1 }
    {
        self.stored();
        files_have_one_meaning();
        logs_are_copies_and_blocks();
        the_holds_container_never_falls();
        opening_anew_comes_to_the_cut();
        steps_keep_a_state_valid();
        steps_keep_a_state_storable();
        if self.log.broken {
            return Err(Refusal::Broken);
        }
        let write_buffers = self.log.queue.buffers();
        let read_buffers = self.log.buffers.most();
        match read_log(self.log.alloc, &mut self.disk, write_buffers, read_buffers) {
            Ok(log) => {
                let stable = log.flushed();
                self.log = log;
                Ok(stable)
            }
            Err(refusal) => Err(refuse(&mut self.log, refusal)),
        }
    }
}
