// The manager of a log over any disk: making a log, and opening and closing one. The state that a manager stands for is told, for clauses
// alone: what it holds of the log are the heads of its records, and their data are on the disk.
ghost use Rattle.std.specs.Prelude.{◌≡◌, ◌≢◌, ◌≤◌, ℕ, Some, None, IfOk, IfErr};
ghost use Rattle.clfs_manager.specs.Machine.{fresh, IsShape, most_containers, most_write_buffers};
ghost use Rattle.clfs_disk.specs.Files.{Unchanged};
ghost use Rattle.clfs_disk.specs.State.{TellsContents, IsSteady, IsHonest, IsSettled, Passes, Later, Rises, raised};
ghost use Rattle.clfs_recover.specs.Files.{StandsFor, AreWholeFiles};
ghost use Rattle.clfs_format.specs.Making.{open_slot_of, KeepsLog, making_calls};
ghost use Rattle.clfs_manager.specs.Formatting.{ComesAtOnce};
ghost use Rattle.clfs_manager.specs.Loading.{Opens};

use crate::log::Log;
use crate::reopening::read_log;
use clfs_disk::Disk;
use clfs_format::{FormatRefusal, make_log};
use clfs_lsn::Shape;
use clfs_recover::LoadRefusal;
use std::alloc::Global;
use std::marker::Model;

// How many blocks that are read are kept, unless another number is asked for.
const READ_BUFFERS: u32 = 32;

/// A log over a disk. A contract sees the state of the log machine that it stands for, and the disk.
#[derive(Drop)]
pub struct Manager<D: Disk> {
    pub(crate) disk: D,
    pub(crate) log: Log,
}

impl<D: Disk> Model for Manager<D> {
    ghost use Rattle.clfs_model.specs.declared.state.State.{State};
    ghost use Rattle.clfs_manager.specs.OnDisk.{IsManaged};

    ghost Value = { State × D };

    ghost view = { λ m. (m.log.state.value, m.disk) };

    ghost invariant = { λ m. IsManaged (D.state m.disk) m.log };
}

/// A log wasn't opened. The disk is given back.
#[derive(Drop)]
pub struct LoadRefused<D> {
    /// The disk.
    pub disk: D,
    /// Why.
    pub cause: LoadRefusal,
}

/// A log wasn't made. The disk is given back.
#[derive(Drop)]
pub struct FormatRefused<D> {
    /// The disk.
    pub disk: D,
    /// Why.
    pub cause: FormatRefusal,
}

impl<D: Disk> Manager<D> {
    /// Makes a log on a disk, with containers of this shape, if none is there: a dedicated one, which has one stream, or one for several. The
    /// disk is given back with it.
    ///
    /// Where no log was, nothing is promised of what is read of the files after a fault, after out of memory and after a crash in the call; they
    /// are to be thrown away then. Where one was, no file changes, whatever is answered.
    pub fn format(
        alloc: Global,
        disk: D,
        shape: Shape,
        containers: u32,
        dedicated: bool,
    ) -> Result<D, FormatRefused<D>>
        requires shape { IsShape shape }
        requires some { 1 ≤ containers }
        requires few { containers ≤ most_containers }

        // The files stand for a fresh log, are at full length, and nothing is pending.
        ensures formatted { IfOk result (λ new. TellsContents (D.state disk)
            → (buffers : ℕ) → StandsFor (D.state new).files (fresh shape dedicated containers buffers)) }
        ensures whole { IfOk result (λ new. TellsContents (D.state disk) → AreWholeFiles (D.state new).files) }
        ensures settled { IfOk result (λ new. IsHonest (D.state disk) → IsSettled (D.state new)) }

        // The log comes to be there at once: from a moment of the call on, a crash leaves none or all of it.
        ensures moments { IfOk result (λ new. IsHonest (D.state disk) → ComesAtOnce shape dedicated containers (D.state disk) (D.state new)) }

        // Where a slot is open that is told, and nothing has changed.
        ensures free { IfOk result (λ new. TellsContents (D.state disk) → open_slot_of ((D.state disk).files 0) ≡ None) }
        ensures exists { IfErr result (λ refused. (slot : ℕ) → refused.cause ≡ FormatRefusal.Exists slot
            → TellsContents (D.state disk) → open_slot_of ((D.state disk).files 0) ≡ Some slot) }
        ensures same { IfErr result (λ refused. (slot : ℕ) → refused.cause ≡ FormatRefusal.Exists slot
            → Unchanged (D.state disk).files (D.state refused.disk).files × Passes Unchanged (D.state disk) (D.state refused.disk)) }

        // It looks for a log before it takes memory: where a slot is open it never tells that memory ran out.
        ensures looks { IfErr result (λ refused. refused.cause ≡ FormatRefusal.NoMemory
            → TellsContents (D.state disk) → open_slot_of ((D.state disk).files 0) ≡ None) }

        // Where a slot was open nothing has changed, whatever is told.
        ensures kept { IfErr result (λ refused. KeepsLog (D.state disk) (D.state refused.disk)) }

        // Making a log takes just so many calls of the disk.
        ensures calls { IfOk result (λ new. (D.state new).calls ≡ raised (making_calls containers) (D.state disk).calls) }

        ensures time { IfOk result (λ new. Later (D.state disk) (D.state new)) }
        ensures time_refused { IfErr result (λ refused. Later (D.state disk) (D.state refused.disk)) }

        // A fault is told only where the disk failed in the call, and never over a steady disk.
        ensures cause { IfErr result (λ refused. refused.cause ≡ FormatRefusal.DiskFault
            → Rises (D.state disk).faults (D.state refused.disk).faults) }
        ensures steady { IsSteady (D.state disk) → IfErr result (λ refused. refused.cause ≢ FormatRefusal.DiskFault) }
    {
        let mut disk = disk;
        match make_log(alloc, &mut disk, &shape, dedicated, containers as u16) {
            Ok(()) => Ok(disk),
            Err(cause) => Err(FormatRefused { disk, cause }),
        }
    }

    /// Opens the log on a disk, with so many write buffers, which bound the blocks that wait to be written. Nothing is written.
    pub fn load(alloc: Global, disk: D, write_buffers: u32) -> Result<Manager<D>, LoadRefused<D>>
        requires some { 1 ≤ write_buffers }
        requires few { write_buffers ≤ most_write_buffers }
        ensures { Opens D.state write_buffers disk result }
    {
        Manager::load_with(alloc, disk, write_buffers, READ_BUFFERS)
    }

    /// `load` of a log that keeps so many blocks that are read, in place of 32. How many it keeps changes no answer: only how often the disk is
    /// read, and how much memory the blocks take.
    pub fn load_with(
        alloc: Global,
        disk: D,
        write_buffers: u32,
        read_buffers: u32,
    ) -> Result<Manager<D>, LoadRefused<D>>
        requires some { 1 ≤ write_buffers }
        requires few { write_buffers ≤ most_write_buffers }
        requires reads { 1 ≤ read_buffers }
        ensures { Opens D.state write_buffers disk result }
    {
        let mut disk = disk;
        match read_log(alloc, &mut disk, write_buffers, read_buffers) {
            Ok(log) => Ok(Manager { disk, log }),
            Err(cause) => Err(LoadRefused { disk, cause }),
        }
    }

    /// Closes the log and gives the disk back. Nothing is written: what isn't flushed is lost.
    pub fn close(self) -> D
        ensures { result ≡ self.1 }
    {
        let Manager { disk, log: _ } = self;
        disk
    }
}
