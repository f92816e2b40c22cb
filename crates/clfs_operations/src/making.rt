// A log in memory that a command makes for itself, and opens: that of a trial and that of a crew.
ghost use Rattle.std.specs.Prelude.{◌≡◌, false, IfOk};
ghost use Rattle.clfs_disk.specs.State.{TellsContents, IsSteady};
ghost use Rattle.clfs_lsn.specs.Size.{IsShape};
ghost use Rattle.clfs_model.specs.State.{fresh};
ghost use Rattle.clfs_recover.specs.Files.{AreWholeFiles};

use clfs_disk::Disk;
use clfs_lsn::Shape;
use clfs_manager::Manager;
use clfs_recover::files_have_one_meaning;
use std::alloc::{AllocError, Global};

const CONTAINERS: u32 = 8;

const WRITE_BUFFERS: u32 = 4;

/// A log that is made on a disk without one, of 8 containers, and opened with 4 write buffers. Over a steady disk memory alone can lack.
pub fn made_log<D: Disk + Drop>(
    alloc: Global,
    disk: D,
    shape: Shape,
) -> Result<Manager<D>, AllocError>
    requires shape { IsShape shape }
    requires told { TellsContents (D.state disk) }
    requires steady { IsSteady (D.state disk) }
    ensures state { IfOk result (λ manager. manager.0 ≡ fresh shape false 8 4) }
    ensures told { IfOk result (λ manager. TellsContents (D.state manager.1)) }
    ensures steady { IfOk result (λ manager. IsSteady (D.state manager.1)) }
    ensures whole { IfOk result (λ manager. AreWholeFiles (D.state manager.1).files) }
{
    files_have_one_meaning();
    let Ok(disk) = Manager::format(alloc, disk, shape, CONTAINERS, false) else {
        return Err(AllocError);
    };
    match Manager::load(alloc, disk, WRITE_BUFFERS) {
        Ok(manager) => Ok(manager),
        Err(_) => Err(AllocError),
    }
}
