// The files of a log at full length.
ghost use Rattle.std.specs.Prelude.{◌≡◌, ◌+◌, ◌≤◌, ℕ, length, OnOk, IsErrOf};
ghost use Rattle.clfs_lsn.specs.Limits.{most_containers};
ghost use Rattle.clfs_disk.specs.State.{IsSteady, Passes, Later, Rises, raised};
ghost use Rattle.clfs_format.specs.Making.{AreLong, BaseStays, KnowsLengths};

use clfs_base::SLOT_BYTES;
use clfs_disk::{Disk, GrowRefusal};
use clfs_lsn::{SECTOR, Shape};

/// Makes the files of so many containers, each at least so long, by a call of the disk for each. The base file stays as it is.
pub fn make_containers<D: Disk>(disk: &mut D, containers: u16, len: u64) -> Result<(), GrowRefusal>
    requires { containers ≤ most_containers }
    ensures long { OnOk result (KnowsLengths (D.state disk.old)
        → (file : ℕ) → 1 ≤ file → file ≤ containers → len ≤ length ((D.state disk.new).files file)) }
    ensures base { BaseStays (D.state disk.old).files (D.state disk.new).files }
    ensures time { Passes BaseStays (D.state disk.old) (D.state disk.new) }
    ensures calls { OnOk result (raised 0 (D.state disk.new).calls ≡ raised containers (D.state disk.old).calls) }
    ensures cause { IsErrOf result GrowRefusal.Failed → Rises (D.state disk.old).faults (D.state disk.new).faults }
    ensures steady { IsSteady (D.state disk.old) → (IsErrOf result GrowRefusal.Failed → ⊥)
        × ((D.state disk.new).faults ≡ (D.state disk.old).faults) }
{
    for file in 1..containers + 1 {
        disk.grow(file, len)?;
    }
    Ok(())
}

/// Makes the files of the log, and each at least as long as it has to be.
pub(crate) fn make_files<D: Disk>(
    disk: &mut D,
    shape: &Shape,
    containers: u16,
) -> Result<(), GrowRefusal>
    requires { containers ≤ most_containers }
    ensures long { OnOk result (KnowsLengths (D.state disk.old) → AreLong shape.now (containers + 1) (D.state disk.new).files) }
    ensures time { Later (D.state disk.old) (D.state disk.new) }
    ensures calls { OnOk result (raised 0 (D.state disk.new).calls ≡ raised (containers + 1) (D.state disk.old).calls) }
    ensures cause { IsErrOf result GrowRefusal.Failed → Rises (D.state disk.old).faults (D.state disk.new).faults }
    ensures steady { IsSteady (D.state disk.old) → (IsErrOf result GrowRefusal.Failed → ⊥)
        × ((D.state disk.new).faults ≡ (D.state disk.old).faults) }
{
    disk.grow(0, 2 * SLOT_BYTES as u64)?;
    make_containers(
        disk,
        containers,
        SECTOR as u64 * shape.container_sectors as u64,
    )
}
