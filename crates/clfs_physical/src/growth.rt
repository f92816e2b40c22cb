// Making files. Those that are made count once a base copy says so, and it says so once they are synced. Where memory is wanted half
// way, the files that have grown are synced all the same: so nothing is pending, and no copy counts them.
ghost use Rattle.std.specs.Prelude.{◌≡◌, ◌⊎◌, ◌+◌, ◌-◌, ◌<◌, ◌≤◌, ℕ, false, length, OnOk, OnErr, IsOk, IsErrOf};
ghost use Rattle.clfs_disk.specs.Files.{Unchanged};
ghost use Rattle.clfs_disk.specs.State.{TellsContents, IsHonest, IsSettled, IsSteady, Passes, Rises, raised};
ghost use Rattle.clfs_physical.specs.Joined.{GrownAbove};

use crate::refusal::PhysicalRefusal;
use clfs_disk::{Disk, GrowRefusal};

/// Makes the files after number `made`, up to number `wanted`, at least so long, and syncs them: by one call of the disk for each
/// and one more, or by none where there are no such files.
pub fn make_files<D: Disk>(
    disk: &mut D,
    made: u16,
    wanted: u16,
    len: u64,
) -> Result<(), PhysicalRefusal>
    requires { wanted ≤ 256 }
    ensures long { OnOk result (TellsContents (D.state disk.old) ⊎ IsSteady (D.state disk.old) →
        (file : ℕ) → made < file → file ≤ wanted → len ≤ length ((D.state disk.new).files file)) }
    ensures grown { GrownAbove made (D.state disk.old).files (D.state disk.new).files }

    // Also where memory was wanted half way, nothing is pending.
    ensures settled { (IsErrOf result PhysicalRefusal.DiskFault → ⊥) → IsSettled (D.state disk.old) → IsSettled (D.state disk.new) }

    // Whatever the answer, a crash at any moment leaves the files that were made before as they were.
    ensures time { Passes (GrownAbove made) (D.state disk.old) (D.state disk.new) }

    ensures nothing { wanted ≤ made → IsOk result × (disk.new ≡ disk.old) }
    ensures calls { OnOk result (made < wanted → (D.state disk.new).calls ≡ raised (wanted - made + 1) (D.state disk.old).calls) }
    ensures cause { IsErrOf result PhysicalRefusal.DiskFault → Rises (D.state disk.old).faults (D.state disk.new).faults }
    ensures steady { IsSteady (D.state disk.old) → (IsErrOf result PhysicalRefusal.DiskFault → ⊥)
        × ((D.state disk.new).faults ≡ (D.state disk.old).faults) }
{
    if wanted <= made {
        return Ok(());
    }
    let mut done = made;
    let grown = grow_each(disk, made, wanted, len, &mut done);
    finish(disk, made < done, grown)
}

// Makes the files after number `made` so long, one after the other. `done` is the last one that was made.
fn grow_each<D: Disk>(
    disk: &mut D,
    made: u16,
    wanted: u16,
    len: u64,
    done: &mut u16,
) -> Result<(), GrowRefusal>
    requires wanted { wanted ≤ 256 }
    requires done { done.old ≡ made }
    requires some { made ≤ wanted }
    ensures range { (made ≤ done.new) × (done.new ≤ wanted) }
    ensures all { OnOk result (done.new ≡ wanted) }
    ensures long { TellsContents (D.state disk.old) ⊎ IsSteady (D.state disk.old) →
        (file : ℕ) → made < file → file ≤ done.new → len ≤ length ((D.state disk.new).files file) }
    ensures grown { GrownAbove made (D.state disk.old).files (D.state disk.new).files }
    ensures time { Passes (GrownAbove made) (D.state disk.old) (D.state disk.new) }
    ensures none { IsErrOf result GrowRefusal.NoMemory → done.new ≡ made →
        Unchanged (D.state disk.old).files (D.state disk.new).files × Passes Unchanged (D.state disk.old) (D.state disk.new) }
    ensures calls { OnOk result (raised 0 (D.state disk.new).calls ≡ raised (wanted - made) (D.state disk.old).calls) }
    ensures cause { IsErrOf result GrowRefusal.Failed → Rises (D.state disk.old).faults (D.state disk.new).faults }
    ensures steady { IsSteady (D.state disk.old) → (IsErrOf result GrowRefusal.Failed → ⊥)
        × ((D.state disk.new).faults ≡ (D.state disk.old).faults) }
{
    while *done < wanted {
        disk.grow(*done + 1, len)?;
        *done += 1;
    }
    Ok(())
}

// Syncs what was grown, and gives the answer.
fn finish<D: Disk>(
    disk: &mut D,
    has_grown: bool,
    grown: Result<(), GrowRefusal>,
) -> Result<(), PhysicalRefusal>
    ensures ok { OnOk result (IsOk grown) }
    ensures settled { (IsErrOf result PhysicalRefusal.DiskFault → ⊥) → IsHonest (D.state disk.old)
        → (IsErrOf grown GrowRefusal.NoMemory → has_grown ≡ false → IsSettled (D.state disk.old)) → IsSettled (D.state disk.new) }
    ensures same { Unchanged (D.state disk.old).files (D.state disk.new).files }
    ensures time { Passes Unchanged (D.state disk.old) (D.state disk.new) }
    ensures calls { OnOk result ((D.state disk.new).calls ≡ raised 1 (D.state disk.old).calls) }
    ensures cause { IsErrOf result PhysicalRefusal.DiskFault → IsErrOf grown GrowRefusal.Failed ⊎ Rises (D.state disk.old).faults (D.state disk.new).faults }
    ensures steady { IsSteady (D.state disk.old) → (IsErrOf result PhysicalRefusal.DiskFault → IsErrOf grown GrowRefusal.Failed)
        × ((D.state disk.new).faults ≡ (D.state disk.old).faults) }
{
    match grown {
        Ok(()) => {
            disk.sync()?;
            Ok(())
        }
        Err(GrowRefusal::Failed) => Err(PhysicalRefusal::DiskFault),
        Err(GrowRefusal::NoMemory) => {
            if has_grown {
                disk.sync()?;
            }
            Err(PhysicalRefusal::NoMemory)
        }
    }
}
