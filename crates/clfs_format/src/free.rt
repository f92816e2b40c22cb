// Whether a log is there: a slot of the base file is open.
ghost use Rattle.std.specs.Prelude.{◌≡◌, None, OnOk, OnErr, IfOk, IsOk, IsErrOf};
ghost use Rattle.clfs_disk.specs.Files.{Unchanged};
ghost use Rattle.clfs_disk.specs.State.{TellsContents, IsSteady, Passes, Rises, raised};
ghost use Rattle.clfs_format.specs.Making.{open_slot_of, IsFree};

use crate::refusal::FormatRefusal;
use clfs_base::has_open_gate;
use clfs_disk::{Disk, Failed, calls_join};

/// The lowest slot of the base file whose gate is open.
pub fn first_open_slot<D: Disk>(disk: &mut D) -> Result<Option<u32>, Failed>
    ensures open { IfOk result (λ slot. TellsContents (D.state disk.old) → slot ≡ open_slot_of ((D.state disk.old).files 0)) }
    ensures same { Unchanged (D.state disk.old).files (D.state disk.new).files }
    ensures time { Passes Unchanged (D.state disk.old) (D.state disk.new) }
    ensures calls { IfOk result (λ slot. slot ≡ None → (D.state disk.new).calls ≡ raised 2 (D.state disk.old).calls) }
    ensures cause { OnErr result (Rises (D.state disk.old).faults (D.state disk.new).faults) }
    ensures steady { IsSteady (D.state disk.old) → IsOk result × ((D.state disk.new).faults ≡ (D.state disk.old).faults) }
{
    calls_join::<D>();
    if has_open_gate(disk, 0)? {
        return Ok(Some(0));
    }
    if has_open_gate(disk, 1)? {
        return Ok(Some(1));
    }
    Ok(None)
}

/// Nothing where no slot is open, and else the refusal that tells it.
pub(crate) fn is_free<D: Disk>(disk: &mut D) -> Result<(), FormatRefusal>
    ensures free { TellsContents (D.state disk.old) → IsFree result ((D.state disk.old).files 0) }
    ensures same { Unchanged (D.state disk.old).files (D.state disk.new).files }
    ensures time { Passes Unchanged (D.state disk.old) (D.state disk.new) }
    ensures calls { OnOk result ((D.state disk.new).calls ≡ raised 2 (D.state disk.old).calls) }
    ensures cause { IsErrOf result FormatRefusal.DiskFault → Rises (D.state disk.old).faults (D.state disk.new).faults }
    ensures steady { IsSteady (D.state disk.old) → (IsErrOf result FormatRefusal.DiskFault → ⊥)
        × ((D.state disk.new).faults ≡ (D.state disk.old).faults) }
{
    match first_open_slot(disk)? {
        Some(slot) => Err(FormatRefusal::Exists { slot }),
        None => Ok(()),
    }
}
