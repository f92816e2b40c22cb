// A group of blocks, written after the open blocks of a file.
ghost use Rattle.std.specs.Prelude.{◌≡◌, ◌⊎◌, ◌+◌, ◌≤◌, ◌++◌, ℕ, List, length, OnOk, OnErr, IsOk};
ghost use Rattle.clfs_disk.specs.State.{TellsContents, IsHonest, IsSettled, IsSteady, Later, Leaves, Rises, raised};
ghost use Rattle.clfs_container.specs.Writing.{IsBehind, IsGroup};
ghost use Rattle.clfs_physical.specs.Joined.{SameLengths, HasGroup, HasNone};

use clfs_disk::{Disk, Failed};

/// Writes a group after the gate at byte `at` and syncs it, and then opens the gate and syncs that, by four calls of the disk.
pub fn write_group<D: Disk>(disk: &mut D, file: u16, at: u32, body: &[u8]) -> Result<(), Failed>
    requires { file ≤ 256 }
    ensures written { OnOk result (TellsContents (D.state disk.old) → (sectors : ℕ) (blocks : List (List ℕ)) (rest : ℕ) (more : List (List ℕ)) (left : ℕ)
        → IsBehind sectors file blocks rest at (D.state disk.old).files → IsGroup rest body.now more left
        → HasGroup sectors file blocks more left (D.state disk.old).files (D.state disk.new).files) }
    ensures settled { OnOk result (IsHonest (D.state disk.old) → IsSettled (D.state disk.new)) }

    // Whatever the answer, a crash at any moment leaves the blocks of before, or these and all of the group.
    ensures moments { IsSettled (D.state disk.old) → (sectors : ℕ) (blocks : List (List ℕ)) (rest : ℕ) (more : List (List ℕ)) (left : ℕ)
        → IsBehind sectors file blocks rest at (D.state disk.old).files → IsGroup rest body.now more left
        → Leaves (λ image. HasNone sectors file blocks rest at (D.state disk.old).files image
        ⊎ HasGroup sectors file blocks more left (D.state disk.old).files image) (D.state disk.old) (D.state disk.new) }

    ensures lengths { SameLengths (D.state disk.old).files (D.state disk.new).files }
    ensures time { Later (D.state disk.old) (D.state disk.new) }
    ensures calls { OnOk result ((D.state disk.new).calls ≡ raised 4 (D.state disk.old).calls) }
    ensures calls_at_most { (D.state disk.new).calls ≤ raised 4 (D.state disk.old).calls }
    ensures cause { OnErr result (Rises (D.state disk.old).faults (D.state disk.new).faults) }
    ensures steady { IsSteady (D.state disk.old) → at + 1 + length body.now ≤ length ((D.state disk.old).files file)
        → IsOk result × ((D.state disk.new).faults ≡ (D.state disk.old).faults) }
{
    clfs_container::write_body(disk, file, at, body)?;
    clfs_container::open_gate(disk, file, at)
}
