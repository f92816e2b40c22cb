//! Writing blocks into the file of a container, so that each crash leaves all of them or none.
//!
//! A block counts only where its first byte, the gate, is open. Blocks are written in two steps. `write_body` writes the
//! bytes that it is given, which are all but the first gate, with a closed gate after them, and syncs: whatever a crash
//! leaves of them stands after a gate that is closed on the disk, so nobody reads it. `open_gate` then writes that one byte
//! and syncs: a crash leaves it as it was or open over a body that is on the disk whole. The closed gate after stops a
//! reader at bytes of an earlier use of the file. The contracts speak of the bytes that are handed in, be they one block or
//! several in a row.
#![tactic(auto)]

ghost use Rattle.std.specs.Prelude.{◌≡◌, ◌+◌, ◌<◌, ◌≤◌, ℕ, List, [], ◌∷◌, slice_index, OnOk};
ghost use Rattle.clfs_lsn.specs.Format.{open_gate};
ghost use Rattle.clfs_disk.specs.Files.{Files};
ghost use Rattle.clfs_disk.specs.State.{TellsContents, IsHonest, IsSettled, MayLeave};
ghost use Rattle.clfs_disk.specs.Calls.{Reads, WritesSynced};
ghost use Rattle.clfs_container.specs.OpenBlocks.{AreOpen, AreWhole};
ghost use Rattle.clfs_container.specs.Writing.{IsBehind, HasBlocks, HasBody, KeepsBlocks, StaysBehind, OpensInCrash, OpensGroup};

use clfs_disk::{Disk, Failed, overwritten_bytes_stand_in_place, write_synced};
use clfs_lsn::OPEN_GATE;

// One of the values of a closed gate.
const CLOSED: u8 = 0;

/// Writes what stands after the gate at byte `at`, and syncs it, by two calls of the disk. The gate itself stays as it is.
pub fn write_body<D: Disk>(disk: &mut D, file: u16, at: u32, bytes: &[u8]) -> Result<(), Failed>
    requires { file ≤ 256 }
    ensures call { WritesSynced file (at + 1) bytes.now result (D.state disk.old) (D.state disk.new) }
    ensures body { OnOk result (TellsContents (D.state disk.old) → HasBody file at bytes.now (D.state disk.new).files) }

    // Every image now has the body, and a gate that is as before.
    ensures images { OnOk result (IsHonest (D.state disk.old) → (image : Files) → MayLeave (D.state disk.new) image
        → HasBody file at bytes.now image × (slice_index (image file) at ≡ slice_index ((D.state disk.old).files file) at)) }

    // After a closed gate no block comes or goes, at any moment of the call.
    ensures moments { IsSettled (D.state disk.old) → KeepsBlocks file at (D.state disk.old) (D.state disk.new) }
    ensures behind { StaysBehind file at (D.state disk.old).files (D.state disk.new).files }
{
    overwritten_bytes_stand_in_place();
    write_synced(disk, file, at as u64 + 1, bytes)
}

/// Opens the gate at byte `at`, and syncs it, by two calls of the disk.
pub fn open_gate<D: Disk>(disk: &mut D, file: u16, at: u32) -> Result<(), Failed>
    requires { file ≤ 256 }
    ensures call { WritesSynced file at (open_gate ∷ []) result (D.state disk.old) (D.state disk.new) }

    // Over a group's body, a crash at any moment leaves the blocks of before or those with all of the group.
    ensures moments { IsSettled (D.state disk.old) → OpensInCrash file at (D.state disk.old) (D.state disk.new) }
    ensures opened { OnOk result (TellsContents (D.state disk.old) → OpensGroup file at (D.state disk.old).files (D.state disk.new).files) }
{
    overwritten_bytes_stand_in_place();
    write_synced(disk, file, at as u64, &[OPEN_GATE])
}

/// Closes the first gate of a file, and syncs it, by two calls of the disk, so that the file has no open blocks.
pub fn close_first<D: Disk>(disk: &mut D, file: u16) -> Result<(), Failed>
    requires { file ≤ 256 }
    ensures call { WritesSynced file 0 (0 ∷ []) result (D.state disk.old) (D.state disk.new) }
    ensures none { OnOk result (TellsContents (D.state disk.old) →
        (sectors : ℕ) → HasBlocks sectors file [] sectors (D.state disk.new).files) }
{
    overwritten_bytes_stand_in_place();
    write_synced(disk, file, 0, &[CLOSED])
}

/// Gives the bytes that are there from byte `at` on, all that `out` has room for, and answers how many, by one call of the disk.
pub fn read_block<D: Disk>(
    disk: &mut D,
    file: u16,
    at: u32,
    out: &mut [u8],
) -> Result<usize, Failed>
    requires { file ≤ 256 }
    ensures { Reads file at out.old out.new result (D.state disk.old) (D.state disk.new) }
{
    disk.read(file, at as u64, out)
}

/// Bytes have at most one list of open blocks, and the blocks that are written after closed gates are those of it. A list that
/// ends cleanly is one of these, and what is written keeps the list so. A file without bytes has none for a container that has
/// sectors: the gate of its first block isn't there.
pub fn open_blocks_are_one_list()
    ensures one { (sectors : ℕ) (bytes : List ℕ) (blocks others : List (List ℕ))
        → AreOpen sectors bytes blocks → AreOpen sectors bytes others → blocks ≡ others }
    ensures behind { (sectors file : ℕ) (blocks : List (List ℕ)) (rest at : ℕ) (files : Files)
        → IsBehind sectors file blocks rest at files → AreWhole sectors (files file) blocks }
    ensures written { (sectors file : ℕ) (blocks : List (List ℕ)) (rest : ℕ) (files : Files)
        → HasBlocks sectors file blocks rest files → AreWhole sectors (files file) blocks }
    ensures whole { (sectors : ℕ) (bytes : List ℕ) (blocks : List (List ℕ)) → AreWhole sectors bytes blocks → AreOpen sectors bytes blocks }
    ensures empty { (sectors : ℕ) (blocks : List (List ℕ)) → 0 < sectors → AreWhole sectors [] blocks → ⊥ }
{}
