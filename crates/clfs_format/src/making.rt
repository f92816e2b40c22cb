// Making a log: all its files at full length, no gate open in them that counts, and then the first base copy, whose gate is opened last.
// From the moment at which the closed gates are on the disk, whoever opens the files after a crash finds no log or the whole one. Before
// it nothing is said of a crash, since a growth that is cut short may leave any bytes: then the files are to be thrown away.
ghost use Rattle.std.specs.Prelude.{◌≡◌, ◌≤◌, ℕ, [], ◌∷◌, ◌+◌, ◌*◌, false, length, OnOk, OnErr, IsOk, IsErrOf};
ghost use Rattle.clfs_lsn.specs.Limits.{most_containers};
ghost use Rattle.clfs_lsn.specs.Size.{IsShape};
ghost use Rattle.clfs_disk.specs.Files.{Unchanged};
ghost use Rattle.clfs_disk.specs.State.{TellsContents, IsSteady, IsHonest, IsSettled, Later, Passes, Rises, raised};
ghost use Rattle.clfs_disk.specs.Calls.{Writes};
ghost use Rattle.clfs_base.specs.Layout.{slot_bytes};
ghost use Rattle.clfs_base.specs.Spelling.{spelled};
ghost use Rattle.clfs_base.specs.Slots.{is_open_slot};
ghost use Rattle.clfs_format.specs.Making.{AreLong, HasNoGates, SameLengths, KnowsLengths, IsFree, IsMade, IsMadeAtOnce, KeepsLog, first_image, making_calls};

use crate::files::make_files;
use crate::first_copy::{first_copy, write_first_copy};
use crate::free::is_free;
use crate::refusal::FormatRefusal;
use clfs_base::{copies_are_read_as_written, slot_place};
use clfs_container::close_first;
use clfs_disk::{Disk, Failed, calls_join, overwritten_bytes_stand_in_place};
use clfs_lsn::Shape;
use std::alloc::Global;

// One of the values of a closed gate.
const CLOSED: u8 = 0;

// Writes a closed gate at a place of a file.
fn close_gate<D: Disk>(disk: &mut D, file: u16, at: u64) -> Result<(), Failed>
    requires { file ≤ 256 }
    ensures { Writes file at (0 ∷ []) result (D.state disk.old) (D.state disk.new) }
{
    disk.write(file, at, &[CLOSED])
}

// Closes both gates of the base file.
fn close_slots<D: Disk>(disk: &mut D) -> Result<(), Failed>
    ensures first { OnOk result (TellsContents (D.state disk.old) → is_open_slot ((D.state disk.new).files 0) 0 ≡ false) }
    ensures second { OnOk result (TellsContents (D.state disk.old) → is_open_slot ((D.state disk.new).files 0) 1 ≡ false) }
    ensures lengths { SameLengths (D.state disk.old).files (D.state disk.new).files }
    ensures time { Later (D.state disk.old) (D.state disk.new) }
    ensures calls { OnOk result ((D.state disk.new).calls ≡ raised 2 (D.state disk.old).calls) }
    ensures cause { OnErr result (Rises (D.state disk.old).faults (D.state disk.new).faults) }
    ensures steady { IsSteady (D.state disk.old) → 2 * slot_bytes ≤ length ((D.state disk.old).files 0)
        → IsOk result × ((D.state disk.new).faults ≡ (D.state disk.old).faults) }
{
    overwritten_bytes_stand_in_place();
    close_gate(disk, 0, slot_place(0))?;
    close_gate(disk, 0, slot_place(1))
}

// Closes both gates of the base file and the first one of file 1, and syncs them.
fn close_gates<D: Disk>(disk: &mut D) -> Result<(), Failed>
    ensures none { OnOk result (TellsContents (D.state disk.old) → HasNoGates (D.state disk.new).files) }
    ensures settled { OnOk result (IsHonest (D.state disk.old) → IsSettled (D.state disk.new)) }
    ensures lengths { SameLengths (D.state disk.old).files (D.state disk.new).files }
    ensures time { Later (D.state disk.old) (D.state disk.new) }
    ensures calls { OnOk result ((D.state disk.new).calls ≡ raised 4 (D.state disk.old).calls) }
    ensures cause { OnErr result (Rises (D.state disk.old).faults (D.state disk.new).faults) }
    ensures steady { IsSteady (D.state disk.old) → 2 * slot_bytes ≤ length ((D.state disk.old).files 0)
        → 1 ≤ length ((D.state disk.old).files 1) → IsOk result × ((D.state disk.new).faults ≡ (D.state disk.old).faults) }
{
    close_slots(disk)?;
    close_first(disk, 1)
}

// All files at full length, and no gate open in them that counts.
fn prepare<D: Disk>(disk: &mut D, shape: &Shape, containers: u16) -> Result<(), FormatRefusal>
    requires { containers ≤ most_containers }
    ensures none { OnOk result (TellsContents (D.state disk.old) → HasNoGates (D.state disk.new).files) }
    ensures long { OnOk result (KnowsLengths (D.state disk.old) → AreLong shape.now (containers + 1) (D.state disk.new).files) }
    ensures settled { OnOk result (IsHonest (D.state disk.old) → IsSettled (D.state disk.new)) }
    ensures time { Later (D.state disk.old) (D.state disk.new) }
    ensures calls { OnOk result ((D.state disk.new).calls ≡ raised (containers + 6) (D.state disk.old).calls) }
    ensures cause { IsErrOf result FormatRefusal.DiskFault → Rises (D.state disk.old).faults (D.state disk.new).faults }
    ensures steady { IsSteady (D.state disk.old) → 1 ≤ containers → 1 ≤ shape.now.container_sectors
        → (IsErrOf result FormatRefusal.DiskFault → ⊥) × ((D.state disk.new).faults ≡ (D.state disk.old).faults) }
    ensures other { (slot : ℕ) → IsErrOf result (FormatRefusal.Exists slot) → ⊥ }
{
    make_files(disk, shape, containers)?;
    disk.sync()?;
    close_gates(disk)?;
    Ok(())
}

/// Makes a log on a disk, on which none is.
pub fn make_log<D: Disk>(
    alloc: Global,
    disk: &mut D,
    shape: &Shape,
    dedicated: bool,
    containers: u16,
) -> Result<(), FormatRefusal>
    requires shape { IsShape shape.now }
    requires some { 1 ≤ containers }
    requires few { containers ≤ most_containers }
    ensures made { OnOk result (TellsContents (D.state disk.old) → IsMade shape.now dedicated containers (D.state disk.new).files) }
    ensures long { OnOk result (TellsContents (D.state disk.old) → AreLong shape.now (containers + 1) (D.state disk.new).files) }
    ensures settled { OnOk result (IsHonest (D.state disk.old) → IsSettled (D.state disk.new)) }
    ensures moments { OnOk result (IsHonest (D.state disk.old) → IsMadeAtOnce shape.now dedicated containers (D.state disk.old) (D.state disk.new)) }
    ensures free { TellsContents (D.state disk.old) → IsFree result ((D.state disk.old).files 0) }
    ensures same { (slot : ℕ) → IsErrOf result (FormatRefusal.Exists slot) → Unchanged (D.state disk.old).files (D.state disk.new).files
        × Passes Unchanged (D.state disk.old) (D.state disk.new) }
    ensures kept { KeepsLog (D.state disk.old) (D.state disk.new) }
    ensures time { Later (D.state disk.old) (D.state disk.new) }
    ensures calls { OnOk result ((D.state disk.new).calls ≡ raised (making_calls containers) (D.state disk.old).calls) }
    ensures cause { IsErrOf result FormatRefusal.DiskFault → Rises (D.state disk.old).faults (D.state disk.new).faults }
    ensures steady { IsSteady (D.state disk.old) → (IsErrOf result FormatRefusal.DiskFault → ⊥)
        × ((D.state disk.new).faults ≡ (D.state disk.old).faults) }
{
    calls_join::<D>();
    is_free(disk)?;
    let body = first_copy(alloc, shape, dedicated, containers)?;
    fill_disk(disk, shape, dedicated, containers, &body)
}

// Makes the files of a log and writes its first copy.
fn fill_disk<D: Disk>(
    disk: &mut D,
    shape: &Shape,
    dedicated: bool,
    containers: u16,
    body: &[u8],
) -> Result<(), FormatRefusal>
    requires shape { IsShape shape.now }
    requires some { 1 ≤ containers }
    requires few { containers ≤ most_containers }
    requires body { body.now ≡ spelled (first_image shape.now dedicated containers) }
    ensures made { OnOk result (TellsContents (D.state disk.old) → IsMade shape.now dedicated containers (D.state disk.new).files) }
    ensures long { OnOk result (TellsContents (D.state disk.old) → AreLong shape.now (containers + 1) (D.state disk.new).files) }
    ensures settled { OnOk result (IsHonest (D.state disk.old) → IsSettled (D.state disk.new)) }
    ensures moments { OnOk result (IsHonest (D.state disk.old) → IsMadeAtOnce shape.now dedicated containers (D.state disk.old) (D.state disk.new)) }
    ensures other { (slot : ℕ) → IsErrOf result (FormatRefusal.Exists slot) → ⊥ }
    ensures time { Later (D.state disk.old) (D.state disk.new) }
    ensures calls { OnOk result ((D.state disk.new).calls ≡ raised (containers + 10) (D.state disk.old).calls) }
    ensures cause { IsErrOf result FormatRefusal.DiskFault → Rises (D.state disk.old).faults (D.state disk.new).faults }
    ensures steady { IsSteady (D.state disk.old) → (IsErrOf result FormatRefusal.DiskFault → ⊥)
        × ((D.state disk.new).faults ≡ (D.state disk.old).faults) }
{
    copies_are_read_as_written();
    prepare(disk, shape, containers)?;
    write_first_copy(disk, body)?;
    Ok(())
}
