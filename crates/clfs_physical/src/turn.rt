// A turn to the next container, once all is on the disk that waited, in two parts: a copy without the low containers is written, and a file is
// taken. It takes no memory. What waits lies in the container that the log leaves, and so it is on the disk before a copy
// lists the next one: a crash never leaves a later container beside an earlier one that has lost blocks.
ghost use Rattle.std.specs.Prelude.{◌≡◌, ◌⊎◌, ◌+◌, ◌≤◌, Bool, ℕ, [], length, OnOk, OnErr, IsOk};
ghost use Rattle.clfs_disk.specs.State.{TellsContents, IsSettled, IsSteady, Later, Leaves, Rises, raised};
ghost use Rattle.clfs_physical.specs.Joined.{SameLengths};
ghost use Rattle.clfs_physical.specs.Stored.{Blocks, AreMade, Stores, with_blocks};
ghost use Rattle.clfs_physical.specs.Taking.{IsNextFile, HasRoom, low_of, taken_of, InTurn};

use crate::free::free_file;
use crate::physical::Physical;
use clfs_disk::{Disk, Failed};

impl Physical {
    /// Turns the log to its next container, where nothing waits any more: lists the containers from `first` on, and takes the least file that isn't
    /// listed. It takes no memory.
    pub fn turn<D: Disk>(&mut self, disk: &mut D, first: u32) -> Result<(), Failed>
        requires first { self.old.image.first ≤ first }
        requires listed { first + 1 ≤ self.old.image.first + length self.old.image.files }
        requires room { HasRoom (low_of first self.old).image }
        ensures now { OnOk result ((file : ℕ) → IsNextFile (low_of first self.old).image file → self.new ≡ taken_of file (low_of first self.old)) }
        ensures file { (file : ℕ) × IsNextFile (low_of first self.old).image file }
        ensures written { OnOk result (TellsContents (D.state disk.old) → (whole : Bool) (file : ℕ) (blocks : Blocks)
            → IsNextFile (low_of first self.old).image file → Stores whole self.old blocks (D.state disk.old).files
            → Stores whole self.new (with_blocks file [] blocks) (D.state disk.new).files) }
        ensures settled { OnOk result (IsSettled (D.state disk.old) → IsSettled (D.state disk.new)) }

        // Whatever the answer, a crash at any moment leaves the log of before, or one after each part.
        ensures moments { IsSettled (D.state disk.old) → (whole : Bool) (file : ℕ) (blocks : Blocks)
            → IsNextFile (low_of first self.old).image file → Stores whole self.old blocks (D.state disk.old).files
            → Leaves (InTurn whole self.old first file blocks) (D.state disk.old) (D.state disk.new) }

        ensures lengths { SameLengths (D.state disk.old).files (D.state disk.new).files }
        ensures time { Later (D.state disk.old) (D.state disk.new) }
        ensures calls_at_most { raised 0 (D.state disk.new).calls ≤ raised 16 (D.state disk.old).calls }
        ensures cause { OnErr result (Rises (D.state disk.old).faults (D.state disk.new).faults) }
        ensures steady { IsSteady (D.state disk.old) → AreMade self.old.image (D.state disk.old).files
            → IsOk result × ((D.state disk.new).faults ≡ (D.state disk.old).faults) }
    {
        let file = self.next_file(first);
        self.turn_to(disk, first, file)
    }

    // The file that the next container takes.
    fn next_file(&self, first: u32) -> u16
        requires first { self.now.image.first ≤ first }
        requires listed { first + 1 ≤ self.now.image.first + length self.now.image.files }
        requires room { HasRoom (low_of first self.now).image }
        ensures { IsNextFile (low_of first self.now).image result }
    {
        let image = self.image();
        let listed = image
            .files
            .as_slice()
            .split_at((first - image.first) as usize)
            .1;
        free_file(image.files_made, listed)
    }

    // Turns the log to its next container, which takes this file.
    fn turn_to<D: Disk>(&mut self, disk: &mut D, first: u32, file: u16) -> Result<(), Failed>
        requires first { self.old.image.first ≤ first }
        requires listed { first + 1 ≤ self.old.image.first + length self.old.image.files }
        requires room { HasRoom (low_of first self.old).image }
        requires free { IsNextFile (low_of first self.old).image file }
        ensures now { OnOk result (self.new ≡ taken_of file (low_of first self.old)) }
        ensures written { OnOk result (TellsContents (D.state disk.old) → (whole : Bool) (blocks : Blocks)
            → Stores whole self.old blocks (D.state disk.old).files
            → Stores whole self.new (with_blocks file [] blocks) (D.state disk.new).files) }
        ensures settled { OnOk result (IsSettled (D.state disk.old) → IsSettled (D.state disk.new)) }
        ensures moments { IsSettled (D.state disk.old) → (whole : Bool) (blocks : Blocks) → Stores whole self.old blocks (D.state disk.old).files
            → Leaves (InTurn whole self.old first file blocks) (D.state disk.old) (D.state disk.new) }
        ensures lengths { SameLengths (D.state disk.old).files (D.state disk.new).files }
        ensures time { Later (D.state disk.old) (D.state disk.new) }
        ensures calls_at_most { raised 0 (D.state disk.new).calls ≤ raised 16 (D.state disk.old).calls }
        ensures cause { OnErr result (Rises (D.state disk.old).faults (D.state disk.new).faults) }
        ensures steady { IsSteady (D.state disk.old) → AreMade self.old.image (D.state disk.old).files
            → IsOk result × ((D.state disk.new).faults ≡ (D.state disk.old).faults) }
    {
        self.drop_low(disk, first)?;
        self.take_file(disk, file)
    }
}
