// How many containers a log has: files that aren't there are made and synced, and then a copy counts them.
ghost use Rattle.std.specs.Prelude.{◌≡◌, ◌⊎◌, ◌+◌, ◌-◌, ◌*◌, ◌<◌, ◌≤◌, ℕ, Bool, length, OnOk, IsErrOf};
ghost use Rattle.clfs_lsn.specs.Format.{sector_bytes};
ghost use Rattle.clfs_disk.specs.State.{TellsContents, IsSettled, IsSteady, Later, Leaves, Rises, raised};
ghost use Rattle.clfs_base.specs.Writing.{older_of};
ghost use Rattle.clfs_physical.specs.Changes.{with_containers, next_copy, CanHave};
ghost use Rattle.clfs_physical.specs.Stored.{Blocks, AreMade, Stores};

use crate::change::Change;
use crate::growth::make_files;
use crate::physical::Physical;
use crate::refusal::PhysicalRefusal;
use clfs_disk::Disk;
use clfs_lsn::SECTOR;

impl Physical {
    /// Gives the log so many containers, more or fewer than it has, and lists those from `first` on.
    pub fn set_containers<D: Disk>(
        &mut self,
        disk: &mut D,
        first: u32,
        containers: u16,
    ) -> Result<(), PhysicalRefusal>
        requires first { self.old.image.first ≤ first }
        requires listed { first + 1 ≤ self.old.image.first + length self.old.image.files }
        requires containers { CanHave containers first self.old.image }
        ensures now { OnOk result (self.new ≡ record { slot = older_of self.old.slot; image = with_containers containers (next_copy first Change.Listing self.old.image) }) }
        ensures written { OnOk result (TellsContents (D.state disk.old) → (whole : Bool) (blocks : Blocks)
            → Stores whole self.old blocks (D.state disk.old).files → Stores whole self.new blocks (D.state disk.new).files) }

        // Also where memory was wanted half way, nothing is pending, and the copy and the open blocks are as before.
        ensures settled { (IsErrOf result PhysicalRefusal.DiskFault → ⊥) → IsSettled (D.state disk.old) → IsSettled (D.state disk.new) }
        ensures no_memory { IsErrOf result PhysicalRefusal.NoMemory → self.new ≡ self.old }
        ensures kept { IsErrOf result PhysicalRefusal.NoMemory → (whole : Bool) (blocks : Blocks) → Stores whole self.old blocks (D.state disk.old).files
            → Stores whole self.old blocks (D.state disk.new).files }

        // Whatever the answer, a crash at any moment leaves the same open blocks under the copy of before or under this one.
        ensures moments { IsSettled (D.state disk.old) → (whole : Bool) (blocks : Blocks) → Stores whole self.old blocks (D.state disk.old).files
            → Leaves (λ image. Stores whole self.old blocks image
            ⊎ Stores whole (record { slot = older_of self.old.slot; image = with_containers containers (next_copy first Change.Listing self.old.image) }) blocks image)
            (D.state disk.old) (D.state disk.new) }

        // Where memory was wanted no copy was begun, so a crash at any moment leaves the one of before.
        ensures no_copy { IsErrOf result PhysicalRefusal.NoMemory → IsSettled (D.state disk.old) → (whole : Bool) (blocks : Blocks)
            → Stores whole self.old blocks (D.state disk.old).files
            → Leaves (λ image. Stores whole self.old blocks image) (D.state disk.old) (D.state disk.new) }

        // The files that it makes are at full length, whatever the others are, and it makes no more calls than one for each of them, a sync, and
        // those of a copy.
        ensures made { OnOk result (TellsContents (D.state disk.old) ⊎ IsSteady (D.state disk.old) → (file : ℕ)
            → self.old.image.files_made < file → file ≤ containers
            → sector_bytes * self.old.image.container_sectors ≤ length ((D.state disk.new).files file)) }
        ensures calls_at_most { OnOk result (raised 0 (D.state disk.new).calls
            ≤ raised (containers - self.old.image.files_made + 8) (D.state disk.old).calls) }

        ensures time { Later (D.state disk.old) (D.state disk.new) }
        ensures cause { IsErrOf result PhysicalRefusal.DiskFault → Rises (D.state disk.old).faults (D.state disk.new).faults }
        ensures steady { IsSteady (D.state disk.old) → AreMade self.old.image (D.state disk.old).files
            → (IsErrOf result PhysicalRefusal.DiskFault → ⊥) × ((D.state disk.new).faults ≡ (D.state disk.old).faults) }
    {
        let image = self.image();
        let made = image.files_made;
        let len = SECTOR as u64 * image.container_sectors as u64;
        make_files(disk, made, containers, len)?;
        self.write_containers(disk, first, containers)?;
        Ok(())
    }
}
