// The newest base copy of a log, with the slot that it is in, and the calls that write a group or a copy. The copy that follows is made of
// it where it stands, so that no memory is wanted when the disk is written. What a crash leaves is said of two values: the one
// before the call, and the one after an Ok.
ghost use Rattle.std.specs.Prelude.{◌≡◌, ◌⊎◌, ◌+◌, ◌-◌, ◌*◌, ◌%◌, ◌≤◌, [], List, Bool, ℕ, true, false, length, IfOk, OnOk, OnErr, IsOk, IsErrOf};
ghost use Rattle.clfs_lsn.specs.Format.{sector_bytes};
ghost use Rattle.clfs_disk.specs.State.{TellsContents, IsHonest, IsSettled, IsSteady, Later, Leaves, Rises, raised};
ghost use Rattle.clfs_base.specs.declared.image.BaseImage.{BaseImage};
ghost use Rattle.clfs_base.specs.Spelling.{IsImage, current};
ghost use Rattle.clfs_base.specs.Slots.{is_open_slot};
ghost use Rattle.clfs_base.specs.Writing.{older_of};
ghost use Rattle.clfs_physical.specs.Changes.{with_stream, with_containers, next_copy, Suits, CanHave, IsNewRow};
ghost use Rattle.clfs_physical.specs.Joined.{SameLengths};
ghost use Rattle.clfs_physical.specs.Stored.{Blocks, Newest, AreMade, Stores, Waits, last_file, with_blocks, with_group};
ghost use Rattle.clfs_physical.specs.Taking.{IsNextFile, HasRoom, low_of, taken_of};

use crate::change::{Change, apply, apply_containers, apply_file, apply_stream};
use crate::copy::store_copy;
use crate::group::write_group;
use crate::refusal::PhysicalRefusal;
use clfs_base::{BaseImage, Row, SLOT_BYTES, copies_are_read_as_written};
use clfs_container::{close_first, open_blocks_are_one_list};
use clfs_disk::{Disk, Failed};
use std::alloc::{AllocError, Global};
use std::marker::Model;

// The bytes of a copy after its gate.
const COPY: usize = SLOT_BYTES as usize - 1;

/// The newest base copy, the slot that it is in, and the memory in which the next one is spelled.
#[derive(Drop)]
pub struct Physical {
    pub(crate) alloc: Global,
    image: BaseImage,
    slot: u32,
    bytes: Vec<u8>,
}

impl Model for Physical {
    ghost use Rattle.std.specs.Prelude.{◌≡◌, ◌≤◌, vec_len};
    ghost use Rattle.clfs_base.specs.Spelling.{IsImage};
    ghost use Rattle.clfs_physical.specs.Stored.{Newest, IsKept};

    ghost Value = { Newest };

    ghost view = { λ p. record { slot = p.slot; image = p.image } };

    ghost invariant = { λ p. IsKept p.slot p.image (vec_len p.bytes) };
}

impl Physical {
    /// What was read of the base file. The memory of a copy's bytes is taken here.
    pub fn new(alloc: Global, slot: u32, image: BaseImage) -> Result<Physical, AllocError>
        requires slot { slot ≤ 1 }
        requires image { IsImage image }
        ensures { IfOk result (λ p. p ≡ record { slot = slot; image = image }) }
    {
        let mut bytes = Vec::new(alloc);
        bytes.resize(COPY, 0)?;
        Ok(Physical {
            alloc,
            image,
            slot,
            bytes,
        })
    }

    /// The newest copy.
    pub fn image(&self) -> &BaseImage
        ensures exact { result.now ≡ self.now.image }
        ensures image { IsImage self.now.image }
        ensures current { IsImage (current self.now.image) }
        ensures slot { self.now.slot ≤ 1 }
    {
        copies_are_read_as_written();
        &self.image
    }

    /// Writes the blocks that wait as one group after the open blocks of the last container, at byte `at` of its file. `body` is
    /// the group but for its first byte, and a closed gate after it where the container has a sector there; it is empty where nothing
    /// waits, and then nothing is written.
    pub fn flush<D: Disk>(&self, disk: &mut D, at: u32, body: &[u8]) -> Result<(), Failed>
        ensures written { OnOk result (TellsContents (D.state disk.old) → (whole : Bool) (blocks : Blocks) (more : List (List ℕ))
            → Stores whole self.now blocks (D.state disk.old).files → Waits self.now.image blocks at body.now more
            → Stores whole self.now (with_group self.now.image more blocks) (D.state disk.new).files) }
        ensures settled { OnOk result (IsSettled (D.state disk.old) → IsSettled (D.state disk.new)) }

        // Whatever the answer, a crash at any moment leaves the blocks of before, or these and all of the group.
        ensures moments { IsSettled (D.state disk.old) → (whole : Bool) (blocks : Blocks) (more : List (List ℕ))
            → Stores whole self.now blocks (D.state disk.old).files → Waits self.now.image blocks at body.now more
            → Leaves (λ image. Stores whole self.now blocks image ⊎ Stores whole self.now (with_group self.now.image more blocks) image)
            (D.state disk.old) (D.state disk.new) }

        ensures nothing { body.now ≡ [] → IsOk result × (disk.new ≡ disk.old) }
        ensures lengths { SameLengths (D.state disk.old).files (D.state disk.new).files }
        ensures time { Later (D.state disk.old) (D.state disk.new) }
        ensures calls { OnOk result ((body.now ≡ [] → ⊥) → (D.state disk.new).calls ≡ raised 4 (D.state disk.old).calls) }
        ensures calls_at_most { raised 0 (D.state disk.new).calls ≤ raised 4 (D.state disk.old).calls }
        ensures cause { OnErr result (Rises (D.state disk.old).faults (D.state disk.new).faults) }
        ensures steady { IsSteady (D.state disk.old) → AreMade self.now.image (D.state disk.old).files
            → at + 1 + length body.now ≤ sector_bytes * self.now.image.container_sectors
            → IsOk result × ((D.state disk.new).faults ≡ (D.state disk.old).faults) }
    {
        let file = self.last_file();
        if body.is_empty() {
            return Ok(());
        }
        open_blocks_are_one_list();
        write_group(disk, file, at, body)
    }

    // The file of the last listed container.
    fn last_file(&self) -> u16
        ensures file { result ≡ last_file self.now.image }
        ensures few { result ≤ 256 }
        ensures image { IsImage self.now.image }
    {
        let files = self.image.files.as_slice();
        files[files.len() - 1]
    }

    /// Writes the copy that follows the newest one, with the containers from `first` on and after a change.
    pub fn write_copy<D: Disk>(
        &mut self,
        disk: &mut D,
        first: u32,
        change: &Change,
    ) -> Result<(), Failed>
        requires first { self.old.image.first ≤ first }
        requires listed { first + 1 ≤ self.old.image.first + length self.old.image.files }
        requires change { Suits change.now self.old.image }
        ensures now { OnOk result (self.new ≡ record { slot = older_of self.old.slot; image = next_copy first change.now self.old.image }) }
        ensures written { OnOk result (TellsContents (D.state disk.old) → (whole : Bool) (blocks : Blocks)
            → Stores whole self.old blocks (D.state disk.old).files → Stores whole self.new blocks (D.state disk.new).files) }
        ensures settled { OnOk result (IsSettled (D.state disk.old) → IsSettled (D.state disk.new)) }

        // Whatever the answer, a crash at any moment leaves the same open blocks under the copy of before or under this one.
        ensures moments { IsSettled (D.state disk.old) → (whole : Bool) (blocks : Blocks) → Stores whole self.old blocks (D.state disk.old).files
            → Leaves (λ image. Stores whole self.old blocks image
            ⊎ Stores whole (record { slot = older_of self.old.slot; image = next_copy first change.now self.old.image }) blocks image)
            (D.state disk.old) (D.state disk.new) }

        ensures lengths { SameLengths (D.state disk.old).files (D.state disk.new).files }
        ensures time { Later (D.state disk.old) (D.state disk.new) }
        ensures calls { OnOk result (TellsContents (D.state disk.old) → is_open_slot ((D.state disk.old).files 0) (older_of self.old.slot) ≡ true
            → (D.state disk.new).calls ≡ raised 7 (D.state disk.old).calls) }
        ensures fewer_calls { OnOk result (TellsContents (D.state disk.old) → is_open_slot ((D.state disk.old).files 0) (older_of self.old.slot) ≡ false
            → (D.state disk.new).calls ≡ raised 5 (D.state disk.old).calls) }
        ensures calls_at_most { (D.state disk.new).calls ≤ raised 7 (D.state disk.old).calls }
        ensures cause { OnErr result (Rises (D.state disk.old).faults (D.state disk.new).faults) }
        ensures steady { IsSteady (D.state disk.old) → AreMade self.old.image (D.state disk.old).files
            → IsOk result × ((D.state disk.new).faults ≡ (D.state disk.old).faults) }
    {
        apply(self.alloc, &mut self.image, first, change);
        self.slot = store_copy(disk, self.slot, &self.image, &mut self.bytes)?;
        Ok(())
    }

    /// Writes the copy without the containers below `first`, where the newest lists any.
    pub fn drop_low<D: Disk>(&mut self, disk: &mut D, first: u32) -> Result<(), Failed>
        requires first { self.old.image.first ≤ first }
        requires listed { first + 1 ≤ self.old.image.first + length self.old.image.files }
        ensures now { OnOk result (self.new ≡ low_of first self.old) }
        ensures written { OnOk result (TellsContents (D.state disk.old) → (whole : Bool) (blocks : Blocks)
            → Stores whole self.old blocks (D.state disk.old).files → Stores whole self.new blocks (D.state disk.new).files) }
        ensures settled { OnOk result (IsSettled (D.state disk.old) → IsSettled (D.state disk.new)) }

        // Whatever the answer, a crash at any moment leaves the same open blocks under the copy of before or under this one.
        ensures moments { IsSettled (D.state disk.old) → (whole : Bool) (blocks : Blocks) → Stores whole self.old blocks (D.state disk.old).files
            → Leaves (λ image. Stores whole self.old blocks image ⊎ Stores whole (low_of first self.old) blocks image)
            (D.state disk.old) (D.state disk.new) }

        ensures lengths { SameLengths (D.state disk.old).files (D.state disk.new).files }
        ensures time { Later (D.state disk.old) (D.state disk.new) }
        ensures nothing { first ≡ self.old.image.first → IsOk result × (disk.new ≡ disk.old) }
        ensures calls_at_most { raised 0 (D.state disk.new).calls ≤ raised 7 (D.state disk.old).calls }
        ensures cause { OnErr result (Rises (D.state disk.old).faults (D.state disk.new).faults) }
        ensures steady { IsSteady (D.state disk.old) → AreMade self.old.image (D.state disk.old).files
            → IsOk result × ((D.state disk.new).faults ≡ (D.state disk.old).faults) }
    {
        if first == self.image.first {
            return Ok(());
        }
        self.write_copy(disk, first, &Change::Listing)
    }

    /// Takes a file for the container that follows the last listed one: closes the first gate in it, and then writes the copy that
    /// lists it.
    pub fn take_file<D: Disk>(&mut self, disk: &mut D, file: u16) -> Result<(), Failed>
        requires free { IsNextFile self.old.image file }
        requires room { HasRoom self.old.image }
        ensures now { OnOk result (self.new ≡ taken_of file self.old) }
        ensures written { OnOk result (TellsContents (D.state disk.old) → (whole : Bool) (blocks : Blocks)
            → Stores whole self.old blocks (D.state disk.old).files
            → Stores whole self.new (with_blocks file [] blocks) (D.state disk.new).files) }
        ensures settled { OnOk result (IsSettled (D.state disk.old) → IsSettled (D.state disk.new)) }

        // Whatever the answer, a crash at any moment leaves the log of before, or under the new copy the same open blocks and none in
        // the new container, whatever the file held.
        ensures moments { IsSettled (D.state disk.old) → (whole : Bool) (blocks : Blocks) → Stores whole self.old blocks (D.state disk.old).files
            → Leaves (λ image. Stores whole self.old blocks image ⊎ Stores whole (taken_of file self.old) (with_blocks file [] blocks) image)
            (D.state disk.old) (D.state disk.new) }

        ensures lengths { SameLengths (D.state disk.old).files (D.state disk.new).files }
        ensures time { Later (D.state disk.old) (D.state disk.new) }
        ensures calls { OnOk result (TellsContents (D.state disk.old) → is_open_slot ((D.state disk.old).files 0) (older_of self.old.slot) ≡ true
            → (D.state disk.new).calls ≡ raised 9 (D.state disk.old).calls) }
        ensures fewer_calls { OnOk result (TellsContents (D.state disk.old) → is_open_slot ((D.state disk.old).files 0) (older_of self.old.slot) ≡ false
            → (D.state disk.new).calls ≡ raised 7 (D.state disk.old).calls) }
        ensures calls_at_most { (D.state disk.new).calls ≤ raised 9 (D.state disk.old).calls }
        ensures cause { OnErr result (Rises (D.state disk.old).faults (D.state disk.new).faults) }
        ensures steady { IsSteady (D.state disk.old) → AreMade self.old.image (D.state disk.old).files
            → IsOk result × ((D.state disk.new).faults ≡ (D.state disk.old).faults) }
    {
        apply_file(&mut self.image, file);
        open_blocks_are_one_list();
        close_first(disk, file)?;
        self.slot = store_copy(disk, self.slot, &self.image, &mut self.bytes)?;
        Ok(())
    }

    /// Opens a stream: writes the copy that has it after the others, with the containers from `first` on.
    pub fn add_stream<D: Disk>(
        &mut self,
        disk: &mut D,
        first: u32,
        row: Row,
    ) -> Result<(), PhysicalRefusal>
        requires first { self.old.image.first ≤ first }
        requires listed { first + 1 ≤ self.old.image.first + length self.old.image.files }
        requires row { IsNewRow row self.old.image }
        ensures now { OnOk result (self.new ≡ record { slot = older_of self.old.slot; image = with_stream row (next_copy first Change.Listing self.old.image) }) }
        ensures written { OnOk result (TellsContents (D.state disk.old) → (whole : Bool) (blocks : Blocks)
            → Stores whole self.old blocks (D.state disk.old).files → Stores whole self.new blocks (D.state disk.new).files) }
        ensures settled { OnOk result (IsSettled (D.state disk.old) → IsSettled (D.state disk.new)) }

        // Whatever the answer, a crash at any moment leaves the same open blocks under the copy of before or under this one.
        ensures moments { IsSettled (D.state disk.old) → (whole : Bool) (blocks : Blocks) → Stores whole self.old blocks (D.state disk.old).files
            → Leaves (λ image. Stores whole self.old blocks image
            ⊎ Stores whole (record { slot = older_of self.old.slot; image = with_stream row (next_copy first Change.Listing self.old.image) }) blocks image)
            (D.state disk.old) (D.state disk.new) }

        ensures no_memory { IsErrOf result PhysicalRefusal.NoMemory → (self.new ≡ self.old) × (disk.new ≡ disk.old) }
        ensures lengths { SameLengths (D.state disk.old).files (D.state disk.new).files }
        ensures time { Later (D.state disk.old) (D.state disk.new) }
        ensures calls { OnOk result (TellsContents (D.state disk.old) → is_open_slot ((D.state disk.old).files 0) (older_of self.old.slot) ≡ true
            → (D.state disk.new).calls ≡ raised 7 (D.state disk.old).calls) }
        ensures fewer_calls { OnOk result (TellsContents (D.state disk.old) → is_open_slot ((D.state disk.old).files 0) (older_of self.old.slot) ≡ false
            → (D.state disk.new).calls ≡ raised 5 (D.state disk.old).calls) }
        ensures calls_at_most { raised 0 (D.state disk.new).calls ≤ raised 7 (D.state disk.old).calls }
        ensures cause { IsErrOf result PhysicalRefusal.DiskFault → Rises (D.state disk.old).faults (D.state disk.new).faults }
        ensures steady { IsSteady (D.state disk.old) → AreMade self.old.image (D.state disk.old).files
            → (IsErrOf result PhysicalRefusal.DiskFault → ⊥) × ((D.state disk.new).faults ≡ (D.state disk.old).faults) }
    {
        apply_stream(self.alloc, &mut self.image, first, row)?;
        self.slot = store_copy(disk, self.slot, &self.image, &mut self.bytes)?;
        Ok(())
    }

    /// Writes the copy of a log with so many containers, whose files are made, with the containers from `first` on.
    pub(crate) fn write_containers<D: Disk>(
        &mut self,
        disk: &mut D,
        first: u32,
        containers: u16,
    ) -> Result<(), Failed>
        requires first { self.old.image.first ≤ first }
        requires listed { first + 1 ≤ self.old.image.first + length self.old.image.files }
        requires containers { CanHave containers first self.old.image }
        ensures now { OnOk result (self.new ≡ record { slot = older_of self.old.slot; image = with_containers containers (next_copy first Change.Listing self.old.image) }) }
        ensures written { OnOk result (TellsContents (D.state disk.old) → (whole : Bool) (blocks : Blocks)
            → Stores whole self.old blocks (D.state disk.old).files
            → (whole ≡ true → AreMade (with_containers containers self.old.image) (D.state disk.old).files)
            → Stores whole self.new blocks (D.state disk.new).files) }
        ensures settled { OnOk result (IsSettled (D.state disk.old) → IsSettled (D.state disk.new)) }

        // Whatever the answer, a crash at any moment leaves the same open blocks under the copy of before or under this one.
        ensures moments { IsSettled (D.state disk.old) → (whole : Bool) (blocks : Blocks) → Stores whole self.old blocks (D.state disk.old).files
            → (whole ≡ true → AreMade (with_containers containers self.old.image) (D.state disk.old).files)
            → Leaves (λ image. Stores whole self.old blocks image
            ⊎ Stores whole (record { slot = older_of self.old.slot; image = with_containers containers (next_copy first Change.Listing self.old.image) }) blocks image)
            (D.state disk.old) (D.state disk.new) }

        ensures lengths { SameLengths (D.state disk.old).files (D.state disk.new).files }
        ensures time { Later (D.state disk.old) (D.state disk.new) }
        ensures calls_at_most { (D.state disk.new).calls ≤ raised 7 (D.state disk.old).calls }
        ensures cause { OnErr result (Rises (D.state disk.old).faults (D.state disk.new).faults) }
        ensures steady { IsSteady (D.state disk.old) → AreMade self.old.image (D.state disk.old).files
            → IsOk result × ((D.state disk.new).faults ≡ (D.state disk.old).faults) }
    {
        apply_containers(self.alloc, &mut self.image, first, containers);
        self.slot = store_copy(disk, self.slot, &self.image, &mut self.bytes)?;
        Ok(())
    }
}
