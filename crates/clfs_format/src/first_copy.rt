// The first base copy of a log: what it says, and how it comes to be there.
ghost use Rattle.std.specs.Prelude.{◌≡◌, ◌-◌, ◌*◌, ◌≤◌, length, IfOk, OnOk, OnErr, IsOk};
ghost use Rattle.clfs_lsn.specs.Limits.{most_containers};
ghost use Rattle.clfs_lsn.specs.Size.{IsShape};
ghost use Rattle.clfs_disk.specs.State.{TellsContents, IsSteady, IsHonest, IsSettled, Later, Leaves, Rises, raised};
ghost use Rattle.clfs_base.specs.declared.image.BaseImage.{BaseImage};
ghost use Rattle.clfs_base.specs.Layout.{slot_bytes};
ghost use Rattle.clfs_base.specs.Spelling.{IsImage, spelled};
ghost use Rattle.clfs_base.specs.Writing.{HasNewest, HasNoCopy, NoneOrFirst};
ghost use Rattle.clfs_format.specs.Making.{SameLengths, first_image};

use clfs_base::{BaseImage, Files, Rows, SLOT_BYTES, VERSION, encode, open_slot, write_body};
use clfs_disk::{Disk, Failed, calls_join};
use clfs_lsn::{Lsn, Shape};
use std::alloc::{AllocError, Global};

// What the first copy says.
fn first_image(
    alloc: Global,
    shape: &Shape,
    dedicated: bool,
    containers: u16,
) -> Result<BaseImage, AllocError>
    ensures { IfOk result (λ image. image ≡ first_image shape.now dedicated containers) }
{
    let mut files = Files::new(alloc)?;
    files.push(1);
    Ok(BaseImage {
        version: VERSION,
        turn: 0,
        block_sectors: shape.block_sectors,
        container_sectors: shape.container_sectors,
        containers,
        files_made: containers,
        first: 1,
        archiving: false,
        automatic: false,
        maximum: 0,
        minimum: 0,
        growth: 0,
        tail: Lsn::of_number(0),
        dedicated,
        files,
        streams: Rows::from_vec(Vec::new(alloc)),
    })
}

/// The bytes of the first copy after its gate.
pub(crate) fn first_copy(
    alloc: Global,
    shape: &Shape,
    dedicated: bool,
    containers: u16,
) -> Result<Vec<u8>, AllocError>
    requires shape { IsShape shape.now }
    requires some { 1 ≤ containers }
    requires few { containers ≤ most_containers }
    ensures { IfOk result (λ bytes. bytes.items ≡ spelled (first_image shape.now dedicated containers)) }
{
    let image = first_image(alloc, shape, dedicated, containers)?;
    let mut bytes = Vec::new(alloc);
    bytes.resize(SLOT_BYTES as usize - 1, 0)?;
    encode(&image, &mut bytes);
    Ok(bytes)
}

/// Writes the first base copy of a log after the closed gate of slot 0, syncs it, and opens the gate.
pub fn write_first_copy<D: Disk>(disk: &mut D, body: &[u8]) -> Result<(), Failed>
    requires { length body.now ≡ slot_bytes - 1 }
    ensures written { OnOk result (TellsContents (D.state disk.old) → (image : BaseImage) → IsImage image
        → body.now ≡ spelled image → HasNoCopy (D.state disk.old).files
        → HasNewest 0 image (D.state disk.old).files (D.state disk.new).files) }
    ensures settled { OnOk result (IsHonest (D.state disk.old) → IsSettled (D.state disk.new)) }

    // Whatever the answer, a crash at any moment leaves no open slot or this copy.
    ensures moments { IsSettled (D.state disk.old) → (image : BaseImage) → IsImage image
        → body.now ≡ spelled image → HasNoCopy (D.state disk.old).files
        → Leaves (NoneOrFirst 0 image (D.state disk.old).files) (D.state disk.old) (D.state disk.new) }

    ensures lengths { SameLengths (D.state disk.old).files (D.state disk.new).files }
    ensures time { Later (D.state disk.old) (D.state disk.new) }
    ensures calls { OnOk result ((D.state disk.new).calls ≡ raised 4 (D.state disk.old).calls) }
    ensures cause { OnErr result (Rises (D.state disk.old).faults (D.state disk.new).faults) }
    ensures steady { IsSteady (D.state disk.old) → 2 * slot_bytes ≤ length ((D.state disk.old).files 0)
        → IsOk result × ((D.state disk.new).faults ≡ (D.state disk.old).faults) }
{
    calls_join::<D>();
    write_body(disk, 0, body)?;
    open_slot(disk, 0)
}
