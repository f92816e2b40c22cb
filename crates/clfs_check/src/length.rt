// Whether the files of a log are at full length. A disk has no call that tells how long a file is; but a file has at least so many bytes
// exactly where the last of them can be read.
ghost use Rattle.std.specs.Prelude.{◌≡◌, ◌≤◌, ℕ, nat_le, IfOk, Ok, length};
ghost use Rattle.clfs_disk.specs.State.{TellsContents};
ghost use Rattle.clfs_base.specs.Spelling.{IsImage};
ghost use Rattle.clfs_recover.specs.Whole.{all_long, are_long};
ghost use Rattle.clfs_check.specs.Lengths.{OnlyReads};

use clfs_base::{BaseImage, SLOT_BYTES};
use clfs_disk::{Disk, Failed, calls_join};
use clfs_lsn::SECTOR;

// Whether a file has at least so many bytes.
fn is_long<D: Disk>(disk: &mut D, file: u16, bytes: u32) -> Result<bool, Failed>
    requires file { file ≤ 256 }
    requires some { 1 ≤ bytes }
    ensures exact { IfOk result (λ long. TellsContents (D.state disk.old) → long ≡ nat_le bytes (length ((D.state disk.old).files file))) }
    ensures reads { OnlyReads result (D.state disk.old) (D.state disk.new) }
{
    let mut last = [0];
    let found = disk.read(file, bytes as u64 - 1, &mut last)?;
    Ok(found == 1)
}

// Whether the files 1 to a last one have at least so many bytes each.
fn are_all_long<D: Disk>(disk: &mut D, last: u16, bytes: u32) -> Result<bool, Failed>
    requires files { last ≤ 256 }
    requires some { 1 ≤ bytes }
    ensures exact { IfOk result (λ long. TellsContents (D.state disk.old) → long ≡ all_long (D.state disk.old).files bytes last) }
    ensures reads { OnlyReads result (D.state disk.old) (D.state disk.new) }
{
    calls_join::<D>();
    for below in 0..last {
        if !is_long(disk, below + 1, bytes)? {
            return Ok(false);
        }
    }
    Ok(true)
}

// Whether the files of the log with this newest base copy are at full length.
pub(crate) fn are_whole<D: Disk>(disk: &mut D, image: &BaseImage) -> Result<bool, Failed>
    requires { IsImage image.now }
    ensures exact { (slot : ℕ) → IfOk result (λ whole. TellsContents (D.state disk.old) → whole ≡ are_long (D.state disk.old).files (Ok (slot, image.now))) }
    ensures reads { OnlyReads result (D.state disk.old) (D.state disk.new) }
{
    calls_join::<D>();
    if !is_long(disk, 0, 2 * SLOT_BYTES)? {
        return Ok(false);
    }
    are_all_long(disk, image.files_made, SECTOR * image.container_sectors)
}
