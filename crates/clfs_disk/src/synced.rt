// One write and one sync, the step of which every change of a log's files is made.
ghost use Rattle.std.specs.Prelude.{◌≤◌};
ghost use Rattle.clfs_disk.specs.Calls.{WritesSynced};

use crate::{Disk, Failed};

/// Writes bytes within a file and syncs them, by two calls of the disk. After an `Err` a crash may leave any bytes in the range.
pub fn write_synced<D: Disk>(disk: &mut D, file: u16, at: u64, bytes: &[u8]) -> Result<(), Failed>
    requires { file ≤ 256 }
    ensures { WritesSynced file at bytes.now result (D.state disk.old) (D.state disk.new) }
{
    disk.write(file, at, bytes)?;
    disk.sync()
}
