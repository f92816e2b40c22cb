// The trait of a disk: what each call does to the files, to what a crash leaves, and to the counts of calls and of faults. It is
// said once, in specs/Calls.antt. What an Ok says of contents and images holds where they are told. A disk that tells neither, as a real folder, shows files that never change, and meets the other clauses by its
// counts alone.
ghost use Rattle.std.specs.Prelude.{◌≤◌};
ghost use Rattle.clfs_disk.specs.State.{DiskState, IsHonest, MayLeave};
ghost use Rattle.clfs_disk.specs.Calls.{Reads, Writes, Grows, Syncs};

use thiserror::Error;

/// The disk failed in a call. What the call was to change may be changed in part.
#[derive(Clone, Copy, Debug, PartialEq, Eq, Error)]
#[error("the disk failed")]
pub struct Failed;

/// Why a file wasn't grown.
#[derive(Clone, Copy, Debug, PartialEq, Eq, Error)]
pub enum GrowRefusal {
    /// The disk failed. The file may be longer than before.
    #[error("the disk failed")]
    Failed,
    /// No memory was left. Nothing has changed.
    #[error("out of memory")]
    NoMemory,
}

// How many files a disk has.
pub(crate) const FILES: usize = 257;

/// Files 0 to 256, each a list of bytes.
pub trait Disk {
    /// All that the disk shows.
    ghost state: { Self → DiskState };

    /// Gives the bytes that are there from byte `at` on, all that `out` has room for, and answers how many.
    fn read(&mut self, file: u16, at: u64, out: &mut [u8]) -> Result<usize, Failed>
        requires { file ≤ 256 }
        ensures { Reads file at out.old out.new result (state self.old) (state self.new) };

    /// Writes within a file. A write that ends past the file's end fails. Until a sync, a crash may leave any bytes in the
    /// range, whatever the answer.
    fn write(&mut self, file: u16, at: u64, bytes: &[u8]) -> Result<(), Failed>
        requires { file ≤ 256 }
        ensures { Writes file at bytes.now result (state self.old) (state self.new) };

    /// Makes a file at least `len` bytes long, the new part zeros. Until a sync, a crash may leave any length between the
    /// two and any bytes in the new part.
    fn grow(&mut self, file: u16, len: u64) -> Result<(), GrowRefusal>
        requires { file ≤ 256 }
        ensures { Grows file len result (state self.old) (state self.new) };

    /// Makes all that was written and grown, in all files, outlast a crash.
    fn sync(&mut self) -> Result<(), Failed>
        ensures { Syncs result (state self.old) (state self.new) };

    /// A disk as it reads is one of its images.
    ghost reads_as_image: { (disk : Self) → IsHonest (state disk) → MayLeave (state disk) (state disk).files };
}
