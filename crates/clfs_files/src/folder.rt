// A folder as a disk: files `base` and `c1` to `c256`. It tells nothing of what they hold, so what its calls do is not proved; what is
// proved is that each call counts as one, and fails only if the count of faults rises.
ghost use Rattle.std.specs.Prelude.{◌≡◌};
ghost use Rattle.clfs_files.specs.Shown.{shown};

use crate::access::Access;
use crate::location::{FileUse, Location};
use clfs_disk::{Disk, Failed, GrowRefusal};

/// A folder of the system, locked from the first call on. A file that isn't in it is empty.
#[derive(Drop)]
pub struct Folder {
    access: Access,
    calls: u64,
    faults: u64,
}

impl Folder {
    /// A folder by its path. Nothing is looked at before the first call. The path's last name need not be there: the first growth makes
    /// the folder.
    pub fn new(rt: HostRuntime, path: String) -> Folder
        ensures calls { (shown result).calls ≡ 0 }
        ensures faults { (shown result).faults ≡ 0 }
    {
        Folder::used_for(rt, path, FileUse::Writing)
    }

    /// The same whose files are opened for this. Where they are only to be read, those that may not be written are read all the same, and every write fails.
    pub fn used_for(rt: HostRuntime, path: String, use_of_files: FileUse) -> Folder
        ensures calls { (shown result).calls ≡ 0 }
        ensures faults { (shown result).faults ≡ 0 }
    {
        Folder {
            access: Access::new(Location::new(rt, path, use_of_files)),
            calls: 0,
            faults: 0,
        }
    }

    /// Whether another process was found to have the folder. Every call fails then. Tests ask it; users read it on standard error.
    pub fn is_taken(&self) -> bool {
        self.access.is_taken()
    }

    /// Says on standard error that the folder isn't there, if a call has found that. It is for who looked for a log in it.
    pub fn tell_absent(&self) {
        self.access.tell_absent();
    }

    /// How many bytes its files have together, once a call has opened it.
    pub fn byte_count(&self) -> u64 {
        self.access.byte_count()
    }
}

impl Disk for Folder {
    ghost use Rattle.clfs_files.specs.Shown.{shown};

    ghost state = { shown };

    ghost reads_as_image = { λ folder honest. tt };

    fn read(&mut self, file: u16, at: u64, out: &mut [u8]) -> Result<usize, Failed> {
        self.calls = self.calls.saturating_add(1);
        match self.access.read(file, at, out) {
            Ok(count) => Ok(count),
            Err(fault) => {
                self.access.tell(fault);
                self.faults = self.faults.saturating_add(1);
                Err(Failed)
            }
        }
    }

    fn write(&mut self, file: u16, at: u64, bytes: &[u8]) -> Result<(), Failed> {
        self.calls = self.calls.saturating_add(1);
        match self.access.write(file, at, bytes) {
            Ok(()) => Ok(()),
            Err(fault) => {
                self.access.tell(fault);
                self.faults = self.faults.saturating_add(1);
                Err(Failed)
            }
        }
    }

    fn grow(&mut self, file: u16, len: u64) -> Result<(), GrowRefusal> {
        self.calls = self.calls.saturating_add(1);
        let Ok(zeros) = self.access.zeros(len) else {
            return Err(GrowRefusal::NoMemory);
        };
        match self.access.grow(file, len, &zeros) {
            Ok(()) => Ok(()),
            Err(fault) => {
                self.access.tell(fault);
                self.faults = self.faults.saturating_add(1);
                Err(GrowRefusal::Failed)
            }
        }
    }

    fn sync(&mut self) -> Result<(), Failed> {
        self.calls = self.calls.saturating_add(1);
        match self.access.sync() {
            Ok(()) => Ok(()),
            Err(fault) => {
                self.access.tell(fault);
                self.faults = self.faults.saturating_add(1);
                Err(Failed)
            }
        }
    }
}
