// Files in memory for logs that need no crash: no call fails but a write that ends past its file's end.
ghost use Rattle.std.specs.Prelude.{◌≡◌, [], ℕ, length, IfOk};
ghost use Rattle.clfs_disk.specs.State.{IsFirst};
ghost use Rattle.clfs_disk.specs.Table.{files_of};

use crate::bytes::{has_range, lengthen, make_room, overwrite, read_from};
use crate::disk::FILES;
use crate::{Disk, Failed, GrowRefusal};
use std::alloc::{AllocError, Global};

/// Files in memory that tell what they hold and nothing of crashes.
#[derive(Drop)]
pub struct Steady {
    files: Vec<Vec<u8>>,
    calls: u64,
    faults: u64,
    ghost count: { length files.items ≡ 257 },
}

impl Steady {
    ghost use Rattle.clfs_disk.specs.Steady.{steady_shown};

    /// Empty files. Each grows in the memory of its own growth.
    pub fn new(alloc: Global) -> Result<Steady, AllocError>
        ensures { IfOk result (λ disk. IsFirst (steady_shown disk)) }
    {
        Ok(Steady {
            files: empty_files(alloc)?,
            calls: 0,
            faults: 0,
        })
    }
}

// As many files as a disk has, all of them empty.
fn empty_files(alloc: Global) -> Result<Vec<Vec<u8>>, AllocError>
    ensures count { IfOk result (λ files. length files.items ≡ 257) }
    ensures empty { IfOk result (λ files. (file : ℕ) → files_of files.items file ≡ []) }
{
    let mut files = Vec::with_capacity(alloc, FILES)?;
    for _ in 0..FILES {
        files.push(Vec::new(alloc))?;
    }
    Ok(files)
}

impl Disk for Steady {
    ghost use Rattle.clfs_disk.specs.Steady.{steady_shown};

    ghost state = { steady_shown };

    ghost reads_as_image = { λ disk honest. tt };

    fn read(&mut self, file: u16, at: u64, out: &mut [u8]) -> Result<usize, Failed> {
        self.calls = self.calls.saturating_add(1);
        Ok(read_from(&self.files[file as usize], at, out))
    }

    fn write(&mut self, file: u16, at: u64, bytes: &[u8]) -> Result<(), Failed> {
        self.calls = self.calls.saturating_add(1);
        if !has_range(&self.files[file as usize], at, bytes.len()) {
            self.faults = self.faults.saturating_add(1);
            return Err(Failed);
        }
        overwrite(&mut self.files[file as usize], at, bytes);
        Ok(())
    }

    fn grow(&mut self, file: u16, len: u64) -> Result<(), GrowRefusal> {
        self.calls = self.calls.saturating_add(1);
        let bytes = &mut self.files[file as usize];
        if make_room(bytes, len).is_err() {
            return Err(GrowRefusal::NoMemory);
        }
        lengthen(bytes, len);
        Ok(())
    }

    fn sync(&mut self) -> Result<(), Failed> {
        self.calls = self.calls.saturating_add(1);
        Ok(())
    }
}
