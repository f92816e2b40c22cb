// A disk whose beginning is known, wherever it lies.
//
// Of a value under a lock nothing is known but what its type says. So a disk that goes under one is generic in the name of the disk as it was before,
// and its type says that it came of that one by calls alone. A call that picks the name passes `Brand` for it.
ghost use Rattle.std.specs.Prelude.{◌≡◌, Some};
ghost use Rattle.clfs_manager.specs.Followed.{Follows};

use crate::manager::Manager;
use clfs_disk::{Disk, Failed, GrowRefusal};
use std::marker::{Brand, Model, PhantomData};

/// The name of a disk as it was at some time, which each call of a program picks.
pub trait DiskName<D> {
    ghost use Rattle.std.specs.Prelude.{Option};

    // The disk, if one was picked.
    ghost begun: { Option D };
}

impl<D> DiskName<D> for Brand {
    ghost use Rattle.std.specs.Prelude.{None};

    ghost begun = { None };
}

/// A disk that came of the named one by calls of a disk alone. It shows what the disk in it shows, and contracts see that one.
#[derive(Drop)]
pub struct Followed<D: Disk, N: DiskName<D>> {
    disk: D,
    name: PhantomData<N>,
}

impl<D: Disk, N: DiskName<D>> Model for Followed<D, N> {
    ghost use Rattle.clfs_manager.specs.Followed.{Follows};

    ghost Value = { D };

    ghost view = { λ f. f.disk };

    ghost invariant = { λ f. Follows D.state N.begun f.disk };
}

impl<D: Disk, N: DiskName<D>> Disk for Followed<D, N> {
    ghost state = { λ disk. D.state disk };

    ghost reads_as_image = { λ disk honest. D.reads_as_image disk honest };

    #[inline(always)]
    fn read(&mut self, file: u16, at: u64, out: &mut [u8]) -> Result<usize, Failed> {
        self.disk.read(file, at, out)
    }

    #[inline(always)]
    fn write(&mut self, file: u16, at: u64, bytes: &[u8]) -> Result<(), Failed> {
        self.disk.write(file, at, bytes)
    }

    #[inline(always)]
    fn grow(&mut self, file: u16, len: u64) -> Result<(), GrowRefusal> {
        self.disk.grow(file, len)
    }

    #[inline(always)]
    fn sync(&mut self) -> Result<(), Failed> {
        self.disk.sync()
    }
}

impl<D: Disk> Manager<D> {
    /// The same log, over a disk of which its type says that it came of this one.
    pub fn followed<N: DiskName<D>>(self) -> Manager<Followed<D, N>>
        requires { N.begun ≡ Some self.1 }
        ensures state { result.0 ≡ self.0 }
        ensures disk { result.1 ≡ self.1 }
    {
        let Manager { disk, log } = self;
        let disk = Followed {
            disk,
            name: PhantomData,
        };
        Manager { disk, log }
    }
}

impl<D: Disk, N: DiskName<D>> Manager<Followed<D, N>> {
    /// The same log, over the disk itself, which came of the named one.
    pub fn unfollowed(self) -> Manager<D>
        ensures state { result.0 ≡ self.0 }
        ensures disk { result.1 ≡ self.1 }
        ensures follows { Follows D.state N.begun result.1 }
    {
        let Manager { disk, log } = self;
        let Followed { disk, name: _ } = disk;
        Manager { disk, log }
    }
}
