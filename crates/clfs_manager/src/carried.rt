// The disk of a log that is open, where another carries out its calls: who does that sees the disk, and tells it what is done.
ghost use Rattle.std.specs.Prelude.{◌≡◌};
ghost use Rattle.clfs_carried.specs.Keeping.{Keeps};

use crate::manager::Manager;
use clfs_carried::Carried;
use clfs_disk::Disk;

impl<D: Disk> Manager<D> {
    /// The disk.
    pub fn disk(&self) -> &D
        ensures { result.now ≡ self.now.1 }
    {
        &self.disk
    }
}

impl<D: Carried> Manager<D> {
    /// Has the disk forget the first of the calls that are to be carried out. The log is as it was, and so is what the disk shows.
    pub fn done(&mut self)
        ensures state { self.new.0 ≡ self.old.0 }
        ensures forgets { D.forgets self.old.1 self.new.1 }
        ensures keeps { Keeps (D.state self.old.1) (D.state self.new.1) }
    {
        self.disk.done();
    }
}
