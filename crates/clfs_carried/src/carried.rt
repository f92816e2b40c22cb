// The trait of disks whose calls another carries out.
ghost use Rattle.clfs_carried.specs.Keeping.{Keeps};

use clfs_disk::Disk;

/// A disk whose calls another carries out, in their order.
pub trait Carried: Disk {
    /// What becomes of the calls that are still to be carried out, once the first of them is.
    ghost forgets: { Self → Self → Type 0 };

    /// Forgets the first of the calls that are to be carried out. What the disk shows is as it was.
    fn done(&mut self)
        ensures forgets { forgets self.old self.new }
        ensures keeps { Keeps (Self.state self.old) (Self.state self.new) };
}
