// The law by which a plan stands for a disk on which it is carried out. Its function does nothing.
ghost use Rattle.clfs_planned.specs.Carrying.{PlansCarryOver};

use clfs_disk::Disk;

/// Whoever carries out a plan in order, on a disk that keeps what it synced, comes to the images of the plan's moments.
pub fn plans_carry_over<D: Disk>()
    ensures { PlansCarryOver D.state }
{}
