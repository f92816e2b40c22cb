// Laws over the definitions, for callers to cite. Their functions do nothing.
ghost use Rattle.clfs_disk.specs.Joining.{CallsJoin};
ghost use Rattle.clfs_disk.specs.Overwriting.{StandsInPlace};

use crate::Disk;

/// What stands where in bytes that were overwritten: one fact for each part.
pub fn overwritten_bytes_stand_in_place()
    ensures { StandsInPlace }
{}

/// How calls of a disk are joined: one fact for each pair.
pub fn calls_join<D: Disk>()
    ensures { CallsJoin D.state }
{}
