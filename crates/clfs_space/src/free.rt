// The free sectors: those after the place in its container, and those of the containers that the log
// can still go on to.
ghost use Rattle.std.specs.Prelude.{◌≡◌, ◌+◌, ◌-◌, ◌≤◌};
ghost use Rattle.clfs_lsn.specs.Limits.{most_containers};
ghost use Rattle.clfs_lsn.specs.Lsn.{container_of};
ghost use Rattle.clfs_lsn.specs.Size.{IsShape};
ghost use Rattle.clfs_lsn.specs.Place.{IsWithin};
ghost use Rattle.clfs_lsn.specs.Space.{active_containers, left_sectors, free_sectors};

use clfs_lsn::{Lsn, Place, SECTOR, Shape, sealed};

/// The sectors that appends can surely take, whatever their lengths. The hold is the least LSN that the
/// log still needs; the containers below its own can be used again.
pub fn free_sectors(shape: &Shape, place: &Place, hold: Lsn, containers: u32) -> u32
    requires shape { IsShape shape.now }
    requires place { IsWithin shape.now place.now }
    requires hold { container_of hold ≤ place.now.container }
    requires active { active_containers place.now hold ≤ containers }
    requires containers { containers ≤ most_containers }
    ensures { result ≡ free_sectors shape.now place.now hold containers }
{
    let ids = u32::MAX - place.container;
    let next = ids.min(containers - active_containers(place, hold));
    sectors_here(shape, place) + next * sectors_of_each(shape)
}

// The containers in use, from the hold's to the place's.
pub(crate) fn active_containers(place: &Place, hold: Lsn) -> u32
    requires hold { container_of hold ≤ place.now.container }
    requires active { active_containers place.now hold ≤ most_containers }
    ensures { result ≡ active_containers place.now hold }
{
    place.container - hold.container() + 1
}

// What the place's container can surely take after the open block.
pub(crate) fn sectors_here(shape: &Shape, place: &Place) -> u32
    requires shape { IsShape shape.now }
    requires place { IsWithin shape.now place.now }
    ensures { result ≡ left_sectors shape.now place.now - (shape.now.block_sectors - 1) }
{
    let end = sealed(place).offset / SECTOR;
    let left = shape.container_sectors - end;
    left.saturating_sub(shape.block_sectors - 1)
}

// What an empty container can surely take.
pub(crate) fn sectors_of_each(shape: &Shape) -> u32
    requires { IsShape shape.now }
    ensures { result ≡ shape.now.container_sectors - shape.now.block_sectors + 1 }
{
    shape.container_sectors - shape.block_sectors + 1
}
