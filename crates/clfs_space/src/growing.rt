// The numbers of containers that give enough free sectors. Each later container adds the same number of
// them, so the least number that is enough is a division, rounded up.
ghost use Rattle.std.specs.Prelude.{◌≡◌, ◌+◌, ◌-◌, ◌≤◌, ◌<◌, IfSome, IfNone};
ghost use Rattle.clfs_lsn.specs.Limits.{most_containers};
ghost use Rattle.clfs_lsn.specs.Lsn.{container_of};
ghost use Rattle.clfs_lsn.specs.Size.{IsShape};
ghost use Rattle.clfs_lsn.specs.Place.{IsWithin};
ghost use Rattle.clfs_lsn.specs.Space.{active_containers, free_sectors, growth, least_containers};
ghost use Rattle.clfs_space.specs.Enough.{IsThreshold, IsOutOfReach};
ghost use Rattle.clfs_space.specs.Growing.{IsLeastStep, HasNoStep, IsFewest};

use crate::free::{active_containers, sectors_here, sectors_of_each};
use clfs_lsn::{Lsn, Place, Shape};

/// The number of containers after the log has grown by the least number of steps with which it has the
/// wanted free sectors, a step being `rate` containers. None where no number of steps up to `maximum`
/// containers is enough.
pub fn growth(
    shape: &Shape,
    place: &Place,
    hold: Lsn,
    containers: u32,
    rate: u32,
    maximum: u32,
    wanted: u32,
) -> Option<u32>
    requires shape { IsShape shape.now }
    requires place { IsWithin shape.now place.now }
    requires hold { container_of hold ≤ place.now.container }
    requires active { active_containers place.now hold ≤ containers }
    requires containers { containers ≤ most_containers }
    requires rate { 1 ≤ rate }
    requires maximum { maximum ≤ most_containers }
    ensures value { result ≡ growth shape.now place.now hold containers rate maximum wanted }
    ensures some { IfSome result (IsLeastStep shape.now place.now hold containers rate maximum wanted) }
    ensures none { IfNone result (HasNoStep shape.now place.now hold containers rate maximum wanted) }
{
    let enough = containers_for(shape, place, hold, wanted)?;
    let steps = enough.saturating_sub(containers).div_ceil(rate).max(1);
    let grown = containers as u64 + steps as u64 * rate as u64;
    if grown > maximum as u64 {
        return None;
    }
    Some(grown as u32)
}

/// The least number of containers with which the log still has the reserved sectors, those in use
/// among them.
pub fn least_containers(
    shape: &Shape,
    place: &Place,
    hold: Lsn,
    containers: u32,
    reserved: u32,
) -> u32
    requires shape { IsShape shape.now }
    requires place { IsWithin shape.now place.now }
    requires hold { container_of hold ≤ place.now.container }
    requires active { active_containers place.now hold ≤ containers }
    requires containers { containers ≤ most_containers }
    requires reserved { reserved ≤ free_sectors shape.now place.now hold containers }
    ensures value { result ≡ least_containers shape.now place.now hold containers reserved }
    ensures fewest { IsFewest shape.now place.now hold containers reserved result }
{
    containers_for(shape, place, hold, reserved).unwrap_or(containers)
}

// The least number of containers, those in use among them, that gives the wanted free sectors. None
// where no number does, since container ids end.
fn containers_for(shape: &Shape, place: &Place, hold: Lsn, wanted: u32) -> Option<u32>
    requires shape { IsShape shape.now }
    requires place { IsWithin shape.now place.now }
    requires hold { container_of hold ≤ place.now.container }
    requires active { active_containers place.now hold ≤ most_containers }
    ensures some { IfSome result (IsThreshold shape.now place.now hold wanted) }
    ensures none { IfNone result (IsOutOfReach shape.now place.now hold wanted) }
{
    let missing = wanted.saturating_sub(sectors_here(shape, place));
    let next = missing.div_ceil(sectors_of_each(shape));
    if next > u32::MAX - place.container {
        return None;
    }
    Some(active_containers(place, hold) + next)
}
