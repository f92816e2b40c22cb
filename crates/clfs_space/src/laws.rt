// The laws of free sectors, over every shape, place, hold and number of containers.
ghost use Rattle.std.specs.Prelude.{◌≡◌, ◌-◌, ◌^◌, ◌≤◌, ◌<◌, ℕ, false, Some, None};
ghost use Rattle.clfs_lsn.specs.Limits.{most_containers};
ghost use Rattle.clfs_lsn.specs.declared.place.Place.{Place};
ghost use Rattle.clfs_lsn.specs.declared.shape.Shape.{Shape};
ghost use Rattle.clfs_lsn.specs.Size.{own};
ghost use Rattle.clfs_lsn.specs.Place.{IsWithin, joins, begins_here, place_after, sealed};
ghost use Rattle.clfs_lsn.specs.Space.{active_containers, free_sectors, growth, least_containers};
ghost use Rattle.clfs_space.specs.Appending.{HasRoom};
ghost use Rattle.clfs_space.specs.Growing.{IsLeastStep, HasNoStep, IsFewest};
ghost use Rattle.clfs_space.specs.SpaceLaws.{HasSpaceLaws};

/// Where the free sectors are at least those of a record's own block, the record has a place: if it
/// begins the next container there is an id for that one, and the log has it. Afterwards the free
/// sectors are at most the record's own fewer.
pub fn an_append_lowers_the_free_sectors_by_at_most_its_own()
    ensures next_container { (shape : Shape) (place : Place) (hold containers n : ℕ) → HasRoom shape place hold containers n →
        joins shape place n ≡ false → begins_here shape place n ≡ false → place.container < 2 ^ 32 - 1 }
    ensures within { (shape : Shape) (place : Place) (hold containers n : ℕ) → HasRoom shape place hold containers n →
        IsWithin shape (place_after shape place n).1 }
    ensures containers { (shape : Shape) (place : Place) (hold containers n : ℕ) → HasRoom shape place hold containers n →
        active_containers (place_after shape place n).1 hold ≤ containers }
    ensures free { (shape : Shape) (place : Place) (hold containers n : ℕ) → HasRoom shape place hold containers n →
        free_sectors shape place hold containers - own n ≤ free_sectors shape (place_after shape place n).1 hold containers }
{}

/// Sealing the open block leaves the place within its container, and as many free sectors as before.
pub fn sealing_keeps_the_free_sectors()
    ensures within { (shape : Shape) (place : Place) → IsWithin shape place → IsWithin shape (sealed place) }
    ensures free { (shape : Shape) (place : Place) (hold containers : ℕ) →
        free_sectors shape (sealed place) hold containers ≡ free_sectors shape place hold containers }
{}

/// With more containers, or with a hold that is not earlier, there are no fewer free sectors.
pub fn more_containers_or_a_later_hold_free_no_less()
    ensures containers { (shape : Shape) (place : Place) (hold fewer more : ℕ) → fewer ≤ more →
        free_sectors shape place hold fewer ≤ free_sectors shape place hold more }
    ensures hold { (shape : Shape) (place : Place) (earlier later containers : ℕ) → earlier ≤ later →
        free_sectors shape place earlier containers ≤ free_sectors shape place later containers }
{}

/// Growth gives a number of containers that is enough, whole steps away and at most the maximum, and
/// the least such number. For a rate of at least 1 and a maximum of at most 256 it gives none exactly where there is none.
pub fn growth_is_the_least_step_that_is_enough()
    ensures some { (shape : Shape) (place : Place) (hold containers rate maximum wanted n : ℕ) →
        growth shape place hold containers rate maximum wanted ≡ Some n →
        IsLeastStep shape place hold containers rate maximum wanted n }
    ensures none { (shape : Shape) (place : Place) (hold containers rate maximum wanted : ℕ) → 1 ≤ rate → maximum ≤ most_containers →
        growth shape place hold containers rate maximum wanted ≡ None →
        HasNoStep shape place hold containers rate maximum wanted }
{}

/// The least number of containers has those in use and the reserved sectors, and no smaller number has.
pub fn least_containers_are_the_fewest_that_are_enough()
    ensures { (shape : Shape) (place : Place) (hold containers reserved : ℕ) →
        active_containers place hold ≤ containers → reserved ≤ free_sectors shape place hold containers →
        IsFewest shape place hold containers reserved (least_containers shape place hold containers reserved) }
{}

/// The laws that the laws of the log rest on, in one place.
pub fn space_laws()
    ensures { HasSpaceLaws }
{}
