ghost use Rattle.std.specs.Prelude.{◌≡◌};
ghost use Rattle.clfs_lsn.specs.declared.entry.Kind.TheVariants.{Restart};

use clfs_lsn::{Head, Kind, Lsn};
use clfs_restart::RestartAreas;
use std::alloc::{AllocError, Global};

// The head of a restart area with an LSN of this number.
fn head(number: u64) -> Head
    ensures lsn { result.lsn ≡ number }
    ensures kind { result.kind ≡ Restart }
{
    Head {
        lsn: Lsn::of_number(number),
        stream: 1,
        kind: Kind::Restart,
        previous: Lsn::null(),
        undo_next: Lsn::null(),
        new_base: Lsn::null(),
        len: 8,
    }
}

// The restart areas 3 and 5 of a stream.
fn two_areas(alloc: Global) -> Result<RestartAreas, AllocError> {
    let mut areas = RestartAreas::new(alloc, Lsn::null());
    areas.reserve()?;
    areas.push(head(3));
    areas.reserve()?;
    areas.push(head(5));
    Ok(areas)
}

#[test]
fn restart_areas_come_newest_first(rt: HostRuntime) -> Result<(), AllocError> {
    let mut areas = two_areas(rt.alloc())?;
    let five = Lsn::of_number(5);
    assert!(rt; areas.newest() == Some(head(5)) && areas.below(five) == Some(head(3)));
    areas.set_base(five);
    assert!(rt; areas.below(five).is_none());
    areas.forget_below(five);
    assert!(rt; areas.newest() == Some(head(5)));
    Ok(())
}
