ghost use Rattle.std.specs.Prelude.{◌≡◌, length, IfOk};

use clfs_lsn::{Lsn, Place};
use clfs_tail::LogTail;
use std::alloc::{AllocError, Global};

// The LSN of a container's first record, where it may have one.
fn first_of(container: u32) -> Option<Lsn> {
    Some(Lsn::from_parts(container, 0, 0))
}

// Four streams without records.
fn four_streams(alloc: Global) -> Result<LogTail, AllocError>
    ensures { IfOk result (λ tail. length tail.firsts ≡ 4) }
{
    let mut tail = LogTail::new(alloc);
    tail.reserve()?;
    tail.add();
    tail.reserve()?;
    tail.add();
    tail.reserve()?;
    tail.add();
    tail.reserve()?;
    tail.add();
    Ok(tail)
}

#[test]
fn the_hold_is_the_least_that_is_needed(rt: HostRuntime) -> Result<(), AllocError> {
    let place = Place {
        container: 7,
        offset: 512,
        used: 0,
        records: 0,
    };
    let mut tail = four_streams(rt.alloc())?;
    assert!(rt; tail.hold(None, &place) == clfs_lsn::frontier(&place));
    tail.set_first(4, first_of(5));
    tail.set_first(2, first_of(3));
    assert!(rt; Some(tail.hold(None, &place)) == first_of(3));
    tail.set_first(2, first_of(6));
    assert!(rt; Some(tail.hold(None, &place)) == first_of(5));
    assert!(rt; Some(tail.hold(first_of(2), &place)) == first_of(2));
    tail.set_first(4, None);
    tail.push(2, Lsn::from_parts(7, 0, 0));
    tail.push(3, Lsn::from_parts(7, 0, 1));
    assert!(rt; Some(tail.hold(None, &place)) == first_of(6));
    Ok(())
}
