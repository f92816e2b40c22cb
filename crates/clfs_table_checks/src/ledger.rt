ghost use Rattle.std.specs.Prelude.{◌≡◌, []};

use clfs_ledger::{Reservations, Short};
use std::alloc::AllocError;
use std::process::Abort;

fn check_two_areas(rt: &impl Abort, ledger: &mut Reservations) -> Result<(), AllocError>
    requires { ledger.old ≡ [] }
{
    ledger.add(1, 1)?;
    assert!(rt; ledger.spend(1, 1, 1) == Err(Short { held: 0 }));
    ledger.hold(1, 1, 3);
    assert!(rt; ledger.spend(1, 1, 2) == Ok(()));
    ledger.add(2, 1)?;
    assert!(rt; (ledger.held(1, 1), ledger.held(2, 1), ledger.total()) == (1, 0, 1));
    ledger.hold(2, 1, 4);
    assert!(rt; ledger.spend(2, 1, 5) == Err(Short { held: 4 }));
    assert!(rt; ledger.spend(2, 1, 4) == Ok(()));
    assert!(rt; ledger.remove(1, 1) == 1);
    assert!(rt; ledger.total() == 0);

    // An area without a row holds none, and there is nothing to take away.
    assert!(rt; ledger.remove(1, 1) == 0);
    assert!(rt; ledger.held(1, 1) == 0);
    assert!(rt; ledger.spend(1, 1, 0) == Ok(()));
    assert!(rt; ledger.spend(1, 1, 1) == Err(Short { held: 0 }));
    Ok(())
}

#[test]
fn held_sectors(rt: HostRuntime) -> Result<(), AllocError> {
    let mut ledger = Reservations::new(rt.alloc());
    check_two_areas(&rt, &mut ledger)
}
