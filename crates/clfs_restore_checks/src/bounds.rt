// How low a log can be restored: its base copy tells that, and a restart area that moves a base doesn't.
use crate::log::{append, archived, at_sector, begin, records, restored};
use clfs_disk::Memory;
use clfs_lsn::{Bytes, Lsn};
use clfs_manager::Manager;
use std::alloc::Global;

// Two records, and after them a restart area that moves the base to the second.
fn fill(alloc: Global, manager: &mut Manager<Memory>) -> Option<()> {
    manager.create_area(1, 1, 960, 4).ok()?;
    let _first = append(alloc, manager, 0, 1, Lsn::null())?;
    let second = append(alloc, manager, 1, 1, Lsn::null())?;
    manager
        .write_restart(1, 1, &Bytes::new(alloc), second, false)
        .ok()?;
    Some(())
}

fn archive(alloc: Global) -> Option<Vec<u8>> {
    let mut manager = Manager::load(alloc, begin(alloc)?, 4).ok()?;
    let done = fill(alloc, &mut manager);
    let disk = manager.close();
    done?;
    let (bytes, _disk) = archived(alloc, disk)?;
    Some(bytes)
}

// How many records come back from the first on, if the log is restored up to a sector.
fn records_below(alloc: Global, sector: u32) -> Option<u8> {
    records(
        alloc,
        restored(alloc, &archive(alloc)?, Some(at_sector(sector)))?,
    )
}

#[test]
fn a_restart_area_that_moves_the_base(rt: HostRuntime) {
    // Below the new base too the log is restored, with the old base: that of the restart area counts only where the area is left.
    assert!(rt; records_below(rt.alloc(), 0) == Some(0));
    assert!(rt; records_below(rt.alloc(), 1) == Some(1));
    assert!(rt; records_below(rt.alloc(), 2) == Some(2));
    assert!(rt; records_below(rt.alloc(), 3) == Some(0));
}
