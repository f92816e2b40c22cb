// Several archives of one log, taken together in different orders.
use crate::log::{archived, at_sector, begin, empty, filled, records, restored};
use clfs_disk::{Disk, Memory};
use clfs_lsn::Lsn;
use clfs_manager::Manager;
use clfs_restore::{RestoreRefusal, restore};
use std::alloc::Global;

// The tail moves to where all is flushed.
fn move_tail(alloc: Global, disk: Memory, lsn: Lsn) -> Option<Memory> {
    let mut manager = Manager::load(alloc, disk, 4).ok()?;
    let moved = manager.set_archive_tail(lsn);
    let disk = manager.close();
    if moved.is_ok() { Some(disk) } else { None }
}

// Three archives of a log with two containers of 8 records: of the first container; of both, with one record in the second; and of the second alone, with
// two records.
#[derive(Drop)]
struct Archives {
    first: Vec<u8>,
    both: Vec<u8>,
    second: Vec<u8>,
}

fn three_archives(alloc: Global) -> Option<Archives> {
    let disk = filled(alloc, begin(alloc)?, 0, 8)?;
    let (first, disk) = archived(alloc, disk)?;
    let disk = filled(alloc, disk, 8, 9)?;
    let (both, disk) = archived(alloc, disk)?;
    let disk = filled(alloc, move_tail(alloc, disk, at_sector(9))?, 9, 10)?;
    let (second, _disk) = archived(alloc, disk)?;
    Some(Archives {
        first,
        both,
        second,
    })
}

fn together(alloc: Global, earlier: &[u8], later: &[u8]) -> Option<Vec<u8>> {
    let mut bytes = Vec::from_slice(alloc, earlier).ok()?;
    bytes.extend_from_slice(later).ok()?;
    Some(bytes)
}

// How many records come back of one archive after another.
fn records_of(alloc: Global, earlier: &[u8], later: &[u8]) -> Option<u8> {
    records(
        alloc,
        restored(alloc, &together(alloc, earlier, later)?, None)?,
    )
}

// The records of both containers come back of archives that have them; of a container that comes twice the last copy counts; and the last base copy
// says which containers there are.
fn counts(alloc: Global) -> Option<[Option<u8>; 4]> {
    let all = three_archives(alloc)?;
    let first_second = records_of(alloc, &all.first, &all.second);
    let both_second = records_of(alloc, &all.both, &all.second);
    let second_both = records_of(alloc, &all.second, &all.both);
    let second_first = records_of(alloc, &all.second, &all.first);
    Some([first_second, both_second, second_both, second_first])
}

#[test]
fn several_archives_of_one_log(rt: HostRuntime) {
    assert!(rt; counts(rt.alloc()) == Some([Some(10), Some(10), Some(9), Some(8)]));
}

// The second container alone lacks the first.
fn gap(alloc: Global) -> Option<RestoreRefusal> {
    let all = three_archives(alloc)?;
    match restore(alloc, empty(alloc)?, &all.second, None) {
        Ok(_disk) => None,
        Err(refused) => Some(refused.cause),
    }
}

#[test]
fn a_container_that_no_archive_has(rt: HostRuntime) {
    assert!(rt; gap(rt.alloc()) == Some(RestoreRefusal::Gap { container: 1 }));
}

// The log of both containers, restored up to the record at a sector.
fn records_below(alloc: Global, sector: u8) -> Option<u8> {
    let all = three_archives(alloc)?;
    records(
        alloc,
        restored(alloc, &all.both, Some(at_sector(sector as u32)))?,
    )
}

#[test]
fn up_to_each_record(rt: HostRuntime) {
    for sector in 0..10 {
        assert!(rt;
            records_below(rt.alloc(), sector) == Some(sector),
            "{sector}"
        );
    }
}

// The archive with a tail above its last container, and so without containers: what it lists comes of an earlier one.
fn with_a_high_tail(alloc: Global) -> Option<Option<u8>> {
    let all = three_archives(alloc)?;
    let mut later = Vec::from_slice(alloc, &all.first).ok()?;
    *later.get_mut(43)? = 2;
    *later.get_mut(16391)? = 0;
    later.truncate(16395);
    Some(records_of(alloc, &all.first, &later))
}

// A log of the first version: with one stream and a short name its copy is the same but for the version.
fn of_the_first_version(alloc: Global) -> Option<u8> {
    let mut disk = filled(alloc, begin(alloc)?, 0, 3)?;
    disk.write(0, 1, &[1]).ok()?;
    disk.write(0, 16385, &[1]).ok()?;
    let (bytes, _disk) = archived(alloc, disk)?;
    if bytes.get(8) == Some(&2) {
        records(alloc, restored(alloc, &bytes, None)?)
    } else {
        None
    }
}

#[test]
fn a_high_tail_and_the_first_version(rt: HostRuntime) {
    assert!(rt; with_a_high_tail(rt.alloc()) == Some(Some(8)));
    assert!(rt; of_the_first_version(rt.alloc()) == Some(3));
}
