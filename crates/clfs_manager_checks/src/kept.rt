// How much of a log is kept in memory. A block has 2 sectors at most and a container 8, and each record is in a block of its own.
ghost use Rattle.std.specs.Prelude.{◌≡◌, length, IfSome};

use crate::logs::{SHAPE, long_name};
use clfs_disk::Memory;
use clfs_lsn::{Bytes, Lsn, Sizes};
use clfs_manager::Manager;
use clfs_model::Draft;
use std::alloc::Global;

// The record so many sectors after the first byte of container 1.
fn at_sector(sector: u32) -> Lsn {
    Lsn::from_parts(1 + sector / 8, sector % 8 * 512, 0)
}

// A record of a byte, which is flushed.
fn draft(alloc: Global) -> Option<Draft>
    ensures { IfSome result (λ draft. length draft.bytes ≡ 1) }
{
    let mut bytes = Vec::new(alloc);
    bytes.resize(1, 7).ok()?;
    Some(Draft {
        bytes: Bytes::from_vec(bytes),
        previous: Lsn::null(),
        undo_next: Lsn::null(),
        seal: false,
        flush: true,
    })
}

fn append(alloc: Global, manager: &mut Manager<Memory>) -> Option<Lsn> {
    let draft = draft(alloc)?;
    let sizes = Sizes::from_vec(Vec::new(alloc));
    manager.append(1, 1, &draft, false, &sizes).ok()
}

// Appends the records of twenty sectors: containers 1 and 2 are full then, and 3 has four of them.
fn fill(alloc: Global, manager: &mut Manager<Memory>) -> Option<()> {
    let name = long_name(alloc, 1).ok()?;
    manager.open_stream(1, &name).ok()?;
    manager.create_area(1, 1, 8, 4).ok()?;
    for sector in 0..20 {
        if append(alloc, manager)? != at_sector(sector) {
            return None;
        }
    }
    Some(())
}

fn filled(alloc: Global) -> Option<Memory> {
    let disk = Memory::new(alloc, 512, 1048576, &[]).ok()?;
    let disk = Manager::format(alloc, disk, SHAPE, 4, false).ok()?;
    let mut manager = Manager::load(alloc, disk, 4).ok()?;
    let done = fill(alloc, &mut manager);
    let disk = manager.close();
    done?;
    Some(disk)
}

// How many heads of records and of restart areas of the first stream are kept, and how many ends of blocks.
#[derive(Clone, Copy, PartialEq, Eq)]
struct Counts {
    records: usize,
    restarts: usize,
    ends: usize,
}

fn kept(manager: &Manager<Memory>) -> Option<Counts> {
    Some(Counts {
        records: manager.records_kept(1)?,
        restarts: manager.restarts_kept(1)?,
        ends: manager.ends_kept()?,
    })
}

// That many records and ends of blocks, and no restart area.
fn both(count: usize) -> Option<Counts> {
    Some(Counts {
        records: count,
        restarts: 0,
        ends: count,
    })
}

// The base moves to the record at a sector, and that many are kept then.
fn moves(manager: &mut Manager<Memory>, sector: u32, count: usize) -> bool {
    let base = at_sector(sector);
    manager.advance(1, 1, base) == Ok(base) && kept(manager) == both(count)
}

// What is kept as the log is opened, and after its base has moved: below container 2 lie 8 of the 20, less than half, and below container 3 there are 16.
fn forgets(manager: &mut Manager<Memory>) -> bool {
    let area = manager.create_area(1, 1, 8, 4);
    area == Ok(1)
        && kept(manager) == both(20)
        && moves(manager, 7, 20)
        && moves(manager, 9, 20)
        && moves(manager, 19, 4)
        && manager.records_kept(2).is_none()
}

fn forgetting(alloc: Global, disk: Memory) -> Option<(bool, Memory)> {
    let mut manager = Manager::load(alloc, disk, 4).ok()?;
    let done = forgets(&mut manager);
    Some((done, manager.close()))
}

// What is kept of the log on a disk as it is opened.
fn kept_first(alloc: Global, disk: Memory) -> Option<Counts> {
    let manager = Manager::load(alloc, disk, 4).ok()?;
    let first = kept(&manager);
    let _disk = manager.close();
    first
}

#[test]
fn memory_forgets_what_lies_below_the_base(rt: HostRuntime) {
    let alloc = rt.alloc();
    let Some(disk) = filled(alloc) else {
        panic!(rt; "no log was made");
    };
    let Some((done, disk)) = forgetting(alloc, disk) else {
        panic!(rt; "the log wasn't opened");
    };
    assert!(rt; done);
    assert!(rt; kept_first(alloc, disk) == both(4));
}
