ghost use Rattle.std.specs.Prelude.{◌≤◌};

use crate::logs::{SHAPE, is_damage_at, new_log, why_not_opened};
use clfs_disk::{Disk, Fuse, Memory};
use clfs_lsn::{Policy, Sizes};
use clfs_manager::{FormatRefusal, LoadRefusal, Manager};
use clfs_model::Refusal;
use std::alloc::Global;

// The bytes of slot 0 of a new log with blocks of 2 sectors and 2 containers of 8, up to byte 23. Byte 64 is 1, and all others are 0.
const FRONT: [u8; 24] = [
    0xA5, 2, 0, 0, 2, 0, 0, 0, 8, 0, 0, 0, 2, 0, 2, 0, 1, 0, 0, 0, 1, 0, 0, 0,
];

// What is in the files: no open slot, the new log and nothing else that counts, or anything else.
#[derive(Clone, Copy, PartialEq, Eq)]
enum Found {
    Nothing,
    Log,
    Other,
}

fn wanted(i: usize) -> u8 {
    match FRONT.get(i) {
        Some(byte) => *byte,
        None if i == 64 => 1,
        None => 0,
    }
}

fn begins_with_the_slot(bytes: &[u8]) -> bool {
    bytes
        .iter()
        .take(16384)
        .enumerate()
        .all(|(i, byte)| *byte == wanted(i))
}

// A file's bytes, of which it has so many at most.
fn file_of<D: Disk>(alloc: Global, disk: &mut D, file: u16) -> Option<Vec<u8>>
    requires { file ≤ 256 }
{
    let mut bytes = Vec::new(alloc);
    bytes.resize(32769, 0).ok()?;
    let count = disk.read(file, 0, &mut bytes).ok()?;
    bytes.truncate(count);
    Some(bytes)
}

// What the base file has. The front of slot 1 doesn't count where its gate is closed.
fn found_in(base: &[u8]) -> Found {
    let is_open = base.get(16384) == Some(&0xA5);
    if base.first() != Some(&0xA5) && !is_open {
        Found::Nothing
    } else if base.len() == 32768 && begins_with_the_slot(base) && !is_open {
        Found::Log
    } else {
        Found::Other
    }
}

// A file of a container is whole, and its first gate is closed.
fn is_closed<D: Disk>(alloc: Global, disk: &mut D, file: u16) -> Option<bool>
    requires { file ≤ 256 }
{
    let bytes = file_of(alloc, disk, file)?;
    Some(bytes.len() == 4096 && bytes.first() != Some(&0xA5))
}

fn find_log<D: Disk>(alloc: Global, disk: &mut D) -> Option<Found> {
    let found = found_in(&file_of(alloc, disk, 0)?);
    let are_closed = is_closed(alloc, disk, 1)? && is_closed(alloc, disk, 2)?;
    if found == Found::Log && !are_closed {
        return Some(Found::Other);
    }
    Some(found)
}

// A disk whose file 1 was used before: its first gate is open. The other files are empty.
fn used_disk(alloc: Global) -> Option<Memory> {
    let mut disk = Memory::new(alloc, 32, 65536, &[]).ok()?;
    disk.grow(1, 1024).ok()?;
    disk.write(1, 0, &[0xA5; 1024]).ok()?;
    disk.sync().ok()?;
    Some(disk)
}

// A log that is made on that disk.
fn made(alloc: Global) -> Option<Memory> {
    Manager::format(alloc, used_disk(alloc)?, SHAPE, 2, false).ok()
}

// A second log isn't made over the first one, which stays: the cause, and what is found.
fn made_twice(alloc: Global, disk: Memory) -> Option<(FormatRefusal, Found)> {
    let mut refused = Manager::format(alloc, disk, SHAPE, 1, true).err()?;
    Some((refused.cause, find_log(alloc, &mut refused.disk)?))
}

#[test]
fn a_log_is_made_where_none_is(rt: HostRuntime) {
    let alloc = rt.alloc();
    let Some(mut disk) = made(alloc) else {
        panic!(rt; "no log was made");
    };
    assert!(rt; find_log(alloc, &mut disk) == Some(Found::Log));
    let refused = Some((FormatRefusal::Exists { slot: 0 }, Found::Log));
    assert!(rt; made_twice(alloc, disk) == refused);
}

// The disk after making a log on one that passes so many calls, and whether it was answered that it was made.
fn stopped(alloc: Global, passes: u64) -> Option<(Fuse<Memory>, bool)> {
    let fuse = Fuse::new(used_disk(alloc)?, passes);
    Some(match Manager::format(alloc, fuse, SHAPE, 2, false) {
        Ok(fuse) => (fuse, true),
        Err(refused) => (refused.disk, refused.cause != FormatRefusal::DiskFault),
    })
}

// What a crash leaves of that.
fn left_by(alloc: Global, passes: u64, pick: u8) -> Option<(Found, bool)>
    requires { pick ≤ 2 }
{
    let (fuse, is_made) = stopped(alloc, passes)?;
    let mut left = fuse.into_inner().crash(pick);
    Some((find_log(alloc, &mut left)?, is_made))
}

#[test]
fn a_crash_leaves_no_log_or_the_whole_one(rt: HostRuntime) {
    for passes in 0..16 {
        for pick in 0..3 {
            // Of the fourteen calls the last but one opens the gate.
            let is_there = passes > 13 || (passes == 13 && pick > 0);
            let want = if is_there { Found::Log } else { Found::Nothing };
            assert!(rt;
                left_by(rt.alloc(), passes, pick) == Some((want, passes > 13)),
                "{passes} calls, pick {pick}"
            );
        }
    }
}

// What is on the disk of a new log that was opened and closed.
fn reopened(alloc: Global) -> Option<(Memory, Found)> {
    let manager = Manager::load(alloc, new_log(alloc, false)?, 4).ok()?;
    let mut disk = manager.close();
    let found = find_log(alloc, &mut disk)?;
    Some((disk, found))
}

// Another version of the base copy is damage at its byte.
fn is_damage(alloc: Global, mut disk: Memory) -> Option<bool> {
    disk.write(0, 1, &[3]).ok()?;
    let (cause, _disk) = why_not_opened(alloc, disk);
    Some(is_damage_at(cause, 1))
}

// A disk without a log has none.
fn cause_of_none(alloc: Global) -> Option<LoadRefusal> {
    let (cause, _disk) = why_not_opened(alloc, Memory::new(alloc, 8, 8, &[]).ok()?);
    cause
}

#[test]
fn a_log_is_opened_and_closed(rt: HostRuntime) {
    let alloc = rt.alloc();
    let Some((disk, found)) = reopened(alloc) else {
        panic!(rt; "the log wasn't opened");
    };
    assert!(rt; found == Found::Log);
    assert!(rt; is_damage(alloc, disk) == Some(true));
    assert!(rt; cause_of_none(alloc) == Some(LoadRefusal::NoBase));
}

// A log with the stream `a`, whose row is written into its base copy by hand.
fn log_with_a_stream(alloc: Global) -> Option<Manager<Memory>> {
    let mut disk = new_log(alloc, false)?;
    disk.write(0, 22, &[1]).ok()?;
    disk.write(0, 576, &[1]).ok()?;
    disk.write(0, 592, b"a").ok()?;
    opened(alloc, disk)
}

fn opened(alloc: Global, disk: Memory) -> Option<Manager<Memory>> {
    Manager::load(alloc, disk, 4).ok()
}

// A call on areas.
#[derive(Clone, Copy)]
enum AreaCall {
    // A new area on this stream, for records of so many bytes.
    Create(u16, u32),
    Delete(u16),
    // So many sectors less.
    Release(u16, u32),
    // Two records of this length.
    Align(u16, u32),
    EndRead(u16, u16),
}

// What is answered to a call that has a number in its reply.
fn number(
    alloc: Global,
    manager: &mut Manager<Memory>,
    client: u16,
    call: AreaCall,
) -> Result<u32, Refusal>
    requires { (1 ≤ client) × (client ≤ 64) }
{
    match call {
        AreaCall::Create(stream, largest) => {
            let number = manager.create_area(client, stream, largest, 4)?;
            Ok(number as u32)
        }
        AreaCall::Align(area, len) => {
            let sizes = Sizes::from_vec(vec![in alloc; len; 2]?);
            manager.align(client, area, &sizes)
        }
        AreaCall::Release(area, sectors) => manager.release(client, area, sectors),
        AreaCall::Delete(area) => manager.delete_area(client, area).map(|()| 0),
        AreaCall::EndRead(area, cursor) => manager.end_read(client, area, cursor).map(|()| 0),
    }
}

const TOO_LONG: Refusal = Refusal::RecordTooLong { len: 961, max: 960 };

const SHORT: Refusal = Refusal::ReservationShort { held: 0, need: 1 };

// Calls of clients, and the number that the reply to each has, or 0 where it has none.
const CALLS: [(u16, AreaCall, Result<u32, Refusal>); 19] = [
    (1, AreaCall::Create(2, 960), Err(Refusal::NoSuchStream)),
    (1, AreaCall::Create(0, 960), Err(Refusal::NoSuchStream)),
    (1, AreaCall::Create(1, 961), Err(TOO_LONG)),
    (1, AreaCall::Create(1, 960), Ok(1)),
    (1, AreaCall::Create(1, 0), Ok(2)),
    (64, AreaCall::Create(1, 8), Ok(1)),
    (1, AreaCall::Release(1, 0), Ok(0)),
    (1, AreaCall::Release(1, 1), Err(SHORT)),
    (2, AreaCall::Release(1, 0), Err(Refusal::NoSuchArea)),
    (1, AreaCall::Align(1, 456), Ok(2)),
    (1, AreaCall::Align(1, 457), Ok(4)),
    (1, AreaCall::Align(1, 961), Err(TOO_LONG)),
    (64, AreaCall::Align(2, 0), Err(Refusal::NoSuchArea)),
    (1, AreaCall::EndRead(1, 1), Err(Refusal::NoSuchCursor)),
    (1, AreaCall::EndRead(3, 1), Err(Refusal::NoSuchArea)),
    (1, AreaCall::Delete(1), Ok(0)),
    (1, AreaCall::Delete(1), Err(Refusal::NoSuchArea)),
    (1, AreaCall::Create(1, 8), Ok(1)),
    (1, AreaCall::Create(1, 8), Ok(3)),
];

// The answer is this one. A number that is no client's has none.
fn is_answered(
    alloc: Global,
    manager: &mut Manager<Memory>,
    client: u16,
    call: AreaCall,
    want: Result<u32, Refusal>,
) -> bool {
    1 <= client && client <= 64 && number(alloc, manager, client, call) == want
}

// A client has 16 areas at most.
fn makes_sixteen(manager: &mut Manager<Memory>) -> bool {
    for number in 1..17 {
        if manager.create_area(2, 1, 8, 16) != Ok(number) {
            return false;
        }
    }
    manager.create_area(2, 1, 8, 16) == Err(Refusal::AreaLimit { count: 16 })
}

// They aren't on the disk.
fn is_gone(alloc: Global, disk: Memory) -> bool {
    match opened(alloc, disk) {
        Some(mut manager) => {
            let answer = manager.delete_area(2, 1);
            let _disk = manager.close();
            answer == Err(Refusal::NoSuchArea)
        }
        None => false,
    }
}

#[test]
fn areas_are_made_and_end(rt: HostRuntime) {
    let alloc = rt.alloc();
    let Some(mut manager) = log_with_a_stream(alloc) else {
        panic!(rt; "the log wasn't opened");
    };
    for (client, call, want) in CALLS {
        assert!(rt; is_answered(alloc, &mut manager, client, call, want));
    }
    assert!(rt; makes_sixteen(&mut manager));
    assert!(rt; is_gone(alloc, manager.close()));
}

// The containers of a log with a stream, and the sectors that its areas hold.
fn size_of(manager: &Manager<Memory>) -> (u32, u32) {
    match manager.info(1) {
        Ok(info) => (info.containers, info.reserved),
        Err(_) => (0, 0),
    }
}

// The call has no clauses, so that a test with many of it has little to remember.
fn set_size(manager: &mut Manager<Memory>, containers: u32) -> Result<u32, Refusal> {
    manager.set_size(containers)
}

// A size that is asked for, and the answer.
const SIZES: [(u32, Result<u32, Refusal>); 4] = [
    (4, Ok(4)),
    (4, Ok(4)),
    (3, Ok(3)),
    (1, Err(Refusal::CantShrink { active: 1, need: 2 })),
];

// The size of a log that is closed and opened again.
fn size_again(alloc: Global, disk: Memory) -> Option<(u32, u32)> {
    let manager = opened(alloc, disk)?;
    let size = size_of(&manager);
    let _disk = manager.close();
    Some(size)
}

#[test]
fn a_log_gets_another_size(rt: HostRuntime) {
    let alloc = rt.alloc();
    let Some(mut manager) = log_with_a_stream(alloc) else {
        panic!(rt; "the log wasn't opened");
    };
    for (containers, want) in SIZES {
        assert!(rt; set_size(&mut manager, containers) == want);
    }
    assert!(rt; manager.install_policy(Policy::Maximum(6)) == Ok(()));
    assert!(rt; set_size(&mut manager, 7) == Err(Refusal::ContainerLimit { limit: 6 }));

    // It is on the disk.
    assert!(rt; size_again(alloc, manager.close()) == Some((3, 0)));
}
