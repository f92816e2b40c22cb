// A log of the first version becomes one of the second by the next base copy that is written, whatever crash comes between.
ghost use Rattle.std.specs.Prelude.{◌≡◌, ◌≤◌, length};

use crate::logs::{
    answers_to_name, base_bytes, count_streams, is_damage_at, long_name, old_log, why_not_opened,
};
use clfs_disk::{Disk, Fuse, Memory};
use clfs_lsn::Name;
use clfs_manager::Manager;
use std::alloc::Global;

// The first three bytes of both copies after opening a stream in a log of the first version. The stream is there when it is opened again.
fn copies(alloc: Global) -> Option<([u8; 3], [u8; 3])> {
    let mut disk = answers_to_name(alloc, old_log(alloc)?, 40, Ok(1))?;
    let old = base_bytes(&mut disk, 0)?;
    let new = base_bytes(&mut disk, 16384)?;
    answers_to_name(alloc, disk, 40, Ok(1))?;
    Some((old, new))
}

// The old copy stays as it was, and the new one is of the second version with the next turn.
#[test]
fn the_next_copy_is_of_the_second_version(rt: HostRuntime) {
    assert!(rt; copies(rt.alloc()) == Some(([0xA5, 1, 0], [0xA5, 2, 1])));
}

// Opens a log and a stream in it: whether that was answered, and the disk.
fn answered(alloc: Global, disk: Fuse<Memory>, name: &Name) -> (bool, Fuse<Memory>)
    requires { length name.now ≡ 40 }
{
    match Manager::load(alloc, disk, 4) {
        Ok(mut manager) => (manager.open_stream(1, name).is_ok(), manager.close()),
        Err(refused) => (false, refused.disk),
    }
}

// What a crash leaves of opening a stream in a log of the first version, on a disk that passes so many calls: whether it was answered, and how many
// streams there are.
fn left_by(alloc: Global, passes: u64, pick: u8) -> Option<(bool, u8)>
    requires { pick ≤ 2 }
{
    let name = long_name(alloc, 40).ok()?;
    let fuse = Fuse::new(old_log(alloc)?, passes);
    let (is_answered, fuse) = answered(alloc, fuse, &name);
    Some((
        is_answered,
        count_streams(alloc, fuse.into_inner().crash(pick))?,
    ))
}

// There is one stream, or none where nothing was answered.
fn is_right(left: Option<(bool, u8)>) -> bool {
    left == Some((true, 1)) || left == Some((false, 1)) || left == Some((false, 0))
}

#[test]
fn a_crash_leaves_no_stream_or_the_one(rt: HostRuntime) {
    for passes in 0..24 {
        for pick in 0..3 {
            assert!(rt;
                is_right(left_by(rt.alloc(), passes, pick)),
                "{passes} calls, pick {pick}"
            );
        }
    }
    // So many calls are enough, and none isn't.
    assert!(rt; left_by(rt.alloc(), 23, 2) == Some((true, 1)));
    assert!(rt; left_by(rt.alloc(), 0, 2) == Some((false, 0)));
}

// Bytes of a base copy, each with the place that is told.
const WRONG: [(u64, u8, u32); 3] = [
    // another version
    (1, 3, 1),
    // a dedicated log of the first version
    (40, 1, 40),
    // a row past the last
    (576, 1, 576),
];

// A log of the first version with this byte isn't opened, and no byte of its copy changes.
fn is_damage(alloc: Global, place: u64, byte: u8, at: u32) -> Option<bool> {
    let mut disk = old_log(alloc)?;
    disk.write(0, place, &[byte]).ok()?;
    let before: [u8; 1024] = base_bytes(&mut disk, 0)?;
    let (cause, mut disk) = why_not_opened(alloc, disk);
    let after: [u8; 1024] = base_bytes(&mut disk, 0)?;
    Some(is_damage_at(cause, at) && after == before)
}

#[test]
fn a_copy_that_no_log_has_is_damage(rt: HostRuntime) {
    for (place, byte, at) in WRONG {
        assert!(rt;
            is_damage(rt.alloc(), place, byte, at) == Some(true),
            "byte {place}"
        );
    }
}
