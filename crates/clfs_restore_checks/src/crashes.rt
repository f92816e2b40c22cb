// Restoring is stopped after each number of calls of the disk, and the disk crashes then: no log is there or the whole one, and if none is, restoring
// again on the files as they are left makes it.
ghost use Rattle.std.specs.Prelude.{◌≤◌};

use crate::log::{at_sector, empty, small_archive};
use crate::rows::has;
use clfs_disk::{Fuse, Memory};
use clfs_restore::{RestoreRefusal, restore};
use std::alloc::Global;

// Restores up to the second record on a disk that passes so many calls: whether that was answered, and what a crash leaves.
fn stopped(alloc: Global, archive: &[u8], passes: u64, pick: u8) -> Option<(bool, Memory)>
    requires { pick ≤ 2 }
{
    let fuse = Fuse::new(empty(alloc)?, passes);
    let (is_answered, fuse) = match restore(alloc, fuse, archive, Some(at_sector(1))) {
        Ok(fuse) => (true, fuse),
        Err(refused) => (false, refused.disk),
    };
    Some((is_answered, fuse.into_inner().crash(pick)))
}

// Whether the disk has the log, with the first record alone. One that has none takes the restored log as it is.
fn has_log_or_takes_it(alloc: Global, disk: Memory, archive: &[u8]) -> Option<(bool, bool)> {
    match restore(alloc, disk, archive, Some(at_sector(1))) {
        Ok(disk) => Some((false, has(alloc, disk, false)?)),
        Err(refused) => Some((
            refused.cause == RestoreRefusal::Exists { slot: 0 },
            has(alloc, refused.disk, false)?,
        )),
    }
}

// Whether it was answered, whether a log was left, and whether the log is right.
fn left_by(alloc: Global, archive: &[u8], passes: u64, pick: u8) -> Option<(bool, bool, bool)>
    requires { pick ≤ 2 }
{
    let (is_answered, disk) = stopped(alloc, archive, passes, pick)?;
    let (is_there, is_right) = has_log_or_takes_it(alloc, disk, archive)?;
    Some((is_answered, is_there, is_right))
}

// The log is right, and one that was answered is there.
fn is_right(left: Option<(bool, bool, bool)>) -> bool {
    match left {
        Some((is_answered, is_there, is_right)) => is_right && (is_there || !is_answered),
        None => false,
    }
}

// All calls of restoring that log.
const CALLS: u64 = 12;

fn is_right_after(alloc: Global, passes: u64, pick: u8) -> bool
    requires { pick ≤ 2 }
{
    match small_archive(alloc) {
        Some(archive) => is_right(left_by(alloc, &archive, passes, pick)),
        None => false,
    }
}

fn answers_after(alloc: Global, passes: u64) -> Option<(bool, bool, bool)> {
    left_by(alloc, &small_archive(alloc)?, passes, 0)
}

#[test]
fn a_crash_leaves_no_log_or_the_whole(rt: HostRuntime) {
    for passes in 0..CALLS + 1 {
        for pick in 0..3 {
            assert!(rt;
                is_right_after(rt.alloc(), passes, pick),
                "{passes} calls, pick {pick}"
            );
        }
    }
    // So many calls are all, and one less isn't enough.
    assert!(rt; answers_after(rt.alloc(), CALLS) == Some((true, true, true)));
    assert!(rt; answers_after(rt.alloc(), CALLS - 1) == Some((false, false, true)));
}
