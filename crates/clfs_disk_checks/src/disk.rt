// The disks, as a crate above sees them.
ghost use Rattle.std.specs.Prelude.{◌≤◌};

use clfs_disk::{Disk, Fuse, Memory, Steady, write_synced};
use std::alloc::{AllocError, Global};

// A file of six bytes after a crash: four were synced, two of them overwritten, and two grown and written since.
fn left_by(alloc: Global, pick: u8) -> Option<[u8; 6]>
    requires { pick ≤ 2 }
{
    let mut disk = Memory::new(alloc, 8, 64, &[]).ok()?;
    disk.grow(3, 4).ok()?;
    write_synced(&mut disk, 3, 0, &[1, 1, 1, 1]).ok()?;
    disk.write(3, 1, &[2, 2]).ok()?;
    disk.grow(3, 6).ok()?;
    disk.write(3, 4, &[3, 3]).ok()?;
    let mut left = disk.crash(pick);
    let mut bytes = [9; 6];
    left.read(3, 0, &mut bytes).ok()?;
    Some(bytes)
}

#[test]
fn crash_leaves_what_was_synced_or_read(rt: HostRuntime) {
    assert!(rt; left_by(rt.alloc(), 0) == Some([1, 1, 1, 1, 0, 0]));
    assert!(rt; left_by(rt.alloc(), 1) == Some([1, 2, 2, 1, 3, 3]));
    assert!(rt; left_by(rt.alloc(), 2) == Some([1, 1, 2, 1, 3, 0]));
}

// Which of five calls are answered Ok: a growth, two writes of four bytes one after the other, a sync, and a read that finds
// the second byte written.
fn answers<D: Disk>(disk: &mut D, len: u64) -> [bool; 5] {
    let grown = disk.grow(0, len).is_ok();
    let first = disk.write(0, 0, &[7; 4]).is_ok();
    let second = disk.write(0, 4, &[7; 4]).is_ok();
    let synced = disk.sync().is_ok();
    let mut byte = [7];
    let read = disk.read(0, 1, &mut byte).is_ok() && byte[0] == 7;
    [grown, first, second, synced, read]
}

#[test]
fn calls_fail_past_a_room_or_an_end(rt: HostRuntime) -> Result<(), AllocError> {
    // the room in calls and in bytes, the call that is to fail (0 for none), the file's length, and the answers
    let table = [
        (5, 8, 0, 8, [true, true, true, true, true]),
        (4, 8, 0, 8, [true, true, true, true, false]),
        (5, 7, 0, 8, [true, true, false, true, true]),
        (5, 8, 0, 7, [true, true, false, true, true]),
        (5, 8, 1, 8, [false, false, false, true, true]),
        (5, 8, 2, 8, [true, false, true, true, false]),
        (5, 8, 4, 8, [true, true, true, false, true]),
        (5, 8, 5, 8, [true, true, true, true, false]),
    ];
    for (calls, bytes, fails, len, want) in table {
        let mut memory = Memory::new(rt.alloc(), calls, bytes, &[fails])?;
        assert!(rt; answers(&mut memory, len) == want);
    }
    Ok(())
}

#[test]
fn fuse_stops_a_steady_disk(rt: HostRuntime) -> Result<(), AllocError> {
    let mut fuse = Fuse::new(Steady::new(rt.alloc())?, 6);
    assert!(rt; answers(&mut fuse, 7) == [true, true, false, true, true]);
    assert!(rt; answers(&mut fuse, 8) == [true, false, false, false, false]);
    assert!(rt; answers(&mut fuse.into_inner(), 8) == [true, true, true, true, true]);
    Ok(())
}
