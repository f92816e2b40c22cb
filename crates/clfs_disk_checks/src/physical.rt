// Each call on a disk that stops after so many calls, and what each crash leaves.
ghost use Rattle.std.specs.Prelude.{◌≡◌, ◌≤◌, true, length};

use clfs_base::read_newest;
use clfs_disk::{Disk, Fuse, Memory};
use clfs_physical::Physical;
use std::alloc::Global;

// The bytes of a slot of the first version that aren't 0, of a log with blocks of 2 sectors and 2 containers of 8, both of them listed, in files 1
// and 2: those up to byte 23, and those from byte 64 on.
const FRONT: [u8; 24] = [
    0xA5, 1, 0, 0, 2, 0, 0, 0, 8, 0, 0, 0, 2, 0, 2, 0, 1, 0, 0, 0, 2, 0, 0, 0,
];

const FILES: [u8; 4] = [1, 0, 2, 0];

// A sector with an open gate, which says that its block has one sector.
const OPEN: [u8; 3] = [0xA5, 1, 1];

// A disk with such a log. Each sector of both containers has an open gate of an earlier use, but for the first of container 2.
fn disk_of_a_log(alloc: Global) -> Option<Memory> {
    let mut disk = Memory::new(alloc, 100, 200_000, &[]).ok()?;
    disk.grow(0, 32768).ok()?;
    disk.write(0, 0, &FRONT).ok()?;
    disk.write(0, 64, &FILES).ok()?;
    for file in 1..3 {
        disk.grow(file, 4096).ok()?;
        for sector in 0..8 {
            disk.write(file, 512 * sector, &OPEN).ok()?;
        }
    }
    disk.write(2, 0, &[0]).ok()?;
    disk.sync().ok()?;
    Some(disk)
}

// Three blocks of one sector, all but the gate of the first, and a closed gate after them.
fn group() -> [u8; 1536] {
    let mut body = [0; 1536];
    body[1] = 1;
    body[511] = 0xA5;
    body[513] = 1;
    body[1023] = 0xA5;
    body[1025] = 1;
    body
}

// What is written.
#[derive(Clone, Copy)]
enum Writing {
    Group,
    Turn,
    Copy,
    Growth,
}

// Whether it is the log of above.
fn is_small(physical: &Physical) -> bool
    ensures first { result ≡ true → physical.now.image.first ≡ 1 }
    ensures listed { result ≡ true → length physical.now.image.files ≡ 2 }
    ensures containers { result ≡ true → physical.now.image.containers ≡ 2 }
{
    let image = physical.image();
    image.first == 1 && image.files.as_slice().len() == 2 && image.containers == 2
}

// Whether the log turned to its next container.
fn turned<D: Disk>(physical: &mut Physical, disk: &mut D) -> bool
    requires first { physical.old.image.first ≡ 1 }
    requires listed { length physical.old.image.files ≡ 2 }
    requires containers { physical.old.image.containers ≡ 2 }
{
    physical.turn(disk, 2).is_ok()
}

// Whether it was written.
fn is_written<D: Disk>(writing: Writing, physical: &mut Physical, disk: &mut D) -> bool {
    if !is_small(physical) {
        return false;
    }
    match writing {
        Writing::Group => physical.flush(disk, 0, &group()).is_ok(),
        Writing::Turn => physical.flush(disk, 0, &group()).is_ok() && turned(physical, disk),
        Writing::Copy => physical.drop_low(disk, 2).is_ok(),
        Writing::Growth => physical.set_containers(disk, 1, 4).is_ok(),
    }
}

// How many open blocks of one sector a file has.
fn open_blocks(disk: &mut Memory, file: u16) -> Option<u64> {
    if file > 256 {
        return None;
    }
    for sector in 0..8 {
        let mut head = [0; 3];
        let found = disk.read(file, 512 * sector, &mut head).ok()?;
        if found < 3 || head[0] != 0xA5 || head[2] != 1 {
            return Some(sector);
        }
    }
    Some(8)
}

// What a crash left: the slot of the newest copy, its version, how many containers it counts and lists, the last file, and its open blocks.
type Left = (u32, u8, u16, usize, u16, u64);

fn left_in(alloc: Global, disk: &mut Memory) -> Option<Left> {
    let (slot, image) = read_newest(alloc, disk).ok()?;
    let files = image.files.as_slice();
    let last = *files.last()?;
    let count = files.len();
    let blocks = open_blocks(disk, last)?;
    Some((slot, image.version, image.containers, count, last, blocks))
}

// Whether a crash after so many calls leaves what the call of this number wrote.
fn is_left(gate: u64, passes: u64, pick: u8) -> bool {
    passes > gate || (passes == gate && pick > 0)
}

// How many parts a crash leaves, where these calls open their gates.
fn parts_left(gates: [u64; 3], passes: u64, pick: u8) -> usize
    ensures { result ≤ 3 }
{
    if !is_left(gates[0], passes, pick) {
        return 0;
    }
    if !is_left(gates[1], passes, pick) {
        return 1;
    }
    if !is_left(gates[2], passes, pick) {
        return 2;
    }
    3
}

// The physical layer of the log on a disk.
fn physical_of(alloc: Global, disk: &mut Memory) -> Option<Physical> {
    let (slot, image) = read_newest(alloc, disk).ok()?;
    Physical::new(alloc, slot, image).ok()
}

// Whether something is written on a disk that passes so many calls, and what a crash leaves then.
fn left_by(alloc: Global, writing: Writing, passes: u64, pick: u8) -> Option<(bool, Left)>
    requires { pick ≤ 2 }
{
    let mut disk = disk_of_a_log(alloc)?;
    let mut physical = physical_of(alloc, &mut disk)?;
    let mut fuse = Fuse::new(disk, passes);
    let done = is_written(writing, &mut physical, &mut fuse);
    let mut left = fuse.into_inner().crash(pick);
    Some((done, left_in(alloc, &mut left)?))
}

const NONE: u64 = u64::MAX;

const OLD: Left = (0, 1, 2, 2, 2, 0);

const GROUPED: Left = (0, 1, 2, 2, 2, 3);

// What is written; its calls of the disk; the calls that write a gate by which a part counts; what is left before and after each.
const TABLE: [(Writing, u64, [u64; 3], [Left; 4]); 4] = [
    (
        Writing::Group,
        4,
        [3, NONE, NONE],
        [OLD, GROUPED, GROUPED, GROUPED],
    ),
    (
        Writing::Turn,
        18,
        [3, 8, 17],
        [OLD, GROUPED, (1, 2, 2, 1, 2, 3), (0, 2, 2, 2, 1, 0)],
    ),
    (
        Writing::Copy,
        5,
        [4, NONE, NONE],
        [OLD, (1, 2, 2, 1, 2, 0), OLD, OLD],
    ),
    (
        Writing::Growth,
        8,
        [7, NONE, NONE],
        [OLD, (1, 2, 4, 2, 2, 0), OLD, OLD],
    ),
];

#[test]
fn a_crash_leaves_each_part_whole_or_not_at_all(rt: HostRuntime) {
    for (writing, calls, gates, wanted) in TABLE {
        for passes in 0..calls.saturating_add(2) {
            for pick in 0..3 {
                let parts = parts_left(gates, passes, pick);
                let want = (passes >= calls, wanted[parts]);
                assert!(rt;
                    left_by(rt.alloc(), writing, passes, pick) == Some(want),
                    "{passes} calls, pick {pick}"
                );
            }
        }
    }
}
