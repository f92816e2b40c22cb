ghost use Rattle.std.specs.Prelude.{◌≤◌};

use clfs_container::{close_first, open_gate, read_block, write_body};
use clfs_disk::{Disk, Fuse, Memory};
use std::alloc::Global;

// One block of one sector, all of its bytes but the gate 7, and the closed gate after it.
fn body() -> [u8; 512] {
    let mut bytes = [7; 512];
    bytes[511] = 0;
    bytes
}

// The first sector and the byte after it, as a crash leaves them of a file of zeros into which a block was written on a
// disk that passes so many calls.
fn left_by(alloc: Global, passes: u64, pick: u8) -> Option<[u8; 513]>
    requires { pick ≤ 2 }
{
    let mut memory = Memory::new(alloc, 10, 4096, &[]).ok()?;
    memory.grow(1, 4096).ok()?;
    close_first(&mut memory, 1).ok()?;
    memory.sync().ok()?;
    let mut fuse = Fuse::new(memory, passes);
    if write_body(&mut fuse, 1, 0, &body()).is_ok() {
        let _ = open_gate(&mut fuse, 1, 0);
    }
    let mut left = fuse.into_inner().crash(pick);
    let mut bytes = [9; 513];
    read_block(&mut left, 1, 0, &mut bytes).ok()?;
    Some(bytes)
}

// The gate is open over the whole body, or closed.
fn is_right(bytes: &[u8; 513], is_open: bool) -> bool {
    if is_open {
        bytes[0] == 0xA5 && bytes[1..].starts_with(&body())
    } else {
        bytes[0] == 0
    }
}

// The calls that pass, and whether each of the three picks leaves an open gate.
const TABLE: [(u64, [bool; 3]); 5] = [
    (0, [false; 3]),
    (1, [false; 3]),
    (2, [false; 3]),
    (3, [false, true, true]),
    (4, [true; 3]),
];

#[test]
fn gate_opens_over_a_whole_body(rt: HostRuntime) {
    for (passes, gates) in TABLE {
        for pick in 0..3u8 {
            let Some(bytes) = left_by(rt.alloc(), passes, pick) else {
                panic!(rt; "a call failed");
            };
            assert!(rt;
                is_right(&bytes, gates[pick as usize]),
                "after {passes} calls"
            );
        }
    }
}
