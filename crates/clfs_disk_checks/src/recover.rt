ghost use Rattle.std.specs.Prelude.{◌≤◌, ◌<◌};

use clfs_disk::{Disk, Steady};
use clfs_lsn::{Head, Kind, LogEntry, Lsn, Place};
use clfs_recover::{Counts, LoadRefusal, load, load_heads, walk};
use std::alloc::Global;

// The base copy of a log with blocks of 2 sectors and 2 containers of 8, of which container 1 is listed, in file 1, with the stream `a`: bytes 0
// to 23, 64, and the stream's row. All others are 0.
const FRONT: [u8; 24] = [
    0xA5, 1, 0, 0, 2, 0, 0, 0, 8, 0, 0, 0, 2, 0, 2, 0, 1, 0, 0, 0, 1, 0, 1, 0,
];

const ROW: [u8; 17] = [1, 0, 0, 0, 0, 0, 0, 0, 0, 0, 0, 0, 0, 0, 0, 0, b'a'];

// A block of one sector at the start of container 1, with one record of ten bytes in stream 1: all of it but zeros and the address.
const BLOCK: [u8; 58] = [
    0xA5, 1, 1, 0, 1, 0, 0, 0, 64, 0, 0, 0, 0, 0, 0, 0, 10, 0, 0, 0, 1, 0, 1, 0, 0, 0, 0, 0, 0, 0,
    0, 0, 0, 0, 0, 0, 0, 0, 0, 0, 0, 0, 0, 0, 0, 0, 0, 0, 0, 1, 2, 3, 4, 5, 6, 7, 8, 9,
];

// The bytes of the log: the base copy, two blocks of one sector, the second of which has a restart area that links to the first record and moves the
// base there.
const BYTES: [(u16, u64, &[u8]); 9] = [
    (0, 0, &FRONT),
    (0, 64, &[1]),
    (0, 576, &ROW),
    (1, 0, &BLOCK),
    (1, 504, &[0, 0, 0, 0, 1, 0, 0, 0]),
    (1, 512, &BLOCK),
    (1, 512 + 504, &[0, 2, 0, 0, 1, 0, 0, 0]),
    (1, 512 + 22, &[2, 0, 0, 0, 0, 0, 1, 0, 0, 0]),
    (1, 512 + 40, &[0, 0, 0, 0, 1, 0, 0, 0]),
];

// Files of these lengths.
fn files(alloc: Global) -> Option<Steady> {
    let mut disk = Steady::new(alloc).ok()?;
    disk.grow(0, 32768).ok()?;
    disk.grow(1, 4096).ok()?;
    Some(disk)
}

fn log(alloc: Global) -> Option<Steady> {
    let mut disk = files(alloc)?;
    for (file, at, bytes) in BYTES {
        if file > 1 || disk.write(file, at, bytes).is_err() {
            return None;
        }
    }
    Some(disk)
}

// The LSN of the first record.
fn start() -> Lsn {
    Lsn::of_number(1 << 32)
}

const PLACE: Place = Place {
    container: 1,
    offset: 1024,
    used: 0,
    records: 0,
};

// Both records are these, in order.
fn are_both(entries: &[LogEntry]) -> bool {
    match entries {
        [first, second] => {
            first.lsn == start()
                && first.kind == Kind::Plain
                && first.bytes.as_slice() == [0, 1, 2, 3, 4, 5, 6, 7, 8, 9].as_slice()
                && second.lsn == Lsn::of_number((1 << 32) + 512)
                && second.kind == Kind::Restart
                && second.previous == start()
        }
        _ => false,
    }
}

fn has_records(alloc: Global, disk: &mut Steady) -> Option<bool> {
    let parts = load(alloc, disk).ok()?;
    Some(
        parts.slot == 0
            && parts.place == PLACE
            && parts.bases.as_slice() == [start()].as_slice()
            && are_both(parts.entries.as_slice()),
    )
}

// The second head is that of the restart area.
fn are_heads(heads: &[Head]) -> bool {
    match heads {
        [_, second] => second.lsn == Lsn::of_number((1 << 32) + 512) && second.len == 10,
        _ => false,
    }
}

fn has_heads(alloc: Global, disk: &mut Steady) -> Option<bool> {
    let parts = load_heads(alloc, disk).ok()?;
    Some(
        parts.place == PLACE
            && parts.bases.as_slice() == [start()].as_slice()
            && are_heads(parts.heads.as_slice()),
    )
}

fn is_counted(alloc: Global, disk: &mut Steady) -> Option<bool> {
    let mut counts = Counts::new();
    let walked = walk(alloc, disk, &mut counts).ok()?;
    Some(counts.records == 2 && walked.place == PLACE)
}

#[test]
fn a_log_is_loaded_with_records_or_heads_or_counted(rt: HostRuntime) {
    let alloc = rt.alloc();
    let Some(mut disk) = log(alloc) else {
        panic!(rt; "no log was made");
    };
    assert!(rt; has_records(alloc, &mut disk) == Some(true));
    assert!(rt; has_heads(alloc, &mut disk) == Some(true));
    assert!(rt; is_counted(alloc, &mut disk) == Some(true));
}

// What loading answers once one byte of a file is this, if it answers the same of records and of heads.
fn answer(alloc: Global, file: u16, at: u64, byte: u8) -> Option<Option<LoadRefusal>>
    requires { file ≤ 256 }
{
    let mut disk = log(alloc)?;
    disk.write(file, at, &[byte]).ok()?;
    let records = load(alloc, &mut disk).err();
    if load_heads(alloc, &mut disk).err() == records {
        Some(records)
    } else {
        None
    }
}

// What is told of a changed byte.
#[derive(Clone, Copy)]
enum Told {
    Nothing,
    NoBase,
    // Damage at a byte of a block or slot: its container, its place there, and the byte.
    At(u32, u32, u32),
}

fn refusal_of(told: Told) -> Option<LoadRefusal> {
    match told {
        Told::Nothing => None,
        Told::NoBase => Some(LoadRefusal::NoBase),
        Told::At(container, offset, at) => Some(LoadRefusal::Damaged {
            container,
            offset,
            at,
        }),
    }
}

// The file, the byte that is changed, what it becomes, and the answer.
const TABLE: [(u16, u64, u8, Told); 27] = [
    (1, 0, 0x25, Told::Nothing),
    (1, 1, 2, Told::At(1, 0, 1)),
    (1, 2, 9, Told::At(1, 0, 2)),
    (1, 4, 0, Told::At(1, 0, 4)),
    (1, 7, 1, Told::At(1, 0, 6)),
    (1, 2, 2, Told::At(1, 0, 8)),
    (1, 12, 1, Told::At(1, 0, 12)),
    (1, 509, 1, Told::At(1, 0, 504)),
    (1, 4, 2, Told::At(1, 0, 64)),
    (1, 17, 9, Told::At(1, 0, 16)),
    (1, 20, 2, Told::At(1, 0, 20)),
    (1, 22, 3, Told::At(1, 0, 22)),
    (1, 23, 1, Told::At(1, 0, 23)),
    (1, 28, 1, Told::At(1, 0, 24)),
    (1, 36, 1, Told::At(1, 0, 32)),
    (1, 40, 1, Told::At(1, 0, 40)),
    (1, 60, 1, Told::At(1, 0, 60)),
    (1, 8, 72, Told::At(1, 0, 8)),
    (1, 100, 1, Told::At(1, 0, 100)),
    (1, 513, 2, Told::At(1, 512, 1)),
    (1, 512 + 41, 5, Told::At(1, 512, 40)),
    (1, 1024, 0xA5, Told::At(1, 1024, 1)),
    (0, 0, 0xA4, Told::NoBase),
    (0, 22, 0, Told::At(0, 0, 576)),
    (0, 576 + 12, 2, Told::At(0, 0, 584)),
    (0, 32, 1, Told::At(0, 0, 32)),
    (0, 16384, 0xA5, Told::At(0, 16384, 2)),
];

#[test]
fn damage_is_told_at_its_place(rt: HostRuntime) {
    for (file, at, byte, told) in TABLE {
        assert!(rt;
            file <= 1 && answer(rt.alloc(), file, at, byte) == Some(refusal_of(told)),
            "byte {at} of file {file}"
        );
    }
}
