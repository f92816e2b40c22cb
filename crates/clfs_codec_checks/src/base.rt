ghost use Rattle.std.specs.Prelude.{◌≡◌, ◌≤◌, length, IfSome};

use clfs_base::{
    Asked, BaseImage, BaseRefusal, Demands, NewestRefusal, close_older, decode, decode_within,
    encode, open_slot, read_newest, write_body,
};
use clfs_disk::{Disk, Fuse, Memory};
use clfs_lsn::Lsn;
use std::alloc::Global;

// The bytes of a slot of version 2 of a log with blocks of 2 sectors and 2 containers of 8, of which container 1 is listed, in file 1:
// those up to byte 23, and byte 64. All others are 0.
const FRONT: [u8; 24] = [
    0xA5, 2, 0, 0, 2, 0, 0, 0, 8, 0, 0, 0, 2, 0, 2, 0, 1, 0, 0, 0, 1, 0, 0, 0,
];

// The same log with all that a copy can have: 4 containers, of which 2 and 3 are listed, in the files 3 and 1; 2 streams; archiving
// and automatic growth are on; the policies are 8, 2 and 1, and the tail is at the start of container 2.
const FULL: [u8; 40] = [
    0xA5, 2, 1, 0, 2, 0, 0, 0, 8, 0, 0, 0, 4, 0, 4, 0, 2, 0, 0, 0, 2, 0, 2, 0, 1, 1, 8, 0, 2, 0, 1,
    0, 0, 0, 0, 0, 2, 0, 0, 0,
];

// The rows of its streams: `alpha`, whose base is in container 2, and `b-`.
const ALPHA: [u8; 21] = [
    5, 0, 0, 0, 0, 0, 0, 0, 0, 2, 0, 0, 2, 0, 0, 0, b'a', b'l', b'p', b'h', b'a',
];

const SECOND: [u8; 18] = [2, 0, 0, 0, 0, 0, 0, 0, 0, 0, 0, 0, 0, 0, 0, 0, b'b', b'-'];

// Puts bytes at a place.
fn put(slot: &mut [u8], at: usize, bytes: &[u8]) {
    for (i, byte) in bytes.iter().enumerate() {
        if let Some(place) = slot.get_mut(at.saturating_add(i)) {
            *place = *byte;
        }
    }
}

// A slot with these bytes at places, all others 0.
fn slot_with(alloc: Global, parts: &[(usize, &[u8])]) -> Option<Vec<u8>>
    ensures { IfSome result (λ bytes. length bytes.items ≡ 16384) }
{
    let mut bytes = Vec::new(alloc);
    bytes.resize(16384, 0).ok()?;
    for (at, part) in parts {
        put(&mut bytes, *at, part);
    }
    if bytes.len() == 16384 {
        Some(bytes)
    } else {
        None
    }
}

// The same slots in a version.
fn small_slot(alloc: Global, version: u8) -> Option<Vec<u8>>
    ensures { IfSome result (λ bytes. length bytes.items ≡ 16384) }
{
    slot_with(alloc, &[(0, &FRONT), (1, &[version]), (64, &[1])])
}

fn full_slot(alloc: Global, version: u8) -> Option<Vec<u8>>
    ensures { IfSome result (λ bytes. length bytes.items ≡ 16384) }
{
    slot_with(
        alloc,
        &[
            (0, &FULL),
            (1, &[version]),
            (64, &[3, 0, 1, 0]),
            (576, &ALPHA),
            (second_row(version), &SECOND),
        ],
    )
}

// The first byte of the second row.
fn second_row(version: u8) -> usize
    ensures { result ≤ 656 }
{
    if version == 1 { 624 } else { 656 }
}

// What is written of a copy that was read.
fn written_again(alloc: Global, bytes: &[u8]) -> Option<Vec<u8>> {
    let image = decode(alloc, bytes).ok()?;
    let mut again = slot_with(alloc, &[(0, &[0xA5])])?;
    encode(&image, &mut again[1..]);
    Some(again)
}

// A copy that is read in a version is written in the second one.
fn is_written(alloc: Global, version: u8) -> Option<bool> {
    let small = written_again(alloc, &small_slot(alloc, version)?)?;
    if small.as_slice() != small_slot(alloc, 2)?.as_slice() {
        return Some(false);
    }
    let full = written_again(alloc, &full_slot(alloc, version)?)?;
    Some(full.as_slice() == full_slot(alloc, 2)?.as_slice())
}

#[test]
fn copies_are_written_and_read(rt: HostRuntime) {
    assert!(rt; is_written(rt.alloc(), 2) == Some(true));
    assert!(rt; is_written(rt.alloc(), 1) == Some(true));
}

fn is_small(image: &BaseImage, version: u8) -> bool {
    let sizes = (
        image.block_sectors,
        image.container_sectors,
        image.containers,
    );
    image.version == version
        && image.turn == 0
        && !image.dedicated
        && sizes == (2, 8, 2)
        && image.files_made == 2
        && image.first == 1
        && image.files.as_slice() == [1].as_slice()
        && image.streams.as_slice().is_empty()
}

fn has_fields_of_full(image: &BaseImage, version: u8) -> bool {
    image.version == version
        && image.turn == 1
        && !image.dedicated
        && image.containers == 4
        && image.files_made == 4
        && image.first == 2
        && image.files.as_slice() == [3, 1].as_slice()
}

fn has_policies_of_full(image: &BaseImage) -> bool {
    image.archiving
        && image.automatic
        && image.tail == Lsn::of_number(2 << 32)
        && image.maximum == 8
        && image.minimum == 2
        && image.growth == 1
}

fn has_streams_of_full(image: &BaseImage) -> bool {
    match image.streams.as_slice() {
        [first, second] => {
            first.name.as_slice() == b"alpha".as_slice()
                && first.base == Lsn::of_number((2 << 32) + 512)
                && second.name.as_slice() == b"b-".as_slice()
                && second.base == Lsn::null()
        }
        _ => false,
    }
}

fn has_fields_of_small(alloc: Global, version: u8) -> Option<bool> {
    let small = decode(alloc, &small_slot(alloc, version)?).ok()?;
    Some(is_small(&small, version))
}

fn has_all_of_full(alloc: Global, version: u8) -> Option<bool> {
    let full = decode(alloc, &full_slot(alloc, version)?).ok()?;
    Some(
        has_fields_of_full(&full, version)
            && has_policies_of_full(&full)
            && has_streams_of_full(&full),
    )
}

#[test]
fn fields_stand_where_they_should(rt: HostRuntime) {
    for version in 1..3 {
        assert!(rt; has_fields_of_small(rt.alloc(), version) == Some(true));
        assert!(rt; has_all_of_full(rt.alloc(), version) == Some(true));
    }
}

// A slot of a dedicated log with no stream or one.
fn dedicated_slot(alloc: Global, streams: u8) -> Option<Vec<u8>> {
    slot_with(
        alloc,
        &[
            (0, &FRONT),
            (22, &[streams]),
            (40, &[1]),
            (64, &[1]),
            (576, if streams == 0 { &[] } else { &ALPHA }),
        ],
    )
}

fn has_streams(alloc: Global, bytes: &[u8], streams: u8) -> Option<bool> {
    let image = decode(alloc, bytes).ok()?;
    Some(image.dedicated && image.streams.as_slice().len() == streams as usize)
}

fn is_read_and_written(alloc: Global, streams: u8) -> Option<bool> {
    let bytes = dedicated_slot(alloc, streams)?;
    let again = written_again(alloc, &bytes)?;
    Some(has_streams(alloc, &bytes, streams)? && again.as_slice() == bytes.as_slice())
}

#[test]
fn a_dedicated_log_has_one_stream_at_most(rt: HostRuntime) {
    assert!(rt; is_read_and_written(rt.alloc(), 0) == Some(true));
    assert!(rt; is_read_and_written(rt.alloc(), 1) == Some(true));
}

// The byte at which bytes are refused.
fn wrong_byte(alloc: Global, bytes: &[u8]) -> Option<u32> {
    match decode(alloc, bytes) {
        Ok(_) => None,
        Err(BaseRefusal::BadByte { at }) => Some(at),
        Err(BaseRefusal::NoMemory) => Some(u32::MAX),
    }
}

// A version, a byte, its value, and where it is told.
type Change = (u8, usize, u8, Option<u32>);

// Changes of the full slot that are told at the same byte in both versions.
const IN_BOTH: [(usize, u8, Option<u32>); 42] = [
    (0, 7, None),
    (1, 0, Some(1)),
    (1, 3, Some(1)),
    (2, 3, Some(2)),
    (3, 1, Some(3)),
    (4, 0, Some(4)),
    (5, 1, Some(4)),
    (8, 3, Some(8)),
    (9, 255, Some(8)),
    (12, 0, Some(12)),
    (13, 2, Some(12)),
    (12, 5, Some(14)),
    (14, 3, Some(14)),
    (16, 0, Some(16)),
    (20, 0, Some(20)),
    (20, 5, Some(20)),
    (20, 3, Some(68)),
    (20, 1, Some(66)),
    (24, 2, Some(24)),
    (24, 0, Some(32)),
    (25, 2, Some(25)),
    (26, 1, Some(26)),
    (28, 1, Some(28)),
    (28, 9, Some(28)),
    (30, 255, Some(30)),
    (32, 9, None),
    (40, 1, Some(40)),
    (40, 2, Some(40)),
    (41, 1, Some(41)),
    (63, 1, Some(63)),
    (64, 0, Some(64)),
    (64, 5, Some(64)),
    (66, 3, Some(66)),
    (69, 1, Some(69)),
    (575, 1, Some(575)),
    (576, 4, Some(596)),
    (576, 6, Some(592)),
    (577, 1, Some(577)),
    (591, 255, None),
    (594, b'/', Some(592)),
    (597, 1, Some(597)),
    (16383, 1, Some(16383)),
];

// Changes that are told by the version: the streams that there may be, the room of a name, the rows' places, and the rows of one version
// read as those of the other.
const IN_ONE: [Change; 16] = [
    (1, 1, 2, Some(624)),
    (1, 22, 129, Some(22)),
    (1, 22, 3, Some(672)),
    (1, 22, 1, Some(624)),
    (1, 576, 33, Some(576)),
    (1, 623, 1, Some(623)),
    (1, 624, 1, Some(641)),
    (1, 673, 1, Some(673)),
    (2, 1, 1, Some(624)),
    (2, 22, 193, Some(22)),
    (2, 22, 3, Some(736)),
    (2, 22, 1, Some(656)),
    (2, 576, 65, Some(576)),
    (2, 655, 1, Some(655)),
    (2, 656, 1, Some(673)),
    (2, 737, 1, Some(737)),
];

// The byte at which the full slot of a version is refused, of which one byte is this.
fn told(alloc: Global, version: u8, at: usize, value: u8) -> Option<u32> {
    match full_slot(alloc, version) {
        Some(mut bytes) => {
            put(&mut bytes, at, &[value]);
            wrong_byte(alloc, &bytes)
        }
        None => Some(u32::MAX),
    }
}

// The same of the small slot of the first version.
fn told_of_small(alloc: Global, at: usize, value: u8) -> Option<u32> {
    let mut bytes = small_slot(alloc, 1)?;
    put(&mut bytes, at, &[value]);
    wrong_byte(alloc, &bytes)
}

// The same of the full slot, where the second row has the name of the first.
fn told_of_name_twice(alloc: Global, version: u8) -> Option<u32> {
    let mut bytes = full_slot(alloc, version)?;
    put(&mut bytes, second_row(version), &ALPHA);
    wrong_byte(alloc, &bytes)
}

#[test]
fn a_changed_byte_is_told_at_its_field(rt: HostRuntime) {
    let alloc = rt.alloc();
    for (at, value, want) in IN_BOTH {
        assert!(rt;
            told(alloc, 1, at, value) == want,
            "byte {at} of version 1 is {value}"
        );
        assert!(rt;
            told(alloc, 2, at, value) == want,
            "byte {at} of version 2 is {value}"
        );
    }
}

#[test]
fn a_changed_byte_is_told_by_the_version(rt: HostRuntime) {
    let alloc = rt.alloc();
    for (version, at, value, want) in IN_ONE {
        assert!(rt;
            told(alloc, version, at, value) == want,
            "byte {at} of version {version} is {value}"
        );
    }
    assert!(rt; told_of_name_twice(alloc, 1) == Some(624 + 16));
    assert!(rt; told_of_name_twice(alloc, 2) == Some(656 + 16));
    // no dedicated log in the first version
    assert!(rt; told_of_small(alloc, 40, 1) == Some(40));
}

// The letter of a digit below 16.
fn letter(digit: usize) -> u8 {
    b'a' + (digit % 16) as u8
}

// A slot with 192 streams, whose names have 64 bytes: the digits of their numbers over and over.
fn widest_slot(alloc: Global) -> Option<Vec<u8>>
    ensures { IfSome result (λ bytes. length bytes.items ≡ 16384) }
{
    let mut bytes = slot_with(alloc, &[(0, &FRONT), (22, &[192]), (64, &[1])])?;
    for row in 0..192 {
        let at = 576 + 80 * row;
        put(&mut bytes, at, &[64]);
        for i in 0..32 {
            put(
                &mut bytes,
                at + 16 + 2 * i,
                &[letter(row / 16), letter(row % 16)],
            );
        }
    }
    if bytes.len() == 16384 {
        Some(bytes)
    } else {
        None
    }
}

fn is_widest(alloc: Global) -> Option<bool> {
    let bytes = widest_slot(alloc)?;
    let image = decode(alloc, &bytes).ok()?;
    let again = written_again(alloc, &bytes)?;
    Some(image.streams.as_slice().len() == 192 && again.as_slice() == bytes.as_slice())
}

fn told_of_widest(alloc: Global, at: usize, value: u8) -> Option<u32> {
    let mut bytes = widest_slot(alloc)?;
    put(&mut bytes, at, &[value]);
    wrong_byte(alloc, &bytes)
}

#[test]
fn rows_go_up_to_their_end(rt: HostRuntime) {
    let alloc = rt.alloc();
    assert!(rt; is_widest(alloc) == Some(true));
    // the last byte of the last name, the byte after it, and one row more
    for (at, value, want) in [(15935, b'/', 15872), (15936, 1, 15936), (22, 193, 22)] {
        assert!(rt; told_of_widest(alloc, at, value) == Some(want), "byte {at}");
    }
}

// So many bytes of a slot, and the byte at which they are refused.
const FRONTS: [(usize, u32); 13] = [
    (0, 1),
    (1, 1),
    (5, 4),
    (39, 32),
    (40, 40),
    (41, 41),
    (65, 64),
    (68, 68),
    (576, 576),
    (590, 584),
    (594, 592),
    (600, 600),
    (16383, 16383),
];

fn told_of_front(alloc: Global, version: u8, there: usize) -> Option<u32> {
    let bytes = full_slot(alloc, version)?;
    wrong_byte(alloc, bytes.get(..there)?)
}

#[test]
fn a_missing_byte_is_told_at_its_field(rt: HostRuntime) {
    for (there, at) in FRONTS {
        assert!(rt;
            told_of_front(rt.alloc(), 1, there) == Some(at),
            "{there} bytes"
        );
        assert!(rt;
            told_of_front(rt.alloc(), 2, there) == Some(at),
            "{there} bytes"
        );
    }
}

// This number alone.
fn exactly(number: u64) -> Asked {
    Asked::Between {
        least: number,
        most: number,
    }
}

// A field of which something is asked.
#[derive(Clone, Copy)]
enum Field {
    Version,
    Turn,
    BlockSectors,
    ContainerSectors,
    Streams,
    Archiving,
    Tail,
}

// What asks for this number alone in one field.
fn demands(field: Field, number: u64) -> Demands {
    let mut demands = Demands::anything();
    let asked = exactly(number);
    match field {
        Field::Version => demands.version = asked,
        Field::Turn => demands.turn = asked,
        Field::BlockSectors => demands.block_sectors = asked,
        Field::ContainerSectors => demands.container_sectors = asked,
        Field::Streams => demands.streams = asked,
        Field::Archiving => demands.archiving = asked,
        Field::Tail => demands.tail = asked,
    }
    demands
}

// The byte at which bytes are refused of which something is asked.
fn told_within(alloc: Global, bytes: &[u8], demands: &Demands) -> Option<u32> {
    match decode_within(alloc, bytes, demands) {
        Ok(_) => None,
        Err(BaseRefusal::BadByte { at }) => Some(at),
        Err(BaseRefusal::NoMemory) => Some(u32::MAX),
    }
}

// A field, the number that is asked for, and the byte that is told.
const ASKED: [(Field, u64, Option<u32>); 12] = [
    (Field::Version, 2, None),
    (Field::Version, 1, Some(1)),
    (Field::Turn, 1, None),
    (Field::Turn, 0, Some(2)),
    (Field::BlockSectors, 2, None),
    (Field::BlockSectors, 4, Some(4)),
    (Field::ContainerSectors, 16, Some(8)),
    (Field::Streams, 3, Some(22)),
    (Field::Archiving, 1, None),
    (Field::Archiving, 0, Some(24)),
    (Field::Tail, 2 << 32, None),
    (Field::Tail, 3 << 32, Some(32)),
];

// Of two fields the first one is told.
fn two_fields() -> Demands {
    let mut both = demands(Field::Streams, 3);
    both.turn = exactly(0);
    both
}

#[test]
fn a_copy_is_read_within_what_is_asked(rt: HostRuntime) {
    let alloc = rt.alloc();
    let Some(bytes) = full_slot(alloc, 2) else {
        panic!(rt; "no slot was made");
    };
    assert!(rt; told_within(alloc, &bytes, &Demands::anything()).is_none());
    assert!(rt; told_within(alloc, &bytes, &two_fields()) == Some(2));
    for (field, number, want) in ASKED {
        assert!(rt; told_within(alloc, &bytes, &demands(field, number)) == want);
    }
}

// The gate, the version and the turn of a slot.
type Slot = (u8, u8, u8);

// Writes such a slot.
fn write_slot(alloc: Global, disk: &mut Memory, at: u64, slot: Slot) -> Option<()> {
    let (gate, version, turn) = slot;
    let mut bytes = full_slot(alloc, version)?;
    put(&mut bytes, 0, &[gate]);
    put(&mut bytes, 2, &[turn]);
    disk.write(0, at, &bytes).ok()
}

// A disk whose base file has these two slots.
fn disk_with(alloc: Global, slots: [Slot; 2]) -> Option<Memory> {
    let mut disk = Memory::new(alloc, 20, 65536, &[]).ok()?;
    disk.grow(0, 32768).ok()?;
    write_slot(alloc, &mut disk, 0, slots[0])?;
    write_slot(alloc, &mut disk, 16384, slots[1])?;
    disk.sync().ok()?;
    Some(disk)
}

// The newest copy's slot.
fn newest<D: Disk>(alloc: Global, disk: &mut D) -> Result<u32, NewestRefusal> {
    match read_newest(alloc, disk) {
        Ok((slot, _)) => Ok(slot),
        Err(refusal) => Err(refusal),
    }
}

// Two slots, and the newer one or what is told.
const SLOTS: [([Slot; 2], Result<u32, NewestRefusal>); 16] = [
    ([(0xA5, 2, 2), (0xA5, 2, 0)], Ok(1)),
    ([(0xA5, 2, 0), (0xA5, 2, 2)], Ok(0)),
    ([(0xA5, 2, 1), (0xA5, 2, 0)], Ok(0)),
    // the turn alone tells the newer one, whatever the versions
    ([(0xA5, 1, 2), (0xA5, 2, 0)], Ok(1)),
    ([(0xA5, 2, 2), (0xA5, 1, 0)], Ok(1)),
    ([(0xA5, 1, 0), (0xA5, 2, 2)], Ok(0)),
    ([(0xA5, 2, 0), (0xA5, 1, 2)], Ok(0)),
    ([(0xA5, 2, 0), (0xA5, 3, 2)], Ok(0)),
    (
        [(0xA5, 3, 0), (0xA5, 2, 2)],
        Err(NewestRefusal::BadByte { slot: 0, at: 1 }),
    ),
    (
        [(0xA5, 1, 2), (0xA5, 0, 0)],
        Err(NewestRefusal::BadByte { slot: 1, at: 1 }),
    ),
    ([(0xA4, 2, 2), (0xA5, 2, 0)], Ok(1)),
    ([(0xA5, 2, 0), (0, 2, 3)], Ok(0)),
    ([(0xA4, 2, 0), (0, 2, 1)], Err(NewestRefusal::NoBase)),
    (
        [(0xA5, 1, 1), (0xA5, 2, 1)],
        Err(NewestRefusal::BadByte { slot: 1, at: 2 }),
    ),
    (
        [(0xA5, 2, 3), (0xA5, 2, 3)],
        Err(NewestRefusal::BadByte { slot: 0, at: 2 }),
    ),
    (
        [(0, 2, 0), (0xA5, 2, 3)],
        Err(NewestRefusal::BadByte { slot: 1, at: 2 }),
    ),
];

// The newer slot is this, and a fault of the disk is told.
fn is_newest(alloc: Global, slots: [Slot; 2], want: Result<u32, NewestRefusal>) -> Option<bool> {
    let mut disk = disk_with(alloc, slots)?;
    let found = newest(alloc, &mut disk);
    let mut stopped = Fuse::new(disk, 1);
    let fault = newest(alloc, &mut stopped);
    Some(found == want && fault == Err(NewestRefusal::DiskFault))
}

#[test]
fn the_newer_open_slot_is_read(rt: HostRuntime) {
    for (slots, want) in SLOTS {
        assert!(rt; is_newest(rt.alloc(), slots, want) == Some(true));
    }
}

// The bytes of a copy of the second version with turn 1.
fn next_copy(alloc: Global) -> Option<Vec<u8>>
    ensures { IfSome result (λ bytes. length bytes.items ≡ 16384) }
{
    let mut body = full_slot(alloc, 1)?;
    let Ok(next) = decode(alloc, &body) else {
        return None;
    };
    encode(&next, &mut body[1..]);
    Some(body)
}

// Writes it into the older slot.
fn write_copy(disk: &mut Fuse<Memory>, body: &[u8])
    requires { length body.now ≡ 16384 }
{
    if close_older(disk, 1).is_ok() && write_body(disk, 1, &body[1..]).is_ok() {
        let _ = open_slot(disk, 1);
    }
}

// The newest copy's slot, version and turn after a crash, where over two copies of the first version a newer one with turn 1 was written
// on a disk that passes so many calls.
fn left_by(alloc: Global, passes: u64, pick: u8) -> Option<(u32, u8, u8)>
    requires { pick ≤ 2 }
{
    let body = next_copy(alloc)?;
    let mut fuse = Fuse::new(disk_with(alloc, [(0xA5, 1, 0), (0xA5, 1, 2)])?, passes);
    write_copy(&mut fuse, &body);
    let mut left = fuse.into_inner().crash(pick);
    let (slot, image) = read_newest(alloc, &mut left).ok()?;
    Some((slot, image.version, image.turn))
}

#[test]
fn a_crash_leaves_the_old_copy_or_the_new_one(rt: HostRuntime) {
    for passes in 0..9 {
        for pick in 0..3 {
            // The seven calls are a read, three writes and a sync after each. The last write is the sixth call.
            let is_new = passes > 6 || (passes == 6 && pick > 0);
            let want = if is_new { (1, 2, 1) } else { (0, 1, 0) };
            assert!(rt;
                left_by(rt.alloc(), passes, pick) == Some(want),
                "{passes} calls, pick {pick}"
            );
        }
    }
}
