// The base copy of an archive: the same table as that of every copy, with narrower ranges of some fields, and told at the input's end where that cuts
// a field short.
ghost use Rattle.std.specs.Prelude.{◌≡◌, ◌+◌, ◌^◌, ◌<◌, ◌≤◌, length, IfOk};
ghost use Rattle.clfs_base.specs.Spelling.{IsImage};
ghost use Rattle.clfs_archive_form.specs.Copies.{first_demands, later_demands, first_listed, with_tail, slot_in, count_in, field_width, row_width, width_at, copy_told};
ghost use Rattle.clfs_archive_form.specs.Archives.{copy_there};
ghost use Rattle.clfs_archive_form.specs.Reading.{Gives, Suits};

use crate::containers::part_of;
use crate::refusal::{InputRefusal, wrong_at};
use byteorder::{ByteOrder, LittleEndian};
use clfs_base::{
    Asked, BaseImage, BaseRefusal, Demands, SLOT_BYTES, VERSION, copies_are_read_as_written,
    decode_within,
};
use clfs_lsn::Lsn;
use std::alloc::Global;

// Where the slot stands after an archive's first byte.
const SLOT_AT: usize = 7;

// This number and no other.
fn just(number: u64) -> Asked
    ensures { result ≡ Asked.Between number number }
{
    Asked::Between {
        least: number,
        most: number,
    }
}

// What is asked of the copy of a first archive, its tail apart.
pub(crate) fn first_demands() -> Demands
    ensures { result ≡ first_demands }
{
    Demands {
        version: just(VERSION as u64),
        turn: just(0),
        block_sectors: Asked::Anything,
        container_sectors: Asked::Anything,
        streams: Asked::Anything,
        archiving: just(1),
        tail: Asked::Anything,
    }
}

// What is asked of the copy after another one.
pub(crate) fn later_demands(before: &BaseImage) -> Demands
    requires { length before.now.streams < 2 ^ 16 }
    ensures { result ≡ later_demands before.now }
{
    Demands {
        block_sectors: just(before.block_sectors as u64),
        container_sectors: just(before.container_sectors as u64),
        streams: Asked::Between {
            least: before.streams.as_slice().len() as u64,
            most: u16::MAX as u64,
        },
        ..first_demands()
    }
}

// The id of the first listed container, 0 where it isn't there.
fn first_listed(slot: &[u8]) -> u32
    ensures { result ≡ first_listed slot.now }
{
    if slot.len() < 20 {
        return 0;
    }
    LittleEndian::read_u32(&slot[16..])
}

// The same demands, and a tail that doesn't lie below the slot's own first container.
fn with_tail(slot: &[u8], demands: &Demands) -> Demands
    ensures { result ≡ with_tail slot.now demands.now }
{
    let least = Lsn::from_parts(first_listed(slot), 0, 0);
    Demands {
        tail: Asked::Between {
            least: least.number(),
            most: u64::MAX,
        },
        ..*demands
    }
}

// The slot of the archive that begins at a byte.
fn slot_in(bytes: &[u8], at: usize) -> &[u8]
    requires { at + 8 ≤ length bytes.now }
    ensures { result.now ≡ slot_in bytes.now at }
{
    part_of(bytes, at + SLOT_AT, SLOT_BYTES)
}

// The number of two bytes at a place, 0 where it isn't there.
fn count_in(slot: &[u8], at: usize) -> u16
    requires { at < 2 ^ 16 }
    ensures { result ≡ count_in slot.now at }
{
    if slot.len() < at + 2 {
        return 0;
    }
    LittleEndian::read_u16(&slot[at..])
}

// How many bytes are judged together at a byte of a copy's front.
fn field_width(slot: &[u8], at: u32) -> u32
    ensures { result ≡ field_width slot.now at }
{
    match at {
        12 | 14 | 20 | 22 | 26 | 28 | 30 => 2,
        4 | 8 | 16 => 4,
        32 => 8,
        _ => 1,
    }
}

// The same at a byte of a row.
fn row_width(slot: &[u8], at: u32, in_row: u32) -> u32
    requires { 16 ≤ at }
    ensures { result ≡ row_width slot.now at in_row }
{
    match in_row {
        8 => 8,
        16 => slot.get((at - 16) as usize).copied().unwrap_or(0) as u32,
        _ => 1,
    }
}

// The same at any byte of a copy.
fn width_at(slot: &[u8], at: u32) -> u32
    ensures { result ≡ width_at slot.now at }
{
    if at < 64 {
        field_width(slot, at)
    } else if at < 64 + 2 * count_in(slot, 20) as u32 {
        2
    } else if at < 576 {
        1
    } else if at < 576 + 80 * count_in(slot, 22) as u32 {
        row_width(slot, at, (at - 576) % 80)
    } else {
        1
    }
}

// The byte of the input that is told for a wrong byte of the copy in the archive that begins at a byte.
fn copy_told(bytes: &[u8], at: usize, wrong: u32) -> usize
    requires { at + 8 ≤ length bytes.now }
    ensures { result ≡ copy_told bytes.now at wrong }
{
    let slot = slot_in(bytes, at);
    if slot.len() < wrong as usize + width_at(slot, wrong) as usize {
        return bytes.len();
    }
    at + SLOT_AT + wrong as usize
}

// The base copy of the archive that begins at a byte.
#[tactic(auto, unfolding(crate::specs::Archives::copy_there))]
pub(crate) fn read_copy(
    alloc: Global,
    asked: &Demands,
    bytes: &[u8],
    at: usize,
) -> Result<BaseImage, InputRefusal>
    requires { at + 8 ≤ length bytes.now }
    ensures exact { Gives result (copy_there asked.now bytes.now at) }
    ensures image { IfOk result (λ image. IsImage image) }
    ensures suits { IfOk result (λ image. Suits asked.now image) }
    ensures whole { IfOk result (λ image. at + 16391 ≤ length bytes.now) }
{
    copies_are_read_as_written();
    let slot = slot_in(bytes, at);
    let demands = with_tail(slot, asked);
    match decode_within(alloc, slot, &demands) {
        Ok(image) => Ok(image),
        Err(BaseRefusal::BadByte { at: wrong }) => Err(wrong_at(copy_told(bytes, at, wrong))),
        Err(BaseRefusal::NoMemory) => Err(InputRefusal::NoMemory),
    }
}
