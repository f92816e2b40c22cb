// Judging a base file, and reading what its newest copy says.
ghost use Rattle.std.specs.Prelude.{◌≡◌, false, nat_lt, if◌then◌else◌, slice_get, Some, None, Ok};
ghost use Rattle.std.specs.Option.{option_map};
ghost use Rattle.clfs_base.specs.declared.image.BaseImage.{BaseImage};
ghost use Rattle.clfs_base.specs.Checks.{file_in, row_of, image_at};
ghost use Rattle.clfs_base.specs.Layout.{layout_in, numbers_of};
ghost use Rattle.clfs_base.specs.Slots.{slot_of, newest_of};
ghost use Rattle.clfs_base.specs.Told.{numbers_told, row_told};
ghost use Rattle.clfs_read.specs.Answers.{if_told, no_base, base_told, place_in};

use crate::answers::{RIGHT, SHUT, UNFIT, WRONG};
use clfs_base::{NewestRefusal, Numbers, check_newest, file_at, row_at, slot_of};

/// What the newest copy of a base file says of its log.
#[repr(C)]
#[derive(Drop)]
pub struct Base {
    /// The archive tail; 0 where archiving is off.
    pub tail: u64,
    /// The sectors of the largest block.
    pub block_sectors: u32,
    /// The sectors of a container.
    pub container_sectors: u32,
    /// The id of the first listed container. The ids of the others follow it.
    pub first: u32,
    /// The slot that has the copy, 0 or 1; where a byte is wrong, the slot that it is in.
    pub slot: u32,
    /// The first wrong byte of the slot; 0 where none is.
    pub bad_at: u32,
    /// The containers that the log has.
    pub containers: u16,
    /// How many container files were made at full length, from number 1 on.
    pub files_made: u16,
    /// How many containers are listed.
    pub listed: u16,
    /// How many streams there are.
    pub streams: u16,
    /// The most containers; 0 where no such policy is installed.
    pub maximum: u16,
    /// The fewest containers; 0 where no such policy is installed.
    pub minimum: u16,
    /// The containers of one step of growth; 0 where no such policy is installed.
    pub growth: u16,
    /// The version of the copy, 1 or 2.
    pub version: u8,
    /// 0, 1 or 2: that of the copy before it, plus 1 modulo 3.
    pub turn: u8,
    /// 1 where archiving is on, else 0.
    pub archiving: u8,
    /// 1 where a log that is full grows by itself, else 0.
    pub automatic: u8,
    /// 1 where the log has one stream alone, else 0.
    pub dedicated: u8,
}

/// Where a copy has a stream's name, and the stream's base.
#[repr(C)]
#[derive(Drop)]
pub struct Stream {
    /// The base, as far as base copies and not restart areas have moved it.
    pub base: u64,
    /// The byte of the slot at which the name begins.
    pub name_at: u32,
    /// The bytes of the name.
    pub name_len: u8,
}

/// Judges the bytes of a base file: which of its slots counts, and that slot whole.
#[unsafe(no_mangle)]
pub extern "C" fn clfs_base_check(file: &[u8], out: &mut Base) -> u32
    ensures exact { (result, out.new) ≡ base_told (numbers_told (newest_of file.now)) }
{
    match check_newest(file) {
        Ok((slot, numbers)) => tell(slot, &numbers, out),
        Err(NewestRefusal::NoBase) => refuse(SHUT, 0, 0, out),
        Err(NewestRefusal::BadByte { slot, at }) => refuse(WRONG, slot, at, out),
        Err(NewestRefusal::DiskFault) => refuse(UNFIT, 0, 0, out),
        Err(NewestRefusal::NoMemory) => refuse(UNFIT, 0, 0, out),
    }
}

fn tell(slot: u32, n: &Numbers, out: &mut Base) -> u32
    ensures { (result, out.new) ≡ base_told (Ok (slot, n.now)) }
{
    *out = Base {
        tail: n.tail,
        block_sectors: n.block_sectors,
        container_sectors: n.container_sectors,
        first: n.first,
        slot,
        bad_at: 0,
        containers: n.containers,
        files_made: n.files_made,
        listed: n.listed,
        streams: n.streams,
        maximum: n.maximum,
        minimum: n.minimum,
        growth: n.growth,
        version: n.version,
        turn: n.turn,
        archiving: n.archiving,
        automatic: n.automatic,
        dedicated: n.dedicated,
    };
    RIGHT
}

fn refuse(code: u32, slot: u32, at: u32, out: &mut Base) -> u32
    ensures code { result ≡ code }
    ensures none { out.new ≡ no_base slot at }
{
    *out = Base {
        tail: 0,
        block_sectors: 0,
        container_sectors: 0,
        first: 0,
        slot,
        bad_at: at,
        containers: 0,
        files_made: 0,
        listed: 0,
        streams: 0,
        maximum: 0,
        minimum: 0,
        growth: 0,
        version: 0,
        turn: 0,
        archiving: 0,
        automatic: 0,
        dedicated: 0,
    };
    code
}

/// The number of the file that holds the listed container so many after the first, of the copy in this slot, which `clfs_base_check` found
/// right. False, and nothing is written, where so many aren't listed.
#[unsafe(no_mangle)]
pub extern "C" fn clfs_base_file(file: &[u8], slot: u32, i: u16, out: &mut u16) -> bool
    ensures exact { if_told result out.new ≡ (if nat_lt i (numbers_of (slot_of file.now slot)).listed
        then Some (file_in (slot_of file.now slot) i) else None) }

    // Of a copy that is right it is the number that its image has.
    ensures found { (image : BaseImage) → image_at (slot_of file.now slot) ≡ Ok image → if_told result out.new ≡ slice_get image.files i }
    ensures kept { result ≡ false → out.new ≡ out.old }
{
    match file_at(slot_of(file, slot), i) {
        Some(number) => {
            *out = number;
            true
        }
        None => false,
    }
}

/// The name and the base of the stream so many after the first, of the copy in this slot, which `clfs_base_check` found right. False, and
/// nothing is written, where there aren't so many.
#[unsafe(no_mangle)]
pub extern "C" fn clfs_base_stream(file: &[u8], slot: u32, i: u16, out: &mut Stream) -> bool
    ensures exact { option_map (row_told (slot_of file.now slot)) (if_told result (place_in out.new))
        ≡ (if nat_lt i (numbers_of (slot_of file.now slot)).streams
        then Some (row_of (layout_in (slot_of file.now slot)) (slot_of file.now slot) i) else None) }

    // Of a copy that is right it is the row that its image has.
    ensures found { (image : BaseImage) → image_at (slot_of file.now slot) ≡ Ok image
        → option_map (row_told (slot_of file.now slot)) (if_told result (place_in out.new)) ≡ slice_get image.streams i }
    ensures kept { result ≡ false → out.new ≡ out.old }
{
    match row_at(slot_of(file, slot), i) {
        Some(row) => {
            *out = Stream {
                base: row.base.number(),
                name_at: row.name_at,
                name_len: row.name_len,
            };
            true
        }
        None => false,
    }
}
