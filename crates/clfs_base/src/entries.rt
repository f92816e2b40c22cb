// Where a base file and its slots have what a copy says, for who reads them where they lie. These calls judge nothing and take no memory:
// of a slot that `check_copy` finds right they tell what its image has.
ghost use Rattle.std.specs.Prelude.{◌≡◌, nat_lt, if◌then◌else◌, slice_get, Some, None, Ok};
ghost use Rattle.std.specs.Option.{option_map};
ghost use Rattle.clfs_base.specs.declared.image.BaseImage.{BaseImage};
ghost use Rattle.clfs_base.specs.Layout.{layout_in, numbers_of};
ghost use Rattle.clfs_base.specs.Checks.{file_in, row_of, image_at};
ghost use Rattle.clfs_base.specs.Slots.{slot_of};
ghost use Rattle.clfs_base.specs.Told.{row_told};

use crate::layout::{SLOT, file_place, layout_of, row_place};
use crate::reading::{byte_at, number_1, number_2, number_8};
use clfs_lsn::Lsn;

/// Where a slot has a stream's name, and the stream's base.
#[derive(Clone, Copy, Debug, PartialEq, Eq)]
pub struct RowPlace {
    /// The byte of the slot at which the name begins.
    pub name_at: u32,
    /// The bytes of the name.
    pub name_len: u8,
    /// The base, as far as base copies and not restart areas have moved it.
    pub base: Lsn,
}

/// The bytes of a slot of a base file, as many of its 16,384 as are there.
pub fn slot_of(base: &[u8], slot: u32) -> &[u8]
    ensures { result.now ≡ slot_of base.now slot }
{
    let from = base.len().min(SLOT as usize * slot as usize);
    let rest = base.split_at(from).1;
    let count = rest.len().min(SLOT as usize);
    &rest[..count]
}

/// The number of the file that holds the listed container so many after the first. None where so many aren't listed.
pub fn file_at(bytes: &[u8], i: u16) -> Option<u16>
    ensures exact { result ≡ (if nat_lt i (numbers_of bytes.now).listed then Some (file_in bytes.now i) else None) }

    // Of a copy that is right it is the number that its image has.
    ensures found { (image : BaseImage) → image_at bytes.now ≡ Ok image → result ≡ slice_get image.files i }
{
    file_in(bytes, i)
}

fn file_in(bytes: &[u8], i: u16) -> Option<u16>
    ensures { result ≡ (if nat_lt i (numbers_of bytes.now).listed then Some (file_in bytes.now i) else None) }
{
    if i < number_2(bytes, 20) {
        Some(number_2(bytes, file_place(i)))
    } else {
        None
    }
}

/// The row of the stream so many after the first. None where there aren't so many.
pub fn row_at(bytes: &[u8], i: u16) -> Option<RowPlace>
    ensures exact { option_map (row_told bytes.now) result
        ≡ (if nat_lt i (numbers_of bytes.now).streams then Some (row_of (layout_in bytes.now) bytes.now i) else None) }

    // Of a copy that is right it is the row that its image has.
    ensures found { (image : BaseImage) → image_at bytes.now ≡ Ok image → option_map (row_told bytes.now) result ≡ slice_get image.streams i }
{
    row_in(bytes, i)
}

fn row_in(bytes: &[u8], i: u16) -> Option<RowPlace>
    ensures { option_map (row_told bytes.now) result
        ≡ (if nat_lt i (numbers_of bytes.now).streams then Some (row_of (layout_in bytes.now) bytes.now i) else None) }
{
    if i < number_2(bytes, 22) {
        Some(row_place_of(bytes, i))
    } else {
        None
    }
}

fn row_place_of(bytes: &[u8], i: u16) -> RowPlace
    ensures { row_told bytes.now result ≡ row_of (layout_in bytes.now) bytes.now i }
{
    let at = row_place(&layout_of(number_1(bytes, 1)), i);
    RowPlace {
        name_at: at + 16,
        name_len: byte_at(bytes, at),
        base: Lsn::of_number(number_8(bytes, at + 8)),
    }
}
