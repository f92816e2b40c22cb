// Judging a base copy where it lies. The checks go from byte 1 on, and take no memory: whether an earlier row has a name, or an earlier
// listed container a file, is seen in the bytes of the earlier ones, which were judged before.
ghost use Rattle.std.specs.Prelude.{◌≡◌, ◌+◌, ◌<◌, ◌≤◌, ◌==◌, ◌&&◌, ◌||◌, not, nat_le, length, None, IfOk, Ok};
ghost use Rattle.std.specs.List.{list_all, list_any, zip};
ghost use Rattle.clfs_lsn.specs.Names.{is_name_byte};
ghost use Rattle.clfs_base.specs.Layout.{layout_in, row_place};
ghost use Rattle.clfs_base.specs.Spelling.{IsImage};
ghost use Rattle.clfs_base.specs.Demands.{is_wrong_within, wrong_within, fault_within};
ghost use Rattle.clfs_base.specs.Checks.{is_wrong_field, is_wrong_file, wrong_file, files_in, is_wrong_length, is_no_name, is_wrong_name, is_taken, row_fault, wrong_row, rows_of, slot_fault, image_of, image_at};
ghost use Rattle.clfs_base.specs.Slots.{used_slot, newest_of};
ghost use Rattle.clfs_base.specs.Told.{numbers_told};

use crate::demands::{Asked, Demands};
use crate::entries::slot_of;
use crate::layout::{
    FIELDS_END, FILES_AT, Field, Layout, Numbers, ROWS_AT, SLOT, fields, file_place, layout_of,
    row_bytes, row_place,
};
use crate::newest::{front_of_bytes, slot_by};
use crate::reading::{byte_at, is_short, name_in, number_1, number_2, numbers_of, other_byte};
use crate::refusal::NewestRefusal;

/// The slot of a base file's bytes that counts and the numbers in its fields, or why there is no newest copy, as `read_newest` tells it:
/// all of that slot is judged. It takes no memory.
pub fn check_newest(base: &[u8]) -> Result<(u32, Numbers), NewestRefusal>
    ensures exact { result ≡ numbers_told (newest_of base.now) }
    ensures slot { IfOk result (λ x. x.0 ≤ 1) }
{
    let slot = used_slot(base)?;
    let bytes = slot_of(base, slot);
    match check_copy(bytes) {
        Some(at) => Err(NewestRefusal::BadByte { slot, at }),
        None => Ok((slot, numbers_of(bytes))),
    }
}

// The slot that counts.
fn used_slot(base: &[u8]) -> Result<u32, NewestRefusal>
    ensures exact { result ≡ used_slot base.now }
    ensures slot { IfOk result (λ slot. slot ≤ 1) }
{
    let first = front_of_bytes(slot_of(base, 0));
    let second = front_of_bytes(slot_of(base, 1));
    slot_by(&first, &second)
}

/// The first wrong byte of a slot, its gate apart, where `decode` refuses it; or None, and then it has a copy. It takes no memory.
pub fn check_copy(bytes: &[u8]) -> Option<u32>
    ensures exact { result ≡ slot_fault (layout_in bytes.now) bytes.now }

    // Where no byte is wrong the bytes spell an image, one that a log can have.
    ensures read { result ≡ None → image_at bytes.now ≡ Ok (image_of (layout_in bytes.now) bytes.now) }
    ensures found { result ≡ None → IsImage (image_of (layout_in bytes.now) bytes.now) }
{
    fault_within(&layout_of(number_1(bytes, 1)), bytes, &Demands::anything())
}

/// The first byte of a slot of this version that is wrong or has another number than is asked for, its gate apart.
pub fn fault_within(layout: &Layout, bytes: &[u8], demands: &Demands) -> Option<u32>
    ensures { result ≡ fault_within demands.now layout.now bytes.now }
{
    let numbers = numbers_of(bytes);
    if let Some(at) = wrong_field(bytes, &fields(layout, &numbers), &demands.of_fields()) {
        return Some(at);
    }
    if let Some(at) = other_byte(bytes, FIELDS_END, FILES_AT) {
        return Some(at);
    }
    if let Some(at) = wrong_file(bytes, numbers.files_made, numbers.listed) {
        return Some(at);
    }
    if let Some(at) = other_byte(bytes, file_place(numbers.listed), ROWS_AT) {
        return Some(at);
    }
    if let Some(at) = wrong_row(layout, bytes, numbers.streams) {
        return Some(at);
    }
    other_byte(bytes, row_place(layout, numbers.streams), SLOT)
}

// The first byte of the first field that is wrong, or whose number isn't asked for.
fn wrong_field(bytes: &[u8], table: &[Field], asked: &[Asked]) -> Option<u32>
    requires { length table.now ≡ length asked.now }
    ensures { result ≡ wrong_within bytes.now (zip table.now asked.now) }
{
    for (i, field) in table.iter().enumerate() {
        if is_wrong_within(bytes, field, &asked[i]) {
            return Some(field.at);
        }
    }
    None
}

fn is_wrong_within(bytes: &[u8], field: &Field, asked: &Asked) -> bool
    ensures { result ≡ is_wrong_within bytes.now (field.now, asked.now) }
{
    is_wrong_field(bytes, field) || !asked.has(field.number)
}

// Whether a field isn't there, or has a number that it may not have.
fn is_wrong_field(bytes: &[u8], field: &Field) -> bool
    ensures { result ≡ is_wrong_field bytes.now field.now }
{
    is_short(bytes, field.at, field.width) || !may_be(field)
}

fn may_be(field: &Field) -> bool
    ensures { result ≡ ((field.now.may_be_zero && (field.now.number == 0))
        || (nat_le field.now.least field.now.number && nat_le field.now.number field.now.most)) }
{
    (field.may_be_zero && field.number == 0)
        || (field.least <= field.number && field.number <= field.most)
}

// The first byte of the first file number that is wrong.
fn wrong_file(bytes: &[u8], made: u16, listed: u16) -> Option<u32>
    ensures { result ≡ wrong_file bytes.now made listed }
{
    for i in 0..listed {
        if is_wrong_file(bytes, made, i) {
            return Some(file_place(i));
        }
    }
    None
}

// Whether a file number isn't there, is none of those made, or is an earlier one.
fn is_wrong_file(bytes: &[u8], made: u16, i: u16) -> bool
    ensures { result ≡ is_wrong_file bytes.now made i }
{
    let at = file_place(i);
    let file = number_2(bytes, at);
    is_short(bytes, at, 2) || (!is_made(made, file) || has_number(bytes, i, file))
}

fn is_made(made: u16, file: u16) -> bool
    ensures { result ≡ (nat_le 1 file && nat_le file made) }
{
    1 <= file && file <= made
}

// Whether one of so many file numbers is this one.
fn has_number(bytes: &[u8], count: u16, number: u16) -> bool
    ensures { result ≡ list_any (λ other. other == number) (files_in bytes.now count) }
{
    for i in 0..count {
        if number_2(bytes, file_place(i)) == number {
            return true;
        }
    }
    false
}

// The first wrong byte of so many rows.
fn wrong_row(layout: &Layout, bytes: &[u8], count: u16) -> Option<u32>
    ensures { result ≡ wrong_row layout.now bytes.now count }
{
    for i in 0..count {
        if let Some(at) = row_fault(layout, bytes, i) {
            return Some(at);
        }
    }
    None
}

// The first wrong byte of the row so many after the first.
fn row_fault(layout: &Layout, bytes: &[u8], i: u16) -> Option<u32>
    ensures { result ≡ row_fault layout.now bytes.now (row_place layout.now i) (rows_of layout.now bytes.now i) }
{
    let at = row_place(layout, i);
    if is_wrong_length(layout, bytes, at) {
        return Some(at);
    }
    if let Some(other) = other_byte(bytes, at + 1, at + 8) {
        return Some(other);
    }
    if is_short(bytes, at + 8, 8) {
        return Some(at + 8);
    }
    if is_wrong_name(layout, bytes, i) {
        return Some(at + 16);
    }
    let end = at + 16 + byte_at(bytes, at) as u32;
    other_byte(bytes, end, at + row_bytes(layout))
}

// Whether the length of a name isn't there, or is none that a name may have.
fn is_wrong_length(layout: &Layout, bytes: &[u8], at: u32) -> bool
    ensures { result ≡ is_wrong_length layout.now bytes.now at }
{
    let len = byte_at(bytes, at);
    is_short(bytes, at, 1) || !(1 <= len && len <= layout.longest_name)
}

// Whether a row's name isn't there whole, has a byte that no name may have, or is that of an earlier row.
fn is_wrong_name(layout: &Layout, bytes: &[u8], i: u16) -> bool
    ensures { result ≡ is_wrong_name bytes.now (row_place layout.now i) (rows_of layout.now bytes.now i) }
{
    let at = row_place(layout, i);
    is_short(bytes, at + 16, byte_at(bytes, at) as u32)
        || is_no_name(layout, bytes, i, name_in(bytes, at))
}

// Whether a byte of a name is none that it may have, or one of so many rows has it.
fn is_no_name(layout: &Layout, bytes: &[u8], count: u16, name: &[u8]) -> bool
    ensures { result ≡ is_no_name (rows_of layout.now bytes.now count) name.now }
{
    !has_name_bytes(name) || is_taken(layout, bytes, count, name)
}

fn has_name_bytes(name: &[u8]) -> bool
    ensures { result ≡ list_all is_name_byte name.now }
{
    name.iter().all(|b| is_name_byte(*b))
}

// Whether a name may have this byte.
fn is_name_byte(b: u8) -> bool
    ensures { result ≡ is_name_byte b }
{
    matches!(b, b'0'..=b'9' | b'A'..=b'Z' | b'a'..=b'z' | b'_' | b'-' | b'.')
}

// Whether one of so many rows has this name.
fn is_taken(layout: &Layout, bytes: &[u8], count: u16, name: &[u8]) -> bool
    ensures { result ≡ is_taken name.now (rows_of layout.now bytes.now count) }
{
    for i in 0..count {
        if name_in(bytes, row_place(layout, i)) == name {
            return true;
        }
    }
    false
}
