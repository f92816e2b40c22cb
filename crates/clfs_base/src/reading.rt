// Reading bytes and numbers at places of a slot. A byte that isn't there reads as 0, so that all can be read before it is judged.
ghost use Rattle.std.specs.Prelude.{◌≡◌, ◌+◌, ◌-◌, ◌^◌, ◌<◌, ◌≤◌, slice_index};
ghost use Rattle.clfs_base.specs.Layout.{number_at, numbers_of};
ghost use Rattle.clfs_base.specs.Checks.{is_short, is_other, other_byte, name_in};

use crate::layout::Numbers;

/// Whether some of so many bytes from a place on aren't there.
pub fn is_short(bytes: &[u8], at: u32, width: u32) -> bool
    ensures { result ≡ is_short bytes.now at width }
{
    (bytes.len() as u64) < at as u64 + width as u64
}

/// The byte at a place.
pub fn byte_at(bytes: &[u8], at: u32) -> u8
    ensures { result ≡ slice_index bytes.now at }
{
    let at = at as usize;
    if at < bytes.len() { bytes[at] } else { 0 }
}

/// The number of one byte at a place.
pub fn number_1(bytes: &[u8], at: u32) -> u8
    ensures { result ≡ number_at at 1 bytes.now }
{
    byte_at(bytes, at)
}

/// The number of two bytes at a place.
pub fn number_2(bytes: &[u8], at: u32) -> u16
    requires { at + 2 ≤ 2 ^ 32 }
    ensures { result ≡ number_at at 2 bytes.now }
{
    u16::from_le_bytes([byte_at(bytes, at), byte_at(bytes, at + 1)])
}

/// The number of four bytes at a place.
pub fn number_4(bytes: &[u8], at: u32) -> u32
    requires { at + 4 ≤ 2 ^ 32 }
    ensures { result ≡ number_at at 4 bytes.now }
{
    let low = number_2(bytes, at);
    let high = number_2(bytes, at + 2);
    ((high as u32) << 16) + low as u32
}

/// The number of eight bytes at a place.
pub fn number_8(bytes: &[u8], at: u32) -> u64
    requires { at + 8 ≤ 2 ^ 32 }
    ensures { result ≡ number_at at 8 bytes.now }
{
    let low = number_4(bytes, at);
    let high = number_4(bytes, at + 4);
    ((high as u64) << 32) + low as u64
}

/// The numbers in the fields of a slot.
pub fn numbers_of(bytes: &[u8]) -> Numbers
    ensures { result ≡ numbers_of bytes.now }
{
    Numbers {
        version: number_1(bytes, 1),
        turn: number_1(bytes, 2),
        zero: number_1(bytes, 3),
        block_sectors: number_4(bytes, 4),
        container_sectors: number_4(bytes, 8),
        containers: number_2(bytes, 12),
        files_made: number_2(bytes, 14),
        first: number_4(bytes, 16),
        listed: number_2(bytes, 20),
        streams: number_2(bytes, 22),
        archiving: number_1(bytes, 24),
        automatic: number_1(bytes, 25),
        maximum: number_2(bytes, 26),
        minimum: number_2(bytes, 28),
        growth: number_2(bytes, 30),
        tail: number_8(bytes, 32),
        dedicated: number_1(bytes, 40),
    }
}

/// The name in a row at a place, as much of it as is there.
pub fn name_in(bytes: &[u8], at: u32) -> &[u8]
    requires { at < 2 ^ 31 }
    ensures { result.now ≡ name_in bytes.now at }
{
    let from = bytes.len().min(at as usize + 16);
    let rest = bytes.split_at(from).1;
    let count = rest.len().min(byte_at(bytes, at) as usize);
    &rest[..count]
}

// Whether a byte isn't there or isn't 0.
fn is_other(bytes: &[u8], at: u32) -> bool
    ensures { result ≡ is_other bytes.now at }
{
    is_short(bytes, at, 1) || byte_at(bytes, at) != 0
}

/// The first byte from one place up to another that isn't 0.
pub fn other_byte(bytes: &[u8], from: u32, end: u32) -> Option<u32>
    ensures { result ≡ other_byte bytes.now from end }
{
    for at in from..end {
        if is_other(bytes, at) {
            return Some(at);
        }
    }
    None
}
