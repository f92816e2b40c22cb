// Numbers and LSNs as text after other text.
ghost use Rattle.std.specs.Prelude.{◌≡◌, false, ◌++◌, ◌+◌, ◌-◌, ◌<◌, ◌≤◌, OnOk, OnErr, length, drop, decimal};
ghost use Rattle.std.specs.Fmt.{digit_glyph};
ghost use Rattle.clfs_lsn.specs.Words.{hex_text, lsn_text};

use clfs_lsn::{Bytes, Lsn};
use itoa::Buffer;
use std::alloc::AllocError;

/// Adds a number in decimal digits at the end.
pub fn push_decimal(number: u64, out: &mut Bytes) -> Result<(), AllocError>
    ensures ok { OnOk result (out.new ≡ out.old ++ decimal number) }
    ensures err { OnErr result (out.new ≡ out.old) }
{
    let mut buffer = Buffer::new();
    out.extend_from_slice(buffer.format(number).as_bytes())
}

const GLYPHS: [u8; 16] = *b"0123456789abcdef";

// A digit as text. A digit alone is looked up; where there are many, `bytes` makes them by sums.
fn glyph(digit: u32) -> u8
    requires { digit < 16 }
    ensures { result ≡ digit_glyph false digit }
{
    GLYPHS[digit as usize]
}

// Writes the hexadecimal digits of a number so that they end before `end`, and gives the place where they begin.
pub(crate) fn write_hex(number: u32, digits: &mut [u8], end: usize) -> usize
    requires room { 8 ≤ end }
    requires within { end ≤ length digits.old }
    ensures begins { result ≤ end }
    ensures short { end ≤ result + 8 }
    ensures written { drop result digits.new ≡ hex_text number ++ drop end digits.old }
{
    let mut left = number;
    let mut start = end - 1;
    while left >= 16 {
        digits[start] = glyph(left % 16);
        left /= 16;
        start -= 1;
    }
    digits[start] = glyph(left);
    start
}

/// Adds a number in lower-case hexadecimal digits at the end.
pub fn push_hex(number: u32, out: &mut Bytes) -> Result<(), AllocError>
    ensures ok { OnOk result (out.new ≡ out.old ++ hex_text number) }
    ensures err { OnErr result (out.new ≡ out.old) }
{
    let mut digits = [0; 8];
    let start = write_hex(number, &mut digits, 8);
    out.extend_from_slice(&digits[start..])
}

// Writes an LSN, as `write_hex` does a number.
pub(crate) fn write_lsn(lsn: Lsn, digits: &mut [u8], end: usize) -> usize
    requires room { 26 ≤ end }
    requires within { end ≤ length digits.old }
    ensures begins { result ≤ end }
    ensures short { end ≤ result + 26 }
    ensures written { drop result digits.new ≡ lsn_text lsn ++ drop end digits.old }
{
    let sequence = write_hex(lsn.sequence(), digits, end);
    digits[sequence - 1] = b':';
    let offset = write_hex(lsn.offset(), digits, sequence - 1);
    digits[offset - 1] = b':';
    write_hex(lsn.container(), digits, offset - 1)
}

/// Adds an LSN at the end: container, offset and sequence in lower-case hexadecimal digits, with colons between them.
pub fn push_lsn(lsn: Lsn, out: &mut Bytes) -> Result<(), AllocError>
    ensures ok { OnOk result (out.new ≡ out.old ++ lsn_text lsn) }
    ensures err { OnErr result (out.new ≡ out.old) }
{
    let mut digits = [0; 26];
    let start = write_lsn(lsn, &mut digits, 26);
    out.extend_from_slice(&digits[start..])
}
