// Words that are data: a dash for no bytes, else two hexadecimal digits for each byte.
ghost use Rattle.std.specs.Prelude.{◌≡◌, ◌*◌, ◌<◌, ◌≤◌, ◌++◌, Some, None, length, slice_index, IfOk, OnOk, MatchBool};
ghost use Rattle.std.specs.Result.{result_ok};
ghost use Rattle.hex.specs.Hex.{decode_of, encode_lower, lower_digits};
ghost use Rattle.clfs_text.specs.Nibbles.{nibble_of};
ghost use Rattle.clfs_lsn.specs.Words.{data_text, data_of_word};

use clfs_lsn::Bytes;
use std::alloc::{AllocError, Global};

/// The bytes that a word spells, decoded into memory of their own.
pub fn data_of_word(alloc: Global, word: &[u8]) -> Result<Option<Bytes>, AllocError>
    ensures { IfOk result (λ found. found ≡ data_of_word word.now) }
{
    if word == b"-".as_slice() {
        return Ok(Some(Bytes::new(alloc)));
    }
    if word.is_empty() {
        return Ok(None);
    }
    if word.len() % 2 != 0 {
        return Ok(None);
    }
    let mut bytes = vec![in alloc; 0; word.len() / 2]?;
    if decode_into(word, bytes.as_mut_slice()) {
        Ok(Some(Bytes::from_vec(bytes)))
    } else {
        Ok(None)
    }
}

// The value of a hexadecimal digit of either case; a number above 15 for each other byte. It is told by sums and a choice, so that many
// bytes can be read at once.
fn nibble(byte: u8) -> u8
    ensures digit { result ≤ 15 → nibble_of byte ≡ result }
    ensures other { 15 < result → nibble_of byte ≡ 255 }
{
    let digit = byte.wrapping_sub(b'0');
    let letter = (byte | 32).wrapping_sub(b'a').saturating_add(10);
    if digit < 10 { digit } else { letter }
}

// Writes the byte of each pair of digits, and says whether all are digits. The loop goes on after a byte that is none, and it isn't
// taken into its caller: so the compiler sees that the two slices share no byte, and reads sixteen pairs at a time.
#[inline(never)]
fn decode_into(text: &[u8], out: &mut [u8]) -> bool
    requires { length text.now ≡ 2 * length out.old }
    ensures { MatchBool result (result_ok (decode_of text.now) ≡ Some out.new) (result_ok (decode_of text.now) ≡ None) }
{
    let mut greatest: u8 = 0;
    let mut rest = text;
    for i in 0..out.len() {
        let (pair, behind) = rest.split_at(2);
        let high = nibble(pair[0]);
        let low = nibble(pair[1]);
        greatest = greatest.max(high.max(low));
        out[i] = high % 16 * 16 + low % 16;
        rest = behind;
    }
    greatest <= 15
}

const PIECE: usize = 128;

fn lower_digit(value: u8) -> u8
    requires { value < 16 }
    ensures { result ≡ slice_index lower_digits value }
{
    if value < 10 {
        b'0' + value
    } else {
        b'a' + (value - 10)
    }
}

// Writes two lower-case hexadecimal digits for each byte. As above, it isn't taken into its caller.
#[inline(never)]
fn encode_into(bytes: &[u8], text: &mut [u8])
    requires { length text.old ≡ 2 * length bytes.now }
    ensures { text.new ≡ encode_lower bytes.now }
{
    for i in 0..bytes.len() {
        let byte = bytes[i];
        text[2 * i] = lower_digit(byte / 16);
        text[2 * i + 1] = lower_digit(byte % 16);
    }
}

// Adds two lower-case hexadecimal digits for each byte at the end.
fn push_encoded(bytes: &[u8], out: &mut Bytes) -> Result<(), AllocError>
    ensures { OnOk result (out.new ≡ out.old ++ encode_lower bytes.now) }
{
    let mut digits = [0; 2 * PIECE];
    let mut rest = bytes;
    while !rest.is_empty() {
        let (piece, behind) = rest.split_at(rest.len().min(PIECE));
        let text = &mut digits[..2 * piece.len()];
        encode_into(piece, text);
        out.extend_from_slice(text)?;
        rest = behind;
    }
    Ok(())
}

/// Adds bytes at the end as a word of the script: a dash for none, else two lower-case hexadecimal digits for each. Where memory
/// lacks, nothing is said of `out`.
pub fn push_data(bytes: &[u8], out: &mut Bytes) -> Result<(), AllocError>
    ensures { OnOk result (out.new ≡ out.old ++ data_text bytes.now) }
{
    if bytes.is_empty() {
        return out.extend_from_slice(b"-");
    }
    push_encoded(bytes, out)
}
