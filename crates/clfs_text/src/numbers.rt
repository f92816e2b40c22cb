// Words that are numbers: digits without a leading zero.
ghost use Rattle.std.specs.Prelude.{◌≡◌, Some, None, if◌then◌else◌, not, ◌&&◌, nat_lt, length};
ghost use Rattle.std.specs.Char.{digit_value};
ghost use Rattle.clfs_lsn.specs.Words.{is_decimal_digit, is_lower_hex_digit, has_no_leading_zero, decimal_number, hex_number};

fn decimal_digit(byte: u8) -> Option<u64>
    ensures { result ≡ (if is_decimal_digit byte then Some (digit_value byte) else None) }
{
    match byte {
        b'0'..=b'9' => Some((byte - b'0') as u64),
        _ => None,
    }
}

pub(crate) fn hex_digit(byte: u8) -> Option<u64>
    ensures { result ≡ (if is_lower_hex_digit byte then Some (digit_value byte) else None) }
{
    match byte {
        b'0'..=b'9' => Some((byte - b'0') as u64),
        b'a'..=b'f' => Some((byte - b'a') as u64 + 10),
        _ => None,
    }
}

// Whether the first byte forbids that the word is a number: there is none, or it is a zero with more after it.
fn begins_badly(word: &[u8]) -> bool
    ensures { result ≡ not (nat_lt 0 (length word.now) && has_no_leading_zero word.now) }
{
    match word {
        [] => true,
        [b'0'] => false,
        [first, ..] => *first == b'0',
    }
}

/// The number of at most so much that a word spells in decimal digits without a leading zero.
pub fn decimal_number(most: u32, word: &[u8]) -> Option<u32>
    ensures { result ≡ decimal_number most word.now }
{
    if begins_badly(word) {
        return None;
    }
    let mut value = 0;
    for byte in word {
        value = value * 10 + decimal_digit(*byte)?;
        if value > most as u64 {
            return None;
        }
    }
    Some(value as u32)
}

/// The same of a number that may have 64 bits.
pub fn long_decimal_number(most: u64, word: &[u8]) -> Option<u64>
    ensures { result ≡ decimal_number most word.now }
{
    if begins_badly(word) {
        return None;
    }
    let mut value = 0u128;
    for byte in word {
        value = value * 10 + decimal_digit(*byte)? as u128;
        if value > most as u128 {
            return None;
        }
    }
    Some(value as u64)
}

/// The number below 2^32 that a word spells in lower-case hexadecimal digits without a leading zero.
pub fn hex_number(word: &[u8]) -> Option<u32>
    ensures { result ≡ hex_number word.now }
{
    if begins_badly(word) {
        return None;
    }
    let mut value = 0;
    for byte in word {
        value = value * 16 + hex_digit(*byte)?;
        if value > u32::MAX as u64 {
            return None;
        }
    }
    Some(value as u32)
}
