// Words that are LSNs: container, offset and sequence in hexadecimal, with colons between them.
ghost use Rattle.std.specs.Prelude.{◌≡◌, ◌∷◌, MatchOption};
ghost use Rattle.clfs_lsn.specs.Words.{lsn_of_parts, lsn_of_word};
ghost use Rattle.clfs_text.specs.Pieces.{BeginsWithNumber, LacksNumber};

use crate::numbers::{hex_digit, hex_number};
use clfs_lsn::Lsn;

// What stands after the colon that comes next after a zero.
fn behind_zero(rest: &[u8]) -> Option<(u32, &[u8])>
    ensures { MatchOption result (LacksNumber (48 ∷ rest.now)) (λ found. BeginsWithNumber found.0 found.1.now (48 ∷ rest.now)) }
{
    if rest.is_empty() || rest[0] != b':' {
        return None;
    }
    let (_, behind) = rest.split_at(1);
    Some((0, behind))
}

// The number before the first colon, and what stands after the colon. The digits are read as the colon is looked for.
fn number_before_colon(text: &[u8]) -> Option<(u32, &[u8])>
    ensures { MatchOption result (LacksNumber text.now) (λ found. BeginsWithNumber found.0 found.1.now text.now) }
{
    if text.is_empty() {
        return None;
    }
    let (_, rest) = text.split_at(1);
    if text[0] == b'0' {
        return behind_zero(rest);
    }
    let mut value = hex_digit(text[0])?;
    for (i, byte) in rest.iter().enumerate() {
        if *byte == b':' {
            let (_, behind) = rest.split_at(i + 1);
            return Some((value as u32, behind));
        }
        value = value * 16 + hex_digit(*byte)?;
        if value > u32::MAX as u64 {
            return None;
        }
    }
    None
}

fn lsn_of_parts(container: u32, offset: u32, sequence: u32) -> Option<Lsn>
    ensures { result ≡ lsn_of_parts container offset sequence }
{
    Lsn::create(container, offset, sequence)
}

/// The LSN that a word spells.
pub fn lsn_of_word(word: &[u8]) -> Option<Lsn>
    ensures { result ≡ lsn_of_word word.now }
{
    let (container, behind) = number_before_colon(word)?;
    let (offset, last) = number_before_colon(behind)?;
    let sequence = hex_number(last)?;
    lsn_of_parts(container, offset, sequence)
}
