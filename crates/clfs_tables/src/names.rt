// The names that a stream may have.
ghost use Rattle.std.specs.Prelude.{◌≡◌, not, position};
ghost use Rattle.clfs_lsn.specs.Names.{is_name_byte};
ghost use Rattle.clfs_model.specs.Refusals.{name_fault};

use clfs_lsn::LONGEST_NAME;

// The first byte of a name that is wrong, by its place: one that no name may have, or the one after the longest name. An empty name is
// wrong at 0.
pub(crate) fn name_fault(name: &[u8]) -> Option<u32>
    ensures { result ≡ name_fault name.now }
{
    if name.is_empty() {
        return Some(0);
    }
    if let Some(at) = first_illegal(name) {
        if at < LONGEST_NAME as usize {
            return Some(at as u32);
        }
    }
    if (LONGEST_NAME as usize) < name.len() {
        return Some(LONGEST_NAME as u32);
    }
    None
}

// The place of the first byte that no name may have.
fn first_illegal(name: &[u8]) -> Option<usize>
    ensures { result ≡ position (λ b. not (is_name_byte b)) name.now }
{
    name.iter().position(|b| !is_name_byte(*b))
}

// Whether a name may have this byte.
fn is_name_byte(b: u8) -> bool
    ensures { result ≡ is_name_byte b }
{
    matches!(b, b'0'..=b'9' | b'A'..=b'Z' | b'a'..=b'z' | b'_' | b'-' | b'.')
}
