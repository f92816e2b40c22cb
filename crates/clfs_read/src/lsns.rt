// LSNs apart, together and as text.
ghost use Rattle.std.specs.Prelude.{◌≡◌, ◌<◌, ◌≤◌, ◌++◌, false, length, drop};
ghost use Rattle.clfs_lsn.specs.Lsn.{container_of, offset_of, sequence_of};
ghost use Rattle.clfs_lsn.specs.Words.{lsn_of_parts, lsn_of_word, lsn_text};
ghost use Rattle.clfs_read.specs.Answers.{if_told};

use clfs_lsn::Lsn;
use clfs_text::{Lead, lsn_of_word};

/// The parts of an LSN.
#[repr(C)]
#[derive(Drop)]
pub struct Parts {
    /// The container's id.
    pub container: u32,
    /// The block's offset in the container, in bytes.
    pub offset: u32,
    /// The record's position in the block, from 0.
    pub sequence: u32,
}

/// The parts of an LSN's number. Every number is an LSN's.
#[unsafe(no_mangle)]
pub extern "C" fn clfs_lsn_parts(number: u64) -> Parts
    ensures container { result.container ≡ container_of number }
    ensures offset { result.offset ≡ offset_of number }
    ensures sequence { result.sequence ≡ sequence_of number }
{
    let lsn = Lsn::of_number(number);
    Parts {
        container: lsn.container(),
        offset: lsn.offset(),
        sequence: lsn.sequence(),
    }
}

/// Puts an LSN together. False, and nothing is written, where the offset is no multiple of 512 or the sequence above 511.
#[unsafe(no_mangle)]
pub extern "C" fn clfs_lsn_create(parts: &Parts, number: &mut u64) -> bool
    ensures exact { if_told result number.new ≡ lsn_of_parts parts.now.container parts.now.offset parts.now.sequence }
    ensures kept { result ≡ false → number.new ≡ number.old }
{
    match Lsn::create(parts.container, parts.offset, parts.sequence) {
        Some(lsn) => {
            *number = lsn.number();
            true
        }
        None => false,
    }
}

/// Writes an LSN as text, as the log prints it, and answers the bytes of the text, at most 26. No byte 0 is put after it. Where there
/// isn't room for all of it nothing is written.
#[unsafe(no_mangle)]
pub extern "C" fn clfs_lsn_text(number: u64, out: &mut [u8]) -> usize
    ensures length { result ≡ length (lsn_text number) }
    ensures written { length (lsn_text number) ≤ length out.old → out.new ≡ lsn_text number ++ drop (length (lsn_text number)) out.old }
    ensures kept { length out.old < length (lsn_text number) → out.new ≡ out.old }
{
    let mut lead = Lead::new();
    lead.put_lsn(Lsn::of_number(number));
    let text = lead.as_slice();
    if text.len() <= out.len() {
        out[..text.len()].copy_from_slice(text);
    }
    text.len()
}

/// The LSN that a text spells, all of it. False, and nothing is written, where it spells none.
#[unsafe(no_mangle)]
pub extern "C" fn clfs_lsn_of_text(text: &[u8], number: &mut u64) -> bool
    ensures exact { if_told result number.new ≡ lsn_of_word text.now }
    ensures kept { result ≡ false → number.new ≡ number.old }
{
    match lsn_of_word(text) {
        Some(lsn) => {
            *number = lsn.number();
            true
        }
        None => false,
    }
}
