// Gathering a block's payload in bytes that the caller has, so that no memory is taken. The payload is copied sector by sector, after
// what was copied already.
ghost use Rattle.std.specs.Prelude.{◌≡◌, ◌+◌, ◌≤◌, ◌++◌, length, take, drop};
ghost use Rattle.clfs_block.specs.Frame.{place_of, payload_of};

use crate::{PAYLOAD, SECTOR};

/// Puts so many bytes of a block's payload, from its first one on, over the first of other bytes. It takes no memory.
pub fn gather_payload(block: &[u8], count: usize, out: &mut [u8])
    requires whole { place_of count ≤ length block.now }
    requires room { count ≤ length out.old }
    ensures gathered { out.new ≡ payload_of count block.now ++ drop count out.old }
{
    let mut at = 0;
    while at < count {
        let part = (count - at).min(PAYLOAD - at % PAYLOAD);
        let place = SECTOR * (at / PAYLOAD) + at % PAYLOAD;
        put_bytes(out, at, &block[place..place + part]);
        at += part;
    }
}

// Puts bytes in their place.
fn put_bytes(out: &mut [u8], at: usize, bytes: &[u8])
    requires { at + length bytes.now ≤ length out.old }
    ensures { out.new ≡ take at out.old ++ (bytes.now ++ drop (at + length bytes.now) out.old) }
{
    out[at..at + bytes.len()].copy_from_slice(bytes);
}
