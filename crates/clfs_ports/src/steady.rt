// Ports in memory that never fail: their counts of faults stay at 0, so that a caller's clause "only
// where the count rose" says of them "never".
ghost use Rattle.std.specs.Prelude.{◌≡◌, Some, None, Ok, length, min};
ghost use Rattle.std.specs.Io.{ReadsAtMost, WritesAtMost};
ghost use Rattle.std.specs.Io.KnownBytes.{ReadConsumes, WriteAppends};
ghost use Rattle.std.specs.Option.{option_copied};
ghost use Rattle.clfs_ports.specs.Cause.{HasCause, TakesSome};
ghost use Rattle.clfs_ports.specs.Ports.{GrowsOrIsLost};

use crate::copying::copy_front;
use crate::ports::{Failed, Sink, Source};
use std::marker::Model;

/// Gives its bytes, as many as fit.
#[derive(Drop)]
pub struct SteadySource {
    bytes: Vec<u8>,
    given: usize,
}

impl Model for SteadySource {
    ghost use Rattle.std.specs.Prelude.{◌≤◌, List, ℕ, drop, vec_len};

    ghost Value = { List ℕ };

    ghost view = { λ s. drop s.given s.bytes.items };

    ghost invariant = { λ s. s.given ≤ vec_len s.bytes };
}

impl SteadySource {
    pub fn new(bytes: Vec<u8>) -> SteadySource
        ensures { result ≡ bytes.items }
    {
        SteadySource { bytes, given: 0 }
    }
}

impl Source for SteadySource {
    ghost left = { λ s. Some s };

    ghost faults = { λ _. 0 };

    fn read(&mut self, out: &mut [u8]) -> Result<usize, Failed>
        ensures bound { ReadsAtMost result out.new }
        ensures bytes { ReadConsumes (Some self.old) (Some self.new) result out.new }
        ensures cause { HasCause 0 0 result }
        ensures count { result ≡ Ok (min (length self.old) (length out.old)) }
    {
        let most = out.len();
        let count = copy_front(&self.bytes[self.given..], most, out);
        self.given += count;
        Ok(count)
    }
}

/// Takes every piece whole, and never fails. It keeps what it was given until memory runs out; then
/// it lets go of all that it kept, and takes what comes after without keeping it. So to code over any
/// [`Sink`] it tells nothing of what was written; `bytes` does.
#[derive(Drop)]
pub struct SteadySink {
    kept: Option<Vec<u8>>,
}

impl Model for SteadySink {
    ghost use Rattle.std.specs.Prelude.{List, ℕ, Option};
    ghost use Rattle.std.specs.Option.{option_map};

    ghost Value = { Option (List ℕ) };

    ghost view = { λ s. option_map (λ v. v.items) s.kept };
}

impl SteadySink {
    /// Appends to `bytes`.
    pub fn new(bytes: Vec<u8>) -> SteadySink
        ensures { result ≡ Some bytes.items }
    {
        SteadySink { kept: Some(bytes) }
    }

    /// All that was taken, after what `new` was given; None where memory ran out.
    pub fn bytes(&self) -> Option<&[u8]>
        ensures { option_copied result ≡ self.now }
    {
        self.kept.as_deref()
    }
}

impl Sink for SteadySink {
    ghost written = { λ _. None };

    ghost faults = { λ _. 0 };

    fn write(&mut self, piece: &[u8]) -> Result<usize, Failed>
        ensures bound { WritesAtMost result piece.now }
        ensures some { TakesSome piece.now result }
        ensures bytes { WriteAppends None None result piece.now }
        ensures cause { HasCause 0 0 result }
        ensures whole { result ≡ Ok (length piece.now) }
        ensures kept { GrowsOrIsLost self.old self.new piece.now }
    {
        if let Some(kept) = &mut self.kept {
            if kept.extend_from_slice(piece).is_err() {
                self.kept = None;
            }
        }
        Ok(piece.len())
    }
}
