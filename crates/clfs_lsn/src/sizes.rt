// The lengths of records that a call reserves space for.
ghost use Rattle.std.specs.Prelude.{◌≡◌, ◌≤◌, [], length};

use std::alloc::Global;
use std::marker::Model;

/// The lengths of records to come, in bytes of data. They are at most sixteen.
#[derive(Clone, Debug, Drop)]
pub struct Sizes {
    lengths: Vec<u32>,
}

impl Model for Sizes {
    ghost use Rattle.std.specs.Prelude.{ℕ, List, ◌≤◌, length};
    ghost use Rattle.clfs_lsn.specs.Limits.{most_sizes};

    ghost Value = { List ℕ };

    ghost view = { λ a. a.lengths.items };

    ghost invariant = { λ a. length a.lengths.items ≤ most_sizes };
}

impl Sizes {
    /// The most lengths of one call.
    pub const MOST: usize = 16;

    /// No lengths.
    pub fn none(alloc: Global) -> Sizes
        ensures { result ≡ [] }
    {
        Sizes {
            lengths: Vec::new(alloc),
        }
    }

    /// These lengths, which stay where they are.
    pub fn from_vec(lengths: Vec<u32>) -> Sizes
        requires { length lengths.items ≤ Sizes.MOST }
        ensures { result ≡ lengths.items }
    {
        Sizes { lengths }
    }

    /// The lengths given back, where they are.
    pub fn into_vec(self) -> Vec<u32>
        ensures value { result.items ≡ self }
        ensures few { length result.items ≤ Sizes.MOST }
    {
        let Sizes { lengths } = self;
        lengths
    }

    /// The lengths in order.
    pub fn as_slice(&self) -> &[u32]
        ensures value { result.now ≡ self.now }
        ensures few { length self.now ≤ Sizes.MOST }
    {
        self.lengths.as_slice()
    }
}
