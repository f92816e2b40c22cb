// Counting what the walk finds, for whoever judges a log and keeps nothing of it, as the check of a folder does.
ghost use Rattle.std.specs.Prelude.{◌≡◌};

use crate::gatherer::Gatherer;
use clfs_lsn::Head;
use std::alloc::{AllocError, Global};

/// How many records the walk found, and in how many blocks. The counts stand still at the end of their type, which no log reaches.
#[derive(Clone, Copy, Debug, PartialEq, Eq)]
pub struct Counts {
    /// Records of the listed containers.
    pub records: u64,
    /// The blocks that they lie in: those of the records whose sequence is 0.
    pub blocks: u64,
}

impl Counts {
    /// Nothing counted yet.
    pub fn new() -> Counts
        ensures records { result.records ≡ 0 }
        ensures blocks { result.blocks ≡ 0 }
    {
        Counts {
            records: 0,
            blocks: 0,
        }
    }
}

impl Gatherer for Counts {
    ghost use Rattle.std.specs.Prelude.{◌≡◌, ◌-◌, ◌^◌, min, length};
    ghost use Rattle.clfs_recover.specs.Counting.{blocks_begun};

    ghost has = { λ a entries. (a.records ≡ min (length entries) (2 ^ 64 - 1)) × (a.blocks ≡ min (blocks_begun entries) (2 ^ 64 - 1)) };

    fn gather(&mut self, _alloc: Global, head: &Head, _bytes: &[u8]) -> Result<(), AllocError> {
        self.records = self.records.saturating_add(1);
        if head.lsn.sequence() == 0 {
            self.blocks = self.blocks.saturating_add(1);
        }
        Ok(())
    }
}
