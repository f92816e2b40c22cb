// The ends of blocks, sorted, and the extents that they make.
ghost use Rattle.std.specs.Prelude.{◌≡◌, ℕ, ◌+◌, ◌<◌, ◌≤◌, ◌↔◌, List, Some, IfOk};
ghost use Rattle.clfs_lsn.specs.Lsn.{container_of};
ghost use Rattle.clfs_lsn.specs.declared.entry.Head.{Head};
ghost use Rattle.clfs_model.specs.Heads.{container_extent, extents_of};
ghost use Rattle.clfs_lsn.specs.Rising.{AreRising};
ghost use Rattle.clfs_archive.specs.Blocks.{AreBlocks, lsn_of_block};

use clfs_lsn::{HasLsn, Lsn, place_of};
use clfs_model::Extent;
use std::alloc::{AllocError, Global};

/// Where a sealed block ends.
#[derive(Clone, Copy, Debug, PartialEq, Eq)]
pub struct BlockEnd {
    /// The LSN of the block's last record.
    pub last: Lsn,
    /// The offset after the block in its container, in bytes.
    pub end: u32,
}

impl HasLsn for BlockEnd {
    ghost use Rattle.clfs_archive.specs.Blocks.{lsn_of_block};

    ghost lsn_of = { lsn_of_block };

    fn lsn(&self) -> Lsn {
        self.last
    }
}

// The extents of the containers from the tail's to the last one, in order.
pub(crate) fn extents_from(
    alloc: Global,
    blocks: &[BlockEnd],
    tail: Lsn,
    stable: Lsn,
    last: u32,
) -> Result<Vec<Extent>, AllocError>
    requires { AreRising lsn_of_block blocks.now }
    ensures { (heads : List Head) → AreBlocks tail stable blocks.now heads → IfOk result (λ extents. extents.items ≡ extents_of stable last (Some tail) heads) }
{
    let mut extents = Vec::new(alloc);
    for container in tail.container() as u64..last as u64 + 1 {
        if let Some(extent) = extent_in(blocks, tail, stable, container as u32) {
            extents.push(extent)?;
        }
    }
    Ok(extents)
}

// The extent of a container, where it has a block to be archived: on the disk, with a record at or above the tail.
fn extent_in(blocks: &[BlockEnd], tail: Lsn, stable: Lsn, container: u32) -> Option<Extent>
    requires { AreRising lsn_of_block blocks.now }
    ensures { (heads : List Head) → AreBlocks tail stable blocks.now heads → result ≡ container_extent stable tail heads container }
{
    let first = place_of(blocks, start_in(container, tail));
    let end = place_of(blocks, end_in(container, stable));
    if first >= end {
        return None;
    }
    Some(Extent {
        container,
        low: blocks[first].last.offset(),
        high: blocks[end - 1].end,
    })
}

// The first LSN at or above the tail in a container and those after it.
fn start_in(container: u32, tail: Lsn) -> Lsn
    ensures { (n : ℕ) → (result ≤ n) ↔ ((tail ≤ n) × (container ≤ container_of n)) }
{
    tail.max(Lsn::from_parts(container, 0, 0))
}

// The LSN below which those below another LSN lie in a container and those before it.
fn end_in(container: u32, stable: Lsn) -> Lsn
    ensures { (n : ℕ) → (n < result) ↔ ((n < stable) × (container_of n ≤ container)) }
{
    if container < stable.container() {
        Lsn::from_parts(container + 1, 0, 0)
    } else {
        stable
    }
}
