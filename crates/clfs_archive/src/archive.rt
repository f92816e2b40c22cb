// What archiving is set to, and the ends of the blocks.
ghost use Rattle.std.specs.Prelude.{◌≡◌, true, ℕ, ◌+◌, ◌<◌, ◌≤◌, All, List, [], ◌∷◌, ◌++◌, Some, length, drop, nat_le, find, OnOk, IfOk, IfSome};
ghost use Rattle.std.specs.Option.{option_map};
ghost use Rattle.clfs_lsn.specs.Lsn.{sequence_of};
ghost use Rattle.clfs_lsn.specs.declared.entry.Head.{Head};
ghost use Rattle.clfs_lsn.specs.Heads.{heads_from};
ghost use Rattle.clfs_model.specs.Archive.{is_in_block};
ghost use Rattle.clfs_model.specs.declared.state.State.{State};
ghost use Rattle.clfs_model.specs.Answers.{archiving};
ghost use Rattle.clfs_model.specs.Flush.{flushed};
ghost use Rattle.clfs_model.specs.Heads.{extents_of};
ghost use Rattle.clfs_model.specs.Live.{hold};
ghost use Rattle.clfs_model.specs.Refusals.{tail_refusal};
ghost use Rattle.clfs_archive.specs.declared.block.BlockEnd.{BlockEnd};
ghost use Rattle.clfs_archive.specs.Blocks.{IsBlock, AreBlocks, AreFew, AreSealed, blocks_from, sealed_lasts};

use crate::block::{BlockEnd, extents_from};
use clfs_lsn::{Lsn, forget_below, place_of};
use clfs_model::{Extents, Refusal};
use std::alloc::{AllocError, Global};
use std::marker::Model;

/// Archiving, off or with its tail. A contract sees the tail, the ends of blocks that are kept, their last LSNs rising, and how many
/// more there is room for.
#[derive(Drop)]
pub struct Archive {
    tail: Option<Lsn>,
    blocks: Vec<BlockEnd>,
}

impl Model for Archive {
    ghost use Rattle.clfs_archive.specs.Row.{Row};

    ghost Value = { Row };

    ghost use Rattle.std.specs.Prelude.{◌-◌, vec_len, vec_capacity};
    ghost use Rattle.clfs_lsn.specs.Rising.{AreRising};
    ghost use Rattle.clfs_archive.specs.Blocks.{lsn_of_block};

    ghost view = { λ s. record { tail = s.tail; blocks = s.blocks.items; room = vec_capacity s.blocks - vec_len s.blocks } };

    ghost invariant = { λ s. AreRising lsn_of_block s.blocks.items };
}

impl Archive {
    /// Archiving as it is set, and no blocks.
    pub fn new(alloc: Global, tail: Option<Lsn>) -> Archive
        ensures tail { result.tail ≡ tail }
        ensures blocks { result.blocks ≡ [] }
    {
        Archive {
            tail,
            blocks: Vec::new(alloc),
        }
    }

    /// How many ends of blocks are kept.
    pub fn len(&self) -> usize
        ensures value { result ≡ length self.now.blocks }
        ensures sealed { (lsn from next : ℕ) (heads : List Head) → from ≤ lsn → AreSealed from next self.now.blocks heads
            → length (blocks_from lsn self.now.blocks) ≡ length (heads_from lsn (sealed_lasts next heads)) }
    {
        self.blocks.len()
    }

    /// The archive tail, where archiving is on.
    pub fn tail(&self) -> Option<Lsn>
        ensures { result ≡ self.now.tail }
    {
        self.tail
    }

    /// Turns archiving on or off. It begins at the hold, the least LSN that is needed; one that is on already stays as it is. It
    /// takes no memory.
    pub fn set_archive(&mut self, on: bool, needed: Lsn)
        ensures tail { (s : State) → s.archive ≡ self.old.tail → hold s ≡ needed → self.new.tail ≡ (archiving s on).archive }
        ensures blocks { self.new.blocks ≡ self.old.blocks }
        ensures room { self.new.room ≡ self.old.room }
    {
        self.tail = if on {
            Some(self.tail.unwrap_or(needed))
        } else {
            None
        };
    }

    /// Why the tail can't become this one, by the LSN below which all is on the disk.
    pub fn tail_refusal(&self, lsn: Lsn, stable: Lsn) -> Option<Refusal>
        ensures { (s : State) → s.archive ≡ self.now.tail → flushed s ≡ stable → result ≡ tail_refusal s lsn }
    {
        let Some(tail) = self.tail else {
            return Some(Refusal::Ephemeral);
        };
        if lsn < tail || stable < lsn {
            return Some(Refusal::ArchiveTailInvalid {
                lsn,
                tail,
                flushed: stable,
            });
        }
        None
    }

    /// The tail moves. It takes no memory.
    pub fn set_archive_tail(&mut self, lsn: Lsn)
        ensures tail { self.new.tail ≡ Some lsn }
        ensures blocks { self.new.blocks ≡ self.old.blocks }
        ensures room { self.new.room ≡ self.old.room }
    {
        self.tail = Some(lsn);
    }

    /// Makes room for the ends of so many more blocks.
    pub fn reserve(&mut self, count: usize) -> Result<(), AllocError>
        ensures tail { self.new.tail ≡ self.old.tail }
        ensures blocks { self.new.blocks ≡ self.old.blocks }
        ensures room { OnOk result (count ≤ self.new.room) }
        ensures kept { self.old.room ≤ self.new.room }
    {
        self.blocks.reserve(count)
    }

    /// The end of a block that takes no more records, after the others. It takes no memory.
    pub fn push(&mut self, block: BlockEnd)
        requires above { All (λ (other : BlockEnd). other.last < block.last) self.old.blocks }
        requires room { 1 ≤ self.old.room }
        ensures tail { self.new.tail ≡ self.old.tail }
        ensures blocks { self.new.blocks ≡ self.old.blocks ++ block ∷ [] }
        ensures told { (from start next : ℕ) (heads : List Head) → AreSealed from start self.old.blocks heads → IsBlock heads block → start ≤ next
            → block.last < next → sequence_of next ≡ 0 → All (λ (head : Head). start ≤ head.lsn → is_in_block head.lsn block.last ≡ true) heads
            → AreSealed from next self.new.blocks heads }
        ensures few { (lsn : ℕ) → lsn ≤ block.last → AreFew lsn self.old.blocks → AreFew lsn self.new.blocks }
        ensures room { self.new.room + 1 ≡ self.old.room }
    {
        self.blocks.push_reserved(block);
    }

    /// The extents that are to be archived, by the LSN below which all is on the disk and the container of the log's place. There are
    /// none where archiving is off.
    pub fn extents(&self, alloc: Global, stable: Lsn, container: u32) -> Result<Extents, AllocError>
        ensures { (heads : List Head) → IfSome self.now.tail (λ tail. AreBlocks tail stable self.now.blocks heads) → IfOk result (λ extents. extents ≡ extents_of stable container self.now.tail heads) }
    {
        let extents = match self.tail {
            Some(tail) => extents_from(alloc, &self.blocks, tail, stable, container)?,
            None => Vec::new(alloc),
        };
        Ok(Extents::from_vec(extents))
    }

    /// Where the block of a record ends, by the record's LSN: the offset after the first block whose last record lies at or above the LSN. None
    /// if there is no such block.
    pub fn end_from(&self, lsn: Lsn) -> Option<u32>
        ensures { result ≡ option_map (λ (block : BlockEnd). block.end) (find (λ (block : BlockEnd). nat_le lsn block.last) self.now.blocks) }
    {
        let place = place_of(&self.blocks, lsn);
        if place == self.blocks.len() {
            return None;
        }
        Some(self.blocks[place].end)
    }

    /// Nothing below an LSN is archived any more: the ends of blocks below it may go, and where they are half of the row they do. It
    /// takes no memory.
    pub fn forget_below(&mut self, lsn: Lsn)
        ensures tail { self.new.tail ≡ self.old.tail }
        ensures kept { blocks_from lsn self.new.blocks ≡ blocks_from lsn self.old.blocks }
        ensures end { (n : ℕ) × (self.new.blocks ≡ drop n self.old.blocks) }
        ensures few { AreFew lsn self.new.blocks }
        ensures told { (from stable : ℕ) (heads : List Head) → lsn ≤ from → AreBlocks from stable self.old.blocks heads → AreBlocks from stable self.new.blocks heads }
        ensures ended { (from next : ℕ) (heads : List Head) → lsn ≤ from → AreSealed from next self.old.blocks heads → AreSealed from next self.new.blocks heads }
        ensures room { self.old.room ≤ self.new.room }
    {
        forget_below(&mut self.blocks, lsn);
    }
}
