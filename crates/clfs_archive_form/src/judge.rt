// Judging the blocks of an archive's containers where they stand, as the walk of opening judges those of files. Memory for one block's payload, and
// for a base of each stream, serves all of them; no record is kept.
ghost use Rattle.std.specs.Prelude.{◌≡◌, ◌+◌, ◌*◌, ◌^◌, ◌<◌, ◌≤◌, ℕ, List, length, drop, Ok, Err, Some, IfOk, IsErrOf, replicate};
ghost use Rattle.clfs_lsn.specs.Format.{sector_bytes};
ghost use Rattle.clfs_lsn.specs.Lsn.{lsn_number};
ghost use Rattle.clfs_lsn.specs.Size.{IsShape};
ghost use Rattle.clfs_lsn.specs.declared.entry.LogEntry.{LogEntry};
ghost use Rattle.clfs_container.specs.OpenBlocks.{AreWhole, total};
ghost use Rattle.clfs_block.specs.Checks.{frame_at};
ghost use Rattle.clfs_block.specs.Records.{block_records};
ghost use Rattle.clfs_block.specs.declared.head.BlockHead.{BlockHead};
ghost use Rattle.clfs_block.specs.declared.head.BlockRefusal.TheVariants as blocks;
ghost use Rattle.clfs_recover.specs.Stored.{stored_in};
ghost use Rattle.clfs_recover.specs.declared.refusal.LoadRefusal.TheVariants.{NoBase, Damaged, DiskFault};
ghost use Rattle.clfs_archive_form.specs.Containers.{blocks_in};
ghost use Rattle.clfs_archive_form.specs.Drafting.{EndsAt};
ghost use Rattle.clfs_archive_form.specs.Reading.{JudgesBlock, JudgesBlocks};

use clfs_block::{blocks_are_read_as_written, records_are_read_of_their_block};
use clfs_lsn::{Bytes, Head, Lsn, SECTOR, Shape};
use clfs_recover::{BlockPlace, Gatherer, LoadRefusal, gather_block};
use std::alloc::{AllocError, Global};
use std::marker::Model;

// Takes records in and keeps nothing of them.
#[derive(Drop)]
struct Nothing;

impl Gatherer for Nothing {
    ghost has = { λ a entries. Unit {0} };

    fn gather(&mut self, _alloc: Global, _head: &Head, _bytes: &[u8]) -> Result<(), AllocError> {
        Ok(())
    }
}

/// What blocks are judged by, and the memory for it.
#[derive(Drop)]
pub struct Judge {
    shape: Shape,
    bases: Vec<Lsn>,
    payload: Bytes,
}

impl Model for Judge {
    ghost use Rattle.std.specs.Prelude.{◌<◌, ◌^◌, vec_len};
    ghost use Rattle.clfs_lsn.specs.Size.{IsShape};
    ghost use Rattle.clfs_archive_form.specs.Judging.{Judging};

    ghost Value = { Judging };

    ghost view = { λ a. record { shape = a.shape; streams = vec_len a.bases } };

    ghost invariant = { λ a. IsShape a.shape × (vec_len a.bases < 2 ^ 16) };
}

impl Judge {
    /// A judge of blocks in a log of this shape with so many streams.
    pub fn new(alloc: Global, shape: &Shape, streams: u16) -> Result<Judge, AllocError>
        requires { IsShape shape.now }
        ensures { IfOk result (λ judge. judge ≡ record { shape = shape.now; streams = streams }) }
    {
        let mut bases = Vec::new(alloc);
        bases.resize(streams as usize, Lsn::null())?;
        Ok(Judge {
            shape: *shape,
            bases,
            payload: Bytes::new(alloc),
        })
    }

    /// The log's shape.
    pub fn shape(&self) -> &Shape
        ensures is { result.now ≡ self.now.shape }
        ensures shape { IsShape result.now }
    {
        &self.shape
    }

    // Judges the block at the front of bytes, and answers its sectors, or None where its gate is closed.
    fn block(
        &mut self,
        alloc: Global,
        place: &BlockPlace,
        bytes: &[u8],
    ) -> Result<Option<u32>, LoadRefusal>
        requires { place.now.offset < 2 ^ 31 }
        ensures exact { JudgesBlock place.now.container place.now.offset result
            (block_records self.old.shape self.old.streams (lsn_number place.now.container place.now.offset 0) bytes.now) }
        ensures framed { (sectors : ℕ) → result ≡ Ok (Some sectors) → (head : BlockHead)
            × (frame_at self.old.shape (lsn_number place.now.container place.now.offset 0) bytes.now ≡ Ok head) × (head.sectors ≡ sectors) }
        ensures no_fault { IsErrOf result DiskFault → ⊥ }
        ensures same { self.new ≡ self.old }
    {
        gather_block(
            alloc,
            &self.shape,
            place,
            bytes,
            &mut self.payload,
            &mut Nothing,
            &mut self.bases,
        )
    }

    /// Judges all bytes as the blocks of a container, one after the other; a closed gate is damage.
    pub fn blocks(&mut self, alloc: Global, id: u32, bytes: &[u8]) -> Result<(), LoadRefusal>
        requires { length bytes.now < 2 ^ 31 }
        ensures exact { JudgesBlocks result (stored_in self.old.shape self.old.streams id 0 (blocks_in bytes.now)) }
        ensures same { self.new ≡ self.old }
    {
        blocks_are_read_as_written();
        records_are_read_of_their_block();
        let mut offset = 0;
        while (offset as usize) < bytes.len() {
            let place = BlockPlace {
                container: id,
                offset,
            };
            let rest = bytes.split_at(offset as usize).1;
            match self.block(alloc, &place, rest)? {
                Some(sectors) => offset += SECTOR * sectors,
                None => return Err(place.damaged(0)),
            }
        }
        Ok(())
    }

    /// Where the open blocks end that a container's file begins with, whose bytes these are: at a closed gate, or with the container. Each is judged
    /// as opening judges it.
    pub fn open_end(&mut self, alloc: Global, id: u32, bytes: &[u8]) -> Result<u32, LoadRefusal>
        requires { length bytes.now < 2 ^ 31 }
        ensures found { (blocks : List (List ℕ)) (entries : List LogEntry) → AreWhole self.old.shape.container_sectors bytes.now blocks
            → stored_in self.old.shape self.old.streams id 0 blocks ≡ Ok entries → EndsAt result (total blocks) }
        ensures end { IfOk result (λ end. end ≤ length bytes.now) }
        ensures damage { (container offset at : ℕ) → result ≡ Err (Damaged container offset at) → (container ≡ id)
            × (block_records self.old.shape self.old.streams (lsn_number id offset 0) (drop offset bytes.now) ≡ Err (blocks.BadByte at)) }
        ensures no_fault { (result ≡ Err NoBase → ⊥) × (result ≡ Err DiskFault → ⊥) }
        ensures same { self.new ≡ self.old }
    {
        blocks_are_read_as_written();
        records_are_read_of_their_block();
        let end = SECTOR * self.shape.container_sectors;
        let mut offset = 0;
        while offset < end {
            let place = BlockPlace {
                container: id,
                offset,
            };
            let rest = bytes.split_at(offset as usize).1;
            match self.block(alloc, &place, rest)? {
                Some(sectors) => offset += SECTOR * sectors,
                None => break,
            }
        }
        Ok(offset)
    }
}
