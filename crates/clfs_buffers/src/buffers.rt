// The blocks that are kept, by their places. The memory of a block that goes serves the next one that is read, and that of the bytes as the
// disk gives them serves all reads.
ghost use Rattle.std.specs.Prelude.{◌≡◌, ◌-◌, ◌≤◌, ◌∷◌, List, [], length, drop, take, None, Some, Ok, IsSome, IfErr, IfOk, IfSome, OnOk, OnErr, IsErrOf};
ghost use Rattle.std.specs.Map.{lookup};
ghost use Rattle.lru.specs.LruCache.{lru_cache};
ghost use Rattle.clfs_lsn.specs.Lsn.{offset_of};
ghost use Rattle.clfs_lsn.specs.Size.{IsShape, most_data};
ghost use Rattle.clfs_lsn.specs.declared.entry.LogEntry.{LogEntry};
ghost use Rattle.clfs_disk.specs.Files.{Unchanged};
ghost use Rattle.clfs_disk.specs.State.{TellsContents, IsSteady, Passes, Rises, raised};
ghost use Rattle.clfs_buffers.specs.Reading.{block_place, record_in, record_by, Gives, TellsByte};
ghost use Rattle.clfs_block.specs.Checks.{IsEnough};
ghost use Rattle.clfs_buffers.specs.Buffered.{is_same_place, kept_at, kept_data, with_used, IsAdded};

use crate::kept::KeptBlock;
use crate::place::BlockPlace;
use crate::reading::read_kept;
use crate::refusal::ReadRefusal;
use clfs_disk::Disk;
use clfs_lsn::{Bytes, LogEntry, Lsn, Shape};
use lru::LruCache;
use std::alloc::{AllocError, Global};
use std::marker::Model;
use std::mem;
use std::num::NonZeroUsize;

/// The blocks that were read and are kept. A contract sees where each lies and its records, the one used last first, and how many are
/// kept at most. Besides them it has the memory of one more block, and that of a largest block's bytes, which are taken when a block is first read and serve the
/// reads after it; a read that is refused because memory ran out leaves them to be taken again.
#[derive(Drop)]
pub struct Buffers {
    alloc: Global,
    most: u32,
    table: LruCache<BlockPlace, KeptBlock>,
    spare: KeptBlock,
    bytes: Vec<u8>,
}

impl Model for Buffers {
    ghost use Rattle.clfs_buffers.specs.Buffered.{Buffered};

    ghost Value = { Buffered };

    ghost use Rattle.clfs_buffers.specs.Buffered.{of_table, IsBuffered};

    ghost view = { λ b. of_table b.table };

    ghost invariant = { λ b. IsBuffered b.most b.table };
}

impl Buffers {
    /// No blocks, of which so many are to be kept at most.
    pub fn new(alloc: Global, most: u32) -> Result<Buffers, AllocError>
        requires { 1 ≤ most }
        ensures { IfOk result (λ buffers. buffers ≡ record { most = most; blocks = [] }) }
    {
        let count = NonZeroUsize::new(most as usize).unwrap();
        Ok(Buffers {
            alloc,
            most,
            table: LruCache::new(alloc, count)?,
            spare: KeptBlock::new(alloc),
            bytes: Vec::new(alloc),
        })
    }

    /// How many blocks are kept at most.
    pub fn most(&self) -> u32
        ensures most { result ≡ self.now.most }
        ensures some { 1 ≤ result }
    {
        self.most
    }

    /// The data of the record at an LSN, if its block is kept and has it: `read` of such a record, with no look at its header and none at the disk.
    /// The block is then the one used last, also if memory runs out for the data.
    pub fn kept_data(&mut self, lsn: Lsn) -> Result<Option<Bytes>, AllocError>
        ensures exact { IfOk result (λ found. found ≡ kept_data lsn self.old) }
        ensures used { self.new ≡ with_used (block_place lsn) self.old }
        ensures small { IfOk result (λ found. IfSome found (λ bytes. length bytes ≤ most_data)) }
    {
        let place = BlockPlace::of(lsn);
        if !self.table.promote(&place) {
            return Ok(None);
        }
        let Some((_, block)) = self.table.peek_mru() else {
            return Ok(None);
        };
        block.data_at(self.alloc, lsn.sequence())
    }

    /// The record at an LSN of a log of this shape and of so many streams. `file` is the number of the file that the LSN's container lies in.
    /// `expected` is how many bytes its block is thought to have: so many are asked for. If they aren't the block, as they aren't where it is
    /// damaged or longer, the bytes of a largest block are asked for by a second call, so a wrong number changes no answer.
    pub fn read<D: Disk>(
        &mut self,
        disk: &mut D,
        shape: &Shape,
        streams: u16,
        file: u16,
        lsn: Lsn,
        expected: u32,
    ) -> Result<LogEntry, ReadRefusal>
        requires shape { IsShape shape.now }
        requires file { file ≤ 256 }

        // A block that is kept answers from its records, and is then the one used last. The disk isn't called, and no fault of it is told.
        ensures kept { (records : List LogEntry) → kept_at (block_place lsn) self.old ≡ Some records → Gives result (record_in lsn records) }
        ensures used { IsSome (kept_at (block_place lsn) self.old) → OnOk result (self.new ≡ with_used (block_place lsn) self.old) }
        ensures quiet { IsSome (kept_at (block_place lsn) self.old) → (disk.new ≡ disk.old) × (IsErrOf result ReadRefusal.DiskFault → ⊥) }

        // One that isn't kept answers what the file has there, and is kept.
        ensures read { kept_at (block_place lsn) self.old ≡ None → TellsContents (D.state disk.old)
            → Gives result (record_by shape.now streams lsn (drop (offset_of lsn) ((D.state disk.old).files file))) }
        ensures joins { kept_at (block_place lsn) self.old ≡ None → IfOk result (λ entry. IsAdded shape.now streams lsn (TellsContents (D.state disk.old))
            (drop (offset_of lsn) ((D.state disk.old).files file)) entry self.old self.new) }

        // Over any disk damage is told at a byte at which some bytes of a block's length are wrong, or at the field of the number of records.
        ensures told { IfErr result (λ refusal. TellsByte shape.now streams lsn refusal) }

        // After a refusal the blocks that are kept are as before.
        ensures refused { OnErr result (self.new ≡ self.old) }
        ensures lsn { IfOk result (λ entry. entry.lsn ≡ lsn) }
        ensures small { IfOk result (λ entry. length entry.bytes ≤ most_data) }
        ensures same { Unchanged (D.state disk.old).files (D.state disk.new).files }
        ensures time { Passes Unchanged (D.state disk.old) (D.state disk.new) }
        // The disk is called twice at most, and once if the bytes that are asked for are enough to judge the block there.
        ensures calls { kept_at (block_place lsn) self.old ≡ None → TellsContents (D.state disk.old)
            → IsEnough shape.now (drop (offset_of lsn) ((D.state disk.old).files file)) expected
            → OnOk result ((D.state disk.new).calls ≡ raised 1 (D.state disk.old).calls) }
        ensures calls_at_most { raised 0 (D.state disk.new).calls ≤ raised 2 (D.state disk.old).calls }
        ensures cause { IsErrOf result ReadRefusal.DiskFault → Rises (D.state disk.old).faults (D.state disk.new).faults }
        ensures steady { IsSteady (D.state disk.old) → (IsErrOf result ReadRefusal.DiskFault → ⊥)
            × ((D.state disk.new).faults ≡ (D.state disk.old).faults) }
    {
        let place = BlockPlace::of(lsn);
        if let Some(block) = self.table.peek(&place) {
            let entry = block.entry(self.alloc, lsn.sequence())?;
            self.table.promote(&place);
            return Ok(entry);
        }
        let spare = mem::replace(&mut self.spare, KeptBlock::new(self.alloc));
        let block = read_kept(
            self.alloc,
            disk,
            shape,
            streams,
            file,
            place,
            expected,
            &mut self.bytes,
            spare,
        )?;
        let entry = block.entry(self.alloc, lsn.sequence())?;
        keep(&mut self.table, place, block, &mut self.spare)?;
        Ok(entry)
    }
}

// Keeps one more block. The memory of the one that goes for it becomes the spare one.
fn keep(
    table: &mut LruCache<BlockPlace, KeptBlock>,
    place: BlockPlace,
    block: KeptBlock,
    spare: &mut KeptBlock,
) -> Result<(), AllocError>
    requires new { lookup (is_same_place place) table.old.entries ≡ None }
    ensures ok { OnOk result (table.new ≡ lru_cache ((place, block) ∷ take (table.old.cap - 1) table.old.entries) table.old.cap) }
    ensures err { OnErr result (table.new ≡ table.old) }
{
    match table.push(place, block) {
        Ok(Some((_, old))) => *spare = old,
        Ok(None) => {}
        Err(failed) => {
            let (_, block) = failed.value;
            *spare = block;
            return Err(AllocError);
        }
    }
    Ok(())
}
