// The ends of the blocks of a log that was opened. The heads of its records are gone through once; those of a block stand in a row.
ghost use Rattle.std.specs.Prelude.{◌≡◌, ◌+◌, ◌*◌, ◌<◌, ◌^◌, All, AllPairs, IfOk};
ghost use Rattle.clfs_lsn.specs.Format.{sector_bytes, block_header};
ghost use Rattle.clfs_lsn.specs.Lsn.{offset_of, sequence_of};
ghost use Rattle.clfs_lsn.specs.Size.{size, sectors};
ghost use Rattle.clfs_lsn.specs.declared.entry.Head.{Head};
ghost use Rattle.clfs_model.specs.Archive.{is_in_block};
ghost use Rattle.clfs_model.specs.Heads.{block_end};
ghost use Rattle.clfs_archive.specs.Blocks.{AreSealed};

use crate::archive::Archive;
use crate::block::BlockEnd;
use clfs_lsn::{BLOCK_HEADER, Head, Lsn, SECTOR, sectors_of, size_of_record};
use std::alloc::{AllocError, Global};

// A block whose records were found up to one of them.
#[derive(Clone, Copy)]
struct FoundBlock {
    // The LSN of the last of them.
    last: Lsn,
    // The bytes of payload up to that record's end.
    payload: u64,
}

/// Archiving of a log that was opened, by the heads of all its records: the ends of all blocks below the LSN at which the next one begins.
pub fn open_archive(
    alloc: Global,
    tail: Option<Lsn>,
    heads: &[Head],
    next: Lsn,
) -> Result<Archive, AllocError>
    requires rising { AllPairs (λ (a b : Head). a.lsn < b.lsn) heads.now }
    requires fit { All (λ (head : Head). block_end heads.now head.lsn < 2 ^ 32) heads.now }
    requires start { sequence_of next ≡ 0 }
    requires below { All (λ (head : Head). head.lsn < next) heads.now }
    ensures tail { IfOk result (λ archive. archive.tail ≡ tail) }
    ensures blocks { IfOk result (λ archive. AreSealed 0 next archive.blocks heads.now) }
{
    let mut archive = Archive::new(alloc, tail);
    let Some((first, others)) = heads.split_first() else {
        return Ok(archive);
    };
    let mut found = FoundBlock::of(first.lsn, first.len);
    for head in others {
        if found.has(head.lsn) {
            found.add(head.lsn, head.len);
        } else {
            archive.reserve(1)?;
            archive.push(found.end());
            found = FoundBlock::of(head.lsn, head.len);
        }
    }
    archive.reserve(1)?;
    archive.push(found.end());
    Ok(archive)
}

impl FoundBlock {
    // A block with one record.
    fn of(lsn: Lsn, len: u32) -> FoundBlock
        ensures last { result.last ≡ lsn }
        ensures payload { result.payload ≡ block_header + size len }
    {
        FoundBlock {
            last: lsn,
            payload: BLOCK_HEADER as u64 + size_of_record(len),
        }
    }

    // Whether a record is in the block.
    fn has(&self, lsn: Lsn) -> bool
        ensures { result ≡ is_in_block lsn self.now.last }
    {
        lsn.container() == self.last.container() && lsn.offset() == self.last.offset()
    }

    // The block with one record more.
    fn add(&mut self, lsn: Lsn, len: u32)
        requires { self.old.payload < 2 ^ 32 }
        ensures last { self.new.last ≡ lsn }
        ensures payload { self.new.payload ≡ self.old.payload + size len }
    {
        self.last = lsn;
        self.payload += size_of_record(len);
    }

    // Where it ends.
    fn end(&self) -> BlockEnd
        requires { offset_of self.now.last + sector_bytes * sectors self.now.payload < 2 ^ 32 }
        ensures last { result.last ≡ self.now.last }
        ensures end { result.end ≡ offset_of self.now.last + sector_bytes * sectors self.now.payload }
    {
        let sectors = sectors_of(self.payload) as u32;
        BlockEnd {
            last: self.last,
            end: self.last.offset() + SECTOR * sectors,
        }
    }
}
