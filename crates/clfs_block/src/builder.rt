// Building a block in memory that is taken once: a buffer with one block, from its first byte on. The gate of a sealed block is closed:
// who writes the block opens it last, on the disk. The byte after the block is a closed gate as well. The log makes its blocks in place and
// calls nothing here: it is for other programs that write blocks.
ghost use Rattle.std.specs.Prelude.{◌≡◌, ◌+◌, ◌-◌, ◌*◌, ◌/◌, ◌<◌, ◌≤◌, ◌++◌, ◌∷◌, [], nat_le, ◌&&◌, nat_lt, ℕ, List, length, drop, replicate, Some, None, IsSome, IfOk, vec_capacity};
ghost use Rattle.clfs_lsn.specs.Format.{sector_bytes, sector_payload, block_header};
ghost use Rattle.clfs_lsn.specs.Limits.{most_block_sectors, most_container_sectors, most_block_records};
ghost use Rattle.clfs_lsn.specs.Lsn.{sequence_of, offset_of};
ghost use Rattle.clfs_lsn.specs.Size.{IsShape, size, sectors};
ghost use Rattle.clfs_block.specs.Frame.{place_of, payload_of, used_bytes, SpellsBlock};
ghost use Rattle.clfs_block.specs.Building.{Building, fits, SealsAt};

use crate::framing::{push_payload, seal_block};
use crate::{HEADER, SECTOR};
use clfs_lsn::{Lsn, MOST_BLOCK_RECORDS, Shape, push_zeros, sectors_of, size_of_record};
use std::alloc::{AllocError, Global};
use std::marker::Model;

/// A block that takes records until it is sealed.
#[derive(Drop)]
pub struct BlockBuilder {
    buffer: Vec<u8>,
    used: usize,
    records: u32,
    room: u32,
    is_sealed: bool,
}

impl Model for BlockBuilder {
    ghost use Rattle.std.specs.Prelude.{◌≡◌, ◌+◌, ◌*◌, ◌≤◌, drop, length, Some, None, if◌then◌else◌, vec_capacity};
    ghost use Rattle.clfs_lsn.specs.Format.{block_header};
    ghost use Rattle.clfs_lsn.specs.Size.{sectors};
    ghost use Rattle.clfs_block.specs.Frame.{place_of, payload_of};
    ghost use Rattle.clfs_block.specs.Building.{Building, IsBuilt};

    ghost Value = { Building };

    ghost view = { λ a. record {
      room = a.room;
      records = a.records;
      content = drop block_header (payload_of a.used a.buffer.items);
      sealed = if a.is_sealed then Some a.buffer.items else None;
    } };

    ghost invariant = { λ a. IsBuilt a.buffer.items (vec_capacity a.buffer) a.used a.records a.room a.is_sealed };
}

impl BlockBuilder {
    /// An empty block. All memory is taken here: the room of the largest block and of one byte more.
    pub fn new(alloc: Global, shape: &Shape) -> Result<BlockBuilder, AllocError>
        requires { IsShape shape.now }
        ensures { IfOk result (λ built.
            built ≡ record { room = shape.now.block_sectors; records = 0; content = []; sealed = None }) }
    {
        let mut buffer = Vec::with_capacity(alloc, SECTOR * shape.block_sectors as usize + 1)?;
        begin(&mut buffer);
        Ok(BlockBuilder {
            buffer,
            used: HEADER,
            records: 0,
            room: shape.block_sectors,
            is_sealed: false,
        })
    }

    /// Whether a record with so many bytes of data joins the block, `left` being the sectors from the block's start to the
    /// end of its container.
    pub fn fits(&self, len: u32, left: u32) -> bool
        ensures { result ≡ fits self.now len left }
    {
        has_room(self.records, self.used, self.room, len, left)
    }

    /// Appends a record, given by its spelling.
    pub fn push(&mut self, spelling: &[u8])
        requires sealed { self.old.sealed ≡ None }
        requires records { self.old.records < most_block_records }
        requires room { sectors (used_bytes self.old.content + length spelling.now) ≤ self.old.room }
        ensures { self.new ≡ record self.old { records = self.old.records + 1; content = self.old.content ++ spelling.now } }
    {
        push_payload(&mut self.buffer, 0, self.used, spelling);
        self.used += spelling.len();
        self.records += 1;
    }

    /// Ends the block at its place in the log, after a closed gate, and answers its sectors.
    pub fn seal(&mut self, start: Lsn) -> u32
        requires sealed { self.old.sealed ≡ None }
        requires records { 1 ≤ self.old.records }
        requires sequence { sequence_of start ≡ 0 }
        requires container { offset_of start / sector_bytes + sectors (used_bytes self.old.content) ≤ most_container_sectors }
        ensures sectors { result ≡ sectors (used_bytes self.old.content) }
        ensures sealed { SealsAt start self.old self.new }
    {
        let count = sectors_of(self.used as u64) as u32;
        seal_buffer(&mut self.buffer, start, self.records, self.used);
        self.is_sealed = true;
        count
    }

    /// The sealed block, and after it one byte 0, a closed gate.
    pub fn bytes(&self) -> &[u8]
        requires { IsSome self.now.sealed }
        ensures { self.now.sealed ≡ Some result.now }
    {
        self.buffer.as_slice()
    }

    /// Empties the block.
    pub fn clear(&mut self)
        ensures { self.new ≡ record self.old { records = 0; content = []; sealed = None } }
    {
        self.buffer.clear();
        begin(&mut self.buffer);
        self.used = HEADER;
        self.records = 0;
        self.is_sealed = false;
    }
}

// Whether a record with so many bytes of data joins a block of so many records and bytes.
fn has_room(records: u32, used: usize, room: u32, len: u32, left: u32) -> bool
    requires { used ≤ sector_payload * most_block_sectors }
    ensures { result ≡ (nat_lt records most_block_records
        && (nat_le (sectors (used + size len)) room && nat_le (sectors (used + size len)) left)) }
{
    let count = sectors_of(used as u64 + size_of_record(len));
    records < MOST_BLOCK_RECORDS && (count <= room as u64 && count <= left as u64)
}

// Room for a header, in an empty buffer.
fn begin(buffer: &mut Vec<u8>)
    requires none { buffer.old.items ≡ [] }
    requires room { block_header ≤ vec_capacity buffer.old }
    ensures items { buffer.new.items ≡ replicate block_header 0 }
    ensures capacity { vec_capacity buffer.old ≤ vec_capacity buffer.new }
{
    buffer.resize(HEADER, 0).unwrap();
}

// Ends the block after a closed gate, and puts a closed gate after it.
fn seal_buffer(buffer: &mut Vec<u8>, start: Lsn, records: u32, used: usize)
    requires place { length buffer.old.items ≡ place_of used }
    requires used { block_header ≤ used }
    requires few { sectors used ≤ most_block_sectors }
    requires records { records ≤ most_block_records }
    requires room { sector_bytes * sectors used + 1 ≤ vec_capacity buffer.old }
    requires container { offset_of start / sector_bytes + sectors used ≤ most_container_sectors }
    ensures sealed { (bytes : List ℕ) × (buffer.new.items ≡ bytes ++ 0 ∷ [])
        × SpellsBlock start 0 records (drop block_header (payload_of used buffer.old.items)) bytes }
    ensures payload { drop block_header (payload_of used buffer.new.items) ≡ drop block_header (payload_of used buffer.old.items) }
    ensures capacity { vec_capacity buffer.old ≤ vec_capacity buffer.new }
{
    seal_block(buffer, 0, start, 0, records, used);
    push_zeros(buffer, 1);
}
