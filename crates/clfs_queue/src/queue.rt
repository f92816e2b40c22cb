// The queue: one buffer with the sealed blocks one after the other, and after them the open block, or where none is open a closed
// gate. So the buffer is the group that is written next, with all its gates open and the closed one after it: who writes it leaves the
// first gate out, and a crash leaves the whole group or none of it. Which records the queue has is a value that clauses alone read: the
// bytes tell it, and no code needs a list of them.
ghost use Rattle.std.specs.Prelude.{◌≡◌, ◌+◌, ◌-◌, ◌*◌, ◌^◌, ◌<◌, ◌≤◌, ◌∷◌, [], ℕ, List, false, length, nat_le, Some, IfOk, IsSome};
ghost use Rattle.clfs_lsn.specs.Format.{sector_bytes};
ghost use Rattle.clfs_lsn.specs.Limits.{most_write_buffers};
ghost use Rattle.clfs_lsn.specs.Lsn.{lsn_number};
ghost use Rattle.clfs_lsn.specs.Size.{IsShape, longest};
ghost use Rattle.clfs_lsn.specs.Spelling.{BaseFits};
ghost use Rattle.clfs_lsn.specs.Place.{IsWithin, IsClosed, joins, begins_here};
ghost use Rattle.clfs_queue.specs.Queued.{Queued, placing, next_lsn, HasRoomFor, pushed, seal, turned, data_at};
ghost use Rattle.clfs_queue.specs.Group.{IsGroupOf};

use crate::placing::Placing;
use crate::reading::read_record;
use crate::writing::{open_block, push_record};
use clfs_block::{blocks_are_read_as_written, blocks_say_their_sectors, seal_block};
use clfs_lsn::{
    Bytes, LogEntry, Lsn, OPEN_GATE, Place, SECTOR, Shape, place_after, push_zeros, sealed,
};
use clfs_record::{Fields, records_are_read_as_written};
use clfs_told::Told;
use std::alloc::{AllocError, Global};
use std::collections::LinkedList;
use std::marker::Model;

/// The records that aren't on the disk yet.
#[derive(Drop)]
pub struct Queue {
    shape: Shape,
    buffers: u32,
    place: Place,
    // The sealed blocks, which end at the place's offset or where the open block begins; after them that block, or a closed gate.
    buffer: Vec<u8>,
    // How many of its bytes are those of the sealed blocks.
    sealed_len: usize,
    // The LSNs at which these begin.
    waiting: Vec<Lsn>,
    // The records of all, which only clauses read.
    records: Told<LinkedList<LogEntry>>,
}

impl Model for Queue {
    ghost use Rattle.clfs_queue.specs.Queued.{Queued};

    ghost Value = { Queued };

    ghost use Rattle.std.specs.Prelude.{vec_capacity};
    ghost use Rattle.clfs_queue.specs.Kept.{IsKept};

    ghost view = { λ q. record {
      shape = q.shape;
      buffers = q.buffers;
      place = q.place;
      waiting = q.waiting.items;
      records = q.records.value;
    } };

    ghost invariant = { λ q. IsKept
        (record { shape = q.shape; buffers = q.buffers; place = q.place; waiting = q.waiting.items; records = q.records.value })
        q.buffer.items q.sealed_len (vec_capacity q.buffer) (vec_capacity q.waiting) };
}

impl Queue {
    /// An empty queue of a log that goes on at this place. All memory that it will ever need is taken here.
    pub fn new(
        alloc: Global,
        shape: &Shape,
        write_buffers: u32,
        place: &Place,
    ) -> Result<Queue, AllocError>
        requires shape { IsShape shape.now }
        requires buffers { (1 ≤ write_buffers) × (write_buffers ≤ most_write_buffers) }
        requires place { IsWithin shape.now place.now }
        requires closed { IsClosed place.now }
        ensures { IfOk result (λ q.
            q ≡ record { shape = shape.now; buffers = write_buffers; place = place.now; waiting = []; records = [] }) }
    {
        let mut buffer = Vec::with_capacity(alloc, room_of(shape, write_buffers))?;
        let waiting = Vec::with_capacity(alloc, write_buffers as usize + 1)?;
        push_zeros(&mut buffer, 1);
        Ok(Queue {
            shape: *shape,
            buffers: write_buffers,
            place: *place,
            buffer,
            sealed_len: 0,
            waiting,
            records: Told::pick(&alloc),
        })
    }

    /// How large the log's blocks and containers are.
    pub fn shape(&self) -> Shape
        ensures { result ≡ self.now.shape }
    {
        self.shape
    }

    /// Where the log goes on.
    pub fn place(&self) -> Place
        ensures place { result ≡ self.now.place }
        ensures within { IsWithin self.now.shape result }
    {
        self.place
    }

    /// How many write buffers the log has: once so many blocks wait, all are written.
    pub fn buffers(&self) -> u32
        ensures { result ≡ self.now.buffers }
    {
        self.buffers
    }

    /// How many blocks wait. The log asks `fills_buffers` alone; tests ask this.
    pub fn waiting(&self) -> usize
        ensures count { result ≡ length self.now.waiting }
        ensures few { result ≤ self.now.buffers + 1 }
    {
        self.waiting.len()
    }

    /// Whether with one block more as many wait as there are write buffers.
    pub fn fills_buffers(&self) -> bool
        ensures { result ≡ nat_le self.now.buffers (length self.now.waiting + 1) }
    {
        self.buffers as usize <= self.waiting.len() + 1
    }

    /// The LSN below which every record is on the disk: the start of the first block that waits; where none does, that of the open block,
    /// or of the next one.
    pub fn flushed(&self) -> Lsn
        ensures first { (start : ℕ) (others : List ℕ) → self.now.waiting ≡ start ∷ others → result ≡ start }
        ensures none { self.now.waiting ≡ [] → result ≡ lsn_number self.now.place.container self.now.place.offset 0 }
    {
        match self.waiting.first() {
            Some(start) => *start,
            None => block_start(&self.place),
        }
    }

    /// Which case of the rule for places comes for a record with so many bytes of data.
    pub fn next(&self, len: u32) -> Placing
        requires len { len ≤ longest self.now.shape }
        requires next_container { (joins self.now.shape self.now.place len ≡ false) → (begins_here self.now.shape self.now.place len ≡ false)
            → self.now.place.container < 2 ^ 32 - 1 }
        ensures { result ≡ placing self.now.shape self.now.place len }
    {
        let (lsn, _) = place_after(&self.shape, &self.place, len);
        if lsn.container() != self.place.container {
            Placing::BeginsContainer
        } else if lsn.sequence() == 0 {
            Placing::BeginsBlock
        } else {
            Placing::Joins
        }
    }

    /// Puts a record at the place that the rule gives it, and answers its LSN. Where it begins a block, the one before is to be sealed.
    pub fn push(&mut self, fields: &Fields, bytes: &[u8]) -> Lsn
        requires len { length bytes.now ≤ longest self.old.shape }
        requires room { HasRoomFor self.old (length bytes.now) }
        requires stream { 1 ≤ fields.now.stream }
        requires previous { fields.now.previous < next_lsn self.old (length bytes.now) }
        requires undo_next { fields.now.undo_next < next_lsn self.old (length bytes.now) }
        requires new_base { BaseFits fields.now.kind (next_lsn self.old (length bytes.now)) fields.now.new_base }
        ensures lsn { result ≡ next_lsn self.old (length bytes.now) }
        ensures pushed { self.new ≡ pushed self.old fields.now bytes.now }
    {
        records_are_read_as_written();
        let (lsn, after) = place_after(&self.shape, &self.place, bytes.len() as u32);
        let used = open_block(&mut self.buffer, &self.place);
        push_record(&mut self.buffer, self.sealed_len, used, fields, bytes);
        self.place = after;
        self.records = self.records.next(&(lsn, *fields, bytes));
        lsn
    }

    /// Ends the open block, where there is one: it waits from here on.
    pub fn seal(&mut self)
        ensures sealed { self.new ≡ seal self.old }
        ensures closed { IsClosed self.new.place }
    {
        if self.place.records == 0 {
            return;
        }
        let start = block_start(&self.place);
        seal_block(
            &mut self.buffer,
            self.sealed_len,
            start,
            OPEN_GATE,
            self.place.records,
            self.place.used as usize,
        );
        self.sealed_len = self.buffer.len();
        push_zeros(&mut self.buffer, 1);
        self.place = sealed(&self.place);
        self.waiting.push_reserved(start);
    }

    /// The bytes of the blocks that wait, to be written as one group, and the byte of their container at which the group begins. The bytes
    /// are all but its first one, the gate of its first block, and after them a closed gate where the container has a sector there. Where
    /// nothing waits there are none.
    pub fn group(&self) -> (u32, &[u8])
        requires { IsClosed self.now.place }
        ensures { IsGroupOf self.now result.0 result.1.now }
    {
        blocks_say_their_sectors();
        let at = self.place.offset - self.sealed_len as u32;
        if self.sealed_len == 0 {
            return (at, &[]);
        }
        if self.place.offset == SECTOR * self.shape.container_sectors {
            return (at, &self.buffer[1..self.sealed_len]);
        }
        (at, &self.buffer[1..self.sealed_len + 1])
    }

    /// What waited is on the disk. The log goes on where it was.
    pub fn written(&mut self)
        requires { IsClosed self.old.place }
        ensures { self.new ≡ record self.old { waiting = []; records = [] } }
    {
        self.buffer.clear();
        push_zeros(&mut self.buffer, 1);
        self.sealed_len = 0;
        self.waiting.clear();
        self.records = self.records.next(&self.sealed_len);
    }

    /// The log goes on in the next container, from its first byte on.
    pub fn turn(&mut self)
        requires closed { IsClosed self.old.place }
        requires nothing { self.old.waiting ≡ [] }
        requires container { self.old.place.container < 2 ^ 32 - 1 }
        ensures { self.new ≡ record self.old { place = turned self.old.place } }
    {
        self.place = Place {
            container: self.place.container + 1,
            offset: 0,
            used: 0,
            records: 0,
        };
    }

    /// The data of a record that waits or is in the open block. Memory is taken for it alone.
    pub fn read(&self, alloc: Global, lsn: Lsn) -> Result<Bytes, AllocError>
        requires { IsSome (data_at lsn self.now.records) }
        ensures { IfOk result (λ bytes. data_at lsn self.now.records ≡ Some bytes) }
    {
        blocks_are_read_as_written();
        let first = self.place.offset as usize - self.sealed_len;
        let block = &self.buffer[lsn.offset() as usize - first..];
        read_record(alloc, block, lsn.sequence())
    }
}

// The bytes of the largest blocks, one more than there are write buffers, and a gate after them.
fn room_of(shape: &Shape, write_buffers: u32) -> usize
    requires shape { IsShape shape.now }
    requires buffers { write_buffers ≤ most_write_buffers }
    ensures { result ≡ sector_bytes * shape.now.block_sectors * (write_buffers + 1) + 1 }
{
    SECTOR as usize * shape.block_sectors as usize * (write_buffers as usize + 1) + 1
}

// The LSN at which the open block begins, or the next one.
fn block_start(place: &Place) -> Lsn
    requires { place.now.offset < 2 ^ 32 }
    ensures { result ≡ lsn_number place.now.container place.now.offset 0 }
{
    Lsn::from_parts(place.container, place.offset, 0)
}
