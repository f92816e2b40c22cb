// Reading ahead: a piece of a file is read by one call of the disk, and serves for many blocks. If it hasn't all of a block that may begin at a
// place, it slides: the bytes that it has from there on are kept, and those after them are read by one call. Its memory is taken once.
ghost use Rattle.std.specs.Prelude.{◌≡◌, ◌+◌, ◌-◌, ◌^◌, ◌++◌, ◌≤◌, ◌<◌, nat_le, if◌then◌else◌, [], IsTrue, length, drop, IsOk, IfOk, IfSome, OnOk, OnErr};
ghost use Rattle.clfs_disk.specs.Files.{Unchanged};
ghost use Rattle.clfs_disk.specs.State.{TellsContents, IsSteady, Passes, Rises};
ghost use Rattle.clfs_recover.specs.Fronts.{Shows, Reaches};

use clfs_container::read_block;
use clfs_disk::{Disk, Failed};
use std::alloc::{AllocError, Global};
use std::marker::Model;
use std::mem;

// So many zeros.
fn zeros(alloc: Global, count: usize) -> Result<Vec<u8>, AllocError>
    ensures { IfOk result (λ bytes. length bytes.items ≡ count) }
{
    let mut bytes = Vec::new(alloc);
    bytes.resize(count, 0)?;
    Ok(bytes)
}

// Puts bytes over the first of others.
fn put_first(out: &mut [u8], bytes: &[u8])
    requires { length bytes.now ≤ length out.old }
    ensures { out.new ≡ bytes.now ++ drop (length bytes.now) out.old }
{
    out[..bytes.len()].copy_from_slice(bytes);
}

// The place after so many bytes from another one on, if a file can have it.
fn place_behind(at: u32, count: usize) -> Option<u32>
    ensures { IfSome result (λ place. place ≡ at + count) }
{
    let Ok(count) = u32::try_from(count) else {
        return None;
    };
    at.checked_add(count)
}

// A piece of a file.
#[derive(Drop)]
pub(crate) struct Ahead {
    buffer: Vec<u8>,
    // As long as the buffer. What a piece keeps when it slides is copied to its front, and the two change places.
    other: Vec<u8>,
    from: u32,
    count: usize,
}

impl Model for Ahead {
    ghost use Rattle.std.specs.Prelude.{◌≡◌, ◌≤◌, take, vec_len};
    ghost use Rattle.clfs_recover.specs.Fronts.{Piece};

    ghost Value = { Piece };

    ghost view = { λ a. record { from = a.from; bytes = take a.count a.buffer.items; room = vec_len a.buffer } };

    ghost invariant = { λ a. (a.count ≤ vec_len a.buffer) × (vec_len a.other ≡ vec_len a.buffer) };
}

impl Ahead {
    // Nothing read yet, with room for so many bytes.
    pub fn new(alloc: Global, room: usize) -> Result<Ahead, AllocError>
        ensures { IfOk result (λ piece. piece.room ≡ room) }
    {
        Ok(Ahead {
            buffer: zeros(alloc, room)?,
            other: zeros(alloc, room)?,
            from: 0,
            count: 0,
        })
    }

    // Reads the piece of a file that begins at a byte, by one call of the disk.
    pub fn read<D: Disk>(&mut self, disk: &mut D, file: u16, from: u32) -> Result<(), Failed>
        requires { file ≤ 256 }
        ensures place { OnOk result (self.new.from ≡ from) }
        ensures shows { OnOk result (TellsContents (D.state disk.old) → Shows ((D.state disk.old).files file) self.new) }
        ensures few { length self.new.bytes ≤ self.new.room }
        ensures room { self.new.room ≡ self.old.room }
        ensures same { Unchanged (D.state disk.old).files (D.state disk.new).files }
        ensures time { Passes Unchanged (D.state disk.old) (D.state disk.new) }
        ensures cause { OnErr result (Rises (D.state disk.old).faults (D.state disk.new).faults) }
        ensures steady { IsSteady (D.state disk.old) → IsOk result × ((D.state disk.new).faults ≡ (D.state disk.old).faults) }
    {
        self.count = 0;
        self.from = from;
        self.count = read_block(disk, file, from, &mut self.buffer)?;
        Ok(())
    }

    // How many bytes the piece has from a place on that isn't before it.
    fn count_from(&self, at: u32) -> usize
        ensures { result ≡ (if nat_le self.now.from at then length (drop (at - self.now.from) self.now.bytes) else 0) }
    {
        if at < self.from {
            return 0;
        }
        self.count.saturating_sub((at - self.from) as usize)
    }

    // Moves what the piece has from a place on to the front of its buffer, and answers how many bytes that is. It has no others then.
    fn keep_from(&mut self, at: u32) -> usize
        ensures place { self.new.from ≡ at }
        ensures bytes { self.new.bytes ≡ (if nat_le self.old.from at then drop (at - self.old.from) self.old.bytes else []) }
        ensures count { result ≡ length self.new.bytes }
        ensures room { self.new.room ≡ self.old.room }
    {
        let kept = self.count_from(at);
        let skipped = self.count - kept;
        put_first(&mut self.other, &self.buffer[skipped..self.count]);
        mem::swap(&mut self.buffer, &mut self.other);
        self.from = at;
        self.count = kept;
        kept
    }

    // Reads on from a place: what the piece has from there on is kept, and as much as there is room for is read after it, by one call of the disk.
    pub fn slide<D: Disk>(&mut self, disk: &mut D, file: u16, at: u32) -> Result<(), Failed>
        requires { file ≤ 256 }
        ensures place { OnOk result (self.new.from ≡ at) }
        ensures shows { OnOk result (TellsContents (D.state disk.old) → Shows ((D.state disk.old).files file) self.old
            → Shows ((D.state disk.old).files file) self.new) }
        ensures few { length self.new.bytes ≤ self.new.room }
        ensures room { self.new.room ≡ self.old.room }
        ensures same { Unchanged (D.state disk.old).files (D.state disk.new).files }
        ensures time { Passes Unchanged (D.state disk.old) (D.state disk.new) }
        ensures cause { OnErr result (Rises (D.state disk.old).faults (D.state disk.new).faults) }
        ensures steady { IsSteady (D.state disk.old) → IsOk result × ((D.state disk.new).faults ≡ (D.state disk.old).faults) }
    {
        let kept = self.keep_from(at);
        let Some(next) = place_behind(at, kept) else {
            return self.read(disk, file, at);
        };
        let count = read_block(disk, file, next, &mut self.buffer[kept..])?;
        self.count = kept + count;
        Ok(())
    }

    // Whether the piece has so many bytes from a place on, or all that its file has there.
    pub fn reaches(&self, at: u32, least: usize) -> bool
        requires { least < 2 ^ 32 }
        ensures { IsTrue result → Reaches at least self.now }
    {
        if at < self.from {
            return false;
        }
        let skipped = (at - self.from) as usize;
        self.count < self.buffer.len() || skipped + least <= self.count
    }

    // The bytes of the piece from a place on.
    pub fn bytes_from(&self, at: u32) -> &[u8]
        requires { self.now.from ≤ at }
        ensures { result.now ≡ drop (at - self.now.from) self.now.bytes }
    {
        let bytes = &self.buffer[..self.count];
        let skipped = (at - self.from) as usize;
        if bytes.len() < skipped {
            return &[];
        }
        bytes.split_at(skipped).1
    }
}
