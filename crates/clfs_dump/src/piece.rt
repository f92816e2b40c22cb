// Reading ahead: a piece of a file is read by one call of the disk, and serves for many blocks. It is read again from a place where it hasn't all of a
// block that may begin there. Its memory is taken once.
ghost use Rattle.std.specs.Prelude.{◌≡◌, ◌+◌, ◌-◌, ◌^◌, ◌≤◌, ◌<◌, IsTrue, length, drop, IsOk, IfOk, OnOk, OnErr};
ghost use Rattle.clfs_disk.specs.Files.{Unchanged};
ghost use Rattle.clfs_disk.specs.State.{TellsContents, IsSteady, Passes, Rises};
ghost use Rattle.clfs_recover.specs.Fronts.{Shows, Reaches};

use clfs_container::read_block;
use clfs_disk::{Disk, Failed};
use std::alloc::{AllocError, Global};
use std::marker::Model;

// So many zeros.
fn zeros(alloc: Global, count: usize) -> Result<Vec<u8>, AllocError>
    ensures { IfOk result (λ bytes. length bytes.items ≡ count) }
{
    let mut bytes = Vec::new(alloc);
    bytes.resize(count, 0)?;
    Ok(bytes)
}

// A piece of a file.
#[derive(Drop)]
pub(crate) struct Ahead {
    buffer: Vec<u8>,
    from: u32,
    count: usize,
}

impl Model for Ahead {
    ghost use Rattle.std.specs.Prelude.{◌≤◌, take, vec_len};
    ghost use Rattle.clfs_recover.specs.Fronts.{Piece};

    ghost Value = { Piece };

    ghost view = { λ a. record { from = a.from; bytes = take a.count a.buffer.items; room = vec_len a.buffer } };

    ghost invariant = { λ a. a.count ≤ vec_len a.buffer };
}

impl Ahead {
    // Nothing read yet, with room for so many bytes.
    pub fn new(alloc: Global, room: usize) -> Result<Ahead, AllocError>
        ensures { IfOk result (λ piece. piece.room ≡ room) }
    {
        Ok(Ahead {
            buffer: zeros(alloc, room)?,
            from: 0,
            count: 0,
        })
    }

    // Reads the piece of a file that begins at a byte, by one call of the disk.
    pub fn read<D: Disk>(&mut self, disk: &mut D, file: u16, from: u32) -> Result<(), Failed>
        requires { file ≤ 256 }
        ensures place { OnOk result (self.new.from ≡ from) }
        ensures shows { OnOk result (TellsContents (D.state disk.old) → Shows ((D.state disk.old).files file) self.new) }
        ensures few { length self.new.bytes ≤ self.new.room }
        ensures room { self.new.room ≡ self.old.room }
        ensures same { Unchanged (D.state disk.old).files (D.state disk.new).files }
        ensures time { Passes Unchanged (D.state disk.old) (D.state disk.new) }
        ensures cause { OnErr result (Rises (D.state disk.old).faults (D.state disk.new).faults) }
        ensures steady { IsSteady (D.state disk.old) → IsOk result × ((D.state disk.new).faults ≡ (D.state disk.old).faults) }
    {
        self.count = 0;
        self.from = from;
        self.count = read_block(disk, file, from, &mut self.buffer)?;
        Ok(())
    }

    // Whether the piece has so many bytes from a place on, or all that its file has there.
    fn reaches(&self, at: u32, least: usize) -> bool
        requires { least < 2 ^ 32 }
        ensures { IsTrue result → Reaches at least self.now }
    {
        if at < self.from {
            return false;
        }
        let skipped = (at - self.from) as usize;
        self.count < self.buffer.len() || skipped + least <= self.count
    }

    // Sees that the piece has so many bytes from a place on, or all that its file has there.
    pub fn cover<D: Disk>(
        &mut self,
        disk: &mut D,
        file: u16,
        at: u32,
        least: usize,
    ) -> Result<(), Failed>
        requires file { file ≤ 256 }
        requires room { (least ≤ self.old.room) × (least < 2 ^ 32) }
        ensures shows { OnOk result (TellsContents (D.state disk.old) → Shows ((D.state disk.old).files file) self.old
            → Shows ((D.state disk.old).files file) self.new) }
        ensures reach { OnOk result (Reaches at least self.new) }
        ensures room { self.new.room ≡ self.old.room }
        ensures same { Unchanged (D.state disk.old).files (D.state disk.new).files }
        ensures time { Passes Unchanged (D.state disk.old) (D.state disk.new) }
        ensures cause { OnErr result (Rises (D.state disk.old).faults (D.state disk.new).faults) }
        ensures steady { IsSteady (D.state disk.old) → IsOk result × ((D.state disk.new).faults ≡ (D.state disk.old).faults) }
    {
        if self.reaches(at, least) {
            return Ok(());
        }
        self.read(disk, file, at)
    }

    // The bytes of the piece from a place on.
    pub fn bytes_from(&self, at: u32) -> &[u8]
        requires { self.now.from ≤ at }
        ensures { result.now ≡ drop (at - self.now.from) self.now.bytes }
    {
        let bytes = &self.buffer[..self.count];
        let skipped = (at - self.from) as usize;
        if bytes.len() < skipped {
            return &[];
        }
        bytes.split_at(skipped).1
    }
}
