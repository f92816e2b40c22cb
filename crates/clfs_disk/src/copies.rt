// The three copies that a disk in memory keeps of a file: as it reads, as it was last synced, and as it was when the record
// of calls began. The memory for all three is taken when the file grows, so a crash takes none.
ghost use Rattle.std.specs.Prelude.{◌≡◌, ◌+◌, ◌≤◌, ◌↔◌, [], length, take, drop, IsTrue, OnOk, OnErr, vec_capacity};
ghost use Rattle.clfs_disk.specs.Files.{found_count, overwritten, lengthened, picked, picked_byte};

use crate::bytes::{has_range, lengthen, make_room, overwrite, read_from};
use std::alloc::{AllocError, Global};

/// A file's copies. The first has the memory for what is read.
#[derive(Drop)]
pub struct FileCopies {
    read: Vec<u8>,
    synced: Vec<u8>,
    first: Vec<u8>,
    ghost same_length: { length synced.items ≡ length read.items },
    ghost first_room: { length read.items ≤ vec_capacity first },
}

impl FileCopies {
    /// An empty file.
    pub fn new(alloc: Global) -> FileCopies
        ensures read { result.read.items ≡ [] }
        ensures synced { result.synced.items ≡ [] }
        ensures first { result.first.items ≡ [] }
    {
        FileCopies {
            read: Vec::new(alloc),
            synced: Vec::new(alloc),
            first: Vec::new(alloc),
        }
    }

    /// Copies the bytes that are there, as many as `out` has room for.
    pub fn read_at(&self, at: u64, out: &mut [u8]) -> usize
        ensures count { result ≡ found_count self.now.read.items at (length out.old) }
        ensures bytes { take result out.new ≡ take result (drop at self.now.read.items) }
    {
        read_from(&self.read, at, out)
    }

    /// Whether so many bytes from a place on lie within the file.
    pub fn has_bytes(&self, at: u64, count: usize) -> bool
        ensures { IsTrue result ↔ (at + count ≤ length self.now.read.items) }
    {
        has_range(&self.read, at, count)
    }

    /// Writes within the file.
    pub fn write_at(&mut self, at: u64, bytes: &[u8])
        requires { at + length bytes.now ≤ length self.old.read.items }
        ensures read { self.new.read.items ≡ overwritten self.old.read.items at bytes.now }
        ensures synced { self.new.synced ≡ self.old.synced }
        ensures first { self.new.first ≡ self.old.first }
    {
        overwrite(&mut self.read, at, bytes);
    }

    /// Makes the file at least so long. After an `Err` its bytes are as they were.
    pub fn grow_to(&mut self, len: u64) -> Result<(), AllocError>
        ensures read { OnOk result (self.new.read.items ≡ lengthened self.old.read.items len) }
        ensures synced { OnOk result (self.new.synced.items ≡ lengthened self.old.synced.items len) }
        ensures first { self.new.first.items ≡ self.old.first.items }
        ensures same_read { OnErr result (self.new.read.items ≡ self.old.read.items) }
        ensures same_synced { OnErr result (self.new.synced.items ≡ self.old.synced.items) }
    {
        make_room(&mut self.read, len)?;
        make_room(&mut self.synced, len)?;
        make_room(&mut self.first, len)?;
        lengthen(&mut self.read, len);
        lengthen(&mut self.synced, len);
        Ok(())
    }

    /// Counts as synced what is read.
    pub fn sync(&mut self)
        ensures read { self.new.read ≡ self.old.read }
        ensures synced { self.new.synced.items ≡ self.old.read.items }
        ensures first { self.new.first ≡ self.old.first }
    {
        self.synced.copy_from_slice(&self.read);
    }

    /// Leaves what a crash leaves by a pick, in all three copies.
    pub fn crash(&mut self, pick: u8)
        ensures read { self.new.read.items ≡ picked pick self.old.read.items self.old.synced.items }
        ensures synced { self.new.synced.items ≡ self.new.read.items }
        ensures first { self.new.first.items ≡ self.new.read.items }
    {
        pick_bytes(&mut self.read, &self.synced, pick);
        self.synced.copy_from_slice(&self.read);
        self.first.clear();
        self.first.extend_from_slice(&self.read).unwrap();
    }
}

// The byte that a crash leaves at a place.
fn pick_byte(pick: u8, at: usize, read: u8, synced: u8) -> u8
    ensures { result ≡ picked_byte pick at read synced }
{
    match pick {
        0 => synced,
        1 => read,
        _ if at % 2 == 0 => read,
        _ => synced,
    }
}

// The bytes that a crash leaves of those that are read.
fn pick_bytes(read: &mut Vec<u8>, synced: &Vec<u8>, pick: u8)
    requires { length synced.now.items ≡ length read.old.items }
    ensures { read.new.items ≡ picked pick read.old.items synced.now.items }
{
    for at in 0..read.len() {
        read[at] = pick_byte(pick, at, read[at], synced[at]);
    }
}
