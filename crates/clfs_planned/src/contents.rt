// What a file reads, as its first bytes and a length. What lies between the two is zeros and takes no memory: a container is filled from its front, and is
// long before it is full.
ghost use Rattle.std.specs.Prelude.{◌≡◌, ◌+◌, ◌≤◌, ◌<◌, ◌-◌, ◌++◌, ◌↔◌, ℕ, [], length, take, drop, replicate, IsTrue, OnOk, IfOk};
ghost use Rattle.clfs_disk.specs.Files.{found_count, overwritten, lengthened};

use std::alloc::{AllocError, Global};

/// The bytes of a file.
#[derive(Drop)]
pub struct Contents {
    front: Vec<u8>,
    len: u64,
    ghost fits: { length front.items ≤ len },
}

impl Contents {
    ghost use Rattle.clfs_planned.specs.Contents.{bytes_of};

    /// An empty file.
    pub fn new(alloc: Global) -> Contents
        ensures { bytes_of result ≡ [] }
    {
        Contents {
            front: Vec::new(alloc),
            len: 0,
        }
    }

    /// A file that begins with these bytes and has zeros behind them up to a length.
    pub fn of(front: Vec<u8>, len: u64) -> Contents
        requires { length front.items ≤ len }
        ensures { bytes_of result ≡ lengthened front.items len }
    {
        Contents { front, len }
    }

    // Copies the bytes that are there, as many as `out` has room for.
    pub(crate) fn read_at(&self, at: u64, out: &mut [u8]) -> usize
        ensures count { result ≡ found_count (bytes_of self.now) at (length out.old) }
        ensures bytes { take result out.new ≡ take result (drop at (bytes_of self.now)) }
    {
        if at >= self.len {
            return 0;
        }
        let count = (self.len - at).min(out.len() as u64) as usize;
        let found = read_front(&self.front, at, &mut out[..count]);
        fill_with_zeros(&mut out[found..count]);
        count
    }

    // Whether so many bytes from a place on lie within the file.
    pub(crate) fn has_range(&self, at: u64, count: usize) -> bool
        ensures { IsTrue result ↔ (at + count ≤ length (bytes_of self.now)) }
    {
        at <= self.len && count as u64 <= self.len - at
    }

    // Takes the memory for so many bytes at a place. The file holds what it held, whatever the answer.
    pub(crate) fn make_room(&mut self, at: u64, count: usize) -> Result<(), AllocError>
        requires { at + count ≤ length (bytes_of self.old) }
        ensures same { bytes_of self.new ≡ bytes_of self.old }
        ensures room { OnOk result (at + count ≤ length self.new.front.items) }
    {
        let end = at as usize + count;
        if end > self.front.len() {
            self.front.resize(end, 0)?;
        }
        Ok(())
    }

    // Puts bytes in their place, for which there is memory.
    pub(crate) fn overwrite(&mut self, at: u64, bytes: &[u8])
        requires { at + length bytes.now ≤ length self.old.front.items }
        ensures { bytes_of self.new ≡ overwritten (bytes_of self.old) at bytes.now }
    {
        let at = at as usize;
        self.front[at..at + bytes.len()].copy_from_slice(bytes);
    }

    // Makes the file at least so long. That takes no memory.
    pub(crate) fn grow_to(&mut self, len: u64)
        ensures { bytes_of self.new ≡ lengthened (bytes_of self.old) len }
    {
        if len > self.len {
            self.len = len;
        }
    }
}

// Copies the first bytes of a file that are there from a place on, as many as `out` has room for.
fn read_front(front: &[u8], at: u64, out: &mut [u8]) -> usize
    ensures count { result ≡ found_count front.now at (length out.old) }
    ensures bytes { take result out.new ≡ take result (drop at front.now) }
    ensures len { length out.new ≡ length out.old }
{
    if at >= front.len() as u64 {
        return 0;
    }
    let rest = &front[at as usize..];
    let count = rest.len().min(out.len());
    out[..count].copy_from_slice(&rest[..count]);
    count
}

fn fill_with_zeros(out: &mut [u8])
    ensures { out.new ≡ replicate (length out.old) 0 }
{
    out.fill(0);
}
