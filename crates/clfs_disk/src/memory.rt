// Files in memory with a record of their calls. A crash may leave any bytes where something was written or grown since the
// last sync, and each file at its full length. The record is what makes the images of each moment so far a matter of data,
// and a crash takes one of those of now without taking memory.
ghost use Rattle.std.specs.Prelude.{◌≡◌, ◌+◌, ◌<◌, ◌≤◌, ◌↔◌, [], ℕ, true, min, length, IsTrue, IfOk, OnOk, OnErr, IsOk, IsErrOf, vec_len};
ghost use Rattle.clfs_disk.specs.Files.{Unchanged, LengthenedIn, picked};
ghost use Rattle.clfs_disk.specs.State.{IsFirst, IsSettled, Passes, raised};
ghost use Rattle.clfs_disk.specs.Calls.{Reads, Writes, Grows, Syncs};
ghost use Rattle.clfs_disk.specs.Copies.{Holds, read_files, synced_files, first_files};
ghost use Rattle.clfs_disk.specs.declared.copies.FileCopies.{FileCopies};

use crate::copies::FileCopies;
use crate::disk::FILES;
use crate::record::{Event, Record};
use crate::{Disk, Failed, GrowRefusal};
use std::alloc::{AllocError, Global};

/// A disk in memory that can crash. A call beyond the room of its record, in calls or in written bytes, is a fault, as is one
/// that is to fail; every other call is done, but that a write past its file's end fails and a growth may want memory.
#[derive(Drop)]
pub struct Memory {
    files: Vec<FileCopies>,
    history: Record,
    calls: u64,
    faults: u64,
    // Each call has its place in the record, until that is full.
    ghost counted: { length history.calls.items ≡ min calls history.call_room },
    ghost holds: { Holds files.items history.calls.items history.written.items },
}

impl Memory {
    ghost use Rattle.clfs_disk.specs.Memory.{shown, synced_of, bytes_of, plan_of, Admits, AdmitsWrite};
    ghost use Rattle.clfs_disk.specs.Files.{picked as picked_bytes};
    ghost use Rattle.clfs_disk.specs.State.{MayLeave};

    /// Empty files and a record with room for so many calls and so many written bytes. The calls with the numbers `fails`,
    /// counted from 1, are to fail.
    pub fn new(alloc: Global, calls: u32, bytes: u64, fails: &[u64]) -> Result<Memory, AllocError>
        ensures first { IfOk result (λ disk. IsFirst (shown disk)) }
        ensures settled { IfOk result (λ disk. IsSettled (shown disk)) }
        ensures synced { IfOk result (λ disk. (file : ℕ) → synced_of disk file ≡ []) }
        ensures bytes { IfOk result (λ disk. bytes_of disk ≡ 0) }
        ensures plan { IfOk result (λ disk. plan_of disk ≡ record { call_room = calls; byte_room = bytes; failing = fails.now }) }
    {
        Ok(Memory {
            files: empty_copies(alloc)?,
            history: Record::new(alloc, calls, bytes, fails)?,
            calls: 0,
            faults: 0,
        })
    }

    /// A disk that holds one of the images now: by pick 0 the files as synced, by 1 as they read, by 2 the bytes at even
    /// places as they read and the others as synced. It has an empty record with the same room and no call to fail.
    pub fn crash(self, pick: u8) -> Memory
        requires { pick ≤ 2 }
        ensures files { (file : ℕ) → (shown result).files file ≡ picked_bytes pick ((shown self).files file) (synced_of self file) }
        ensures image { MayLeave (shown self) (shown result).files }
        ensures settled { IsSettled (shown result) }
        ensures faults { (shown result).faults ≡ 0 }
        ensures synced { (file : ℕ) → synced_of result file ≡ (shown result).files file }
        ensures calls { (shown result).calls ≡ 0 }
        ensures bytes { bytes_of result ≡ 0 }
        ensures plan { plan_of result ≡ record (plan_of self) { failing = [] } }
    {
        let Memory {
            mut files,
            mut history,
            calls: _,
            faults: _,
        } = self;
        crash_files(&mut files, pick);
        history.clear();
        Memory {
            files,
            history,
            calls: 0,
            faults: 0,
        }
    }

    // Whether the next call has a place in the record and isn't to fail.
    fn admits(&self) -> bool
        ensures exact { IsTrue result ↔ Admits self.now }
        ensures room { result ≡ true → vec_len self.now.history.calls < self.now.history.call_room }
    {
        if !self.history.has_call() {
            return false;
        }
        !self.history.fails_next()
    }

    // Whether a write of so many bytes is to be done: it is admitted, its bytes have room, and it lies within the file.
    fn admits_write(&self, file: u16, at: u64, count: usize) -> bool
        requires { file ≤ 256 }
        ensures call { result ≡ true → vec_len self.now.history.calls < self.now.history.call_room }
        ensures bytes { result ≡ true → vec_len self.now.history.written + count ≤ self.now.history.byte_room }
        ensures range { result ≡ true → at + count ≤ length ((shown self.now).files file) }
        ensures exact { IsTrue result ↔ AdmitsWrite file at count self.now }
    {
        if !self.admits() || !self.history.has_bytes(count) {
            return false;
        }
        self.files[file as usize].has_bytes(at, count)
    }

    // Counts a call that fails, and notes it where there is room.
    fn refuse(&mut self) -> Failed
        ensures same { Unchanged (shown self.old).files (shown self.new).files }
        ensures time { Passes Unchanged (shown self.old) (shown self.new) }
        ensures calls { (shown self.new).calls ≡ raised 1 (shown self.old).calls }
        ensures faults { (shown self.new).faults ≡ raised 1 (shown self.old).faults }
        ensures synced { Unchanged (synced_of self.old) (synced_of self.new) }
        ensures bytes { bytes_of self.new ≡ bytes_of self.old }
        ensures plan { plan_of self.new ≡ plan_of self.old }
    {
        self.history.note_refusal();
        self.calls = self.calls.saturating_add(1);
        self.faults = self.faults.saturating_add(1);
        Failed
    }
}

// As many files as a disk has, all of them empty.
fn empty_copies(alloc: Global) -> Result<Vec<FileCopies>, AllocError>
    ensures count { IfOk result (λ files. length files.items ≡ 257) }
    ensures read { IfOk result (λ files. (file : ℕ) → read_files files.items file ≡ []) }
    ensures synced { IfOk result (λ files. (file : ℕ) → synced_files files.items file ≡ []) }
    ensures first { IfOk result (λ files. (file : ℕ) → first_files files.items file ≡ []) }
{
    let mut files = Vec::with_capacity(alloc, FILES)?;
    for _ in 0..FILES {
        files.push(FileCopies::new(alloc))?;
    }
    Ok(files)
}

// Counts as synced what each file reads.
fn sync_files(files: &mut Vec<FileCopies>)
    ensures count { length files.new.items ≡ length files.old.items }
    ensures read { (file : ℕ) → read_files files.new.items file ≡ read_files files.old.items file }
    ensures synced { (file : ℕ) → synced_files files.new.items file ≡ read_files files.old.items file }
    ensures first { (file : ℕ) → first_files files.new.items file ≡ first_files files.old.items file }
{
    for copies in files.iter_mut() {
        copies.sync();
    }
}

// Leaves in each file what a crash leaves by a pick.
fn crash_files(files: &mut Vec<FileCopies>, pick: u8)
    ensures count { length files.new.items ≡ length files.old.items }
    ensures read { (file : ℕ) → read_files files.new.items file
        ≡ picked pick (read_files files.old.items file) (synced_files files.old.items file) }
    ensures synced { (file : ℕ) → synced_files files.new.items file ≡ read_files files.new.items file }
    ensures first { (file : ℕ) → first_files files.new.items file ≡ read_files files.new.items file }
{
    for copies in files.iter_mut() {
        copies.crash(pick);
    }
}

impl Disk for Memory {
    ghost use Rattle.clfs_disk.specs.Images.{reads_as_image_of};
    ghost use Rattle.clfs_disk.specs.Memory.{shown, synced_of, bytes_of, plan_of, Admits, AdmitsWrite};

    ghost state = { shown };

    ghost reads_as_image = { λ disk honest. reads_as_image_of disk.files.items disk.history.calls.items
        disk.history.written.items disk.holds.read };

    /// Reads, exactly where the call is admitted.
    fn read(&mut self, file: u16, at: u64, out: &mut [u8]) -> Result<usize, Failed>
        requires { file ≤ 256 }
        ensures call { Reads file at out.old out.new result (shown self.old) (shown self.new) }
        ensures exact { IsOk result ↔ Admits self.old }
        ensures fine { OnOk result ((shown self.new).faults ≡ (shown self.old).faults) }
        ensures synced { Unchanged (synced_of self.old) (synced_of self.new) }
        ensures bytes { bytes_of self.new ≡ bytes_of self.old }
        ensures plan { plan_of self.new ≡ plan_of self.old }
    {
        let may_read = self.admits();
        if !may_read {
            return Err(self.refuse());
        }
        let count = self.files[file as usize].read_at(at, out);
        self.history.note(Event::Read);
        self.calls = self.calls.saturating_add(1);
        Ok(count)
    }

    /// Writes, exactly where the call is admitted, its bytes have room in the record, and the file has the range. A write that
    /// fails changes no byte.
    fn write(&mut self, file: u16, at: u64, bytes: &[u8]) -> Result<(), Failed>
        requires { file ≤ 256 }
        ensures call { Writes file at bytes.now result (shown self.old) (shown self.new) }
        ensures exact { IsOk result ↔ AdmitsWrite file at (length bytes.now) self.old }
        ensures fine { OnOk result ((shown self.new).faults ≡ (shown self.old).faults) }
        ensures refused { OnErr result (Unchanged (shown self.old).files (shown self.new).files) }
        ensures synced { Unchanged (synced_of self.old) (synced_of self.new) }
        ensures bytes { OnOk result (bytes_of self.new ≡ bytes_of self.old + length bytes.now) }
        ensures no_bytes { OnErr result (bytes_of self.new ≡ bytes_of self.old) }
        ensures plan { plan_of self.new ≡ plan_of self.old }
    {
        if !self.admits_write(file, at, bytes.len()) {
            return Err(self.refuse());
        }
        self.files[file as usize].write_at(at, bytes);
        self.history.note_write(file, at, bytes);
        self.calls = self.calls.saturating_add(1);
        Ok(())
    }

    /// Fails exactly where the call isn't admitted, and then changes no file. A growth that wants memory is no call.
    fn grow(&mut self, file: u16, len: u64) -> Result<(), GrowRefusal>
        requires { file ≤ 256 }
        ensures call { Grows file len result (shown self.old) (shown self.new) }
        ensures exact { IsErrOf result GrowRefusal.Failed ↔ (Admits self.old → ⊥) }
        ensures fine { OnOk result ((shown self.new).faults ≡ (shown self.old).faults) }
        ensures refused { OnErr result (Unchanged (shown self.old).files (shown self.new).files) }
        ensures synced { OnOk result (LengthenedIn file len (synced_of self.old) (synced_of self.new)) }
        ensures not_synced { OnErr result (Unchanged (synced_of self.old) (synced_of self.new)) }
        ensures no_call { IsErrOf result GrowRefusal.NoMemory → (shown self.new).calls ≡ (shown self.old).calls }
        ensures bytes { bytes_of self.new ≡ bytes_of self.old }
        ensures plan { plan_of self.new ≡ plan_of self.old }
    {
        let may_grow = self.admits();
        if !may_grow {
            let _ = self.refuse();
            return Err(GrowRefusal::Failed);
        }
        match self.files[file as usize].grow_to(len) {
            Ok(()) => {
                self.history.note(Event::Grew { file, len });
                self.calls = self.calls.saturating_add(1);
                Ok(())
            }
            Err(_) => Err(GrowRefusal::NoMemory),
        }
    }

    /// Syncs, exactly where the call is admitted.
    fn sync(&mut self) -> Result<(), Failed>
        ensures call { Syncs result (shown self.old) (shown self.new) }
        ensures exact { IsOk result ↔ Admits self.old }
        ensures fine { OnOk result ((shown self.new).faults ≡ (shown self.old).faults) }
        ensures synced { OnOk result (Unchanged (shown self.old).files (synced_of self.new)) }
        ensures not_synced { OnErr result (Unchanged (synced_of self.old) (synced_of self.new)) }
        ensures bytes { bytes_of self.new ≡ bytes_of self.old }
        ensures plan { plan_of self.new ≡ plan_of self.old }
    {
        if !self.admits() {
            return Err(self.refuse());
        }
        sync_files(&mut self.files);
        self.history.note(Event::Synced);
        self.calls = self.calls.saturating_add(1);
        Ok(())
    }
}
