// The record of a disk in memory: each call that it did, with the bytes of the writes, in room that was taken at first. So
// a call that is recorded never wants memory.
ghost use Rattle.std.specs.Prelude.{◌≡◌, ◌+◌, ◌<◌, ◌≤◌, ◌++◌, ◌↔◌, [], ◌∷◌, true, length, IsTrue, IfOk, Contains, nat_lt, if◌then◌else◌, vec_len, vec_capacity};
ghost use Rattle.clfs_disk.specs.declared.record.Event.TheVariants.{Refused, Wrote};

use std::alloc::{AllocError, Global};

/// What a call did.
#[derive(Clone, Copy)]
pub enum Event {
    /// It read.
    Read,
    /// It failed and changed nothing.
    Refused,
    /// It wrote the next `len` of the bytes written.
    Wrote { file: u16, at: u64, len: usize },
    /// It made a file so long.
    Grew { file: u16, len: u64 },
    /// It synced all files.
    Synced,
}

/// The calls so far, and which of the later ones are to fail.
#[derive(Drop)]
pub struct Record {
    calls: Vec<Event>,
    written: Vec<u8>,
    failing: Vec<u64>,
    call_room: usize,
    byte_room: usize,
    ghost calls_fit: { vec_len calls ≤ call_room },
    ghost call_space: { call_room ≤ vec_capacity calls },
    ghost bytes_fit: { vec_len written ≤ byte_room },
    ghost byte_space: { byte_room ≤ vec_capacity written },
}

impl Record {
    /// No calls, and room for so many calls and bytes.
    pub fn new(alloc: Global, calls: u32, bytes: u64, failing: &[u64]) -> Result<Record, AllocError>
        ensures calls { IfOk result (λ made. made.calls.items ≡ []) }
        ensures written { IfOk result (λ made. made.written.items ≡ []) }
        ensures failing { IfOk result (λ made. made.failing.items ≡ failing.now) }
        ensures call_room { IfOk result (λ made. made.call_room ≡ calls) }
        ensures byte_room { IfOk result (λ made. made.byte_room ≡ bytes) }
    {
        Ok(Record {
            calls: Vec::with_capacity(alloc, calls as usize)?,
            written: Vec::with_capacity(alloc, bytes as usize)?,
            failing: Vec::from_slice(alloc, failing)?,
            call_room: calls as usize,
            byte_room: bytes as usize,
        })
    }

    /// Whether the next call has a place in the record.
    pub fn has_call(&self) -> bool
        ensures exact { result ≡ nat_lt (vec_len self.now.calls) self.now.call_room }
        ensures room { result ≡ true → vec_len self.now.calls < self.now.call_room }
    {
        self.calls.len() < self.call_room
    }

    /// Whether so many more bytes have a place in the record.
    pub fn has_bytes(&self, count: usize) -> bool
        ensures { IsTrue result ↔ (vec_len self.now.written + count ≤ self.now.byte_room) }
    {
        count <= self.byte_room - self.written.len()
    }

    /// Whether the next call is one of those that are to fail. They are numbered from 1.
    pub fn fails_next(&self) -> bool
        requires { vec_len self.now.calls < self.now.call_room }
        ensures { IsTrue result ↔ Contains self.now.failing.items (vec_len self.now.calls + 1) }
    {
        let number = self.calls.len() as u64 + 1;
        self.failing.contains(&number)
    }

    /// Notes a call that wrote nothing.
    pub fn note(&mut self, event: Event)
        requires { vec_len self.old.calls < self.old.call_room }
        ensures calls { self.new.calls.items ≡ self.old.calls.items ++ event ∷ [] }
        ensures written { self.new.written ≡ self.old.written }
        ensures failing { self.new.failing ≡ self.old.failing }
        ensures call_room { self.new.call_room ≡ self.old.call_room }
        ensures byte_room { self.new.byte_room ≡ self.old.byte_room }
    {
        self.calls.push(event).unwrap();
    }

    /// Notes a call that failed, where there is room.
    pub fn note_refusal(&mut self)
        ensures calls { self.new.calls.items ≡ (if nat_lt (vec_len self.old.calls) self.old.call_room
            then self.old.calls.items ++ Refused ∷ [] else self.old.calls.items) }
        ensures written { self.new.written ≡ self.old.written }
        ensures failing { self.new.failing ≡ self.old.failing }
        ensures call_room { self.new.call_room ≡ self.old.call_room }
        ensures byte_room { self.new.byte_room ≡ self.old.byte_room }
    {
        if self.has_call() {
            self.note(Event::Refused);
        }
    }

    /// Notes a write with its bytes.
    pub fn note_write(&mut self, file: u16, at: u64, bytes: &[u8])
        requires call { vec_len self.old.calls < self.old.call_room }
        requires bytes { vec_len self.old.written + length bytes.now ≤ self.old.byte_room }
        ensures calls { self.new.calls.items ≡ self.old.calls.items ++ Wrote file at (length bytes.now) ∷ [] }
        ensures written { self.new.written.items ≡ self.old.written.items ++ bytes.now }
        ensures failing { self.new.failing ≡ self.old.failing }
        ensures call_room { self.new.call_room ≡ self.old.call_room }
        ensures byte_room { self.new.byte_room ≡ self.old.byte_room }
    {
        self.written.extend_from_slice(bytes).unwrap();
        let len = bytes.len();
        self.calls.push(Event::Wrote { file, at, len }).unwrap();
    }

    /// No calls, none to fail, and the same room.
    pub fn clear(&mut self)
        ensures calls { self.new.calls.items ≡ [] }
        ensures written { self.new.written.items ≡ [] }
        ensures failing { self.new.failing.items ≡ [] }
        ensures call_room { self.new.call_room ≡ self.old.call_room }
        ensures byte_room { self.new.byte_room ≡ self.old.byte_room }
    {
        self.calls.clear();
        self.written.clear();
        self.failing.clear();
    }
}
