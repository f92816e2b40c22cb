// Copies of calls, and copies of replies that can't fail: the memory for a copy of any reply is there before the call is made. A copy takes what it
// needs and no more, as long as there is memory; if there is none, the memory that was kept becomes the copy. So a journal keeps no more of a reply
// than there is of it.
ghost use Rattle.std.specs.Prelude.{◌≡◌, ◌≤◌, [], length, IfOk, OnOk};
ghost use Rattle.clfs_lsn.specs.Limits.{most_containers};
ghost use Rattle.clfs_lsn.specs.Size.{most_data};
ghost use Rattle.clfs_shared.specs.Rooms.{FitsSpare};

use clfs_lsn::{Bytes, LogEntry, push_reserved};
use clfs_model::{Call, Extent, Extents, Reply};
use std::alloc::{AllocError, Global};
use std::marker::Model;
use std::mem;

// The bytes of data of a longest record of any log.
const MOST_BYTES: usize = 64464;

// The most extents: one for each container that there can be.
const MOST_EXTENTS: usize = 256;

/// A copy of a call.
pub(crate) fn copied_call(call: &Call) -> Result<Call, AllocError>
    ensures { IfOk result (λ copy. copy ≡ call.now) }
{
    call.clone()
}

/// Memory for a copy of any reply. Contracts see for how many bytes and extents.
#[derive(Drop)]
pub(crate) struct Spare {
    alloc: Global,
    bytes: Vec<u8>,
    extents: Vec<Extent>,
}

impl Model for Spare {
    ghost use Rattle.std.specs.Prelude.{ℕ, vec_capacity};

    ghost Value = { ℕ × ℕ };

    ghost use Rattle.std.specs.Prelude.{◌≡◌, []};

    ghost view = { λ s. (vec_capacity s.bytes, vec_capacity s.extents) };

    ghost invariant = { λ s. (s.bytes.items ≡ []) × (s.extents.items ≡ []) };
}

impl Spare {
    /// No memory yet. It takes what it needs of `alloc`.
    pub fn new(alloc: Global) -> Spare {
        Spare {
            alloc,
            bytes: Vec::new(alloc),
            extents: Vec::new(alloc),
        }
    }

    /// Takes what memory is missing.
    pub fn fill(&mut self) -> Result<(), AllocError>
        ensures bytes { OnOk result (most_data ≤ self.new.0) }
        ensures extents { OnOk result (most_containers ≤ self.new.1) }
    {
        self.bytes.reserve(MOST_BYTES)?;
        self.extents.reserve(MOST_EXTENTS)
    }

    // A copy of a record's data.
    fn bytes_of(&mut self, from: &Bytes) -> Bytes
        requires { length from.now ≤ self.old.0 }
        ensures { result ≡ from.now }
    {
        match Vec::from_slice(self.alloc, from.as_slice()) {
            Ok(bytes) => Bytes::from_vec(bytes),
            Err(_) => {
                let mut bytes = mem::replace(&mut self.bytes, Vec::new(self.alloc));
                push_reserved(&mut bytes, from.as_slice());
                Bytes::from_vec(bytes)
            }
        }
    }

    // A copy of a record.
    fn entry_of(&mut self, from: &LogEntry) -> LogEntry
        requires { length from.now.bytes ≤ self.old.0 }
        ensures { result ≡ from.now }
    {
        LogEntry {
            lsn: from.lsn,
            stream: from.stream,
            kind: from.kind,
            previous: from.previous,
            undo_next: from.undo_next,
            new_base: from.new_base,
            bytes: self.bytes_of(&from.bytes),
        }
    }

    // A copy of extents.
    fn extents_of(&mut self, from: &Extents) -> Extents
        requires { length from.now ≤ self.old.1 }
        ensures { result ≡ from.now }
    {
        match Vec::from_slice(self.alloc, from.as_slice()) {
            Ok(extents) => Extents::from_vec(extents),
            Err(_) => {
                let mut extents = mem::replace(&mut self.extents, Vec::new(self.alloc));
                extents.extend_from_slice(from.as_slice()).unwrap();
                Extents::from_vec(extents)
            }
        }
    }

    /// A copy of a reply, for which there is memory.
    pub fn reply_of(&mut self, reply: &Reply) -> Reply
        requires small { FitsSpare reply.now }
        requires bytes { most_data ≤ self.old.0 }
        requires extents { most_containers ≤ self.old.1 }
        ensures { result ≡ reply.now }
    {
        match reply {
            Reply::Stream(number) => Reply::Stream(*number),
            Reply::Area(number) => Reply::Area(*number),
            Reply::Done => Reply::Done,
            Reply::Held(sectors) => Reply::Held(*sectors),
            Reply::Sectors(sectors) => Reply::Sectors(*sectors),
            Reply::Placed(lsn) => Reply::Placed(*lsn),
            Reply::Flushed(lsn) => Reply::Flushed(*lsn),
            Reply::Found { cursor, entry } => Reply::Found {
                cursor: *cursor,
                entry: self.entry_of(entry),
            },
            Reply::Next(entry) => Reply::Next(self.entry_of(entry)),
            Reply::Base(lsn) => Reply::Base(*lsn),
            Reply::Tail(lsn) => Reply::Tail(*lsn),
            Reply::Extents(extents) => Reply::Extents(self.extents_of(extents)),
            Reply::Containers(count) => Reply::Containers(*count),
            Reply::Info(info) => Reply::Info(*info),
            Reply::Refused(refusal) => Reply::Refused(*refusal),
        }
    }
}
