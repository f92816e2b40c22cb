// The entries of a journal that grows, with each client's count, so that the number of the next one costs no search.
ghost use Rattle.std.specs.Prelude.{◌≡◌, ◌+◌, ◌<◌, ◌∷◌, ◌++◌, [], length, replicate, IfOk, OnOk};
ghost use Rattle.clfs_model.specs.Journals.{mine};

use clfs_model::{Entry, Journal};
use std::alloc::{AllocError, Global};
use std::marker::Model;

// One more than the greatest number of a client.
const CLIENTS: usize = 65;

/// Entries. Contracts see them, and for how many more there is room.
#[derive(Drop)]
pub(crate) struct Entries {
    entries: Vec<Entry>,
    counts: [u64; CLIENTS],
}

impl Model for Entries {
    ghost use Rattle.std.specs.Prelude.{ℕ, ◌-◌, List, vec_len, vec_capacity};
    ghost use Rattle.clfs_model.specs.declared.journal.Entry.{Entry};

    ghost Value = { List Entry × ℕ };

    ghost use Rattle.clfs_shared.specs.Counts.{AreCounts};

    ghost view = { λ p. (p.entries.items, vec_capacity p.entries - vec_len p.entries) };

    ghost invariant = { λ p. AreCounts p.counts p.entries.items };
}

// No client has an entry.
fn no_counts() -> [u64; CLIENTS]
    ensures { result ≡ replicate 65 0 }
{
    [0; CLIENTS]
}

impl Entries {
    /// No entries, and room for so many.
    pub fn new(alloc: Global, room: usize) -> Result<Entries, AllocError>
        ensures { IfOk result (λ entries. entries.0 ≡ []) }
    {
        let entries = Vec::with_capacity(alloc, room)?;
        Ok(Entries {
            entries,
            counts: no_counts(),
        })
    }

    /// How many entries there are.
    pub fn count(&self) -> u64
        ensures { result ≡ length self.now.0 }
    {
        self.entries.len() as u64
    }

    /// Takes memory for one more.
    pub fn make_room(&mut self) -> Result<(), AllocError>
        ensures same { self.new.0 ≡ self.old.0 }
        ensures room { OnOk result (0 < self.new.1) }
    {
        self.entries.reserve(1)
    }

    /// The number of the client's next entry, from 1.
    pub fn next_number(&self, client: u16) -> u64
        requires client { client < 65 }
        requires room { 0 < self.now.1 }
        ensures { result ≡ length (mine self.now.0 client) + 1 }
    {
        let _most = self.entries.capacity();
        self.counts[client as usize] + 1
    }

    /// Adds an entry for which there is room.
    pub fn push(&mut self, entry: Entry)
        requires client { entry.client < 65 }
        requires room { 0 < self.old.1 }
        ensures { self.new.0 ≡ self.old.0 ++ entry ∷ [] }
    {
        let _most = self.entries.capacity();
        let client = entry.client as usize;
        self.counts[client] += 1;
        self.entries.push_reserved(entry);
    }

    /// The entries.
    pub fn into_journal(self) -> Journal
        ensures { result ≡ self.0 }
    {
        let Entries { entries, counts: _ } = self;
        Journal::from_vec(entries)
    }
}
