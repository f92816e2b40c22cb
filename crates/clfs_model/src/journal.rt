// The calls of several clients in the order in which the log took them.
ghost use Rattle.std.specs.Prelude.{◌≡◌, ◌↔◌, [], length, IsTrue};

use crate::call::Call;
use crate::reply::{Happened, Reply};
use std::marker::Model;

/// One call of one client, and what came of it.
#[derive(Clone, Drop)]
pub struct Entry {
    /// The client, 1 to 64.
    pub client: u16,
    /// The number of the entry among the client's, from 1.
    pub number: u64,
    /// The call.
    pub call: Call,
    /// What it met outside.
    pub happened: Happened,
    /// Its reply.
    pub reply: Reply,
}

/// Entries in the order in which the log took their calls.
#[derive(Clone, Drop)]
pub struct Journal {
    entries: Vec<Entry>,
}

impl Model for Journal {
    ghost use Rattle.std.specs.Prelude.{List};
    ghost use Rattle.clfs_model.specs.declared.journal.Entry.{Entry};

    ghost Value = { List Entry };

    ghost view = { λ a. a.entries.items };
}

impl Journal {
    /// These entries, which stay where they are: a log that takes memory for an entry before it makes the call keeps a vector.
    pub fn from_vec(entries: Vec<Entry>) -> Journal
        ensures { result ≡ entries.items }
    {
        Journal { entries }
    }

    /// The entries given back, where they are.
    pub fn into_vec(self) -> Vec<Entry>
        ensures { result.items ≡ self }
    {
        let Journal { entries } = self;
        entries
    }

    /// The entries in order.
    pub fn as_slice(&self) -> &[Entry]
        ensures { result.now ≡ self.now }
    {
        self.entries.as_slice()
    }

    /// The number of entries.
    pub fn len(&self) -> usize
        ensures { result ≡ length self.now }
    {
        self.entries.len()
    }

    /// Whether there are none.
    pub fn is_empty(&self) -> bool
        ensures { IsTrue result ↔ (self.now ≡ []) }
    {
        self.entries.is_empty()
    }
}
