// What opening a log gives: the newest base copy, the records or their heads, the bases of the streams, and the place.
ghost use Rattle.std.specs.Prelude.{◌≡◌, ◌∷◌, ◌++◌, [], map};
ghost use Rattle.clfs_record.specs.Decoding.{entry_with};

use crate::gatherer::Gatherer;
use clfs_base::BaseImage;
use clfs_lsn::{Bytes, Head, LogEntry, Lsn, Place};
use clfs_told::Told;
use std::alloc::{AllocError, Global};
use std::collections::LinkedList;
use std::marker::Model;

/// Records in the order of their LSNs.
#[derive(Debug, Drop)]
pub struct Entries {
    entries: Vec<LogEntry>,
}

impl Model for Entries {
    ghost use Rattle.std.specs.Prelude.{List};
    ghost use Rattle.clfs_lsn.specs.declared.entry.LogEntry.{LogEntry};

    ghost Value = { List LogEntry };

    ghost view = { λ a. a.entries.items };
}

impl Entries {
    /// No records. They go on to the memory of `alloc`.
    pub fn new(alloc: Global) -> Entries
        ensures { result ≡ [] }
    {
        Entries {
            entries: Vec::new(alloc),
        }
    }

    /// The records in order.
    pub fn as_slice(&self) -> &[LogEntry]
        ensures { result.now ≡ self.now }
    {
        self.entries.as_slice()
    }
}

impl Gatherer for Entries {
    ghost has = { λ a entries. a ≡ entries };

    fn gather(&mut self, alloc: Global, head: &Head, bytes: &[u8]) -> Result<(), AllocError> {
        let entry = LogEntry {
            lsn: head.lsn,
            stream: head.stream,
            kind: head.kind,
            previous: head.previous,
            undo_next: head.undo_next,
            new_base: head.new_base,
            bytes: Bytes::from_vec(Vec::from_slice(alloc, bytes)?),
        };
        self.entries.push(entry)?;
        Ok(())
    }
}

/// Heads of records in the order of their LSNs.
#[derive(Debug, Drop)]
pub struct Heads {
    heads: Vec<Head>,
}

impl Model for Heads {
    ghost use Rattle.std.specs.Prelude.{List};
    ghost use Rattle.clfs_lsn.specs.declared.entry.Head.{Head};

    ghost Value = { List Head };

    ghost view = { λ a. a.heads.items };
}

impl Heads {
    /// No heads. They go on to the memory of `alloc`.
    pub fn new(alloc: Global) -> Heads
        ensures { result ≡ [] }
    {
        Heads {
            heads: Vec::new(alloc),
        }
    }

    /// The heads in order.
    pub fn as_slice(&self) -> &[Head]
        ensures { result.now ≡ self.now }
    {
        self.heads.as_slice()
    }
}

/// Takes in the heads of records. The records themselves are told, for clauses alone.
#[derive(Drop)]
pub(crate) struct HeadGatherer {
    pub heads: Heads,
    pub entries: Told<LinkedList<LogEntry>>,
}

impl HeadGatherer {
    // No records yet.
    pub fn new(alloc: Global) -> HeadGatherer
        ensures heads { result.heads ≡ [] }
        ensures entries { result.entries.value ≡ [] }
    {
        HeadGatherer {
            heads: Heads::new(alloc),
            entries: no_entries(),
        }
    }
}

impl Gatherer for HeadGatherer {
    ghost use Rattle.clfs_lsn.specs.Head.{head_of};

    ghost has = { λ a entries. (a.entries.value ≡ entries) × (a.heads ≡ map head_of entries) };

    fn gather(&mut self, _alloc: Global, head: &Head, bytes: &[u8]) -> Result<(), AllocError> {
        self.heads.heads.push(*head)?;
        self.entries = with_entry(&self.entries, head, bytes);
        Ok(())
    }
}

// No records.
fn no_entries() -> Told<LinkedList<LogEntry>>
    ensures { result.value ≡ [] }
{
    Told::pick(&())
}

// The records with one more after them, by its head and its data.
fn with_entry(
    entries: &Told<LinkedList<LogEntry>>,
    head: &Head,
    bytes: &[u8],
) -> Told<LinkedList<LogEntry>>
    ensures { result.value ≡ entries.now.value ++ entry_with head.now bytes.now ∷ [] }
{
    entries.next(&(head, bytes))
}

/// The bases of the streams in the order of their numbers.
#[derive(Debug, Drop)]
pub struct Bases {
    bases: Vec<Lsn>,
}

impl Model for Bases {
    ghost use Rattle.std.specs.Prelude.{ℕ, List};

    ghost Value = { List ℕ };

    ghost view = { λ a. a.bases.items };
}

impl Bases {
    /// These bases, which stay where they are.
    pub fn from_vec(bases: Vec<Lsn>) -> Bases
        ensures { result ≡ bases.items }
    {
        Bases { bases }
    }

    /// The bases in order.
    pub fn as_slice(&self) -> &[Lsn]
        ensures { result.now ≡ self.now }
    {
        self.bases.as_slice()
    }
}

/// What files hold of a log, with its records.
#[derive(Debug, Drop)]
pub struct Parts {
    /// The slot of the newest base copy, 0 or 1.
    pub slot: u32,
    /// The newest base copy.
    pub image: BaseImage,
    /// The records of the listed containers.
    pub entries: Entries,
    /// The bases of the streams, one for each row of the base copy.
    pub bases: Bases,
    /// Where the log goes on. No block is open there.
    pub place: Place,
}

/// What files hold of a log, with the heads of its records.
#[derive(Drop)]
pub struct HeadParts {
    /// The slot of the newest base copy, 0 or 1.
    pub slot: u32,
    /// The newest base copy.
    pub image: BaseImage,
    /// The heads of the records of the listed containers.
    pub heads: Heads,
    /// These records, for clauses alone: nothing of their data is kept.
    pub entries: Told<LinkedList<LogEntry>>,
    /// The bases of the streams, one for each row of the base copy.
    pub bases: Bases,
    /// Where the log goes on. No block is open there.
    pub place: Place,
}
