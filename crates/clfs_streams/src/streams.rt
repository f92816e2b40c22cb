// The rows, by name and by number.
ghost use Rattle.std.specs.Prelude.{◌≡◌, ◌≢◌, ◌+◌, ◌^◌, ◌<◌, ◌≤◌, [], ◌∷◌, ◌++◌, None, length, AllPairs, option_copied, OnOk};
ghost use Rattle.std.specs.Option.{option_map};
ghost use Rattle.clfs_lsn.specs.Lsn.{null_lsn};
ghost use Rattle.clfs_lsn.specs.declared.stream.Stream.{Stream};
ghost use Rattle.clfs_lsn.specs.Streams.{stream_in, set_base, stream_number_from};

use clfs_lsn::{Lsn, Name};
use indexmap::IndexMap;
use std::alloc::{AllocError, Global};
use std::marker::Model;

/// The streams. A contract sees them as the machine does, in the order of their first opening, and the rows that there is room for.
#[derive(Drop)]
pub struct Streams {
    rows: IndexMap<Vec<u8>, Lsn>,
}

impl Model for Streams {
    ghost use Rattle.clfs_streams.specs.Table.{Table};

    ghost Value = { Table };

    ghost use Rattle.indexmap.specs.IndexMap.{spare};
    ghost use Rattle.clfs_streams.specs.Rows.{streams_of};

    ghost view = { λ s. record { streams = streams_of s.rows.entries; room = spare s.rows } };
}

impl Streams {
    /// No streams.
    pub fn new(alloc: Global) -> Streams
        ensures { result.streams ≡ [] }
    {
        Streams {
            rows: IndexMap::new(alloc),
        }
    }

    /// How many streams there are. The newest one has this number.
    pub fn len(&self) -> usize
        ensures value { result ≡ length self.now.streams }
        ensures different { AllPairs (λ (a b : Stream). a.name ≢ b.name) self.now.streams }
    {
        self.rows.len()
    }

    /// The number of the stream of a name.
    pub fn number(&self, name: &[u8]) -> Option<u16>
        requires few { length self.now.streams < 2 ^ 16 }
        ensures { result ≡ stream_number_from 1 name.now self.now.streams }
    {
        let place = self.rows.get_index_of(name)?;
        Some(place as u16 + 1)
    }

    /// The name of the stream of a number. The log finds streams by their names and asks for none; tests do.
    pub fn name(&self, number: u16) -> Option<&[u8]>
        ensures { option_copied result ≡ option_map (λ (stream : Stream). stream.name) (stream_in self.now.streams number) }
    {
        let (name, _base) = self.rows.get_index((number as usize).checked_sub(1)?)?;
        Some(name.as_slice())
    }

    /// The base of the stream of a number.
    pub fn base(&self, number: u16) -> Option<Lsn>
        ensures { result ≡ option_map (λ (stream : Stream). stream.base) (stream_in self.now.streams number) }
    {
        let (_name, base) = self.rows.get_index((number as usize).checked_sub(1)?)?;
        Some(*base)
    }

    /// Makes room for one more stream.
    pub fn reserve(&mut self) -> Result<(), AllocError>
        ensures streams { self.new.streams ≡ self.old.streams }
        ensures room { OnOk result (1 ≤ self.new.room) }
        ensures kept { self.old.room ≤ self.new.room }
    {
        self.rows.reserve(1)
    }

    /// A stream of a new name, with no base, after the others. It takes no memory.
    pub fn add(&mut self, name: Name)
        requires new { stream_number_from 1 name self.old.streams ≡ None }
        requires room { 1 ≤ self.old.room }
        ensures { self.new.streams ≡ self.old.streams ++ record { name = name; base = null_lsn } ∷ [] }
    {
        let _old = self.rows.insert(name.into_vec(), Lsn::null()).unwrap();
    }

    /// The base of a stream moves. It takes no memory.
    pub fn set_base(&mut self, number: u16, lsn: Lsn)
        requires some { 1 ≤ number }
        requires there { number ≤ length self.old.streams }
        ensures streams { self.new.streams ≡ set_base number lsn self.old.streams }
        ensures room { self.new.room ≡ self.old.room }
    {
        self.rows[number as usize - 1] = lsn;
    }
}
