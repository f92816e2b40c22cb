// The row of one stream.
ghost use Rattle.std.specs.Prelude.{◌≡◌, ℕ, ◌+◌, ◌*◌, ◌<◌, ◌≤◌, All, [], ◌∷◌, ◌++◌, None, Some, length, drop, slice_get, OnOk, IfSome};
ghost use Rattle.std.specs.List.{last_or};
ghost use Rattle.std.specs.Option.{option_map};
ghost use Rattle.clfs_lsn.specs.declared.entry.Head.{Head};
ghost use Rattle.clfs_lsn.specs.Heads.{heads_from, head_at, head_above};
ghost use Rattle.clfs_index.specs.declared.row.Found.{Found};

use crate::place::{place_above, place_at};
use clfs_lsn::{Head, Lsn, forget_below, place_of};
use std::alloc::{AllocError, Global};
use std::marker::Model;

/// A head that was found, and its place in the row.
#[derive(Clone, Copy, Debug, PartialEq, Eq)]
pub struct Found {
    /// The head.
    pub head: Head,
    /// Its place, from 0. It is good until heads are forgotten; then it only costs a search.
    pub place: usize,
}

/// The heads of a stream's records. A contract sees the stream's base, the heads that are kept, their LSNs rising, and how many more
/// there is room for.
#[derive(Drop)]
pub struct StreamIndex {
    base: Lsn,
    heads: Vec<Head>,
}

impl Model for StreamIndex {
    ghost use Rattle.clfs_index.specs.Row.{Row};

    ghost Value = { Row };

    ghost use Rattle.std.specs.Prelude.{◌-◌, vec_len, vec_capacity};
    ghost use Rattle.clfs_lsn.specs.Heads.{lsn_of_head};
    ghost use Rattle.clfs_lsn.specs.Rising.{AreRising};

    ghost view = { λ s. record { base = s.base; heads = s.heads.items; room = vec_capacity s.heads - vec_len s.heads } };

    ghost invariant = { λ s. AreRising lsn_of_head s.heads.items };
}

impl StreamIndex {
    /// A stream without records.
    pub fn new(alloc: Global, base: Lsn) -> StreamIndex
        ensures base { result.base ≡ base }
        ensures heads { result.heads ≡ [] }
    {
        StreamIndex {
            base,
            heads: Vec::new(alloc),
        }
    }

    /// How many heads are kept.
    pub fn len(&self) -> usize
        ensures { result ≡ length self.now.heads }
    {
        self.heads.len()
    }

    /// Makes room for one more head.
    pub fn reserve(&mut self) -> Result<(), AllocError>
        ensures base { self.new.base ≡ self.old.base }
        ensures heads { self.new.heads ≡ self.old.heads }
        ensures room { OnOk result (1 ≤ self.new.room) }
        ensures kept { self.old.room ≤ self.new.room }
    {
        self.heads.reserve(1)
    }

    /// The head of a new record, after the others. It takes no memory.
    pub fn push(&mut self, head: Head)
        requires above { All (λ (other : Head). other.lsn < head.lsn) self.old.heads }
        requires room { 1 ≤ self.old.room }
        ensures base { self.new.base ≡ self.old.base }
        ensures heads { self.new.heads ≡ self.old.heads ++ head ∷ [] }
        ensures room { self.new.room + 1 ≡ self.old.room }
    {
        self.heads.push_reserved(head);
    }

    /// The live head at an LSN.
    pub fn live_at(&self, lsn: Lsn) -> Option<Found>
        ensures head { option_map (λ (found : Found). found.head) result ≡ head_at lsn (heads_from self.now.base self.now.heads) }
        ensures place { IfSome result (λ found. slice_get self.now.heads found.place ≡ Some found.head) }
    {
        if lsn < self.base {
            return None;
        }
        self.at(lsn)
    }

    /// The head at an LSN, live or not.
    pub fn at(&self, lsn: Lsn) -> Option<Found>
        ensures head { option_map (λ (found : Found). found.head) result ≡ head_at lsn self.now.heads }
        ensures place { IfSome result (λ found. slice_get self.now.heads found.place ≡ Some found.head) }
    {
        let found = found_at(&self.heads, place_at(&self.heads, lsn))?;
        if found.head.lsn == lsn {
            Some(found)
        } else {
            None
        }
    }

    /// The first live head above an LSN. `near` is where it is likely to be: the place after the head that was read last.
    pub fn above(&self, lsn: Lsn, near: usize) -> Option<Found>
        ensures head { option_map (λ (found : Found). found.head) result ≡ head_above lsn (heads_from self.now.base self.now.heads) }
        ensures place { IfSome result (λ found. slice_get self.now.heads found.place ≡ Some found.head) }
    {
        if lsn < self.base {
            return found_at(&self.heads, place_of(&self.heads, self.base));
        }
        found_at(&self.heads, place_above(&self.heads, lsn, near))
    }

    /// The first live head.
    pub fn first(&self) -> Option<Head>
        ensures { result ≡ slice_get (heads_from self.now.base self.now.heads) 0 }
    {
        let found = found_at(&self.heads, place_of(&self.heads, self.base))?;
        Some(found.head)
    }

    /// The last live head.
    pub fn last(&self) -> Option<Head>
        ensures { result ≡ last_or None (heads_from self.now.base self.now.heads) }
    {
        let last = *self.heads.last()?;
        if last.lsn < self.base {
            None
        } else {
            Some(last)
        }
    }

    /// The base moves. Nothing is forgotten, and no memory is taken.
    pub fn set_base(&mut self, lsn: Lsn)
        ensures base { self.new.base ≡ lsn }
        ensures heads { self.new.heads ≡ self.old.heads }
        ensures room { self.new.room ≡ self.old.room }
    {
        self.base = lsn;
    }

    /// Nothing below an LSN is read any more: heads below it may go, and where they are half of the row they do. It takes no memory.
    pub fn forget_below(&mut self, lsn: Lsn)
        ensures base { self.new.base ≡ self.old.base }
        ensures kept { heads_from lsn self.new.heads ≡ heads_from lsn self.old.heads }
        ensures end { (n : ℕ) × (self.new.heads ≡ drop n self.old.heads) }
        ensures few { length self.new.heads ≤ 2 * length (heads_from lsn self.new.heads) }
        ensures room { self.old.room ≤ self.new.room }
    {
        forget_below(&mut self.heads, lsn);
    }
}

// The head at a place, where there is one.
fn found_at(heads: &[Head], place: usize) -> Option<Found>
    ensures head { option_map (λ (found : Found). found.head) result ≡ slice_get heads.now place }
    ensures place { IfSome result (λ found. slice_get heads.now found.place ≡ Some found.head) }
{
    let head = *heads.get(place)?;
    Some(Found { head, place })
}
