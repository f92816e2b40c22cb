// The row of one stream's restart areas.
ghost use Rattle.std.specs.Prelude.{◌≡◌, ℕ, ◌+◌, ◌*◌, ◌<◌, ◌≤◌, All, [], ◌∷◌, ◌++◌, None, Some, length, drop, slice_get, OnOk};
ghost use Rattle.clfs_lsn.specs.declared.entry.Head.{Head};
ghost use Rattle.clfs_lsn.specs.declared.entry.Kind.TheVariants.{Restart};
ghost use Rattle.clfs_lsn.specs.Heads.{heads_from, head_below, restarts_among};
ghost use Rattle.clfs_restart.specs.Restarts.{live_or_none, head_before};

use clfs_lsn::{Head, Lsn, forget_below, place_of};
use std::alloc::{AllocError, Global};
use std::marker::Model;

/// The heads of a stream's restart areas. A contract sees the stream's base, the heads that are kept, their LSNs rising, and how many
/// more there is room for.
#[derive(Drop)]
pub struct RestartAreas {
    base: Lsn,
    heads: Vec<Head>,
}

impl Model for RestartAreas {
    ghost use Rattle.clfs_restart.specs.Row.{Row};

    ghost Value = { Row };

    ghost use Rattle.std.specs.Prelude.{◌-◌, vec_len, vec_capacity};
    ghost use Rattle.clfs_restart.specs.Restarts.{HasRestarts};

    ghost view = { λ s. record { base = s.base; heads = s.heads.items; room = vec_capacity s.heads - vec_len s.heads } };

    ghost invariant = { λ s. HasRestarts s.heads.items };
}

impl RestartAreas {
    /// A stream without restart areas.
    pub fn new(alloc: Global, base: Lsn) -> RestartAreas
        ensures base { result.base ≡ base }
        ensures heads { result.heads ≡ [] }
    {
        RestartAreas {
            base,
            heads: Vec::new(alloc),
        }
    }

    /// How many heads are kept.
    pub fn len(&self) -> usize
        ensures { result ≡ length self.now.heads }
    {
        self.heads.len()
    }

    /// Makes room for one more head.
    pub fn reserve(&mut self) -> Result<(), AllocError>
        ensures base { self.new.base ≡ self.old.base }
        ensures heads { self.new.heads ≡ self.old.heads }
        ensures room { OnOk result (1 ≤ self.new.room) }
        ensures kept { self.old.room ≤ self.new.room }
    {
        self.heads.reserve(1)
    }

    /// The head of a new restart area, after the others. It takes no memory.
    pub fn push(&mut self, head: Head)
        requires kind { head.kind ≡ Restart }
        requires above { All (λ (other : Head). other.lsn < head.lsn) self.old.heads }
        requires room { 1 ≤ self.old.room }
        ensures base { self.new.base ≡ self.old.base }
        ensures heads { self.new.heads ≡ self.old.heads ++ head ∷ [] }
        ensures room { self.new.room + 1 ≡ self.old.room }
    {
        self.heads.push_reserved(head);
    }

    /// The newest live restart area.
    pub fn newest(&self) -> Option<Head>
        ensures { result ≡ slice_get (restarts_among (heads_from self.now.base self.now.heads)) 0 }
    {
        from_base(&self.heads, self.base, self.heads.len())
    }

    /// The newest live restart area below an LSN.
    pub fn below(&self, lsn: Lsn) -> Option<Head>
        ensures { result ≡ head_below lsn (restarts_among (heads_from self.now.base self.now.heads)) }
    {
        from_base(&self.heads, self.base, place_of(&self.heads, lsn))
    }

    /// The base moves. Nothing is forgotten, and no memory is taken.
    pub fn set_base(&mut self, lsn: Lsn)
        ensures base { self.new.base ≡ lsn }
        ensures heads { self.new.heads ≡ self.old.heads }
        ensures room { self.new.room ≡ self.old.room }
    {
        self.base = lsn;
    }

    /// Nothing below an LSN is read any more: heads below it may go, and where they are half of the row they do. It takes no memory.
    pub fn forget_below(&mut self, lsn: Lsn)
        ensures base { self.new.base ≡ self.old.base }
        ensures kept { heads_from lsn self.new.heads ≡ heads_from lsn self.old.heads }
        ensures end { (n : ℕ) × (self.new.heads ≡ drop n self.old.heads) }
        ensures few { length self.new.heads ≤ 2 * length (heads_from lsn self.new.heads) }
        ensures room { self.old.room ≤ self.new.room }
    {
        forget_below(&mut self.heads, lsn);
    }
}

// The head before a place, where there is one and it isn't below the base.
fn from_base(heads: &[Head], base: Lsn, place: usize) -> Option<Head>
    ensures { result ≡ live_or_none base (head_before heads.now place) }
{
    let head = before(heads, place)?;
    if head.lsn < base { None } else { Some(head) }
}

// The head before a place, where there is one.
fn before(heads: &[Head], place: usize) -> Option<Head>
    ensures { result ≡ head_before heads.now place }
{
    if place == 0 {
        return None;
    }
    at_place(heads, place - 1)
}

// The head at a place, where there is one.
fn at_place(heads: &[Head], place: usize) -> Option<Head>
    ensures { result ≡ slice_get heads.now place }
{
    let head = *heads.get(place)?;
    Some(head)
}
