// The first live LSNs of the streams, and what they hold back.
ghost use Rattle.std.specs.Prelude.{◌≡◌, ◌≢◌, All, ℕ, ◌+◌, ◌-◌, ◌<◌, ◌≤◌, List, [], ◌∷◌, ◌++◌, Option, None, Some, is_some, if◌then◌else◌, length, slice_set, slice_index_or, OnOk};
ghost use Rattle.clfs_lsn.specs.Place.{IsSmall, frontier};
ghost use Rattle.clfs_lsn.specs.declared.entry.Head.{Head};
ghost use Rattle.clfs_lsn.specs.Heads.{hold_of};
ghost use Rattle.clfs_tail.specs.Firsts.{first_live, AreFirsts, hold_among};

use crate::tree::{Node, least_at, lesser, settle};
use clfs_lsn::{Lsn, Place, frontier};
use std::alloc::{AllocError, Global};
use std::marker::Model;

/// The first live LSN of each stream. A contract sees them in the order of the streams' numbers, None where a stream has no live
/// record, and how many more streams there is room for.
#[derive(Drop)]
pub struct LogTail {
    nodes: Vec<Node>,
}

impl Model for LogTail {
    ghost use Rattle.clfs_tail.specs.Row.{Rows};

    ghost Value = { Rows };

    ghost use Rattle.std.specs.Prelude.{◌-◌, vec_len, vec_capacity};
    ghost use Rattle.clfs_tail.specs.Tree.{firsts_of, IsTree};

    ghost view = { λ s. record { firsts = firsts_of s.nodes.items; room = vec_capacity s.nodes - vec_len s.nodes } };

    ghost invariant = { λ s. IsTree s.nodes.items };
}

impl LogTail {
    /// No streams.
    pub fn new(alloc: Global) -> LogTail
        ensures { result.firsts ≡ [] }
    {
        LogTail {
            nodes: Vec::new(alloc),
        }
    }

    /// Makes room for one more stream.
    pub fn reserve(&mut self) -> Result<(), AllocError>
        ensures firsts { self.new.firsts ≡ self.old.firsts }
        ensures room { OnOk result (1 ≤ self.new.room) }
        ensures kept { self.old.room ≤ self.new.room }
    {
        self.nodes.reserve(1)
    }

    /// A stream without records, after the others. It takes no memory.
    pub fn add(&mut self)
        requires room { 1 ≤ self.old.room }
        ensures firsts { self.new.firsts ≡ self.old.firsts ++ None ∷ [] }
        ensures told { (bases : ℕ → ℕ) (heads : List Head) → AreFirsts self.old.firsts bases heads → AreFirsts self.new.firsts bases heads }
        ensures room { self.new.room + 1 ≡ self.old.room }
    {
        self.nodes.push_reserved(Node {
            first: None,
            least: None,
        });
    }

    /// The first live LSN of a stream moves, as where its base does. It takes no memory.
    pub fn set_first(&mut self, stream: u16, first: Option<Lsn>)
        requires some { 1 ≤ stream }
        requires there { stream ≤ length self.old.firsts }
        ensures firsts { self.new.firsts ≡ slice_set self.old.firsts (stream - 1) first }
        ensures count { length self.new.firsts ≡ length self.old.firsts }
        ensures told { (bases others : ℕ → ℕ) (heads : List Head) → AreFirsts self.old.firsts bases heads
            → ((other : ℕ) → other ≢ stream → others other ≡ bases other) → first ≡ first_live others heads stream
            → AreFirsts self.new.firsts others heads }
        ensures room { self.new.room ≡ self.old.room }
    {
        let place = stream as usize - 1;
        self.nodes[place].first = first;
        settle(&mut self.nodes, place);
    }

    /// A record joins a stream after its others: its LSN is the first live one where no other record is live. It takes no memory.
    pub fn push(&mut self, stream: u16, lsn: Lsn)
        requires some { 1 ≤ stream }
        requires there { stream ≤ length self.old.firsts }
        ensures firsts { self.new.firsts ≡ (if is_some (slice_index_or self.old.firsts (stream - 1) None) then self.old.firsts else slice_set self.old.firsts (stream - 1) (Some lsn)) }
        ensures count { length self.new.firsts ≡ length self.old.firsts }
        ensures told { (bases : ℕ → ℕ) (heads : List Head) (head : Head) → AreFirsts self.old.firsts bases heads
            → head.stream ≡ stream → head.lsn ≡ lsn → All (λ (other : Head). other.lsn < lsn) heads → bases stream ≤ lsn
            → AreFirsts self.new.firsts bases (heads ++ head ∷ []) }
        ensures room { self.new.room ≡ self.old.room }
    {
        if self.nodes[stream as usize - 1].first.is_none() {
            self.set_first(stream, Some(lsn));
        }
    }

    /// The hold: the least LSN that the log still needs, by the archive tail, where archiving is on, and the place of the log.
    pub fn hold(&self, archive: Option<Lsn>, place: &Place) -> Lsn
        requires { IsSmall place.now }
        ensures least { result ≡ hold_among (frontier place.now) archive self.now.firsts }
        ensures hold { (bases : ℕ → ℕ) (heads : List Head) → AreFirsts self.now.firsts bases heads → result ≡ hold_of (frontier place.now) archive bases heads }
    {
        lesser(archive, least_at(&self.nodes, 0)).unwrap_or(frontier(place))
    }
}
