// The numbers of one area's cursors, each with the key that the slab has for it.
ghost use Rattle.std.specs.Prelude.{◌≡◌, ◌+◌, ◌<◌, ◌==◌, ◌^◌, ◌∷◌, ◌++◌, [], false, filter, find, length, nat_le, not, IfOk, Some, None, MatchOption};
ghost use Rattle.clfs_lsn.specs.Numbers.{least_unused};
ghost use Rattle.clfs_cursor.specs.Keys.{AreDifferent, has_number, is_numbered};
ghost use Rattle.clfs_cursor.specs.declared.keys.Numbered.{Numbered};

use std::alloc::{AllocError, Global};
use std::marker::Model;

// A cursor's number and its key.
#[derive(Clone, Copy)]
pub(crate) struct Numbered {
    pub(crate) number: u16,
    pub(crate) key: usize,
}

// The keys of an area's cursors, in the order in which these were started. There is memory for as many as the area may have.
#[derive(Drop)]
pub(crate) struct AreaKeys {
    reads: u16,
    keys: Vec<Numbered>,
}

impl Model for AreaKeys {
    ghost use Rattle.clfs_cursor.specs.Keys.{Keys};

    ghost Value = { Keys };

    ghost view = { λ s. record { numbered = s.keys.items; reads = s.reads } };

    ghost use Rattle.clfs_cursor.specs.Kept.{AreKept};

    ghost invariant = { AreKept };
}

impl AreaKeys {
    // No keys, and memory for so many.
    pub(crate) fn new(alloc: Global, reads: u16) -> Result<AreaKeys, AllocError>
        ensures { IfOk result (λ made. made ≡ record { numbered = []; reads = reads }) }
    {
        Ok(AreaKeys {
            reads,
            keys: Vec::with_capacity(alloc, reads as usize)?,
        })
    }

    // How many cursors the area has.
    pub(crate) fn len(&self) -> usize
        ensures { result ≡ length self.now.numbered }
    {
        self.keys.len()
    }

    // Whether it has as many as it may.
    pub(crate) fn is_full(&self) -> bool
        ensures { result ≡ nat_le self.now.reads (length self.now.numbered) }
    {
        self.reads as usize <= self.keys.len()
    }

    // All of them.
    pub(crate) fn as_slice(&self) -> &[Numbered]
        ensures { result.now ≡ self.now.numbered }
    {
        self.keys.as_slice()
    }

    // The key of the cursor of a number.
    pub(crate) fn key(&self, number: u16) -> Option<usize>
        ensures key { MatchOption result (find (has_number number) self.now.numbered ≡ None)
            (λ key. find (has_number number) self.now.numbered ≡ Some (record { number = number; key = key })) }
        ensures different { AreDifferent self.now.numbered }
    {
        Some(numbered_at(&self.keys, number)?.key)
    }

    // The least number from 1 on that no cursor has.
    pub(crate) fn unused_number(&self) -> u16
        requires { length self.now.numbered < self.now.reads }
        ensures number { result ≡ least_unused (length self.now.numbered) (is_numbered self.now.numbered) }
        ensures unused { is_numbered self.now.numbered result ≡ false }
    {
        // There are fewer than fit into a number.
        let _reads = self.reads;
        least_unused(&self.keys)
    }

    // One more cursor. It takes no memory.
    pub(crate) fn push(&mut self, number: u16, key: usize)
        requires room { length self.old.numbered < self.old.reads }
        requires unused { is_numbered self.old.numbered number ≡ false }
        ensures { self.new ≡ record self.old { numbered = self.old.numbered ++ record { number = number; key = key } ∷ [] } }
    {
        self.keys.push_reserved(Numbered { number, key });
    }

    // The cursor of a number goes.
    pub(crate) fn remove(&mut self, number: u16)
        ensures { self.new ≡ record self.old { numbered = filter (λ (numbered : Numbered). not (numbered.number == number)) self.old.numbered } }
    {
        self.keys.retain(|numbered| numbered.number != number);
    }
}

// The first with a number.
fn numbered_at(keys: &[Numbered], number: u16) -> Option<Numbered>
    ensures { result ≡ find (has_number number) keys.now }
{
    keys.iter()
        .find(|numbered| numbered.number == number)
        .copied()
}

// The least number from 1 on that isn't there.
fn least_unused(keys: &[Numbered]) -> u16
    requires { length keys.now + 1 < 2 ^ 16 }
    ensures number { result ≡ least_unused (length keys.now) (is_numbered keys.now) }
    ensures unused { is_numbered keys.now result ≡ false }
{
    for before in 0..keys.len() {
        if !is_numbered(keys, before as u16 + 1) {
            return before as u16 + 1;
        }
    }
    keys.len() as u16 + 1
}

// Whether a number is there.
fn is_numbered(keys: &[Numbered], number: u16) -> bool
    ensures { result ≡ is_numbered keys.now number }
{
    keys.iter().any(|numbered| numbered.number == number)
}
