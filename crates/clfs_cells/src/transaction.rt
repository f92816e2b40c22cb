// What is asked of an open transaction, and what changes it.
ghost use Rattle.std.specs.Prelude.{◌≡◌, ◌*◌, ◌+◌, ◌<◌, ◌≤◌, [], ◌∷◌, ◌++◌, Some, find, length, nat_le, position, slice_get, slice_set, true};
ghost use Rattle.clfs_cells.specs.declared.begun.Made.{Made};
ghost use Rattle.clfs_lsn.specs.Lsn.{null_lsn};
ghost use Rattle.clfs_cells.specs.Kept.{transaction_of};
ghost use Rattle.clfs_cells.specs.Stored.{standing, newest_standing, records_made, holds, is_at, with_one_undone};

use crate::begun::{MOST_CHANGES, Made, Transaction};
use crate::row::Change;
use clfs_lsn::Lsn;

impl Made {
    // No set: what stands where none was made yet.
    fn none() -> Made {
        Made {
            lsn: Lsn::null(),
            undo_next: Lsn::null(),
            change: Change {
                cell: 0,
                old: 0,
                new: 0,
            },
            undone: false,
        }
    }
}

impl Transaction {
    // A transaction that made no set yet.
    pub(crate) fn begun(number: u32, changes: u16) -> Transaction
        requires { changes ≤ 7 }
        ensures { transaction_of result ≡ record { number = number; changes = changes; made = []; last = null_lsn } }
    {
        Transaction {
            number,
            changes,
            sets: [Made::none(); MOST_CHANGES],
            count: 0,
            last: Lsn::null(),
        }
    }

    /// Its number.
    pub fn number(&self) -> u32
        ensures { result ≡ (transaction_of self.now).number }
    {
        self.number
    }

    /// The sets for which it was begun.
    pub fn changes(&self) -> u16
        ensures changes { result ≡ (transaction_of self.now).changes }
        ensures few { result ≤ 7 }
    {
        self.changes
    }

    /// Its newest record, or null.
    pub fn last(&self) -> Lsn
        ensures { result ≡ (transaction_of self.now).last }
    {
        self.last
    }

    /// The sets that it made, in order.
    pub fn made(&self) -> &[Made]
        ensures made { result.now ≡ (transaction_of self.now).made }
        ensures few { length result.now ≤ 7 }
    {
        &self.sets[..self.count]
    }

    /// Whether it has made all its sets.
    pub fn is_spent(&self) -> bool
        ensures { result ≡ nat_le (transaction_of self.now).changes (length (transaction_of self.now).made) }
    {
        self.changes as usize <= self.made().len()
    }

    /// How many of its sets stand.
    pub fn standing(&self) -> usize
        ensures standing { result ≡ length (standing (transaction_of self.now)) }
        ensures few { result ≤ 7 }
    {
        let mut count = 0;
        for made in self.made() {
            if !made.undone {
                count += 1;
            }
        }
        count
    }

    /// Its newest set that stands, or null.
    pub fn newest_standing(&self) -> Lsn
        ensures { result ≡ newest_standing (transaction_of self.now) }
    {
        let mut newest = Lsn::null();
        for made in self.made() {
            if !made.undone {
                newest = made.lsn;
            }
        }
        newest
    }

    /// The records that it appended.
    pub fn records_made(&self) -> usize
        ensures records { result ≡ records_made (transaction_of self.now) }
        ensures few { result ≤ 2 * (transaction_of self.now).changes }
    {
        let made = self.made().len();
        made + (made - self.standing())
    }

    /// Whether it has made a set of a cell, one that was taken back too.
    pub fn holds(&self, cell: u16) -> bool
        ensures { result ≡ holds cell (transaction_of self.now) }
    {
        self.made().iter().any(|made| made.change.cell == cell)
    }

    /// The set that has its record at an LSN.
    pub fn made_at(&self, lsn: Lsn) -> Option<Made>
        ensures { result ≡ find (is_at lsn) (transaction_of self.now).made }
    {
        let made = self.made();
        let place = place_of(made, lsn)?;
        Some(made[place])
    }

    // The same with a set more.
    pub(crate) fn with_set(&self, made: Made) -> Transaction
        requires { length (transaction_of self.now).made < (transaction_of self.now).changes }
        ensures { transaction_of result ≡ record (transaction_of self.now) { made = (transaction_of self.now).made ++ made ∷ []; last = made.lsn } }
    {
        let mut next = *self;
        let last = made.lsn;
        next.sets[next.count] = made;
        next.count += 1;
        next.last = last;
        next
    }

    // The same with another newest record.
    fn with_last(&self, last: Lsn) -> Transaction
        ensures { transaction_of result ≡ record (transaction_of self.now) { last = last } }
    {
        let mut next = *self;
        next.last = last;
        next
    }

    // The same with the set at a place taken back.
    fn with_undone_at(&self, place: usize) -> Transaction
        requires { place < length (transaction_of self.now).made }
        ensures { (made : Made) → slice_get (transaction_of self.now).made place ≡ Some made
            → transaction_of result ≡ record (transaction_of self.now) { made = slice_set (transaction_of self.now).made place (record made { undone = true }) } }
    {
        let mut next = *self;
        next.sets[place].undone = true;
        next
    }

    // The same with the set at an LSN taken back, by a record at another one.
    pub(crate) fn with_undone(&self, lsn: Lsn, at: Lsn) -> Transaction
        ensures { transaction_of result ≡ with_one_undone lsn at (transaction_of self.now) }
    {
        match place_of(self.made(), lsn) {
            Some(place) => self.with_undone_at(place).with_last(at),
            None => self.with_last(at),
        }
    }
}

// Where the set stands that has its record at an LSN.
fn place_of(made: &[Made], lsn: Lsn) -> Option<usize>
    ensures { result ≡ position (is_at lsn) made.now }
{
    made.iter().position(|made| made.lsn == lsn)
}
