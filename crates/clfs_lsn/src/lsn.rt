// Log sequence numbers. Order is the order of numbers: a later container is higher, then a later block, then a later record.
ghost use Rattle.std.specs.Prelude.{◌≡◌, ◌+◌, ◌^◌, ◌<◌, ◌≤◌, ◌%◌, SomeIff, Some, ℕ};
ghost use Rattle.clfs_lsn.specs.Lsn.{AreLsnParts, lsn_number, null_lsn, container_of, offset_of, sequence_of};
ghost use Rattle.clfs_lsn.specs.Words.{lsn_text};

use crate::format::SECTOR;
use std::fmt;
use std::marker::Model;

/// A log sequence number. A contract sees it as its number; every number of 64 bits is one.
#[derive(Clone, Copy, Debug, PartialEq, Eq, PartialOrd, Ord)]
pub struct Lsn {
    number: u64,
}

impl Model for Lsn {
    ghost use Rattle.std.specs.Prelude.{ℕ};

    ghost Value = { ℕ };

    ghost view = { λ a. a.number };

    ghost inverse = { λ n. record { number = n } };
}

impl Lsn {
    /// The LSN that names no record.
    pub const fn null() -> Lsn
        ensures { result ≡ null_lsn }
    {
        Lsn { number: 0 }
    }

    /// The LSN of a container's id, a block's offset in it in bytes and a record's position in the block. None where the
    /// offset is no multiple of 512, or the sequence is above 511.
    pub fn create(container: u32, offset: u32, sequence: u32) -> Option<Lsn>
        ensures { SomeIff result (AreLsnParts offset sequence) (lsn_number container offset sequence) }
    {
        if offset % SECTOR != 0 || sequence >= SECTOR {
            return None;
        }
        Some(Lsn::from_parts(container, offset, sequence))
    }

    /// The LSN of parts that don't run into each other. For those of an LSN it is the one that `create` gives; a caller who has made
    /// them needs no test.
    pub fn from_parts(container: u32, offset: u32, sequence: u32) -> Lsn
        requires { offset + sequence < 2 ^ 32 }
        ensures { result ≡ lsn_number container offset sequence }
    {
        Lsn {
            number: ((container as u64) << 32) + offset as u64 + sequence as u64,
        }
    }

    /// The LSN of a number.
    pub fn of_number(number: u64) -> Lsn
        ensures { result ≡ number }
    {
        Lsn { number }
    }

    /// The number of the LSN.
    pub fn number(self) -> u64
        ensures { result ≡ self }
    {
        self.number
    }

    /// The container's id.
    pub fn container(self) -> u32
        ensures value { result ≡ container_of self }
        ensures created { (c o s : ℕ) → o < 2 ^ 32 → AreLsnParts o s → self ≡ lsn_number c o s → result ≡ c }
    {
        (self.number >> 32) as u32
    }

    /// The offset of the block in its container, in bytes.
    pub fn offset(self) -> u32
        ensures value { result ≡ offset_of self }
        ensures created { (c o s : ℕ) → o < 2 ^ 32 → AreLsnParts o s → self ≡ lsn_number c o s → result ≡ o }
    {
        let low = self.number % (1 << 32);
        (low - low % SECTOR as u64) as u32
    }

    /// The record's position in its block, from 0.
    pub fn sequence(self) -> u32
        ensures value { result ≡ sequence_of self }
        ensures created { (c o s : ℕ) → o < 2 ^ 32 → AreLsnParts o s → self ≡ lsn_number c o s → result ≡ s }
    {
        (self.number % SECTOR as u64) as u32
    }

    /// The next number. None where there is no higher number of 64 bits.
    pub fn next(self) -> Option<Lsn>
        ensures { SomeIff result (self + 1 < 2 ^ 64) (self + 1) }
    {
        Some(Lsn {
            number: self.number.checked_add(1)?,
        })
    }
}

/// The parts that the readers give are those of an LSN, and `create` makes the same number of them again.
pub fn every_number_is_an_lsn()
    ensures parts { (n : ℕ) → AreLsnParts (offset_of n) (sequence_of n) }
    ensures number { (n : ℕ) → lsn_number (container_of n) (offset_of n) (sequence_of n) ≡ n }
{}

impl fmt::Display for Lsn {
    ghost output = { λ x. Some (lsn_text x) };

    fn fmt<W: fmt::Write>(&self, f: &mut fmt::Formatter<W>) -> fmt::Result {
        let container = self.container();
        let offset = self.offset();
        let sequence = self.sequence();
        write!(f, "{container:x}:{offset:x}:{sequence:x}")
    }
}
