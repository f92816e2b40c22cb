// A permit: a thread's right to sectors that an area holds. Its two shares are tokens without bytes, of which the sums over all permits of an area
// are the totals of the area's books. So what one permit has no other can take, whichever thread has it.
ghost use Rattle.std.specs.Prelude.{◌≡◌, ◌+◌, ◌^◌, ◌<◌, ◌≤◌};
ghost use Rattle.clfs_area.specs.Areas.{permit_of};

use std::marker::Model;
use std::sync::ledger::{Ledger, Share};

/// A right to sectors of an area, with the count of what was appended by it. Contracts see its sectors, its records and its parts.
#[derive(Drop)]
pub struct Permit<S: Ledger, R: Ledger> {
    pub(crate) sectors: u32,
    pub(crate) records: u64,
    pub(crate) parts: u32,
    pub(crate) held: Share<S>,
    pub(crate) placed: Share<R>,
}

impl<S: Ledger, R: Ledger> Model for Permit<S, R> {
    ghost use Rattle.clfs_area.specs.Areas.{PermitState, IsBacked, permit_of};

    ghost Value = { PermitState };

    ghost view = { λ p. permit_of p.sectors p.records p.parts };

    ghost invariant = { λ p. IsBacked (permit_of p.sectors p.records p.parts) p.held.amount p.held.parts p.placed.amount p.placed.parts };
}

impl<S: Ledger, R: Ledger> Permit<S, R> {
    /// The sectors that it has.
    pub fn sectors(&self) -> u32
        ensures { result ≡ self.now.sectors }
    {
        self.sectors
    }

    /// The appends that were answered with an LSN by it.
    pub fn records(&self) -> u64
        ensures { result ≡ self.now.records }
    {
        self.records
    }

    /// Its parts of the area.
    pub fn parts(&self) -> u32
        ensures { result ≡ self.now.parts }
    {
        self.parts
    }

    /// Some of the sectors and parts go to a new permit, which has no records.
    pub fn split(&mut self, sectors: u32, parts: u32) -> Permit<S, R>
        requires sectors { sectors ≤ self.old.sectors }
        requires parts { (0 < parts) × (parts < self.old.parts) }
        ensures new { result ≡ permit_of sectors 0 parts }
        ensures sectors { self.new.sectors + sectors ≡ self.old.sectors }
        ensures parts { self.new.parts + parts ≡ self.old.parts }
        ensures records { self.new.records ≡ self.old.records }
    {
        let held = self.held.split_off(parts as u64, sectors as u64);
        let placed = self.placed.split_off(parts as u64, 0);
        self.sectors -= sectors;
        self.parts -= parts;
        Permit {
            sectors,
            records: 0,
            parts,
            held,
            placed,
        }
    }

    /// Takes in another permit of the same area.
    pub fn join(&mut self, other: Permit<S, R>)
        requires sectors { self.old.sectors + other.sectors < 2 ^ 32 }
        requires records { self.old.records + other.records < 2 ^ 64 }
        requires parts { self.old.parts + other.parts < 2 ^ 32 }
        ensures sectors { self.new.sectors ≡ self.old.sectors + other.sectors }
        ensures records { self.new.records ≡ self.old.records + other.records }
        ensures parts { self.new.parts ≡ self.old.parts + other.parts }
    {
        let Permit {
            sectors,
            records,
            parts,
            held,
            placed,
        } = other;
        self.held.merge(held);
        self.placed.merge(placed);
        self.sectors += sectors;
        self.records += records;
        self.parts += parts;
    }
}
