// The rows in the order in which the areas were made, and their sum beside them. A call by client and number
// goes through the rows to find the area's; a call by place goes to it at once.
ghost use Rattle.std.specs.Prelude.{◌≡◌, ◌+◌, ◌-◌, ◌^◌, ◌<◌, ◌≤◌, ◌↔◌, [], ◌∷◌, ◌++◌, true, false};
ghost use Rattle.std.specs.Prelude.{OnOk, OnErr, IsErr, IfErr, length, position};
ghost use Rattle.clfs_ledger.specs.Rows.{is_of, has_row, held_of, row_at, total_held, with_held, with_held_at, without, OtherRowsStay};

use crate::row::Reservation;
use std::alloc::{AllocError, Global};
use std::marker::Model;
use thiserror::Error;

/// The area holds fewer sectors than were to be spent.
#[derive(Clone, Copy, Debug, PartialEq, Eq, Error)]
#[error("the area holds {held} sectors")]
pub struct Short {
    /// The sectors that it holds.
    pub held: u32,
}

/// The sectors that areas hold. A contract sees it as its rows, in the order in which they were added.
#[derive(Drop)]
pub struct Reservations {
    rows: Vec<Reservation>,
    total: u32,
}

impl Model for Reservations {
    ghost use Rattle.std.specs.Prelude.{List};
    ghost use Rattle.clfs_ledger.specs.declared.row.Reservation.{Reservation};

    ghost Value = { List Reservation };

    ghost use Rattle.clfs_ledger.specs.Kept.{HaveTotal};

    ghost view = { λ s. s.rows.items };

    ghost invariant = { λ s. HaveTotal s.rows.items s.total };
}

impl Reservations {
    /// No area holds anything.
    pub fn new(alloc: Global) -> Reservations
        ensures { result ≡ [] }
    {
        Reservations {
            rows: Vec::new(alloc),
            total: 0,
        }
    }

    /// A row for a new area, which holds nothing.
    pub fn add(&mut self, client: u16, area: u16) -> Result<(), AllocError>
        requires { has_row self.old client area ≡ false }
        ensures ok { OnOk result (self.new ≡ self.old ++ record { client = client; area = area; held = 0 } ∷ []) }
        ensures err { OnErr result (self.new ≡ self.old) }
    {
        self.rows.push(Reservation {
            client,
            area,
            held: 0,
        })?;
        Ok(())
    }

    /// Takes the area's row away and answers what it held: 0 where it had none.
    pub fn remove(&mut self, client: u16, area: u16) -> u32
        ensures held { result ≡ held_of self.old client area }
        ensures rows { self.new ≡ without self.old client area }
        ensures gone { has_row self.new client area ≡ false }
        ensures total { total_held self.new + result ≡ total_held self.old }
        ensures others { OtherRowsStay self.old self.new client area }
    {
        let Some(place) = place_of(&self.rows, client, area) else {
            return 0;
        };
        let held = self.rows[place].held;
        self.rows.remove(place);
        self.total -= held;
        held
    }

    /// The area holds so many sectors more.
    pub fn hold(&mut self, client: u16, area: u16, sectors: u32)
        requires there { has_row self.old client area ≡ true }
        requires room { total_held self.old + sectors < 2 ^ 32 }
        ensures rows { self.new ≡ with_held self.old client area (held_of self.old client area + sectors) }
        ensures held { held_of self.new client area ≡ held_of self.old client area + sectors }
        ensures total { total_held self.new ≡ total_held self.old + sectors }
        ensures others { OtherRowsStay self.old self.new client area }
    {
        let place = place_of(&self.rows, client, area).unwrap();
        let row = &mut self.rows[place];
        row.held += sectors;
        self.total += sectors;
    }

    /// The area holds so many sectors less. An area without a row holds none.
    pub fn spend(&mut self, client: u16, area: u16, sectors: u32) -> Result<(), Short>
        ensures short { IsErr result ↔ (held_of self.old client area < sectors) }
        ensures told { IfErr result (λ short. short.held ≡ held_of self.old client area) }
        ensures err { OnErr result (self.new ≡ self.old) }
        ensures rows { OnOk result (self.new ≡ with_held self.old client area (held_of self.old client area - sectors)) }
        ensures held { OnOk result (held_of self.new client area + sectors ≡ held_of self.old client area) }
        ensures total { OnOk result (total_held self.new + sectors ≡ total_held self.old) }
        ensures others { OtherRowsStay self.old self.new client area }
    {
        let Some(place) = place_of(&self.rows, client, area) else {
            if sectors == 0 {
                return Ok(());
            }
            return Err(Short { held: 0 });
        };
        let held = self.rows[place].held;
        if held < sectors {
            return Err(Short { held });
        }
        self.rows[place].held = held - sectors;
        self.total -= sectors;
        Ok(())
    }

    /// The sectors that the area holds: 0 where it has no row.
    pub fn held(&self, client: u16, area: u16) -> u32
        ensures { result ≡ held_of self.now client area }
    {
        match place_of(&self.rows, client, area) {
            Some(place) => self.rows[place].held,
            None => 0,
        }
    }

    /// The sectors that the area holds whose row stands at a place, from 0 on in the order in which the rows were added.
    pub fn held_at(&self, place: usize) -> u32
        requires { place < length self.now }
        ensures { result ≡ (row_at place self.now).held }
    {
        self.rows[place].held
    }

    /// The area whose row stands at a place holds so many sectors more.
    pub fn hold_at(&mut self, place: usize, sectors: u32)
        requires there { place < length self.old }
        requires room { total_held self.old + sectors < 2 ^ 32 }
        ensures rows { self.new ≡ with_held_at place ((row_at place self.old).held + sectors) self.old }
        ensures total { total_held self.new ≡ total_held self.old + sectors }
    {
        let row = &mut self.rows[place];
        row.held += sectors;
        self.total += sectors;
    }

    /// The area whose row stands at a place holds so many sectors less.
    pub fn spend_at(&mut self, place: usize, sectors: u32)
        requires there { place < length self.old }
        requires enough { sectors ≤ (row_at place self.old).held }
        ensures rows { self.new ≡ with_held_at place ((row_at place self.old).held - sectors) self.old }
        ensures total { total_held self.new + sectors ≡ total_held self.old }
    {
        let row = &mut self.rows[place];
        row.held -= sectors;
        self.total -= sectors;
    }

    /// The sectors that all areas hold.
    pub fn total(&self) -> u32
        ensures { result ≡ total_held self.now }
    {
        self.total
    }
}

// Where the area's row stands.
fn place_of(rows: &[Reservation], client: u16, area: u16) -> Option<usize>
    ensures { result ≡ position (is_of client area) rows.now }
{
    rows.iter()
        .position(|row| row.client == client && row.area == area)
}
