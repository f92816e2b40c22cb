// The areas of all clients. A contract sees the machine's list of areas, and for how many cursors in all there is memory. A call by place is
// one of the area that stands there, whose client and number no other area has.
ghost use Rattle.std.specs.Prelude.{◌≡◌, ◌≢◌, ◌+◌, ◌<◌, ◌≤◌, ◌^◌, ◌∷◌, ◌++◌, [], AllPairs, IfOk, IfSome, OnOk, OnErr, Some, filter, length, nat_le, not, position};
ghost use Rattle.std.specs.Option.{option_map};
ghost use Rattle.clfs_lsn.specs.Limits.{most_areas};
ghost use Rattle.clfs_model.specs.declared.state.State.{State};
ghost use Rattle.clfs_model.specs.declared.state.Area.{Area};
ghost use Rattle.clfs_lsn.specs.declared.cursor.Cursor.{Cursor};
ghost use Rattle.clfs_model.specs.State.{area_of, areas_of, change_first, is_area};
ghost use Rattle.clfs_model.specs.Answers.{unused_area, new_area};
ghost use Rattle.clfs_model.specs.Put.{with_less_held, with_more_held};
ghost use Rattle.clfs_model.specs.Reading.{cursor_of, record_cursor, restart_cursor, with_cursor, with_cursor_at, without_cursor};
ghost use Rattle.clfs_model.specs.Refusals.{too_many_cursors};
ghost use Rattle.clfs_lsn.specs.Cursors.{unused_cursor};
ghost use Rattle.clfs_model.specs.Space.{reserved};
ghost use Rattle.clfs_model.specs.Valid.{AreDifferentAreas};
ghost use Rattle.clfs_areas.specs.Table.{all_held, area_at, client_areas, HasRoom};

use crate::row::{AreaInfo, AreaName, AreaRow, count_of, least_unused, place_of};
use clfs_cursor::Cursors;
use clfs_ledger::Reservations;
use clfs_lsn::Lsn;
use clfs_model::{Cursor, CursorKind, Refusal};
use indexmap::IndexSet;
use std::alloc::{AllocError, Global};
use std::marker::Model;

/// The areas of all clients. An area is told by its place among those that are there, in the order in which they were made, from 0 on.
#[derive(Drop)]
pub struct Areas {
    rows: Vec<AreaRow>,
    names: IndexSet<AreaName>,
    cursors: Cursors,
    reservations: Reservations,
}

impl Model for Areas {
    ghost use Rattle.clfs_areas.specs.Table.{AreaTable};

    ghost Value = { AreaTable };

    ghost use Rattle.clfs_areas.specs.Kept.{table_of, AreJoined};

    ghost view = { table_of };

    ghost invariant = { AreJoined };
}

impl Areas {
    /// No areas.
    pub fn new(alloc: Global) -> Areas
        ensures { result.areas ≡ [] }
    {
        Areas {
            rows: Vec::new(alloc),
            names: IndexSet::new(alloc),
            cursors: Cursors::new(alloc),
            reservations: Reservations::new(alloc),
        }
    }

    /// Where the client's area of a number stands.
    pub fn place(&self, client: u16, number: u16) -> Option<usize>
        ensures first { result ≡ position (is_area client number) self.now.areas }
        ensures within { IfSome result (λ place. place < length self.now.areas) }
        ensures area { (s : State) → s.areas ≡ self.now.areas → area_of s client number ≡ option_map (λ place. area_at place self.now.areas) result }
        ensures client { IfSome result (λ place. (area_at place self.now.areas).client ≡ client) }
        ensures number { IfSome result (λ place. (area_at place self.now.areas).number ≡ number) }
        ensures different { AllPairs AreDifferentAreas self.now.areas }
    {
        place_of(&self.names, client, number)
    }

    /// The area at a place, without its cursors.
    pub fn area(&self, place: usize) -> AreaInfo
        requires { place < length self.now.areas }
        ensures client { result.client ≡ (area_at place self.now.areas).client }
        ensures number { result.number ≡ (area_at place self.now.areas).number }
        ensures stream { result.stream ≡ (area_at place self.now.areas).stream }
        ensures largest { result.largest ≡ (area_at place self.now.areas).largest }
        ensures reads { result.reads ≡ (area_at place self.now.areas).reads }
        ensures held { result.held ≡ (area_at place self.now.areas).held }
    {
        let row = self.rows[place];
        AreaInfo {
            client: row.client,
            number: row.number,
            stream: row.stream,
            largest: row.largest,
            reads: row.reads,
            held: self.reservations.held_at(place),
        }
    }

    /// How many areas a client has.
    pub fn count(&self, client: u16) -> usize
        ensures value { result ≡ length (client_areas client self.now.areas) }
        ensures state { (s : State) → s.areas ≡ self.now.areas → result ≡ length (areas_of s client) }
    {
        count_of(&self.rows, client)
    }

    /// The sectors that all areas hold.
    pub fn total(&self) -> u32
        ensures value { result ≡ all_held self.now.areas }
        ensures state { (s : State) → s.areas ≡ self.now.areas → result ≡ reserved s }
    {
        self.reservations.total()
    }

    /// A new area of a client, after the others. It holds nothing and has no cursors.
    pub fn create(
        &mut self,
        client: u16,
        stream: u16,
        largest: u32,
        reads: u16,
    ) -> Result<u16, AllocError>
        requires { length (client_areas client self.old.areas) < most_areas }
        ensures number { (s : State) → s.areas ≡ self.old.areas → IfOk result (λ number. number ≡ unused_area s client) }
        ensures areas { (s : State) → s.areas ≡ self.old.areas → OnOk result (self.new.areas ≡ self.old.areas ++ new_area s client stream largest reads ∷ []) }
        ensures err { OnErr result (self.new.areas ≡ self.old.areas) }
        ensures capacity { self.new.capacity ≡ self.old.capacity }
    {
        let number = least_unused(&self.rows, client);
        self.rows.reserve(1)?;
        self.names.reserve(1)?;
        self.reservations.add(client, number)?;
        if let Err(error) = self.cursors.add_area(reads) {
            self.reservations.remove(client, number);
            return Err(error);
        }
        let _added = self.names.insert(AreaName { client, number }).unwrap();
        self.rows.push_reserved(AreaRow {
            client,
            number,
            stream,
            largest,
            reads,
        });
        Ok(number)
    }

    /// The client's area of a number goes, where there is one, with its cursors and what it holds; those after it move down by one place. It
    /// takes no memory.
    pub fn delete(&mut self, client: u16, number: u16)
        ensures areas { self.new.areas ≡ filter (λ (area : Area). not (is_area client number area)) self.old.areas }
        ensures capacity { self.new.capacity ≡ self.old.capacity }
    {
        let Some(place) = place_of(&self.names, client, number) else {
            return;
        };
        self.rows.remove(place);
        let _name = self.names.shift_remove_index(place);
        self.cursors.remove_area(place);
        self.reservations.remove(client, number);
    }

    /// The area at a place holds so many sectors more. It takes no memory.
    pub fn hold(&mut self, place: usize, sectors: u32)
        requires there { place < length self.old.areas }
        requires few { all_held self.old.areas + sectors < 2 ^ 32 }
        ensures areas { let area = area_at place self.old.areas in
            self.new.areas ≡ change_first (is_area area.client area.number) (with_more_held sectors) self.old.areas }
        ensures area { area_at place self.new.areas ≡ with_more_held sectors (area_at place self.old.areas) }
        ensures places { length self.new.areas ≡ length self.old.areas }
        ensures capacity { self.new.capacity ≡ self.old.capacity }
    {
        self.reservations.hold_at(place, sectors);
    }

    /// The area at a place holds so many sectors less. It takes no memory.
    pub fn spend(&mut self, place: usize, sectors: u32)
        requires there { place < length self.old.areas }
        requires enough { sectors ≤ (area_at place self.old.areas).held }
        ensures areas { let area = area_at place self.old.areas in
            self.new.areas ≡ change_first (is_area area.client area.number) (with_less_held sectors) self.old.areas }
        ensures area { area_at place self.new.areas ≡ with_less_held sectors (area_at place self.old.areas) }
        ensures places { length self.new.areas ≡ length self.old.areas }
        ensures capacity { self.new.capacity ≡ self.old.capacity }
    {
        self.reservations.spend_at(place, sectors);
    }

    /// Whether the area at a place has as many cursors as it may.
    pub fn is_full(&self, place: usize) -> bool
        requires { place < length self.now.areas }
        ensures { let area = area_at place self.now.areas in result ≡ nat_le area.reads (length area.cursors) }
    {
        self.cursors.is_full(place)
    }

    /// How many cursors the area at a place has.
    pub fn cursor_count(&self, place: usize) -> usize
        requires { place < length self.now.areas }
        ensures { result ≡ length (area_at place self.now.areas).cursors }
    {
        self.cursors.count(place)
    }

    /// That the area at a place has as many cursors as it may, where it has.
    pub fn cursor_limit(&self, place: usize) -> Option<Refusal>
        requires there { place < length self.now.areas }
        requires few { length (area_at place self.now.areas).cursors < 2 ^ 32 }
        ensures { result ≡ too_many_cursors (area_at place self.now.areas) }
    {
        if !self.is_full(place) {
            return None;
        }
        let open_now = self.cursor_count(place) as u32;
        Some(Refusal::CursorLimit { open_now })
    }

    /// The cursor of a number of the area at a place, whatever it goes over.
    pub fn cursor(&self, place: usize, number: u16) -> Option<Cursor>
        requires { place < length self.now.areas }
        ensures cursor { result ≡ cursor_of (area_at place self.now.areas) number }
        ensures different { AllPairs (λ (a b : Cursor). a.number ≢ b.number) (area_at place self.now.areas).cursors }
    {
        self.cursors.cursor(place, number)
    }

    /// The cursor of a number that goes over records.
    pub fn over_records(&self, place: usize, number: u16) -> Option<Cursor>
        requires { place < length self.now.areas }
        ensures { result ≡ record_cursor (area_at place self.now.areas) number }
    {
        self.cursors.over_records(place, number)
    }

    /// The cursor of a number that goes over restart areas.
    pub fn over_restarts(&self, place: usize, number: u16) -> Option<Cursor>
        requires { place < length self.now.areas }
        ensures { result ≡ restart_cursor (area_at place self.now.areas) number }
    {
        self.cursors.over_restarts(place, number)
    }

    /// Takes memory for one more cursor.
    pub fn reserve_cursor(&mut self) -> Result<(), AllocError>
        ensures areas { self.new.areas ≡ self.old.areas }
        ensures room { OnOk result (HasRoom self.new) }
        ensures capacity { self.old.capacity ≤ self.new.capacity }
    {
        self.cursors.reserve()
    }

    /// A new cursor of the area at a place, at a record that was read. It takes no memory.
    pub fn start_cursor(&mut self, place: usize, kind: CursorKind, last: Lsn) -> u16
        requires there { place < length self.old.areas }
        requires few { length (area_at place self.old.areas).cursors < (area_at place self.old.areas).reads }
        requires room { HasRoom self.old }
        ensures number { result ≡ unused_cursor (area_at place self.old.areas).cursors }
        ensures areas { let area = area_at place self.old.areas in
            self.new.areas ≡ change_first (is_area area.client area.number) (with_cursor (record { number = result; kind = kind; last = last })) self.old.areas }
        ensures area { area_at place self.new.areas ≡ with_cursor (record { number = result; kind = kind; last = last }) (area_at place self.old.areas) }
        ensures places { length self.new.areas ≡ length self.old.areas }
        ensures capacity { self.new.capacity ≡ self.old.capacity }
    {
        self.cursors.start(place, kind, last)
    }

    /// The cursor of a number of the area at a place is at another record from now on. It takes no memory.
    pub fn move_cursor(&mut self, place: usize, number: u16, lsn: Lsn)
        requires { place < length self.old.areas }
        ensures areas { let area = area_at place self.old.areas in
            self.new.areas ≡ change_first (is_area area.client area.number) (with_cursor_at number lsn) self.old.areas }
        ensures area { area_at place self.new.areas ≡ with_cursor_at number lsn (area_at place self.old.areas) }
        ensures places { length self.new.areas ≡ length self.old.areas }
        ensures capacity { self.new.capacity ≡ self.old.capacity }
    {
        self.cursors.move_to(place, number, lsn);
    }

    /// The cursor of a number of the area at a place ends. It takes no memory.
    pub fn end_cursor(&mut self, place: usize, number: u16)
        requires { place < length self.old.areas }
        ensures areas { let area = area_at place self.old.areas in
            self.new.areas ≡ change_first (is_area area.client area.number) (without_cursor number) self.old.areas }
        ensures area { area_at place self.new.areas ≡ without_cursor number (area_at place self.old.areas) }
        ensures places { length self.new.areas ≡ length self.old.areas }
        ensures capacity { self.new.capacity ≡ self.old.capacity }
    {
        self.cursors.end(place, number);
    }
}
