// The cursors of all areas.
ghost use Rattle.std.specs.Prelude.{◌≡◌, ◌<◌, ◌≤◌, ◌∷◌, ◌++◌, [], length, nat_le, OnOk, OnErr};
ghost use Rattle.std.specs.List.{remove};
ghost use Rattle.clfs_lsn.specs.Cursors.{is_over_restarts, cursor_in, record_cursor_in, restart_cursor_in, unused_cursor, cursors_moved, cursors_without};
ghost use Rattle.clfs_cursor.specs.Rows.{area_at, with_cursors, HasRoom, HaveDifferentNumbers};

use crate::keys::AreaKeys;
use crate::standing::{Standing, free, move_standing};
use clfs_lsn::{Cursor, CursorKind, Lsn};
use slab::Slab;
use std::alloc::{AllocError, Global};
use std::marker::Model;

/// The cursors of all areas. An area is told by its place among those that are there, in the order in which they were added, from 0 on.
#[derive(Drop)]
pub struct Cursors {
    slots: Slab<Standing>,
    rows: Vec<AreaKeys>,
}

impl Model for Cursors {
    ghost use Rattle.clfs_cursor.specs.Rows.{Table};

    ghost Value = { Table };

    ghost use Rattle.clfs_cursor.specs.Table.{table_of, IsOwned};

    ghost view = { table_of };

    ghost invariant = { IsOwned };
}

impl Cursors {
    /// No areas.
    pub fn new(alloc: Global) -> Cursors
        ensures { result.areas ≡ [] }
    {
        Cursors {
            slots: Slab::new(alloc),
            rows: Vec::new(alloc),
        }
    }

    /// One more area, after the others, which may have so many cursors and has none. Memory is taken for their keys.
    pub fn add_area(&mut self, reads: u16) -> Result<(), AllocError>
        ensures areas { OnOk result (self.new.areas ≡ self.old.areas ++ record { cursors = []; reads = reads } ∷ []) }
        ensures err { OnErr result (self.new.areas ≡ self.old.areas) }
        ensures capacity { self.new.capacity ≡ self.old.capacity }
    {
        let row = AreaKeys::new(*self.rows.allocator(), reads)?;
        self.rows.push(row)?;
        Ok(())
    }

    /// An area goes with its cursors, and those after it move down by one place. It takes no memory.
    pub fn remove_area(&mut self, place: usize)
        requires { place < length self.old.areas }
        ensures areas { self.new.areas ≡ remove self.old.areas place }
        ensures capacity { self.new.capacity ≡ self.old.capacity }
    {
        let row = self.rows.remove(place);
        free(&mut self.slots, row.as_slice());
    }

    /// How many cursors an area has.
    pub fn count(&self, place: usize) -> usize
        requires { place < length self.now.areas }
        ensures { result ≡ length (area_at place self.now.areas).cursors }
    {
        self.rows[place].len()
    }

    /// Whether an area has as many cursors as it may.
    pub fn is_full(&self, place: usize) -> bool
        requires { place < length self.now.areas }
        ensures { result ≡ nat_le (area_at place self.now.areas).reads (length (area_at place self.now.areas).cursors) }
    {
        self.rows[place].is_full()
    }

    /// Takes memory for one more cursor.
    pub fn reserve(&mut self) -> Result<(), AllocError>
        ensures areas { self.new.areas ≡ self.old.areas }
        ensures room { OnOk result (HasRoom self.new) }
        ensures capacity { self.old.capacity ≤ self.new.capacity }
    {
        self.slots.reserve(1)
    }

    /// A new cursor of an area at a record that was read, of the least number that none of the area has. It takes no memory.
    pub fn start(&mut self, place: usize, kind: CursorKind, last: Lsn) -> u16
        requires there { place < length self.old.areas }
        requires few { length (area_at place self.old.areas).cursors < (area_at place self.old.areas).reads }
        requires room { HasRoom self.old }
        ensures number { result ≡ unused_cursor (area_at place self.old.areas).cursors }
        ensures areas { self.new.areas ≡ with_cursors place ((area_at place self.old.areas).cursors ++ record { number = result; kind = kind; last = last } ∷ []) self.old.areas }
        ensures capacity { self.new.capacity ≡ self.old.capacity }
    {
        let number = self.rows[place].unused_number();
        let key = self.slots.insert_reserved(Standing { kind, last });
        let row = &mut self.rows[place];
        row.push(number, key);
        number
    }

    /// The cursor of a number of an area, whatever it goes over.
    pub fn cursor(&self, place: usize, number: u16) -> Option<Cursor>
        requires { place < length self.now.areas }
        ensures cursor { result ≡ cursor_in (area_at place self.now.areas).cursors number }
        ensures different { HaveDifferentNumbers (area_at place self.now.areas).cursors }
    {
        let key = self.rows[place].key(number)?;
        let standing = self.slots.get(key)?;
        Some(Cursor {
            number,
            kind: standing.kind,
            last: standing.last,
        })
    }

    /// The cursor of a number that goes over records.
    pub fn over_records(&self, place: usize, number: u16) -> Option<Cursor>
        requires { place < length self.now.areas }
        ensures { result ≡ record_cursor_in (area_at place self.now.areas).cursors number }
    {
        let cursor = self.cursor(place, number)?;
        if is_over_restarts(cursor.kind) {
            return None;
        }
        Some(cursor)
    }

    /// The cursor of a number that goes over restart areas.
    pub fn over_restarts(&self, place: usize, number: u16) -> Option<Cursor>
        requires { place < length self.now.areas }
        ensures { result ≡ restart_cursor_in (area_at place self.now.areas).cursors number }
    {
        let cursor = self.cursor(place, number)?;
        if is_over_restarts(cursor.kind) {
            return Some(cursor);
        }
        None
    }

    /// The cursor of a number is at another record from now on.
    pub fn move_to(&mut self, place: usize, number: u16, lsn: Lsn)
        requires { place < length self.old.areas }
        ensures areas { self.new.areas ≡ with_cursors place (cursors_moved number lsn (area_at place self.old.areas).cursors) self.old.areas }
        ensures places { length self.new.areas ≡ length self.old.areas }
        ensures capacity { self.new.capacity ≡ self.old.capacity }
    {
        let Some(key) = self.rows[place].key(number) else {
            return;
        };
        move_standing(&mut self.slots, key, lsn);
    }

    /// The cursor of a number ends. It takes no memory.
    pub fn end(&mut self, place: usize, number: u16)
        requires { place < length self.old.areas }
        ensures areas { self.new.areas ≡ with_cursors place (cursors_without number (area_at place self.old.areas).cursors) self.old.areas }
        ensures places { length self.new.areas ≡ length self.old.areas }
        ensures capacity { self.new.capacity ≡ self.old.capacity }
    {
        let Some(key) = self.rows[place].key(number) else {
            return;
        };
        let row = &mut self.rows[place];
        row.remove(number);
        let _ended = self.slots.remove(key);
    }
}

// Whether a cursor goes over restart areas.
fn is_over_restarts(kind: CursorKind) -> bool
    ensures { result ≡ is_over_restarts kind }
{
    match kind {
        CursorKind::Records(_) => false,
        CursorKind::RestartAreas => true,
    }
}
