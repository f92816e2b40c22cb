// The calls that read records. Each finds the head of its record in the tables first, or is refused by what these and the areas say. Then it
// takes the memory that a new cursor wants, gets the record, and makes or moves the cursor: so a call that is refused, or for which memory is
// wanting, leaves the log as it was.
ghost use Rattle.std.specs.Option.{option_and_then};
ghost use Rattle.std.specs.Prelude.{◌≡◌, ◌<◌, ℕ, length, IfOk};
ghost use Rattle.clfs_manager.specs.Machine.{change_area, IsClient, live_at, LogEntry, newest_restart, next_of_cursor, record_cursor, restart_cursor, unused_cursor, with_cursor, with_cursor_at};
ghost use Rattle.clfs_model.specs.declared.call.Call.TheVariants as calls;
ghost use Rattle.clfs_model.specs.declared.reply.Reply.TheVariants as replies;
ghost use Rattle.clfs_areas.specs.Table.{area_at};
ghost use Rattle.clfs_manager.specs.Memory.{IsSound};
ghost use Rattle.clfs_manager.specs.OnDisk.{IsOpen};
ghost use Rattle.clfs_manager.specs.Fetching.{IsNeededHead};
ghost use Rattle.clfs_manager.specs.Reading.{AnswersRead, GetsRecord, ReadLaws};

use crate::fetching::fetch;
use crate::log::Log;
use crate::manager::Manager;
use clfs_disk::Disk;
use clfs_laws::{
    refusals_are_the_calls_own, steps_keep_a_state_storable, steps_keep_a_state_valid,
};
use clfs_lsn::{Head, LogEntry, Lsn};
use clfs_model::{Cursor, CursorKind, Mode, Refusal, ways_of_a_step};

// What each of these calls cites of the log machine. This does nothing.
fn reading_laws()
    ensures { ReadLaws }
{
    ways_of_a_step();
    refusals_are_the_calls_own();
    steps_keep_a_state_valid();
    steps_keep_a_state_storable();
}

impl Log {
    // Gets a record, and makes a cursor of this kind at it, in the area at a place.
    fn start_reading<D: Disk>(
        &mut self,
        disk: &mut D,
        place: usize,
        head: Head,
        kind: CursorKind,
    ) -> Result<(u16, LogEntry), Refusal>
        requires sound { IsSound self.old }
        requires open { IsOpen (D.state disk.old) self.old.state.value self.old }
        requires there { place < length self.old.areas.areas }
        requires few { length (area_at place self.old.areas.areas).cursors < (area_at place self.old.areas.areas).reads }
        requires record { IsNeededHead self.old.state.value head }
        ensures gets { GetsRecord D.state (λ (found : ℕ × LogEntry). found.1) self.old.state.value head result self.new disk.old disk.new }
        ensures number { IfOk result (λ found. found.0 ≡ unused_cursor (area_at place self.old.areas.areas).cursors) }
        ensures state { IfOk result (λ found. let here = area_at place self.old.areas.areas in self.new.state.value
            ≡ change_area (with_cursor (record { number = found.0; kind = kind; last = head.lsn })) here.client here.number self.old.state.value) }
    {
        let last = head.lsn;
        let info = self.areas.area(place);
        self.areas.reserve_cursor()?;
        let entry = fetch(self, disk, head)?;
        let number = self.areas.start_cursor(place, kind, last);
        let cursor = Cursor { number, kind, last };
        self.state = self.state.next(&(info.client, info.number, cursor));
        Ok((number, entry))
    }

    // Gets a record, and moves the cursor of a number to it, in the area at a place.
    fn go_on_reading<D: Disk>(
        &mut self,
        disk: &mut D,
        place: usize,
        head: Head,
        cursor: u16,
    ) -> Result<LogEntry, Refusal>
        requires sound { IsSound self.old }
        requires open { IsOpen (D.state disk.old) self.old.state.value self.old }
        requires there { place < length self.old.areas.areas }
        requires record { IsNeededHead self.old.state.value head }
        ensures gets { GetsRecord D.state (λ (found : LogEntry). found) self.old.state.value head result self.new disk.old disk.new }
        ensures state { IfOk result (λ found. let here = area_at place self.old.areas.areas in self.new.state.value
            ≡ change_area (with_cursor_at cursor head.lsn) here.client here.number self.old.state.value) }
    {
        let last = head.lsn;
        let info = self.areas.area(place);
        let entry = fetch(self, disk, head)?;
        self.areas.move_cursor(place, cursor, last);
        self.state = self.state.next(&(info.client, info.number, cursor, last));
        Ok(entry)
    }
}

impl<D: Disk> Manager<D> {
    /// The live record of the area's stream at an LSN, and the number of a new cursor at it, which goes on from there in this mode.
    ///
    /// Refused in this order: `Broken`, `NoSuchArea`, `RecordNonexistent`, `CursorLimit` with the number of cursors that are open. After any
    /// other refusal than `DiskFault` and `Damaged` nothing has changed, and no cursor was made.
    pub fn read(
        &mut self,
        client: u16,
        area: u16,
        lsn: Lsn,
        mode: Mode,
    ) -> Result<(u16, LogEntry), Refusal>
        requires client { IsClient client }
        ensures { AnswersRead D.state client area (calls.Read area lsn mode) (λ (found : ℕ × LogEntry). replies.Found found.0 found.1) (λ (found : ℕ × LogEntry). found.1)
            (λ s here. live_at s here.stream lsn) result self.old self.new }
    {
        self.stored();
        reading_laws();
        if self.log.broken {
            return Err(Refusal::Broken);
        }
        let (place, head) = self.log.record_to_read(client, area, lsn)?;
        self.log
            .start_reading(&mut self.disk, place, head, CursorKind::Records(mode))
    }

    /// The record to which a cursor over records comes next, from 1 to 16 the cursor's number in the area. The cursor is at it then.
    ///
    /// Refused in this order: `Broken`, `NoSuchArea`, `NoSuchCursor`, and then `EndOfLog` forwards, `StartOfLog` along links, where no live record
    /// follows. After any other refusal than `DiskFault` and `Damaged` the cursor is where it was.
    pub fn read_next(&mut self, client: u16, area: u16, cursor: u16) -> Result<LogEntry, Refusal>
        requires client { IsClient client }
        ensures { AnswersRead D.state client area (calls.ReadNext area cursor) replies.Next (λ (found : LogEntry). found)
            (λ s here. option_and_then (next_of_cursor s here) (record_cursor here cursor)) result self.old self.new }
    {
        self.stored();
        reading_laws();
        if self.log.broken {
            return Err(Refusal::Broken);
        }
        let (place, head) = self.log.record_after(client, area, cursor)?;
        self.log.go_on_reading(&mut self.disk, place, head, cursor)
    }

    /// The newest restart area of the area's stream, and the number of a new cursor at it, which goes on to older ones.
    ///
    /// Refused in this order: `Broken`, `NoSuchArea`, `NoRestart` where no live restart area is there, `CursorLimit` with the number of cursors
    /// that are open. After any other refusal than `DiskFault` and `Damaged` nothing has changed, and no cursor was made.
    pub fn read_restart(&mut self, client: u16, area: u16) -> Result<(u16, LogEntry), Refusal>
        requires client { IsClient client }
        ensures { AnswersRead D.state client area (calls.ReadRestart area) (λ (found : ℕ × LogEntry). replies.Found found.0 found.1) (λ (found : ℕ × LogEntry). found.1)
            (λ s here. newest_restart s here.stream) result self.old self.new }
    {
        self.stored();
        reading_laws();
        if self.log.broken {
            return Err(Refusal::Broken);
        }
        let (place, head) = self.log.restart_to_read(client, area)?;
        self.log
            .start_reading(&mut self.disk, place, head, CursorKind::RestartAreas)
    }

    /// The restart area before the one at which a cursor over restart areas is, by its number in the area. The cursor is at it then.
    ///
    /// Refused in this order: `Broken`, `NoSuchArea`, `NoSuchCursor`, `NoRestart` where no older live one is there. After any other refusal than
    /// `DiskFault` and `Damaged` the cursor is where it was.
    pub fn previous_restart(
        &mut self,
        client: u16,
        area: u16,
        cursor: u16,
    ) -> Result<LogEntry, Refusal>
        requires client { IsClient client }
        ensures { AnswersRead D.state client area (calls.PreviousRestart area cursor) replies.Next (λ (found : LogEntry). found)
            (λ s here. option_and_then (next_of_cursor s here) (restart_cursor here cursor)) result self.old self.new }
    {
        self.stored();
        reading_laws();
        if self.log.broken {
            return Err(Refusal::Broken);
        }
        let (place, head) = self.log.restart_before(client, area, cursor)?;
        self.log.go_on_reading(&mut self.disk, place, head, cursor)
    }
}
