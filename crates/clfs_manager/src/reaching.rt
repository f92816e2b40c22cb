// Which record a call that reads comes to, by the tables and the areas, or why the call is refused: the area, the cursor or the record, and then
// the number of cursors, in the order of the log machine. Nothing is read of the disk here, and nothing changes.
ghost use Rattle.std.specs.Prelude.{◌≡◌, ◌<◌, length, Some, None, IfOk, IfErr};
ghost use Rattle.std.specs.Option.{option_and_then};
ghost use Rattle.clfs_model.specs.declared.call.Call.TheVariants as calls;
ghost use Rattle.clfs_manager.specs.Machine.{live_at, Mode, newest_restart, next_of_cursor, record_cursor, refusal, restart_cursor};
ghost use Rattle.clfs_areas.specs.Table.{area_at};
ghost use Rattle.clfs_manager.specs.Memory.{IsSound};
ghost use Rattle.clfs_manager.specs.Fetching.{Reaches};

use crate::log::Log;
use clfs_lsn::{Head, Lsn};
use clfs_model::{Refusal, records_are_as_their_heads};

impl Log {
    // Where the area of `read` stands and which record it reads, or why it is refused.
    pub(crate) fn record_to_read(
        &self,
        client: u16,
        area: u16,
        lsn: Lsn,
    ) -> Result<(usize, Head), Refusal>
        requires sound { IsSound self.now }
        ensures refused { IfErr result (λ first. (mode : Mode) → refusal self.now.state.value client (calls.Read area lsn mode) ≡ Some first) }
        ensures allowed { IfOk result (λ found. (mode : Mode) → refusal self.now.state.value client (calls.Read area lsn mode) ≡ None) }
        ensures reaches { IfOk result (λ found. Reaches self.now.state.value self.now.areas.areas client area found.0 found.1
            (λ here. live_at self.now.state.value here.stream lsn)) }
        ensures few { IfOk result (λ found. let here = area_at found.0 self.now.areas.areas in length here.cursors < here.reads) }
    {
        let place = self.area_place(client, area)?;
        let stream = self.area_stream(place);
        let Some(head) = self.tables.live_at(stream, lsn) else {
            return Err(Refusal::RecordNonexistent { lsn });
        };
        match self.areas.cursor_limit(place) {
            Some(refusal) => Err(refusal),
            None => Ok((place, head)),
        }
    }

    // The same of `read_restart`.
    pub(crate) fn restart_to_read(&self, client: u16, area: u16) -> Result<(usize, Head), Refusal>
        requires sound { IsSound self.now }
        ensures refused { IfErr result (λ first. refusal self.now.state.value client (calls.ReadRestart area) ≡ Some first) }
        ensures allowed { IfOk result (λ found. refusal self.now.state.value client (calls.ReadRestart area) ≡ None) }
        ensures reaches { IfOk result (λ found. Reaches self.now.state.value self.now.areas.areas client area found.0 found.1
            (λ here. newest_restart self.now.state.value here.stream)) }
        ensures few { IfOk result (λ found. let here = area_at found.0 self.now.areas.areas in length here.cursors < here.reads) }
    {
        let place = self.area_place(client, area)?;
        let stream = self.area_stream(place);
        let Some(head) = self.tables.newest_restart(stream) else {
            return Err(Refusal::NoRestart);
        };
        match self.areas.cursor_limit(place) {
            Some(refusal) => Err(refusal),
            None => Ok((place, head)),
        }
    }

    // The same of `read_next`.
    pub(crate) fn record_after(
        &self,
        client: u16,
        area: u16,
        cursor: u16,
    ) -> Result<(usize, Head), Refusal>
        requires sound { IsSound self.now }
        ensures refused { IfErr result (λ first. refusal self.now.state.value client (calls.ReadNext area cursor) ≡ Some first) }
        ensures allowed { IfOk result (λ found. refusal self.now.state.value client (calls.ReadNext area cursor) ≡ None) }
        ensures reaches { IfOk result (λ found. Reaches self.now.state.value self.now.areas.areas client area found.0 found.1
            (λ here. option_and_then (next_of_cursor self.now.state.value here) (record_cursor here cursor))) }
    {
        let place = self.area_place(client, area)?;
        records_are_as_their_heads();
        let stream = self.area_stream(place);
        let found = self.areas.over_records(place, cursor);
        let head = self.tables.after(stream, found)?;
        Ok((place, head))
    }

    // The same of `previous_restart`.
    pub(crate) fn restart_before(
        &self,
        client: u16,
        area: u16,
        cursor: u16,
    ) -> Result<(usize, Head), Refusal>
        requires sound { IsSound self.now }
        ensures refused { IfErr result (λ first. refusal self.now.state.value client (calls.PreviousRestart area cursor) ≡ Some first) }
        ensures allowed { IfOk result (λ found. refusal self.now.state.value client (calls.PreviousRestart area cursor) ≡ None) }
        ensures reaches { IfOk result (λ found. Reaches self.now.state.value self.now.areas.areas client area found.0 found.1
            (λ here. option_and_then (next_of_cursor self.now.state.value here) (restart_cursor here cursor))) }
    {
        let place = self.area_place(client, area)?;
        records_are_as_their_heads();
        let stream = self.area_stream(place);
        let found = self.areas.over_restarts(place, cursor);
        let head = self.tables.after(stream, found)?;
        Ok((place, head))
    }
}
