// Writing a restart area: the newest data by which the owner of a stream restarts, and with it, in one step, the new base of the stream. The restart area
// is a record, which joins the log as any other, and then the log is flushed. Its record carries the new base, so that a crash leaves both of them or
// none; no base copy is written. Until the flush is done the base stays where it was, in memory too.
ghost use Rattle.std.specs.Prelude.{◌≡◌, ◌<◌, ◌≤◌, ◌^◌, ◌==◌, ◌∷◌, ◌++◌, ℕ, Bool, List, [], None, Some, false, true, length, IfErr, IfOk, IsErrOf, IsSome, OnErr, OnOk};
ghost use Rattle.clfs_manager.specs.Machine.{Area, asks, bad_line, flush, is_of_call, IsClient, MayMove, next_lsn, null_lsn, put, ready_stages, rebased, refusal, restart_record, restart_refusal, spend_if, spent_of, stream_at, TakesThrough};
ghost use Rattle.clfs_model.specs.declared.call.Call.TheVariants as calls;
ghost use Rattle.clfs_model.specs.declared.reply.Reply.TheVariants as replies;
ghost use Rattle.clfs_areas.specs.Table.{area_at};
ghost use Rattle.clfs_tables.specs.Tables.{IsNumber, base_in};
ghost use Rattle.clfs_manager.specs.Calls.{Steps, WritesAs};
ghost use Rattle.clfs_manager.specs.Changing.{ChangesLog, GoesThrough};
ghost use Rattle.clfs_manager.specs.Copying.{CountsFiles, KeepsFiles};
ghost use Rattle.clfs_manager.specs.Crashes.{CrashLeavesSurvivor};
ghost use Rattle.clfs_manager.specs.Fetching.{IsLeft};
ghost use Rattle.clfs_manager.specs.Flushing.{IsBroken};
ghost use Rattle.clfs_manager.specs.Laid.{IsLaidLog};
ghost use Rattle.clfs_manager.specs.Memory.{IsSound};
ghost use Rattle.clfs_manager.specs.OnDisk.{IsOpen};
ghost use Rattle.clfs_manager.specs.Putting.{FindsArea, HasMemory, unplaced};
ghost use Rattle.clfs_manager.specs.Restarts.{MayFinish, rebased_streams};
ghost use Rattle.clfs_manager.specs.Written.{IsIntact, IsYetToForget, WritesDisk};

use crate::appending::kept;
use crate::log::{Log, broken};
use crate::manager::Manager;
use crate::survivors::calls_follow_laws;
use clfs_disk::{Disk, Failed};
use clfs_laws::{
    calls_that_pass_find_room, growth_keeps_a_log_whole, logs_are_made_ready, records_are_put,
    refusals_are_the_calls_own, seals_and_flushes_keep_a_log, small_changes_make_the_calls,
    states_between_survive,
};
use clfs_lsn::{Bytes, Kind, Lsn};
use clfs_model::{Refusal, State, ways_of_a_step};
use clfs_queue::the_next_lsn_is_above_all;
use clfs_record::Fields;
use clfs_recover::{groups_come_behind_the_last_block, logs_are_copies_and_blocks};
use clfs_room::need_of;
use clfs_tables::Tables;
use clfs_told::Told;

// The state with the base of a stream moved, where there is a new one.
fn rebased(state: &Told<State>, stream: u16, base: Lsn) -> Told<State>
    ensures { result.value ≡ rebased stream base state.now.value }
{
    state.next(&(stream, base))
}

// The base of a stream moves in the tables, where there is a new one.
fn move_base(tables: &mut Tables, stream: u16, base: Lsn)
    requires there { IsNumber tables.old.streams stream }
    requires up { (base == null_lsn) ≡ false → base_in tables.old.streams stream ≤ base }
    ensures streams { tables.new.streams ≡ rebased_streams stream base tables.old.streams }
    ensures heads { tables.new.heads ≡ tables.old.heads }
    ensures low { tables.new.low ≡ tables.old.low }
{
    if base != Lsn::null() {
        tables.set_base(stream, base);
    }
}

impl Log {
    // What the record of a restart area of a stream says beside its data: the link goes to the one before it.
    fn restart_fields(&self, stream: u16, base: Lsn) -> Fields
        requires sound { IsSound self.now }
        requires there { IsSome (stream_at self.now.state.value stream) }
        ensures stream { result.stream ≡ stream }
        ensures base { result.new_base ≡ base }
        ensures record { (area : Area) (bytes : List ℕ) → area.stream ≡ stream → unplaced result bytes ≡ restart_record self.now.state.value area bytes base }
    {
        Fields {
            stream,
            kind: Kind::Restart,
            previous: self.tables.last_restart(stream),
            undo_next: Lsn::null(),
            new_base: base,
        }
    }

    // The log ends in a restart area, which isn't on the disk yet: all that waits is written, and then the base moves, where there is a new one. What
    // lies below the hold is yet to be forgotten. After a fault the log is broken.
    fn store_restart<D: Disk>(&mut self, disk: &mut D, stream: u16, base: Lsn) -> Result<(), Failed>
        requires laid { IsLaidLog self.old }
        requires opened { IsOpen (D.state disk.old) self.old.state.value self.old }
        requires may { MayFinish self.old.state.value stream base }
        ensures change { ChangesLog IsYetToForget result (self.old.state.value ∷ []) (rebased stream base (flush self.old.state.value)) (D.state disk.old) (D.state disk.new) self.new }
        ensures broken { OnErr result (IsBroken self.old self.new) }
        ensures files { OnOk result (KeepsFiles (D.state disk.old) (D.state disk.new) self.old.physical self.new.physical) }
    {
        seals_and_flushes_keep_a_log();
        groups_come_behind_the_last_block();
        logs_are_copies_and_blocks();
        let _newest = self.physical.image();
        self.write_group(disk)?;
        move_base(&mut self.tables, stream, base);
        self.state = rebased(&self.state, stream, base);
        Ok(())
    }

    // The same, and nothing below the hold, which has moved with the base, is kept in memory.
    pub(crate) fn finish_restart<D: Disk>(
        &mut self,
        disk: &mut D,
        stream: u16,
        base: Lsn,
    ) -> Result<(), Failed>
        requires laid { IsLaidLog self.old }
        requires opened { IsOpen (D.state disk.old) self.old.state.value self.old }
        requires may { MayFinish self.old.state.value stream base }
        ensures change { ChangesLog IsIntact result (self.old.state.value ∷ []) (rebased stream base (flush self.old.state.value)) (D.state disk.old) (D.state disk.new) self.new }
        ensures broken { OnErr result (IsBroken self.old self.new) }
        ensures files { OnOk result (KeepsFiles (D.state disk.old) (D.state disk.new) self.old.physical self.new.physical) }
    {
        self.store_restart(disk, stream, base)?;
        self.forget_low();
        Ok(())
    }

    // Writes the restart area of these fields and data through the area at a place to a log that has grown for it, and for which all memory was taken.
    // After a fault the log is broken.
    fn restart_grown<D: Disk>(
        &mut self,
        disk: &mut D,
        place: usize,
        fields: &Fields,
        bytes: &[u8],
        reserved: bool,
    ) -> Result<Lsn, Failed>
        requires intact { IsIntact (D.state disk.old) self.old }
        requires place { place < length self.old.areas.areas }
        requires enough { spent_of reserved (length bytes.now) ≤ (area_at place self.old.areas.areas).held }
        requires takes { let area = area_at place self.old.areas.areas in
            TakesThrough (spend_if reserved area (length bytes.now) self.old.state.value) area (unplaced fields.now bytes.now) 0 }
        requires base { let area = area_at place self.old.areas.areas in
            MayMove (spend_if reserved area (length bytes.now) self.old.state.value) fields.now.stream fields.now.new_base }
        requires memory { HasMemory fields.now.stream self.old }
        ensures lsn { let area = area_at place self.old.areas.areas in
            IfOk result (λ lsn. lsn ≡ next_lsn (spend_if reserved area (length bytes.now) self.old.state.value) (length bytes.now)) }
        ensures change { let area = area_at place self.old.areas.areas in
            let u = spend_if reserved area (length bytes.now) self.old.state.value in
            let joined = put u (unplaced fields.now bytes.now) in
            let last = rebased fields.now.stream fields.now.new_base (flush joined) in
            GoesThrough IsIntact result (ready_stages u (length bytes.now) ++ joined ∷ last ∷ []) last (D.state disk.old) (D.state disk.new) self.new }
        ensures files { OnOk result (KeepsFiles (D.state disk.old) (D.state disk.new) self.old.physical self.new.physical) }
    {
        records_are_put();
        logs_are_made_ready();
        the_next_lsn_is_above_all();
        self.spend(place, reserved, bytes.len() as u32);
        let lsn = self.put_record(disk, fields, bytes)?;
        self.finish_restart(disk, fields.stream, fields.new_base)?;
        Ok(lsn)
    }

    // The place of the area through which a restart area is written, or why it is refused.
    fn area_to_restart(
        &self,
        client: u16,
        area: u16,
        bytes: &[u8],
        base: Lsn,
        reserved: bool,
    ) -> Result<usize, Refusal>
        requires sound { IsSound self.now }
        requires len { length bytes.now < 2 ^ 32 }
        ensures finds { FindsArea self.now client area (calls.WriteRestart area bytes.now base reserved) result }
        ensures passes { IfOk result (λ place. restart_refusal self.now.state.value (area_at place self.now.areas.areas) bytes.now base reserved ≡ None) }
    {
        let place = self.area_for_records(client, area)?;
        match self.restart_refusal(place, bytes, base, reserved) {
            Some(refusal) => Err(refusal),
            None => Ok(place),
        }
    }

    // `write_restart` of a log that isn't broken.
    fn write_restart<D: Disk>(
        &mut self,
        disk: &mut D,
        client: u16,
        area: u16,
        bytes: &Bytes,
        base: Lsn,
        reserved: bool,
    ) -> Result<Lsn, Refusal>
        requires intact { IsIntact (D.state disk.old) self.old }
        requires len { length bytes.now < 2 ^ 32 }
        ensures step { (told : Bool)
            → Steps told self.old.state.value client (calls.WriteRestart area bytes.now base reserved) replies.Placed result self.new.state.value }
        ensures left { IsLeft (D.state disk.new) self.new }
        ensures writes { WritesDisk (IsErrOf result Refusal.DiskFault) (D.state disk.old) (D.state disk.new) }
        ensures moments { CrashLeavesSurvivor (asks client (calls.WriteRestart area bytes.now base reserved)) self.old.state.value (D.state disk.old) (D.state disk.new) }
        ensures no_memory { IsErrOf result Refusal.NoMemory → CrashLeavesSurvivor (bad_line 0) self.old.state.value (D.state disk.old) (D.state disk.new) }
        ensures refused { IfErr result (λ refusal. is_of_call refusal ≡ true → disk.new ≡ disk.old) }
        ensures files { (IsErrOf result Refusal.DiskFault → ⊥) → CountsFiles (D.state disk.old) (D.state disk.new) self.old self.new }
    {
        refusals_are_the_calls_own();
        ways_of_a_step();
        growth_keeps_a_log_whole();
        calls_that_pass_find_room();
        logs_are_made_ready();
        small_changes_make_the_calls();
        states_between_survive();
        logs_are_copies_and_blocks();
        let data = bytes.as_slice();
        let len = data.len() as u32;
        let place = self.area_to_restart(client, area, data, base, reserved)?;
        let stream = self.areas.area(place).stream;
        let fields = self.restart_fields(stream, base);
        let before = kept(&self.state);
        self.prepare(disk, stream, need_of(reserved, len, &[]))?;
        match self.restart_grown(disk, place, &fields, data, reserved) {
            Ok(lsn) => Ok(lsn),
            Err(Failed) => {
                self.state = broken(&before);
                Err(Refusal::DiskFault)
            }
        }
    }
}

impl<D: Disk> Manager<D> {
    /// Writes a restart area to the stream of the client's area of a number, and gives its LSN: the whole log is on the disk then, and with the restart area
    /// the new base of the stream, where there is one; a null base moves none. A reserved one takes its sectors from those that the area holds. It links to
    /// the newest live restart area before it.
    ///
    /// Refused in this order: `Broken`, `NotEnoughContainers`, `NoSuchArea`, `RecordTooLong`, `TailInvalid` for the new base, `ReservationShort`, `Full`.
    /// After any refusal but `DiskFault` nothing has changed.
    pub fn write_restart(
        &mut self,
        client: u16,
        area: u16,
        bytes: &Bytes,
        base: Lsn,
        reserved: bool,
    ) -> Result<Lsn, Refusal>
        requires client { IsClient client }
        requires len { length bytes.now < 2 ^ 32 }
        ensures call { WritesAs D.state client (calls.WriteRestart area bytes.now base reserved) replies.Placed result self.old self.new }
    {
        calls_follow_laws();
        if self.log.broken {
            return Err(Refusal::Broken);
        }
        self.log
            .write_restart(&mut self.disk, client, area, bytes, base, reserved)
    }
}
