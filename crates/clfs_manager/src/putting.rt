// The small changes of which an append and a restart area are made: the open block is sealed, the log goes on in the next container, a record joins
// it. Each leaves a log that is as good as any: what is on the disk then is what a crash leaves. All memory that these want was taken before.
ghost use Rattle.std.specs.Prelude.{◌≡◌, ◌∷◌, List, slice_index, ◌-◌, ◌+◌, ◌<◌, ◌≤◌, ◌^◌, [], ℕ, IsOk, OnOk, OnErr, false, length};
ghost use Rattle.clfs_manager.specs.Machine.{begins_here, flush, head_of, hold, is_pending, IsReadyFor, joins, LogEntry, longest, making_ready_writes, MayPut, next_lsn, put, readied, ready_stages, seal, turned};
ghost use Rattle.clfs_queue.specs.Queued.{placing};
ghost use Rattle.clfs_record.specs.Fields.{placed_record};
ghost use Rattle.clfs_manager.specs.Changing.{ChangesLog, GoesThrough};
ghost use Rattle.clfs_manager.specs.Copying.{KeepsFiles};
ghost use Rattle.clfs_manager.specs.Crashes.{StoredMeanwhile};
ghost use Rattle.clfs_manager.specs.Flushing.{IsBroken, StoredAfter};
ghost use Rattle.clfs_manager.specs.Memory.{Holds, IsSound};
ghost use Rattle.clfs_manager.specs.Putting.{IsPutInMemory, KeepsRoom, MayTurnTo, TakesContainer, sealing_writes, unplaced};
ghost use Rattle.clfs_manager.specs.Storing.{CallsDisk};
ghost use Rattle.clfs_manager.specs.Written.{IsIntact, IsYetToForget, IsCurrent};

use crate::log::Log;
use clfs_archive::ends_of_blocks_go_on;
use clfs_disk::{Disk, Failed};
use clfs_laws::{
    logs_are_made_ready, numbers_fit_their_types, records_are_put, seals_and_flushes_keep_a_log,
};
use clfs_lsn::{Head, Kind, Lsn};
use clfs_model::State;
use clfs_queue::{Placing, a_record_goes_where_it_went, the_next_lsn_is_above_all};
use clfs_record::Fields;
use clfs_recover::{
    further_containers_begin_empty, logs_are_copies_and_blocks, low_containers_are_left_out,
    settings_leave_the_records,
};
use clfs_told::Told;

// The state once the open block is sealed.
fn sealed(state: &Told<State>) -> Told<State>
    ensures { result.value ≡ seal state.now.value }
{
    state.next(&())
}

// The state once the log goes on in the next container.
fn turned(state: &Told<State>) -> Told<State>
    ensures { result.value ≡ turned state.now.value }
{
    state.next(&())
}

// The state with one record more.
fn with_record(state: &Told<State>, fields: &Fields, bytes: &[u8]) -> Told<State>
    ensures { result.value ≡ put state.now.value (unplaced fields.now bytes.now) }
{
    state.next(&(fields, bytes))
}

// The head of a record with so many bytes of data.
fn head_of(lsn: Lsn, fields: &Fields, len: u32) -> Head
    ensures { (bytes : List ℕ) → length bytes ≡ len → result ≡ head_of (placed_record lsn fields.now bytes) }
{
    Head {
        lsn,
        previous: fields.previous,
        undo_next: fields.undo_next,
        new_base: fields.new_base,
        len,
        stream: fields.stream,
        kind: fields.kind,
    }
}

impl Log {
    // Which case of the rule for places comes for a record of so many bytes of data.
    pub fn placing(&self, len: u32) -> Placing
        requires sound { IsSound self.now }
        requires short { len ≤ longest self.now.state.value.shape }
        requires id { joins self.now.state.value.shape self.now.state.value.place len ≡ false
            → begins_here self.now.state.value.shape self.now.state.value.place len ≡ false → self.now.state.value.place.container + 1 < 2 ^ 32 }
        ensures { result ≡ placing self.now.state.value.shape self.now.state.value.place len }
    {
        self.queue.next(len)
    }

    // Writes all that isn't on the disk, where there is such. After a fault the log is broken.
    pub fn write_all<D: Disk>(&mut self, disk: &mut D) -> Result<(), Failed>
        requires intact { IsIntact (D.state disk.old) self.old }
        ensures change { ChangesLog IsIntact result (self.old.state.value ∷ []) (flush self.old.state.value) (D.state disk.old) (D.state disk.new) self.new }
        ensures room { OnOk result (KeepsRoom 1 self.old self.new) }
        ensures broken { OnErr result (IsBroken self.old self.new) }
        ensures quiet { is_pending self.old.state.value ≡ false → IsOk result × (disk.new ≡ disk.old) }
        ensures files { OnOk result (KeepsFiles (D.state disk.old) (D.state disk.new) self.old.physical self.new.physical) }
    {
        seals_and_flushes_keep_a_log();
        logs_are_copies_and_blocks();
        self.write_out(disk)
    }

    // Seals the open block, where there is one. Where as many blocks wait then as there are write buffers, all are written; after a fault in that the
    // log is broken.
    pub fn seal<D: Disk>(&mut self, disk: &mut D) -> Result<(), Failed>
        requires intact { IsIntact (D.state disk.old) self.old }
        ensures change { ChangesLog IsIntact result (self.old.state.value ∷ []) (seal self.old.state.value) (D.state disk.old) (D.state disk.new) self.new }
        ensures room { OnOk result (KeepsRoom 1 self.old self.new) }
        ensures broken { OnErr result (IsBroken self.old self.new) }
        ensures quiet { sealing_writes self.old.state.value ≡ false → IsOk result × (disk.new ≡ disk.old) }
        ensures files { OnOk result (KeepsFiles (D.state disk.old) (D.state disk.new) self.old.physical self.new.physical) }
    {
        seals_and_flushes_keep_a_log();
        logs_are_copies_and_blocks();
        if self.queue.place().records == 0 {
            return Ok(());
        }
        if self.queue.fills_buffers() {
            return self.write_all(disk);
        }
        self.end_block();
        self.state = sealed(&self.state);
        Ok(())
    }

    // Takes a file for the next container, where all is on the disk, and drops the containers below the hold's from the newest copy. In memory that
    // alone changes.
    fn take_container<D: Disk>(&mut self, disk: &mut D) -> Result<(), Failed>
        requires intact { IsIntact (D.state disk.old) self.old }
        requires may { MayTurnTo self.old.state.value }
        ensures takes { OnOk result (TakesContainer self.old.state.value self.new.physical.image) }
        ensures stored { OnOk result (StoredAfter (D.state disk.old) (D.state disk.new) self.old.state.value (turned self.old.state.value) self.old.physical self.new.physical) }
        ensures meanwhile { StoredMeanwhile (D.state disk.old) (D.state disk.new) self.old.state.value (turned self.old.state.value) self.old.physical }
        ensures same { self.new ≡ record self.old { physical = self.new.physical } }
        ensures calls { CallsDisk result self.old.physical.image (D.state disk.old) (D.state disk.new) }
        ensures current { OnOk result (IsCurrent self.new.physical.image) }
        ensures files { OnOk result (KeepsFiles (D.state disk.old) (D.state disk.new) self.old.physical self.new.physical) }
    {
        settings_leave_the_records();
        low_containers_are_left_out();
        further_containers_begin_empty();
        let _newest = self.physical.image();
        let first = self.hold().container();
        self.physical.turn(disk, first)
    }

    // Goes on in the next container, where all is on the disk: takes a file for it. Where nothing is needed that was there the hold goes on with the log,
    // and what lies below it is yet to be forgotten. After a fault the log is broken.
    fn turn<D: Disk>(&mut self, disk: &mut D) -> Result<(), Failed>
        requires intact { IsIntact (D.state disk.old) self.old }
        requires may { MayTurnTo self.old.state.value }
        ensures change { ChangesLog IsYetToForget result (self.old.state.value ∷ []) (turned self.old.state.value) (D.state disk.old) (D.state disk.new) self.new }
        ensures room { OnOk result (KeepsRoom 0 self.old self.new) }
        ensures broken { OnErr result (IsBroken self.old self.new) }
        ensures files { OnOk result (KeepsFiles (D.state disk.old) (D.state disk.new) self.old.physical self.new.physical) }
    {
        ends_of_blocks_go_on();
        logs_are_copies_and_blocks();
        if let Err(failed) = self.take_container(disk) {
            self.break_log();
            return Err(failed);
        }
        self.queue.turn();
        self.state = turned(&self.state);
        Ok(())
    }

    // Writes all that waits and goes on in the next container. Where the hold goes on too memory forgets what lies below it. After a fault the log is broken.
    fn begin_container<D: Disk>(&mut self, disk: &mut D) -> Result<(), Failed>
        requires intact { IsIntact (D.state disk.old) self.old }
        requires may { MayTurnTo (flush self.old.state.value) }
        ensures change { ChangesLog IsIntact result (self.old.state.value ∷ flush self.old.state.value ∷ [])
            (turned (flush self.old.state.value)) (D.state disk.old) (D.state disk.new) self.new }
        ensures room { OnOk result (KeepsRoom 1 self.old self.new) }
        ensures files { OnOk result (KeepsFiles (D.state disk.old) (D.state disk.new) self.old.physical self.new.physical) }
    {
        self.write_all(disk)?;
        self.turn(disk)?;
        self.forget_low();
        Ok(())
    }

    // Makes the log ready for a record of so many bytes of data: where that doesn't join the open block, this is sealed, and where it doesn't fit after
    // it either, all is written and the log goes on in the next container. After a fault the log is broken.
    pub fn make_ready<D: Disk>(&mut self, disk: &mut D, len: u32) -> Result<(), Failed>
        requires intact { IsIntact (D.state disk.old) self.old }
        requires may { (entry : LogEntry) × MayPut self.old.state.value entry × (length entry.bytes ≡ len) }
        ensures change { GoesThrough IsIntact result (ready_stages self.old.state.value len) (readied self.old.state.value len) (D.state disk.old) (D.state disk.new) self.new }
        ensures room { OnOk result (KeepsRoom 1 self.old self.new) }
        ensures quiet { making_ready_writes self.old.state.value len ≡ false → IsOk result × (disk.new ≡ disk.old) }
        ensures files { OnOk result (KeepsFiles (D.state disk.old) (D.state disk.new) self.old.physical self.new.physical) }
    {
        logs_are_made_ready();
        seals_and_flushes_keep_a_log();
        logs_are_copies_and_blocks();
        match self.placing(len) {
            Placing::Joins => Ok(()),
            Placing::BeginsBlock => self.seal(disk),
            Placing::BeginsContainer => self.begin_container(disk),
        }
    }

    // Puts a record into the log in memory, which is ready for it. Its LSN.
    pub fn put(&mut self, fields: &Fields, bytes: &[u8]) -> Lsn
        requires sound { IsSound self.old }
        requires may { MayPut self.old.state.value (unplaced fields.now bytes.now) }
        requires ready { IsReadyFor self.old.state.value (length bytes.now) }
        requires room { 1 ≤ slice_index self.old.tables.room (fields.now.stream - 1) }
        requires ends { 1 ≤ self.old.archive.room }
        ensures lsn { result ≡ next_lsn self.old.state.value (length bytes.now) }
        ensures state { self.new.state.value ≡ put self.old.state.value (unplaced fields.now bytes.now) }
        ensures holds { Holds self.new.state.value self.new }
        ensures same { IsPutInMemory self.old self.new }
    {
        records_are_put();
        numbers_fit_their_types();
        the_next_lsn_is_above_all();
        ends_of_blocks_go_on();
        let lsn = self.queue.push(fields, bytes);
        self.tables.put(head_of(lsn, fields, bytes.len() as u32));
        self.state = with_record(&self.state, fields, bytes);
        lsn
    }
}
