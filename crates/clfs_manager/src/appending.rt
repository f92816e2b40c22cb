// Appending a record. All memory is taken first, so that a call for which it is wanting leaves the log as it was. Then the log grows where it is to,
// the area spends what a reserved record takes, the log is made ready, and the record joins it in memory: an append that asks for nothing more makes
// no call on the disk unless its record begins a container or seals the last block that may wait. Last, the area holds sectors for records to come,
// and the block is sealed and the log flushed where that is asked for.
ghost use Rattle.std.specs.Prelude.{◌≡◌, ◌<◌, ◌≤◌, ◌^◌, ◌∷◌, ◌++◌, [], Bool, IsOk, IsErrOf, IsSome, IfOk, IfErr, OnOk, None, Some, false, true, length};
ghost use Rattle.clfs_manager.specs.Machine.{append_refusal, Area, asks, bad_line, calls_disk, change_area, fills_buffers, flush_if, hold_sizes, is_of_call, IsClient, IsStorable, IsValid, making_ready_writes, MayPut, next_lsn, own, own_sum, Plain, plain_record, put, ready_stages, refusal, seal_if, spend_if, spent_of, stream_at, TakesThrough, with_less_held};
ghost use Rattle.clfs_model.specs.declared.call.Call.TheVariants as calls;
ghost use Rattle.clfs_model.specs.declared.reply.Reply.TheVariants as replies;
ghost use Rattle.clfs_areas.specs.Table.{area_at};
ghost use Rattle.clfs_manager.specs.Calls.{Steps, WritesAs};
ghost use Rattle.clfs_manager.specs.Changing.{ChangesLog, GoesThrough};
ghost use Rattle.clfs_manager.specs.Copying.{CountsFiles, KeepsFiles};
ghost use Rattle.clfs_manager.specs.Crashes.{CrashLeavesSurvivor};
ghost use Rattle.clfs_manager.specs.Fetching.{IsLeft};
ghost use Rattle.clfs_manager.specs.Memory.{ChangesAreas, IsSound};
ghost use Rattle.clfs_manager.specs.Putting.{FindsArea, HasMemory, HasSameLog, KeepsArea, unplaced};
ghost use Rattle.clfs_manager.specs.Written.{IsIntact, IsOpenWith, WritesDisk};

use crate::log::{Log, broken};
use crate::manager::Manager;
use crate::survivors::calls_follow_laws;
use clfs_disk::{Disk, Failed};
use clfs_laws::{
    areas_hold_sectors, calls_that_pass_find_room, growth_keeps_a_log_whole, logs_are_made_ready,
    quiet_appends_want_no_disk, records_are_put, refusals_are_the_calls_own,
    small_changes_make_the_calls, states_between_survive,
};
use clfs_lsn::{Kind, Lsn, Sizes, own};
use clfs_model::{Draft, Refusal, State, ways_of_a_step};
use clfs_queue::{Placing, the_next_lsn_is_above_all};
use clfs_record::Fields;
use clfs_recover::logs_are_copies_and_blocks;
use clfs_room::need_of;
use clfs_told::Told;
use std::alloc::AllocError;

// The state once a reserved record has taken its sectors from its area.
fn spent(state: &Told<State>, client: u16, area: u16, len: u32) -> Told<State>
    ensures { result.value ≡ change_area (with_less_held (own len)) client area state.now.value }
{
    state.next(&(client, area, len))
}

// A state that is kept.
pub(crate) fn kept(state: &Told<State>) -> Told<State>
    ensures { result.value ≡ state.now.value }
{
    state.next(&())
}

impl Log {
    // Takes all memory that a record of the stream of this number wants: for its head, and for the ends of two blocks.
    pub fn take_memory(&mut self, stream: u16) -> Result<(), AllocError>
        requires sound { IsSound self.old }
        requires there { IsSome (stream_at self.old.state.value stream) }
        ensures same { HasSameLog self.old self.new }
        ensures memory { OnOk result (HasMemory stream self.new) }
    {
        self.tables.reserve(stream)?;
        self.archive.reserve(2)?;
        Ok(())
    }

    // The area at a place spends the sectors of a record of so many bytes of data, where this is a reserved one.
    pub fn spend(&mut self, place: usize, reserved: bool, len: u32)
        requires sound { IsSound self.old }
        requires place { place < length self.old.areas.areas }
        requires enough { spent_of reserved len ≤ (area_at place self.old.areas.areas).held }
        requires valid { IsValid (spend_if reserved (area_at place self.old.areas.areas) len self.old.state.value) }
        requires storable { IsStorable (spend_if reserved (area_at place self.old.areas.areas) len self.old.state.value) }
        ensures state { self.new.state.value ≡ spend_if reserved (area_at place self.old.areas.areas) len self.old.state.value }
        ensures sound { IsSound self.new }
        ensures areas { ChangesAreas self.old self.new }
        ensures area { KeepsArea place self.old self.new }
    {
        if !reserved {
            return;
        }
        let area = self.areas.area(place);
        self.areas.spend(place, own(len));
        self.state = spent(&self.state, area.client, area.number, len);
    }

    // Puts a record into the log, for which all memory was taken. After a fault the log is broken.
    pub fn put_record<D: Disk>(
        &mut self,
        disk: &mut D,
        fields: &Fields,
        bytes: &[u8],
    ) -> Result<Lsn, Failed>
        requires intact { IsIntact (D.state disk.old) self.old }
        requires may { MayPut self.old.state.value (unplaced fields.now bytes.now) }
        requires memory { HasMemory fields.now.stream self.old }
        ensures lsn { IfOk result (λ lsn. lsn ≡ next_lsn self.old.state.value (length bytes.now)) }
        ensures change { GoesThrough (IsOpenWith self.old.areas) result (ready_stages self.old.state.value (length bytes.now))
            (put self.old.state.value (unplaced fields.now bytes.now)) (D.state disk.old) (D.state disk.new) self.new }
        ensures quiet { making_ready_writes self.old.state.value (length bytes.now) ≡ false → IsOk result × (disk.new ≡ disk.old) }
        ensures files { OnOk result (KeepsFiles (D.state disk.old) (D.state disk.new) self.old.physical self.new.physical) }
    {
        logs_are_made_ready();
        records_are_put();
        the_next_lsn_is_above_all();
        self.make_ready(disk, bytes.len() as u32)?;
        Ok(self.put(fields, bytes))
    }

    // Seals the open block where that is asked for. After a fault the log is broken.
    fn seal_if<D: Disk>(&mut self, disk: &mut D, asked: bool) -> Result<(), Failed>
        requires intact { IsIntact (D.state disk.old) self.old }
        ensures change { ChangesLog IsIntact result (self.old.state.value ∷ []) (seal_if asked self.old.state.value) (D.state disk.old) (D.state disk.new) self.new }
        ensures quiet { (asked ≡ true → fills_buffers self.old.state.value ≡ false) → IsOk result × (disk.new ≡ disk.old) }
        ensures files { OnOk result (KeepsFiles (D.state disk.old) (D.state disk.new) self.old.physical self.new.physical) }
    {
        logs_are_copies_and_blocks();
        if asked {
            return self.seal(disk);
        }
        Ok(())
    }

    // Writes all that waits where that is asked for. After a fault the log is broken.
    fn flush_if<D: Disk>(&mut self, disk: &mut D, asked: bool) -> Result<(), Failed>
        requires intact { IsIntact (D.state disk.old) self.old }
        ensures change { ChangesLog IsIntact result (self.old.state.value ∷ []) (flush_if asked self.old.state.value) (D.state disk.old) (D.state disk.new) self.new }
        ensures quiet { asked ≡ false → IsOk result × (disk.new ≡ disk.old) }
        ensures files { OnOk result (KeepsFiles (D.state disk.old) (D.state disk.new) self.old.physical self.new.physical) }
    {
        logs_are_copies_and_blocks();
        if asked {
            return self.write_all(disk);
        }
        Ok(())
    }

    // Seals the open block and writes all that waits, each where it is asked for. After a fault the log is broken.
    fn finish<D: Disk>(&mut self, disk: &mut D, seal: bool, flush: bool) -> Result<(), Failed>
        requires intact { IsIntact (D.state disk.old) self.old }
        ensures change { ChangesLog IsIntact result (self.old.state.value ∷ seal_if seal self.old.state.value ∷ [])
            (flush_if flush (seal_if seal self.old.state.value)) (D.state disk.old) (D.state disk.new) self.new }
        ensures quiet { (seal ≡ true → fills_buffers self.old.state.value ≡ false) → flush ≡ false → IsOk result × (disk.new ≡ disk.old) }
        ensures files { OnOk result (KeepsFiles (D.state disk.old) (D.state disk.new) self.old.physical self.new.physical) }
    {
        self.seal_if(disk, seal)?;
        self.flush_if(disk, flush)
    }

    // Puts the record of a draft through the area at a place into a log that has grown for it, and for which all memory was taken. After a fault the log is
    // broken.
    fn put_draft<D: Disk>(
        &mut self,
        disk: &mut D,
        place: usize,
        draft: &Draft,
        reserved: bool,
    ) -> Result<Lsn, Failed>
        requires intact { IsIntact (D.state disk.old) self.old }
        requires place { place < length self.old.areas.areas }
        requires enough { spent_of reserved (length draft.now.bytes) ≤ (area_at place self.old.areas.areas).held }
        requires valid { IsValid (spend_if reserved (area_at place self.old.areas.areas) (length draft.now.bytes) self.old.state.value) }
        requires storable { IsStorable (spend_if reserved (area_at place self.old.areas.areas) (length draft.now.bytes) self.old.state.value) }
        requires may { let area = area_at place self.old.areas.areas in
            MayPut (spend_if reserved area (length draft.now.bytes) self.old.state.value) (plain_record area draft.now) }
        requires memory { HasMemory (area_at place self.old.areas.areas).stream self.old }
        ensures lsn { let area = area_at place self.old.areas.areas in
            IfOk result (λ lsn. lsn ≡ next_lsn (spend_if reserved area (length draft.now.bytes) self.old.state.value) (length draft.now.bytes)) }
        ensures change { let area = area_at place self.old.areas.areas in
            let u = spend_if reserved area (length draft.now.bytes) self.old.state.value in
            GoesThrough IsIntact result (ready_stages u (length draft.now.bytes)) (put u (plain_record area draft.now)) (D.state disk.old) (D.state disk.new) self.new }
        ensures area { OnOk result (KeepsArea place self.old self.new) }
        ensures quiet { let area = area_at place self.old.areas.areas in
            making_ready_writes (spend_if reserved area (length draft.now.bytes) self.old.state.value) (length draft.now.bytes) ≡ false
            → IsOk result × (disk.new ≡ disk.old) }
        ensures files { OnOk result (KeepsFiles (D.state disk.old) (D.state disk.new) self.old.physical self.new.physical) }
    {
        records_are_put();
        let fields = plain_fields(self.areas.area(place).stream, draft);
        self.spend(place, reserved, draft.bytes.len() as u32);
        self.put_record(disk, &fields, draft.bytes.as_slice())
    }

    // Appends the record of a draft through the area at a place to a log that has grown for it, and for which all memory was taken. After a fault the
    // log is broken.
    fn append_grown<D: Disk>(
        &mut self,
        disk: &mut D,
        place: usize,
        draft: &Draft,
        reserved: bool,
        sizes: &Sizes,
    ) -> Result<Lsn, Failed>
        requires intact { IsIntact (D.state disk.old) self.old }
        requires place { place < length self.old.areas.areas }
        requires enough { spent_of reserved (length draft.now.bytes) ≤ (area_at place self.old.areas.areas).held }
        requires takes { let area = area_at place self.old.areas.areas in
            TakesThrough (spend_if reserved area (length draft.now.bytes) self.old.state.value) area (plain_record area draft.now) (own_sum sizes.now) }
        requires memory { HasMemory (area_at place self.old.areas.areas).stream self.old }
        ensures lsn { let area = area_at place self.old.areas.areas in
            IfOk result (λ lsn. lsn ≡ next_lsn (spend_if reserved area (length draft.now.bytes) self.old.state.value) (length draft.now.bytes)) }
        ensures change { let area = area_at place self.old.areas.areas in
            let u = spend_if reserved area (length draft.now.bytes) self.old.state.value in
            let held = hold_sizes area sizes.now (put u (plain_record area draft.now)) in
            let last = flush_if draft.now.flush (seal_if draft.now.seal held) in
            GoesThrough IsIntact result (ready_stages u (length draft.now.bytes) ++ held ∷ seal_if draft.now.seal held ∷ last ∷ []) last (D.state disk.old) (D.state disk.new) self.new }
        ensures quiet { let area = area_at place self.old.areas.areas in
            let t = spend_if reserved area (length draft.now.bytes) self.old.state.value in
            making_ready_writes t (length draft.now.bytes) ≡ false
            → (draft.now.seal ≡ true → fills_buffers (hold_sizes area sizes.now (put t (plain_record area draft.now))) ≡ false) → draft.now.flush ≡ false
            → IsOk result × (disk.new ≡ disk.old) }
        ensures files { OnOk result (KeepsFiles (D.state disk.old) (D.state disk.new) self.old.physical self.new.physical) }
    {
        areas_hold_sectors();
        let lsn = self.put_draft(disk, place, draft, reserved)?;
        self.hold_sizes(place, sizes);
        self.finish(disk, draft.seal, draft.flush)?;
        Ok(lsn)
    }

    // The place of the area through which a record is appended, or why it is refused.
    fn area_to_append(
        &self,
        client: u16,
        area: u16,
        draft: &Draft,
        reserved: bool,
        sizes: &Sizes,
    ) -> Result<usize, Refusal>
        requires sound { IsSound self.now }
        requires len { length draft.now.bytes < 2 ^ 32 }
        ensures finds { FindsArea self.now client area (calls.Append area draft.now reserved sizes.now) result }
        ensures passes { IfOk result (λ place. append_refusal self.now.state.value (area_at place self.now.areas.areas) draft.now reserved sizes.now ≡ None) }
    {
        let place = self.area_for_records(client, area)?;
        match self.append_refusal(place, draft, reserved, sizes) {
            Some(refusal) => Err(refusal),
            None => Ok(place),
        }
    }

    // `append` of a log that isn't broken.
    fn append<D: Disk>(
        &mut self,
        disk: &mut D,
        client: u16,
        area: u16,
        draft: &Draft,
        reserved: bool,
        sizes: &Sizes,
    ) -> Result<Lsn, Refusal>
        requires intact { IsIntact (D.state disk.old) self.old }
        requires len { length draft.now.bytes < 2 ^ 32 }
        ensures step { (told : Bool)
            → Steps told self.old.state.value client (calls.Append area draft.now reserved sizes.now) replies.Placed result self.new.state.value }
        ensures left { IsLeft (D.state disk.new) self.new }
        ensures quiet { calls_disk self.old.state.value (calls.Append area draft.now reserved sizes.now) ≡ false → disk.new ≡ disk.old }
        ensures writes { WritesDisk (IsErrOf result Refusal.DiskFault) (D.state disk.old) (D.state disk.new) }
        ensures moments { CrashLeavesSurvivor (asks client (calls.Append area draft.now reserved sizes.now)) self.old.state.value (D.state disk.old) (D.state disk.new) }
        ensures no_memory { IsErrOf result Refusal.NoMemory → CrashLeavesSurvivor (bad_line 0) self.old.state.value (D.state disk.old) (D.state disk.new) }
        ensures refused { IfErr result (λ refusal. is_of_call refusal ≡ true → disk.new ≡ disk.old) }
        ensures files { (IsErrOf result Refusal.DiskFault → ⊥) → CountsFiles (D.state disk.old) (D.state disk.new) self.old self.new }
    {
        refusals_are_the_calls_own();
        ways_of_a_step();
        growth_keeps_a_log_whole();
        calls_that_pass_find_room();
        logs_are_made_ready();
        small_changes_make_the_calls();
        quiet_appends_want_no_disk();
        states_between_survive();
        logs_are_copies_and_blocks();
        let place = self.area_to_append(client, area, draft, reserved, sizes)?;
        let stream = self.areas.area(place).stream;
        let len = draft.bytes.len() as u32;
        let before = kept(&self.state);
        self.prepare(disk, stream, need_of(reserved, len, sizes.as_slice()))?;
        match self.append_grown(disk, place, draft, reserved, sizes) {
            Ok(lsn) => Ok(lsn),
            Err(Failed) => {
                self.state = broken(&before);
                Err(Refusal::DiskFault)
            }
        }
    }
}

// What a client's draft says of its record beside the data.
fn plain_fields(stream: u16, draft: &Draft) -> Fields
    ensures stream { result.stream ≡ stream }
    ensures record { (area : Area) → area.stream ≡ stream → unplaced result draft.now.bytes ≡ plain_record area draft.now }
{
    Fields {
        stream,
        kind: Kind::Plain,
        previous: draft.previous,
        undo_next: draft.undo_next,
        new_base: Lsn::null(),
    }
}

impl<D: Disk> Manager<D> {
    /// Appends a record to the stream of the client's area of a number, and gives its LSN. A reserved record takes its sectors from those that the area
    /// holds; the area holds the sectors for records of these lengths to come. The draft says whether the block is sealed after the record, and
    /// whether the log is flushed; without that the record is in memory alone, and a crash loses it.
    ///
    /// Refused in this order: `Broken`, `NotEnoughContainers`, `NoSuchArea`, `RecordTooLong` for the data and then the lengths, `LinkInvalid` for the
    /// previous link and then the undo-next link, `ReservationShort`, `Full`. After any refusal but `DiskFault` nothing has changed. A reserved append
    /// without lengths is never refused as `Full`.
    pub fn append(
        &mut self,
        client: u16,
        area: u16,
        draft: &Draft,
        reserved: bool,
        sizes: &Sizes,
    ) -> Result<Lsn, Refusal>
        requires client { IsClient client }
        requires len { length draft.now.bytes < 2 ^ 32 }
        ensures call { WritesAs D.state client (calls.Append area draft.now reserved sizes.now) replies.Placed result self.old self.new }
        ensures quiet { calls_disk self.old.0 (calls.Append area draft.now reserved sizes.now) ≡ false → self.new.1 ≡ self.old.1 }
    {
        calls_follow_laws();
        if self.log.broken {
            return Err(Refusal::Broken);
        }
        self.log
            .append(&mut self.disk, client, area, draft, reserved, sizes)
    }
}
