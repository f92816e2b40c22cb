// Writing what waits. The open block ends, so that all records stand in blocks that wait, and these are written as one group after the blocks that
// are on the disk: a crash leaves all of the group or none of it. No memory is taken: the group's bytes stand in the queue's buffer, and there is
// room for the end of the open block since its first record was appended.
ghost use Rattle.std.specs.Prelude.{◌≡◌, [], IsOk, ◌+◌, ◌*◌, ◌<◌, ◌≤◌, false, true, if◌then◌else◌, nat_lt, Some, None, OnOk, OnErr, IfOk, IfErr};
ghost use Rattle.clfs_manager.specs.Machine.{block_end, calls_disk, flush, flushed, frontier, is_of_call, is_pending, IsClient, IsClosed, IsSmall, refusal, sector_bytes};
ghost use Rattle.clfs_physical.specs.Joined.{SameLengths};
ghost use Rattle.clfs_model.specs.declared.call.Call.TheVariants as calls;
ghost use Rattle.clfs_model.specs.declared.reply.Reply.TheVariants as replies;
ghost use Rattle.clfs_manager.specs.Calls.{WritesAs};
ghost use Rattle.clfs_manager.specs.Flushing.{EndsBlock, IsBroken, KeepsOthers};
ghost use Rattle.clfs_manager.specs.Laid.{IsLaidLog, IsEndedLog, SendsGroup, WrittenAfter};
ghost use Rattle.clfs_manager.specs.Memory.{Holds, IsSound};
ghost use Rattle.clfs_manager.specs.Storing.{CallsDisk, StoresState};

use crate::log::Log;
use crate::manager::Manager;
use crate::survivors::calls_follow_laws;
use clfs_archive::{BlockEnd, ends_of_blocks_go_on};
use clfs_disk::{Disk, Failed};
use clfs_laws::{laid_blocks_end_at_the_place, seals_and_flushes_keep_a_log};
use clfs_lsn::{Lsn, Place, frontier, sealed};
use clfs_model::{Refusal, State};
use clfs_recover::{
    blocks_are_read_in_order, groups_come_behind_the_last_block, logs_are_copies_and_blocks,
};
use clfs_told::Told;

// The end of the block that is open at a place: its last record, and the byte after it.
fn end_of_open(place: &Place) -> BlockEnd
    requires small { IsSmall place.now }
    requires some { 1 ≤ place.now.records }
    ensures last { result.last + 1 ≡ frontier place.now }
    ensures end { result.end ≡ sector_bytes * block_end place.now }
{
    BlockEnd {
        last: Lsn::from_parts(place.container, place.offset, place.records - 1),
        end: sealed(place).offset,
    }
}

// The state once all is on the disk.
fn flushed(state: &Told<State>) -> Told<State>
    ensures { result.value ≡ flush state.now.value }
{
    state.next(&())
}

impl Log {
    // Ends the open block, where there is one.
    pub fn end_block(&mut self)
        requires laid { IsLaidLog self.old }
        ensures ended { EndsBlock self.old self.new }
        ensures closed { IsClosed self.new.queue.place }
    {
        laid_blocks_end_at_the_place();
        ends_of_blocks_go_on();
        let place = self.queue.place();
        if place.records == 0 {
            return;
        }
        self.archive.push(end_of_open(&place));
        self.queue.seal();
    }

    // Writes all that isn't on the disk, where there is such. After a fault the log is broken.
    pub fn write_out<D: Disk>(&mut self, disk: &mut D) -> Result<(), Failed>
        requires sound { IsSound self.old }
        ensures change { StoresState result (flush self.old.state.value) (D.state disk.old) (D.state disk.new) self.old self.new }
        ensures same { OnOk result (KeepsOthers self.old self.new) }
        ensures quiet { is_pending self.old.state.value ≡ false → IsOk result × (disk.new ≡ disk.old) }
        ensures lengths { SameLengths (D.state disk.old).files (D.state disk.new).files }
    {
        seals_and_flushes_keep_a_log();
        groups_come_behind_the_last_block();
        let _newest = self.physical.image();
        self.write_group(disk)
    }

    // Writes the blocks that wait, once the open block has ended, as one group. In memory nothing changes.
    fn send_group<D: Disk>(&self, disk: &mut D) -> Result<(), Failed>
        requires ended { IsEndedLog self.now }
        ensures group { SendsGroup (IsOk result) (D.state disk.old) (D.state disk.new) self.now.state.value self.now.physical }
        ensures calls { CallsDisk result self.now.physical.image (D.state disk.old) (D.state disk.new) }
        ensures quiet { self.now.queue.waiting ≡ [] → IsOk result × (disk.new ≡ disk.old) }
        ensures lengths { SameLengths (D.state disk.old).files (D.state disk.new).files }
    {
        blocks_are_read_in_order();
        groups_come_behind_the_last_block();
        let _newest = self.physical.image();
        let (at, body) = self.queue.group();
        self.physical.flush(disk, at, body)
    }

    // What `flush_to` comes to before anything is written: where the record at an LSN is on the disk already the LSN below which all records are. Refused
    // where the client has no area of the number, or where no record can have the LSN yet.
    fn flushed_above(&self, client: u16, area: u16, lsn: Lsn) -> Result<Option<Lsn>, Refusal>
        requires sound { IsSound self.now }
        ensures refused { IfErr result (λ first. refusal self.now.state.value client (calls.FlushTo area lsn) ≡ Some first) }
        ensures own { IfErr result (λ first. is_of_call first ≡ true) }
        ensures allowed { OnOk result (refusal self.now.state.value client (calls.FlushTo area lsn) ≡ None) }
        ensures above { IfOk result (λ found. found ≡ (if nat_lt lsn (flushed self.now.state.value) then Some (flushed self.now.state.value) else None)) }
    {
        self.area_place(client, area)?;
        if lsn >= frontier(&self.queue.place()) {
            return Err(Refusal::RecordNonexistent { lsn });
        }
        let stable = self.flushed();
        Ok(if lsn < stable { Some(stable) } else { None })
    }

    // The same where only the restart area that was put last may keep the log from being one that files can hold: its new base is in the files then,
    // with it, but not in the tables.
    pub(crate) fn write_group<D: Disk>(&mut self, disk: &mut D) -> Result<(), Failed>
        requires laid { IsLaidLog self.old }
        ensures state { OnOk result (self.new.state.value ≡ flush self.old.state.value) }
        ensures holds { OnOk result (Holds self.new.state.value self.new) }
        ensures same { OnOk result (KeepsOthers self.old self.new) }
        ensures group { SendsGroup (IsOk result) (D.state disk.old) (D.state disk.new) self.old.state.value self.old.physical }
        ensures written { OnOk result (WrittenAfter (D.state disk.old) (D.state disk.new) self.old.state.value self.old.physical self.new.physical) }
        ensures broken { OnErr result (IsBroken self.old self.new) }
        ensures calls { CallsDisk result self.old.physical.image (D.state disk.old) (D.state disk.new) }
        ensures quiet { is_pending self.old.state.value ≡ false → IsOk result × (disk.new ≡ disk.old) }
        ensures lengths { SameLengths (D.state disk.old).files (D.state disk.new).files }
    {
        self.end_block();
        if let Err(failed) = self.send_group(disk) {
            self.break_log();
            return Err(failed);
        }
        self.queue.written();
        self.state = flushed(&self.state);
        Ok(())
    }
}

impl<D: Disk> Manager<D> {
    /// Flushes the whole log: all records are on the disk then. Answers the LSN below which they are, at or above which every later one will
    /// be. Refused where the client has no area of the number.
    pub fn flush(&mut self, client: u16, area: u16) -> Result<Lsn, Refusal>
        requires client { IsClient client }
        ensures call { WritesAs D.state client (calls.Flush area) replies.Flushed result self.old self.new }
        ensures quiet { is_pending self.old.0 ≡ false → self.new.1 ≡ self.old.1 }
    {
        calls_follow_laws();
        if self.log.broken {
            return Err(Refusal::Broken);
        }
        self.log.area_place(client, area)?;
        if self.log.write_out(&mut self.disk).is_err() {
            return Err(Refusal::DiskFault);
        }
        Ok(self.log.queue.flushed())
    }

    /// Flushes the log unless the record at an LSN is on the disk already. Answers the LSN below which all records are on the disk. Refused
    /// where the client has no area of the number, or where no record can have the LSN yet.
    pub fn flush_to(&mut self, client: u16, area: u16, lsn: Lsn) -> Result<Lsn, Refusal>
        requires client { IsClient client }
        ensures call { WritesAs D.state client (calls.FlushTo area lsn) replies.Flushed result self.old self.new }
        ensures quiet { calls_disk self.old.0 (calls.FlushTo area lsn) ≡ false → self.new.1 ≡ self.old.1 }
    {
        calls_follow_laws();
        if self.log.broken {
            return Err(Refusal::Broken);
        }
        let found = self.log.flushed_above(client, area, lsn)?;
        if let Some(stable) = found {
            return Ok(stable);
        }
        if self.log.write_out(&mut self.disk).is_err() {
            return Err(Refusal::DiskFault);
        }
        Ok(self.log.queue.flushed())
    }
}
