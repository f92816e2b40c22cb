// Opening a stream by its name: the one of that name, or a new one after the others. A new stream is in the base copy that follows the newest one, so
// that a crash leaves it or not. Its memory is taken first, and it joins the tables once it is on the disk, which takes none.
ghost use Rattle.std.specs.Prelude.{◌≡◌, ◌+◌, ◌<◌, ◌≤◌, ◌^◌, true, false, None, IsErrOf, IfOk, IfErr, OnOk, length};
ghost use Rattle.clfs_manager.specs.Machine.{calls_disk, container_of, cut, hold, IsClient, IsStorable, IsValid, null_lsn, open_refusal, Request, State, stream_number, Survives};
ghost use Rattle.clfs_model.specs.declared.call.Call.TheVariants as calls;
ghost use Rattle.clfs_model.specs.declared.reply.Reply.TheVariants as replies;
ghost use Rattle.clfs_tables.specs.Tables.{HasSame};
ghost use Rattle.clfs_manager.specs.Calls.{WritesAs};
ghost use Rattle.clfs_manager.specs.Copying.{CountsFiles};
ghost use Rattle.clfs_manager.specs.Crashes.{CrashLeavesSurvivor};
ghost use Rattle.clfs_manager.specs.Streams.{IsNotAdded, with_stream};
ghost use Rattle.clfs_manager.specs.Written.{IsIntact, WritesDisk, CopyIsCurrent, IsCurrent};

use crate::log::Log;
use crate::manager::Manager;
use crate::survivors::calls_follow_laws;
use clfs_base::Row;
use clfs_disk::Disk;
use clfs_laws::the_holds_container_never_falls;
use clfs_lsn::{Lsn, Name};
use clfs_model::{Refusal, State};
use clfs_physical::PhysicalRefusal;
use clfs_recover::{
    logs_are_copies_and_blocks, low_containers_are_left_out, settings_leave_the_records,
    streams_come_last,
};
use clfs_tables::Tables;
use clfs_told::Told;
use std::alloc::AllocError;

// The state with a stream of this name after the others.
fn with_stream(state: &Told<State>, name: &Name) -> Told<State>
    ensures { result.value ≡ with_stream name.now state.now.value }
{
    state.next(name)
}

// A name with memory of its own.
fn copy_of(name: &Name) -> Result<Name, AllocError>
    ensures { IfOk result (λ copy. copy ≡ name.now) }
{
    name.clone()
}

// The row of a new stream of this name.
fn new_row(name: &Name) -> Result<Row, AllocError>
    ensures { IfOk result (λ row. row ≡ record { name = name.now; base = null_lsn }) }
{
    Ok(Row {
        name: copy_of(name)?,
        base: Lsn::null(),
    })
}

// All memory that a new stream of this name wants: room in the tables, a name and a row.
fn stream_memory(tables: &mut Tables, name: &Name) -> Result<(Name, Row), AllocError>
    ensures same { HasSame tables.old tables.new }
    ensures more { OnOk result (1 ≤ tables.new.more) }
    ensures name { IfOk result (λ both. both.0 ≡ name.now) }
    ensures row { IfOk result (λ both. both.1 ≡ record { name = name.now; base = null_lsn }) }
{
    tables.reserve_stream()?;
    let own = copy_of(name)?;
    let row = new_row(name)?;
    Ok((own, row))
}

impl Log {
    // A new stream, in memory and on the disk: its number. After a fault the log is broken, and where memory is wanting nothing has changed that
    // the log tells.
    fn add_stream<D: Disk>(&mut self, disk: &mut D, name: &Name) -> Result<u16, Refusal>
        requires intact { IsIntact (D.state disk.old) self.old }
        requires new { stream_number self.old.state.value name.now ≡ None }
        requires allowed { open_refusal self.old.state.value name.now ≡ None }
        requires valid { IsValid (with_stream name.now self.old.state.value) }
        requires storable { IsStorable (with_stream name.now self.old.state.value) }
        requires held { container_of (hold self.old.state.value) ≤ container_of (hold (with_stream name.now self.old.state.value)) }
        ensures number { IfOk result (λ number. number ≡ length self.old.state.value.streams + 1) }
        ensures state { IfOk result (λ _. self.new.state.value ≡ with_stream name.now self.old.state.value) }
        ensures intact { IfOk result (λ _. IsIntact (D.state disk.new) self.new) }
        ensures refused { IfErr result (λ refusal. IsNotAdded refusal (D.state disk.new) self.old self.new) }
        ensures writes { WritesDisk (IsErrOf result Refusal.DiskFault) (D.state disk.old) (D.state disk.new) }
        ensures moments { (asked : Request) (s : State) → Survives asked s (cut self.old.state.value)
            → Survives asked s (cut (with_stream name.now self.old.state.value)) → CrashLeavesSurvivor asked s (D.state disk.old) (D.state disk.new) }
        ensures no_memory { IsErrOf result Refusal.NoMemory → disk.new ≡ disk.old }
        ensures current { OnOk result (IsCurrent self.new.physical.image) }
        ensures files { (IsErrOf result Refusal.DiskFault → ⊥) → CountsFiles (D.state disk.old) (D.state disk.new) self.old self.new }
    {
        streams_come_last();
        low_containers_are_left_out();
        settings_leave_the_records();
        logs_are_copies_and_blocks();
        let _newest = self.physical.image();
        let first = self.hold().container();
        let number = self.tables.len() as u16 + 1;
        let memory = stream_memory(&mut self.tables, name)?;
        match self.physical.add_stream(disk, first, memory.1) {
            Ok(()) => {}
            Err(PhysicalRefusal::NoMemory) => return Err(Refusal::NoMemory),
            Err(PhysicalRefusal::DiskFault) => {
                self.break_log();
                return Err(Refusal::DiskFault);
            }
        }
        self.tables.add_stream(memory.0);
        self.state = with_stream(&self.state, name);
        Ok(number)
    }
}

impl<D: Disk> Manager<D> {
    /// Opens the stream of a name, and gives its number, from 1 in the order of their first opening: the one that has the name, or a new one,
    /// which is on the disk then. The disk is called for a new one alone.
    ///
    /// Refused if the name isn't legal, by its first wrong byte; if a new stream would be the second one of a dedicated log; and if it would be
    /// the 193rd. Memory may run out.
    pub fn open_stream(&mut self, client: u16, name: &Name) -> Result<u16, Refusal>
        requires client { IsClient client }
        requires name { length name.now < 2 ^ 32 }
        ensures call { WritesAs D.state client (calls.OpenStream name.now) replies.Stream result self.old self.new }
        ensures quiet { calls_disk self.old.0 (calls.OpenStream name.now) ≡ false → self.new.1 ≡ self.old.1 }
        ensures current { calls_disk self.old.0 (calls.OpenStream name.now) ≡ true → CopyIsCurrent result (D.state self.new.1) }
    {
        calls_follow_laws();
        if self.log.broken {
            return Err(Refusal::Broken);
        }
        the_holds_container_never_falls();
        let bytes = name.as_slice();
        let dedicated = self.log.physical.image().dedicated;
        if let Some(refusal) = self.log.tables.open_refusal(bytes, dedicated) {
            return Err(refusal);
        }
        if let Some(number) = self.log.tables.number(bytes) {
            return Ok(number);
        }
        self.log.add_stream(&mut self.disk, name)
    }
}
