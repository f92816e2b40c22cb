// Archiving: whether it is on, and its tail. A change writes the base copy that follows the newest one, with the containers from the new state's hold
// on, so that a crash leaves the old setting or the new one. Memory forgets what only the old tail held. No call here takes memory.
ghost use Rattle.std.specs.Prelude.{◌≡◌, ◌≤◌, ℕ, true, false, not, Some, is_some, OnOk};
ghost use Rattle.clfs_manager.specs.Machine.{archiving, calls_disk, container_of, hold, IsValid, State};
ghost use Rattle.clfs_model.specs.declared.call.Call.TheVariants as calls;
ghost use Rattle.clfs_model.specs.declared.reply.Reply.TheVariants as replies;
ghost use Rattle.clfs_manager.specs.Calls.{WritesAs};
ghost use Rattle.clfs_manager.specs.Copying.{KeepsFiles};
ghost use Rattle.clfs_manager.specs.Memory.{HasForgotten, IsSound};
ghost use Rattle.clfs_manager.specs.Settings.{KeepsQueue, KeepsTables, archive_change, with_archive};
ghost use Rattle.clfs_manager.specs.Storing.{StoresState};
ghost use Rattle.clfs_manager.specs.Written.{CopyIsCurrent, IsCurrent};

use crate::log::Log;
use crate::manager::Manager;
use crate::survivors::calls_follow_laws;
use clfs_archive::Archive;
use clfs_disk::{Disk, Failed};
use clfs_laws::{numbers_fit_their_types, the_holds_container_never_falls};
use clfs_lsn::Lsn;
use clfs_model::{Refusal, State, records_are_as_their_heads};
use clfs_physical::Change;
use clfs_recover::{low_containers_are_left_out, settings_leave_the_records};
use clfs_told::Told;

// The state with archiving off, or on with this tail.
fn with_archive(state: &Told<State>, tail: &Option<Lsn>) -> Told<State>
    ensures { result.value ≡ with_archive tail.now state.now.value }
{
    state.next(tail)
}

// Archiving as a base copy has it.
fn archive_change(tail: &Option<Lsn>) -> Change
    ensures { result ≡ archive_change tail.now }
{
    match tail {
        Some(lsn) => Change::Archive {
            archiving: true,
            tail: *lsn,
        },
        None => Change::Archive {
            archiving: false,
            tail: Lsn::null(),
        },
    }
}

// The archive tail becomes this one, where archiving is on, by the least LSN that the log still needs.
fn set_tail(archive: &mut Archive, tail: &Option<Lsn>, needed: Lsn)
    ensures tail { (s : State) → s.archive ≡ archive.old.tail → hold s ≡ needed → archive.new.tail ≡ tail.now }
    ensures blocks { archive.new.blocks ≡ archive.old.blocks }
    ensures room { archive.new.room ≡ archive.old.room }
{
    match tail {
        Some(lsn) => archive.set_archive_tail(*lsn),
        None => archive.set_archive(false, needed),
    }
}

impl Log {
    // The archive tail once archiving is turned on or off, which it wasn't: it begins at the hold.
    fn archive_for(&self, on: bool) -> Option<Lsn>
        requires sound { IsSound self.now }
        requires other { is_some self.now.state.value.archive ≡ not on }
        ensures { with_archive result self.now.state.value ≡ archiving self.now.state.value on }
    {
        if on { Some(self.hold()) } else { None }
    }

    // Archiving is off, or on with this tail, on the disk too. After a fault the log is broken.
    fn store_archive<D: Disk>(&mut self, disk: &mut D, tail: Option<Lsn>) -> Result<(), Failed>
        requires sound { IsSound self.old }
        requires valid { IsValid (with_archive tail self.old.state.value) }
        requires up { container_of (hold self.old.state.value) ≤ container_of (hold (with_archive tail self.old.state.value)) }
        ensures change { StoresState result (with_archive tail self.old.state.value) (D.state disk.old) (D.state disk.new) self.old self.new }
        ensures same { OnOk result (KeepsTables self.old self.new) }
        ensures current { OnOk result (IsCurrent self.new.physical.image) }
        ensures files { OnOk result (KeepsFiles (D.state disk.old) (D.state disk.new) self.old.physical self.new.physical) }
    {
        settings_leave_the_records();
        low_containers_are_left_out();
        records_are_as_their_heads();
        numbers_fit_their_types();
        let _newest = self.physical.image();
        let before = self.hold();
        let place = self.place();
        let needed = self.tables.hold(tail, &place);
        let change = archive_change(&tail);
        if let Err(failed) = self.physical.write_copy(disk, needed.container(), &change) {
            self.break_log();
            return Err(failed);
        }
        set_tail(&mut self.archive, &tail, before);
        self.state = with_archive(&self.state, &tail);
        Ok(())
    }

    // The same, and nothing below the hold, which may have moved with the tail, is kept in memory.
    fn change_archive<D: Disk>(&mut self, disk: &mut D, tail: Option<Lsn>) -> Result<(), Failed>
        requires sound { IsSound self.old }
        requires valid { IsValid (with_archive tail self.old.state.value) }
        requires up { container_of (hold self.old.state.value) ≤ container_of (hold (with_archive tail self.old.state.value)) }
        ensures change { StoresState result (with_archive tail self.old.state.value) (D.state disk.old) (D.state disk.new) self.old self.new }
        ensures forgotten { OnOk result (HasForgotten self.new.state.value self.new) }
        ensures same { OnOk result (KeepsQueue self.old self.new) }
        ensures current { OnOk result (IsCurrent self.new.physical.image) }
        ensures files { OnOk result (KeepsFiles (D.state disk.old) (D.state disk.new) self.old.physical self.new.physical) }
    {
        self.store_archive(disk, tail)?;
        self.forget_low();
        Ok(())
    }
}

impl<D: Disk> Manager<D> {
    /// Turns archiving on or off, on the disk too. It begins at the least LSN that the log still needs. Where it is so already nothing changes, and
    /// the disk isn't called.
    pub fn set_archive(&mut self, on: bool) -> Result<(), Refusal>
        ensures call { (client : ℕ) → WritesAs D.state client (calls.SetArchive on) (λ _. replies.Done) result self.old self.new }
        ensures quiet { calls_disk self.old.0 (calls.SetArchive on) ≡ false → self.new.1 ≡ self.old.1 }
        ensures current { calls_disk self.old.0 (calls.SetArchive on) ≡ true → CopyIsCurrent result (D.state self.new.1) }
    {
        calls_follow_laws();
        the_holds_container_never_falls();
        if self.log.broken {
            return Err(Refusal::Broken);
        }
        if self.log.archive.tail().is_some() == on {
            return Ok(());
        }
        let tail = self.log.archive_for(on);
        if self.log.change_archive(&mut self.disk, tail).is_err() {
            return Err(Refusal::DiskFault);
        }
        Ok(())
    }

    /// Moves the archive tail, on the disk too: what lies below it was archived. Refused where archiving is off, and where the tail isn't from the
    /// old one up to the LSN below which all is on the disk; the three LSNs are told.
    pub fn set_archive_tail(&mut self, lsn: Lsn) -> Result<Lsn, Refusal>
        ensures call { (client : ℕ) → WritesAs D.state client (calls.SetArchiveTail lsn) replies.Tail result self.old self.new }
        ensures current { CopyIsCurrent result (D.state self.new.1) }
    {
        calls_follow_laws();
        the_holds_container_never_falls();
        if self.log.broken {
            return Err(Refusal::Broken);
        }
        if let Some(refusal) = self.log.tail_refusal(lsn) {
            return Err(refusal);
        }
        if self.log.change_archive(&mut self.disk, Some(lsn)).is_err() {
            return Err(Refusal::DiskFault);
        }
        Ok(lsn)
    }
}
