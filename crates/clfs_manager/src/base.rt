// Moving the base of a stream: the records below it are needed no more. The log is flushed first, so that the base lies at or below what is on the
// disk, and then the base copy that follows is written, which lists the containers from the hold's on as it is after the new base. So a crash leaves
// the old base or the new one. Where the hold came to a further container nothing below that is asked for any more, and memory forgets it.
ghost use Rattle.std.specs.Prelude.{◌≡◌, ◌≤◌, ◌∷◌, [], true, None, Some, IsSome, IfOk, IfErr, OnErr, OnOk};
ghost use Rattle.clfs_manager.specs.Machine.{answer, base_of, container_of, flush, hold, is_base, IsClient, IsStorable, IsValid, outcome, refusal, stream_at};
ghost use Rattle.clfs_model.specs.declared.call.Call.TheVariants as calls;
ghost use Rattle.clfs_model.specs.declared.reply.Reply.TheVariants as replies;
ghost use Rattle.clfs_manager.specs.Base.{KeepsAllButTables, with_base};
ghost use Rattle.clfs_manager.specs.Calls.{WritesAs};
ghost use Rattle.clfs_manager.specs.Changing.{ChangesLog};
ghost use Rattle.clfs_manager.specs.Copying.{KeepsFiles};
ghost use Rattle.clfs_manager.specs.Flushing.{IsBroken};
ghost use Rattle.clfs_manager.specs.Memory.{HasForgotten, IsSound};
ghost use Rattle.clfs_manager.specs.Putting.{KeepsRoom};
ghost use Rattle.clfs_manager.specs.Written.{IsIntact, IsYetToForget, CopyIsCurrent, IsCurrent};

use crate::log::{Log, broken};
use crate::manager::Manager;
use crate::survivors::calls_follow_laws;
use clfs_disk::{Disk, Failed};
use clfs_laws::{numbers_fit_their_types, states_between_survive, the_holds_container_never_falls};
use clfs_lsn::Lsn;
use clfs_model::{Refusal, State, records_are_as_their_heads};
use clfs_physical::Change;
use clfs_recover::{
    bases_of_rows_move, logs_are_copies_and_blocks, low_containers_are_left_out,
    settings_leave_the_records,
};
use clfs_told::Told;

// The state with the base of a stream moved.
fn with_base(state: &Told<State>, stream: u16, base: Lsn) -> Told<State>
    ensures { result.value ≡ with_base stream base state.now.value }
{
    state.next(&(stream, base))
}

impl Log {
    // Nothing that lies in a container below the hold's is asked for any more: the heads of records and the ends of blocks there may go.
    pub(crate) fn forget_low(&mut self)
        requires sound { IsSound self.old }
        ensures sound { IsSound self.new }
        ensures same { KeepsAllButTables self.old self.new }
        ensures forgotten { HasForgotten self.new.state.value self.new }
        ensures room { KeepsRoom 0 self.old self.new }
    {
        let low = Lsn::from_parts(self.hold().container(), 0, 0);
        self.tables.forget_below(low);
        self.archive.forget_below(low);
    }

    // The base of a stream moves up, on the disk too. What lies below the hold, which has moved with it, is yet to be forgotten. After a fault the log is
    // broken.
    pub(crate) fn store_base<D: Disk>(
        &mut self,
        disk: &mut D,
        stream: u16,
        base: Lsn,
    ) -> Result<(), Failed>
        requires intact { IsIntact (D.state disk.old) self.old }
        requires there { IsSome (stream_at self.old.state.value stream) }
        requires up { base_of self.old.state.value stream ≤ base }
        requires valid { IsValid (with_base stream base self.old.state.value) }
        requires storable { IsStorable (with_base stream base self.old.state.value) }
        requires held { container_of (hold self.old.state.value) ≤ container_of (hold (with_base stream base self.old.state.value)) }
        ensures change { ChangesLog IsYetToForget result (self.old.state.value ∷ []) (with_base stream base self.old.state.value) (D.state disk.old) (D.state disk.new) self.new }
        ensures broken { OnErr result (IsBroken self.old self.new) }
        ensures current { OnOk result (IsCurrent self.new.physical.image) }
        ensures files { OnOk result (KeepsFiles (D.state disk.old) (D.state disk.new) self.old.physical self.new.physical) }
    {
        bases_of_rows_move();
        low_containers_are_left_out();
        settings_leave_the_records();
        logs_are_copies_and_blocks();
        records_are_as_their_heads();
        numbers_fit_their_types();
        let _newest = self.physical.image();
        let place = self.place();
        self.tables.set_base(stream, base);
        let needed = self.tables.hold(self.archive.tail(), &place);
        let change = Change::Base { stream, base };
        if let Err(failed) = self.physical.write_copy(disk, needed.container(), &change) {
            self.break_log();
            return Err(failed);
        }
        self.state = with_base(&self.state, stream, base);
        Ok(())
    }

    // All is on the disk, and then the base of a stream moves to an LSN of a live record or after the last one. After a fault the log is broken.
    fn advance<D: Disk>(&mut self, disk: &mut D, stream: u16, base: Lsn) -> Result<(), Failed>
        requires intact { IsIntact (D.state disk.old) self.old }
        requires there { IsSome (stream_at self.old.state.value stream) }
        requires base { is_base self.old.state.value stream base ≡ true }
        requires valid { IsValid (with_base stream base (flush self.old.state.value)) }
        requires storable { IsStorable (with_base stream base (flush self.old.state.value)) }
        requires held { container_of (hold self.old.state.value)
            ≤ container_of (hold (with_base stream base (flush self.old.state.value))) }
        ensures change { ChangesLog IsIntact result (self.old.state.value ∷ flush self.old.state.value ∷ [])
            (with_base stream base (flush self.old.state.value)) (D.state disk.old) (D.state disk.new) self.new }
        ensures broken { OnErr result (IsBroken self.old self.new) }
        ensures current { OnOk result (IsCurrent self.new.physical.image) }
        ensures files { OnOk result (KeepsFiles (D.state disk.old) (D.state disk.new) self.old.physical self.new.physical) }
    {
        let faulted = broken(&self.state);
        self.write_all(disk)?;
        if let Err(failed) = self.store_base(disk, stream, base) {
            self.state = faulted;
            return Err(failed);
        }
        self.forget_low();
        Ok(())
    }

    // The stream of which a call moves the base, or why the call is refused.
    fn stream_to_advance(&self, client: u16, area: u16, lsn: Lsn) -> Result<u16, Refusal>
        requires sound { IsSound self.now }
        ensures refused { IfErr result (λ first. refusal self.now.state.value client (calls.Advance area lsn) ≡ Some first) }
        ensures allowed { IfOk result (λ _. refusal self.now.state.value client (calls.Advance area lsn) ≡ None) }
        ensures there { IfOk result (λ stream. IsSome (stream_at self.now.state.value stream)) }
        ensures base { IfOk result (λ stream. is_base self.now.state.value stream lsn ≡ true) }
        ensures answer { IfOk result (λ stream. answer self.now.state.value client (calls.Advance area lsn)
            ≡ outcome (replies.Base lsn) (with_base stream lsn (flush self.now.state.value))) }
    {
        let place = self.area_place(client, area)?;
        let stream = self.area_stream(place);
        match self.tables.base_refusal(stream, lsn) {
            Some(refusal) => Err(refusal),
            None => Ok(stream),
        }
    }
}

impl<D: Disk> Manager<D> {
    /// Moves the base of the area's stream to an LSN, on the disk too, after all of the log is flushed: the records of the stream below it are
    /// needed no more, and the containers below all that is needed are free again. Answers the base.
    ///
    /// Refused where the client has no area of the number, and where the LSN is neither that of a live record of the stream nor the one after
    /// the last; the base and the last live record are told then.
    pub fn advance(&mut self, client: u16, area: u16, lsn: Lsn) -> Result<Lsn, Refusal>
        requires client { IsClient client }
        ensures call { WritesAs D.state client (calls.Advance area lsn) replies.Base result self.old self.new }
        ensures current { CopyIsCurrent result (D.state self.new.1) }
    {
        calls_follow_laws();
        the_holds_container_never_falls();
        states_between_survive();
        if self.log.broken {
            return Err(Refusal::Broken);
        }
        let stream = match self.log.stream_to_advance(client, area, lsn) {
            Ok(stream) => stream,
            Err(refusal) => return Err(refusal),
        };
        if self.log.advance(&mut self.disk, stream, lsn).is_err() {
            return Err(Refusal::DiskFault);
        }
        Ok(lsn)
    }
}
