// One call by name, as a script or another thread asks for it: it is made by the manager's call of that name, and its answer is given as a reply.
ghost use Rattle.std.specs.Prelude.{◌≡◌, false, true};
ghost use Rattle.clfs_disk.specs.State.{TellsContents};
ghost use Rattle.clfs_model.specs.declared.refusal.Refusal.{Refusal};
ghost use Rattle.clfs_model.specs.declared.refusal.Refusal.TheVariants as refusals;
ghost use Rattle.clfs_model.specs.declared.reply.Reply.TheVariants as replies;
ghost use Rattle.clfs_manager.specs.Machine.{asks, bad_line, calls_disk, happened_of, IsDamaged, MeetsCondition, Step};
ghost use Rattle.clfs_manager.specs.Calls.{IsRefused, IsSmall};
ghost use Rattle.clfs_manager.specs.Crashes.{CrashSurvives};
ghost use Rattle.clfs_manager.specs.Reading.{TellsBlock};
ghost use Rattle.clfs_manager.specs.Written.{LeavesCopy, WritesDisk};

use crate::manager::Manager;
use crate::replies::{done, found, reply_of};
use clfs_disk::Disk;
use clfs_model::{Call, Reply};

impl<D: Disk> Manager<D> {
    /// Makes exactly one of the calls, the one that is named.
    pub fn step(&mut self, client: u16, call: &Call) -> Reply
        requires condition { MeetsCondition client call.now }

        // The reply is the log machine's. Over a disk that doesn't tell what its files hold the fields of a record on the disk are open, its LSN
        // apart; a record that waits is exact.
        ensures step { Step (D.state self.old.1).nature.tells_contents self.old.0 client call.now (happened_of result) result self.new.0 }

        // A reply is no larger than the memory that serves any.
        ensures small { IsSmall result }

        // A call that has nothing to write or to read leaves the disk as it was, and so does one that is refused for what was asked.
        ensures quiet { calls_disk self.old.0 call.now ≡ false → self.new.1 ≡ self.old.1 }
        ensures refused { IsRefused result → self.new.1 ≡ self.old.1 }

        // Damage is told only over a disk that doesn't tell what its files hold; a fault only where the disk failed in the call, and never over a
        // steady disk whose files are at full length, as which they stay.
        ensures damage { TellsContents (D.state self.old.1) → IsDamaged result → ⊥ }
        ensures writes { WritesDisk (result ≡ replies.Refused refusals.DiskFault) (D.state self.old.1) (D.state self.new.1) }

        // Where damage is told, it is told of the block of the record to which the call comes.
        ensures place { (refusal : Refusal) → result ≡ replies.Refused refusal → TellsBlock self.old.0 client call.now refusal }

        // Whatever the answer, a crash at any moment of the call leaves files that open to a survivor of it. A broken log makes no call on the disk.
        ensures moments { CrashSurvives (asks client call.now) self.old.0 (D.state self.old.1) (D.state self.new.1) }
        ensures stopped { self.old.0.broken ≡ true → self.new.1 ≡ self.old.1 }

        // Where memory ran out, a crash at any moment of the call leaves the flushed part of the log, which is what survives a bad line.
        ensures no_memory { result ≡ replies.Refused refusals.NoMemory → CrashSurvives (bad_line 0) self.old.0 (D.state self.old.1) (D.state self.new.1) }

        // A base copy that the call writes is of the second version, and the files that it makes are at full length.
        ensures copy { LeavesCopy (result ≡ replies.Refused refusals.DiskFault) (D.state self.old.1) (D.state self.new.1) }
    {
        self.stored();
        match call {
            Call::OpenStream { name } => reply_of(self.open_stream(client, name), Reply::Stream),
            Call::CreateArea {
                stream,
                largest,
                reads,
            } => reply_of(
                self.create_area(client, *stream, *largest, *reads),
                Reply::Area,
            ),
            Call::DeleteArea { area } => reply_of(self.delete_area(client, *area), done),
            Call::Reserve { area, sizes } => {
                reply_of(self.reserve(client, *area, sizes), Reply::Held)
            }
            Call::Release { area, sectors } => {
                reply_of(self.release(client, *area, *sectors), Reply::Held)
            }
            Call::Align { area, sizes } => {
                reply_of(self.align(client, *area, sizes), Reply::Sectors)
            }
            Call::Append {
                area,
                draft,
                reserved,
                sizes,
            } => reply_of(
                self.append(client, *area, draft, *reserved, sizes),
                Reply::Placed,
            ),
            Call::Flush { area } => reply_of(self.flush(client, *area), Reply::Flushed),
            Call::FlushTo { area, lsn } => {
                reply_of(self.flush_to(client, *area, *lsn), Reply::Flushed)
            }
            Call::Read { area, lsn, mode } => {
                reply_of(self.read(client, *area, *lsn, *mode), found)
            }
            Call::ReadNext { area, cursor } => {
                reply_of(self.read_next(client, *area, *cursor), Reply::Next)
            }
            Call::EndRead { area, cursor } => {
                reply_of(self.end_read(client, *area, *cursor), done)
            }
            Call::WriteRestart {
                area,
                bytes,
                base,
                reserved,
            } => reply_of(
                self.write_restart(client, *area, bytes, *base, *reserved),
                Reply::Placed,
            ),
            Call::ReadRestart { area } => reply_of(self.read_restart(client, *area), found),
            Call::PreviousRestart { area, cursor } => {
                reply_of(self.previous_restart(client, *area, *cursor), Reply::Next)
            }
            Call::Advance { area, lsn } => reply_of(self.advance(client, *area, *lsn), Reply::Base),
            Call::SetArchive { on } => reply_of(self.set_archive(*on), done),
            Call::SetArchiveTail { lsn } => reply_of(self.set_archive_tail(*lsn), Reply::Tail),
            Call::ListExtents => reply_of(self.extents(), Reply::Extents),
            Call::InstallPolicy { policy } => reply_of(self.install_policy(*policy), done),
            Call::RemovePolicy { kind } => reply_of(self.remove_policy(*kind), done),
            Call::SetSize { containers } => {
                reply_of(self.set_size(*containers), Reply::Containers)
            }
            Call::Info { stream } => reply_of(self.info(*stream), Reply::Info),
        }
    }
}
