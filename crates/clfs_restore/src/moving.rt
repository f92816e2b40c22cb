// Moving the archive tail once an archive is in safety.
//
// No call of a log without streams answers the flushed LSN. So it is asked for by a tail that is too high, whose refusal tells it and changes nothing.
ghost use Rattle.std.specs.Prelude.{◌≡◌, ℕ, false, None, OnOk, IfErr, IsErrOf};
ghost use Rattle.clfs_model.specs.Flush.{flushed};
ghost use Rattle.clfs_model.specs.Run.{asks};
ghost use Rattle.clfs_model.specs.Step.{with_broken};
ghost use Rattle.clfs_model.specs.declared.call.Call.TheVariants as calls;
ghost use Rattle.clfs_manager.specs.Crashes.{CrashSurvives};
ghost use Rattle.clfs_manager.specs.Written.{WritesDisk};
ghost use Rattle.clfs_restore.specs.Archiving.{all_archived, stable_of};

use clfs_disk::Disk;
use clfs_laws::numbers_fit_their_types;
use clfs_lsn::Lsn;
use clfs_manager::Manager;
use clfs_model::Refusal;

// The LSN below which all is on the disk, as the refusal of a tail above it tells it.
fn stable_of(refusal: &Refusal) -> Option<Lsn>
    ensures { result ≡ stable_of refusal.now }
{
    match *refusal {
        Refusal::ArchiveTailInvalid { flushed, .. } => Some(flushed),
        _ => None,
    }
}

// Moves the archive tail to this LSN, below which all is on the disk.
fn move_to<D: Disk>(manager: &mut Manager<D>, lsn: Lsn) -> Result<(), Refusal>
    requires unbroken { manager.old.0.broken ≡ false }
    requires on { manager.old.0.archive ≡ None → ⊥ }
    requires stable { lsn ≡ flushed manager.old.0 }
    ensures moved { OnOk result (manager.new.0 ≡ all_archived manager.old.0) }
    ensures refused { IfErr result (λ refusal. (refusal ≡ Refusal.DiskFault) × (manager.new.0 ≡ with_broken manager.old.0)) }
    ensures writes { WritesDisk (IsErrOf result Refusal.DiskFault) (D.state manager.old.1) (D.state manager.new.1) }
    ensures moments { (client : ℕ) → CrashSurvives (asks client (calls.SetArchiveTail (flushed manager.old.0))) manager.old.0
        (D.state manager.old.1) (D.state manager.new.1) }
{
    manager.stored();
    match manager.set_archive_tail(lsn) {
        Ok(_) => Ok(()),
        Err(refusal) => Err(refusal),
    }
}

/// Moves the archive tail to the LSN below which all is on the disk, on the disk too. That LSN is told by the refusal of a tail above it.
pub fn move_tail<D: Disk>(manager: &mut Manager<D>) -> Result<(), Refusal>
    requires unbroken { manager.old.0.broken ≡ false }
    requires on { manager.old.0.archive ≡ None → ⊥ }

    // The tail is there, and nothing else of the log has changed; or the disk failed, which breaks the log. No other refusal comes.
    ensures moved { OnOk result (manager.new.0 ≡ all_archived manager.old.0) }
    ensures refused { IfErr result (λ refusal. (refusal ≡ Refusal.DiskFault) × (manager.new.0 ≡ with_broken manager.old.0)) }
    ensures writes { WritesDisk (IsErrOf result Refusal.DiskFault) (D.state manager.old.1) (D.state manager.new.1) }

    // A crash at any moment leaves a survivor of that move.
    ensures moments { (client : ℕ) → CrashSurvives (asks client (calls.SetArchiveTail (flushed manager.old.0))) manager.old.0
        (D.state manager.old.1) (D.state manager.new.1) }
{
    numbers_fit_their_types();
    manager.stored();
    match manager.set_archive_tail(Lsn::of_number(u64::MAX)) {
        Ok(_) => Ok(()),
        Err(refusal) => match stable_of(&refusal) {
            Some(lsn) => move_to(manager, lsn),
            None => Err(refusal),
        },
    }
}
