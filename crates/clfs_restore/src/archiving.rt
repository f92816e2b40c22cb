// Archiving a log: its newest base copy, and the containers from its archive tail's on.
ghost use Rattle.std.specs.Prelude.{◌≡◌, ◌⊎◌, false, [], ◌+◌, ◌<◌, ◌≤◌, ◌-◌, ◌^◌, ◌++◌, ℕ, List, length, map, drop, slice_index, None, Ok, Err, IfErr, IsErrOf, OnOk, OnErr};
ghost use Rattle.std.specs.Result.{result_err};
ghost use Rattle.clfs_disk.specs.Files.{Unchanged};
ghost use Rattle.clfs_disk.specs.State.{TellsContents, IsSteady, Passes, Rises};
ghost use Rattle.clfs_lsn.specs.Lsn.{container_of};
ghost use Rattle.clfs_lsn.specs.declared.entry.LogEntry.{LogEntry};
ghost use Rattle.clfs_container.specs.OpenBlocks.{AreWhole};
ghost use Rattle.clfs_base.specs.Spelling.{IsImage};
ghost use Rattle.clfs_recover.specs.Stored.{stored_records};
ghost use Rattle.clfs_recover.specs.Walk.{shape_of};
ghost use Rattle.clfs_model.specs.Step.{with_broken};
ghost use Rattle.clfs_model.specs.declared.refusal.Refusal.TheVariants as refusals;
ghost use Rattle.clfs_archive_form.specs.Form.{archived_image, archived_pieces, archive_bytes, IsArchiveOf};
ghost use Rattle.clfs_archive_form.specs.Drafting.{most_archive};
ghost use Rattle.clfs_restore.specs.Archiving.{IsJustLoaded, IsCause, IsOfReading, Reads, GoesOn, TellsArchived, TellsDamage};
ghost use Rattle.clfs_restore.specs.declared.refusal.ArchiveRefusal.TheVariants.{Log, TooLong, NoMemory};

use crate::containers::put_containers;
use crate::copy::read_copy;
use crate::refusal::ArchiveRefusal;
use clfs_archive_form::{Draft, archived};
use clfs_base::BaseImage;
use clfs_disk::{Disk, calls_join};
use clfs_laws::refusals_are_the_calls_own;
use clfs_lsn::Bytes;
use clfs_manager::Manager;
use clfs_recover::{logs_are_copies_and_blocks, opened_copies_fit};
use std::alloc::Global;
use std::mem;

// Archiving is on. Whoever lists what is to be archived is told that.
fn see_archiving<D: Disk>(manager: &Manager<D>) -> Result<(), ArchiveRefusal>
    requires unbroken { manager.now.0.broken ≡ false }
    ensures on { OnOk result (manager.now.0.archive ≡ None → ⊥) }
    ensures off { IfErr result (λ refusal. (refusal ≡ NoMemory) ⊎ ((refusal ≡ Log refusals.Ephemeral) × (manager.now.0.archive ≡ None))) }
{
    refusals_are_the_calls_own();
    manager.extents()?;
    Ok(())
}

// How many containers a copy lists below the one of its archive tail.
fn skipped(image: &BaseImage) -> u32
    ensures value { result ≡ container_of image.now.tail - image.now.first }
    ensures fits { image.now.first + result < 2 ^ 32 }
{
    image.tail.container().saturating_sub(image.first)
}

// The files of the containers from the archive tail's on.
fn archived_files(image: &BaseImage) -> &[u16]
    ensures { result.now ≡ drop (container_of image.now.tail - image.now.first) image.now.files }
{
    let files = image.files.as_slice();
    files.split_at(files.len().min(skipped(image) as usize)).1
}

// Puts the archive of a base copy together, however long it is: what it begins with, and the containers from its tail's on.
fn put_image<D: Disk>(
    alloc: Global,
    manager: &mut Manager<D>,
    image: &BaseImage,
    draft: &mut Draft,
) -> Result<(), ArchiveRefusal>
    requires unbroken { manager.old.0.broken ≡ false }
    requires image { IsImage image.now }
    requires archived { image.now ≡ archived_image image.now }
    requires empty { draft.old.archive ≡ [] }
    ensures archive { TellsContents (D.state manager.old.1) → (blocks : ℕ → List (List ℕ)) (entries : List LogEntry)
        → ((i : ℕ) → i < length image.now.files → AreWhole image.now.container_sectors ((D.state manager.old.1).files (slice_index image.now.files i))
        (blocks (slice_index image.now.files i)))
        → stored_records (shape_of image.now) (length image.now.streams) image.now.first (map blocks image.now.files) ≡ Ok entries
        → GoesOn result [] draft.new.archive (archive_bytes image.now (archived_pieces image.now (map blocks image.now.files))) }
    ensures damage { IfErr result (TellsArchived image.now) }
    ensures before { draft.new.before ≡ draft.old.before }
    ensures only { IfErr result IsOfReading }
    ensures reads { Reads (result_err result) manager.old.0 manager.new.0 (D.state manager.old.1) (D.state manager.new.1) }
{
    let numbers = archived_files(image);
    let from = image.first + skipped(image);
    draft.put_front(alloc, image, numbers.len() as u32)?;
    put_containers(alloc, manager, image, from, numbers, draft)?;
    Ok(())
}

// Puts an archive of the log together, however long it is.
fn put_archive<D: Disk>(
    alloc: Global,
    manager: &mut Manager<D>,
    draft: &mut Draft,
) -> Result<(), ArchiveRefusal>
    requires loaded { IsJustLoaded (D.state manager.old.1) manager.old.0 }
    requires empty { draft.old.archive ≡ [] }
    ensures archive { OnOk result (TellsContents (D.state manager.old.1) → IsArchiveOf (D.state manager.old.1).files draft.new.archive) }
    ensures off { manager.old.0.archive ≡ None → (result ≡ Err (Log refusals.Ephemeral)) ⊎ (result ≡ Err NoMemory) }
    ensures refused { IfErr result (λ refusal. IsCause (D.state manager.old.1) manager.old.0 refusal) }
    ensures damage { IfErr result TellsDamage }
    ensures before { draft.new.before ≡ draft.old.before }
    ensures reads { Reads (result_err result) manager.old.0 manager.new.0 (D.state manager.old.1) (D.state manager.new.1) }
{
    calls_join::<D>();
    logs_are_copies_and_blocks();
    opened_copies_fit();
    see_archiving(manager)?;
    let copy = read_copy(alloc, manager)?;
    let image = archived(copy);
    put_image(alloc, manager, &image, draft)?;
    Ok(())
}

/// Appends an archive of a log that was just loaded to `out`: its newest base copy, and the open blocks of the containers from the archive tail's to
/// the last that is listed. The archive tail stays where it is.
///
/// Refused in this order: `Log(Ephemeral)`, `Log(DiskFault)` or `Log(Damaged)`, `TooLong`; `NoMemory` may come in place of any answer. `out` is as before
/// then.
pub fn write_archive<D: Disk>(
    alloc: Global,
    manager: &mut Manager<D>,
    out: &mut Bytes,
) -> Result<(), ArchiveRefusal>
    requires loaded { IsJustLoaded (D.state manager.old.1) manager.old.0 }

    // What is appended is exactly the archive of the log's files. Whatever the disk, it has no more bytes than an archive may have.
    ensures archive { OnOk result (TellsContents (D.state manager.old.1)
        → (bytes : List ℕ) × IsArchiveOf (D.state manager.old.1).files bytes × (length bytes ≤ most_archive) × (out.new ≡ out.old ++ bytes)) }
    ensures appended { OnOk result ((bytes : List ℕ) × (length bytes ≤ most_archive) × (out.new ≡ out.old ++ bytes)) }
    ensures unwritten { OnErr result (out.new ≡ out.old) }

    // Archiving is off just where that is told, unless memory is wanted. Each refusal has its cause, and no other comes.
    ensures off { manager.old.0.archive ≡ None → (result ≡ Err (Log refusals.Ephemeral)) ⊎ (result ≡ Err NoMemory) }
    ensures refused { IfErr result (λ refusal. IsCause (D.state manager.old.1) manager.old.0 refusal) }

    // Damage, which comes only over a disk that doesn't tell what its files hold, is told at the first wrong byte.
    ensures damage { IfErr result TellsDamage }

    // The log is as before, but a fault of the disk breaks it. No file changes.
    ensures state { (IsErrOf result (Log refusals.DiskFault) → ⊥) → manager.new.0 ≡ manager.old.0 }
    ensures broken { IsErrOf result (Log refusals.DiskFault) → manager.new.0 ≡ with_broken manager.old.0 }
    ensures same { Unchanged (D.state manager.old.1).files (D.state manager.new.1).files }
    ensures time { Passes Unchanged (D.state manager.old.1) (D.state manager.new.1) }

    // A fault is told only where the disk failed in the call, and never over a steady disk.
    ensures cause { IsErrOf result (Log refusals.DiskFault) → Rises (D.state manager.old.1).faults (D.state manager.new.1).faults }
    ensures steady { IsSteady (D.state manager.old.1) → (IsErrOf result (Log refusals.DiskFault) → ⊥)
        × ((D.state manager.new.1).faults ≡ (D.state manager.old.1).faults) }
{
    let mut draft = Draft::new(alloc, mem::replace(out, Bytes::new(alloc)));
    if let Err(refusal) = put_archive(alloc, manager, &mut draft) {
        *out = draft.give_up();
        return Err(refusal);
    }
    match draft.finish() {
        Ok(bytes) => {
            *out = bytes;
            Ok(())
        }
        Err(refused) => {
            *out = refused.before;
            Err(ArchiveRefusal::TooLong {
                bytes: refused.length,
            })
        }
    }
}
