// What is done after a sync that failed, for the runs that come.
//
// The system may take as synced what a failed sync was to write: a read still gives it, the medium doesn't have it, and a later sync
// succeeds over it. So a run whose sync failed leaves a mark, an empty file beside the log's, before anything is answered. The mark isn't
// synced: it has to live only as long as the system's memory of the files. Opening a folder with the mark makes true on the medium what is
// read: each file is copied beside itself, the copy is synced and takes the file's name, the folder is synced, and the mark goes last.
//
// Nothing is written in place, since a crash may leave any bytes where a write goes. A crash between two copies leaves some files as they
// are read and others as the medium has them. That is right, since they differ only by what was written between two syncs, of which a crash
// may leave any part.
use crate::fault::{Call, Cause, Fault, Place, asked, if_there};
use crate::file::{PIECE, StoredFile, zeros};
use crate::held::HeldFolder;
use crate::location::Location;
use std::fs::{File, Metadata};
use std::io;
use std::os::unix::fs::{FileExt, MetadataExt, fchown};

// The most bytes that mean something in a base file, and in a container (docs/FORMAT.md). What is behind them is left out of a copy: whoever
// makes files of the format longer changes these too.
const BASE_BYTES: u64 = 1 << 15;

const CONTAINER_BYTES: u64 = 1 << 23;

/// Whether the mark is there.
pub(crate) fn has_mark(location: &Location, folder: &HeldFolder) -> Result<bool, Fault> {
    let found = asked(Place::Mark, Call::Look, folder.find_mark(location));
    Ok(if_there(found)?.is_some())
}

/// Leaves the mark.
pub(crate) fn leave_mark(location: &Location, folder: &HeldFolder) -> Result<(), Fault> {
    if !has_mark(location, folder)? {
        asked(Place::Mark, Call::Make, folder.make(location, Place::Mark))?;
    }
    Ok(())
}

/// Replaces every file by a synced copy of itself, and takes the mark away. After an error each file reads as before, and the mark is there. Each is closed
/// once its copy has its name, so that the system gives back its room before the next one is copied.
pub(crate) fn renew(
    location: &Location,
    folder: &HeldFolder,
    files: Vec<Option<StoredFile>>,
) -> Result<(), Fault> {
    for slot in files {
        if let Some(file) = slot {
            renew_file(location, folder, &file)?;
        }
    }
    asked(Place::Folder, Call::Sync, folder.sync())?;
    asked(
        Place::Mark,
        Call::Remove,
        folder.remove(location, Place::Mark),
    )
}

// Replaces one file by a synced copy. If that can't be done nothing is left of the copy.
fn renew_file(location: &Location, folder: &HeldFolder, file: &StoredFile) -> Result<(), Fault> {
    // An opening that was cut short may have left one.
    if_there(asked(
        Place::Copy,
        Call::Remove,
        folder.remove(location, Place::Copy),
    ))?;
    let copy = asked(Place::Copy, Call::Make, folder.make(location, Place::Copy))?;
    let place = file.place();
    let done = match copy_file(location, file, &copy) {
        Ok(()) => asked(place, Call::GiveName, folder.rename(location, &copy, place)),
        Err(fault) => Err(fault),
    };
    if done.is_err() {
        let _gone = folder.remove(location, Place::Copy);
    }
    done
}

// Gives a copy the file's rights, fills it with what is read of the file, as far as that means something in a log, and syncs it. The rights come first: nobody
// else is to read what is copied.
fn copy_file(location: &Location, file: &StoredFile, copy: &File) -> Result<(), Fault> {
    asked(Place::Copy, Call::GiveRights, give_rights(file, copy))?;
    let most = match file.place() {
        Place::File(0) => BASE_BYTES,
        _ => CONTAINER_BYTES,
    };
    let len = file.len().min(most);
    let mut piece = asked(Place::Copy, Call::Make, zeros(location.alloc(), len))?;
    for at in (0..len).step_by(PIECE) {
        let count = (len - at).min(piece.len() as u64) as usize;
        copy_piece(file, copy, at, &mut piece[..count])?;
    }
    asked(Place::Copy, Call::Sync, copy.sync_all())
}

// Copies what the file has from `at` on, as much as the piece has room for.
fn copy_piece(file: &StoredFile, copy: &File, at: u64, piece: &mut [u8]) -> Result<(), Fault> {
    if file.read(at, piece)? < piece.len() {
        return Err(Fault::new(file.place(), Call::Read, Cause::TooShort));
    }
    asked(Place::Copy, Call::Write, copy.write_all_at(piece, at))
}

// Whether two files may be used by the same users in the same ways, as far as their owners and modes say it.
fn have_same_rights(one: &Metadata, other: &Metadata) -> bool {
    one.uid() == other.uid() && one.gid() == other.gid() && one.mode() == other.mode()
}

// Gives a copy the owner, the group and the mode of the file. Nothing is asked of the system if it has them.
fn give_rights(file: &StoredFile, copy: &File) -> io::Result<()> {
    let wanted = file.metadata()?;
    if have_same_rights(&wanted, &copy.metadata()?) {
        return Ok(());
    }
    fchown(copy, Some(wanted.uid()), Some(wanted.gid()))?;
    copy.set_permissions(wanted.permissions())
}
