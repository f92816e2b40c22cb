// The folder that is held, open and locked, and the names in it.
//
// The standard library asks the system by path, and a path may lead elsewhere meanwhile: the folder was renamed, another one took its place, or the link to
// it was set anew. A name that was made, removed or changed then would be one of a folder that isn't locked. So the path is looked at before each of
// these, and afterwards a file has to be found by its name in the held folder, before anything is read of it or written to it. What the path, changed
// between the two looks, lets be made elsewhere stays there, empty.
use crate::fault::{Call, Cause, Fault, Place, asked};
use crate::file::{Identity, StoredFile};
use crate::location::{Location, Opened};
use std::fs::{File, Metadata, TryLockError};
use std::io::{self, ErrorKind};

/// The lock is held as long as this value is there.
#[derive(Drop)]
pub(crate) struct HeldFolder {
    folder: File,
    identity: Identity,
}

// An error unless this was found where it has to be. What isn't there isn't found.
fn is_found(found: io::Result<Metadata>, identity: Identity) -> Result<(), Cause> {
    match found {
        Ok(found) if Identity::of(&found) == identity => Ok(()),
        Err(error) if error.kind() != ErrorKind::NotFound => Err(error.into()),
        _ => Err(Cause::OtherFolder),
    }
}

impl HeldFolder {
    /// Locks a folder that was just opened. None if another process has it.
    pub fn lock(folder: File) -> Result<Option<HeldFolder>, Fault> {
        match folder.try_lock() {
            Ok(()) => {}
            Err(TryLockError::WouldBlock) => return Ok(None),
            Err(TryLockError::Error(error)) => return asked(Place::Folder, Call::Lock, Err(error)),
        }
        let found = asked(Place::Folder, Call::Look, folder.metadata())?;
        let identity = Identity::of(&found);
        Ok(Some(HeldFolder { folder, identity }))
    }

    /// Syncs the names in the folder.
    pub fn sync(&self) -> io::Result<()> {
        self.folder.sync_all()
    }

    // An error unless the path leads to this folder.
    fn is_named(&self, location: &Location) -> Result<(), Cause> {
        is_found(location.find_folder(), self.identity)
    }

    // An error unless the file has this name in this folder.
    fn has_file(&self, location: &Location, place: Place, file: &File) -> Result<(), Cause> {
        self.is_named(location)?;
        is_found(location.find(place), Identity::of(&file.metadata()?))
    }

    /// Opens a file of the log.
    pub fn open(&self, location: &Location, place: Place) -> Result<StoredFile, Cause> {
        let opened = location.open(place)?;
        self.has_file(location, place, &opened.file)?;
        StoredFile::new(place, opened)
    }

    /// An error unless the mark of a failed sync is there.
    pub fn find_mark(&self, location: &Location) -> Result<(), Cause> {
        let found = location.find(Place::Mark);
        self.is_named(location)?;
        if !found?.is_file() {
            return Err(Cause::NoRegularFile);
        }
        Ok(())
    }

    /// Makes an empty file. An error if something has its name.
    pub fn make(&self, location: &Location, place: Place) -> Result<File, Cause> {
        self.is_named(location)?;
        let made = location.make(place)?;
        self.has_file(location, place, &made)?;
        Ok(made)
    }

    /// Makes an empty file of the log.
    pub fn make_file(&self, location: &Location, place: Place) -> Result<StoredFile, Cause> {
        let file = self.make(location, place)?;
        StoredFile::new(place, Opened { file, denied: None })
    }

    /// Takes a name away.
    pub fn remove(&self, location: &Location, place: Place) -> Result<(), Cause> {
        self.is_named(location)?;
        Ok(location.remove(place)?)
    }

    /// Gives a copy the name of a file, and takes it away from that.
    pub fn rename(&self, location: &Location, copy: &File, place: Place) -> Result<(), Cause> {
        self.has_file(location, Place::Copy, copy)?;
        location.rename(Place::Copy, place)?;
        self.has_file(location, place, copy)
    }
}
