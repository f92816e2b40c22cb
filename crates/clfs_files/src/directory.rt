// The folder, open and locked, with the files that are in it.
//
// A sync that is answered with Ok says that all that was written and grown, in all files, is on the medium, and that the files are found
// in the folder:
// - a file is synced if it was written or grown since its last sync, the folder if a file was made in it since. A sync looks at no file below
//   the first or above the last that changed since the sync before;
// - the first sync of a run syncs every file that is there, the folder, and the folder that it lies in. Who wrote them may have been
//   killed before it synced, so that they are read and still not on the medium.
// If a sync of an earlier run failed, the files are replaced by synced copies before anything is read (`unsynced.rt`).
ghost use Rattle.std.specs.Prelude.{◌≡◌, ◌≤◌, length, IfOk};

use crate::access::State;
use crate::fault::{Call, Cause, Fault, Place, asked, if_there};
use crate::file::{FILES, StoredFile, synced};
use crate::held::HeldFolder;
use crate::location::Location;
use crate::unsynced::{has_mark, leave_mark, renew};
use std::alloc::AllocError;
use std::fs::File;
use std::io::ErrorKind;

// Where the files are that may have changed since the last sync: none below the first, and none from the end on.
#[derive(Clone, Copy)]
struct Changed {
    first: u16,
    end: u16,
    ghost inside: { end ≤ 257 },
}

// All files, and none.
const ALL: Changed = Changed {
    first: 0,
    end: FILES,
};

const NONE: Changed = Changed {
    first: FILES,
    end: 0,
};

impl Changed {
    // These, and this file too.
    fn with(self, file: u16) -> Changed
        requires { file ≤ 256 }
    {
        Changed {
            first: self.first.min(file),
            end: self.end.max(file + 1),
        }
    }
}

/// The lock is held as long as this value is there.
#[derive(Drop)]
pub(crate) struct Directory {
    folder: HeldFolder,
    files: Vec<Option<StoredFile>>,
    changed: Changed,
    // A file was made since the folder's last sync, or may have been before it was opened.
    is_unsynced: bool,
    // The folder that this one lies in, until the first sync. None also if this process may not read it, or if it is on another device.
    parent: Option<File>,
    // A file may not be written, and was opened for reading alone. Nothing is written then.
    is_only_read: bool,
    ghost count: { length files.items ≡ 257 },
}

// The file among these that is the same one of the system.
fn twin<'a>(files: &'a [Option<StoredFile>], file: &StoredFile) -> Option<&'a StoredFile> {
    for slot in files {
        if let Some(other) = slot
            && other.is_same(file)
        {
            return Some(other);
        }
    }
    None
}

// Opens a file, if it is there and none of the earlier ones.
fn open_other(
    location: &Location,
    folder: &HeldFolder,
    earlier: &[Option<StoredFile>],
    file: u16,
) -> Result<Option<StoredFile>, Fault> {
    let place = Place::File(file);
    let Some(opened) = if_there(asked(place, Call::Open, folder.open(location, place)))? else {
        return Ok(None);
    };
    if let Some(other) = twin(earlier, &opened) {
        return Err(Fault::new(place, Call::Open, Cause::SameAs(other.place())));
    }
    Ok(Some(opened))
}

// All files, those that are in the folder open.
fn open_files(location: &Location, folder: &HeldFolder) -> Result<Vec<Option<StoredFile>>, Fault>
    ensures { IfOk result (λ files. length files.items ≡ 257) }
{
    let mut files = match Vec::with_capacity(location.alloc(), FILES as usize) {
        Ok(files) => files,
        Err(error) => return Err(Fault::new(Place::Folder, Call::Open, error.into())),
    };
    for file in 0..FILES {
        let opened = open_other(location, folder, &files, file)?;
        if let Err(error) = files.push(opened) {
            let error = AllocError::from(error);
            return Err(Fault::new(Place::Folder, Call::Open, error.into()));
        }
    }
    Ok(files)
}

// Whether one of these files was opened for reading alone.
fn is_any_only_read(files: &[Option<StoredFile>]) -> bool {
    for slot in files {
        if let Some(file) = slot
            && file.is_only_read()
        {
            return true;
        }
    }
    false
}

impl Directory {
    /// Opens and locks the folder, if it is there and no other process has it. If the folder that it lies in may not be read, that is said, and
    /// the folder is used all the same.
    pub fn open(location: &Location) -> Result<State, Fault> {
        let Some(folder) = location.open_folder()? else {
            return Ok(State::Absent);
        };
        match location.open_parent(&folder) {
            Ok(parent) => Directory::lock(location, folder, parent),
            Err(fault) if fault.is_said(ErrorKind::PermissionDenied) => {
                location.tell_unsynced_name(fault);
                Directory::lock(location, folder, None)
            }
            Err(fault) => Err(fault),
        }
    }

    /// Makes the folder, and opens and locks it. The folder that it lies in has to be one that can be opened and synced, since the new name
    /// stands there.
    pub fn make(location: &Location) -> Result<State, Fault> {
        location.make_folder()?;
        let Some(folder) = location.open_folder()? else {
            return Ok(State::Absent);
        };
        let parent = location.open_parent(&folder)?;
        Directory::lock(location, folder, parent)
    }

    // Locks the folder, and opens what is in it.
    fn lock(location: &Location, folder: File, parent: Option<File>) -> Result<State, Fault> {
        let Some(folder) = HeldFolder::lock(folder)? else {
            return Ok(State::Taken);
        };
        let mut files = open_files(location, &folder)?;
        let is_only_read = is_any_only_read(&files);
        if has_mark(location, &folder)? {
            if is_only_read {
                return Err(Fault::new(Place::Mark, Call::Look, Cause::MayOnlyBeRead));
            }
            renew(location, &folder, files)?;
            files = open_files(location, &folder)?;
        }
        Ok(State::Open(Directory {
            folder,
            files,
            changed: ALL,
            is_unsynced: true,
            parent,
            is_only_read,
        }))
    }

    /// Leaves the mark of a failed sync.
    pub fn leave_mark(&self, location: &Location) -> Result<(), Fault> {
        leave_mark(location, &self.folder)
    }

    /// The bytes of all files that are there, as they were made.
    pub fn byte_count(&self) -> u64 {
        let mut count = 0u64;
        for slot in &self.files {
            if let Some(file) = slot {
                count = count.saturating_add(file.len());
            }
        }
        count
    }

    /// What a file has from `at` on. A file that isn't there is empty.
    pub fn read(&self, file: u16, at: u64, out: &mut [u8]) -> Result<usize, Fault>
        requires { file ≤ 256 }
        ensures { IfOk result (λ n. n ≤ length out.old) }
    {
        match &self.files[file as usize] {
            Some(stored) => stored.read(at, out),
            None => Ok(0),
        }
    }

    /// Writes within a file.
    pub fn write(&mut self, file: u16, at: u64, bytes: &[u8]) -> Result<(), Fault>
        requires { file ≤ 256 }
    {
        if self.is_only_read {
            return Err(Fault::new(Place::File(file), Call::Write, Cause::MayOnlyBeRead));
        }
        self.changed = self.changed.with(file);
        match &mut self.files[file as usize] {
            Some(stored) => stored.write(at, bytes),
            None => Err(Fault::new(Place::File(file), Call::Write, Cause::Absent)),
        }
    }

    // An error if a file stands in a container's place that is none, where the base file has no bytes, so that nothing of a log was made. What a crash leaves
    // of making one is never refused: the other files get nothing but zeros until the base file is on the medium in all its length, and
    // a container begins with its gate, which is written as open or as 0. Where the base file has bytes nothing is looked at, since a crash may have left any byte
    // where a gate was written.
    fn refuse_foreign(&self) -> Result<(), Fault> {
        if let Some(base) = &self.files[0]
            && base.len() > 0
        {
            return Ok(());
        }
        for slot in &self.files {
            if let Some(file) = slot {
                file.refuse_foreign()?;
            }
        }
        Ok(())
    }

    // An error if a file would be made beside others that may not be written.
    fn may_make(&self, file: u16) -> Result<(), Fault>
        requires { file ≤ 256 }
    {
        if self.is_only_read && self.files[file as usize].is_none() {
            return Err(Fault::new(Place::File(file), Call::Make, Cause::MayOnlyBeRead));
        }
        Ok(())
    }

    /// Makes a file at least so long, and the file itself if it isn't there.
    pub fn grow(
        &mut self,
        location: &Location,
        file: u16,
        len: u64,
        zeros: &[u8],
    ) -> Result<(), Fault>
        requires { file ≤ 256 }
    {
        self.refuse_foreign()?;
        self.may_make(file)?;
        self.changed = self.changed.with(file);
        let slot = &mut self.files[file as usize];
        if slot.is_none() {
            let place = Place::File(file);
            *slot = Some(asked(place, Call::Make, self.folder.make_file(location, place))?);
            self.is_unsynced = true;
        }
        match slot {
            Some(stored) => stored.grow(len, zeros),
            None => Ok(()),
        }
    }

    /// Syncs what was written, grown and made since the last sync; the first time all that is there.
    pub fn sync(&mut self) -> Result<(), Fault> {
        self.sync_files()?;
        if self.is_unsynced {
            let done = synced(self.folder.sync(), self.is_only_read);
            asked(Place::Folder, Call::Sync, done)?;
            self.is_unsynced = false;
        }
        match self.parent.take() {
            Some(parent) => {
                let done = synced(parent.sync_all(), self.is_only_read);
                asked(Place::Parent, Call::Sync, done)
            }
            None => Ok(()),
        }
    }

    fn sync_files(&mut self) -> Result<(), Fault> {
        let Changed { first, end } = self.changed;
        if first < end {
            for slot in self.files[first as usize..end as usize].iter_mut() {
                if let Some(file) = slot {
                    file.sync()?;
                }
            }
        }
        self.changed = NONE;
        Ok(())
    }
}
