// One file of the folder.
//
// It has one name, since another name could be another file of this log or of a second one, and what is written by one name would stand
// under the other. Its length is known from its opening on, since the folder is locked and the file changes by these calls alone. A
// growth writes zeros and doesn't only move the end: so the medium has room for all that is written later within the length, and a later
// sync has no metadata to write. (docs/RUNNING.md says when that isn't so.)
ghost use Rattle.std.specs.Prelude.{◌≤◌, length, IfOk};

use crate::fault::{Call, Cause, Fault, Place, asked};
use crate::location::Opened;
use clfs_lsn::OPEN_GATE;
use std::alloc::{AllocError, Global};
use std::fs::{File, Metadata};
use std::io::{self, ErrorKind};
use std::os::unix::fs::{FileExt, MetadataExt};

// The most zeros that are written in one call, as many as the bytes of a largest block. On Linux later syncs of a few sectors were slower after
// pieces of 1 MiB, and reading was slower after pieces of a page.
pub(crate) const PIECE: usize = 1 << 16;

/// How many files a disk has.
pub(crate) const FILES: u16 = 257;

/// What tells a file or a folder of the system from all others, whatever the names are by which it is reached.
#[derive(Clone, Copy, PartialEq, Eq)]
pub(crate) struct Identity {
    device: u64,
    number: u64,
}

impl Identity {
    /// That of what the system described so.
    pub fn of(found: &Metadata) -> Identity {
        Identity {
            device: found.dev(),
            number: found.ino(),
        }
    }
}

/// An open file of the log.
#[derive(Drop)]
pub(crate) struct StoredFile {
    place: Place,
    file: File,
    identity: Identity,
    len: u64,
    // Something of it was written or grown since its last sync, or may have been before it was opened.
    is_unsynced: bool,
    // Why it may not be written, if that is so.
    denied: Option<io::Error>,
}

/// Zeros for a growth by so many bytes at most.
pub(crate) fn zeros(alloc: Global, most: u64) -> Result<Vec<u8>, AllocError> {
    let count = most.min(PIECE as u64) as usize;
    let mut zeros = Vec::with_capacity(alloc, count)?;
    zeros.resize(count, 0)?;
    Ok(zeros)
}

/// What comes of a sync. Of what is only read nothing waits to be written by this machine, and some file systems and media that are mounted to be read refuse
/// to sync it.
pub(crate) fn synced(done: io::Result<()>, is_only_read: bool) -> io::Result<()> {
    match done {
        Err(error)
            if is_only_read
                && matches!(
                    error.kind(),
                    ErrorKind::InvalidInput | ErrorKind::ReadOnlyFilesystem
                ) => { Ok(()) }
        done => done,
    }
}

impl StoredFile {
    /// A file that was just opened. Only a regular file of one name is taken.
    pub fn new(place: Place, opened: Opened) -> Result<StoredFile, Cause> {
        let Opened { file, denied } = opened;
        let found = file.metadata()?;
        if !found.is_file() {
            return Err(Cause::NoRegularFile);
        }
        if found.nlink() > 1 {
            return Err(Cause::Names(found.nlink()));
        }
        Ok(StoredFile {
            place,
            file,
            identity: Identity::of(&found),
            len: found.len(),
            is_unsynced: true,
            denied,
        })
    }

    /// Whether it was opened for reading alone, since it may not be written.
    pub fn is_only_read(&self) -> bool {
        self.denied.is_some()
    }

    // An error if it may not be written.
    fn may_be_written(&self) -> Result<(), Fault> {
        match self.denied {
            Some(error) => Err(Fault::new(self.place, Call::Write, error.into())),
            None => Ok(()),
        }
    }

    /// Whether both are one file of the system.
    pub fn is_same(&self, other: &StoredFile) -> bool {
        self.identity == other.identity
    }

    /// Which one of the log's files it is.
    pub fn place(&self) -> Place {
        self.place
    }

    /// How many bytes it has.
    pub fn len(&self) -> u64 {
        self.len
    }

    /// What the system says of it.
    pub fn metadata(&self) -> io::Result<Metadata> {
        self.file.metadata()
    }

    /// The bytes that are there from `at` on, as many as fit, however many the system gives in one call.
    pub fn read(&self, at: u64, out: &mut [u8]) -> Result<usize, Fault>
        ensures { IfOk result (λ n. n ≤ length out.old) }
    {
        let mut done = 0;
        for _ in 0..u64::MAX {
            if done == out.len() {
                break;
            }
            match self
                .file
                .read_at(&mut out[done..], at.saturating_add(done as u64))
            {
                Ok(0) => break,
                Ok(count) => done += count,
                Err(error) if error.kind() == ErrorKind::Interrupted => {}
                Err(error) => return Err(Fault::new(self.place, Call::Read, error.into())),
            }
        }
        Ok(done)
    }

    /// An error if it has a first byte that a file of a log never begins with: a gate, open or written as closed.
    pub fn refuse_foreign(&self) -> Result<(), Fault> {
        let mut first = [0];
        self.read(0, &mut first)?;
        if first[0] != 0 && first[0] != OPEN_GATE {
            return Err(Fault::new(self.place, Call::Look, Cause::FirstByte(first[0])));
        }
        Ok(())
    }

    /// Writes within the file. It is refused if the range ends past the file's end.
    pub fn write(&mut self, at: u64, bytes: &[u8]) -> Result<(), Fault> {
        self.may_be_written()?;
        match at.checked_add(bytes.len() as u64) {
            Some(end) if end <= self.len => {}
            _ => return Err(Fault::new(self.place, Call::Write, Cause::TooShort)),
        }
        self.is_unsynced = true;
        asked(self.place, Call::Write, self.file.write_all_at(bytes, at))
    }

    /// Writes zeros, in pieces of `zeros`, from the file's end up to `len`.
    pub fn grow(&mut self, len: u64, zeros: &[u8]) -> Result<(), Fault> {
        if self.len < len {
            self.may_be_written()?;
        }
        for at in (self.len..len).step_by(PIECE) {
            self.is_unsynced = true;
            let count = ((len - at) as usize).min(zeros.len());
            asked(
                self.place,
                Call::Write,
                self.file.write_all_at(&zeros[..count], at),
            )?;
            self.len = at + count as u64;
        }
        Ok(())
    }

    /// Syncs what was written and grown since the last sync.
    pub fn sync(&mut self) -> Result<(), Fault> {
        if self.is_unsynced {
            let done = synced(self.file.sync_data(), self.is_only_read());
            asked(self.place, Call::Sync, done)?;
            self.is_unsynced = false;
        }
        Ok(())
    }
}
