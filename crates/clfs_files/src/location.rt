// Where the folder is, and what its files are called: `base` for file 0, and `c1` to `c256` for the others. Here the system is asked
// by name; nothing that isn't a folder or a regular file of one name is opened, since opening a pipe could wait for ever, and opening a
// device could do anything. A file is opened to read and write it. Where a log is only to be judged, one that may not be written, as on a medium that is
// mounted to be read, is opened for reading alone.
use crate::fault::{Call, Cause, Fault, Place, asked, if_there};
use std::alloc::Global;
use std::fs::{self, File, Metadata, OpenOptions, symlink_metadata};
use std::io::{self, ErrorKind};
use std::os::fd::AsRawFd;
use std::os::unix::fs::MetadataExt;

// What is said if a failed sync can leave no mark.
const NO_MARK: &str =
    "clfs: a sync failed, and the next opening can't know it: before it, mount the file system again or restart the machine";

// What is said if the folder that this one lies in may not be read.
const UNSYNCED_NAME: &str = "the name of the log's folder isn't synced, which matters if it is new";

/// The path of a folder, whose last name need not be there.
#[derive(Drop)]
pub(crate) struct Location {
    rt: HostRuntime,
    path: String,
    use_of_files: FileUse,
}

/// What the files of a folder are opened for.
#[derive(Clone, Copy, PartialEq, Eq)]
pub enum FileUse {
    /// To read and write them.
    Writing,
    /// To read them; what may be written is opened for that too, so that it can be synced and copied.
    Reading,
}

/// A file of the log that was opened, and why it may not be written, if that is so.
#[derive(Drop)]
pub(crate) struct Opened {
    pub file: File,
    pub denied: Option<io::Error>,
}

// Whether the system says so that a file may not be written.
fn is_denied(error: io::Error) -> bool {
    matches!(
        error.kind(),
        ErrorKind::PermissionDenied | ErrorKind::ReadOnlyFilesystem
    )
}

/// What is written to a standard stream that the caller had closed must not land in a file of the log or of a client, so a file that got the number of
/// such a stream is moved above them.
pub(crate) fn above_streams(file: File) -> io::Result<File> {
    if file.as_raw_fd() <= 2 {
        return file.try_clone();
    }
    Ok(file)
}

impl Location {
    /// The folder of this path, whose files are opened for this.
    pub fn new(rt: HostRuntime, path: String, use_of_files: FileUse) -> Location {
        Location {
            rt,
            path,
            use_of_files,
        }
    }

    /// Memory.
    pub fn alloc(&self) -> Global {
        self.rt.alloc()
    }

    /// Says on standard error that a call failed.
    pub fn tell(&self, fault: Fault) {
        fault.tell(&self.rt, &self.path);
    }

    /// Says on standard error that the name of the folder isn't synced, and why. That is no fault.
    pub fn tell_unsynced_name(&self, fault: Fault) {
        let _said = self.rt.eprintln(format_args!("clfs: {}{}; {UNSYNCED_NAME}", self.path, fault));
    }

    /// Says on standard error that a failed sync left no mark, and what has to be done in its place.
    pub fn tell_no_mark(&self) {
        let _said = self.rt.eprintln(NO_MARK);
    }

    /// Opens the folder. None if it isn't there. What is no folder is refused at once: the dot after its name asks for one.
    pub fn open_folder(&self) -> Result<Option<File>, Fault> {
        if self.path.is_empty() {
            return Ok(None);
        }
        if_there(asked(Place::Folder, Call::Open, self.open_directory("/.")))
    }

    /// Makes the folder. An error if something has its name.
    pub fn make_folder(&self) -> Result<(), Fault> {
        asked(
            Place::Folder,
            Call::Make,
            fs::create_dir(&self.rt, &self.path),
        )
    }

    /// Opens the folder that this one lies in. None if that is on another device: this one is the root of a file system then, and its name there
    /// is none of that file system.
    pub fn open_parent(&self, folder: &File) -> Result<Option<File>, Fault> {
        asked(Place::Parent, Call::Open, self.try_open_parent(folder))
    }

    fn try_open_parent(&self, folder: &File) -> io::Result<Option<File>> {
        let parent = fs::metadata(&self.rt, &self.path_of(Place::Parent)?)?;
        if parent.dev() != folder.metadata()?.dev() {
            return Ok(None);
        }
        Ok(Some(self.open_directory("/..")?))
    }

    fn open_directory(&self, more: &str) -> io::Result<File> {
        let path = format!(in self.alloc(); "{}{more}", self.path)?;
        above_streams(fs::open(&self.rt, &path)?)
    }

    /// The folder to which the path leads.
    pub fn find_folder(&self) -> io::Result<Metadata> {
        fs::metadata(&self.rt, &format!(in self.alloc(); "{}/.", self.path)?)
    }

    /// What has the name.
    pub fn find(&self, place: Place) -> io::Result<Metadata> {
        symlink_metadata(&self.rt, &self.path_of(place)?)
    }

    /// Opens a file that is there.
    pub fn open(&self, place: Place) -> Result<Opened, Cause> {
        let found = self.find(place)?;
        if found.is_symlink() {
            return Err(Cause::SymbolicLink);
        }
        if !found.is_file() {
            return Err(Cause::NoRegularFile);
        }
        let path = self.path_of(place)?;
        let opened = OpenOptions::new()
            .read(true)
            .write(true)
            .open(&self.rt, &path);
        let (opened, denied) = match opened {
            Ok(opened) => (opened, None),
            Err(error) if is_denied(error) && self.use_of_files == FileUse::Reading => {
                (fs::open(&self.rt, &path)?, Some(error))
            }
            Err(error) => return Err(error.into()),
        };
        Ok(Opened {
            file: above_streams(opened)?,
            denied,
        })
    }

    /// Makes an empty file. An error if something has its name.
    pub fn make(&self, place: Place) -> io::Result<File> {
        above_streams(File::create_new(&self.rt, &self.path_of(place)?)?)
    }

    /// Takes the name away.
    pub fn remove(&self, place: Place) -> io::Result<()> {
        fs::remove_file(&self.rt, &self.path_of(place)?)
    }

    /// Gives what has one name the other, and takes it away from whatever has that.
    pub fn rename(&self, from: Place, to: Place) -> io::Result<()> {
        fs::rename(&self.rt, &self.path_of(from)?, &self.path_of(to)?)
    }

    fn path_of(&self, place: Place) -> io::Result<String> {
        Ok(format!(in self.alloc(); "{}{place}", self.path)?)
    }
}
