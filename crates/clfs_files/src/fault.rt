// Why a call of the folder failed: what it was about, what the system was asked for, and what the system said.
use std::alloc::AllocError;
use std::fmt;
use std::io::{self, ErrorKind};

// Why a copy was made that failed.
const MARKED: &str =
    "a sync failed in an earlier run, so each file has to be copied before anything is read";

/// What of the folder a call was about.
#[derive(Clone, Copy)]
pub(crate) enum Place {
    /// The folder itself.
    Folder,
    /// The folder that it lies in.
    Parent,
    /// A file of the log, by its number.
    File(u16),
    /// The mark of a failed sync.
    Mark,
    /// A copy of a file of the log, before it takes the file's name.
    Copy,
}

// The place as it follows the folder's path, so that both together are a path.
impl fmt::Display for Place {
    fn fmt<W: fmt::Write>(&self, f: &mut fmt::Formatter<W>) -> fmt::Result {
        match self {
            Place::Folder => Ok(()),
            Place::Parent => f.write_str("/.."),
            Place::File(0) => f.write_str("/base"),
            Place::File(file) => write!(f, "/c{file}"),
            Place::Mark => f.write_str("/unsynced"),
            Place::Copy => f.write_str("/unsynced-copy"),
        }
    }
}

/// What the system was asked for.
#[derive(Clone, Copy)]
pub(crate) enum Call {
    Make,
    Open,
    Lock,
    Look,
    Read,
    Write,
    Sync,
    /// Giving a copy the rights of the file that it is made of.
    GiveRights,
    /// Giving a copy the name of the file that it is made of.
    GiveName,
    Remove,
}

impl fmt::Display for Call {
    fn fmt<W: fmt::Write>(&self, f: &mut fmt::Formatter<W>) -> fmt::Result {
        f.write_str(match self {
            Call::Make => "make",
            Call::Open => "open",
            Call::Lock => "lock",
            Call::Look => "look",
            Call::Read => "read",
            Call::Write => "write",
            Call::Sync => "sync",
            Call::GiveRights => "give rights",
            Call::GiveName => "give name",
            Call::Remove => "remove",
        })
    }
}

/// Why it wasn't done.
#[derive(Clone, Copy)]
pub(crate) enum Cause {
    /// What the system said.
    System(io::Error),
    /// A folder, a device, a pipe or a socket stands in a file's place.
    NoRegularFile,
    /// A symbolic link stands in a file's place.
    SymbolicLink,
    /// The file has this many names.
    Names(u64),
    /// A folder stands in the place of a client's file.
    Folder,
    /// A client's replies would go into a file that has this many bytes.
    HasBytes(u64),
    /// A client's file is one of the log.
    OfLog,
    /// A client's file is the same one of the system as an earlier one of this client's or another's.
    OfClient(u16),
    /// The file is the same one of the system as this earlier one of the log.
    SameAs(Place),
    /// The path doesn't lead to the folder that is open and locked.
    OtherFolder,
    /// The file begins with this byte, as no file of a log does.
    FirstByte(u8),
    /// The file ends before the place.
    TooShort,
    /// The file, or the folder, isn't there.
    Absent,
    /// Another process has the folder.
    Taken,
    /// A sync of this run failed before, and nothing is read or written after it.
    AfterFailedSync,
    /// Files of the log may not be written, and this would have to be.
    MayOnlyBeRead,
}

impl From<io::Error> for Cause {
    fn from(error: io::Error) -> Cause {
        Cause::System(error)
    }
}

impl From<AllocError> for Cause {
    fn from(error: AllocError) -> Cause {
        Cause::System(error.into())
    }
}

impl fmt::Display for Cause {
    fn fmt<W: fmt::Write>(&self, f: &mut fmt::Formatter<W>) -> fmt::Result {
        match self {
            Cause::System(error) => write!(f, "{error}"),
            Cause::NoRegularFile => f.write_str("it is no regular file"),
            Cause::SymbolicLink => f.write_str("it is a symbolic link"),
            Cause::Names(count) => write!(f, "it has {count} names (hard links)"),
            Cause::Folder => f.write_str("it is a folder"),
            Cause::HasBytes(len) => write!(f, "it has {len} bytes"),
            Cause::OfLog => f.write_str("it is a file of the log"),
            Cause::OfClient(client) => write!(f, "client {client} has the same file"),
            Cause::SameAs(place) => write!(f, "it is the same file as FOLDER{place}"),
            Cause::OtherFolder => f.write_str("FOLDER isn't the folder that was opened"),
            Cause::FirstByte(byte) => write!(f, "no file of a log begins with the byte {byte}"),
            Cause::TooShort => f.write_str("it ends before the place"),
            Cause::Absent => f.write_str("it isn't there"),
            Cause::Taken => f.write_str("another process has the folder"),
            Cause::AfterFailedSync => f.write_str("a sync failed before"),
            Cause::MayOnlyBeRead => f.write_str("files of the log may only be read"),
        }
    }
}

/// A call of the folder that failed.
#[derive(Clone, Copy)]
pub(crate) struct Fault {
    place: Place,
    call: Call,
    cause: Cause,
}

impl Fault {
    /// A call about this place that failed for this cause.
    pub fn new(place: Place, call: Call, cause: Cause) -> Fault {
        Fault { place, call, cause }
    }

    /// Whether the system gave this reason.
    pub fn is_said(&self, reason: ErrorKind) -> bool {
        matches!(&self.cause, Cause::System(error) if error.kind() == reason)
    }

    // What a program can tell such a fault by, before the path: there is something to wait for or to mend other than the disk.
    fn kind(&self) -> &'static str {
        match (&self.place, &self.cause) {
            (_, Cause::Taken) => "locked: ",
            (Place::Folder, Cause::Absent) => "no folder: ",
            (Place::Folder, _) if self.is_said(ErrorKind::NotFound) => "no folder: ",
            _ if self.is_said(ErrorKind::PermissionDenied) => "no permission: ",
            _ => "",
        }
    }

    /// Says it on standard error, of the folder with this path. If that can't be said either, nothing more is done.
    pub fn tell(&self, rt: &HostRuntime, path: &str) {
        let _said = rt.eprintln(format_args!("clfs: {}{path}{self}", self.kind()));
    }
}

/// What was found, if anything is there.
pub(crate) fn if_there<T>(found: Result<T, Fault>) -> Result<Option<T>, Fault> {
    match found {
        Ok(value) => Ok(Some(value)),
        Err(fault) if fault.is_said(ErrorKind::NotFound) => Ok(None),
        Err(fault) => Err(fault),
    }
}

/// What comes of a call about this place.
pub(crate) fn asked<T, E: Into<Cause>>(
    place: Place,
    call: Call,
    answer: Result<T, E>,
) -> Result<T, Fault> {
    match answer {
        Ok(value) => Ok(value),
        Err(error) => Err(Fault::new(place, call, error.into())),
    }
}

impl fmt::Display for Fault {
    fn fmt<W: fmt::Write>(&self, f: &mut fmt::Formatter<W>) -> fmt::Result {
        let Fault { place, call, cause } = self;
        match (place, cause) {
            (Place::Folder, Cause::Taken | Cause::Absent) => write!(f, ": {cause}"),
            (Place::Copy, _) | (Place::Mark, Cause::MayOnlyBeRead) => {
                write!(f, "{place}: {call}: {cause}; {MARKED}")
            }
            _ => write!(f, "{place}: {call}: {cause}"),
        }
    }
}
