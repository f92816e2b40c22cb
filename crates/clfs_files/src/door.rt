// The door of a shared log: a named pipe, `door`, in a folder, to which programs write the names of their own pipes.
//
// Nothing that is opened here is waited for: the door is opened for reading and writing, and so is each pipe of a program, as a guard, before it is opened as
// it is needed. Once the guard is closed the end of a program's pipe is seen exactly when the program has closed it, or died. Only pipes are taken: the name
// is looked at before, since opening a device could do anything, and what was opened has to be what was seen. Both names of a program are removed once its
// pipes are open, so that no later program finds them.
//
// Who is free reads the next name, and the others wait for it under a lock, which is given up before the program is served. Those who stand at the door are
// kept by its pipe alone. What is no name is said on standard error and dropped, as is a name without two pipes.
use crate::file::Identity;
use crate::location::above_streams;
use crate::paths::ClientPort;
use crate::ports::{ClientFile, SystemPort};
use std::alloc::{AllocError, Global};
use std::fmt;
use std::fs::{self, File, OpenOptions};
use std::io::{self, ErrorKind, Read};
use std::os::unix::fs::FileTypeExt;
use std::str::from_utf8;
use std::sync::{Arc, Mutex, Wait};

// The longest name.
const LONGEST_NAME: usize = 64;

// A name and its line feed.
const LONGEST_LINE: usize = 65;

// Why a pipe isn't open.
#[derive(Clone, Copy)]
enum NoPipe {
    System(io::Error),
    OtherKind,
    Replaced,
}

impl From<io::Error> for NoPipe {
    fn from(error: io::Error) -> NoPipe {
        NoPipe::System(error)
    }
}

impl From<AllocError> for NoPipe {
    fn from(error: AllocError) -> NoPipe {
        NoPipe::System(error.into())
    }
}

impl fmt::Display for NoPipe {
    fn fmt<W: fmt::Write>(&self, f: &mut fmt::Formatter<W>) -> fmt::Result {
        match self {
            NoPipe::System(error) => write!(f, "{error}"),
            NoPipe::OtherKind => f.write_str("it is no named pipe"),
            NoPipe::Replaced => f.write_str("it was replaced while it was opened"),
        }
    }
}

// Which ends of a pipe are opened.
#[derive(Clone, Copy)]
enum Ends {
    Both,
    Reading,
    Writing,
}

// Opens ends of the pipe that was seen at a path.
fn open_ends(rt: &HostRuntime, path: &str, ends: Ends, seen: Identity) -> Result<File, NoPipe> {
    let mut options = OpenOptions::new();
    match ends {
        Ends::Both => options.read(true).write(true),
        Ends::Reading => options.read(true),
        Ends::Writing => options.write(true),
    };
    let file = above_streams(options.open(rt, path)?)?;
    if Identity::of(&file.metadata()?) != seen {
        return Err(NoPipe::Replaced);
    }
    Ok(file)
}

// The pipe at a path.
fn find_pipe(rt: &HostRuntime, path: &str) -> Result<Identity, NoPipe> {
    let found = fs::symlink_metadata(rt, path)?;
    if !found.file_type().is_fifo() {
        return Err(NoPipe::OtherKind);
    }
    Ok(Identity::of(&found))
}

// Opens a pipe of a program, without waiting for the program.
fn open_pipe(rt: &HostRuntime, path: &str, ends: Ends) -> Result<File, NoPipe> {
    let seen = find_pipe(rt, path)?;
    let _guard = open_ends(rt, path, Ends::Both, seen)?;
    open_ends(rt, path, ends, seen)
}

// What came to the door by a line.
enum Came {
    Name(String),
    NoName,
    Stop,
}

// What was read from the door and isn't used yet.
#[derive(Drop)]
struct Names {
    file: File,
    bytes: [u8; 512],
    next: usize,
    end: usize,
    // No more come.
    is_over: bool,
}

impl Names {
    // Waits for the next byte.
    fn byte(&mut self) -> io::Result<u8> {
        if self.next >= self.end {
            self.next = 0;
            self.end = self.fill()?.min(self.bytes.len());
        }
        let byte = self.bytes.get(self.next).copied().unwrap_or(0);
        self.next = self.next.saturating_add(1);
        Ok(byte)
    }

    // How many bytes were read, at least one. The door has a writing end of its own, so it has no end.
    fn fill(&mut self) -> io::Result<usize> {
        for _ in 0..u64::MAX {
            match self.file.read(&mut self.bytes) {
                Ok(0) => return Err(ErrorKind::UnexpectedEof.into()),
                Ok(count) => return Ok(count),
                Err(error) if error.kind() == ErrorKind::Interrupted => {}
                Err(error) => return Err(error),
            }
        }
        Err(ErrorKind::Interrupted.into())
    }

    // Waits for the next line, of which as many bytes are taken as a name and its line feed can have, and says how many it has without its line feed.
    fn line(&mut self, line: &mut [u8; LONGEST_LINE]) -> io::Result<usize> {
        let mut length: usize = 0;
        for _ in 0..u64::MAX {
            let byte = self.byte()?;
            if byte == b'\n' {
                return Ok(length);
            }
            if let Some(place) = line.get_mut(length) {
                *place = byte;
            }
            length = length.saturating_add(1);
        }
        Ok(length)
    }

    // Waits for what comes next.
    fn name(&mut self, alloc: Global) -> io::Result<Came> {
        let mut line = [0; LONGEST_LINE];
        let length = self.line(&mut line)?;
        let (line, _) = line.split_at(length.min(LONGEST_LINE));
        if line == b"stop".as_slice() {
            return Ok(Came::Stop);
        }
        match from_utf8(line) {
            Ok(name) if is_name(name) => Ok(Came::Name(String::from_str(alloc, name)?)),
            _ => Ok(Came::NoName),
        }
    }
}

// Whether a name may have this byte.
fn is_of_names(byte: u8) -> bool {
    byte.is_ascii_alphanumeric() || matches!(byte, b'_' | b'-' | b'.')
}

// Whether a line is a name.
fn is_name(line: &str) -> bool {
    let bytes = line.as_bytes();
    if bytes.is_empty() || bytes.len() > LONGEST_NAME || line.starts_with('.') {
        return false;
    }
    for byte in bytes {
        if !is_of_names(*byte) {
            return false;
        }
    }
    true
}

/// A door that is open.
#[derive(Drop)]
pub struct Door {
    rt: HostRuntime,
    place: String,
    names: Mutex<Names>,
}

/// The door can't be read any more.
#[derive(Clone, Copy, Debug, PartialEq, Eq)]
pub struct DoorFailed;

impl Door {
    /// Opens the door in a place. None if it can't be opened, and then the cause was said.
    pub fn open(rt: HostRuntime, place: &str) -> Result<Option<Door>, AllocError> {
        let path = format!(in rt.alloc(); "{place}/door")?;
        let opened = match find_pipe(&rt, &path) {
            Ok(seen) => open_ends(&rt, &path, Ends::Both, seen),
            Err(cause) => Err(cause),
        };
        let file = match opened {
            Ok(file) => file,
            Err(cause) => {
                let _said = rt.eprintln(format_args!("clfs: {path}: open: {cause}"));
                return Ok(None);
            }
        };
        let names = Names {
            file,
            bytes: [0; 512],
            next: 0,
            end: 0,
            is_over: false,
        };
        Ok(Some(Door {
            rt,
            place: String::from_str(rt.alloc(), place)?,
            names: Mutex::new(names),
        }))
    }

    // Says why something in the place isn't done.
    fn tell(&self, what: &str, why: &impl fmt::Display) {
        let place = self.place.as_str();
        let _said = self
            .rt
            .eprintln(format_args!("clfs: {place}/{what}: {why}"));
    }

    // Waits for the next line that is a name. None if no more come.
    fn next(&self, waits: &impl Wait) -> Result<Option<String>, DoorFailed> {
        let mut names = self.names.lock(waits);
        for _ in 0..u64::MAX {
            if names.is_over {
                return Ok(None);
            }
            match names.name(self.rt.alloc()) {
                Ok(Came::Name(name)) => return Ok(Some(name)),
                Ok(Came::Stop) => names.is_over = true,
                Ok(Came::NoName) => self.tell("door", &"a line is no name"),
                Err(error) => {
                    self.tell("door: read", &error);
                    return Err(DoorFailed);
                }
            }
        }
        Err(DoorFailed)
    }

    // Opens a pipe of a program. None if it can't be opened, and then the cause was said.
    fn open_pipe(&self, name: &str, ending: &str, ends: Ends) -> Option<File> {
        let Ok(path) = format!(in self.rt.alloc(); "{}/{name}.{ending}", self.place) else {
            self.tell(name, &"out of memory");
            return None;
        };
        match open_pipe(&self.rt, &path, ends) {
            Ok(file) => Some(file),
            Err(cause) => {
                let _said = self
                    .rt
                    .eprintln(format_args!("clfs: {path}: open: {cause}"));
                None
            }
        }
    }

    // Takes the name of a pipe away that is open.
    fn remove(&self, name: &str, ending: &str) {
        if let Ok(path) = format!(in self.rt.alloc(); "{}/{name}.{ending}", self.place) {
            let _gone = fs::remove_file(&self.rt, &path);
        }
    }

    // Opens the two pipes of a program, and takes their names away.
    fn pipes(&self, name: &str) -> Option<(File, File)> {
        let input = self.open_pipe(name, "in", Ends::Reading)?;
        let output = self.open_pipe(name, "out", Ends::Writing)?;
        self.remove(name, "in");
        self.remove(name, "out");
        Some((input, output))
    }
}

/// Where programs come in that have one client's number, one after the other.
#[derive(Drop)]
pub struct Entrance {
    rt: HostRuntime,
    door: Arc<Door, Global>,
    client: u32,
}

impl Entrance {
    /// The entrance of the client of this number. Nobody has come yet.
    pub fn new(rt: HostRuntime, door: Arc<Door, Global>, client: u32) -> Entrance {
        Entrance { rt, door, client }
    }

    /// Waits for the next program, and opens its pipes. None if no more come.
    pub fn next(&self, waits: &impl Wait) -> Result<Option<(ClientPort, ClientPort)>, DoorFailed> {
        for _ in 0..u64::MAX {
            let Some(name) = self.door.next(waits)? else {
                return Ok(None);
            };
            if let Some((input, output)) = self.door.pipes(name.as_str()) {
                return Ok(Some((self.port(input), self.port(output))));
            }
        }
        Err(DoorFailed)
    }

    fn port(&self, file: File) -> ClientPort {
        SystemPort::new(ClientFile { file: Some(file) }, self.rt)
    }

    /// Says that the input of a program couldn't be read on, or its output couldn't be written on. A program that is gone is no fault.
    pub fn tell_failed(&self, source: &ClientPort, sink: &ClientPort) {
        if let Some(error) = source.error {
            self.tell("in: read: ", &error);
        }
        if let Some(error) = sink.error {
            if error.kind() != ErrorKind::BrokenPipe {
                self.tell("out: write: ", &error);
            }
        }
    }

    /// Says why a program was sent away.
    pub fn tell_why(&self, why: &str) {
        self.tell("", &why);
    }

    fn tell(&self, call: &str, why: &impl fmt::Display) {
        let client = self.client;
        let _said = self
            .rt
            .eprintln(format_args!("clfs: client {client}: {call}{why}"));
    }
}
