// Whether the folder can be used. It is looked at in the first call, so that a program that makes none leaves it alone. From then on
// it is locked, so that two processes never write one log. After a sync that failed nothing is read or written any more, and a mark is
// left for the runs that come (`unsynced.rt`). Why the first call failed that did is said on standard error, at once.
ghost use Rattle.std.specs.Prelude.{◌≤◌, length, IfOk};

use crate::directory::Directory;
use crate::fault::{Call, Cause, Fault, Place};
use crate::file::zeros;
use crate::location::Location;
use std::alloc::AllocError;

/// What is known of the folder.
#[derive(Drop)]
pub(crate) enum State {
    /// Nothing; no call was made yet, or none has found out.
    Unknown,
    /// It isn't there. The first growth makes it.
    Absent,
    /// It is open and locked.
    Open(Directory),
    /// Another process has it, and every call fails.
    Taken,
    /// A sync failed, and every call fails.
    Lost,
}

impl State {
    // Why a call on a folder that isn't open fails.
    fn refuses(&self, place: Place, call: Call) -> Fault {
        match self {
            State::Taken => Fault::new(Place::Folder, Call::Lock, Cause::Taken),
            State::Lost => Fault::new(place, call, Cause::AfterFailedSync),
            _ => Fault::new(place, call, Cause::Absent),
        }
    }
}

/// A folder, and how far it can be used.
#[derive(Drop)]
pub(crate) struct Access {
    location: Location,
    state: State,
    // Why a call failed was said already.
    has_told: bool,
}

impl Access {
    /// A folder that wasn't looked at yet.
    pub fn new(location: Location) -> Access {
        Access {
            location,
            state: State::Unknown,
            has_told: false,
        }
    }

    /// Another process was found to have the folder.
    pub fn is_taken(&self) -> bool {
        matches!(self.state, State::Taken)
    }

    /// Says that the folder isn't there, if that was found.
    pub fn tell_absent(&self) {
        if matches!(self.state, State::Absent) {
            self.location
                .tell(Fault::new(Place::Folder, Call::Open, Cause::Absent));
        }
    }

    /// The bytes of all files of a folder that is open, and else none.
    pub fn byte_count(&self) -> u64 {
        match &self.state {
            State::Open(directory) => directory.byte_count(),
            _ => 0,
        }
    }

    /// Says why a call failed, if it is the first one.
    pub fn tell(&mut self, fault: Fault) {
        if !self.has_told {
            self.location.tell(fault);
            self.has_told = true;
        }
    }

    // Finds out about the folder in the first call.
    fn look(&mut self) -> Result<(), Fault> {
        if matches!(self.state, State::Unknown) {
            self.state = Directory::open(&self.location)?;
        }
        Ok(())
    }

    // Finds out about the folder, and makes it if it isn't there.
    fn look_or_make(&mut self) -> Result<(), Fault> {
        self.look()?;
        if matches!(self.state, State::Absent) {
            self.state = Directory::make(&self.location)?;
        }
        Ok(())
    }

    /// What a file has from `at` on. A file that isn't there is empty.
    pub fn read(&mut self, file: u16, at: u64, out: &mut [u8]) -> Result<usize, Fault>
        requires { file ≤ 256 }
        ensures { IfOk result (λ n. n ≤ length out.old) }
    {
        self.look()?;
        match &self.state {
            State::Open(directory) => directory.read(file, at, out),
            State::Absent => Ok(0),
            state => Err(state.refuses(Place::File(file), Call::Read)),
        }
    }

    /// Writes within a file.
    pub fn write(&mut self, file: u16, at: u64, bytes: &[u8]) -> Result<(), Fault>
        requires { file ≤ 256 }
    {
        self.look()?;
        match &mut self.state {
            State::Open(directory) => directory.write(file, at, bytes),
            state => Err(state.refuses(Place::File(file), Call::Write)),
        }
    }

    /// Zeros for a growth to so many bytes. They are taken before anything else is done.
    pub fn zeros(&self, len: u64) -> Result<Vec<u8>, AllocError> {
        zeros(self.location.alloc(), len)
    }

    /// Makes a file at least so long, with zeros in pieces of these.
    pub fn grow(&mut self, file: u16, len: u64, zeros: &[u8]) -> Result<(), Fault>
        requires { file ≤ 256 }
    {
        self.look_or_make()?;
        match &mut self.state {
            State::Open(directory) => directory.grow(&self.location, file, len, zeros),
            state => Err(state.refuses(Place::File(file), Call::Write)),
        }
    }

    /// Syncs all files.
    pub fn sync(&mut self) -> Result<(), Fault> {
        self.look()?;
        let done = match &mut self.state {
            State::Open(directory) => directory.sync(),
            State::Absent => return Ok(()),
            state => return Err(state.refuses(Place::Folder, Call::Sync)),
        };
        if let Err(fault) = done {
            self.tell(fault);
            self.give_up();
        }
        done
    }

    // After a sync that failed: leaves the mark, or says that it can't be left, and makes every later call fail.
    fn give_up(&mut self) {
        if let State::Open(directory) = &self.state
            && let Err(fault) = directory.leave_mark(&self.location)
        {
            self.location.tell(fault);
            self.location.tell_no_mark();
        }
        self.state = State::Lost;
    }
}
