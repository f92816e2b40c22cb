// Files of the system as sources and sinks: the standard streams, and what a client of a shared log has, as a rule named pipes, each open until it is closed.
// What they give and take is not told; what is proved is that a call fails only if the count of faults rises. A call that a signal interrupts is made again,
// and so is one of a stream that isn't ready and doesn't wait: whoever began the program, or has the other end of a terminal, may have set it so. The
// standard library can't ask when a stream is ready, so it is tried again after a pause.
ghost use Rattle.std.specs.Prelude.{◌≡◌};
ghost use Rattle.clfs_ports.specs.Cause.{Rises};

use clfs_ports::{Failed, Sink, Source};
use std::fs::File;
use std::io::{self, ErrorKind, Read, Write};
use std::thread::sleep;
use std::time::{Clock, Duration};

// The longest pause, in milliseconds. The first is none, and each is longer by one than the one before.
const LONGEST_PAUSE: u64 = 10;

/// A reader or a writer, how often it has failed, and what the system said then. The clock is for the pauses.
#[derive(Drop)]
pub struct SystemPort<T: Drop, C: Clock + Drop> {
    inner: T,
    clock: C,
    pub(crate) error: Option<io::Error>,
    faults: u64,
}

impl<T: Drop, C: Clock + Drop> SystemPort<T, C> {
    /// One that hasn't failed yet.
    pub fn new(inner: T, clock: C) -> Self
        ensures { result.faults ≡ 0 }
    {
        SystemPort {
            inner,
            clock,
            error: None,
            faults: 0,
        }
    }

    // Counts a call that failed.
    fn fail(&mut self, error: io::Error) -> Failed
        ensures inner { self.new.inner ≡ self.old.inner }
        ensures faults { Rises self.old.faults self.new.faults }
    {
        self.error = Some(error);
        self.faults = self.faults.saturating_add(1);
        Failed
    }

    // Waits before a call is made again, after so many tries.
    fn pause(&self, tries: u64) {
        sleep(&self.clock, Duration::from_millis(tries.min(LONGEST_PAUSE)));
    }
}

// Whether a call that failed is to be made again.
fn is_passing(error: io::Error) -> bool {
    matches!(error.kind(), ErrorKind::Interrupted | ErrorKind::WouldBlock)
}

impl<R: Read + Drop, C: Clock + Drop> Source for SystemPort<R, C> {
    ghost left = { λ s. R.remaining s.inner };

    ghost faults = { λ s. s.faults };

    fn read(&mut self, out: &mut [u8]) -> Result<usize, Failed> {
        for tries in 0..u64::MAX {
            match self.inner.read(out) {
                Ok(count) => return Ok(count),
                Err(error) if is_passing(error) => self.pause(tries),
                Err(error) => return Err(self.fail(error)),
            }
        }
        Err(self.fail(ErrorKind::WouldBlock.into()))
    }
}

impl<W: Write + Drop, C: Clock + Drop> Sink for SystemPort<W, C> {
    ghost written = { λ s. W.contents s.inner };

    ghost faults = { λ s. s.faults };

    /// A writer that takes nothing of a piece that isn't empty has failed.
    fn write(&mut self, piece: &[u8]) -> Result<usize, Failed> {
        for tries in 0..u64::MAX {
            match self.inner.write(piece) {
                Ok(count) if count > 0 || piece.is_empty() => return Ok(count),
                Ok(_) => return Err(self.fail(ErrorKind::WriteZero.into())),
                Err(error) if is_passing(error) => self.pause(tries),
                Err(error) => return Err(self.fail(error)),
            }
        }
        Err(self.fail(ErrorKind::WouldBlock.into()))
    }
}

/// A file of a client. Once it is closed, reading and writing fail.
#[derive(Drop)]
pub struct ClientFile {
    pub(crate) file: Option<File>,
}

impl Read for ClientFile {
    fn read(&mut self, out: &mut [u8]) -> io::Result<usize> {
        match &mut self.file {
            Some(file) => file.read(out),
            None => Err(ErrorKind::NotFound.into()),
        }
    }
}

impl Write for ClientFile {
    fn write(&mut self, piece: &[u8]) -> io::Result<usize> {
        match &mut self.file {
            Some(file) => file.write(piece),
            None => Err(ErrorKind::NotFound.into()),
        }
    }

    fn flush(&mut self) -> io::Result<()> {
        Ok(())
    }
}

impl<C: Clock + Drop> SystemPort<ClientFile, C> {
    /// Closes the file, so that a program which reads from its other end comes to the end.
    pub fn close(&mut self)
        ensures { self.new.faults ≡ self.old.faults }
    {
        self.inner.file = None;
    }
}
