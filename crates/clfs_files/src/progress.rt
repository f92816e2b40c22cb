// The line on a terminal that tells how far a long work has come.
//
// It is for standard error, and there only if that is a terminal, so that nothing that reads it by program finds a line more. It is written over by
// the next one, or by whatever else comes. How far a log was read is told first, and taken away when the reading is over: by the disk, which sees a call
// that no reading of a whole log makes (`watched.rt`), or by the first call of a source or a sink after the first call of the disk, since a script is
// answered and a report written only then. What a port or a disk then takes or gives by itself is counted, where that is long.
ghost use Rattle.std.specs.Prelude.{◌≡◌};

use clfs_ports::{Failed, Sink, Source};
use std::io::{Eprint, IsTerminal};
use std::sync::atomic::{AtomicBool, Ordering};
use std::time::{Clock, Duration, Instant};

// Takes away what stands after the cursor in its line.
const REST_OF_LINE: &str = "\x1b[K";

// How many milliseconds a work takes before it is told.
const PATIENCE: u64 = 1000;

// How many milliseconds a line stands at least before the next one.
const PAUSE: u64 = 100;

/// When a work began, and when it was told last.
#[derive(Clone, Copy)]
pub(crate) struct Pace {
    begun: Option<Instant>,
    told: Option<Instant>,
}

impl Pace {
    /// That of a work that hasn't begun.
    pub(crate) fn new() -> Pace {
        Pace {
            begun: None,
            told: None,
        }
    }

    /// Whether it has begun.
    pub(crate) fn has_begun(&self) -> bool {
        self.begun.is_some()
    }

    /// Notes when it begins.
    pub(crate) fn begin<R: Clock>(&mut self, clock: &R) {
        if self.begun.is_none() {
            self.begun = Instant::now(clock).ok();
        }
    }

    /// Whether it is to be told now; if so it counts as told.
    pub(crate) fn is_due<R: Clock>(&mut self, clock: &R) -> bool {
        let Ok(now) = Instant::now(clock) else {
            return false;
        };
        let is_due = match (self.begun, self.told) {
            (Some(_), Some(told)) => Duration::from_millis(PAUSE) <= now.duration_since(told),
            (Some(begun), None) => Duration::from_millis(PATIENCE) <= now.duration_since(begun),
            (None, _) => false,
        };
        if is_due {
            self.told = Some(now);
        }
        is_due
    }
}

/// The line, and whether it is there now.
#[derive(Drop)]
pub struct Progress<R: Clock + Eprint + Drop> {
    rt: R,
    is_terminal: bool,
    // The disk was called.
    has_begun: AtomicBool,
    // The line stands on the terminal.
    is_shown: AtomicBool,
    // The reading is over, and the line isn't shown any more.
    is_over: AtomicBool,
}

impl<R: Clock + Eprint + Drop> Progress<R> {
    /// A line that isn't shown yet. Nothing is ever written if the stream isn't a terminal.
    pub fn new<T: IsTerminal>(rt: R, stream: &T) -> Progress<R> {
        Progress {
            rt,
            is_terminal: stream.is_terminal(),
            has_begun: AtomicBool::new(false),
            is_shown: AtomicBool::new(false),
            is_over: AtomicBool::new(false),
        }
    }

    /// Whether the line may be shown.
    pub(crate) fn is_wanted(&self) -> bool {
        self.is_terminal && !self.is_over.load(Ordering::SeqCst)
    }

    /// The clock.
    pub(crate) fn clock(&self) -> &R {
        &self.rt
    }

    /// The disk is called.
    pub(crate) fn begin(&self) {
        self.has_begun.store(true, Ordering::SeqCst);
    }

    /// Shows how much of a log was read, and leaves the cursor at the line's beginning, so that what comes next is written over it. The line is shorter
    /// than what a folder says of a call that failed.
    pub(crate) fn show(&self, judged: u64, all: u64) {
        self.is_shown.store(true, Ordering::SeqCst);
        // If it can't be said, nothing more is done.
        let _said = self.rt.eprint(format_args!(
            "\rclfs: judged {judged} of {all} bytes{REST_OF_LINE}\r"
        ));
    }

    /// Shows how many bytes something has taken or given, as `show` does.
    pub(crate) fn show_count(&self, done: &str, count: u64) {
        self.is_shown.store(true, Ordering::SeqCst);
        let _said = self.rt.eprint(format_args!("\rclfs: {done} {count} bytes{REST_OF_LINE}\r"));
    }

    /// The reading is over, if it has begun: the line is taken away, and how far a log was read isn't told again.
    pub fn end(&self) {
        if self.is_wanted() && self.has_begun.load(Ordering::SeqCst) {
            self.is_over.store(true, Ordering::SeqCst);
            self.clear();
        }
    }

    /// Takes the line away, if it is there.
    pub fn clear(&self) {
        if self.is_shown.load(Ordering::SeqCst) {
            self.is_shown.store(false, Ordering::SeqCst);
            let _said = self.rt.eprint(format_args!("\r{REST_OF_LINE}"));
        }
    }
}

/// The bytes that went one way, and whether they are told.
#[derive(Clone, Copy)]
pub(crate) struct Count {
    // What was done to them, as the line has it.
    done: &'static str,
    bytes: u64,
    pace: Pace,
}

impl Count {
    /// No byte yet.
    pub(crate) fn new(done: &'static str) -> Count {
        Count {
            done,
            bytes: 0,
            pace: Pace::new(),
        }
    }

    /// Notes when the first call comes.
    pub(crate) fn begin<R: Clock + Eprint + Drop>(&mut self, progress: &Progress<R>) {
        if progress.is_terminal {
            self.pace.begin(&progress.rt);
        }
    }

    /// Counts bytes, and tells how many there are if that is due.
    pub(crate) fn add<R: Clock + Eprint + Drop>(&mut self, bytes: u64, progress: &Progress<R>) {
        self.bytes = self.bytes.saturating_add(bytes);
        if progress.is_terminal && self.pace.is_due(&progress.rt) {
            progress.show_count(self.done, self.bytes);
        }
    }
}

/// What the calls of a source or a sink say of the work.
#[derive(Clone, Copy, PartialEq, Eq)]
pub enum PortUse {
    /// The log was read.
    Ends,
    /// The log is still being read.
    GoesOn,
    /// The log was read, and what goes this way takes long too. The line has this word for it.
    Counts(&'static str),
}

/// A source or a sink that says how far the work has come.
#[derive(Drop)]
pub struct WatchedPort<'a, T: Drop, R: Clock + Eprint + Drop> {
    inner: T,
    progress: &'a Progress<R>,
    ends: bool,
    count: Option<Count>,
}

impl<'a, T: Drop, R: Clock + Eprint + Drop> WatchedPort<'a, T, R> {
    /// The source or the sink.
    pub fn new(inner: T, progress: &'a Progress<R>, port_use: PortUse) -> WatchedPort<'a, T, R>
        ensures { result.inner ≡ inner }
    {
        let count = match port_use {
            PortUse::Counts(done) => Some(Count::new(done)),
            _ => None,
        };
        WatchedPort {
            inner,
            progress,
            ends: port_use != PortUse::GoesOn,
            count,
        }
    }

    // A call comes.
    fn begin(&mut self)
        ensures { self.new.inner ≡ self.old.inner }
    {
        if self.ends {
            self.progress.end();
        }
        match &mut self.count {
            Some(count) => count.begin(self.progress),
            None if self.ends => self.progress.clear(),
            None => {}
        }
    }

    // So many bytes went this way.
    fn add(&mut self, bytes: usize)
        ensures { self.new.inner ≡ self.old.inner }
    {
        if let Some(count) = &mut self.count {
            count.add(bytes as u64, self.progress);
        }
    }
}

impl<'a, S: Source + Drop, R: Clock + Eprint + Drop> Source for WatchedPort<'a, S, R> {
    ghost left = { λ s. S.left s.inner };

    ghost faults = { λ s. S.faults s.inner };

    fn read(&mut self, out: &mut [u8]) -> Result<usize, Failed> {
        self.begin();
        let count = self.inner.read(out)?;
        self.add(count);
        Ok(count)
    }
}

impl<'a, K: Sink + Drop, R: Clock + Eprint + Drop> Sink for WatchedPort<'a, K, R> {
    ghost written = { λ k. K.written k.inner };

    ghost faults = { λ k. K.faults k.inner };

    fn write(&mut self, piece: &[u8]) -> Result<usize, Failed> {
        self.begin();
        let count = self.inner.write(piece)?;
        self.add(count);
        Ok(count)
    }
}
