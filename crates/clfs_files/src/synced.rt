// A sink whose bytes may have to outlast a crash before something else is done: standard output that takes an archive, after which the archive tail moves.
//
// Whoever hands bytes to a sink can't tell it which are the last. So where standard output is a regular file, each piece is synced before it counts as
// taken: a sink that has taken all of an archive has it on the medium. A pipe, a terminal or a device can't be synced, and what becomes of its bytes is for
// whoever has the other end. The standard library can't sync a standard stream, so its file is opened once more, by the name that the system has for it.
ghost use Rattle.std.specs.Prelude.{◌≡◌, ◌≤◌, None};
ghost use Rattle.clfs_ports.specs.Cause.{Rises};

use crate::location::above_streams;
use clfs_ports::{Failed, Sink};
use std::fs::{self, File};
use std::io;

// The name of what standard output leads to.
const STANDARD_OUTPUT: &str = "/proc/self/fd/1";

/// Whether standard output is a regular file, as far as that can be found out.
pub fn is_regular_output(rt: &HostRuntime) -> bool {
    match fs::metadata(rt, STANDARD_OUTPUT) {
        Ok(found) => found.is_file(),
        Err(_) => false,
    }
}

// What standard output leads to, as far as that matters here.
#[derive(Drop)]
enum Target {
    // It wasn't looked at.
    Unknown,
    // It isn't synced.
    NotSynced,
    // It is this regular file.
    Regular(File),
}

/// Standard output, synced piece by piece if it is a regular file and that is wanted.
#[derive(Drop)]
pub struct SyncedOutput<K: Sink + Drop> {
    inner: K,
    rt: HostRuntime,
    target: Target,
    faults: u64,
}

impl<K: Sink + Drop> SyncedOutput<K> {
    /// What writes to standard output, which isn't looked at before the first piece is written.
    pub fn new(inner: K, rt: HostRuntime, is_wanted: bool) -> SyncedOutput<K>
        ensures { result.faults ≡ 0 }
    {
        let target = if is_wanted {
            Target::Unknown
        } else {
            Target::NotSynced
        };
        SyncedOutput {
            inner,
            rt,
            target,
            faults: 0,
        }
    }

    // Says on standard error what couldn't be done, and what comes of it. If that can't be said either, nothing more is done.
    fn tell(&self, call: &str, error: io::Error, what_follows: &str) {
        let _said = self.rt.eprintln(format_args!(
            "clfs: standard output: {call}: {error}; {what_follows}"
        ));
    }

    // What standard output leads to. What can't be opened to be synced is told, and then used unsynced.
    fn look(&self) -> Target {
        match fs::metadata(&self.rt, STANDARD_OUTPUT) {
            Ok(found) if found.is_file() => {}
            Ok(_) => return Target::NotSynced,
            Err(error) => {
                self.tell(
                    "look",
                    error,
                    "if it is a file, what is written isn't synced",
                );
                return Target::NotSynced;
            }
        }
        match self.open() {
            Ok(file) => Target::Regular(file),
            Err(error) => {
                self.tell("open", error, "what is written isn't synced");
                Target::NotSynced
            }
        }
    }

    fn open(&self) -> io::Result<File> {
        above_streams(fs::open(&self.rt, STANDARD_OUTPUT)?)
    }

    // Counts a call that failed.
    fn fail(&mut self) -> Failed
        ensures later { self.old.faults ≤ self.new.faults }
        ensures faults { Rises self.old.faults self.new.faults }
    {
        self.faults = self.faults.saturating_add(1);
        Failed
    }

    // Syncs what was written, if it is in a regular file.
    fn sync(&mut self) -> Result<(), io::Error>
        ensures { self.new.faults ≡ self.old.faults }
    {
        if matches!(self.target, Target::Unknown) {
            self.target = self.look();
        }
        match &self.target {
            Target::Regular(file) => file.sync_all(),
            _ => Ok(()),
        }
    }
}

impl<K: Sink + Drop> Sink for SyncedOutput<K> {
    ghost written = { λ _. None };

    ghost faults = { λ s. s.faults };

    /// A piece that was written and isn't synced isn't taken.
    fn write(&mut self, piece: &[u8]) -> Result<usize, Failed> {
        let Ok(count) = self.inner.write(piece) else {
            return Err(self.fail());
        };
        match self.sync() {
            Ok(()) => Ok(count),
            Err(error) => {
                self.tell("sync", error, "the archive tail stays where it was");
                Err(self.fail())
            }
        }
    }
}
