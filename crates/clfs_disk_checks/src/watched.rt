// When something is written of a folder's reading, or of what is written and printed, on a terminal that counts it, by a clock of its own.
use clfs_disk::Disk;
use clfs_files::{Folder, PortUse, Progress, Watched, WatchedPort};
use clfs_ports::{Sink, SteadySink};
use std::alloc::{AllocError, Global};
use std::fmt::Display;
use std::io::{self, Eprint, IsTerminal};
use std::sync::atomic::{AtomicU64, Ordering};
use std::time::{Clock, Duration};
use std::{env, fs, process};

// What standard error is, and how many milliseconds go by whenever the clock is read.
#[derive(Clone, Copy)]
struct Screen<'a> {
    is_terminal: bool,
    pace: u64,
    time: &'a AtomicU64,
    written: &'a AtomicU64,
}

impl IsTerminal for Screen<'_> {
    fn is_terminal(&self) -> bool {
        self.is_terminal
    }
}

impl Clock for Screen<'_> {
    fn monotonic(&self) -> io::Result<Duration> {
        Ok(Duration::from_millis(self.time.fetch_add(self.pace, Ordering::SeqCst)))
    }

    fn since_1970(&self) -> io::Result<Duration> {
        Ok(Duration::ZERO)
    }
}

impl Eprint for Screen<'_> {
    fn eprint<D: Display + Drop>(&self, _value: D) -> io::Result<()> {
        self.written.fetch_add(1, Ordering::SeqCst);
        Ok(())
    }

    fn eprintln<D: Display + Drop>(&self, value: D) -> io::Result<()> {
        self.eprint(value)
    }
}

// What is done with the folder, and how often something was written on the terminal by then.
#[derive(Clone, Copy)]
enum Step {
    Sync(u64),
    // A mebibyte at most of a file from a place on.
    Read(u16, u64, u64),
    Write(u64),
    // A piece of a report.
    Print(u64),
}

fn does<D: Disk, K: Sink>(disk: &mut D, sink: &mut K, piece: &mut [u8], step: Step) -> (bool, u64) {
    match step {
        Step::Sync(written) => (disk.sync().is_ok(), written),
        Step::Read(file, at, written) if file <= 256 => (
            disk.read(file, at, piece).is_ok(),
            written,
        ),
        Step::Read(_, _, written) => (false, written),
        Step::Write(written) => (disk.write(1, 0, b"a").is_ok(), written),
        Step::Print(written) => (sink.write(b"a").is_ok(), written),
    }
}

// Over a clock that goes on by 600 milliseconds.
const OPENED: &[Step] = &[
    Step::Sync(0),
    Step::Read(0, 0, 0),
    Step::Read(1, 0, 1),
    Step::Read(1, 1_000_000, 2),
    Step::Read(2, 0, 3),
    Step::Write(4),
    Step::Read(1, 0, 4),
    Step::Sync(4),
];

// What comes next ends it: a second sync, a read that goes back or begins elsewhere, or a report.
const ENDED: &[&[Step]] = &[
    &[
        Step::Sync(0),
        Step::Read(0, 0, 0),
        Step::Read(1, 0, 1),
        Step::Sync(2),
        Step::Read(2, 0, 2),
    ],
    &[
        Step::Sync(0),
        Step::Read(0, 0, 0),
        Step::Read(1, 0, 1),
        Step::Read(1, 0, 2),
        Step::Read(2, 0, 2),
    ],
    &[
        Step::Sync(0),
        Step::Read(0, 0, 0),
        Step::Read(1, 0, 1),
        Step::Read(2, 7, 2),
        Step::Read(2, 0, 2),
    ],
    &[
        Step::Sync(0),
        Step::Read(0, 0, 0),
        Step::Read(1, 0, 1),
        Step::Print(2),
        Step::Read(2, 0, 2),
    ],
];

// Before the first second nothing is written, and on what is no terminal never.
const QUIET: &[Step] = &[
    Step::Print(0),
    Step::Sync(0),
    Step::Read(0, 0, 0),
    Step::Read(1, 0, 0),
    Step::Read(1, 1_000_000, 0),
    Step::Read(2, 0, 0),
    Step::Write(0),
    Step::Print(0),
];

// A report that is printed while the log is read on, as into a file.
const READ_ON: &[Step] = &[
    Step::Read(0, 0, 0),
    Step::Print(0),
    Step::Read(1, 0, 1),
    Step::Print(1),
    Step::Read(1, 1_000_000, 2),
    Step::Read(2, 0, 3),
];

// What is printed is counted, once the line of what was read is gone.
const PRINTED: &[Step] = &[
    Step::Read(0, 0, 0),
    Step::Read(1, 0, 1),
    Step::Print(2),
    Step::Print(3),
    Step::Read(2, 0, 3),
    Step::Print(4),
];

// What is written is counted.
const WRITTEN: &[Step] = &[
    Step::Read(0, 0, 0),
    Step::Write(0),
    Step::Write(1),
    Step::Write(2),
    Step::Sync(2),
    Step::Print(3),
    Step::Print(3),
    Step::Write(4),
];

fn own_path(rt: &HostRuntime, test: &str) -> io::Result<String> {
    let folder = env::temp_dir(rt)?;
    let process = process::id(rt.process());
    let path = format!(in rt.alloc(); "{}/clfs_{test}_{process}", folder.as_path().as_str())?;
    let _none = fs::remove_dir_all(rt, &path);
    Ok(path)
}

fn folder_at(rt: &HostRuntime, path: &str) -> io::Result<Folder> {
    Ok(Folder::new(*rt, String::from_str(rt.alloc(), path)?))
}

// A disk can be handed to another thread.
fn is_send<D: Disk + Send>(_disk: &D) {}

// A piece of memory for reads.
fn room(alloc: Global) -> Result<Vec<u8>, AllocError> {
    let mut piece = Vec::new(alloc);
    piece.resize(1 << 20, 0u8)?;
    Ok(piece)
}

// Whether all is done, and written as often as is wanted.
fn are_done<D: Disk, K: Sink>(
    disk: &mut D,
    sink: &mut K,
    piece: &mut [u8],
    written: &AtomicU64,
    steps: &[Step],
) -> bool {
    for step in steps {
        let (done, want) = does(disk, sink, piece, *step);
        if !done || written.load(Ordering::SeqCst) != want {
            return false;
        }
    }
    true
}

// What is told besides reading.
#[derive(Clone, Copy)]
struct Told {
    report: PortUse,
    is_made: bool,
}

// As in most commands: nothing.
const READING: Told = Told {
    report: PortUse::Ends,
    is_made: false,
};

// The same with a folder at a path.
fn all_go(
    rt: &HostRuntime,
    path: &str,
    is_terminal: bool,
    pace: u64,
    told: Told,
    steps: &[Step],
) -> io::Result<bool> {
    let mut piece = room(rt.alloc())?;
    let folder = folder_at(rt, path)?;
    let time = AtomicU64::new(0);
    let written = AtomicU64::new(0);
    let screen = Screen {
        is_terminal,
        pace,
        time: &time,
        written: &written,
    };
    let progress = Progress::new(screen, &screen);
    let mut disk = Watched::new(folder, &progress, told.is_made);
    let sink = SteadySink::new(Vec::new(rt.alloc()));
    let mut sink = WatchedPort::new(sink, &progress, told.report);
    is_send(&disk);
    Ok(are_done(&mut disk, &mut sink, &mut piece, &written, steps))
}

// Three files of three mebibytes each.
fn are_made(disk: &mut Folder) -> bool {
    for file in 0..3 {
        if disk.grow(file, 3 << 20).is_err() {
            return false;
        }
    }
    true
}

fn make_at(rt: &HostRuntime, path: &str) -> io::Result<bool> {
    Ok(are_made(&mut folder_at(rt, path)?))
}

#[test]
fn a_reading_is_told(rt: HostRuntime) -> io::Result<()> {
    let path = own_path(&rt, "watched")?;
    assert!(rt; make_at(&rt, &path)?);
    assert!(rt; all_go(&rt, &path, true, 600, READING, OPENED)?);
    for steps in ENDED {
        assert!(rt; all_go(&rt, &path, true, 600, READING, steps)?);
    }
    assert!(rt; all_go(&rt, &path, true, 100, READING, QUIET)?);
    assert!(rt; all_go(&rt, &path, false, 600, READING, QUIET)?);
    fs::remove_dir_all(&rt, &path)
}

#[test]
fn long_works_are_told(rt: HostRuntime) -> io::Result<()> {
    let path = own_path(&rt, "counted")?;
    assert!(rt; make_at(&rt, &path)?);
    let read_on = Told {
        report: PortUse::GoesOn,
        is_made: false,
    };
    let printed = Told {
        report: PortUse::Counts("archived"),
        is_made: false,
    };
    let written = Told {
        report: PortUse::Ends,
        is_made: true,
    };
    assert!(rt; all_go(&rt, &path, true, 600, read_on, READ_ON)?);
    assert!(rt; all_go(&rt, &path, true, 600, printed, PRINTED)?);
    assert!(rt; all_go(&rt, &path, true, 600, written, WRITTEN)?);
    for told in &[read_on, printed, written] {
        assert!(rt; all_go(&rt, &path, true, 100, *told, QUIET)?);
        assert!(rt; all_go(&rt, &path, false, 600, *told, QUIET)?);
    }
    fs::remove_dir_all(&rt, &path)
}
