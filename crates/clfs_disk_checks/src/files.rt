use clfs_disk::Disk;
use clfs_files::{Folder, SystemPort};
use clfs_ports::{Sink, Source};
use std::fs::{self, File};
use std::io::{self, ErrorKind, Read, Write};
use std::sync::atomic::{AtomicU64, Ordering};
use std::time::{Clock, Duration};
use std::{env, process};

// A path of this test's own, at which nothing is.
fn own_path(rt: &HostRuntime, name: &str) -> io::Result<String> {
    let folder = env::temp_dir(rt)?;
    let process = process::id(rt.process());
    let path = format!(in rt.alloc(); "{}/clfs_{name}_{process}", folder.as_path().as_str())?;
    let _none = fs::remove_dir_all(rt, &path);
    Ok(path)
}

// A folder after a path, of which this many bytes more are taken as its name.
fn folder(rt: &HostRuntime, path: &str, more: &str) -> io::Result<Folder> {
    Ok(Folder::new(*rt, format!(in rt.alloc(); "{path}{more}")?))
}

// A disk can be handed to another thread.
fn is_send<D: Disk + Send>(_disk: &D) {}

#[derive(Clone, Copy)]
enum Step {
    // What is read where there is room for four bytes.
    Reads(u16, u64, &'static [u8]),
    // These fail.
    FailsToRead(u16, u64),
    Fails(Done),
    Does(Done),
}

#[derive(Clone, Copy)]
enum Done {
    Write(u16, u64, &'static [u8]),
    Grow(u16, u64),
    Sync,
}

fn does(disk: &mut Folder, done: Done) -> bool {
    match done {
        Done::Write(file, at, bytes) if file <= 256 => disk.write(file, at, bytes).is_ok(),
        Done::Grow(file, len) if file <= 256 => disk.grow(file, len).is_ok(),
        Done::Sync => disk.sync().is_ok(),
        _ => false,
    }
}

fn reads(disk: &mut Folder, file: u16, at: u64, out: &mut [u8]) -> Option<usize> {
    if file > 256 {
        return None;
    }
    disk.read(file, at, out).ok()
}

fn goes(disk: &mut Folder, step: &Step) -> bool {
    let mut out = [0xEE; 4];
    match step {
        Step::Reads(file, at, want) => match reads(disk, *file, *at, &mut out) {
            Some(count) => count <= 4 && &out[..count] == *want,
            None => false,
        },
        Step::FailsToRead(file, at) => reads(disk, *file, *at, &mut out).is_none(),
        Step::Fails(done) => !does(disk, *done),
        Step::Does(done) => does(disk, *done),
    }
}

fn all_go(disk: &mut Folder, steps: &[Step]) -> bool {
    for step in steps {
        if !goes(disk, step) {
            return false;
        }
    }
    true
}

// Nothing is there, and only a growth makes something. A write within a file's length is done, and no other.
const FIRST_RUN: &[Step] = &[
    Step::Reads(0, 0, b""),
    Step::Does(Done::Sync),
    Step::Fails(Done::Write(0, 0, b"a")),
    // More than one piece of zeros.
    Step::Does(Done::Grow(0, 3_000_000)),
    Step::Does(Done::Grow(256, 8)),
    Step::Reads(0, 1_048_574, b"\0\0\0\0"),
    Step::Reads(0, 2_999_998, b"\0\0"),
    Step::Does(Done::Write(0, 2_999_996, b"abcd")),
    Step::Fails(Done::Write(0, 2_999_997, b"abcd")),
    Step::Fails(Done::Write(1, 0, b"a")),
    Step::Does(Done::Sync),
    Step::Does(Done::Write(256, 1, b"xyz")),
    Step::Does(Done::Sync),
];

// The files are there, at the lengths to which they were grown.
const SECOND_RUN: &[Step] = &[
    Step::Reads(256, 0, b"\0xyz"),
    Step::Does(Done::Sync),
    Step::Reads(0, 2_999_996, b"abcd"),
    Step::Reads(0, 3_000_000, b""),
    Step::Does(Done::Grow(256, 4)),
    Step::Reads(256, 4, b"\0\0\0\0"),
    Step::Does(Done::Grow(256, 9)),
    Step::Reads(256, 6, b"\0\0\0"),
];

const ALL_FAIL: &[Step] = &[
    Step::FailsToRead(0, 0),
    Step::Fails(Done::Write(0, 0, b"b")),
    Step::Fails(Done::Grow(0, 9)),
    Step::Fails(Done::Sync),
];

// Each step goes in a folder after a path, of which these bytes more are taken as its name.
fn run(rt: &HostRuntime, path: &str, more: &str, steps: &[Step]) -> io::Result<bool> {
    let mut disk = folder(rt, path, more)?;
    is_send(&disk);
    Ok(all_go(&mut disk, steps))
}

// The length of a file, if it is there.
fn length_of(rt: &HostRuntime, path: &str, name: &str) -> io::Result<Option<u64>> {
    match fs::metadata(rt, &format!(in rt.alloc(); "{path}{name}")?) {
        Ok(found) => Ok(Some(found.len())),
        Err(_) => Ok(None),
    }
}

// The files' names are these, and no other is there.
const LENGTHS: [(&str, Option<u64>); 3] = [
    ("/base", Some(3_000_000)),
    ("/c256", Some(9)),
    ("/c1", None),
];

#[test]
fn a_folder_keeps_its_files(rt: HostRuntime) -> io::Result<()> {
    let path = own_path(&rt, "keeps")?;
    assert!(rt; run(&rt, &path, "", FIRST_RUN)?);
    assert!(rt; run(&rt, &path, "", SECOND_RUN)?);
    for (name, want) in LENGTHS {
        assert!(rt; length_of(&rt, &path, name)? == want);
    }
    fs::remove_dir_all(&rt, &path)
}

// Of two, who comes second fails in every call and can say why; the first goes on.
fn second_fails(first: &mut Folder, second: &mut Folder) -> bool {
    all_go(first, FIRST_RUN)
        && all_go(second, ALL_FAIL)
        && second.is_taken()
        && all_go(first, SECOND_RUN)
        && !first.is_taken()
}

fn one_is_locked(rt: &HostRuntime, path: &str) -> io::Result<bool> {
    let mut first = folder(rt, path, "")?;
    let mut second = folder(rt, path, "")?;
    Ok(second_fails(&mut first, &mut second))
}

// A folder below what isn't there can't be made.
fn is_made_below_nothing(rt: &HostRuntime, path: &str) -> io::Result<bool> {
    Ok(does(&mut folder(rt, path, "/no/log")?, Done::Grow(0, 8)))
}

#[test]
fn a_folder_is_locked(rt: HostRuntime) -> io::Result<()> {
    let path = own_path(&rt, "locked")?;
    assert!(rt; one_is_locked(&rt, &path)?);
    // A folder that was let go can be had again. What is no folder can't, nor can one be made below what isn't there.
    assert!(rt; run(&rt, &path, "", SECOND_RUN)?);
    assert!(rt; run(&rt, &path, "/base", ALL_FAIL)?);
    assert!(rt; !is_made_below_nothing(&rt, &path)?);
    fs::remove_dir_all(&rt, &path)
}

// How many bytes a file takes that is opened by this.
fn written(rt: &HostRuntime, file: File) -> Option<usize> {
    SystemPort::new(file, *rt).write(b"abc").ok()
}

// The bytes that two reads give, and how many.
fn read(rt: &HostRuntime, file: File) -> Option<([u8; 3], usize, usize)> {
    let mut out = [0u8; 8];
    let mut source = SystemPort::new(file, *rt);
    let first = source.read(&mut out).ok()?;
    let second = source.read(&mut out[4..]).ok()?;
    Some(([out[0], out[1], out[2]], first, second))
}

#[test]
fn streams_pass_bytes_on(rt: HostRuntime) -> io::Result<()> {
    let path = own_path(&rt, "streams")?;
    assert!(rt; written(&rt, File::create(&rt, &path)?) == Some(3));
    assert!(rt; read(&rt, File::open(&rt, &path)?) == Some((*b"abc", 3, 0)));
    // What isn't open for it fails.
    assert!(rt; written(&rt, File::open(&rt, &path)?).is_none());
    assert!(rt; read(&rt, File::create(&rt, &path)?).is_none());
    fs::remove_file(&rt, &path)
}

// A stream that isn't ready for some calls, or that a signal interrupts, and a clock that counts the milliseconds of the pauses.
#[derive(Drop)]
struct Unready {
    left: u64,
    why: ErrorKind,
}

impl Read for Unready {
    fn read(&mut self, out: &mut [u8]) -> io::Result<usize> {
        if self.left > 0 {
            self.left -= 1;
            return Err(self.why.into());
        }
        Ok(out.len())
    }
}

impl Write for Unready {
    fn write(&mut self, piece: &[u8]) -> io::Result<usize> {
        if self.left > 0 {
            self.left -= 1;
            return Err(self.why.into());
        }
        Ok(piece.len())
    }

    fn flush(&mut self) -> io::Result<()> {
        Ok(())
    }
}

#[derive(Clone, Copy)]
struct Pauses<'a> {
    time: &'a AtomicU64,
}

impl Clock for Pauses<'_> {
    fn monotonic(&self) -> io::Result<Duration> {
        Ok(Duration::ZERO)
    }

    fn since_1970(&self) -> io::Result<Duration> {
        Ok(Duration::ZERO)
    }

    fn sleep(&self, duration: Duration) {
        self.time
            .fetch_add(u64::from(duration.subsec_millis()), Ordering::SeqCst);
    }
}

// What a read and a write of three bytes give after so many calls that fail, and how long the pauses were.
fn passes(left: u64, why: ErrorKind) -> (Option<usize>, Option<usize>, u64) {
    let time = AtomicU64::new(0);
    let clock = Pauses { time: &time };
    let read = SystemPort::new(Unready { left, why }, clock)
        .read(&mut [0; 3])
        .ok();
    let written = SystemPort::new(Unready { left, why }, clock)
        .write(b"abc")
        .ok();
    (read, written, time.load(Ordering::SeqCst))
}

#[test]
fn streams_that_are_not_ready_are_tried_again(rt: HostRuntime) -> io::Result<()> {
    assert!(rt; passes(0, ErrorKind::WouldBlock) == (Some(3), Some(3), 0));
    assert!(rt; passes(3, ErrorKind::Interrupted) == (Some(3), Some(3), 6));
    // Each pause is longer than the one before, up to ten milliseconds.
    assert!(rt; passes(13, ErrorKind::WouldBlock) == (Some(3), Some(3), 2 * (45 + 30)));
    assert!(rt; passes(1, ErrorKind::NotFound) == (None, None, 0));
    Ok(())
}
