// A disk that counts its calls, and gives other bytes than were written as soon as so many reads are done.
ghost use Rattle.std.specs.Prelude.{false, []};

use crate::runs::{SMALL, formatted, served, written_out};
use clfs_disk::{Disk, Failed, GrowRefusal, Memory};
use clfs_engine::DONE;
use std::alloc::{AllocError, Global};
use std::process::Abort;
use std::sync::Wait;
use std::thread::Threads;

// What a read gives that comes late.
#[derive(Clone, Copy)]
pub(crate) enum Late {
    // It fails.
    Nothing,
    // In place of each byte at this place in one of the first 40 blocks of file 1, each of two sectors, it gives this one.
    Byte { place: u64, byte: u8 },
}

// A disk that tells nothing of what it holds. It counts its calls, and each read after the first `early` ones comes late.
#[derive(Drop)]
pub(crate) struct Watched {
    inner: Memory,
    early: u64,
    late: Late,
    pub(crate) calls: u64,
    pub(crate) reads: u64,
    faults: u64,
}

impl Watched {
    pub(crate) fn new(inner: Memory, early: u64, late: Late) -> Watched {
        Watched {
            inner,
            early,
            late,
            calls: 0,
            reads: 0,
            faults: 0,
        }
    }
}

// Puts a byte into its place of each of the first 40 blocks of two sectors. The bytes are those of a file from `at` on.
fn put_into_blocks(bytes: &mut [u8], at: u64, place: u64, byte: u8) {
    for (i, found) in bytes.iter_mut().enumerate() {
        let from = at.saturating_add(i as u64);
        if from < 40960 && from % 1024 == place {
            *found = byte;
        }
    }
}

impl Disk for Watched {
    ghost use Rattle.clfs_disk.specs.State.{DiskState};

    ghost state = { λ watched. record {
      files = λ file. [];
      clock = 0;
      image_at = λ moment image. Unit {0};
      calls = watched.calls;
      faults = watched.faults;
      nature = record { tells_contents = false; tells_images = false; steady = false };
    } };

    ghost reads_as_image = { λ watched honest. tt };

    fn read(&mut self, file: u16, at: u64, out: &mut [u8]) -> Result<usize, Failed> {
        self.calls = self.calls.saturating_add(1);
        self.reads = self.reads.saturating_add(1);
        let found = self.inner.read(file, at, out);
        if self.reads > self.early {
            match self.late {
                Late::Nothing => {
                    self.faults = self.faults.saturating_add(1);
                    return Err(Failed);
                }
                Late::Byte { place, byte } if file == 1 => put_into_blocks(out, at, place, byte),
                Late::Byte { .. } => {}
            }
        }
        if found.is_err() {
            self.faults = self.faults.saturating_add(1);
        }
        found
    }

    fn write(&mut self, file: u16, at: u64, bytes: &[u8]) -> Result<(), Failed> {
        self.calls = self.calls.saturating_add(1);
        let done = self.inner.write(file, at, bytes);
        if done.is_err() {
            self.faults = self.faults.saturating_add(1);
        }
        done
    }

    fn grow(&mut self, file: u16, len: u64) -> Result<(), GrowRefusal> {
        self.calls = self.calls.saturating_add(1);
        let done = self.inner.grow(file, len);
        if let Err(GrowRefusal::Failed) = done {
            self.faults = self.faults.saturating_add(1);
        }
        done
    }

    fn sync(&mut self) -> Result<(), Failed> {
        self.calls = self.calls.saturating_add(1);
        let done = self.inner.sync();
        if done.is_err() {
            self.faults = self.faults.saturating_add(1);
        }
        done
    }
}

// So many calls of the disk a script takes on a log that has just been made, from opening the log on.
pub(crate) fn calls_of(
    rt: &(impl Abort + Threads + Wait + Sync),
    alloc: Global,
    script: &[u8],
) -> Result<u64, AllocError> {
    let disk = Watched::new(formatted(rt, alloc, SMALL)?, u64::MAX, Late::Nothing);
    let ran = served(rt, alloc, disk, script)?;
    assert!(rt; ran.status == DONE);
    Ok(ran.disk.calls)
}

// The same of a row.
pub(crate) fn calls_of_row(
    rt: &(impl Abort + Threads + Wait + Sync),
    alloc: Global,
    row: &str,
) -> Result<u64, AllocError> {
    calls_of(rt, alloc, &written_out(alloc, row)?)
}
