// A folder whose reading is told on a terminal, and what is written, where a whole log is made.
//
// Each call is passed on as it is, so what this disk shows is what the folder shows. Who opens or checks a log syncs the disk and then reads forward:
// the base file, and then each file of a listed container from its beginning, in pieces that overlap by less than a block. So the bytes that were
// judged are those that the reads went over, each once, and the reading is over at the first call that goes on otherwise: a write, a growth, a second
// sync, or a read that begins elsewhere. All that can be judged are the bytes of the folder's files; those of a container without records never are.
ghost use Rattle.std.specs.Prelude.{◌≡◌};
ghost use Rattle.clfs_files.specs.Shown.{shown};

use crate::folder::Folder;
use crate::progress::{Count, Pace, Progress};
use clfs_disk::{Disk, Failed, GrowRefusal};
use std::io::Eprint;
use std::time::Clock;

// The most bytes of a block. The next piece begins at a block that the last one didn't have as a whole.
const LARGEST_BLOCK: u64 = 1 << 16;

// How far the files were read.
#[derive(Clone, Copy)]
struct Reading {
    // The file that was read last, and the byte after what was read of it.
    file: u16,
    end: u64,
    judged: u64,
}

impl Reading {
    // Whether a read at a place goes on with what was read.
    fn goes_on(&self, file: u16, at: u64) -> bool {
        if file == self.file {
            return self.end <= at.saturating_add(LARGEST_BLOCK);
        }
        at == 0
    }

    // What was read once these bytes are.
    fn with(&self, file: u16, at: u64, count: usize) -> Reading {
        let known = if file == self.file { self.end } else { 0 };
        let end = at.saturating_add(count as u64);
        let new = end.saturating_sub(known.max(at));
        Reading {
            file,
            end: end.max(known),
            judged: self.judged.saturating_add(new),
        }
    }
}

/// A folder, and how far it was read.
#[derive(Drop)]
pub struct Watched<'a, R: Clock + Eprint + Drop> {
    folder: Folder,
    progress: &'a Progress<R>,
    reading: Reading,
    pace: Pace,
    // What is written, if that is told.
    written: Option<Count>,
}

impl<'a, R: Clock + Eprint + Drop> Watched<'a, R> {
    /// The folder, of which no call was made yet. Where a whole log is made, also what is written and grown is told.
    pub fn new(folder: Folder, progress: &'a Progress<R>, is_made: bool) -> Watched<'a, R>
        ensures { result.folder ≡ folder }
    {
        let written = if is_made {
            Some(Count::new("written"))
        } else {
            None
        };
        Watched {
            folder,
            progress,
            reading: Reading {
                file: 0,
                end: 0,
                judged: 0,
            },
            pace: Pace::new(),
            written,
        }
    }

    /// The folder.
    pub fn folder(&self) -> &Folder {
        &self.folder
    }

    // Notes when the first call comes.
    fn begin(&mut self)
        ensures { self.new.folder ≡ self.old.folder }
    {
        if self.progress.is_wanted() {
            self.pace.begin(self.progress.clock());
            self.progress.begin();
        }
    }

    // A call comes that changes a file, so the reading is over.
    fn begin_change(&mut self)
        ensures { self.new.folder ≡ self.old.folder }
    {
        self.progress.end();
        if let Some(count) = &mut self.written {
            count.begin(self.progress);
        }
    }

    // So many bytes were written or grown.
    fn note_change(&mut self, bytes: u64)
        ensures { self.new.folder ≡ self.old.folder }
    {
        if let Some(count) = &mut self.written {
            count.add(bytes, self.progress);
        }
    }

    // Counts what was read, and tells it if that is due.
    fn note(&mut self, file: u16, at: u64, count: usize)
        ensures { self.new.folder ≡ self.old.folder }
    {
        if !self.progress.is_wanted() {
            return;
        }
        if !self.reading.goes_on(file, at) {
            self.progress.end();
            return;
        }
        self.reading = self.reading.with(file, at, count);
        if self.pace.is_due(self.progress.clock()) {
            self.progress
                .show(self.reading.judged, self.folder.byte_count());
        }
    }
}

impl<'a, R: Clock + Eprint + Drop> Disk for Watched<'a, R> {
    ghost state = { λ watched. shown watched.folder };

    ghost reads_as_image = { λ watched honest. tt };

    fn read(&mut self, file: u16, at: u64, out: &mut [u8]) -> Result<usize, Failed> {
        self.begin();
        let count = self.folder.read(file, at, out)?;
        self.note(file, at, count);
        Ok(count)
    }

    fn write(&mut self, file: u16, at: u64, bytes: &[u8]) -> Result<(), Failed> {
        self.begin_change();
        self.folder.write(file, at, bytes)?;
        self.note_change(bytes.len() as u64);
        Ok(())
    }

    fn grow(&mut self, file: u16, len: u64) -> Result<(), GrowRefusal> {
        self.begin_change();
        self.folder.grow(file, len)?;
        self.note_change(len);
        Ok(())
    }

    fn sync(&mut self) -> Result<(), Failed> {
        // The first one begins the reading.
        if self.pace.has_begun() {
            self.progress.end();
        }
        self.begin();
        self.folder.sync()
    }
}
