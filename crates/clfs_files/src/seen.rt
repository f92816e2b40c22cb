// What is seen at the paths of all clients before any of them, or the log, is opened.
//
// A file of the log that is read as lines or gets replies, and one file at two paths, are mistakes that no client can see by its own paths. So each path is
// looked at, and compared by device and number with the files of the log and with the paths before it. Devices of characters, as terminals, may stand at
// two paths, since no bytes of theirs can be lost. A path at which nothing is found is left to its opening.
use crate::fault::{Call, Cause, Place};
use crate::file::{FILES, Identity};
use crate::location::{FileUse, Location};
use crate::paths::{ClientPaths, has_no_bytes};
use std::alloc::AllocError;
use std::fs::{self, Metadata};
use std::os::unix::fs::FileTypeExt;

// A file, and what is said of a later path that leads to it.
#[derive(Clone, Copy)]
struct Seen {
    identity: Identity,
    cause: Cause,
}

/// The files of a log, and those at the paths that were looked at.
#[derive(Drop)]
pub struct SeenFiles {
    rt: HostRuntime,
    seen: Vec<Seen>,
}

impl SeenFiles {
    /// Those of the log in a folder.
    pub fn of_log(rt: HostRuntime, folder: String) -> Result<SeenFiles, AllocError> {
        let seen = Vec::new(rt.alloc());
        let mut files = SeenFiles { rt, seen };
        let location = Location::new(rt, folder, FileUse::Reading);
        for file in 0..FILES {
            if let Ok(found) = location.find(Place::File(file)) {
                files.push(&found, Cause::OfLog)?;
            }
        }
        Ok(files)
    }

    fn push(&mut self, found: &Metadata, cause: Cause) -> Result<(), AllocError> {
        let identity = Identity::of(found);
        Ok(self.seen.push(Seen { identity, cause })?)
    }

    /// Looks at the paths of one more client. False if one of them can't be used, and then the cause was said.
    pub fn add(&mut self, paths: &ClientPaths) -> Result<bool, AllocError> {
        let is_read = self.add_path(paths, &paths.input, Call::Read)?;
        Ok(is_read && self.add_path(paths, &paths.output, Call::Write)?)
    }

    fn add_path(
        &mut self,
        paths: &ClientPaths,
        path: &str,
        call: Call,
    ) -> Result<bool, AllocError> {
        let Ok(found) = fs::metadata(&self.rt, path) else {
            return Ok(true);
        };
        if let Err(cause) = self.judge(&found, call) {
            paths.tell(path, call, cause);
            return Ok(false);
        }
        self.push(&found, Cause::OfClient(paths.client))?;
        Ok(true)
    }

    // An error if a file was seen before, or is to be written and has bytes.
    fn judge(&self, found: &Metadata, call: Call) -> Result<(), Cause> {
        for seen in &self.seen {
            if seen.identity == Identity::of(found) && !found.file_type().is_char_device() {
                return Err(seen.cause);
            }
        }
        match call {
            Call::Write => has_no_bytes(found),
            _ => Ok(()),
        }
    }
}
