// The paths of a client of a shared log: where its lines come from, and where its replies go. They are opened in this order, by the client's own thread:
// opening a named pipe waits for the program at its other end, and that is this client's matter alone. Why a client ends before its lines do is said on
// standard error.
use crate::fault::{Call, Cause};
use crate::location::above_streams;
use crate::ports::{ClientFile, SystemPort};
use std::fs::{self, File, Metadata, OpenOptions};

/// An error if a file has bytes: replies would stand among them.
pub(crate) fn has_no_bytes(found: &Metadata) -> Result<(), Cause> {
    if found.is_file() && found.len() > 0 {
        return Err(Cause::HasBytes(found.len()));
    }
    Ok(())
}

/// What a client reads from or writes to.
pub type ClientPort = SystemPort<ClientFile, HostRuntime>;

/// A client's number and its two paths.
#[derive(Drop)]
pub struct ClientPaths {
    rt: HostRuntime,
    pub(crate) client: u16,
    pub(crate) input: String,
    pub(crate) output: String,
}

impl ClientPaths {
    /// The paths of the client of this number. Nothing is opened.
    pub fn new(rt: HostRuntime, client: u16, input: String, output: String) -> ClientPaths {
        ClientPaths {
            rt,
            client,
            input,
            output,
        }
    }

    /// Opens both, the input first. None if one of them can't be opened, and then the cause was said.
    pub fn open(&self) -> Option<(ClientPort, ClientPort)> {
        let input = match self.open_input() {
            Ok(input) => input,
            Err(cause) => {
                self.tell(&self.input, Call::Open, cause);
                return None;
            }
        };
        match self.open_output() {
            Ok(output) => Some((self.port(input), self.port(output))),
            Err(cause) => {
                self.tell(&self.output, Call::Open, cause);
                None
            }
        }
    }

    fn port(&self, file: File) -> ClientPort {
        SystemPort::new(ClientFile { file: Some(file) }, self.rt)
    }

    // A folder can be opened as a file is, and so it is refused here, before the output is waited for.
    fn open_input(&self) -> Result<File, Cause> {
        let file = above_streams(fs::open(&self.rt, &self.input)?)?;
        if file.metadata()?.is_dir() {
            return Err(Cause::Folder);
        }
        Ok(file)
    }

    // The output has to be there: a file of this name that nobody reads is of no use to a client. One that has bytes keeps them, so it is refused, and
    // replies are only ever written after what it has.
    fn open_output(&self) -> Result<File, Cause> {
        let opened = OpenOptions::new()
            .append(true)
            .open(&self.rt, &self.output)?;
        let file = above_streams(opened)?;
        has_no_bytes(&file.metadata()?)?;
        Ok(file)
    }

    /// Says that the input couldn't be read on, or the output couldn't be written on.
    pub fn tell_failed(&self, source: &ClientPort, sink: &ClientPort) {
        if let Some(error) = source.error {
            self.tell(&self.input, Call::Read, error.into());
        }
        if let Some(error) = sink.error {
            self.tell(&self.output, Call::Write, error.into());
        }
    }

    /// Says why the client ended, if that has to do with no file.
    pub fn tell_why(&self, why: &str) {
        let client = self.client;
        let _said = self
            .rt
            .eprintln(format_args!("clfs: client {client}: {why}"));
    }

    /// Says what was asked of the system about a path, and why it wasn't done. If that can't be said either, nothing more is done.
    pub(crate) fn tell(&self, path: &str, call: Call, cause: Cause) {
        let client = self.client;
        let _said = self.rt.eprintln(format_args!(
            "clfs: client {client}: {path}: {call}: {cause}"
        ));
    }
}
