// A client of `share`: its paths, and what is said on standard error when it ends.
use clfs_command::{PathPair, read_share};
use clfs_engine::{INPUT_TOO_LONG, NO_MEMORY, PathOpeners, SINK_FAULT, SOURCE_FAULT};
use clfs_files::{ClientPaths, ClientPort, SeenFiles};
use clfs_share::Openers;
use std::alloc::AllocError;

/// A client that is opened by its paths.
#[derive(Drop)]
pub struct Client {
    paths: ClientPaths,
}

impl Openers<ClientPort, ClientPort> for Client {
    ghost opens = { λ _ _ _ _. Unit {0} };

    ghost stays_shut = { λ _ _. Unit {0} };

    ghost closes = { λ _ _ _. Unit {0} };

    ghost refuses = { λ _ _. Unit {0} };

    fn open(&mut self) -> Option<(ClientPort, ClientPort)> {
        self.paths.open()
    }

    fn close(&mut self, status: u8, source: &mut ClientPort, sink: &mut ClientPort) {
        match status {
            SOURCE_FAULT | SINK_FAULT => self.paths.tell_failed(source, sink),
            NO_MEMORY => self.paths.tell_why("out of memory"),
            INPUT_TOO_LONG => self.paths.tell_why("a line is too long"),
            _ => {}
        }
        source.close();
        sink.close();
    }

    fn refuse(&mut self) {
        self.paths.tell_why("no thread can be made for it");
    }
}

/// Makes clients of their paths.
#[derive(Drop)]
pub struct Clients {
    /// The system.
    pub rt: HostRuntime,
}

impl PathOpeners<Client> for Clients {
    ghost makes = { λ _ _ _ _. Unit {0} };

    fn openers(&self, client: u16, paths: &PathPair) -> Result<Client, AllocError> {
        let paths = client_paths(self.rt, client, paths)?;
        Ok(Client { paths })
    }
}

// The two paths of the client of this number.
fn client_paths(rt: HostRuntime, client: u16, paths: &PathPair) -> Result<ClientPaths, AllocError> {
    let PathPair { input, output } = paths;
    Ok(ClientPaths::new(rt, client, input.clone()?, output.clone()?))
}

/// Whether the log in a folder can be shared by the paths among these words, as far as that is seen before anything is opened. If not, the cause was said. Words
/// that are no command name no path.
pub fn may_share(rt: &HostRuntime, folder: &String, words: &[String]) -> Result<bool, AllocError> {
    let Ok(share) = read_share(rt.alloc(), words) else {
        return Ok(true);
    };
    let mut seen = SeenFiles::of_log(*rt, folder.clone()?)?;
    let mut client = 0u16;
    for paths in &share.clients {
        client = client.saturating_add(1);
        if !seen.add(&client_paths(*rt, client, paths)?)? {
            return Ok(false);
        }
    }
    Ok(true)
}
