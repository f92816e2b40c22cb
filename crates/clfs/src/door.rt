// `share` by a door: what opens it, the programs that come by it, and what is said on standard error when one leaves.
ghost use Rattle.std.specs.Prelude.{◌≡◌, length, IfOk};

use clfs_command::{asks_to_share, read_door};
use clfs_engine::{DoorRefusal, Doors, INPUT_TOO_LONG, NO_MEMORY, SINK_FAULT, SOURCE_FAULT};
use clfs_files::{ClientPort, Door, Entrance};
use clfs_share::{NoneCanCome, Visitors};
use std::alloc::{AllocError, Global};
use std::sync::{Arc, Wait};

/// The programs that come to one client, one after the other.
#[derive(Drop)]
pub struct Programs {
    entrance: Entrance,
}

impl Visitors<ClientPort, ClientPort> for Programs {
    ghost comes = { λ _ _ _ _. Unit {0} };

    ghost over = { λ _ _. Unit {0} };

    ghost fails = { λ _ _. Unit {0} };

    ghost leaves = { λ _ _ _ _ _. Unit {0} };

    ghost refuses = { λ _ _. Unit {0} };

    fn next<R: Wait>(&mut self, rt: &R) -> Result<Option<(ClientPort, ClientPort)>, NoneCanCome> {
        match self.entrance.next(rt) {
            Ok(ports) => Ok(ports),
            Err(_) => Err(NoneCanCome),
        }
    }

    fn leave(&mut self, status: u8, source: ClientPort, sink: ClientPort) {
        match status {
            SOURCE_FAULT | SINK_FAULT => self.entrance.tell_failed(&source, &sink),
            NO_MEMORY => self.entrance.tell_why("out of memory"),
            INPUT_TOO_LONG => self.entrance.tell_why("a line is too long"),
            _ => {}
        }
    }

    fn refuse(&mut self) {
        self.entrance.tell_why("no thread can be made for it");
    }
}

/// Opens doors.
#[derive(Drop)]
pub struct SystemDoors {
    /// The system.
    pub rt: HostRuntime,
}

// The entrances of so many clients, numbered from 1.
fn entrances(
    rt: HostRuntime,
    door: &Arc<Door, Global>,
    clients: u32,
) -> Result<Vec<Programs>, AllocError>
    ensures { IfOk result (λ programs. length programs.items ≡ clients) }
{
    let mut programs = Vec::new(rt.alloc());
    for client in 0..clients {
        let door = Arc::try_clone(door)?;
        let entrance = Entrance::new(rt, door, client.saturating_add(1));
        programs.push(Programs { entrance })?;
    }
    Ok(programs)
}

impl Doors<Programs> for SystemDoors {
    ghost opens = { λ _ _ _. Unit {0} };

    ghost stays_shut = { λ _ _. Unit {0} };

    fn open(&self, place: &str, clients: u32) -> Result<Vec<Programs>, DoorRefusal> {
        let door = match Door::open(self.rt, place) {
            Ok(Some(door)) => door,
            Ok(None) => return Err(DoorRefusal::NotOpened),
            Err(_) => return Err(DoorRefusal::NoMemory),
        };
        let Ok(door) = Arc::new(self.rt.alloc(), door) else {
            return Err(DoorRefusal::NoMemory);
        };
        match entrances(self.rt, &door, clients) {
            Ok(programs) => Ok(programs),
            Err(_) => Err(DoorRefusal::NoMemory),
        }
    }
}

/// Whether these words ask `share` for a door. Words that can't be read ask for none.
pub fn asks_for_door(alloc: Global, words: &[String]) -> bool {
    asks_to_share(words) && read_door(alloc, words).is_ok()
}
