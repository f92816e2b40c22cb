// The value under the lock, its entries, and the one job that is done on it.
ghost use Rattle.std.specs.Prelude.{◌≡◌, IfOk, IfErr};
ghost use Rattle.clfs_turn.specs.Calls.{IsAdded};
ghost use Rattle.clfs_turn_uses.specs.Notes.{note};

use clfs_turn::{Job, Logged};
use std::alloc::AllocError;

/// One note of a diary.
#[derive(Drop)]
pub struct Note {
    /// Whose note it is.
    pub client: u16,
    /// Its number among the client's notes, from 0 up.
    pub number: u64,
}

/// All notes, in the order in which they were added.
#[derive(Drop)]
pub struct Diary {
    /// Notes of all clients, the newest last.
    pub notes: Vec<Note>,
}

impl Logged<Note, ()> for Diary {
    ghost entries = { λ d. d.notes.items };

    ghost client_of = { λ n. n.client };

    ghost opening = { λ _. tt };

    ghost reached = { λ _ _. Unit {0} };

    fn count(&self) -> u64 {
        self.notes.len() as u64
    }

    ghost at_opening = { λ _ _. tt };
}

/// Adds a note. The error is out of memory; then the diary is as it was.
#[derive(Drop)]
pub struct Write {
    /// Whose note it is: the client of the seat that does the job.
    pub client: u16,
    /// The number that the note has.
    pub number: u64,
}

impl Job<Diary, Note, ()> for Write {
    type Answer = Result<(), AllocError>;

    ghost client = { λ w. w.client };

    ghost is_ready = { λ _. Unit {0} };

    ghost ran = { λ w x y r. IfOk r (λ _. IsAdded (λ d. d.notes.items) (note w.client w.number) x y)
        × IfErr r (λ _. y.notes.items ≡ x.notes.items) };

    fn run(self, diary: &mut Diary) -> Result<(), AllocError> {
        let Write { client, number } = self;
        diary.notes.push(Note { client, number })?;
        Ok(())
    }
}
