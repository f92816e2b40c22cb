// What one writer does: a call for each note. Each call adds one entry to the writer's own and nobody else adds any, so after
// the last call the writer's own entries are its notes, whatever stands between them in the diary.
ghost use Rattle.std.specs.Prelude.{◌≡◌, IfOk};
ghost use Rattle.clfs_turn.specs.Seats.{IsSameSeat};
ghost use Rattle.clfs_turn_uses.specs.Notes.{HasWritten};

use crate::diary::{Diary, Note, Write};
use clfs_turn::{Turn, TurnSeat};
use std::alloc::AllocError;
use std::sync::Wait;

/// The lock round a diary.
pub type Lock = Turn<Diary, Note, ()>;

/// A seat at such a lock.
pub type Writer = TurnSeat<Note, ()>;

/// Writes so many notes of the seat's client, with numbers from 0 up, and gives the seat back. The error is out of memory.
pub fn write_all<R: Wait>(
    rt: &R,
    lock: &Lock,
    mut seat: Writer,
    count: u64,
) -> (Writer, Result<(), AllocError>)
    requires { seat.lock ≡ lock.now.lock }
    ensures same { IsSameSeat seat result.0 }
    ensures written { IfOk result.1 (λ _. HasWritten count seat result.0) }
{
    let client = seat.client();
    for number in 0..count {
        match lock.call(rt, &mut seat, Write { client, number }) {
            Ok(()) => {}
            Err(error) => return (seat, Err(error)),
        }
    }
    (seat, Ok(()))
}
