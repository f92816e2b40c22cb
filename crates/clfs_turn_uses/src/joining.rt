// Two writers in threads of their own, and what they leave together. Where the system makes no thread, `thread::join` calls the
// closure itself.
ghost use Rattle.std.specs.Prelude.{◌≡◌, ◌≢◌, ℕ, [], ◌∷◌, IfOk, vec_len};
ghost use Rattle.std.specs.Thread.{IsSync};
ghost use Rattle.clfs_turn.specs.Lists.{entries_of};
ghost use Rattle.clfs_turn.specs.Seats.{IsSameSeat};
ghost use Rattle.clfs_turn_uses.specs.Notes.{first_notes, HasWritten};

use crate::diary::{Diary, Note};
use crate::writing::{Lock, Writer, write_all};
use clfs_turn::Turn;
use std::alloc::{AllocError, Global};
use std::sync::Wait;
use std::thread;
use std::thread::Threads;

// The two seats of a new lock.
fn pair_of(mut seats: Vec<Writer>) -> (Writer, Writer)
    requires { vec_len seats ≡ 2 }
    ensures { seats.items ≡ result.0 ∷ result.1 ∷ [] }
{
    let b = seats.pop().unwrap();
    let a = seats.pop().unwrap();
    (a, b)
}

// Both seats again in one list, in the order of their clients.
fn list_of(alloc: Global, a: Writer, b: Writer) -> Result<Vec<Writer>, AllocError>
    ensures { IfOk result (λ v. v.items ≡ a ∷ b ∷ []) }
{
    let mut seats = Vec::new(alloc);
    seats.push(a)?;
    seats.push(b)?;
    Ok(seats)
}

// Lets a writer write in a thread of its own, and joins it.
fn write_in_a_thread<R: Threads + Wait + Sync>(
    rt: &R,
    lock: &Lock,
    seat: Writer,
    count: u64,
) -> (Writer, Result<(), AllocError>)
    requires { seat.lock ≡ lock.now.lock }
    ensures same { IsSameSeat seat result.0 }
    ensures written { IfOk result.1 (λ _. HasWritten count seat result.0) }
{
    thread::join(rt, || write_all(rt, lock, seat, count), || ()).0
}

// Lets both write, each in a thread of its own, and joins both.
fn write_both<R: Threads + Wait + Sync>(
    rt: &R,
    lock: &Lock,
    a: Writer,
    b: Writer,
    count: u64,
) -> Result<(Writer, Writer), AllocError>
    requires { (a.lock ≡ lock.now.lock) × (b.lock ≡ lock.now.lock) }
    ensures same { IfOk result (λ p. IsSameSeat a p.0 × IsSameSeat b p.1) }
    ensures first { IfOk result (λ p. HasWritten count a p.0) }
    ensures second { IfOk result (λ p. HasWritten count b p.1) }
{
    let ((a, by_a), (b, by_b)) = thread::join(
        rt,
        || write_all(rt, lock, a, count),
        || -> (Writer, Result<(), AllocError>)
            requires { IsSync R.row × (b.lock ≡ lock.now.lock) }
            ensures { IsSameSeat b result.0 × IfOk result.1 (λ _. HasWritten count b result.0) }
        { write_in_a_thread(rt, lock, b, count) },
    );
    by_a?;
    by_b?;
    Ok((a, b))
}

/// Lets two threads write so many notes each into one diary, for the clients 3 and 5, and gives the diary back when both
/// were joined. The error is out of memory. In which order the notes of the two stand among each other is not said.
pub fn two_writers<R: Threads + Wait + Sync>(
    rt: &R,
    alloc: Global,
    count: u64,
) -> Result<Diary, AllocError>
    ensures first { IfOk result (λ d. entries_of (λ n. n.client) 3 d.notes.items ≡ first_notes 3 count) }
    ensures second { IfOk result (λ d. entries_of (λ n. n.client) 5 d.notes.items ≡ first_notes 5 count) }
    ensures others { IfOk result (λ d. (c : ℕ) → c ≢ 3 → c ≢ 5 → entries_of (λ n. n.client) c d.notes.items ≡ []) }
{
    let diary = Diary {
        notes: Vec::new(alloc),
    };
    let Ok((lock, seats)) = Turn::new(alloc, diary, &[3, 5]) else {
        return Err(AllocError);
    };
    let (a, b) = pair_of(seats);
    let (mut a, mut b) = write_both(rt, &lock, a, b, count)?;
    lock.meet(&mut a, &mut b)?;
    Ok(lock.close(list_of(alloc, a, b)?))
}
