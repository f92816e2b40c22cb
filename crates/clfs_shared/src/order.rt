// The order in which calls that wait are let to the turn. Calls that put something into memory go before those that flush, and those that flush go
// one after the other, so that the first of them writes what all the others wait for. A kind is served for as many calls as waited when its turn
// began, so that neither waits for ever while the other comes again and again. No clause of the log rests on any of this.
//
// A client that flushes record after record comes again a moment after it was answered. So the first flush of a turn waits for those that the turn before
// served, as long as flushes come, and then writes for all of them. It hands the processor on and looks for a moment whether another flush has come; if
// none has, it waits no more. It does so only if the turn before served several, so a client that is alone never waits, and one that stays away is
// waited for once.
//
// A quick call that finds another one being made doesn't sleep at once: most of them take less than a microsecond, and a thread that sleeps and is woken loses
// more than the two system calls, since its client's process goes on with it on another processor. So it looks for a moment whether that call has ended, hands
// the processor on once, looks a little longer, and then tries again. It does so as long as calls end, a few times at most, and then sleeps. While it looks it
// isn't counted among those that wait, and nobody wakes it. A call that finds a flush being made sleeps at once.
//
// A thread sleeps where its kind waits for as long as it must. Who leaves wakes one thread of the kind that comes next, if one of it waits. The
// clauses of waiting.rt say that this one need not wait on, or that one which has come since need not. That it is woken is no clause, and that nobody's
// wake is lost isn't either. It is so because a thread counts itself among those that wait, and looks whether it must, under the same lock under which
// the one that leaves counts them, and stays counted while it sleeps. So who leaves and wakes nobody has seen nobody wait. Who comes after that finds no call
// being made, and needn't wait. If a thread comes and is let in before the one that was woken looks, it is the next that leaves, and wakes again. While a
// flush gathers, it is awake itself, and comes next when it has.
use crate::waiting::{Clients, Kind, Waiting};
use clfs_model::Call;
use std::hint::spin_loop;
use std::sync::atomic::{AtomicU64, Ordering};
use std::sync::{Condvar, Mutex, Wait};
use std::thread::yield_now;

// How often a flush hands the processor on, at most, before it writes. Beside a process that is never idle it comes back only after a time slice, some milliseconds
// later. So it does so again only if another flush has come meanwhile.
const MOST_YIELDS: u32 = 8;

// How often it looks for another flush after that, at most: some tenths of a millisecond. A client that was answered sends its next record and flush in less.
// The processor's hint for such loops isn't in it, since its time differs tenfold from one processor to another.
const LOOKS: u32 = 400_000;

// How often a quick call tries to be let in, at most, before it sleeps.
const MOST_TRIES: u32 = 16;

// How often it looks whether the call that is being made has ended, before it hands the processor on and after that, with the processor's hint for such loops.
// The first is longer than most quick calls take, the second some tens of microseconds: one of them may write a block.
const FIRST_LOOKS: u32 = 50;

const FURTHER_LOOKS: u32 = 1_000;

// What a quick call finds that comes.
#[derive(Clone, Copy)]
enum Entry {
    // It is let in.
    In,
    // Another quick call is being made, and this many have ended so far.
    Soon(u64),
    // A flush is being made or comes first.
    Late,
}

/// Calls that wait, and where each kind of them sleeps.
#[derive(Drop)]
pub(crate) struct Order {
    waiting: Mutex<Waiting>,
    quick: Condvar,
    flushing: Condvar,
    // How many flushes have come, which is read without the lock. It may begin anew at 0.
    come: AtomicU64,
    // How many calls have ended, likewise.
    ended: AtomicU64,
}

// Of which kind one is to be woken, if some call waits. One is enough, since it need not wait on.
fn to_wake(waiting: &Waiting) -> Option<Kind> {
    let next = waiting.next();
    if waiting.count(next) > 0 {
        Some(next)
    } else {
        None
    }
}

/// Of which kind a call is.
pub(crate) fn kind_of(call: &Call) -> Kind {
    match call {
        Call::Flush { .. }
        | Call::FlushTo { .. }
        | Call::WriteRestart { .. }
        | Call::Advance { .. } => Kind::Flushing,
        _ => Kind::Quick,
    }
}

impl Order {
    /// Nobody waits.
    pub fn new() -> Order {
        Order {
            waiting: Mutex::new(Waiting::new()),
            quick: Condvar::new(),
            flushing: Condvar::new(),
            come: AtomicU64::new(0),
            ended: AtomicU64::new(0),
        }
    }

    // Where calls of a kind sleep.
    fn place(&self, kind: Kind) -> &Condvar {
        match kind {
            Kind::Quick => &self.quick,
            Kind::Flushing => &self.flushing,
        }
    }

    // Wakes one call of this kind, if there is a kind.
    fn wake(&self, kind: Option<Kind>) {
        if let Some(kind) = kind {
            self.place(kind).notify_one();
        }
    }

    // Lets a quick call in, if it need not wait.
    fn try_quick<R: Wait>(&self, rt: &R) -> Entry {
        let mut waiting = self.waiting.lock(rt);
        if !waiting.must_wait(Kind::Quick) {
            waiting.come();
            waiting.go_in();
            Entry::In
        } else if waiting.makes_quick() {
            Entry::Soon(self.ended.load(Ordering::SeqCst))
        } else {
            Entry::Late
        }
    }

    // Looks so often whether more calls have ended.
    fn more_ended(&self, seen: u64, looks: u32) -> bool {
        for _ in 0..looks {
            if self.ended.load(Ordering::SeqCst) != seen {
                return true;
            }
            spin_loop();
        }
        false
    }

    // Whether the quick call that is being made ends in a moment.
    fn ends_soon(&self, seen: u64) -> bool {
        if self.more_ended(seen, FIRST_LOOKS) {
            return true;
        }
        yield_now();
        self.more_ended(seen, FURTHER_LOOKS)
    }

    // Waits until a quick call may be made.
    fn enter_quick<R: Wait>(&self, rt: &R) {
        for _ in 0..MOST_TRIES {
            match self.try_quick(rt) {
                Entry::In => return,
                Entry::Soon(seen) if self.ends_soon(seen) => {}
                _ => break,
            }
        }
        self.sleep_quick(rt);
    }

    // Sleeps until a quick call may be made.
    fn sleep_quick<R: Wait>(&self, rt: &R) {
        let mut waiting = self.waiting.lock(rt);
        waiting.come();
        let mut waiting = self
            .quick
            .wait_while(rt, waiting, |w| w.must_wait(Kind::Quick));
        waiting.go_in();
    }

    // Waits until a flush of this client may be made. Says whether it gathers first; if not, it is let in.
    fn begin_flush<R: Wait>(&self, rt: &R, client: Clients) -> bool {
        let mut waiting = self.waiting.lock(rt);
        waiting.come_to_flush(client);
        self.come.fetch_add(1, Ordering::SeqCst);
        let mut waiting = self
            .flushing
            .wait_while(rt, waiting, |w| w.must_wait(Kind::Flushing));
        let gathers = waiting.begin_gathering();
        if gathers {
            self.wake(to_wake(&waiting));
        } else {
            waiting.go_in_to_flush(client);
        }
        gathers
    }

    // Whether the flush that gathers should go on with it.
    fn gains_by_waiting<R: Wait>(&self, rt: &R) -> bool {
        self.waiting.lock(rt).gains_by_waiting()
    }

    // Looks whether more flushes come than have been seen, for a moment, without handing the processor on.
    fn more_come(&self, seen: u64) -> bool {
        for _ in 0..LOOKS {
            if self.come.load(Ordering::SeqCst) != seen {
                return true;
            }
        }
        false
    }

    // Lets other threads run, here and on other processors, as long as flushes come, until those that were served before wait again.
    fn gather<R: Wait>(&self, rt: &R) {
        for _ in 0..MOST_YIELDS {
            let seen = self.come.load(Ordering::SeqCst);
            if !self.gains_by_waiting(rt) {
                return;
            }
            yield_now();
            if !self.more_come(seen) {
                return;
            }
        }
    }

    // Waits until the flush that gathered may be made.
    fn end_gathering<R: Wait>(&self, rt: &R, client: Clients) {
        let mut waiting = self.waiting.lock(rt);
        waiting.end_gathering();
        let mut waiting = self
            .flushing
            .wait_while(rt, waiting, |w| w.must_wait(Kind::Flushing));
        waiting.go_in_to_flush(client);
    }

    /// Waits until a call of this kind may be made. The client's number is at most 64.
    pub fn enter<R: Wait>(&self, rt: &R, client: u16, kind: Kind) {
        match kind {
            Kind::Quick => self.enter_quick(rt),
            Kind::Flushing => {
                let client = Clients::of(client);
                if self.begin_flush(rt, client) {
                    self.gather(rt);
                    self.end_gathering(rt, client);
                }
            }
        }
    }

    // The call is made. Answers of which kind one is to be woken.
    fn end_call<R: Wait>(&self, rt: &R) -> Option<Kind> {
        let mut waiting = self.waiting.lock(rt);
        waiting.leave();
        self.ended.fetch_add(1, Ordering::SeqCst);
        to_wake(&waiting)
    }

    /// The call is made. One that waits is woken, if there is one, when the lock is free again.
    pub fn leave<R: Wait>(&self, rt: &R) {
        let kind = self.end_call(rt);
        self.wake(kind);
    }
}
