// The turn itself: how a seat takes it with the value, has a job done, puts the value back and gives the turn up.
ghost use Rattle.std.specs.Prelude.{◌≡◌, ℕ, List, [], ◌∷◌, true, Some, None, is_some, if◌then◌else◌};
ghost use Rattle.clfs_turn.specs.Lists.{is_in};
ghost use Rattle.clfs_turn.specs.Steps.{holding, Meets, Returns, Worked};
ghost use Rattle.clfs_turn.specs.Views.{at_rest};

use crate::logged::{Job, Logged};
use crate::steps::{Claim, Post, Release};
use crate::view::{COUNT, HELD, TableSeat, TurnTable, VALUE};
use std::sync::Wait;
use std::sync::atomic::{AtomicU64, Ordering};

// Waits for the turn, and takes it with the value. A thread that finds HELD at 1 parks on the word
// until a release wakes it, and then tries again. It is counted as asleep before the word is looked at
// again and it parks, so a release that counts nobody has lowered HELD before that look.
fn claim<V: Logged<E, O>, E, O, R: Wait>(
    rt: &R,
    table: &TurnTable<V, E, O>,
    asleep: &AtomicU64,
    seat: &mut TableSeat<V, E, O>,
)
    requires own { (seat.old.table_id ≡ table.now.table_id) × (table.now.table_id.words ≡ 2) × (seat.old.me.1 ≡ []) }
    requires idle { (seat.old.me.0.turn ≡ None) × ((c : ℕ) × (is_in c seat.old.me.0.clients ≡ true)) }
    ensures same { (seat.new.table_id ≡ seat.old.table_id) × (seat.new.id ≡ seat.old.id) }
    ensures taken { (x : V) × (seat.new.me ≡ holding V.entries (record seat.old.me.0 { turn = Some (V.entries x) }) x)
        × Meets V.entries V.client_of V.reached seat.old.me.0 x }
{
    for _ in rt.forever() {
        if table.compare_exchange::<Claim<V>>(seat, HELD, 0, 1) == 0 {
            return;
        }
        asleep.fetch_add(1, Ordering::SeqCst);
        table.park(rt, HELD, 1);
        asleep.fetch_sub(1, Ordering::SeqCst);
    }
    unreachable!()
}

// Puts the value back, counts its last entry where `posts` says that it has one more, and gives the
// turn up. The value lies in the slot before the count rises, since the step that counts reads from
// the seat's hand which entry it counts; nobody else reaches the slot until the release. A thread is
// woken if one is counted as asleep.
fn give<V: Logged<E, O>, E, O>(
    table: &TurnTable<V, E, O>,
    asleep: &AtomicU64,
    seat: &mut TableSeat<V, E, O>,
    value: V,
    posts: bool,
)
    requires own { (seat.old.table_id ≡ table.now.table_id) × (table.now.table_id.words ≡ 2) }
    requires turn { (h : List E) × (seat.old.me.0.turn ≡ Some h)
        × ((c : ℕ) × (is_in c seat.old.me.0.clients ≡ true) × Returns V.entries V.client_of posts c h value) }
    requires olds { seat.old.me.0.olds ≡ [] }
    requires lawful { (o : O) × (seat.old.me.0.opening ≡ Some o) × V.reached o value }
    requires hand { seat.old.me.1 ≡ (0, None) ∷ [] }
    ensures same { (seat.new.table_id ≡ seat.old.table_id) × (seat.new.id ≡ seat.old.id) }
    ensures me { seat.new.me ≡ (record seat.old.me.0 { turn = None; seen = if posts then V.entries value else seat.old.me.0.seen }, []) }
{
    match table.exchange(seat, VALUE, Some(value)) {
        None => {}
        Some(_) => unreachable!(),
    }
    if posts {
        table.fetch_add::<Post<V>>(seat, COUNT, 1);
    }
    table.store::<Release<V>>(seat, HELD, 0);
    if asleep.load(Ordering::SeqCst) != 0 {
        table.wake_one(HELD);
    }
}

/// Waits for the turn, does the job on the value, and gives the turn up.
pub(crate) fn with_turn<V: Logged<E, O>, E, O, J: Job<V, E, O>, R: Wait>(
    rt: &R,
    table: &TurnTable<V, E, O>,
    asleep: &AtomicU64,
    seat: &mut TableSeat<V, E, O>,
    job: J,
) -> J::Answer
    requires own { (seat.old.table_id ≡ table.now.table_id) × (table.now.table_id.words ≡ 2) }
    requires seat { seat.old.me ≡ (at_rest seat.old.me.0.opening (J.client job ∷ []) seat.old.me.0.seen, []) }
    requires opening { is_some seat.old.me.0.opening ≡ true }
    requires ready { J.is_ready job }
    ensures same { (seat.new.table_id ≡ seat.old.table_id) × (seat.new.id ≡ seat.old.id) }
    ensures worked { Worked V.entries V.client_of V.reached (J.client job) (λ x y. J.ran job x y result) seat.old.me seat.new.me }
{
    claim(rt, table, asleep, seat);
    let mut value = table.exchange(seat, VALUE, None).unwrap();
    let before = value.count();
    let answer = job.run(&mut value);
    let after = value.count();
    give(table, asleep, seat, value, before != after);
    answer
}
