// The lock's public calls.
ghost use Rattle.std.specs.Prelude.{◌≡◌, ℕ, ◌^◌, ◌<◌, [], true, false, length, map, All, IsOk, IfOk, IfErr};
ghost use mathlib.Core.List.{IsPrefix};
ghost use Rattle.clfs_turn.specs.Calls.{Called, IsLawful};
ghost use Rattle.clfs_turn.specs.Lists.{is_in, are_distinct, entries_of, longer};
ghost use Rattle.clfs_turn.specs.Seats.{own, IsNewSeat, IsSameSeat, HasSeen};

use crate::closing::gather;
use crate::dealing::deal;
use crate::holding::with_turn;
use crate::logged::{Job, Logged};
use crate::seat::TurnSeat;
use crate::sharing::{copy_of, learn};
use crate::view::{OneHistory, Roll, VALUE, View};
use atomic_table::{Badge, Refused, Table};
use std::alloc::{AllocError, Global};
use std::marker::Model;
use std::mem;
use std::snapshot::Snapshot;
use std::sync::Wait;
use std::sync::atomic::AtomicU64;

/// The lock, with the value after it. Contracts see it as which lock it is, the state in which its
/// history began, and its clients.
#[derive(Drop)]
pub struct Turn<V: Logged<E, O>, E, O> {
    table: Table<Option<V>, View<E, O>, Roll<V>, OneHistory, Global>,
    // How many threads wait for the turn asleep.
    asleep: AtomicU64,
}

impl<V: Logged<E, O>, E, O> Model for Turn<V, E, O> {
    ghost use Rattle.std.specs.Prelude.{◌≡◌};
    ghost use Rattle.clfs_turn.specs.Seats.{LockState, lock_code};

    ghost Value = { LockState O };

    ghost coded = { lock_code O.code };

    ghost view = { λ t. record {
      lock = t.table.shared.table_id;
      opening = V.opening t.table.shared.key.first.value;
      clients = t.table.shared.key.clients.items;
    } };

    ghost invariant = { λ t. (t.table.shared.table_id.words ≡ 2) × (t.table.shared.table_id.slots ≡ 1) };
}

/// There was no memory for a lock. The value comes back.
#[derive(Drop)]
pub struct TurnRefused<V> {
    pub value: V,
}

impl<V: Logged<E, O>, E, O> Turn<V, E, O> {
    /// A lock round this value, with one seat for each client, in that order.
    pub fn new(
        alloc: Global,
        value: V,
        clients: &[u16],
    ) -> Result<(Turn<V, E, O>, Vec<TurnSeat<E, O>>), TurnRefused<V>>
        requires clients { are_distinct clients.now ≡ true }
        requires empty { V.entries value ≡ [] }
        ensures lock { IfOk result (λ t. (t.0.opening ≡ V.opening value) × (t.0.clients ≡ clients.now)) }
        ensures clients { IfOk result (λ t. map (λ s. s.client) t.1.items ≡ clients.now) }
        ensures seats { IfOk result (λ t. All (λ s. IsNewSeat t.0 s) t.1.items) }
        ensures refused { IfErr result (λ r. r.value ≡ value) }
    {
        let Ok(list) = clients.to_vec(alloc) else {
            return Err(TurnRefused { value });
        };
        let Ok(mut seats) = Vec::with_capacity(alloc, clients.len()) else {
            return Err(TurnRefused { value });
        };
        let Ok(mut slots) = Vec::with_capacity(alloc, 1) else {
            return Err(TurnRefused { value });
        };
        let roll = Roll {
            first: Snapshot::of(&value),
            clients: list,
        };
        slots.push_reserved(Some(value));
        match Table::new(alloc, &[0, 0], slots, &roll) {
            Ok((table, dealer)) => {
                deal(&table.shared, dealer, clients, &mut seats);
                let asleep = AtomicU64::new(0);
                Ok((Turn { table, asleep }, seats))
            }
            Err(Refused { mut slots }) => {
                let value = slots.pop().unwrap().unwrap();
                slots.destroy_empty();
                Err(TurnRefused { value })
            }
        }
    }

    /// Waits for the turn, does the job on the value, and counts the entry that the job added.
    pub fn call<J: Job<V, E, O>, R: Wait>(
        &self,
        rt: &R,
        seat: &mut TurnSeat<E, O>,
        job: J,
    ) -> J::Answer
        requires lock { seat.old.lock ≡ self.now.lock }
        requires client { J.client job ≡ seat.old.client }
        requires ready { J.is_ready job }
        ensures same { IsSameSeat seat.old seat.new }
        ensures seen { IsPrefix seat.old.seen seat.new.seen }
        // After an entry was added this is the length of the history, so COUNT didn't overflow.
        ensures fits { length seat.new.seen < 2 ^ 64 }
        ensures called { Called V.entries V.client_of V.reached (λ x y. J.ran job x y result) seat.old seat.new }
    {
        let table = &self.table.shared;
        let badge = mem::replace(&mut seat.badge, Badge::blank());
        let mut place = badge.into_seat::<Option<V>>();
        let answer = with_turn(rt, table, &self.asleep, &mut place, job);
        seat.badge = place.into_badge();
        answer
    }

    /// Lets two seats share what they have seen. A refusal would be out of memory; none comes, since copies of seats take none.
    pub fn meet(&self, a: &mut TurnSeat<E, O>, b: &mut TurnSeat<E, O>) -> Result<(), AllocError>
        requires lock { (a.old.lock ≡ self.now.lock) × (b.old.lock ≡ self.now.lock) }
        ensures same { IsSameSeat a.old a.new × IsSameSeat b.old b.new }
        ensures met { IfOk result (λ _. (a.new.seen ≡ longer a.old.seen b.old.seen) × (b.new.seen ≡ a.new.seen)) }
        ensures begins { IfOk result (λ _. IsPrefix a.old.seen a.new.seen × IsPrefix b.old.seen a.new.seen) }
        ensures own { IfOk result (λ _. (own V.client_of a.new ≡ own V.client_of a.old) × (own V.client_of b.new ≡ own V.client_of b.old)) }
        ensures lawful { IfOk result (λ _. IsLawful V.entries V.reached a.old.opening a.new.seen) }
        ensures refused { IfErr result (λ _. (a.new ≡ a.old) × (b.new ≡ b.old)) }
        ensures granted { IsOk result }
    {
        let table = &self.table.shared;
        let badge = mem::replace(&mut a.badge, Badge::blank());
        let mut one = badge.into_seat::<Option<V>>();
        let badge = mem::replace(&mut b.badge, Badge::blank());
        let mut two = badge.into_seat::<Option<V>>();
        // Copies of seats of this table take no memory, so there is nothing to refuse.
        let first = copy_of(table, &mut one);
        let second = copy_of(table, &mut two);
        learn(table, &mut two, first);
        learn(table, &mut one, second);
        a.badge = one.into_badge();
        b.badge = two.into_badge();
        Ok(())
    }

    /// Takes all seats of the lock, and gives the value back.
    pub fn close(self, seats: Vec<TurnSeat<E, O>>) -> V
        requires lock { All (λ s. s.lock ≡ self.lock) seats.items }
        requires all { (c : ℕ) → is_in c self.clients ≡ true → is_in c (map (λ s. s.client) seats.items) ≡ true }
        ensures seats { All (λ s. HasSeen V.client_of (V.entries result) s) seats.items }
        ensures others { (c : ℕ) → is_in c self.clients ≡ false → entries_of V.client_of c (V.entries result) ≡ [] }
        ensures lawful { V.reached self.opening result }
    {
        let Turn { table, asleep: _ } = self;
        let place = gather(&table.shared, seats);
        let mut closed = table.close_with(place);
        let value = closed.take(VALUE).unwrap();
        closed.free();
        value
    }
}
