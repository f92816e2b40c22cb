// The table's types: what each seat knows, what the table is told when it is made, and its rule.
use crate::logged::Logged;
use atomic_table::{Seat, Shared, TableRule};
use std::collections::LinkedList;
use std::snapshot::Snapshot;

/// The table's shared part, through which all threads step.
pub(crate) type TurnTable<V, E, O> = Shared<Option<V>, View<E, O>, Roll<V>, OneHistory>;

/// A seat as the table knows it, with the slots in its hand.
pub(crate) type TableSeat<V, E, O> = Seat<Option<V>, View<E, O>>;

/// The word that is 1 while a seat has the turn.
pub(crate) const HELD: usize = 0;

/// The word that counts the history.
pub(crate) const COUNT: usize = 1;

/// The slot that has the value.
pub(crate) const VALUE: usize = 0;

/// What a seat at the table knows. It stands in proofs alone: no value of it is made.
pub struct View<E, O> {
    /// The state in which the history began. A seat that was joined into another has none.
    pub opening: Option<O>,
    /// Where the seat has the turn, the whole history.
    pub turn: Option<LinkedList<E>>,
    /// The clients whose entries are added by this seat and no other.
    pub clients: LinkedList<u16>,
    /// The beginning of the history that was seen.
    pub seen: LinkedList<E>,
    /// What two seats had seen when they were joined, until a look compares it.
    pub olds: LinkedList<Past<E>>,
}

/// What a seat had seen when it was joined, and its clients. No value of it is made.
pub struct Past<E> {
    pub clients: LinkedList<u16>,
    pub seen: LinkedList<E>,
}

/// What the table is told when it is made: the first value, as proofs see it, and the clients.
pub struct Roll<V> {
    pub first: Snapshot<V>,
    pub clients: Vec<u16>,
}

impl<V> Drop for Roll<V> {
    fn drop(self) {
        let Self {
            first: _,
            clients: _,
        } = self;
    }
}

/// The rule of the table: all views are of one history, which COUNT counts.
pub struct OneHistory;

impl<V: Logged<E, O>, E, O> TableRule<Option<V>, View<E, O>, Roll<V>> for OneHistory {
    ghost use Rattle.clfs_turn.specs.Rule.{KeepsTable, dealer};

    ghost holds = { KeepsTable V.entries V.client_of V.opening V.reached };

    ghost first = { dealer V.opening };
}
