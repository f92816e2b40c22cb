// The kinds of step on the table, each with what it tells the seat that makes it.
ghost use Rattle.clfs_turn.specs.Views.{at_rest, spent};
ghost use Rattle.clfs_turn.specs.Steps.{claimed, posted, released, looked, joined, entered};
ghost use Rattle.clfs_turn.specs.Steps.{first_client, other_clients};

use crate::logged::Logged;
use crate::view::View;
use atomic_table::{Join, Play, Split};
use std::marker::PhantomData;

/// Takes the turn where it is free: HELD from 0 to 1.
pub(crate) struct Claim<V> {
    of: PhantomData<V>,
}

impl<V: Logged<E, O>, E, O> Play<Option<V>, View<E, O>> for Claim<V> {
    ghost then = { claimed V.entries V.client_of V.reached };
}

/// Counts the entry that the value in hand has more: COUNT plus 1.
pub(crate) struct Post<V> {
    of: PhantomData<V>,
}

impl<V: Logged<E, O>, E, O> Play<Option<V>, View<E, O>> for Post<V> {
    ghost then = { posted V.entries };
}

/// Gives the turn up: HELD to 0.
pub(crate) struct Release<V> {
    of: PhantomData<V>,
}

impl<V: Logged<E, O>, E, O> Play<Option<V>, View<E, O>> for Release<V> {
    ghost then = { released V.entries };
}

/// Compares what joined seats had seen: a load of COUNT.
pub(crate) struct Look<V> {
    of: PhantomData<V>,
}

impl<V: Logged<E, O>, E, O> Play<Option<V>, View<E, O>> for Look<V> {
    ghost then = { looked V.entries V.client_of V.reached };
}

/// Cuts off a seat for the first of the dealer's clients.
pub(crate) struct Deal;

impl<E, O> Split<View<E, O>> for Deal {
    ghost left = { λ v. at_rest v.opening (other_clients v.clients) v.seen };

    ghost right = { λ v. at_rest v.opening (first_client v.clients) v.seen };
}

/// Cuts off a copy, which has seen as much and is no client's seat, so it never posts.
pub(crate) struct Copy;

impl<E, O> Split<View<E, O>> for Copy {
    ghost use Rattle.std.specs.Prelude.{[]};

    ghost left = { λ v. v };

    ghost right = { λ v. at_rest v.opening [] v.seen };
}

/// Makes two seats one.
pub(crate) struct Glue;

impl<E, O> Join<View<E, O>> for Glue {
    ghost both = { joined };

    ghost spent = { spent };
}

/// Comes to the table as a seat that knows nothing.
pub(crate) struct Enter<V> {
    of: PhantomData<V>,
}

impl<V: Logged<E, O>, E, O> Play<Option<V>, View<E, O>> for Enter<V> {
    ghost then = { entered };
}
