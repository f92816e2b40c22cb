// How a new lock's seats are made: the first seat at the table stands for all clients, and a seat is cut off for each.
ghost use Rattle.std.specs.Prelude.{◌≡◌, ◌≤◌, [], ◌∷◌, true, false, length, map, All, is_some, vec_capacity};
ghost use Rattle.clfs_turn.specs.Lists.{is_in, are_distinct};
ghost use Rattle.clfs_turn.specs.Steps.{other_clients};
ghost use Rattle.clfs_turn.specs.Views.{at_rest, IsDealt};

use crate::logged::Logged;
use crate::seat::TurnSeat;
use crate::steps::Deal;
use crate::view::{TableSeat, TurnTable};

// A seat of its own for the dealer's first client.
fn deal_one<V: Logged<E, O>, E, O>(
    table: &TurnTable<V, E, O>,
    dealer: &mut TableSeat<V, E, O>,
    client: u16,
) -> TurnSeat<E, O>
    requires own { (dealer.old.table_id ≡ table.now.table_id) × (table.now.table_id.words ≡ 2) }
    requires dealer { dealer.old.me ≡ (at_rest dealer.old.me.0.opening (client ∷ other_clients dealer.old.me.0.clients) [], []) }
    requires apart { is_in client (other_clients dealer.old.me.0.clients) ≡ false }
    requires opening { is_some dealer.old.me.0.opening ≡ true }
    ensures dealer { (dealer.new.table_id ≡ dealer.old.table_id)
        × (dealer.new.me ≡ (at_rest dealer.old.me.0.opening (other_clients dealer.old.me.0.clients) [], [])) }
    ensures client { result.client ≡ client }
    ensures seat { IsDealt dealer.old.table_id dealer.old.me.0.opening result }
{
    let place = table.split_seat::<Deal>(dealer);
    TurnSeat {
        badge: place.into_badge(),
        client,
    }
}

/// One seat for each client, in this order.
pub(crate) fn deal<V: Logged<E, O>, E, O>(
    table: &TurnTable<V, E, O>,
    mut dealer: TableSeat<V, E, O>,
    clients: &[u16],
    seats: &mut Vec<TurnSeat<E, O>>,
)
    requires own { (dealer.table_id ≡ table.now.table_id) × (table.now.table_id.words ≡ 2) }
    requires dealer { dealer.me ≡ (at_rest dealer.me.0.opening clients.now [], []) }
    requires apart { are_distinct clients.now ≡ true }
    requires opening { is_some dealer.me.0.opening ≡ true }
    requires room { (seats.old.items ≡ []) × (length clients.now ≤ vec_capacity seats.old) }
    ensures clients { map (λ s. s.client) seats.new.items ≡ clients.now }
    ensures dealt { All (λ s. IsDealt dealer.table_id dealer.me.0.opening s) seats.new.items }
{
    for &client in clients {
        seats.push_reserved(deal_one(table, &mut dealer, client));
    }
}
