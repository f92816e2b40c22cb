// What comes before the table is closed: all seats are joined into one, which then knows that nobody has the turn.
ghost use Rattle.std.specs.Prelude.{◌≡◌, [], None, All};
ghost use Rattle.clfs_turn.specs.Steps.{AllGathered};

use crate::logged::Logged;
use crate::seat::TurnSeat;
use crate::steps::{Enter, Glue};
use crate::view::{COUNT, TableSeat, TurnTable};

/// Joins these seats into a new one.
pub(crate) fn gather<V: Logged<E, O>, E, O>(
    table: &TurnTable<V, E, O>,
    mut seats: Vec<TurnSeat<E, O>>,
) -> TableSeat<V, E, O>
    requires words { table.now.table_id.words ≡ 2 }
    requires lock { All (λ s. s.lock ≡ table.now.table_id) seats.items }
    ensures own { (result.table_id ≡ table.now.table_id) × (result.me.1 ≡ []) }
    ensures idle { result.me.0.turn ≡ None }
    ensures gathered { AllGathered result.me.0 seats.items }
{
    let (_count, mut place) = table.load_new_seat::<Enter<V>>(COUNT);
    while let Some(seat) = seats.pop() {
        let TurnSeat { badge, client: _ } = seat;
        table.join_seat::<Glue>(&mut place, badge.into_seat());
    }
    place
}
