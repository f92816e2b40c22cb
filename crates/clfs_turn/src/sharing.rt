// How one seat learns what another has seen: a copy of the one is joined into the other, and a look compares.
//
// A copy is no client's seat, so it never posts, and joining it takes nothing from the seat that it was made of.
ghost use Rattle.std.specs.Prelude.{◌≡◌, [], ◌++◌, Some};
ghost use mathlib.Core.List.{IsPrefix};
ghost use Rattle.clfs_turn.specs.Calls.{IsLawful};
ghost use Rattle.clfs_turn.specs.Lists.{longer};
ghost use Rattle.clfs_turn.specs.Steps.{Grows};
ghost use Rattle.clfs_turn.specs.Views.{at_rest};

use crate::logged::Logged;
use crate::steps::{Copy, Glue, Look};
use crate::view::{COUNT, TableSeat, TurnTable};

/// A copy of what the seat has seen. It takes no memory.
pub(crate) fn copy_of<V: Logged<E, O>, E, O>(
    table: &TurnTable<V, E, O>,
    seat: &mut TableSeat<V, E, O>,
) -> TableSeat<V, E, O>
    requires { (seat.old.table_id ≡ table.now.table_id) × (table.now.table_id.words ≡ 2) }
    ensures same { (seat.new.table_id ≡ seat.old.table_id) × (seat.new.id ≡ seat.old.id) × (seat.new.me ≡ seat.old.me) }
    ensures copy { (result.table_id ≡ seat.old.table_id) × (result.me ≡ (at_rest seat.old.me.0.opening [] seat.old.me.0.seen, [])) }
{
    table.split_seat::<Copy>(seat)
}

/// Joins a copy into a seat, which then has seen the longer of the two. Both were beginnings of one
/// history, so the shorter one begins the longer: the look says so.
pub(crate) fn learn<V: Logged<E, O>, E, O>(
    table: &TurnTable<V, E, O>,
    seat: &mut TableSeat<V, E, O>,
    copy: TableSeat<V, E, O>,
)
    requires own { (seat.old.table_id ≡ table.now.table_id) × (copy.table_id ≡ table.now.table_id) × (table.now.table_id.words ≡ 2) }
    requires seat { seat.old.me ≡ (at_rest seat.old.me.0.opening seat.old.me.0.clients seat.old.me.0.seen, []) }
    requires copy { copy.me ≡ (at_rest copy.me.0.opening [] copy.me.0.seen, []) }
    ensures same { (seat.new.table_id ≡ seat.old.table_id) × (seat.new.id ≡ seat.old.id) }
    ensures me { seat.new.me ≡ (at_rest seat.old.me.0.opening (seat.old.me.0.clients ++ []) (longer seat.old.me.0.seen copy.me.0.seen), []) }
    ensures lawful { (o : O) → seat.old.me.0.opening ≡ Some o → IsLawful V.entries V.reached o (longer seat.old.me.0.seen copy.me.0.seen) }
    ensures grows { Grows V.client_of seat.old.me.0.clients seat.old.me.0.seen (longer seat.old.me.0.seen copy.me.0.seen) }
    ensures copied { IsPrefix copy.me.0.seen (longer seat.old.me.0.seen copy.me.0.seen) }
{
    table.join_seat::<Glue>(seat, copy);
    table.load::<Look<V>>(seat, COUNT);
}
