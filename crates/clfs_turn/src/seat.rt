// A seat at the lock: the badge of its view at the table, and the client that it was made for.
//
// The badge is the seat itself, which has no bytes. It is a token of which there is one only, so nobody else
// can add entries of this client, and it can be sent to another thread. Between two calls the seat is at rest:
// it has no turn, holds no slot, and has compared all that it knows.
ghost use Rattle.std.specs.Prelude.{◌≡◌, true, is_some};
ghost use Rattle.clfs_turn.specs.Views.{view_in};

use crate::view::View;
use atomic_table::Badge;
use std::marker::Model;

/// A seat, made for one client. Contracts see it as its lock, its client, the state in which the
/// lock's history began, and the beginning of that history which it has seen.
#[derive(Drop)]
pub struct TurnSeat<E, O> {
    pub(crate) badge: Badge<View<E, O>>,
    pub(crate) client: u16,
    pub(crate) ghost has_opening: { is_some (view_in badge.views).opening ≡ true },
}

impl<E, O> Model for TurnSeat<E, O> {
    ghost use Rattle.clfs_turn.specs.Seats.{SeatState, seat_code};

    ghost Value = { SeatState E O };

    ghost coded = { seat_code E.code O.code };

    ghost use Rattle.clfs_turn.specs.Views.{view_in, value_of, IsAtRest};

    ghost view = { λ s. record {
      lock = s.badge.table_id;
      client = s.client;
      opening = value_of (view_in s.badge.views).opening s.has_opening;
      seen = (view_in s.badge.views).seen;
    } };

    ghost invariant = { λ s. IsAtRest s.badge s.client };
}

impl<E, O> TurnSeat<E, O> {
    /// The client that the seat was made for.
    pub fn client(&self) -> u16
        ensures { result ≡ self.now.client }
    {
        self.client
    }
}
