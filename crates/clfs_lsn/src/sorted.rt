// Rows sorted by LSN, as heads of records are: the place of an LSN in one, and forgetting its front.
//
// A table of the log has what it keeps in the order of LSNs, since these only rise, so a search by halves finds the place of one. What
// a table needs no more lies at the front. It goes in whole pieces: not before it is at least half of the row, so that each one that
// stays and has to move is paid for by one that goes. So no more than twice as many are kept as are needed.
ghost use Rattle.std.specs.Prelude.{◌≡◌, ℕ, ◌*◌, ◌<◌, ◌≤◌, length, drop, vec_capacity, vec_len};
ghost use Rattle.std.specs.List.{AllWithin};
ghost use Rattle.clfs_lsn.specs.Rising.{AreRising, IsPlaceOf, rows_from};

use crate::entry::Head;
use crate::lsn::Lsn;

/// What has an LSN, by which rows of it are sorted.
pub trait HasLsn: Copy {
    ghost lsn_of: { Self → ℕ };

    /// Its LSN.
    fn lsn(&self) -> Lsn
        ensures { result ≡ lsn_of self.now };
}

impl HasLsn for Head {
    ghost use Rattle.clfs_lsn.specs.Heads.{lsn_of_head};

    ghost lsn_of = { lsn_of_head };

    fn lsn(&self) -> Lsn {
        self.lsn
    }
}

/// The place of the first one from an LSN on: a search by halves.
pub fn place_of<T: HasLsn>(rows: &[T], lsn: Lsn) -> usize
    requires { AreRising T.lsn_of rows.now }
    ensures { IsPlaceOf T.lsn_of rows.now lsn result }
{
    rows.partition_point(|row| row.lsn() < lsn)
}

/// Those below an LSN may go, and where they are half of the row they do. It takes no memory.
pub fn forget_below<T: HasLsn + Drop>(rows: &mut Vec<T>, lsn: Lsn)
    requires { AreRising T.lsn_of rows.old.items }
    ensures kept { rows_from T.lsn_of lsn rows.new.items ≡ rows_from T.lsn_of lsn rows.old.items }
    ensures end { (n : ℕ) × (rows.new.items ≡ drop n rows.old.items) × AllWithin (λ row. T.lsn_of row < lsn) rows.old.items 0 n }
    ensures few { length rows.new.items ≤ 2 * length (rows_from T.lsn_of lsn rows.new.items) }
    ensures less { vec_len rows.new ≤ vec_len rows.old }
    ensures capacity { vec_capacity rows.new ≡ vec_capacity rows.old }
    ensures rising { AreRising T.lsn_of rows.new.items }
{
    let place = place_of(rows, lsn);
    let len = rows.len();
    if place >= len - place {
        rows.rotate_left(place);
        rows.truncate(len - place);
    }
}
