// Laws of the rule for places, for who seals or turns before a record is put. Their functions do nothing.
ghost use Rattle.std.specs.Prelude.{◌≡◌, ◌≤◌, ◌<◌, true, false, ℕ};
ghost use Rattle.clfs_lsn.specs.Place.{IsWithin, joins, begins_here, place_after, sealed, frontier};
ghost use Rattle.clfs_lsn.specs.Lsn.{null_lsn};
ghost use Rattle.clfs_lsn.specs.Size.{IsShape, longest};
ghost use Rattle.clfs_lsn.specs.declared.place.Place.{Place};
ghost use Rattle.clfs_lsn.specs.declared.shape.Shape.{Shape};
ghost use Rattle.clfs_queue.specs.Queued.{turned};

/// A record goes where it would have gone: sealing the block before the one that it begins changes nothing of its LSN and of the place
/// after it, and neither does turning to the container that it begins. There it begins a block.
pub fn a_record_goes_where_it_went()
    ensures sealed { (shape : Shape) (place : Place) (n : ℕ) → joins shape place n ≡ false → begins_here shape place n ≡ true
        → place_after shape (sealed place) n ≡ place_after shape place n }
    ensures sealed_begins { (shape : Shape) (place : Place) (n : ℕ) → begins_here shape place n ≡ true → begins_here shape (sealed place) n ≡ true }
    ensures turned { (shape : Shape) (place : Place) (n : ℕ) → IsShape shape → n ≤ longest shape
        → joins shape place n ≡ false → begins_here shape place n ≡ false → place_after shape (turned place) n ≡ place_after shape place n }
    ensures turned_begins { (shape : Shape) (place : Place) (n : ℕ) → IsShape shape → n ≤ longest shape → begins_here shape (turned place) n ≡ true }
{}

/// The next record's LSN is at or above the frontier, below which all others lie, and it isn't null. So links to records that there are, and
/// null links, are below it.
pub fn the_next_lsn_is_above_all()
    ensures frontier { (shape : Shape) (place : Place) (n : ℕ) → IsShape shape → IsWithin shape place
        → frontier place ≤ (place_after shape place n).0 }
    ensures null { (shape : Shape) (place : Place) (n : ℕ) → IsWithin shape place → null_lsn < (place_after shape place n).0 }
{}
