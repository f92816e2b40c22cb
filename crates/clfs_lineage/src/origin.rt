// What an archive tells of where it stands in the life of its log.
ghost use Rattle.std.specs.Prelude.{◌≡◌};
ghost use Rattle.clfs_lineage.specs.Lineage.{are_first, may_come_after, names_of};

use clfs_base::{Row, Rows};
use clfs_lsn::Lsn;

/// Where an archive stands in the life of its log.
#[derive(Debug, Drop)]
pub struct Origin {
    /// The streams, in the order of their numbers.
    pub streams: Rows,
    /// The first container that is listed.
    pub first: u32,
    /// Where what is on the disk ends.
    pub end: Lsn,
}

// Whether the names of streams are the first of those of others.
fn are_first(rows: &[Row], others: &[Row]) -> bool
    ensures { result ≡ are_first (names_of rows.now) (names_of others.now) }
{
    let Some((row, more)) = rows.split_first() else {
        return true;
    };
    let Some((other, others)) = others.split_first() else {
        return false;
    };
    row.name.as_slice() == other.name.as_slice() && are_first(more, others)
}

impl Origin {
    /// Whether an archive of this origin can be a later one of the same log as one of the other, or one of the same time.
    pub fn may_come_after(&self, earlier: &Origin) -> bool
        ensures { result ≡ may_come_after self.now earlier.now }
    {
        earlier.first <= self.first
            && earlier.end <= self.end
            && are_first(earlier.streams.as_slice(), self.streams.as_slice())
    }
}
