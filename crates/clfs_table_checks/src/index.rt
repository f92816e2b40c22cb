ghost use Rattle.std.specs.Prelude.{◌≡◌};

use clfs_index::StreamIndex;
use clfs_lsn::{Head, Kind, Lsn};
use std::alloc::{AllocError, Global};

// A head with an LSN of this number.
fn head(number: u64) -> Head
    ensures { result.lsn ≡ number }
{
    Head {
        lsn: Lsn::of_number(number),
        stream: 1,
        kind: Kind::Plain,
        previous: Lsn::null(),
        undo_next: Lsn::null(),
        new_base: Lsn::null(),
        len: 8,
    }
}

// An index with the heads 3 and 5, of which the second one is live.
fn two_heads(alloc: Global) -> Result<StreamIndex, AllocError> {
    let mut index = StreamIndex::new(alloc, Lsn::null());
    index.reserve()?;
    index.push(head(3));
    index.reserve()?;
    index.push(head(5));
    index.set_base(Lsn::of_number(5));
    Ok(index)
}

// The head 3 is there and isn't live, and the next one is 5.
fn finds_the_dead_one(index: &StreamIndex) -> bool {
    index.live_at(Lsn::of_number(3)).is_none()
        && index
            .at(Lsn::of_number(3))
            .is_some_and(|found| found.place == 0)
        && index
            .above(Lsn::null(), 0)
            .is_some_and(|found| found.head == head(5))
}

// The head 5 is the first one and the last.
fn has_one(index: &StreamIndex) -> bool {
    index.first() == Some(head(5)) && index.last() == Some(head(5))
}

#[test]
fn heads_are_found_and_forgotten(rt: HostRuntime) -> Result<(), AllocError> {
    let mut index = two_heads(rt.alloc())?;
    assert!(rt; finds_the_dead_one(&index) && has_one(&index));
    index.forget_below(Lsn::of_number(5));
    assert!(rt; index.at(Lsn::of_number(3)).is_none() && has_one(&index));
    Ok(())
}
