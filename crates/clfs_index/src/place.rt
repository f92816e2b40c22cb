// The place of an LSN in a sorted row, and the place above it.
ghost use Rattle.std.specs.Prelude.{◌≡◌, ◌+◌, ◌<◌, ◌≤◌, true, length, slice_index_or};
ghost use Rattle.clfs_lsn.specs.declared.entry.Head.{Head};
ghost use Rattle.clfs_lsn.specs.Heads.{lsn_of_head};
ghost use Rattle.clfs_lsn.specs.Rising.{AreRising, IsPlaceOf};

use clfs_lsn::{Head, Lsn, place_of};

// How many heads at the end are looked at one by one before the row is searched by halves: links mostly lead to what was written last.
const RECENT: usize = 16;

// The place of the first head from an LSN on.
pub(crate) fn place_at(heads: &[Head], lsn: Lsn) -> usize
    requires { AreRising lsn_of_head heads.now }
    ensures { IsPlaceOf lsn_of_head heads.now lsn result }
{
    match heads.get(heads.len().saturating_sub(RECENT)) {
        Some(head) if head.lsn <= lsn => place_from_end(heads, lsn),
        _ => place_of(heads, lsn),
    }
}

// The same, looked for from the end.
fn place_from_end(heads: &[Head], lsn: Lsn) -> usize
    requires { AreRising lsn_of_head heads.now }
    ensures { IsPlaceOf lsn_of_head heads.now lsn result }
{
    for place in (0..heads.len()).rev() {
        if heads[place].lsn < lsn {
            return place + 1;
        }
    }
    0
}

// The place of the first head above an LSN. Where it is likely to be is looked at first, and nothing is searched where it is there.
pub(crate) fn place_above(heads: &[Head], lsn: Lsn, near: usize) -> usize
    requires { AreRising lsn_of_head heads.now }
    ensures { IsPlaceOf lsn_of_head heads.now (lsn + 1) result }
{
    if is_place_above(heads, lsn, near) {
        near
    } else {
        heads.partition_point(|head| head.lsn <= lsn)
    }
}

// Whether a place is that of the first head above an LSN, by the heads there and before it.
fn is_place_above(heads: &[Head], lsn: Lsn, near: usize) -> bool
    requires { AreRising lsn_of_head heads.now }
    ensures { result ≡ true → IsPlaceOf lsn_of_head heads.now (lsn + 1) near }
{
    if !lies_above(heads, lsn, near) {
        return false;
    }
    near == 0 || lies_up_to(heads, lsn, near - 1)
}

// Whether the head at a place, where there is one, lies above an LSN.
fn lies_above(heads: &[Head], lsn: Lsn, place: usize) -> bool
    ensures { result ≡ true → (d : Head) → place < length heads.now → lsn < (slice_index_or heads.now place d).lsn }
{
    match heads.get(place) {
        Some(head) => lsn < head.lsn,
        None => true,
    }
}

// Whether there is a head at a place, and it doesn't lie above an LSN.
fn lies_up_to(heads: &[Head], lsn: Lsn, place: usize) -> bool
    ensures within { result ≡ true → place < length heads.now }
    ensures up_to { result ≡ true → (d : Head) → (slice_index_or heads.now place d).lsn ≤ lsn }
{
    match heads.get(place) {
        Some(head) => head.lsn <= lsn,
        None => false,
    }
}
