// What a cursor searches for next.
ghost use Rattle.std.specs.Prelude.{◌≡◌, ℕ, List, Some};
ghost use Rattle.clfs_lsn.specs.declared.entry.Head.{Head};
ghost use Rattle.clfs_lsn.specs.Heads.{live_heads, head_at, next_head};
ghost use Rattle.clfs_cursor.specs.Searching.{found_by};

use clfs_lsn::{Head, Lsn, Mode};

/// A search among the live records of a stream.
#[derive(Clone, Copy, Debug, PartialEq, Eq)]
pub enum Search {
    /// For the one at this LSN.
    At(Lsn),
    /// For the first one above this LSN.
    Above(Lsn),
}

/// What reading goes on with from a record: the live record that its link names, or the next live one.
pub fn search_from(mode: Mode, last: &Head) -> Search
    ensures { (base stream : ℕ) (heads : List Head) → head_at last.now.lsn heads ≡ Some last.now → found_by result (live_heads base stream heads) ≡ next_head base stream mode last.now.lsn heads }
{
    match mode {
        Mode::Previous => Search::At(last.previous),
        Mode::UndoNext => Search::At(last.undo_next),
        Mode::Forward => Search::Above(last.lsn),
    }
}
