// What the slab has of a cursor, and what is done to it there.
ghost use Rattle.std.specs.Prelude.{◌≡◌, ◌≢◌, ℕ, ◌+◌, ◌≤◌, Some, None, length, count_by, if◌then◌else◌, is_some};
ghost use Rattle.slab.specs.Slab.{get, slab_len};
ghost use Rattle.clfs_cursor.specs.Kept.{has_key};
ghost use Rattle.clfs_cursor.specs.declared.standing.Standing.{Standing};

use crate::keys::Numbered;
use clfs_lsn::{CursorKind, Lsn};
use slab::Slab;

// A cursor without its number: what it goes over, and the record that it gave last.
#[derive(Clone, Copy)]
pub(crate) struct Standing {
    pub(crate) kind: CursorKind,
    pub(crate) last: Lsn,
}

// The cursor at a key is at another record from now on.
pub(crate) fn move_standing(slots: &mut Slab<Standing>, key: usize, lsn: Lsn)
    ensures moved { (standing : Standing) → get slots.old key ≡ Some standing → get slots.new key ≡ Some (record standing { last = lsn }) }
    ensures others { (other : ℕ) → other ≢ key → get slots.new other ≡ get slots.old other }
    ensures len { slab_len slots.new ≡ slab_len slots.old }
    ensures capacity { slots.new.capacity ≡ slots.old.capacity }
{
    if let Some(standing) = slots.get_mut(key) {
        standing.last = lsn;
    }
}

// The cursors at these keys go. It takes no memory.
pub(crate) fn free(slots: &mut Slab<Standing>, keys: &[Numbered])
    requires { (key : ℕ) → count_by (has_key key) keys.now ≤ (if is_some (get slots.old key) then 1 else 0) }
    ensures others { (key : ℕ) → count_by (has_key key) keys.now ≡ 0 → get slots.new key ≡ get slots.old key }
    ensures gone { (key : ℕ) → 1 ≤ count_by (has_key key) keys.now → get slots.new key ≡ None }
    ensures len { slab_len slots.new + length keys.now ≡ slab_len slots.old }
    ensures capacity { slots.new.capacity ≡ slots.old.capacity }
{
    for numbered in keys {
        let _ended = slots.remove(numbered.key);
    }
}
