// A law over the definitions, for callers to cite. Its function does nothing.
ghost use Rattle.std.specs.Prelude.{◌≡◌, ℕ, List, Option};
ghost use Rattle.clfs_lsn.specs.declared.entry.Head.{Head};
ghost use Rattle.clfs_lsn.specs.Heads.{hold_of};
ghost use Rattle.clfs_tail.specs.Firsts.{AreFirsts, hold_among};

/// The hold by the streams' first live LSNs is that by the heads of all records.
pub fn first_live_lsns_give_the_hold()
    ensures { (end : ℕ) (archive : Option ℕ) (firsts : List (Option ℕ)) (bases : ℕ → ℕ) (heads : List Head) → AreFirsts firsts bases heads → hold_among end archive firsts ≡ hold_of end archive bases heads }
{}
