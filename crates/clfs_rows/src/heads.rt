// What the definitions over heads say of three records: one of stream 1 and one of stream 2 in the first block, and a restart area
// of stream 1 in the second one.
ghost use Rattle.std.specs.Prelude.{◌≡◌, [], ◌∷◌, Some, None};
ghost use Rattle.clfs_lsn.specs.Lsn.{null_lsn, lsn_number};
ghost use Rattle.clfs_lsn.specs.declared.cursor.Mode.TheVariants.{Previous, UndoNext, Forward};
ghost use Rattle.clfs_model.specs.Heads.{extents_of};
ghost use Rattle.clfs_lsn.specs.Heads.{live_heads, live_head_at, last_live_head, next_head, restart_heads, head_below, hold_of};
ghost use Rattle.clfs_rows.specs.Headed.{first_head, second_head, third_head, three_heads, bases_of};

/// The heads from a stream's base on are live, and are found by their LSNs.
pub fn live_heads_of_streams()
    ensures of_the_first_stream { live_heads null_lsn 1 three_heads ≡ first_head ∷ third_head ∷ [] }
    ensures of_the_second_stream { live_heads null_lsn 2 three_heads ≡ second_head ∷ [] }
    ensures at_the_base { live_heads (lsn_number 1 512 0) 1 three_heads ≡ third_head ∷ [] }
    ensures behind_the_last { live_heads (lsn_number 1 512 1) 1 three_heads ≡ [] }
    ensures at_its_lsn { live_head_at null_lsn 1 (lsn_number 1 0 0) three_heads ≡ Some first_head }
    ensures below_the_base { live_head_at (lsn_number 1 0 1) 1 (lsn_number 1 0 0) three_heads ≡ None }
    ensures of_another_stream { live_head_at null_lsn 2 (lsn_number 1 0 0) three_heads ≡ None }
    ensures the_last { last_live_head null_lsn 1 three_heads ≡ Some third_head }
    ensures no_last { last_live_head (lsn_number 1 512 1) 1 three_heads ≡ None }
{}

/// Reading goes along a link to a live head of the stream, or forward to the next one. Restart areas come newest first.
pub fn reading_by_heads()
    ensures previous { next_head null_lsn 1 Previous (lsn_number 1 512 0) three_heads ≡ Some first_head }
    ensures previous_below_the_base { next_head (lsn_number 1 512 0) 1 Previous (lsn_number 1 512 0) three_heads ≡ None }
    ensures previous_of_another_stream { next_head null_lsn 2 Previous (lsn_number 1 0 1) three_heads ≡ None }
    ensures undo_next { next_head null_lsn 1 UndoNext (lsn_number 1 512 0) three_heads ≡ None }
    ensures forward { next_head null_lsn 1 Forward (lsn_number 1 0 0) three_heads ≡ Some third_head }
    ensures forward_from_a_dead_one { next_head (lsn_number 1 512 0) 1 Forward (lsn_number 1 0 0) three_heads ≡ Some third_head }
    ensures forward_from_the_last { next_head null_lsn 1 Forward (lsn_number 1 512 0) three_heads ≡ None }
    ensures restart_areas { restart_heads null_lsn 1 three_heads ≡ third_head ∷ [] }
    ensures no_restart_area { restart_heads null_lsn 2 three_heads ≡ [] }
    ensures below_the_newest { head_below (lsn_number 1 512 0) (restart_heads null_lsn 1 three_heads) ≡ None }
{}

/// The hold is the least LSN of the live heads and the archive tail, or the frontier. Extents go over whole blocks on the disk.
pub fn hold_and_extents_by_heads()
    ensures held_by_the_first { hold_of (lsn_number 1 512 1) None (bases_of null_lsn null_lsn) three_heads ≡ lsn_number 1 0 0 }
    ensures held_by_the_other_stream { hold_of (lsn_number 1 512 1) None (bases_of (lsn_number 1 512 0) null_lsn) three_heads ≡ lsn_number 1 0 1 }
    ensures held_by_the_tail { hold_of (lsn_number 1 512 1) (Some (lsn_number 1 0 0)) (bases_of (lsn_number 1 512 0) (lsn_number 1 0 2)) three_heads ≡ lsn_number 1 0 0 }
    ensures not_by_a_later_tail { hold_of (lsn_number 1 512 1) (Some (lsn_number 1 512 0)) (bases_of null_lsn null_lsn) three_heads ≡ lsn_number 1 0 0 }
    ensures held_by_nothing { hold_of (lsn_number 1 512 1) None (bases_of (lsn_number 1 512 1) (lsn_number 1 0 2)) three_heads ≡ lsn_number 1 512 1 }
    ensures both_blocks { extents_of (lsn_number 1 1536 0) 1 (Some (lsn_number 1 0 0)) three_heads ≡ record { container = 1; low = 0; high = 1536 } ∷ [] }
    ensures a_tail_inside_a_block { extents_of (lsn_number 1 1536 0) 1 (Some (lsn_number 1 0 1)) three_heads ≡ record { container = 1; low = 0; high = 1536 } ∷ [] }
    ensures a_tail_behind_a_block { extents_of (lsn_number 1 1536 0) 1 (Some (lsn_number 1 0 2)) three_heads ≡ record { container = 1; low = 512; high = 1536 } ∷ [] }
    ensures not_a_block_that_waits { extents_of (lsn_number 1 512 0) 1 (Some (lsn_number 1 0 0)) three_heads ≡ record { container = 1; low = 0; high = 512 } ∷ [] }
    ensures none_left { extents_of (lsn_number 1 1536 0) 1 (Some (lsn_number 1 1536 0)) three_heads ≡ [] }
    ensures archiving_is_off { extents_of (lsn_number 1 1536 0) 1 None three_heads ≡ [] }
{}
