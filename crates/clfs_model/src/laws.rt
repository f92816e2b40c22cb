// Laws over the definitions, for callers to cite. Their functions do nothing.
ghost use Rattle.std.specs.Prelude.{◌≡◌, ℕ, true, List, IsTrue, map, slice_get};
ghost use Rattle.std.specs.List.{list_all};
ghost use Rattle.std.specs.Option.{option_map};
ghost use Rattle.clfs_lsn.specs.Head.{head_of};
ghost use Rattle.clfs_lsn.specs.Place.{frontier};
ghost use Rattle.clfs_lsn.specs.declared.cursor.Mode.{Mode};
ghost use Rattle.clfs_model.specs.declared.state.State.{State};
ghost use Rattle.clfs_model.specs.State.{base_of};
ghost use Rattle.clfs_model.specs.Live.{live, live_at, last_live, hold};
ghost use Rattle.clfs_model.specs.Flush.{flushed};
ghost use Rattle.clfs_model.specs.Reading.{entry_at, next, restart_areas, newest_restart, restart_below};
ghost use Rattle.clfs_model.specs.Archive.{extents};
ghost use Rattle.clfs_model.specs.Heads.{heads_of, extents_of};
ghost use Rattle.clfs_lsn.specs.Heads.{live_heads, head_at, head_or_null, live_head_at, last_live_head, next_head, head_below, restart_heads, hold_of};
ghost use Rattle.clfs_model.specs.Ways.{GoesTheseWays};
ghost use Rattle.clfs_model.specs.Run.{Request, Run, all_fine, replies_of, state_after, is_no_reopening};

/// The replies where nothing happens and memory suffices are those of a run, for lines that don't open the log again.
pub fn calm_replies_are_a_run()
    ensures { (s : State) (requests : List Request) → IsTrue (list_all is_no_reopening requests) → Run true s requests (all_fine requests) (replies_of s requests) (state_after s requests) }
{}

/// The ways in which a step can go: one fact for each, with its premises.
pub fn ways_of_a_step()
    ensures { GoesTheseWays }
{}

/// What the definitions say over records they say over heads, so that a table of the log needs no record's data.
pub fn records_are_as_their_heads()
    ensures live { (s : State) (stream : ℕ) → map head_of (live s stream) ≡ live_heads (base_of s stream) stream (heads_of s) }
    ensures live_at { (s : State) (stream lsn : ℕ) → option_map head_of (live_at s stream lsn) ≡ live_head_at (base_of s stream) stream lsn (heads_of s) }
    ensures entry_at { (s : State) (lsn : ℕ) → option_map head_of (entry_at s lsn) ≡ head_at lsn (heads_of s) }
    ensures last { (s : State) (stream : ℕ) → last_live s stream ≡ head_or_null (last_live_head (base_of s stream) stream (heads_of s)) }
    ensures next { (s : State) (stream : ℕ) (mode : Mode) (last : ℕ) → option_map head_of (next s stream mode last) ≡ next_head (base_of s stream) stream mode last (heads_of s) }
    ensures restarts { (s : State) (stream : ℕ) → map head_of (restart_areas s stream) ≡ restart_heads (base_of s stream) stream (heads_of s) }
    ensures newest { (s : State) (stream : ℕ) → option_map head_of (newest_restart s stream) ≡ slice_get (restart_heads (base_of s stream) stream (heads_of s)) 0 }
    ensures below { (s : State) (stream lsn : ℕ) → option_map head_of (restart_below s stream lsn) ≡ head_below lsn (restart_heads (base_of s stream) stream (heads_of s)) }
    ensures hold { (s : State) → hold s ≡ hold_of (frontier s.place) s.archive (base_of s) (heads_of s) }
    ensures extents { (s : State) → extents s ≡ extents_of (flushed s) s.place.container s.archive (heads_of s) }
{}
