// Worked rows, computed from the definitions.
ghost use Rattle.std.specs.Prelude.{◌≡◌, ◌∷◌, [], Ok, Err, set, take, true};
ghost use Rattle.clfs_base.specs.Vector.{small_image};
ghost use Rattle.clfs_model.specs.State.{log_of};
ghost use Rattle.clfs_recover.specs.Walk.{walked, shape_of};
ghost use Rattle.clfs_recover.specs.Stored.{stored_records, stored_place};
ghost use Rattle.clfs_recover.specs.Logs.{stored_state, with_row_base, from_container, records_from_container};
ghost use Rattle.clfs_recover.specs.Vector.{one_block, one_record, with_stream, no_blocks, with_block, with_bytes, one_record_log, empty_log};
ghost use Rattle.clfs_recover.specs.declared.refusal.LoadRefusal.TheVariants.{Damaged};

/// What the walk finds in a log with blocks of 2 sectors and containers of 8, of which container 1 is listed: in one that has just been made, in
/// one with a record of ten bytes, and where a byte of that is another one.
pub fn walks_of_a_small_log()
    ensures fresh { walked 0 small_image no_blocks ≡ Ok (empty_log small_image) }
    ensures one { walked 0 (with_stream 0) (with_block one_block) ≡ Ok (one_record_log (with_stream 0)) }
    ensures no_stream { walked 0 small_image (with_block one_block) ≡ Err (Damaged 1 0 20) }
    ensures version { walked 0 (with_stream 0) (with_block (set one_block 1 2)) ≡ Err (Damaged 1 0 1) }
    ensures records { walked 0 (with_stream 0) (with_block (set one_block 4 2)) ≡ Err (Damaged 1 0 64) }
    ensures used { walked 0 (with_stream 0) (with_block (set one_block 8 72)) ≡ Err (Damaged 1 0 8) }
    ensures address { walked 0 (with_stream 0) (with_block (set one_block 508 2)) ≡ Err (Damaged 1 0 504) }
    ensures filling { walked 0 (with_stream 0) (with_block (set one_block 58 1)) ≡ Err (Damaged 1 0 58) }
    ensures behind { walked 0 (with_stream 0) (with_block (set one_block 64 1)) ≡ Err (Damaged 1 0 64) }
    ensures short { walked 0 (with_stream 0) (with_bytes (take 100 one_block)) ≡ Err (Damaged 1 0 100) }
    ensures no_file { walked 0 (with_stream 0) (with_bytes []) ≡ Err (Damaged 1 0 0) }
    ensures base { walked 0 (with_stream 4294967808) (with_block one_block) ≡ Ok (record (one_record_log (with_stream 4294967808)) { bases = 4294967808 ∷ [] }) }
    ensures high_base { walked 0 (with_stream 4294967809) (with_block one_block) ≡ Err (Damaged 0 0 584) }
    ensures high_tail { walked 1 (record (with_stream 0) { archiving = true; tail = 4294967809 }) (with_block one_block) ≡ Err (Damaged 0 16384 32) }
    ensures low_tail { walked 1 (record (with_stream 0) { archiving = true; tail = 4294967295 }) (with_block one_block) ≡ Err (Damaged 0 16384 32) }
{}

/// What that log with the record comes to where its base copy and its blocks change: its state, the base of its stream moved to the record, a
/// second container listed, and the containers from the second one on.
pub fn changes_of_a_small_log()
    ensures read { stored_records (shape_of (with_stream 0)) 1 1 ((one_block ∷ []) ∷ []) ≡ Ok (one_record ∷ []) }
    ensures state { stored_state (with_stream 0) ((one_block ∷ []) ∷ []) (one_record ∷ []) 4 ≡ record (log_of 2 8 2 4) {
      streams = record { name = 97 ∷ []; base = 0 } ∷ [];
      records = one_record ∷ [];
      place = record { container = 1; offset = 512; used = 0; records = 0 };
    } }
    ensures moved { (stored_state (with_row_base 1 4294967296 (with_stream 0)) ((one_block ∷ []) ∷ []) (one_record ∷ []) 4).streams
        ≡ record { name = 97 ∷ []; base = 4294967296 } ∷ [] }
    ensures further { stored_place (record (with_stream 0) { files = 1 ∷ 2 ∷ [] }) ((one_block ∷ []) ∷ [] ∷ [])
        ≡ record { container = 2; offset = 0; used = 0; records = 0 } }
    ensures left { from_container 2 (record (with_stream 0) { files = 1 ∷ 2 ∷ [] }) ≡ record (with_stream 0) { first = 2; files = 2 ∷ [] } }
    ensures none_left { records_from_container 2 (one_record ∷ []) ≡ [] }
    ensures all_left { records_from_container 1 (one_record ∷ []) ≡ one_record ∷ [] }
{}
