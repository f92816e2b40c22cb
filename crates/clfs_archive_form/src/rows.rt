// Worked rows, computed from the definitions.
ghost use Rattle.std.specs.Prelude.{◌≡◌, ◌+◌, [], ◌∷◌, ◌++◌, length, take, replicate, set, codes, Some, None, Ok, Err};
ghost use Rattle.clfs_lsn.specs.Spelling.{record_at};
ghost use Rattle.clfs_model.specs.Archive.{block_payload};
ghost use Rattle.clfs_archive_form.specs.Form.{magic, archived_image, archived_pieces, archive_bytes};
ghost use Rattle.clfs_archive_form.specs.Copies.{first_demands, later_demands, copy_told};
ghost use Rattle.clfs_archive_form.specs.Archives.{magic_there, copy_there, rest_there, wanted_count, joined};
ghost use Rattle.clfs_archive_form.specs.Restoring.{gap_in, bounds_of, chosen, restored, kept_records};
ghost use Rattle.clfs_archive_form.specs.Worked.{first_lsn, second_lsn, first_record, second_record, first_block, second_block, restart_block, three_records, three_block, further_record, further_block, copy_with, small_copy, longer_copy, small_rest, behind_copy, copy_front, front_fault, stored, small_archive, small_state};
ghost use Rattle.clfs_archive_form.specs.declared.refusal.InputRefusal.TheVariants.{Gap, UpToInvalid};

/// The archive of a small log with two records: its length and its front; which containers are archived; and that the copy of a log of the first
/// version is spelled in the second one.
pub fn archive_of_a_small_log()
    ensures length { length (archive_bytes small_copy ((1, first_block ∷ second_block ∷ []) ∷ [])) ≡ 17427 }
    ensures front { take 16 (archive_bytes small_copy []) ≡ codes "CLFSARC1" ++ (2 ∷ 0 ∷ 0 ∷ 2 ∷ 0 ∷ 0 ∷ 0 ∷ 8 ∷ []) }
    ensures empty { length (archive_bytes small_copy []) ≡ 16395 }
    ensures turn { archived_image (record small_copy { turn = 2 }) ≡ small_copy }
    ensures version { archived_image (record small_copy { version = 1 }) ≡ small_copy }
    ensures from_first { archived_pieces longer_copy ((first_block ∷ []) ∷ [] ∷ []) ≡ (1, first_block ∷ []) ∷ (2, []) ∷ [] }
    ensures from_tail { archived_pieces (record longer_copy { tail = second_lsn + 512 }) ((first_block ∷ []) ∷ [] ∷ []) ≡ (2, []) ∷ [] }
    ensures count { wanted_count small_copy ≡ 1 }
    ensures later_tail { wanted_count (record longer_copy { tail = second_lsn }) ≡ 1 }
    ensures high_tail { wanted_count (record small_copy { tail = second_lsn }) ≡ 0 }
{}

/// The letters that an archive begins with, and its copy: what is asked of the first one and of one after it, by the byte of the slot that is told;
/// and the byte of the input, which is the input's end where that cuts a field short.
pub fn letters_and_copies_of_archives()
    ensures letters { magic_there magic 0 ≡ Ok 0 }
    ensures nothing { magic_there [] 0 ≡ Err 0 }
    ensures five { magic_there (take 5 magic) 0 ≡ Err 5 }
    ensures other_letter { magic_there (set magic 3 0) 0 ≡ Err 3 }
    ensures a_letter_more { magic_there (replicate 10 0 ++ codes "C") 10 ≡ Err 11 }
    ensures right { front_fault first_demands (copy_front small_copy) ≡ None }
    ensures version { front_fault first_demands (set (copy_front small_copy) 1 1) ≡ Some 1 }
    ensures turn { front_fault first_demands (set (copy_front small_copy) 2 1) ≡ Some 2 }
    ensures block { front_fault first_demands (set (copy_front small_copy) 4 200) ≡ Some 4 }
    ensures archiving { front_fault first_demands (set (copy_front small_copy) 24 0) ≡ Some 24 }
    ensures low_tail { front_fault first_demands (set (copy_front small_copy) 16 2) ≡ Some 32 }
    ensures high_tail { front_fault first_demands (set (copy_front small_copy) 36 9) ≡ None }
    ensures same_again { front_fault (later_demands small_copy) (copy_front small_copy) ≡ None }
    ensures other_block { front_fault (later_demands small_copy) (set (copy_front small_copy) 4 1) ≡ Some 4 }
    ensures other_container { front_fault (later_demands small_copy) (set (copy_front small_copy) 8 9) ≡ Some 8 }
    ensures fewer_streams { front_fault (later_demands small_copy) (set (copy_front small_copy) 22 0) ≡ Some 22 }
    ensures more_streams { front_fault (later_demands small_copy) (set (copy_front small_copy) 22 2) ≡ None }
    ensures turn_told { copy_told (replicate 17427 0) 0 2 ≡ 9 }
    ensures block_told { copy_told (replicate 17427 0) 0 4 ≡ 11 }
    ensures archiving_told { copy_told (replicate 17427 0) 0 24 ≡ 31 }
    ensures later_block_told { copy_told (replicate 34854 0) 17427 4 ≡ 17438 }
    ensures cut_field { copy_told (replicate 14 0) 0 4 ≡ 14 }
    ensures whole_field { copy_told (replicate 15 0) 0 4 ≡ 11 }
    ensures cut_file { copy_told (set (replicate 72 0) 27 1) 0 64 ≡ 72 }
{}

/// What follows the copy of a small log in its archive: the containers, and each first wrong byte.
pub fn containers_of_an_archive()
    ensures right { rest_there small_copy (behind_copy small_rest) 0 ≡ Ok (stored 1 16403 1024 ∷ []) }
    ensures count { rest_there small_copy (behind_copy (set small_rest 0 2)) 0 ≡ Err 16391 }
    ensures id { rest_there small_copy (behind_copy (set small_rest 4 2)) 0 ≡ Err 16395 }
    ensures part_of_a_sector { rest_there small_copy (behind_copy (set (set small_rest 8 255) 9 3)) 0 ≡ Err 16399 }
    ensures above_a_container { rest_there small_copy (behind_copy (set small_rest 9 32)) 0 ≡ Err 16399 }
    ensures a_block_less { rest_there small_copy (behind_copy (set small_rest 9 2)) 0 ≡ Ok (stored 1 16403 512 ∷ []) }
    ensures no_letters_there { magic_there (behind_copy (set small_rest 9 2)) 16915 ≡ Err 16915 }
    ensures past_the_input { rest_there small_copy (behind_copy (set small_rest 9 6)) 0 ≡ Err 17427 }
    ensures closed_gate { rest_there small_copy (behind_copy (set small_rest 524 0)) 0 ≡ Err 16915 }
    ensures within_a_block { rest_there small_copy (behind_copy (set small_rest 526 2)) 0 ≡ Err 16923 }
    ensures used { rest_there small_copy (behind_copy (set (set small_rest 20 249) 21 1)) 0 ≡ Err 16411 }
    ensures block_version { rest_there small_copy (behind_copy (set small_rest 13 2)) 0 ≡ Err 16404 }
    ensures records { rest_there small_copy (behind_copy (set small_rest 16 2)) 0 ≡ Err 16459 }
    ensures address { rest_there small_copy (behind_copy (set small_rest 520 2)) 0 ≡ Err 16907 }
    ensures last_byte { rest_there small_copy (behind_copy (take 1035 small_rest)) 0 ≡ Err 17426 }
    ensures cut_id { rest_there small_copy (behind_copy (take 6 small_rest)) 0 ≡ Err 16397 }
    ensures cut_count { rest_there small_copy (behind_copy []) 0 ≡ Err 16391 }
    ensures byte_more { magic_there (behind_copy (small_rest ++ 67 ∷ [])) 17427 ≡ Err 17428 }
    ensures no_containers { rest_there (record small_copy { tail = second_lsn }) (behind_copy (0 ∷ 0 ∷ 0 ∷ 0 ∷ [])) 0 ≡ Ok [] }
{}

/// How far a log can be restored, and which containers are missing; of two archives, the last copies of their containers count.
pub fn bounds_of_small_archives()
    ensures bounds { bounds_of (small_archive small_copy) ≡ (first_lsn, first_lsn + 1024) }
    ensures highest { chosen (small_archive small_copy) None ≡ Ok (first_lsn + 1024) }
    ensures lowest { chosen (small_archive small_copy) (Some first_lsn) ≡ Ok first_lsn }
    ensures frontier { chosen (small_archive small_copy) (Some (first_lsn + 1024)) ≡ Ok (first_lsn + 1024) }
    ensures below { chosen (small_archive small_copy) (Some 4294967295) ≡ Err (UpToInvalid first_lsn (first_lsn + 1024)) }
    ensures above { chosen (small_archive small_copy) (Some (first_lsn + 1025)) ≡ Err (UpToInvalid first_lsn (first_lsn + 1024)) }
    ensures base { bounds_of (small_archive (copy_with (first_lsn + 512))) ≡ (first_lsn + 512, first_lsn + 1024) }
    ensures high_base { chosen (small_archive (copy_with second_lsn)) None ≡ Ok (first_lsn + 1024) }
    ensures gap { chosen (small_archive longer_copy) (Some 0) ≡ Err (Gap 2) }
    ensures first_gap { gap_in (record (small_archive longer_copy) { containers = stored 2 0 512 ∷ [] }) ≡ Some 1 }
    ensures no_gap { gap_in (small_archive small_copy) ≡ None }
    ensures none_of_them { gap_in (record (small_archive small_copy) { containers = [] }) ≡ Some 1 }
    ensures in_order { joined (record { image = small_copy; containers = stored 1 0 512 ∷ [] }
        ∷ record { image = longer_copy; containers = stored 1 512 1024 ∷ stored 2 1536 512 ∷ [] } ∷ [])
        ≡ Some (record { image = longer_copy; containers = stored 1 0 512 ∷ stored 1 512 1024 ∷ stored 2 1536 512 ∷ [] }) }
    ensures twice { bounds_of (record { image = small_copy; containers = stored 1 0 512 ∷ stored 1 512 1024 ∷ [] }) ≡ (first_lsn, first_lsn + 1024) }
    ensures other_order { bounds_of (record { image = small_copy; containers = stored 1 512 1024 ∷ stored 1 0 512 ∷ [] }) ≡ (first_lsn, first_lsn + 512) }
{}

/// The state that is restored of a small log: up to its first byte, within it, up to its end; with a block cut inside; with a base above the frontier;
/// with a restart area that moves the base, which below it counts for nothing; and up to the first byte of a later container.
pub fn restored_small_logs()
    ensures all { restored (first_block ++ second_block) (small_archive small_copy) (first_lsn + 1024) 4
        ≡ small_state (first_record ∷ second_record ∷ []) 1024 }
    ensures block { restored (first_block ++ second_block) (small_archive small_copy) (first_lsn + 512) 4 ≡ small_state (first_record ∷ []) 512 }
    ensures nothing { restored (first_block ++ second_block) (small_archive small_copy) first_lsn 4 ≡ small_state [] 0 }
    ensures within { restored three_block (record { image = small_copy; containers = stored 1 0 512 ∷ [] }) (first_lsn + 2) 4
        ≡ small_state (take 2 three_records) 512 }
    ensures used { block_payload (take 2 three_records) first_lsn ≡ 96 }
    ensures base { (restored (first_block ++ second_block) (small_archive (copy_with (first_lsn + 1024))) (first_lsn + 512) 4).streams
        ≡ record { name = 115 ∷ []; base = first_lsn + 512 } ∷ [] }
    ensures restart_base { (restored (first_block ++ restart_block) (small_archive small_copy) (first_lsn + 1024) 4).streams
        ≡ record { name = 115 ∷ []; base = first_lsn + 512 } ∷ [] }
    ensures no_restart_area { restored (first_block ++ restart_block) (small_archive small_copy) (first_lsn + 512) 4 ≡ small_state (first_record ∷ []) 512 }
    ensures tail { (restored (first_block ++ second_block) (small_archive (record small_copy { tail = second_lsn })) (first_lsn + 512) 4).archive
        ≡ Some (first_lsn + 512) }
    ensures later_container { (restored (first_block ++ further_block) (record { image = longer_copy; containers = stored 1 0 512 ∷ stored 2 512 512 ∷ [] }) second_lsn 4).place
        ≡ record { container = 2; offset = 0; used = 0; records = 0 } }
    ensures both_containers { (restored (first_block ++ further_block) (record { image = longer_copy; containers = stored 1 0 512 ∷ stored 2 512 512 ∷ [] }) (second_lsn + 512) 4).records
        ≡ first_record ∷ further_record ∷ [] }
    ensures last_copy { (restored (three_block ++ (first_block ++ second_block)) (record { image = small_copy; containers = stored 1 0 512 ∷ stored 1 512 1024 ∷ [] }) (first_lsn + 1024) 4).records
        ≡ first_record ∷ second_record ∷ [] }
    ensures other_order { (restored ((first_block ++ second_block) ++ three_block) (record { image = small_copy; containers = stored 1 0 1024 ∷ stored 1 1024 512 ∷ [] }) (first_lsn + 512) 4).records
        ≡ three_records }
{}
