// Worked rows, computed from the definitions.
ghost use Rattle.std.specs.Prelude.{◌≡◌, ◌∷◌, Some, None, Ok, Err, set, take};
ghost use Rattle.clfs_base.specs.Spelling.{spelled};
ghost use Rattle.clfs_base.specs.Slots.{used_slot};
ghost use Rattle.clfs_base.specs.Vector.{front, small_image, two_slots, fault};
ghost use Rattle.clfs_base.specs.declared.refusal.NewestRefusal.TheVariants.{NoBase, BadByte};

/// The front of the first copy of a log with blocks of 2 sectors and 2 containers of 8: its fields are right, and one other byte
/// at a place is told at its field's first byte.
pub fn first_copy_of_a_small_log()
    ensures spelled { 165 ∷ take 65 (spelled small_image) ≡ front 2 }
    ensures spelled_in_one { 165 ∷ take 65 (spelled (record small_image { version = 1 })) ≡ front 1 }
    ensures right { fault (front 2) ≡ None }
    ensures right_in_one { fault (front 1) ≡ None }
    ensures no_version { fault (front 0) ≡ Some 1 }
    ensures later_version { fault (front 3) ≡ Some 1 }
    ensures turn { fault (set (front 2) 2 3) ≡ Some 2 }
    ensures zero { fault (set (front 2) 3 1) ≡ Some 3 }
    ensures block { fault (set (front 2) 5 1) ≡ Some 4 }
    ensures container { fault (set (front 2) 8 3) ≡ Some 8 }
    ensures containers { fault (set (front 2) 12 0) ≡ Some 12 }
    ensures made { fault (set (front 2) 14 1) ≡ Some 14 }
    ensures first { fault (set (front 2) 16 0) ≡ Some 16 }
    ensures listed { fault (set (front 2) 20 3) ≡ Some 20 }
    ensures streams { fault (set (front 2) 22 193) ≡ Some 22 }
    ensures most_streams { fault (set (front 2) 22 192) ≡ None }
    ensures streams_in_one { fault (set (front 1) 22 129) ≡ Some 22 }
    ensures archiving { fault (set (front 2) 24 2) ≡ Some 24 }
    ensures automatic { fault (set (front 2) 25 2) ≡ Some 25 }
    ensures maximum { fault (set (front 2) 26 1) ≡ Some 26 }
    ensures minimum { fault (set (set (front 2) 26 4) 28 5) ≡ Some 28 }
    ensures growth { fault (set (front 2) 30 255) ≡ Some 30 }
    ensures tail { fault (set (front 2) 39 1) ≡ Some 32 }
    ensures dedicated { fault (set (front 2) 40 1) ≡ None }
    ensures dedicated_with_one { fault (set (set (front 2) 22 1) 40 1) ≡ None }
    ensures dedicated_with_two { fault (set (set (front 2) 22 2) 40 1) ≡ Some 40 }
    ensures more_than_dedicated { fault (set (front 2) 40 2) ≡ Some 40 }
    ensures dedicated_in_one { fault (set (front 1) 40 1) ≡ Some 40 }
    ensures cut { fault (take 19 (front 2)) ≡ Some 16 }
{}

/// Which of two slots counts, by their gates and their turns, and not by their versions.
pub fn slots_of_a_base_file()
    ensures second_newer { used_slot (two_slots 165 2 2 165 2 0) ≡ Ok 1 }
    ensures first_newer { used_slot (two_slots 165 2 0 165 2 2) ≡ Ok 0 }
    ensures older_version_newer { used_slot (two_slots 165 2 0 165 1 1) ≡ Ok 1 }
    ensures older_version_older { used_slot (two_slots 165 2 1 165 1 0) ≡ Ok 0 }
    ensures first_closed { used_slot (two_slots 164 2 2 165 2 0) ≡ Ok 1 }
    ensures second_closed { used_slot (two_slots 165 2 2 164 2 0) ≡ Ok 0 }
    ensures none { used_slot (two_slots 164 2 0 0 2 1) ≡ Err NoBase }
    ensures equal { used_slot (two_slots 165 2 1 165 2 1) ≡ Err (BadByte 1 2) }
    ensures no_turn { used_slot (two_slots 165 2 3 165 2 3) ≡ Err (BadByte 0 2) }
    ensures no_second_turn { used_slot (two_slots 165 2 0 165 2 3) ≡ Err (BadByte 1 2) }
    ensures turn_not_judged { used_slot (two_slots 165 2 7 0 2 3) ≡ Ok 0 }
{}
