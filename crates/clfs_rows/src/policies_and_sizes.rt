// The number of containers: the four policies, growth, and sizes that are asked for.
ghost use Rattle.std.specs.Prelude.{[], ◌∷◌, ◌++◌, codes};
ghost use Rattle.clfs_lsn.specs.Space.{growth};
ghost use Rattle.clfs_rows.specs.Worked.{worked, ◌⟹◌, IsDialogue, opening, append_of_zeros};

/// A log that grows by itself takes steps of its rate up to its maximum, and only where a call needs more than is free.
pub fn automatic_growth()
    ensures up_to_the_maximum { IsDialogue worked (opening
        ++ codes "1 policy growth 2" ⟹ codes "1 ok"
        ∷ codes "1 policy max 6" ⟹ codes "1 ok"
        ∷ codes "1 policy auto" ⟹ codes "1 ok"
        ∷ append_of_zeros 960 [] ⟹ codes "1 lsn 1:0:0"
        ∷ append_of_zeros 960 [] ⟹ codes "1 lsn 1:400:0"
        ∷ append_of_zeros 960 [] ⟹ codes "1 lsn 1:800:0"
        ∷ append_of_zeros 960 [] ⟹ codes "1 lsn 1:c00:0"
        ∷ append_of_zeros 960 [] ⟹ codes "1 lsn 2:0:0"
        ∷ append_of_zeros 960 [] ⟹ codes "1 lsn 2:400:0"
        ∷ append_of_zeros 960 [] ⟹ codes "1 lsn 2:800:0"
        ∷ codes "1 info 1" ⟹ codes "1 info containers 2 free 0 size 8 sectors 1 reserved 0 base 0:0:0 last 2:800:0 flushed 2:0:0 restart 0:0:0 archive off"
        ∷ append_of_zeros 960 [] ⟹ codes "1 lsn 2:c00:0"
        ∷ codes "1 info 1" ⟹ codes "1 info containers 4 free 2 size 8 sectors 14 reserved 0 base 0:0:0 last 2:c00:0 flushed 2:0:0 restart 0:0:0 archive off"
        ∷ append_of_zeros 960 [] ⟹ codes "1 lsn 3:0:0"
        ∷ append_of_zeros 960 [] ⟹ codes "1 lsn 3:400:0"
        ∷ append_of_zeros 960 [] ⟹ codes "1 lsn 3:800:0"
        ∷ append_of_zeros 960 [] ⟹ codes "1 lsn 3:c00:0"
        ∷ append_of_zeros 960 [] ⟹ codes "1 lsn 4:0:0"
        ∷ append_of_zeros 960 [] ⟹ codes "1 lsn 4:400:0"
        ∷ append_of_zeros 960 [] ⟹ codes "1 lsn 4:800:0"
        ∷ append_of_zeros 960 [] ⟹ codes "1 lsn 4:c00:0"
        ∷ codes "1 info 1" ⟹ codes "1 info containers 6 free 2 size 8 sectors 14 reserved 0 base 0:0:0 last 4:c00:0 flushed 4:0:0 restart 0:0:0 archive off"
        ∷ append_of_zeros 960 [] ⟹ codes "1 lsn 5:0:0"
        ∷ append_of_zeros 960 [] ⟹ codes "1 lsn 5:400:0"
        ∷ append_of_zeros 960 [] ⟹ codes "1 lsn 5:800:0"
        ∷ append_of_zeros 960 [] ⟹ codes "1 lsn 5:c00:0"
        ∷ append_of_zeros 960 [] ⟹ codes "1 lsn 6:0:0"
        ∷ append_of_zeros 960 [] ⟹ codes "1 lsn 6:400:0"
        ∷ append_of_zeros 960 [] ⟹ codes "1 lsn 6:800:0"
        ∷ append_of_zeros 960 [] ⟹ codes "1 refused 5 Full 1 0 2"
        ∷ codes "1 size 2" ⟹ codes "1 refused 24 CantShrink 6 6"
        ∷ codes "1 size 7" ⟹ codes "1 refused 25 ContainerLimit 6"
        ∷ codes "1 size 6" ⟹ codes "1 containers 6"
        ∷ codes "1 policy min 7" ⟹ codes "1 refused 26 PolicyConflict 2 6"
        ∷ codes "1 unpolicy min" ⟹ codes "1 refused 27 PolicyNotInstalled"
        ∷ codes "1 unpolicy auto" ⟹ codes "1 ok"
        ∷ codes "1 unpolicy auto" ⟹ codes "1 refused 27 PolicyNotInstalled"
        ∷ codes "1 unpolicy growth" ⟹ codes "1 ok"
        ∷ codes "1 unpolicy growth" ⟹ codes "1 refused 27 PolicyNotInstalled"
        ∷ codes "1 unpolicy max" ⟹ codes "1 ok"
        ∷ codes "1 unpolicy max" ⟹ codes "1 refused 27 PolicyNotInstalled"
        ∷ []) }
    ensures for_reservations { IsDialogue worked (opening
        ++ codes "1 policy auto" ⟹ codes "1 ok"
        ∷ codes "1 reserve 1 960" ⟹ codes "1 held 2"
        ∷ codes "1 reserve 1 960" ⟹ codes "1 held 4"
        ∷ codes "1 reserve 1 960" ⟹ codes "1 held 6"
        ∷ codes "1 reserve 1 960" ⟹ codes "1 held 8"
        ∷ codes "1 reserve 1 960" ⟹ codes "1 held 10"
        ∷ codes "1 reserve 1 960" ⟹ codes "1 held 12"
        ∷ codes "1 reserve 1 960" ⟹ codes "1 held 14"
        ∷ codes "1 reserve 1 960" ⟹ codes "1 held 16"
        ∷ codes "1 info 1" ⟹ codes "1 info containers 3 free 2 size 8 sectors 21 reserved 16 base 0:0:0 last 0:0:0 flushed 1:0:0 restart 0:0:0 archive off"
        ∷ []) }
    ensures steps_that_pass_the_maximum { IsDialogue worked (opening
        ++ codes "1 policy growth 2" ⟹ codes "1 ok"
        ∷ codes "1 policy max 5" ⟹ codes "1 ok"
        ∷ codes "1 policy auto" ⟹ codes "1 ok"
        ∷ codes "1 reserve 1 960 960 960 960 960 960 960 960 960 960 960 960 960 960 960 960" ⟹ codes "1 refused 5 Full 14 0 32"
        ∷ codes "1 policy growth 3" ⟹ codes "1 ok"
        ∷ codes "1 reserve 1 960 960 960 960 960 960 960 960 960 960 960 960 960 960 960 960" ⟹ codes "1 held 32"
        ∷ codes "1 info 1" ⟹ codes "1 info containers 5 free 4 size 8 sectors 35 reserved 32 base 0:0:0 last 0:0:0 flushed 1:0:0 restart 0:0:0 archive off"
        ∷ []) }
    ensures a_step_that_meets_the_maximum { IsDialogue worked (opening
        ++ codes "1 policy growth 2" ⟹ codes "1 ok"
        ∷ codes "1 policy max 6" ⟹ codes "1 ok"
        ∷ codes "1 policy auto" ⟹ codes "1 ok"
        ∷ codes "1 reserve 1 960 960 960 960 960 960 960 960 960 960 960 960 960 960 960 960" ⟹ codes "1 held 32"
        ∷ codes "1 info 1" ⟹ codes "1 info containers 6 free 5 size 8 sectors 42 reserved 32 base 0:0:0 last 0:0:0 flushed 1:0:0 restart 0:0:0 archive off"
        ∷ []) }
    ensures no_growth_without_the_policy { IsDialogue worked (opening
        ++ codes "1 policy growth 2" ⟹ codes "1 ok"
        ∷ codes "1 policy max 6" ⟹ codes "1 ok"
        ∷ codes "1 reserve 1 960 960 960 960 960 960 960 960 960 960 960 960 960 960 960 960" ⟹ codes "1 refused 5 Full 14 0 32"
        ∷ codes "1 info 1" ⟹ codes "1 info containers 2 free 1 size 8 sectors 14 reserved 0 base 0:0:0 last 0:0:0 flushed 1:0:0 restart 0:0:0 archive off"
        ∷ []) }
    ensures for_a_restart_area { IsDialogue worked (opening
        ++ codes "1 policy auto" ⟹ codes "1 ok"
        ∷ codes "1 reserve 1 960 960 960 960 960 960 960" ⟹ codes "1 held 14"
        ∷ codes "1 restart 1 aa -" ⟹ codes "1 lsn 1:0:0"
        ∷ codes "1 info 1" ⟹ codes "1 info containers 3 free 2 size 8 sectors 20 reserved 14 base 0:0:0 last 1:0:0 flushed 1:200:0 restart 1:0:0 archive off"
        ∷ []) }
{}

/// A log grows up to its limit and shrinks down to what it needs: two containers, its minimum, those in use, and those for what
/// areas hold.
pub fn sizes_that_are_asked_for()
    ensures a_minimum_above_the_size { IsDialogue worked (opening
        ++ codes "1 size 4" ⟹ codes "1 containers 4"
        ∷ codes "1 policy min 8" ⟹ codes "1 ok"
        ∷ codes "1 size 3" ⟹ codes "1 refused 24 CantShrink 1 8"
        ∷ codes "1 size 4" ⟹ codes "1 containers 4"
        ∷ codes "1 size 5" ⟹ codes "1 containers 5"
        ∷ codes "1 size 9" ⟹ codes "1 containers 9"
        ∷ codes "1 size 7" ⟹ codes "1 refused 24 CantShrink 1 8"
        ∷ codes "1 size 8" ⟹ codes "1 containers 8"
        ∷ []) }
    ensures a_maximum_below_the_size { IsDialogue worked (opening
        ++ codes "1 size 4" ⟹ codes "1 containers 4"
        ∷ codes "1 policy max 3" ⟹ codes "1 ok"
        ∷ codes "1 info 1" ⟹ codes "1 info containers 4 free 3 size 8 sectors 28 reserved 0 base 0:0:0 last 0:0:0 flushed 1:0:0 restart 0:0:0 archive off"
        ∷ codes "1 size 4" ⟹ codes "1 containers 4"
        ∷ codes "1 size 5" ⟹ codes "1 refused 25 ContainerLimit 3"
        ∷ codes "1 size 3" ⟹ codes "1 containers 3"
        ∷ codes "1 size 4" ⟹ codes "1 refused 25 ContainerLimit 3"
        ∷ []) }
    ensures two_at_least { IsDialogue worked (opening
        ++ codes "1 size 1" ⟹ codes "1 refused 24 CantShrink 1 2"
        ∷ codes "1 size 0" ⟹ codes "1 refused 24 CantShrink 1 2"
        ∷ codes "1 size 2" ⟹ codes "1 containers 2"
        ∷ codes "1 size 3" ⟹ codes "1 containers 3"
        ∷ codes "1 size 1" ⟹ codes "1 refused 24 CantShrink 1 2"
        ∷ []) }
    ensures no_more_than_256 { IsDialogue worked (opening
        ++ codes "1 size 257" ⟹ codes "1 refused 25 ContainerLimit 256"
        ∷ codes "1 size 256" ⟹ codes "1 containers 256"
        ∷ codes "1 size 65535" ⟹ codes "1 refused 25 ContainerLimit 256"
        ∷ []) }
    ensures those_in_use { IsDialogue worked (opening
        ++ codes "1 size 4" ⟹ codes "1 containers 4"
        ∷ append_of_zeros 960 [] ⟹ codes "1 lsn 1:0:0"
        ∷ append_of_zeros 960 [] ⟹ codes "1 lsn 1:400:0"
        ∷ append_of_zeros 960 [] ⟹ codes "1 lsn 1:800:0"
        ∷ append_of_zeros 960 [] ⟹ codes "1 lsn 1:c00:0"
        ∷ append_of_zeros 960 [] ⟹ codes "1 lsn 2:0:0"
        ∷ append_of_zeros 960 [] ⟹ codes "1 lsn 2:400:0"
        ∷ append_of_zeros 960 [] ⟹ codes "1 lsn 2:800:0"
        ∷ append_of_zeros 960 [] ⟹ codes "1 lsn 2:c00:0"
        ∷ codes "1 append 1 aa 0:0:0 0:0:0" ⟹ codes "1 lsn 3:0:0"
        ∷ codes "1 size 2" ⟹ codes "1 refused 24 CantShrink 3 3"
        ∷ codes "1 advance 1 2:0:0" ⟹ codes "1 base 2:0:0"
        ∷ codes "1 size 2" ⟹ codes "1 containers 2"
        ∷ []) }
    ensures those_for_what_areas_hold { IsDialogue worked (opening
        ++ codes "1 size 4" ⟹ codes "1 containers 4"
        ∷ codes "1 reserve 1 960 960 960 960 960 960 960 960" ⟹ codes "1 held 16"
        ∷ codes "1 size 2" ⟹ codes "1 refused 24 CantShrink 1 3"
        ∷ codes "1 release 1 1" ⟹ codes "1 held 15"
        ∷ codes "1 size 2" ⟹ codes "1 refused 24 CantShrink 1 3"
        ∷ codes "1 release 1 1" ⟹ codes "1 held 14"
        ∷ codes "1 size 2" ⟹ codes "1 containers 2"
        ∷ []) }
    ensures what_a_dropped_area_held { IsDialogue worked (opening
        ++ codes "1 size 4" ⟹ codes "1 containers 4"
        ∷ codes "1 reserve 1 960 960 960 960 960 960 960 960" ⟹ codes "1 held 16"
        ∷ codes "1 size 2" ⟹ codes "1 refused 24 CantShrink 1 3"
        ∷ codes "1 drop 1" ⟹ codes "1 ok"
        ∷ codes "1 size 2" ⟹ codes "1 containers 2"
        ∷ codes "1 info 1" ⟹ codes "1 info containers 2 free 1 size 8 sectors 14 reserved 0 base 0:0:0 last 0:0:0 flushed 1:0:0 restart 0:0:0 archive off"
        ∷ []) }
{}

/// The values that a policy may have: they depend on the policy at the other end.
pub fn values_of_policies()
    ensures maximum { IsDialogue worked (opening
        ++ codes "1 policy max 1" ⟹ codes "1 refused 26 PolicyConflict 2 256"
        ∷ codes "1 policy max 257" ⟹ codes "1 refused 26 PolicyConflict 2 256"
        ∷ codes "1 policy max 256" ⟹ codes "1 ok"
        ∷ codes "1 policy max 2" ⟹ codes "1 ok"
        ∷ codes "1 policy min 3" ⟹ codes "1 refused 26 PolicyConflict 2 2"
        ∷ codes "1 policy min 2" ⟹ codes "1 ok"
        ∷ codes "1 unpolicy max" ⟹ codes "1 ok"
        ∷ codes "1 policy min 256" ⟹ codes "1 ok"
        ∷ codes "1 policy max 255" ⟹ codes "1 refused 26 PolicyConflict 256 256"
        ∷ []) }
    ensures minimum { IsDialogue worked (opening
        ++ codes "1 policy min 1" ⟹ codes "1 refused 26 PolicyConflict 2 256"
        ∷ codes "1 policy min 257" ⟹ codes "1 refused 26 PolicyConflict 2 256"
        ∷ codes "1 policy min 5" ⟹ codes "1 ok"
        ∷ codes "1 policy max 4" ⟹ codes "1 refused 26 PolicyConflict 5 256"
        ∷ codes "1 policy max 5" ⟹ codes "1 ok"
        ∷ codes "1 policy min 6" ⟹ codes "1 refused 26 PolicyConflict 2 5"
        ∷ codes "1 unpolicy min" ⟹ codes "1 ok"
        ∷ codes "1 policy max 4" ⟹ codes "1 ok"
        ∷ []) }
    ensures growth { IsDialogue worked (opening
        ++ codes "1 policy growth 0" ⟹ codes "1 refused 26 PolicyConflict 1 254"
        ∷ codes "1 policy growth 255" ⟹ codes "1 refused 26 PolicyConflict 1 254"
        ∷ codes "1 policy growth 254" ⟹ codes "1 ok"
        ∷ codes "1 policy auto" ⟹ codes "1 ok"
        ∷ codes "1 reserve 1 960 960 960 960 960 960 960 960" ⟹ codes "1 held 16"
        ∷ codes "1 info 1" ⟹ codes "1 info containers 256 free 255 size 8 sectors 1792 reserved 16 base 0:0:0 last 0:0:0 flushed 1:0:0 restart 0:0:0 archive off"
        ∷ []) }
{}
