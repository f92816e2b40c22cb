// When two states are the same but for what no reply can show.
ghost use Rattle.std.specs.Prelude.{◌≡◌, [], ◌∷◌, Some, true, codes};
ghost use Rattle.clfs_lsn.specs.Lsn.{lsn_number};
ghost use Rattle.clfs_model.specs.Live.{hold};
ghost use Rattle.clfs_model.specs.Flush.{IsSame};
ghost use Rattle.clfs_model.specs.Step.{with_broken};
ghost use Rattle.clfs_rows.specs.Crashes.{closed_at, with_base, with_other_data};
ghost use Rattle.clfs_rows.specs.Compared.{two_containers, without_first, without_one, with_one_changed};

/// Records in containers below the hold's can be others, or not be there. Those in the hold's container are compared, also the ones
/// below the hold.
pub fn records_that_are_compared()
    ensures the_hold { hold two_containers ≡ lsn_number 2 0 1 }
    ensures itself { IsSame two_containers two_containers }
    ensures none_in_the_first_container { IsSame two_containers (without_first 8 two_containers) }
    ensures none_in_the_first_container_either { IsSame (without_first 8 two_containers) two_containers }
    ensures fewer_in_the_first_container { IsSame two_containers (without_one 3 two_containers) }
    ensures another_one_in_the_first_container { IsSame two_containers (with_one_changed with_other_data 7 two_containers) }
    ensures not_another_one_below_the_hold { ¬ IsSame two_containers (with_one_changed with_other_data 8 two_containers) }
    ensures not_another_one_at_the_hold { ¬ IsSame two_containers (with_one_changed with_other_data 9 two_containers) }
    ensures not_another_one_above_the_hold { ¬ IsSame two_containers (with_one_changed with_other_data 10 two_containers) }
    ensures not_without_one_below_the_hold { ¬ IsSame two_containers (without_one 8 two_containers) }
    ensures not_without_the_last { ¬ IsSame two_containers (without_one 10 two_containers) }
    ensures not_with_the_hold_in_another_container { ¬ IsSame (with_base 0 two_containers) (without_first 8 (with_base 0 two_containers)) }
    ensures not_where_the_tail_holds_the_first_container { ¬ IsSame (record two_containers { archive = Some (lsn_number 1 512 0) })
        (record (without_first 8 two_containers) { archive = Some (lsn_number 1 512 0) }) }
{}

/// All else is the same, whether a reply shows it or not.
pub fn what_else_is_compared()
    ensures blocks { ¬ IsSame two_containers (record two_containers { shape = record { block_sectors = 3; container_sectors = 8 } }) }
    ensures containers_in_sectors { ¬ IsSame two_containers (record two_containers { shape = record { block_sectors = 2; container_sectors = 9 } }) }
    ensures containers { ¬ IsSame two_containers (record two_containers { containers = 3 }) }
    ensures write_buffers { ¬ IsSame two_containers (record two_containers { buffers = 3 }) }
    ensures bases { ¬ IsSame two_containers (with_base (lsn_number 2 0 0) two_containers) }
    ensures names { ¬ IsSame two_containers (record two_containers { streams = record { name = codes "b"; base = lsn_number 2 0 1 } ∷ [] }) }
    ensures container_of_the_place { ¬ IsSame two_containers (record two_containers { place = closed_at 3 512 }) }
    ensures offset_of_the_place { ¬ IsSame two_containers (record two_containers { place = closed_at 2 1024 }) }
    ensures blocks_that_wait { ¬ IsSame two_containers (record two_containers { waiting = lsn_number 2 0 0 ∷ [] }) }
    ensures areas { ¬ IsSame two_containers (record two_containers { areas = [] }) }
    ensures archiving { ¬ IsSame two_containers (record two_containers { archive = Some (lsn_number 2 0 1) }) }
    ensures maximum { ¬ IsSame two_containers (record two_containers { maximum = Some 2 }) }
    ensures minimum { ¬ IsSame two_containers (record two_containers { minimum = Some 2 }) }
    ensures growth { ¬ IsSame two_containers (record two_containers { growth = Some 1 }) }
    ensures growth_by_itself { ¬ IsSame two_containers (record two_containers { automatic = true }) }
    ensures being_broken { ¬ IsSame two_containers (with_broken two_containers) }
{}
