// What is open in a reply over a disk that doesn't tell what it holds: the fields of a record that is read from it, its LSN apart.
ghost use Rattle.std.specs.Prelude.{◌≡◌, [], ◌∷◌, true, false, codes};
ghost use Rattle.clfs_lsn.specs.Lsn.{null_lsn, lsn_number};
ghost use Rattle.clfs_lsn.specs.declared.entry.Kind.TheVariants.{Restart};
ghost use Rattle.clfs_model.specs.declared.reply.Reply.TheVariants as replies;
ghost use Rattle.clfs_model.specs.Flush.{flushed};
ghost use Rattle.clfs_rows.specs.Crashes.{with_other_data, state_behind};
ghost use Rattle.clfs_rows.specs.ReadAnew.{read_log, second_record, third_record, restart_log, restart_area, MayReply, MayFind, MayComeTo};

/// A record below flushed is read from the disk.
pub fn records_that_are_read_from_it()
    ensures what_is_flushed { flushed read_log ≡ lsn_number 1 1024 0 }
    ensures as_it_is { MayFind false read_log (codes "1 read 1 1:200:0 forward") 3 second_record }
    ensures other_data { MayFind false read_log (codes "1 read 1 1:200:0 forward") 3 (with_other_data second_record) }
    ensures another_stream { MayFind false read_log (codes "1 read 1 1:200:0 forward") 3 (record second_record { stream = 7 }) }
    ensures another_kind { MayFind false read_log (codes "1 read 1 1:200:0 forward") 3 (record second_record { kind = Restart }) }
    ensures another_previous_link { MayFind false read_log (codes "1 read 1 1:200:0 forward") 3 (record second_record { previous = null_lsn }) }
    ensures another_undo_next_link { MayFind false read_log (codes "1 read 1 1:200:0 forward") 3 (record second_record { undo_next = null_lsn }) }
    ensures another_new_base { MayFind false read_log (codes "1 read 1 1:200:0 forward") 3 (record second_record { new_base = lsn_number 1 0 0 }) }
    ensures no_other_lsn { ¬ MayFind false read_log (codes "1 read 1 1:200:0 forward") 3 (record second_record { lsn = lsn_number 1 512 1 }) }
    ensures no_other_cursor { ¬ MayFind false read_log (codes "1 read 1 1:200:0 forward") 4 second_record }
    ensures no_other_state { ¬ MayReply false read_log (codes "1 read 1 1:200:0 forward") (replies.Found 3 second_record) read_log }
    ensures reading_on { MayComeTo false read_log (codes "1 next 1 1") (with_other_data second_record) }
    ensures no_other_lsn_in_reading_on { ¬ MayComeTo false read_log (codes "1 next 1 1") (record second_record { lsn = lsn_number 1 0 0 }) }
    ensures no_other_state_in_reading_on { ¬ MayReply false read_log (codes "1 next 1 1") (replies.Next second_record) read_log }
    ensures a_restart_area_as_it_is { MayFind false restart_log (codes "1 readrestart 1") 3 restart_area }
    ensures a_restart_area { MayFind false restart_log (codes "1 readrestart 1") 3 (with_other_data restart_area) }
    ensures no_restart_area_of_another_lsn { ¬ MayFind false restart_log (codes "1 readrestart 1") 3 (record restart_area { lsn = lsn_number 1 1024 0 }) }
{}

/// A record at or above flushed isn't on the disk yet, and is given as it is. So is every reply that gives no record.
pub fn what_is_given_as_it_is()
    ensures a_record_that_is_not_flushed { MayFind false read_log (codes "1 read 1 1:400:0 forward") 3 third_record }
    ensures none_with_other_data { ¬ MayFind false read_log (codes "1 read 1 1:400:0 forward") 3 (with_other_data third_record) }
    ensures none_with_another_link { ¬ MayFind false read_log (codes "1 read 1 1:400:0 forward") 3 (record third_record { previous = lsn_number 1 0 0 }) }
    ensures none_of_another_kind { ¬ MayFind false read_log (codes "1 read 1 1:400:0 forward") 3 (record third_record { kind = Restart }) }
    ensures reading_on { MayComeTo false read_log (codes "1 next 1 2") third_record }
    ensures none_with_other_data_in_reading_on { ¬ MayComeTo false read_log (codes "1 next 1 2") (with_other_data third_record) }
    ensures no_record_where_there_is_none { ¬ MayReply false read_log (codes "1 read 1 1:600:0 forward") (replies.Found 3 second_record) read_log }
    ensures the_lsn_of_a_new_record { MayReply false read_log (codes "1 append 1 dd 0:0:0 0:0:0") (replies.Placed (lsn_number 1 1024 1))
        (state_behind read_log (codes "1 append 1 dd 0:0:0 0:0:0")) }
    ensures no_other_lsn_of_a_new_record { ¬ MayReply false read_log (codes "1 append 1 dd 0:0:0 0:0:0") (replies.Placed (lsn_number 1 1024 2))
        (state_behind read_log (codes "1 append 1 dd 0:0:0 0:0:0")) }
{}

/// Over a disk that tells what it holds nothing is open.
pub fn what_a_disk_that_tells_gives()
    ensures as_it_is { MayFind true read_log (codes "1 read 1 1:200:0 forward") 3 second_record }
    ensures none_with_other_data { ¬ MayFind true read_log (codes "1 read 1 1:200:0 forward") 3 (with_other_data second_record) }
    ensures none_with_another_link { ¬ MayFind true read_log (codes "1 read 1 1:200:0 forward") 3 (record second_record { previous = null_lsn }) }
    ensures reading_on { MayComeTo true read_log (codes "1 next 1 1") second_record }
    ensures none_with_other_data_in_reading_on { ¬ MayComeTo true read_log (codes "1 next 1 1") (with_other_data second_record) }
{}
