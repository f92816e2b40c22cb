// Which journals are legal: the steps of the machine one after the other, the entries of each client numbered from 1.
ghost use Rattle.std.specs.Prelude.{◌≡◌, [], ◌∷◌, true, false, codes};
ghost use Rattle.clfs_lsn.specs.Lsn.{lsn_number};
ghost use Rattle.clfs_model.specs.declared.refusal.Refusal.TheVariants as refusals;
ghost use Rattle.clfs_model.specs.declared.reply.Happened.TheVariants.{Fault};
ghost use Rattle.clfs_model.specs.declared.reply.Reply.TheVariants as replies;
ghost use Rattle.clfs_model.specs.Step.{with_broken};
ghost use Rattle.clfs_model.specs.Journals.{IsLegal};
ghost use Rattle.clfs_rows.specs.Worked.{opened_log};
ghost use Rattle.clfs_rows.specs.Crashes.{with_other_data};
ghost use Rattle.clfs_rows.specs.Interleaved.{first_entry, second_entry, third_entry, fault_entry, broken_entry, read_entry, want_entry, behind_first, behind_second, behind_third, behind_read};
ghost use Rattle.clfs_rows.specs.ReadAnew.{read_log, second_record};

/// Client 1 appends, client 2 opens a stream, and client 1 flushes. A fault is an entry too.
pub fn journals_that_are_legal()
    ensures none { IsLegal true [] opened_log opened_log }
    ensures of_two_clients { IsLegal true (first_entry ∷ second_entry ∷ third_entry ∷ []) opened_log behind_third }
    ensures a_fault { IsLegal true (first_entry ∷ fault_entry ∷ broken_entry ∷ []) opened_log (with_broken behind_first) }
    ensures over_a_disk_that_does_not_tell { IsLegal false (read_entry (with_other_data second_record) ∷ []) read_log behind_read }
{}

/// A number is neither left out nor given twice, and each client has its own. Out of memory is no entry.
pub fn journals_that_are_not_legal()
    ensures a_first_number_of_two { ¬ IsLegal true (record first_entry { number = 2 } ∷ []) opened_log behind_first }
    ensures a_first_number_of_none { ¬ IsLegal true (record first_entry { number = 0 } ∷ []) opened_log behind_first }
    ensures a_number_twice { ¬ IsLegal true (first_entry ∷ second_entry ∷ record third_entry { number = 1 } ∷ []) opened_log behind_third }
    ensures a_number_left_out { ¬ IsLegal true (first_entry ∷ second_entry ∷ record third_entry { number = 3 } ∷ []) opened_log behind_third }
    ensures one_count_of_all_clients { ¬ IsLegal true (first_entry ∷ record second_entry { number = 2 } ∷ []) opened_log behind_second }
    ensures want_of_memory { ¬ IsLegal true (want_entry ∷ []) opened_log opened_log }
    ensures another_reply { ¬ IsLegal true (record first_entry { reply = replies.Placed (lsn_number 1 0 1) } ∷ []) opened_log behind_first }
    ensures another_last_state { ¬ IsLegal true (first_entry ∷ []) opened_log opened_log }
    ensures another_last_state_without_entries { ¬ IsLegal true [] opened_log behind_first }
    ensures over_a_disk_that_tells { ¬ IsLegal true (read_entry (with_other_data second_record) ∷ []) read_log behind_read }
{}
