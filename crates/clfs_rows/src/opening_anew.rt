// What opening the log again may come to, over a disk that tells what it holds and over another one.
ghost use Rattle.std.specs.Prelude.{◌≡◌, ℕ, [], ◌∷◌, Bool, true, false, codes};
ghost use Rattle.clfs_lsn.specs.Lsn.{lsn_number};
ghost use Rattle.clfs_model.specs.declared.refusal.Refusal.TheVariants as refusals;
ghost use Rattle.clfs_model.specs.declared.reply.Happened.{Happened};
ghost use Rattle.clfs_model.specs.declared.reply.Happened.TheVariants.{Fine, Fault, Damage};
ghost use Rattle.clfs_model.specs.declared.reply.Reply.{Reply};
ghost use Rattle.clfs_model.specs.declared.state.State.{State};
ghost use Rattle.clfs_model.specs.declared.reply.Reply.TheVariants as replies;
ghost use Rattle.clfs_model.specs.Flush.{flushed, cut};
ghost use Rattle.clfs_model.specs.Step.{ReopenStep, with_broken};
ghost use Rattle.clfs_rows.specs.Crashes.{closed_at, with_other_data, state_behind};
ghost use Rattle.clfs_rows.specs.Worked.{opened_log};
ghost use Rattle.clfs_rows.specs.Compared.{two_containers, unflushed_log, without_first, without_one, with_one_changed, with_link_to_itself, OpensTo};

/// Over a disk that tells what it holds it comes to the flushed part of the log, but for records that no reply can show, and the reply
/// is its LSN. What it comes to is valid, and files can stand for it.
pub fn what_a_disk_gives_back()
    ensures up_to_where { flushed unflushed_log ≡ lsn_number 2 512 0 }
    ensures the_flushed_part { OpensTo true unflushed_log (lsn_number 2 512 0) (cut unflushed_log) }
    ensures without_the_first_container { OpensTo true unflushed_log (lsn_number 2 512 0) (without_first 8 (cut unflushed_log)) }
    ensures with_other_records_there { OpensTo true unflushed_log (lsn_number 2 512 0) (with_one_changed with_other_data 3 (cut unflushed_log)) }
    ensures not_one_more { ¬ OpensTo true unflushed_log (lsn_number 2 512 1) (cut unflushed_log) }
    ensures not_another_place { ¬ OpensTo true unflushed_log (lsn_number 3 0 0) (record (cut unflushed_log) { place = closed_at 3 0 }) }
    ensures not_another_lsn_than_the_logs { ¬ OpensTo true (record two_containers { waiting = lsn_number 2 512 1 ∷ [] }) (lsn_number 2 512 0)
        (cut two_containers) }
    ensures not_with_another_record { ¬ OpensTo true unflushed_log (lsn_number 2 512 0) (with_one_changed with_other_data 8 (cut unflushed_log)) }
    ensures not_without_a_record { ¬ OpensTo true unflushed_log (lsn_number 2 512 0) (without_one 10 (cut unflushed_log)) }
    ensures not_with_an_area { ¬ OpensTo true unflushed_log (lsn_number 2 512 0) (record (cut unflushed_log) { areas = unflushed_log.areas }) }
    ensures not_with_other_buffers { ¬ OpensTo true unflushed_log (lsn_number 2 512 0) (record (cut unflushed_log) { buffers = 3 }) }
    ensures not_what_no_log_is_like { ¬ OpensTo true unflushed_log (lsn_number 2 512 0) (with_one_changed with_link_to_itself 3 (cut unflushed_log)) }
    ensures not_with_a_gap_between_blocks { ¬ OpensTo true unflushed_log (lsn_number 2 512 0) (without_one 3 (cut unflushed_log)) }
{}

/// Over a disk that doesn't tell what it holds it comes to any log that is valid, that files can stand for and that has just been opened,
/// with as many write buffers as before. The reply is the LSN of that log.
pub fn what_another_disk_gives_back()
    ensures the_flushed_part { OpensTo false unflushed_log (lsn_number 2 512 0) (cut unflushed_log) }
    ensures another_log { OpensTo false unflushed_log (lsn_number 1 0 0) (cut opened_log) }
    ensures not_one_more { ¬ OpensTo false unflushed_log (lsn_number 1 0 1) (cut opened_log) }
    ensures not_with_an_area { ¬ OpensTo false unflushed_log (lsn_number 1 0 0) opened_log }
    ensures not_with_other_buffers { ¬ OpensTo false unflushed_log (lsn_number 1 0 0) (record (cut opened_log) { buffers = 3 }) }
    ensures not_with_an_open_block { ¬ OpensTo false unflushed_log (lsn_number 1 0 0)
        (record (state_behind opened_log (codes "1 append 1 aa 0:0:0 0:0:0")) { areas = [] }) }
    ensures not_with_a_block_that_waits { ¬ OpensTo false unflushed_log (lsn_number 1 0 0)
        (record (state_behind opened_log (codes "1 append 1 aa 0:0:0 0:0:0 seal")) { areas = [] }) }
    ensures not_broken { ¬ OpensTo false unflushed_log (lsn_number 1 0 0) (with_broken (cut opened_log)) }
    ensures not_what_no_log_is_like { ¬ OpensTo false unflushed_log (lsn_number 2 512 0) (with_one_changed with_link_to_itself 3 (cut unflushed_log)) }
    ensures not_with_a_gap_between_blocks { ¬ OpensTo false unflushed_log (lsn_number 2 512 0) (without_one 3 (cut unflushed_log)) }
{}

/// A fault and damage leave the log broken. Out of memory leaves it as it was, and a log that is broken isn't opened again.
pub fn what_stops_opening_anew()
    ensures a_fault { ReopenStep true unflushed_log Fault (replies.Refused refusals.DiskFault) (with_broken unflushed_log) }
    ensures every_fault { (told : Bool) (s t : State) → s.broken ≡ false → ReopenStep told s Fault (replies.Refused refusals.DiskFault) t → t
        ≡ with_broken s }
    ensures damage { ReopenStep true unflushed_log Damage (replies.Refused (refusals.Damaged 1 0 1016)) (with_broken unflushed_log) }
    ensures every_damage { (told : Bool) (s : State) (container offset at : ℕ) (t : State) → s.broken ≡ false
        → ReopenStep told s Damage (replies.Refused (refusals.Damaged container offset at)) t → t ≡ with_broken s }
    ensures want_of_memory { ReopenStep true unflushed_log Fine (replies.Refused refusals.NoMemory) unflushed_log }
    ensures every_want_of_memory { (told : Bool) (s : State) (happened : Happened) (t : State) → s.broken ≡ false
        → ReopenStep told s happened (replies.Refused refusals.NoMemory) t → t ≡ s }
    ensures a_broken_log { ReopenStep true (with_broken unflushed_log) Fine (replies.Refused refusals.Broken) (with_broken unflushed_log) }
    ensures every_broken_log { (told : Bool) (s : State) (happened : Happened) (reply : Reply) (t : State) → s.broken ≡ true
        → ReopenStep told s happened reply t → (reply ≡ replies.Refused refusals.Broken) × (t ≡ s) }
{}
