// What one flush of the log makes of a group, from the laws of the log's calls.
ghost use Rattle.std.specs.Prelude.{◌≡◌, ◌≢◌, ◌<◌, ℕ, true, false, Contains};
ghost use Rattle.clfs_model.specs.declared.call.Call.TheVariants as calls;
ghost use Rattle.clfs_model.specs.declared.refusal.Refusal.{Refusal};
ghost use Rattle.clfs_model.specs.declared.refusal.Refusal.TheVariants as refusals;
ghost use Rattle.clfs_model.specs.declared.reply.Reply.{Reply};
ghost use Rattle.clfs_model.specs.declared.reply.Reply.TheVariants as replies;
ghost use Rattle.clfs_model.specs.Valid.{IsValid};
ghost use Rattle.clfs_laws.specs.ReplyKinds.{is_reply_of};
ghost use Rattle.clfs_turn.specs.Seats.{IsSameSeat};
ghost use Rattle.clfs_shared.specs.Journal.{is_out_of_memory};
ghost use Rattle.clfs_shared.specs.Sessions.{SessionState, IsStepped};
ghost use Rattle.clfs_group.specs.Answers.{may_refuse_flush, placed_lsns};
ghost use Rattle.clfs_group.specs.Groups.{GroupParts, HasGroupEntries, IsGroup, parts_of};

use clfs_laws::{
    a_flush_goes_past_its_lsn, flushed_never_falls, fronts_are_legal, refusals_are_the_calls_own,
    replies_are_of_their_calls, rows_are_by_own_entries, steps_keep_a_state_valid,
    steps_only_add_records,
};

/// What an answered or refused flush by a group's area makes of the group. This does nothing; a caller cites its clauses.
pub(crate) fn flushes_keep_a_group()
    // An answer is above the LSN, and the group's new mark.
    ensures above { (s t : SessionState) (area lsn answer : ℕ) → IsValid s.opening.state → IsStepped s t (calls.FlushTo area lsn) (replies.Flushed answer) → lsn < answer }
    ensures answered { (first : SessionState) (stream lsn answer : ℕ) (group : GroupParts) (t : SessionState) → IsValid group.session.opening.state
        → IsSameSeat group.session t → IsStepped group.session t (calls.FlushTo group.area lsn) (replies.Flushed answer) → IsGroup first stream group
        → IsGroup first stream (parts_of t group.area answer) }

    // After any other reply the group still has its mark.
    ensures kept { (first : SessionState) (stream lsn : ℕ) (reply : Reply) (group : GroupParts) (t : SessionState) → IsValid group.session.opening.state
        → IsSameSeat group.session t → (is_out_of_memory reply ≡ true → t.seen ≡ group.session.seen)
        → (is_out_of_memory reply ≡ false → IsStepped group.session t (calls.FlushTo group.area lsn) reply) → IsGroup first stream group
        → IsGroup first stream (parts_of t group.area group.mark) }
    ensures kind { (s t : SessionState) (area lsn : ℕ) (reply : Reply) → IsStepped s t (calls.FlushTo area lsn) reply → is_reply_of (calls.FlushTo area lsn) reply ≡ true }

    // These are the causes of a refusal, and that no record has the LSN isn't one where an entry placed a record there.
    ensures causes { (first : SessionState) (stream lsn : ℕ) (group : GroupParts) (t : SessionState) (given : Refusal)
        → (is_out_of_memory (replies.Refused given) ≡ false → IsStepped group.session t (calls.FlushTo group.area lsn) (replies.Refused given))
        → HasGroupEntries first stream group.area group.session → may_refuse_flush lsn given ≡ true }
    ensures finds { (s t : SessionState) (area lsn : ℕ) (given : Refusal) → IsValid s.opening.state
        → (is_out_of_memory (replies.Refused given) ≡ false → IsStepped s t (calls.FlushTo area lsn) (replies.Refused given))
        → Contains (placed_lsns s.seen) lsn → given ≢ refusals.RecordNonexistent lsn }
{
    a_flush_goes_past_its_lsn();
    flushed_never_falls();
    fronts_are_legal();
    refusals_are_the_calls_own();
    replies_are_of_their_calls();
    rows_are_by_own_entries();
    steps_keep_a_state_valid();
    steps_only_add_records();
}
