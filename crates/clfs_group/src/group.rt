// A group under its lock, which threads share by reference.
//
// The lock is held while a flush is under way, so threads that come meanwhile wait for it, and most of them find the mark above their LSN then.
ghost use Rattle.std.specs.Prelude.{◌≡◌, ◌≢◌, ◌<◌, ℕ, true, false, Contains, IfOk, IfErr};
ghost use mathlib.Core.List.{IsPrefix};
ghost use Rattle.clfs_model.specs.declared.call.Call.TheVariants as calls;
ghost use Rattle.clfs_model.specs.declared.refusal.Refusal.TheVariants as refusals;
ghost use Rattle.clfs_model.specs.declared.reply.Reply.TheVariants as replies;
ghost use Rattle.clfs_model.specs.Journals.{mine};
ghost use Rattle.clfs_turn.specs.Seats.{IsSameSeat};
ghost use Rattle.clfs_shared.specs.Journal.{is_out_of_memory};
ghost use Rattle.clfs_shared.specs.Reached.{is_calm};
ghost use Rattle.clfs_shared.specs.Sessions.{IsCalmReply, IsOf, IsStepped, own_entries};
ghost use Rattle.clfs_group.specs.Answers.{StandsBehind, flush_reply, may_refuse_flush, may_refuse_group, placed_lsns};
ghost use Rattle.clfs_group.specs.Groups.{HasGroupEntries, IsStable, making};

use crate::naming::GroupName;
use crate::state::{GroupRefused, GroupState};
use clfs_disk::Disk;
use clfs_lsn::Lsn;
use clfs_model::Refusal;
use clfs_shared::{Recorder, Session, SharedLog};
use std::sync::{Mutex, Wait};

/// A group of threads that share flushes of one log. What it was made of is named by its type.
#[derive(Drop)]
pub struct Group<N: GroupName> {
    state: Mutex<GroupState<N>>,
}

impl<N: GroupName> Group<N> {
    /// Makes a group of a session and of a stream that the log has. It waits for the log's turn.
    pub fn new<D: Disk, J: Recorder, W: Wait>(
        rt: &W,
        log: &SharedLog<D, J>,
        session: Session,
        stream: u16,
    ) -> Result<Group<N>, GroupRefused>
        requires log { IsOf log.now session }
        requires name { (session ≡ N.session) × (stream ≡ N.stream) }

        // A refusal is the log's, to the call that was to make the area, for one of these causes. After out of memory the session is as it was.
        ensures same { IfErr result (λ refused. IsSameSeat session refused.session) }
        ensures none { IfErr result (λ refused. refused.cause ≡ refusals.NoMemory → refused.session.seen ≡ session.seen) }
        ensures asked { IfErr result (λ refused. refused.cause ≢ refusals.NoMemory
            → IsStepped session refused.session (making stream) (replies.Refused refused.cause)) }
        ensures refused { IfErr result (λ refused. may_refuse_group refused.cause ≡ true) }

        // Over a disk that fails in no call of the log, it tells nothing of the disk.
        ensures calm { is_calm session.opening ≡ true → session.opening.state.broken ≡ false
            → IfErr result (λ refused. IsCalmReply (replies.Refused refused.cause)) }
    {
        let state = GroupState::new(rt, log, session, stream)?;
        Ok(Group {
            state: Mutex::new(state),
        })
    }

    /// Answers an LSN above this one, below which all records are on the disk. It waits for the group's lock, and for the log's turn if it flushes.
    pub fn stable<D: Disk, J: Recorder, W: Wait>(
        &self,
        rt: &W,
        log: &SharedLog<D, J>,
        session: &mut Session,
        lsn: Lsn,
    ) -> Result<Lsn, Refusal>
        requires log { IsOf log.now N.session × IsOf log.now session.old }

        // The session is the same, and has seen what it had and no further call of its own.
        ensures same { IsSameSeat session.old session.new }
        ensures seen { IsPrefix session.old.seen session.new.seen }
        ensures own { own_entries session.new ≡ own_entries session.old }

        // An answer is above the LSN. In each state to which the caller's entries lead all below it is on the disk, and there is such a state.
        ensures above { IfOk result (λ answer. lsn < answer) }
        ensures stable { IfOk result (λ answer. IsStable session.new answer) }

        // A refusal other than for memory stands in the caller's entries, after all that it had seen, as the log's reply to a flush of the group's client
        // up to this LSN. It comes for one of these causes.
        ensures behind { IfErr result (λ given. given ≢ refusals.NoMemory
            → (area : ℕ) × StandsBehind session.old.seen N.session.client (calls.FlushTo area lsn) (replies.Refused given) session.new.seen) }
        ensures refused { IfErr result (λ given. may_refuse_flush lsn given ≡ true) }

        // A flush takes no memory. So memory runs out only where the journal lacks room for an entry more of the group's client.
        ensures wanted { is_out_of_memory (flush_reply result) ≡ true → J.may_lack (mine session.new.seen N.session.client) }

        // Over a disk that fails in no call of the log, memory alone can lack for an LSN that an entry placed which the caller had seen.
        ensures calm { is_calm session.old.opening ≡ true → session.old.opening.state.broken ≡ false → Contains (placed_lsns session.old.seen) lsn
            → IfErr result (λ given. given ≡ refusals.NoMemory) }
    {
        self.state.lock(rt).stable(rt, log, session, lsn)
    }

    /// Ends the group, and gives its session back.
    pub fn end(self) -> Session
        // It is the session that the group was made of. Its own entries since then are the making of the area, and flushes alone.
        ensures same { IsSameSeat N.session result }
        ensures begins { IsPrefix N.session.seen result.seen }
        ensures entries { (area : ℕ) × HasGroupEntries N.session N.stream area result }
    {
        let Group { state } = self;
        state.into_inner().end()
    }
}
