// What lies after a group's lock: its session, its area, and how far the log is known to be on the disk.
//
// A crash at any point costs nothing here: the mark lives in memory alone, and it never says more than the log does.
ghost use Rattle.std.specs.Prelude.{◌≡◌, ◌≢◌, ◌<◌, ◌≤◌, Ok, true, false, Contains, IfOk, IfErr, MatchResult};
ghost use mathlib.Core.List.{IsPrefix};
ghost use Rattle.clfs_lsn.specs.Lsn.{null_lsn};
ghost use Rattle.clfs_model.specs.declared.call.Call.TheVariants as calls;
ghost use Rattle.clfs_model.specs.declared.refusal.Refusal.TheVariants as refusals;
ghost use Rattle.clfs_model.specs.declared.reply.Reply.TheVariants as replies;
ghost use Rattle.clfs_model.specs.Journals.{mine};
ghost use Rattle.clfs_turn.specs.Lists.{longer};
ghost use Rattle.clfs_turn.specs.Seats.{IsSameSeat};
ghost use Rattle.clfs_shared.specs.Journal.{is_out_of_memory};
ghost use Rattle.clfs_shared.specs.Reached.{is_calm};
ghost use Rattle.clfs_shared.specs.Sessions.{IsCalmReply, IsOf, IsStepped, own_entries};
ghost use Rattle.clfs_group.specs.Answers.{StandsBehind, flush_reply, may_refuse_flush, may_refuse_group, placed_lsns};
ghost use Rattle.clfs_group.specs.Groups.{HasGroupEntries, IsGroup, IsSameGroup, IsStable, making, parts_of};

use crate::flushing::flushes_keep_a_group;
use crate::naming::GroupName;
use clfs_disk::Disk;
use clfs_laws::{
    flushed_never_falls, fronts_are_legal, refusals_are_the_calls_own, replies_are_of_their_calls,
    steps_keep_a_state_valid,
};
use clfs_lsn::Lsn;
use clfs_model::{Call, Refusal, Reply};
use clfs_shared::{Recorder, Session, SharedLog};
use std::marker::{Model, PhantomData};
use std::sync::Wait;

/// What the threads of a group share under its lock. Contracts see its session, the number of its area, and its mark.
#[derive(Drop)]
pub struct GroupState<N: GroupName> {
    session: Session,
    area: u16,
    mark: Lsn,
    of: PhantomData<N>,
}

impl<N: GroupName> Model for GroupState<N> {
    ghost use Rattle.clfs_group.specs.Groups.{GroupParts, IsGroup, parts_of};

    ghost Value = { GroupParts };

    ghost view = { λ g. parts_of g.session g.area g.mark };

    ghost invariant = { λ g. IsGroup N.session N.stream (parts_of g.session g.area g.mark) };
}

/// A group wasn't made. The session comes back.
#[derive(Drop)]
pub struct GroupRefused {
    /// The session.
    pub session: Session,
    /// Why.
    pub cause: Refusal,
}

impl<N: GroupName> GroupState<N> {
    /// Makes an area of the session's client on a stream, by which the group is to flush. The mark begins as the null LSN.
    pub fn new<D: Disk, J: Recorder, W: Wait>(
        rt: &W,
        log: &SharedLog<D, J>,
        mut session: Session,
        stream: u16,
    ) -> Result<GroupState<N>, GroupRefused>
        requires log { IsOf log.now session }
        requires name { (session ≡ N.session) × (stream ≡ N.stream) }

        // The log was asked for this area, and gave it a number.
        ensures made { IfOk result (λ group. IsStepped session group.session (making stream) (replies.Area group.area)) }
        ensures same { IfOk result (λ group. IsSameSeat session group.session) }
        ensures mark { IfOk result (λ group. group.mark ≡ null_lsn) }

        // Or it refused it, for one of these causes. After out of memory the session is as it was.
        ensures same_refused { IfErr result (λ refused. IsSameSeat session refused.session) }
        ensures none { IfErr result (λ refused. refused.cause ≡ refusals.NoMemory → refused.session.seen ≡ session.seen) }
        ensures asked { IfErr result (λ refused. refused.cause ≢ refusals.NoMemory
            → IsStepped session refused.session (making stream) (replies.Refused refused.cause)) }
        ensures refused { IfErr result (λ refused. may_refuse_group refused.cause ≡ true) }

        // Over a disk that fails in no call of the log, it tells nothing of the disk.
        ensures calm { is_calm session.opening ≡ true → session.opening.state.broken ≡ false
            → IfErr result (λ refused. IsCalmReply (replies.Refused refused.cause)) }
    {
        refusals_are_the_calls_own();
        replies_are_of_their_calls();
        let call = Call::CreateArea {
            stream,
            largest: 0,
            reads: 1,
        };
        match log.step(rt, &mut session, &call) {
            Reply::Area(area) => Ok(GroupState {
                session,
                area,
                mark: Lsn::null(),
                of: PhantomData,
            }),
            Reply::Refused(cause) => Err(GroupRefused { session, cause }),
            _ => unreachable!(),
        }
    }

    // The group and a session learn what the other one has seen. It answers the mark, below which the session knows all to be on the disk then.
    fn meet<D: Disk, J: Recorder>(&mut self, log: &SharedLog<D, J>, session: &mut Session) -> Lsn
        requires log { IsOf log.now N.session × IsOf log.now session.old }
        ensures group { self.new ≡ parts_of self.new.session self.old.area self.old.mark }
        ensures same { IsSameSeat self.old.session self.new.session × IsSameSeat session.old session.new }
        ensures met { (self.new.session.seen ≡ longer self.old.session.seen session.old.seen) × (session.new.seen ≡ self.new.session.seen) }
        ensures begins { IsPrefix self.old.session.seen self.new.session.seen × IsPrefix session.old.seen session.new.seen }
        ensures own { (own_entries self.new.session ≡ own_entries self.old.session) × (own_entries session.new ≡ own_entries session.old) }
        ensures answer { result ≡ self.old.mark }
        ensures stable { IsStable session.new result }
        ensures named { IsSameSeat N.session self.new.session }
    {
        fronts_are_legal();
        flushed_never_falls();
        steps_keep_a_state_valid();
        log.opened();
        log.meet(&mut self.session, session).unwrap();
        self.mark
    }

    // One flush up to an LSN. Its answer is the mark.
    fn flush<D: Disk, J: Recorder, W: Wait>(
        &mut self,
        rt: &W,
        log: &SharedLog<D, J>,
        lsn: Lsn,
    ) -> Result<Lsn, Refusal>
        requires log { IsOf log.now N.session }
        ensures same { IsSameSeat self.old.session self.new.session }
        ensures area { self.new.area ≡ self.old.area }
        ensures none { is_out_of_memory (flush_reply result) ≡ true → self.new.session.seen ≡ self.old.session.seen }
        ensures asked { is_out_of_memory (flush_reply result) ≡ false
            → IsStepped self.old.session self.new.session (calls.FlushTo self.old.area lsn) (flush_reply result) }
        ensures wanted { is_out_of_memory (flush_reply result) ≡ true → J.may_lack (own_entries self.old.session) }
        ensures mark { MatchResult result (λ answer. self.new.mark ≡ answer) (λ _. self.new.mark ≡ self.old.mark) }
        ensures above { IfOk result (λ answer. lsn < answer) }
        ensures refused { IfErr result (λ given. may_refuse_flush lsn given ≡ true) }
        ensures placed { Contains (placed_lsns self.old.session.seen) lsn → IfErr result (λ given. given ≢ refusals.RecordNonexistent lsn) }
        ensures calm { is_calm self.old.session.opening ≡ true → self.old.session.opening.state.broken ≡ false → IsCalmReply (flush_reply result) }
    {
        flushes_keep_a_group();
        log.opened();
        let call = Call::FlushTo {
            area: self.area,
            lsn,
        };
        match log.step(rt, &mut self.session, &call) {
            Reply::Flushed(answer) => {
                self.mark = answer;
                Ok(answer)
            }
            Reply::Refused(refusal) => Err(refusal),
            _ => unreachable!(),
        }
    }

    /// Answers an LSN above this one, below which all records are on the disk: the mark, or, if that isn't above, the answer to one flush.
    pub fn stable<D: Disk, J: Recorder, W: Wait>(
        &mut self,
        rt: &W,
        log: &SharedLog<D, J>,
        session: &mut Session,
        lsn: Lsn,
    ) -> Result<Lsn, Refusal>
        requires log { IsOf log.now N.session × IsOf log.now session.old }

        // The group and the session are the same. They have met: the caller has seen what it had and what the group has, and no further call of its own.
        ensures group { IsSameGroup self.old self.new }
        ensures same { IsSameSeat session.old session.new }
        ensures seen { IsPrefix session.old.seen session.new.seen }
        ensures met { session.new.seen ≡ self.new.session.seen }
        ensures own { own_entries session.new ≡ own_entries session.old }

        // An answer is above the LSN. In each state to which the caller's entries lead all below it is on the disk, and there is such a state.
        ensures above { IfOk result (λ answer. lsn < answer) }
        ensures stable { IfOk result (λ answer. IsStable session.new answer) }
        ensures mark { MatchResult result (λ answer. self.new.mark ≡ answer) (λ _. self.new.mark ≡ self.old.mark) }

        // A mark above the LSN is the answer, and the group made no call.
        ensures shared { lsn < self.old.mark → (result ≡ Ok self.old.mark) × (own_entries self.new.session ≡ own_entries self.old.session) }

        // Else the group made this one call, and this is its answer; or none, if memory ran out.
        ensures asked { self.old.mark ≤ lsn → is_out_of_memory (flush_reply result) ≡ false
            → IsStepped self.old.session self.new.session (calls.FlushTo self.old.area lsn) (flush_reply result) }
        ensures none { is_out_of_memory (flush_reply result) ≡ true → own_entries self.new.session ≡ own_entries self.old.session }

        // A flush takes no memory. So memory runs out only where the journal lacks room for an entry more of the group's client.
        ensures wanted { is_out_of_memory (flush_reply result) ≡ true → J.may_lack (mine session.new.seen N.session.client) }

        // A refusal other than for memory stands in the caller's entries, after all that the caller had seen. It comes for one of these causes.
        ensures behind { IfErr result (λ given. given ≢ refusals.NoMemory
            → StandsBehind session.old.seen N.session.client (calls.FlushTo self.old.area lsn) (replies.Refused given) session.new.seen) }
        ensures refused { IfErr result (λ given. may_refuse_flush lsn given ≡ true) }

        // Over a disk that fails in no call of the log, memory alone can lack for an LSN that an entry placed which the caller had seen.
        ensures calm { is_calm session.old.opening ≡ true → session.old.opening.state.broken ≡ false → Contains (placed_lsns session.old.seen) lsn
            → IfErr result (λ given. given ≡ refusals.NoMemory) }
    {
        let known = self.meet(log, session);
        if lsn < known {
            return Ok(known);
        }
        let answer = self.flush(rt, log, lsn);
        let _known = self.meet(log, session);
        answer
    }

    /// Ends the group, and gives its session back.
    pub fn end(self) -> Session
        ensures session { result ≡ self.session }

        // It is the session that the group was made of. Its own entries since then are the making of the area, and flushes alone.
        ensures same { IsSameSeat N.session result }
        ensures begins { IsPrefix N.session.seen result.seen }
        ensures entries { HasGroupEntries N.session N.stream self.area result }
    {
        let GroupState {
            session,
            area: _,
            mark: _,
            of: _,
        } = self;
        session
    }
}
