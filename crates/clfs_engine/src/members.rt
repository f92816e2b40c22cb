// The members of a crowd: each has a session and an area of its own, and they append at the same time, each in a thread of its own.
//
// A member appends a record, and asks the group until where the log is on the disk. Its counts speak of its own entries in the log's journal, to which
// nobody else adds any; so when the log is closed they are counts of the journal.
ghost use Rattle.std.specs.Prelude.{◌≡◌, ℕ, ◌<◌, ◌≤◌, ◌+◌, [], length, slice_index_or, map, sum_by, All, IfOk};
ghost use Rattle.clfs_command.specs.Command.{most_crew_threads, most_crew_records};
ghost use Rattle.clfs_engine.specs.Commits.{MemberState, IsMember, client_of_member, has_made};
ghost use Rattle.clfs_engine.specs.Work.{IsCrewRecord, record_bytes};
ghost use Rattle.clfs_shared.specs.Sessions.{IsOf, own_entries};

use clfs_disk::Disk;
use clfs_group::{Group, GroupName, what_is_stable_stays};
use clfs_lsn::Sizes;
use clfs_model::{Call, Draft, Reply};
use clfs_shared::{Session, SharedLog, ToldJournal};
use std::alloc::{AllocError, Global};
use std::marker::Model;
use std::sync::Wait;
use std::thread;
use std::thread::Threads;

/// The most threads of a crowd.
const MOST_THREADS: usize = 8;

/// A member of a crowd. Contracts see its session, its area, how many records it appended, and of how many of them the group answered that they are on
/// the disk.
#[derive(Drop)]
pub struct Member {
    session: Session,
    area: u16,
    records: u32,
    stable: u32,
}

impl Model for Member {
    ghost use Rattle.clfs_engine.specs.Commits.{MemberState, member_of};

    ghost Value = { MemberState };

    ghost view = { λ m. member_of m.session m.area m.records m.stable };
}

// A copy of a record that is to be appended.
fn copied(draft: &Draft) -> Result<Draft, AllocError>
    ensures { IfOk result (λ copy. copy ≡ draft.now) }
{
    draft.clone()
}

impl Member {
    /// A member that has appended nothing yet, with an area of its session's client. A refusal is taken as out of memory: a log that was just made has
    /// room for the areas of a crowd, which isn't proved.
    pub fn new<D: Disk, W: Wait>(
        rt: &W,
        log: &SharedLog<D, ToldJournal>,
        session: Session,
        stream: u16,
        bytes: u32,
    ) -> Result<Member, AllocError>
        requires log { IsOf log.now session }
        requires none { own_entries session ≡ [] }
        requires bytes { bytes ≡ record_bytes }
        ensures member { IfOk result (IsMember log.now) }
        ensures made { IfOk result (λ member. has_made member ≡ 0) }
        ensures client { IfOk result (λ member. client_of_member member ≡ session.client) }
    {
        let mut session = session;
        let call = Call::CreateArea {
            stream,
            largest: bytes,
            reads: 1,
        };
        match log.step(rt, &mut session, &call) {
            Reply::Area(area) => Ok(Member {
                session,
                area,
                records: 0,
                stable: 0,
            }),
            _ => Err(AllocError),
        }
    }

    // Appends a record, and asks the group for an LSN above its own, below which all is on the disk.
    fn commit<N: GroupName, D: Disk, W: Wait>(
        &mut self,
        rt: &W,
        alloc: Global,
        log: &SharedLog<D, ToldJournal>,
        group: &Group<N>,
        draft: &Draft,
    )
        requires log { IsOf log.now N.session }
        requires record { IsCrewRecord draft.now }
        requires member { IsMember log.now self.old }
        requires few { has_made self.old ≤ most_crew_records }
        ensures member { IsMember log.now self.new }
        ensures made { has_made self.new ≤ has_made self.old + 1 }
        ensures client { client_of_member self.new ≡ client_of_member self.old }
    {
        what_is_stable_stays();
        log.opened();
        let Ok(draft) = copied(draft) else {
            return;
        };
        let call = Call::Append {
            area: self.area,
            draft,
            reserved: false,
            sizes: Sizes::none(alloc),
        };
        let Reply::Placed(lsn) = log.step(rt, &mut self.session, &call) else {
            return;
        };
        self.records += 1;
        let Ok(_answer) = group.stable(rt, log, &mut self.session, lsn) else {
            return;
        };
        self.stable += 1;
    }

    // Does so for so many records, one after the other.
    fn commit_all<N: GroupName, D: Disk, W: Wait>(
        &mut self,
        rt: &W,
        alloc: Global,
        log: &SharedLog<D, ToldJournal>,
        group: &Group<N>,
        draft: &Draft,
        count: u32,
    )
        requires log { IsOf log.now N.session }
        requires record { IsCrewRecord draft.now }
        requires count { count ≤ most_crew_records }
        requires member { IsMember log.now self.old }
        requires none { has_made self.old ≡ 0 }
        ensures member { IsMember log.now self.new }
        ensures made { has_made self.new ≤ count }
        ensures client { client_of_member self.new ≡ client_of_member self.old }
    {
        for _ in 0..count {
            self.commit(rt, alloc, log, group, draft);
        }
    }
}

/// Makes a member of each session.
pub fn members_of<D: Disk, W: Wait>(
    rt: &W,
    alloc: Global,
    log: &SharedLog<D, ToldJournal>,
    sessions: Vec<Session>,
    stream: u16,
    bytes: u32,
) -> Result<Vec<Member>, AllocError>
    requires log { All (λ s. IsOf log.now s) sessions.items }
    requires none { All (λ s. own_entries s ≡ []) sessions.items }
    requires bytes { bytes ≡ record_bytes }
    ensures members { IfOk result (λ members. All (λ m. IsMember log.now m × (has_made m ≡ 0)) members.items) }
    ensures clients { IfOk result (λ members. map client_of_member members.items ≡ map (λ s. s.client) sessions.items) }
{
    let mut members = Vec::new(alloc);
    for session in sessions {
        members.push(Member::new(rt, log, session, stream, bytes)?)?;
    }
    Ok(members)
}

/// Lets all members commit at the same time, so many records each. Where a thread can't be started another one does its work.
pub fn run_members<N, D, W>(
    rt: &W,
    alloc: Global,
    log: &SharedLog<D, ToldJournal>,
    group: &Group<N>,
    members: &mut [Member],
    draft: &Draft,
    count: u32,
)
where
    N: GroupName + Send + Sync,
    D: Disk + Send + Drop,
    W: Threads + Wait + Sync,
    requires log { IsOf log.now N.session }
    requires record { IsCrewRecord draft.now }
    requires count { count ≤ most_crew_records }
    requires ready { All (λ m. IsMember log.now m × (has_made m ≡ 0)) members.old }
    ensures members { All (λ m. IsMember log.now m × (has_made m ≤ count)) members.new }
    ensures clients { (k : ℕ) (d : MemberState) → k < length members.old
        → client_of_member (slice_index_or members.new k d) ≡ client_of_member (slice_index_or members.old k d) }
{
    thread::for_each_mut(
        rt,
        members,
        MOST_THREADS,
        &|_place, member| { member.commit_all(rt, alloc, log, group, draft, count) },
    );
}

/// The sessions of members, and the sums of what they counted.
pub struct Totals {
    /// The sessions, in the members' order.
    pub sessions: Vec<Session>,
    /// The records that were appended.
    pub records: u32,
    /// Those of them of which the group answered that they are on the disk.
    pub stable: u32,
}

/// Takes members that are done apart.
pub fn totals_of(alloc: Global, members: Vec<Member>) -> Result<Totals, AllocError>
    requires few { length members.items ≤ most_crew_threads }
    requires counts { All (λ m. (m.records ≤ most_crew_records) × (m.stable ≤ most_crew_records)) members.items }
    ensures sessions { IfOk result (λ totals. totals.sessions.items ≡ map (λ m. m.session) members.items) }
    ensures records { IfOk result (λ totals. totals.records ≡ sum_by (λ m. m.records) members.items) }
    ensures stable { IfOk result (λ totals. totals.stable ≡ sum_by (λ m. m.stable) members.items) }
{
    let mut sessions = Vec::new(alloc);
    let mut records = 0;
    let mut stable = 0;
    for member in members {
        let Member {
            session,
            area: _,
            records: appended,
            stable: flushed,
        } = member;
        sessions.push(session)?;
        records += appended;
        stable += flushed;
    }
    Ok(Totals {
        sessions,
        records,
        stable,
    })
}
