// The shared log: sessions of several clients over one log, each call of which has one place in one journal.
ghost use Rattle.std.specs.Prelude.{◌≡◌, ◌≢◌, ◌⊎◌, ◌<◌, ◌≤◌, ◌^◌, ℕ, [], true, false, length, map, All, IsOk, IfOk, IfErr};
ghost use mathlib.Core.List.{IsPrefix};
ghost use Rattle.clfs_lsn.specs.Size.{own};
ghost use Rattle.clfs_laws.specs.Needs.{is_for_room};
ghost use Rattle.clfs_model.specs.Conditions.{IsClient, HasArguments};
ghost use Rattle.clfs_model.specs.Valid.{IsValid};
ghost use Rattle.clfs_model.specs.Step.{takes_memory};
ghost use Rattle.clfs_model.specs.Storable.{IsStorable};
ghost use Rattle.clfs_model.specs.Journals.{IsLegal, mine, held_by};
ghost use Rattle.clfs_model.specs.declared.call.Draft.{Draft};
ghost use Rattle.clfs_model.specs.declared.call.Call.TheVariants as calls;
ghost use Rattle.clfs_model.specs.declared.refusal.Refusal.{Refusal};
ghost use Rattle.clfs_model.specs.declared.refusal.Refusal.TheVariants as refusals;
ghost use Rattle.clfs_model.specs.declared.reply.Reply.TheVariants as replies;
ghost use Rattle.clfs_model.specs.declared.state.State.{State};
ghost use Rattle.clfs_turn.specs.Lists.{is_in, are_distinct, longer};
ghost use Rattle.clfs_turn.specs.Seats.{IsNewSeat, IsSameSeat, HasSeen};
ghost use Rattle.clfs_shared.specs.Journal.{client_of, is_out_of_memory};
ghost use Rattle.clfs_shared.specs.Reached.{opening_of, is_calm, IsReached};
ghost use Rattle.clfs_shared.specs.Sessions.{own_entries, HasAreas, IsCalmReply, IsOf, IsStepped, IsLegalFrom};

use crate::kept::KeptJournal;
use crate::locked::{ClientCall, LockedLog, LogWithJournal};
use crate::opening::Opening;
use crate::order::{Order, kind_of};
use crate::recorder::Recorder;
use crate::told::ToldJournal;
use clfs_disk::Disk;
use clfs_laws::{
    fronts_are_legal, held_is_by_own_entries, own_entries_cover_an_append,
    replies_are_of_their_calls, rows_are_by_own_entries, unbroken_stays,
};
use clfs_manager::Manager;
use clfs_model::{Call, Entry, Reply};
use clfs_turn::{Turn, TurnRefused, TurnSeat};
use std::alloc::{AllocError, Global};
use std::marker::Model;
use std::sync::Wait;

/// A client's right to make calls of one shared log. There is one for each client, and it may go to another thread. Contracts see which log it is
/// of, its client, and the beginning of the journal that it has seen.
pub type Session = TurnSeat<Entry, Opening>;

/// A log that several sessions share. Contracts see which one it is, its opening and its clients. Its journal is kept in memory, or, as
/// `SharedLog<D, ToldJournal>`, told to contracts alone.
#[derive(Drop)]
pub struct SharedLog<D: Disk, J: Recorder = KeptJournal> {
    turn: Turn<LockedLog<D, J>, Entry, Opening>,
    order: Order,
}

impl<D: Disk, J: Recorder> Model for SharedLog<D, J> {
    ghost use Rattle.clfs_shared.specs.Sessions.{SharedState, IsShared};

    ghost Value = { SharedState };

    ghost view = { λ s. s.turn };

    ghost invariant = { λ s. IsShared s.turn };
}

/// There was no memory to share a log. It comes back.
#[derive(Drop)]
pub struct StartRefused<D: Disk> {
    /// The log.
    pub manager: Manager<D>,
}

/// A shared log that was closed.
#[derive(Drop)]
pub struct Closed<D: Disk, J: Recorder = KeptJournal> {
    /// The log.
    pub manager: Manager<D>,
    /// The calls since it was shared, in the order in which the log took them.
    pub journal: J::Journal,
}

impl<D: Disk> SharedLog<D> {
    /// Shares a log among clients: one session for each, in that order. The journal is kept in memory. An error means that there was no memory.
    pub fn start(
        alloc: Global,
        manager: Manager<D>,
        clients: &[u16],
    ) -> Result<(SharedLog<D>, Vec<Session>), StartRefused<D>>
        requires some { 0 < length clients.now }
        requires apart { are_distinct clients.now ≡ true }
        requires ranges { (c : ℕ) → is_in c clients.now ≡ true → IsClient c }

        // The journal begins in the state and over the disk of the manager.
        ensures log { IfOk result (λ t. (t.0.opening ≡ opening_of manager.0 (D.state manager.1)) × (t.0.clients ≡ clients.now)) }
        ensures clients { IfOk result (λ t. map (λ s. s.client) t.1.items ≡ clients.now) }
        ensures sessions { IfOk result (λ t. All (λ s. IsNewSeat t.0 s) t.1.items) }
        ensures belong { IfOk result (λ t. All (λ s. IsOf t.0 s) t.1.items) }
        ensures refused { IfErr result (λ r. r.manager ≡ manager) }
    {
        SharedLog::share(alloc, manager, clients, 0)
    }

    /// Shares a log as `start` does, with room for the entries of so many calls, which is taken at once. More calls can be made, and fewer.
    pub fn start_for(
        alloc: Global,
        manager: Manager<D>,
        clients: &[u16],
        calls: usize,
    ) -> Result<(SharedLog<D>, Vec<Session>), StartRefused<D>>
        requires some { 0 < length clients.now }
        requires apart { are_distinct clients.now ≡ true }
        requires ranges { (c : ℕ) → is_in c clients.now ≡ true → IsClient c }
        ensures log { IfOk result (λ t. (t.0.opening ≡ opening_of manager.0 (D.state manager.1)) × (t.0.clients ≡ clients.now)) }
        ensures clients { IfOk result (λ t. map (λ s. s.client) t.1.items ≡ clients.now) }
        ensures sessions { IfOk result (λ t. All (λ s. IsNewSeat t.0 s) t.1.items) }
        ensures belong { IfOk result (λ t. All (λ s. IsOf t.0 s) t.1.items) }
        ensures refused { IfErr result (λ r. r.manager ≡ manager) }
    {
        SharedLog::share(alloc, manager, clients, calls)
    }
}

impl<D: Disk> SharedLog<D, ToldJournal> {
    /// Shares a log as `start` does. The journal is told to contracts alone, so memory doesn't grow with it; a client's call after 2^57 of them is answered
    /// as if there were no memory.
    pub fn start_told(
        alloc: Global,
        manager: Manager<D>,
        clients: &[u16],
    ) -> Result<(SharedLog<D, ToldJournal>, Vec<Session>), StartRefused<D>>
        requires some { 0 < length clients.now }
        requires apart { are_distinct clients.now ≡ true }
        requires ranges { (c : ℕ) → is_in c clients.now ≡ true → IsClient c }
        ensures log { IfOk result (λ t. (t.0.opening ≡ opening_of manager.0 (D.state manager.1)) × (t.0.clients ≡ clients.now)) }
        ensures clients { IfOk result (λ t. map (λ s. s.client) t.1.items ≡ clients.now) }
        ensures sessions { IfOk result (λ t. All (λ s. IsNewSeat t.0 s) t.1.items) }
        ensures belong { IfOk result (λ t. All (λ s. IsOf t.0 s) t.1.items) }
        ensures refused { IfErr result (λ r. r.manager ≡ manager) }
    {
        SharedLog::share(alloc, manager, clients, 0)
    }
}

impl<D: Disk, J: Recorder> SharedLog<D, J> {
    // Shares a log, with a journal of either kind.
    fn share(
        alloc: Global,
        manager: Manager<D>,
        clients: &[u16],
        calls: usize,
    ) -> Result<(SharedLog<D, J>, Vec<Session>), StartRefused<D>>
        requires some { 0 < length clients.now }
        requires apart { are_distinct clients.now ≡ true }
        requires ranges { (c : ℕ) → is_in c clients.now ≡ true → IsClient c }
        ensures log { IfOk result (λ t. (t.0.opening ≡ opening_of manager.0 (D.state manager.1)) × (t.0.clients ≡ clients.now)) }
        ensures clients { IfOk result (λ t. map (λ s. s.client) t.1.items ≡ clients.now) }
        ensures sessions { IfOk result (λ t. All (λ s. IsNewSeat t.0 s) t.1.items) }
        ensures belong { IfOk result (λ t. All (λ s. IsOf t.0 s) t.1.items) }
        ensures refused { IfErr result (λ r. r.manager ≡ manager) }
    {
        manager.stored();
        let locked = match LockedLog::new(alloc, manager, calls) {
            Ok(locked) => locked,
            Err(manager) => return Err(StartRefused { manager }),
        };
        match Turn::new(alloc, locked, clients) {
            Ok((turn, sessions)) => {
                let order = Order::new();
                Ok((SharedLog { turn, order }, sessions))
            }
            Err(TurnRefused { value }) => {
                let LogWithJournal {
                    manager,
                    journal: _,
                } = value.into_parts();
                Err(StartRefused { manager })
            }
        }
    }

    /// What the log began with. This does nothing; a caller cites its clauses.
    pub fn opened(&self)
        // The state is one that a log can be in and that files can hold.
        ensures valid { IsValid self.now.opening.state }
        ensures storable { IsStorable self.now.opening.state }
        ensures clients { (c : ℕ) → is_in c self.now.clients ≡ true → IsClient c }
    {
        let _turn = &self.turn;
    }

    /// Waits for the turn, and makes one call of the session's client.
    pub fn step<R: Wait>(&self, rt: &R, session: &mut Session, call: &Call) -> Reply
        requires log { IsOf self.now session.old }
        requires arguments { HasArguments call.now }
        ensures same { IsSameSeat session.old session.new }

        // So numbers of entries fit their type.
        ensures fits { length session.new.seen < 2 ^ 64 }

        // After out of memory nothing has changed. Any other answer is the machine's at the end of the journal, which gained this call.
        ensures none { is_out_of_memory result ≡ true → session.new.seen ≡ session.old.seen }
        ensures step { is_out_of_memory result ≡ false → IsStepped session.old session.new call.now result }

        // Memory runs out for a call that takes some. For any other it is the journal that lacks room for the entry: one that is kept may, and one that is
        // told does so where the client has made 2^57 calls.
        ensures wanted { is_out_of_memory result ≡ true → (takes_memory call.now ≡ true) ⊎ J.may_lack (own_entries session.old) }

        // What the own entries say of the client's areas, in each state to which all that the session has seen leads.
        ensures areas { (left : State) → IsLegal session.old.opening.tells_contents session.new.seen session.old.opening.state left
            → HasAreas session.new left }

        // Over a disk that fails in no call of the log, no answer tells of the disk, where the log wasn't broken when it was shared.
        ensures calm { is_calm session.old.opening ≡ true → session.old.opening.state.broken ≡ false → IsCalmReply result }

        // An append that the own entries cover is refused for no want of sectors or of containers, nor for want of its area.
        ensures covered { (number : ℕ) (draft : Draft) (given : Refusal) → call.now ≡ calls.Append number draft true []
            → own (length draft.bytes) ≤ held_by session.old.opening.state session.old.client (own_entries session.old) number
            → result ≡ replies.Refused given → (is_for_room given ≡ false) × (given ≢ refusals.NoSuchArea) }
    {
        held_is_by_own_entries();
        own_entries_cover_an_append();
        replies_are_of_their_calls();
        rows_are_by_own_entries();
        unbroken_stays();
        let _turn = &self.turn;
        let client = session.client();
        self.order.enter(rt, client, kind_of(call));
        let reply = self.turn.call(rt, session, ClientCall { client, call });
        self.order.leave(rt);
        reply
    }

    /// Lets two sessions share what they have seen. An error would be out of memory; none comes.
    pub fn meet(&self, a: &mut Session, b: &mut Session) -> Result<(), AllocError>
        requires log { IsOf self.now a.old × IsOf self.now b.old }
        ensures same { IsSameSeat a.old a.new × IsSameSeat b.old b.new }

        // Both have seen the longer of the two, which begins with the other, and no more of their own calls.
        ensures met { IfOk result (λ _. (a.new.seen ≡ longer a.old.seen b.old.seen) × (b.new.seen ≡ a.new.seen)) }
        ensures begins { IfOk result (λ _. IsPrefix a.old.seen a.new.seen × IsPrefix b.old.seen a.new.seen) }
        ensures own { IfOk result (λ _. (own_entries a.new ≡ own_entries a.old) × (own_entries b.new ≡ own_entries b.old)) }
        ensures legal { IfOk result (λ _. IsLegalFrom a.old.opening a.new.seen) }
        ensures refused { IfErr result (λ _. (a.new ≡ a.old) × (b.new ≡ b.old)) }
        ensures granted { IsOk result }
    {
        fronts_are_legal();
        self.turn.meet(a, b)
    }

    /// Takes all sessions of the log, and gives the log back with the journal.
    pub fn close(self, sessions: Vec<Session>) -> Closed<D, J>
        requires log { All (λ s. IsOf self s) sessions.items }
        requires all { (c : ℕ) → is_in c self.clients ≡ true → is_in c (map (λ s. s.client) sessions.items) ≡ true }

        // The journal begins with what each session has seen, and has of each client just the calls of its session.
        ensures sessions { All (λ s. HasSeen client_of (J.entries_of result.journal) s) sessions.items }
        ensures others { (c : ℕ) → is_in c self.clients ≡ false → mine (J.entries_of result.journal) c ≡ [] }

        // It leads from the opening to the manager's state. Its fields say what it tells of the disk, and what a crash left at each moment.
        ensures reached { IsReached self.opening (D.state result.manager.1) result.manager.0 (J.entries_of result.journal) }
    {
        let SharedLog { turn, order: _ } = self;
        let LogWithJournal { manager, journal } = turn.close(sessions).into_parts();
        Closed {
            manager,
            journal: journal.into_journal(),
        }
    }
}
