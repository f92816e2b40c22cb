// An area that threads share, with the books of its permits.
//
// The area makes its calls by one session, so by one client, and nobody else makes calls of that client. So what the session's own entries say of the
// area is what the log has of it, whatever other clients do. The books say the same: a call changes the book of sectors and a permit's share by just
// what its entry changes. A permit of so many sectors therefore finds at least as many in the area.
ghost use Rattle.std.specs.Prelude.{◌≡◌, ◌≤◌, ◌<◌, true, false, OnOk, IfOk, IfErr};
ghost use Rattle.clfs_lsn.specs.Limits.{most_cursors};
ghost use Rattle.clfs_model.specs.declared.call.Call.TheVariants as calls;
ghost use Rattle.clfs_model.specs.declared.reply.Reply.TheVariants as replies;
ghost use Rattle.clfs_turn.specs.Seats.{IsSameSeat};
ghost use Rattle.clfs_shared.specs.Reached.{is_calm};
ghost use Rattle.clfs_shared.specs.Sessions.{IsCalmReply, IsOf, IsStepped};
ghost use Rattle.clfs_area.specs.Areas.{IsKept, books_of, held_by_own, permit_of, placed_by_own};
ghost use Rattle.clfs_area.specs.Calls.{HasAsked};
ghost use Rattle.clfs_area.specs.Causes.{may_refuse_new};

use crate::permit::Permit;
use clfs_disk::Disk;
use clfs_laws::replies_are_of_their_calls;
use clfs_model::{Call, Refusal, Reply};
use clfs_shared::{Recorder, Session, SharedLog};
use std::alloc::Global;
use std::marker::Model;
use std::sync::Wait;
use std::sync::ledger::{Blank, Book, Ledger};

/// An area that threads share. Contracts see its session, its number, what it was made for, and its books.
#[derive(Drop)]
pub struct AreaState<S: Ledger, R: Ledger> {
    pub(crate) alloc: Global,
    pub(crate) session: Session,
    pub(crate) number: u16,
    pub(crate) stream: u16,
    pub(crate) largest: u32,
    pub(crate) reads: u16,
    pub(crate) held: u32,
    pub(crate) placed: u64,
    pub(crate) sectors: Book<S>,
    pub(crate) records: Book<R>,
}

impl<S: Ledger, R: Ledger> Model for AreaState<S, R> {
    ghost use Rattle.clfs_area.specs.Areas.{AreaBooks, IsBooked, books_of};

    ghost Value = { AreaBooks };

    ghost view = { λ a. books_of a.session a.number a.stream a.largest a.reads a.held a.placed };

    ghost invariant = { λ a. IsBooked (books_of a.session a.number a.stream a.largest a.reads a.held a.placed) a.sectors.total a.records.total };
}

/// An area wasn't made. The session comes back.
#[derive(Drop)]
pub struct AreaRefused {
    /// The session.
    pub session: Session,
    /// Why.
    pub cause: Refusal,
}

/// A shared area that ended: threads share it no more. The log still has the area.
#[derive(Drop)]
pub struct Ended {
    /// The session.
    pub session: Session,
    /// The area's number.
    pub area: u16,
    /// The sectors that it holds.
    pub held: u32,
    /// The appends of the area that were answered with an LSN.
    pub records: u64,
}

impl<S: Ledger, R: Ledger> AreaState<S, R> {
    /// Makes an area of the session's client on a stream, and the permit that has all parts of it. The two blanks are those of the area's ledgers.
    pub fn new<D: Disk, J: Recorder, W: Wait>(
        rt: &W,
        alloc: Global,
        log: &SharedLog<D, J>,
        mut session: Session,
        stream: u16,
        largest: u32,
        reads: u16,
        parts: u32,
        sectors: Blank,
        records: Blank,
    ) -> Result<(AreaState<S, R>, Permit<S, R>), AreaRefused>
        requires log { IsOf log.now session }
        requires reads { (1 ≤ reads) × (reads ≤ most_cursors) }
        requires parts { 0 < parts }
        requires sectors { (sectors.name ≡ S.name) × ((sectors.parts ≡ S.parts) × (S.parts ≡ parts)) }
        requires records { (records.name ≡ R.name) × ((records.parts ≡ R.parts) × (R.parts ≡ parts)) }

        // The log was asked for this area, and gave it a number. Nobody has sectors of it, and nothing was appended.
        ensures asked { IfOk result (λ made. IsStepped session made.0.session (calls.CreateArea stream largest reads) (replies.Area made.0.number)) }
        ensures same { IfOk result (λ made. IsSameSeat session made.0.session) }
        ensures area { IfOk result (λ made. made.0 ≡ books_of made.0.session made.0.number stream largest reads 0 0) }
        ensures permit { IfOk result (λ made. made.1 ≡ permit_of 0 0 parts) }

        // Or the log refused it, for one of these causes.
        ensures same_refused { IfErr result (λ refused. IsSameSeat session refused.session) }
        ensures asked_refused { IfErr result (λ refused. HasAsked session refused.session (calls.CreateArea stream largest reads) (replies.Refused refused.cause)) }
        ensures refused { IfErr result (λ refused. may_refuse_new refused.cause ≡ true) }

        // Over a disk that fails in no call of the log, it tells nothing of the disk.
        ensures calm { is_calm session.opening ≡ true → session.opening.state.broken ≡ false
            → IfErr result (λ refused. IsCalmReply (replies.Refused refused.cause)) }
    {
        replies_are_of_their_calls();
        let call = Call::CreateArea {
            stream,
            largest,
            reads,
        };
        match log.step(rt, &mut session, &call) {
            Reply::Area(number) => {
                let (sectors, held) = sectors.open::<S>();
                let (records, placed) = records.open::<R>();
                let permit = Permit {
                    sectors: 0,
                    records: 0,
                    parts,
                    held,
                    placed,
                };
                let area = AreaState {
                    alloc,
                    session,
                    number,
                    stream,
                    largest,
                    reads,
                    held: 0,
                    placed: 0,
                    sectors,
                    records,
                };
                Ok((area, permit))
            }
            Reply::Refused(cause) => Err(AreaRefused { session, cause }),
            _ => unreachable!(),
        }
    }

    /// What the session's own entries say of the area. This does nothing; a caller cites its clause.
    pub fn kept(&self)
        ensures { IsKept self.now }
    {
        let _number = self.number;
    }

    /// Ends the sharing. What the area holds and how many of its appends were answered with an LSN comes back with the session.
    pub fn end(self, permit: Permit<S, R>) -> Ended
        ensures session { result.session ≡ self.session }
        ensures area { result.area ≡ self.number }

        // The numbers are those of the books, and what the session's own entries say.
        ensures held { (result.held ≡ self.sectors) × (result.held ≡ held_by_own self.session self.number) }
        ensures records { (result.records ≡ self.records) × (result.records ≡ placed_by_own self.session self.number) }

        // They are at least the permit's; and just the permit's, if it has all parts.
        ensures at_least { (permit.sectors ≤ result.held) × (permit.records ≤ result.records) }
        ensures all { permit.parts ≡ S.parts → permit.parts ≡ R.parts → (result.held ≡ permit.sectors) × (result.records ≡ permit.records) }
    {
        let AreaState {
            alloc: _,
            session,
            number,
            stream: _,
            largest: _,
            reads: _,
            held,
            placed,
            sectors: mut book,
            records: mut count,
        } = self;
        let Permit {
            sectors: _,
            records: _,
            parts: _,
            held: mut sectors,
            placed: mut records,
        } = permit;
        book.audit(&mut sectors);
        count.audit(&mut records);
        Ended {
            session,
            area: number,
            held,
            records: placed,
        }
    }
}
