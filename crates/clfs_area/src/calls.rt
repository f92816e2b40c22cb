// What a thread does with a permit. Each call makes one call of the log at most, and changes the permit and the area's books by just what the log's
// answer says; a refusal changes neither.
ghost use Rattle.std.specs.Prelude.{◌≡◌, ◌+◌, ◌≤◌, ◌<◌, ◌^◌, true, false, Err, length, OnOk, IfOk, IfErr};
ghost use Rattle.clfs_lsn.specs.Size.{own};
ghost use Rattle.clfs_model.specs.declared.call.Call.TheVariants as calls;
ghost use Rattle.clfs_model.specs.declared.refusal.Refusal.TheVariants as refusals;
ghost use Rattle.clfs_model.specs.Space.{own_sum};
ghost use Rattle.clfs_shared.specs.Reached.{is_calm};
ghost use Rattle.clfs_shared.specs.Sessions.{IsCalmReply, IsOf};
ghost use Rattle.clfs_area.specs.Areas.{HasSameBooks, IsSameArea, permit_of};
ghost use Rattle.clfs_area.specs.Calls.{HasAsked, held_append, held_reply, placed_reply};
ghost use Rattle.clfs_area.specs.Causes.{may_refuse_append, may_refuse_reserve, may_refuse_give_back, TellsAppend, TellsReserve};

use crate::area::AreaState;
use crate::asking::{append_held, need_of, release, reserve_more};
use crate::permit::Permit;
use clfs_disk::Disk;
use clfs_lsn::{Lsn, Sizes};
use clfs_model::{Draft, Refusal};
use clfs_shared::{Recorder, SharedLog};
use std::sync::Wait;
use std::sync::ledger::Ledger;

impl<S: Ledger, R: Ledger> AreaState<S, R> {
    /// Reserves sectors for records of these lengths, which the permit has then, and answers all that it has.
    pub fn reserve<D: Disk, J: Recorder, W: Wait>(
        &mut self,
        rt: &W,
        log: &SharedLog<D, J>,
        permit: &mut Permit<S, R>,
        sizes: &Sizes,
    ) -> Result<u32, Refusal>
        requires log { IsOf log.now self.old.session }
        ensures same { IsSameArea self.old self.new }

        // The log was asked for just this, and answered what the area holds then.
        ensures asked { HasAsked self.old.session self.new.session (calls.Reserve self.old.number sizes.now) (held_reply self.new.sectors result) }
        ensures sectors { OnOk result (permit.new ≡ permit_of (permit.old.sectors + own_sum sizes.now) permit.old.records permit.old.parts) }
        ensures book { OnOk result ((self.new.sectors ≡ self.old.sectors + own_sum sizes.now) × (self.new.records ≡ self.old.records)) }
        ensures answer { IfOk result (λ sectors. sectors ≡ permit.new.sectors) }

        // A refusal changes neither the permit nor the books. It comes for one of these causes, and tells it.
        ensures unchanged { IfErr result (λ _. (permit.new ≡ permit.old) × HasSameBooks self.old self.new) }
        ensures refused { IfErr result (λ given. may_refuse_reserve given ≡ true) }
        ensures told { IfErr result (λ given. TellsReserve self.old.largest sizes.now given) }

        // Over a disk that fails in no call of the log, it tells nothing of the disk.
        ensures calm { is_calm self.old.session.opening ≡ true → self.old.session.opening.state.broken ≡ false
            → IsCalmReply (held_reply self.new.sectors result) }
    {
        self.sectors.audit(&mut permit.held);
        match reserve_more(rt, log, &mut self.session, self.number, sizes) {
            Ok(held) => {
                let more = held - self.held;
                self.sectors.add(&mut permit.held, more as u64);
                self.held = held;
                permit.sectors += more;
                Ok(permit.sectors)
            }
            Err(refusal) => Err(refusal),
        }
    }

    /// Appends a record in sectors that the permit has, which are never refused.
    pub fn append<D: Disk, J: Recorder, W: Wait>(
        &mut self,
        rt: &W,
        log: &SharedLog<D, J>,
        permit: &mut Permit<S, R>,
        draft: &Draft,
    ) -> Result<Lsn, Refusal>
        requires log { IsOf log.now self.old.session }
        requires bytes { length draft.now.bytes < 2 ^ 32 }
        ensures same { IsSameArea self.old self.new }

        // A permit that has too few sectors is told both numbers, and nothing is asked of the log.
        ensures short { permit.old.sectors < own (length draft.now.bytes)
            → (result ≡ Err (refusals.ReservationShort permit.old.sectors (own (length draft.now.bytes)))) × (self.new ≡ self.old) }

        // Else the log was asked for just this append, and this is its answer.
        ensures asked { own (length draft.now.bytes) ≤ permit.old.sectors
            → HasAsked self.old.session self.new.session (held_append self.old.number draft.now) (placed_reply result) }
        ensures permit { OnOk result ((permit.new.sectors + own (length draft.now.bytes) ≡ permit.old.sectors)
            × ((permit.new.records ≡ permit.old.records + 1) × (permit.new.parts ≡ permit.old.parts))) }
        ensures books { OnOk result ((self.new.sectors + own (length draft.now.bytes) ≡ self.old.sectors) × (self.new.records ≡ self.old.records + 1)) }

        // A refusal changes neither the permit nor the books. It comes for one of these causes, never for space, and tells it.
        ensures unchanged { IfErr result (λ _. (permit.new ≡ permit.old) × HasSameBooks self.old self.new) }
        ensures refused { own (length draft.now.bytes) ≤ permit.old.sectors → IfErr result (λ given. may_refuse_append given ≡ true) }
        ensures told { IfErr result (λ given. TellsAppend self.old.largest draft.now given) }

        // Over a disk that fails in no call of the log, it tells nothing of the disk.
        ensures calm { is_calm self.old.session.opening ≡ true → self.old.session.opening.state.broken ≡ false → IsCalmReply (placed_reply result) }
    {
        let need = need_of(draft);
        if permit.sectors < need {
            return Err(Refusal::ReservationShort {
                held: permit.sectors,
                need,
            });
        }
        self.sectors.audit(&mut permit.held);
        self.records.audit(&mut permit.placed);
        match append_held(rt, log, &mut self.session, self.alloc, self.number, draft) {
            Ok(lsn) => {
                self.sectors.sub(&mut permit.held, need as u64);
                self.records.add(&mut permit.placed, 1);
                self.held -= need;
                self.placed += 1;
                permit.sectors -= need;
                permit.records += 1;
                Ok(lsn)
            }
            Err(refusal) => Err(refusal),
        }
    }

    /// Gives all sectors of the permit back to the log. The permit keeps its records and its parts.
    pub fn give_back<D: Disk, J: Recorder, W: Wait>(
        &mut self,
        rt: &W,
        log: &SharedLog<D, J>,
        permit: &mut Permit<S, R>,
    ) -> Result<(), Refusal>
        requires log { IsOf log.now self.old.session }
        ensures same { IsSameArea self.old self.new }

        // The log was asked for just this, and answered what the area holds then.
        ensures asked { HasAsked self.old.session self.new.session (calls.Release self.old.number permit.old.sectors) (held_reply self.new.sectors result) }
        ensures sectors { OnOk result (permit.new ≡ permit_of 0 permit.old.records permit.old.parts) }
        ensures book { OnOk result ((self.new.sectors + permit.old.sectors ≡ self.old.sectors) × (self.new.records ≡ self.old.records)) }

        // A refusal changes neither the permit nor the books, and comes for one of these causes.
        ensures unchanged { IfErr result (λ _. (permit.new ≡ permit.old) × HasSameBooks self.old self.new) }
        ensures refused { IfErr result (λ given. may_refuse_give_back given ≡ true) }

        // Over a disk that fails in no call of the log, it tells nothing of the disk.
        ensures calm { is_calm self.old.session.opening ≡ true → self.old.session.opening.state.broken ≡ false
            → IsCalmReply (held_reply self.new.sectors result) }
    {
        let sectors = permit.sectors;
        self.sectors.audit(&mut permit.held);
        match release(rt, log, &mut self.session, self.number, sectors) {
            Ok(held) => {
                self.sectors.sub(&mut permit.held, sectors as u64);
                self.held = held;
                permit.sectors = 0;
                Ok(())
            }
            Err(refusal) => Err(refusal),
        }
    }
}
