// The calls that an area makes of its log, by its session, and what they are answered. What is appended or reserved is copied before the log is asked, so
// want of memory is answered without a step.
ghost use Rattle.std.specs.Prelude.{◌≡◌, ◌+◌, ◌-◌, ◌≤◌, ◌<◌, ◌^◌, true, false, [], length, Some, IfOk, IfErr};
ghost use Rattle.clfs_lsn.specs.Size.{own};
ghost use Rattle.clfs_model.specs.declared.call.Call.TheVariants as calls;
ghost use Rattle.clfs_model.specs.Space.{own_sum};
ghost use Rattle.clfs_turn.specs.Seats.{IsSameSeat};
ghost use Rattle.clfs_laws.specs.Rows.{AreaRow};
ghost use Rattle.clfs_shared.specs.Reached.{is_calm};
ghost use Rattle.clfs_shared.specs.Sessions.{IsCalmReply, IsOf};
ghost use Rattle.clfs_area.specs.Areas.{held_by_own, row_by_own};
ghost use Rattle.clfs_area.specs.Calls.{HasAsked, held_append, placed_reply, sectors_reply, is_placed_reply, is_held_reply};
ghost use Rattle.clfs_area.specs.Causes.{may_refuse_append, may_refuse_reserve, may_refuse_give_back, TellsAppend, TellsReserve};

use clfs_disk::Disk;
use clfs_laws::{
    refusals_are_the_calls_own, replies_are_of_their_calls, rows_are_by_own_entries,
    short_where_less_is_held,
};
use clfs_lsn::{Lsn, Sizes, own};
use clfs_model::{Call, Draft, Refusal, Reply};
use clfs_shared::{Recorder, Session, SharedLog};
use std::alloc::{AllocError, Global};
use std::sync::Wait;

/// The sectors that a record needs.
pub(crate) fn need_of(draft: &Draft) -> u32
    requires { length draft.now.bytes < 2 ^ 32 }
    ensures { result ≡ own (length draft.now.bytes) }
{
    own(draft.bytes.len() as u32)
}

// A copy of a record that is to be appended.
fn copied_draft(draft: &Draft) -> Result<Draft, AllocError>
    ensures { IfOk result (λ copy. copy ≡ draft.now) }
{
    draft.clone()
}

// A copy of lengths.
fn copied_sizes(sizes: &Sizes) -> Result<Sizes, AllocError>
    ensures { IfOk result (λ copy. copy ≡ sizes.now) }
{
    sizes.clone()
}

// The answer to an append.
fn placed_of(reply: Reply) -> Result<Lsn, Refusal>
    requires { is_placed_reply reply ≡ true }
    ensures { placed_reply result ≡ reply }
{
    match reply {
        Reply::Placed(lsn) => Ok(lsn),
        Reply::Refused(refusal) => Err(refusal),
        _ => unreachable!(),
    }
}

// The answer to a reservation or a release.
fn held_of(reply: Reply) -> Result<u32, Refusal>
    requires { is_held_reply reply ≡ true }
    ensures { sectors_reply result ≡ reply }
{
    match reply {
        Reply::Held(sectors) => Ok(sectors),
        Reply::Refused(refusal) => Err(refusal),
        _ => unreachable!(),
    }
}

/// Appends a record in sectors that the session's area holds.
pub(crate) fn append_held<D: Disk, J: Recorder, W: Wait>(
    rt: &W,
    log: &SharedLog<D, J>,
    session: &mut Session,
    alloc: Global,
    number: u16,
    draft: &Draft,
) -> Result<Lsn, Refusal>
    requires log { IsOf log.now session.old }
    requires bytes { length draft.now.bytes < 2 ^ 32 }
    requires covered { own (length draft.now.bytes) ≤ held_by_own session.old number }
    ensures same { IsSameSeat session.old session.new }
    ensures fits { IfOk result (λ _. length session.new.seen < 2 ^ 64) }
    ensures asked { HasAsked session.old session.new (held_append number draft.now) (placed_reply result) }
    ensures refused { IfErr result (λ given. may_refuse_append given ≡ true) }
    ensures told { (row : AreaRow) → row_by_own session.old number ≡ Some row → IfErr result (λ given. TellsAppend row.largest draft.now given) }
    ensures calm { is_calm session.old.opening ≡ true → session.old.opening.state.broken ≡ false → IsCalmReply (placed_reply result) }
{
    refusals_are_the_calls_own();
    replies_are_of_their_calls();
    rows_are_by_own_entries();
    let Ok(draft) = copied_draft(draft) else {
        return Err(Refusal::NoMemory);
    };
    let call = Call::Append {
        area: number,
        draft,
        reserved: true,
        sizes: Sizes::none(alloc),
    };
    placed_of(log.step(rt, session, &call))
}

/// Reserves sectors for records of these lengths, and answers what the session's area holds then.
pub(crate) fn reserve_more<D: Disk, J: Recorder, W: Wait>(
    rt: &W,
    log: &SharedLog<D, J>,
    session: &mut Session,
    number: u16,
    sizes: &Sizes,
) -> Result<u32, Refusal>
    requires log { IsOf log.now session.old }
    ensures same { IsSameSeat session.old session.new }
    ensures asked { HasAsked session.old session.new (calls.Reserve number sizes.now) (sectors_reply result) }
    ensures held { (row : AreaRow) → row_by_own session.old number ≡ Some row → IfOk result (λ held. held ≡ row.held + own_sum sizes.now) }
    ensures refused { (row : AreaRow) → row_by_own session.old number ≡ Some row → IfErr result (λ given. may_refuse_reserve given ≡ true) }
    ensures told { (row : AreaRow) → row_by_own session.old number ≡ Some row → IfErr result (λ given. TellsReserve row.largest sizes.now given) }
    ensures calm { is_calm session.old.opening ≡ true → session.old.opening.state.broken ≡ false → IsCalmReply (sectors_reply result) }
{
    refusals_are_the_calls_own();
    replies_are_of_their_calls();
    rows_are_by_own_entries();
    let Ok(sizes) = copied_sizes(sizes) else {
        return Err(Refusal::NoMemory);
    };
    let call = Call::Reserve {
        area: number,
        sizes,
    };
    held_of(log.step(rt, session, &call))
}

/// Releases so many sectors, and answers what the session's area holds then.
pub(crate) fn release<D: Disk, J: Recorder, W: Wait>(
    rt: &W,
    log: &SharedLog<D, J>,
    session: &mut Session,
    number: u16,
    sectors: u32,
) -> Result<u32, Refusal>
    requires log { IsOf log.now session.old }
    ensures same { IsSameSeat session.old session.new }
    ensures asked { HasAsked session.old session.new (calls.Release number sectors) (sectors_reply result) }
    ensures held { (row : AreaRow) → row_by_own session.old number ≡ Some row → IfOk result (λ held. held ≡ row.held - sectors) }
    ensures refused { (row : AreaRow) → row_by_own session.old number ≡ Some row → sectors ≤ row.held
        → IfErr result (λ given. may_refuse_give_back given ≡ true) }
    ensures calm { is_calm session.old.opening ≡ true → session.old.opening.state.broken ≡ false → IsCalmReply (sectors_reply result) }
{
    replies_are_of_their_calls();
    rows_are_by_own_entries();
    short_where_less_is_held();
    let call = Call::Release {
        area: number,
        sectors,
    };
    held_of(log.step(rt, session, &call))
}
