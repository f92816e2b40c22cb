// A client leaves a shared log: its areas are deleted, whatever numbers they have.
ghost use Rattle.clfs_shared.specs.Sessions.{IsOf};
ghost use Rattle.clfs_share.specs.Left.{DeletesArea, HasLeft};

use clfs_disk::Disk;
use clfs_laws::{refusals_change_nothing, replies_are_of_their_calls, rows_are_by_own_entries};
use clfs_model::Call;
use clfs_shared::{Session, SharedLog, ToldJournal};
use std::sync::Wait;

// The highest number of a client's area.
const MOST_AREAS: u16 = 16;

// Asks for the deletion of one area, whether it is there or not.
fn delete_area<D: Disk, R: Wait>(
    rt: &R,
    log: &SharedLog<D, ToldJournal>,
    session: &mut Session,
    number: u16,
)
    requires { IsOf log.now session.old }
    ensures { DeletesArea session.old number session.new }
{
    refusals_change_nothing();
    replies_are_of_their_calls();
    rows_are_by_own_entries();
    let call = Call::DeleteArea { area: number };
    let _reply = log.step(rt, session, &call);
}

/// Asks for the deletion of each area that the client can have.
pub(crate) fn leave<D: Disk, R: Wait>(
    rt: &R,
    log: &SharedLog<D, ToldJournal>,
    session: &mut Session,
)
    requires { IsOf log.now session.old }
    ensures { HasLeft session.old session.new }
{
    for number in 0..MOST_AREAS {
        delete_area(rt, log, session, number + 1);
    }
}
