ghost use Rattle.std.specs.Prelude.{◌≡◌, ◌<◌, length, IfOk};

use clfs_cursor::{Cursors, Search, search_from};
use clfs_lsn::{Head, Kind, Lsn};
use clfs_model::{CursorKind, Mode};
use std::alloc::{AllocError, Global};

const FORWARD: CursorKind = CursorKind::Records(Mode::Forward);

// Where each cursor starts.
const START: u64 = 1 << 32;

// One step with the cursors of two areas.
#[derive(Clone, Copy)]
enum Step {
    Start(CursorKind),
    OverRecords(u16),
    OverRestarts(u16),
    End(u16),
    // To null.
    Move(u16),
    Last(u16),
    Full,
}

// The number that a cursor gets that starts in an area; 0 where the area has no room.
fn start(cursors: &mut Cursors, area: usize, kind: CursorKind) -> Result<u64, AllocError>
    requires there { area < length cursors.old.areas }
    ensures { length cursors.new.areas ≡ length cursors.old.areas }
{
    cursors.reserve()?;
    if cursors.is_full(area) {
        return Ok(0);
    }
    Ok(cursors.start(area, kind, Lsn::of_number(START)) as u64)
}

// What a step in an area tells: a number, or 1 for yes and 0 for no.
fn told_by(cursors: &mut Cursors, area: usize, step: Step) -> Result<u64, AllocError>
    requires { area < length cursors.old.areas }
    ensures { length cursors.new.areas ≡ length cursors.old.areas }
{
    match step {
        Step::Start(kind) => start(cursors, area, kind),
        Step::OverRecords(number) => Ok(cursors.over_records(area, number).is_some() as u64),
        Step::OverRestarts(number) => Ok(cursors.over_restarts(area, number).is_some() as u64),
        Step::End(number) => {
            cursors.end(area, number);
            Ok(0)
        }
        Step::Move(number) => {
            cursors.move_to(area, number, Lsn::null());
            Ok(0)
        }
        Step::Last(number) => match cursors.cursor(area, number) {
            Some(cursor) => Ok(cursor.last.number()),
            None => Ok(u64::MAX),
        },
        Step::Full => Ok(cursors.is_full(area) as u64),
    }
}

// Two areas, for two and four cursors.
fn two_areas(alloc: Global) -> Result<Cursors, AllocError>
    ensures { IfOk result (λ cursors. length cursors.areas ≡ 2) }
{
    let mut cursors = Cursors::new(alloc);
    cursors.add_area(2)?;
    cursors.add_area(4)?;
    Ok(cursors)
}

// The first area goes, and then the other one, where another comes: how many cursors the first one has each time.
fn counts_behind_areas(cursors: &mut Cursors) -> Result<(usize, usize), AllocError>
    requires { length cursors.old.areas ≡ 2 }
{
    cursors.remove_area(0);
    let others = cursors.count(0);
    cursors.remove_area(0);
    cursors.add_area(1)?;
    Ok((others, cursors.count(0)))
}

// Each step in an area, and what it tells.
const STEPS: [(usize, Step, u64); 11] = [
    (1, Step::Start(FORWARD), 1),
    (0, Step::Start(FORWARD), 1),
    (1, Step::Start(CursorKind::RestartAreas), 2),
    (1, Step::OverRecords(2), 0),
    (1, Step::OverRestarts(2), 1),
    (1, Step::End(1), 0),
    (1, Step::Move(2), 0),
    (1, Step::Last(2), 0),
    (0, Step::Last(1), START),
    (1, Step::Full, 0),
    (1, Step::Start(FORWARD), 1),
];

// Two areas share the slab: what starts, moves and ends in the one changes nothing of the other.
#[test]
fn cursors_of_two_areas(rt: HostRuntime) -> Result<(), AllocError> {
    let mut cursors = two_areas(rt.alloc())?;
    for (area, done, told) in STEPS {
        assert!(rt; area < 2 && told_by(&mut cursors, area, done)? == told);
    }
    assert!(rt; counts_behind_areas(&mut cursors)? == (2, 0));
    Ok(())
}

#[test]
fn searches_by_mode(rt: HostRuntime) {
    let head = Head {
        lsn: Lsn::of_number(9),
        stream: 1,
        kind: Kind::Plain,
        previous: Lsn::of_number(7),
        undo_next: Lsn::of_number(5),
        new_base: Lsn::null(),
        len: 0,
    };
    for (mode, want) in [
        (Mode::Previous, Search::At(Lsn::of_number(7))),
        (Mode::UndoNext, Search::At(Lsn::of_number(5))),
        (Mode::Forward, Search::Above(Lsn::of_number(9))),
    ] {
        assert!(rt; search_from(mode, &head) == want);
    }
}
