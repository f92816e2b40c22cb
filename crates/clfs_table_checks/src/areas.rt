use clfs_areas::Areas;
use clfs_lsn::Lsn;
use clfs_model::{CursorKind, Mode};
use std::alloc::AllocError;
use std::process::Abort;

const FORWARD: CursorKind = CursorKind::Records(Mode::Forward);

// A new area of a client, and its number; 0 where the client has too many.
fn make(areas: &mut Areas, client: u16, reads: u16) -> Result<u16, AllocError> {
    if areas.count(client) >= 16 {
        return Ok(0);
    }
    areas.create(client, 7, 960, reads)
}

// An area holds sectors, and spends some of them.
fn hold_and_spend(areas: &mut Areas, client: u16, number: u16, held: u32, spent: u32) {
    let Some(place) = areas.place(client, number) else {
        return;
    };
    if areas.total() >= 100 || held >= 100 || spent > held {
        return;
    }
    areas.hold(place, held);
    areas.spend(place, spent);
}

// A new cursor of an area that moves on, and its number; 0 where there is none.
fn start(areas: &mut Areas, client: u16, number: u16, kind: CursorKind) -> Result<u16, AllocError> {
    let Some(place) = areas.place(client, number) else {
        return Ok(0);
    };
    areas.reserve_cursor()?;
    if areas.is_full(place) {
        return Ok(0);
    }
    let cursor = areas.start_cursor(place, kind, Lsn::null());
    areas.move_cursor(place, cursor, Lsn::of_number(1 << 32));
    Ok(cursor)
}

// Where an area stands, what it holds, and how many cursors it has.
fn told(areas: &Areas, client: u16, number: u16) -> Option<(usize, u32, usize)> {
    let place = areas.place(client, number)?;
    let area = areas.area(place);
    Some((place, area.held, areas.cursor_count(place)))
}

// The cursor of a number, if it goes over records, and if it goes over restart areas: whether there is one.
fn kinds(areas: &Areas, client: u16, number: u16, cursor: u16) -> Option<(bool, bool, bool)> {
    let place = areas.place(client, number)?;
    Some((
        areas.cursor(place, cursor).is_some(),
        areas.over_records(place, cursor).is_some(),
        areas.over_restarts(place, cursor).is_some(),
    ))
}

// The cursor of a number ends.
fn end(areas: &mut Areas, client: u16, number: u16, cursor: u16) {
    if let Some(place) = areas.place(client, number) {
        areas.end_cursor(place, cursor);
    }
}

// New areas: the client, the number that its area gets, and how many cursors it may have.
fn make_all(
    rt: &impl Abort,
    areas: &mut Areas,
    rows: &[(u16, u16, u16)],
) -> Result<(), AllocError> {
    for (client, number, reads) in rows {
        assert!(rt;
            make(areas, *client, *reads)? == *number,
            "area {number} of {client}"
        );
    }
    Ok(())
}

// The sectors that an area holds, and those of them that are spent.
const HELD: [(u16, u16, u32, u32); 4] = [(1, 1, 8, 3), (2, 1, 4, 4), (1, 2, 5, 0), (1, 3, 1, 0)];

// A cursor of an area, and the number that it gets.
const STARTED: [(u16, u16, CursorKind, u16); 7] = [
    (2, 1, FORWARD, 1),
    (1, 3, CursorKind::RestartAreas, 1),
    (2, 1, CursorKind::RestartAreas, 2),
    (2, 1, FORWARD, 0),
    (1, 2, FORWARD, 1),
    (3, 1, FORWARD, 0),
    (1, 3, FORWARD, 2),
];

fn start_all(rt: &impl Abort, areas: &mut Areas) -> Result<(), AllocError> {
    for (client, number, kind, cursor) in STARTED {
        assert!(rt; start(areas, client, number, kind)? == cursor);
    }
    Ok(())
}

// Where an area stands, what it holds, and how many cursors it has.
const TOLD: [(u16, u16, Option<(usize, u32, usize)>); 6] = [
    (1, 1, Some((0, 5, 0))),
    (2, 1, Some((1, 0, 2))),
    (3, 1, Some((2, 0, 0))),
    (1, 3, Some((3, 1, 1))),
    (1, 2, Some((4, 0, 0))),
    (1, 4, None),
];

fn all_are_told(areas: &Areas) -> bool {
    TOLD.iter().all(|(client, number, want)| told(areas, *client, *number) == *want)
}

fn all_kinds_are_told(areas: &Areas) -> bool {
    kinds(areas, 2, 1, 1) == Some((true, true, false))
        && kinds(areas, 1, 3, 1) == Some((true, false, true))
        && kinds(areas, 1, 3, 2) == Some((false, false, false))
}

// Areas of several clients are made, hold sectors, and have cursors.
fn fill(rt: &impl Abort, areas: &mut Areas) -> Result<(), AllocError> {
    make_all(
        rt,
        areas,
        &[(1, 1, 1), (2, 1, 2), (1, 2, 4), (3, 1, 0), (1, 3, 2)],
    )?;
    for (client, number, held, spent) in HELD {
        hold_and_spend(areas, client, number, held, spent);
    }
    assert!(rt; areas.total() == 11);
    start_all(rt, areas)
}

// One area goes, and another gets its number. What isn't there doesn't go.
fn exchange_one(rt: &impl Abort, areas: &mut Areas) -> Result<(), AllocError> {
    areas.delete(1, 2);
    areas.delete(4, 1);
    end(areas, 1, 3, 2);
    make_all(rt, areas, &[(1, 2, 3)])
}

fn delete_all(areas: &mut Areas) {
    for (client, number) in [(1, 1), (2, 1), (3, 1), (1, 3), (1, 2)] {
        areas.delete(client, number);
    }
}

fn check_all(rt: &impl Abort, areas: &mut Areas) -> Result<(), AllocError> {
    fill(rt, areas)?;
    exchange_one(rt, areas)?;
    assert!(rt; all_are_told(areas) && areas.total() == 6);
    assert!(rt; all_kinds_are_told(areas));
    delete_all(areas);
    assert!(rt; told(areas, 1, 1).is_none() && areas.total() == 0);
    Ok(())
}

#[test]
fn areas_of_several_clients(rt: HostRuntime) -> Result<(), AllocError> {
    let mut areas = Areas::new(rt.alloc());
    check_all(&rt, &mut areas)
}
