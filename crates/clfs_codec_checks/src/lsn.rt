ghost use Rattle.std.specs.Prelude.{◌<◌, ◌^◌, IfOk, length};

use clfs_lsn::{
    Bytes, Kind, LogEntry, Lsn, Place, Shape, frontier, head_of, longest, own, place_after, sealed,
};
use std::alloc::{AllocError, Global};

const SHAPE: Shape = Shape {
    block_sectors: 2,
    container_sectors: 8,
};

// An LSN has this text.
fn is_written(alloc: Global, lsn: Lsn, want: &str) -> Result<bool, AllocError> {
    let text = lsn.to_string(alloc)?;
    Ok(text.as_str() == want)
}

#[test]
fn sizes_of_records_and_the_text_of_an_lsn(rt: HostRuntime) -> Result<(), AllocError> {
    for (len, want) in [(0, 1), (456, 1), (457, 2), (960, 2), (u32::MAX, 8521761)] {
        assert!(rt; own(len) == want, "at {len}");
    }
    assert!(rt; longest(&SHAPE) == 960);
    assert!(rt; is_written(rt.alloc(), Lsn::from_parts(3, 1024, 5), "3:400:5")?);
    Ok(())
}

// The highest LSN has no next one.
fn is_last(lsn: Lsn) -> bool {
    lsn == Lsn::of_number(u64::MAX) && lsn.next().is_none()
}

#[test]
fn parts_that_are_no_lsn(rt: HostRuntime) {
    for (offset, sequence) in [(1, 0), (256, 0), (511, 0), (0, 512), (512, 512)] {
        assert!(rt;
            Lsn::create(1, offset, sequence).is_none(),
            "{offset} {sequence}"
        );
    }
    assert!(rt; Lsn::create(u32::MAX, 0xffff_fe00, 511).is_some_and(|last| is_last(last)));
}

// A block with one small record.
const SMALL: Place = Place {
    container: 1,
    offset: 0,
    used: 56,
    records: 1,
};

// One sector is left after it.
const FULL: Place = Place {
    container: 1,
    offset: 2560,
    used: 1008,
    records: 1,
};

#[test]
fn places_of_records(rt: HostRuntime) -> Result<(), AllocError> {
    let alloc = rt.alloc();
    let (joins, _) = place_after(&SHAPE, &SMALL, 1);
    assert!(rt; is_written(alloc, joins, "1:0:1")?);
    let (behind, _) = place_after(&SHAPE, &SMALL, 960);
    assert!(rt; is_written(alloc, behind, "1:200:0")?);
    // The record wants two sectors.
    let (next, _) = place_after(&SHAPE, &FULL, 960);
    assert!(rt; is_written(alloc, next, "2:0:0")?);
    assert!(rt; is_written(alloc, frontier(&sealed(&FULL)), "1:e00:0")?);
    Ok(())
}

fn restart_area(alloc: Global, lsn: Lsn) -> Result<LogEntry, AllocError>
    ensures { IfOk result (λ entry. length entry.bytes < 2 ^ 32) }
{
    Ok(LogEntry {
        lsn,
        stream: 3,
        kind: Kind::Restart,
        previous: Lsn::null(),
        undo_next: Lsn::null(),
        new_base: lsn,
        bytes: Bytes::from_vec(Vec::from_slice(alloc, b"area")?),
    })
}

#[test]
fn a_head_has_all_but_the_data(rt: HostRuntime) -> Result<(), AllocError> {
    let lsn = Lsn::of_number(1 << 32);
    let entry = restart_area(rt.alloc(), lsn)?;
    let head = head_of(&entry);
    assert!(rt; head.lsn == lsn && head.new_base == lsn);
    assert!(rt; head.stream == 3 && head.kind == Kind::Restart && head.len == 4);
    Ok(())
}
