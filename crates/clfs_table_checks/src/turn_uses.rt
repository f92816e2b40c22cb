// Two real threads beside the test's own write into one diary, and each is joined.
use clfs_turn_uses::two_writers;
use std::alloc::AllocError;

/// How many notes each thread writes.
const NOTES: u64 = 200;

#[test]
fn two_threads_write_one_history(rt: HostRuntime) -> Result<(), AllocError> {
    let diary = two_writers(&rt, rt.alloc(), NOTES)?;
    let mut next = [0; 2];
    for note in &diary.notes {
        let place = if note.client == 3 { 0 } else { 1 };
        assert!(&rt; note.number == next[place]);
        next[place] = note.number.wrapping_add(1);
    }
    assert!(&rt; next == [NOTES; 2]);
    Ok(())
}
