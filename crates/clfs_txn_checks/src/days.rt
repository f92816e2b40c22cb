// A day with a table, and the next one after its log was closed: what was committed is there, and a number that never reached the disk is given again.
ghost use Rattle.std.specs.Prelude.{◌≡◌, [], IfSome};
ghost use Rattle.clfs_model.specs.State.{areas_of};

use clfs_cells::TxnRefusal;
use clfs_disk::Memory;
use clfs_lsn::Shape;
use clfs_manager::Manager;
use clfs_txn::TxnStore;
use std::alloc::Global;

const SHAPE: Shape = Shape {
    block_sectors: 1,
    container_sectors: 16,
};

type Store = TxnStore<Memory>;

fn new_log(alloc: Global) -> Option<Memory> {
    let disk = Memory::new(alloc, 128, 65536, &[]).ok()?;
    Manager::format(alloc, disk, SHAPE, 4, false).ok()
}

fn opened(alloc: Global, disk: Memory) -> Option<Manager<Memory>>
    ensures { IfSome result (λ manager. areas_of manager.0 1 ≡ []) }
{
    Manager::load(alloc, disk, 4).ok()
}

fn loaded(alloc: Global, disk: Memory) -> Option<Store> {
    TxnStore::load(alloc, opened(alloc, disk)?, 1).ok()
}

// A transaction that takes a set back and is committed.
fn commits(store: &mut Store) -> bool {
    store.begin(2) == Ok(1)
        && store.set(1, 0, 5) == Ok(())
        && store.set(1, 0, 7) == Ok(())
        && store.back(1, 1) == Ok(())
        && store.get(0) == 5
        && store.commit(1) == Ok(())
}

// One that is rolled back.
fn rolls_back(store: &mut Store) -> bool {
    store.begin(1) == Ok(2)
        && store.set(2, 0, 9) == Ok(())
        && store.get(0) == 9
        && store.rollback(2) == Ok(())
        && store.get(0) == 5
}

fn first_day(alloc: Global) -> Option<(bool, Memory)> {
    let mut store = loaded(alloc, new_log(alloc)?)?;
    let right = commits(&mut store) && rolls_back(&mut store);
    Some((right, store.close().close()))
}

// The next day's refusals, each with what it tells.
fn refuses(store: &mut Store) -> bool {
    store.set(3, 3, 1) == Err(TxnRefusal::CellHeld { txn: 2 })
        && store.set(2, 4, 1) == Err(TxnRefusal::ChangesSpent { changes: 1 })
        && store.back(2, 2) == Err(TxnRefusal::KeptTooMany { have: 1 })
        && store.checkpoint() == Err(TxnRefusal::TxnsOpen { open_now: 2 })
        && store.commit(9) == Err(TxnRefusal::NoSuchTxn)
}

fn second_day(alloc: Global, disk: Memory) -> Option<bool> {
    let mut store = loaded(alloc, disk)?;
    let begins = store.get(0) == 5 && store.begin(1) == Ok(2) && store.begin(1) == Ok(3);
    let right = begins && store.set(2, 3, 1) == Ok(()) && refuses(&mut store);
    let _disk = store.close().close();
    Some(right)
}

fn two_days(alloc: Global) -> Option<(bool, bool)> {
    let (first, disk) = first_day(alloc)?;
    Some((first, second_day(alloc, disk)?))
}

#[test]
fn two_days_with_a_table(rt: HostRuntime) {
    assert!(rt; two_days(rt.alloc()) == Some((true, true)));
}
