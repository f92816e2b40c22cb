// A table in its log: the log, what is kept beside it, and whether the log is broken. What is always true of it holds after each call of the log too, where a
// store's call may have made some of its calls and not the others. Contracts see the log's state, what is kept beside it, and the disk.
ghost use Rattle.std.specs.Prelude.{◌≡◌, ◌<◌, Bool, slice_index};
ghost use Rattle.clfs_model.specs.Run.{bad_line};
ghost use Rattle.clfs_manager.specs.Crashes.{CrashSurvives};
ghost use Rattle.clfs_cells.specs.declared.asked.TxnCall.TheVariants as asked;
ghost use Rattle.clfs_cells.specs.declared.told.TxnReply.TheVariants as replies;
ghost use Rattle.clfs_cells.specs.Calls.{TxnStep};
ghost use Rattle.clfs_cells_laws.specs.Tables.{HasNumbers};

use clfs_cells::Memory;
use clfs_disk::Disk;
use clfs_manager::Manager;
use std::alloc::Global;
use std::marker::Model;

// A table of 32 cells in a log, with transactions.
#[derive(Drop)]
pub(crate) struct TableLog<D: Disk> {
    pub(crate) alloc: Global,
    pub(crate) manager: Manager<D>,
    pub(crate) memory: Memory,
    // Whether an earlier call of the log met a fault of the disk or damage.
    pub(crate) broken: bool,
}

impl<D: Disk> Model for TableLog<D> {
    ghost use Rattle.clfs_cells.specs.Stored.{Store};
    ghost use Rattle.clfs_txn.specs.Kept.{IsKept, store_of};

    ghost Value = { Store × D };

    ghost view = { λ t. (store_of t.manager.0 t.memory, t.manager.1) };

    ghost invariant = { λ t. IsKept t.manager.0 t.memory t.broken };
}

impl<D: Disk> TableLog<D> {
    // The value that is kept of a cell.
    pub(crate) fn get(&self, cell: u16) -> u64
        requires { cell < 32 }
        ensures value { result ≡ slice_index self.now.0.memory.cells cell }
        ensures step { (told : Bool) → TxnStep told self.now.0 (asked.Get cell) (replies.Value result) self.now.0 }
    {
        self.memory.cell(cell)
    }

    // What a crash leaves now: what survives where nothing is asked.
    pub(crate) fn stored(&self)
        ensures survives { CrashSurvives (bad_line 0) self.now.0.log (D.state self.now.1) (D.state self.now.1) }
    {
        self.manager.stored();
    }

    // The numbers that are kept are such as their types have.
    pub(crate) fn numbers(&self)
        ensures { HasNumbers self.now.0.memory }
    {
        let checkpoint = self.memory.checkpoint();
        let _cells = checkpoint.cells;
        let _last = checkpoint.last;
    }

    // The log given back.
    pub(crate) fn close(self) -> Manager<D>
        ensures log { result.0 ≡ self.0.log }
        ensures disk { result.1 ≡ self.1 }
    {
        let TableLog {
            alloc: _,
            manager,
            memory: _,
            broken: _,
        } = self;
        manager
    }
}
