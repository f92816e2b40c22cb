// The records of a table above its newest restart area, as they are read one after the other, and the table that they make of the restart area.
// Which transactions were committed is known only at the end, so all records are kept until then; a set of those that were makes one more look at
// each record enough.
ghost use Rattle.std.specs.Prelude.{◌≡◌, [], ◌∷◌, ◌++◌, OnOk, if◌then◌else◌, max};
ghost use Rattle.clfs_cells.specs.Loading.{replayed};
ghost use Rattle.clfs_cells.specs.Table.{after_action, is_commit, is_committed};

use crate::checkpoint::{CELLS, Checkpoint};
use crate::row::{Action, TxnRecord};
use std::alloc::{AllocError, Global};
use std::collections::HashSet;
use std::marker::Model;

/// The records of a table above a restart area, in their order.
#[derive(Drop)]
pub struct Replay {
    records: Vec<TxnRecord>,
    // The transactions that have a commit among them.
    committed: HashSet<u32>,
}

impl Model for Replay {
    ghost use Rattle.std.specs.Prelude.{List};
    ghost use Rattle.clfs_cells.specs.declared.row.TxnRecord.{TxnRecord as Row};
    ghost use Rattle.clfs_cells.specs.Kept.{KnowsCommits};

    ghost Value = { List Row };

    ghost view = { λ r. r.records.items };

    ghost invariant = { λ r. KnowsCommits r.records.items r.committed };
}

impl Action {
    // Whether it is the end of a transaction that counts.
    fn is_commit(&self) -> bool
        ensures { result ≡ is_commit self.now }
    {
        matches!(self, Action::Commit)
    }

    // Its cell has the value after, where there is such a cell.
    fn apply(&self, cells: &mut [u64; CELLS])
        ensures { cells.new ≡ after_action cells.old self.now }
    {
        if let Action::Set(change) | Action::Compensation(change) = self {
            let cell = change.cell as usize;
            if cell < CELLS {
                cells[cell] = change.new;
            }
        }
    }
}

impl Replay {
    /// No records.
    pub fn new(alloc: Global) -> Replay
        ensures { result ≡ [] }
    {
        Replay {
            records: Vec::new(alloc),
            committed: HashSet::new(alloc),
        }
    }

    /// The next record. If memory runs out there is none more.
    pub fn add(&mut self, row: TxnRecord) -> Result<(), AllocError>
        ensures added { OnOk result (self.new ≡ self.old ++ row ∷ []) }
    {
        self.records.push(row)?;
        if row.action.is_commit() {
            if self.committed.insert(row.txn).is_err() {
                self.records.pop();
                return Err(AllocError);
            }
        }
        Ok(())
    }

    // What a restart area says after one more of these records.
    fn with_row(&self, table: Checkpoint, row: &TxnRecord) -> Checkpoint
        ensures cells { result.cells ≡ (if is_committed self.now row.now.txn then after_action table.cells row.now.action else table.cells) }
        ensures last { result.last ≡ max table.last row.now.txn }
    {
        let mut next = table;
        if self.committed.contains(&row.txn) {
            row.action.apply(&mut next.cells);
        }
        next.last = table.last.max(row.txn);
        next
    }

    /// What a restart area says after these records: the cells changed by what was committed, and the greatest number of a transaction.
    pub fn replayed(&self, checkpoint: &Checkpoint) -> Checkpoint
        ensures { result ≡ replayed checkpoint.now self.now }
    {
        let mut table = *checkpoint;
        for row in &self.records {
            table = self.with_row(table, row);
        }
        table
    }
}
