// What is asked of a table.

/// A call of a table. A transaction is named by the number that its beginning gave it.
#[derive(Clone, Copy, Debug, PartialEq, Eq)]
pub enum TxnCall {
    /// A transaction begins.
    Begin {
        /// The most sets that it makes, 1 to 7. The log holds room for all of them and for taking them back.
        changes: u16,
    },
    /// A transaction sets a cell.
    Set {
        /// The transaction.
        txn: u32,
        /// The cell, 0 to 31.
        cell: u16,
        /// Its value from then on.
        value: u64,
    },
    /// A transaction's sets are taken back, the newest first.
    Back {
        /// The transaction.
        txn: u32,
        /// How many sets stay.
        kept: u16,
    },
    /// What a transaction did is to stay.
    Commit {
        /// The transaction.
        txn: u32,
    },
    /// All that a transaction did is taken back, and it ends.
    Rollback {
        /// The transaction.
        txn: u32,
    },
    /// A cell's value.
    Get {
        /// The cell, 0 to 31.
        cell: u16,
    },
    /// A restart area with all cells, above which alone the log is read after that.
    Checkpoint,
}
