// What a table answers.
ghost use Rattle.std.specs.Prelude.{◌≡◌};
ghost use Rattle.clfs_cells.specs.declared.told.TxnRefusal.TheVariants.{Log};
ghost use Rattle.clfs_cells.specs.declared.told.TxnLoadRefusal.TheVariants as load_refusals;

use clfs_lsn::Lsn;
use clfs_model::Refusal;
use thiserror::Error;

/// Why a call of a table was refused. After any refusal but a disk fault or damage the table is as it was, except that sets which were taken back
/// before memory ran out stay taken back.
#[derive(Clone, Copy, Debug, PartialEq, Eq, Error)]
pub enum TxnRefusal {
    /// The log refused a call.
    #[error("{0}")]
    Log(Refusal),
    /// No open transaction has the number.
    #[error("no such transaction")]
    NoSuchTxn,
    /// As many transactions are open as can be.
    #[error("{open_now} transactions are open")]
    TxnLimit {
        /// The open transactions.
        open_now: u32,
    },
    /// Another open transaction has set the cell, also where it has taken that back.
    #[error("transaction {txn} holds the cell")]
    CellHeld {
        /// The other transaction.
        txn: u32,
    },
    /// The transaction has made all its sets, those that it took back among them.
    #[error("all {changes} changes are made")]
    ChangesSpent {
        /// The sets for which it was begun.
        changes: u32,
    },
    /// Fewer sets stand than are to be kept.
    #[error("{have} sets stand")]
    KeptTooMany {
        /// The sets that stand.
        have: u32,
    },
    /// No checkpoint is made while transactions are open.
    #[error("{open_now} transactions are open")]
    TxnsOpen {
        /// The open transactions.
        open_now: u32,
    },
    /// The last number of a transaction was given.
    #[error("no number is left")]
    IdsSpent,
}

impl From<Refusal> for TxnRefusal {
    ghost from_gives = { λ r e. e ≡ Log r };

    fn from(refusal: Refusal) -> TxnRefusal {
        TxnRefusal::Log(refusal)
    }
}

/// What a call of a table answers.
#[derive(Clone, Copy, Debug, PartialEq, Eq)]
pub enum TxnReply {
    /// A transaction began, and this is its number.
    Begun(u32),
    /// It was done.
    Done,
    /// The cell's value.
    Value(u64),
    /// It was refused.
    Refused(TxnRefusal),
}

/// Why a table was not loaded.
#[derive(Clone, Copy, Debug, Error)]
pub enum TxnLoadRefusal {
    /// The log refused a call.
    #[error("{0}")]
    Log(Refusal),
    /// A record of the table's stream isn't one of a table: the first above the newest restart area, the restart area itself, or the last record where
    /// there is no restart area.
    #[error("not a table: {lsn}")]
    NotATable {
        /// The record.
        lsn: Lsn,
    },
}

impl From<Refusal> for TxnLoadRefusal {
    ghost from_gives = { λ r e. e ≡ load_refusals.Log r };

    fn from(refusal: Refusal) -> TxnLoadRefusal {
        TxnLoadRefusal::Log(refusal)
    }
}
