//! A table of cells with transactions, as records of a log: definitions, and the bytes of its records.
//!
//! The table is kept by a stream of its own. A set, the compensation of a set, and the end of a transaction are a record each; a restart area has
//! all cells. `specs/Layout.antt` spells these byte by byte. `specs/Table.antt` says what a log's table is: the cells of the newest restart area,
//! changed by what was committed after it. A record that isn't on the disk isn't among those of a log that is opened after a crash, so what it
//! committed doesn't count there. `specs/Stored.antt`, `Plans.antt`, `Calls.antt` and `Loading.antt` say what a store of such a table
//! keeps beside the log, and which calls of the log each of its calls makes, one after the other. `specs/Lines.antt` has the text of its
//! calls and replies. No log and no disk is called here; who keeps a table in a log shows that it does what these definitions say.
#![tactic(auto)]

mod asked;
mod begun;
mod checkpoint;
mod dialogues;
mod laws;
mod layouts;
mod memory;
mod replay;
mod row;
mod tables;
mod told;
mod transaction;

pub use asked::TxnCall;
pub use begun::{MOST_CHANGES, Made, Transaction};
pub use checkpoint::{CELLS, CHECKPOINT_BYTES, Checkpoint};
pub use dialogues::{
    checkpoints, numbers_of_transactions, order_of_refusals, room_for_transactions,
    sets_that_were_taken_back, two_days, want_of_memory,
};
pub use laws::{
    checkpoints_are_read_as_written, computed_ends_are_carried_out, records_are_read_as_written,
};
pub use layouts::{bytes_of_records, bytes_of_restart_areas, lines_of_tables};
pub use memory::{MOST_TRANSACTIONS, Memory};
pub use replay::Replay;
pub use row::{Action, Change, RECORD_BYTES, TxnRecord};
pub use tables::{
    committed_cells, refusals_of_the_log, streams_of_others, tables_of_others, what_is_loaded,
};
pub use told::{TxnLoadRefusal, TxnRefusal, TxnReply};
