// The answer to one line, by a store of a table.
ghost use Rattle.std.specs.Prelude.{◌≡◌, ◌≤◌, length, Ok};
ghost use Rattle.clfs_cells.specs.Lines.{txn_call_in};
ghost use Rattle.clfs_cells.specs.declared.told.TxnReply.TheVariants as replies;
ghost use Rattle.clfs_txn.specs.Calls.{replied};
ghost use Rattle.clfs_txn_script.specs.Asked.{IsInRange};
ghost use Rattle.clfs_operations.specs.TableAnswered.{AnswersAsked};

use clfs_cells::{TxnCall, TxnRefusal, TxnReply};
use clfs_cells_laws::only_faults_break_a_store;
use clfs_disk::Disk;
use clfs_lines::Answering;
use clfs_lsn::Bytes;
use clfs_model::Refusal;
use clfs_race::without_return;
use clfs_txn::TxnStore;
use clfs_txn_script::{parse_txn_line, write_txn_reply};
use std::alloc::{AllocError, Global};

// The reply to a transaction's beginning.
fn begun(answer: Result<u32, TxnRefusal>) -> TxnReply
    ensures { result ≡ replied replies.Begun answer }
{
    match answer {
        Ok(txn) => TxnReply::Begun(txn),
        Err(refusal) => TxnReply::Refused(refusal),
    }
}

// The reply to a call that answers nothing else.
fn done(answer: Result<(), TxnRefusal>) -> TxnReply
    ensures { result ≡ replied (λ _. replies.Done) answer }
{
    match answer {
        Ok(()) => TxnReply::Done,
        Err(refusal) => TxnReply::Refused(refusal),
    }
}

// The reply to a call.
fn reply_to<D: Disk>(store: &mut TxnStore<D>, call: TxnCall) -> TxnReply
    requires { IsInRange call }
    ensures { AnswersAsked store.old.0 (D.state store.old.1) (Ok call) result store.new.0 (D.state store.new.1) }
{
    only_faults_break_a_store();
    match call {
        TxnCall::Begin { changes } => begun(store.begin(changes)),
        TxnCall::Set { txn, cell, value } => done(store.set(txn, cell, value)),
        TxnCall::Back { txn, kept } => done(store.back(txn, kept)),
        TxnCall::Commit { txn } => done(store.commit(txn)),
        TxnCall::Rollback { txn } => done(store.rollback(txn)),
        TxnCall::Get { cell } => TxnReply::Value(store.get(cell)),
        TxnCall::Checkpoint => done(store.checkpoint()),
    }
}

// The reply to a line without its carriage return.
fn reply_to_line<D: Disk>(store: &mut TxnStore<D>, line: &[u8]) -> TxnReply
    requires { length line.now ≤ 4294967295 }
    ensures { AnswersAsked store.old.0 (D.state store.old.1) (txn_call_in line.now) result store.new.0 (D.state store.new.1) }
{
    match parse_txn_line(line) {
        Ok(call) => reply_to(store, call),
        Err(bad) => TxnReply::Refused(TxnRefusal::Log(Refusal::BadLine { at: bad.at })),
    }
}

/// A store of a table that answers the lines of a script.
#[derive(Drop)]
pub struct TableLines<D: Disk> {
    /// The store.
    pub store: TxnStore<D>,
}

impl<D: Disk> Answering for TableLines<D> {
    ghost use Rattle.clfs_operations.specs.TableAnswered.{AnswersTable};

    ghost answers = { λ a line reply b. AnswersTable a.store.0 (D.state a.store.1) line reply b.store.0 (D.state b.store.1) };

    fn answer(&mut self, _alloc: Global, line: &[u8], out: &mut Bytes) -> Result<(), AllocError> {
        let reply = reply_to_line(&mut self.store, without_return(line));
        write_txn_reply(&reply, out)
    }
}
