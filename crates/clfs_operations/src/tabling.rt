// Serving a table of cells: the log is opened, its table is loaded, and the script is answered while it comes.
ghost use Rattle.std.specs.Prelude.{◌≡◌, ◌≢◌, IfOk};
ghost use Rattle.clfs_operations.specs.Complete.{NothingFailsServing};
ghost use Rattle.clfs_operations.specs.Txn.{EndsTxn, TableComesThrough, TellsTableRefusal, table_refusal_line, table_refusal_status};

use crate::refusing::refused;
use crate::serving::LONGEST_SCRIPT;
use crate::status::{DISK_FAULT, NOT_A_TABLE, Outcome, REFUSED};
use crate::table_lines::TableLines;
use clfs_cells::TxnLoadRefusal;
use clfs_cells_laws::{crashes_leave_the_table, only_faults_break_a_store};
use clfs_disk::Disk;
use clfs_lines::{IncompleteLine, NO_MEMORY, answered, printed};
use clfs_lsn::Bytes;
use clfs_manager::{LoadRefused, Manager};
use clfs_model::Refusal;
use clfs_ports::{Sink, Source};
use clfs_recover::files_have_one_meaning;
use clfs_script::push_refusal;
use clfs_text::push_lsn;
use clfs_txn::{TxnLoadRefused, TxnStore};
use std::alloc::{AllocError, Global};

// The blocks that may wait to be written, and the client that the table's calls are of.
const WRITE_BUFFERS: u32 = 4;

const CLIENT: u16 = 1;

// The line that says why a table isn't loaded.
fn refusal_text(alloc: Global, cause: &TxnLoadRefusal) -> Result<Bytes, AllocError>
    ensures { IfOk result (λ text. text ≡ table_refusal_line cause.now) }
{
    let mut text = Bytes::new(alloc);
    match *cause {
        TxnLoadRefusal::NotATable { lsn } => {
            text.extend_from_slice(b"not a table: ")?;
            push_lsn(lsn, &mut text)?;
        }
        TxnLoadRefusal::Log(Refusal::DiskFault) => {
            text.extend_from_slice(b"disk fault")?;
        }
        TxnLoadRefusal::Log(ref refusal) => {
            text.extend_from_slice(b"refused ")?;
            push_refusal(refusal, &mut text)?;
        }
    }
    text.extend_from_slice(b"\n")?;
    Ok(text)
}

// Writes the line, and answers the status, unless memory runs out before it is there.
fn printed_refusal<K: Sink>(alloc: Global, sink: &mut K, cause: &TxnLoadRefusal, status: u8) -> u8
    requires status { status ≡ table_refusal_status cause.now }
    requires other { (status ≢ 3) × (status ≢ 5) }
    ensures { TellsTableRefusal result cause.now (K.written sink.old) (K.written sink.new) (K.faults sink.old) (K.faults sink.new) }
{
    match refusal_text(alloc, cause) {
        Ok(text) => printed(sink, text.as_slice(), status),
        Err(_) => NO_MEMORY,
    }
}

// Says why a table isn't loaded, and answers the status.
fn refused_table<K: Sink>(alloc: Global, sink: &mut K, cause: &TxnLoadRefusal) -> u8
    ensures { TellsTableRefusal result cause.now (K.written sink.old) (K.written sink.new) (K.faults sink.old) (K.faults sink.new) }
{
    match cause {
        TxnLoadRefusal::NotATable { .. } => printed_refusal(alloc, sink, cause, NOT_A_TABLE),
        TxnLoadRefusal::Log(Refusal::NoMemory) => NO_MEMORY,
        TxnLoadRefusal::Log(Refusal::DiskFault) => printed_refusal(alloc, sink, cause, DISK_FAULT),
        TxnLoadRefusal::Log(_) => printed_refusal(alloc, sink, cause, REFUSED),
    }
}

/// Opens the log on a disk, with four write buffers, loads its table, answers the script that the source gives, one reply for each line, and says how it
/// ended. A script has at most 67,108,864 bytes, and a line at most 131,072 without its line feed.
pub fn txn<S: Source, K: Sink, D: Disk + Drop>(
    alloc: Global,
    source: &mut S,
    sink: &mut K,
    disk: D,
) -> Outcome<D>
    ensures ends { EndsTxn result.status (D.state disk) (D.state result.disk) (S.left source.old) (S.left source.new)
        (K.written sink.old) (K.written sink.new) (S.faults source.old) (S.faults source.new) (K.faults sink.old) (K.faults sink.new) }
    ensures complete { NothingFailsServing (D.state disk) (D.state result.disk) (S.left source.old) (S.faults source.old) (S.faults source.new)
        (K.faults sink.old) (K.faults sink.new) → TableComesThrough result.status (D.state disk) (D.state result.disk)
        (S.left source.old) (S.left source.new) (K.written sink.old) (K.written sink.new) }
{
    crashes_leave_the_table();
    files_have_one_meaning();
    only_faults_break_a_store();
    let manager = match Manager::load(alloc, disk, WRITE_BUFFERS) {
        Ok(manager) => manager,
        Err(LoadRefused { disk, cause }) => {
            let status = refused(alloc, sink, cause);
            return Outcome { status, disk };
        }
    };
    manager.stored();
    match TxnStore::load(alloc, manager, CLIENT) {
        Ok(store) => {
            let mut lines = TableLines { store };
            let status = answered(
                alloc,
                &mut lines,
                LONGEST_SCRIPT,
                IncompleteLine::Counts,
                source,
                sink,
            );
            let manager = lines.store.close();
            manager.stored();
            Outcome {
                status,
                disk: manager.close(),
            }
        }
        Err(TxnLoadRefused { manager, cause }) => {
            manager.stored();
            Outcome {
                status: refused_table(alloc, sink, &cause),
                disk: manager.close(),
            }
        }
    }
}
