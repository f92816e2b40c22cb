// Archiving a log: its whole archive is written, and only then the archive tail moves.
ghost use Rattle.clfs_operations.specs.Archiving.{EndsArchive, NothingFailsArchiving, IsArchivingDone, TellsUnarchived};

use crate::refusing::refused;
use crate::status::{ARCHIVE_TOO_LONG, DISK_FAULT, NOT_ARCHIVED, Outcome};
use clfs_disk::{Disk, calls_join};
use clfs_lines::{DONE, NO_MEMORY, SINK_FAULT, printed, write_all};
use clfs_lsn::Bytes;
use clfs_manager::{LoadRefusal, LoadRefused, Manager};
use clfs_model::Refusal;
use clfs_ports::Sink;
use clfs_recover::files_have_one_meaning;
use clfs_restore::{ArchiveRefusal, move_tail, write_archive};
use std::alloc::Global;

// The blocks that may wait to be written.
const WRITE_BUFFERS: u32 = 4;

// Says why the log gives no archive, and answers the status.
fn refused_by_log<K: Sink>(alloc: Global, sink: &mut K, refusal: Refusal) -> u8
    ensures { TellsUnarchived result (ArchiveRefusal.Log refusal) (K.written sink.old) (K.written sink.new) (K.faults sink.old) (K.faults sink.new) }
{
    match refusal {
        Refusal::Ephemeral => printed(sink, b"archiving is off\n", NOT_ARCHIVED),
        Refusal::Damaged {
            container,
            offset,
            at,
        } => {
            let damage = LoadRefusal::Damaged {
                container,
                offset,
                at,
            };
            refused(alloc, sink, damage)
        }
        _ => printed(sink, b"disk fault\n", DISK_FAULT),
    }
}

// Says why there is no archive, and answers the status.
fn unarchived<K: Sink>(alloc: Global, sink: &mut K, cause: ArchiveRefusal) -> u8
    ensures { TellsUnarchived result cause (K.written sink.old) (K.written sink.new) (K.faults sink.old) (K.faults sink.new) }
{
    match cause {
        ArchiveRefusal::Log(refusal) => refused_by_log(alloc, sink, refusal),
        ArchiveRefusal::TooLong { .. } => printed(sink, b"archive too long\n", ARCHIVE_TOO_LONG),
        ArchiveRefusal::NoMemory => NO_MEMORY,
    }
}

/// Opens the log on a disk, with four write buffers, writes its archive, and moves the archive tail to the LSN below which all is on the disk. The tail
/// moves only once the sink has taken all of the archive.
pub fn archive<K: Sink, D: Disk + Drop>(alloc: Global, sink: &mut K, disk: D) -> Outcome<D>
    ensures ends { EndsArchive result.status (D.state disk) (D.state result.disk) (K.written sink.old) (K.written sink.new)
        (K.faults sink.old) (K.faults sink.new) }
    ensures complete { NothingFailsArchiving (D.state disk) (D.state result.disk) (K.faults sink.old) (K.faults sink.new)
        → IsArchivingDone result.status }
{
    files_have_one_meaning();
    calls_join::<D>();
    let mut manager = match Manager::load(alloc, disk, WRITE_BUFFERS) {
        Ok(manager) => manager,
        Err(LoadRefused { disk, cause }) => {
            let status = refused(alloc, sink, cause);
            return Outcome { status, disk };
        }
    };
    manager.stored();
    let mut bytes = Bytes::new(alloc);
    if let Err(cause) = write_archive(alloc, &mut manager, &mut bytes) {
        let status = unarchived(alloc, sink, cause);
        let disk = manager.close();
        return Outcome { status, disk };
    }
    if let Err(_) = write_all(sink, bytes.as_slice()) {
        let disk = manager.close();
        return Outcome {
            status: SINK_FAULT,
            disk,
        };
    }
    let status = match move_tail(&mut manager) {
        Ok(()) => DONE,
        Err(_) => printed(sink, b"disk fault\n", DISK_FAULT),
    };
    manager.stored();
    let disk = manager.close();
    Outcome { status, disk }
}
