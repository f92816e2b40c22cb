// Restoring a log of archives. Whether a log is there is looked for before they are read.
ghost use Rattle.std.specs.Prelude.{◌≡◌, ◌≢◌, ◌≤◌, ℕ, Some, IfOk, IfErr};
ghost use Rattle.clfs_disk.specs.State.{TellsContents, Rises};
ghost use Rattle.clfs_format.specs.Making.{open_slot_of};
ghost use Rattle.clfs_operations.specs.Restoring.{IsInput, IsUnread, TellsUnread, TellsRestoreRefusal, restore_refusal_line, restore_refusal_status, EndsRestore, NothingFailsRestoring, IsRestoringDone};

use crate::refusing::push_number;
use crate::status::{ARCHIVE_GAP, DISK_FAULT, EXISTS, NOT_AN_ARCHIVE, Outcome, UP_TO_OUTSIDE};
use clfs_disk::Disk;
use clfs_lines::{DONE, INPUT_TOO_LONG, NO_MEMORY, SOURCE_FAULT, printed};
use clfs_lsn::{Bytes, Lsn};
use clfs_ports::{Sink, Source};
use clfs_race::{Stop, take_bytes};
use clfs_restore::{
    RestoreRefusal, RestoreRefused, cause_after_fault, first_open_slot, reads_may_come_first,
};
use clfs_text::{push_decimal, push_lsn};
use std::alloc::{AllocError, Global};

// The most bytes that archives may have together.
const MOST_BYTES: usize = 67108864;

// The line for an input that isn't one or more archives.
fn wrong_byte_text(alloc: Global, at: u64) -> Result<Bytes, AllocError>
    ensures { IfOk result (λ text. text ≡ restore_refusal_line (RestoreRefusal.NotAnArchive at)) }
{
    let mut text = Bytes::new(alloc);
    text.extend_from_slice(b"not an archive: byte ")?;
    push_decimal(at, &mut text)?;
    text.extend_from_slice(b"\n")?;
    Ok(text)
}

// The line for a container that no archive has.
fn gap_text(alloc: Global, container: u32) -> Result<Bytes, AllocError>
    ensures { IfOk result (λ text. text ≡ restore_refusal_line (RestoreRefusal.Gap container)) }
{
    let mut text = Bytes::new(alloc);
    push_number(b"archive gap: container ", container, &mut text)?;
    text.extend_from_slice(b"\n")?;
    Ok(text)
}

// The line for an LSN up to which a log can't be restored.
fn outside_text(alloc: Global, low: Lsn, high: Lsn) -> Result<Bytes, AllocError>
    ensures { IfOk result (λ text. text ≡ restore_refusal_line (RestoreRefusal.UpToInvalid low high)) }
{
    let mut text = Bytes::new(alloc);
    text.extend_from_slice(b"up-to outside ")?;
    push_lsn(low, &mut text)?;
    text.extend_from_slice(b" to ")?;
    push_lsn(high, &mut text)?;
    text.extend_from_slice(b"\n")?;
    Ok(text)
}

// Writes the line that was made for a cause, and answers the status, unless memory ran out for the line.
fn printed_refusal<K: Sink>(
    sink: &mut K,
    cause: RestoreRefusal,
    line: Result<Bytes, AllocError>,
    status: u8,
) -> u8
    requires line { IfOk line (λ text. text ≡ restore_refusal_line cause) }
    requires status { status ≡ restore_refusal_status cause }
    requires other { (status ≢ 3) × (status ≢ 5) }
    requires calm { cause ≢ RestoreRefusal.DiskFault }
    ensures { TellsRestoreRefusal result cause (K.written sink.old) (K.written sink.new) (K.faults sink.old) (K.faults sink.new) }
{
    match line {
        Ok(text) => printed(sink, text.as_slice(), status),
        Err(_) => NO_MEMORY,
    }
}

// Says why nothing is restored, and answers the status.
fn refused_restore<K: Sink>(alloc: Global, sink: &mut K, cause: RestoreRefusal) -> u8
    ensures { TellsRestoreRefusal result cause (K.written sink.old) (K.written sink.new) (K.faults sink.old) (K.faults sink.new) }
{
    match cause {
        RestoreRefusal::Exists { .. } => printed(sink, b"a log is there\n", EXISTS),
        RestoreRefusal::NotAnArchive { at } => {
            printed_refusal(sink, cause, wrong_byte_text(alloc, at), NOT_AN_ARCHIVE)
        }
        RestoreRefusal::Gap { container } => {
            printed_refusal(sink, cause, gap_text(alloc, container), ARCHIVE_GAP)
        }
        RestoreRefusal::UpToInvalid { low, high } => {
            printed_refusal(sink, cause, outside_text(alloc, low, high), UP_TO_OUTSIDE)
        }
        RestoreRefusal::DiskFault => printed(sink, b"disk fault\n", DISK_FAULT),
        RestoreRefusal::NoMemory => NO_MEMORY,
    }
}

/// Why no archives were read.
#[derive(Clone, Copy)]
enum Unread {
    /// The source failed.
    SourceFault,
    /// There are more bytes than archives may have.
    TooLong,
    /// Memory ran out.
    NoMemory,
}

// All that the source gives.
fn read_input<S: Source>(alloc: Global, source: &mut S) -> Result<Vec<u8>, Unread>
    ensures input { IfOk result (λ bytes. IsInput (S.left source.old) (S.left source.new) bytes.items) }
    ensures unread { IfErr result (λ cause. IsUnread cause (S.left source.old) (S.left source.new) (S.faults source.old) (S.faults source.new)) }
    ensures count { S.faults source.old ≤ S.faults source.new }
{
    let mut bytes = Vec::new(alloc);
    let Ok(stop) = take_bytes(alloc, source, MOST_BYTES, &mut bytes) else {
        return Err(Unread::NoMemory);
    };
    if bytes.len() > MOST_BYTES {
        return Err(Unread::TooLong);
    }
    match stop {
        Stop::Done => Ok(bytes),
        Stop::Fault => Err(Unread::SourceFault),
    }
}

// Says why no archives were read, and answers the status.
fn printed_unread<K: Sink>(sink: &mut K, cause: Unread) -> u8
    ensures { TellsUnread result cause (K.written sink.old) (K.written sink.new) (K.faults sink.old) (K.faults sink.new) }
{
    match cause {
        Unread::SourceFault => SOURCE_FAULT,
        Unread::TooLong => printed(sink, b"input too long\n", INPUT_TOO_LONG),
        Unread::NoMemory => NO_MEMORY,
    }
}

/// Restores a log of the archives that the source gives, up to an LSN or as far as they reach, on a disk on which no log is. They have at most
/// 67,108,864 bytes together, and aren't read if a log is there.
pub fn restore<S: Source, K: Sink, D: Disk + Drop>(
    alloc: Global,
    up_to: Option<Lsn>,
    source: &mut S,
    sink: &mut K,
    disk: D,
) -> Outcome<D>
    ensures ends { EndsRestore up_to result.status (D.state disk) (D.state result.disk) (S.left source.old) (S.left source.new)
        (K.written sink.old) (K.written sink.new) (S.faults source.old) (S.faults source.new) (K.faults sink.old) (K.faults sink.new) }
    // It looks for a log before it takes memory.
    ensures looks { TellsContents (D.state disk) → (slot : ℕ) → open_slot_of ((D.state disk).files 0) ≡ Some slot
        → result.status ≡ 5 → Rises (D.state disk).faults (D.state result.disk).faults }
    ensures complete { NothingFailsRestoring (D.state disk) (D.state result.disk) (S.faults source.old) (S.faults source.new)
        (K.faults sink.old) (K.faults sink.new) → IsRestoringDone result.status }
{
    reads_may_come_first::<D>();
    let mut disk = disk;
    let failed = match first_open_slot(&mut disk) {
        Ok(Some(_)) => {
            let status = printed(sink, b"a log is there\n", EXISTS);
            return Outcome { status, disk };
        }
        Ok(None) => false,
        Err(_) => true,
    };
    let archives = match read_input(alloc, source) {
        Ok(archives) => archives,
        Err(cause) => {
            let status = printed_unread(sink, cause);
            return Outcome { status, disk };
        }
    };
    if failed {
        let cause = cause_after_fault(alloc, &archives, up_to);
        let status = refused_restore(alloc, sink, cause);
        return Outcome { status, disk };
    }
    match clfs_restore::restore(alloc, disk, &archives, up_to) {
        Ok(disk) => Outcome {
            status: printed(sink, b"restored\n", DONE),
            disk,
        },
        Err(RestoreRefused { disk, cause }) => Outcome {
            status: refused_restore(alloc, sink, cause),
            disk,
        },
    }
}
