// Getting a record by its head. One that waits has its data in the queue, and needs nothing of the disk. One that is on the disk is read with
// its whole block, from the file in which its container lies by the newest base copy: a live record lies in the hold's container or above
// it, and all containers from there on are listed. A block that was read is kept, and serves the records beside it.
//
// A fault of the disk and damage break the log: its state is broken from then on, and so is the log.
ghost use Rattle.std.specs.Prelude.{◌≡◌, ◌+◌, ◌<◌, ◌≤◌, nat_lt, true, length, Ok, IfOk, IsSome, OnOk, OnErr};
ghost use Rattle.clfs_manager.specs.Machine.{container_of, flushed, head_of, LogEntry, most_data};
ghost use Rattle.clfs_disk.specs.State.{TellsContents};
ghost use Rattle.clfs_base.specs.Spelling.{IsImage};
ghost use Rattle.clfs_buffers.specs.Buffered.{kept_at};
ghost use Rattle.clfs_buffers.specs.Reading.{Gives, block_place};
ghost use Rattle.clfs_recover.specs.Reading.{file_of};
ghost use Rattle.clfs_manager.specs.Memory.{IsSound};
ghost use Rattle.clfs_manager.specs.OnDisk.{IsOpen};
ghost use Rattle.clfs_manager.specs.Fetching.{IsNeeded, IsNeededHead, LeavesState, refused_as};
ghost use Rattle.clfs_manager.specs.Reading.{GetsRecord, ReadsBlock};

use crate::log::{Log, shape_of};
use clfs_archive::Archive;
use clfs_base::BaseImage;
use clfs_buffers::{ReadRefusal, changes_keep_blocks};
use clfs_disk::Disk;
use clfs_laws::numbers_fit_their_types;
use clfs_lsn::{Bytes, Head, LogEntry, Lsn};
use clfs_model::Refusal;
use clfs_recover::stored_records_are_read;
use std::alloc::AllocError;

// Tells why a block wasn't read. Where the disk failed or gave what isn't a log's, the log is broken.
fn refuse(log: &mut Log, lsn: Lsn, refusal: ReadRefusal) -> Refusal
    ensures refusal { result ≡ refused_as lsn refusal }
    ensures state { LeavesState result log.old.state.value log.new.state.value }
    ensures memory { result ≡ Refusal.NoMemory → log.new ≡ log.old }
    ensures broken { (result ≡ Refusal.NoMemory → ⊥) → log.new.broken ≡ true }
{
    match refusal {
        ReadRefusal::NoMemory => Refusal::NoMemory,
        ReadRefusal::DiskFault => {
            log.break_log();
            Refusal::DiskFault
        }
        ReadRefusal::Damaged { at } => {
            log.break_log();
            Refusal::Damaged {
                container: lsn.container(),
                offset: lsn.offset(),
                at,
            }
        }
    }
}

// Whether the record at an LSN is on the disk.
fn is_stable(log: &Log, lsn: Lsn) -> bool
    requires sound { IsSound log.now }
    ensures { result ≡ nat_lt lsn (flushed log.now.state.value) }
{
    lsn < log.queue.flushed()
}

// The record with a head and its data.
fn entry_of(head: Head, bytes: Bytes) -> LogEntry
    ensures entry { (entry : LogEntry) → head_of entry ≡ head → entry.bytes ≡ bytes → result ≡ entry }
    ensures lsn { result.lsn ≡ head.lsn }
    ensures bytes { result.bytes ≡ bytes }
{
    LogEntry {
        lsn: head.lsn,
        stream: head.stream,
        kind: head.kind,
        previous: head.previous,
        undo_next: head.undo_next,
        new_base: head.new_base,
        bytes,
    }
}

// A record that isn't on the disk yet.
fn waiting_entry(log: &Log, head: Head) -> Result<LogEntry, AllocError>
    requires sound { IsSound log.now }
    requires there { IsNeededHead log.now.state.value head }
    requires waits { flushed log.now.state.value ≤ head.lsn }
    ensures exact { IfOk result (λ read. (entry : LogEntry) → IsNeeded log.now.state.value entry → head_of entry ≡ head → read ≡ entry) }
    ensures small { IfOk result (λ read. length read.bytes ≤ most_data) }
{
    numbers_fit_their_types();
    let bytes = log.queue.read(log.alloc, head.lsn)?;
    Ok(entry_of(head, bytes))
}

// The number of the file in which an LSN's container lies.
fn file_of(image: &BaseImage, lsn: Lsn) -> u16
    requires image { IsImage image.now }
    requires listed { image.now.first ≤ container_of lsn }
    requires within { container_of lsn + 1 ≤ image.now.first + length image.now.files }
    ensures file { result ≡ file_of image.now lsn }
    ensures few { result ≤ 256 }
{
    image.files.as_slice()[(lsn.container() - image.first) as usize]
}

// How many bytes the block of a record on the disk has, by where archiving has it end. Reading asks for so many; a wrong number changes no answer.
fn block_bytes(archive: &Archive, lsn: Lsn) -> u32 {
    match archive.end_from(lsn) {
        Some(end) => end.saturating_sub(lsn.offset()),
        None => u32::MAX,
    }
}

// A record that is on the disk, by its LSN, out of its block.
fn entry_on_disk<D: Disk>(log: &mut Log, disk: &mut D, lsn: Lsn) -> Result<LogEntry, ReadRefusal>
    requires sound { IsSound log.old }
    requires open { IsOpen (D.state disk.old) log.old.state.value log.old }
    requires there { (entry : LogEntry) × IsNeeded log.old.state.value entry × (entry.lsn ≡ lsn) }
    requires stable { lsn < flushed log.old.state.value }
    ensures exact { TellsContents (D.state disk.old) → (entry : LogEntry) → IsNeeded log.old.state.value entry → entry.lsn ≡ lsn → Gives result (Ok entry) }
    ensures reads { ReadsBlock D.state lsn result log.old log.new disk.old disk.new }
    ensures refused { OnErr result (log.new ≡ log.old) }
{
    stored_records_are_read();
    changes_keep_blocks();
    let image = log.physical.image();
    let file = file_of(image, lsn);
    let shape = shape_of(image);
    let streams = image.streams.as_slice().len() as u16;
    let expected = block_bytes(&log.archive, lsn);
    log.buffers.read(disk, &shape, streams, file, lsn, expected)
}

// A record that is on the disk, by its head. Of a block that is kept its data alone are taken: its header was judged when the block was read, and how
// long the block is has to be known only if it isn't kept.
fn stored_entry<D: Disk>(log: &mut Log, disk: &mut D, head: Head) -> Result<LogEntry, ReadRefusal>
    requires sound { IsSound log.old }
    requires open { IsOpen (D.state disk.old) log.old.state.value log.old }
    requires there { IsNeededHead log.old.state.value head }
    requires stable { head.lsn < flushed log.old.state.value }
    ensures exact { TellsContents (D.state disk.old) → (entry : LogEntry) → IsNeeded log.old.state.value entry → head_of entry ≡ head → Gives result (Ok entry) }
    ensures reads { ReadsBlock D.state head.lsn result log.old log.new disk.old disk.new }
{
    changes_keep_blocks();
    match log.buffers.kept_data(head.lsn)? {
        Some(bytes) => Ok(entry_of(head, bytes)),
        None => entry_on_disk(log, disk, head.lsn),
    }
}

// The record with a head.
pub(crate) fn fetch<D: Disk>(log: &mut Log, disk: &mut D, head: Head) -> Result<LogEntry, Refusal>
    requires sound { IsSound log.old }
    requires open { IsOpen (D.state disk.old) log.old.state.value log.old }
    requires there { IsNeededHead log.old.state.value head }
    ensures gets { GetsRecord D.state (λ (read : LogEntry). read) log.old.state.value head result log.new disk.old disk.new }
    ensures log { OnOk result (log.new ≡ record log.old { buffers = log.new.buffers }) }

    // The disk isn't called where the record's block is kept.
    ensures quiet { IsSome (kept_at (block_place head.lsn) log.old.buffers) → disk.new ≡ disk.old }
{
    if !is_stable(log, head.lsn) {
        return Ok(waiting_entry(log, head)?);
    }
    match stored_entry(log, disk, head) {
        Ok(entry) => Ok(entry),
        Err(refusal) => Err(refuse(log, head.lsn, refusal)),
    }
}
