// Why a call is refused.
ghost use Rattle.std.specs.Prelude.{◌≡◌};
ghost use Rattle.clfs_model.specs.declared.refusal.Refusal.TheVariants.{NoMemory};

use clfs_lsn::Lsn;
use std::alloc::{AllocError, AllocFailed};
use thiserror::Error;

/// Why a call was refused. After `DiskFault` and `Damaged` the log is broken until it is loaded again; after every other
/// refusal it is as it was.
#[derive(Clone, Copy, Debug, PartialEq, Eq, Error)]
pub enum Refusal {
    /// Memory ran out.
    #[error("out of memory")]
    NoMemory,
    /// The disk failed in this call.
    #[error("the disk failed")]
    DiskFault,
    /// An earlier call met a disk fault or damage.
    #[error("an earlier call broke the log")]
    Broken,
    /// A log of one container takes no records.
    #[error("{have} containers are not enough")]
    NotEnoughContainers {
        /// The containers that there are.
        have: u32,
    },
    /// There is no room, not even with the growth that the policies allow.
    #[error("{free} sectors are free, {reserved} reserved and {need} needed")]
    Full {
        /// The free sectors.
        free: u32,
        /// The sectors that all areas hold.
        reserved: u32,
        /// The sectors that the call needs.
        need: u32,
    },
    /// The area holds fewer sectors than the call takes.
    #[error("the area holds {held} sectors of {need}")]
    ReservationShort {
        /// The sectors that the area holds.
        held: u32,
        /// The sectors that the call takes.
        need: u32,
    },
    /// A record is longer than the area's records can be, or an area's records than the log's.
    #[error("a record of {len} bytes is above {max}")]
    RecordTooLong {
        /// The length.
        len: u32,
        /// The greatest length.
        max: u32,
    },
    /// A link names no record.
    #[error("no record for the link {lsn}")]
    LinkInvalid {
        /// The link.
        lsn: Lsn,
    },
    /// No stream has the number.
    #[error("no such stream")]
    NoSuchStream,
    /// The client has no area of the number.
    #[error("no such area")]
    NoSuchArea,
    /// Bytes that were read aren't those of a log.
    #[error("damage in container {container}, block {offset}, byte {at}")]
    Damaged {
        /// The container's id; 0 for the base file.
        container: u32,
        /// The block's offset, in bytes.
        offset: u32,
        /// The byte of the block.
        at: u32,
    },
    /// The area has no cursor of the number and kind.
    #[error("no such cursor")]
    NoSuchCursor,
    /// The log has as many streams as it can.
    #[error("there are {count} streams")]
    StreamLimit {
        /// The streams that there are.
        count: u32,
    },
    /// The client has as many areas as it can.
    #[error("there are {count} areas")]
    AreaLimit {
        /// The areas that the client has.
        count: u32,
    },
    /// The area has as many cursors as it was made for.
    #[error("{open_now} cursors are open")]
    CursorLimit {
        /// The cursors that the area has.
        open_now: u32,
    },
    /// A name is empty, too long, or has a byte that none may have.
    #[error("byte {at} of the name is not legal")]
    NameInvalid {
        /// The first byte that is wrong.
        at: u32,
    },
    /// No live record of the stream has the LSN.
    #[error("no record at {lsn}")]
    RecordNonexistent {
        /// The LSN.
        lsn: Lsn,
    },
    /// No record follows the cursor's.
    #[error("the end of the log is reached")]
    EndOfLog,
    /// The link of the cursor's record names no live record.
    #[error("the start of the log is reached")]
    StartOfLog,
    /// There is no restart area, or none before the cursor's.
    #[error("no restart area")]
    NoRestart,
    /// A base is neither a live record nor just after the last one.
    #[error("the base can't be {lsn}")]
    TailInvalid {
        /// The base that was asked for.
        lsn: Lsn,
        /// The stream's base.
        base: Lsn,
        /// The stream's last live record, or null.
        last: Lsn,
    },
    /// An archive tail lies below the old one, or above what is on the disk.
    #[error("the archive tail can't be {lsn}")]
    ArchiveTailInvalid {
        /// The tail that was asked for.
        lsn: Lsn,
        /// The archive tail.
        tail: Lsn,
        /// The LSN below which all records are on the disk.
        flushed: Lsn,
    },
    /// Archiving is off.
    #[error("archiving is off")]
    Ephemeral,
    /// The log needs more containers than were asked for.
    #[error("{need} containers are needed")]
    CantShrink {
        /// The containers in use.
        active: u32,
        /// The containers that the log needs.
        need: u32,
    },
    /// The log may have no more containers.
    #[error("at most {limit} containers")]
    ContainerLimit {
        /// The most that it may have.
        limit: u32,
    },
    /// A policy's value is outside its range.
    #[error("the value is outside {min} to {max}")]
    PolicyConflict {
        /// The least value.
        min: u32,
        /// The greatest value.
        max: u32,
    },
    /// No policy of the kind is installed.
    #[error("no such policy is installed")]
    PolicyNotInstalled,
    /// A line of a script asks for nothing.
    #[error("byte {at} of the line is wrong")]
    BadLine {
        /// The first byte of the line that is wrong.
        at: u32,
    },
    /// A dedicated log has its one stream already.
    #[error("the log is dedicated and has its stream")]
    Dedicated,
}

impl From<AllocError> for Refusal {
    ghost from_gives = { λ _ e. e ≡ NoMemory };

    fn from(_: AllocError) -> Refusal {
        Refusal::NoMemory
    }
}

impl<T: Drop> From<AllocFailed<T>> for Refusal {
    ghost from_gives = { λ _ e. e ≡ NoMemory };

    fn from(_: AllocFailed<T>) -> Refusal {
        Refusal::NoMemory
    }
}
