ghost use Rattle.std.specs.Prelude.{◌≤◌, IfOk};
ghost use Rattle.clfs_lsn.specs.Spelling.{FitsAt};

use clfs_lsn::{Bytes, Kind, LogEntry, Lsn};
use clfs_record::{HeadRefusal, RecordRefusal, decode, decode_head, encode, stream_of};
use std::alloc::{AllocError, Global};

// The ten bytes 0 to 9 in stream 1, without links, as they stand in a block.
const SPELLED: [u8; 48] = [
    10, 0, 0, 0, 1, 0, 1, 0, 0, 0, 0, 0, 0, 0, 0, 0, 0, 0, 0, 0, 0, 0, 0, 0, 0, 0, 0, 0, 0, 0, 0,
    0, 0, 1, 2, 3, 4, 5, 6, 7, 8, 9, 0, 0, 0, 0, 0, 0,
];

// What reading the bytes at container 1, offset 0, in a log of one stream, answers.
fn read(alloc: Global, bytes: &[u8; 48]) -> Result<(LogEntry, usize), RecordRefusal> {
    decode(alloc, bytes, Lsn::of_number(1 << 32), stream_of(bytes), 1)
}

fn entry(alloc: Global) -> Result<LogEntry, AllocError>
    ensures { IfOk result (λ entry. FitsAt entry.lsn entry.stream entry) }
{
    Ok(LogEntry {
        lsn: Lsn::of_number(1 << 32),
        stream: 1,
        kind: Kind::Plain,
        previous: Lsn::null(),
        undo_next: Lsn::null(),
        new_base: Lsn::null(),
        bytes: Bytes::from_vec(Vec::from_slice(alloc, &SPELLED[32..42])?),
    })
}

// The record is written after what is there.
fn is_written(alloc: Global, entry: &LogEntry) -> Result<bool, AllocError>
    requires { FitsAt entry.now.lsn entry.now.stream entry.now }
{
    let mut out = Bytes::from_vec(Vec::from_slice(alloc, b"before")?);
    encode(alloc, entry, &mut out)?;
    Ok(
        out.len() == 54
            && out.as_slice().starts_with(b"before")
            && out.as_slice().ends_with(&SPELLED),
    )
}

fn is_same(a: &LogEntry, b: &LogEntry) -> bool {
    a.lsn == b.lsn
        && a.stream == b.stream
        && a.kind == b.kind
        && a.previous == b.previous
        && a.undo_next == b.undo_next
        && a.new_base == b.new_base
        && a.bytes.as_slice() == b.bytes.as_slice()
}

fn is_read(alloc: Global, entry: &LogEntry) -> bool {
    match read(alloc, &SPELLED) {
        Ok((again, size)) => size == 48 && is_same(&again, entry),
        Err(_) => false,
    }
}

#[test]
fn a_record_is_written_and_read(rt: HostRuntime) -> Result<(), AllocError> {
    let entry = entry(rt.alloc())?;
    assert!(rt; is_written(rt.alloc(), &entry)?);
    assert!(rt; is_read(rt.alloc(), &entry));
    Ok(())
}

// The byte at which the record is refused once the byte at a place is raised by one. Ten or eleven bytes of data take the
// same room, a restart record may have no new base, and a link is right below the record's own LSN, 2^32.
fn wrong_byte(raised: u32) -> Option<u32> {
    match raised {
        0 | 6 | 8..=11 | 16..=19 | 32..=41 => None,
        1..=3 => Some(0),
        4 | 5 => Some(4),
        7 => Some(7),
        12..=15 => Some(8),
        20..=23 => Some(16),
        24..=31 => Some(24),
        _ => Some(raised),
    }
}

// The byte at which a record is refused, as it is read and as its head is.
fn told(alloc: Global, bytes: &[u8; 48]) -> (Option<u32>, Option<u32>) {
    let at = match read(alloc, bytes) {
        Ok(_) => None,
        Err(RecordRefusal::BadByte { at }) => Some(at),
        Err(RecordRefusal::NoMemory) => Some(48),
    };
    let head = decode_head(bytes, Lsn::of_number(1 << 32), stream_of(bytes), 1);
    (at, head.err().map(|HeadRefusal::BadByte { at }| at))
}

// A record that ends after so many bytes is refused at its first one.
fn is_refused_short(alloc: Global, short: usize) -> bool
    requires { short ≤ 48 }
{
    let cut = decode(alloc, &SPELLED[..short], Lsn::of_number(1 << 32), 1, 1);
    matches!(cut, Err(RecordRefusal::BadByte { at: 0 }))
}

#[test]
fn each_byte_is_checked(rt: HostRuntime) {
    for raised in 0..48 {
        let mut bytes = SPELLED;
        bytes[raised as usize] = bytes[raised as usize].wrapping_add(1);
        let want = wrong_byte(raised);
        assert!(rt;
            told(rt.alloc(), &bytes) == (want, want),
            "byte {raised} raised"
        );
    }
    assert!(rt; is_refused_short(rt.alloc(), 0) && is_refused_short(rt.alloc(), 31));
    assert!(rt; is_refused_short(rt.alloc(), 32) && is_refused_short(rt.alloc(), 47));
}
