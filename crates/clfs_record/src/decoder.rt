// Reading a record from the front of bytes. The checks go from the first byte on, and the data are copied once, when all
// else is right.
ghost use Rattle.std.specs.Prelude.{◌≡◌, ◌+◌, ◌-◌, ◌*◌, ◌^◌, ◌<◌, ◌≤◌, ◌++◌, ◌==◌, ◌||◌, ◌↔◌, not, nat_lt, if◌then◌else◌, ℕ, List, length, take, drop, position, IfOk, IfErr, IfSome, Ok, Err};
ghost use Rattle.std.specs.List.{list_all, slice_range};
ghost use Rattle.byteorder.specs.Endian.{little_number};
ghost use Rattle.clfs_lsn.specs.Format.{record_header};
ghost use Rattle.clfs_lsn.specs.Size.{size};
ghost use Rattle.clfs_lsn.specs.Spelling.{FitsAt, record_bytes, record_at, header_of, header_fault, filling_fault, is_wrong_base, entry_of};
ghost use Rattle.clfs_lsn.specs.declared.entry.Kind.TheVariants.{Plain, Restart};
ghost use Rattle.clfs_lsn.specs.declared.entry.LogEntry.{LogEntry};
ghost use Rattle.clfs_lsn.specs.Head.{head_of};
ghost use Rattle.clfs_record.specs.Decoding.{Gives, head_read, IsHeadIn, IsChecked, IsNear};
ghost use Rattle.clfs_record.specs.declared.refusal.HeadRefusal.TheVariants.{BadByte};

use crate::refusal::{HeadRefusal, RecordRefusal};
use byteorder::{ByteOrder, LittleEndian};
use clfs_lsn::{Bytes, Head, Kind, LogEntry, Lsn, RECORD_HEADER, size_of_record};
use std::alloc::{AllocError, Global};

// The bytes of a header.
const HEADER: usize = RECORD_HEADER as usize;

/// The stream's number in a record's header.
pub fn stream_of(bytes: &[u8]) -> u16
    requires { record_header ≤ length bytes.now }
    ensures { result ≡ (header_of bytes.now).stream }
{
    LittleEndian::read_u16(&bytes[4..])
}

/// The same of the record at the front of bytes, or 0 where no header is there.
pub fn stream_in(bytes: &[u8]) -> u16
    ensures { record_header ≤ length bytes.now → result ≡ (header_of bytes.now).stream }
{
    if bytes.len() < HEADER {
        return 0;
    }
    stream_of(bytes)
}

/// The length of the data in a record's header, of which the first four bytes are enough.
pub fn len_of(bytes: &[u8]) -> u32
    requires { 4 ≤ length bytes.now }
    ensures value { result ≡ (header_of bytes.now).len }

    // It is the length of the data of a record that is spelled there.
    ensures spelled { (entry : LogEntry) → length entry.bytes < 2 ^ 32 → take 4 bytes.now ≡ take 4 (record_bytes entry) → result ≡ length entry.bytes }
{
    LittleEndian::read_u32(bytes)
}

/// The record that a front of the bytes spells at this LSN in a log of so many streams, and how many bytes spell it.
/// `stream` is the number that `stream_of` reads there.
pub fn decode(
    alloc: Global,
    bytes: &[u8],
    lsn: Lsn,
    stream: u16,
    streams: u16,
) -> Result<(LogEntry, usize), RecordRefusal>
    requires length { length bytes.now < 2 ^ 32 }
    requires stream { record_header ≤ length bytes.now → stream ≡ (header_of bytes.now).stream }

    // What is read is spelled so, and is a record that the log can have there.
    ensures found { IfOk result (λ x. (take x.1 bytes.now ≡ record_bytes x.0) × FitsAt lsn streams x.0) }

    // What is spelled so is read, whatever follows it.
    ensures only { (entry : LogEntry) (rest : List ℕ) → FitsAt lsn streams entry → bytes.now ≡ record_bytes entry ++ rest
        → Gives result (Ok (entry, size (length entry.bytes))) }

    // A refusal names the first byte that is wrong.
    ensures exact { Gives result (record_at lsn streams bytes.now) }
{
    decode_at(alloc, bytes, lsn.number(), stream, streams)
}

/// The head of the record that a front of the bytes spells, and how many bytes spell it: `decode` without the data. It takes no memory.
pub fn decode_head(
    bytes: &[u8],
    lsn: Lsn,
    stream: u16,
    streams: u16,
) -> Result<(Head, usize), HeadRefusal>
    requires length { length bytes.now < 2 ^ 32 }
    requires stream { record_header ≤ length bytes.now → stream ≡ (header_of bytes.now).stream }
    ensures exact { result ≡ head_read (record_at lsn streams bytes.now) }

    // It refuses a byte exactly where `decode` does.
    ensures refused { (at : ℕ) → (result ≡ Err (BadByte at)) ↔ (record_at lsn streams bytes.now ≡ Err at) }

    // What is read is the head of a record that the log can have there, whose data stand after its header.
    ensures found { IfOk result (λ x. IsHeadIn lsn streams bytes.now x.0 x.1) }
    ensures near { IfErr result (λ refusal. IsNear bytes.now refusal) }
{
    head_from(bytes, lsn.number(), stream, streams)
}

// The same at a number.
fn head_from(
    bytes: &[u8],
    lsn: u64,
    stream: u16,
    streams: u16,
) -> Result<(Head, usize), HeadRefusal>
    requires length { length bytes.now < 2 ^ 32 }
    requires stream { record_header ≤ length bytes.now → stream ≡ (header_of bytes.now).stream }
    ensures exact { result ≡ head_read (record_at lsn streams bytes.now) }
    ensures found { IfOk result (λ x. IsHeadIn lsn streams bytes.now x.0 x.1) }
    ensures near { IfErr result (λ refusal. IsNear bytes.now refusal) }
{
    let len = checked_len(bytes, lsn, stream, streams)?;
    Ok((
        head_at(bytes, lsn, stream, len),
        size_of_record(len) as usize,
    ))
}

// The same as `decode` at a number.
fn decode_at(
    alloc: Global,
    bytes: &[u8],
    lsn: u64,
    stream: u16,
    streams: u16,
) -> Result<(LogEntry, usize), RecordRefusal>
    requires length { length bytes.now < 2 ^ 32 }
    requires stream { record_header ≤ length bytes.now → stream ≡ (header_of bytes.now).stream }
    ensures { Gives result (record_at lsn streams bytes.now) }
{
    let len = checked_len(bytes, lsn, stream, streams)?;
    let entry = entry_at(alloc, bytes, lsn, stream, len)?;
    Ok((entry, size_of_record(len) as usize))
}

// The length of the data of a record that is right.
#[tactic(auto, unfolding(clfs_lsn::specs::Spelling::record_at))]
fn checked_len(bytes: &[u8], lsn: u64, stream: u16, streams: u16) -> Result<u32, HeadRefusal>
    requires length { length bytes.now < 2 ^ 32 }
    requires stream { record_header ≤ length bytes.now → stream ≡ (header_of bytes.now).stream }
    ensures exact { IsChecked lsn streams bytes.now result }
    ensures whole { IfOk result (λ len. size len ≤ length bytes.now) }
    ensures near { IfErr result (λ refusal. IsNear bytes.now refusal) }
{
    if bytes.len() < HEADER {
        return Err(HeadRefusal::BadByte { at: 0 });
    }
    let len = LittleEndian::read_u32(bytes);
    let size = size_of_record(len);
    if (bytes.len() as u64) < size {
        return Err(HeadRefusal::BadByte { at: 0 });
    }
    if let Some(at) = wrong_header(bytes, lsn, stream, streams) {
        return Err(HeadRefusal::BadByte { at });
    }
    if let Some(at) = wrong_filling(bytes, len) {
        return Err(HeadRefusal::BadByte { at });
    }
    Ok(len)
}

// The byte at which the header is wrong first.
fn wrong_header(bytes: &[u8], lsn: u64, stream: u16, streams: u16) -> Option<u32>
    requires long { record_header ≤ length bytes.now }
    requires stream { stream ≡ (header_of bytes.now).stream }
    ensures exact { result ≡ header_fault lsn streams (header_of bytes.now) }
    ensures near { IfSome result (λ at. at ≤ 24) }
{
    let previous = LittleEndian::read_u64(&bytes[8..]);
    let undo_next = LittleEndian::read_u64(&bytes[16..]);
    let new_base = LittleEndian::read_u64(&bytes[24..]);
    if is_no_stream(stream, streams) {
        Some(4)
    } else if is_no_kind(bytes[6]) {
        Some(6)
    } else if bytes[7] != 0 {
        Some(7)
    } else if lsn <= previous {
        Some(8)
    } else if lsn <= undo_next {
        Some(16)
    } else if has_wrong_base(bytes[6], lsn, new_base) {
        Some(24)
    } else {
        None
    }
}

// Whether a log of so many streams has none of this number.
fn is_no_stream(stream: u16, streams: u16) -> bool
    ensures { result ≡ ((stream == 0) || nat_lt streams stream) }
{
    stream == 0 || streams < stream
}

// Whether no kind of record has this byte.
fn is_no_kind(byte: u8) -> bool
    ensures { result ≡ not ((byte == 1) || (byte == 2)) }
{
    byte != 1 && byte != 2
}

// Whether no record of this kind at this LSN has such a base.
fn has_wrong_base(kind: u8, lsn: u64, base: u64) -> bool
    ensures { result ≡ is_wrong_base kind lsn base }
{
    // The highest base that its kind may have.
    let most = if kind == 1 { 0 } else { lsn };
    most < base
}

// The first byte after the data that isn't 0.
fn wrong_filling(bytes: &[u8], len: u32) -> Option<u32>
    requires whole { size len ≤ length bytes.now }
    requires length { length bytes.now < 2 ^ 32 }
    ensures exact { result ≡ filling_fault len bytes.now }
    ensures near { IfSome result (λ at. at ≤ length bytes.now) }
{
    let end = HEADER + len as usize;
    let size = size_of_record(len) as usize;
    if are_zeros(bytes, end, size) {
        return None;
    }
    let zeros = &bytes[end..size];
    let at = first_nonzero(zeros)?;
    Some((end + at) as u32)
}

// Whether the bytes in a range of fewer than 8 are 0. They are the high bytes of the word that ends there, so no branch hangs on their
// number, which differs from record to record.
fn are_zeros(bytes: &[u8], from: usize, end: usize) -> bool
    requires word { 8 ≤ end }
    requires whole { end ≤ length bytes.now }
    requires range { from ≤ end }
    requires few { end < from + 8 }
    ensures { result ≡ list_all (λ byte. byte == 0) (slice_range bytes.now from end) }
{
    let word = LittleEndian::read_u64(&bytes[end - 8..]);
    word <= u64::MAX >> (8 * (end - from))
}

// The place of the first byte that isn't 0.
fn first_nonzero(bytes: &[u8]) -> Option<usize>
    ensures exact { result ≡ position (λ b. not (b == 0)) bytes.now }
    ensures near { IfSome result (λ at. at < length bytes.now) }
{
    bytes.iter().position(|b| *b != 0)
}

fn kind_of(byte: u8) -> Kind
    ensures { result ≡ (if byte == 1 then Plain else Restart) }
{
    if byte == 1 {
        Kind::Plain
    } else {
        Kind::Restart
    }
}

// The LSN in a header at a byte of it.
fn lsn_at(bytes: &[u8], at: usize) -> Lsn
    requires { at + 8 ≤ length bytes.now }
    ensures { result ≡ little_number 8 (drop at bytes.now) }
{
    Lsn::of_number(LittleEndian::read_u64(&bytes[at..]))
}

// The head of a header that is right.
fn head_at(bytes: &[u8], lsn: u64, stream: u16, len: u32) -> Head
    requires len { len ≡ (header_of bytes.now).len }
    requires whole { record_header + len ≤ length bytes.now }
    requires stream { stream ≡ (header_of bytes.now).stream }
    ensures { result ≡ head_of (entry_of lsn bytes.now) }
{
    Head {
        lsn: Lsn::of_number(lsn),
        stream,
        kind: kind_of(bytes[6]),
        previous: lsn_at(bytes, 8),
        undo_next: lsn_at(bytes, 16),
        new_base: lsn_at(bytes, 24),
        len,
    }
}

// The record of a header that is right, with its data.
fn entry_at(
    alloc: Global,
    bytes: &[u8],
    lsn: u64,
    stream: u16,
    len: u32,
) -> Result<LogEntry, AllocError>
    requires len { len ≡ (header_of bytes.now).len }
    requires whole { record_header + len ≤ length bytes.now }
    requires stream { stream ≡ (header_of bytes.now).stream }
    ensures { IfOk result (λ entry. entry ≡ entry_of lsn bytes.now) }
{
    let data = &bytes[HEADER..HEADER + len as usize];
    Ok(LogEntry {
        lsn: Lsn::of_number(lsn),
        stream,
        kind: kind_of(bytes[6]),
        previous: lsn_at(bytes, 8),
        undo_next: lsn_at(bytes, 16),
        new_base: lsn_at(bytes, 24),
        bytes: Bytes::from_vec(Vec::from_slice(alloc, data)?),
    })
}

/// No spelling begins another's at one LSN, so what was written is read again whatever follows it.
pub fn no_spelling_begins_another()
    ensures { (lsn streams others : ℕ) (a b : LogEntry) (x y : List ℕ) → lsn < 2 ^ 64 → streams < 2 ^ 16 → others < 2 ^ 16
        → FitsAt lsn streams a → FitsAt lsn others b → record_bytes a ++ x ≡ record_bytes b ++ y → (a ≡ b) × (x ≡ y) }
{}

/// What is spelled is read as the record, whatever follows it. A spelling has as many bytes as its record's size. What is read fits its
/// LSN and the log's streams, and lies whole in the bytes, whatever numbers stand for these.
pub fn records_are_read_as_written()
    ensures read { (lsn streams : ℕ) (entry : LogEntry) (rest : List ℕ) → lsn < 2 ^ 64 → streams < 2 ^ 16 → FitsAt lsn streams entry
        → record_at lsn streams (record_bytes entry ++ rest) ≡ Ok (entry, size (length entry.bytes)) }
    ensures length { (entry : LogEntry) → length (record_bytes entry) ≡ size (length entry.bytes) }
    ensures fits { (lsn streams : ℕ) (bytes : List ℕ) (entry : LogEntry) (count : ℕ) → length bytes < 2 ^ 32
        → record_at lsn streams bytes ≡ Ok (entry, count)
        → FitsAt lsn streams entry × (count ≡ size (length entry.bytes)) × (count ≤ length bytes) }
{}
