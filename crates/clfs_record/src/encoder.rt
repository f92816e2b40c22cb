// Writing a record. All memory is taken before the first byte is written, so an `Err` leaves the bytes as they were.
ghost use Rattle.std.specs.Prelude.{◌≡◌, ◌^◌, ◌<◌, ◌++◌, ℕ, List, length, OnOk, OnErr};
ghost use Rattle.clfs_lsn.specs.Spelling.{FitsAt, record_bytes, header_bytes, kind_byte};
ghost use Rattle.clfs_record.specs.Fields.{placed_record};

use crate::fields::Fields;
use byteorder::{ByteOrder, LittleEndian};
use clfs_lsn::{Bytes, Kind, LogEntry, RECORD_HEADER, push_reserved, push_zeros, size_of_record};
use std::alloc::{AllocError, Global};
use std::mem;

// The bytes of a header.
const HEADER: usize = RECORD_HEADER as usize;

/// Appends the record's spelling. After an `Err` nothing has changed. The record is one that a log can have at its own LSN.
pub fn encode(alloc: Global, entry: &LogEntry, out: &mut Bytes) -> Result<(), AllocError>
    requires { FitsAt entry.now.lsn entry.now.stream entry.now }
    ensures ok { OnOk result (out.new ≡ out.old ++ record_bytes entry.now) }
    ensures err { OnErr result (out.new ≡ out.old) }
{
    let mut bytes = mem::replace(out, Bytes::new(alloc)).into_vec();
    let pushed = push_record(&mut bytes, entry);
    *out = Bytes::from_vec(bytes);
    pushed
}

fn push_record(out: &mut Vec<u8>, entry: &LogEntry) -> Result<(), AllocError>
    requires { length entry.now.bytes < 2 ^ 32 }
    ensures ok { OnOk result (out.new.items ≡ out.old.items ++ record_bytes entry.now) }
    ensures err { OnErr result (out.new.items ≡ out.old.items) }
{
    let data = entry.bytes.as_slice();
    let len = data.len() as u32;
    let size = size_of_record(len) as usize;
    let zeros = size - (HEADER + data.len());
    out.reserve(size)?;
    push_reserved(out, &header_of(entry, len));
    push_reserved(out, data);
    push_zeros(out, zeros);
    Ok(())
}

fn byte_of(kind: Kind) -> u8
    ensures { result ≡ kind_byte kind }
{
    match kind {
        Kind::Plain => 1,
        Kind::Restart => 2,
    }
}

fn header_of(entry: &LogEntry, len: u32) -> [u8; HEADER]
    requires { len ≡ length entry.now.bytes }
    ensures { result ≡ header_bytes entry.now }
{
    let fields = Fields {
        stream: entry.stream,
        kind: entry.kind,
        previous: entry.previous,
        undo_next: entry.undo_next,
        new_base: entry.new_base,
    };
    spell_header(&fields, len)
}

/// The header of a record with these fields and so many bytes of data, wherever it lies: a record's LSN isn't spelled. After it come the
/// data, and zeros up to the record's size.
pub fn spell_header(fields: &Fields, len: u32) -> [u8; HEADER]
    ensures { (lsn : ℕ) (bytes : List ℕ) → length bytes ≡ len → result ≡ header_bytes (placed_record lsn fields.now bytes) }
{
    let mut header = [0; HEADER];
    LittleEndian::write_u32(&mut header, len);
    LittleEndian::write_u16(&mut header[4..], fields.stream);
    header[6] = byte_of(fields.kind);
    LittleEndian::write_u64(&mut header[8..], fields.previous.number());
    LittleEndian::write_u64(&mut header[16..], fields.undo_next.number());
    LittleEndian::write_u64(&mut header[24..], fields.new_base.number());
    header
}
