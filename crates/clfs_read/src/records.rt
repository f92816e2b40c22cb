// Judging and taking a block's records, one by one.
ghost use Rattle.std.specs.Prelude.{◌≡◌, ◌+◌, ◌^◌, ◌<◌, ◌&&◌, nat_lt, [], length, drop, Ok, Err};
ghost use Rattle.clfs_lsn.specs.Heads.{is_restart};
ghost use Rattle.clfs_lsn.specs.Spelling.{record_at};
ghost use Rattle.clfs_lsn.specs.declared.entry.Head.{Head};
ghost use Rattle.clfs_block.specs.Records.{records_from};
ghost use Rattle.clfs_record.specs.Decoding.{head_read};
ghost use Rattle.clfs_read.specs.Answers.{ended, wrong, no_record, record_told, next_told};

use crate::answers::{ENDED, RIGHT, UNFIT, WRONG};
use clfs_block::byte_of;
use clfs_lsn::{Head, Kind, Lsn, RECORD_HEADER};
use clfs_record::{HeadRefusal, decode_head, stream_in};

/// A record of a block, without its data.
#[repr(C)]
#[derive(Drop)]
pub struct Record {
    /// Its LSN.
    pub lsn: u64,
    /// The record before it, as its client has it, or 0.
    pub previous: u64,
    /// The record that undoing goes on with, as its client has it, or 0.
    pub undo_next: u64,
    /// The base of its stream from it on, in a restart area; else 0.
    pub new_base: u64,
    /// The byte of the payload at which its data begin.
    pub data_at: u32,
    /// The bytes of its data.
    pub data_len: u32,
    /// The byte of the payload at which the next record begins.
    pub next_at: u32,
    /// The first wrong byte of the block; 0 where none is.
    pub bad_at: u32,
    /// The number of its stream, from 1.
    pub stream: u16,
    /// It is a restart area.
    pub is_restart: bool,
}

/// The next of a block's records, of which so many are left, in a log of so many streams: the one at byte `at` of the used payload, which
/// has this LSN. The first is at byte 16 with the block's LSN, and each further one at `next_at` with the next LSN. Where none is left the
/// payload has to end.
#[unsafe(no_mangle)]
pub extern "C" fn clfs_record_next(
    lsn: u64,
    left: u32,
    streams: u16,
    payload: &[u8],
    at: u32,
    out: &mut Record,
) -> u32
    ensures exact { (result, out.new) ≡ next_told left lsn streams payload.now at }

    // The end and a wrong byte are those that the log tells of the block's records from here on.
    ensures ended { result ≡ ended → records_from streams payload.now left lsn at ≡ Ok [] }
    ensures wrong { result ≡ wrong → records_from streams payload.now left lsn at ≡ Err out.new.bad_at }
{
    next(lsn, left, streams, payload, at, out)
}

fn next(lsn: u64, left: u32, streams: u16, payload: &[u8], at: u32, out: &mut Record) -> u32
    ensures { (result, out.new) ≡ next_told left lsn streams payload.now at }
{
    if !fits_in(payload, at) {
        return refuse(UNFIT, 0, out);
    }
    if left > 0 {
        return read(lsn, streams, payload, at, out);
    }
    if at as usize == payload.len() {
        refuse(ENDED, 0, out)
    } else {
        refuse(WRONG, 8, out)
    }
}

// Whether the places of a payload of so many bytes, and this one, are small enough to be told.
fn fits_in(payload: &[u8], at: u32) -> bool
    ensures { result ≡ (nat_lt (length payload.now) (2 ^ 31) && nat_lt at (2 ^ 31)) }
{
    payload.len() < 1 << 31 && at < 1 << 31
}

// The bytes of a payload from a place on, if it has any there.
fn rest_from(payload: &[u8], at: u32) -> &[u8]
    ensures { result.now ≡ drop at payload.now }
{
    let from = payload.len().min(at as usize);
    payload.split_at(from).1
}

fn read(lsn: u64, streams: u16, payload: &[u8], at: u32, out: &mut Record) -> u32
    requires short { length payload.now < 2 ^ 31 }
    requires place { at < 2 ^ 31 }
    ensures { (result, out.new) ≡ record_told at (head_read (record_at lsn streams (drop at payload.now))) }
{
    let bytes = rest_from(payload, at);
    match decode_head(bytes, Lsn::of_number(lsn), stream_in(bytes), streams) {
        Ok((head, size)) => tell(&head, at, size as u32, out),
        Err(HeadRefusal::BadByte { at: place }) => refuse(WRONG, byte_of(at + place), out),
    }
}

fn tell(head: &Head, at: u32, size: u32, out: &mut Record) -> u32
    requires data { at + 32 < 2 ^ 32 }
    requires next { at + size < 2 ^ 32 }
    ensures { (result, out.new) ≡ record_told at (Ok (head.now, size)) }
{
    *out = Record {
        lsn: head.lsn.number(),
        previous: head.previous.number(),
        undo_next: head.undo_next.number(),
        new_base: head.new_base.number(),
        data_at: at + RECORD_HEADER,
        data_len: head.len,
        next_at: at + size,
        bad_at: 0,
        stream: head.stream,
        is_restart: is_restart(head.kind),
    };
    RIGHT
}

fn is_restart(kind: Kind) -> bool
    ensures { result ≡ is_restart kind }
{
    match kind {
        Kind::Plain => false,
        Kind::Restart => true,
    }
}

fn refuse(code: u32, at: u32, out: &mut Record) -> u32
    ensures code { result ≡ code }
    ensures none { out.new ≡ no_record at }
{
    *out = Record {
        lsn: 0,
        previous: 0,
        undo_next: 0,
        new_base: 0,
        data_at: 0,
        data_len: 0,
        next_at: 0,
        bad_at: at,
        stream: 0,
        is_restart: false,
    };
    code
}
