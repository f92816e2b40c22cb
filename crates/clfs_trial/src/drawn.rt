// A line that is made of two draws.
ghost use Rattle.std.specs.Prelude.{◌≡◌, ◌+◌, ◌%◌, ◌≤◌, ◌++◌, OnOk, length, replicate, codes, decimal};
ghost use Rattle.clfs_lsn.specs.Words.{lsn_text, data_text};
ghost use Rattle.clfs_trial.specs.Generated.{drawn_client, drawn_size, call_text, drawn_line};

use crate::kind::{LineKind, kind_of};
use clfs_lsn::{Bytes, Lsn};
use clfs_text::{Lead, push_data, push_decimal};
use std::alloc::AllocError;

/// The most bytes of data of a line.
const MOST_BYTES: usize = 400;

/// The client of a line with this first draw, 1 to 4.
pub fn drawn_client(first: u32) -> u32
    ensures client { result ≡ drawn_client first }
    ensures some { 1 ≤ result }
    ensures few { result ≤ 4 }
{
    1 + first % 4
}

// The size that a line with this first draw names, 0 to 400.
fn drawn_size(first: u32) -> u32
    ensures size { result ≡ drawn_size first }
    ensures small { result ≤ 400 }
{
    first / 4 % 401
}

// Adds so many bytes of one value as a word of data.
fn push_same(size: u32, byte: u8, out: &mut Bytes) -> Result<(), AllocError>
    requires { size ≤ 400 }
    ensures text { OnOk result (out.new ≡ out.old ++ data_text (replicate size byte)) }
    ensures short { OnOk result (length out.new ≤ length out.old + 800) }
{
    let bytes = [byte; MOST_BYTES];
    let (data, _) = bytes.split_at(size as usize);
    push_data(data, out)
}

// What an append of so many bytes of one value asks for.
fn push_append(size: u32, byte: u8, out: &mut Bytes) -> Result<(), AllocError>
    requires { size ≤ 400 }
    ensures text { OnOk result (out.new ≡ out.old ++ (codes " append 1 " ++ (data_text (replicate size byte) ++ codes " 0:0:0 0:0:0"))) }
    ensures short { OnOk result (length out.new ≤ length out.old + 822) }
{
    out.extend_from_slice(b" append 1 ")?;
    push_same(size, byte, out)?;
    out.extend_from_slice(b" 0:0:0 0:0:0")
}

/// Adds a text and then a number at the end.
pub fn push_number(text: &[u8], number: u32, out: &mut Bytes) -> Result<(), AllocError>
    ensures text { OnOk result (out.new ≡ out.old ++ (text.now ++ decimal number)) }
    ensures short { OnOk result (length out.new ≤ length out.old + length text.now + 10) }
{
    out.extend_from_slice(text)?;
    push_decimal(number as u64, out)
}

// What an advance to an LSN asks for.
fn push_advance(lsn: Lsn, out: &mut Bytes) -> Result<(), AllocError>
    ensures text { OnOk result (out.new ≡ out.old ++ (codes " advance 1 " ++ lsn_text lsn)) }
    ensures short { OnOk result (length out.new ≤ length out.old + 37) }
{
    let mut call = Lead::new();
    call.put_lsn(lsn);
    call.put(b" advance 1 ");
    out.extend_from_slice(call.as_slice())
}

// What stands after the client.
fn push_call(
    kind: LineKind,
    client: u32,
    size: u32,
    byte: u8,
    lsn: Lsn,
    out: &mut Bytes,
) -> Result<(), AllocError>
    requires { size ≤ 400 }
    ensures text { OnOk result (out.new ≡ out.old ++ call_text kind client size byte lsn) }
    ensures short { OnOk result (length out.new ≤ length out.old + 822) }
{
    match kind {
        LineKind::Append => push_append(size, byte, out),
        LineKind::Reserve => push_number(b" reserve 1 ", size, out),
        LineKind::Release => out.extend_from_slice(b" release 1 1"),
        LineKind::Flush => out.extend_from_slice(b" flush 1"),
        LineKind::Restart => out.extend_from_slice(b" restart 1 - -"),
        LineKind::Info => push_number(b" info ", client, out),
        LineKind::Advance => push_advance(lsn, out),
    }
}

/// Adds a client's number at the end.
pub fn push_client(client: u32, out: &mut Bytes) -> Result<(), AllocError>
    requires { client ≤ 4 }
    ensures text { OnOk result (out.new ≡ out.old ++ decimal client) }
    ensures short { OnOk result (length out.new ≤ length out.old + 1) }
{
    push_decimal(client as u64, out)
}

/// Adds the line of two draws at the end, with the LSN that the client was told last.
pub fn push_drawn_line(first: u32, second: u32, lsn: Lsn, out: &mut Bytes) -> Result<(), AllocError>
    ensures text { OnOk result (out.new ≡ out.old ++ drawn_line first second lsn) }
    ensures short { OnOk result (length out.new ≤ length out.old + 823) }
{
    let client = drawn_client(first);
    push_client(client, out)?;
    let byte = (second % 256) as u8;
    push_call(kind_of(second), client, drawn_size(first), byte, lsn, out)
}
