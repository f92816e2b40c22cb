// The text of replies: one line each.
ghost use Rattle.std.specs.Prelude.{◌≡◌, ◌≤◌, [], ◌++◌, ℕ, List, OnOk, codes, decimal, length};
ghost use Rattle.std.specs.List.{flat_map};
ghost use Rattle.clfs_lsn.specs.Words.{lsn_text};
ghost use Rattle.clfs_model.specs.declared.reply.Reply.TheVariants.{Placed, Found, Done};
ghost use Rattle.clfs_model.specs.Text.{kind_text, entry_text, extent_text, archive_text, info_space_text, info_lsns_text, info_text, reply_text, reply_line};

use crate::refusals::push_refusal;
use clfs_lsn::{Bytes, Kind, LogEntry, Lsn};
use clfs_model::{Extent, LogInfo, Reply};
use clfs_text::{Lead, push_data, push_decimal, push_hex, push_lsn};
use std::alloc::AllocError;

// A text and then a number.
pub(crate) fn push_number(text: &[u8], number: u32, out: &mut Bytes) -> Result<(), AllocError>
    ensures { OnOk result (out.new ≡ out.old ++ (text.now ++ decimal number)) }
{
    out.extend_from_slice(text)?;
    push_decimal(number as u64, out)
}

// A text and then an LSN.
pub(crate) fn push_place(text: &[u8], lsn: Lsn, out: &mut Bytes) -> Result<(), AllocError>
    ensures { OnOk result (out.new ≡ out.old ++ (text.now ++ lsn_text lsn)) }
{
    out.extend_from_slice(text)?;
    push_lsn(lsn, out)
}

fn kind_text(kind: Kind) -> &'static [u8]
    ensures text { result.now ≡ codes " " ++ (kind_text kind ++ codes " ") }
    ensures short { length result.now ≤ 9 }
{
    match kind {
        Kind::Plain => b" data ",
        Kind::Restart => b" restart ",
    }
}

// Puts what stands before an entry's data.
fn put_entry(entry: &LogEntry, lead: &mut Lead)
    requires { lead.old ≡ [] }
    ensures short { length lead.new ≤ 136 }
    ensures text { (text : List ℕ) → lead.new ++ text ≡ codes "record " ++ (lsn_text entry.now.lsn ++ (codes " " ++ (kind_text entry.now.kind ++ (codes " " ++ (lsn_text entry.now.previous ++ (codes " " ++ (lsn_text entry.now.undo_next ++ (codes " " ++ (lsn_text entry.now.new_base ++ (codes " " ++ text)))))))))) }
{
    lead.put(b" ");
    lead.put_lsn(entry.new_base);
    lead.put(b" ");
    lead.put_lsn(entry.undo_next);
    lead.put(b" ");
    lead.put_lsn(entry.previous);
    lead.put(kind_text(entry.kind));
    lead.put_lsn(entry.lsn);
    lead.put(b"record ");
}

fn push_entry(entry: &LogEntry, out: &mut Bytes) -> Result<(), AllocError>
    ensures { OnOk result (out.new ≡ out.old ++ entry_text entry.now) }
{
    let mut lead = Lead::new();
    put_entry(entry, &mut lead);
    out.extend_from_slice(lead.as_slice())?;
    push_data(entry.bytes.as_slice(), out)
}

fn push_extent(extent: &Extent, out: &mut Bytes) -> Result<(), AllocError>
    ensures { OnOk result (out.new ≡ out.old ++ extent_text extent.now) }
{
    out.extend_from_slice(b" ")?;
    push_hex(extent.container, out)?;
    out.extend_from_slice(b":")?;
    push_hex(extent.low, out)?;
    out.extend_from_slice(b"-")?;
    push_hex(extent.high, out)
}

fn push_extents(extents: &[Extent], out: &mut Bytes) -> Result<(), AllocError>
    ensures { OnOk result (out.new ≡ out.old ++ flat_map extent_text extents.now) }
{
    for extent in extents {
        push_extent(extent, out)?;
    }
    Ok(())
}

fn push_archive(archive: Option<Lsn>, out: &mut Bytes) -> Result<(), AllocError>
    ensures { OnOk result (out.new ≡ out.old ++ archive_text archive) }
{
    match archive {
        Some(tail) => push_lsn(tail, out),
        None => out.extend_from_slice(b"off"),
    }
}

fn push_info_space(info: &LogInfo, out: &mut Bytes) -> Result<(), AllocError>
    ensures { OnOk result (out.new ≡ out.old ++ info_space_text info.now) }
{
    push_number(b"info containers ", info.containers, out)?;
    push_number(b" free ", info.free_containers, out)?;
    push_number(b" size ", info.container_sectors, out)?;
    push_number(b" sectors ", info.free_sectors, out)?;
    push_number(b" reserved ", info.reserved, out)
}

fn push_info_lsns(info: &LogInfo, out: &mut Bytes) -> Result<(), AllocError>
    ensures { OnOk result (out.new ≡ out.old ++ info_lsns_text info.now) }
{
    push_place(b" base ", info.base, out)?;
    push_place(b" last ", info.last, out)?;
    push_place(b" flushed ", info.flushed, out)?;
    push_place(b" restart ", info.restart, out)?;
    out.extend_from_slice(b" archive ")?;
    push_archive(info.archive, out)
}

fn push_info(info: &LogInfo, out: &mut Bytes) -> Result<(), AllocError>
    ensures { OnOk result (out.new ≡ out.old ++ info_text info.now) }
{
    push_info_space(info, out)?;
    push_info_lsns(info, out)
}

fn push_found(cursor: u16, entry: &LogEntry, out: &mut Bytes) -> Result<(), AllocError>
    ensures { OnOk result (out.new ≡ out.old ++ (codes "cursor " ++ (decimal cursor ++ (codes " " ++ entry_text entry.now)))) }
{
    let mut lead = Lead::new();
    put_entry(entry, &mut lead);
    lead.put(b" ");
    lead.put_decimal(cursor as u32);
    lead.put(b"cursor ");
    out.extend_from_slice(lead.as_slice())?;
    push_data(entry.bytes.as_slice(), out)
}

fn push_all_extents(extents: &[Extent], out: &mut Bytes) -> Result<(), AllocError>
    ensures { OnOk result (out.new ≡ out.old ++ (codes "extents " ++ (decimal (length extents.now) ++ flat_map extent_text extents.now))) }
{
    out.extend_from_slice(b"extents ")?;
    push_decimal(extents.len() as u64, out)?;
    push_extents(extents, out)
}

fn push_reply(reply: &Reply, out: &mut Bytes) -> Result<(), AllocError>
    ensures { OnOk result (out.new ≡ out.old ++ reply_text reply.now) }
{
    match reply {
        Reply::Stream(number) => push_number(b"stream ", *number as u32, out),
        Reply::Area(number) => push_number(b"area ", *number as u32, out),
        Reply::Done => out.extend_from_slice(b"ok"),
        Reply::Held(sectors) => push_number(b"held ", *sectors, out),
        Reply::Sectors(sectors) => push_number(b"sectors ", *sectors, out),
        Reply::Placed(lsn) => push_place(b"lsn ", *lsn, out),
        Reply::Flushed(lsn) => push_place(b"flushed ", *lsn, out),
        Reply::Found { cursor, entry } => push_found(*cursor, entry, out),
        Reply::Next(entry) => push_entry(entry, out),
        Reply::Base(lsn) => push_place(b"base ", *lsn, out),
        Reply::Tail(lsn) => push_place(b"tail ", *lsn, out),
        Reply::Extents(extents) => push_all_extents(extents.as_slice(), out),
        Reply::Containers(containers) => push_number(b"containers ", *containers, out),
        Reply::Info(info) => push_info(info, out),
        Reply::Refused(refusal) => {
            out.extend_from_slice(b"refused ")?;
            push_refusal(refusal, out)
        }
    }
}

// The whole line of a record's LSN, the reply that comes most often. It is put together on the stack and added at once.
fn push_placed(client: u16, lsn: Lsn, out: &mut Bytes) -> Result<(), AllocError>
    ensures { OnOk result (out.new ≡ out.old ++ reply_line client (Placed lsn)) }
{
    let mut lead = Lead::new();
    lead.put(b"\n");
    lead.put_lsn(lsn);
    lead.put(b" lsn ");
    lead.put_decimal(client as u32);
    out.extend_from_slice(lead.as_slice())
}

// The whole line of a call that was made and tells nothing.
fn push_done(client: u16, out: &mut Bytes) -> Result<(), AllocError>
    ensures { OnOk result (out.new ≡ out.old ++ reply_line client Done) }
{
    let mut lead = Lead::new();
    lead.put(b" ok\n");
    lead.put_decimal(client as u32);
    out.extend_from_slice(lead.as_slice())
}

// The whole line of a record that was found, and its cursor: all that stands before the data is added at once.
fn push_found_line(
    client: u16,
    cursor: u16,
    entry: &LogEntry,
    out: &mut Bytes,
) -> Result<(), AllocError>
    ensures { OnOk result (out.new ≡ out.old ++ reply_line client (Found cursor entry.now)) }
{
    let mut lead = Lead::new();
    put_entry(entry, &mut lead);
    lead.put(b" ");
    lead.put_decimal(cursor as u32);
    lead.put(b" cursor ");
    lead.put_decimal(client as u32);
    out.extend_from_slice(lead.as_slice())?;
    push_data(entry.bytes.as_slice(), out)?;
    out.extend_from_slice(b"\n")
}

// The same of any reply, part by part.
fn push_line(client: u16, reply: &Reply, out: &mut Bytes) -> Result<(), AllocError>
    ensures { OnOk result (out.new ≡ out.old ++ reply_line client reply.now) }
{
    let mut lead = Lead::new();
    lead.put(b" ");
    lead.put_decimal(client as u32);
    out.extend_from_slice(lead.as_slice())?;
    push_reply(reply, out)?;
    out.extend_from_slice(b"\n")
}

/// Adds the line of a reply at the end. Where memory lacks, nothing is said of `out`.
pub fn write_reply(client: u16, reply: &Reply, out: &mut Bytes) -> Result<(), AllocError>
    ensures { OnOk result (out.new ≡ out.old ++ reply_line client reply.now) }
{
    match reply {
        Reply::Placed(lsn) => push_placed(client, *lsn, out),
        Reply::Found { cursor, entry } => push_found_line(client, *cursor, entry, out),
        Reply::Done => push_done(client, out),
        _ => push_line(client, reply, out),
    }
}
