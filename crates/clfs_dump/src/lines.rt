// The lines of a dump, each added after the text that is there.
ghost use Rattle.std.specs.Prelude.{◌≡◌, ◌++◌, ◌^◌, ◌<◌, ◌≤◌, ℕ, List, OnOk, codes, length, decimal};
ghost use Rattle.clfs_lsn.specs.Words.{lsn_text};
ghost use Rattle.clfs_model.specs.Text.{kind_text};
ghost use Rattle.clfs_record.specs.Decoding.{entry_with};
ghost use Rattle.clfs_dump.specs.Lines.{number_after, place_after, tail_text, sizes_text, copy_text, log_line, stream_line, stream_lines, container_line, block_line, record_front, record_links, record_line, end_line, damage_line};

use crate::data::push_part;
use crate::selection::DataForm;
use clfs_base::{BaseImage, Row};
use clfs_block::BlockHead;
use clfs_lsn::{Bytes, Head, Kind, Lsn};
use clfs_text::{push_decimal, push_lsn};
use std::alloc::AllocError;

// A text and then a number.
fn push_number(text: &[u8], number: u32, out: &mut Bytes) -> Result<(), AllocError>
    ensures { OnOk result (out.new ≡ out.old ++ number_after text.now number) }
{
    out.extend_from_slice(text)?;
    push_decimal(number as u64, out)
}

// A text and then an LSN.
fn push_place(text: &[u8], lsn: Lsn, out: &mut Bytes) -> Result<(), AllocError>
    ensures { OnOk result (out.new ≡ out.old ++ place_after text.now lsn) }
{
    out.extend_from_slice(text)?;
    push_lsn(lsn, out)
}

fn push_tail(image: &BaseImage, out: &mut Bytes) -> Result<(), AllocError>
    ensures { OnOk result (out.new ≡ out.old ++ tail_text image.now) }
{
    if image.archiving {
        return push_lsn(image.tail, out);
    }
    out.extend_from_slice(b"off")
}

fn push_sizes(image: &BaseImage, out: &mut Bytes) -> Result<(), AllocError>
    requires files { length image.now.files < 2 ^ 32 }
    requires streams { length image.now.streams < 2 ^ 32 }
    ensures { OnOk result (out.new ≡ out.old ++ sizes_text image.now) }
{
    push_number(b"log block ", image.block_sectors, out)?;
    push_number(b" container ", image.container_sectors, out)?;
    push_number(b" containers ", image.containers as u32, out)?;
    push_number(b" files ", image.files_made as u32, out)?;
    push_number(b" listed ", image.files.as_slice().len() as u32, out)?;
    push_number(b" streams ", image.streams.as_slice().len() as u32, out)
}

fn push_copy(slot: u32, image: &BaseImage, out: &mut Bytes) -> Result<(), AllocError>
    ensures { OnOk result (out.new ≡ out.old ++ copy_text slot image.now) }
{
    out.extend_from_slice(b" archive ")?;
    push_tail(image, out)?;
    push_number(b" version ", image.version as u32, out)?;
    push_number(b" slot ", slot, out)?;
    push_number(b" turn ", image.turn as u32, out)?;
    out.extend_from_slice(b"\n")
}

/// Adds the line of a log.
pub(crate) fn push_log(slot: u32, image: &BaseImage, out: &mut Bytes) -> Result<(), AllocError>
    requires files { length image.now.files < 2 ^ 32 }
    requires streams { length image.now.streams < 2 ^ 32 }
    ensures { OnOk result (out.new ≡ out.old ++ log_line slot image.now) }
{
    push_sizes(image, out)?;
    push_copy(slot, image, out)
}

fn push_stream(number: u32, row: &Row, out: &mut Bytes) -> Result<(), AllocError>
    ensures { OnOk result (out.new ≡ out.old ++ stream_line number row.now) }
{
    push_number(b"stream ", number, out)?;
    push_place(b" base ", row.base, out)?;
    out.extend_from_slice(b" ")?;
    out.extend_from_slice(row.name.as_slice())?;
    out.extend_from_slice(b"\n")
}

/// Adds the lines of all streams.
pub(crate) fn push_streams(rows: &[Row], out: &mut Bytes) -> Result<(), AllocError>
    requires { length rows.now < 2 ^ 16 }
    ensures { OnOk result (out.new ≡ out.old ++ stream_lines 1 rows.now) }
{
    for (i, row) in rows.iter().enumerate() {
        push_stream(i as u32 + 1, row, out)?;
    }
    Ok(())
}

/// Adds the line of a container.
pub(crate) fn push_container(id: u32, file: u16, out: &mut Bytes) -> Result<(), AllocError>
    ensures { OnOk result (out.new ≡ out.old ++ container_line id file) }
{
    push_number(b"container ", id, out)?;
    push_number(b" file ", file as u32, out)?;
    out.extend_from_slice(b"\n")
}

/// Adds the line of a block.
pub(crate) fn push_block_line(
    start: Lsn,
    head: BlockHead,
    out: &mut Bytes,
) -> Result<(), AllocError>
    ensures { OnOk result (out.new ≡ out.old ++ block_line start head) }
{
    push_place(b"block ", start, out)?;
    push_number(b" sectors ", head.sectors, out)?;
    push_number(b" records ", head.records, out)?;
    push_number(b" used ", head.used, out)?;
    out.extend_from_slice(b"\n")
}

fn kind_word(kind: Kind) -> &'static [u8]
    ensures { result.now ≡ codes " " ++ kind_text kind }
{
    match kind {
        Kind::Plain => b" data",
        Kind::Restart => b" restart",
    }
}

fn push_record_front(head: &Head, out: &mut Bytes) -> Result<(), AllocError>
    ensures { (bytes : List ℕ) → OnOk result (out.new ≡ out.old ++ record_front (entry_with head.now bytes)) }
{
    push_place(b"record ", head.lsn, out)?;
    push_number(b" ", head.stream as u32, out)?;
    out.extend_from_slice(kind_word(head.kind))
}

fn push_record_links(head: &Head, out: &mut Bytes) -> Result<(), AllocError>
    ensures { (bytes : List ℕ) → OnOk result (out.new ≡ out.old ++ record_links (entry_with head.now bytes)) }
{
    push_place(b" ", head.previous, out)?;
    push_place(b" ", head.undo_next, out)?;
    push_place(b" ", head.new_base, out)
}

/// Adds the line of a record, by its head and its data.
pub(crate) fn push_record(
    form: DataForm,
    head: &Head,
    bytes: &[u8],
    out: &mut Bytes,
) -> Result<(), AllocError>
    ensures { OnOk result (out.new ≡ out.old ++ record_line form (entry_with head.now bytes.now)) }
{
    push_record_front(head, out)?;
    push_record_links(head, out)?;
    push_part(form, bytes, out)?;
    out.extend_from_slice(b"\n")
}

/// Adds the line of the place at which a log goes on.
pub(crate) fn push_end(lsn: Lsn, out: &mut Bytes) -> Result<(), AllocError>
    ensures { OnOk result (out.new ≡ out.old ++ end_line lsn) }
{
    push_place(b"end ", lsn, out)?;
    out.extend_from_slice(b"\n")
}

/// Adds the line of a first wrong byte.
pub(crate) fn push_damage(
    container: u32,
    offset: u32,
    at: u32,
    out: &mut Bytes,
) -> Result<(), AllocError>
    ensures { OnOk result (out.new ≡ out.old ++ damage_line container offset at) }
{
    push_number(b"damage container ", container, out)?;
    push_number(b" offset ", offset, out)?;
    push_number(b" byte ", at, out)?;
    out.extend_from_slice(b"\n")
}
