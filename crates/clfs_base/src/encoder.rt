// Writing a base copy. Each part is filled with zeros and then written over from its front on, so that what is left of it is zeros.
ghost use Rattle.std.specs.Prelude.{◌≡◌, ◌+◌, ◌-◌, ◌*◌, ◌^◌, ◌<◌, ◌≤◌, ◌++◌, length, take, drop, replicate, EachIndex};
ghost use Rattle.std.specs.List.{flat_map};
ghost use Rattle.byteorder.specs.Endian.{little_bytes};
ghost use Rattle.clfs_base.specs.Layout.{slot_bytes, files_at, rows_at, row_bytes, fields};
ghost use Rattle.clfs_base.specs.Spelling.{IsImage, IsImageOf, row_in, current, flag, numbers_for, filled, field_bytes, number_bytes, spelled_row, spelled_as, spelled};

use crate::image::{BaseImage, Row};
use crate::layout::{FILES_AT, Layout, Numbers, ROWS_AT, VERSION_TWO, fields, row_bytes};
use byteorder::{ByteOrder, LittleEndian};

/// Writes what stands in a slot after its gate, bytes 1 to 16,383, in the second version, whatever the image's version.
pub fn encode(image: &BaseImage, out: &mut [u8])
    requires length { length out.old ≡ slot_bytes - 1 }
    requires image { IsImage image.now }
    ensures { out.new ≡ spelled (current image.now) }
{
    encode_as(&VERSION_TWO, image, out)
}

// The same in one version of the copies.
fn encode_as(layout: &Layout, image: &BaseImage, out: &mut [u8])
    requires length { length out.old ≡ slot_bytes - 1 }
    requires image { IsImageOf layout.now (record image.now { version = layout.now.version }) }
    requires room { row_bytes layout.now * layout.now.most_streams ≤ slot_bytes - rows_at }
    ensures { out.new ≡ spelled_as layout.now (record image.now { version = layout.now.version }) }
{
    let files = FILES_AT as usize - 1;
    let rows = ROWS_AT as usize - 1;
    put_fields(layout, &numbers_for(layout, image), &mut out[..files]);
    put_files(image.files.as_slice(), &mut out[files..rows]);
    put_rows(layout, image.streams.as_slice(), &mut out[rows..]);
}

// The numbers in the fields of an image.
fn numbers_for(layout: &Layout, image: &BaseImage) -> Numbers
    requires files { length image.now.files < 2 ^ 16 }
    requires streams { length image.now.streams < 2 ^ 16 }
    ensures { result ≡ numbers_for (record image.now { version = layout.now.version }) }
{
    Numbers {
        version: layout.version,
        turn: image.turn,
        zero: 0,
        block_sectors: image.block_sectors,
        container_sectors: image.container_sectors,
        containers: image.containers,
        files_made: image.files_made,
        first: image.first,
        listed: image.files.as_slice().len() as u16,
        streams: image.streams.as_slice().len() as u16,
        archiving: flag(image.archiving),
        automatic: flag(image.automatic),
        maximum: image.maximum,
        minimum: image.minimum,
        growth: image.growth,
        tail: image.tail.number(),
        dedicated: flag(image.dedicated),
    }
}

// 1 where it is on.
fn flag(on: bool) -> u8
    ensures { result ≡ flag on }
{
    if on { 1 } else { 0 }
}

// The fields, and zeros after them.
fn put_fields(layout: &Layout, n: &Numbers, out: &mut [u8])
    requires { length out.old ≡ files_at - 1 }
    ensures { out.new ≡ filled (files_at - 1) (flat_map field_bytes (fields layout.now n.now)) }
{
    let table = fields(layout, n);
    clear(out);
    for field in &table {
        put(
            out,
            field.at as usize - 1,
            field.width as usize,
            field.number,
        );
    }
}

// The file numbers, and zeros after them.
fn put_files(files: &[u16], out: &mut [u8])
    requires length { length out.old ≡ rows_at - files_at }
    requires few { 2 * length files.now ≤ rows_at - files_at }
    ensures { out.new ≡ filled (rows_at - files_at) (flat_map number_bytes files.now) }
{
    clear(out);
    for (i, file) in files.iter().enumerate() {
        put(out, 2 * i, 2, *file as u64);
    }
}

// The rows, and zeros after them.
fn put_rows(layout: &Layout, rows: &[Row], out: &mut [u8])
    requires length { length out.old ≡ slot_bytes - rows_at }
    requires few { row_bytes layout.now * length rows.now ≤ slot_bytes - rows_at }
    requires names { EachIndex rows.now (λ i. length (row_in rows.now i).name ≤ layout.now.longest_name) }
    ensures { out.new ≡ filled (slot_bytes - rows_at) (flat_map (spelled_row layout.now.longest_name) rows.now) }
{
    let width = row_bytes(layout) as usize;
    clear(out);
    for (i, row) in rows.iter().enumerate() {
        put_row(out, width * i, width, row);
    }
}

// Puts a row of so many bytes in its place.
fn put_row(out: &mut [u8], at: usize, width: usize, row: &Row)
    requires place { at + width ≤ length out.old }
    requires room { 16 + length row.now.name ≤ width }
    requires name { length row.now.name < 2 ^ 8 }
    ensures { out.new ≡ take at out.old ++ (spelled_row (width - 16) row.now ++ drop (at + width) out.old) }
{
    fill_row(row, &mut out[at..at + width]);
}

// Writes a row over as many bytes as it has.
fn fill_row(row: &Row, out: &mut [u8])
    requires room { 16 + length row.now.name ≤ length out.old }
    requires name { length row.now.name < 2 ^ 8 }
    ensures { out.new ≡ spelled_row (length out.old - 16) row.now }
{
    let name = row.name.as_slice();
    clear(out);
    put(out, 0, 1, name.len() as u64);
    put(out, 8, 8, row.base.number());
    put_bytes(out, 16, name);
}

// Makes all bytes zeros.
fn clear(out: &mut [u8])
    ensures { out.new ≡ replicate (length out.old) 0 }
{
    for byte in out.iter_mut() {
        *byte = 0;
    }
}

// Puts a number of so many bytes in its place.
fn put(out: &mut [u8], at: usize, width: usize, number: u64)
    requires place { at + width ≤ length out.old }
    requires width { width ≤ 8 }
    ensures { out.new ≡ take at out.old ++ (little_bytes width number ++ drop (at + width) out.old) }
{
    let mut bytes = [0; 8];
    LittleEndian::write_u64(&mut bytes, number);
    put_bytes(out, at, &bytes[..width]);
}

// Puts bytes in their place.
fn put_bytes(out: &mut [u8], at: usize, bytes: &[u8])
    requires { at + length bytes.now ≤ length out.old }
    ensures { out.new ≡ take at out.old ++ (bytes.now ++ drop (at + length bytes.now) out.old) }
{
    out[at..at + bytes.len()].copy_from_slice(bytes);
}
