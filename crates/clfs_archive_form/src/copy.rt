// The base copy of a log that is restored.
ghost use Rattle.std.specs.Prelude.{◌≡◌, ◌+◌, ◌^◌, ◌<◌, ◌≤◌, min, [], length, IfOk};
ghost use Rattle.std.specs.List.{range_with_len};
ghost use Rattle.clfs_lsn.specs.Limits.{most_containers};
ghost use Rattle.clfs_lsn.specs.Lsn.{lsn_number, container_of};
ghost use Rattle.clfs_base.specs.Spelling.{IsImage};
ghost use Rattle.clfs_archive_form.specs.Written.{lowered_rows, restored_copy};

use clfs_base::{BaseImage, Files, Row, Rows, VERSION, copies_are_read_as_written};
use clfs_lsn::Lsn;
use std::alloc::{AllocError, Global};
use std::mem;

// The files of so many containers: 1, 2 and so on.
fn first_files(alloc: Global, count: u16) -> Result<Files, AllocError>
    requires { count ≤ most_containers }
    ensures { IfOk result (λ files. files ≡ range_with_len 1 count) }
{
    let mut files = Files::new(alloc)?;
    for number in 1..count + 1 {
        files.push(number);
    }
    Ok(files)
}

// A base, or an LSN that it is not to lie above.
fn lowered(base: Lsn, end: Lsn) -> Lsn
    ensures { result ≡ min base end }
{
    base.min(end)
}

// The rows with no base above an LSN.
fn lower_bases(rows: Vec<Row>, end: Lsn) -> Vec<Row>
    ensures { result.items ≡ lowered_rows end rows.items }
{
    let mut rows = rows;
    for i in 0..rows.len() {
        rows[i].base = lowered(rows[i].base, end);
    }
    rows
}

// Takes the rows out of a copy.
fn take_rows(alloc: Global, image: &mut BaseImage) -> Vec<Row>
    ensures result { result.items ≡ image.old.streams }
    ensures image { image.new ≡ record image.old { streams = [] } }
{
    mem::replace(&mut image.streams, Rows::from_vec(Vec::new(alloc))).into_vec()
}

/// The base copy of a log that is restored up to an LSN, where the blocks of its last container end at a byte of it.
pub fn restored_copy(
    alloc: Global,
    image: BaseImage,
    up_to: Lsn,
    end: u32,
) -> Result<BaseImage, AllocError>
    requires image { IsImage image }
    requires listed { (image.first ≤ container_of up_to) × (container_of up_to < image.first + length image.files) }
    ensures exact { IfOk result (λ copy. copy ≡ restored_copy image up_to (lsn_number (container_of up_to) end 0)) }
    ensures image { IfOk result (λ copy. IsImage copy) }
{
    copies_are_read_as_written();
    let container = up_to.container();
    let files = first_files(alloc, (container - image.first + 1) as u16)?;
    let end = Lsn::from_parts(container, end, 0);
    let mut copy = image;
    let rows = take_rows(alloc, &mut copy);
    copy.version = VERSION;
    copy.turn = 0;
    copy.files_made = copy.containers;
    copy.tail = lowered(copy.tail, end);
    copy.files = files;
    copy.streams = Rows::from_vec(lower_bases(rows, end));
    Ok(copy)
}
