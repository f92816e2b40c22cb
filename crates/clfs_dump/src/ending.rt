// What stands after the last record: whether the base copy fits where the records end, and the last line.
ghost use Rattle.std.specs.Prelude.{◌≡◌, ◌+◌, ◌-◌, ◌^◌, ◌<◌, nat_lt, length, position};
ghost use Rattle.clfs_lsn.specs.Place.{frontier};
ghost use Rattle.clfs_base.specs.declared.image.Row.{Row};
ghost use Rattle.clfs_base.specs.Spelling.{IsImage};
ghost use Rattle.clfs_recover.specs.Gathering.{IsEnd};
ghost use Rattle.clfs_recover.specs.Walk.{shape_of, slot_offset, image_fault, is_wrong_tail};
ghost use Rattle.clfs_recover.specs.declared.refusal.LoadRefusal.TheVariants.{Damaged};
ghost use Rattle.clfs_dump.specs.Telling.{place_at, log_end};

use clfs_base::{BaseImage, Row, SLOT_BYTES, TAIL_AT, base_place};
use clfs_lsn::{Lsn, Place, frontier};
use clfs_recover::LoadRefusal;

// The first row whose base lies above an LSN.
fn first_high(rows: &[Row], frontier: Lsn) -> Option<usize>
    ensures { result ≡ position (λ (row : Row). nat_lt frontier row.base) rows.now }
{
    rows.iter().position(|row| frontier < row.base)
}

// Whether the archive tail is none that a log can have whose records end here.
fn is_wrong_tail(image: &BaseImage, frontier: Lsn) -> bool
    ensures { result ≡ is_wrong_tail image.now frontier }
{
    image.archiving && (frontier < image.tail || image.tail.container() < image.first)
}

// The byte of a base copy that is wrong by where the records end.
fn wrong_image(image: &BaseImage, frontier: Lsn) -> Option<u32>
    requires { length image.now.streams < 2 ^ 16 }
    ensures { result ≡ image_fault image.now frontier }
{
    if let Some(row) = first_high(image.streams.as_slice(), frontier) {
        return Some(base_place(image.version, row as u16));
    }
    if is_wrong_tail(image, frontier) {
        return Some(TAIL_AT);
    }
    None
}

// The place after the last block of the last listed container.
fn place_at(image: &BaseImage, end: u32) -> Place
    requires { IsImage image.now }
    ensures { result ≡ place_at image.now end }
{
    let others = image.files.as_slice().len() as u32 - 1;
    Place {
        container: image.first + others,
        offset: end,
        used: 0,
        records: 0,
    }
}

// A byte of a slot of the base file is wrong.
fn damaged_slot(slot: u32, at: u32) -> LoadRefusal
    ensures { result ≡ Damaged 0 (slot_offset slot) at }
{
    LoadRefusal::Damaged {
        container: 0,
        offset: if slot == 0 { 0 } else { SLOT_BYTES },
        at,
    }
}

/// Where the log goes on whose last listed container's blocks end at a byte, if its base copy fits that.
pub(crate) fn log_end(slot: u32, image: &BaseImage, end: u32) -> Result<Lsn, LoadRefusal>
    requires image { IsImage image.now }
    requires end { IsEnd (shape_of image.now) end }
    ensures { result ≡ log_end slot image.now (frontier (place_at image.now end)) }
{
    let lsn = frontier(&place_at(image, end));
    match wrong_image(image, lsn) {
        Some(at) => Err(damaged_slot(slot, at)),
        None => Ok(lsn),
    }
}
