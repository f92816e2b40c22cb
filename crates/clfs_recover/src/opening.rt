// Opening: a sync, the newest base copy, the walk, and what hangs on the records in the base copy.
ghost use Rattle.std.specs.Prelude.{◌≡◌, ◌≢◌, ◌+◌, ◌-◌, ◌*◌, ◌^◌, ◌<◌, ◌≤◌, nat_lt, ℕ, List, [], length, map, position, OnOk, IfOk, IfErr, IsErrOf, Ok};
ghost use Rattle.clfs_lsn.specs.Head.{head_of};
ghost use Rattle.clfs_lsn.specs.Format.{sector_bytes};
ghost use Rattle.clfs_lsn.specs.Place.{IsSmall, frontier};
ghost use Rattle.clfs_lsn.specs.Size.{IsShape};
ghost use Rattle.clfs_lsn.specs.declared.entry.LogEntry.{LogEntry};
ghost use Rattle.clfs_disk.specs.Files.{Unchanged};
ghost use Rattle.clfs_disk.specs.State.{TellsContents, IsHonest, IsSteady, IsSettled, Passes, Rises};
ghost use Rattle.clfs_base.specs.declared.image.Row.{Row};
ghost use Rattle.clfs_base.specs.Layout.{row_place};
ghost use Rattle.clfs_base.specs.Spelling.{IsImage};
ghost use Rattle.clfs_recover.specs.Walk.{Container, walked, shape_of, image_fault, is_wrong_tail};
ghost use Rattle.clfs_recover.specs.Files.{AreListed};
ghost use Rattle.clfs_recover.specs.Gathering.{RefusesAs, IsEnd};
ghost use Rattle.clfs_recover.specs.Opening.{parts_of, told_parts, IsWalked, IsWalkedLog, IsLoaded, AreHeadsLoaded};
ghost use Rattle.clfs_recover.specs.KnownLogs.{IsOpenedFrom};
ghost use Rattle.clfs_recover.specs.Telling.{TellsBehind, TellsOpening};
ghost use Rattle.clfs_recover.specs.declared.parts.Parts.{Parts};

use crate::gatherer::Gatherer;
use crate::listed::gather_listed;
use crate::parts::{Bases, Entries, HeadGatherer, HeadParts, Parts};
use crate::piece::Ahead;
use crate::refusal::{LoadRefusal, damaged_slot};
use clfs_base::{BaseImage, Row, TAIL_AT, base_place, read_newest};
use clfs_container::open_blocks_are_one_list;
use clfs_disk::{Disk, calls_join};
use clfs_lsn::{Lsn, Place, SECTOR, Shape, frontier};
use std::alloc::{AllocError, Global};

// The most bytes of a file that are read at a time. Longer pieces go through more memory than a processor keeps near, and were slower.
const PIECE: u32 = 1 << 17;

/// What a walk leaves beside the records, which its gatherer has.
#[derive(Debug, Drop)]
pub struct Walked {
    /// The slot of the newest base copy, 0 or 1.
    pub slot: u32,
    /// The newest base copy.
    pub image: BaseImage,
    /// The bases of the streams, one for each row of the base copy.
    pub bases: Bases,
    /// Where the log goes on. No block is open there.
    pub place: Place,
}

// The first row whose base lies above an LSN.
fn first_high(rows: &[Row], frontier: Lsn) -> Option<usize>
    ensures { result ≡ position (λ (row : Row). nat_lt frontier row.base) rows.now }
{
    rows.iter().position(|row| frontier < row.base)
}

// Whether the archive tail is none that a log can have whose records end here.
fn is_wrong_tail(image: &BaseImage, frontier: Lsn) -> bool
    ensures { result ≡ is_wrong_tail image.now frontier }
{
    image.archiving && (frontier < image.tail || image.tail.container() < image.first)
}

// The byte of a base copy that is wrong by where the records end.
fn wrong_image(image: &BaseImage, frontier: Lsn) -> Option<u32>
    requires { length image.now.streams < 2 ^ 16 }
    ensures { result ≡ image_fault image.now frontier }
{
    if let Some(row) = first_high(image.streams.as_slice(), frontier) {
        return Some(base_place(image.version, row as u16));
    }
    if is_wrong_tail(image, frontier) {
        return Some(TAIL_AT);
    }
    None
}

// The bases of the rows.
fn row_bases(alloc: Global, rows: &[Row]) -> Result<Vec<Lsn>, AllocError>
    ensures { IfOk result (λ bases. bases.items ≡ map (λ (row : Row). row.base) rows.now) }
{
    rows.iter().map(|row| row.base).collect(alloc)
}

// How many bytes are read at a time: a container, where that is short.
fn piece_bytes(shape: &Shape) -> usize
    requires { IsShape shape.now }
    ensures { sector_bytes * shape.now.block_sectors ≤ result }
{
    (SECTOR * shape.container_sectors).min(PIECE) as usize
}

// The place after the last block of the last listed container.
fn place_behind(image: &BaseImage, end: u32) -> Place
    requires { IsImage image.now }
    ensures { result ≡ record { container = image.now.first + length image.now.files - 1; offset = end; used = 0; records = 0 } }
{
    let others = image.files.as_slice().len() as u32 - 1;
    Place {
        container: image.first + others,
        offset: end,
        used: 0,
        records: 0,
    }
}

// The walk over the containers that a base copy lists, and whether the copy fits what is found.
fn walk_image<D: Disk, G: Gatherer>(
    alloc: Global,
    disk: &mut D,
    slot: u32,
    image: BaseImage,
    gatherer: &mut G,
) -> Result<Walked, LoadRefusal>
    requires slot { slot ≤ 1 }
    requires image { IsImage image }
    ensures log { G.has gatherer.old [] → IfOk result (λ walked.
        IsWalkedLog (G.has gatherer.new) (TellsContents (D.state disk.old)) (D.state disk.old).files slot image walked) }
    ensures refused { TellsContents (D.state disk.old) → G.has gatherer.old [] → (listed : List Container)
        → AreListed image.container_sectors (D.state disk.old).files image.files listed
        → IfErr result (λ refusal. RefusesAs refusal (walked slot image listed)) }
    ensures told { G.has gatherer.old [] → IfErr result (TellsBehind slot image) }
    ensures same { Unchanged (D.state disk.old).files (D.state disk.new).files }
    ensures time { Passes Unchanged (D.state disk.old) (D.state disk.new) }
    ensures cause { IsErrOf result LoadRefusal.DiskFault → Rises (D.state disk.old).faults (D.state disk.new).faults }
    ensures steady { IsSteady (D.state disk.old) → (IsErrOf result LoadRefusal.DiskFault → ⊥)
        × ((D.state disk.new).faults ≡ (D.state disk.old).faults) }
{
    open_blocks_are_one_list();
    let shape = Shape {
        block_sectors: image.block_sectors,
        container_sectors: image.container_sectors,
    };
    let mut piece = Ahead::new(alloc, piece_bytes(&shape))?;
    let mut bases = row_bases(alloc, image.streams.as_slice())?;
    let files = image.files.as_slice();
    let end = gather_listed(
        alloc,
        disk,
        image.first,
        files,
        &shape,
        &mut piece,
        gatherer,
        &mut bases,
    )?;
    let place = place_behind(&image, end);
    if let Some(at) = wrong_image(&image, frontier(&place)) {
        return Err(damaged_slot(slot, at));
    }
    Ok(Walked {
        slot,
        image,
        bases: Bases::from_vec(bases),
        place,
    })
}

/// Syncs the disk, reads the newest base copy, and hands each record of the listed containers on, in the order of their LSNs. Over files that
/// stand for a state it answers that state's parts; over others, why they stand for none. It writes nothing.
pub fn walk<D: Disk, G: Gatherer>(
    alloc: Global,
    disk: &mut D,
    gatherer: &mut G,
) -> Result<Walked, LoadRefusal>
    ensures exact { TellsContents (D.state disk.old) → G.has gatherer.old [] → IsWalked (G.has gatherer.new) (D.state disk.old).files result }
    ensures told { G.has gatherer.old [] → IfErr result TellsOpening }
    ensures log { G.has gatherer.old [] → IfOk result (λ walked. (entries : List LogEntry) × G.has gatherer.new entries
        × IsOpenedFrom (D.state disk.old) (parts_of walked entries)) }
    ensures settled { OnOk result (IsHonest (D.state disk.old) → IsSettled (D.state disk.new)) }
    ensures settled_refused { IfErr result (λ refusal. refusal ≢ LoadRefusal.DiskFault → IsHonest (D.state disk.old) → IsSettled (D.state disk.new)) }
    ensures same { Unchanged (D.state disk.old).files (D.state disk.new).files }
    ensures time { Passes Unchanged (D.state disk.old) (D.state disk.new) }
    ensures cause { IsErrOf result LoadRefusal.DiskFault → Rises (D.state disk.old).faults (D.state disk.new).faults }
    ensures steady { IsSteady (D.state disk.old) → (IsErrOf result LoadRefusal.DiskFault → ⊥)
        × ((D.state disk.new).faults ≡ (D.state disk.old).faults) }
{
    calls_join::<D>();
    open_blocks_are_one_list();
    disk.sync()?;
    let (slot, image) = read_newest(alloc, disk)?;
    walk_image(alloc, disk, slot, image, gatherer)
}

/// Opens a log with its records.
pub fn load<D: Disk>(alloc: Global, disk: &mut D) -> Result<Parts, LoadRefusal>
    ensures exact { TellsContents (D.state disk.old) → IsLoaded (D.state disk.old).files result }
    ensures told { IfErr result TellsOpening }
    ensures log { IfOk result (λ parts. IsOpenedFrom (D.state disk.old) parts) }
    ensures settled { OnOk result (IsHonest (D.state disk.old) → IsSettled (D.state disk.new)) }
    ensures settled_refused { IfErr result (λ refusal. refusal ≢ LoadRefusal.DiskFault → IsHonest (D.state disk.old) → IsSettled (D.state disk.new)) }
    ensures same { Unchanged (D.state disk.old).files (D.state disk.new).files }
    ensures time { Passes Unchanged (D.state disk.old) (D.state disk.new) }
    ensures cause { IsErrOf result LoadRefusal.DiskFault → Rises (D.state disk.old).faults (D.state disk.new).faults }
    ensures steady { IsSteady (D.state disk.old) → (IsErrOf result LoadRefusal.DiskFault → ⊥)
        × ((D.state disk.new).faults ≡ (D.state disk.old).faults) }
{
    let mut entries = Entries::new(alloc);
    let walked = walk(alloc, disk, &mut entries)?;
    Ok(Parts {
        slot: walked.slot,
        image: walked.image,
        entries,
        bases: walked.bases,
        place: walked.place,
    })
}

/// Opens a log with the heads of its records, as `load` does with the records.
pub fn load_heads<D: Disk>(alloc: Global, disk: &mut D) -> Result<HeadParts, LoadRefusal>
    ensures exact { TellsContents (D.state disk.old) → AreHeadsLoaded (D.state disk.old).files result }
    ensures told { IfErr result TellsOpening }
    ensures log { IfOk result (λ opened. (opened.heads ≡ map head_of opened.entries.value) × IsOpenedFrom (D.state disk.old) (told_parts opened)) }
    ensures settled { OnOk result (IsHonest (D.state disk.old) → IsSettled (D.state disk.new)) }
    ensures settled_refused { IfErr result (λ refusal. refusal ≢ LoadRefusal.DiskFault → IsHonest (D.state disk.old) → IsSettled (D.state disk.new)) }
    ensures same { Unchanged (D.state disk.old).files (D.state disk.new).files }
    ensures time { Passes Unchanged (D.state disk.old) (D.state disk.new) }
    ensures cause { IsErrOf result LoadRefusal.DiskFault → Rises (D.state disk.old).faults (D.state disk.new).faults }
    ensures steady { IsSteady (D.state disk.old) → (IsErrOf result LoadRefusal.DiskFault → ⊥)
        × ((D.state disk.new).faults ≡ (D.state disk.old).faults) }
{
    let mut gatherer = HeadGatherer::new(alloc);
    let walked = walk(alloc, disk, &mut gatherer)?;
    Ok(HeadParts {
        slot: walked.slot,
        image: walked.image,
        heads: gatherer.heads,
        entries: gatherer.entries,
        bases: walked.bases,
        place: walked.place,
    })
}
