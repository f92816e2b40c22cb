// A log as a manager has it in memory: tables of its records by their heads, the areas of clients, what is set, the newest base copy, what waits to
// be written, and blocks that were read. The state for which all this stands is told, for clauses alone.
ghost use Rattle.std.specs.Prelude.{◌≡◌, ◌≤◌, ◌<◌, ◌^◌, [], map, if◌then◌else◌, Some, None, IfOk, true};
ghost use Rattle.clfs_base.specs.Spelling.{IsImage};
ghost use Rattle.clfs_manager.specs.Machine.{block_start, head_of, IsClosed, IsShape, IsWithin, most_write_buffers, with_broken};
ghost use Rattle.clfs_recover.specs.Files.{policy_of};
ghost use Rattle.clfs_recover.specs.Walk.{shape_of};
ghost use Rattle.clfs_recover.specs.KnownLogs.{IsLogOf};
ghost use Rattle.clfs_recover.specs.Opening.{told_parts};
ghost use Rattle.clfs_manager.specs.Flushing.{IsBroken};
ghost use Rattle.clfs_manager.specs.Memory.{policies_in};
ghost use Rattle.clfs_manager.specs.Opened.{FitTables, FitsMemory, HaveRecords, IsOpened};

use clfs_archive::{Archive, open_archive};
use clfs_areas::Areas;
use clfs_base::{BaseImage, copies_are_read_as_written};
use clfs_buffers::Buffers;
use clfs_laws::numbers_fit_their_types;
use clfs_lsn::{Lsn, Place, Shape};
use clfs_model::State;
use clfs_physical::Physical;
use clfs_policy::Policies;
use clfs_queue::Queue;
use clfs_recover::{
    HeadParts, copies_without_fault_fit, logs_are_found_in_files,
    opened_bases_are_moved_by_records, opened_copies_fit, opened_records_lie_in_order,
    opened_states_are_valid,
};
use clfs_tables::{Tables, open_tables};
use clfs_told::Told;
use std::alloc::{AllocError, Global};

// All of a log but its disk.
#[derive(Drop)]
pub(crate) struct Log {
    pub alloc: Global,
    pub tables: Tables,
    pub areas: Areas,
    pub archive: Archive,
    pub policies: Policies,
    pub physical: Physical,
    pub queue: Queue,
    pub buffers: Buffers,
    pub broken: bool,
    pub state: Told<State>,
}

// The state after a fault of the disk or damage.
pub(crate) fn broken(state: &Told<State>) -> Told<State>
    ensures { result.value ≡ with_broken state.now.value }
{
    state.next(&())
}

impl Log {
    // The log is broken from now on.
    pub(crate) fn break_log(&mut self)
        ensures broken { IsBroken self.old self.new }
        ensures same { self.new ≡ record self.old { broken = true; state = self.new.state } }
    {
        self.broken = true;
        self.state = broken(&self.state);
    }
}

// The number of a policy, or none where it is 0.
fn policy_of(value: u16) -> Option<u16>
    ensures { result ≡ policy_of value }
{
    if value == 0 { None } else { Some(value) }
}

// The policies that a base copy has.
fn policies_in(image: &BaseImage) -> Policies
    ensures { result ≡ policies_in image.now }
{
    Policies {
        maximum: policy_of(image.maximum),
        minimum: policy_of(image.minimum),
        growth: policy_of(image.growth),
        automatic: image.automatic,
    }
}

// The archive tail that a base copy has, where archiving is on.
fn tail_in(image: &BaseImage) -> Option<Lsn>
    ensures { result ≡ (if image.now.archiving then Some image.now.tail else None) }
{
    if image.archiving {
        Some(image.tail)
    } else {
        None
    }
}

// How large blocks and containers are, as a base copy says it.
pub(crate) fn shape_of(image: &BaseImage) -> Shape
    ensures { result ≡ shape_of image.now }
{
    Shape {
        block_sectors: image.block_sectors,
        container_sectors: image.container_sectors,
    }
}

// The LSN at which the next block begins.
fn start_of(place: &Place) -> Lsn
    requires { place.now.offset < 2 ^ 32 }
    ensures { result ≡ block_start place.now }
{
    Lsn::from_parts(place.container, place.offset, 0)
}

// What was found of a log fits memory.
fn opened_parts_fit(opened: &HeadParts, write_buffers: u32)
    requires log { IsLogOf (told_parts opened.now) }
    requires some { 1 ≤ write_buffers }
    requires few { write_buffers ≤ most_write_buffers }
    ensures { FitsMemory (told_parts opened.now) write_buffers }
{
    copies_are_read_as_written();
    logs_are_found_in_files();
    copies_without_fault_fit();
    opened_states_are_valid();
    opened_copies_fit();
    opened_records_lie_in_order();
    opened_bases_are_moved_by_records();
    numbers_fit_their_types();
}

// The tables of what was found, and where its sealed blocks end.
fn open_records(alloc: Global, opened: &HeadParts) -> Result<(Tables, Archive), AllocError>
    requires heads { opened.now.heads ≡ map head_of opened.now.entries.value }
    requires fit { FitTables (told_parts opened.now) }
    ensures { IfOk result (λ both. HaveRecords (told_parts opened.now) both.0 both.1) }
{
    let heads = opened.heads.as_slice();
    let rows = opened.image.streams.as_slice();
    let tables = open_tables(alloc, rows, opened.bases.as_slice(), heads)?;
    let next = start_of(&opened.place);
    let archive = open_archive(alloc, tail_in(&opened.image), heads, next)?;
    Ok((tables, archive))
}

// What waits to be written, nothing yet, and the blocks that are read, none yet.
fn open_blocks(
    alloc: Global,
    opened: &HeadParts,
    write_buffers: u32,
    read_buffers: u32,
) -> Result<(Queue, Buffers), AllocError>
    requires shape { IsShape (shape_of opened.now.image) }
    requires place { IsWithin (shape_of opened.now.image) opened.now.place }
    requires closed { IsClosed opened.now.place }
    requires some { 1 ≤ write_buffers }
    requires few { write_buffers ≤ most_write_buffers }
    requires reads { 1 ≤ read_buffers }
    ensures queue { IfOk result (λ both. both.0 ≡ record {
      shape = shape_of opened.now.image;
      buffers = write_buffers;
      place = opened.now.place;
      waiting = [];
      records = [];
    }) }
    ensures kept { IfOk result (λ both. both.1 ≡ record { most = read_buffers; blocks = [] }) }
{
    let queue = Queue::new(
        alloc,
        &shape_of(&opened.image),
        write_buffers,
        &opened.place,
    )?;
    let buffers = Buffers::new(alloc, read_buffers)?;
    Ok((queue, buffers))
}

// The newest copy of what was found.
fn newest_of(alloc: Global, opened: HeadParts) -> Result<Physical, AllocError>
    requires slot { opened.slot ≤ 1 }
    requires image { IsImage opened.image }
    ensures { IfOk result (λ newest. newest ≡ record { slot = opened.slot; image = opened.image }) }
{
    let HeadParts { slot, image, .. } = opened;
    Physical::new(alloc, slot, image)
}

// A log that was opened, with so many write buffers, which keeps so many blocks that are read. All memory that its blocks and base copies will ever need is taken here.
// The copy may list containers below the hold's; of these nothing is kept.
pub(crate) fn open_log(
    alloc: Global,
    opened: HeadParts,
    write_buffers: u32,
    read_buffers: u32,
) -> Result<Log, AllocError>
    requires log { IsLogOf (told_parts opened) }
    requires heads { opened.heads ≡ map head_of opened.entries.value }
    requires some { 1 ≤ write_buffers }
    requires few { write_buffers ≤ most_write_buffers }
    requires reads { 1 ≤ read_buffers }
    ensures { IfOk result (λ log. IsOpened (told_parts opened) write_buffers read_buffers log) }
{
    opened_parts_fit(&opened, write_buffers);
    let state = Told::pick(&(&opened, write_buffers));
    let policies = policies_in(&opened.image);
    let records = open_records(alloc, &opened)?;
    let blocks = open_blocks(alloc, &opened, write_buffers, read_buffers)?;
    let physical = newest_of(alloc, opened)?;
    let mut log = Log {
        alloc,
        tables: records.0,
        areas: Areas::new(alloc),
        archive: records.1,
        policies,
        physical,
        queue: blocks.0,
        buffers: blocks.1,
        broken: false,
        state,
    };
    log.forget_low();
    Ok(log)
}
