// What the next copy says.
ghost use Rattle.std.specs.Prelude.{◌≡◌, ◌+◌, ◌≤◌, ◌-◌, ◌∷◌, ◌++◌, [], length, OnOk, OnErr};
ghost use Rattle.clfs_base.specs.Spelling.{IsImage};
ghost use Rattle.clfs_physical.specs.Changes.{with_next_turn, with_file, listed_from, with_base, with_stream, with_containers, changed, next_copy, Suits, CanHave, IsNewRow};
ghost use Rattle.clfs_physical.specs.Taking.{IsNextFile, HasRoom};

use clfs_base::{BaseImage, Row, Rows, VERSION, copies_are_read_as_written};
use clfs_lsn::Lsn;
use std::alloc::{AllocError, Global};
use std::mem;

/// What a base copy is written for. It takes no memory.
#[derive(Clone, Copy, Debug)]
pub enum Change {
    /// Which containers are listed, and nothing else.
    Listing,
    /// The base of the stream of this number, from 1.
    Base {
        stream: u16,
        base: Lsn,
    },
    /// Whether archiving is on, and the archive tail, null where it is off.
    Archive {
        archiving: bool,
        tail: Lsn,
    },
    /// All policies but those of archiving, as in a copy.
    Policies {
        automatic: bool,
        maximum: u16,
        minimum: u16,
        growth: u16,
    },
}

/// Makes a copy the one that follows it, with the containers from `first` on and after a change.
pub fn apply(alloc: Global, image: &mut BaseImage, first: u32, change: &Change)
    requires first { image.old.first ≤ first }
    requires listed { first + 1 ≤ image.old.first + length image.old.files }
    requires image { IsImage image.old }
    requires change { Suits change.now image.old }
    ensures exact { image.new ≡ next_copy first change.now image.old }
    ensures image { IsImage image.new }
    ensures version { image.new.version ≡ VERSION }
{
    copies_are_read_as_written();
    follow(image);
    list_from(image, first);
    change_fields(alloc, image, change);
}

/// Makes a copy the one that follows it, with a free file after the listed ones.
pub fn apply_file(image: &mut BaseImage, file: u16)
    requires free { IsNextFile image.old file }
    requires room { HasRoom image.old }
    requires image { IsImage image.old }
    ensures exact { image.new ≡ with_file file (with_next_turn image.old) }
    ensures image { IsImage image.new }
    ensures version { image.new.version ≡ VERSION }
{
    copies_are_read_as_written();
    follow(image);
    image.files.push(file);
}

// Gives a copy the turn that follows, and the version in which copies are written.
fn follow(image: &mut BaseImage)
    requires { image.old.turn ≤ 2 }
    ensures { image.new ≡ with_next_turn image.old }
{
    image.version = VERSION;
    image.turn = (image.turn + 1) % 3;
}

// Lists no container below this one.
fn list_from(image: &mut BaseImage, first: u32)
    requires first { image.old.first ≤ first }
    requires listed { first - image.old.first ≤ length image.old.files }
    ensures { image.new ≡ listed_from first image.old }
{
    image.files.drop_first((first - image.first) as usize);
    image.first = first;
}

// Takes the rows out of a copy.
fn take_rows(alloc: Global, image: &mut BaseImage) -> Vec<Row>
    ensures result { result.items ≡ image.old.streams }
    ensures image { image.new ≡ record image.old { streams = [] } }
{
    mem::replace(&mut image.streams, Rows::from_vec(Vec::new(alloc))).into_vec()
}

fn change_fields(alloc: Global, image: &mut BaseImage, change: &Change)
    requires { Suits change.now image.old }
    ensures { image.new ≡ changed change.now image.old }
{
    match change {
        Change::Listing => {}
        Change::Base { stream, base } => set_base(alloc, image, *stream, *base),
        Change::Archive { archiving, tail } => {
            image.archiving = *archiving;
            image.tail = *tail;
        }
        Change::Policies {
            automatic,
            maximum,
            minimum,
            growth,
        } => {
            image.automatic = *automatic;
            image.maximum = *maximum;
            image.minimum = *minimum;
            image.growth = *growth;
        }
    }
}

fn set_base(alloc: Global, image: &mut BaseImage, stream: u16, base: Lsn)
    requires { (1 ≤ stream) × (stream ≤ length image.old.streams) }
    ensures { image.new ≡ record image.old { streams = with_base stream base image.old.streams } }
{
    let mut rows = take_rows(alloc, image);
    rows[stream as usize - 1].base = base;
    image.streams = Rows::from_vec(rows);
}

/// Makes a copy the one that follows it, with the containers from `first` on and another stream. Where memory is wanted, nothing has
/// changed.
pub fn apply_stream(
    alloc: Global,
    image: &mut BaseImage,
    first: u32,
    row: Row,
) -> Result<(), AllocError>
    requires first { image.old.first ≤ first }
    requires listed { first + 1 ≤ image.old.first + length image.old.files }
    requires image { IsImage image.old }
    requires row { IsNewRow row image.old }
    ensures image { OnOk result (IsImage image.new) }
    ensures version { OnOk result (image.new.version ≡ VERSION) }
    ensures ok { OnOk result (image.new ≡ with_stream row (next_copy first Change.Listing image.old)) }
    ensures err { OnErr result (image.new ≡ image.old) }
{
    copies_are_read_as_written();
    push_stream(alloc, image, row)?;
    follow(image);
    list_from(image, first);
    Ok(())
}

/// Makes a copy the one that follows it, with the containers from `first` on and so many containers.
pub fn apply_containers(alloc: Global, image: &mut BaseImage, first: u32, containers: u16)
    requires first { image.old.first ≤ first }
    requires listed { first + 1 ≤ image.old.first + length image.old.files }
    requires image { IsImage image.old }
    requires containers { CanHave containers first image.old }
    ensures exact { image.new ≡ with_containers containers (next_copy first Change.Listing image.old) }
    ensures image { IsImage image.new }
    ensures version { image.new.version ≡ VERSION }
{
    copies_are_read_as_written();
    apply(alloc, image, first, &Change::Listing);
    image.containers = containers;
    image.files_made = image.files_made.max(containers);
}

// Adds a stream after the others. Where memory is wanted, nothing has changed.
fn push_stream(alloc: Global, image: &mut BaseImage, row: Row) -> Result<(), AllocError>
    ensures ok { OnOk result (image.new ≡ with_stream row image.old) }
    ensures err { OnErr result (image.new ≡ image.old) }
{
    let mut rows = take_rows(alloc, image);
    let room = rows.reserve(1);
    if room.is_ok() {
        rows.push_reserved(row);
    }
    image.streams = Rows::from_vec(rows);
    room
}
