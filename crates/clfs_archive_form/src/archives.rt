// Archives one after the other, each from its letters to its last container.
ghost use Rattle.std.specs.Prelude.{◌≡◌, ◌+◌, ◌<◌, ◌≤◌, IsTrue, length, None, IfOk, IfSome, OnOk};
ghost use Rattle.clfs_base.specs.Spelling.{IsImage};
ghost use Rattle.clfs_block.specs.Checks.{first_failing};
ghost use Rattle.clfs_archive_form.specs.Form.{magic, containers_at};
ghost use Rattle.clfs_archive_form.specs.Archives.{has_letter, magic_there, wanted_count, rest_there, archive_there, archives_in};
ghost use Rattle.clfs_archive_form.specs.Reading.{Gives, GivesJoined, LieWithin, TakesContainers, TakesArchive, Suits, AreReadable, CanBeRead};
ghost use Rattle.clfs_archive_form.specs.Containers.{containers_len};

use crate::archive::{Archive, Containers, Stored};
use crate::containers::{just_there, read_containers};
use crate::copies::{first_demands, later_demands, read_copy};
use crate::judge::Judge;
use crate::refusal::{InputRefusal, wrong_at};
use clfs_base::{BaseImage, Demands};
use clfs_block::records_are_read_of_their_block;
use clfs_lsn::Shape;
use std::alloc::Global;

// The letters that an archive begins with.
pub(crate) const MAGIC: [u8; 8] = *b"CLFSARC1";

// Where the number of containers stands, and the first container.
const COUNT_AT: usize = 16391;

const CONTAINERS_AT: usize = 16395;

// Whether the letter of this number stands after a place.
fn has_letter(bytes: &[u8], at: usize, i: usize) -> bool
    requires place { at ≤ length bytes.now }
    requires letter { i < 8 }
    ensures exact { result ≡ has_letter bytes.now at i }
    ensures there { IsTrue result → at + i < length bytes.now }
{
    at + i < bytes.len() && bytes[at + i] == MAGIC[i]
}

// The first of the letters that doesn't stand in its place.
fn wrong_letter(bytes: &[u8], at: usize) -> Option<usize>
    requires { at ≤ length bytes.now }
    ensures exact { result ≡ first_failing (has_letter bytes.now at) 0 (length magic) }
    ensures whole { result ≡ None → at + 8 ≤ length bytes.now }
    ensures near { IfSome result (λ i. i < 8) }
{
    for i in 0..8 {
        if !has_letter(bytes, at, i) {
            return Some(i);
        }
    }
    None
}

// The letters stand at a place.
fn magic_there(bytes: &[u8], at: usize) -> Result<usize, InputRefusal>
    requires { at ≤ length bytes.now }
    ensures exact { Gives result (magic_there bytes.now at) }
    ensures whole { IfOk result (λ start. at + 8 ≤ length bytes.now) }
{
    if let Some(wrong) = wrong_letter(bytes, at) {
        return Err(wrong_at(at + wrong));
    }
    Ok(at)
}

// How many containers an archive with this copy has.
fn wanted_count(image: &BaseImage) -> u64
    requires { IsImage image.now }
    ensures { result ≡ wanted_count image.now }
{
    let behind = image.first as u64 + image.files.as_slice().len() as u64;
    behind.saturating_sub(image.tail.container() as u64)
}

// What follows the base copy of the archive that begins at a place: the containers, which are taken in. It answers the place after them.
fn read_rest(
    alloc: Global,
    image: &BaseImage,
    bytes: &[u8],
    at: usize,
    containers: &mut Vec<Stored>,
) -> Result<usize, InputRefusal>
    requires image { IsImage image.now }
    requires place { at + 16391 ≤ length bytes.now }
    ensures exact { TakesContainers result containers.old.items containers.new.items (λ more. at + containers_at + containers_len more)
        (rest_there image.now bytes.now at) }
    ensures end { IfOk result (λ end. (at + containers_at ≤ end) × (end ≤ length bytes.now)) }
    ensures within { OnOk result (LieWithin (length bytes.now) containers.old.items → LieWithin (length bytes.now) containers.new.items) }
    ensures readable { OnOk result (AreReadable bytes.now image.now containers.old.items → AreReadable bytes.now image.now containers.new.items) }
{
    let count = just_there(bytes, at + COUNT_AT, wanted_count(image))?;
    let shape = Shape {
        block_sectors: image.block_sectors,
        container_sectors: image.container_sectors,
    };
    let mut judge = Judge::new(alloc, &shape, image.streams.as_slice().len() as u16)?;
    let first = image.tail.container();
    read_containers(
        alloc,
        &mut judge,
        bytes,
        first,
        count,
        at + CONTAINERS_AT,
        containers,
    )
}

// The archive that begins at a place, whose containers are taken in: its base copy, and the place after it.
fn read_archive(
    alloc: Global,
    asked: &Demands,
    bytes: &[u8],
    at: usize,
    containers: &mut Vec<Stored>,
) -> Result<(BaseImage, usize), InputRefusal>
    requires { at ≤ length bytes.now }
    ensures exact { TakesArchive result containers.old.items containers.new.items (archive_there asked.now bytes.now at) }
    ensures end { IfOk result (λ x. (at + containers_at ≤ x.1) × (x.1 ≤ length bytes.now)) }
    ensures within { OnOk result (LieWithin (length bytes.now) containers.old.items → LieWithin (length bytes.now) containers.new.items) }
    ensures image { IfOk result (λ x. IsImage x.0) }
    ensures suits { IfOk result (λ x. Suits asked.now x.0) }
    ensures readable { IfOk result (λ x. AreReadable bytes.now x.0 containers.old.items → AreReadable bytes.now x.0 containers.new.items) }
{
    magic_there(bytes, at)?;
    let image = read_copy(alloc, asked, bytes, at)?;
    let end = read_rest(alloc, &image, bytes, at, containers)?;
    Ok((image, end))
}

/// Reads one or more archives, one after the other, and takes them together: the last base copy counts. All of them is judged, and nothing of their
/// blocks is kept but where they stand.
pub fn read_archives(alloc: Global, bytes: &[u8]) -> Result<Archive, InputRefusal>
    ensures exact { GivesJoined result (archives_in bytes.now) }
    ensures image { IfOk result (λ archive. IsImage archive.image) }
    ensures within { IfOk result (λ archive. LieWithin (length bytes.now) archive.containers) }
    ensures readable { IfOk result (λ archive. CanBeRead bytes.now archive) }
{
    records_are_read_of_their_block();
    let mut containers = Vec::new(alloc);
    let first = read_archive(alloc, &first_demands(), bytes, 0, &mut containers)?;
    let mut image = first.0;
    let mut at = first.1;
    while at < bytes.len() {
        let demands = later_demands(&image);
        let next = read_archive(alloc, &demands, bytes, at, &mut containers)?;
        image = next.0;
        at = next.1;
    }
    Ok(Archive {
        image,
        containers: Containers::from_vec(containers),
    })
}
