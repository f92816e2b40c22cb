// The containers of an archive: the id, the length and the blocks of each, in this order.
ghost use Rattle.std.specs.Prelude.{◌≡◌, ◌+◌, ◌^◌, ◌<◌, ◌≤◌, [], ◌∷◌, ◌++◌, length, IfOk, OnOk};
ghost use Rattle.clfs_lsn.specs.Size.{IsShape};
ghost use Rattle.clfs_archive_form.specs.Containers.{number_there, just_there, is_length, length_there, part_of, container_there, containers_there, containers_len};
ghost use Rattle.clfs_archive_form.specs.Reading.{Gives, LieWithin, TakesContainers, refusal_told};

use crate::archive::Stored;
use crate::judge::Judge;
use crate::refusal::{InputRefusal, wrong_at};
use byteorder::{ByteOrder, LittleEndian};
use clfs_lsn::{SECTOR, Shape};
use clfs_recover::LoadRefusal;
use std::alloc::{AllocError, Global};

// The bytes of a container before its blocks.
const HEADER: usize = 8;

// The number of four bytes at a place.
fn number_there(bytes: &[u8], at: usize) -> Result<u32, InputRefusal>
    requires { at ≤ length bytes.now }
    ensures exact { Gives result (number_there bytes.now at) }
    ensures whole { IfOk result (λ number. at + 4 ≤ length bytes.now) }
{
    let rest = bytes.split_at(at).1;
    if rest.len() < 4 {
        return Err(wrong_at(bytes.len()));
    }
    Ok(LittleEndian::read_u32(rest))
}

// That number, which is to be this one.
pub(crate) fn just_there(bytes: &[u8], at: usize, wanted: u64) -> Result<u32, InputRefusal>
    requires { at ≤ length bytes.now }
    ensures exact { Gives result (just_there bytes.now at wanted) }
    ensures whole { IfOk result (λ number. at + 4 ≤ length bytes.now) }
    ensures is { IfOk result (λ number. number ≡ wanted) }
{
    let number = number_there(bytes, at)?;
    if number as u64 != wanted {
        return Err(wrong_at(at));
    }
    Ok(number)
}

// Whether the blocks of a container can have this length.
fn is_length(shape: &Shape, len: u32) -> bool
    requires { IsShape shape.now }
    ensures { result ≡ is_length shape.now len }
{
    len % SECTOR == 0 && len <= SECTOR * shape.container_sectors
}

// The length of blocks at a place.
fn length_there(shape: &Shape, bytes: &[u8], at: usize) -> Result<u32, InputRefusal>
    requires shape { IsShape shape.now }
    requires place { at ≤ length bytes.now }
    ensures exact { Gives result (length_there shape.now bytes.now at) }
    ensures whole { IfOk result (λ len. at + 4 ≤ length bytes.now) }
    ensures few { IfOk result (λ len. len < 2 ^ 31) }
{
    let len = number_there(bytes, at)?;
    if !is_length(shape, len) {
        return Err(wrong_at(at));
    }
    Ok(len)
}

// What stands of so many bytes from a place on.
pub(crate) fn part_of(bytes: &[u8], from: usize, len: u32) -> &[u8]
    requires { from ≤ length bytes.now }
    ensures { result.now ≡ part_of bytes.now from len }
{
    let rest = bytes.split_at(from).1;
    rest.split_at(rest.len().min(len as usize)).0
}

// The refusal of a block, in a container whose blocks begin at a byte of the input. Of bytes in memory no other refusal comes.
fn refused(from: usize, refusal: LoadRefusal) -> InputRefusal
    requires { from < 2 ^ 63 }
    ensures { result ≡ refusal_told from refusal }
{
    match refusal {
        LoadRefusal::Damaged {
            container: _,
            offset,
            at,
        } => wrong_at(from + offset as usize + at as usize),
        LoadRefusal::NoBase | LoadRefusal::DiskFault | LoadRefusal::NoMemory => {
            InputRefusal::NoMemory
        }
    }
}

// The container of this id at a place.
fn read_container(
    alloc: Global,
    judge: &mut Judge,
    bytes: &[u8],
    id: u32,
    at: usize,
) -> Result<Stored, InputRefusal>
    requires { at ≤ length bytes.now }
    ensures exact { Gives result (container_there judge.old.shape judge.old.streams bytes.now id at) }
    ensures same { judge.new ≡ judge.old }
    ensures end { IfOk result (λ stored. (stored.at ≡ at + 8) × (stored.at + stored.len ≤ length bytes.now)) }
{
    just_there(bytes, at, id as u64)?;
    let len = length_there(judge.shape(), bytes, at + 4)?;
    let from = at + HEADER;
    let there = part_of(bytes, from, len);
    if let Err(refusal) = judge.blocks(alloc, id, there) {
        return Err(refused(from, refusal));
    }
    if there.len() < len as usize {
        return Err(wrong_at(bytes.len()));
    }
    Ok(Stored {
        container: id,
        at: from,
        len,
    })
}

// Adds a container at the end.
fn push(containers: &mut Vec<Stored>, stored: Stored) -> Result<(), AllocError>
    ensures { OnOk result (containers.new.items ≡ containers.old.items ++ stored ∷ []) }
{
    containers.push(stored)?;
    Ok(())
}

// Takes in so many containers, whose ids go on from one, and answers the place after them.
pub(crate) fn read_containers(
    alloc: Global,
    judge: &mut Judge,
    bytes: &[u8],
    first: u32,
    count: u32,
    at: usize,
    containers: &mut Vec<Stored>,
) -> Result<usize, InputRefusal>
    requires place { at ≤ length bytes.now }
    requires ids { first + count ≤ 2 ^ 32 }
    ensures exact { TakesContainers result containers.old.items containers.new.items (λ more. at + containers_len more)
        (containers_there judge.old.shape judge.old.streams bytes.now count first at) }
    ensures end { IfOk result (λ end. (at ≤ end) × (end ≤ length bytes.now)) }
    ensures within { OnOk result (LieWithin (length bytes.now) containers.old.items → LieWithin (length bytes.now) containers.new.items) }
{
    let mut end = at;
    for i in 0..count {
        let stored = read_container(alloc, judge, bytes, first + i, end)?;
        end = stored.at + stored.len as usize;
        push(containers, stored)?;
    }
    Ok(end)
}
