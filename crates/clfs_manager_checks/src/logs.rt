// Logs that the tests begin with, and single calls on them. Each takes a disk and hands it back, so that a test keeps no open log. Where memory, the
// disk or a call of the log fails that shouldn't, there is None.
ghost use Rattle.std.specs.Prelude.{◌≡◌, ◌<◌, ◌^◌, length, IfOk};

use clfs_disk::{Disk, Memory};
use clfs_lsn::{Name, Shape};
use clfs_manager::{LoadRefusal, Manager};
use clfs_model::Refusal;
use std::alloc::{AllocError, Global};

pub(crate) const SHAPE: Shape = Shape {
    block_sectors: 2,
    container_sectors: 8,
};

// A new log of two containers.
pub(crate) fn new_log(alloc: Global, dedicated: bool) -> Option<Memory> {
    let disk = Memory::new(alloc, 128, 262144, &[]).ok()?;
    Manager::format(alloc, disk, SHAPE, 2, dedicated).ok()
}

// A new log whose base copy is of the first version. Without a stream both versions differ in one byte.
pub(crate) fn old_log(alloc: Global) -> Option<Memory> {
    let mut disk = new_log(alloc, false)?;
    disk.write(0, 1, &[1]).ok()?;
    disk.sync().ok()?;
    Some(disk)
}

// A name of so many letters.
pub(crate) fn long_name(alloc: Global, letters: usize) -> Result<Name, AllocError>
    ensures { IfOk result (λ name. length name ≡ letters) }
{
    let mut bytes = Vec::new(alloc);
    bytes.resize(letters, b'a')?;
    Ok(Name::from_vec(bytes))
}

// What `open_stream` answers on a log that is opened for it and closed.
pub(crate) fn open_stream(
    alloc: Global,
    disk: Memory,
    name: &Name,
) -> Option<(Result<u16, Refusal>, Memory)>
    requires { length name.now < 2 ^ 32 }
{
    let mut manager = Manager::load(alloc, disk, 4).ok()?;
    let answer = manager.open_stream(1, name);
    Some((answer, manager.close()))
}

// The disk after that call for a name of so many letters, if this is the answer.
pub(crate) fn answers_to_name(
    alloc: Global,
    disk: Memory,
    letters: usize,
    want: Result<u16, Refusal>,
) -> Option<Memory>
    requires { letters < 2 ^ 32 }
{
    let name = long_name(alloc, letters).ok()?;
    let (answer, disk) = open_stream(alloc, disk, &name)?;
    if answer == want { Some(disk) } else { None }
}

// How many of the first two streams a log has.
pub(crate) fn count_streams(alloc: Global, disk: Memory) -> Option<u8> {
    let manager = Manager::load(alloc, disk, 4).ok()?;
    let first = manager.info(1).is_ok() as u8;
    let second = manager.info(2).is_ok() as u8;
    let _disk = manager.close();
    Some(first.saturating_add(second))
}

// Why a log isn't opened. Nothing is told of one that is.
pub(crate) fn why_not_opened(alloc: Global, disk: Memory) -> (Option<LoadRefusal>, Memory) {
    match Manager::load(alloc, disk, 4) {
        Ok(manager) => (None, manager.close()),
        Err(refused) => (Some(refused.cause), refused.disk),
    }
}

// Damage of the first slot of the base file, told at this byte.
pub(crate) fn is_damage_at(cause: Option<LoadRefusal>, byte: u32) -> bool {
    let want = LoadRefusal::Damaged {
        container: 0,
        offset: 0,
        at: byte,
    };
    cause == Some(want)
}

// Bytes of the base file.
pub(crate) fn base_bytes<const N: usize>(disk: &mut Memory, place: u64) -> Option<[u8; N]> {
    let mut bytes = [0; N];
    let _count = disk.read(0, place, &mut bytes).ok()?;
    Some(bytes)
}
