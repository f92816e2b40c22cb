// A dedicated log has one stream.
ghost use Rattle.std.specs.Prelude.{◌≤◌};

use crate::logs::{answers_to_name, base_bytes, is_damage_at, new_log, why_not_opened};
use clfs_disk::{Disk, Memory};
use clfs_model::Refusal;
use std::alloc::Global;

// The byte of a base copy that says that its log is dedicated, in the slot that begins at this place.
fn flag_of(disk: &mut Memory, slot: u64) -> Option<u8>
    requires { slot ≤ 16384 }
{
    let [flag]: [u8; 1] = base_bytes(disk, slot + 40)?;
    Some(flag)
}

// The disk after four calls that open streams, where each is answered as it should be. What is wrong with a name is told first.
fn opened(alloc: Global, disk: Memory) -> Option<Memory> {
    let disk = answers_to_name(alloc, disk, 64, Ok(1))?;
    let disk = answers_to_name(alloc, disk, 1, Err(Refusal::Dedicated))?;
    let disk = answers_to_name(alloc, disk, 64, Ok(1))?;
    answers_to_name(alloc, disk, 65, Err(Refusal::NameInvalid { at: 64 }))
}

// The flags of the first copy, and of the one that has the stream.
fn flags(alloc: Global) -> Option<(u8, u8)> {
    let mut disk = new_log(alloc, true)?;
    let before = flag_of(&mut disk, 0)?;
    let mut disk = opened(alloc, disk)?;
    Some((before, flag_of(&mut disk, 16384)?))
}

#[test]
fn a_dedicated_log_has_one_stream(rt: HostRuntime) {
    assert!(rt; flags(rt.alloc()) == Some((1, 1)));
}

// A dedicated log whose base copy says that it has two streams isn't opened.
fn is_damage(alloc: Global) -> Option<bool> {
    let mut disk = new_log(alloc, true)?;
    disk.write(0, 22, &[2]).ok()?;
    let (cause, _disk) = why_not_opened(alloc, disk);
    Some(is_damage_at(cause, 40))
}

#[test]
fn a_dedicated_log_with_two_streams_is_damage(rt: HostRuntime) {
    assert!(rt; is_damage(rt.alloc()) == Some(true));
}
