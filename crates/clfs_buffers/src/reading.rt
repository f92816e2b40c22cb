// Reading a block of the disk. How many sectors it has is known for sure only once its header is read. So the bytes that the caller expects it to
// have are asked for first. If they are a block, it is the one that is there: a block is judged by its own bytes, whatever follows them. If
// not, the bytes of a largest block are asked for, and what the file has of them is enough to judge any block there.
ghost use Rattle.std.specs.Prelude.{◌≡◌, ◌+◌, ◌*◌, ◌^◌, ◌<◌, ◌≤◌, min, max, length, take, drop, Ok, IfErr, IfOk, OnOk, IsErrOf};
ghost use Rattle.clfs_lsn.specs.Format.{sector_bytes};
ghost use Rattle.clfs_lsn.specs.Limits.{most_block_records};
ghost use Rattle.clfs_lsn.specs.Size.{IsShape};
ghost use Rattle.clfs_disk.specs.Files.{Unchanged};
ghost use Rattle.clfs_disk.specs.State.{TellsContents, IsSteady, Passes, Rises, raised};
ghost use Rattle.clfs_block.specs.Checks.{IsEnough};
ghost use Rattle.clfs_block.specs.Records.{told_as, block_records};
ghost use Rattle.clfs_buffers.specs.Reading.{first_lsn, refused_at, as_read, Gives, TellsBlock};
ghost use Rattle.clfs_buffers.specs.Kept.{HaveLsns};
ghost use Rattle.clfs_buffers.specs.Buffered.{IsRead};

use crate::kept::KeptBlock;
use crate::place::BlockPlace;
use crate::refusal::ReadRefusal;
use clfs_block::{
    BlockRefusal, blocks_are_judged_alone, blocks_are_read_as_written,
    records_are_read_of_their_block,
};
use clfs_container::read_block;
use clfs_disk::{Disk, Failed, calls_join};
use clfs_lsn::{SECTOR, Shape};
use std::alloc::{AllocError, Global};

// The block that stands at a place in the bytes that this file has there, of which as many are read as there is room for, by one call. It is kept in
// the memory of another.
fn read_front<D: Disk>(
    alloc: Global,
    disk: &mut D,
    shape: &Shape,
    streams: u16,
    file: u16,
    place: BlockPlace,
    out: &mut [u8],
    spare: KeptBlock,
) -> Result<KeptBlock, ReadRefusal>
    requires shape { IsShape shape.now }
    requires file { file ≤ 256 }
    requires low { place.offset + most_block_records < 2 ^ 32 }
    requires few { length out.old ≤ sector_bytes * shape.now.block_sectors }
    ensures exact { TellsContents (D.state disk.old) → Gives result (told_as refused_at
        (block_records shape.now streams (first_lsn place) (take (length out.old) (drop place.offset ((D.state disk.old).files file))))) }
    ensures told { IfErr result (λ refusal. TellsBlock shape.now streams (first_lsn place) refusal) }
    ensures lsns { IfOk result (λ records. HaveLsns (first_lsn place) records) }
    ensures read { IfOk result (λ records. IsRead shape.now streams place records) }
    ensures same { Unchanged (D.state disk.old).files (D.state disk.new).files }
    ensures time { Passes Unchanged (D.state disk.old) (D.state disk.new) }
    ensures calls { (D.state disk.new).calls ≡ raised 1 (D.state disk.old).calls }
    ensures cause { IsErrOf result ReadRefusal.DiskFault → Rises (D.state disk.old).faults (D.state disk.new).faults }
    ensures steady { IsSteady (D.state disk.old) → (IsErrOf result ReadRefusal.DiskFault → ⊥)
        × ((D.state disk.new).faults ≡ (D.state disk.old).faults) }
{
    let count = read_block(disk, file, place.offset, out)?;
    match spare.refill(alloc, shape, place, streams, &out[..count]) {
        Ok(block) => Ok(block),
        Err(refusal) => Err(refused(refusal)),
    }
}

// How many bytes are asked for first: those that are expected, but at least a sector's, and no more than those of a largest block.
fn asked_bytes(shape: &Shape, expected: u32) -> usize
    requires { IsShape shape.now }
    ensures { result ≡ min (max expected sector_bytes) (sector_bytes * shape.now.block_sectors) }
{
    expected.max(SECTOR).min(SECTOR * shape.block_sectors) as usize
}

// The block that this file has at a place, in a log of so many streams. It is thought to have so many bytes. It is kept in the memory of another,
// and its bytes are read into `buffer`.
pub(crate) fn read_kept<D: Disk>(
    alloc: Global,
    disk: &mut D,
    shape: &Shape,
    streams: u16,
    file: u16,
    place: BlockPlace,
    expected: u32,
    buffer: &mut Vec<u8>,
    spare: KeptBlock,
) -> Result<KeptBlock, ReadRefusal>
    requires shape { IsShape shape.now }
    requires file { file ≤ 256 }
    requires low { place.offset + most_block_records < 2 ^ 32 }
    ensures exact { TellsContents (D.state disk.old) → Gives result
        (told_as refused_at (block_records shape.now streams (first_lsn place) (drop place.offset ((D.state disk.old).files file)))) }
    ensures told { IfErr result (λ refusal. TellsBlock shape.now streams (first_lsn place) refusal) }
    ensures lsns { IfOk result (λ records. HaveLsns (first_lsn place) records) }
    ensures read { IfOk result (λ records. IsRead shape.now streams place records) }
    ensures same { Unchanged (D.state disk.old).files (D.state disk.new).files }
    ensures time { Passes Unchanged (D.state disk.old) (D.state disk.new) }
    ensures calls { TellsContents (D.state disk.old) → IsEnough shape.now (drop place.offset ((D.state disk.old).files file)) expected
        → OnOk result ((D.state disk.new).calls ≡ raised 1 (D.state disk.old).calls) }
    ensures calls_at_most { raised 0 (D.state disk.new).calls ≤ raised 2 (D.state disk.old).calls }
    ensures cause { IsErrOf result ReadRefusal.DiskFault → Rises (D.state disk.old).faults (D.state disk.new).faults }
    ensures steady { IsSteady (D.state disk.old) → (IsErrOf result ReadRefusal.DiskFault → ⊥)
        × ((D.state disk.new).faults ≡ (D.state disk.old).faults) }
{
    blocks_are_judged_alone();
    blocks_are_read_as_written();
    records_are_read_of_their_block();
    calls_join::<D>();
    let largest = SECTOR as usize * shape.block_sectors as usize;
    let asked = asked_bytes(shape, expected);
    buffer.resize(largest, 0)?;
    if asked == largest {
        return read_front(alloc, disk, shape, streams, file, place, buffer, spare);
    }
    let front = &mut buffer[..asked];
    match read_front(alloc, disk, shape, streams, file, place, front, spare) {
        Err(ReadRefusal::Damaged { at: _ }) => {
            let spare = KeptBlock::new(alloc);
            read_front(alloc, disk, shape, streams, file, place, buffer, spare)
        }
        Err(ReadRefusal::DiskFault) => Err(ReadRefusal::DiskFault),
        Err(ReadRefusal::NoMemory) => Err(ReadRefusal::NoMemory),
        Ok(block) => Ok(block),
    }
}

// A block's refusal as that of a record in it.
fn refused(refusal: BlockRefusal) -> ReadRefusal
    ensures { result ≡ as_read refusal }
{
    match refusal {
        BlockRefusal::Closed => ReadRefusal::Damaged { at: 0 },
        BlockRefusal::BadByte { at } => ReadRefusal::Damaged { at },
        BlockRefusal::NoMemory => ReadRefusal::NoMemory,
    }
}
