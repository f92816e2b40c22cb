ghost use Rattle.std.specs.Prelude.{◌≡◌, ◌+◌, ◌-◌, ◌^◌, ◌<◌, ◌≤◌, [], ℕ, length, IfOk, IfSome, IsSome};
ghost use Rattle.clfs_lsn.specs.Size.{longest};
ghost use Rattle.clfs_queue.specs.Queued.{data_at};
ghost use Rattle.clfs_lsn.specs.declared.entry.Kind.TheVariants.{Plain};

use clfs_block::{BlockHead, decode_block};
use clfs_lsn::{Bytes, Kind, Lsn, OPEN_GATE, Place, Shape};
use clfs_queue::{Placing, Queue, a_record_goes_where_it_went, the_next_lsn_is_above_all};
use clfs_record::Fields;
use std::alloc::{AllocError, Global};

const SHAPE: Shape = Shape {
    block_sectors: 2,
    container_sectors: 8,
};

// Container 1 from its first byte on.
const START: Place = Place {
    container: 1,
    offset: 0,
    used: 0,
    records: 0,
};

// A block's header and its one record of ten bytes, 0 to 9.
const FRONT: [u8; 64] = [
    0xA5, 1, 1, 0, 1, 0, 0, 0, 64, 0, 0, 0, 0, 0, 0, 0, 10, 0, 0, 0, 1, 0, 1, 0, 0, 0, 0, 0, 0, 0,
    0, 0, 0, 0, 0, 0, 0, 0, 0, 0, 0, 0, 0, 0, 0, 0, 0, 0, 0, 1, 2, 3, 4, 5, 6, 7, 8, 9, 0, 0, 0, 0,
    0, 0,
];

// A record of stream 1 without links.
fn plain() -> Fields
    ensures { result ≡ record { stream = 1; kind = Plain; previous = 0; undo_next = 0; new_base = 0 } }
{
    Fields {
        stream: 1,
        kind: Kind::Plain,
        previous: Lsn::null(),
        undo_next: Lsn::null(),
        new_base: Lsn::null(),
    }
}

// Puts a record where it goes, if that is in the container that the queue is in, and seals the block before it.
fn append(queue: &mut Queue, bytes: &[u8]) -> Option<Lsn>
    requires len { length bytes.now ≤ longest queue.old.shape }
    requires small { length bytes.now < 2 ^ 16 }
    requires container { queue.old.place.container < 2 ^ 32 - 1 }
    requires room { length queue.old.waiting + 1 ≤ queue.old.buffers }
    ensures shape { queue.new.shape ≡ queue.old.shape }
    ensures buffers { queue.new.buffers ≡ queue.old.buffers }
    ensures waiting { length queue.new.waiting ≤ length queue.old.waiting + 1 }
    ensures container { queue.new.place.container ≡ queue.old.place.container }
    ensures there { IfSome result (λ lsn. IsSome (data_at lsn queue.new.records)) }
    ensures kept { (lsn : ℕ) → IsSome (data_at lsn queue.old.records) → IsSome (data_at lsn queue.new.records) }
{
    a_record_goes_where_it_went();
    the_next_lsn_is_above_all();
    match queue.next(bytes.len() as u32) {
        Placing::Joins => {}
        Placing::BeginsBlock => queue.seal(),
        Placing::BeginsContainer => return None,
    }
    let _within = queue.place();
    Some(queue.push(&plain(), bytes))
}

// The same with so many bytes of one value, where the queue has room and the container isn't the last.
fn put(queue: &mut Queue, bytes: &[u8]) -> Option<Lsn>
    requires shape { queue.old.shape ≡ SHAPE }
    ensures shape { queue.new.shape ≡ SHAPE }
{
    let has_room = queue.waiting() < queue.buffers() as usize && queue.place().container < 9;
    if has_room && bytes.len() <= 960 {
        append(queue, bytes)
    } else {
        None
    }
}

// The queue of the log of these tests, empty at the start of container 1.
fn empty(alloc: Global) -> Result<Queue, AllocError>
    ensures { IfOk result (λ q. (q.shape ≡ SHAPE) × (q.buffers ≡ 4) × (q.place ≡ START) × (q.waiting ≡ []) × (q.records ≡ [])) }
{
    Queue::new(alloc, &SHAPE, 4, &START)
}

// The block of `FRONT`, its sector's address 2^32, and the closed gate after it, but for the gate of the first.
fn is_group_of_front(at: u32, body: &[u8]) -> bool {
    let mut block = [0; 513];
    block[..64].copy_from_slice(&FRONT);
    block[508] = 1;
    at == 0 && body == &block[1..]
}

#[test]
fn a_block_of_one_record_is_spelled(rt: HostRuntime) -> Result<(), AllocError> {
    let mut queue = empty(rt.alloc())?;
    let lsn = put(&mut queue, &[0, 1, 2, 3, 4, 5, 6, 7, 8, 9]);
    queue.seal();
    assert!(rt; lsn == Lsn::create(1, 0, 0) && queue.waiting() == 1);
    assert!(rt; queue.flushed() == Lsn::of_number(1 << 32));
    let (at, body) = queue.group();
    assert!(rt; is_group_of_front(at, body));
    Ok(())
}

// Records of the largest size are put, and go to these places of container 1.
fn are_put_at(queue: &mut Queue, records: &[(u8, u32)]) -> bool
    requires shape { queue.old.shape ≡ SHAPE }
    ensures shape { queue.new.shape ≡ SHAPE }
{
    for (byte, offset) in records {
        if put(queue, &[*byte; 960]) != Lsn::create(1, *offset, 0) {
            return false;
        }
    }
    true
}

const LARGEST: [(u8, u32); 4] = [(7, 0), (8, 1024), (9, 2048), (7, 3072)];

// The block at a place of container 1 has one record of the largest size, with bytes of one value.
fn is_block_of(alloc: Global, bytes: &[u8], byte: u8, offset: u32) -> Result<bool, AllocError> {
    let mut payload = Bytes::new(alloc);
    let start = Lsn::of_number((1 << 32) + offset as u64);
    let head = decode_block(alloc, &SHAPE, start, bytes, &mut payload);
    let want = BlockHead {
        sectors: 2,
        records: 1,
        used: 1008,
    };
    Ok(head == Ok(want) && payload.as_slice().ends_with(&[byte; 960]))
}

// The group is that of the first three.
fn are_three_blocks(alloc: Global, at: u32, body: &[u8]) -> Result<bool, AllocError> {
    let mut bytes = vec![in alloc; OPEN_GATE]?;
    bytes.extend_from_slice(body)?;
    let mut rest = bytes.as_slice();
    for (byte, offset) in &LARGEST[..3] {
        if !is_block_of(alloc, rest, *byte, *offset)? {
            return Ok(false);
        }
        rest = rest.get(1024..).unwrap_or(&[]);
    }
    Ok(at == 0 && body.len() == 3072 && body.ends_with(&[0]))
}

#[test]
fn three_largest_records_wait_as_three_blocks(rt: HostRuntime) -> Result<(), AllocError> {
    let mut queue = empty(rt.alloc())?;
    assert!(rt; are_put_at(&mut queue, &LARGEST[..3]));
    queue.seal();
    assert!(rt; queue.waiting() == 3);
    let (at, body) = queue.group();
    assert!(rt; are_three_blocks(rt.alloc(), at, body)?);
    queue.written();
    assert!(rt; queue.waiting() == 0 && queue.flushed() == Lsn::of_number((1 << 32) + 3072));
    let (at, body) = queue.group();
    assert!(rt; at == 3072 && body.is_empty());
    Ok(())
}

// The container is full, and its group is this long.
fn is_full(queue: &Queue, group: &[u8]) -> bool
    requires { queue.now.shape ≡ SHAPE }
{
    group.len() == 4095 && queue.place().container < 9 && queue.next(0) == Placing::BeginsContainer
}

// The queue stands at the start of a container, where a record of no bytes goes.
fn begins_container(queue: &mut Queue, container: u32) -> bool
    requires { queue.old.shape ≡ SHAPE }
    ensures { queue.new.shape ≡ SHAPE }
{
    queue.place().container < 9
        && queue.next(0) == Placing::BeginsBlock
        && put(queue, &[]) == Lsn::create(container, 0, 0)
}

// The open block takes so many bytes more, and no more.
fn has_room_for(queue: &Queue, len: u32) -> bool
    requires { queue.now.shape ≡ SHAPE }
{
    queue.place().container < 9
        && len < 960
        && queue.next(len) == Placing::Joins
        && queue.next(len + 1) == Placing::BeginsBlock
}

#[test]
fn no_gate_is_behind_the_last_block_of_a_container(rt: HostRuntime) -> Result<(), AllocError> {
    let mut queue = empty(rt.alloc())?;
    assert!(rt; are_put_at(&mut queue, &LARGEST));
    queue.seal();
    let (at, body) = queue.group();
    assert!(rt; at == 0 && is_full(&queue, body));
    queue.written();
    let place = queue.place();
    assert!(rt; place.container < 9);
    queue.turn();
    assert!(rt; begins_container(&mut queue, 2) && has_room_for(&queue, 928));
    Ok(())
}

// The data of a record that waits are these.
fn has_data(queue: &Queue, alloc: Global, lsn: Lsn, bytes: &[u8]) -> Result<bool, AllocError>
    requires { IsSome (data_at lsn queue.now.records) }
{
    let data = queue.read(alloc, lsn)?;
    Ok(data.as_slice() == bytes)
}

// Four records are put and read. The second one lies across the end of a sector, and the last one is in the open block.
fn are_read(alloc: Global) -> Result<bool, AllocError> {
    let mut queue = empty(alloc)?;
    let Some(first) = append(&mut queue, &[1; 100]) else {
        return Ok(false);
    };
    let Some(second) = append(&mut queue, &[2; 600]) else {
        return Ok(false);
    };
    let Some(third) = append(&mut queue, &[]) else {
        return Ok(false);
    };
    let Some(last) = append(&mut queue, &[4; 900]) else {
        return Ok(false);
    };
    Ok(
        Some(third) == Lsn::create(1, 0, 2)
            && Some(last) == Lsn::create(1, 1024, 0)
            && has_data(&queue, alloc, first, &[1; 100])?
            && has_data(&queue, alloc, second, &[2; 600])?
            && has_data(&queue, alloc, third, &[])?
            && has_data(&queue, alloc, last, &[4; 900])?,
    )
}

#[test]
fn records_are_read_where_they_wait(rt: HostRuntime) -> Result<(), AllocError> {
    assert!(rt; are_read(rt.alloc())?);
    Ok(())
}
