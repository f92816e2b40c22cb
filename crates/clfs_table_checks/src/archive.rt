ghost use Rattle.std.specs.Prelude.{◌≡◌, ◌<◌, ℕ, All, [], IfOk};
ghost use Rattle.clfs_lsn.specs.Lsn.{lsn_number};
ghost use Rattle.clfs_archive.specs.declared.block.BlockEnd.{BlockEnd};

use clfs_archive::{Archive, BlockEnd, open_archive};
use clfs_lsn::{Head, Kind, Lsn};
use clfs_model::{Extent, Refusal};
use std::alloc::{AllocError, Global};

// The LSN of these parts.
fn at(container: u32, offset: u16, sequence: u16) -> Lsn
    ensures { result ≡ lsn_number container offset sequence }
{
    Lsn::from_parts(container, offset as u32, sequence as u32)
}

// An archive with one more block, where that lies after the others.
fn with_block(mut archive: Archive, last: Lsn, end: u32) -> Result<Archive, AllocError>
    requires { All (λ (other : BlockEnd). other.last < last) archive.blocks }
    ensures { IfOk result (λ more. (n : ℕ) → last < n → All (λ (other : BlockEnd). other.last < n) more.blocks) }
{
    archive.reserve(1)?;
    archive.push(BlockEnd { last, end });
    Ok(archive)
}

// Two blocks in container 1, one in each of 2 and 3.
fn four_blocks(alloc: Global) -> Result<Archive, AllocError> {
    let archive = Archive::new(alloc, Some(Lsn::from_parts(1, 0, 1)));
    let archive = with_block(archive, Lsn::from_parts(1, 0, 1), 512)?;
    let archive = with_block(archive, Lsn::from_parts(1, 512, 0), 1536)?;
    let archive = with_block(archive, Lsn::from_parts(2, 0, 3), 512)?;
    with_block(archive, Lsn::from_parts(3, 0, 0), 512)
}

// The extents are these.
fn has(extents: &[Extent], wanted: &[(u32, u32, u32)]) -> bool {
    extents.len() == wanted.len()
        && extents.iter().zip(wanted).all(|(extent, want)| (
            extent.container,
            extent.low,
            extent.high,
        ) == *want)
}

// The extents up to a place that is stable are these.
fn gives(
    alloc: Global,
    archive: &Archive,
    stable: Lsn,
    wanted: &[(u32, u32, u32)],
) -> Result<bool, AllocError> {
    let extents = archive.extents(alloc, stable, 3)?;
    Ok(has(extents.as_slice(), wanted))
}

#[test]
fn ends_of_blocks_by_their_records(rt: HostRuntime) -> Result<(), AllocError> {
    let archive = four_blocks(rt.alloc())?;
    let cases = [
        (at(1, 0, 0), Some(512)),
        (at(1, 0, 1), Some(512)),
        (at(1, 512, 0), Some(1536)),
        (at(2, 0, 0), Some(512)),
        (at(3, 0, 0), Some(512)),
        (at(3, 0, 1), None),
    ];
    for (lsn, want) in cases {
        assert!(rt; archive.end_from(lsn) == want);
    }
    Ok(())
}

#[test]
fn extents_from_the_tail_on(rt: HostRuntime) -> Result<(), AllocError> {
    let alloc = rt.alloc();
    let mut archive = four_blocks(alloc)?;
    let cases: [(Lsn, Lsn, &[(u32, u32, u32)]); 6] = [
        (at(1, 0, 1), at(3, 0, 0), &[(1, 0, 1536), (2, 0, 512)]),
        (at(1, 0, 2), at(3, 0, 0), &[(1, 512, 1536), (2, 0, 512)]),
        (at(1, 0, 0), at(1, 512, 0), &[(1, 0, 512)]),
        (at(2, 0, 2), at(3, 512, 0), &[(2, 0, 512), (3, 0, 512)]),
        (at(2, 512, 0), at(3, 0, 0), &[]),
        (at(3, 512, 0), at(3, 512, 0), &[]),
    ];
    for (tail, stable, wanted) in cases {
        archive.set_archive_tail(tail);
        assert!(rt; gives(alloc, &archive, stable, wanted)?);
    }
    archive.forget_below(at(2, 0, 3));
    archive.set_archive_tail(at(2, 0, 3));
    assert!(rt; gives(alloc, &archive, at(3, 512, 0), &[(2, 0, 512), (3, 0, 512)])?);
    Ok(())
}

// A tail is refused below the tail that there is, and above what is stable.
fn takes(archive: &Archive, tail: Lsn, stable: Lsn) -> bool {
    archive.tail_refusal(tail, stable).is_none()
}

// Archiving that is on isn't begun again.
fn begin_twice(archive: &mut Archive, low: Lsn, high: Lsn) -> bool {
    let refusal = archive.tail_refusal(low, high);
    archive.set_archive(true, low);
    archive.set_archive(true, high);
    refusal == Some(Refusal::Ephemeral) && archive.tail() == Some(low)
}

#[test]
fn archiving_is_set(rt: HostRuntime) {
    let mut archive = Archive::new(rt.alloc(), None);
    let (low, high) = (at(1, 0, 0), at(2, 0, 0));
    assert!(rt; begin_twice(&mut archive, low, high));
    assert!(rt; takes(&archive, high, high) && !takes(&archive, at(2, 0, 1), high));
    archive.set_archive_tail(high);
    assert!(rt; !takes(&archive, low, high));
    archive.set_archive(false, low);
    assert!(rt; archive.tail().is_none());
}

// The head of a record of stream 1 with 100 bytes.
fn head(lsn: Lsn) -> Head
    ensures lsn { result.lsn ≡ lsn }
    ensures len { result.len ≡ 100 }
{
    Head {
        lsn,
        stream: 1,
        kind: Kind::Plain,
        previous: Lsn::null(),
        undo_next: Lsn::null(),
        new_base: Lsn::null(),
        len: 100,
    }
}

// No block is in an archive that is opened without records.
fn is_empty_at_first(alloc: Global) -> Result<bool, AllocError> {
    let none = open_archive(alloc, Some(at(1, 0, 1)), &[], at(1, 0, 0))?;
    let extents = none.extents(alloc, at(1, 0, 0), 1)?;
    Ok(extents.as_slice().is_empty())
}

// Four records of the first block, one of the second, and one in container 3.
fn opened(alloc: Global) -> Result<Archive, AllocError> {
    let heads = [
        head(at(1, 0, 0)),
        head(at(1, 0, 1)),
        head(at(1, 0, 2)),
        head(at(1, 0, 3)),
        head(at(1, 1024, 0)),
        head(at(3, 0, 0)),
    ];
    open_archive(alloc, Some(at(1, 0, 1)), &heads, at(3, 512, 0))
}

#[test]
fn blocks_of_an_opened_log(rt: HostRuntime) -> Result<(), AllocError> {
    let alloc = rt.alloc();
    assert!(rt; is_empty_at_first(alloc)?);
    let archive = opened(alloc)?;
    assert!(rt; gives(alloc, &archive, at(3, 512, 0), &[(1, 0, 1536), (3, 0, 512)])?);
    assert!(rt; gives(alloc, &archive, at(1, 1024, 0), &[(1, 0, 1024)])?);
    Ok(())
}
