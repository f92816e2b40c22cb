// Reading a base copy from the bytes of its slot. It is judged first, and memory is taken for a copy that is right alone.
ghost use Rattle.std.specs.Prelude.{◌≡◌, ◌+◌, ◌-◌, ◌^◌, ◌<◌, ◌≤◌, ℕ, List, [], ◌∷◌, ◌++◌, IfOk, OnOk, Ok, None, drop, take};
ghost use Rattle.clfs_lsn.specs.Limits.{most_containers};
ghost use Rattle.clfs_base.specs.declared.image.BaseImage.{BaseImage};
ghost use Rattle.clfs_base.specs.Layout.{layout_in, number_at, slot_bytes};
ghost use Rattle.clfs_base.specs.Spelling.{IsImage, spelled};
ghost use Rattle.clfs_base.specs.Demands.{anything, fault_within, Meets};
ghost use Rattle.clfs_base.specs.Checks.{files_in, rows_of, name_in, slot_fault, image_with, image_of, image_at};
ghost use Rattle.clfs_base.specs.Decoding.{Gives};

use crate::checking::fault_within;
use crate::demands::Demands;
use crate::image::{BaseImage, Files, Row, Rows};
use crate::layout::{Layout, Numbers, file_place, layout_of, row_place};
use crate::reading::{name_in, number_1, number_2, number_8, numbers_of};
use crate::refusal::BaseRefusal;
use clfs_lsn::{Lsn, Name};
use std::alloc::{AllocError, Global};

/// The base copy that the bytes of a slot spell, in either version. The gate isn't judged.
pub fn decode(alloc: Global, bytes: &[u8]) -> Result<BaseImage, BaseRefusal>
    // What is read is spelled so, and is an image that a log can have.
    ensures found { IfOk result (λ image. IsImage image
        × (take (slot_bytes - 1) (drop 1 bytes.now) ≡ spelled image)) }

    // What is spelled so after any gate is read, whatever follows it.
    ensures only { (image : BaseImage) (gate : ℕ) (rest : List ℕ) → IsImage image
        → bytes.now ≡ gate ∷ (spelled image ++ rest) → Gives result None image }

    // A refusal names the first byte that is wrong.
    ensures exact { Gives result (slot_fault (layout_in bytes.now) bytes.now) (image_of (layout_in bytes.now) bytes.now) }
{
    decode_within(alloc, bytes, &Demands::anything())
}

/// The same of a copy that is one of those that are asked for. A field that has another number is told as a wrong one is.
pub fn decode_within(
    alloc: Global,
    bytes: &[u8],
    demands: &Demands,
) -> Result<BaseImage, BaseRefusal>
    // What is read is what the bytes spell, and is asked for.
    ensures found { IfOk result (λ image. (image_at bytes.now ≡ Ok image) × Meets demands.now image) }

    // What the bytes spell is read where it is asked for.
    ensures only { (image : BaseImage) → image_at bytes.now ≡ Ok image → Meets demands.now image → Gives result None image }

    // A refusal names the first byte that is wrong or has another number than is asked for.
    ensures exact { Gives result (fault_within demands.now (layout_in bytes.now) bytes.now) (image_of (layout_in bytes.now) bytes.now) }

    // Where anything is asked for, that is the first byte that is wrong.
    ensures anything { demands.now ≡ anything → Gives result (slot_fault (layout_in bytes.now) bytes.now) (image_of (layout_in bytes.now) bytes.now) }
{
    let layout = layout_of(number_1(bytes, 1));
    decode_as(alloc, &layout, bytes, demands)
}

// The same by one version of the copies.
fn decode_as(
    alloc: Global,
    layout: &Layout,
    bytes: &[u8],
    demands: &Demands,
) -> Result<BaseImage, BaseRefusal>
    ensures { Gives result (fault_within demands.now layout.now bytes.now) (image_of layout.now bytes.now) }
{
    if let Some(at) = fault_within(layout, bytes, demands) {
        return Err(BaseRefusal::BadByte { at });
    }
    let numbers = numbers_of(bytes);
    let files = read_files(alloc, bytes, numbers.listed)?;
    let streams = read_rows(alloc, layout, bytes, numbers.streams)?;
    Ok(image(&numbers, files, streams))
}

// The file numbers of so many listed containers.
fn read_files(alloc: Global, bytes: &[u8], listed: u16) -> Result<Files, AllocError>
    requires { listed ≤ most_containers }
    ensures { IfOk result (λ files. files ≡ files_in bytes.now listed) }
{
    let mut files = Files::new(alloc)?;
    for i in 0..listed {
        files.push(number_2(bytes, file_place(i)));
    }
    Ok(files)
}

// Adds a value at the end.
fn push<T: Drop>(list: &mut Vec<T>, value: T) -> Result<(), AllocError>
    ensures { OnOk result (list.new.items ≡ list.old.items ++ value ∷ []) }
{
    list.push(value)?;
    Ok(())
}

// The streams of so many rows.
fn read_rows(alloc: Global, layout: &Layout, bytes: &[u8], count: u16) -> Result<Rows, AllocError>
    ensures { IfOk result (λ rows. rows ≡ rows_of layout.now bytes.now count) }
{
    let mut rows = Vec::with_capacity(alloc, count as usize)?;
    for i in 0..count {
        let row = row_of(alloc, bytes, row_place(layout, i))?;
        push(&mut rows, row)?;
    }
    Ok(Rows::from_vec(rows))
}

// The stream of a row at a place.
fn row_of(alloc: Global, bytes: &[u8], at: u32) -> Result<Row, AllocError>
    requires { at < 2 ^ 30 }
    ensures { IfOk result (λ row. row ≡ record { name = name_in bytes.now at; base = number_at (at + 8) 8 bytes.now }) }
{
    let name = Vec::from_slice(alloc, name_in(bytes, at))?;
    Ok(Row {
        name: Name::from_vec(name),
        base: Lsn::of_number(number_8(bytes, at + 8)),
    })
}

// The image of a slot's numbers, with its tables.
fn image(n: &Numbers, files: Files, streams: Rows) -> BaseImage
    ensures { result ≡ image_with n.now files streams }
{
    BaseImage {
        version: n.version,
        turn: n.turn,
        block_sectors: n.block_sectors,
        container_sectors: n.container_sectors,
        containers: n.containers,
        files_made: n.files_made,
        first: n.first,
        archiving: n.archiving == 1,
        automatic: n.automatic == 1,
        maximum: n.maximum,
        minimum: n.minimum,
        growth: n.growth,
        tail: Lsn::of_number(n.tail),
        dedicated: n.dedicated == 1,
        files,
        streams,
    }
}
