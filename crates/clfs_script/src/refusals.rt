// The text of refusals: the number, the name, and the fields in order.
ghost use Rattle.std.specs.Prelude.{◌≡◌, ◌++◌, OnOk, codes, decimal};
ghost use Rattle.clfs_lsn.specs.Words.{lsn_text};
ghost use Rattle.clfs_model.specs.Text.{refusal_text};

use crate::writing::{push_number, push_place};
use clfs_lsn::{Bytes, Lsn};
use clfs_model::Refusal;
use std::alloc::AllocError;

// A text and two numbers.
fn push_two(text: &[u8], first: u32, second: u32, out: &mut Bytes) -> Result<(), AllocError>
    ensures { OnOk result (out.new ≡ out.old ++ (text.now ++ (decimal first ++ (codes " " ++ decimal second)))) }
{
    push_number(text, first, out)?;
    push_number(b" ", second, out)
}

// A text and three numbers.
fn push_three(
    text: &[u8],
    first: u32,
    second: u32,
    third: u32,
    out: &mut Bytes,
) -> Result<(), AllocError>
    ensures { OnOk result (out.new ≡ out.old ++ (text.now ++ (decimal first ++ (codes " " ++ (decimal second ++ (codes " " ++ decimal third)))))) }
{
    push_two(text, first, second, out)?;
    push_number(b" ", third, out)
}

// A text and three LSNs.
fn push_places(
    text: &[u8],
    first: Lsn,
    second: Lsn,
    third: Lsn,
    out: &mut Bytes,
) -> Result<(), AllocError>
    ensures { OnOk result (out.new ≡ out.old ++ (text.now ++ (lsn_text first ++ (codes " " ++ (lsn_text second ++ (codes " " ++ lsn_text third)))))) }
{
    push_place(text, first, out)?;
    push_place(b" ", second, out)?;
    push_place(b" ", third, out)
}

/// Writes a refusal's number, its name and its fields in order after the text that is there.
pub fn push_refusal(refusal: &Refusal, out: &mut Bytes) -> Result<(), AllocError>
    ensures { OnOk result (out.new ≡ out.old ++ refusal_text refusal.now) }
{
    match *refusal {
        Refusal::NoMemory => out.extend_from_slice(b"1 NoMemory"),
        Refusal::DiskFault => out.extend_from_slice(b"2 DiskFault"),
        Refusal::Broken => out.extend_from_slice(b"3 Broken"),
        Refusal::NotEnoughContainers { have } => push_number(b"4 NotEnoughContainers ", have, out),
        Refusal::Full {
            free,
            reserved,
            need,
        } => push_three(b"5 Full ", free, reserved, need, out),
        Refusal::ReservationShort { held, need } => push_two(
            b"6 ReservationShort ",
            held,
            need,
            out,
        ),
        Refusal::RecordTooLong { len, max } => push_two(b"7 RecordTooLong ", len, max, out),
        Refusal::LinkInvalid { lsn } => push_place(b"8 LinkInvalid ", lsn, out),
        Refusal::NoSuchStream => out.extend_from_slice(b"9 NoSuchStream"),
        Refusal::NoSuchArea => out.extend_from_slice(b"10 NoSuchArea"),
        Refusal::Damaged {
            container,
            offset,
            at,
        } => push_three(b"11 Damaged ", container, offset, at, out),
        Refusal::NoSuchCursor => out.extend_from_slice(b"12 NoSuchCursor"),
        Refusal::StreamLimit { count } => push_number(b"13 StreamLimit ", count, out),
        Refusal::AreaLimit { count } => push_number(b"14 AreaLimit ", count, out),
        Refusal::CursorLimit { open_now } => push_number(b"15 CursorLimit ", open_now, out),
        Refusal::NameInvalid { at } => push_number(b"16 NameInvalid ", at, out),
        Refusal::RecordNonexistent { lsn } => push_place(b"17 RecordNonexistent ", lsn, out),
        Refusal::EndOfLog => out.extend_from_slice(b"18 EndOfLog"),
        Refusal::StartOfLog => out.extend_from_slice(b"19 StartOfLog"),
        Refusal::NoRestart => out.extend_from_slice(b"20 NoRestart"),
        Refusal::TailInvalid { lsn, base, last } => push_places(
            b"21 TailInvalid ",
            lsn,
            base,
            last,
            out,
        ),
        Refusal::ArchiveTailInvalid { lsn, tail, flushed } => push_places(
            b"22 ArchiveTailInvalid ",
            lsn,
            tail,
            flushed,
            out,
        ),
        Refusal::Ephemeral => out.extend_from_slice(b"23 Ephemeral"),
        Refusal::CantShrink { active, need } => push_two(b"24 CantShrink ", active, need, out),
        Refusal::ContainerLimit { limit } => push_number(b"25 ContainerLimit ", limit, out),
        Refusal::PolicyConflict { min, max } => push_two(b"26 PolicyConflict ", min, max, out),
        Refusal::PolicyNotInstalled => out.extend_from_slice(b"27 PolicyNotInstalled"),
        Refusal::BadLine { at } => push_number(b"28 BadLine ", at, out),
        Refusal::Dedicated => out.extend_from_slice(b"29 Dedicated"),
    }
}
