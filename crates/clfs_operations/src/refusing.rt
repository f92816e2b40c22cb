// A log that wasn't opened: why is told in a line.
ghost use Rattle.std.specs.Prelude.{◌≡◌, ◌++◌, OnOk, IfOk};
ghost use Rattle.clfs_operations.specs.Opened.{no_log_text, TellsRefusal};
ghost use Rattle.std.specs.Fmt.{decimal};

use crate::status::{DISK_FAULT, NOT_A_LOG};
use clfs_lines::{NO_MEMORY, printed};
use clfs_lsn::Bytes;
use clfs_manager::LoadRefusal;
use clfs_ports::Sink;
use clfs_text::push_decimal;
use std::alloc::{AllocError, Global};

/// Adds a text and then a number at the end.
pub fn push_number(text: &[u8], number: u32, out: &mut Bytes) -> Result<(), AllocError>
    ensures { OnOk result (out.new ≡ out.old ++ (text.now ++ decimal number)) }
{
    out.extend_from_slice(text)?;
    push_decimal(number as u64, out)
}

// The line for damage at a place.
fn damage_text(alloc: Global, container: u32, offset: u32, at: u32) -> Result<Bytes, AllocError>
    ensures { IfOk result (λ text. text ≡ no_log_text (LoadRefusal.Damaged container offset at)) }
{
    let mut text = Bytes::new(alloc);
    push_number(b"not a log: container ", container, &mut text)?;
    push_number(b" offset ", offset, &mut text)?;
    push_number(b" byte ", at, &mut text)?;
    text.extend_from_slice(b"\n")?;
    Ok(text)
}

/// Says why a log wasn't opened, and answers the status.
pub fn refused<K: Sink>(alloc: Global, sink: &mut K, refusal: LoadRefusal) -> u8
    ensures { TellsRefusal result refusal (K.written sink.old) (K.written sink.new) (K.faults sink.old) (K.faults sink.new) }
{
    match refusal {
        LoadRefusal::NoBase => printed(sink, b"not a log: no open slot\n", NOT_A_LOG),
        LoadRefusal::Damaged {
            container,
            offset,
            at,
        } => match damage_text(alloc, container, offset, at) {
            Ok(text) => printed(sink, text.as_slice(), NOT_A_LOG),
            Err(_) => NO_MEMORY,
        },
        LoadRefusal::DiskFault => printed(sink, b"disk fault\n", DISK_FAULT),
        LoadRefusal::NoMemory => NO_MEMORY,
    }
}
