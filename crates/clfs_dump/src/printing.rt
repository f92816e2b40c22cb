// Writing text, as far as the sink takes it.
ghost use Rattle.std.specs.Prelude.{◌≡◌, ℕ, List, Ok, IfOk, OnOk, OnErr, IsErrOf};
ghost use Rattle.std.specs.Io.KnownBytes.{Appends};
ghost use Rattle.clfs_ports.specs.Cause.{HasCause};
ghost use Rattle.clfs_dump.specs.Printing.{AppendsFront, Prints, HasSinkCause};

use crate::refusal::DumpRefusal;
use clfs_lsn::Bytes;
use clfs_ports::{Failed, Sink};
use std::alloc::AllocError;

// Writes all the bytes, or a front of them where the sink fails. After a fault the sink isn't called again.
fn write_all<K: Sink>(sink: &mut K, bytes: &[u8]) -> Result<(), Failed>
    ensures ok { OnOk result (Appends (K.written sink.old) (K.written sink.new) bytes.now) }
    ensures err { OnErr result (AppendsFront (K.written sink.old) (K.written sink.new) bytes.now) }
    ensures cause { HasCause (K.faults sink.old) (K.faults sink.new) result }
{
    let mut done = 0;
    while done < bytes.len() {
        let (_, rest) = bytes.split_at(done);
        let count = sink.write(rest)?;
        done += count;
    }
    Ok(())
}

/// Prints a text, if there was memory for it.
pub(crate) fn print_text<K: Sink>(
    text: Result<Bytes, AllocError>,
    sink: &mut K,
) -> Result<(), DumpRefusal>
    ensures told { (expected : List ℕ) → IfOk text (λ found. found ≡ expected)
        → Prints (K.written sink.old) (K.written sink.new) expected (Ok tt) result }
    ensures no_fault { IsErrOf result DumpRefusal.DiskFault → ⊥ }
    ensures sink { HasSinkCause result (K.faults sink.old) (K.faults sink.new) }
{
    let text = text?;
    write_all(sink, text.as_slice())?;
    Ok(())
}
