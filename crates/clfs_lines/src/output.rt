// Writing the output, as far as the sink takes it. A long output is given to it in pieces: the system takes one write of many megabytes more slowly.
ghost use Rattle.std.specs.Prelude.{◌≡◌, ◌≢◌, ◌≤◌, ◌⊎◌, OnOk, OnErr};
ghost use Rattle.std.specs.Io.KnownBytes.{Appends};
ghost use Rattle.clfs_ports.specs.Cause.{HasCause, Rises};
ghost use Rattle.clfs_lines.specs.Ends.{AppendsFront};

use crate::status::SINK_FAULT;
use clfs_ports::{Failed, Sink};

// The most bytes that are given to the sink in one call.
const MOST_IN_A_CALL: usize = 1 << 20;

/// Writes all the bytes, or a front of them where the sink fails. After a fault the sink isn't called again.
pub fn write_all<K: Sink>(sink: &mut K, bytes: &[u8]) -> Result<(), Failed>
    ensures ok { OnOk result (Appends (K.written sink.old) (K.written sink.new) bytes.now) }
    ensures err { OnErr result (AppendsFront (K.written sink.old) (K.written sink.new) bytes.now) }
    ensures cause { HasCause (K.faults sink.old) (K.faults sink.new) result }
{
    let mut done = 0;
    while done < bytes.len() {
        let (_, rest) = bytes.split_at(done);
        let (piece, _) = rest.split_at(rest.len().min(MOST_IN_A_CALL));
        let count = sink.write(piece)?;
        done += count;
    }
    Ok(())
}

/// Writes a text and answers the status, or that of a sink fault.
pub fn printed<K: Sink>(sink: &mut K, text: &[u8], status: u8) -> u8
    requires { status ≢ SINK_FAULT }
    ensures status { (result ≡ status) ⊎ (result ≡ SINK_FAULT) }
    ensures whole { result ≡ status → Appends (K.written sink.old) (K.written sink.new) text.now }
    ensures front { result ≡ SINK_FAULT → AppendsFront (K.written sink.old) (K.written sink.new) text.now }
    ensures cause { result ≡ SINK_FAULT → Rises (K.faults sink.old) (K.faults sink.new) }
    ensures later { K.faults sink.old ≤ K.faults sink.new }
{
    match write_all(sink, text) {
        Ok(()) => status,
        Err(_) => SINK_FAULT,
    }
}
