// Serving a script: the log is opened, and the script is answered while it comes.
ghost use Rattle.std.specs.Prelude.{◌≤◌};
ghost use Rattle.clfs_lsn.specs.Limits.{most_write_buffers};
ghost use Rattle.clfs_model.specs.Accepted.{serve_limits};
ghost use Rattle.clfs_operations.specs.Complete.{NothingFailsAnswering, NothingFailsServing, ComesThrough};
ghost use Rattle.clfs_operations.specs.Serve.{EndsServing};
ghost use Rattle.clfs_lines.specs.Taken.{script_limits};
ghost use Rattle.clfs_lines.specs.declared.incomplete.IncompleteLine.TheVariants.{Counts};

use crate::answering::ScriptLog;
use crate::refusing::refused;
use crate::status::Outcome;
use clfs_disk::Disk;
use clfs_laws::unbroken_stays;
use clfs_lines::{IncompleteLine, answered};
use clfs_manager::{LoadRefused, Manager};
use clfs_ports::{Sink, Source};
use clfs_recover::files_have_one_meaning;
use std::alloc::Global;

/// The most bytes of a script, unless it is endless.
pub const LONGEST_SCRIPT: u64 = 67108864;

// How many blocks that are read are kept, unless another number is asked for.
const READ_BUFFERS: u32 = 32;

/// Opens the log on a disk, with so many write buffers, and so many blocks that are kept of those that are read; answers the script that the source
/// gives, one reply for each line; and says how it ended. A script has at most so many bytes, and a line at most 131,072 without its line feed. Each line is answered when its line feed is there, and its reply is written
/// before the next one is looked at.
pub fn serve_within<S: Source, K: Sink, D: Disk + Drop>(
    alloc: Global,
    write_buffers: u32,
    read_buffers: u32,
    most: u64,
    incomplete: IncompleteLine,
    source: &mut S,
    sink: &mut K,
    disk: D,
) -> Outcome<D>
    requires some { 1 ≤ write_buffers }
    requires at_most { write_buffers ≤ most_write_buffers }
    requires reads { 1 ≤ read_buffers }
    ensures ends { EndsServing (script_limits most) incomplete result.status write_buffers (D.state disk) (D.state result.disk) (S.left source.old) (S.left source.new)
        (K.written sink.old) (K.written sink.new) (S.faults source.old) (S.faults source.new) (K.faults sink.old) (K.faults sink.new) }
    ensures complete { NothingFailsAnswering (script_limits most) (D.state disk) (D.state result.disk) (S.left source.old) (S.faults source.old)
        (S.faults source.new) (K.faults sink.old) (K.faults sink.new) → ComesThrough (script_limits most) incomplete result.status write_buffers
        (D.state disk) (D.state result.disk) (S.left source.old) (S.left source.new) (K.written sink.old) (K.written sink.new) }
{
    files_have_one_meaning();
    unbroken_stays();
    match Manager::load_with(alloc, disk, write_buffers, read_buffers) {
        Ok(manager) => {
            let mut log = ScriptLog { manager };
            log.manager.stored();
            let status = answered(alloc, &mut log, most, incomplete, source, sink);
            log.manager.stored();
            Outcome {
                status,
                disk: log.manager.close(),
            }
        }
        Err(LoadRefused { disk, cause }) => Outcome {
            status: refused(alloc, sink, cause),
            disk,
        },
    }
}

/// Serves a script of at most 67,108,864 bytes, and keeps 32 of the blocks that are read.
pub fn serve<S: Source, K: Sink, D: Disk + Drop>(
    alloc: Global,
    write_buffers: u32,
    source: &mut S,
    sink: &mut K,
    disk: D,
) -> Outcome<D>
    requires some { 1 ≤ write_buffers }
    requires at_most { write_buffers ≤ most_write_buffers }
    ensures ends { EndsServing serve_limits Counts result.status write_buffers (D.state disk) (D.state result.disk) (S.left source.old) (S.left source.new)
        (K.written sink.old) (K.written sink.new) (S.faults source.old) (S.faults source.new) (K.faults sink.old) (K.faults sink.new) }
    ensures complete { NothingFailsServing (D.state disk) (D.state result.disk) (S.left source.old) (S.faults source.old) (S.faults source.new)
        (K.faults sink.old) (K.faults sink.new) → ComesThrough serve_limits Counts result.status write_buffers (D.state disk) (D.state result.disk)
        (S.left source.old) (S.left source.new) (K.written sink.old) (K.written sink.new) }
{
    serve_within(
        alloc,
        write_buffers,
        READ_BUFFERS,
        LONGEST_SCRIPT,
        IncompleteLine::Counts,
        source,
        sink,
        disk,
    )
}
