// Making a log: the manager does it, and its outcome is told in a line.
ghost use Rattle.std.specs.Prelude.{◌≤◌};
ghost use Rattle.clfs_lsn.specs.Limits.{most_containers};
ghost use Rattle.clfs_lsn.specs.Size.{IsShape};
ghost use Rattle.clfs_operations.specs.Complete.{IsDone, NothingFailsMaking};
ghost use Rattle.clfs_operations.specs.Format.{EndsFormat};

use crate::status::{DISK_FAULT, EXISTS, Outcome};
use clfs_disk::Disk;
use clfs_lines::{DONE, NO_MEMORY, printed};
use clfs_lsn::Shape;
use clfs_manager::{FormatRefusal, FormatRefused, Manager};
use clfs_ports::Sink;
use std::alloc::Global;

/// Makes a log of these sizes on a disk where none is, for one stream or for several, and says so.
pub fn format<K: Sink, D: Disk + Drop>(
    alloc: Global,
    shape: Shape,
    containers: u32,
    dedicated: bool,
    sink: &mut K,
    disk: D,
) -> Outcome<D>
    requires shape { IsShape shape }
    requires some { 1 ≤ containers }
    requires few { containers ≤ most_containers }
    ensures ends { EndsFormat result.status shape containers dedicated (D.state disk) (D.state result.disk)
        (K.written sink.old) (K.written sink.new) (K.faults sink.old) (K.faults sink.new) }
    ensures complete { NothingFailsMaking (D.state disk) (D.state result.disk) (K.faults sink.old) (K.faults sink.new) → IsDone result.status }
{
    match Manager::format(alloc, disk, shape, containers, dedicated) {
        Ok(disk) => Outcome {
            status: printed(sink, b"formatted\n", DONE),
            disk,
        },
        Err(FormatRefused { disk, cause }) => match cause {
            FormatRefusal::Exists { .. } => Outcome {
                status: printed(sink, b"a log is there\n", EXISTS),
                disk,
            },
            FormatRefusal::DiskFault => Outcome {
                status: printed(sink, b"disk fault\n", DISK_FAULT),
                disk,
            },
            FormatRefusal::NoMemory => Outcome {
                status: NO_MEMORY,
                disk,
            },
        },
    }
}
