// Printing a log as text, up to its end or its first wrong byte.
//
// What is printed, and up to which byte, is `clfs_dump`'s; here it is said by a status how it ended. A line comes last if no slot is open, or if the
// disk failed: the text before it is a prefix of that of the files then. The disk is only read, and not even synced.
ghost use Rattle.std.specs.Prelude.{◌≡◌, IfOk};
ghost use Rattle.clfs_operations.specs.Complete.{IsDone, NothingFailsChecking};
ghost use Rattle.clfs_operations.specs.Dump.{form_of, name_of, selection_of, EndsDump};

use crate::status::{DISK_FAULT, NOT_A_LOG, Outcome};
use clfs_command::{AskedName, DataWord, DumpOptions};
use clfs_disk::Disk;
use clfs_dump::{DataForm, DumpRefusal, Selection, dumps_tell_what_opening_finds};
use clfs_lines::{DONE, NO_MEMORY, SINK_FAULT, printed};
use clfs_lsn::Name;
use clfs_ports::Sink;
use clfs_recover::files_have_one_meaning;
use std::alloc::{AllocError, Global};

// How data are printed, as it is asked for.
fn form_of(word: DataWord) -> DataForm
    ensures { result ≡ form_of word }
{
    match word {
        DataWord::Hex => DataForm::Hex,
        DataWord::Text => DataForm::Text,
        DataWord::Nothing => DataForm::Nothing,
    }
}

// The name of a stream in memory of its own.
fn name_of(alloc: Global, name: &AskedName) -> Result<Name, AllocError>
    ensures { IfOk result (λ found. found ≡ name_of name.now) }
{
    Ok(Name::from_vec(Vec::from_slice(alloc, name.as_slice())?))
}

// The records that are asked for.
fn selection_of(alloc: Global, options: &DumpOptions) -> Result<Selection, AllocError>
    ensures { IfOk result (λ selection. selection ≡ selection_of options.now) }
{
    let stream = match &options.stream {
        Some(name) => Some(name_of(alloc, name)?),
        None => None,
    };
    Ok(Selection {
        from: options.from,
        to: options.to,
        stream,
        form: form_of(options.form),
    })
}

// Prints a log, and answers the status.
fn dumped<K: Sink, D: Disk>(alloc: Global, selection: &Selection, sink: &mut K, disk: &mut D) -> u8
    ensures { EndsDump selection.now result (D.state disk.old) (D.state disk.new) (K.written sink.old) (K.written sink.new)
        (K.faults sink.old) (K.faults sink.new) }
{
    files_have_one_meaning();
    dumps_tell_what_opening_finds();
    match clfs_dump::dump(alloc, selection, sink, disk) {
        Ok(_) => DONE,
        Err(DumpRefusal::NoBase) => printed(sink, b"not a log: no open slot\n", NOT_A_LOG),
        Err(DumpRefusal::Damaged { .. }) => NOT_A_LOG,
        Err(DumpRefusal::DiskFault) => printed(sink, b"disk fault\n", DISK_FAULT),
        Err(DumpRefusal::NoMemory) => NO_MEMORY,
        Err(DumpRefusal::SinkFault) => SINK_FAULT,
    }
}

/// Prints the log on a disk, of its records those that are asked for.
pub fn dump<K: Sink, D: Disk + Drop>(
    alloc: Global,
    options: &DumpOptions,
    sink: &mut K,
    disk: D,
) -> Outcome<D>
    ensures ends { EndsDump (selection_of options.now) result.status (D.state disk) (D.state result.disk) (K.written sink.old) (K.written sink.new)
        (K.faults sink.old) (K.faults sink.new) }
    ensures complete { NothingFailsChecking (D.state disk) (D.state result.disk) (K.faults sink.old) (K.faults sink.new) → IsDone result.status }
{
    files_have_one_meaning();
    dumps_tell_what_opening_finds();
    let mut disk = disk;
    let Ok(selection) = selection_of(alloc, options) else {
        return Outcome {
            status: NO_MEMORY,
            disk,
        };
    };
    let status = dumped(alloc, &selection, sink, &mut disk);
    Outcome { status, disk }
}
