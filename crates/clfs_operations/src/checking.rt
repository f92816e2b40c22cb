// Judging a log: what is in it is told in a line, or why there is none.
ghost use Rattle.std.specs.Prelude.{◌≡◌, ◌++◌, OnOk, IfOk, decimal};
ghost use Rattle.clfs_operations.specs.Check.{counts_text, whole_text, report_text, TellsReport, EndsCheck};
ghost use Rattle.clfs_operations.specs.Complete.{IsDone, NothingFailsChecking};

use crate::refusing::{push_number, refused};
use crate::status::Outcome;
use clfs_check::Report;
use clfs_disk::Disk;
use clfs_lines::{DONE, NO_MEMORY, printed};
use clfs_lsn::Bytes;
use clfs_ports::Sink;
use clfs_recover::files_have_one_meaning;
use clfs_text::{push_decimal, push_lsn};
use std::alloc::{AllocError, Global};

// Whether files are at full length, as it is told.
fn whole_text(whole: bool) -> &'static [u8]
    ensures { result.now ≡ whole_text whole }
{
    if whole {
        b" whole yes\n"
    } else {
        b" whole no\n"
    }
}

// Adds a text and then a count at the end.
fn push_count(text: &[u8], count: u64, out: &mut Bytes) -> Result<(), AllocError>
    ensures { OnOk result (out.new ≡ out.old ++ (text.now ++ decimal count)) }
{
    out.extend_from_slice(text)?;
    push_decimal(count, out)
}

// Adds what a report counts.
fn push_counts(report: &Report, out: &mut Bytes) -> Result<(), AllocError>
    ensures { OnOk result (out.new ≡ out.old ++ counts_text report.now) }
{
    push_number(b"log containers ", report.containers, out)?;
    push_number(b" listed ", report.listed, out)?;
    push_count(b" blocks ", report.blocks, out)?;
    push_count(b" records ", report.records, out)?;
    push_number(b" streams ", report.streams, out)
}

// The line of a report.
fn report_text(alloc: Global, report: &Report) -> Result<Bytes, AllocError>
    ensures { IfOk result (λ text. text ≡ report_text report.now) }
{
    let mut text = Bytes::new(alloc);
    push_counts(report, &mut text)?;
    text.extend_from_slice(b" end ")?;
    push_lsn(report.place, &mut text)?;
    text.extend_from_slice(whole_text(report.whole))?;
    Ok(text)
}

// Writes the line of a report, and answers the status.
fn reported<K: Sink>(alloc: Global, sink: &mut K, report: &Report) -> u8
    ensures { TellsReport result report.now (K.written sink.old) (K.written sink.new) (K.faults sink.old) (K.faults sink.new) }
{
    match report_text(alloc, report) {
        Ok(text) => printed(sink, text.as_slice(), DONE),
        Err(_) => NO_MEMORY,
    }
}

/// Judges the log on a disk, and tells what is in it, or why there is none.
pub fn check<K: Sink, D: Disk + Drop>(alloc: Global, sink: &mut K, disk: D) -> Outcome<D>
    ensures ends { EndsCheck result.status (D.state disk) (D.state result.disk) (K.written sink.old) (K.written sink.new)
        (K.faults sink.old) (K.faults sink.new) }
    ensures complete { NothingFailsChecking (D.state disk) (D.state result.disk) (K.faults sink.old) (K.faults sink.new) → IsDone result.status }
{
    files_have_one_meaning();
    let mut disk = disk;
    match clfs_check::check(alloc, &mut disk) {
        Ok(report) => Outcome {
            status: reported(alloc, sink, &report),
            disk,
        },
        Err(refusal) => Outcome {
            status: refused(alloc, sink, refusal),
            disk,
        },
    }
}
