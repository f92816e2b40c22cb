// A trial: the lines that are made of a number are answered by a log in memory, and their sums are printed. One line is there at a time, and the
// memory of one serves all.
ghost use Rattle.std.specs.Prelude.{◌≡◌, ◌+◌, ◌≤◌, IfOk};
ghost use Rattle.clfs_ports.specs.Cause.{Rises};
ghost use Rattle.clfs_disk.specs.State.{TellsContents, IsSteady};
ghost use Rattle.clfs_model.specs.Flush.{flushed};
ghost use Rattle.clfs_recover.specs.Files.{AreWholeFiles};
ghost use Rattle.clfs_command.specs.Command.{most_trial_lines};
ghost use Rattle.clfs_trial.specs.Generated.{opening_lines};
ghost use Rattle.clfs_operations.specs.Complete.{IsDone};
ghost use Rattle.clfs_operations.specs.Trial.{HasTried, trial_log, trial_text, IsTrialText, EndsTrial};

use crate::answering::reply_to_line;
use crate::making::made_log;
use crate::refusing::push_number;
use crate::tally::{Tally, told_lsn};
use clfs_disk::{Disk, Steady};
use clfs_laws::unbroken_stays;
use clfs_lines::{DONE, NO_MEMORY, cleared, printed};
use clfs_lsn::{Bytes, Lsn, Shape};
use clfs_manager::Manager;
use clfs_ports::Sink;
use clfs_text::push_lsn;
use clfs_trial::{Generator, OPENING_LINES};
use std::alloc::{AllocError, Global};

const SHAPE: Shape = Shape {
    block_sectors: 8,
    container_sectors: 1024,
};

// Answers the lines of the trial of a number, with so many after those that open the streams.
fn answer_lines<D: Disk>(
    alloc: Global,
    manager: &mut Manager<D>,
    number: u32,
    count: u32,
) -> Result<Tally, AllocError>
    requires { count ≤ most_trial_lines }
    ensures { IfOk result (λ tally. HasTried manager.old.0 (D.state manager.old.1) number (opening_lines + count) tally
        manager.new.0 (D.state manager.new.1)) }
{
    unbroken_stays();
    let mut generator = Generator::new(number);
    let mut line = Bytes::new(alloc);
    let mut tally = Tally::new();
    for _ in 0..OPENING_LINES + count {
        line = cleared(line);
        generator.push_line(&mut line)?;
        let reply = reply_to_line(alloc, manager, line.as_slice())?;
        generator.told(told_lsn(&reply));
        tally = tally.counting(&reply);
    }
    Ok(tally)
}

// The LSN up to which a log is flushed, as it tells of its first stream. There is one, unless memory ran out when it was opened.
fn flushed_lsn<D: Disk>(manager: &Manager<D>) -> Result<Lsn, AllocError>
    ensures { IfOk result (λ lsn. lsn ≡ flushed manager.now.0) }
{
    match manager.info(1) {
        Ok(info) => Ok(info.flushed),
        Err(_) => Err(AllocError),
    }
}

// The line that is printed.
fn trial_text(
    alloc: Global,
    number: u32,
    count: u32,
    tally: Tally,
    flushed: Lsn,
) -> Result<Bytes, AllocError>
    ensures { IfOk result (λ text. text ≡ trial_text number count tally flushed) }
{
    let mut text = Bytes::new(alloc);
    push_number(b"trial ", number, &mut text)?;
    push_number(b" ", count, &mut text)?;
    push_number(b" ok ", tally.answered, &mut text)?;
    push_number(b" refused ", tally.refused, &mut text)?;
    text.extend_from_slice(b" flushed ")?;
    push_lsn(flushed, &mut text)?;
    text.extend_from_slice(b"\n")?;
    Ok(text)
}

// Answers the lines by a log that was just made, and gives the line that is printed.
fn sums<D: Disk>(
    alloc: Global,
    manager: &mut Manager<D>,
    number: u32,
    count: u32,
) -> Result<Bytes, AllocError>
    requires state { manager.old.0 ≡ trial_log }
    requires told { TellsContents (D.state manager.old.1) }
    requires steady { IsSteady (D.state manager.old.1) }
    requires whole { AreWholeFiles (D.state manager.old.1).files }
    requires few { count ≤ most_trial_lines }
    ensures { IfOk result (λ text. IsTrialText number count text) }
{
    let tally = answer_lines(alloc, manager, number, count)?;
    let flushed = flushed_lsn(manager)?;
    trial_text(alloc, number, count, tally, flushed)
}

// Answers the lines by a log on a disk without one, and gives the line that is printed.
fn tried_on<D: Disk + Drop>(
    alloc: Global,
    disk: D,
    number: u32,
    count: u32,
) -> Result<Bytes, AllocError>
    requires told { TellsContents (D.state disk) }
    requires steady { IsSteady (D.state disk) }
    requires few { count ≤ most_trial_lines }
    ensures { IfOk result (λ text. IsTrialText number count text) }
{
    let mut manager = made_log(alloc, disk, SHAPE)?;
    let text = sums(alloc, &mut manager, number, count);
    let _disk = manager.close();
    text
}

// Answers the lines by a log in memory, and gives the line that is printed.
fn tried(alloc: Global, number: u32, count: u32) -> Result<Bytes, AllocError>
    requires { count ≤ most_trial_lines }
    ensures { IfOk result (λ text. IsTrialText number count text) }
{
    let disk = Steady::new(alloc)?;
    tried_on(alloc, disk, number, count)
}

/// Answers the lines of the trial of a number by a log in memory: those that open the streams, and so many after them. It prints how many were
/// refused, how many were answered otherwise, and up to which LSN the log is flushed then.
pub fn trial<K: Sink>(alloc: Global, number: u32, count: u32, sink: &mut K) -> u8
    requires { count ≤ most_trial_lines }
    ensures ends { EndsTrial result number count (K.written sink.old) (K.written sink.new) (K.faults sink.old) (K.faults sink.new) }
    ensures complete { (Rises (K.faults sink.old) (K.faults sink.new) → ⊥) → IsDone result }
{
    match tried(alloc, number, count) {
        Ok(text) => printed(sink, text.as_slice(), DONE),
        Err(_) => NO_MEMORY,
    }
}
