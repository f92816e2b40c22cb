// The commands of the program: those of one thread, and all.
ghost use Rattle.std.specs.Prelude.{◌≡◌, ◌≢◌, false, map, Some, Err, IfOk, IfErr};
ghost use Rattle.std.specs.String.{string_bytes};
ghost use Rattle.clfs_command.specs.Command.{command_of, HasItsRanges};
ghost use Rattle.clfs_operations.specs.Lengths.{longest_script, incomplete_of};
ghost use Rattle.clfs_engine.specs.Run.{calls_disk, command_of_threaded, EndsRun, reads_source, starts_threads};

use crate::crewing::crew;
use crate::crowding::crowd;
use clfs_command::{Command, ScriptLength, WordsRefusal, read_command};
use clfs_disk::Disk;
use clfs_lines::{IncompleteLine, NO_MEMORY, printed};
use clfs_operations::{
    LONGEST_SCRIPT, Outcome, USAGE, archive, check, dump, format, memory_runs_out_at_once, race,
    restore, serve_within, trial, txn,
};
use clfs_ports::{Sink, Source};
use clfs_race::Pass;
use std::alloc::Global;
use std::sync::Wait;
use std::thread::Threads;

/// A command that starts threads and waits for them.
#[derive(Clone, Copy, Debug, PartialEq, Eq)]
pub enum ThreadedCommand {
    /// To answer each client of a script in a thread of its own.
    Race {
        /// The write buffers of the log, 1 to 64.
        write_buffers: u32,
    },
    /// To append by permits of one shared area.
    Crew {
        /// The threads, 1 to 8.
        threads: u32,
        /// The records of each, 1 to 1,000.
        count: u32,
    },
    /// To append and share flushes.
    Crowd {
        /// The threads, 1 to 8.
        threads: u32,
        /// The records of each, 1 to 1,000.
        count: u32,
    },
}

/// The words name a command that starts threads. Nothing was done.
#[derive(Drop)]
pub struct NeedsThreads<D> {
    /// The command.
    pub command: ThreadedCommand,
    /// The disk that was handed in.
    pub disk: D,
}

// How many bytes a script of such a length may have.
fn longest_script(length: ScriptLength) -> u64
    ensures { result ≡ longest_script length }
{
    match length {
        ScriptLength::Limited => LONGEST_SCRIPT,
        ScriptLength::Endless => u64::MAX,
    }
}

// What becomes of bytes after the last line feed of a script of such a length.
fn incomplete_of(length: ScriptLength) -> IncompleteLine
    ensures { result ≡ incomplete_of length }
{
    match length {
        ScriptLength::Limited => IncompleteLine::Counts,
        ScriptLength::Endless => IncompleteLine::Dropped,
    }
}

/// Runs the command that the words name: `serve` with its write buffers, its read buffers and the length that the script may have, `format` with the sizes of
/// the log and whether it is dedicated, `trial` with its number and its count, `dump` with its options, `restore` up to its LSN, `archive`, `txn`, or `check`.
/// The words are those after the folder. It waits for nobody, so it returns. Words that name a command which starts threads are an error, and
/// nothing is done; `run` has all commands.
pub fn run_alone<S: Source, K: Sink, D: Disk + Drop>(
    alloc: Global,
    words: &[String],
    source: &mut S,
    sink: &mut K,
    disk: D,
) -> Result<Outcome<D>, NeedsThreads<D>>
    ensures ends { IfOk result (λ outcome. EndsRun (command_of (map string_bytes words.now)) outcome.status (record {
      disk = D.state disk;
      disk_after = D.state outcome.disk;
      left = S.left source.old;
      left_after = S.left source.new;
      written = K.written sink.old;
      written_after = K.written sink.new;
      source = S.faults source.old;
      source_after = S.faults source.new;
      sink = K.faults sink.old;
      sink_after = K.faults sink.new;
    })) }
    // Only a script and archives are read from the source, and only serving a log or a table, making, judging, dumping, archiving and restoring a log
    // call the disk.
    ensures unread { reads_source (command_of (map string_bytes words.now)) ≡ false → source.new ≡ source.old }
    ensures untouched { calls_disk (command_of (map string_bytes words.now)) ≡ false → IfOk result (λ outcome. outcome.disk ≡ disk) }
    // The words of a command which starts threads are told, and no others.
    ensures alone { starts_threads (command_of (map string_bytes words.now)) ≡ false → (needs : NeedsThreads D) → result ≢ Err needs }
    ensures threaded { IfErr result (λ needs. command_of (map string_bytes words.now) ≡ Some (command_of_threaded needs.command)) }
    ensures ranges { IfErr result (λ needs. HasItsRanges (command_of_threaded needs.command)) }
    ensures refused { IfErr result (λ needs. (needs.disk ≡ disk) × ((source.new ≡ source.old) × (sink.new ≡ sink.old))) }
{
    memory_runs_out_at_once::<D>();
    match read_command(alloc, words) {
        Ok(
            Command::Serve {
                write_buffers,
                read_buffers,
                length,
            },
        ) => {
            let most = longest_script(length);
            Ok(serve_within(
                alloc,
                write_buffers,
                read_buffers,
                most,
                incomplete_of(length),
                source,
                sink,
                disk,
            ))
        }
        Ok(Command::Race { write_buffers }) => Err(NeedsThreads {
            command: ThreadedCommand::Race { write_buffers },
            disk,
        }),
        Ok(
            Command::Format {
                shape,
                containers,
                dedicated,
            },
        ) => Ok(format(alloc, shape, containers, dedicated, sink, disk)),
        Ok(Command::Trial { number, count }) => Ok(Outcome {
            status: trial(alloc, number, count, sink),
            disk,
        }),
        Ok(Command::Crew { threads, count }) => Err(NeedsThreads {
            command: ThreadedCommand::Crew { threads, count },
            disk,
        }),
        Ok(Command::Check) => Ok(check(alloc, sink, disk)),
        Ok(Command::Dump(options)) => Ok(dump(alloc, &options, sink, disk)),
        Ok(Command::Txn) => Ok(txn(alloc, source, sink, disk)),
        Ok(Command::Archive) => Ok(archive(alloc, sink, disk)),
        Ok(Command::Restore { up_to }) => Ok(restore(alloc, up_to, source, sink, disk)),
        Ok(Command::Crowd { threads, count }) => Err(NeedsThreads {
            command: ThreadedCommand::Crowd { threads, count },
            disk,
        }),
        Err(WordsRefusal::Usage) => {
            let line =
                b"usage: clfs FOLDER format, serve, race, trial, crew, check, txn, archive, restore or crowd\n";
            Ok(Outcome {
                status: printed(sink, line, USAGE),
                disk,
            })
        }
        Err(WordsRefusal::NoMemory) => Ok(Outcome {
            status: NO_MEMORY,
            disk,
        }),
    }
}

/// Runs the command that the words name: those of `run_alone`, `race` with its write buffers, and `crew` and `crowd` with their threads and their count. The
/// words are those after the folder. Only a race, a crew and a crowd start threads, and wait for them.
pub fn run<R: Threads + Wait + Sync, S: Source, K: Sink, D: Disk + Send + Drop>(
    rt: &R,
    alloc: Global,
    words: &[String],
    source: &mut S,
    sink: &mut K,
    disk: D,
) -> Outcome<D>
    ensures ends { EndsRun (command_of (map string_bytes words.now)) result.status (record {
      disk = D.state disk;
      disk_after = D.state result.disk;
      left = S.left source.old;
      left_after = S.left source.new;
      written = K.written sink.old;
      written_after = K.written sink.new;
      source = S.faults source.old;
      source_after = S.faults source.new;
      sink = K.faults sink.old;
      sink_after = K.faults sink.new;
    }) }
    // Only a script and archives are read from the source, and only serving a log or a table, racing, making, judging, dumping, archiving and restoring a
    // log call the disk.
    ensures unread { reads_source (command_of (map string_bytes words.now)) ≡ false → source.new ≡ source.old }
    ensures untouched { calls_disk (command_of (map string_bytes words.now)) ≡ false → result.disk ≡ disk }
{
    let NeedsThreads { command, disk } = match run_alone(alloc, words, source, sink, disk) {
        Ok(outcome) => return outcome,
        Err(needs) => needs,
    };
    match command {
        ThreadedCommand::Race { write_buffers } => {
            race(rt, alloc, write_buffers, &Pass, source, sink, disk)
        }
        ThreadedCommand::Crew { threads, count } => Outcome {
            status: crew(rt, alloc, threads, count, sink),
            disk,
        },
        ThreadedCommand::Crowd { threads, count } => Outcome {
            status: crowd(rt, alloc, threads, count, sink),
            disk,
        },
    }
}
