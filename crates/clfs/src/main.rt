//! The program: `clfs FOLDER COMMAND ..` runs a command of the log over standard input and output.
//!
//! Everything that matters is `clfs_engine::run_alone`, which is proved over any source, sink and disk. Here the two standard streams become a source and a
//! sink, the folder a disk, and the words after it the command. A command that starts threads is run by `clfs_engine::run`, which may wait; `share`, whose
//! clients have paths of their own, by `clfs_engine::run_share`, and by a door by `clfs_engine::run_door`. A word that isn't text, or no folder, is no command.
//! `--help` and `--version` are words in the folder's place, answered here. Standard error has what standard output doesn't say: which words are allowed in the
//! place of those that are no command, or the help that they ask for, and why a run or a client ended without its work done. On a terminal it has how far a
//! large log was read, archived or made, but for `share`.
#![tactic(auto)]

mod clients;
mod door;

use crate::clients::{Clients, may_share};
use crate::door::{SystemDoors, asks_for_door};
use clfs_command::{answer_to, asks_to_share, help_text};
use clfs_engine::{
    DONE, NO_MEMORY, NOT_A_LOG, SINK_FAULT, SOURCE_FAULT, USAGE, run, run_alone, run_door,
    run_share,
};
use clfs_files::{
    FileUse, Folder, PortUse, Progress, SyncedOutput, SystemPort, Watched, WatchedPort,
    is_regular_output,
};
use clfs_lineage::Followed;
use clfs_ports::Source;
use std::alloc::{AllocError, Global};
use std::env;
use std::io::ErrorKind;
use std::process::ExitCode;
use std::rt::Env;
use std::sync::Wait;
use std::thread::Threads;

// The status of `share` if one of its paths can't be used.
const UNUSABLE_PATH: u8 = 17;

/// What `--version` prints.
const VERSION: &str = "clfs 0.1\n";

// All words of the command line; none if one of them isn't text.
fn all_words<R: Env + AllocGlobal>(rt: &R) -> Result<Vec<String>, AllocError> {
    match env::args(rt) {
        Ok(words) => words.collect(rt.alloc()),
        Err(error) if error.kind() == ErrorKind::OutOfMemory => Err(AllocError),
        Err(_) => Ok(Vec::new(rt.alloc())),
    }
}

// The words after the program's name and the folder.
fn command_words(words: &[String]) -> &[String] {
    words.split_at(words.len().min(2)).1
}

// The folder's path: the word after the program's name.
fn folder_path(alloc: Global, words: &[String]) -> Result<String, AllocError> {
    match words.get(1) {
        Some(word) => word.clone(),
        None => Ok(String::new(alloc)),
    }
}

// The text that a word in the folder's place asks for, if it is alone.
fn own_text(alloc: Global, words: &[String]) -> Result<Option<String>, AllocError> {
    let text = match words {
        [_, word] if word.as_str() == "--help" => help_text(alloc)?,
        [_, word] if word.as_str() == "--version" => String::from_str(alloc, VERSION)?,
        _ => return Ok(None),
    };
    Ok(Some(text))
}

// Why a run with this status did less than it was asked for, if standard output doesn't say it.
fn cause(status: u8) -> Option<&'static str> {
    match status {
        SOURCE_FAULT => Some("clfs: standard input can't be read"),
        SINK_FAULT => Some("clfs: standard output can't be written"),
        NO_MEMORY => Some("clfs: out of memory"),
        _ => None,
    }
}

// Whether the first of the words after FOLDER is this one.
fn names(words: &[String], command: &str) -> bool {
    match words.first() {
        Some(first) => first.as_str() == command,
        None => false,
    }
}

// What the command that the words name needs the log's files for.
fn use_of_files(words: &[String]) -> FileUse {
    if names(words, "check") || names(words, "dump") {
        FileUse::Reading
    } else {
        FileUse::Writing
    }
}

// What the reads of standard input say of the work on a terminal.
fn use_of_input(words: &[String]) -> PortUse {
    if names(words, "restore") {
        PortUse::Counts("read")
    } else {
        PortUse::Ends
    }
}

// What the writes to standard output say of it. Where others may have the terminal too, as behind a pipe, the first write is the last word.
fn use_of_output(rt: &HostRuntime, words: &[String]) -> PortUse {
    if !is_regular_output(rt) {
        return PortUse::Ends;
    }
    if names(words, "dump") {
        PortUse::GoesOn
    } else if names(words, "archive") {
        PortUse::Counts("archived")
    } else {
        PortUse::Ends
    }
}

// Whether the command makes all files of a log.
fn makes_log(words: &[String]) -> bool {
    names(words, "format") || names(words, "restore")
}

// Says that archives were read that aren't of one log in their order, as far as that was seen.
fn tell_stranger<S: Source + Drop>(rt: &HostRuntime, source: &Followed<S>) {
    if let Some(number) = source.stranger() {
        let before = number.saturating_sub(1);
        let _said = rt.eprintln(format_args!(
            "clfs: archive {number} isn't a later one of the same log as {before}"
        ));
    }
}

// Says that a folder isn't there in which a log was looked for.
fn tell_no_log(status: u8, folder: &Folder) {
    if status == NOT_A_LOG {
        folder.tell_absent();
    }
}

// The status of `share` over the folder. The clients' own threads are started by `threads`.
fn share_folder(
    rt: &HostRuntime,
    threads: &(impl Threads + Wait + Sync),
    path: String,
    words: &[String],
) -> u8 {
    match may_share(rt, &path, words) {
        Ok(true) => {}
        Ok(false) => return UNUSABLE_PATH,
        Err(_) => return NO_MEMORY,
    }
    let folder = Folder::new(*rt, path);
    let mut sink = SystemPort::new(rt.stdout(), *rt);
    let clients = Clients { rt: *rt };
    let ended = run_share(threads, rt.alloc(), words, &clients, &mut sink, folder);
    tell_no_log(ended.status, &ended.disk);
    ended.status
}

// The status of `share` by a door over the folder. The clients' own threads are started by `threads`.
fn open_to_programs(
    rt: &HostRuntime,
    threads: &(impl Threads + Wait + Sync),
    path: String,
    words: &[String],
) -> u8 {
    let folder = Folder::new(*rt, path);
    let mut sink = SystemPort::new(rt.stdout(), *rt);
    let doors = SystemDoors { rt: *rt };
    let ended = run_door(threads, rt.alloc(), words, &doors, &mut sink, folder);
    tell_no_log(ended.status, &ended.disk);
    ended.status
}

// The status of a command over standard input and output and the folder. Threads are started by `threads`, if the command needs any.
fn run_folder(
    rt: &HostRuntime,
    threads: &(impl Threads + Wait + Sync),
    path: String,
    words: &[String],
) -> u8 {
    let progress = Progress::new(*rt, &rt.stderr());
    let alloc = rt.alloc();
    let input = SystemPort::new(rt.stdin(), *rt);
    let input = WatchedPort::new(input, &progress, use_of_input(words));
    let mut source = Followed::new(alloc, input, names(words, "restore"));
    let output = SystemPort::new(rt.stdout(), *rt);
    let output = WatchedPort::new(output, &progress, use_of_output(rt, words));
    let mut sink = SyncedOutput::new(output, *rt, names(words, "archive"));
    let folder = Folder::used_for(*rt, path, use_of_files(words));
    let folder = Watched::new(folder, &progress, makes_log(words));
    let ended = match run_alone(alloc, words, &mut source, &mut sink, folder) {
        Ok(ended) => ended,
        Err(needs) => run(threads, alloc, words, &mut source, &mut sink, needs.disk),
    };
    progress.clear();
    tell_stranger(rt, &source);
    tell_no_log(ended.status, ended.disk.folder());
    ended.status
}

// The status of the command that the words after the program's name ask for.
fn run_command(rt: &HostRuntime, threads: &(impl Threads + Wait + Sync), words: &[String]) -> u8 {
    let Ok(path) = folder_path(rt.alloc(), words) else {
        return NO_MEMORY;
    };
    let command = command_words(words);
    let status = if asks_for_door(rt.alloc(), command) {
        open_to_programs(rt, threads, path, command)
    } else if asks_to_share(command) {
        share_folder(rt, threads, path, command)
    } else {
        run_folder(rt, threads, path, command)
    };
    if status == USAGE {
        tell_usage(rt, command);
    }
    status
}

// Says on standard error which words are allowed in the place of these, or the help that they ask for.
fn tell_usage(rt: &HostRuntime, command: &[String]) {
    if let Ok(text) = answer_to(rt.alloc(), command) {
        let _said = rt.eprintln(text.as_str());
    }
}

// The status of what the words ask for: one of the program's own texts, or a command.
fn run_words(rt: &HostRuntime, threads: &(impl Threads + Wait + Sync)) -> u8 {
    let Ok(words) = all_words(rt) else {
        return NO_MEMORY;
    };
    match own_text(rt.alloc(), &words) {
        Ok(None) => run_command(rt, threads, &words),
        Ok(Some(text)) => match rt.print(text.as_str()) {
            Ok(()) => DONE,
            Err(_) => SINK_FAULT,
        },
        Err(_) => NO_MEMORY,
    }
}

fn main(rt: HostRuntime) -> ExitCode {
    let status = run_words(&rt, &rt);
    if let Some(line) = cause(status) {
        // If this can't be said either, the status still tells it.
        let _said = rt.eprintln(line);
    }
    ExitCode::from(status)
}
