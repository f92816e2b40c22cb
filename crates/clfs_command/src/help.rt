// What `clfs --help` prints: the commands, and the options of each.
use crate::commands::{CommandForm, commands, door_form, share_form};
use crate::line::{command_line, line_of, with_line};
use clap::Command;
use std::alloc::{AllocError, Global};

// How the program is called.
const USAGE: &str = "\
clfs FOLDER <COMMAND>
       clfs --help
       clfs --version";

// What `format` does, and how it ends.
const FORMAT_NOTES: &str = "\
Makes a log if none is there. All of its files are made at full length, base and c1 to cN.
Status 0: formatted. 3: standard output can't be written. 4: disk fault. 5: out of memory. 8: a log is there.";

// What `serve` does, and how it ends.
const SERVE_NOTES: &str = "\
Opens the log, and answers each line as soon as it is whole. A script has at most 67108864 bytes, with --endless any number; a line has at most 131072.
Status 0: all lines are answered. 2: standard input can't be read. 3: standard output can't be written. 4: disk fault. 5: out of memory.
6: not a log. 7: input too long.";

// What `race` does, and how it ends.
const RACE_NOTES: &str = "\
Reads the script, which has at most 1048576 bytes and 10000 lines, opens the log, and prints the replies in the order in which the log took the lines.
Status 0 to 7: as of serve.";

// What `trial` does, and how it ends.
const TRIAL_NOTES: &str = "\
Looks at no folder, and reads nothing. The same number and count give the same line.
Status 0: the line is printed. 3: standard output can't be written. 5: out of memory.";

// What `crew` does, and `crowd`, and how it ends.
const THREADS_NOTES: &str = "\
Looks at no folder, and reads nothing. What isn't counted lacked memory.
Status 0: the line is printed. 3: standard output can't be written. 5: out of memory.";

// What `check` does, and how it ends.
const CHECK_NOTES: &str = "\
Writes nothing, unless the folder has the mark unsynced, and takes no more memory for a larger log. A log is told of only if serve would open it.
Status 0: a log is there. 3: standard output can't be written. 4: disk fault. 5: out of memory. 6: not a log.";

// What `txn` does, and how it ends.
const TXN_NOTES: &str = "\
Opens the log, loads the table of its stream txn, which it makes if there is none, and answers each line as soon as it is whole: begin N, set T C V,
back T K, commit T, rollback T, get C and checkpoint. There are 32 cells of 64 bits. A script and a line are limited as of serve.
Status 0 to 7: as of serve. 9: not a table. 10: the log refused.";

// What `archive` does, and how it ends.
const ARCHIVE_NOTES: &str = "\
An archive has the newest base copy and the containers from the archive tail's on, at most 67108864 bytes. Archiving has to be on. The tail moves only
after all of the archive is written: what is below it may be reused then, so keep the archive.
Status 0: the archive is written. 3: standard output can't be written. 4: disk fault. 5: out of memory. 6: not a log. 11: archiving is off.
15: archive too long.";

// What `restore` does, and how it ends.
const RESTORE_NOTES: &str = "\
Takes one archive or several, one after the other, of at most 67108864 bytes together. Nothing is read if a log is there, and no file changes before all
archives are judged.
Status 0: restored. 2: standard input can't be read. 3: standard output can't be written. 4: disk fault. 5: out of memory. 7: input too long.
8: a log is there. 12: not an archive. 13: archive gap. 14: up-to outside.";

// What `share` does, and how it ends.
const SHARE_NOTES: &str = "\
Opens the log, and serves each client in a thread of its own: its IN is opened, then its OUT, as a rule named pipes, and each of its lines is answered as
soon as it is whole. Client 1 has the first two paths, and each line begins with the client's number, as those of race. A client is done once its IN ends;
its areas are deleted then. If one client's IN or OUT fails, or a line has more than 131072 bytes, that client alone is done, and standard error says so.
Status 0: all clients are done. 3: standard output can't be written. 4: disk fault, or damage. 5: out of memory before a path was opened. 6: not a log.
17: a path can't be used, and nothing was opened. 18: no client was served.";

// What `share` by a door does, and how it ends.
const DOOR_NOTES: &str = "\
Opens the log, then PLACE/door, which has to be a named pipe, and prints ready. A program makes the pipes PLACE/NAME.in and PLACE/NAME.out, and writes NAME,
of at most 64 letters, digits, _, - and . but not first, and a line feed to the door. Once a client is free, its number is the first reply, as 3 client, and
each of its lines begins with that. Once NAME.in ends the program has left: its areas are deleted, and the client is free. The line stop lets no more in,
and it ends when all have left. What else comes to the door is said on standard error.
Status 0: all have left. 3: standard output can't be written. 4: disk fault, or damage. 5: out of memory before a program came. 6: not a log.
18: no program could come, and standard error says why.";

// What `dump` does, and how it ends.
const DUMP_NOTES: &str = "\
Writes nothing to the log, unless the folder has the mark unsynced. It is printed up to its end, or up to the first wrong byte, which is then named; all
of it is judged, whatever is printed.
Without an option all records are printed, dead ones too. If no stream has the name, none is.
Status 0: a log is there. 3: standard output can't be written. 4: disk fault. 5: out of memory. 6: not a log.";

// What is said of all commands.
const NOTES: &str = "\
Options may stand in any order, as --containers 4 or --containers=4; numbers are decimal, without a sign or a zero in front.
Status 1: the words are no command, and standard error says which are.";

// The notes on a command.
fn notes_of(command: &str) -> &'static str {
    match command {
        "format" => FORMAT_NOTES,
        "serve" => SERVE_NOTES,
        "race" => RACE_NOTES,
        "trial" => TRIAL_NOTES,
        "crew" | "crowd" => THREADS_NOTES,
        "check" => CHECK_NOTES,
        "dump" => DUMP_NOTES,
        "txn" => TXN_NOTES,
        "archive" => ARCHIVE_NOTES,
        "restore" => RESTORE_NOTES,
        "share" => SHARE_NOTES,
        _ => "",
    }
}

// Adds a part of the help and notes on it, after an empty line.
fn push_part(part: &str, notes: &str, text: &mut String) -> Result<(), AllocError> {
    text.push_str(part)?;
    text.push('\n')?;
    text.push_str(notes)?;
    text.push('\n')
}

// The help of a line.
fn help_of(mut line: Command) -> Result<String, AllocError> {
    line.render_help()
}

// The help of a command that is called so.
fn help_as(alloc: Global, form: &CommandForm, call: &str) -> Result<String, AllocError> {
    help_of(line_of(alloc, form)?.bin_name(call)?)
}

// The help of a command.
fn command_help(alloc: Global, form: &CommandForm) -> Result<String, AllocError> {
    let call = format!(in alloc; "clfs FOLDER {}", form.name)?;
    help_as(alloc, form, call.as_str())
}

// Adds the help of a command, after an empty line.
fn push_command(
    alloc: Global,
    form: &CommandForm,
    notes: &str,
    text: &mut String,
) -> Result<(), AllocError> {
    let part = command_help(alloc, form)?;
    text.push('\n')?;
    push_part(part.as_str(), notes, text)
}

// Adds the help of commands, in their order.
fn push_commands(
    alloc: Global,
    forms: &[CommandForm],
    text: &mut String,
) -> Result<(), AllocError> {
    for form in forms {
        push_command(alloc, form, notes_of(form.name), text)?;
    }
    Ok(())
}

// What the program is, how it is called, and which commands there are.
fn program_help(alloc: Global) -> Result<String, AllocError> {
    let line = with_line(alloc, command_line(alloc)?, share_form())?;
    help_of(line.override_usage(USAGE))
}

// Adds all of the help.
fn push_all(alloc: Global, text: &mut String) -> Result<(), AllocError> {
    let part = program_help(alloc)?;
    push_part(part.as_str(), NOTES, text)?;
    push_commands(alloc, commands(), text)?;
    push_command(alloc, share_form(), notes_of("share"), text)?;
    push_command(alloc, door_form(), DOOR_NOTES, text)
}

/// The help of the program: what it is, how it is called, which commands there are, and of each the options, what it does, and its
/// statuses. The text is clap's for the command line that `read_command` reads, with notes.
pub fn help_text(alloc: Global) -> Result<String, AllocError> {
    let mut text = String::new(alloc);
    push_all(alloc, &mut text)?;
    Ok(text)
}
