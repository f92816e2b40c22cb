// What the program says of its commands.
use crate::command::owned;
use clfs_command::{form_of, help_text};
use std::alloc::{AllocError, Global};

const HELP: &str = "\
A log manager: several clients share one log, and each sees its own stream of records

Usage: clfs FOLDER <COMMAND>
       clfs --help
       clfs --version

Commands:
  format   Makes a log in FOLDER
  serve    Answers the lines of a script on standard input, one reply a line
  race     Answers the lines of a script, those of each client in a thread of its own
  trial    Answers lines that are made of a number, over a log in memory, and prints their sums
  crew     Appends in threads by permits of one shared area, over a log in memory
  check    Judges the log in FOLDER and tells what is in it, or where it is broken
  crowd    Appends in threads that share their flushes, over a log in memory
  dump     Prints the log in FOLDER as text, or up to where it is broken
  txn      Answers the lines of a script by a table of cells with transactions, which the log in FOLDER keeps
  archive  Writes an archive of the log in FOLDER to standard output, and moves its archive tail
  restore  Makes a log in FOLDER of the archives on standard input
  share    Answers the lines of several programs at the same time, over one log

Options may stand in any order, as --containers 4 or --containers=4; numbers are decimal, without a sign or a zero in front.
Status 1: the words are no command, and standard error says which are.

Makes a log in FOLDER

Usage: clfs FOLDER format [OPTIONS] --block-sectors <B> --container-sectors <S> --containers <N>

Options:
      --block-sectors <B>      Sectors of the largest block, 1 to 128; a sector has 512 bytes
      --container-sectors <S>  Sectors of a container, twice B to 16384
      --containers <N>         Containers of the log, 1 to 256
      --dedicated              Makes a log that has one stream

Makes a log if none is there. All of its files are made at full length, base and c1 to cN.
Status 0: formatted. 3: standard output can't be written. 4: disk fault. 5: out of memory. 8: a log is there.

Answers the lines of a script on standard input, one reply a line

Usage: clfs FOLDER serve [OPTIONS]

Options:
      --write-buffers <W>  Full blocks that may wait before all are written, 1 to 64 [default: 4]
      --read-buffers <N>   Blocks that were read that are kept, 1 to 4096 [default: 32]
      --endless            Takes a script of any length in place of 64 MiB

Opens the log, and answers each line as soon as it is whole. A script has at most 67108864 bytes, with --endless any number; a line has at most 131072.
Status 0: all lines are answered. 2: standard input can't be read. 3: standard output can't be written. 4: disk fault. 5: out of memory.
6: not a log. 7: input too long.

Answers the lines of a script, those of each client in a thread of its own

Usage: clfs FOLDER race [OPTIONS]

Options:
      --write-buffers <W>  Full blocks that may wait before all are written, 1 to 64 [default: 4]

Reads the script, which has at most 1048576 bytes and 10000 lines, opens the log, and prints the replies in the order in which the log took the lines.
Status 0 to 7: as of serve.

Answers lines that are made of a number, over a log in memory, and prints their sums

Usage: clfs FOLDER trial <NUMBER> <COUNT>

Arguments:
  <NUMBER>  The number, 0 to 4294967295
  <COUNT>   How many lines are made, 1 to 100000

Looks at no folder, and reads nothing. The same number and count give the same line.
Status 0: the line is printed. 3: standard output can't be written. 5: out of memory.

Appends in threads by permits of one shared area, over a log in memory

Usage: clfs FOLDER crew <THREADS> <COUNT>

Arguments:
  <THREADS>  How many threads there are, 1 to 8
  <COUNT>    How many records each of them appends, 1 to 1000

Looks at no folder, and reads nothing. What isn't counted lacked memory.
Status 0: the line is printed. 3: standard output can't be written. 5: out of memory.

Judges the log in FOLDER and tells what is in it, or where it is broken

Usage: clfs FOLDER check

Writes nothing, unless the folder has the mark unsynced, and takes no more memory for a larger log. A log is told of only if serve would open it.
Status 0: a log is there. 3: standard output can't be written. 4: disk fault. 5: out of memory. 6: not a log.

Appends in threads that share their flushes, over a log in memory

Usage: clfs FOLDER crowd <THREADS> <COUNT>

Arguments:
  <THREADS>  How many threads there are, 1 to 8
  <COUNT>    How many records each of them appends, 1 to 1000

Looks at no folder, and reads nothing. What isn't counted lacked memory.
Status 0: the line is printed. 3: standard output can't be written. 5: out of memory.

Prints the log in FOLDER as text, or up to where it is broken

Usage: clfs FOLDER dump [OPTIONS]

Options:
      --from <LSN>     Prints no record below this LSN, as 1:200:0
      --to <LSN>       Prints no record at this LSN or above
      --stream <NAME>  Prints the records of the stream of this name alone, 1 to 64 bytes
      --data <FORM>    How data are printed: hex, text or none [default: hex]

Writes nothing to the log, unless the folder has the mark unsynced. It is printed up to its end, or up to the first wrong byte, which is then named; all
of it is judged, whatever is printed.
Without an option all records are printed, dead ones too. If no stream has the name, none is.
Status 0: a log is there. 3: standard output can't be written. 4: disk fault. 5: out of memory. 6: not a log.

Answers the lines of a script by a table of cells with transactions, which the log in FOLDER keeps

Usage: clfs FOLDER txn

Opens the log, loads the table of its stream txn, which it makes if there is none, and answers each line as soon as it is whole: begin N, set T C V,
back T K, commit T, rollback T, get C and checkpoint. There are 32 cells of 64 bits. A script and a line are limited as of serve.
Status 0 to 7: as of serve. 9: not a table. 10: the log refused.

Writes an archive of the log in FOLDER to standard output, and moves its archive tail

Usage: clfs FOLDER archive

An archive has the newest base copy and the containers from the archive tail's on, at most 67108864 bytes. Archiving has to be on. The tail moves only
after all of the archive is written: what is below it may be reused then, so keep the archive.
Status 0: the archive is written. 3: standard output can't be written. 4: disk fault. 5: out of memory. 6: not a log. 11: archiving is off.
15: archive too long.

Makes a log in FOLDER of the archives on standard input

Usage: clfs FOLDER restore [OPTIONS]

Options:
      --up-to <LSN>  Restores no record at this LSN or above, as 1:200:0

Takes one archive or several, one after the other, of at most 67108864 bytes together. Nothing is read if a log is there, and no file changes before all
archives are judged.
Status 0: restored. 2: standard input can't be read. 3: standard output can't be written. 4: disk fault. 5: out of memory. 7: input too long.
8: a log is there. 12: not an archive. 13: archive gap. 14: up-to outside.

Answers the lines of several programs at the same time, over one log

Usage: clfs FOLDER share [OPTIONS] <PATHS>...

Arguments:
  <PATHS>...  IN and OUT of each client: where its lines come from, and where its replies go

Options:
      --write-buffers <W>  Full blocks that may wait before all are written, 1 to 64 [default: 4]

Opens the log, and serves each client in a thread of its own: its IN is opened, then its OUT, as a rule named pipes, and each of its lines is answered as
soon as it is whole. Client 1 has the first two paths, and each line begins with the client's number, as those of race. A client is done once its IN ends;
its areas are deleted then. If one client's IN or OUT fails, or a line has more than 131072 bytes, that client alone is done, and standard error says so.
Status 0: all clients are done. 3: standard output can't be written. 4: disk fault, or damage. 5: out of memory before a path was opened. 6: not a log.
17: a path can't be used, and nothing was opened. 18: no client was served.

Answers the lines of programs that come and go, over one log

Usage: clfs FOLDER share [OPTIONS] --door <PLACE> --clients <N>

Options:
      --door <PLACE>       Folder in which the named pipe door is, to which programs write the names of theirs
      --clients <N>        Programs that may be there at a time, 1 to 64
      --write-buffers <W>  Full blocks that may wait before all are written, 1 to 64 [default: 4]

Opens the log, then PLACE/door, which has to be a named pipe, and prints ready. A program makes the pipes PLACE/NAME.in and PLACE/NAME.out, and writes NAME,
of at most 64 letters, digits, _, - and . but not first, and a line feed to the door. Once a client is free, its number is the first reply, as 3 client, and
each of its lines begins with that. Once NAME.in ends the program has left: its areas are deleted, and the client is free. The line stop lets no more in,
and it ends when all have left. What else comes to the door is said on standard error.
Status 0: all have left. 3: standard output can't be written. 4: disk fault, or damage. 5: out of memory before a program came. 6: not a log.
18: no program could come, and standard error says why.
";

#[test]
fn what_the_help_says(rt: HostRuntime) -> Result<(), AllocError> {
    let text = help_text(rt.alloc())?;
    assert!(rt; text.as_str() == HELP);
    Ok(())
}

// Words, and what is said of them: they are no command.
const FORMS: [(&str, &str); 5] = [
    (
        "",
        "clfs: FOLDER and a command are needed; clfs --help has them",
    ),
    (
        "forma",
        "clfs: forma is no command: after FOLDER comes format, serve, race, trial, crew, check, crowd, dump, txn, archive, restore or share",
    ),
    (
        "trial 1 0",
        "clfs: trial takes NUMBER, 0 to 4294967295, and COUNT, 1 to 100000; each is given once, and numbers are decimal, without a sign or a zero in front",
    ),
    (
        "share a",
        "clfs: share takes IN and OUT of each client, 1 to 64 clients and no path twice, or --door PLACE and --clients N, 1 to 64; and --write-buffers W, 1 to 64, or not; each is given once, and numbers are decimal, without a sign or a zero in front",
    ),
    (
        "dump --from 1",
        "clfs: dump takes --from LSN, as 1:200:0, or not; --to LSN or not; --stream NAME, 1 to 64 bytes, or not; and --data hex, text or none, or not; each is given once, and numbers are decimal, without a sign or a zero in front",
    ),
];

fn is_told(alloc: Global, line: &str, want: &str) -> Result<bool, AllocError> {
    let words = owned(alloc, line)?;
    let form = form_of(alloc, &words)?;
    Ok(form.as_str() == want)
}

#[test]
fn which_words_are_allowed(rt: HostRuntime) -> Result<(), AllocError> {
    for (line, want) in FORMS {
        assert!(rt; is_told(rt.alloc(), line, want)?);
    }
    Ok(())
}
