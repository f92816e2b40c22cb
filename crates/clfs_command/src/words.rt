// Which command the words after FOLDER name.
ghost use Rattle.std.specs.Prelude.{◌≡◌, ◌≢◌, take, map, Some, None, IfSome, IfOk, IfErr};
ghost use Rattle.std.specs.Option.{option_and_then};
ghost use Rattle.std.specs.String.{string_bytes};
ghost use Rattle.clap.specs.Values.{kind_of};
ghost use Rattle.clap.specs.Words.{rows_of, found_of, subcommand_rows_of};
ghost use Rattle.clap.specs.declared.error.kind.ErrorKind.TheVariants.{OutOfMemory};
ghost use Rattle.clfs_command.specs.Command.{number_of, is_set, is_size, format_of, length_of, are_buffers, serve_of, race_of, trial_of, crew_of, crowd_of, name_of_word, lsn_of, name_of, data_of_word, data_of, dump_of, restore_of, with_options, command_of, HasItsRanges};

use crate::line::command_line;
use clap::error::ErrorKind;
use clap::{ArgMatches, Error};
use clfs_lsn::{LONGEST_NAME, Lsn, MOST_CONTAINERS, Shape};
use clfs_text::{decimal_number, lsn_of_word};
use std::alloc::{AllocError, Global};
use thiserror::Error;

/// How long a script may get.
#[derive(Clone, Copy, PartialEq, Eq)]
pub enum ScriptLength {
    /// 67,108,864 bytes.
    Limited,
    /// 18,446,744,073,709,551,615 bytes, which no script reaches.
    Endless,
}

/// How the data of records are asked for.
#[derive(Clone, Copy, PartialEq, Eq)]
pub enum DataWord {
    /// In hexadecimal digits.
    Hex,
    /// Between quotation marks.
    Text,
    /// Not at all.
    Nothing,
}

/// The name of a stream that is asked for, of 1 to 64 bytes.
#[derive(Clone, Copy, PartialEq, Eq)]
pub struct AskedName {
    /// Its bytes, and zeros after them.
    pub bytes: [u8; 64],
    /// How many they are.
    pub length: u32,
}

impl AskedName {
    /// The name that a word is, if a stream can have so long a name.
    pub fn of_word(word: &[u8]) -> Option<AskedName>
        ensures { result ≡ name_of_word word.now }
    {
        if word.is_empty() || word.len() > LONGEST_NAME as usize {
            return None;
        }
        let mut bytes = [0; 64];
        bytes[..word.len()].copy_from_slice(word);
        Some(AskedName {
            bytes,
            length: word.len() as u32,
        })
    }

    /// Its bytes.
    pub fn as_slice(&self) -> &[u8]
        ensures { result.now ≡ take self.now.length self.now.bytes }
    {
        let count = (self.length as usize).min(64);
        self.bytes.split_at(count).0
    }
}

/// Which records of a log are printed, and how. What isn't there asks for nothing.
#[derive(Clone, Copy, PartialEq, Eq)]
pub struct DumpOptions {
    /// No record below this LSN.
    pub from: Option<Lsn>,
    /// No record at this LSN or above.
    pub to: Option<Lsn>,
    /// No record of a stream with another name.
    pub stream: Option<AskedName>,
    /// How the data of records are printed.
    pub form: DataWord,
}

/// What a user can ask the program for.
#[derive(Clone, Copy, PartialEq, Eq)]
pub enum Command {
    /// To make a log.
    Format {
        /// The sizes of its blocks and containers.
        shape: Shape,
        /// How many containers it has, 1 to 256.
        containers: u32,
        /// Whether it has one stream alone.
        dedicated: bool,
    },
    /// To answer a script.
    Serve {
        /// The write buffers of the log, 1 to 64.
        write_buffers: u32,
        /// How many blocks that were read are kept, 1 to 4,096.
        read_buffers: u32,
        /// How long the script may get.
        length: ScriptLength,
    },
    /// To answer a script, each client's lines in a thread of its own.
    Race {
        /// The write buffers of the log, 1 to 64.
        write_buffers: u32,
    },
    /// To answer generated lines over a log in memory.
    Trial {
        /// The number that the lines are made of.
        number: u32,
        /// How many lines come after those that open the streams, 1 to 100,000.
        count: u32,
    },
    /// To append in threads by permits of one shared area, over a log in memory.
    Crew {
        /// How many threads there are, 1 to 8.
        threads: u32,
        /// How many records each of them appends, 1 to 1,000.
        count: u32,
    },
    /// To judge a log.
    Check,
    /// To append in threads that share their flushes, over a log in memory.
    Crowd {
        /// How many threads there are, 1 to 8.
        threads: u32,
        /// How many records each of them appends, 1 to 1,000.
        count: u32,
    },
    /// To print a log as text.
    Dump(DumpOptions),
    /// To serve a table of cells.
    Txn,
    /// To write an archive of a log.
    Archive,
    /// To restore a log of archives.
    Restore {
        /// The LSN up to which it is restored; if there is none, it is restored as far as the archives reach.
        up_to: Option<Lsn>,
    },
}

/// Why no command was read.
#[derive(Clone, Copy, Debug, PartialEq, Eq, Error)]
pub enum WordsRefusal {
    /// The words are no command.
    #[error("the words are no command")]
    Usage,
    /// No memory was left to read them.
    #[error("out of memory")]
    NoMemory,
}

impl From<AllocError> for WordsRefusal {
    ghost use Rattle.clfs_command.specs.declared.words.WordsRefusal.TheVariants.{NoMemory};

    ghost from_gives = { λ _ e. e ≡ NoMemory };

    fn from(_e: AllocError) -> WordsRefusal {
        WordsRefusal::NoMemory
    }
}

// The most sectors of a block.
const MOST_BLOCK_SECTORS: u32 = 128;

// The most sectors of a container.
const MOST_CONTAINER_SECTORS: u32 = 16384;

/// The most write buffers of a log.
pub(crate) const MOST_WRITE_BUFFERS: u32 = 64;

// The most blocks that were read that are kept.
const MOST_READ_BUFFERS: u32 = 4096;

// The most lines of a trial.
const MOST_TRIAL_LINES: u32 = 100000;

// The most threads of a crew, and of a crowd.
const MOST_CREW_THREADS: u32 = 8;

// The most records that a thread of a crew appends, or of a crowd.
const MOST_CREW_RECORDS: u32 = 1000;

fn is_size(block: u32, container: u32, containers: u32) -> bool
    ensures { result ≡ is_size block container containers }
{
    (1..=MOST_BLOCK_SECTORS).contains(&block)
        && 2 * block <= container
        && container <= MOST_CONTAINER_SECTORS
        && (1..=MOST_CONTAINERS as u32).contains(&containers)
}

// Whether an option without a value is there.
fn is_set(name: &str, options: &ArgMatches) -> bool
    ensures { result ≡ is_set name.now (rows_of (found_of options.now)) }
{
    match options.get_str(name) {
        Some(text) => text == "true",
        None => false,
    }
}

/// The number that an option or a word has.
pub(crate) fn number_of(name: &str, options: &ArgMatches) -> Option<u32>
    ensures { result ≡ number_of name.now (rows_of (found_of options.now)) }
{
    decimal_number(u32::MAX, options.get_str(name)?.as_bytes())
}

fn format_of(
    block: Option<u32>,
    container: Option<u32>,
    containers: Option<u32>,
    dedicated: bool,
) -> Option<Command>
    ensures command { result ≡ format_of block container containers dedicated }
    ensures ranges { IfSome result HasItsRanges }
{
    let block_sectors = block?;
    let container_sectors = container?;
    let containers = containers?;
    if !is_size(block_sectors, container_sectors, containers) {
        return None;
    }
    Some(Command::Format {
        shape: Shape {
            block_sectors,
            container_sectors,
        },
        containers,
        dedicated,
    })
}

fn length_of(endless: bool) -> ScriptLength
    ensures { result ≡ length_of endless }
{
    if endless {
        ScriptLength::Endless
    } else {
        ScriptLength::Limited
    }
}

// Whether a log can have so many write buffers, and keep so many blocks that were read.
fn are_buffers(write_buffers: u32, read_buffers: u32) -> bool
    ensures { result ≡ are_buffers write_buffers read_buffers }
{
    (1..=MOST_WRITE_BUFFERS).contains(&write_buffers)
        && (1..=MOST_READ_BUFFERS).contains(&read_buffers)
}

fn serve_of(
    write_buffers: Option<u32>,
    read_buffers: Option<u32>,
    length: ScriptLength,
) -> Option<Command>
    ensures command { result ≡ serve_of write_buffers read_buffers length }
    ensures ranges { IfSome result HasItsRanges }
{
    let write_buffers = write_buffers?;
    let read_buffers = read_buffers?;
    if !are_buffers(write_buffers, read_buffers) {
        return None;
    }
    Some(Command::Serve {
        write_buffers,
        read_buffers,
        length,
    })
}

fn race_of(write_buffers: Option<u32>) -> Option<Command>
    ensures command { result ≡ race_of write_buffers }
    ensures ranges { IfSome result HasItsRanges }
{
    let write_buffers = write_buffers?;
    if !(1..=MOST_WRITE_BUFFERS).contains(&write_buffers) {
        return None;
    }
    Some(Command::Race { write_buffers })
}

fn trial_of(number: Option<u32>, count: Option<u32>) -> Option<Command>
    ensures command { result ≡ trial_of number count }
    ensures ranges { IfSome result HasItsRanges }
{
    let number = number?;
    let count = count?;
    if !(1..=MOST_TRIAL_LINES).contains(&count) {
        return None;
    }
    Some(Command::Trial { number, count })
}

fn crew_of(threads: Option<u32>, count: Option<u32>) -> Option<Command>
    ensures command { result ≡ crew_of threads count }
    ensures ranges { IfSome result HasItsRanges }
{
    let threads = threads?;
    let count = count?;
    if !(1..=MOST_CREW_THREADS).contains(&threads) || !(1..=MOST_CREW_RECORDS).contains(&count) {
        return None;
    }
    Some(Command::Crew { threads, count })
}

fn crowd_of(threads: Option<u32>, count: Option<u32>) -> Option<Command>
    ensures command { result ≡ crowd_of threads count }
    ensures ranges { IfSome result HasItsRanges }
{
    let threads = threads?;
    let count = count?;
    if !(1..=MOST_CREW_THREADS).contains(&threads) || !(1..=MOST_CREW_RECORDS).contains(&count) {
        return None;
    }
    Some(Command::Crowd { threads, count })
}

// The LSN that an option has, if it is there; None where its value is no LSN.
fn lsn_of(name: &str, options: &ArgMatches) -> Option<Option<Lsn>>
    ensures { result ≡ lsn_of name.now (rows_of (found_of options.now)) }
{
    match options.get_str(name) {
        Some(text) => Some(Some(lsn_of_word(text.as_bytes())?)),
        None => Some(None),
    }
}

// The name that an option has, if it is there; None where no stream can have such a name.
fn name_of(name: &str, options: &ArgMatches) -> Option<Option<AskedName>>
    ensures { result ≡ name_of name.now (rows_of (found_of options.now)) }
{
    match options.get_str(name) {
        Some(text) => Some(Some(AskedName::of_word(text.as_bytes())?)),
        None => Some(None),
    }
}

// The form of data that a word names.
fn data_of_word(word: &[u8]) -> Option<DataWord>
    ensures { result ≡ data_of_word word.now }
{
    match word {
        b"hex" => Some(DataWord::Hex),
        b"text" => Some(DataWord::Text),
        b"none" => Some(DataWord::Nothing),
        _ => None,
    }
}

// The form of data that an option has.
fn data_of(name: &str, options: &ArgMatches) -> Option<DataWord>
    ensures { result ≡ data_of name.now (rows_of (found_of options.now)) }
{
    data_of_word(options.get_str(name)?.as_bytes())
}

fn dump_of(
    from: Option<Option<Lsn>>,
    to: Option<Option<Lsn>>,
    stream: Option<Option<AskedName>>,
    form: Option<DataWord>,
) -> Option<Command>
    ensures command { result ≡ dump_of from to stream form }
    ensures ranges { IfSome result HasItsRanges }
{
    Some(Command::Dump(DumpOptions {
        from: from?,
        to: to?,
        stream: stream?,
        form: form?,
    }))
}

fn restore_of(up_to: Option<Option<Lsn>>) -> Option<Command>
    ensures command { result ≡ restore_of up_to }
    ensures ranges { IfSome result HasItsRanges }
{
    Some(Command::Restore { up_to: up_to? })
}

// The command that a subcommand and its options stand for.
fn with_options(name: &str, options: &ArgMatches) -> Option<Command>
    ensures command { result ≡ with_options (name.now, rows_of (found_of options.now)) }
    ensures ranges { IfSome result HasItsRanges }
{
    match name {
        "format" => format_of(
            number_of("block-sectors", options),
            number_of("container-sectors", options),
            number_of("containers", options),
            is_set("dedicated", options),
        ),
        "serve" => serve_of(
            number_of("write-buffers", options),
            number_of("read-buffers", options),
            length_of(is_set("endless", options)),
        ),
        "race" => race_of(number_of("write-buffers", options)),
        "trial" => trial_of(number_of("NUMBER", options), number_of("COUNT", options)),
        "crew" => crew_of(number_of("THREADS", options), number_of("COUNT", options)),
        "check" => Some(Command::Check),
        "crowd" => crowd_of(number_of("THREADS", options), number_of("COUNT", options)),
        "dump" => dump_of(
            lsn_of("from", options),
            lsn_of("to", options),
            name_of("stream", options),
            data_of("data", options),
        ),
        "txn" => Some(Command::Txn),
        "archive" => Some(Command::Archive),
        "restore" => restore_of(lsn_of("up-to", options)),
        _ => None,
    }
}

/// Why words name nothing, if clap says this of them.
pub(crate) fn refusal_of(error: &Error) -> WordsRefusal
    ensures { result ≡ WordsRefusal.Usage → kind_of error.now ≢ OutOfMemory }
{
    match error.kind() {
        ErrorKind::OutOfMemory => WordsRefusal::NoMemory,
        _ => WordsRefusal::Usage,
    }
}

// The command that was found.
fn found_command(matches: &ArgMatches) -> Option<Command>
    ensures command { result ≡ option_and_then with_options (subcommand_rows_of matches.now) }
    ensures ranges { IfSome result HasItsRanges }
{
    let (name, options) = matches.subcommand()?;
    with_options(name, options)
}

// The same, or that the words are no command.
fn command_in(matches: &ArgMatches) -> Result<Command, WordsRefusal>
    ensures command { IfOk result (λ command. option_and_then with_options (subcommand_rows_of matches.now) ≡ Some command) }
    ensures usage { IfErr result (λ refusal. option_and_then with_options (subcommand_rows_of matches.now) ≡ None) }
    ensures ranges { IfOk result HasItsRanges }
{
    match found_command(matches) {
        Some(command) => Ok(command),
        None => Err(WordsRefusal::Usage),
    }
}

/// The command that the words name, COMMAND first.
pub fn read_command(alloc: Global, words: &[String]) -> Result<Command, WordsRefusal>
    ensures command { IfOk result (λ command. command_of (map string_bytes words.now) ≡ Some command) }
    ensures usage { IfErr result (λ refusal. refusal ≡ WordsRefusal.Usage → command_of (map string_bytes words.now) ≡ None) }
    ensures ranges { IfOk result HasItsRanges }
{
    let line = command_line(alloc)?;
    match line.try_get_matches_from(words) {
        Ok(matches) => command_in(&matches),
        Err(error) => Err(refusal_of(&error)),
    }
}
