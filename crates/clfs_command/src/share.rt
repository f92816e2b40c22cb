// The words of `share`.
//
// They stand apart from those of the other commands, whose words are of a number that is known.
ghost use Rattle.std.specs.Prelude.{◌≡◌, ◌≤◌, ◌*◌, ◌++◌, true, length, map, if◌then◌else◌, None, Some, IfSome, IfOk, IfErr};
ghost use Rattle.std.specs.List.{list_any};
ghost use Rattle.std.specs.Option.{option_map};
ghost use Rattle.std.specs.Str.{bytes_eq};
ghost use Rattle.std.specs.String.{string_bytes};
ghost use Rattle.clap.specs.Words.{rows_of, found_of};
ghost use Rattle.clfs_lsn.specs.Limits.{most_clients, most_write_buffers};
ghost use Rattle.clfs_command.specs.Share.{paths_of, asked_of, buffers_of, pairs_of, are_apart, can_be_shared, clients_of, share_in, share_by, share_of, names_share, IsInRange};

use crate::line::share_line;
use crate::words::{MOST_WRITE_BUFFERS, WordsRefusal, number_of, refusal_of};
use clap::ArgMatches;
use std::alloc::{AllocError, Global};

// The most paths: two of each client.
const MOST_PATHS: usize = 128;

/// A client's two paths.
#[derive(Drop)]
pub struct PathPair {
    /// Where its lines come from.
    pub input: String,
    /// Where its replies go.
    pub output: String,
}

/// What `share` is asked for with.
#[derive(Drop)]
pub struct ShareWords {
    /// The write buffers of the log, 1 to 64.
    pub write_buffers: u32,
    /// The paths of the clients, 1 to 64 of them; the first are those of client 1.
    pub clients: Vec<PathPair>,
}

/// Whether the first of the words after FOLDER is `share`.
pub fn asks_to_share(words: &[String]) -> bool
    ensures { result ≡ names_share (map string_bytes words.now) }
{
    match words.split_first() {
        Some((first, _)) => first.as_str() == "share",
        None => false,
    }
}

// Whether a path stands among others.
fn stands_in(path: &str, others: &[&str]) -> bool
    ensures { result ≡ list_any (λ other. bytes_eq other path.now) (map (λ p. p.now) others.now) }
{
    match others.split_first() {
        Some((first, more)) => *first == path || stands_in(path, more),
        None => false,
    }
}

// Whether no path stands twice.
fn are_apart(paths: &[&str]) -> bool
    ensures { result ≡ are_apart (map (λ p. p.now) paths.now) }
{
    match paths.split_first() {
        Some((first, others)) => !stands_in(first, others) && are_apart(others),
        None => true,
    }
}

// Whether there can be clients with these paths, if two of them are each one's.
fn can_be_shared(paths: &[&str]) -> bool
    ensures can { result ≡ can_be_shared (map (λ p. p.now) paths.now) }
    ensures range { result ≡ true → (1 ≤ length paths.now) × (length paths.now ≤ 2 * most_clients) }
{
    !paths.is_empty() && paths.len() <= MOST_PATHS && are_apart(paths)
}

// Adds paths to pairs, two by two, and answers whether none is left.
fn push_pairs(alloc: Global, paths: &[&str], pairs: &mut Vec<PathPair>) -> Result<bool, AllocError>
    ensures { IfOk result (λ whole. option_map (λ more. map paths_of pairs.old.items ++ more) (pairs_of (map (λ p. p.now) paths.now))
        ≡ (if whole then Some (map paths_of pairs.new.items) else None)) }
{
    let Some((input, more)) = paths.split_first() else {
        return Ok(true);
    };
    let Some((output, others)) = more.split_first() else {
        return Ok(false);
    };
    pairs.push(PathPair {
        input: String::from_str(alloc, input)?,
        output: String::from_str(alloc, output)?,
    })?;
    push_pairs(alloc, others, pairs)
}

// The clients that have these paths.
fn clients_of(alloc: Global, paths: &[&str]) -> Result<Vec<PathPair>, WordsRefusal>
    ensures clients { IfOk result (λ clients. clients_of (map (λ p. p.now) paths.now) ≡ Some (map paths_of clients.items)) }
    ensures usage { IfErr result (λ refusal. refusal ≡ WordsRefusal.Usage → clients_of (map (λ p. p.now) paths.now) ≡ None) }
    ensures range { IfOk result (λ clients. (1 ≤ length clients.items) × (length clients.items ≤ most_clients)) }
{
    if !can_be_shared(paths) {
        return Err(WordsRefusal::Usage);
    }
    let mut clients = Vec::new(alloc);
    if !push_pairs(alloc, paths, &mut clients)? {
        return Err(WordsRefusal::Usage);
    }
    Ok(clients)
}

/// The write buffers that are asked for, if a log can have so many.
pub(crate) fn buffers_of(write_buffers: Option<u32>) -> Option<u32>
    ensures buffers { result ≡ buffers_of write_buffers }
    ensures range { IfSome result (λ buffers. (1 ≤ buffers) × (buffers ≤ most_write_buffers)) }
{
    let write_buffers = write_buffers?;
    if !(1..=MOST_WRITE_BUFFERS).contains(&write_buffers) {
        return None;
    }
    Some(write_buffers)
}

// What was found in the words after `share`.
fn share_in(alloc: Global, matches: &ArgMatches) -> Result<ShareWords, WordsRefusal>
    ensures share { IfOk result (λ share. share_in (rows_of (found_of matches.now)) ≡ Some (asked_of share)) }
    ensures usage { IfErr result (λ refusal. refusal ≡ WordsRefusal.Usage → share_in (rows_of (found_of matches.now)) ≡ None) }
    ensures ranges { IfOk result IsInRange }
{
    let Some(write_buffers) = buffers_of(number_of("write-buffers", matches)) else {
        return Err(WordsRefusal::Usage);
    };
    let Some(paths) = matches.get_strs("PATHS") else {
        return Err(WordsRefusal::Usage);
    };
    match clients_of(alloc, paths) {
        Ok(clients) => Ok(ShareWords {
            write_buffers,
            clients,
        }),
        Err(refusal) => Err(refusal),
    }
}

// What the words after `share` ask for.
fn share_by(alloc: Global, words: &[String]) -> Result<ShareWords, WordsRefusal>
    ensures share { IfOk result (λ share. share_by (map string_bytes words.now) ≡ Some (asked_of share)) }
    ensures usage { IfErr result (λ refusal. refusal ≡ WordsRefusal.Usage → share_by (map string_bytes words.now) ≡ None) }
    ensures ranges { IfOk result IsInRange }
{
    let line = share_line(alloc)?;
    match line.try_get_matches_from(words) {
        Ok(matches) => share_in(alloc, &matches),
        Err(error) => Err(refusal_of(&error)),
    }
}

/// What the words after FOLDER ask `share` for.
pub fn read_share(alloc: Global, words: &[String]) -> Result<ShareWords, WordsRefusal>
    ensures share { IfOk result (λ share. share_of (map string_bytes words.now) ≡ Some (asked_of share)) }
    ensures usage { IfErr result (λ refusal. refusal ≡ WordsRefusal.Usage → share_of (map string_bytes words.now) ≡ None) }
    ensures ranges { IfOk result IsInRange }
{
    match words.split_first() {
        Some((first, others)) if first.as_str() == "share" => share_by(alloc, others),
        _ => Err(WordsRefusal::Usage),
    }
}
