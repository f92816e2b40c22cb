// The words of `share` by a door.
ghost use Rattle.std.specs.Prelude.{◌≡◌, ◌≤◌, map, None, Some, IfSome, IfOk, IfErr};
ghost use Rattle.std.specs.String.{string_bytes};
ghost use Rattle.clap.specs.Walk.{first_of};
ghost use Rattle.clap.specs.Words.{rows_of, found_of};
ghost use Rattle.clfs_lsn.specs.Limits.{most_clients};
ghost use Rattle.clfs_command.specs.Door.{asked_door_of, count_of, door_in, door_by, door_of, IsDoorInRange};

use crate::line::door_line;
use crate::share::buffers_of;
use crate::words::{WordsRefusal, number_of, refusal_of};
use clap::ArgMatches;
use std::alloc::Global;

// The most clients.
const MOST_CLIENTS: u32 = 64;

/// What `share` by a door is asked for with.
#[derive(Drop)]
pub struct DoorWords {
    /// The write buffers of the log, 1 to 64.
    pub write_buffers: u32,
    /// The folder in which the door is.
    pub place: String,
    /// How many programs may be there at a time, 1 to 64.
    pub clients: u32,
}

// The clients that are asked for, if a log can have so many.
fn count_of(clients: Option<u32>) -> Option<u32>
    ensures count { result ≡ count_of clients }
    ensures range { IfSome result (λ clients. (1 ≤ clients) × (clients ≤ most_clients)) }
{
    let clients = clients?;
    if !(1..=MOST_CLIENTS).contains(&clients) {
        return None;
    }
    Some(clients)
}

// What was found in the words after `share`.
fn door_in(alloc: Global, matches: &ArgMatches) -> Result<DoorWords, WordsRefusal>
    ensures door { IfOk result (λ door. door_in (rows_of (found_of matches.now)) ≡ Some (asked_door_of door)) }
    ensures usage { IfErr result (λ refusal. refusal ≡ WordsRefusal.Usage → door_in (rows_of (found_of matches.now)) ≡ None) }
    ensures ranges { IfOk result IsDoorInRange }
{
    let Some(write_buffers) = buffers_of(number_of("write-buffers", matches)) else {
        return Err(WordsRefusal::Usage);
    };
    let Some(place) = matches.get_str("door") else {
        return Err(WordsRefusal::Usage);
    };
    let Some(clients) = count_of(number_of("clients", matches)) else {
        return Err(WordsRefusal::Usage);
    };
    Ok(DoorWords {
        write_buffers,
        place: String::from_str(alloc, place)?,
        clients,
    })
}

// What the words after `share` ask for.
fn door_by(alloc: Global, words: &[String]) -> Result<DoorWords, WordsRefusal>
    ensures door { IfOk result (λ door. door_by (map string_bytes words.now) ≡ Some (asked_door_of door)) }
    ensures usage { IfErr result (λ refusal. refusal ≡ WordsRefusal.Usage → door_by (map string_bytes words.now) ≡ None) }
    ensures ranges { IfOk result IsDoorInRange }
{
    let line = door_line(alloc)?;
    match line.try_get_matches_from(words) {
        Ok(matches) => door_in(alloc, &matches),
        Err(error) => Err(refusal_of(&error)),
    }
}

/// What the words after FOLDER ask `share` by a door for.
pub fn read_door(alloc: Global, words: &[String]) -> Result<DoorWords, WordsRefusal>
    ensures door { IfOk result (λ door. door_of (map string_bytes words.now) ≡ Some (asked_door_of door)) }
    ensures usage { IfErr result (λ refusal. refusal ≡ WordsRefusal.Usage → door_of (map string_bytes words.now) ≡ None) }
    ensures ranges { IfOk result IsDoorInRange }
{
    match words.split_first() {
        Some((first, others)) if first.as_str() == "share" => door_by(alloc, others),
        _ => Err(WordsRefusal::Usage),
    }
}
