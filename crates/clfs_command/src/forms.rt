// How each command is asked for, as it is said of words that name none. The line is chosen by the command alone: which of the words after it is wrong
// is for the reader to see, by the form and the ranges.
use std::alloc::{AllocError, Global};

// What a command is asked for by. The ranges are those of `specs/Command.antt`.
fn known_form(command: &str) -> Option<&'static str> {
    match command {
        "format" => Some(
            "--block-sectors B, 1 to 128; --container-sectors S, twice B to 16384; --containers N, 1 to 256; and --dedicated or not",
        ),
        "serve" => Some(
            "--write-buffers W, 1 to 64, or not; --read-buffers N, 1 to 4096, or not; and --endless or not",
        ),
        "race" => Some("--write-buffers W, 1 to 64, or not"),
        "trial" => Some("NUMBER, 0 to 4294967295, and COUNT, 1 to 100000"),
        "crew" => Some("THREADS, 1 to 8, and COUNT, 1 to 1000"),
        "check" => Some("no more words"),
        "crowd" => Some("THREADS, 1 to 8, and COUNT, 1 to 1000"),
        "dump" => Some(
            "--from LSN, as 1:200:0, or not; --to LSN or not; --stream NAME, 1 to 64 bytes, or not; and --data hex, text or none, or not",
        ),
        "txn" => Some("no more words"),
        "archive" => Some("no more words"),
        "restore" => Some("--up-to LSN, as 1:200:0, or not"),
        "share" => Some(
            "IN and OUT of each client, 1 to 64 clients and no path twice, or --door PLACE and --clients N, 1 to 64; and --write-buffers W, 1 to 64, or not",
        ),
        _ => None,
    }
}

/// Which words are allowed, for words that are no command: after FOLDER, or after the command that the first of them names.
pub fn form_of(alloc: Global, words: &[String]) -> Result<String, AllocError> {
    let Some(first) = words.first() else {
        return String::from_str(
            alloc,
            "clfs: FOLDER and a command are needed; clfs --help has them",
        );
    };
    match known_form(first.as_str()) {
        Some(form) => format!(in alloc;
            "clfs: {first} takes {form}; each is given once, and numbers are decimal, without a sign or a zero in front"
        ),
        None => format!(in alloc;
            "clfs: {first} is no command: after FOLDER comes format, serve, race, trial, crew, check, crowd, dump, txn, archive, restore or share"
        ),
    }
}
