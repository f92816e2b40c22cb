// What is said on standard error of words that are no command.
use crate::forms::form_of;
use crate::help::help_text;
use std::alloc::{AllocError, Global};

// What the usage of the program itself has in a command's place.
const ANY_COMMAND: &str = "<COMMAND>";

// Whether the words ask for help.
fn asks_for_help(words: &[String]) -> bool {
    for word in words {
        if word.as_str() == "--help" {
            return true;
        }
    }
    false
}

// Whether a paragraph of the help is the usage of this command.
fn is_usage_of(paragraph: &str, command: &str) -> bool {
    match paragraph.strip_prefix("Usage: clfs FOLDER ") {
        Some(rest) => rest.split_ascii_whitespace().next() == Some(command),
        None => false,
    }
}

// Adds a paragraph, after an empty line if it isn't the first one.
fn push_paragraph(paragraph: &str, part: &mut String) -> Result<(), AllocError> {
    if !part.as_str().is_empty() {
        part.push_str("\n\n")?;
    }
    part.push_str(paragraph)
}

// The part of the help on a command, which begins with the paragraph before its usage; empty if there is no such command.
fn part_of(alloc: Global, help: &str, command: &str) -> Result<String, AllocError> {
    let mut part = String::new(alloc);
    let mut is_within = false;
    let mut before = "";
    for paragraph in help.trim_ascii_end().split("\n\n") {
        if paragraph.starts_with("Usage: ") {
            is_within = is_usage_of(paragraph, command);
        }
        if is_within {
            push_paragraph(before, &mut part)?;
        }
        before = paragraph;
    }
    if is_within {
        push_paragraph(before, &mut part)?;
    }
    Ok(part)
}

// The part of the help that the words after the folder ask for: on the command before `--help`, or on the program. Empty if they ask for none.
fn asked_help(alloc: Global, words: &[String]) -> Result<String, AllocError> {
    let Some(first) = words.first() else {
        return Ok(String::new(alloc));
    };
    if !asks_for_help(words) {
        return Ok(String::new(alloc));
    }
    let text = help_text(alloc)?;
    let command = match first.as_str() {
        "--help" => ANY_COMMAND,
        name => name,
    };
    part_of(alloc, text.as_str(), command)
}

/// What is said of words after the folder that are no command: the part of the help that they ask for, or which words are allowed in their place.
pub fn answer_to(alloc: Global, words: &[String]) -> Result<String, AllocError> {
    let help = asked_help(alloc, words)?;
    if help.as_str().is_empty() {
        return form_of(alloc, words);
    }
    Ok(help)
}
