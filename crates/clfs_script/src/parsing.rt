// What a whole line asks for.
ghost use Rattle.std.specs.Prelude.{◌≡◌, ◌≤◌, None, length};
ghost use Rattle.std.specs.Option.{option_map};
ghost use Rattle.clfs_model.specs.Script.{allowed_verb, request_behind, request_in};
ghost use Rattle.clfs_script.specs.Asked.{rest_of, ReadsVerb, AnswersRequest, AnswersLine, language_of};
ghost use Rattle.clfs_script.specs.Verbs.{verb_of};

use crate::calls::call_line;
use crate::line::{Language, LineRefusal, Request, ScriptLine};
use crate::reading::{client, ending};
use crate::verbs::{Verb, verb_of_word};
use clfs_text::Words;
use std::alloc::Global;

// The verb that a word names, or none for `reopen`, where the language has that word.
#[inline(always)]
fn allowed_verb(language: Language, word: &[u8]) -> Option<Option<Verb>>
    ensures { option_map (option_map verb_of) result ≡ allowed_verb (language_of language) word.now }
{
    match language {
        Language::CallsAndReopening if word == b"reopen".as_slice() => Some(None),
        _ => verb_of_word(word).map(Some),
    }
}

// A client, and the verb after its number, or none for `reopen`.
#[inline(always)]
fn client_verb(language: Language, words: &mut Words) -> Result<(u16, Option<Verb>), LineRefusal>
    ensures { ReadsVerb (language_of language) words.old result words.new }
{
    let client = client(words)?;
    let word = words.take()?;
    match allowed_verb(language, word.bytes) {
        Some(verb) => Ok((client, verb)),
        None => Err(LineRefusal::BadLine { at: word.at }),
    }
}

// What a client asks for by `reopen`, after which the line ends.
fn reopen_line(client: u16, words: &mut Words) -> Result<ScriptLine, LineRefusal>
    ensures { AnswersRequest result (request_behind client None (rest_of words.old)) }
{
    let request = Request::Reopen;
    ending(ScriptLine { client, request }, words)
}

/// What a line asks for in a language, or the place where it goes wrong. The line comes without its carriage return. It is read where
/// the call stands, so that what it asks for isn't moved on the way.
#[inline(always)]
pub fn parse_line(alloc: Global, language: Language, line: &[u8]) -> Result<ScriptLine, LineRefusal>
    requires { length line.now ≤ 4294967295 }
    ensures { AnswersLine result (request_in (language_of language) line.now) }
{
    let mut words = Words::of(line);
    let (client, verb) = client_verb(language, &mut words)?;
    match verb {
        Some(verb) => call_line(alloc, client, verb, &mut words),
        None => reopen_line(client, &mut words),
    }
}
