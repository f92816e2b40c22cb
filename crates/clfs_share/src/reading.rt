// What a client's line asks for.
ghost use Rattle.std.specs.Prelude.{◌≡◌, ◌≤◌, true, IfOk, length};
ghost use Rattle.clfs_model.specs.Script.{client_word, calls_alone, request_in};
ghost use Rattle.clfs_share.specs.Asked.{MeetsArguments, request};
ghost use Rattle.clfs_share.specs.Lines.{client_named, names, own_request};

use clfs_model::Call;
use clfs_race::lines_meet_their_conditions;
use clfs_script::{Language, LineRefusal, Request, ScriptLine, parse_line};
use clfs_text::{Words, decimal_number};
use std::alloc::{AllocError, Global};

// The highest number of a client.
const MOST_CLIENTS: u32 = 64;

/// What a client's line asks for.
#[derive(Drop)]
pub(crate) enum Asked {
    /// A call of the client.
    Step(Call),
    /// Nothing.
    Nothing {
        /// The byte where the line goes wrong.
        at: u32,
    },
}

// The client of a word that is a client's number.
fn client_of_word(word: &[u8]) -> Option<u16>
    ensures { result ≡ client_word word.now }
{
    match decimal_number(MOST_CLIENTS, word) {
        Some(number) if number >= 1 => Some(number as u16),
        _ => None,
    }
}

// The client that a line names by its first word.
fn client_named(line: &[u8]) -> Option<u16>
    requires { length line.now ≤ 4294967295 }
    ensures { result ≡ client_named line.now }
{
    let mut words = Words::of(line);
    match words.take() {
        Ok(word) => client_of_word(word.bytes),
        Err(_) => None,
    }
}

// Whether a line names this client.
fn names(client: u16, line: &[u8]) -> bool
    requires { length line.now ≤ 4294967295 }
    ensures { result ≡ names client line.now }
{
    match client_named(line) {
        Some(named) => named == client,
        None => false,
    }
}

// What a line asks for that names the client.
fn read_named(alloc: Global, client: u16, line: &[u8]) -> Result<Asked, AllocError>
    requires short { length line.now ≤ 4294967295 }
    requires named { names client line.now ≡ true }
    ensures request { IfOk result (λ asked. request client asked ≡ request_in calls_alone line.now) }
    ensures arguments { IfOk result (λ asked. MeetsArguments asked) }
{
    lines_meet_their_conditions();
    match parse_line(alloc, Language::CallsAlone, line) {
        Ok(ScriptLine { client: _, request }) => match request {
            Request::Step(call) => Ok(Asked::Step(call)),
            // No line of this language asks for it.
            Request::Reopen => Ok(Asked::Nothing { at: 0 }),
        },
        Err(LineRefusal::BadLine { at }) => Ok(Asked::Nothing { at }),
        Err(LineRefusal::NoMemory) => Err(AllocError),
    }
}

/// What a client's line asks for. It comes without its carriage return.
pub(crate) fn read_line(alloc: Global, client: u16, line: &[u8]) -> Result<Asked, AllocError>
    requires { length line.now ≤ 4294967295 }
    ensures request { IfOk result (λ asked. request client asked ≡ own_request client line.now) }
    ensures arguments { IfOk result (λ asked. MeetsArguments asked) }
{
    if !names(client, line) {
        return Ok(Asked::Nothing { at: 0 });
    }
    read_named(alloc, client, line)
}
