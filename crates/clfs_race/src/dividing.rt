// The lines of a script, divided among the clients that ask for calls.
ghost use Rattle.std.specs.Prelude.{◌≡◌, ◌≤◌, ◌++◌, ◌∷◌, [], true, length, position, IfOk, OnOk};
ghost use Rattle.clfs_model.specs.Accepted.{race_limits, is_within, accepted};
ghost use Rattle.clfs_model.specs.Lines.{lines_of, without_return};
ghost use Rattle.clfs_model.specs.Script.{calls_alone, request_in};
ghost use Rattle.clfs_race.specs.Divided.{is_of, with_call, IsDivided, IsDividedFurther};
ghost use Rattle.clfs_race.specs.Scripts.{race_requests};
ghost use Rattle.clfs_race.specs.Taken.{answered_lines, IsReadScript};

use crate::counts::LineCounts;
use crate::input::{MOST_BYTES, Script, ScriptEnd};
use crate::laws::lines_meet_their_conditions;
use crate::lines::{LONGEST_LINE, MOST_LINES, ended_line, without_return};
use clfs_model::Call;
use clfs_script::{Language, LineRefusal, Request, ScriptLine, parse_line};
use std::alloc::{AllocError, Global};
use std::marker::Model;

/// The calls that one client asks for, in order. Contracts see them as the client's script.
#[derive(Drop)]
pub struct ClientCalls {
    client: u16,
    calls: Vec<Call>,
}

impl Model for ClientCalls {
    ghost use Rattle.clfs_model.specs.Journals.{ClientScript};

    ghost Value = { ClientScript };

    ghost view = { λ s. record { client = s.client; calls = s.calls.items } };
}

impl ClientCalls {
    // A first call, in a list that is made for so many.
    fn new(alloc: Global, client: u16, call: Call, room: usize) -> Result<ClientCalls, AllocError>
        ensures { IfOk result (λ script. script ≡ record { client = client; calls = call ∷ [] }) }
    {
        let mut calls = Vec::with_capacity(alloc, room)?;
        calls.push(call)?;
        Ok(ClientCalls { client, calls })
    }

    // One call more.
    fn push(&mut self, call: Call) -> Result<(), AllocError>
        ensures { OnOk result (self.new ≡ record self.old { calls = self.old.calls ++ call ∷ [] }) }
    {
        self.calls.push(call)?;
        Ok(())
    }

    /// The client, 1 to 64.
    pub fn client(&self) -> u16
        ensures { result ≡ self.now.client }
    {
        self.client
    }

    /// Its calls.
    pub fn calls(&self) -> &[Call]
        ensures { result.now ≡ self.now.calls }
    {
        self.calls.as_slice()
    }
}

/// What the lines of a script ask for.
#[derive(Drop)]
pub struct Division {
    /// The calls of each client that asks for any.
    pub scripts: Vec<ClientCalls>,
    /// The byte of each line at which it goes wrong, for those that ask for nothing.
    pub bad: Vec<u32>,
}

// Which script is the client's.
fn place_of(scripts: &[ClientCalls], client: u16) -> Option<usize>
    ensures { result ≡ position (is_of client) scripts.now }
{
    scripts.iter().position(|script| script.client() == client)
}

// One call more of a client.
fn add_call(
    alloc: Global,
    scripts: &mut Vec<ClientCalls>,
    counts: &LineCounts,
    client: u16,
    call: Call,
) -> Result<(), AllocError>
    ensures { OnOk result (scripts.new.items ≡ with_call scripts.old.items client call) }
{
    match place_of(scripts, client) {
        Some(place) => scripts[place].push(call),
        None => {
            scripts.push(ClientCalls::new(alloc, client, call, counts.of(client))?)?;
            Ok(())
        }
    }
}

impl Division {
    // Of no lines.
    fn new(alloc: Global) -> Division
        ensures { IsDivided [] result }
    {
        Division {
            scripts: Vec::new(alloc),
            bad: Vec::new(alloc),
        }
    }

    // What one line more asks for.
    fn add_line(
        &mut self,
        alloc: Global,
        counts: &LineCounts,
        line: &[u8],
    ) -> Result<(), AllocError>
        requires { length line.now ≤ 131072 }
        ensures { OnOk result (IsDividedFurther self.old (request_in calls_alone (without_return line.now)) self.new) }
    {
        lines_meet_their_conditions();
        match parse_line(alloc, Language::CallsAlone, without_return(line)) {
            Ok(ScriptLine { client, request }) => match request {
                Request::Step(call) => add_call(alloc, &mut self.scripts, counts, client, call),
                // No line of this language asks for it.
                Request::Reopen => Ok(()),
            },
            Err(LineRefusal::BadLine { at }) => {
                self.bad.push(at)?;
                Ok(())
            }
            Err(LineRefusal::NoMemory) => Err(AllocError),
        }
    }
}

// Divides the lines of a script that is within its limits, the last one too if it has no line feed.
fn divide_whole(alloc: Global, bytes: &[u8], counts: &LineCounts) -> Result<Division, AllocError>
    requires { is_within race_limits bytes.now ≡ true }
    ensures { IfOk result (λ division. IsDivided (race_requests (lines_of bytes.now)) division) }
{
    let mut division = Division::new(alloc);
    let mut rest = bytes;
    while let Some(line) = ended_line(rest) {
        division.add_line(alloc, counts, line)?;
        rest = rest.split_at(line.len() + 1).1;
    }
    if !rest.is_empty() {
        division.add_line(alloc, counts, rest)?;
    }
    Ok(division)
}

// Divides the lines that came whole before a limit was passed or the source failed.
fn divide_accepted(alloc: Global, bytes: &[u8], counts: &LineCounts) -> Result<Division, AllocError>
    ensures { IfOk result (λ division. IsDivided (race_requests (accepted race_limits bytes.now)) division) }
{
    let mut division = Division::new(alloc);
    let mut rest = bytes.split_at(bytes.len().min(MOST_BYTES)).0;
    let mut left = MOST_LINES;
    while left > 0 {
        let Some(line) = ended_line(rest) else {
            return Ok(division);
        };
        if line.len() > LONGEST_LINE {
            return Ok(division);
        }
        division.add_line(alloc, counts, line)?;
        rest = rest.split_at(line.len() + 1).1;
        left -= 1;
    }
    Ok(division)
}

/// Divides the lines of a script that are answered: all of one that was read to its end, else those that came whole.
pub fn divide(alloc: Global, script: &Script) -> Result<Division, AllocError>
    requires { IsReadScript script.now }
    ensures { IfOk result (λ division. IsDivided (race_requests (answered_lines script.now.end script.now.bytes.items)) division) }
{
    match script.end {
        ScriptEnd::Whole => divide_whole(alloc, &script.bytes, &script.counts),
        ScriptEnd::Fault | ScriptEnd::TooLong => divide_accepted(
            alloc,
            &script.bytes,
            &script.counts,
        ),
    }
}
