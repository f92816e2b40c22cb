// The generator of a trial's lines. It stands between two lines: it adds the next one to a text, and moves on as it is told the reply.
ghost use Rattle.std.specs.Prelude.{◌≡◌, ◌+◌, ◌-◌, ◌/◌, ◌^◌, ◌<◌, ◌≤◌, [], ◌∷◌, ◌++◌, ℕ, List, Option, OnOk, length, slice_index};
ghost use Rattle.clfs_trial.specs.Generated.{next_number, drawn, opening_line, line_at};
ghost use Rattle.clfs_trial.specs.Stage.{stage_after, next_client, next_line, moved_on};

use crate::drawn::{drawn_client, push_client, push_drawn_line, push_number};
use clfs_lsn::{Bytes, Lsn};
use std::alloc::AllocError;
use std::marker::Model;

const MULTIPLIER: u64 = 6364136223846793005;

const INCREMENT: u64 = 1442695040888963407;

/// How many lines come before those that are drawn.
pub const OPENING_LINES: u32 = 8;

/// Makes the lines of a trial. A contract sees what it keeps.
#[derive(Debug, Drop)]
pub struct Generator {
    // The number after which the next draw comes.
    number: u64,
    // How many of the opening lines were answered.
    opened: u32,
    // The LSN that each client was told last.
    lsns: [Lsn; 4],
}

impl Model for Generator {
    ghost use Rattle.std.specs.Prelude.{◌≤◌};
    ghost use Rattle.clfs_trial.specs.Stage.{Stage};

    ghost Value = { Stage };

    ghost view = { λ g. record { number = g.number; opened = g.opened; lsns = g.lsns } };

    ghost invariant = { λ g. g.opened ≤ 8 };
}

fn next_number(number: u64) -> u64
    ensures { result ≡ next_number number }
{
    number.wrapping_mul(MULTIPLIER).wrapping_add(INCREMENT)
}

// What is drawn of a number.
fn drawn(number: u64) -> u32
    ensures { result ≡ drawn number }
{
    (number >> 33) as u32
}

// Adds one of the lines before those that are drawn.
fn push_opening_line(at: u32, out: &mut Bytes) -> Result<(), AllocError>
    requires { at < 8 }
    ensures text { OnOk result (out.new ≡ out.old ++ opening_line at) }
    ensures short { OnOk result (length out.new ≤ length out.old + 34) }
{
    let client = 1 + at / 2;
    push_client(client, out)?;
    if at % 2 == 0 {
        return push_number(b" open s", client, out);
    }
    push_number(b" area ", client, out)?;
    out.extend_from_slice(b" 400 2")
}

impl Generator {
    /// Before the first line of the trial of a number.
    pub fn new(number: u32) -> Generator
        ensures { result ≡ stage_after number [] }
    {
        Generator {
            number: number as u64,
            opened: 0,
            lsns: [Lsn::null(); 4],
        }
    }

    // The client of the next line.
    fn client(&self) -> u32
        ensures client { result ≡ next_client self.now }
        ensures some { 1 ≤ result }
        ensures few { result ≤ 4 }
    {
        if self.opened < OPENING_LINES {
            1 + self.opened / 2
        } else {
            drawn_client(drawn(next_number(self.number)))
        }
    }

    // The LSN that the client of the next line was told last.
    fn lsn(&self) -> Lsn
        ensures { result ≡ slice_index self.now.lsns (next_client self.now - 1) }
    {
        self.lsns[self.client() as usize - 1]
    }

    // Adds the next line at the end.
    fn push_next(&self, out: &mut Bytes) -> Result<(), AllocError>
        ensures text { OnOk result (out.new ≡ out.old ++ next_line self.now) }
        ensures short { OnOk result (length out.new ≤ length out.old + 823) }
    {
        if self.opened < OPENING_LINES {
            return push_opening_line(self.opened, out);
        }
        let first = next_number(self.number);
        let second = next_number(first);
        push_drawn_line(drawn(first), drawn(second), self.lsn(), out)
    }

    /// Adds the next line at the end, without a line feed. If memory runs out, a front of it may stand there; the line is still the next one.
    pub fn push_line(&self, out: &mut Bytes) -> Result<(), AllocError>
        ensures line { (number : ℕ) (told : List (Option ℕ)) → self.now ≡ stage_after number told
            → OnOk result (out.new ≡ out.old ++ line_at number (length told) told) }
        ensures short { OnOk result (length out.new ≤ length out.old + 823) }
    {
        self.push_next(out)
    }

    // Moves on after a reply.
    fn move_on(&mut self, lsn: Option<Lsn>)
        ensures { self.new ≡ moved_on self.old lsn }
    {
        if let Some(lsn) = lsn {
            self.lsns[self.client() as usize - 1] = lsn;
        }
        if self.opened < OPENING_LINES {
            self.opened += 1;
        } else {
            self.number = next_number(next_number(self.number));
        }
    }

    /// Moves on to the line after the next one, which was answered: the reply told this LSN, or none.
    pub fn told(&mut self, lsn: Option<Lsn>)
        ensures { (number : ℕ) (told : List (Option ℕ)) → self.old ≡ stage_after number told → self.new ≡ stage_after number (told ++ lsn ∷ []) }
    {
        self.move_on(lsn)
    }
}
