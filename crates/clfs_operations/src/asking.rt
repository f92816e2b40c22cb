// What a line asks for, as it is answered.
ghost use Rattle.std.specs.Prelude.{◌≡◌, IfOk};
ghost use Rattle.clfs_model.specs.Run as run;
ghost use Rattle.clfs_model.specs.Text.{client_of};
ghost use Rattle.clfs_operations.specs.Asked.{request};
ghost use Rattle.clfs_script.specs.Asked.{AnswersLine};

use clfs_model::Call;
use clfs_script::{LineRefusal, Request, ScriptLine};
use std::alloc::AllocError;

/// What a line asks for. A call stays where it was read.
#[derive(Clone, Copy)]
pub enum Asked<'a> {
    /// A client's call.
    Step {
        /// The client.
        client: u16,
        /// The call.
        call: &'a Call,
    },
    /// A client's opening of the log again.
    Reopen {
        /// The client.
        client: u16,
    },
    /// Nothing.
    Nothing {
        /// The byte where the line goes wrong.
        at: u32,
    },
}

impl<'a> Asked<'a> {
    /// The client that the reply names: a bad line has none.
    pub fn client(self) -> u16
        ensures { result ≡ client_of (request self.entry) }
    {
        match self {
            Asked::Step { client, .. } | Asked::Reopen { client } => client,
            Asked::Nothing { .. } => 0,
        }
    }
}

// What a line that was read asks for.
fn line_asked(line: &ScriptLine) -> Asked
    ensures { AnswersLine (Ok line.now) (request result) }
{
    match &line.request {
        Request::Step(call) => Asked::Step {
            client: line.client,
            call,
        },
        Request::Reopen => Asked::Reopen {
            client: line.client,
        },
    }
}

/// What a line asks for that was read, unless memory ran out.
pub fn asked_of(read: &Result<ScriptLine, LineRefusal>) -> Result<Asked, AllocError>
    ensures { IfOk result (λ asked. (defined : run.Request) → AnswersLine read.now defined → request asked ≡ defined) }
{
    match read {
        Ok(line) => Ok(line_asked(line)),
        Err(LineRefusal::BadLine { at }) => Ok(Asked::Nothing { at: *at }),
        Err(LineRefusal::NoMemory) => Err(AllocError),
    }
}
