// How programs come to a client's number, one after the other, and leave.
ghost use Rattle.std.specs.Prelude.{◌≡◌, ℕ, Ok, Some, None, IfErr};

use clfs_ports::{Sink, Source};
use std::sync::Wait;
use thiserror::Error;

/// No program can come.
#[derive(Clone, Copy, Debug, PartialEq, Eq, Error)]
#[error("no program can come")]
pub struct NoneCanCome;

/// How the visits of programs to a client's number ended.
#[derive(Clone, Copy, Debug, PartialEq, Eq)]
pub enum ComingEnd {
    /// No more come.
    Over {
        /// How many came.
        visits: u64,
    },
    /// No more can come.
    Failed {
        /// How many came.
        visits: u64,
    },
    /// No thread could be made for the number, and nobody came.
    NoThread,
}

/// Programs that come to a client's number, one after the other, each with a source and a sink of its own. They are waited for by the client's own thread.
pub trait Visitors<S: Source, K: Sink> {
    /// A program has come by such a source and such a sink, and these are left so.
    ghost comes: { Self → S → K → Self → Type 0 };

    /// No more come, and these are left so.
    ghost over: { Self → Self → Type 0 };

    /// No more can come, and these are left so.
    ghost fails: { Self → Self → Type 0 };

    /// A program has left, with a status and this source and this sink, and these are left so.
    ghost leaves: { Self → ℕ → S → K → Self → Type 0 };

    /// A refusal leaves these so.
    ghost refuses: { Self → Self → Type 0 };

    /// Waits for the next program. None if no more come.
    fn next<R: Wait>(&mut self, rt: &R) -> Result<Option<(S, K)>, NoneCanCome>
        ensures comes { (source : S) (sink : K) → result ≡ Ok (Some (source, sink)) → comes self.old source sink self.new }
        ensures over { result ≡ Ok None → over self.old self.new }
        ensures fails { IfErr result (λ _. fails self.old self.new) };

    /// The visit has ended with this status, and its source and its sink are done with.
    fn leave(&mut self, status: u8, source: S, sink: K)
        ensures { leaves self.old status source sink self.new };

    /// There is no thread for the number, and nobody will come.
    fn refuse(&mut self)
        ensures { refuses self.old self.new };
}
