// The two traits. Clauses on bytes hold where the bytes are told; the clause on faults always holds.
ghost use Rattle.std.specs.Prelude.{List, ℕ, Option};
ghost use Rattle.std.specs.Io.{ReadsAtMost, WritesAtMost};
ghost use Rattle.std.specs.Io.KnownBytes.{ReadConsumes, WriteAppends};
ghost use Rattle.clfs_ports.specs.Cause.{HasCause, TakesSome};

use thiserror::Error;

/// A call of a source or a sink failed; its count of faults rose.
#[derive(Clone, Copy, Debug, PartialEq, Eq, Error)]
#[error("the call failed")]
pub struct Failed;

/// What gives bytes.
pub trait Source {
    /// The bytes that are left, where they are known.
    ghost left: { Self → Option (List ℕ) };

    /// How often a call has failed.
    ghost faults: { Self → ℕ };

    /// Puts some of the next bytes into `out`, in order, and answers how many. The answer 0 for a
    /// buffer that isn't empty means that the input is at its end.
    fn read(&mut self, out: &mut [u8]) -> Result<usize, Failed>
        ensures bound { ReadsAtMost result out.new }
        // Ok takes the bytes that it gave, and 0 of a buffer that isn't empty only where none is left;
        // an Err takes none.
        ensures bytes { ReadConsumes (left self.old) (left self.new) result out.new }
        ensures cause { HasCause (faults self.old) (faults self.new) result };
}

/// What takes bytes.
pub trait Sink {
    /// The bytes that were taken, where they are known.
    ghost written: { Self → Option (List ℕ) };

    /// How often a call has failed.
    ghost faults: { Self → ℕ };

    /// Takes a front of the piece and answers how many bytes that is: at least one, unless the piece
    /// is empty.
    fn write(&mut self, piece: &[u8]) -> Result<usize, Failed>
        ensures bound { WritesAtMost result piece.now }
        ensures some { TakesSome piece.now result }
        // Ok adds the bytes that it took; an Err adds none.
        ensures bytes { WriteAppends (written self.old) (written self.new) result piece.now }
        ensures cause { HasCause (faults self.old) (faults self.new) result };
}
