// The bytes of a script, piece by piece.
ghost use Rattle.std.specs.Prelude.{◌≡◌, ◌≤◌, [], List, ℕ, length, take, drop, IfOk, OnErr};
ghost use Rattle.std.specs.Io.KnownBytes.{Consumes, Keeps, IsAtEnd};
ghost use Rattle.clfs_ports.specs.Cause.{HasCause};

use clfs_ports::{Failed, Source};
use std::alloc::{AllocError, Global};
use std::marker::Model;

/// The bytes that are asked for at a time.
const PIECE: usize = 65536;

/// The part of a piece of a script that is still to be answered.
#[derive(Drop)]
pub struct Piece {
    bytes: Vec<u8>,
    from: usize,
    upto: usize,
}

impl Model for Piece {
    ghost use Rattle.std.specs.Prelude.{◌≡◌, ◌≤◌, ℕ, List, take, drop, vec_len};

    ghost Value = { List ℕ };

    ghost view = { λ p. drop p.from (take p.upto p.bytes.items) };

    ghost invariant = { λ p. (p.from ≤ p.upto) × ((p.upto ≤ vec_len p.bytes) × (vec_len p.bytes ≡ 65536)) };
}

// Room for a piece.
fn room(alloc: Global) -> Result<Vec<u8>, AllocError>
    ensures { IfOk result (λ room. length room.items ≡ 65536) }
{
    vec![in alloc; 0u8; PIECE]
}

impl Piece {
    /// No bytes yet.
    pub fn new(alloc: Global) -> Result<Piece, AllocError>
        ensures { IfOk result (λ piece. piece ≡ []) }
    {
        let bytes = room(alloc)?;
        Ok(Piece {
            bytes,
            from: 0,
            upto: 0,
        })
    }

    /// What is still to be answered.
    pub fn rest(&self) -> &[u8]
        ensures { result.now ≡ self.now }
    {
        let (bytes, _) = self.bytes.split_at(self.upto);
        bytes.split_at(self.from).1
    }

    /// So many bytes are answered.
    pub fn skip(&mut self, count: usize)
        requires { count ≤ length self.old }
        ensures { self.new ≡ drop count self.old }
    {
        self.from += count;
    }

    /// Takes the next bytes of a source, and answers how many. No more than `most` of them are to be answered.
    pub fn fill<S: Source>(&mut self, source: &mut S, most: usize) -> Result<usize, Failed>
        ensures taken { IfOk result (λ count. (bytes : List ℕ) × (Consumes (S.left source.old) (S.left source.new) bytes
            × ((length bytes ≡ count) × (self.new ≡ take most bytes)))) }
        ensures few { IfOk result (λ count. count ≤ 65536) }
        ensures kept { OnErr result (Keeps (S.left source.old) (S.left source.new)) }
        ensures end { IfOk result (λ count. count ≡ 0 → IsAtEnd (S.left source.new)) }
        ensures cause { HasCause (S.faults source.old) (S.faults source.new) result }
    {
        let count = source.read(&mut self.bytes)?;
        self.from = 0;
        self.upto = count.min(most);
        Ok(count)
    }
}
