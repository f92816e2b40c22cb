// How a client's source and sink are opened, by the client's own thread.
ghost use Rattle.std.specs.Prelude.{◌≡◌, ℕ, Some, IfSome, IfNone};

use clfs_ports::{Sink, Source};

/// A client's source and sink before they are open. They are opened by the client's own thread, so that a client which waits for its own keeps no other
/// one waiting.
pub trait Openers<S: Source, K: Sink> {
    /// Opening gives such a source and such a sink, and leaves these openers so.
    ghost opens: { Self → S → K → Self → Type 0 };

    /// Opening gives nothing, and leaves these openers so.
    ghost stays_shut: { Self → Self → Type 0 };

    /// Closing with a status leaves these openers so.
    ghost closes: { Self → ℕ → Self → Type 0 };

    /// A refusal leaves these openers so.
    ghost refuses: { Self → Self → Type 0 };

    /// Opens the source, and then the sink. None if one of them can't be opened.
    fn open(&mut self) -> Option<(S, K)>
        ensures opened { IfSome result (λ ports. opens self.old ports.0 ports.1 self.new) }
        ensures shut { IfNone result (stays_shut self.old self.new) };

    /// The client has ended with this status, and nothing more is read or written. What was opened may be closed.
    fn close(&mut self, status: u8, source: &mut S, sink: &mut K)
        ensures closed { closes self.old status self.new }
        ensures source { (S.left source.new ≡ S.left source.old) × (S.faults source.new ≡ S.faults source.old) }
        ensures sink { (K.written sink.new ≡ K.written sink.old) × (K.faults sink.new ≡ K.faults sink.old) };

    /// There is no thread for the client, and nothing will be opened.
    fn refuse(&mut self)
        ensures { refuses self.old self.new };
}

/// A source and a sink that are open.
#[derive(Drop)]
pub struct OpenedPorts<S: Source, K: Sink> {
    /// Both, until they were given.
    pub ports: Option<(S, K)>,
}

impl<S: Source + Drop, K: Sink + Drop> Openers<S, K> for OpenedPorts<S, K> {
    ghost use Rattle.std.specs.Prelude.{◌≡◌, None, Some};

    ghost opens = { λ openers source sink left. (openers.ports ≡ Some (source, sink)) × (left.ports ≡ None) };

    ghost stays_shut = { λ openers left. (openers.ports ≡ None) × (left.ports ≡ None) };

    ghost closes = { λ openers _ left. left ≡ openers };

    ghost refuses = { λ openers left. left ≡ openers };

    fn open(&mut self) -> Option<(S, K)> {
        self.ports.take()
    }

    fn close(&mut self, _status: u8, _source: &mut S, _sink: &mut K) {}

    fn refuse(&mut self) {}
}
