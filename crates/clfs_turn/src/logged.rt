// What the lock asks of the value after it, and of the jobs that are done on the value.
ghost use Rattle.std.specs.Prelude.{◌≡◌, ℕ, List, [], length};

/// A value that stands for a list of entries, each of which names a client.
pub trait Logged<E, O> {
    // The list that the value stands for.
    ghost entries: { Self → List E };

    // The client that an entry names.
    ghost client_of: { E → ℕ };

    // The state in which a history begins whose first value is this one.
    ghost opening: { Self → O };

    // The value's own law: its entries lead from this opening to the value.
    ghost reached: { O → Self → Type 0 };

    /// How many entries the list has.
    fn count(&self) -> u64
        ensures { result ≡ length (entries self.now) };

    // A value whose list is empty is at its own opening.
    ghost at_opening: { (x : Self) → entries x ≡ [] → reached (opening x) x };
}

/// Work on the value, done while nobody else has it. It adds one entry of its client, or none.
pub trait Job<V: Logged<E, O>, E, O> {
    type Answer;

    ghost use Rattle.clfs_turn.specs.Calls.{AddsAtMostOne};

    // The client that an added entry names.
    ghost client: { Self → ℕ };

    // What the job asks of its own arguments.
    ghost is_ready: { Self → Type 0 };

    // The value found, the value left and the answer.
    ghost ran: { Self → V → V → Self.Answer → Type 0 };

    fn run(self, value: &mut V) -> Self::Answer
        requires { is_ready self }
        ensures list { AddsAtMostOne V.entries V.client_of (client self) value.old value.new }
        ensures lawful { (o : O) → V.reached o value.old → V.reached o value.new }
        ensures ran { ran self value.old value.new result };
}
