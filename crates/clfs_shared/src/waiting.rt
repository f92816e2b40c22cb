// Who waits for the turn of a shared log, and who is let in: the rules of order.rt, without the lock and the places where threads sleep.
//
// Contracts say what a call of each kind finds (`is_let_in`): where none is made and some wait, the kind that comes next has one that waits, and it need
// not wait on. So to wake one of that kind is enough. A call that comes before the woken one looks lets it in still, or is let in itself. That the woken
// one looks, and which of one kind does first, no contract says.
ghost use Rattle.std.specs.Prelude.{◌≡◌, ◌+◌, ◌-◌, ◌^◌, ◌<◌, true, false, not, ◌&&◌, min, if◌then◌else◌};
ghost use Rattle.clfs_shared.specs.Waiting as waits;

/// The two kinds of calls.
#[derive(Clone, Copy, PartialEq, Eq)]
pub(crate) enum Kind {
    /// Nothing that was appended before has to be on the disk for it.
    Quick,
    /// It writes all that waits.
    Flushing,
}

/// A set of clients, by their numbers.
#[derive(Clone, Copy, PartialEq, Eq)]
pub(crate) struct Clients {
    // The bit of each client: 1 to 63 have their own place, and 64 has place 0.
    bits: u64,
}

impl Clients {
    /// Nobody.
    pub const fn none() -> Clients {
        Clients { bits: 0 }
    }

    /// One client.
    pub const fn of(client: u16) -> Clients {
        Clients {
            bits: 1u64.wrapping_shl(client as u32),
        }
    }

    /// These and the others.
    pub const fn with(self, others: Clients) -> Clients {
        Clients {
            bits: self.bits | others.bits,
        }
    }

    /// These but the others.
    pub const fn without(self, others: Clients) -> Clients {
        Clients {
            bits: self.bits & !others.bits,
        }
    }

    /// How many they are.
    pub const fn count(self) -> u32 {
        self.bits.count_ones()
    }
}

/// Whether a flush waits for the clients that the turn of flushes before served.
#[derive(Clone, Copy, PartialEq, Eq)]
pub(crate) enum Gathering {
    /// No flush has begun to wait for them in this turn.
    NotBegun,
    /// One does.
    UnderWay,
    /// One has, and a flush is made next.
    Done,
}

/// Who waits, and who is let in. `left` is for how many calls more the kind that is served is served. The counters stop at the end of their type; at most
/// 64 clients wait.
#[derive(Drop)]
pub(crate) struct Waiting {
    busy: bool,
    gathering: Gathering,
    serves: Kind,
    left: u32,
    quick: u32,
    flushing: u32,
    // The clients whose flushes wait, and those whose flushes the last turn of this kind made.
    waiting: Clients,
    served: Clients,
}

// The other kind.
fn other_than(kind: Kind) -> Kind
    ensures { result ≡ waits.other_than kind }
{
    match kind {
        Kind::Quick => Kind::Flushing,
        Kind::Flushing => Kind::Quick,
    }
}

impl Waiting {
    /// Nobody waits, and no call is made.
    pub fn new() -> Waiting {
        Waiting {
            busy: false,
            gathering: Gathering::NotBegun,
            serves: Kind::Quick,
            left: 0,
            quick: 0,
            flushing: 0,
            waiting: Clients::none(),
            served: Clients::none(),
        }
    }

    /// How many calls of a kind wait.
    pub fn count(&self, kind: Kind) -> u32
        ensures { result ≡ waits.waiting_of self.now kind }
    {
        match kind {
            Kind::Quick => self.quick,
            Kind::Flushing => self.flushing,
        }
    }

    // The kind that comes before the other: quick calls while a flush gathers, flushes when one has, and else the kind that is served, until none is left to
    // it.
    fn first(&self) -> Kind
        ensures { result ≡ waits.first_of self.now }
    {
        match self.gathering {
            Gathering::UnderWay => Kind::Quick,
            Gathering::Done => Kind::Flushing,
            Gathering::NotBegun if self.left == 0 => other_than(self.serves),
            Gathering::NotBegun => self.serves,
        }
    }

    /// A call of this kind has to wait: a call is being made, or the other kind comes first.
    pub fn must_wait(&self, kind: Kind) -> bool
        ensures { result ≡ not (waits.is_let_in self.now kind) }
    {
        let others_wait = self.gathering == Gathering::UnderWay || self.count(other_than(kind)) > 0;
        self.busy || others_wait && self.first() != kind
    }

    /// A quick call is being made.
    pub fn makes_quick(&self) -> bool
        ensures { result ≡ self.now.busy && waits.is_same_kind self.now.serves Kind.Quick }
    {
        self.busy && self.serves == Kind::Quick
    }

    /// A quick call waits.
    pub fn come(&mut self)
        ensures come { self.new ≡ record self.old { quick = min (self.old.quick + 1) (2 ^ 32 - 1) } }
        ensures keeps { waits.KeepsLetIn self.old self.new Kind.Quick }
    {
        self.quick = self.quick.saturating_add(1);
    }

    /// A quick call waits no more, and is made.
    pub fn go_in(&mut self)
        ensures { self.new ≡ waits.with_one_in Kind.Quick (record self.old { quick = self.old.quick - 1 }) }
    {
        self.quick = self.quick.saturating_sub(1);
        self.let_in(Kind::Quick);
    }

    /// A flush of this client waits.
    pub fn come_to_flush(&mut self, client: Clients)
        ensures come { self.new ≡ record self.old { flushing = min (self.old.flushing + 1) (2 ^ 32 - 1); waiting = self.new.waiting } }
        ensures keeps { waits.KeepsLetIn self.old self.new Kind.Flushing }
    {
        self.flushing = self.flushing.saturating_add(1);
        self.waiting = self.waiting.with(client);
    }

    /// A flush of this client waits no more, and is made. No flush of its turn has to gather for others any more.
    pub fn go_in_to_flush(&mut self, client: Clients)
        ensures { self.new ≡ waits.with_one_in Kind.Flushing (record self.old {
          gathering = Gathering.NotBegun;
          flushing = self.old.flushing - 1;
          waiting = self.new.waiting;
          served = self.new.served;
        }) }
    {
        self.gathering = Gathering::NotBegun;
        self.flushing = self.flushing.saturating_sub(1);
        self.waiting = self.waiting.without(client);
        self.served = if self.goes_on(Kind::Flushing) {
            self.served.with(client)
        } else {
            client
        };
        self.let_in(Kind::Flushing);
    }

    /// Whether a flush that may be made now does better to wait: it begins a turn, the turn before served several clients, and not all of them wait
    /// again.
    pub fn gains_by_waiting(&self) -> bool {
        !self.goes_on(Kind::Flushing)
            && self.served.count() > 1
            && self.served.without(self.waiting).count() > 0
    }

    /// Has a flush wait that may be made now, if none has in this turn and it gains by it. Says whether it does.
    pub fn begin_gathering(&mut self) -> bool
        ensures { self.new ≡ (if result then record self.old { gathering = Gathering.UnderWay } else self.old) }
    {
        let begins = self.gathering == Gathering::NotBegun && self.gains_by_waiting();
        if begins {
            self.gathering = Gathering::UnderWay;
        }
        begins
    }

    /// The flush that gathered waits no more for others.
    pub fn end_gathering(&mut self)
        ensures { self.new ≡ record self.old { gathering = Gathering.Done } }
    {
        self.gathering = Gathering::Done;
    }

    /// The call is made.
    pub fn leave(&mut self)
        ensures { self.new ≡ record self.old { busy = false } }
    {
        self.busy = false;
    }

    /// The kind of which one is let in next.
    pub fn next(&self) -> Kind
        // Where no call is made, one of it need not wait on. If some call waits, then one of this kind does, unless a flush gathers: that isn't asleep.
        ensures let_in { self.now.busy ≡ false → waits.is_let_in self.now result ≡ true }
        ensures waits { waits.is_under_way self.now.gathering ≡ false → 0 < self.now.quick + self.now.flushing → 0 < waits.waiting_of self.now result }
    {
        let first = self.first();
        if self.gathering == Gathering::UnderWay || self.count(first) > 0 {
            first
        } else {
            other_than(first)
        }
    }

    // A call of this kind that is let in now goes on with the turn of its kind.
    fn goes_on(&self, kind: Kind) -> bool
        ensures { result ≡ waits.goes_on self.now kind }
    {
        self.serves == kind && self.left > 0
    }

    // A call of this kind, which isn't counted among those that wait any more, is made.
    fn let_in(&mut self, kind: Kind)
        ensures { self.new ≡ waits.with_one_in kind self.old }
    {
        if self.goes_on(kind) {
            self.left -= 1;
        } else {
            self.serves = kind;
            self.left = self.count(kind);
        }
        self.busy = true;
    }
}
