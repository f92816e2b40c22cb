// The log's policies, which say how large it is to be.

/// A policy with its value.
#[derive(Clone, Copy, Debug, PartialEq, Eq)]
pub enum Policy {
    /// The most containers of the log.
    Maximum(u16),
    /// The fewest containers of the log.
    Minimum(u16),
    /// By how many containers the log grows in one step.
    Growth(u16),
    /// A log that is full grows by itself.
    Automatic,
}

/// The kinds of policies, of each of which at most one is installed.
#[derive(Clone, Copy, Debug, PartialEq, Eq)]
pub enum PolicyKind {
    /// That of `Policy::Maximum`.
    Maximum,
    /// That of `Policy::Minimum`.
    Minimum,
    /// That of `Policy::Growth`.
    Growth,
    /// That of `Policy::Automatic`.
    Automatic,
}
