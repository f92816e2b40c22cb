// The limits of a log that code of several crates compares with.

/// The most containers of a log.
pub const MOST_CONTAINERS: u16 = 256;

/// The fewest containers that a policy may ask for: with one, a log takes no records.
pub const FEWEST_CONTAINERS: u16 = 2;

/// The most containers that a log grows by in one step: from the fewest to the most.
pub const GREATEST_GROWTH: u16 = 254;

/// The most streams of a log.
pub const MOST_STREAMS: u16 = 192;

/// The most bytes of a stream's name.
pub const LONGEST_NAME: u16 = 64;
