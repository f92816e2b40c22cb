// The codes that the exports answer.

/// What is asked for is there.
pub const RIGHT: u32 = 0;

/// The gate is closed: nothing begins here, and nothing is wrong.
pub const SHUT: u32 = 1;

/// A byte is wrong.
pub const WRONG: u32 = 2;

/// No record is left.
pub const ENDED: u32 = 3;

/// The arguments don't belong together, and nothing was judged.
pub const UNFIT: u32 = 4;
