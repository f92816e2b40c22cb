// The statuses with which the answering of a script ends.

/// All lines are answered.
pub const DONE: u8 = 0;

/// The source failed.
pub const SOURCE_FAULT: u8 = 2;

/// The sink failed.
pub const SINK_FAULT: u8 = 3;

/// Memory ran out.
pub const NO_MEMORY: u8 = 5;

/// More bytes came than a script may have, or a line was too long.
pub const INPUT_TOO_LONG: u8 = 7;
