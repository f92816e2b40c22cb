// Why a script isn't answered further.

/// Why no further line of a script is answered.
#[derive(Clone, Copy, Debug, PartialEq, Eq)]
pub enum Stop {
    /// The source failed.
    SourceFault,
    /// The sink failed.
    SinkFault,
    /// Memory ran out.
    NoMemory,
    /// A limit is passed.
    TooLong,
}
