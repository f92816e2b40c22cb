// What a line of two draws asks for.
ghost use Rattle.std.specs.Prelude.{◌≡◌, ◌%◌};
ghost use Rattle.clfs_trial.specs.Generated.{kind_of};

/// What a line asks for.
#[derive(Clone, Copy, Debug, PartialEq, Eq)]
pub enum LineKind {
    /// To append a record.
    Append,
    /// To reserve room for a record.
    Reserve,
    /// To release a sector.
    Release,
    /// To flush.
    Flush,
    /// To write an empty restart area.
    Restart,
    /// What the client's stream is like.
    Info,
    /// To move the base of the client's stream.
    Advance,
}

/// What a line with this second draw asks for: ten of sixteen append.
pub fn kind_of(second: u32) -> LineKind
    ensures { result ≡ kind_of (second % 16) }
{
    match second % 16 {
        0..=9 => LineKind::Append,
        10 => LineKind::Reserve,
        11 => LineKind::Release,
        12 => LineKind::Flush,
        13 => LineKind::Restart,
        14 => LineKind::Info,
        _ => LineKind::Advance,
    }
}
