// What becomes of an incomplete line: of bytes after the last line feed of a script.

/// What becomes of the bytes after the last line feed of a script. A program that ends while it writes leaves some.
#[derive(Clone, Copy, Debug, PartialEq, Eq)]
pub enum IncompleteLine {
    /// They count as a line, where there are any.
    Counts,
    /// They are dropped, whatever they are: nothing is answered, and nothing is done.
    Dropped,
}
