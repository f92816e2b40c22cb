// The row of an area.

/// The sectors that one area holds.
#[derive(Clone, Copy, Debug, PartialEq, Eq)]
pub struct Reservation {
    /// The client whose area it is.
    pub client: u16,
    /// The area's number, which the client's other areas don't have.
    pub area: u16,
    /// In sectors.
    pub held: u32,
}
