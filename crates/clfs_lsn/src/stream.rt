// A stream of records.

use crate::lsn::Lsn;
use crate::name::Name;

/// A stream. Its number is its place in the list of streams, from 1.
#[derive(Drop)]
pub struct Stream {
    /// Its name, which no other stream has.
    pub name: Name,
    /// Its records from here on are live.
    pub base: Lsn,
}
