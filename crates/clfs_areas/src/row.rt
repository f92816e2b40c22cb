// The row of an area and its name, and how a row is found.
ghost use Rattle.std.specs.Prelude.{◌≡◌, ◌+◌, ◌<◌, ◌-◌, ◌^◌, count_by, find, not, position};
ghost use Rattle.std.specs.List.{range_with_len};
ghost use Rattle.clfs_lsn.specs.Numbers.{least_unused};
ghost use Rattle.clfs_areas.specs.Rows.{is_client_row, is_name, is_used};

use indexmap::IndexSet;

/// An area without its cursors.
#[derive(Clone, Copy, Debug)]
pub struct AreaInfo {
    /// The client whose area it is.
    pub client: u16,
    /// Its number among the client's areas.
    pub number: u16,
    /// The number of its stream.
    pub stream: u16,
    /// The most bytes of data of its records.
    pub largest: u32,
    /// The most cursors that it has at a time.
    pub reads: u16,
    /// The sectors that it holds for records to come.
    pub held: u32,
}

// An area without its cursors and what it holds.
#[derive(Clone, Copy)]
pub(crate) struct AreaRow {
    pub(crate) client: u16,
    pub(crate) number: u16,
    pub(crate) stream: u16,
    pub(crate) largest: u32,
    pub(crate) reads: u16,
}

// By what an area is found: no two have the same.
#[derive(Clone, Copy, Debug, PartialEq, Eq, Hash)]
pub(crate) struct AreaName {
    pub(crate) client: u16,
    pub(crate) number: u16,
}

// Up to so many names are gone through, which takes less than the hash of the one that is looked for.
const FEW_NAMES: usize = 8;

// Where the name of a client's area stands. If there are many, the others aren't gone through.
pub(crate) fn place_of(names: &IndexSet<AreaName>, client: u16, number: u16) -> Option<usize>
    ensures { result ≡ position (is_name client number) names.now.keys }
{
    if names.len() <= FEW_NAMES {
        return names
            .iter()
            .position(|name| client == name.client && number == name.number);
    }
    names.get_index_of(&AreaName { client, number })
}

// How many rows a client has.
pub(crate) fn count_of(rows: &[AreaRow], client: u16) -> usize
    ensures { result ≡ count_by (is_client_row client) rows.now }
{
    rows.iter().filter(|row| row.client == client).count()
}

// The least number from 1 on that none of the client's rows has.
pub(crate) fn least_unused(rows: &[AreaRow], client: u16) -> u16
    requires { count_by (is_client_row client) rows.now + 1 < 2 ^ 16 }
    ensures { result ≡ least_unused (count_by (is_client_row client) rows.now) (is_used client rows.now) }
{
    let count = count_of(rows, client) as u16;
    first_unused(rows, client, count + 1).unwrap_or(count + 1)
}

// The least number from 1 on and below a limit that none of the client's rows has.
fn first_unused(rows: &[AreaRow], client: u16, limit: u16) -> Option<u16>
    ensures { result ≡ find (λ number. not (is_used client rows.now number)) (range_with_len 1 (limit - 1)) }
{
    (1..limit).find(|number| !is_used(rows, client, *number))
}

// Whether a client has a row of a number.
fn is_used(rows: &[AreaRow], client: u16, number: u16) -> bool
    ensures { result ≡ is_used client rows.now number }
{
    rows.iter()
        .any(|row| row.client == client && row.number == number)
}
