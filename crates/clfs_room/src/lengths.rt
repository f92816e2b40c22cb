// The lengths of records that a call is asked with: the first one that is too long, and the sectors that they take. They need no log.
ghost use Rattle.std.specs.Prelude.{◌≡◌, ◌∷◌, ◌+◌, ◌<◌, ◌≤◌, ◌^◌, find, length, nat_lt};
ghost use Rattle.clfs_lsn.specs.Limits.{most_sizes};
ghost use Rattle.clfs_model.specs.Put.{need_of, spent_of};
ghost use Rattle.clfs_model.specs.Space.{own_sum};

use clfs_lsn::own;

/// The first length that is above the greatest.
pub fn longer(greatest: u32, lengths: &[u32]) -> Option<u32>
    ensures { result ≡ find (λ len. nat_lt greatest len) lengths.now }
{
    lengths.iter().copied().find(|len| greatest < *len)
}

/// The first length that is above the greatest, of a record's and those of records to come.
pub fn first_longer(greatest: u32, len: u32, lengths: &[u32]) -> Option<u32>
    ensures { result ≡ find (λ n. nat_lt greatest n) (len ∷ lengths.now) }
{
    if greatest < len {
        return Some(len);
    }
    longer(greatest, lengths)
}

/// The sectors for records of these lengths, each in a block of its own.
pub fn own_sum(lengths: &[u32]) -> u32
    requires few { length lengths.now ≤ most_sizes }
    ensures value { result ≡ own_sum lengths.now }
    ensures few { result < 2 ^ 28 }
{
    let mut sectors = 0;
    for len in lengths {
        sectors += own(*len);
    }
    sectors
}

/// The sectors that a reserved record takes of those that its area holds.
pub fn spent_of(reserved: bool, len: u32) -> u32
    ensures { result ≡ spent_of reserved len }
{
    if reserved { own(len) } else { 0 }
}

/// The sectors that a record needs besides, and those of records to come.
pub fn need_of(reserved: bool, len: u32, lengths: &[u32]) -> u32
    requires few { length lengths.now ≤ most_sizes }
    ensures value { result ≡ need_of reserved len lengths.now }
    ensures few { result < 2 ^ 29 }
{
    let later = own_sum(lengths);
    if reserved { later } else { own(len) + later }
}
