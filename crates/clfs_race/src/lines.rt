// The lines of a script that is there, and whether it is within its limits.
ghost use Rattle.std.specs.Prelude.{◌≡◌, ◌≤◌, ◌++◌, ◌∷◌, ◌+◌, drop, length, MatchOption};
ghost use Rattle.clfs_model.specs.Accepted.{race_limits, is_within};
ghost use Rattle.clfs_model.specs.Lines.{without_return};
ghost use Rattle.clfs_race.specs.Feeds.{HasNoFeed};

use crate::counts::LineCounts;
use crate::input::MOST_BYTES;
use memchr::memchr;

/// The most lines of a script.
pub(crate) const MOST_LINES: usize = 10000;

/// The most bytes of a line without its line feed.
pub(crate) const LONGEST_LINE: usize = 131072;

/// The first line, if its line feed is there, and without it.
pub fn ended_line(bytes: &[u8]) -> Option<&[u8]>
    ensures { MatchOption result (HasNoFeed bytes.now)
        (λ line. HasNoFeed line.now × (bytes.now ≡ line.now ++ 10 ∷ drop (length line.now + 1) bytes.now)) }
{
    match memchr(b'\n', bytes) {
        Some(at) => Some(bytes.split_at(at).0),
        None => None,
    }
}

/// The line without a carriage return at its end.
pub fn without_return(line: &[u8]) -> &[u8]
    ensures value { result.now ≡ without_return line.now }
    ensures within { length result.now ≤ length line.now }
{
    match line {
        [front @ .., b'\r'] => front,
        _ => line,
    }
}

/// Whether a script is within its limits, with a last line that has no line feed. Its lines are counted by the way.
pub(crate) fn is_within_limits(bytes: &[u8], counts: &mut LineCounts) -> bool
    ensures { result ≡ is_within race_limits bytes.now }
{
    if bytes.len() > MOST_BYTES {
        return false;
    }
    let mut rest = bytes;
    let mut count = 0;
    while let Some(line) = ended_line(rest) {
        if line.len() > LONGEST_LINE {
            return false;
        }
        counts.add(line);
        rest = rest.split_at(line.len() + 1).1;
        count += 1;
    }
    if rest.is_empty() {
        return count <= MOST_LINES;
    }
    counts.add(rest);
    count < MOST_LINES && rest.len() <= LONGEST_LINE
}
