// How many lines of a script begin with each client's number, so that the list of a client's calls is made for as many at once. It is a guess, and no
// clause rests on it: a line that goes wrong counts too, and one that begins with a space doesn't. If it is too low the list grows. No more lines
// count than a race has, so that all lists together aren't made for more.
use crate::lines::MOST_LINES;

// One more than the greatest number of a client.
const CLIENTS: usize = 65;

/// Lines, counted by the number with which they begin.
#[derive(Clone, Copy)]
pub(crate) struct LineCounts {
    left: usize,
    counts: [u32; CLIENTS],
}

// What a digit stands for; any other byte gives some number.
fn digit(byte: u8) -> u8 {
    byte.wrapping_sub(b'0')
}

// The number of one or two digits with which a line begins; 0 if there is none.
fn first_number(line: &[u8]) -> u8 {
    match line {
        [first, b' ', ..] => digit(*first),
        [first, second, b' ', ..] => digit(*first).wrapping_mul(10).wrapping_add(digit(*second)),
        _ => 0,
    }
}

impl LineCounts {
    /// Of no lines.
    pub fn new() -> LineCounts {
        LineCounts {
            left: MOST_LINES,
            counts: [0; CLIENTS],
        }
    }

    /// Counts one line more.
    pub fn add(&mut self, line: &[u8]) {
        if self.left == 0 {
            return;
        }
        self.left -= 1;
        if let Some(count) = self.counts.get_mut(first_number(line) as usize) {
            *count = count.wrapping_add(1);
        }
    }

    /// How many lines begin with the client's number.
    pub fn of(&self, client: u16) -> usize {
        match self.counts.get(client as usize) {
            Some(count) => *count as usize,
            None => 0,
        }
    }
}
