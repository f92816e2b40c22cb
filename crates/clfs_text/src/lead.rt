// Short text that is put together on the stack, from its end to its front.
ghost use Rattle.std.specs.Prelude.{◌≡◌, ◌+◌, ◌≤◌, [], ◌++◌, length, decimal};
ghost use Rattle.clfs_lsn.specs.Words.{lsn_text};

use crate::printing::write_lsn;
use clfs_lsn::Lsn;
use itoa::Buffer;
use std::marker::Model;

/// Text of at most 176 bytes. Each part that is put goes before those that are there, since the digits of a number come from its end.
#[derive(Debug, Drop)]
pub struct Lead {
    bytes: [u8; 176],
    // Where the text begins. It ends with the bytes.
    start: usize,
}

impl Model for Lead {
    ghost use Rattle.std.specs.Prelude.{ℕ, List, ◌≤◌, drop};

    ghost Value = { List ℕ };

    ghost view = { λ w. drop w.start w.bytes };

    ghost invariant = { λ w. w.start ≤ 176 };
}

impl Lead {
    /// No text.
    pub fn new() -> Lead
        ensures { result ≡ [] }
    {
        Lead {
            bytes: [0; 176],
            start: 176,
        }
    }

    /// The text.
    pub fn as_slice(&self) -> &[u8]
        ensures { result.now ≡ self.now }
    {
        &self.bytes[self.start..]
    }

    /// Puts a text before the others.
    pub fn put(&mut self, text: &[u8])
        requires { length text.now + length self.old ≤ 176 }
        ensures { self.new ≡ text.now ++ self.old }
    {
        let start = self.start - text.len();
        self.bytes[start..self.start].copy_from_slice(text);
        self.start = start;
    }

    /// Puts a number in decimal digits before the others.
    pub fn put_decimal(&mut self, number: u32)
        requires { length self.old ≤ 166 }
        ensures text { self.new ≡ decimal number ++ self.old }
        ensures short { length self.new ≤ length self.old + 10 }
    {
        if number < 10 {
            self.put(&[b'0' + number as u8]);
            return;
        }
        let mut buffer = Buffer::new();
        self.put(buffer.format(number).as_bytes());
    }

    /// Puts an LSN before the others: container, offset and sequence in lower-case hexadecimal digits, with colons between them.
    pub fn put_lsn(&mut self, lsn: Lsn)
        requires { length self.old ≤ 150 }
        ensures text { self.new ≡ lsn_text lsn ++ self.old }
        ensures short { length self.new ≤ length self.old + 26 }
    {
        self.start = write_lsn(lsn, &mut self.bytes, self.start);
    }
}
