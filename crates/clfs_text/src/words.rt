// The words of a line, one after the other.
ghost use Rattle.std.specs.Prelude.{◌≡◌, ◌↔◌, ◌+◌, ◌≤◌, [], ◌∷◌, length, IsTrue, IfOk, IfErr, IfSome, MatchOption};
ghost use Rattle.clfs_text.specs.Left.{left_from, words_behind, skipping};

use memchr::memchr;
use std::marker::Model;

/// A word of a line.
#[derive(Clone, Copy, Debug)]
pub struct Word<'a> {
    /// The place of its first byte in the line.
    pub at: u32,
    /// Its bytes.
    pub bytes: &'a [u8],
}

/// A line in which no form allows the word at a place, or in which words lack at its end.
#[derive(Clone, Copy, Debug, PartialEq, Eq)]
pub struct BadWord {
    /// The place of the word's first byte, or the line's length.
    pub at: u32,
}

/// Reads a line from its front, word by word. Words stand between single spaces, so two spaces in a row have an empty word between
/// them, and an empty line is one empty word.
#[derive(Debug, Drop)]
pub struct Words<'a> {
    line: &'a [u8],
    // Where the next word begins. It is one more than the line's length where the line has no further word.
    at: usize,
}

impl<'a> Model for Words<'a> {
    ghost use Rattle.std.specs.Prelude.{◌+◌, ◌≤◌, length};
    ghost use Rattle.clfs_text.specs.Left.{Left, left_from};

    ghost Value = { Left };

    ghost view = { λ w. left_from w.line.now w.at };

    ghost invariant = { λ w. (w.at ≤ length w.line.now + 1) × (length w.line.now ≤ 4294967295) };
}

impl<'a> Words<'a> {
    /// All words of a line.
    pub fn of(line: &'a [u8]) -> Words<'a>
        requires { length line.now ≤ 4294967295 }
        ensures { result ≡ left_from line.now 0 }
    {
        Words { line, at: 0 }
    }

    /// Whether no word is left.
    pub fn is_at_end(&self) -> bool
        ensures { IsTrue result ↔ (self.now.words ≡ []) }
    {
        self.at > self.line.len()
    }

    /// Takes the next word. Where no word is left, the line's length is the place where one lacks.
    pub fn take(&mut self) -> Result<Word<'a>, BadWord>
        ensures word { IfOk result (λ word. self.old.words ≡ word.bytes.now ∷ self.new.words) }
        ensures at { IfOk result (λ word. word.at ≡ self.old.at) }
        ensures next { IfOk result (λ word. self.new.at ≡ self.old.at + length word.bytes.now + 1) }
        ensures none { IfErr result (λ bad. (self.old.words ≡ []) × (bad.at ≡ self.old.end)) }
        ensures end { self.new.end ≡ self.old.end }
    {
        let line = self.line;
        let at = self.at;
        match word_at(line, at) {
            Some(bytes) => {
                self.at = at + bytes.len() + 1;
                Ok(Word {
                    at: at as u32,
                    bytes,
                })
            }
            None => Err(BadWord {
                at: line.len() as u32,
            }),
        }
    }

    /// Takes the next word, as `take` does, but looks for its end many bytes at a time: for words that may be long.
    pub fn take_long(&mut self) -> Result<Word<'a>, BadWord>
        ensures word { IfOk result (λ word. self.old.words ≡ word.bytes.now ∷ self.new.words) }
        ensures at { IfOk result (λ word. word.at ≡ self.old.at) }
        ensures next { IfOk result (λ word. self.new.at ≡ self.old.at + length word.bytes.now + 1) }
        ensures none { IfErr result (λ bad. (self.old.words ≡ []) × (bad.at ≡ self.old.end)) }
        ensures end { self.new.end ≡ self.old.end }
    {
        let line = self.line;
        let at = self.at;
        match long_word_at(line, at) {
            Some(word) => {
                self.at = at + word.len() + 1;
                Ok(Word {
                    at: at as u32,
                    bytes: word,
                })
            }
            None => Err(BadWord {
                at: line.len() as u32,
            }),
        }
    }

    /// Takes the next word if it is this text. Most lines end before such a word, so that is told first, where the call stands.
    #[inline]
    pub fn skip(&mut self, text: &[u8]) -> bool
        ensures found { result ≡ (skipping text.now self.old).0 }
        ensures left { self.new ≡ (skipping text.now self.old).1 }
    {
        if self.is_at_end() {
            return false;
        }
        self.skip_word(text)
    }

    #[inline(never)]
    fn skip_word(&mut self, text: &[u8]) -> bool
        ensures found { result ≡ (skipping text.now self.old).0 }
        ensures left { self.new ≡ (skipping text.now self.old).1 }
    {
        let line = self.line;
        let at = self.at;
        match word_at(line, at) {
            Some(word) => {
                let found = word == text;
                if found {
                    self.at = at + word.len() + 1;
                }
                found
            }
            None => false,
        }
    }
}

// The word that begins at a place, unless the line ends before it. Most words are short, so its end is looked for byte by byte.
fn word_at(line: &[u8], at: usize) -> Option<&[u8]>
    requires { at ≤ length line.now + 1 }
    ensures words { MatchOption result (words_behind line.now at ≡ []) (λ word. words_behind line.now at ≡ word.now ∷ words_behind line.now (at + length word.now + 1)) }
    ensures within { IfSome result (λ word. at + length word.now ≤ length line.now) }
{
    if at > line.len() {
        return None;
    }
    let (_, rest) = line.split_at(at);
    for (i, byte) in rest.iter().enumerate() {
        if *byte == b' ' {
            let (word, _) = rest.split_at(i);
            return Some(word);
        }
    }
    Some(rest)
}

// The same of a word that may be long: its end is looked for many bytes at a time.
fn long_word_at(line: &[u8], at: usize) -> Option<&[u8]>
    requires { at ≤ length line.now + 1 }
    ensures words { MatchOption result (words_behind line.now at ≡ []) (λ word. words_behind line.now at ≡ word.now ∷ words_behind line.now (at + length word.now + 1)) }
    ensures within { IfSome result (λ word. at + length word.now ≤ length line.now) }
{
    if at > line.len() {
        return None;
    }
    let (_, rest) = line.split_at(at);
    match memchr(b' ', rest) {
        Some(end) => {
            let (word, _) = rest.split_at(end);
            Some(word)
        }
        None => Some(rest),
    }
}
