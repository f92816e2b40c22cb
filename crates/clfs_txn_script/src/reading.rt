// One word of a line each: its value, or the place where the line goes wrong.
ghost use Rattle.std.specs.Prelude.{◌≡◌, ◌<◌, ◌≤◌, IfOk};
ghost use Rattle.clfs_model.specs.Script.{number, ends};
ghost use Rattle.clfs_cells.specs.Lines.{txn_verb, changes_word, txn_word, cell_word, value_word, kept_word};
ghost use Rattle.clfs_script.specs.Asked.{rest_of};
ghost use Rattle.clfs_txn_script.specs.Asked.{Answers, Reads, ReadsVerb};

use crate::verbs::{Verb, verb_of_word};
use clfs_text::{BadWord, Words, decimal_number, long_decimal_number};

// The most sets of a transaction, and the last cell.
const MOST_CHANGES: u32 = 7;

const LAST_CELL: u32 = 31;

// A number from the least to the most.
fn number(words: &mut Words, least: u32, most: u32) -> Result<u32, BadWord>
    ensures read { Reads (number least most) words.old result words.new }
    ensures within { IfOk result (λ n. (least ≤ n) × (n ≤ most)) }
{
    let word = words.take()?;
    match decimal_number(most, word.bytes) {
        Some(number) if number >= least => Ok(number),
        _ => Err(BadWord { at: word.at }),
    }
}

// What a line asks for, without the words after it.
pub(crate) fn verb(words: &mut Words) -> Result<Verb, BadWord>
    ensures { ReadsVerb words.old result words.new }
{
    let word = words.take()?;
    match verb_of_word(word.bytes) {
        Some(verb) => Ok(verb),
        None => Err(BadWord { at: word.at }),
    }
}

// How many sets a transaction makes at most.
pub(crate) fn changes(words: &mut Words) -> Result<u16, BadWord>
    ensures read { Reads changes_word words.old result words.new }
    ensures within { IfOk result (λ n. (1 ≤ n) × (n ≤ 7)) }
{
    let changes = number(words, 1, MOST_CHANGES)?;
    Ok(changes as u16)
}

// A transaction.
pub(crate) fn txn(words: &mut Words) -> Result<u32, BadWord>
    ensures { Reads txn_word words.old result words.new }
{
    number(words, 1, u32::MAX)
}

// A cell.
pub(crate) fn cell(words: &mut Words) -> Result<u16, BadWord>
    ensures read { Reads cell_word words.old result words.new }
    ensures within { IfOk result (λ n. n < 32) }
{
    let cell = number(words, 0, LAST_CELL)?;
    Ok(cell as u16)
}

// How many sets stay.
pub(crate) fn kept(words: &mut Words) -> Result<u16, BadWord>
    ensures { Reads kept_word words.old result words.new }
{
    let kept = number(words, 0, MOST_CHANGES)?;
    Ok(kept as u16)
}

// A cell's value.
pub(crate) fn value(words: &mut Words) -> Result<u64, BadWord>
    ensures { Reads value_word words.old result words.new }
{
    let word = words.take()?;
    match long_decimal_number(u64::MAX, word.bytes) {
        Some(value) => Ok(value),
        None => Err(BadWord { at: word.at }),
    }
}

// This, after which the line ends.
pub(crate) fn ending<T: Drop>(value: T, words: &mut Words) -> Result<T, BadWord>
    ensures read { Answers result (ends value (rest_of words.old)) }
    ensures same { IfOk result (λ v. v ≡ value) }
{
    match words.take() {
        Ok(word) => Err(BadWord { at: word.at }),
        Err(_) => Ok(value),
    }
}
