// One word of a line each: its value, or the place where the line goes wrong.
ghost use Rattle.std.specs.Prelude.{◌≡◌, ◌≤◌, IfOk};
ghost use Rattle.clfs_model.specs.Script.{number, client_word, area_word, cursor_word, stream_word, short_word, long_word, name_word, base_word, mode_word, switch_word, kind_word, ends};
ghost use Rattle.clfs_lsn.specs.Words.{lsn_of_word, data_of_word};
ghost use Rattle.clfs_script.specs.Asked.{rest_of, Answers, Reads};

use crate::line::LineRefusal;
use clfs_lsn::{Bytes, Lsn, Name, PolicyKind};
use clfs_model::Mode;
use clfs_text::{Words, data_of_word, decimal_number, lsn_of_word};
use std::alloc::Global;

// The highest numbers of a client, of one of its areas and of one of an area's cursors.
const MOST_CLIENTS: u32 = 64;

const MOST_AREAS: u32 = 16;

const MOST_CURSORS: u32 = 16;

// A number from the least to the most.
fn number(words: &mut Words, least: u32, most: u32) -> Result<u32, LineRefusal>
    ensures read { Reads (number least most) words.old result words.new }
    ensures within { IfOk result (λ n. n ≤ most) }
{
    let word = words.take()?;
    match decimal_number(most, word.bytes) {
        Some(number) if number >= least => Ok(number),
        _ => Err(LineRefusal::BadLine { at: word.at }),
    }
}

pub(crate) fn client(words: &mut Words) -> Result<u16, LineRefusal>
    ensures { Reads client_word words.old result words.new }
{
    let client = number(words, 1, MOST_CLIENTS)?;
    Ok(client as u16)
}

pub(crate) fn area(words: &mut Words) -> Result<u16, LineRefusal>
    ensures { Reads area_word words.old result words.new }
{
    let area = number(words, 1, MOST_AREAS)?;
    Ok(area as u16)
}

pub(crate) fn cursor(words: &mut Words) -> Result<u16, LineRefusal>
    ensures { Reads cursor_word words.old result words.new }
{
    let cursor = number(words, 1, MOST_CURSORS)?;
    Ok(cursor as u16)
}

pub(crate) fn stream(words: &mut Words) -> Result<u16, LineRefusal>
    ensures { Reads stream_word words.old result words.new }
{
    let stream = number(words, 1, u16::MAX as u32)?;
    Ok(stream as u16)
}

pub(crate) fn short(words: &mut Words) -> Result<u16, LineRefusal>
    ensures { Reads short_word words.old result words.new }
{
    let number = number(words, 0, u16::MAX as u32)?;
    Ok(number as u16)
}

pub(crate) fn long(words: &mut Words) -> Result<u32, LineRefusal>
    ensures { Reads long_word words.old result words.new }
{
    number(words, 0, u32::MAX)
}

pub(crate) fn name(alloc: Global, words: &mut Words) -> Result<Name, LineRefusal>
    ensures { Reads name_word words.old result words.new }
{
    let word = words.take()?;
    if word.bytes.is_empty() {
        return Err(LineRefusal::BadLine { at: word.at });
    }
    let bytes = Vec::from_slice(alloc, word.bytes)?;
    Ok(Name::from_vec(bytes))
}

#[inline(always)]
pub(crate) fn data(alloc: Global, words: &mut Words) -> Result<Bytes, LineRefusal>
    ensures { Reads data_of_word words.old result words.new }
{
    let word = words.take_long()?;
    match data_of_word(alloc, word.bytes)? {
        Some(bytes) => Ok(bytes),
        None => Err(LineRefusal::BadLine { at: word.at }),
    }
}

pub(crate) fn lsn(words: &mut Words) -> Result<Lsn, LineRefusal>
    ensures { Reads lsn_of_word words.old result words.new }
{
    let word = words.take()?;
    match lsn_of_word(word.bytes) {
        Some(lsn) => Ok(lsn),
        None => Err(LineRefusal::BadLine { at: word.at }),
    }
}

// Most links are null, so that text comes first.
fn link_of_word(word: &[u8]) -> Option<Lsn>
    ensures { result ≡ lsn_of_word word.now }
{
    match word {
        b"0:0:0" => Some(Lsn::null()),
        _ => lsn_of_word(word),
    }
}

// The LSN of a record that another names, or null.
pub(crate) fn link(words: &mut Words) -> Result<Lsn, LineRefusal>
    ensures { Reads lsn_of_word words.old result words.new }
{
    let word = words.take()?;
    match link_of_word(word.bytes) {
        Some(lsn) => Ok(lsn),
        None => Err(LineRefusal::BadLine { at: word.at }),
    }
}

fn base_of_word(word: &[u8]) -> Option<Lsn>
    ensures { result ≡ base_word word.now }
{
    if word == b"-".as_slice() {
        return Some(Lsn::null());
    }
    lsn_of_word(word)
}

pub(crate) fn base(words: &mut Words) -> Result<Lsn, LineRefusal>
    ensures { Reads base_word words.old result words.new }
{
    let word = words.take()?;
    match base_of_word(word.bytes) {
        Some(base) => Ok(base),
        None => Err(LineRefusal::BadLine { at: word.at }),
    }
}

fn mode_of_word(word: &[u8]) -> Option<Mode>
    ensures { result ≡ mode_word word.now }
{
    match word {
        b"previous" => Some(Mode::Previous),
        b"undo" => Some(Mode::UndoNext),
        b"forward" => Some(Mode::Forward),
        _ => None,
    }
}

pub(crate) fn mode(words: &mut Words) -> Result<Mode, LineRefusal>
    ensures { Reads mode_word words.old result words.new }
{
    let word = words.take()?;
    match mode_of_word(word.bytes) {
        Some(mode) => Ok(mode),
        None => Err(LineRefusal::BadLine { at: word.at }),
    }
}

fn switch_of_word(word: &[u8]) -> Option<bool>
    ensures { result ≡ switch_word word.now }
{
    match word {
        b"on" => Some(true),
        b"off" => Some(false),
        _ => None,
    }
}

// `on` or `off`.
pub(crate) fn switch(words: &mut Words) -> Result<bool, LineRefusal>
    ensures { Reads switch_word words.old result words.new }
{
    let word = words.take()?;
    match switch_of_word(word.bytes) {
        Some(on) => Ok(on),
        None => Err(LineRefusal::BadLine { at: word.at }),
    }
}

fn kind_of_word(word: &[u8]) -> Option<PolicyKind>
    ensures { result ≡ kind_word word.now }
{
    match word {
        b"max" => Some(PolicyKind::Maximum),
        b"min" => Some(PolicyKind::Minimum),
        b"growth" => Some(PolicyKind::Growth),
        b"auto" => Some(PolicyKind::Automatic),
        _ => None,
    }
}

// A kind of policy.
pub(crate) fn kind(words: &mut Words) -> Result<PolicyKind, LineRefusal>
    ensures { Reads kind_word words.old result words.new }
{
    let word = words.take()?;
    match kind_of_word(word.bytes) {
        Some(kind) => Ok(kind),
        None => Err(LineRefusal::BadLine { at: word.at }),
    }
}

// This, after which the line ends.
#[inline(always)]
pub(crate) fn ending<T: Drop>(value: T, words: &mut Words) -> Result<T, LineRefusal>
    ensures { Answers result (ends value (rest_of words.old)) }
{
    match words.take() {
        Ok(word) => Err(LineRefusal::BadLine { at: word.at }),
        Err(_) => Ok(value),
    }
}
