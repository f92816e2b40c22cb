// What a whole line asks for.
ghost use Rattle.std.specs.Prelude.{◌≤◌, IfOk, length};
ghost use Rattle.clfs_cells.specs.declared.asked.TxnCall.TheVariants as asked;
ghost use Rattle.clfs_cells.specs.Lines.{changes_word, txn_word, cell_word, one_word, set_line, back_line, behind_verb, txn_call_in};
ghost use Rattle.clfs_script.specs.Asked.{rest_of};
ghost use Rattle.clfs_txn_script.specs.Asked.{Answers, IsInRange, verb_of};

use crate::reading::{cell, changes, ending, kept, txn, value, verb};
use crate::verbs::Verb;
use clfs_cells::TxnCall;
use clfs_text::{BadWord, Words};

fn begin_line(words: &mut Words) -> Result<TxnCall, BadWord>
    ensures read { Answers result (one_word changes_word (λ changes. asked.Begin changes) (rest_of words.old)) }
    ensures ranges { IfOk result (λ call. IsInRange call) }
{
    let changes = changes(words)?;
    ending(TxnCall::Begin { changes }, words)
}

fn set_line(words: &mut Words) -> Result<TxnCall, BadWord>
    ensures read { Answers result (set_line (rest_of words.old)) }
    ensures ranges { IfOk result (λ call. IsInRange call) }
{
    let txn = txn(words)?;
    let cell = cell(words)?;
    let value = value(words)?;
    ending(TxnCall::Set { txn, cell, value }, words)
}

fn back_line(words: &mut Words) -> Result<TxnCall, BadWord>
    ensures read { Answers result (back_line (rest_of words.old)) }
    ensures ranges { IfOk result (λ call. IsInRange call) }
{
    let txn = txn(words)?;
    let kept = kept(words)?;
    ending(TxnCall::Back { txn, kept }, words)
}

fn commit_line(words: &mut Words) -> Result<TxnCall, BadWord>
    ensures read { Answers result (one_word txn_word (λ txn. asked.Commit txn) (rest_of words.old)) }
    ensures ranges { IfOk result (λ call. IsInRange call) }
{
    let txn = txn(words)?;
    ending(TxnCall::Commit { txn }, words)
}

fn rollback_line(words: &mut Words) -> Result<TxnCall, BadWord>
    ensures read { Answers result (one_word txn_word (λ txn. asked.Rollback txn) (rest_of words.old)) }
    ensures ranges { IfOk result (λ call. IsInRange call) }
{
    let txn = txn(words)?;
    ending(TxnCall::Rollback { txn }, words)
}

fn get_line(words: &mut Words) -> Result<TxnCall, BadWord>
    ensures read { Answers result (one_word cell_word (λ cell. asked.Get cell) (rest_of words.old)) }
    ensures ranges { IfOk result (λ call. IsInRange call) }
{
    let cell = cell(words)?;
    ending(TxnCall::Get { cell }, words)
}

// What stands after a verb.
fn behind_verb(verb: Verb, words: &mut Words) -> Result<TxnCall, BadWord>
    ensures read { Answers result (behind_verb (verb_of verb) (rest_of words.old)) }
    ensures ranges { IfOk result (λ call. IsInRange call) }
{
    match verb {
        Verb::Begin => begin_line(words),
        Verb::Set => set_line(words),
        Verb::Back => back_line(words),
        Verb::Commit => commit_line(words),
        Verb::Rollback => rollback_line(words),
        Verb::Get => get_line(words),
        Verb::Checkpoint => ending(TxnCall::Checkpoint, words),
    }
}

/// What a line asks for, or the place where it goes wrong: the first byte of the first word that no form allows, or the line's length if words lack.
/// The line comes without its carriage return.
pub fn parse_txn_line(line: &[u8]) -> Result<TxnCall, BadWord>
    requires { length line.now ≤ 4294967295 }
    ensures read { Answers result (txn_call_in line.now) }
    ensures ranges { IfOk result (λ call. IsInRange call) }
{
    let mut words = Words::of(line);
    let verb = verb(&mut words)?;
    behind_verb(verb, &mut words)
}
