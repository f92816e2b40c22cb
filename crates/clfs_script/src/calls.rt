// What stands after each verb.
ghost use Rattle.std.specs.Prelude.{Ok, codes};
ghost use Rattle.clfs_model.specs.Script.{ends, area_line, append_line, read_line, restart_line, policy_of, policy_line, call_line, option_word, held_sizes, open_verb, drop_verb, reserve_verb, release_verb, align_verb, flush_verb, flush_to_verb, next_verb, end_verb, read_restart_verb, previous_restart_verb, advance_verb, archive_verb, tail_verb, unpolicy_verb, size_verb, info_verb};
ghost use Rattle.clfs_script.specs.Asked.{rest_of, Answers, AnswersRequest, asked};
ghost use Rattle.clfs_script.specs.Verbs.{verb_of};

use crate::line::{LineRefusal, Request, ScriptLine};
use crate::reading::{
    area, base, cursor, data, ending, kind, link, long, lsn, mode, name, short, stream, switch,
};
use crate::sizes::sizes;
use crate::verbs::Verb;
use clfs_lsn::{Policy, PolicyKind, Sizes};
use clfs_model::{Call, Draft};
use clfs_text::Words;
use std::alloc::Global;

// What a client asks for by a call.
#[inline(always)]
fn asks(client: u16, call: Call) -> Result<ScriptLine, LineRefusal>
    ensures { AnswersRequest result (asked client (Ok call)) }
{
    let request = Request::Step(call);
    Ok(ScriptLine { client, request })
}

// The same of a call after which the line ends.
#[inline(always)]
fn ending_call(client: u16, call: Call, words: &mut Words) -> Result<ScriptLine, LineRefusal>
    ensures { AnswersRequest result (asked client (ends call (rest_of words.old))) }
{
    ending((), words)?;
    asks(client, call)
}

fn area_line(client: u16, words: &mut Words) -> Result<ScriptLine, LineRefusal>
    ensures { AnswersRequest result (asked client (area_line (rest_of words.old))) }
{
    let stream = stream(words)?;
    let largest = long(words)?;
    let reads = cursor(words)?;
    ending_call(
        client,
        Call::CreateArea {
            stream,
            largest,
            reads,
        },
        words,
    )
}

// Sizes where the word `hold` comes next, else none. Most lines end here.
#[inline(always)]
fn held_sizes(alloc: Global, words: &mut Words) -> Result<Sizes, LineRefusal>
    ensures { Answers result (held_sizes (option_word (codes "hold") (rest_of words.old))) }
{
    if words.is_at_end() {
        return Ok(Sizes::none(alloc));
    }
    hold_line(alloc, words)
}

#[inline(never)]
fn hold_line(alloc: Global, words: &mut Words) -> Result<Sizes, LineRefusal>
    ensures { Answers result (held_sizes (option_word (codes "hold") (rest_of words.old))) }
{
    if words.skip(b"hold") {
        sizes(alloc, words)
    } else {
        ending(Sizes::none(alloc), words)
    }
}

fn append_line(alloc: Global, client: u16, words: &mut Words) -> Result<ScriptLine, LineRefusal>
    ensures { AnswersRequest result (asked client (append_line (rest_of words.old))) }
{
    let area = area(words)?;
    let bytes = data(alloc, words)?;
    let previous = link(words)?;
    let undo_next = link(words)?;
    let reserved = words.skip(b"reserved");
    let seal = words.skip(b"seal");
    let flush = words.skip(b"flush");
    let sizes = held_sizes(alloc, words)?;
    let draft = Draft {
        bytes,
        previous,
        undo_next,
        seal,
        flush,
    };
    asks(
        client,
        Call::Append {
            area,
            draft,
            reserved,
            sizes,
        },
    )
}

fn read_line(client: u16, words: &mut Words) -> Result<ScriptLine, LineRefusal>
    ensures { AnswersRequest result (asked client (read_line (rest_of words.old))) }
{
    let area = area(words)?;
    let lsn = lsn(words)?;
    let mode = mode(words)?;
    ending_call(client, Call::Read { area, lsn, mode }, words)
}

fn restart_line(alloc: Global, client: u16, words: &mut Words) -> Result<ScriptLine, LineRefusal>
    ensures { AnswersRequest result (asked client (restart_line (rest_of words.old))) }
{
    let area = area(words)?;
    let bytes = data(alloc, words)?;
    let base = base(words)?;
    let reserved = words.skip(b"reserved");
    ending_call(
        client,
        Call::WriteRestart {
            area,
            bytes,
            base,
            reserved,
        },
        words,
    )
}

// A policy of this kind, with its value.
fn policy_of(client: u16, kind: PolicyKind, words: &mut Words) -> Result<ScriptLine, LineRefusal>
    ensures { AnswersRequest result (asked client (policy_of kind (rest_of words.old))) }
{
    let policy = match kind {
        PolicyKind::Maximum => Policy::Maximum(short(words)?),
        PolicyKind::Minimum => Policy::Minimum(short(words)?),
        PolicyKind::Growth => Policy::Growth(short(words)?),
        PolicyKind::Automatic => Policy::Automatic,
    };
    ending_call(client, Call::InstallPolicy { policy }, words)
}

fn policy_line(client: u16, words: &mut Words) -> Result<ScriptLine, LineRefusal>
    ensures { AnswersRequest result (asked client (policy_line (rest_of words.old))) }
{
    let kind = kind(words)?;
    policy_of(client, kind, words)
}

fn reserve_line(alloc: Global, client: u16, words: &mut Words) -> Result<ScriptLine, LineRefusal>
    ensures { AnswersRequest result (asked client (call_line reserve_verb (rest_of words.old))) }
{
    let area = area(words)?;
    let sizes = sizes(alloc, words)?;
    asks(client, Call::Reserve { area, sizes })
}

fn release_line(client: u16, words: &mut Words) -> Result<ScriptLine, LineRefusal>
    ensures { AnswersRequest result (asked client (call_line release_verb (rest_of words.old))) }
{
    let area = area(words)?;
    let sectors = long(words)?;
    ending_call(client, Call::Release { area, sectors }, words)
}

fn align_line(alloc: Global, client: u16, words: &mut Words) -> Result<ScriptLine, LineRefusal>
    ensures { AnswersRequest result (asked client (call_line align_verb (rest_of words.old))) }
{
    let area = area(words)?;
    let sizes = sizes(alloc, words)?;
    asks(client, Call::Align { area, sizes })
}

fn open_line(alloc: Global, client: u16, words: &mut Words) -> Result<ScriptLine, LineRefusal>
    ensures { AnswersRequest result (asked client (call_line open_verb (rest_of words.old))) }
{
    let name = name(alloc, words)?;
    ending_call(client, Call::OpenStream { name }, words)
}

fn drop_line(client: u16, words: &mut Words) -> Result<ScriptLine, LineRefusal>
    ensures { AnswersRequest result (asked client (call_line drop_verb (rest_of words.old))) }
{
    let area = area(words)?;
    ending_call(client, Call::DeleteArea { area }, words)
}

fn flush_line(client: u16, words: &mut Words) -> Result<ScriptLine, LineRefusal>
    ensures { AnswersRequest result (asked client (call_line flush_verb (rest_of words.old))) }
{
    let area = area(words)?;
    ending_call(client, Call::Flush { area }, words)
}

fn flush_to_line(client: u16, words: &mut Words) -> Result<ScriptLine, LineRefusal>
    ensures { AnswersRequest result (asked client (call_line flush_to_verb (rest_of words.old))) }
{
    let area = area(words)?;
    let lsn = lsn(words)?;
    ending_call(client, Call::FlushTo { area, lsn }, words)
}

fn next_line(client: u16, words: &mut Words) -> Result<ScriptLine, LineRefusal>
    ensures { AnswersRequest result (asked client (call_line next_verb (rest_of words.old))) }
{
    let area = area(words)?;
    let cursor = cursor(words)?;
    ending_call(client, Call::ReadNext { area, cursor }, words)
}

fn end_line(client: u16, words: &mut Words) -> Result<ScriptLine, LineRefusal>
    ensures { AnswersRequest result (asked client (call_line end_verb (rest_of words.old))) }
{
    let area = area(words)?;
    let cursor = cursor(words)?;
    ending_call(client, Call::EndRead { area, cursor }, words)
}

fn read_restart_line(client: u16, words: &mut Words) -> Result<ScriptLine, LineRefusal>
    ensures { AnswersRequest result (asked client (call_line read_restart_verb (rest_of words.old))) }
{
    let area = area(words)?;
    ending_call(client, Call::ReadRestart { area }, words)
}

fn previous_restart_line(client: u16, words: &mut Words) -> Result<ScriptLine, LineRefusal>
    ensures { AnswersRequest result (asked client (call_line previous_restart_verb (rest_of words.old))) }
{
    let area = area(words)?;
    let cursor = cursor(words)?;
    ending_call(client, Call::PreviousRestart { area, cursor }, words)
}

fn advance_line(client: u16, words: &mut Words) -> Result<ScriptLine, LineRefusal>
    ensures { AnswersRequest result (asked client (call_line advance_verb (rest_of words.old))) }
{
    let area = area(words)?;
    let lsn = lsn(words)?;
    ending_call(client, Call::Advance { area, lsn }, words)
}

fn archive_line(client: u16, words: &mut Words) -> Result<ScriptLine, LineRefusal>
    ensures { AnswersRequest result (asked client (call_line archive_verb (rest_of words.old))) }
{
    let on = switch(words)?;
    ending_call(client, Call::SetArchive { on }, words)
}

fn tail_line(client: u16, words: &mut Words) -> Result<ScriptLine, LineRefusal>
    ensures { AnswersRequest result (asked client (call_line tail_verb (rest_of words.old))) }
{
    let lsn = lsn(words)?;
    ending_call(client, Call::SetArchiveTail { lsn }, words)
}

fn unpolicy_line(client: u16, words: &mut Words) -> Result<ScriptLine, LineRefusal>
    ensures { AnswersRequest result (asked client (call_line unpolicy_verb (rest_of words.old))) }
{
    let kind = kind(words)?;
    ending_call(client, Call::RemovePolicy { kind }, words)
}

fn size_line(client: u16, words: &mut Words) -> Result<ScriptLine, LineRefusal>
    ensures { AnswersRequest result (asked client (call_line size_verb (rest_of words.old))) }
{
    let containers = short(words)?;
    ending_call(
        client,
        Call::SetSize {
            containers: containers as u32,
        },
        words,
    )
}

fn info_line(client: u16, words: &mut Words) -> Result<ScriptLine, LineRefusal>
    ensures { AnswersRequest result (asked client (call_line info_verb (rest_of words.old))) }
{
    let stream = stream(words)?;
    ending_call(client, Call::Info { stream }, words)
}

// What stands after a verb.
pub(crate) fn call_line(
    alloc: Global,
    client: u16,
    verb: Verb,
    words: &mut Words,
) -> Result<ScriptLine, LineRefusal>
    ensures { AnswersRequest result (asked client (call_line (verb_of verb) (rest_of words.old))) }
{
    match verb {
        Verb::Open => open_line(alloc, client, words),
        Verb::Area => area_line(client, words),
        Verb::DropArea => drop_line(client, words),
        Verb::Reserve => reserve_line(alloc, client, words),
        Verb::Release => release_line(client, words),
        Verb::Align => align_line(alloc, client, words),
        Verb::Append => append_line(alloc, client, words),
        Verb::Flush => flush_line(client, words),
        Verb::FlushTo => flush_to_line(client, words),
        Verb::Read => read_line(client, words),
        Verb::Next => next_line(client, words),
        Verb::End => end_line(client, words),
        Verb::Restart => restart_line(alloc, client, words),
        Verb::ReadRestart => read_restart_line(client, words),
        Verb::PreviousRestart => previous_restart_line(client, words),
        Verb::Advance => advance_line(client, words),
        Verb::Archive => archive_line(client, words),
        Verb::Tail => tail_line(client, words),
        Verb::Extents => ending_call(client, Call::ListExtents, words),
        Verb::Policy => policy_line(client, words),
        Verb::Unpolicy => unpolicy_line(client, words),
        Verb::Size => size_line(client, words),
        Verb::Info => info_line(client, words),
    }
}
