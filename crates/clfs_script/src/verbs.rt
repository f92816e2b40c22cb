// The verbs of a script.
ghost use Rattle.std.specs.Prelude.{◌≡◌};
ghost use Rattle.std.specs.Option.{option_map};
ghost use Rattle.clfs_model.specs.Script.{verb_word};
ghost use Rattle.clfs_script.specs.Verbs.{verb_of, verb_among, four_letters, seven_letters, other_letters};

// What a client's line asks for, without the words after it.
#[derive(Clone, Copy, Debug)]
pub(crate) enum Verb {
    Open,
    Area,
    DropArea,
    Reserve,
    Release,
    Align,
    Append,
    Flush,
    FlushTo,
    Read,
    Next,
    End,
    Restart,
    ReadRestart,
    PreviousRestart,
    Advance,
    Archive,
    Tail,
    Extents,
    Policy,
    Unpolicy,
    Size,
    Info,
}

// The verb that a word names. Most verbs have four or seven letters, so a word's length comes first.
pub(crate) fn verb_of_word(word: &[u8]) -> Option<Verb>
    ensures { option_map verb_of result ≡ verb_word word.now }
{
    match word.len() {
        4 => verb_of_four(word),
        7 => verb_of_seven(word),
        _ => verb_of_others(word),
    }
}

fn verb_of_four(word: &[u8]) -> Option<Verb>
    ensures { option_map verb_of result ≡ verb_among four_letters word.now }
{
    match word {
        b"open" => Some(Verb::Open),
        b"area" => Some(Verb::Area),
        b"drop" => Some(Verb::DropArea),
        b"read" => Some(Verb::Read),
        b"next" => Some(Verb::Next),
        b"tail" => Some(Verb::Tail),
        b"size" => Some(Verb::Size),
        b"info" => Some(Verb::Info),
        _ => None,
    }
}

fn verb_of_seven(word: &[u8]) -> Option<Verb>
    ensures { option_map verb_of result ≡ verb_among seven_letters word.now }
{
    match word {
        b"reserve" => Some(Verb::Reserve),
        b"release" => Some(Verb::Release),
        b"flushto" => Some(Verb::FlushTo),
        b"restart" => Some(Verb::Restart),
        b"advance" => Some(Verb::Advance),
        b"archive" => Some(Verb::Archive),
        b"extents" => Some(Verb::Extents),
        _ => None,
    }
}

fn verb_of_others(word: &[u8]) -> Option<Verb>
    ensures { option_map verb_of result ≡ verb_among other_letters word.now }
{
    match word {
        b"align" => Some(Verb::Align),
        b"append" => Some(Verb::Append),
        b"flush" => Some(Verb::Flush),
        b"end" => Some(Verb::End),
        b"readrestart" => Some(Verb::ReadRestart),
        b"prevrestart" => Some(Verb::PreviousRestart),
        b"policy" => Some(Verb::Policy),
        b"unpolicy" => Some(Verb::Unpolicy),
        _ => None,
    }
}
