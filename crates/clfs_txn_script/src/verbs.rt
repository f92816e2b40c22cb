// The verbs of a table's lines.
ghost use Rattle.std.specs.Prelude.{◌≡◌};
ghost use Rattle.std.specs.Option.{option_map};
ghost use Rattle.clfs_cells.specs.Lines.{txn_verb};
ghost use Rattle.clfs_txn_script.specs.Asked.{verb_of};

// What a line asks for, without the words after it.
#[derive(Clone, Copy, Debug)]
pub(crate) enum Verb {
    Begin,
    Set,
    Back,
    Commit,
    Rollback,
    Get,
    Checkpoint,
}

// The verb that a word names.
pub(crate) fn verb_of_word(word: &[u8]) -> Option<Verb>
    ensures { option_map verb_of result ≡ txn_verb word.now }
{
    match word {
        b"begin" => Some(Verb::Begin),
        b"set" => Some(Verb::Set),
        b"back" => Some(Verb::Back),
        b"commit" => Some(Verb::Commit),
        b"rollback" => Some(Verb::Rollback),
        b"get" => Some(Verb::Get),
        b"checkpoint" => Some(Verb::Checkpoint),
        _ => None,
    }
}
