// Sizes at the end of a line.
ghost use Rattle.clfs_model.specs.Script.{sizes};
ghost use Rattle.clfs_script.specs.Asked.{rest_of, Answers};

use crate::line::LineRefusal;
use crate::reading::{ending, long};
use clfs_lsn::Sizes;
use clfs_text::Words;
use std::alloc::Global;

// One to sixteen sizes, after which the line ends.
pub(crate) fn sizes(alloc: Global, words: &mut Words) -> Result<Sizes, LineRefusal>
    ensures { Answers result (sizes (rest_of words.old)) }
{
    let mut lengths = Vec::with_capacity(alloc, Sizes::MOST)?;
    lengths.push(long(words)?)?;
    while lengths.len() < Sizes::MOST && !words.is_at_end() {
        lengths.push(long(words)?)?;
    }
    ending(Sizes::from_vec(lengths), words)
}
