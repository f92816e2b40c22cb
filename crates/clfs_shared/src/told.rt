// A journal that is told to contracts alone: in memory there is no more of it than how many entries each client has. None may have so many that
// those of all can't be counted; so a client's own entries alone can be why it gets no further one.
ghost use Rattle.std.specs.Prelude.{◌≡◌, ◌+◌, ◌<◌, ◌≤◌, ◌∷◌, ◌++◌, [], length};
ghost use Rattle.clfs_model.specs.Journals.{mine};
ghost use Rattle.clfs_shared.specs.Counts.{most_calls};
ghost use Rattle.clfs_shared.specs.Journal.{entry_of};

use crate::recorder::Recorder;
use clfs_model::{Call, Journal, Reply};
use clfs_told::Told;
use std::alloc::{AllocError, Global};
use std::marker::Model;

// One more than the greatest number of a client.
const CLIENTS: usize = 65;

// The most calls of a client. Those of all clients together are below the end of a `u64` then.
const MOST_CALLS: u64 = 1 << 57;

/// How many entries there are, of each client and of all. Contracts see them.
#[derive(Drop)]
pub struct ToldJournal {
    count: u64,
    counts: [u64; CLIENTS],
    entries: Told<Journal>,
}

impl Model for ToldJournal {
    ghost use Rattle.std.specs.Prelude.{List};
    ghost use Rattle.clfs_model.specs.declared.journal.Entry.{Entry};
    ghost use Rattle.clfs_shared.specs.Counts.{IsCounted};

    ghost Value = { List Entry };

    ghost view = { λ j. j.entries.value };

    ghost invariant = { λ j. IsCounted j.count j.counts j.entries.value };
}

// No entries.
fn none() -> Told<Journal>
    ensures { result.value ≡ [] }
{
    Told::pick(&())
}

// One entry more, of a call and its reply.
fn next(entries: &Told<Journal>, client: u16, call: &Call, reply: &Reply) -> Told<Journal>
    ensures { result.value ≡ entries.now.value ++ entry_of client (length (mine entries.now.value client) + 1) call.now reply.now ∷ [] }
{
    entries.next(&(client, call, reply))
}

impl Recorder for ToldJournal {
    type Prepared = ();

    type Journal = ToldJournal;

    ghost entries = { λ j. j };

    ghost is_prepared = { λ j _ client _. length (mine j client) < most_calls };

    ghost may_lack = { λ own. most_calls ≤ length own };

    ghost entries_of = { λ j. j };

    fn new(_alloc: Global, _calls: usize) -> Result<ToldJournal, AllocError> {
        Ok(ToldJournal {
            count: 0,
            counts: [0; CLIENTS],
            entries: none(),
        })
    }

    fn count(&self) -> u64 {
        self.count
    }

    // A client's call too many is answered as memory that isn't there.
    fn prepare(&mut self, client: u16, _call: &Call) -> Result<(), AllocError> {
        if self.counts[client as usize] == MOST_CALLS {
            return Err(AllocError);
        }
        Ok(())
    }

    fn record(&mut self, _prepared: (), client: u16, call: &Call, reply: &Reply) {
        self.count += 1;
        self.counts[client as usize] += 1;
        self.entries = next(&self.entries, client, call, reply);
    }

    fn into_journal(self) -> ToldJournal {
        self
    }
}
