// A journal that is kept in memory.
ghost use Rattle.std.specs.Prelude.{◌≡◌, ◌<◌, ◌≤◌};
ghost use Rattle.clfs_lsn.specs.Limits.{most_containers};
ghost use Rattle.clfs_lsn.specs.Size.{most_data};

use crate::copies::{Spare, copied_call};
use crate::entries::Entries;
use crate::recorder::Recorder;
use clfs_model::{Call, Entry, Journal, Reply};
use std::alloc::{AllocError, Global};

/// Entries, with memory for the next one.
#[derive(Drop)]
pub struct KeptJournal {
    entries: Entries,
    spare: Spare,
}

impl Recorder for KeptJournal {
    // The entry's copy of the call.
    type Prepared = Call;

    type Journal = Journal;

    ghost entries = { λ r. r.entries.0 };

    ghost is_prepared = { λ r kept _ call. (kept ≡ call) × (0 < r.entries.1) × (most_data ≤ r.spare.0) × (most_containers ≤ r.spare.1) };

    ghost may_lack = { λ _. Unit };

    ghost entries_of = { λ journal. journal };

    fn new(alloc: Global, calls: usize) -> Result<KeptJournal, AllocError> {
        Ok(KeptJournal {
            entries: Entries::new(alloc, calls)?,
            spare: Spare::new(alloc),
        })
    }

    fn count(&self) -> u64 {
        self.entries.count()
    }

    fn prepare(&mut self, _client: u16, call: &Call) -> Result<Call, AllocError> {
        self.entries.make_room()?;
        self.spare.fill()?;
        copied_call(call)
    }

    fn record(&mut self, prepared: Call, client: u16, call: &Call, reply: &Reply) {
        let _call = call;
        let entry = Entry {
            client,
            number: self.entries.next_number(client),
            call: prepared,
            happened: reply.happened(),
            reply: self.spare.reply_of(reply),
        };
        self.entries.push(entry);
    }

    fn into_journal(self) -> Journal {
        let KeptJournal { entries, spare: _ } = self;
        entries.into_journal()
    }
}
