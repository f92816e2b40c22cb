// How a shared log keeps its journal: as entries in memory, or told to contracts alone.
ghost use Rattle.std.specs.Prelude.{◌≡◌, ℕ, ◌+◌, ◌<◌, List, [], ◌∷◌, ◌++◌, length, IfOk, OnErr};
ghost use Rattle.clfs_model.specs.declared.call.Call.{Call};
ghost use Rattle.clfs_model.specs.declared.journal.Entry.{Entry};
ghost use Rattle.clfs_model.specs.Journals.{mine};
ghost use Rattle.clfs_shared.specs.Journal.{entry_of};
ghost use Rattle.clfs_shared.specs.Rooms.{FitsSpare};

use clfs_model::{Call, Reply};
use std::alloc::{AllocError, Global};

/// A journal that grows by an entry for each call. What an entry takes is there before its call is made, so that recording can't fail.
pub trait Recorder: Drop {
    /// What is taken for an entry before its call is made.
    type Prepared: Drop;

    /// What closing a log hands out.
    type Journal: Drop;

    // The entries so far.
    ghost entries: { Self → List Entry };

    // What was prepared suffices for the entry of this call of a client.
    ghost is_prepared: { Self → Self.Prepared → ℕ → Call → Type 0 };

    // Room for one entry more of a client may lack, where these are those that it has.
    ghost may_lack: { List Entry → Type 0 };

    // The entries of a journal that was handed out.
    ghost entries_of: { Self.Journal → List Entry };

    /// No entries, and if they are kept, room for those of so many calls. It takes the memory that it needs of `alloc`.
    fn new(alloc: Global, calls: usize) -> Result<Self, AllocError>
        ensures { IfOk result (λ journal. entries journal ≡ []) };

    /// How many entries there are.
    fn count(&self) -> u64
        ensures { result ≡ length (entries self.now) };

    /// Takes what the entry of a call needs, whatever the reply.
    fn prepare(&mut self, client: u16, call: &Call) -> Result<Self::Prepared, AllocError>
        requires client { client < 65 }
        ensures same { entries self.new ≡ entries self.old }
        ensures ready { IfOk result (λ prepared. is_prepared self.new prepared client call.now) }
        ensures lacks { OnErr result (may_lack (mine (entries self.old) client)) };

    /// Adds the entry of a call that was made.
    fn record(&mut self, prepared: Self::Prepared, client: u16, call: &Call, reply: &Reply)
        requires client { client < 65 }
        requires small { FitsSpare reply.now }
        requires ready { is_prepared self.old prepared client call.now }
        ensures { entries self.new ≡ entries self.old ++ entry_of client (length (mine (entries self.old) client) + 1) call.now reply.now ∷ [] };

    /// The journal.
    fn into_journal(self) -> Self::Journal
        ensures { entries_of result ≡ entries self };
}
