// What takes in the records that the walk finds: each is handed on once, by its head and where its data stand, so that who wants heads alone
// copies nothing.
ghost use Rattle.std.specs.Prelude.{◌≡◌, ◌∷◌, ◌++◌, List, [], length, OnOk};
ghost use Rattle.clfs_lsn.specs.declared.entry.LogEntry.{LogEntry};
ghost use Rattle.clfs_record.specs.Decoding.{entry_with};

use clfs_lsn::Head;
use std::alloc::{AllocError, Global};

/// Something that takes in records one after the other, in the order of their LSNs.
pub trait Gatherer {
    /// It has taken in these records, in this order.
    ghost has: { Self → List LogEntry → Type 0 };

    /// Takes in a record, by its head and its data. After out of memory nothing is said of what it has.
    fn gather(&mut self, alloc: Global, head: &Head, bytes: &[u8]) -> Result<(), AllocError>
        requires { length bytes.now ≡ head.now.len }
        ensures { OnOk result ((before : List LogEntry) → has self.old before → has self.new (before ++ entry_with head.now bytes.now ∷ [])) };
}
