// The calls that change a disk: as they wait to be carried out, and as clauses see them.
ghost use Rattle.std.specs.Prelude.{◌≡◌, IfOk};
ghost use Rattle.clfs_planned.specs.Calls.{call_of};
ghost use Rattle.clfs_planned.specs.declared.call.Call.TheVariants.{Write};

use std::alloc::{AllocError, Global};
use std::collections::LinkedList;

/// A call that is to be carried out.
#[derive(Drop)]
pub enum PlannedCall {
    /// Writing bytes within a file.
    Write { file: u16, at: u64, bytes: Vec<u8> },
    /// Making a file at least so long, its new part zeros.
    Grow { file: u16, len: u64 },
    /// Syncing all files.
    Sync,
}

// A write with its own copy of the bytes.
pub(crate) fn planned_write(
    alloc: Global,
    file: u16,
    at: u64,
    bytes: &[u8],
) -> Result<PlannedCall, AllocError>
    ensures { IfOk result (λ call. call_of call ≡ Write file at bytes.now) }
{
    let mut copy = Vec::new(alloc);
    copy.extend_from_slice(bytes)?;
    Ok(PlannedCall::Write {
        file,
        at,
        bytes: copy,
    })
}

/// A planned call in the words of clauses. No code makes one.
#[derive(Drop)]
pub enum Call {
    /// Writing bytes within a file.
    Write {
        file: u16,
        at: u64,
        bytes: LinkedList<u8>,
    },
    /// Making a file at least so long.
    Grow {
        file: u16,
        len: u64,
    },
    /// Syncing all files.
    Sync,
}

/// What a disk's files held at first, and all calls that were planned since. No code makes one: it takes no memory.
#[derive(Drop)]
pub struct History {
    /// The bytes of each file.
    pub start: LinkedList<LinkedList<u8>>,
    /// The calls in their order, those that were carried out among them.
    pub calls: LinkedList<Call>,
}
