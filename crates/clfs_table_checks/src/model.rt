use clfs_lsn::{Bytes, Lsn, Name, Sizes};
use clfs_model::{Call, Draft, Entry, Extent, Extents, Happened, Journal, Reply};
use std::alloc::{AllocError, Global};

// A draft with all that one can have.
fn draft(alloc: Global) -> Result<Draft, AllocError> {
    Ok(Draft {
        bytes: Bytes::from_vec([7, 8, 9].to_vec(alloc)?),
        previous: Lsn::of_number(5),
        undo_next: Lsn::of_number(6),
        seal: true,
        flush: false,
    })
}

fn append(alloc: Global, draft: Draft) -> Result<Call, AllocError> {
    Ok(Call::Append {
        area: 2,
        draft,
        reserved: true,
        sizes: Sizes::from_vec([10, 20].to_vec(alloc)?),
    })
}

fn opening(alloc: Global) -> Result<Call, AllocError> {
    Ok(Call::OpenStream {
        name: Name::from_vec(b"undo".to_vec(alloc)?),
    })
}

const EXTENT: Extent = Extent {
    container: 3,
    low: 512,
    high: 1024,
};

fn extents(alloc: Global) -> Result<Reply, AllocError> {
    Ok(Reply::Extents(Extents::from_vec([EXTENT].to_vec(alloc)?)))
}

fn entry(number: u64, call: Call, reply: Reply) -> Entry {
    Entry {
        client: 9,
        number,
        call,
        happened: Happened::Fine,
        reply,
    }
}

// An append, and the extents and the number of a stream as replies.
fn journal_of_three(alloc: Global) -> Result<Journal, AllocError> {
    let mut entries = Vec::new(alloc);
    entries.push(entry(1, append(alloc, draft(alloc)?)?, Reply::Done))?;
    entries.push(entry(2, opening(alloc)?, Reply::Stream(4)))?;
    entries.push(entry(3, Call::ListExtents, extents(alloc)?))?;
    Ok(Journal::from_vec(entries))
}

// It's the append of above.
fn is_append(call: &Call) -> bool {
    match call {
        Call::Append { draft, sizes, .. } => {
            draft.bytes.as_slice() == [7, 8, 9].as_slice()
                && sizes.as_slice() == [10, 20].as_slice()
        }
        _ => false,
    }
}

fn is_opening(call: &Call) -> bool {
    match call {
        Call::OpenStream { name } => name.as_slice() == b"undo".as_slice(),
        _ => false,
    }
}

fn are_extents(reply: &Reply) -> bool {
    match reply {
        Reply::Extents(extents) => extents.as_slice() == [EXTENT].as_slice(),
        _ => false,
    }
}

fn has_all(journal: &Journal) -> bool {
    match journal.as_slice() {
        [first, second, third] => {
            is_append(&first.call) && is_opening(&second.call) && are_extents(&third.reply)
        }
        _ => false,
    }
}

// A copy has all that its journal has, also when that one is gone.
#[test]
fn a_copy_of_a_journal_has_all_of_it(rt: HostRuntime) -> Result<(), AllocError> {
    let journal = journal_of_three(rt.alloc())?;
    let copy = journal.clone()?;
    drop(journal);
    assert!(rt; has_all(&copy));
    Ok(())
}
