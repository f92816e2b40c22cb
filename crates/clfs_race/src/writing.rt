// The replies of a race, put together: those to lines that ask for nothing, and those of a journal.
ghost use Rattle.std.specs.Prelude.{◌≡◌, ◌++◌, OnOk};
ghost use Rattle.std.specs.List.{flat_map};
ghost use Rattle.clfs_race.specs.Scripts.{bad_line_text, journal_text};

use clfs_lsn::Bytes;
use clfs_model::{Entry, Refusal, Reply};
use clfs_script::write_reply;
use std::alloc::AllocError;

/// Adds the replies to lines that go wrong at these bytes.
pub fn write_bad_lines(places: &[u32], out: &mut Bytes) -> Result<(), AllocError>
    ensures { OnOk result (out.new ≡ out.old ++ flat_map bad_line_text places.now) }
{
    for at in places {
        write_reply(0, &Reply::Refused(Refusal::BadLine { at: *at }), out)?;
    }
    Ok(())
}

/// Adds the replies of a journal.
pub fn write_journal(journal: &[Entry], out: &mut Bytes) -> Result<(), AllocError>
    ensures { OnOk result (out.new ≡ out.old ++ journal_text journal.now) }
{
    for entry in journal {
        write_reply(entry.client, &entry.reply, out)?;
    }
    Ok(())
}
