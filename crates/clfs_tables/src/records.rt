// What the tables answer of the records of a state, where the definitions speak of a state and not of heads.
ghost use Rattle.std.specs.Prelude.{◌≡◌, is_some};
ghost use Rattle.clfs_model.specs.declared.state.State.{State};
ghost use Rattle.clfs_model.specs.Live.{last_live, live_at, lsn_or_null};
ghost use Rattle.clfs_model.specs.Reading.{newest_restart};
ghost use Rattle.clfs_model.specs.State.{base_of};
ghost use Rattle.clfs_tables.specs.Tables.{IsNumber, OfStates};

use crate::tables::Tables;
use clfs_lsn::Lsn;
use clfs_model::records_are_as_their_heads;

impl Tables {
    // The base of a stream, or null where there is no such stream.
    pub(crate) fn base_or_null(&self, stream: u16) -> Lsn
        ensures { (s : State) → s.streams ≡ self.now.streams → result ≡ base_of s stream }
    {
        self.base(stream).unwrap_or(Lsn::null())
    }

    // Whether an LSN is that of a live record of a stream.
    pub(crate) fn is_live_at(&self, stream: u16, lsn: Lsn) -> bool
        requires there { IsNumber self.now.streams stream }
        ensures { OfStates self.now (λ s. result ≡ is_some (live_at s stream lsn)) }
    {
        self.live_at(stream, lsn).is_some()
    }

    /// The last live LSN of a stream, or null.
    pub fn last_live(&self, stream: u16) -> Lsn
        requires there { IsNumber self.now.streams stream }
        ensures { OfStates self.now (λ s. result ≡ last_live s stream) }
    {
        records_are_as_their_heads();
        match self.last(stream) {
            Some(head) => head.lsn,
            None => Lsn::null(),
        }
    }

    /// The LSN of the newest live restart area of a stream, or null.
    pub fn last_restart(&self, stream: u16) -> Lsn
        requires there { IsNumber self.now.streams stream }
        ensures { OfStates self.now (λ s. result ≡ lsn_or_null (newest_restart s stream)) }
    {
        match self.newest_restart(stream) {
            Some(head) => head.lsn,
            None => Lsn::null(),
        }
    }
}
