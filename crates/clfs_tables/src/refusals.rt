// Why a call is refused, where streams and records alone decide it: a name, a link of a record, a new base.
ghost use Rattle.std.specs.Prelude.{◌≡◌, ◌&&◌, Option, Some, None, length, nat_le};
ghost use Rattle.clfs_lsn.specs.Limits.{most_streams};
ghost use Rattle.clfs_model.specs.declared.refusal.Refusal.{Refusal};
ghost use Rattle.clfs_model.specs.declared.refusal.Refusal.TheVariants.{Dedicated, StreamLimit};
ghost use Rattle.clfs_model.specs.declared.state.State.{State};
ghost use Rattle.clfs_model.specs.Refusals.{invalid_base, is_base, is_link, open_refusal, refused_if};
ghost use Rattle.clfs_tables.specs.Tables.{IsNumber, OfStates};

use crate::names::name_fault;
use crate::tables::Tables;
use clfs_lsn::{Lsn, MOST_STREAMS};
use clfs_model::Refusal;

impl Tables {
    /// Why a stream isn't opened: its name; then, if a stream is to be made, that a dedicated log has one, and the number of streams.
    pub fn open_refusal(&self, name: &[u8], dedicated: bool) -> Option<Refusal>
        ensures { (s : State) → s.streams ≡ self.now.streams → s.dedicated ≡ dedicated → result ≡ open_refusal s name.now }
    {
        if let Some(at) = name_fault(name) {
            return Some(Refusal::NameInvalid { at });
        }
        if self.number(name).is_some() {
            return None;
        }
        self.stream_refusal(dedicated)
    }

    // Why no stream is made: a dedicated log has its one stream, or the log has as many as it can.
    fn stream_refusal(&self, dedicated: bool) -> Option<Refusal>
        ensures { result ≡ refused_if (dedicated && nat_le 1 (length self.now.streams)) Dedicated
            (refused_if (nat_le most_streams (length self.now.streams)) (StreamLimit (length self.now.streams)) None) }
    {
        let count = self.len();
        if dedicated && 1 <= count {
            return Some(Refusal::Dedicated);
        }
        if count < MOST_STREAMS as usize {
            return None;
        }
        Some(Refusal::StreamLimit {
            count: count as u32,
        })
    }

    /// Whether a link of a record is one: null, or below the base of the record's stream, or the LSN of a live record of it.
    pub fn is_link(&self, stream: u16, link: Lsn) -> bool
        requires there { IsNumber self.now.streams stream }
        ensures { OfStates self.now (λ s. result ≡ is_link s stream link) }
    {
        if link == Lsn::null() || link < self.base_or_null(stream) {
            return true;
        }
        self.is_live_at(stream, link)
    }

    /// Whether a new base is one: the LSN of a live record of the stream, or the one after the last.
    pub fn is_base(&self, stream: u16, lsn: Lsn) -> bool
        requires there { IsNumber self.now.streams stream }
        ensures { OfStates self.now (λ s. result ≡ is_base s stream lsn) }
    {
        if self.is_live_at(stream, lsn) {
            return true;
        }
        let last = self.last_live(stream);
        if last == Lsn::null() {
            return false;
        }
        match last.next() {
            Some(next) => lsn == next,
            None => false,
        }
    }

    /// Why a base of a stream doesn't move to an LSN.
    pub fn base_refusal(&self, stream: u16, lsn: Lsn) -> Option<Refusal>
        requires there { IsNumber self.now.streams stream }
        ensures { OfStates self.now (λ s. result ≡ invalid_base s stream lsn None) }
    {
        if self.is_base(stream, lsn) {
            return None;
        }
        Some(Refusal::TailInvalid {
            lsn,
            base: self.base_or_null(stream),
            last: self.last_live(stream),
        })
    }
}
