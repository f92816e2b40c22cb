// Which refusal a call meets first: each function is the chain of tests that the machine's definition makes of one call or of one part of
// several, in its order. A call that is refused has changed nothing yet, and none of the tests makes a call on the disk.
ghost use Rattle.std.specs.Prelude.{◌≡◌, ◌<◌, ◌^◌, Option, IsSome, IfOk, IfErr, Some, None, length};
ghost use Rattle.clfs_manager.specs.Machine.{append_refusal, Area, area_of, in_area, policy_refusal, Refusal, restart_refusal, stream_at, tail_refusal, unless_two_containers};
ghost use Rattle.clfs_areas.specs.Table.{area_at};
ghost use Rattle.clfs_manager.specs.Memory.{IsSound};

use crate::log::Log;
use clfs_lsn::{Lsn, Policy, Sizes};
use clfs_model::{Draft, Refusal};
use clfs_policy::Conflict;
use clfs_room::first_longer;

impl Log {
    // Where the client's area of a number stands, for a call that a log of fewer than two containers takes from no area.
    pub(crate) fn area_for_records(&self, client: u16, number: u16) -> Result<usize, Refusal>
        requires sound { IsSound self.now }
        ensures within { IfOk result (λ place. place < length self.now.areas.areas) }
        ensures there { IfOk result (λ place. area_of self.now.state.value client number ≡ Some (area_at place self.now.areas.areas)) }
        ensures found { IfOk result (λ place. (rest : Area → Option Refusal)
            → unless_two_containers self.now.state.value (in_area self.now.state.value client number rest) ≡ rest (area_at place self.now.areas.areas)) }
        ensures refused { IfErr result (λ refusal. (rest : Area → Option Refusal)
            → unless_two_containers self.now.state.value (in_area self.now.state.value client number rest) ≡ Some refusal) }
    {
        let have = self.containers();
        if have < 2 {
            return Err(Refusal::NotEnoughContainers { have });
        }
        self.area_place(client, number)
    }

    // An append to the stream of the area at a place: the data, then the lengths of records to come, the previous link, the undo-next link,
    // what the area holds, the room.
    pub(crate) fn append_refusal(
        &self,
        place: usize,
        draft: &Draft,
        reserved: bool,
        sizes: &Sizes,
    ) -> Option<Refusal>
        requires sound { IsSound self.now }
        requires place { place < length self.now.areas.areas }
        requires len { length draft.now.bytes < 2 ^ 32 }
        ensures { result ≡ append_refusal self.now.state.value (area_at place self.now.areas.areas) draft.now reserved sizes.now }
    {
        let len = draft.bytes.len() as u32;
        let lengths = sizes.as_slice();
        let area = self.areas.area(place);
        let max = area.largest;
        if let Some(len) = first_longer(max, len, lengths) {
            return Some(Refusal::RecordTooLong { len, max });
        }
        let stream = self.area_stream(place);
        if !self.tables.is_link(stream, draft.previous) {
            return Some(Refusal::LinkInvalid {
                lsn: draft.previous,
            });
        }
        if !self.tables.is_link(stream, draft.undo_next) {
            return Some(Refusal::LinkInvalid {
                lsn: draft.undo_next,
            });
        }
        self.space()
            .record_refusal(area.held, reserved, len, lengths)
    }

    // A restart area of the stream of the area at a place: its data, the new base where there is one, what the area holds, the room.
    pub(crate) fn restart_refusal(
        &self,
        place: usize,
        bytes: &[u8],
        base: Lsn,
        reserved: bool,
    ) -> Option<Refusal>
        requires sound { IsSound self.now }
        requires place { place < length self.now.areas.areas }
        requires len { length bytes.now < 2 ^ 32 }
        ensures { result ≡ restart_refusal self.now.state.value (area_at place self.now.areas.areas) bytes.now base reserved }
    {
        let len = bytes.len() as u32;
        let area = self.areas.area(place);
        let max = area.largest;
        if max < len {
            return Some(Refusal::RecordTooLong { len, max });
        }
        let stream = self.area_stream(place);
        if base != Lsn::null() && !self.tables.is_base(stream, base) {
            return self.tables.base_refusal(stream, base);
        }
        self.space().record_refusal(area.held, reserved, len, &[])
    }

    // A new archive tail.
    pub(crate) fn tail_refusal(&self, lsn: Lsn) -> Option<Refusal>
        requires sound { IsSound self.now }
        ensures { result ≡ tail_refusal self.now.state.value lsn }
    {
        self.archive.tail_refusal(lsn, self.flushed())
    }

    // A policy that is to be installed.
    pub(crate) fn policy_refusal(&self, policy: Policy) -> Option<Refusal>
        requires sound { IsSound self.now }
        ensures { result ≡ policy_refusal self.now.state.value policy }
    {
        let mut policies = self.policies;
        match policies.install(policy) {
            Ok(()) => None,
            Err(Conflict { min, max }) => Some(Refusal::PolicyConflict { min, max }),
        }
    }

    // The number of the stream of the area at a place.
    pub(crate) fn area_stream(&self, place: usize) -> u16
        requires sound { IsSound self.now }
        requires place { place < length self.now.areas.areas }
        ensures value { result ≡ (area_at place self.now.areas.areas).stream }
        ensures there { IsSome (stream_at self.now.state.value result) }
    {
        self.areas.area(place).stream
    }
}
