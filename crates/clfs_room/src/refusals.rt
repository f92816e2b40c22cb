// Which refusal a call meets for want of space, or of what an area holds: each function is one chain of tests of the machine's definitions, in its order.
ghost use Rattle.std.specs.Prelude.{◌≡◌, ◌<◌, ◌≤◌, ◌^◌, length};
ghost use Rattle.clfs_lsn.specs.Limits.{most_sizes};
ghost use Rattle.clfs_model.specs.declared.state.Area.{Area};
ghost use Rattle.clfs_model.specs.Put.{need_of, spent_of};
ghost use Rattle.clfs_model.specs.Refusals.{full, short, size_refusal, too_long};
ghost use Rattle.clfs_model.specs.Space.{own_sum};

use crate::lengths::{longer, need_of, own_sum, spent_of};
use crate::space::Space;
use clfs_model::Refusal;

impl Space {
    /// That there is no room for what a call needs, not even after growth.
    pub fn full(&self, need: u32) -> Option<Refusal>
        requires need { need < 2 ^ 31 }
        ensures { result ≡ full self.now need }
    {
        let reserved = self.reserved();
        let free = self.room_for(need).free;
        if reserved + need <= free {
            return None;
        }
        Some(Refusal::Full {
            free,
            reserved,
            need,
        })
    }

    /// Why an area that holds so many sectors takes no record of this length, with those to come: what it holds, then the room.
    pub fn record_refusal(
        &self,
        held: u32,
        reserved: bool,
        len: u32,
        sizes: &[u32],
    ) -> Option<Refusal>
        requires few { length sizes.now ≤ most_sizes }
        ensures { (area : Area) → area.held ≡ held
            → result ≡ short area (spent_of reserved len) (full self.now (need_of reserved len sizes.now)) }
    {
        let spent = spent_of(reserved, len);
        if held < spent {
            return Some(Refusal::ReservationShort { held, need: spent });
        }
        self.full(need_of(reserved, len, sizes))
    }

    /// Why nothing is reserved for records of these lengths, where the greatest may be so long: the lengths, then the room.
    pub fn reserve_refusal(&self, greatest: u32, sizes: &[u32]) -> Option<Refusal>
        requires few { length sizes.now ≤ most_sizes }
        ensures { result ≡ too_long greatest sizes.now (full self.now (own_sum sizes.now)) }
    {
        if let Some(len) = longer(greatest, sizes) {
            return Some(Refusal::RecordTooLong { len, max: greatest });
        }
        self.full(own_sum(sizes))
    }

    /// Why the log doesn't get this number of containers.
    pub fn size_refusal(&self, asked: u32) -> Option<Refusal>
        ensures { result ≡ size_refusal self.now asked }
    {
        let have = self.containers();
        let limit = self.size_limit();
        if have < asked && limit < asked {
            return Some(Refusal::ContainerLimit { limit });
        }
        let need = self.needed_containers();
        if asked < have && asked < need {
            return Some(Refusal::CantShrink {
                active: self.active(),
                need,
            });
        }
        None
    }
}
