// Reserving: sectors that an area holds for records to come, so that these are never refused for room. What areas hold is in memory alone; the disk is
// called only where the log grows for it.
ghost use Rattle.std.specs.Prelude.{◌≡◌, ◌<◌, false, length};
ghost use Rattle.clfs_areas.specs.Table.{area_at};
ghost use Rattle.clfs_model.specs.declared.call.Call.TheVariants as calls;
ghost use Rattle.clfs_model.specs.declared.reply.Reply.TheVariants as replies;
ghost use Rattle.clfs_manager.specs.Machine.{calls_disk, hold_sizes, IsClient, IsValid};
ghost use Rattle.clfs_manager.specs.Calls.{WritesAs};
ghost use Rattle.clfs_manager.specs.Memory.{ChangesAreas, IsSound};

use crate::log::Log;
use crate::manager::Manager;
use crate::survivors::calls_follow_laws;
use clfs_disk::Disk;
use clfs_laws::states_between_survive;
use clfs_lsn::Sizes;
use clfs_model::Refusal;
use clfs_physical::PhysicalRefusal;
use clfs_room::own_sum;

impl Log {
    // The area at a place holds the sectors for records of these lengths besides, where there are such.
    pub fn hold_sizes(&mut self, place: usize, sizes: &Sizes)
        requires sound { IsSound self.old }
        requires place { place < length self.old.areas.areas }
        requires valid { IsValid (hold_sizes (area_at place self.old.areas.areas) sizes.now self.old.state.value) }
        ensures state { self.new.state.value ≡ hold_sizes (area_at place self.old.areas.areas) sizes.now self.old.state.value }
        ensures sound { IsSound self.new }
        ensures areas { ChangesAreas self.old self.new }
    {
        if sizes.as_slice().is_empty() {
            return;
        }
        let area = self.areas.area(place);
        let sectors = own_sum(sizes.as_slice());
        self.areas.hold(place, sectors);
        self.state = self.state.next(&(area.client, area.number, sectors));
    }
}

impl<D: Disk> Manager<D> {
    /// Lets the client's area of a number hold the sectors for records of these lengths to come, in bytes of data, each in a block of its own, and gives the
    /// number of those that it holds then. The log grows for them where it has no room and may grow.
    ///
    /// It is refused where the log has fewer than two containers, where the client has no such area, where a length is above the area's largest, and
    /// where there is no room, not even after growth.
    pub fn reserve(&mut self, client: u16, area: u16, sizes: &Sizes) -> Result<u32, Refusal>
        requires client { IsClient client }
        ensures call { WritesAs D.state client (calls.Reserve area sizes.now) replies.Held result self.old self.new }
        ensures quiet { calls_disk self.old.0 (calls.Reserve area sizes.now) ≡ false → self.new.1 ≡ self.old.1 }
    {
        calls_follow_laws();
        if self.log.broken {
            return Err(Refusal::Broken);
        }
        states_between_survive();
        let place = self.log.area_for_records(client, area)?;
        let lengths = sizes.as_slice();
        let row = self.log.areas.area(place);
        if let Some(refusal) = self.log.space().reserve_refusal(row.largest, lengths) {
            return Err(refusal);
        }
        let need = own_sum(lengths);
        match self.log.grow(&mut self.disk, need) {
            Ok(()) => {
                self.log.hold_sizes(place, sizes);
                Ok(row.held + need)
            }
            Err(PhysicalRefusal::DiskFault) => Err(Refusal::DiskFault),
            Err(PhysicalRefusal::NoMemory) => Err(Refusal::NoMemory),
        }
    }
}
