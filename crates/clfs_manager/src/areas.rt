// The calls on areas: making and ending them, giving up what they hold, what records of theirs would take, and ending their cursors. All that
// changes is the table of areas, which no disk has: no call of these reaches the disk, and a crash in one leaves what the disk had. Making an
// area takes memory, before anything changes; no other call here does.
ghost use Rattle.std.specs.Prelude.{◌≡◌, ◌<◌, ◌≤◌, Bool, length, Option, Some, None, IfOk, IfErr};
ghost use Rattle.clfs_manager.specs.Machine.{Area, area_of, create_refusal, in_area, IsClient, most_cursors, Refusal};
ghost use Rattle.clfs_areas.specs.Table.{area_at};
ghost use Rattle.clfs_model.specs.declared.call.Call.TheVariants as calls;
ghost use Rattle.clfs_model.specs.declared.refusal.Refusal.TheVariants as refusals;
ghost use Rattle.clfs_model.specs.declared.reply.Reply.TheVariants as replies;
ghost use Rattle.clfs_manager.specs.Calls.{Steps};
ghost use Rattle.clfs_manager.specs.Memory.{IsSound};

use crate::log::Log;
use crate::manager::Manager;
use crate::survivors::calls_follow_laws;
use clfs_disk::Disk;
use clfs_lsn::{Sizes, longest};
use clfs_model::{Refusal, ways_of_a_step};
use clfs_room::{longer, own_sum};

/// The most areas of a client.
const MOST_AREAS: usize = 16;

impl Log {
    /// Where the client's area of a number stands in the table.
    pub(crate) fn area_place(&self, client: u16, number: u16) -> Result<usize, Refusal>
        requires sound { IsSound self.now }
        ensures within { IfOk result (λ place. place < length self.now.areas.areas) }
        ensures there { IfOk result (λ place. area_of self.now.state.value client number ≡ Some (area_at place self.now.areas.areas)) }
        ensures client { IfOk result (λ place. (area_at place self.now.areas.areas).client ≡ client) }
        ensures number { IfOk result (λ place. (area_at place self.now.areas.areas).number ≡ number) }
        ensures refused { IfErr result (λ refused. refused ≡ refusals.NoSuchArea) }
        ensures none { IfErr result (λ _. area_of self.now.state.value client number ≡ None) }
        ensures found { IfOk result (λ place. (rest : Area → Option Refusal)
            → in_area self.now.state.value client number rest ≡ rest (area_at place self.now.areas.areas)) }
        ensures told { IfErr result (λ refusal. (rest : Area → Option Refusal)
            → in_area self.now.state.value client number rest ≡ Some refusal) }
    {
        match self.areas.place(client, number) {
            Some(place) => Ok(place),
            None => Err(Refusal::NoSuchArea),
        }
    }

    // Why a new area is refused.
    fn create_refusal(&self, client: u16, stream: u16, largest: u32) -> Option<Refusal>
        requires sound { IsSound self.now }
        ensures { result ≡ create_refusal self.now.state.value client stream largest }
    {
        if self.tables.base(stream).is_none() {
            return Some(Refusal::NoSuchStream);
        }
        let max = longest(&self.queue.shape());
        if max < largest {
            return Some(Refusal::RecordTooLong { len: largest, max });
        }
        let count = self.areas.count(client);
        if count >= MOST_AREAS {
            return Some(Refusal::AreaLimit {
                count: count as u32,
            });
        }
        None
    }
}

impl<D: Disk> Manager<D> {
    /// Makes an area of a client on the stream of a number, and gives its number, the least from 1 on that none of the client's areas has. Its
    /// records have so many bytes of data at most, and it may have so many cursors at a time.
    ///
    /// It is refused where no stream has the number, where a record of the largest length doesn't fit a block of the log, and where the client
    /// has 16 areas.
    pub fn create_area(
        &mut self,
        client: u16,
        stream: u16,
        largest: u32,
        reads: u16,
    ) -> Result<u16, Refusal>
        requires client { IsClient client }
        requires reads { (1 ≤ reads) × (reads ≤ most_cursors) }
        ensures step { (told : Bool) → Steps told self.old.0 client (calls.CreateArea stream largest reads) replies.Area result self.new.0 }
        ensures disk { self.new.1 ≡ self.old.1 }
    {
        calls_follow_laws();
        if self.log.broken {
            return Err(Refusal::Broken);
        }
        if let Some(refusal) = self.log.create_refusal(client, stream, largest) {
            return Err(refusal);
        }
        let number = self.log.areas.create(client, stream, largest, reads)?;
        self.log.state = self.log.state.next(&(client, stream, largest, reads));
        Ok(number)
    }

    /// Ends the client's area of a number, with the sectors that it holds and its cursors.
    ///
    /// It is refused where the client has no such area.
    pub fn delete_area(&mut self, client: u16, area: u16) -> Result<(), Refusal>
        requires client { IsClient client }
        ensures step { (told : Bool) → Steps told self.old.0 client (calls.DeleteArea area) (λ _. replies.Done) result self.new.0 }
        ensures disk { self.new.1 ≡ self.old.1 }
    {
        calls_follow_laws();
        if self.log.broken {
            return Err(Refusal::Broken);
        }
        self.log.area_place(client, area)?;
        self.log.areas.delete(client, area);
        self.log.state = self.log.state.next(&(client, area));
        Ok(())
    }

    /// Lets the client's area of a number give up so many of the sectors that it holds, and gives the number of those that it holds then.
    ///
    /// It is refused where the client has no such area, and where the area holds fewer sectors.
    pub fn release(&mut self, client: u16, area: u16, sectors: u32) -> Result<u32, Refusal>
        requires client { IsClient client }
        ensures step { (told : Bool) → Steps told self.old.0 client (calls.Release area sectors) replies.Held result self.new.0 }
        ensures disk { self.new.1 ≡ self.old.1 }
    {
        calls_follow_laws();
        if self.log.broken {
            return Err(Refusal::Broken);
        }
        let place = self.log.area_place(client, area)?;
        let held = self.log.areas.area(place).held;
        if held < sectors {
            return Err(Refusal::ReservationShort {
                held,
                need: sectors,
            });
        }
        self.log.areas.spend(place, sectors);
        self.log.state = self.log.state.next(&(client, area, sectors));
        Ok(held - sectors)
    }

    /// The sectors that records of these lengths, in bytes of data, would take in the client's area of a number, each in a block of its own.
    ///
    /// It is refused where the client has no such area, and where a length is above the area's largest.
    pub fn align(&self, client: u16, area: u16, sizes: &Sizes) -> Result<u32, Refusal>
        requires client { IsClient client }
        ensures step { (told : Bool) → Steps told self.now.0 client (calls.Align area sizes.now) replies.Sectors result self.now.0 }
    {
        ways_of_a_step();
        if self.log.broken {
            return Err(Refusal::Broken);
        }
        let place = self.log.area_place(client, area)?;
        let max = self.log.areas.area(place).largest;
        if let Some(len) = longer(max, sizes.as_slice()) {
            return Err(Refusal::RecordTooLong { len, max });
        }
        Ok(own_sum(sizes.as_slice()))
    }

    /// Ends the cursor of a number of a client's area, whatever it goes over.
    ///
    /// It is refused where the client has no such area, and where the area has no such cursor.
    pub fn end_read(&mut self, client: u16, area: u16, cursor: u16) -> Result<(), Refusal>
        requires client { IsClient client }
        ensures step { (told : Bool) → Steps told self.old.0 client (calls.EndRead area cursor) (λ _. replies.Done) result self.new.0 }
        ensures disk { self.new.1 ≡ self.old.1 }
    {
        calls_follow_laws();
        if self.log.broken {
            return Err(Refusal::Broken);
        }
        let place = self.log.area_place(client, area)?;
        if self.log.areas.cursor(place, cursor).is_none() {
            return Err(Refusal::NoSuchCursor);
        }
        self.log.areas.end_cursor(place, cursor);
        self.log.state = self.log.state.next(&(client, area, cursor));
        Ok(())
    }
}
