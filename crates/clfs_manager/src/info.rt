// What the log and a stream are like, and what is to be archived: two calls that change nothing and make no call on the disk.
ghost use Rattle.std.specs.Prelude.{◌≡◌, ℕ, Bool, IfOk};
ghost use Rattle.clfs_model.specs.declared.call.Call.TheVariants as calls;
ghost use Rattle.clfs_model.specs.declared.reply.Reply.TheVariants as replies;
ghost use Rattle.clfs_model.specs.Archive.{extents};
ghost use Rattle.clfs_manager.specs.Calls.{Steps};
ghost use Rattle.clfs_manager.specs.Memory.{IsSound};

use crate::log::Log;
use crate::manager::Manager;
use clfs_archive::ends_of_blocks_go_on;
use clfs_disk::Disk;
use clfs_model::{Extents, LogInfo, Refusal, records_are_as_their_heads, ways_of_a_step};
use std::alloc::AllocError;

impl Log {
    // The extents to be archived, none where archiving is off.
    fn all_extents(&self) -> Result<Extents, AllocError>
        requires sound { IsSound self.now }
        ensures { IfOk result (λ list. list ≡ extents self.now.state.value) }
    {
        records_are_as_their_heads();
        ends_of_blocks_go_on();
        let stable = self.flushed();
        let place = self.place();
        self.archive.extents(self.alloc, stable, place.container)
    }
}

impl<D: Disk> Manager<D> {
    /// What the log and the stream of a number are like. `NoSuchStream` where no stream has the number.
    pub fn info(&self, stream: u16) -> Result<LogInfo, Refusal>
        ensures step { (told : Bool) (client : ℕ) → Steps told self.now.0 client (calls.Info stream) replies.Info result self.now.0 }
    {
        ways_of_a_step();
        if self.log.broken {
            return Err(Refusal::Broken);
        }
        let Some(base) = self.log.tables.base(stream) else {
            return Err(Refusal::NoSuchStream);
        };
        let space = self.log.space();
        let containers = space.containers();
        Ok(LogInfo {
            containers,
            free_containers: containers - space.active(),
            container_sectors: self.log.shape().container_sectors,
            free_sectors: space.free(),
            reserved: space.reserved(),
            base,
            last: self.log.tables.last_live(stream),
            flushed: self.log.flushed(),
            restart: self.log.tables.last_restart(stream),
            archive: self.log.archive.tail(),
        })
    }

    /// The parts of containers that are to be archived, in the order of the containers: the blocks on the disk that have a record at or above the
    /// archive tail. `Ephemeral` where archiving is off.
    pub fn extents(&self) -> Result<Extents, Refusal>
        ensures step { (told : Bool) (client : ℕ) → Steps told self.now.0 client calls.ListExtents replies.Extents result self.now.0 }
    {
        ways_of_a_step();
        if self.log.broken {
            return Err(Refusal::Broken);
        }
        if self.log.archive.tail().is_none() {
            return Err(Refusal::Ephemeral);
        }
        let extents = self.log.all_extents()?;
        Ok(extents)
    }
}
