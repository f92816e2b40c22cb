// How much of a log is kept in memory of its records. Memory forgets what lies in containers below the hold's wherever the hold comes to a further one:
// at most as much is left there as is kept from there on.
ghost use Rattle.std.specs.Prelude.{true, is_some, length};
ghost use Rattle.clfs_manager.specs.Machine.{heads_from, heads_of, stream_at, stream_heads};
ghost use Rattle.clfs_tables.specs.Tables.{restarts_of};
ghost use Rattle.clfs_manager.specs.Keeping.{KeepsFew};
ghost use Rattle.clfs_manager.specs.Memory.{hold_start, lasts_needed};

use crate::manager::Manager;
use clfs_disk::Disk;

impl<D: Disk> Manager<D> {
    /// How many heads of a stream's records are kept in memory, dead ones among them: those of all records in the container of the least LSN that the log
    /// still needs and after it, and at most as many more. `None` if no stream has the number, or the log is broken.
    pub fn records_kept(&self, stream: u16) -> Option<usize>
        ensures { KeepsFew self.now.0 (is_some (stream_at self.now.0 stream))
            (length (heads_from (hold_start self.now.0) (stream_heads stream (heads_of self.now.0)))) result }
    {
        if self.log.broken {
            return None;
        }
        self.log.tables.base(stream)?;
        Some(self.log.tables.records_kept(stream))
    }

    /// How many heads of a stream's restart areas are kept in memory beside those of its records: those of all restart areas there, and at most as many
    /// more. `None` if no stream has the number, or the log is broken.
    pub fn restarts_kept(&self, stream: u16) -> Option<usize>
        ensures { KeepsFew self.now.0 (is_some (stream_at self.now.0 stream))
            (length (heads_from (hold_start self.now.0) (restarts_of (stream_heads stream (heads_of self.now.0))))) result }
    {
        if self.log.broken {
            return None;
        }
        self.log.tables.base(stream)?;
        Some(self.log.tables.restarts_kept(stream))
    }

    /// How many ends of blocks are kept in memory: those of all blocks there that take no more records, and at most as many more. `None` if the log
    /// is broken.
    pub fn ends_kept(&self) -> Option<usize>
        ensures { KeepsFew self.now.0 true (length (lasts_needed self.now.0)) result }
    {
        if self.log.broken {
            return None;
        }
        Some(self.log.archive.len())
    }
}
