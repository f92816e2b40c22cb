// What the disk has of a manager's log, as a law for whoever keeps one: the flushed part of its state.
ghost use Rattle.std.specs.Prelude.{◌≡◌, ℕ, false};
ghost use Rattle.clfs_disk.specs.Files.{Unchanged};
ghost use Rattle.clfs_disk.specs.State.{TellsContents, IsHonest, IsSettled, Passes};
ghost use Rattle.clfs_manager.specs.Machine.{asks, bad_line, Call, IsStorable, IsValid, reopens};
ghost use Rattle.clfs_manager.specs.Crashes.{CrashSurvives};
ghost use Rattle.clfs_manager.specs.Reopening.{HoldsFlushed};

use crate::manager::Manager;
use clfs_disk::Disk;
use clfs_laws::{
    opening_anew_comes_to_the_cut, states_between_survive, the_holds_container_never_falls,
};
use clfs_recover::logs_are_copies_and_blocks;

impl<D: Disk> Manager<D> {
    /// What the disk has of a log that isn't broken. This does nothing; a caller cites its clauses.
    pub fn stored(&self)
        // The state is one that a log can be in and that files can hold.
        ensures valid { IsValid self.now.0 }
        ensures storable { IsStorable self.now.0 }

        // The files hold the flushed part of the log's state, where the disk tells what they hold.
        ensures files { self.now.0.broken ≡ false → TellsContents (D.state self.now.1) → HoldsFlushed (D.state self.now.1).files self.now.0 }

        // Nothing is pending, where the disk keeps what was synced.
        ensures settled { self.now.0.broken ≡ false → IsHonest (D.state self.now.1) → IsSettled (D.state self.now.1) }

        // Whatever call changes no file, a crash at any moment of it leaves a survivor: the flushed part of the log's state.
        ensures survives { (client : ℕ) (call : Call) (disk : D) → Passes Unchanged (D.state self.now.1) (D.state disk)
            → CrashSurvives (asks client call) self.now.0 (D.state self.now.1) (D.state disk) }
        ensures survives_opening { (client : ℕ) (disk : D) → Passes Unchanged (D.state self.now.1) (D.state disk)
            → CrashSurvives (reopens client) self.now.0 (D.state self.now.1) (D.state disk) }
        ensures survives_reading { (at : ℕ) (disk : D) → Passes Unchanged (D.state self.now.1) (D.state disk)
            → CrashSurvives (bad_line at) self.now.0 (D.state self.now.1) (D.state disk) }
        ensures survives_nothing { (at : ℕ) → CrashSurvives (bad_line at) self.now.0 (D.state self.now.1) (D.state self.now.1) }
    {
        logs_are_copies_and_blocks();
        the_holds_container_never_falls();
        opening_anew_comes_to_the_cut();
        states_between_survive();
        let _log = &self.log;
    }
}
