// Judging a log: the walk of opening with counts alone, and then the lengths of its files.
ghost use Rattle.std.specs.Prelude.{◌≡◌, OnOk, IfOk, IfErr, IsErrOf};
ghost use Rattle.clfs_disk.specs.Files.{Unchanged};
ghost use Rattle.clfs_disk.specs.State.{TellsContents, IsHonest, IsSteady, IsSettled, Passes, Rises};
ghost use Rattle.clfs_recover.specs.Telling.{TellsOpening};
ghost use Rattle.clfs_check.specs.Reporting.{IsChecked, IsReportOfLog};

use crate::length::are_whole;
use crate::report::{Report, report_of};
use clfs_disk::{Disk, calls_join};
use clfs_recover::{
    Counts, LoadRefusal, blocks_begin_with_sequence_0, logs_are_copies_and_blocks,
    logs_are_found_in_files, logs_have_few_records, opened_copies_fit, walk,
    whole_files_pass_the_test,
};
use std::alloc::Global;

/// Syncs the disk, walks through the log on it as opening does, and tells what it found, and whether the log's files are at full length; or
/// why there is no log, exactly as opening does. It calls no write of the disk.
pub fn check<D: Disk>(alloc: Global, disk: &mut D) -> Result<Report, LoadRefusal>
    ensures exact { TellsContents (D.state disk.old) → IsChecked (D.state disk.old).files result }
    // Whatever the disk, damage is told of some bytes that fail at just that place: of a base copy, or of a block of a container that it lists.
    ensures place { IfErr result TellsOpening }
    ensures log { IfOk result IsReportOfLog }
    ensures settled { OnOk result (IsHonest (D.state disk.old) → IsSettled (D.state disk.new)) }
    ensures same { Unchanged (D.state disk.old).files (D.state disk.new).files }
    ensures time { Passes Unchanged (D.state disk.old) (D.state disk.new) }
    ensures cause { IsErrOf result LoadRefusal.DiskFault → Rises (D.state disk.old).faults (D.state disk.new).faults }
    ensures steady { IsSteady (D.state disk.old) → (IsErrOf result LoadRefusal.DiskFault → ⊥)
        × ((D.state disk.new).faults ≡ (D.state disk.old).faults) }
{
    calls_join::<D>();
    whole_files_pass_the_test();
    logs_are_copies_and_blocks();
    logs_are_found_in_files();
    logs_have_few_records();
    blocks_begin_with_sequence_0();
    opened_copies_fit();
    let mut counts = Counts::new();
    let walked = walk(alloc, disk, &mut counts)?;
    let whole = are_whole(disk, &walked.image)?;
    Ok(report_of(&walked, &counts, whole))
}
