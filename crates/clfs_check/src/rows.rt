// Worked rows, computed from the definitions.
ghost use Rattle.std.specs.Prelude.{◌≡◌, ◌∷◌, [], true, false};
ghost use Rattle.clfs_base.specs.Vector.{small_image};
ghost use Rattle.clfs_recover.specs.Vector.{with_stream, one_record_log, empty_log};
ghost use Rattle.clfs_check.specs.Reporting.{report_of};

/// What is told of a log with containers of 8 sectors that has just been made, and of one with a record of ten bytes in a block of one sector,
/// of which a file is shorter than it was made.
pub fn reports_of_a_small_log()
    ensures fresh { report_of (empty_log small_image) 0 true
        ≡ record { containers = 2; listed = 1; blocks = 0; records = 0; streams = 0; place = 4294967296; whole = true } }
    ensures one { report_of (one_record_log (with_stream 0)) 1 false
        ≡ record { containers = 2; listed = 1; blocks = 1; records = 1; streams = 1; place = 4294967808; whole = false } }
{}
