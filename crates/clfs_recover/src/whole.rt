// Whether the files of a log are there at full length, as a test: for whoever keeps that as a value.
ghost use Rattle.std.specs.Prelude.{◌≡◌, true};
ghost use Rattle.clfs_disk.specs.Files.{Files};
ghost use Rattle.clfs_recover.specs.Files.{AreWholeFiles};
ghost use Rattle.clfs_recover.specs.Whole.{are_whole};

/// The test passes exactly where the files of a log are there at full length.
pub fn whole_files_pass_the_test()
    ensures passes { (files : Files) → AreWholeFiles files → are_whole files ≡ true }
    ensures tells { (files : Files) → are_whole files ≡ true → AreWholeFiles files }
{}
