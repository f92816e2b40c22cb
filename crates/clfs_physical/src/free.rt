// Which file the next container takes.
ghost use Rattle.std.specs.Prelude.{◌≡◌, ◌<◌, length, true, false};
ghost use Rattle.clfs_physical.specs.Stored.{IsIn};
ghost use Rattle.clfs_physical.specs.Taking.{IsFree};

// Whether the number of a file stands in a list.
fn is_in(files: &[u16], file: u16) -> bool
    ensures listed { result ≡ true → IsIn files.now file }
    ensures free { result ≡ false → IsIn files.now file → ⊥ }
{
    files.contains(&file)
}

/// The least of the files from 1 to `made` that isn't among these.
pub fn free_file(made: u16, files: &[u16]) -> u16
    requires { length files.now < made }
    ensures { IsFree made files.now result }
{
    let mut file = 1;
    while is_in(files, file) {
        file += 1;
    }
    file
}
