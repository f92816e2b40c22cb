// The files of a disk before any call: what a host puts its own bytes in.
ghost use Rattle.std.specs.Prelude.{◌≡◌, ℕ, [], length, IfOk};
ghost use Rattle.clfs_planned.specs.Contents.{contents_of};

use crate::contents::Contents;
use std::alloc::{AllocError, Global};

const FILES: usize = 257;

/// As many files as a disk has, all of them empty.
pub fn empty_files(alloc: Global) -> Result<Vec<Contents>, AllocError>
    ensures count { IfOk result (λ files. length files.items ≡ 257) }
    ensures empty { IfOk result (λ files. (file : ℕ) → contents_of files.items file ≡ []) }
{
    let mut files = Vec::with_capacity(alloc, FILES)?;
    for _ in 0..FILES {
        files.push(Contents::new(alloc))?;
    }
    Ok(files)
}
