// How far archives reach, and up to where a log is restored of them. No memory is taken.
ghost use Rattle.std.specs.Prelude.{◌≡◌, ◌+◌, ◌≤◌, nat_lt, ◌||◌, fold, max, length};
ghost use Rattle.clfs_lsn.specs.Lsn.{lsn_number};
ghost use Rattle.clfs_base.specs.Spelling.{IsImage};
ghost use Rattle.clfs_archive_form.specs.Archives.{last_listed};
ghost use Rattle.clfs_archive_form.specs.Restoring.{gap_in, low_bound, end_in, high_bound, bounds_of, within, asked_for, chosen};

use crate::archive::Archive;
use crate::refusal::InputRefusal;
use clfs_base::BaseImage;
use clfs_lsn::Lsn;

/// The least container of those that the base copy lists which no archive has.
pub fn missing_container(archive: &Archive) -> Option<u32>
    requires { IsImage archive.now.image }
    ensures { result ≡ gap_in archive.now }
{
    let image = &archive.image;
    for i in 0..image.files.as_slice().len() as u32 {
        let id = image.first + i;
        if archive.containers.last_copy(id).is_none() {
            return Some(id);
        }
    }
    None
}

// The lowest LSN up to which the log can be restored.
fn low_bound(image: &BaseImage) -> Lsn
    ensures { result ≡ low_bound image.now }
{
    let mut low = Lsn::from_parts(image.first, 0, 0);
    for row in image.streams.as_slice() {
        low = low.max(row.base);
    }
    low
}

// The id of the last container that a copy lists.
fn last_listed(image: &BaseImage) -> u32
    requires { IsImage image.now }
    ensures { result ≡ last_listed image.now }
{
    let others = image.files.as_slice().len() as u32 - 1;
    image.first + others
}

// The highest LSN up to which the log can be restored.
fn high_bound(archive: &Archive) -> Lsn
    requires { IsImage archive.now.image }
    ensures { result ≡ high_bound archive.now }
{
    let last = last_listed(&archive.image);
    match archive.containers.last_copy(last) {
        Some(stored) => Lsn::from_parts(last, stored.len, 0),
        None => Lsn::from_parts(last, 0, 0),
    }
}

/// The lowest and the highest LSN up to which the log can be restored. They are told of archives that lack no container.
pub fn bounds(archive: &Archive) -> (Lsn, Lsn)
    requires { IsImage archive.now.image }
    ensures { result ≡ bounds_of archive.now }
{
    (low_bound(&archive.image), high_bound(archive))
}

/// Up to which LSN the log is restored: the one that is asked for, where it is within the bounds, or else the highest. A container that no archive has
/// is told first.
pub fn choose_up_to(archive: &Archive, up_to: Option<Lsn>) -> Result<Lsn, InputRefusal>
    requires { IsImage archive.now.image }
    ensures { result ≡ chosen archive.now up_to }
{
    if let Some(container) = missing_container(archive) {
        return Err(InputRefusal::Gap { container });
    }
    let (low, high) = bounds(archive);
    match up_to {
        None => Ok(high),
        Some(lsn) if lsn < low || high < lsn => Err(InputRefusal::UpToInvalid { low, high }),
        Some(lsn) => Ok(lsn),
    }
}
