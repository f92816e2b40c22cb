// A disk that stops: it passes so many calls on to another disk, and fails each one after. So the other disk is as that
// many calls left it.
ghost use Rattle.std.specs.Prelude.{◌≡◌, ◌+◌, ◌-◌, ◌^◌, ◌≤◌, ◌<◌, min, OnOk, OnErr, IsErrOf};
ghost use Rattle.clfs_disk.specs.State.{Rises, raised};
ghost use Rattle.clfs_disk.specs.Calls.{Reads, Writes, Grows, Syncs};
ghost use Rattle.clfs_disk.specs.Fuse.{inner_of, passes_of, fuse_shown, TakesPass};

use crate::{Disk, Failed, GrowRefusal};

/// Another disk for so many calls, and then none.
#[derive(Drop)]
pub struct Fuse<D: Disk> {
    inner: D,
    left: u64,
    refused: u64,
}

impl<D: Disk> Fuse<D> {
    /// Passes so many calls on.
    pub fn new(disk: D, passes: u64) -> Fuse<D>
        ensures inner { inner_of result ≡ disk }
        ensures passes { passes_of result ≡ passes }
        ensures calls { (fuse_shown D.state result).calls ≡ raised 0 (D.state disk).calls }
        ensures faults { (fuse_shown D.state result).faults ≡ (D.state disk).faults }
    {
        Fuse {
            inner: disk,
            left: passes,
            refused: 0,
        }
    }

    /// Gives the other disk back.
    pub fn into_inner(self) -> D
        ensures { result ≡ inner_of self }
    {
        let Fuse {
            inner,
            left: _,
            refused: _,
        } = self;
        inner
    }
}

// Takes one of the calls that are passed on. Where none is left, the call is refused and counted.
fn take_pass(left: &mut u64, refused: &mut u64) -> Result<(), Failed>
    ensures passed { OnOk result (left.old ≡ left.new + 1) }
    ensures kept { OnOk result (refused.new ≡ refused.old) }
    ensures stopped { OnErr result (left.old ≡ 0) }
    ensures none_left { OnErr result (left.new ≡ 0) }
    ensures rises { OnErr result (refused.new ≡ min (refused.old + 1) (2 ^ 64 - 1)) }
    ensures later { refused.old ≤ refused.new }
{
    if *left == 0 {
        *refused = refused.saturating_add(1);
        return Err(Failed);
    }
    *left -= 1;
    Ok(())
}

impl<D: Disk> Disk for Fuse<D> {
    ghost state = { fuse_shown D.state };

    ghost reads_as_image = { λ fuse honest. D.reads_as_image fuse.inner honest };

    /// Takes one of the passes. Where none is left it fails, and the other disk is as it was. Where one is left, it makes the
    /// one call of the other disk, and fails only with it.
    fn read(&mut self, file: u16, at: u64, out: &mut [u8]) -> Result<usize, Failed>
        requires { file ≤ 256 }
        ensures call { Reads file at out.old out.new result (fuse_shown D.state self.old) (fuse_shown D.state self.new) }
        ensures pass { TakesPass D.state result self.old self.new }
    {
        take_pass(&mut self.left, &mut self.refused)?;
        self.inner.read(file, at, out)
    }

    /// Takes one of the passes. Where none is left it fails, and the other disk is as it was. Where one is left, it makes the
    /// one call of the other disk, and fails only with it.
    fn write(&mut self, file: u16, at: u64, bytes: &[u8]) -> Result<(), Failed>
        requires { file ≤ 256 }
        ensures call { Writes file at bytes.now result (fuse_shown D.state self.old) (fuse_shown D.state self.new) }
        ensures pass { TakesPass D.state result self.old self.new }
    {
        take_pass(&mut self.left, &mut self.refused)?;
        self.inner.write(file, at, bytes)
    }

    /// Takes one of the passes. Where none is left it fails, and the other disk is as it was. Where one is left, it makes the
    /// one call of the other disk, and fails only with it.
    fn grow(&mut self, file: u16, len: u64) -> Result<(), GrowRefusal>
        requires { file ≤ 256 }
        ensures call { Grows file len result (fuse_shown D.state self.old) (fuse_shown D.state self.new) }
        ensures passes { passes_of self.new ≡ passes_of self.old - 1 }
        ensures stopped { passes_of self.old ≡ 0 → IsErrOf result GrowRefusal.Failed }
        ensures same_inner { passes_of self.old ≡ 0 → inner_of self.new ≡ inner_of self.old }
        ensures inner_calls { 0 < passes_of self.old → (IsErrOf result GrowRefusal.NoMemory → ⊥) →
            (D.state (inner_of self.new)).calls ≡ raised 1 (D.state (inner_of self.old)).calls }
        ensures passed { 0 < passes_of self.old → IsErrOf result GrowRefusal.Failed →
            Rises (D.state (inner_of self.old)).faults (D.state (inner_of self.new)).faults }
    {
        if take_pass(&mut self.left, &mut self.refused).is_err() {
            return Err(GrowRefusal::Failed);
        }
        self.inner.grow(file, len)
    }

    /// Takes one of the passes. Where none is left it fails, and the other disk is as it was. Where one is left, it makes the
    /// one call of the other disk, and fails only with it.
    fn sync(&mut self) -> Result<(), Failed>
        ensures call { Syncs result (fuse_shown D.state self.old) (fuse_shown D.state self.new) }
        ensures pass { TakesPass D.state result self.old self.new }
    {
        take_pass(&mut self.left, &mut self.refused)?;
        self.inner.sync()
    }
}
