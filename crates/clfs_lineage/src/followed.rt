// A source whose bytes are archives, and what is seen of them as they pass.
ghost use Rattle.std.specs.Prelude.{◌≡◌};

use crate::follower::Follower;
use clfs_ports::{Failed, Source};
use std::alloc::Global;

/// A source whose bytes are looked at as archives, if that is wanted.
#[derive(Drop)]
pub struct Followed<S: Source + Drop> {
    inner: S,
    follower: Option<Follower>,
}

impl<S: Source + Drop> Followed<S> {
    /// The source, of which nothing was read yet.
    pub fn new(alloc: Global, inner: S, is_wanted: bool) -> Followed<S>
        ensures { result.inner ≡ inner }
    {
        let follower = if is_wanted {
            Some(Follower::new(alloc))
        } else {
            None
        };
        Followed { inner, follower }
    }

    /// The first archive that was read, numbered from 1, that isn't a later one of the same log as the one before.
    pub fn stranger(&self) -> Option<u64> {
        self.follower.as_ref()?.stranger()
    }
}

impl<S: Source + Drop> Source for Followed<S> {
    ghost left = { λ s. S.left s.inner };

    ghost faults = { λ s. S.faults s.inner };

    fn read(&mut self, out: &mut [u8]) -> Result<usize, Failed> {
        let count = self.inner.read(out)?;
        if let Some(follower) = &mut self.follower {
            follower.follow(&out[..count]);
        }
        Ok(count)
    }
}
