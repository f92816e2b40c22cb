// What was read of archives: a base copy, and where the blocks of each container stand in the input. Nothing of the blocks is copied.
ghost use Rattle.std.specs.Prelude.{◌≡◌, find, reverse};
ghost use Rattle.clfs_archive_form.specs.Restoring.{last_copy};

use clfs_base::BaseImage;
use std::marker::Model;

/// Where the open blocks of a container stand in an input.
#[derive(Clone, Copy, Debug, PartialEq, Eq)]
pub struct Stored {
    /// The container's id.
    pub container: u32,
    /// The first byte of its blocks.
    pub at: usize,
    /// How many bytes they have.
    pub len: u32,
}

/// Containers in the order of the input. One may come more than once.
#[derive(Debug, Drop)]
pub struct Containers {
    containers: Vec<Stored>,
}

impl Model for Containers {
    ghost use Rattle.std.specs.Prelude.{List};
    ghost use Rattle.clfs_archive_form.specs.declared.archive.Stored.{Stored};

    ghost Value = { List Stored };

    ghost view = { λ a. a.containers.items };
}

impl Containers {
    /// These containers, which stay where they are.
    pub fn from_vec(containers: Vec<Stored>) -> Containers
        ensures { result ≡ containers.items }
    {
        Containers { containers }
    }

    /// The containers in order.
    pub fn as_slice(&self) -> &[Stored]
        ensures { result.now ≡ self.now }
    {
        self.containers.as_slice()
    }

    /// The container of an id, as the input has it last.
    pub fn last_copy(&self, id: u32) -> Option<Stored>
        ensures { result ≡ last_copy self.now id }
    {
        self.containers
            .iter()
            .rev()
            .find(|stored| stored.container == id)
            .copied()
    }
}

/// An archive, or several of them taken together.
#[derive(Debug, Drop)]
pub struct Archive {
    /// The base copy; of several archives that of the last one, which says what the log is.
    pub image: BaseImage,
    /// The containers of all of them.
    pub containers: Containers,
}
