// What the log tells of itself.
ghost use Rattle.std.specs.Prelude.{◌≡◌};

use clfs_lsn::Lsn;
use std::marker::Model;

/// A part of a container that is to be archived.
#[derive(Clone, Copy, Debug, PartialEq, Eq)]
pub struct Extent {
    /// The container's id.
    pub container: u32,
    /// Where it begins, in bytes.
    pub low: u32,
    /// Where it ends, in bytes.
    pub high: u32,
}

/// Extents in the order of their containers.
#[derive(Clone, Drop)]
pub struct Extents {
    extents: Vec<Extent>,
}

impl Model for Extents {
    ghost use Rattle.std.specs.Prelude.{List};
    ghost use Rattle.clfs_model.specs.declared.info.Extent.{Extent};

    ghost Value = { List Extent };

    ghost view = { λ a. a.extents.items };
}

impl Extents {
    /// These extents, which stay where they are.
    pub fn from_vec(extents: Vec<Extent>) -> Extents
        ensures { result ≡ extents.items }
    {
        Extents { extents }
    }

    /// The extents given back, where they are.
    pub fn into_vec(self) -> Vec<Extent>
        ensures { result.items ≡ self }
    {
        let Extents { extents } = self;
        extents
    }

    /// The extents in order.
    pub fn as_slice(&self) -> &[Extent]
        ensures { result.now ≡ self.now }
    {
        self.extents.as_slice()
    }
}

/// What a client can ask of the log and of a stream.
#[derive(Clone, Copy, Debug, PartialEq, Eq)]
pub struct LogInfo {
    /// The containers of the log.
    pub containers: u32,
    /// Those of them that aren't in use.
    pub free_containers: u32,
    /// The sectors of a container.
    pub container_sectors: u32,
    /// The sectors that appends can surely take.
    pub free_sectors: u32,
    /// The sectors that all areas hold.
    pub reserved: u32,
    /// The stream's base.
    pub base: Lsn,
    /// The stream's last live record, or null.
    pub last: Lsn,
    /// The LSN below which all records are on the disk.
    pub flushed: Lsn,
    /// The stream's newest live restart area, or null.
    pub restart: Lsn,
    /// The archive tail, where archiving is on.
    pub archive: Option<Lsn>,
}
