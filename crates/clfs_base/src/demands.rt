// What a reader may ask of a copy besides what every copy keeps to: narrower ranges of single fields.
ghost use Rattle.std.specs.Prelude.{◌≡◌};
ghost use Rattle.clfs_base.specs.Demands.{anything, asked, is_asked};

/// Which numbers of a field are asked for, of those that it may have.
#[derive(Clone, Copy, Debug, PartialEq, Eq)]
pub enum Asked {
    /// Any of them.
    Anything,
    /// Those from the least to the greatest.
    Between { least: u64, most: u64 },
}

/// What is asked of a copy's fields.
#[derive(Clone, Copy, Debug, PartialEq, Eq)]
pub struct Demands {
    /// Of its version.
    pub version: Asked,
    /// Of its turn.
    pub turn: Asked,
    /// Of the sectors of the largest block.
    pub block_sectors: Asked,
    /// Of the sectors of a container.
    pub container_sectors: Asked,
    /// Of the number of streams.
    pub streams: Asked,
    /// Of archiving: 0 where it is off, 1 where it is on.
    pub archiving: Asked,
    /// Of the archive tail's number.
    pub tail: Asked,
}

impl Demands {
    /// Any copy.
    pub fn anything() -> Demands
        ensures { result ≡ anything }
    {
        Demands {
            version: Asked::Anything,
            turn: Asked::Anything,
            block_sectors: Asked::Anything,
            container_sectors: Asked::Anything,
            streams: Asked::Anything,
            archiving: Asked::Anything,
            tail: Asked::Anything,
        }
    }

    /// What is asked of each field of the table, in its order.
    pub(crate) fn of_fields(&self) -> [Asked; 17]
        ensures { result ≡ asked self.now }
    {
        let any = Asked::Anything;
        [
            self.version,
            self.turn,
            any,
            self.block_sectors,
            self.container_sectors,
            any,
            any,
            any,
            any,
            self.streams,
            self.archiving,
            any,
            any,
            any,
            any,
            self.tail,
            any,
        ]
    }
}

impl Asked {
    /// Whether a number is among them.
    pub(crate) fn has(&self, number: u64) -> bool
        ensures { result ≡ is_asked self.now number }
    {
        match self {
            Asked::Anything => true,
            Asked::Between { least, most } => *least <= number && number <= *most,
        }
    }
}
