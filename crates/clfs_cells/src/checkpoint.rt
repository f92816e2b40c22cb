// The restart areas of a table: all cells, and the last number that a transaction was given.
ghost use Rattle.std.specs.Prelude.{◌≡◌};
ghost use Rattle.clfs_cells.specs.Layout.{blank_checkpoint, checkpoint_bytes, checkpoint_of};

use byteorder::{ByteOrder, LittleEndian};

/// The cells of a table.
pub const CELLS: usize = 32;

/// The bytes of a restart area's data.
pub const CHECKPOINT_BYTES: usize = 260;

/// What a restart area of a table holds.
#[derive(Clone, Copy, Debug)]
pub struct Checkpoint {
    /// The cells' values.
    pub cells: [u64; CELLS],
    /// The last number of a transaction, or 0.
    pub last: u32,
}

impl Checkpoint {
    /// Cells of zeros, before any transaction.
    pub fn new() -> Checkpoint
        ensures { result ≡ blank_checkpoint }
    {
        Checkpoint {
            cells: [0; CELLS],
            last: 0,
        }
    }

    /// The data of the restart area. All numbers are little-endian.
    pub fn bytes(&self) -> [u8; CHECKPOINT_BYTES]
        ensures { result ≡ checkpoint_bytes self.now }
    {
        let mut bytes = [0; CHECKPOINT_BYTES];
        LittleEndian::write_u64_into(&self.cells, &mut bytes[..256]);
        LittleEndian::write_u32(&mut bytes[256..], self.last);
        bytes
    }

    /// The cells and the number that data spell; none where they are of another length.
    pub fn from_bytes(bytes: &[u8]) -> Option<Checkpoint>
        ensures { result ≡ checkpoint_of bytes.now }
    {
        if bytes.len() != CHECKPOINT_BYTES {
            return None;
        }
        let (front, last) = bytes.split_at(256);
        let mut cells = [0; CELLS];
        LittleEndian::read_u64_into(front, &mut cells);
        let last = LittleEndian::read_u32(last);
        Some(Checkpoint { cells, last })
    }
}
