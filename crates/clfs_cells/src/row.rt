// The records of a table: 24 bytes each. What isn't of this layout is no record of a table, whatever stream it stands in.
ghost use Rattle.std.specs.Prelude.{◌≡◌, ◌≤◌, nat_lt, length};
ghost use Rattle.clfs_cells.specs.Layout.{cell_count, is_blank, tag_of, change_in, action_of, change_at, txn_bytes, txn_record_of};

use crate::checkpoint::CELLS;
use byteorder::{ByteOrder, LittleEndian};

/// The bytes of a record's data.
pub const RECORD_BYTES: usize = 24;

/// A change of a cell.
#[derive(Clone, Copy, Debug, PartialEq, Eq)]
pub struct Change {
    /// The cell, 0 to 31.
    pub cell: u16,
    /// Its value before.
    pub old: u64,
    /// Its value after.
    pub new: u64,
}

/// What a transaction did.
#[derive(Clone, Copy, Debug, PartialEq, Eq)]
pub enum Action {
    /// It set a cell.
    Set(Change),
    /// It took a set back: the cell's value before is the one that was set, and that after is the one from before the set.
    Compensation(Change),
    /// It was committed.
    Commit,
    /// It was rolled back.
    RolledBack,
}

/// A record of a table.
#[derive(Clone, Copy, Debug, PartialEq, Eq)]
pub struct TxnRecord {
    /// The transaction, from 1.
    pub txn: u32,
    /// What it did.
    pub action: Action,
}

impl Change {
    // Whether all its bytes are zero, as in the record of an end.
    fn is_blank(self) -> bool
        ensures { result ≡ is_blank self }
    {
        self.cell == 0 && self.old == 0 && self.new == 0
    }

    // Whether it is a change of a cell that there is.
    fn is_of_cell(self) -> bool
        ensures { result ≡ nat_lt self.cell cell_count }
    {
        self.cell < CELLS as u16
    }
}

impl Action {
    // The first byte of its record.
    fn tag(self) -> u8
        ensures { result ≡ tag_of self }
    {
        match self {
            Action::Set(_) => 1,
            Action::Compensation(_) => 2,
            Action::Commit => 3,
            Action::RolledBack => 4,
        }
    }

    // The change that its record spells, which is of zeros where it is an end.
    fn change(self) -> Change
        ensures { result ≡ change_in self }
    {
        match self {
            Action::Set(change) | Action::Compensation(change) => change,
            Action::Commit | Action::RolledBack => Change {
                cell: 0,
                old: 0,
                new: 0,
            },
        }
    }

    // The action of a tag and a change, where they are of the layout.
    fn from_parts(tag: u8, change: Change) -> Option<Action>
        ensures { result ≡ action_of tag change }
    {
        match tag {
            1 if change.is_of_cell() => Some(Action::Set(change)),
            2 if change.is_of_cell() => Some(Action::Compensation(change)),
            3 if change.is_blank() => Some(Action::Commit),
            4 if change.is_blank() => Some(Action::RolledBack),
            _ => None,
        }
    }
}

// The change whose fields stand in a record's bytes.
fn change_at(bytes: &[u8]) -> Change
    requires { 24 ≤ length bytes.now }
    ensures { result ≡ change_at bytes.now }
{
    Change {
        cell: LittleEndian::read_u16(&bytes[2..]),
        old: LittleEndian::read_u64(&bytes[8..]),
        new: LittleEndian::read_u64(&bytes[16..]),
    }
}

impl TxnRecord {
    /// The data of the record. All numbers are little-endian.
    pub fn bytes(&self) -> [u8; RECORD_BYTES]
        ensures { result ≡ txn_bytes self.now }
    {
        let change = self.action.change();
        let mut bytes = [0; RECORD_BYTES];
        bytes[0] = self.action.tag();
        LittleEndian::write_u16(&mut bytes[2..], change.cell);
        LittleEndian::write_u32(&mut bytes[4..], self.txn);
        LittleEndian::write_u64(&mut bytes[8..], change.old);
        LittleEndian::write_u64(&mut bytes[16..], change.new);
        bytes
    }

    /// The record that data spell; none where they are of another layout.
    pub fn from_bytes(bytes: &[u8]) -> Option<TxnRecord>
        ensures { result ≡ txn_record_of bytes.now }
    {
        if bytes.len() != RECORD_BYTES || bytes[1] != 0 {
            return None;
        }
        let txn = LittleEndian::read_u32(&bytes[4..]);
        if txn == 0 {
            return None;
        }
        let action = Action::from_parts(bytes[0], change_at(bytes))?;
        Some(TxnRecord { txn, action })
    }
}
