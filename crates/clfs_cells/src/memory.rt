// What a store of a table keeps beside its log. All memory is taken when it is made, so no change of it is refused.
ghost use Rattle.std.specs.Prelude.{◌≡◌, ◌+◌, ◌<◌, ◌≤◌, [], ◌∷◌, ◌++◌, IfOk, Some, length, map, position, remove, slice_index, slice_set, take, vec_len};
ghost use Rattle.std.specs.List.{slice_index_or};
ghost use Rattle.std.specs.Option.{option_map};
ghost use Rattle.clfs_cells.specs.declared.begun.Transaction.{Transaction as Code};
ghost use Rattle.clfs_cells.specs.Kept.{transaction_of};
ghost use Rattle.clfs_cells.specs.Stored.{Transaction as Kept, is_holder, is_numbered, transaction, holder, with_begun, with_set, with_transaction, with_undone, without_transaction};

use crate::begun::{Made, Transaction};
use crate::checkpoint::{CELLS, Checkpoint};
use crate::row::Change;
use clfs_lsn::Lsn;
use std::alloc::{AllocError, Global};
use std::marker::Model;

/// The most transactions that are open at a time.
pub const MOST_TRANSACTIONS: usize = 8;

/// What a store keeps: the client, its area and the stream of its log, the cells, the open transactions, and the last number of one.
#[derive(Debug, Drop)]
pub struct Memory {
    client: u16,
    area: u16,
    stream: u16,
    cells: [u64; CELLS],
    // The open transactions are the first of these, so many.
    transactions: Vec<Transaction>,
    count: usize,
    last: u32,
}

impl Model for Memory {
    ghost use Rattle.clfs_cells.specs.Stored.{Memory as Stored};

    ghost Value = { Stored };

    ghost use Rattle.clfs_cells.specs.Kept.{memory_of, HasRoom};

    ghost view = { memory_of };

    ghost invariant = { HasRoom };
}

impl Memory {
    /// Without open transactions, over these cells.
    pub fn new(
        alloc: Global,
        client: u16,
        area: u16,
        stream: u16,
        checkpoint: Checkpoint,
    ) -> Result<Memory, AllocError>
        ensures { IfOk result (λ m. m ≡ record { client = client; area = area; stream = stream; cells = checkpoint.cells; transactions = []; last = checkpoint.last }) }
    {
        let mut transactions = Vec::new(alloc);
        transactions.resize(MOST_TRANSACTIONS, Transaction::begun(0, 0))?;
        let cells = checkpoint.cells;
        Ok(Memory {
            client,
            area,
            stream,
            cells,
            transactions,
            count: 0,
            last: checkpoint.last,
        })
    }

    /// The client that makes the calls of the log.
    pub fn client(&self) -> u16
        ensures { result ≡ self.now.client }
    {
        self.client
    }

    /// The client's area.
    pub fn area(&self) -> u16
        ensures { result ≡ self.now.area }
    {
        self.area
    }

    /// The stream.
    pub fn stream(&self) -> u16
        ensures { result ≡ self.now.stream }
    {
        self.stream
    }

    /// The last number of a transaction.
    pub fn last(&self) -> u32
        ensures { result ≡ self.now.last }
    {
        self.last
    }

    /// The value of a cell.
    pub fn cell(&self, cell: u16) -> u64
        requires { cell < 32 }
        ensures { result ≡ slice_index self.now.cells cell }
    {
        self.cells[cell as usize]
    }

    /// All cells, and the last number.
    pub fn checkpoint(&self) -> Checkpoint
        ensures { result ≡ record { cells = self.now.cells; last = self.now.last } }
    {
        Checkpoint {
            cells: self.cells,
            last: self.last,
        }
    }

    /// The client's area, once there is one.
    pub fn set_area(&mut self, area: u16)
        ensures { self.new ≡ record self.old { area = area } }
    {
        self.area = area;
    }

    /// The cells and the last number, as they were read from the log.
    pub fn set_table(&mut self, table: &Checkpoint)
        ensures { self.new ≡ record self.old { cells = table.now.cells; last = table.now.last } }
    {
        self.cells = table.cells;
        self.last = table.last;
    }

    /// How many transactions are open.
    pub fn open_now(&self) -> usize
        ensures count { result ≡ length self.now.transactions }
        ensures few { result ≤ 8 }
    {
        self.open_transactions().len()
    }

    fn open_transactions(&self) -> &[Transaction]
        ensures transactions { map transaction_of result.now ≡ self.now.transactions }
        ensures few { length result.now ≤ 8 }
    {
        open_of(self.transactions.as_slice(), self.count)
    }

    /// The open transaction of a number.
    pub fn transaction(&self, number: u32) -> Option<Transaction>
        ensures { option_map transaction_of result ≡ transaction self.now number }
    {
        let open = self.open_transactions();
        let place = place_of(open, number)?;
        Some(open[place])
    }

    /// The open transaction other than this one that has made a set of a cell.
    pub fn holder(&self, number: u32, cell: u16) -> Option<u32>
        ensures { result ≡ option_map (λ (t : Kept). t.number) (holder self.now number cell) }
    {
        let open = self.open_transactions();
        let place = place_of_holder(open, number, cell)?;
        Some(open[place].number())
    }

    /// A transaction begins, with the next number.
    pub fn begin(&mut self, changes: u16) -> u32
        requires room { length self.old.transactions < 8 }
        requires number { self.old.last < 4294967295 }
        requires changes { changes ≤ 7 }
        ensures begun { self.new ≡ with_begun changes self.old }
        ensures number { result ≡ self.old.last + 1 }
    {
        let number = self.last + 1;
        self.transactions[self.count] = Transaction::begun(number, changes);
        self.count += 1;
        self.last = number;
        number
    }

    // The open transaction of its number is this one now.
    fn replace(&mut self, next: Transaction)
        ensures { self.new ≡ with_transaction (transaction_of next).number (λ _. transaction_of next) self.old }
    {
        let open = open_of(self.transactions.as_slice(), self.count);
        if let Some(place) = place_of(open, next.number) {
            self.transactions[place] = next;
        }
    }

    // A cell has this value now, where there is such a cell.
    fn set_cell(&mut self, cell: u16, value: u64)
        ensures { self.new ≡ record self.old { cells = slice_set self.old.cells cell value } }
    {
        if (cell as usize) < CELLS {
            self.cells[cell as usize] = value;
        }
    }

    /// An open transaction made a set, whose record is at this LSN.
    pub fn set(&mut self, t: &Transaction, change: Change, lsn: Lsn)
        requires there { transaction self.old (transaction_of t.now).number ≡ Some (transaction_of t.now) }
        requires room { length (transaction_of t.now).made < (transaction_of t.now).changes }
        ensures { self.new ≡ with_set (transaction_of t.now) change lsn self.old }
    {
        let made = Made {
            lsn,
            undo_next: t.newest_standing(),
            change,
            undone: false,
        };
        self.replace(t.with_set(made));
        self.set_cell(change.cell, change.new);
    }

    /// A set of an open transaction was taken back, by a record at this LSN.
    pub fn undo(&mut self, t: &Transaction, made: &Made, lsn: Lsn)
        requires { transaction self.old (transaction_of t.now).number ≡ Some (transaction_of t.now) }
        ensures { self.new ≡ with_undone (transaction_of t.now) made.now lsn self.old }
    {
        self.replace(t.with_undone(made.lsn, lsn));
        self.set_cell(made.change.cell, made.change.old);
    }

    /// An open transaction has ended.
    pub fn end(&mut self, number: u32)
        ensures { self.new ≡ without_transaction number self.old }
    {
        let open = open_of(self.transactions.as_slice(), self.count);
        if let Some(place) = place_of(open, number) {
            take_out(&mut self.transactions, place);
            self.count -= 1;
        }
    }
}

// Takes out the transaction at a place: those after it move down, and it goes after them.
fn close_up(transactions: &mut [Transaction], place: usize)
    requires { place < length transactions.old }
    ensures { (d : Code) → transactions.new ≡ remove transactions.old place ++ slice_index_or transactions.old place d ∷ [] }
{
    transactions[place..].rotate_left(1);
}

// The same of all for which there is room, as many of which there are then.
fn take_out(transactions: &mut Vec<Transaction>, place: usize)
    requires { place < vec_len transactions.old }
    ensures items { (d : Code) → transactions.new.items ≡ remove transactions.old.items place ++ slice_index_or transactions.old.items place d ∷ [] }
    ensures len { vec_len transactions.new ≡ vec_len transactions.old }
{
    close_up(transactions.as_mut_slice(), place);
}

// Those that are open, of all for which there is room.
fn open_of(transactions: &[Transaction], count: usize) -> &[Transaction]
    requires { count ≤ length transactions.now }
    ensures transactions { result.now ≡ take count transactions.now }
    ensures few { length result.now ≤ count }
{
    &transactions[..count]
}

// Where the transaction of a number stands.
fn place_of(transactions: &[Transaction], number: u32) -> Option<usize>
    ensures { result ≡ position (λ (t : Code). is_numbered number (transaction_of t)) transactions.now }
{
    transactions.iter().position(|t| t.number == number)
}

// Where a transaction other than this one stands that has made a set of a cell.
fn place_of_holder(transactions: &[Transaction], number: u32, cell: u16) -> Option<usize>
    ensures { result ≡ position (λ (t : Code). is_holder number cell (transaction_of t)) transactions.now }
{
    transactions.iter().position(|t| is_holder(t, number, cell))
}

// Whether a transaction is another one than this, and has made a set of a cell.
fn is_holder(t: &Transaction, number: u32, cell: u16) -> bool
    ensures { result ≡ is_holder number cell (transaction_of t.now) }
{
    if t.number == number {
        return false;
    }
    t.holds(cell)
}
