// What a store's cells are by its log. The functions do nothing.
ghost use Rattle.std.specs.Prelude.{◌≡◌, ℕ, true, [], slice_index};
ghost use Rattle.clfs_model.specs.declared.state.State.{State};
ghost use Rattle.clfs_cells.specs.Stored.{Memory, Store};
ghost use Rattle.clfs_cells.specs.Table.{changed, records_after, table, table_with};
ghost use Rattle.clfs_cells_laws.specs.Steps.{IsCommitted};
ghost use Rattle.clfs_cells_laws.specs.Stores.{IsKeptStore, IsStore};
ghost use Rattle.clfs_cells_laws.specs.Tables.{JoinsTable, done_by, numbers_of, settled};

/// If the disk told what it held when the table was loaded, a store's cells are the table of its log, changed by what its open transactions did, in the order of
/// the log, and they still are once the log is broken; and the table is known of what is kept alone. Where no transaction is open they are the table.
pub fn a_stores_cells_are_its_table()
    ensures cells { (log : State) (memory : Memory) → IsStore true log memory
        → memory.cells ≡ changed (table log) (done_by (numbers_of memory.transactions) (records_after log memory.stream)) }
    ensures by_definition { (log : State) (memory : Memory) → IsKeptStore true log memory → memory.cells ≡ table_with log memory.stream (numbers_of memory.transactions) }
    ensures table { (log : State) (memory : Memory) (cell : ℕ) → IsStore true log memory → slice_index (table log) cell ≡ settled memory cell }
    ensures at_rest { (log : State) (memory : Memory) → IsStore true log memory → memory.transactions ≡ [] → memory.cells ≡ table log }
{}

/// A commit that was answered joins the table: that has the present values of the cells of which the transaction made a set, and is as it was elsewhere.
pub fn a_commit_joins_the_table()
    ensures { (s t : Store) (number : ℕ) → IsStore true s.log s.memory → IsStore true t.log t.memory → IsCommitted number s.memory t.memory
        → JoinsTable number s t }
{}
