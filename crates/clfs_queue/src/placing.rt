// Where the next record goes, seen from the open block.
/// Which case of the rule for places comes for a record.
#[derive(Clone, Copy, Debug, PartialEq, Eq)]
pub enum Placing {
    /// It joins the open block.
    Joins,
    /// It begins a block after the open one, which has to be sealed first.
    BeginsBlock,
    /// It begins the next container: all is to be written first, and the log turns to that container.
    BeginsContainer,
}
