use super::rows::Row;
use super::values::Value;

/// A version of a table, by its place and its genid: what a transaction uses, and what an entry takes away.
#[derive(Clone, Copy, PartialEq, Eq, Debug)]
pub struct GenidItem {
    /// The table's place in the schema, from 0.
    pub table: u16,
    pub genid: u64,
}

/// What a transaction used: a version, or the rows of a range of a key; all rows of the table where no key is named.
#[derive(Clone, Copy, PartialEq, Eq, Debug)]
pub enum Item {
    Genid(GenidItem),
    Range { table: u16, key: Option<u8> },
}

/// One end of an interval.
#[derive(Clone, Drop)]
pub enum Edge {
    Free,
    AtLeast(Value),
    Above(Value),
    AtMost(Value),
    Below(Value),
}

/// A range that a query reads: the rows of a table whose first columns of a key equal some values, and whose next
/// column lies between two ends.
#[derive(Clone, Drop)]
pub struct Interval {
    /// The table's place in the schema, from 0.
    pub table: u16,
    /// The key's place in the table; none for the whole table.
    pub key: Option<u8>,
    /// The values of the key's first columns.
    pub equal: Row,
    pub low: Edge,
    pub high: Edge,
    /// Whether no row lies in it.
    pub empty: bool,
}
