ghost use Rattle.std.specs.Prelude.{◌≡◌, []};
ghost use Rattle.std.specs.Option.{option_copied};
ghost use Rattle.cdb_values.specs.Rows.{takes as takes_of, row_written as row_written_of};

use super::lists::List;
use super::values::Value;

/// The values of one row, in the order of its table's columns.
pub type Row = List<Value>;

/// How a transaction reads and what its commit verifies.
#[derive(Clone, Copy, PartialEq, Eq, Debug)]
pub enum Level {
    /// It reads the rows at its begin position and its own writes.
    Snapshot,
    /// As before, and its commit verifies what it read.
    Serializable,
}

/// The row version that an operation takes away.
#[derive(Clone, Copy, PartialEq, Eq, Debug)]
pub enum RowRef {
    /// The version with this genid.
    Base(u64),
    /// The version of the transaction's own write of this number, from 1.
    Own(u64),
}

/// One row operation of a transaction. `table` is the table's place in the schema, from 0, and
/// `old` the row that the target has.
#[derive(Clone, Drop)]
pub enum RowOp {
    Insert {
        table: u16,
        row: Row,
    },
    Update {
        table: u16,
        target: RowRef,
        old: Row,
        row: Row,
    },
    Delete {
        table: u16,
        target: RowRef,
        old: Row,
    },
}

impl RowOp {
    /// Whether the operation takes the version of a genid away from the table at a place.
    pub fn takes(&self, table: usize, genid: u64) -> bool
        ensures { result ≡ takes_of table genid self.now }
    {
        match self {
            RowOp::Insert { .. } => false,
            RowOp::Update {
                table: place,
                target,
                ..
            } => is_target(*place, target, table, genid),
            RowOp::Delete {
                table: place,
                target,
                ..
            } => is_target(*place, target, table, genid),
        }
    }

    /// The row that the operation writes to the table at a place; `None` exactly where it writes none there.
    pub fn row_written(&self, table: usize) -> Option<&Row>
        ensures { option_copied result ≡ row_written_of table self.now }
    {
        match self {
            RowOp::Insert { table: place, row } => row_at(*place, row, table),
            RowOp::Update {
                table: place,
                row,
                ..
            } => row_at(*place, row, table),
            RowOp::Delete { .. } => None,
        }
    }
}

/// Whether a target in the table at a place is the version of a genid in that table.
fn is_target(place: u16, target: &RowRef, table: usize, genid: u64) -> bool
    ensures { result ≡ takes_of table genid (RowOp.Delete place target.now []) }
{
    match *target {
        RowRef::Base(found) => place as usize == table && found == genid,
        RowRef::Own(_) => false,
    }
}

/// A row of the table at a place, where it is that table.
fn row_at(place: u16, row: &Row, table: usize) -> Option<&Row>
    ensures { option_copied result ≡ row_written_of table (RowOp.Insert place row.now) }
{
    if place as usize == table {
        Some(row)
    } else {
        None
    }
}

/// One change of a committed transaction: an operation with the genids that it took away and gave.
#[derive(Clone, Drop)]
pub enum Change {
    Insert {
        table: u16,
        genid: u64,
        row: Row,
    },
    Update {
        table: u16,
        old_genid: u64,
        old: Row,
        genid: u64,
        row: Row,
    },
    Delete {
        table: u16,
        old_genid: u64,
        old: Row,
    },
}

/// A row as it was written once. The genid is never used again.
#[derive(Clone, Drop)]
pub struct Version {
    pub genid: u64,
    pub row: Row,
}

/// Why a statement was refused. It adds no operation, and its transaction goes on.
#[derive(Clone, Copy, PartialEq, Eq, Debug)]
pub enum StatementError {
    /// The text is no statement. `at` is the offset in bytes where it fails.
    Syntax { at: u32 },
    /// It names a table that the schema lacks.
    Table,
    /// It names a column that none of its tables has.
    Column,
    /// It names a column that two of its tables have, or one thing twice.
    Ambiguous,
    /// A value is not of the type that its place wants.
    Type_,
    /// A tuple has another number of values than there are columns.
    Count,
    /// A sum or a difference is outside 64 bits.
    Overflow,
    /// NULL would stand in a column that refuses it.
    NotNull,
    /// A row, a key or the transaction would pass its limit.
    TooLong,
    /// The statement does not fit the state of the transaction.
    State,
}
