//! Whether a change touches an interval.
ghost use Rattle.std.specs.Prelude.{◌≡◌};
ghost use Rattle.session_language.specs.Intervals.{change_touches as change_touches_of, lies_in as lies_in_of};

use crate::lying::lies;
use cdb_values::{Change, Interval, TableDef, Value};

/// Whether a row that a change takes away or adds lies in an interval.
pub fn touches(tables: &[TableDef], interval: &Interval, change: &Change) -> bool
    ensures { result ≡ change_touches_of tables.now interval.now change.now }
{
    match change {
        Change::Insert { table, row, .. } => lies_in(tables, interval, *table, row.as_slice()),
        Change::Update {
            table,
            old,
            row,
            ..
        } => {
            lies_in(tables, interval, *table, old.as_slice())
                || lies_in(tables, interval, *table, row.as_slice())
        }
        Change::Delete { table, old, .. } => lies_in(tables, interval, *table, old.as_slice()),
    }
}

/// Whether a row of a table lies in an interval.
fn lies_in(tables: &[TableDef], interval: &Interval, table: u16, row: &[Value]) -> bool
    ensures { result ≡ lies_in_of tables.now interval.now table row.now }
{
    table == interval.table && lies(tables, interval, row)
}
