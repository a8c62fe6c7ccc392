//! Whether a row lies in an interval, as plans have it.
ghost use Rattle.std.specs.Prelude.{◌≡◌};
ghost use Rattle.query_laws.specs.Intervals.{lies as lies_of};
ghost use Rattle.query_plan.specs.Views.{interval_in};

use cdb_values::{Interval, TableDef, Value};

/// Whether a row of its table lies in an interval; none does in one whose key the table lacks.
#[tactic(auto, using(crate::proofs::LyingLemmas::lies_alike))]
pub fn lies(tables: &[TableDef], interval: &Interval, row: &[Value]) -> bool
    ensures { result ≡ lies_of tables.now (interval_in interval.now) row.now }
{
    key_intervals::lies(tables, interval, row)
}
