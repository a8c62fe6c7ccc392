//! Which interval changes touch.
ghost use Rattle.std.specs.Prelude.{◌≡◌};
ghost use Rattle.session_language.specs.Intervals.{changes_touch};
ghost use Rattle.range_validate.specs.Touches.{first_range as first_range_of};

use cdb_values::{Change, Interval, Item, TableDef};
use key_intervals::touches;

/// The first of these intervals that changes touch.
pub(crate) fn first_range(
    tables: &[TableDef],
    changes: &[Change],
    ranges: &[Interval],
) -> Option<Item>
    ensures { result ≡ first_range_of tables.now changes.now ranges.now }
{
    let mut rest = ranges;
    'intervals: while let Some((interval, after)) = rest.split_first() {
        if is_touched(tables, changes, interval) {
            return Some(Item::Range {
                table: interval.table,
                key: interval.key,
            });
        }
        rest = after;
    }
    None
}

/// Whether one of these changes touches an interval.
fn is_touched(tables: &[TableDef], changes: &[Change], interval: &Interval) -> bool
    ensures { result ≡ changes_touch tables.now interval.now changes.now }
{
    changes
        .iter()
        .any(|change| touches(tables, interval, change))
}
