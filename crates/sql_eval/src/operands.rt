//! What a column or an operand is in a combination. A place or a column that is not there has NULL, so that nothing has to
//! be known of the query or of the rows.
ghost use Rattle.std.specs.Prelude.{◌≡◌, unwrap_or};
ghost use Rattle.std.specs.Option.{option_copied};
ghost use Rattle.sql_answer.specs.Conditions.{column_value, operand_value};
ghost use Rattle.sql_eval.specs.Views.{rows_in, value_or_null};

use cdb_values::{Value, Version};
use sql_bind::{BoundColumn, BoundOperand};

/// The value of a column in a combination; `None` where it has none, which stands for NULL.
pub(crate) fn column_of(rows: &[Version], column: BoundColumn) -> Option<&Value>
    ensures { value_or_null (option_copied result) ≡ column_value (rows_in rows.now) column }
{
    match rows.get(column.place as usize) {
        Some(version) => version.row.as_slice().get(column.column as usize),
        None => None,
    }
}

/// The value of an operand in a combination; `None` where it has none, which stands for NULL.
pub(crate) fn operand_of<'a>(operand: &'a BoundOperand, rows: &'a [Version]) -> Option<&'a Value>
    ensures { value_or_null (option_copied result) ≡ operand_value (rows_in rows.now) operand.now }
{
    match operand {
        BoundOperand::Value(value) => Some(value),
        BoundOperand::Column(column) => column_of(rows, *column),
    }
}
