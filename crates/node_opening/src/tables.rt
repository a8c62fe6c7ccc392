//! The given tables, and those of a log.
ghost use Rattle.std.specs.Prelude.{◌≡◌, MatchOption};
ghost use Rattle.std.specs.Bool.{Decides};
ghost use Rattle.node_opening.specs.Tables.{AreMatched, IsDifference, AreSame, IsSameAt};

use cdb_values::{ColumnDef, KeyDef, Name, TableDef};

/// The place of the first given table that differs from the log's table there, or has none there; where there is none,
/// and the log has more tables, that of the last given one. None where no tables are given, or those of the log.
pub fn difference(given: &[TableDef], logged: &[TableDef]) -> Option<u64>
    ensures { MatchOption result (AreMatched given.now logged.now) (IsDifference given.now logged.now) }
{
    let same = count_same(given, logged);
    if same < given.len() {
        return Some(same as u64);
    }
    if same == 0 || logged.len() <= same {
        return None;
    }
    Some((same - 1) as u64)
}

/// How many first tables are the same.
fn count_same(given: &[TableDef], logged: &[TableDef]) -> usize
    ensures { AreSame given.now logged.now result }
{
    let mut same = 0;
    'tables: while is_same_at(given, logged, same) {
        same += 1;
    }
    same
}

/// Whether both have the same table at a place.
fn is_same_at(given: &[TableDef], logged: &[TableDef], at: usize) -> bool
    ensures { Decides result (IsSameAt given.now logged.now at) }
{
    match (given.get(at), logged.get(at)) {
        (Some(a), Some(b)) => is_same_table(a, b),
        _ => false,
    }
}

/// Whether two tables are the same: their names, columns and keys.
fn is_same_table(a: &TableDef, b: &TableDef) -> bool
    ensures { Decides result (a.now ≡ b.now) }
{
    is_same_name(&a.name, &b.name)
        && are_same_columns(a.columns.as_slice(), b.columns.as_slice())
        && are_same_keys(a.keys.as_slice(), b.keys.as_slice())
}

/// Whether two names are the same.
fn is_same_name(a: &Name, b: &Name) -> bool
    ensures { Decides result (a.now ≡ b.now) }
{
    a.as_bytes() == b.as_bytes()
}

/// Whether these columns are the same ones, in the same order.
fn are_same_columns(a: &[ColumnDef], b: &[ColumnDef]) -> bool
    ensures { Decides result (a.now ≡ b.now) }
{
    let mut rest = a;
    let mut others = b;
    'columns: while let Some((first, behind)) = rest.split_first() {
        match others.split_first() {
            Some((other, after)) if is_same_column(first, other) => others = after,
            _ => return false,
        }
        rest = behind;
    }
    others.is_empty()
}

/// Whether two columns are the same.
fn is_same_column(a: &ColumnDef, b: &ColumnDef) -> bool
    ensures { Decides result (a.now ≡ b.now) }
{
    is_same_name(&a.name, &b.name) && a.kind == b.kind && a.nullable == b.nullable
}

/// Whether these keys are the same ones, in the same order.
fn are_same_keys(a: &[KeyDef], b: &[KeyDef]) -> bool
    ensures { Decides result (a.now ≡ b.now) }
{
    let mut rest = a;
    let mut others = b;
    'keys: while let Some((first, behind)) = rest.split_first() {
        match others.split_first() {
            Some((other, after)) if is_same_key(first, other) => others = after,
            _ => return false,
        }
        rest = behind;
    }
    others.is_empty()
}

/// Whether two keys are the same.
fn is_same_key(a: &KeyDef, b: &KeyDef) -> bool
    ensures { Decides result (a.now ≡ b.now) }
{
    is_same_name(&a.name, &b.name)
        && a.columns.as_slice() == b.columns.as_slice()
        && a.unique == b.unique
}
