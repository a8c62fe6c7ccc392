ghost use Rattle.std.specs.Prelude.{◌≡◌, ◌<◌, length, IfSome, slice_get, unwrap_or};
ghost use Rattle.std.specs.Ordering.{is_eq};
ghost use Rattle.cdb_values.specs.Columns.{column_at};
ghost use Rattle.cdb_values.specs.Good.{key_of, same_values};
ghost use Rattle.cdb_values.specs.Order.{value_order};

use super::lists::List;
use super::values::{Value, order};
use byte_lists::Name;
use std::cmp::Ordering;

/// The type of a column.
#[derive(Clone, Copy, PartialEq, Eq, Debug)]
pub enum ColumnType {
    Integer,
    Text,
    Blob,
}

/// A column of a table.
#[derive(Clone, Drop)]
pub struct ColumnDef {
    pub name: Name,
    pub kind: ColumnType,
    /// Whether NULL may stand in it.
    pub nullable: bool,
}

/// A key of a table. `columns` are places of columns in the table, from 0.
#[derive(Clone, Drop)]
pub struct KeyDef {
    pub name: Name,
    pub columns: List<u8>,
    /// Whether no two rows may have the same values there.
    pub unique: bool,
}

impl KeyDef {
    /// Whether two rows have the same values at the key. A row without one of its columns has NULL there.
    #[tactic(auto, using(crate::proofs::KeyLemmas::same_more, crate::proofs::KeyLemmas::same_stops))]
    pub fn has_same_values(&self, a: &[Value], b: &[Value]) -> bool
        ensures { result ≡ same_values (key_of self.now a.now) (key_of self.now b.now) }
    {
        let mut rest = self.columns.as_slice();
        'columns: while let Some((column, after)) = rest.split_first() {
            if !is_same_at(*column, a, b) {
                return false;
            }
            rest = after;
        }
        true
    }
}

/// Whether two rows have the same value in a column. A row without that column has NULL there.
fn is_same_at(column: u8, a: &[Value], b: &[Value]) -> bool
    ensures { result ≡ is_eq (value_order (unwrap_or (slice_get a.now column) Value.Null) (unwrap_or (slice_get b.now column) Value.Null)) }
{
    let null = Value::Null;
    let a = a.get(column as usize).unwrap_or(&null);
    let b = b.get(column as usize).unwrap_or(&null);
    is_equal(order(a, b))
}

/// Whether an order is that of equal values.
fn is_equal(order: Ordering) -> bool
    ensures { result ≡ is_eq order }
{
    match order {
        Ordering::Equal => true,
        Ordering::Less | Ordering::Greater => false,
    }
}

/// A table: its name, its columns and its keys, each in the order of their declaration.
#[derive(Clone, Drop)]
pub struct TableDef {
    pub name: Name,
    pub columns: List<ColumnDef>,
    pub keys: List<KeyDef>,
}

impl TableDef {
    /// The place of the first column with that name, from 0; `None` exactly where there is none.
    pub fn column(&self, name: &[u8]) -> Option<usize>
        ensures place { result ≡ column_at name.now self.now.columns }
        ensures within { IfSome result (λ at. at < length self.now.columns) }
    {
        let mut rest = self.columns.as_slice();
        let mut at = 0usize;
        'columns: while let Some((column, after)) = rest.split_first() {
            if column.name.is(name) {
                return Some(at);
            }
            rest = after;
            at += 1;
        }
        None
    }
}
