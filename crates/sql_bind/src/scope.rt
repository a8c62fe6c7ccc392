//! The tables of a statement, and the columns that a name may mean.
ghost use Rattle.std.specs.Prelude.{◌≡◌, ◌≤◌, map, take, length, Some, None, ◌∷◌, []};
ghost use Rattle.std.specs.List.{list_any};
ghost use Rattle.sql_grammar.specs.Views.{name_in, column_in};
ghost use Rattle.sql_bind.specs.Scope.{as_byte, column_place, is_called as called, place_in, may_mean, is_unknown as unknown, is_ambiguous as ambiguous, may_be_same as same, is_same_place, meant_from, meant, kind_meant, kind_at, named_ones};
ghost use Rattle.sql_bind.specs.Faults.{own_column};
ghost use Rattle.sql_bind.specs.Seen.{visible_in, qualifier_in};

use crate::types::BoundColumn;
use cdb_values::{ColumnType, Name, TableDef};
use sql_grammar::ColumnName;

/// How many places there are: each is one byte.
pub(crate) const PLACES: usize = 256;

/// A table of a statement, under the name by which its columns may be called.
#[derive(Clone, Copy)]
pub(crate) struct VisibleTable<'a> {
    /// Its place in the schema.
    pub place: u16,
    pub name: &'a [u8],
    pub table: &'a TableDef,
}

impl VisibleTable<'_> {
    /// The place of the column with that name.
    pub(crate) fn column(&self, name: &[u8]) -> Option<u8>
        ensures { result ≡ column_place (visible_in self.now) name.now }
    {
        byte(self.table.column(name)?)
    }

    /// The place of the column that the name may mean.
    pub(crate) fn place_of(&self, column: &ColumnName) -> Option<u8>
        ensures { result ≡ place_in (column_in column.now) (visible_in self.now) }
    {
        if is_called(&column.qualifier, self.name) {
            self.column(column.name.as_bytes())
        } else {
            None
        }
    }

    /// Whether the table has no column of that name.
    pub(crate) fn lacks(&self, name: &[u8]) -> bool
        ensures { result ≡ unknown (visible_in self.now ∷ []) (own_column name.now) }
    {
        self.column(name).is_none()
    }

    /// The place of the column with that name; of an unknown one, for which a statement is refused, the first.
    pub(crate) fn place_or_first(&self, name: &[u8]) -> u8
        ensures { result ≡ (meant (visible_in self.now ∷ []) (own_column name.now)).column }
    {
        match self.column(name) {
            Some(column) => column,
            None => 0,
        }
    }

    /// The type of the column with that name.
    pub(crate) fn kind_of(&self, name: &[u8]) -> Option<ColumnType>
        ensures { result ≡ kind_meant (visible_in self.now ∷ []) (own_column name.now) }
    {
        self.kind_at(self.column(name)?)
    }

    /// The type of the column at a place.
    fn kind_at(&self, place: u8) -> Option<ColumnType>
        ensures { result ≡ kind_at (visible_in self.now) (Some place) None }
    {
        let column = self.table.columns.as_slice().get(place as usize)?;
        Some(column.kind)
    }

    /// Whether the name may mean one of its columns.
    fn may_have(&self, column: &ColumnName) -> bool
        ensures { result ≡ may_mean (column_in column.now) (visible_in self.now) }
    {
        self.place_of(column).is_some()
    }
}

/// A place that is one byte.
pub(crate) fn byte(place: usize) -> Option<u8>
    ensures { result ≡ as_byte place }
{
    if place < PLACES {
        Some(place as u8)
    } else {
        None
    }
}

/// Whether a column with this qualifier, or with none, may come from a table of that name.
fn is_called(qualifier: &Option<Name>, name: &[u8]) -> bool
    ensures { result ≡ called (qualifier_in qualifier.now) name.now }
{
    match qualifier {
        None => true,
        Some(qualifier) => qualifier.is(name),
    }
}

/// Whether no table has the column.
pub(crate) fn is_unknown(scope: &[VisibleTable], column: &ColumnName) -> bool
    ensures { result ≡ unknown (map visible_in scope.now) (column_in column.now) }
{
    !scope.iter().any(|table| table.may_have(column))
}

/// Whether two tables have the column.
pub(crate) fn is_ambiguous(scope: &[VisibleTable], column: &ColumnName) -> bool
    ensures { result ≡ ambiguous (map visible_in scope.now) (column_in column.now) }
{
    1 < scope.iter().filter(|table| table.may_have(column)).count()
}

/// Whether two places are one.
fn is_same(a: Option<u8>, b: Option<u8>) -> bool
    ensures { result ≡ is_same_place a b }
{
    match (a, b) {
        (Some(a), Some(b)) => a == b,
        _ => false,
    }
}

/// Whether two names may mean one column.
pub(crate) fn may_be_same(scope: &[VisibleTable], a: &ColumnName, b: &ColumnName) -> bool
    ensures { result ≡ same (map visible_in scope.now) (column_in a.now) (column_in b.now) }
{
    scope
        .iter()
        .any(|table| is_same(table.place_of(a), table.place_of(b)))
}

/// The items that have a place.
pub(crate) fn with_places<T>(items: &[T]) -> &[T]
    ensures first { result.now ≡ take 256 items.now }
    ensures places { length result.now ≤ 256 }
{
    if items.len() <= PLACES {
        return items;
    }
    &items[..PLACES]
}

/// The tables that can be named.
#[tactic(auto, using(crate::proofs::ListLemmas::first_named))]
pub(crate) fn named<'a, 'b>(tables: &'b [VisibleTable<'a>]) -> &'b [VisibleTable<'a>]
    ensures named { map visible_in result.now ≡ named_ones (map visible_in tables.now) }
    ensures places { length result.now ≤ 256 }
{
    with_places(tables)
}

/// The column that a name means; of an unknown one, for which a statement is refused, the first.
pub(crate) fn column(scope: &[VisibleTable], name: &ColumnName) -> BoundColumn
    requires { length scope.now ≤ 256 }
    ensures { result ≡ meant (map visible_in scope.now) (column_in name.now) }
{
    'tables: for (place, table) in scope.iter().enumerate() {
        if let Some(column) = table.place_of(name) {
            return BoundColumn {
                place: place as u8,
                column,
            };
        }
    }
    BoundColumn {
        place: 0,
        column: 0,
    }
}

/// The type of the column that a name means.
pub(crate) fn kind(scope: &[VisibleTable], name: &ColumnName) -> Option<ColumnType>
    ensures { result ≡ kind_meant (map visible_in scope.now) (column_in name.now) }
{
    'tables: for table in scope {
        if let Some(column) = table.place_of(name) {
            return table.kind_at(column);
        }
    }
    None
}
