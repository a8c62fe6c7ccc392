ghost use Rattle.std.specs.Prelude.{◌≡◌, ◌≤◌, ◌||◌, ◌++◌, ◌∷◌, [], ◌==◌, ◌<◌, map, length, Some, None, nat_lt, IfOk, OnOk, OnErr, option_map, IsErrOf, ◌↔◌, slice_get, IfSome, MatchOption};
ghost use Rattle.std.specs.Option.{option_copied};
ghost use Rattle.std.specs.List.{list_any};
ghost use Rattle.std.specs.Str.{bytes_eq};
ghost use Rattle.cdb_values.specs.Named.{table_named, place_in};
ghost use Rattle.cdb_values.specs.Tables.{add_fault, place_of, is_named, has_twice, is_bad_column, are_bad_columns, are_bad_keys, is_unlawful, is_long_name, are_long_names, are_long_keys, is_past_limits};

use super::limits::{MOST_COLUMNS, MOST_KEY_COLUMNS, MOST_KEYS, MOST_NAME_BYTES, MOST_TABLES};
use super::lists::List;
use super::tables::{ColumnDef, KeyDef, TableDef};
use byte_lists::Name;
use std::alloc::{AllocError, Global};
use std::marker::Model;
use thiserror::Error;

/// Why a table was not added, in the order in which the causes are told.
#[derive(Clone, Copy, Debug, PartialEq, Eq, Error)]
pub enum AddFault {
    /// A table of that name is there.
    #[error("a table of that name is there")]
    Taken,
    /// A column or key name stands twice, a key is over no or an unknown column, or a unique key
    /// is over a column that may hold NULL.
    #[error("the table says something that no table may say")]
    Unlawful,
    /// More than 64 tables, 64 columns, 8 keys or 8 columns of a key, or a name outside 1 to 32 bytes.
    #[error("a limit of tables is passed")]
    Limit,
    /// Want of memory.
    #[error("out of memory")]
    NoMemory,
}

/// A table of a schema, and its place there.
#[derive(Clone, Copy)]
pub struct Found<'a> {
    pub place: u16,
    pub table: &'a TableDef,
}

/// The tables of a database, in the order of their declaration. Contracts see the list of tables.
#[derive(Clone, Drop)]
pub struct Schema {
    tables: List<TableDef>,
}

impl Model for Schema {
    ghost use Rattle.std.specs.Prelude.{length, ◌≤◌};
    ghost use Rattle.std.specs.List.{AllByRecursion};
    ghost use Rattle.std.specs.Prelude as std;
    ghost use Rattle.cdb_values.specs.declared.tables.TableDef.{TableDef};

    ghost Value = { std.List TableDef };

    ghost view = { λ s. s.tables };

    ghost invariant = { λ s. (length s.tables ≤ 64) × AllByRecursion (λ t. length t.keys ≤ 8) s.tables };
}

impl Schema {
    /// The schema without tables.
    pub fn new(alloc: Global) -> Schema
        ensures { result ≡ [] }
    {
        Schema {
            tables: List::new(alloc),
        }
    }

    /// Adds a table as the last one.
    #[tactic(auto, using(crate::proofs::NameLemmas::list_any_map))]
    pub fn add(&mut self, table: TableDef) -> Result<(), AddFault>
        ensures added { OnOk result (self.new ≡ self.old ++ table ∷ []) }
        ensures lawful { OnOk result (add_fault self.old table ≡ None) }
        ensures taken { result ≡ Err AddFault.Taken → add_fault self.old table ≡ Some AddFault.Taken }
        ensures unlawful { result ≡ Err AddFault.Unlawful → add_fault self.old table ≡ Some AddFault.Unlawful }
        ensures limit { result ≡ Err AddFault.Limit → add_fault self.old table ≡ Some AddFault.Limit }
        ensures unchanged { OnErr result (self.new ≡ self.old) }
    {
        if self.holds(&table.name) {
            return Err(AddFault::Taken);
        }
        if is_unlawful_table(&table) {
            return Err(AddFault::Unlawful);
        }
        if self.tables.len() >= MOST_TABLES || is_past_table_limits(&table) {
            return Err(AddFault::Limit);
        }
        self.tables.push(table).map_err(|_| AddFault::NoMemory)
    }

    /// The place of the table with that name, from 0; `None` exactly where there is none.
    pub fn table(&self, name: &Name) -> Option<u16>
        ensures { result ≡ place_of self.now name.now }
    {
        let mut rest = self.tables.as_slice();
        let mut at = 0u16;
        'tables: while let Some((table, after)) = rest.split_first() {
            if is_same(&table.name, name) {
                return Some(at);
            }
            rest = after;
            at += 1;
        }
        None
    }

    /// The table with that name and its place; `None` exactly where there is none.
    pub fn named(&self, name: &Name) -> Option<Found<'_>>
        ensures found { place_in result ≡ table_named self.now name.now }
        ensures within { IfSome result (λ f. f.place < length self.now) }
    {
        let place = self.table(name)?;
        let table = self.at(place)?;
        Some(Found { place, table })
    }

    /// Whether a table has that name.
    fn holds(&self, name: &Name) -> bool
        ensures { result ≡ list_any (λ t. bytes_eq t.name name.now) self.now }
    {
        self.tables
            .as_slice()
            .iter()
            .any(|table| is_same(&table.name, name))
    }

    /// The table at a place; `None` exactly where there is none.
    pub fn at(&self, table: u16) -> Option<&TableDef>
        ensures { option_copied result ≡ slice_get self.now table }
    {
        self.tables.as_slice().get(table as usize)
    }

    /// The keys of the table at a place, in the order of their declaration: at most 8, and none where there is no
    /// table.
    #[tactic(auto, using(crate::proofs::NameLemmas::few_at))]
    pub fn keys(&self, table: u16) -> &[KeyDef]
        ensures keys { MatchOption (slice_get self.now table) (result.now ≡ []) (λ t. result.now ≡ t.keys) }
        ensures few { length result.now ≤ 8 }
    {
        match self.tables.as_slice().get(table as usize) {
            Some(table) => table.keys.as_slice(),
            None => &[],
        }
    }

    /// The tables in order.
    pub fn tables(&self) -> &[TableDef]
        ensures { result.now ≡ self.now }
    {
        self.tables.as_slice()
    }
}

/// Whether two names are the same.
fn is_same(a: &Name, b: &Name) -> bool
    ensures { result ≡ bytes_eq a.now b.now }
{
    a.as_bytes() == b.as_bytes()
}

/// Whether a column of these has that name.
fn is_column(name: &Name, columns: &[ColumnDef]) -> bool
    ensures { result ≡ list_any (λ c. bytes_eq c.name name.now) columns.now }
{
    columns.iter().any(|column| is_same(&column.name, name))
}

/// Whether a column name stands twice.
#[tactic(auto, using(crate::proofs::NameLemmas::list_any_map))]
fn has_column_twice(columns: &[ColumnDef]) -> bool
    ensures { result ≡ has_twice (map (λ c. c.name) columns.now) }
{
    let mut rest = columns;
    'columns: while let Some((column, after)) = rest.split_first() {
        if is_column(&column.name, after) {
            return true;
        }
        rest = after;
    }
    false
}

/// Whether a key of these has that name.
fn is_key(name: &Name, keys: &[KeyDef]) -> bool
    ensures { result ≡ list_any (λ k. bytes_eq k.name name.now) keys.now }
{
    keys.iter().any(|key| is_same(&key.name, name))
}

/// Whether a key name stands twice.
#[tactic(auto, using(crate::proofs::NameLemmas::list_any_map))]
fn has_key_twice(keys: &[KeyDef]) -> bool
    ensures { result ≡ has_twice (map (λ k. k.name) keys.now) }
{
    let mut rest = keys;
    'keys: while let Some((key, after)) = rest.split_first() {
        if is_key(&key.name, after) {
            return true;
        }
        rest = after;
    }
    false
}

/// Whether no key can name the column at a place.
fn is_column_bad(columns: &[ColumnDef], unique: bool, place: u8) -> bool
    ensures { result ≡ is_bad_column unique (slice_get columns.now place) }
{
    match columns.get(place as usize) {
        None => true,
        Some(column) => unique && column.nullable,
    }
}

/// Whether one of these places names no column that a key can name.
fn has_bad_column(columns: &[ColumnDef], unique: bool, places: &[u8]) -> bool
    ensures { result ≡ are_bad_columns columns.now unique places.now }
{
    places
        .iter()
        .any(|place| is_column_bad(columns, unique, *place))
}

/// Whether one of these keys is over no column, over an unknown one, or is unique over one that
/// may hold NULL.
fn has_bad_key(columns: &[ColumnDef], keys: &[KeyDef]) -> bool
    ensures { result ≡ are_bad_keys columns.now keys.now }
{
    keys.iter().any(|key| {
        key.columns.is_empty() || has_bad_column(columns, key.unique, key.columns.as_slice())
    })
}

/// Whether a table says something that no table may say.
fn is_unlawful_table(table: &TableDef) -> bool
    ensures { result ≡ is_unlawful table.now }
{
    let columns = table.columns.as_slice();
    let keys = table.keys.as_slice();
    has_column_twice(columns) || has_key_twice(keys) || has_bad_key(columns, keys)
}

/// Whether a name is outside 1 to 32 bytes.
fn is_outside(name: &Name) -> bool
    ensures { result ≡ is_long_name name.now }
{
    let bytes = name.as_bytes().len();
    bytes == 0 || MOST_NAME_BYTES < bytes
}

/// Whether one of these columns has a name outside 1 to 32 bytes.
fn has_column_outside(columns: &[ColumnDef]) -> bool
    ensures { result ≡ list_any (λ c. is_long_name c.name) columns.now }
{
    columns.iter().any(|column| is_outside(&column.name))
}

/// Whether one of these keys has a name outside 1 to 32 bytes, or more than 8 columns.
fn has_key_outside(keys: &[KeyDef]) -> bool
    ensures { result ≡ are_long_keys keys.now }
{
    keys.iter().any(|key| is_outside(&key.name) || MOST_KEY_COLUMNS < key.columns.len())
}

/// Whether a table passes a limit of its own.
#[tactic(auto, using(crate::proofs::NameLemmas::list_any_map))]
fn is_past_table_limits(table: &TableDef) -> bool
    ensures { result ≡ is_past_limits table.now }
{
    let columns = table.columns.as_slice();
    let keys = table.keys.as_slice();
    is_outside(&table.name)
        || MOST_COLUMNS < columns.len()
        || MOST_KEYS < keys.len()
        || has_column_outside(columns)
        || has_key_outside(keys)
}
