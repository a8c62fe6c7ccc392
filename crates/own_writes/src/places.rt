//! Writes that are found by their marks.
ghost use Rattle.std.specs.Prelude.{◌≡◌, ℕ, ◌<◌, ◌≤◌, List, length, slice_get, true, false, Some, IfSome};
ghost use Rattle.std.specs.BTreeSet.{contains};
ghost use Rattle.std.specs.List.{list_any};
ghost use Rattle.std.specs.Option.{IfNone};
ghost use Rattle.std.specs.Ordering.{is_eq, nat_cmp};
ghost use Rattle.cdb_values.specs.Rows.{takes as takes_of};
ghost use Rattle.cdb_values.specs.declared.values.Value.{Value as OneValue};
ghost use Rattle.session_language.specs.Intervals.{are_equal, cell, lies as lies_of, stand_so};
ghost use Rattle.own_writes.specs.Kept.{AreKept, AreSmall, HasColumns, Rise, has, stamp_at};

use crate::marks::{STAMP_LIMIT, column_mark, genid_mark, key_of};
use cdb_values::{Interval, KeyDef, RowOp, TableDef, Value};
use std::collections::BTreeSet;

/// Whether writes take that version of a table away.
#[tactic(auto, using(crate::proofs::PlaceLemmas::none_of, crate::proofs::PlaceLemmas::one_of))]
pub(crate) fn is_taken(
    ops: &[RowOp],
    stamps: &[u64],
    marks: &BTreeSet<u64>,
    table: u16,
    genid: u64,
) -> bool
    requires { AreKept ops.now stamps.now marks.now }
    ensures { result ≡ list_any (takes_of table genid) ops.now }
{
    let mark = genid_mark(table, genid);
    let mut at: usize = 0;
    'places: while at < ops.len() {
        at = next_place(stamps, marks, mark, at);
        let Some(op) = ops.get(at) else {
            return false;
        };
        if op.takes(table as usize, genid) {
            return true;
        }
        at += 1;
    }
    false
}

/// The first place, from one on, that may be of a write whose row has these values in the first of these columns.
pub(crate) fn next_by(
    stamps: &[u64],
    marks: &BTreeSet<u64>,
    table: u16,
    columns: &[u8],
    values: &[Value],
    from: usize,
) -> usize
    requires rise { Rise stamps.now }
    requires small { AreSmall stamps.now }
    ensures later { from ≤ result }
    ensures within { from ≤ length stamps.now → result ≤ length stamps.now }
    ensures behind { length stamps.now ≤ from → result ≡ from }
    ensures passed { (k : ℕ) (row : List OneValue) → from ≤ k → k < result → k < length stamps.now
        → HasColumns marks.now (stamp_at stamps.now k) table row → are_equal columns.now values.now row ≡ false }
{
    let mut at = from;
    let mut rest = columns;
    let mut left = values;
    'values: while let Some((value, later)) = left.split_first() {
        let Some((column, others)) = rest.split_first() else {
            return at;
        };
        at = next_for(stamps, marks, table, *column, value, at);
        rest = others;
        left = later;
    }
    at
}

/// The first place, from one on, that may be of a write whose row has a value in a column.
#[tactic(auto, using(crate::proofs::MarkLemmas::passed_by))]
fn next_for(
    stamps: &[u64],
    marks: &BTreeSet<u64>,
    table: u16,
    column: u8,
    value: &Value,
    from: usize,
) -> usize
    requires rise { Rise stamps.now }
    requires small { AreSmall stamps.now }
    ensures later { from ≤ result }
    ensures within { from ≤ length stamps.now → result ≤ length stamps.now }
    ensures behind { length stamps.now ≤ from → result ≡ from }
    ensures passed { (k : ℕ) (row : List OneValue) → from ≤ k → k < result → k < length stamps.now
        → HasColumns marks.now (stamp_at stamps.now k) table row → stand_so is_eq (cell row column) value.now ≡ false }
{
    let mark = column_mark(table, column as u64, value);
    next_place(stamps, marks, mark, from)
}

/// The first place, from one on, that may be of a write with a mark: those before it have it not. A write that is not
/// marked is not passed over.
fn next_place(stamps: &[u64], marks: &BTreeSet<u64>, mark: u64, from: usize) -> usize
    requires rise { Rise stamps.now }
    requires small { AreSmall stamps.now }
    requires mark { mark < 4294967296 }
    ensures later { from ≤ result }
    ensures within { from ≤ length stamps.now → result ≤ length stamps.now }
    ensures behind { length stamps.now ≤ from → result ≡ from }
    ensures passed { (k : ℕ) → from ≤ k → k < result → k < length stamps.now → has marks.now mark (stamp_at stamps.now k) ≡ false }
{
    if from >= stamps.len() {
        return from;
    }
    let least = key_of(mark, stamps[from]);
    match next_key(marks, least) {
        Some(key) => from.max(place_of(stamps, key - mark * STAMP_LIMIT)),
        None => stamps.len(),
    }
}

/// The least key, from one on.
fn next_key(marks: &BTreeSet<u64>, from: u64) -> Option<u64>
    ensures from { IfSome result (λ key. from ≤ key) }
    ensures least { IfSome result (λ key. (q : ℕ) → from ≤ q → q < key → contains nat_cmp marks.now q ≡ false) }
    ensures none { IfNone result ((q : ℕ) → from ≤ q → contains nat_cmp marks.now q ≡ false) }
{
    match marks.range(from..).next() {
        Some(key) => Some(*key),
        None => None,
    }
}

/// How many stamps there are below one.
fn place_of(stamps: &[u64], stamp: u64) -> usize
    requires { Rise stamps.now }
    ensures within { result ≤ length stamps.now }
    ensures before { (k : ℕ) → k < result → stamp_at stamps.now k < stamp }
{
    match stamps.binary_search(&stamp) {
        Ok(at) => at,
        Err(at) => at,
    }
}

/// The key of an interval, where its table has it. A row without the interval's values in the key's first columns is
/// not in the interval.
#[tactic(auto, using(crate::proofs::MarkLemmas::lies_not))]
pub(crate) fn key_named<'a>(tables: &'a [TableDef], interval: &Interval) -> Option<&'a KeyDef>
    ensures { IfSome result (λ key. (row : List OneValue)
        → are_equal key.now.columns interval.now.equal row ≡ false → lies_of tables.now interval.now row ≡ false) }
{
    let key = interval.key?;
    let table = tables.get(interval.table as usize)?;
    table.keys.as_slice().get(key as usize)
}
